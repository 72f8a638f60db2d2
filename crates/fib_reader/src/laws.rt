//! Laws that hold for all FIBs, whatever reads them. Each law is a function that does nothing; its
//! contract is the law.

ghost use Rattle.fib_reader.specs.Laws.{FaultOrFigs, FigsOrFault, OneFault, FigsAreTheFront};
ghost use Rattle.fib_reader.specs.Laws.{EnsembleIsHeard, WrittenIsGood, WrittenIsRead};

/// Reading: bytes are a FIB or have a fault, not both, and have at most one fault.
pub fn reading()
    ensures apart { FaultOrFigs }
    ensures either { FigsOrFault }
    ensures one_fault { OneFault }
{}

/// Offsets: the bytes of the FIGs of a FIB, concatenated, are the front of its thirty data bytes.
/// So each FIG is at the offset where those before it end.
pub fn places()
    ensures { FigsAreTheFront }
{}

/// Ensemble information: FIG 0/0 is decoded to what was sent.
pub fn ensemble()
    ensures { EnsembleIsHeard }
{}

/// Writer and reader: a FIB that was written is read without a fault, and with the FIGs that were
/// written; those with OE 1 are not parsed.
pub fn written_is_read()
    ensures good { WrittenIsGood }
    ensures read { WrittenIsRead }
{
    fib_codec::laws::written();
    fib_codec::laws::one_list();
    reading();
}
