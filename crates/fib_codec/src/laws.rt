//! Laws that hold for all FIBs, whatever writes or reads them. Each law is a function that does
//! nothing; its contract is the law.

ghost use Rattle.fib_codec.specs.Spelling.{SpellingIdentifies};
ghost use Rattle.fib_codec.specs.Grammar.{OneList, SpellingIsEntry, WrittenIsFib, WrittenIsValid};
ghost use Rattle.fib_codec.specs.Heard.{HeardIsWritten};
ghost use Rattle.fib_codec.specs.Laws.{EntryIsSpelled, FibHas32Bytes};
ghost use Rattle.fib_codec.specs.Modes.{StepsDivide};
ghost use Rattle.fib_codec.specs.Layouts.{LayoutsDivide, LayoutIsOne};

/// Grammar: 32 bytes contain at most one list of FIGs.
pub fn one_list()
    ensures { OneList }
{}

/// Length: bytes that contain a list of FIGs, with their CRC, are 32.
pub fn fib_length()
    ensures { FibHas32Bytes }
{}

/// Encoding: an entry that is written is an entry in the grammar, bytes that are an entry in the
/// grammar are those of an entry that can be written, and entries of one extension and one P/D flag
/// are distinguished by their bytes.
pub fn spelling()
    ensures is_entry { SpellingIsEntry }
    ensures is_spelled { EntryIsSpelled }
    ensures tells { SpellingIdentifies }
{}

/// Written FIBs: their bytes contain exactly the FIGs that were written, and are valid if all of
/// these are of this ensemble.
pub fn written()
    ensures fib { WrittenIsFib }
    ensures valid { WrittenIsValid }
{}

/// Decoding: bytes that contain written FIGs have exactly the entries of those FIGs, each with the
/// C/N flag of its head, and none of another ensemble.
pub fn heard()
    ensures { HeardIsWritten }
{}

/// Steps: in each transmission mode the 5000 CIF counts are a whole number of steps, a step is at
/// least 1, and three steps are at most 12, so that each notice has three FIG 0/0.
pub fn steps()
    ensures { StepsDivide }
{}

/// Layouts: each FIB of a frame either carries FIGs or is reserved, at least two carry FIGs, and a
/// mode and a number of reserved FIBs have at most one layout.
pub fn layouts()
    ensures divide { LayoutsDivide }
    ensures one { LayoutIsOne }
{}
