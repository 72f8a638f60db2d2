//! Laws of all streams. Each law is a function that does nothing; its contract is the law.

ghost use Rattle.stream_check.specs.Parts.{IsTheMost};
ghost use Rattle.stream_check.specs.Contradictions.{AgreeingHasNone, AreReportedOnce};
ghost use Rattle.stream_check.specs.Contradictions.{NoneIsLeftOut};
ghost use Rattle.stream_check.specs.Frames.{Reading};

/// The law of parts: of all ways to cut the frames of a notice into successive parts that each
/// contain all that is wanted, ending each part as early as possible gives the maximum number of
/// parts. So the number that is reported for a notice is the number of times that the next
/// configuration could be read.
pub fn parts()
    ensures { IsTheMost }
{}

/// The law of agreement: a FIG has no contradictions to a configuration exactly if it agrees with
/// it, as `agrees` of `fig_mentions` says.
pub fn agreement()
    ensures { AgreeingHasNone }
{}

/// The law of contradictions: between two swaps none is reported twice, and at most 64 are; each is
/// reported, unless 64 are.
pub fn contradictions()
    ensures once { AreReportedOnce }
    ensures every { NoneIsLeftOut }
{}

/// The law of reading: all FIBs can be read by the grammar, each as its FIGs or as damaged.
pub fn reading()
    ensures { Reading }
{
    fib_reader::laws::reading();
}
