//! Laws of all streams, whoever receives them, and of merged frames. Each law is a function that
//! does nothing; its contract is the law.

ghost use Rattle.cli_streams.specs.Merging.{MergedAreCheckedAlike, MergedAreFilled, MergesByCalls};
ghost use Rattle.cli_streams.specs.Stream.{OneAnswer};

/// A stream of FIBs has at most one result.
pub fn streams()
    ensures { OneAnswer }
{
    fib_codec::laws::one_list();
    fib_reader::laws::reading();
}

/// The law of merging: the FIBs of merged frames are those that a merger fills, in a sequence of
/// calls that takes the FIBs of the multiplexer's next frame, while it has one, before each frame
/// of the plan; so the laws of `fig_merge` hold of them. Each merged frame has the FIGs of the
/// plan's frame, with others behind those of each FIB, and the checker of streams finds in merged
/// frames what it finds in the plan's.
pub fn merging()
    ensures calls { MergesByCalls }
    ensures frames { MergedAreFilled }
    ensures findings { MergedAreCheckedAlike }
{
    fig_merge::laws::filled();
    fig_merge::laws::checked();
}
