//! Laws of merging. Each law is a function that does nothing; its contract is the law.

ghost use Rattle.fig_merge.specs.Steps.{AllAreAccounted, AllAreCarried, CarriedAgree};
ghost use Rattle.fig_merge.specs.Steps.{TheLongestWaitingGoes};
ghost use Rattle.fig_merge.specs.Passing.{AllAreFilled, FilledHasTheEntries, FilledIsAsLong};
ghost use Rattle.fig_merge.specs.Passing.{FilledIsRead, FilledIsHeardAlike};
ghost use Rattle.fig_merge.specs.Passing.{FilledIsCheckedAlike, FilledIsFramedAlike};
ghost use Rattle.fig_merge.specs.Passing.{FilledIsFullAlike};

/// The law of filling: a filled FIB is damaged where the plan's FIB is. Otherwise its FIGs are the
/// plan's, in order, followed by those that are carried. From every state a listener knows the same
/// after it as after the plan's FIB, and the entries of this ensemble in it are those in the
/// plan's. It has as many bytes. So are all FIBs that a new merger fills, in any sequence of calls,
/// and each FIG that is carried in them agrees.
pub fn filled()
    ensures read { FilledIsRead }
    ensures heard { FilledIsHeardAlike }
    ensures entries { FilledHasTheEntries }
    ensures length { FilledIsAsLong }
    ensures stream { AllAreFilled }
{
    fib_codec::laws::fib_length();
}

/// The law of checking: a stream whose FIBs have FIGs carried behind their own is cut into frames
/// at the same places, and the checker has room for the entries of both or of neither, whatever is
/// carried. It finds the same in these frames if each FIG that is carried agrees with the current
/// configuration, as far as it was heard up to and with the FIB that carries it.
pub fn checked()
    ensures framed { FilledIsFramedAlike }
    ensures findings { FilledIsCheckedAlike }
    ensures room { FilledIsFullAlike }
{}

/// The law of accounts: after any sequence of calls, each FIG that was taken was carried with its
/// bytes, waits, had the bytes of one that waited, was dropped, or was stale, and only one of
/// these. The numbers add up, and the counts are these numbers.
pub fn accounts()
    ensures { AllAreAccounted }
{}

/// The law of order: of the FIGs that fit into what is left of a FIB, the turn of the one that has
/// waited longest comes first. So a FIG overtakes longer ones only.
pub fn order()
    ensures { TheLongestWaitingGoes }
{}

/// The law of agreement: each FIG that is carried agrees with the plan's current configuration, as
/// far as it was heard up to and with the FIB that carries it.
pub fn agreement()
    ensures { CarriedAgree }
{}

/// The law of carrying: in a frame with a FIB without FIGs the turn of the FIG that has waited
/// longest comes. Where each frame has such a FIB, the turn of each FIG that waits comes within 256
/// frames. One that agrees is carried then.
pub fn carried()
    ensures { AllAreCarried }
{}
