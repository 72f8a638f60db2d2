//! Laws of every run, for any implementation of a player.
//! Each law is a function that does nothing; its contract is the law.

ghost use Rattle.plan_runs.specs.Frames.{BurstsAreOne};
ghost use Rattle.plan_runs.specs.TypedRuns.{StartsAreReached, ReachedIsKept, TypedCodeRuns};
ghost use Rattle.plan_runs.specs.TypedRuns.{FramesCanBeSent};
ghost use Rattle.plan_runs.specs.Headline.{FramesOfTypedCodeAreRight, PeriodsAreWhole};
ghost use Rattle.plan_runs.specs.Headline.{SwapsAreAnnounced, SwapsComeAsAnnounced, HeardIsKnown};
ghost use Rattle.plan_runs.specs.Headline.{HeadlineHolds};
ghost use Rattle.plan_runs.specs.Reserved.{ReservesAreKept};
ghost use Rattle.plan_runs.specs.Announced.{RunsJoin};
ghost use Rattle.plan_runs.specs.Settings.{LastLevelsCount};
ghost use Rattle.plan_runs.specs.LastSent.{HeardWasSent};
ghost use Rattle.plan_runs.specs.SentHeaders.{HeadersAreSent};
ghost use Rattle.plan_runs.specs.Clock.{FramesAreCounted, ContactsAreAsSet};
ghost use Rattle.plan_runs.specs.Swaps.{SwapsAreOnSteps, SwapsChangeTheCurrent, CommitsAreKept};
ghost use Rattle.plan_runs.specs.Swaps.{SwapsAreCommitted};
ghost use Rattle.plan_runs.specs.Waits.{InstructionsSuspend, WaitsAreKept};
ghost use Rattle.plan_runs.specs.Listening.{ListenersAreRight};

/// The law of bursts: a frame's instructions determine one final state, and their number is the
/// frame's step count.
pub fn bursts()
    ensures { BurstsAreOne }
{}

/// The law of reached states: a start in range is reached, and so is every state that follows a
/// reached one.
pub fn reached()
    ensures start { StartsAreReached }
    ensures kept { ReachedIsKept }
{}

/// The law of runs: a run over some events and then over more is the run over all of them, trap for
/// trap and byte for byte.
pub fn runs()
    ensures { RunsJoin }
{}

/// The law of contacts: only the last setting of a contact between two frames counts, and the order
/// of settings of different contacts doesn't matter.
pub fn contacts()
    ensures { LastLevelsCount }
{}

/// The law of swaps: a swap is due only in a frame whose CIF count is a multiple of the mode's
/// step. In that frame the next configuration becomes the current one; in every other frame the
/// current one is unchanged. After a frame that executes `CommitAt n` the first swap is due in the
/// first frame with count n that is at least a notice later, and after `CommitIn k` in the first
/// one on a multiple of the step that is at least k frames later; without a commit there is none.
pub fn swaps()
    ensures on_steps { SwapsAreOnSteps }
    ensures current { SwapsChangeTheCurrent }
    ensures commits { CommitsAreKept }
    ensures committed { SwapsAreCommitted }
{
    plan_code::laws::commits();
}

/// The law of waits: an instruction that suspends is the last of its frame and determines what is
/// waited for. After that frame, the first one that executes instructions is the n-th for a wait of
/// n frames; the first at the frame of the day, the first with the contact at the level, or the
/// first in which a swap is due, for a wait for one of these; the first that is one of the
/// alternatives for a wait with alternatives; and none where the code has ended. The counts are
/// those of the start plus one for each frame, and a contact is at the level to which it was last
/// set.
pub fn waits()
    ensures suspends { InstructionsSuspend }
    ensures kept { WaitsAreKept }
    ensures counted { FramesAreCounted }
    ensures levels { ContactsAreAsSet }
{}

/// The law of typed codes: from every state that a typed code reaches, over every list of events,
/// there is no trap, each frame's instructions reach a suspension within the budget, and the
/// current configuration stays sound.
pub fn typed_code_runs()
    ensures { TypedCodeRuns }
{}

/// The law of pages: in every frame of a typed code the page in turn is one of the pages of what is
/// sent, and the fields of FIG 0/0 fit in their bits.
pub fn pages_in_turn()
    ensures { FramesCanBeSent }
{}

/// The law of frames: in every state that a typed code reaches, the bytes of the next frame are
/// correct. They are the mode's number of valid FIBs; FIG 0/0 comes first where it is due and is
/// nowhere else, with change flags and occurrence change in a notice and without them otherwise;
/// and all entries are those of the current configuration and, in a notice, of the next one.
pub fn frames()
    ensures { FramesOfTypedCodeAreRight }
{}

/// The law of the reserve: in every frame of every run of a typed code the reserved FIBs, the last
/// of the frame, are empty. There is room in them for FIGs from elsewhere, whatever the code sends.
pub fn reserved()
    ensures { ReservesAreKept }
{}

/// The law of periods: in any P successive frames of one phase the whole current configuration is
/// heard.
pub fn periods()
    ensures { PeriodsAreWhole }
{}

/// The law of notices: no swap is unannounced. In the frames of its notice, the whole next
/// configuration is heard three times, and FIG 0/0 three times or more, each with the change flags
/// and the low part of the swap's count. All announcements of a notice name one count, and the swap
/// falls on the first later frame with that count. What was heard of a notice is a function of the
/// state.
pub fn notices()
    ensures announced { SwapsAreAnnounced }
    ensures counted { SwapsComeAsAnnounced }
    ensures heard { HeardIsKnown }
{}

/// The law of what was heard: over every run of a typed code from its start, the frames of a notice
/// that the state implies are those heard along the run, and are the last frames that it sent; at a
/// swap there are as many as a notice has.
pub fn heard()
    ensures { HeardWasSent }
{}

/// The law of FIG 0/0: exactly the FIG 0/0 that the state sends, with C/N 0, is heard in the bytes
/// of a frame.
pub fn headers()
    ensures { HeadersAreSent }
{}

/// The headline: from every state that a typed code reaches, over every list of contact changes and
/// frames, there is no trap, no frame executes more instructions than the budget, every frame is
/// the mode's number of correct FIBs, and each swap falls on the announced count, after its change
/// flags were sent and the whole next configuration could be read three times from the bytes.
pub fn headline()
    ensures { HeadlineHolds }
{}

/// The law of listeners: a listener that starts before any frame of a run of a typed code never
/// runs out of room. Once tuned, it knows the current configuration after P frames of one phase;
/// and if it heard a whole notice, it knows the new configuration from the first FIB of the swap's
/// frame on.
pub fn listener()
    ensures { ListenersAreRight }
{
    fib_codec::laws::one_list();
    fib_reader::laws::ensemble();
}
