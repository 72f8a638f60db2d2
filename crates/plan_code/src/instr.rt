//! Instructions.

use crate::flags::Contacts;
use crate::numbers::{ContactId, CounterId, DayFrame, Delay, Frames, Times};
use mux_config::Edit;

/// An instruction. There are 24 kinds: fourteen here, and one for each of the ten edits. Every
/// operand is within its range by its type; a target may be any number. An instruction that
/// suspends is the last one that runs in its frame.
#[derive(Clone, Copy, Debug, PartialEq, Eq)]
pub enum Instr {
    /// Suspends; resumes after this many frames.
    Wait(Frames),
    /// Suspends; resumes in the next frame that is this frame of the day, never in this one.
    Until(DayFrame),
    /// Suspends; resumes in the first later frame in which the contact is closed, or open.
    WaitContact {
        contact: ContactId,
        closed: bool,
    },
    /// Suspends; resumes in the first later frame that is one of these alternatives, never in this
    /// one: one of the contacts of `closed` is closed, or one of those of `opened` is open, or it
    /// is this frame of the day, or the one after this many frames. Without any alternative it
    /// suspends for good.
    WaitAny {
        closed: Contacts,
        opened: Contacts,
        until: Option<DayFrame>,
        frames: Option<Frames>,
    },
    /// Commits the next configuration: the swap falls after this many frames, or in the first frame
    /// after that whose CIF count is a multiple of the mode's step.
    CommitIn(Delay),
    /// Commits the next configuration: the swap falls in the first frame with this CIF count that
    /// leaves a whole notice before it.
    CommitAt(u16),
    /// Suspends; resumes in the frame of the swap, after it.
    Join,
    /// Where a swap is pending, suspends, and resumes in the frame of the swap, after it. Otherwise
    /// the next instruction runs at once.
    Settle,
    /// Suspends for good. Frames are still made, and so is a pending swap.
    End,
    /// Edits the next configuration.
    Edit(Edit),
    /// Jumps to the target if the contact is open.
    Test {
        contact: ContactId,
        target: u16,
    },
    /// Jumps to the target unless the frame of the day is in the window, which begins with `from`,
    /// runs over midnight where `to` is before it, and ends before `to`. It is empty where the two
    /// are the same.
    TestTime {
        from: DayFrame,
        to: DayFrame,
        target: u16,
    },
    /// Jumps to the target.
    Jump(u16),
    /// Sets a counter.
    Set {
        counter: CounterId,
        times: Times,
    },
    /// Decrements a counter. Jumps to the target if the result is not 0; otherwise the counter is
    /// no longer set.
    Loop {
        counter: CounterId,
        target: u16,
    },
}

/// An instruction with its source line number.
#[derive(Clone, Copy, Debug, PartialEq, Eq)]
pub struct Line {
    /// The source line number.
    pub number: u16,
    /// The instruction.
    pub instr: Instr,
}
