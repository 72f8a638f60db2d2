//! What a machine that executes instructions waits for.

use crate::flags::Contacts;
use crate::numbers::{ContactId, DayFrame};

/// What the machine waits for before it executes the next instruction.
#[derive(Clone, Copy, Debug, PartialEq, Eq)]
pub enum Hold {
    /// Nothing: it executes instructions.
    Running,
    /// A number of frames; when none is left, the wait ends with the next frame.
    Waits(u16),
    /// A later frame at this frame of the day.
    WaitsDay(DayFrame),
    /// A later frame in which the contact is closed, or open.
    WaitsContact {
        contact: ContactId,
        closed: bool,
    },
    /// A later frame in which one of the contacts of `closed` is closed, or one of those of
    /// `opened` is open, or that is this frame of the day; or a number of frames: when none is
    /// left, the wait ends with the next frame.
    WaitsAny {
        closed: Contacts,
        opened: Contacts,
        until: Option<DayFrame>,
        left: Option<u16>,
    },
    /// The pending swap.
    WaitsSwap,
    /// Nothing: the code has ended.
    Ended,
}
