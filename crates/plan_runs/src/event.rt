//! The events of a run, and the start of a player.

use plan_code::{ContactId, Contacts};

/// One atomic step: a contact is set, or a whole frame is made.
#[derive(Clone, Copy, Debug, PartialEq, Eq)]
pub enum Event {
    /// The contact is closed, or opened where the flag is false.
    Contact(ContactId, bool),
    /// One frame of 24 ms is made: a due swap, the instructions, the FIBs of the mode, and then the
    /// counts advance.
    Frame,
}

/// What a player starts with.
#[derive(Clone, Copy, Debug, PartialEq, Eq)]
pub struct Start {
    /// The identifier of the ensemble, EId (EN 300 401 clause 6.4).
    pub eid: u16,
    /// The CIF count of the first frame, 0 to 4999 (EN 300 401 clause 5.1).
    pub count: u16,
    /// The frame of the day, 0 to 3,599,999, in frames of 24 ms.
    pub day: u32,
    /// The contacts that are closed at the start.
    pub contacts: Contacts,
}
