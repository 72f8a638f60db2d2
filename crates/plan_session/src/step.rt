//! The steps of an event file.

use plan_code::ContactId;

/// A step of an event file.
#[derive(Clone, Copy, Debug, PartialEq, Eq)]
pub enum Step {
    /// `contact C closed`, or `contact C open` if the flag is false.
    Contact(ContactId, bool),
    /// `frames N`: this many frames, 1 to 3,600,000.
    Frames(u32),
}
