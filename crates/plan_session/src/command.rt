//! The commands of a command file.

use plan_code::ContactId;

/// A command to a debugger.
#[derive(Clone, Copy, Debug, PartialEq, Eq)]
pub enum Command {
    /// Closes a contact, or opens it if the flag is false. No frame is played.
    Contact(ContactId, bool),
    /// Plays frames until one reaches the break line, at most this many. A frame reaches it if the
    /// next instruction has changed in it and is then on that line.
    Run(u32),
    /// Plays frames until the next instruction changes, at most 5,000.
    Next,
    /// Sets the break line; there is only one. No frame is played.
    Break(u16),
    /// Removes the break line. No frame is played.
    Clear,
    /// Plays no frame.
    Show,
}
