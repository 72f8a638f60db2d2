//! Why a text cannot be read.

/// Why the text of an event file or of a command file cannot be read.
#[derive(Clone, Copy, Debug, PartialEq, Eq)]
pub enum TextFault {
    /// Reading failed.
    Failed = 1,
    /// The text is not UTF-8.
    NotUtf8 = 2,
    /// Out of memory.
    Memory = 3,
}
