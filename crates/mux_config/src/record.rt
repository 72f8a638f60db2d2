//! Why bytes are not a valid record.

use thiserror::Error;

/// The first fault of a configuration record, in the order of its bytes.
#[derive(Clone, Copy, Debug, PartialEq, Eq, Error)]
pub enum RecordFault {
    /// A field's bytes are missing.
    #[error("Short")]
    Short,
    /// A field is out of range. Its first byte is at this offset, from 0 at the record's first
    /// byte.
    #[error("Field {0}")]
    Field(usize),
    /// An identifier is not above that of the previous member.
    #[error("Order")]
    Order,
}
