//! How a check ends.

use crate::line::{Cause, Line, Totals};

/// How a check ends: its last line.
#[derive(Clone, Copy, Debug, PartialEq, Eq)]
pub enum Ending {
    /// The totals of the stream, or up to the fault that ends the check.
    Counted(Totals),
    /// The stream is refused.
    Refused(Cause),
}
