//! Where and why a code is refused.

use crate::cause::Cause;

/// A cause, and the instruction at which it holds.
#[derive(Clone, Copy, PartialEq, Eq)]
pub(crate) struct Refusal {
    pub(crate) pc: u16,
    pub(crate) cause: Cause,
}
