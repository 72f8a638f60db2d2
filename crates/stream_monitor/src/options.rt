//! What a check is asked for.

use crate::line::Form;
use fib_codec::Mode;

/// What a check is asked for.
#[derive(Clone, Copy, Debug, PartialEq, Eq)]
pub struct CheckOptions {
    /// The transmission mode.
    pub mode: Mode,
    /// Each entry of the current configuration must occur in any window of this many frames.
    pub period: u16,
    /// After every so many frames the totals so far are printed; never if `None`.
    pub every: Option<u32>,
    /// The check ends with the first frame in which a fault is found.
    pub until_fault: bool,
    /// How lines are printed.
    pub form: Form,
}
