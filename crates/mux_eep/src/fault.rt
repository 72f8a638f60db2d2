//! Why a bit rate has no size.

use thiserror::Error;

/// Why a protection profile has no size at a bit rate. [`crate::size_of`] says in which order the
/// faults are tested.
#[derive(Clone, Copy, Debug, PartialEq, Eq, Error)]
pub enum EepFault {
    /// The rate is not a multiple of 8 kbit/s in set A, or of 32 kbit/s in set B.
    #[error("NotMultiple")]
    NotMultiple = 1,
    /// The rate is 0 kbit/s.
    #[error("ZeroRate")]
    ZeroRate = 2,
    /// The size is more than the 864 capacity units of the multiplex.
    #[error("PastMultiplex")]
    PastMultiplex = 3,
}
