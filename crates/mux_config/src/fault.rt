//! Why an edit is refused, and what makes a configuration unsound.

use mux_types::SubId;
use thiserror::Error;

/// Why an edit of a configuration is refused.
#[derive(Clone, Copy, Debug, PartialEq, Eq, Error)]
pub enum EditFault {
    /// The identifier or the carrier of what is added is already in use.
    #[error("IdUsed")]
    IdUsed = 1,
    /// What the edit refers to does not exist.
    #[error("IdAbsent")]
    IdAbsent = 2,
    /// The service has 12 components with a 16-bit SId, or 11 with a 32-bit SId.
    #[error("TooManyComponents")]
    TooManyComponents = 3,
    /// There are 64 services, or 64 packet components.
    #[error("TableFull")]
    TableFull = 4,
    /// The sub-channel would end past capacity unit 863.
    #[error("PastEnd")]
    PastEnd = 5,
    /// The protection profile has no size at the bit rate.
    #[error("BadRate")]
    BadRate = 6,
    /// The packet address is 0 or above 1023.
    #[error("BadAddress")]
    BadAddress = 7,
}

/// What makes a configuration unsound, in the order tested by [`crate::soundness`].
#[derive(Clone, Copy, Debug, PartialEq, Eq, Error)]
pub enum ConfigFault {
    /// Two sub-channels share a capacity unit: the lowest that shares one with a higher one, and
    /// the lowest with which it shares one.
    #[error("Overlap {} {}", .0.get(), .1.get())]
    Overlap(SubId, SubId),
    /// A component in stream mode or a packet component refers to a sub-channel that does not
    /// exist, or a component in packet mode refers to a packet component that does not exist.
    #[error("Orphan")]
    Orphan,
    /// Two packet components of one sub-channel have the same address.
    #[error("AddressUsed")]
    AddressUsed,
    /// A service has no component.
    #[error("EmptyService")]
    EmptyService,
}
