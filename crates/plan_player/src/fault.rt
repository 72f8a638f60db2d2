//! Why a player doesn't start, and why playback stops.

use thiserror::Error;

/// Why a player doesn't start: the first fault in this order. Its text is its name.
#[derive(Clone, Copy, Debug, PartialEq, Eq, Error)]
pub enum StartFault {
    /// The CIF count is 5000 or more.
    #[error("Count")]
    Count = 1,
    /// The frame of the day is 3,600,000 or more.
    #[error("Day")]
    Day = 2,
}

/// Why playback stopped before its last event.
#[derive(Clone, Copy, Debug, PartialEq, Eq, Error)]
pub enum PlayFault {
    /// The sink failed.
    #[error("write failed after {frames} frames and {bytes} bytes")]
    Write {
        /// The number of frames that the sink accepted in full.
        frames: u64,
        /// The number of bytes that it accepted of the next frame, fewer than a frame has: 0 to 95,
        /// in mode III to 127.
        bytes: usize,
    },
}

/// How far playback got before the sink failed: the full frames, and the bytes of the next one,
/// that were accepted.
#[derive(Clone, Copy, PartialEq, Eq)]
pub(crate) struct Accepted {
    pub(crate) frames: u32,
    pub(crate) bytes: usize,
}
