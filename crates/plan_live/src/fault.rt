//! Why a live run stops, or does not begin.

use plan_session::RunFault;
use thiserror::Error;

/// Why no further line is read.
#[derive(Clone, Copy, Debug, PartialEq, Eq, Error)]
pub enum Stop {
    /// The output failed: it took this many whole frames, not counting those skipped, and this many
    /// bytes of the next frame, fewer than a frame has.
    #[error("write failed after {frames} frames and {bytes} bytes")]
    Write { frames: u64, bytes: usize },
    /// The input could not be read.
    #[error("cannot read -")]
    Read,
    /// Out of memory for the steps of a line.
    #[error("no memory")]
    Memory,
    /// 2^64 - 1 frames were made, or 2^64 - 1 lines were read.
    #[error("too many frames or lines")]
    TooMany,
}

/// Why a code file is not played to the end of the input: the first of these that holds.
#[derive(Clone, Copy, Debug, PartialEq, Eq, Error)]
pub enum LiveFault {
    /// The code can't be played from the start, as in `run`: `Code`, `Refused` or `Start`. No line
    /// was read.
    #[error("{0}")]
    Playback(RunFault),
    /// The run began, and stopped.
    #[error("{0}")]
    Stopped(Stop),
}
