//! Why a playback fails.

use crate::event_fault::EventFault;
use plan_code::CodeFault;
use plan_player::StartFault;
use plan_verifier::Cause;
use thiserror::Error;

/// Why a playback fails: the first fault in this order. Its text is what `dabplan play` prints.
#[derive(Clone, Copy, Debug, PartialEq, Eq, Error)]
pub enum RunFault {
    /// The bytes are not a code file, or memory ran out.
    #[error("code: {0}")]
    Code(CodeFault),
    /// The code is refused.
    #[error("refused at {pc} line {line}: {cause}")]
    Refused {
        /// The pc at which it is refused: of an instruction, counted from 0, or of a label past the
        /// last one.
        pc: u16,
        /// The source line of the instruction; 0 if there is no instruction at `pc`.
        line: u16,
        /// Why it is refused there.
        cause: Cause,
    },
    /// The start is out of range.
    #[error("start: {0}")]
    Start(StartFault),
    /// The text is not an event file, or memory ran out.
    #[error("events {0}")]
    Events(EventFault),
    /// The sink failed.
    #[error("write failed after {frames} frames and {bytes} bytes")]
    Write {
        /// The whole frames that the sink took.
        frames: u128,
        /// The bytes that it took of the next frame, fewer than a whole frame: 0 to 95, or 0 to 127
        /// in mode III.
        bytes: usize,
    },
}
