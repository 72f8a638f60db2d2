//! The time of day of a frame.

ghost use Rattle.std.specs.Prelude.{◌≡◌, ◌+◌, ◌*◌, ◌%◌};

use std::fmt::{self, Display, Formatter, Write};
use stream_check::Finding;

/// Frames per day: they last 24 ms.
const FRAMES: u64 = 3_600_000;

/// Milliseconds per day.
const DAY: u64 = 86_400_000;

/// A time of day, printed as `HH:MM:SS.mmm`.
#[derive(Clone, Copy)]
pub(crate) struct Clock {
    /// In milliseconds, 0 to 86,399,999.
    ms: u64,
}

impl Clock {
    /// The time of day of the frame that comes this many frames after another one, which is at this
    /// time of day, in milliseconds.
    pub(crate) fn after(start: u32, frames: u64) -> Self
        ensures { result.ms ≡ (start + frames * 24) % 86400000 }
    {
        Clock {
            ms: (u64::from(start) + (frames % FRAMES) * 24) % DAY,
        }
    }
}

/// The time of day of a finding's frame, where this many frames are before frame 0; `None` if the
/// time of the first one is not known.
pub(crate) fn time_of(start: Option<u32>, before: u64, finding: &Finding) -> Option<Clock> {
    match start {
        Some(start) => Some(Clock::after(start, before.saturating_add(finding.frame))),
        None => None,
    }
}

impl Display for Clock {
    fn fmt<W: Write>(&self, f: &mut Formatter<W>) -> fmt::Result {
        let hours = self.ms / 3_600_000;
        let minutes = self.ms / 60_000 % 60;
        let seconds = self.ms / 1000 % 60;
        let ms = self.ms % 1000;
        write!(f, "{hours:02}:{minutes:02}:{seconds:02}.{ms:03}")
    }
}
