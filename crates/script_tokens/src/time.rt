//! Times of day as written in scripts.

ghost use Rattle.std.specs.Prelude.{◌≡◌, ◌*◌, ◌/◌, ◌<◌, ◌↔◌, IsSome, IfSome};
ghost use Rattle.script_tokens.specs.Times.{frame_at};

use plan_code::DayFrame;
use std::marker::Model;

/// A time of day in whole seconds, 0 to 86,399, written `HH:MM:SS`.
#[derive(Clone, Copy, Debug, PartialEq, Eq, PartialOrd, Ord)]
pub struct TimeOfDay {
    seconds: u32,
}

impl Model for TimeOfDay {
    ghost use Rattle.std.specs.Prelude.{ℕ, ◌<◌};

    ghost Value = { ℕ };

    ghost view = { λ t. t.seconds };

    ghost invariant = { λ t. t.seconds < 86400 };

    ghost inverse = { λ n. record { seconds = n } };
}

impl TimeOfDay {
    /// The time this many seconds after midnight; None from 86,400 on.
    pub fn new(seconds: u32) -> Option<TimeOfDay>
        ensures in_range { IsSome result ↔ (seconds < 86400) }
        ensures value { IfSome result (λ t. t ≡ seconds) }
    {
        if seconds < 86_400 {
            Some(TimeOfDay { seconds })
        } else {
            None
        }
    }

    /// The seconds since midnight, 0 to 86,399.
    pub fn seconds(self) -> u32
        ensures value { result ≡ self }
        ensures in_range { result < 86400 }
    {
        self.seconds
    }

    /// The first frame of the day that begins at this time or after it. A frame takes 24 ms, so
    /// there are 125 frames in three seconds.
    pub fn frame(self) -> DayFrame
        ensures { result ≡ frame_at self }
    {
        match DayFrame::new((125 * self.seconds).div_ceil(3)) {
            Some(frame) => frame,
            None => unreachable!(),
        }
    }
}
