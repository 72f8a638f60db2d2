//! The time at which a frame begins.

use plan_code::limits::FRAMES_A_DAY;
use std::error;
use std::fmt::{self, Display, Formatter};

/// The time at which a frame begins: `22:00:00.048`, or `day 1 22:00:00.048`.
#[derive(Clone, Copy, Debug, PartialEq, Eq)]
pub struct Clock {
    /// The day, from 0; `None` where it is not shown.
    pub day: Option<u64>,
    /// The frame of the day, 0 to 3,599,999.
    pub frame: u32,
}

/// The day and the frame of the day of the frame of this number in a run, which begins at this
/// frame of day 0.
pub(crate) fn moment_of(first: u32, number: u64) -> (u64, u32) {
    let frames = number.saturating_add(u64::from(first));
    let a_day = u64::from(FRAMES_A_DAY);
    (frames / a_day, (frames % a_day) as u32)
}

impl Clock {
    /// The time of the frame of this number in a run, which begins at this frame of day 0. The day
    /// is shown if that is asked for.
    pub fn of_frame(first: u32, number: u64, with_day: bool) -> Clock {
        let (day, frame) = moment_of(first, number);
        Clock {
            day: if with_day { Some(day) } else { None },
            frame,
        }
    }
}

impl Display for Clock {
    fn fmt<W: fmt::Write>(&self, f: &mut Formatter<W>) -> fmt::Result {
        if let Some(day) = self.day {
            write!(f, "day {day} ")?;
        }
        let thousandths = u64::from(self.frame) * 24;
        let rest = thousandths % 1000;
        let seconds = thousandths / 1000;
        let hours = seconds / 3600;
        let minutes = seconds / 60 % 60;
        let seconds = seconds % 60;
        write!(f, "{hours:02}:{minutes:02}:{seconds:02}.{rest:03}")
    }
}

impl error::Error for Clock {}
