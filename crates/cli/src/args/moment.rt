//! The value of `--time`: a time of the day, in seconds or to a thousandth.

use crate::args::UsageError;
use crate::args::parser::Values;
use plan_code::limits::FRAMES_A_DAY;
use script_tokens::number;

/// A time of the day, in thousandths of a second since midnight: 0 to 86,399,999.
#[derive(Clone, Copy, Debug, PartialEq, Eq)]
pub(crate) struct Moment {
    thousandths: u32,
}

impl Moment {
    /// This time, in thousandths of a second since midnight.
    pub fn thousandths(self) -> u32 {
        self.thousandths
    }

    /// The first frame of the day that begins at this time or after it; after the last one of a day
    /// that is the first of the next.
    pub fn frame(self) -> u32 {
        self.thousandths.div_ceil(24) % FRAMES_A_DAY
    }
}

/// The number of three digits behind a point.
fn fraction_of(text: &[u8]) -> Option<u32> {
    match text {
        [] => Some(0),
        [b'.', a, b, c] => {
            let mut number = 0u32;
            for digit in [*a, *b, *c] {
                if !digit.is_ascii_digit() {
                    return None;
                }
                number = number
                    .saturating_mul(10)
                    .saturating_add(u32::from(digit - b'0'));
            }
            Some(number)
        }
        _ => None,
    }
}

/// The moment of a text `HH:MM:SS` or `HH:MM:SS.mmm`; `None` if it is of neither form.
fn read_moment(text: &[u8]) -> Option<Moment> {
    let time = number::time(text.get(..8)?)?;
    let thousandths = fraction_of(text.get(8..)?)?;
    Some(Moment {
        thousandths: time
            .seconds()
            .saturating_mul(1000)
            .saturating_add(thousandths),
    })
}

/// The time of day of `--time`, if it is given.
pub(crate) fn moment_of<'a>(values: &Values<'a>) -> Result<Option<Moment>, UsageError<'a>> {
    let Some(value) = values.some_text("time") else {
        return Ok(None);
    };
    match read_moment(value.as_bytes()) {
        Some(moment) => Ok(Some(moment)),
        None => Err(UsageError::Value {
            option: "--time <HH:MM:SS>",
            value,
            reason: "expected 00:00:00 to 23:59:59.999",
        }),
    }
}
