//! The start options of `play`, `debug`, `live` and `timeline`: CIF count, time of day and contacts
//! of the first frame.

use crate::args::UsageError;
use crate::args::moment::moment_of;
use crate::args::parser::Kind::{Number, Text};
use crate::args::parser::Rule::Excludes;
use crate::args::parser::{Argument, Values};
use crate::args::shared::digits_of;
use plan_code::Contacts;
use plan_session::StartOptions;

/// The CIF count of the first frame.
pub(crate) const COUNT: Argument = Argument(
    "count",
    Number("N", 0, 65535, Some("0")),
    &[],
    "The CIF count of the first frame, 0 to 4999",
);

/// The first frame's index in the day.
pub(crate) const DAY: Argument = Argument(
    "day",
    Number("N", 0, 4294967295, Some("0")),
    &[],
    "The time of day of the first frame, in frames since midnight, 0 to 3599999",
);

/// The time of day at the first frame.
pub(crate) const TIME: Argument = Argument(
    "time",
    Text("HH:MM:SS", None),
    &[Excludes("day")],
    "The time of day of the first frame, 00:00:00 to 23:59:59.999, instead of --day",
);

/// The contacts that are closed at the start.
pub(crate) const CONTACTS: Argument = Argument(
    "contacts",
    Text("HHHH", Some("0000")),
    &[],
    "Contacts closed at the start: four hexadecimal digits, contact 0 the lowest bit",
);

/// Reads the start options. A time of day is the first frame that begins at it or after it, as a
/// script's times are counted.
pub(crate) fn start_options<'a>(values: &Values<'a>) -> Result<StartOptions, UsageError<'a>> {
    let contacts = Contacts(digits_of(values, "contacts", "--contacts <HHHH>")?);
    let count = values.number("count");
    let day = match moment_of(values)? {
        Some(moment) => moment.frame(),
        None => values.number("day"),
    };
    Ok(StartOptions {
        count,
        day,
        contacts,
    })
}
