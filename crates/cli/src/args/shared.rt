//! Arguments that several commands share, and what their values say.

use crate::args::UsageError;
use crate::args::parser::Kind::{Flag, Number};
use crate::args::parser::{Argument, Kind, Values};
use cli_scripts::explained::Explanation;
use console::hexadecimal::u16_of;
use fib_codec::{FrameLayout, Mode};

/// The transmission mode.
pub(crate) const MODE: Argument = Argument(
    "mode",
    Number("M", 1, 4, Some("1")),
    &[],
    "The transmission mode, 1 to 4; in mode 3 a frame has four FIBs, else three",
);

/// The number of FIBs of a frame that the configuration leaves free.
pub(crate) const RESERVE: Kind = Number("R", 1, 2, None);

/// The help of `--reserve`.
pub(crate) const RESERVE_HELP: &str =
    "How many FIBs of a frame stay empty, for labels and other FIGs: 1, or in mode 3 1 or 2";

/// The option that explains a refusal behind its line.
pub(crate) const EXPLAIN: Argument = Argument(
    "explain",
    Flag,
    &[],
    "Explains a refusal on standard output, behind its line, rather than on standard error",
);

/// The help of `--quiet`.
pub(crate) const QUIET: &str = "Leaves explanations and warnings out";

/// Where a refusal is explained.
pub(crate) fn explanation(values: &Values<'_>) -> Explanation {
    if values.flag("quiet") {
        Explanation::Nowhere
    } else if values.flag("explain") {
        Explanation::WithLine
    } else {
        Explanation::OnError
    }
}

/// The transmission mode that is given, or the default.
pub(crate) fn mode_of(values: &Values<'_>) -> Mode {
    match values.number("mode") {
        2u8 => Mode::II,
        3 => Mode::III,
        4 => Mode::IV,
        _ => Mode::I,
    }
}

/// The layout of a frame: the transmission mode, and the reserve, if there is one. The only reserve
/// that is not one of each mode is 2.
pub(crate) fn layout_of<'a>(values: &Values<'a>) -> Result<FrameLayout, UsageError<'a>> {
    let reserve = values.number("reserve");
    FrameLayout::new(mode_of(values), reserve).ok_or(UsageError::Value {
        option: "--reserve <R>",
        value: "2",
        reason: "expected 1, or in mode 3 a number from 1 to 2",
    })
}

/// The value of an option of four hexadecimal digits, which is so named in its mistake.
pub(crate) fn digits_of<'a>(
    values: &Values<'a>,
    name: &'static str,
    option: &'static str,
) -> Result<u16, UsageError<'a>> {
    let value = values.text(name);
    u16_of(value).ok_or(UsageError::Value {
        option,
        value,
        reason: "expected four hexadecimal digits (0-9, A-F)",
    })
}
