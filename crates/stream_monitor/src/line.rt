//! The lines of a check, and their two forms.

use crate::json::print_json;
use crate::text::print_text;
use std::fmt::{self, Display, Formatter};
use std::io::{self, Write};
use stream_check::{Finding, Summary};

/// How lines are printed.
#[derive(Clone, Copy, Debug, PartialEq, Eq)]
pub struct Form {
    /// As JSON, one object a line, instead of text.
    pub is_json: bool,
    /// The time of day of the first FIB's frame, in milliseconds, 0 to 86,399,999; findings are
    /// printed without a time if `None`.
    pub start: Option<u32>,
}

/// The totals of a stream, or of its frames so far.
#[derive(Clone, Copy, Debug, PartialEq, Eq)]
pub struct Totals {
    /// The numbers of frames and FIBs.
    pub summary: Summary,
    /// The number of swaps found, at most 2^64 - 1.
    pub swaps: u64,
    /// The number of faults found, at most 2^64 - 1.
    pub faults: u64,
}

/// Why a stream has no totals.
#[derive(Clone, Copy, Debug, PartialEq, Eq)]
pub enum Cause {
    /// A picture would get a 65th service or packet component.
    Full = 1,
    /// The stream has 2^62 frames, skipped FIBs or damaged FIBs, and these are not counted further.
    TooLong = 2,
    /// The length is not a multiple of 32 bytes.
    NotWhole = 3,
    /// The stream has no FIG 0/0.
    NoEnsemble = 4,
}

impl Display for Cause {
    /// The cause as it is printed.
    fn fmt<W: fmt::Write>(&self, f: &mut Formatter<W>) -> fmt::Result {
        f.write_str(match self {
            Cause::Full => "Full",
            Cause::TooLong => "too long",
            Cause::NotWhole => "not whole FIBs",
            Cause::NoEnsemble => "no ensemble",
        })
    }
}

/// A line of a check.
#[derive(Clone, Copy, Debug, PartialEq, Eq)]
pub enum Line {
    /// A finding.
    Found(Finding),
    /// The totals of the frames so far: a sign of life.
    Alive(Totals),
    /// The totals of the stream, which are the last line.
    Ended(Totals),
    /// Why there are none, which is the last line.
    Refused(Cause),
}

/// Prints a line. The time of a finding is that of its frame, where this many frames are before
/// frame 0.
pub fn print_line<W: Write>(form: Form, before: u64, line: &Line, out: &mut W) -> io::Result<()> {
    if form.is_json {
        print_json(form.start, before, line, out)
    } else {
        print_text(form.start, before, line, out)
    }
}
