//! The messages of a live run, as lines of text and as objects of JSON.

use std::error;
use std::fmt::{self, Display, Formatter};

/// Why a line lists no steps. The column is that of the first byte of the invalid byte or token,
/// counted from 1 in bytes; or the one just past the line.
#[derive(Clone, Copy, Debug, PartialEq, Eq)]
pub enum LineFault {
    /// The line has more than 65,536 bytes.
    Limit,
    /// The line is not UTF-8.
    NoText,
    /// A byte outside comments that is not allowed in an event file.
    Byte(usize),
    /// An atom that is not a number in its range.
    Number(usize),
    /// Another invalid token, or the end of the line.
    Expected(usize),
}

impl LineFault {
    /// The name that is shown.
    fn name(self) -> &'static str {
        match self {
            LineFault::Limit => "Limit",
            LineFault::NoText | LineFault::Byte(_) => "Byte",
            LineFault::Number(_) => "Number",
            LineFault::Expected(_) => "Expected",
        }
    }

    /// The column, if the fault has one.
    fn column(self) -> Option<usize> {
        match self {
            LineFault::Limit | LineFault::NoText => None,
            LineFault::Byte(column) | LineFault::Number(column) | LineFault::Expected(column) => {
                Some(column)
            }
        }
    }
}

impl Display for LineFault {
    fn fmt<W: fmt::Write>(&self, f: &mut Formatter<W>) -> fmt::Result {
        let name = self.name();
        match self.column() {
            Some(column) => write!(f, "{column}: {name}"),
            None => f.write_str(name),
        }
    }
}

impl error::Error for LineFault {}

/// A message to the operator of the run. Lines are counted from 1, frames from 0 over the whole
/// run.
#[derive(Clone, Copy, Debug, PartialEq, Eq)]
pub enum Message {
    /// The line of this number lists no steps, for this reason.
    Bad(u64, LineFault),
    /// A swap is made in the frame of this number and CIF count.
    Swap {
        frame: u64,
        count: u16,
    },
    /// A notice begins with this frame: its change flags, the low part of the CIF count of the
    /// swap, and the frames until the swap.
    Notice {
        frame: u64,
        count: u16,
        change: u8,
        low: u8,
        left: u8,
    },
    /// The plan ends in this frame.
    End {
        frame: u64,
        count: u16,
    },
    /// The frame of this number and CIF count was made: one of each so many.
    Passed {
        frame: u64,
        count: u16,
    },
}

impl Display for Message {
    fn fmt<W: fmt::Write>(&self, f: &mut Formatter<W>) -> fmt::Result {
        match *self {
            Message::Bad(line, fault) => write!(f, "line {line}: {fault}"),
            Message::Swap { frame, count } => write!(f, "frame {frame} count {count} swap"),
            Message::Notice {
                frame,
                count,
                change,
                low,
                left: _,
            } => {
                write!(f, "frame {frame} count {count}")?;
                write!(f, " announced {change} swap at low {low}")
            }
            Message::End { frame, count } => write!(f, "frame {frame} count {count} end"),
            Message::Passed { frame, count } => write!(f, "frame {frame} count {count}"),
        }
    }
}

impl error::Error for Message {}

/// A message as an object of JSON.
#[derive(Clone, Copy, Debug, PartialEq, Eq)]
pub struct JsonMessage(pub Message);

impl Display for JsonMessage {
    fn fmt<W: fmt::Write>(&self, f: &mut Formatter<W>) -> fmt::Result {
        match self.0 {
            Message::Bad(line, fault) => {
                write!(f, "{{\"kind\":\"line\",\"line\":{line}")?;
                write_fault(fault, f)
            }
            Message::Swap { frame, count } => write_frame("swap", frame, count, f),
            Message::Notice {
                frame,
                count,
                change,
                low,
                left,
            } => {
                write!(
                    f,
                    "{{\"kind\":\"announced\",\"frame\":{frame},\"count\":{count}"
                )?;
                write!(f, ",\"change\":{change},\"low\":{low}")?;
                let swap_count = (u32::from(count) + u32::from(left)) % 5000;
                write!(f, ",\"swap_count\":{swap_count},\"left\":{left}}}")
            }
            Message::End { frame, count } => write_frame("end", frame, count, f),
            Message::Passed { frame, count } => write_frame("frame", frame, count, f),
        }
    }
}

/// Writes an object of this kind for a frame.
fn write_frame<W: fmt::Write>(
    kind: &str,
    frame: u64,
    count: u16,
    f: &mut Formatter<W>,
) -> fmt::Result {
    write!(
        f,
        "{{\"kind\":\"{kind}\",\"frame\":{frame},\"count\":{count}}}"
    )
}

/// Writes the last fields of the object of a line that lists no steps.
fn write_fault<W: fmt::Write>(fault: LineFault, f: &mut Formatter<W>) -> fmt::Result {
    let name = fault.name();
    if let Some(column) = fault.column() {
        write!(f, ",\"column\":{column}")?;
    }
    write!(f, ",\"fault\":\"{name}\"}}")
}
