//! Help, and command lines that ask for no command.

ghost use Rattle.std.specs.Prelude.{◌≤◌, IfOk};

use crate::args::UsageError;
use console::escaped::Escaped;
use console::exit::{Failure, Status};
use console::files::Files;
use console::output::Output;
use std::alloc::Global;
use std::io::{self, Write};
use std::str;

/// Prints the help text, or reports an invalid command line: on standard error if standard output
/// may be an output. Returns the exit status: 1 if out of memory or if `out` failed.
pub(crate) fn answer_mistake<F: Files, W: Write>(
    alloc: Global,
    unasked: UsageError<'_>,
    can_stream: bool,
    files: &mut F,
    out: &mut W,
) -> u8
    ensures bound { result ≤ 2 }
{
    if can_stream && !unasked.is_help() {
        return report_mistake(alloc, unasked, files);
    }
    let mut output = Output::new(out);
    let Ok(status) = explain(alloc, unasked, &mut output) else {
        return Status::Refused as u8;
    };
    match output.flush() {
        Ok(()) => status,
        Err(_) => Status::Refused as u8,
    }
}

/// Reports an invalid command line on standard error, and returns the exit status.
fn report_mistake<F: Files>(alloc: Global, unasked: UsageError<'_>, files: &mut F) -> u8
    ensures bound { result ≤ 2 }
{
    let mut text: Vec<u8> = Vec::new(alloc);
    let Ok(status) = explain(alloc, unasked, &mut text) else {
        files.report(Failure::Memory);
        return Status::Refused as u8;
    };
    if let Ok(line) = str::from_utf8(text.as_slice()) {
        files.report(line.trim());
    }
    status
}

/// Prints the help text, or the one-line message for an invalid command line, and returns the exit
/// status.
fn explain<W: Write>(alloc: Global, unasked: UsageError<'_>, out: &mut W) -> io::Result<u8>
    ensures bound { IfOk result (λ status. status ≤ 2) }
{
    let status = mistake_status(&unasked);
    if unasked.is_help() {
        write!(out, "{unasked}")?;
        return Ok(status);
    }
    match unasked.to_string(alloc) {
        Ok(text) => {
            print_mistake(text.as_str(), out)?;
            Ok(status)
        }
        Err(_) => {
            writeln!(out, "{}", Failure::Memory)?;
            Ok(Status::Refused as u8)
        }
    }
}

/// The exit status after the help text, or after a message.
fn mistake_status(unasked: &UsageError<'_>) -> u8
    ensures bound { result ≤ 2 }
{
    match unasked {
        UsageError::Help(_) => Status::Done as u8,
        UsageError::Memory => Status::Refused as u8,
        _ => Status::Misused as u8,
    }
}

/// Prints an error text as one line: its lines up to the usage, with a tip after a semicolon. The
/// tip to pass an option as a value is omitted: no command takes such a value.
fn print_mistake<W: Write>(text: &str, out: &mut W) -> io::Result<()> {
    let mut is_first = true;
    for line in text.lines() {
        let line = line.trim();
        if line.starts_with("Usage:") || line.starts_with("For more information") {
            break;
        }
        if !line.is_empty() && !line.starts_with("tip: to pass ") {
            if line.starts_with("tip:") {
                write!(out, ";")?;
            }
            if !is_first {
                write!(out, " ")?;
            }
            write_reason(line, out)?;
            is_first = false;
        }
    }
    writeln!(out)
}

/// Prints a line of an error text, where it rejects a number with the reason in plain words.
fn write_reason<W: Write>(line: &str, out: &mut W) -> io::Result<()> {
    let Some((value, reason)) = line.rsplit_once("': ") else {
        return write!(out, "{}", Escaped::in_line(line));
    };
    let value = Escaped::in_line(value);
    match range_of(reason) {
        Some((lowest, highest)) => {
            write!(
                out,
                "{value}': expected a number from {lowest} to {highest}"
            )
        }
        None => write!(out, "{value}': {}", reason_of(reason)),
    }
}

/// The ends of the range in a reason of the parser, as in `5 is not in 1..=4`; `None` if it is
/// another reason.
fn range_of(reason: &str) -> Option<(&str, &str)> {
    let (_number, range) = reason.split_once(" is not in ")?;
    range.split_once("..=")
}

/// A reason of the parser for a text that is not a number, in plain words; another one as it is.
fn reason_of(reason: &str) -> &str {
    match reason {
        "invalid digit found in string" | "cannot parse integer from empty string" =>
            "expected a decimal number",
        "number too large to fit in target type" => "the number is too large",
        "number too small to fit in target type" => "the number is too small",
        _ => reason,
    }
}
