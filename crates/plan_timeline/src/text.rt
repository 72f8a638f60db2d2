//! The lines of a timeline: one for each swap, and at the end what is on air.

use crate::clock::{Clock, moment_of};
use crate::swap::Swap;
use mux_config::Config;
use plan_map::print_changes;
use std::alloc::Global;
use std::io::{self, Write};

/// How the lines of a timeline are printed.
#[derive(Clone, Copy, Debug, PartialEq, Eq)]
pub struct Form {
    /// The frame of the day of the first frame.
    pub first: u32,
    /// Whether the day is printed, counted from 0: the run is not over before midnight.
    pub has_days: bool,
    /// Whether each line is an object of JSON.
    pub is_json: bool,
}

/// The lines of what changes, as a map prints them.
fn changes_of(alloc: Global, before: &Config, now: &Config) -> io::Result<Vec<u8>> {
    let mut lines: Vec<u8> = Vec::new(alloc);
    print_changes(before, now, &mut lines)?;
    Ok(lines)
}

/// What a line of a map says of a part: its sign, and its text; `None` if it is empty.
fn part_of(line: &[u8]) -> Option<(u8, &[u8])> {
    match line {
        [b' ', b' ', sign, b' ', text @ ..] => Some((*sign, text)),
        _ => None,
    }
}

/// Prints what changes, after a colon, with commas between.
fn print_parts<W: Write>(changes: &[u8], out: &mut W) -> io::Result<()> {
    let mut is_first = true;
    for line in changes.split(|byte| *byte == b'\n') {
        if let Some((sign, text)) = part_of(line) {
            let separator = if is_first { ": " } else { ", " };
            out.write_all(separator.as_bytes())?;
            out.write_all(&[sign, b' '])?;
            out.write_all(text)?;
            is_first = false;
        }
    }
    out.write_all(b"\n")
}

/// Prints the parts of this sign as an array of JSON.
fn print_array<W: Write>(sign: u8, changes: &[u8], out: &mut W) -> io::Result<()> {
    out.write_all(b"[")?;
    let mut is_first = true;
    for line in changes.split(|byte| *byte == b'\n') {
        if let Some((found, text)) = part_of(line) {
            if found == sign {
                let opening = if is_first { "\"" } else { ",\"" };
                out.write_all(opening.as_bytes())?;
                out.write_all(text)?;
                out.write_all(b"\"")?;
                is_first = false;
            }
        }
    }
    out.write_all(b"]")
}

/// Prints the beginning of an object of JSON: its kind, and when its frame begins.
fn print_object<W: Write>(kind: &str, form: &Form, frame: u64, out: &mut W) -> io::Result<()> {
    let clock = Clock::of_frame(form.first, frame, false);
    let (day, _frame) = moment_of(form.first, frame);
    write!(
        out,
        "{{\"kind\":\"{kind}\",\"time\":\"{clock}\",\"day\":{day},\"frame\":{frame}"
    )
}

/// Prints the line of a swap: when it is on air, the number of its frame, the line of its commit,
/// and what changes, as a map has it: `- ` before what is left out, `+ ` before what is new.
pub fn print_swap<W: Write>(
    alloc: Global,
    form: &Form,
    swap: &Swap,
    out: &mut W,
) -> io::Result<()> {
    let changes = changes_of(alloc, &swap.before, &swap.now)?;
    let frame = swap.frame;
    let line = swap.line;
    if form.is_json {
        let count = swap.count;
        print_object("swap", form, frame, out)?;
        write!(out, ",\"count\":{count},\"line\":{line},\"dropped\":")?;
        print_array(b'-', changes.as_slice(), out)?;
        out.write_all(b",\"added\":")?;
        print_array(b'+', changes.as_slice(), out)?;
        return out.write_all(b"}\n");
    }
    let clock = Clock::of_frame(form.first, frame, form.has_days);
    write!(out, "{clock} frame {frame} line {line}")?;
    print_parts(changes.as_slice(), out)
}

/// Prints what is on air after the last frame of a run: when the next frame would begin, its
/// number, and a line for each part of the configuration.
pub fn print_on_air<W: Write>(
    alloc: Global,
    form: &Form,
    frame: u64,
    config: &Config,
    out: &mut W,
) -> io::Result<()> {
    let parts = changes_of(alloc, &Config::new(), config)?;
    if form.is_json {
        print_object("on-air", form, frame, out)?;
        out.write_all(b",\"parts\":")?;
        print_array(b'+', parts.as_slice(), out)?;
        return out.write_all(b"}\n");
    }
    let clock = Clock::of_frame(form.first, frame, form.has_days);
    writeln!(out, "{clock} frame {frame} on air")?;
    for line in parts.as_slice().split(|byte| *byte == b'\n') {
        if let Some((_sign, text)) = part_of(line) {
            out.write_all(b"  ")?;
            out.write_all(text)?;
            out.write_all(b"\n")?;
        }
    }
    Ok(())
}
