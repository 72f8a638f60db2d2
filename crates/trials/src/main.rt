//! Runs the libraries under faults: allocation failures, damaged code files, and a day of frames
//! with a listener.
//!
//! The scripts in `tests/faults/` run it. `trials call NAME` makes one call twice over the script
//! on standard input, the first time between the lines `ready` and `called`; `trials damaged` tries
//! each damaged version of the code file on standard input; `trials day` plays the code file on
//! standard input for a day.
#![tactic(auto)]

mod codes;
mod damaged;
mod day;
mod texts;
mod trial;

use plan_code::{Code, decode};
use std::alloc::Global;
use std::io::{self, Error, ErrorKind, Read, Write};
use std::process::ExitCode;
use std::{env, str};

fn main(rt: HostRuntime) -> io::Result<ExitCode> {
    let words: Vec<String> = env::args(&rt)?.collect(rt.alloc())?;
    let mut input = Vec::new(rt.alloc());
    rt.reader().read_to_end(&mut input)?;
    let mut out = io::writer(&rt);
    let kind = words.get(1).map(String::as_str);
    let name = words.get(2).map(String::as_str);
    let is_done = match (kind, name) {
        (Some("call"), Some(name)) => texts::try_named(
            rt.alloc(),
            name,
            text_of(&input)?,
            &mut out,
        )?,
        (Some("damaged"), None) => {
            damaged::try_damaged(rt.alloc(), &mut input, &mut out)?;
            true
        }
        (Some("day"), None) => day::try_day(rt.alloc(), &input, &mut out)?,
        _ => false,
    };
    if is_done {
        return Ok(ExitCode::from(0));
    }
    writeln!(out, "no such trial")?;
    Ok(ExitCode::from(1))
}

/// The error for an input that a trial can't use.
fn unfit() -> Error {
    Error::from(ErrorKind::InvalidData)
}

/// The text of an input.
fn text_of(input: &[u8]) -> io::Result<&str> {
    str::from_utf8(input).map_err(|_| unfit())
}

/// Decodes a code file.
fn code_in(alloc: Global, file: &[u8]) -> io::Result<Code> {
    decode(alloc, file).map_err(|_| unfit())
}
