//! Writes warnings about accepted plans.

use crate::words::{Digits, Part, act_words};
use crate::{DayTrap, DayWait, Flaw, LateUntil, Warning};
use plan_code::limits::FRAMES_A_DAY;
use script_front::Act;
use std::alloc::Global;
use std::fmt::{self, Display, Formatter};
use std::io::{self, Write};

/// The time of a frame of the day.
#[derive(Clone, Copy)]
struct TimeOf(u32);

impl Display for TimeOf {
    fn fmt<W: fmt::Write>(&self, f: &mut Formatter<W>) -> fmt::Result {
        let second = self.0 % FRAMES_A_DAY * 3 / 125;
        let (hours, minutes, seconds) = (second / 3600, second / 60 % 60, second % 60);
        write!(f, "{hours:02}:{minutes:02}:{seconds:02}")
    }
}

/// The time of a frame of the day, with its thousandths where it is not the first one of a second.
#[derive(Clone, Copy)]
struct ExactTimeOf(u32);

impl Display for ExactTimeOf {
    fn fmt<W: fmt::Write>(&self, f: &mut Formatter<W>) -> fmt::Result {
        let frame = self.0 % FRAMES_A_DAY;
        let thousandths = frame * 24 % 1000;
        write!(f, "{}", TimeOf(frame))?;
        if thousandths >= 24 {
            write!(f, ".{thousandths:03}")
        } else {
            Ok(())
        }
    }
}

/// Writes what a configuration has.
fn put_flaw<W: Write>(flaw: Flaw, out: &mut W) -> io::Result<()> {
    match flaw {
        Flaw::Unnamed(sub) => write!(out, "no component names sub {}", sub.get()),
        Flaw::LongAudio(sid, sub) => write!(
            out,
            "{} has audio on sub {}: its SId has 32 bits, as those of data services",
            Part::Service(sid),
            sub.get()
        ),
    }
}

/// Writes that a wait for a time of day comes after one for a contact.
fn put_late<W: Write>(alloc: Global, late: &LateUntil, out: &mut W) -> io::Result<()> {
    let LateUntil {
        contact,
        closed,
        until,
        ..
    } = *late;
    let wait = act_words(alloc, Act::WaitContact { contact, closed })?;
    let until = act_words(alloc, Act::Until(until))?;
    write!(
        out,
        "until comes after the wait; for whichever comes first write '{wait} or {until}'"
    )
}

/// Writes that a wait for a time of day is one for the next day.
fn put_day<W: Write>(alloc: Global, wait: &DayWait, out: &mut W) -> io::Result<()> {
    let (what, frames) = match wait.way.swap {
        Some(swap) => ("the swap before it comes at", swap),
        None => ("what is before it lasts until", wait.way.frames),
    };
    let until = act_words(alloc, Act::Until(wait.until))?;
    let time = TimeOf(wait.way.from.get().saturating_add(frames));
    write!(out, "waits {until} of the next day: {what} {time}")
}

/// Writes when a wait for a time of day is one for the next day, and why.
fn put_trap<W: Write>(trap: &DayTrap, out: &mut W) -> io::Result<()> {
    write!(
        out,
        "until {} is that of the next day where line {} is passed from {} to {}",
        ExactTimeOf(trap.until.get()),
        trap.passage.line,
        ExactTimeOf(trap.first.get()),
        ExactTimeOf(trap.passage.to.get()),
    )?;
    let frames = trap.way.frames;
    match trap.way.swap {
        _ if frames == 0 => Ok(()),
        Some(swap) if swap == frames => {
            write!(out, ": the swap between them comes {frames} frames later")
        }
        _ => write!(out, ": what is between them takes {frames} frames"),
    }
}

/// Writes a warning about the script with this path, without the end of its line.
///
/// # Errors
///
/// Those of the writer, and `OutOfMemory`.
pub fn put_warning<W: Write>(
    alloc: Global,
    path: &str,
    warning: &Warning,
    out: &mut W,
) -> io::Result<()> {
    let line = match warning {
        Warning::Flawed(line, _) | Warning::OtherPrimary(line, _) | Warning::Unreached(line) => {
            *line
        }
        Warning::WaitsForTime(wait) => wait.line,
        Warning::Late(until) => until.line,
        Warning::NextDay(wait) => wait.line,
        Warning::Trapped(trap) => trap.line,
    };
    write!(out, "{path}:{line}: warning: ")?;
    match warning {
        Warning::Flawed(_, flaw) => put_flaw(*flaw, out),
        Warning::OtherPrimary(_, primary) => write!(
            out,
            "the primary component of service {} changes from {} to {}",
            Digits(primary.sid),
            Part::Component(primary.before),
            Part::Component(primary.after)
        ),
        Warning::WaitsForTime(wait) => write!(
            out,
            "the plan begins with 'until {}': started at any time, it stays in the configuration \
             of 'begin' until then",
            TimeOf(wait.frame.get())
        ),
        Warning::Unreached(_) => out.write_all(
            b"no path reaches this statement: nothing that is reached applies its block",
        ),
        Warning::Late(until) => put_late(alloc, until, out),
        Warning::NextDay(wait) => put_day(alloc, wait, out),
        Warning::Trapped(trap) => put_trap(trap, out),
    }
}
