//! `dabplan timeline`: plays a plan over events without its frames, and prints its swaps.

use crate::drawn::draw_run;
use crate::loading::load_plan;
use crate::run::{Halt, Run, player_of, steps_of};
use cli_plans::event_file::read_event_text;
use cli_scripts::explained::Explanation;
use console::exit::{Failure, Status};
use console::files::Files;
use mux_config::Store;
use mux_tables::Tables;
use plan_code::limits::FRAMES_A_DAY;
use plan_player::Player;
use plan_session::{StartOptions, Step, StepList};
use plan_timeline::{Form, Position, next_swap, print_on_air, print_swap};
use std::alloc::Global;
use std::io::{self, Write};

/// The arguments of `timeline`.
#[derive(Clone, Copy)]
pub struct TimelineRequest<'a> {
    /// The path of the code file or of the script; standard input if it is `-`.
    pub plan: &'a str,
    /// The path of the event file.
    pub events: &'a str,
    /// The start options.
    pub start: StartOptions,
    /// The path of the drawing to write, if any.
    pub drawing: Option<&'a str>,
    /// Whether each line is an object of JSON.
    pub is_json: bool,
    /// Where a refusal of a script is explained.
    pub explanation: Explanation,
}

/// Runs `timeline`: plays the plan over the events, and prints a line for each swap, and at the end
/// what is on air; or prints why the plan, the start or the events are refused. The drawing is
/// written last, if it is requested. No other file is changed.
///
/// `Read` if the plan or the events can't be read; `Create` if the drawing can't be written;
/// `Output` if `out` fails; `Memory` if out of memory.
pub fn show_timeline<'a, F: Files, W: Write>(
    alloc: Global,
    request: &TimelineRequest<'a>,
    files: &mut F,
    out: &mut W,
) -> Result<Status, Failure<'a>> {
    let Some(plan) = load_plan(alloc, request.plan, request.explanation, files, out)? else {
        return Ok(Status::Refused);
    };
    let events = read_event_text(alloc, files, request.events)?;
    let run = Run {
        plan: &plan,
        events: events.as_str(),
        start: request.start,
    };
    let form = Form {
        first: request.start.day,
        has_days: has_days(&run),
        is_json: request.is_json,
    };
    let frames = match print_run(alloc, &run, &form, out) {
        Ok(frames) => frames,
        Err(halt) => return print_halt(halt, out),
    };
    match request.drawing {
        None => Ok(Status::Done),
        Some(path) => {
            draw_run(alloc, &run, &form, frames, path, files)?;
            Ok(Status::Done)
        }
    }
}

/// Prints why a run is not played to its end, if it is refused.
fn print_halt<'a, W: Write>(halt: Halt, out: &mut W) -> Result<Status, Failure<'a>> {
    match halt {
        Halt::Refused(fault) => writeln!(out, "{fault}")?,
        Halt::TooMany => writeln!(out, "too many frames")?,
        Halt::Memory => return Err(Failure::Memory),
        Halt::Output => return Err(Failure::Output),
    }
    Ok(Status::Refused)
}

/// Whether the days of a run are shown: it does not end before midnight.
fn has_days(run: &Run<'_>) -> bool {
    match steps_of(run) {
        Ok(steps) => frames_of(steps) >= u64::from(FRAMES_A_DAY.saturating_sub(run.start.day)),
        Err(_) => false,
    }
}

/// The number of frames of these steps; 2^64 - 1 if there are more.
fn frames_of(mut steps: StepList<'_>) -> u64 {
    let mut frames = 0u64;
    while let Some(step) = steps.next() {
        if let Step::Frames(count) = step {
            frames = frames.saturating_add(u64::from(count));
        }
    }
    frames
}

/// Prints the swaps of a run, and what is on air at its end. Returns the number of its frames.
fn print_run<W: Write>(
    alloc: Global,
    run: &Run<'_>,
    form: &Form,
    out: &mut W,
) -> Result<u64, Halt> {
    let mut player = match player_of(run) {
        Ok(player) => player,
        Err(halt) => return Err(halt),
    };
    let mut steps = match steps_of(run) {
        Ok(steps) => steps,
        Err(halt) => return Err(halt),
    };
    let mut at = Position { frame: 0, left: 0 };
    for _number in 0..u64::MAX {
        match next_swap(&mut player, &mut steps, &mut at) {
            Ok(None) => return print_end(alloc, form, &player, at.frame, out),
            Ok(Some(swap)) => printed(print_swap(alloc, form, &swap, out))?,
            Err(_) => return Err(Halt::TooMany),
        }
    }
    Err(Halt::TooMany)
}

/// What comes of printing a line.
fn printed(line: io::Result<()>) -> Result<(), Halt> {
    match line {
        Ok(()) => Ok(()),
        Err(error) => Err(Halt::of_error(&error)),
    }
}

/// Prints what is on air at the end of a run of this many frames, and returns their number.
fn print_end<W: Write>(
    alloc: Global,
    form: &Form,
    player: &Player<'_, Tables>,
    frames: u64,
    out: &mut W,
) -> Result<u64, Halt> {
    let current = player.current().to_config();
    printed(print_on_air(alloc, form, frames, &current, out))?;
    Ok(frames)
}
