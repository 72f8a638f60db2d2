//! The drawing of a run, written to a file.

use crate::run::{Run, player_of, steps_of};
use console::exit::{Failure, write_file};
use console::files::Files;
use mux_config::Store;
use plan_session::{StartOptions, Step, StepList};
use plan_timeline::{Drawing, Form, Position, draw_timeline, next_swap};
use std::alloc::{AllocError, Global};

/// Adds the contacts that a run closes to its drawing: those that are closed at the start, and
/// those of its steps.
fn add_contacts(
    drawing: &mut Drawing,
    start: StartOptions,
    mut steps: StepList<'_>,
) -> Result<(), AllocError> {
    drawing.set_contacts(start.contacts)?;
    let mut frame = 0u64;
    while let Some(step) = steps.next() {
        match step {
            Step::Contact(contact, closed) => drawing.set_contact(contact, closed, frame)?,
            Step::Frames(count) => frame = frame.saturating_add(u64::from(count)),
        }
    }
    Ok(())
}

/// The drawing of a run that was played to its end. The error is out of memory.
fn drawing_of(alloc: Global, run: &Run<'_>) -> Result<Drawing, AllocError> {
    let mut player = match player_of(run) {
        Ok(player) => player,
        Err(_) => return Err(AllocError),
    };
    let mut steps = match steps_of(run) {
        Ok(steps) => steps,
        Err(_) => return Err(AllocError),
    };
    let mut drawing = Drawing::new(alloc, &player.current().to_config())?;
    let mut at = Position { frame: 0, left: 0 };
    for _number in 0..u64::MAX {
        match next_swap(&mut player, &mut steps, &mut at) {
            Ok(Some(swap)) => drawing.add_swap(&swap)?,
            Ok(None) | Err(_) => return Ok(drawing),
        }
    }
    Ok(drawing)
}

/// Writes the drawing of a run of this many frames, which was played to its end, to the file of
/// this path, when all of it is made.
pub(crate) fn draw_run<'a, F: Files>(
    alloc: Global,
    run: &Run<'_>,
    form: &Form,
    frames: u64,
    path: &'a str,
    files: &mut F,
) -> Result<(), Failure<'a>> {
    let mut drawing = drawing_of(alloc, run).map_err(|_| Failure::Memory)?;
    if let Ok(steps) = steps_of(run) {
        add_contacts(&mut drawing, run.start, steps).map_err(|_| Failure::Memory)?;
    }
    let eid = run.plan.code().plan().eid;
    let mut bytes: Vec<u8> = Vec::new(alloc);
    let drawn = draw_timeline(eid, &drawing, form, frames, &mut bytes);
    drawn.map_err(|_| Failure::Memory)?;
    write_file(files, path, bytes.as_slice())
}
