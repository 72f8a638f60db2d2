//! A run: a plan that is played from a start over the text of an event file.

use mux_tables::Tables;
use plan_player::Player;
use plan_session::{RunFault, StartOptions, StepList, start_with};
use plan_verifier::Verified;
use std::io::{Error, ErrorKind};

/// A plan that is played from a start over the text of an event file.
#[derive(Clone, Copy)]
pub(crate) struct Run<'r> {
    /// The plan.
    pub plan: &'r Verified,
    /// The text of the event file.
    pub events: &'r str,
    /// The start options.
    pub start: StartOptions,
}

/// Why a run is not played to its end.
#[derive(Clone, Copy)]
pub(crate) enum Halt {
    /// The start or the events are refused.
    Refused(RunFault),
    /// It has too many frames.
    TooMany,
    /// Out of memory.
    Memory,
    /// The output failed.
    Output,
}

impl Halt {
    /// Why a line can't be printed.
    pub(crate) fn of_error(error: &Error) -> Halt {
        match error.kind() {
            ErrorKind::OutOfMemory => Halt::Memory,
            _ => Halt::Output,
        }
    }
}

/// The player of a run at its start. `Refused` if the start is.
pub(crate) fn player_of<'r>(run: &Run<'r>) -> Result<Player<'r, Tables>, Halt> {
    match Player::new(run.plan, start_with(run.plan, run.start)) {
        Ok(player) => Ok(player),
        Err(fault) => Err(Halt::Refused(RunFault::Start(fault))),
    }
}

/// The steps of a run. `Refused` if the text is no event file.
pub(crate) fn steps_of<'r>(run: &Run<'r>) -> Result<StepList<'r>, Halt> {
    match StepList::new(run.events) {
        Ok(steps) => Ok(steps),
        Err(fault) => Err(Halt::Refused(RunFault::Events(fault))),
    }
}
