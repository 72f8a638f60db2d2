//! `dabplan debug`: steps through a plan code by the commands of a file.

use crate::event_file::read_event_text;
use crate::item_notes::report_items;
use crate::item_place::Listing;
use crate::play::print_ending;
use crate::reports::drive;
use console::code_file::read_code;
use console::exit::{Failure, Status};
use console::files::Files;
use plan_debug::Debugger;
use plan_session::{CommandList, EventFault, Session, StartOptions};
use std::alloc::Global;
use std::io::Write;

/// The arguments of `debug`.
#[derive(Clone, Copy)]
pub struct DebugRequest<'a> {
    /// The path of the code file.
    pub code: &'a str,
    /// The path of the command file.
    pub commands: &'a str,
    /// The start options.
    pub start: StartOptions,
}

/// Runs `debug`: executes the commands and prints the lines of each; or prints why the code can't
/// be played from the start, as in `play`, or else why the text holds no commands.
pub fn show_debug<'a, F: Files, W: Write>(
    alloc: Global,
    request: &DebugRequest<'a>,
    files: &mut F,
    out: &mut W,
) -> Result<Status, Failure<'a>> {
    let code = read_code(alloc, files, request.code)?;
    let text = read_event_text(alloc, files, request.commands)?;
    let session = match Session::new(alloc, code.as_slice(), request.start) {
        Ok(session) => session,
        Err(fault) => return print_ending(Err(fault), out),
    };
    let text = text.as_str();
    let mut commands = match CommandList::new(text) {
        Ok(commands) => commands,
        Err(EventFault::Memory) => return Err(Failure::Memory),
        Err(fault) => {
            writeln!(out, "commands {fault}")?;
            report_items(
                alloc,
                request.commands,
                text,
                Listing::Commands,
                fault,
                files,
            );
            return Ok(Status::Refused);
        }
    };
    let debugger = Debugger::new(alloc, session.player());
    let mut debugger = debugger.map_err(|_player| Failure::Memory)?;
    drive(&mut debugger, &mut commands, out)?;
    Ok(Status::Done)
}
