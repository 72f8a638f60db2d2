//! The calls that allocate and work on a plan code, each as a trial over the code of one script.

use crate::trial::{Ended, Trial, show_bytes, try_call};
use crate::{code_in, unfit};
use mux_config::{Config, write_config};
use mux_tables::Tables;
use plan_code::{Code, CodeFault, ContactId, Contacts, decode, encode};
use plan_debug::{Command, Debugger, Report};
use plan_player::{Player, Sink, Start, Writer};
use plan_session::{EventFault, RunFault, run};
use plan_verifier::{Verified, verify};
use std::alloc::Global;
use std::io::{self, Write};

/// A text of events: 70 frames, with contact 3 closed and opened.
pub(crate) const EVENTS: &str =
    "frames 1 contact 3 closed contact 3 open contact 3 closed frames 39 contact 3 open frames 30";

/// The most bytes in the frames of `EVENTS`.
const MOST_BYTES: usize = 70 * 128;

/// Tries the call of this name over a code; false if there is no such call.
pub fn try_over_code<W: Write>(
    alloc: Global,
    name: &str,
    code: &Code,
    out: &mut W,
) -> io::Result<bool> {
    let file = encode(alloc, code)?;
    match name {
        "write_config" => try_write_config(alloc, code, out)?,
        "encode" => try_call(alloc, &mut Encode { code }, out)?,
        "decode" => try_call(alloc, &mut Decode { file: &file }, out)?,
        "run" => try_run(alloc, &file, out)?,
        "debugger" => try_debugger(alloc, &file, out)?,
        _ => return Ok(false),
    }
    Ok(true)
}

/// Tries `write_config` of the first configuration of a code.
fn try_write_config<W: Write>(alloc: Global, code: &Code, out: &mut W) -> io::Result<()> {
    match code.config(0) {
        Some(config) => try_call(alloc, &mut WriteConfig { config }, out),
        None => Err(unfit()),
    }
}

#[derive(Drop)]
struct WriteConfig<'a> {
    config: &'a Config,
}

impl Trial for WriteConfig<'_> {
    type Answer = Vec<u8>;

    fn call(&mut self, alloc: Global) -> Ended<Vec<u8>> {
        match write_config(alloc, self.config) {
            Ok(record) => Ended::Answered(record),
            Err(_) => Ended::NoMemory,
        }
    }

    fn show<W: Write>(&mut self, _alloc: Global, answer: Vec<u8>, out: &mut W) -> io::Result<()> {
        show_bytes(&answer, out)
    }
}

#[derive(Drop)]
struct Decode<'a> {
    file: &'a [u8],
}

impl Trial for Decode<'_> {
    type Answer = Code;

    fn call(&mut self, alloc: Global) -> Ended<Code> {
        match decode(alloc, self.file) {
            Ok(code) => Ended::Answered(code),
            Err(CodeFault::Memory) => Ended::NoMemory,
            Err(_) => Ended::Otherwise,
        }
    }

    fn show<W: Write>(&mut self, alloc: Global, answer: Code, out: &mut W) -> io::Result<()> {
        let file = encode(alloc, &answer)?;
        show_bytes(&file, out)
    }
}

#[derive(Drop)]
struct Encode<'a> {
    code: &'a Code,
}

impl Trial for Encode<'_> {
    type Answer = Vec<u8>;

    fn call(&mut self, alloc: Global) -> Ended<Vec<u8>> {
        match encode(alloc, self.code) {
            Ok(file) => Ended::Answered(file),
            Err(_) => Ended::NoMemory,
        }
    }

    fn show<W: Write>(&mut self, _alloc: Global, answer: Vec<u8>, out: &mut W) -> io::Result<()> {
        show_bytes(&answer, out)
    }
}

#[derive(Drop)]
struct Run<'a> {
    file: &'a [u8],
    sink: Writer<Vec<u8>>,
}

impl Trial for Run<'_> {
    type Answer = u128;

    /// Out of memory counts only if nothing was written.
    fn call(&mut self, alloc: Global) -> Ended<u128> {
        if self.sink.failed() {
            return Ended::Otherwise;
        }
        let ended = run(alloc, self.file, EVENTS, 0, 0, Contacts(0), &mut self.sink);
        let is_silent = self.sink.inner().is_empty() && !self.sink.failed();
        match ended {
            Ok(frames) => Ended::Answered(frames),
            Err(RunFault::Code(CodeFault::Memory)) if is_silent => Ended::NoMemory,
            Err(RunFault::Events(EventFault::Memory)) if is_silent => Ended::NoMemory,
            Err(_) => Ended::Otherwise,
        }
    }

    fn show<W: Write>(&mut self, _alloc: Global, answer: u128, out: &mut W) -> io::Result<()> {
        writeln!(out, "{answer}")?;
        show_bytes(self.sink.inner(), out)
    }
}

/// Tries `run` of a code file, with a sink that has room for all its frames.
fn try_run<W: Write>(alloc: Global, file: &[u8], out: &mut W) -> io::Result<()> {
    let room = Vec::with_capacity(alloc, MOST_BYTES)?;
    let mut trial = Run {
        file,
        sink: Writer::new(room),
    };
    try_call(alloc, &mut trial, out)
}

#[derive(Drop)]
struct MakeDebugger<'a> {
    player: Option<Player<'a, Tables>>,
}

impl<'a> Trial for MakeDebugger<'a> {
    type Answer = Debugger<'a, Tables>;

    /// Keeps the player returned on failure.
    fn call(&mut self, alloc: Global) -> Ended<Debugger<'a, Tables>> {
        let Some(player) = self.player.take() else {
            return Ended::Otherwise;
        };
        match Debugger::new(alloc, player) {
            Ok(debugger) => Ended::Answered(debugger),
            Err(player) => {
                self.player = Some(player);
                Ended::NoMemory
            }
        }
    }

    fn show<W: Write>(
        &mut self,
        _alloc: Global,
        answer: Debugger<'a, Tables>,
        out: &mut W,
    ) -> io::Result<()> {
        let mut debugger = answer;
        show_report(&debugger.command(Command::Show), out)?;
        show_report(&debugger.command(Command::Run(30)), out)
    }
}

fn show_report<W: Write>(report: &Report, out: &mut W) -> io::Result<()> {
    writeln!(
        out,
        "frames {} steps {} pc {} line {} count {}",
        report.frames, report.steps, report.pc, report.line, report.count
    )
}

/// Decodes and verifies a code file.
fn typed(alloc: Global, file: &[u8]) -> io::Result<Verified> {
    let code = code_in(alloc, file)?;
    verify::<Tables>(code).map_err(|_| unfit())
}

/// Tries `Debugger::new` with a player that has made two frames, the second with contact 3 closed.
fn try_debugger<W: Write>(alloc: Global, file: &[u8], out: &mut W) -> io::Result<()> {
    let code = typed(alloc, file)?;
    let start = Start {
        eid: code.code().plan().eid,
        count: 0,
        day: 0,
        contacts: Contacts(0),
    };
    let mut player: Player<Tables> = Player::new(&code, start).map_err(|_| unfit())?;
    let _first = player.frame();
    if let Some(third) = ContactId::new(3) {
        player.contact(third, true);
    }
    let _second = player.frame();
    let mut trial = MakeDebugger {
        player: Some(player),
    };
    try_call(alloc, &mut trial, out)
}
