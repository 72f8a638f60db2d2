//! The calls that allocate and read a text, each as a trial over one script.

use crate::codes::{EVENTS, try_over_code};
use crate::trial::{Ended, Trial, show_bytes, try_call};
use crate::unfit;
use plan_code::{Code, encode};
use plan_debug::Command;
use plan_session::{EventFault, Step, read_commands, read_events};
use script_compiler::{CompileFault, compile};
use script_front::{Script, ScriptFault, Token, lex, parse, print};
use std::alloc::Global;
use std::io::{self, Write};

/// A text of commands, of each kind.
const COMMANDS: &str = "break 9 run 100 contact 3 closed run 2 next clear show";

/// Tries the call of this name over a script; false if there is no such call.
pub fn try_named<W: Write>(alloc: Global, name: &str, text: &str, out: &mut W) -> io::Result<bool> {
    match name {
        "lex" => try_call(alloc, &mut Lex { text }, out)?,
        "parse" => try_call(alloc, &mut Parse { text }, out)?,
        "read_events" => try_call(alloc, &mut ReadEvents, out)?,
        "read_commands" => try_call(alloc, &mut ReadCommands, out)?,
        "print" => try_print(alloc, text, out)?,
        "compile" => try_compile(alloc, text, out)?,
        _ => {
            let code = compiled(alloc, text)?;
            return try_over_code(alloc, name, &code, out);
        }
    }
    Ok(true)
}

/// Parses a script.
fn script_of(alloc: Global, text: &str) -> io::Result<Script> {
    match parse(alloc, text) {
        Ok(script) => Ok(script),
        Err(_) => Err(unfit()),
    }
}

/// Compiles a script.
fn compiled(alloc: Global, text: &str) -> io::Result<Code> {
    let script = script_of(alloc, text)?;
    match compile(alloc, &script) {
        Ok(code) => Ok(code),
        Err(_) => Err(unfit()),
    }
}

fn try_print<W: Write>(alloc: Global, text: &str, out: &mut W) -> io::Result<()> {
    let script = script_of(alloc, text)?;
    try_call(alloc, &mut Print { script: &script }, out)
}

fn try_compile<W: Write>(alloc: Global, text: &str, out: &mut W) -> io::Result<()> {
    let script = script_of(alloc, text)?;
    try_call(alloc, &mut Compile { script: &script }, out)
}

#[derive(Drop)]
struct Lex<'a> {
    text: &'a str,
}

impl Trial for Lex<'_> {
    type Answer = Vec<Token>;

    fn call(&mut self, alloc: Global) -> Ended<Vec<Token>> {
        match lex(alloc, self.text) {
            Ok(tokens) => Ended::Answered(tokens),
            Err(ScriptFault::Memory) => Ended::NoMemory,
            Err(_) => Ended::Otherwise,
        }
    }

    fn show<W: Write>(
        &mut self,
        _alloc: Global,
        answer: Vec<Token>,
        out: &mut W,
    ) -> io::Result<()> {
        for token in &answer {
            write!(out, "{}-{} ", token.start, token.end)?;
        }
        writeln!(out)
    }
}

#[derive(Drop)]
struct Parse<'a> {
    text: &'a str,
}

impl Trial for Parse<'_> {
    type Answer = Script;

    fn call(&mut self, alloc: Global) -> Ended<Script> {
        match parse(alloc, self.text) {
            Ok(script) => Ended::Answered(script),
            Err(ScriptFault::Memory) => Ended::NoMemory,
            Err(_) => Ended::Otherwise,
        }
    }

    fn show<W: Write>(&mut self, alloc: Global, answer: Script, out: &mut W) -> io::Result<()> {
        let text = print(alloc, &answer)?;
        write!(out, "{text}")
    }
}

#[derive(Drop)]
struct Print<'a> {
    script: &'a Script,
}

impl Trial for Print<'_> {
    type Answer = String;

    fn call(&mut self, alloc: Global) -> Ended<String> {
        match print(alloc, self.script) {
            Ok(text) => Ended::Answered(text),
            Err(_) => Ended::NoMemory,
        }
    }

    fn show<W: Write>(&mut self, _alloc: Global, answer: String, out: &mut W) -> io::Result<()> {
        write!(out, "{answer}")
    }
}

#[derive(Drop)]
struct Compile<'a> {
    script: &'a Script,
}

impl Trial for Compile<'_> {
    type Answer = Code;

    fn call(&mut self, alloc: Global) -> Ended<Code> {
        match compile(alloc, self.script) {
            Ok(code) => Ended::Answered(code),
            Err(CompileFault::Memory) => Ended::NoMemory,
            Err(_) => Ended::Otherwise,
        }
    }

    fn show<W: Write>(&mut self, alloc: Global, answer: Code, out: &mut W) -> io::Result<()> {
        let file = encode(alloc, &answer)?;
        show_bytes(&file, out)
    }
}

#[derive(Drop)]
struct ReadEvents;

impl Trial for ReadEvents {
    type Answer = Vec<Step>;

    fn call(&mut self, alloc: Global) -> Ended<Vec<Step>> {
        match read_events(alloc, EVENTS) {
            Ok(steps) => Ended::Answered(steps),
            Err(EventFault::Memory) => Ended::NoMemory,
            Err(_) => Ended::Otherwise,
        }
    }

    fn show<W: Write>(&mut self, _alloc: Global, answer: Vec<Step>, out: &mut W) -> io::Result<()> {
        for step in &answer {
            match *step {
                Step::Contact(contact, closed) => {
                    let level = if closed { "closed" } else { "open" };
                    write!(out, "contact {} {level} ", contact.get())?;
                }
                Step::Frames(count) => write!(out, "frames {count} ")?,
            }
        }
        writeln!(out)
    }
}

#[derive(Drop)]
struct ReadCommands;

impl Trial for ReadCommands {
    type Answer = Vec<Command>;

    fn call(&mut self, alloc: Global) -> Ended<Vec<Command>> {
        match read_commands(alloc, COMMANDS) {
            Ok(commands) => Ended::Answered(commands),
            Err(EventFault::Memory) => Ended::NoMemory,
            Err(_) => Ended::Otherwise,
        }
    }

    fn show<W: Write>(
        &mut self,
        _alloc: Global,
        answer: Vec<Command>,
        out: &mut W,
    ) -> io::Result<()> {
        for command in &answer {
            match *command {
                Command::Contact(contact, closed) => {
                    let level = if closed { "closed" } else { "open" };
                    write!(out, "contact {} {level} ", contact.get())?;
                }
                Command::Run(most) => write!(out, "run {most} ")?,
                Command::Next => write!(out, "next ")?,
                Command::Break(line) => write!(out, "break {line} ")?,
                Command::Clear => write!(out, "clear ")?,
                Command::Show => write!(out, "show ")?,
            }
        }
        writeln!(out)
    }
}
