//! Explains why a schedule is refused: what is wrong at its place, and with which overlays; and
//! with which condition it compiles.

use crate::exclusion::hint_on_overlays;
use plan_explain::Note;
use schedule_compiler::{ScheduleFault, ScheduleLimit};
use schedule_front::{Schedule, parse_schedule};
use script_front::{Keyword, Position, ScriptFault};
use script_tokens::{SCRIPT_LIMITS, Scanner};
use std::alloc::Global;
use std::io::{self, ErrorKind, Write};

/// Whether the first of the words `schedule`, `define` and `begin` in a text is `schedule`.
pub(crate) fn names_schedule(text: &str) -> bool {
    let bytes = text.as_bytes();
    let mut scanner = Scanner::new(text, SCRIPT_LIMITS);
    while let Ok(Some(token)) = scanner.next() {
        match Keyword::of(bytes.get(token.start..token.end).unwrap_or(&[])) {
            Some(Keyword::Schedule) => return true,
            Some(Keyword::Define | Keyword::Begin) => return false,
            _ => {}
        }
    }
    false
}

/// A note with these words on a line, at a position that is shown or on the whole line.
fn note(alloc: Global, line: usize, shown: Option<Position>) -> Note {
    Note {
        line,
        column: shown.map_or(0, |position| position.column),
        text: Vec::new(alloc),
        hint: Vec::new(alloc),
        shown,
    }
}

/// One note. The error is out of memory.
fn one(alloc: Global, note: Note) -> io::Result<Vec<Note>> {
    let mut notes = Vec::new(alloc);
    match notes.push(note) {
        Ok(()) => Ok(notes),
        Err(_full) => Err(io::Error::from(ErrorKind::OutOfMemory)),
    }
}

/// Where a text has a fault, and what is wrong there; none where memory ran out.
fn place_of(fault: ScriptFault) -> Option<(Position, &'static str)> {
    Some(match fault {
        ScriptFault::Byte(at) => (at, "a byte that is not allowed outside comments"),
        ScriptFault::Number(at) => (at, "a value within its range is expected here"),
        ScriptFault::Expected(at) => (at, "something else is expected here"),
        ScriptFault::Depth(at) => (at, "braces are nested too deep"),
        ScriptFault::NameUsed(at) => (at, "an overlay before it has this name"),
        ScriptFault::NameUnknown(at) => (at, "no block has this name"),
        ScriptFault::Limit(at) => (
            at,
            "at most 64 overlays, 32 tests in one, 8192 items, overlays and edits in all, words of \
             32 bytes, 65535 lines",
        ),
        ScriptFault::Memory => return None,
    })
}

/// The note on why a text is no schedule. The error is out of memory.
pub(crate) fn notes_on_text(alloc: Global, fault: ScriptFault) -> io::Result<Vec<Note>> {
    let Some((position, words)) = place_of(fault) else {
        return Ok(Vec::new(alloc));
    };
    let mut note = note(alloc, position.line, Some(position));
    note.text.write_all(words.as_bytes())?;
    one(alloc, note)
}

/// Writes the names of a set of overlays, joined by `and`; the first overlay is the lowest bit.
fn put_overlays<W: Write>(schedule: &Schedule, overlays: u64, out: &mut W) -> io::Result<()> {
    if overlays == 0 {
        return out.write_all(b"with the items alone");
    }
    let mut word = "with ";
    for number in 0u32..64 {
        if (overlays >> number) & 1 == 1 {
            if let Some(name) = schedule.names().get(number as usize) {
                write!(out, "{word}{name}")?;
                word = " and ";
            }
        }
    }
    Ok(())
}

/// What a limit is, and what keeps a schedule within it.
fn limit_words(limit: ScheduleLimit) -> &'static str {
    match limit {
        ScheduleLimit::Combinations => {
            "more than 4096 combinations of overlays can hold: let some exclude each other"
        }
        ScheduleLimit::Configurations => {
            "more than 256 configurations can be due: let some overlays exclude each other"
        }
        ScheduleLimit::Instructions => {
            "the code would have more than 4096 instructions: let some overlays exclude each other"
        }
        ScheduleLimit::Labels => {
            "the code would have more than 1024 labels: let some overlays exclude each other"
        }
        ScheduleLimit::Regions => {
            "too many cases to be told apart by contacts and times: let some overlays exclude each other"
        }
    }
}

/// Writes why a schedule is refused.
fn put_fault<W: Write>(schedule: &Schedule, fault: &ScheduleFault, out: &mut W) -> io::Result<()> {
    match fault {
        ScheduleFault::Refused {
            cause,
            overlays,
            ..
        } => {
            put_overlays(schedule, *overlays, out)?;
            write!(out, ": {cause}")
        }
        ScheduleFault::Limit(limit) => out.write_all(limit_words(*limit).as_bytes()),
        ScheduleFault::Uncertified => {
            out.write_all(b"the code is not known to play the schedule: this is a fault of dabplan")
        }
        ScheduleFault::Memory => Ok(()),
    }
}

/// The note on why the schedule of a text is refused. The error is out of memory.
pub(crate) fn notes_on_schedule(
    alloc: Global,
    text: &str,
    fault: &ScheduleFault,
) -> io::Result<Vec<Note>> {
    let schedule = match parse_schedule(alloc, text) {
        Ok(schedule) => schedule,
        Err(ScriptFault::Memory) => return Err(io::Error::from(ErrorKind::OutOfMemory)),
        Err(_fault) => return Ok(Vec::new(alloc)),
    };
    let line = match fault {
        ScheduleFault::Refused { line, .. } => *line,
        _ => schedule.line(),
    };
    let mut note = note(alloc, usize::from(line), None);
    put_fault(&schedule, fault, &mut note.text)?;
    if let ScheduleFault::Refused { line, overlays, .. } = fault {
        let hint = hint_on_overlays(alloc, text, &schedule, *line, *overlays);
        let hint = hint.map_err(|_| io::Error::from(ErrorKind::OutOfMemory))?;
        note.hint.write_all(hint.as_str().as_bytes())?;
    }
    one(alloc, note)
}
