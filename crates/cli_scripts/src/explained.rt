//! Refusals with their explanation: behind the line of the refusal where that is asked for, else on
//! standard error, in the form that editors read.

ghost use Rattle.console.specs.World.{Stays};

use crate::compile::ScriptRefusal;
use crate::schedule_notes::{names_schedule, notes_on_schedule, notes_on_text};
use console::escaped::Escaped;
use console::exit::Failure;
use console::files::Files;
use plan_code::{CodeFault, decode};
use plan_explain::{Note, notes_on_code, notes_on_fault, notes_on_script, put_errors, put_notes};
use plan_session::RunFault;
use script_front::{ScriptFault, parse};
use std::alloc::Global;
use std::io::{self, ErrorKind, Write};
use std::str;

/// Where a refusal is explained.
#[derive(Clone, Copy, PartialEq, Eq)]
pub enum Explanation {
    /// Behind the line of the refusal, as `PATH:L: SENTENCE`.
    WithLine = 1,
    /// On standard error, as `PATH:L: error: SENTENCE`.
    OnError = 2,
    /// Behind the line of the refusal, where that goes to standard error, as `PATH:L: error:
    /// SENTENCE`.
    WithErrorLine = 3,
    /// Nowhere.
    Nowhere = 4,
}

impl Explanation {
    /// The same of a command whose lines go to standard error.
    pub(crate) fn of_product(self) -> Explanation {
        match self {
            Explanation::OnError => Explanation::WithErrorLine,
            Explanation::WithLine | Explanation::WithErrorLine | Explanation::Nowhere => self,
        }
    }
}

/// Prints why a script of this path and text is refused, and explains it.
///
/// If out of memory for an explanation that is asked for, the line alone is printed and `Memory` is
/// returned; another one is left out then.
pub fn show_script_refusal<'a, F: Files, W: Write>(
    alloc: Global,
    path: &str,
    text: &str,
    refusal: ScriptRefusal,
    explanation: Explanation,
    files: &mut F,
    out: &mut W,
) -> Result<(), Failure<'a>>
    ensures world { Stays (F.world files.old) (F.world files.new) }
{
    writeln!(out, "{refusal}")?;
    explain_script(alloc, path, text, refusal, explanation, files, out)
}

/// Explains why a script of this path and text is refused, where the line of the refusal is printed
/// already.
pub(crate) fn explain_script<'a, F: Files, W: Write>(
    alloc: Global,
    path: &str,
    text: &str,
    refusal: ScriptRefusal,
    explanation: Explanation,
    files: &mut F,
    out: &mut W,
) -> Result<(), Failure<'a>>
    ensures world { Stays (F.world files.old) (F.world files.new) }
{
    if explanation == Explanation::Nowhere {
        return Ok(());
    }
    let notes = notes_on(alloc, text, &refusal);
    show_notes(alloc, path, text, notes, explanation, files, out)
}

/// The notes on a refused script. The error is out of memory.
#[inline(never)]
fn notes_on(alloc: Global, text: &str, refusal: &ScriptRefusal) -> io::Result<Vec<Note>> {
    match refusal {
        ScriptRefusal::Script(fault) if names_schedule(text) => notes_on_text(alloc, *fault),
        ScriptRefusal::Script(fault) => notes_on_fault(alloc, text, *fault),
        ScriptRefusal::Plan(fault) => match parse(alloc, text) {
            Ok(script) => notes_on_script(alloc, text, &script, *fault),
            Err(ScriptFault::Memory) => Err(io::Error::from(ErrorKind::OutOfMemory)),
            Err(_fault) => Ok(Vec::new(alloc)),
        },
        ScriptRefusal::Schedule(fault) => notes_on_schedule(alloc, text, fault),
        ScriptRefusal::Memory => Ok(Vec::new(alloc)),
    }
}

/// Prints why the code in a file of this path is refused, and explains it, as
/// [`show_script_refusal`] does.
pub(crate) fn show_code_refusal<'a, F: Files, W: Write>(
    alloc: Global,
    path: &str,
    file: &[u8],
    fault: RunFault,
    explanation: Explanation,
    files: &mut F,
    out: &mut W,
) -> Result<(), Failure<'a>> {
    writeln!(out, "{fault}")?;
    if explanation == Explanation::Nowhere {
        return Ok(());
    }
    let notes = notes_on_file(alloc, file, &fault);
    show_notes(alloc, path, "", notes, explanation, files, out)
}

/// The notes on a refused code; none if the file holds no code. The error is out of memory.
#[inline(never)]
fn notes_on_file(alloc: Global, file: &[u8], fault: &RunFault) -> io::Result<Vec<Note>> {
    let RunFault::Refused { pc, cause, .. } = fault else {
        return Ok(Vec::new(alloc));
    };
    match decode(alloc, file) {
        Ok(code) => notes_on_code(alloc, &code, *pc, *cause),
        Err(CodeFault::Memory) => Err(io::Error::from(ErrorKind::OutOfMemory)),
        Err(_fault) => Ok(Vec::new(alloc)),
    }
}

/// Prints notes on the text of this path behind the line of its refusal, or reports them on
/// standard error.
fn show_notes<'a, F: Files, W: Write>(
    alloc: Global,
    path: &str,
    text: &str,
    notes: io::Result<Vec<Note>>,
    explanation: Explanation,
    files: &mut F,
    out: &mut W,
) -> Result<(), Failure<'a>>
    ensures world { Stays (F.world files.old) (F.world files.new) }
{
    let lines = lines_of(alloc, path, text, notes, explanation);
    match (explanation, lines) {
        (Explanation::WithLine, Err(_)) => Err(Failure::Memory),
        (Explanation::WithLine | Explanation::WithErrorLine, Ok(lines)) => {
            Ok(out.write_all(lines.as_slice())?)
        }
        (Explanation::OnError, Ok(lines)) => {
            report_lines(lines.as_slice(), files);
            Ok(())
        }
        _ => Ok(()),
    }
}

/// The lines of notes on the text of this path. The error is out of memory.
fn lines_of(
    alloc: Global,
    path: &str,
    text: &str,
    notes: io::Result<Vec<Note>>,
    explanation: Explanation,
) -> io::Result<Vec<u8>> {
    let notes = notes?;
    let path = Escaped::in_line(path).to_string(alloc)?;
    let mut lines: Vec<u8> = Vec::new(alloc);
    if explanation == Explanation::WithLine {
        put_notes(path.as_str(), text, notes.as_slice(), &mut lines)?;
    } else {
        put_errors(path.as_str(), text, notes.as_slice(), &mut lines)?;
    }
    Ok(lines)
}

/// Reports lines on standard error, the last of which ends with a line feed.
pub fn report_lines<F: Files>(lines: &[u8], files: &mut F)
    ensures world { Stays (F.world files.old) (F.world files.new) }
{
    let Some((last, line)) = lines.split_last() else {
        return;
    };
    if *last != b'\n' {
        return;
    }
    if let Ok(text) = str::from_utf8(line) {
        files.report(text);
    }
}
