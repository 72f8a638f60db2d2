//! Explains why a script is not compiled.

use crate::because::commit_of;
use crate::cost::explain_cost;
use crate::facts::facts_of;
use crate::follow::follow;
use crate::hint::{advise_paths, explain_known, hint_on_loop};
use crate::limit::explain_limit;
use crate::list::push_owned;
use crate::note::Note;
use crate::opening::notes_on_opening;
use crate::stop::{Refused, Stop, cause_of};
use crate::trial::Refusal;
use crate::trier::Trier;
use crate::words::{act_words, put_fact};
use plan_code::Instr;
use plan_verifier::Cause;
use script_compiler::CompileFault;
use script_front::{Act, Script};
use std::alloc::{AllocError, Global};
use std::io::{self, Write};

/// The words of what is refused, or of the beginning of the statements; empty if it is no act.
fn refused_words(alloc: Global, refused: Refused) -> Result<String, AllocError> {
    let act = match &refused {
        Refused::Instr(instr, _) => act_of(instr),
        Refused::Unreached { act, .. } => *act,
        Refused::Opening(_) => return String::from_str(alloc, "begin"),
        _ => None,
    };
    match act {
        Some(act) => act_words(alloc, act),
        None => Ok(String::new(alloc)),
    }
}

/// The act that is compiled to an instruction, if one is that is explained by its words.
fn act_of(instr: &Instr) -> Option<Act> {
    Some(match instr {
        Instr::Edit(edit) => Act::Edit(*edit),
        Instr::Wait(frames) => Act::Wait(*frames),
        Instr::CommitIn(delay) => Act::CommitIn(*delay),
        Instr::CommitAt(count) => Act::CommitAt(*count),
        Instr::Join => Act::Join,
        _ => return None,
    })
}

/// Explains a refused statement.
fn explain_act(trier: &mut Trier, stop: &Stop, note: &mut Note) -> io::Result<()> {
    if let Cause::Pending | Cause::SwapUncertain = cause_of(stop.refused) {
        trier.commit = commit_of(trier, stop)?;
    }
    let facts = facts_of(trier.alloc, stop)?;
    explain_known(trier, stop, facts.as_slice(), note)
}

/// Explains two paths that differ: at a loop, which does not come back to what was known at its
/// beginning, or at an `if`, which can't be merged.
fn explain_paths(trier: &mut Trier, stop: &Stop, is_loop: bool, note: &mut Note) -> io::Result<()> {
    let (words, sides) = if is_loop {
        let sides = [" at its end", " at its beginning"];
        ("the loop does not come back as it began: ", sides)
    } else {
        let sides = [" on one path", " on the other"];
        ("the two paths through the 'if' differ: ", sides)
    };
    let facts = facts_of(trier.alloc, stop)?;
    let fact = facts.first();
    note.text.write_all(words.as_bytes())?;
    if let Some(fact) = fact {
        put_fact(fact, stop, sides, &mut note.text)?;
    }
    if is_loop {
        return hint_on_loop(trier, stop, fact);
    }
    advise_paths(trier, stop)
}

/// Explains an unreachable statement after one in another line.
fn explain_unreached(trier: &mut Trier, line: u16, after: u16, note: &mut Note) -> io::Result<()> {
    trier.leave_out()?;
    write!(&mut trier.advice, "leave out the statement in line {line}")?;
    write!(
        &mut note.text,
        "it can't be reached: the statement in line {after} does not continue to it"
    )
}

/// Explains a refused statement, of which it is known where the script stops.
fn explain_stop(trier: &mut Trier, stop: &Stop, note: &mut Note) -> io::Result<()> {
    match stop.refused {
        Refused::Loop => explain_paths(trier, stop, true, note),
        Refused::Paths => explain_paths(trier, stop, false, note),
        Refused::Unreached { after, .. } => explain_unreached(trier, stop.line, after, note),
        Refused::Instr(_, _) | Refused::Opening(_) => explain_act(trier, stop, note),
    }
}

/// Notes on a refusal in a line for a cause.
fn notes_on_refusal(
    alloc: Global,
    text: &str,
    script: &Script,
    line: u16,
    cause: Cause,
    notes: &mut Vec<Note>,
) -> io::Result<()> {
    let fault = CompileFault::Refused { line, cause };
    let stop = match follow(alloc, script)? {
        Some(stop) => stop.of(fault),
        None => None,
    };
    let in_opening = matches!(&stop, Some(stop) if stop.in_opening);
    let refusal = Refusal::Plan {
        line,
        cause,
        is_defined: !in_opening && line < script.begin_line(),
    };
    let mut trier = Trier::new(alloc, text, refusal)?;
    if let Some(stop) = &stop {
        let words = refused_words(alloc, stop.refused)?;
        trier.turn_to(stop.line, words.as_str())?;
    }
    let mut note = Note::on_line(alloc, line);
    match &stop {
        Some(stop) if in_opening => return notes_on_opening(&mut trier, script, stop, notes),
        Some(stop) => explain_stop(&mut trier, stop, &mut note)?,
        None if cause == Cause::Cost => explain_cost(&mut trier, script, &mut note)?,
        None => note.text.write_all(b"the plan is refused here")?,
    }
    trier.put_hint(&mut note)?;
    Ok(push_owned(notes, note)?)
}

/// Notes on why a script with this text is not compiled: the objects and numbers involved, and a
/// correction; of items, each that has a fault by itself. None if the fault is out of memory.
///
/// A correction that is a change of the text was tried: with it the text is not refused in this
/// place, or, where `then it is accepted` follows, not at all. Other hints are advice.
///
/// # Errors
///
/// `OutOfMemory`.
pub fn notes_on_script(
    alloc: Global,
    text: &str,
    script: &Script,
    fault: CompileFault,
) -> io::Result<Vec<Note>> {
    let mut notes = Vec::new(alloc);
    match fault {
        CompileFault::Refused { line, cause } => {
            notes_on_refusal(alloc, text, script, line, cause, &mut notes)?
        }
        CompileFault::Limit { line, limit } => {
            let mut note = Note::on_line(alloc, line);
            explain_limit(limit, &mut note)?;
            push_owned(&mut notes, note)?;
        }
        CompileFault::Memory => {}
    }
    Ok(notes)
}
