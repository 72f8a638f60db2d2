//! The map of a script: its rows with the names of their blocks, its key, its layout, and the
//! warnings about it.

ghost use Rattle.plan_verifier.specs.Typing.{IsTyped};
ghost use Rattle.schedule_front.specs.Denoting.{IsScheduleOf};
ghost use Rattle.script_front.specs.Denoting.{IsScriptOf};

use crate::commit_blocks::commit_blocks;
use crate::compile::{ScriptRefusal, code_of, source_of, verified_of};
use mux_types::BoundedVec;
use plan_code::Code;
use plan_explain::{Warning, warnings_of};
use plan_map::{Layout, Row, RowKind, Use, key_of, layout_of, rows_of};
use schedule_front::{Schedule, Source};
use script_front::{BlockId, Names, Script};
use std::alloc::{AllocError, Global};

/// The map of a script in text and drawing, its layout, and the warnings about it.
#[derive(Drop)]
pub struct Map {
    /// The ensemble.
    pub eid: u16,
    /// The rows, with the names of their blocks.
    pub rows: Vec<Row>,
    /// The key of the services.
    pub key: Vec<Use>,
    /// The layout that serves every configuration, or two sub-channels for which there is none.
    pub layout: Layout,
    /// The warnings.
    pub warnings: Vec<Warning>,
}

/// The map of a script's text, or why it is refused.
pub(crate) fn map_of(alloc: Global, text: &str) -> Result<Map, ScriptRefusal> {
    match source_of(alloc, text) {
        Ok(Source::Steps(script)) => map_of_steps(alloc, text, &script),
        Ok(Source::Schedule(schedule)) => map_of_schedule(alloc, text, &schedule),
        Err(refusal) => Err(refusal),
    }
}

/// The map of the script of steps of a text, or why it is refused.
fn map_of_steps(alloc: Global, text: &str, script: &Script) -> Result<Map, ScriptRefusal>
    requires { IsScriptOf text.now script.now }
{
    let code = match code_of(alloc, text, script) {
        Ok(code) => code,
        Err(refusal) => return Err(refusal),
    };
    match map_from(alloc, script, &code) {
        Ok(map) => Ok(map),
        Err(_) => Err(ScriptRefusal::Memory),
    }
}

/// The map of the schedule of a text, or why it is refused.
fn map_of_schedule(alloc: Global, text: &str, schedule: &Schedule) -> Result<Map, ScriptRefusal>
    requires { IsScheduleOf text.now schedule.now }
{
    let verified = match verified_of(alloc, text, schedule) {
        Ok(verified) => verified,
        Err(refusal) => return Err(refusal),
    };
    match map_of_code(alloc, schedule.line(), verified.code()) {
        Ok(map) => Ok(map),
        Err(_) => Err(ScriptRefusal::Memory),
    }
}

/// The map of a code that begins with this line, without warnings. The error is out of memory.
fn map_of_code(alloc: Global, line: u16, code: &Code) -> Result<Map, AllocError>
    requires { IsTyped code.now }
{
    let rows = rows_of(alloc, line, code)?;
    let key = key_of(alloc, rows.as_slice())?;
    let layout = layout_of(alloc, rows.as_slice())?;
    Ok(Map {
        eid: code.plan().eid,
        rows,
        key,
        layout,
        warnings: Vec::new(alloc),
    })
}

/// The map of a script with this code. The error is out of memory.
fn map_from(alloc: Global, script: &Script, code: &Code) -> Result<Map, AllocError>
    requires { IsTyped code.now }
{
    let rows = named_rows(alloc, script, code)?;
    let key = key_of(alloc, rows.as_slice())?;
    let layout = layout_of(alloc, rows.as_slice())?;
    let warnings = warnings_of(alloc, script, code)?;
    Ok(Map {
        eid: code.plan().eid,
        rows,
        key,
        layout,
        warnings,
    })
}

/// The rows of a script's code, with the names of their blocks. The error is out of memory.
fn named_rows(alloc: Global, script: &Script, code: &Code) -> Result<Vec<Row>, AllocError> {
    let mut rows = rows_of(alloc, script.begin_line(), code)?;
    let blocks = commit_blocks(alloc, script.blocks(), script.statements())?;
    name_rows(script.names(), blocks.as_slice(), rows.as_mut_slice());
    Ok(rows)
}

/// Gives the row of each commit the name of its block; the rows of commits are in the order of
/// these.
fn name_rows(names: &Names, blocks: &[Option<BlockId>], rows: &mut [Row]) {
    let mut commits = blocks.iter();
    for row in rows.iter_mut() {
        if row.kind == RowKind::Commit {
            row.block = name_of(names, commits.next());
        }
    }
}

/// The first 32 letters of the name of a commit's block; none outside of blocks.
fn name_of(names: &Names, block: Option<&Option<BlockId>>) -> BoundedVec<u8, 32> {
    let Some(Some(block)) = block else {
        return BoundedVec::new();
    };
    match names.get(usize::from(block.get())) {
        Some(name) => letters_of(name.as_bytes()),
        None => BoundedVec::new(),
    }
}

/// The first 32 letters of a name.
fn letters_of(name: &[u8]) -> BoundedVec<u8, 32> {
    let mut letters = BoundedVec::new();
    for letter in name {
        if letters.len() < 32 {
            letters.push(*letter);
        }
    }
    letters
}
