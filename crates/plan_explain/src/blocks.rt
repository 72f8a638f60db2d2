//! Defined blocks of which a code has nothing.

ghost use Rattle.std.specs.Prelude.{◌≡◌, ◌++◌, ◌∷◌, [], ◌==◌, map, IfOk, OnOk};
ghost use Rattle.std.specs.List.{list_any};
ghost use Rattle.plan_explain.specs.Blocks.{own_line, first_line, unless_line, unreached_of};
ghost use Rattle.plan_explain.specs.Blocks.{unreached};

use crate::list::push;
use plan_code::Line;
use script_front::Statement;
use std::alloc::{AllocError, Global};

/// The line of a statement that is an instruction, or begins with one.
fn own_line(statement: &Statement) -> Option<u16>
    ensures { result ≡ own_line statement.now }
{
    match statement {
        Statement::Act { line, .. } => Some(*line),
        Statement::End { line } => Some(*line),
        Statement::If { line, .. } => Some(*line),
        Statement::IfElse { line, .. } => Some(*line),
        Statement::Repeat { line, .. } => Some(*line),
        Statement::Forever { .. } => None,
        Statement::Apply { .. } => None,
    }
}

/// The line of the first such statement of a block.
fn first_line(block: &[Statement]) -> Option<u16>
    ensures { result ≡ first_line block.now }
{
    for statement in block {
        if let Some(line) = own_line(statement) {
            return Some(line);
        }
    }
    None
}

/// Whether an instruction of a code comes from a line.
fn has_line(lines: &[Line], number: u16) -> bool
    ensures { result ≡ list_any (λ l. l.number == number) lines.now }
{
    lines.iter().any(|line| line.number == number)
}

/// Appends the line of a block of which a code has nothing.
fn push_unreached(
    found: &mut Vec<u16>,
    lines: &[Line],
    block: &[Statement],
) -> Result<(), AllocError>
    ensures { OnOk result (found.new.items ≡ found.old.items ++ unreached_of lines.now block.now) }
{
    let Some(line) = first_line(block) else {
        return Ok(());
    };
    if has_line(lines, line) {
        return Ok(());
    }
    push(found, line)
}

/// The lines of the defined blocks of which a code has nothing.
pub(crate) fn unreached(
    alloc: Global,
    lines: &[Line],
    blocks: &[Vec<Statement>],
) -> Result<Vec<u16>, AllocError>
    ensures { IfOk result (λ v. v.items ≡ unreached lines.now (map (λ b. b.items) blocks.now)) }
{
    let mut found = Vec::new(alloc);
    for block in blocks {
        push_unreached(&mut found, lines, block.as_slice())?;
    }
    Ok(found)
}
