//! The defined blocks that the commits of a script's code are in, by their places in the script.

use script_front::{Act, BlockId, Statement};
use std::alloc::{AllocError, Global};

/// The most commits that are looked at: no code has more instructions.
const MOST: usize = 4096;

/// Appends the blocks of these commits, as far as they are looked at.
fn push(commits: &mut Vec<Option<BlockId>>, blocks: &[Option<BlockId>]) -> Result<(), AllocError> {
    for block in blocks {
        if commits.len() < MOST {
            commits.push(*block)?;
        }
    }
    Ok(())
}

/// Appends the blocks of the commits of statements of the block `own`.
#[cycle(commits)]
fn push_statements(
    commits: &mut Vec<Option<BlockId>>,
    defined: &[Vec<Option<BlockId>>],
    own: &Option<BlockId>,
    statements: &[Statement],
) -> Result<(), AllocError> {
    for statement in statements {
        push_statement(commits, defined, own, statement)?;
    }
    Ok(())
}

/// Appends the blocks of the commits of a statement of the block `own`.
#[cycle(commits)]
fn push_statement(
    commits: &mut Vec<Option<BlockId>>,
    defined: &[Vec<Option<BlockId>>],
    own: &Option<BlockId>,
    statement: &Statement,
) -> Result<(), AllocError> {
    match statement {
        Statement::Act {
            act: Act::CommitIn(_) | Act::CommitAt(_),
            ..
        } => push(commits, &[*own]),
        Statement::Act { .. } | Statement::End { .. } => Ok(()),
        Statement::IfElse { first, second, .. } => {
            push_statements(commits, defined, own, first.as_slice())?;
            push_statements(commits, defined, own, second.as_slice())
        }
        Statement::If { first: body, .. }
        | Statement::Repeat { body, .. }
        | Statement::Forever { body, .. } => {
            push_statements(commits, defined, own, body.as_slice())
        }
        Statement::Apply { block, .. } => match defined.get(usize::from(block.get())) {
            Some(its) => push(commits, its.as_slice()),
            None => Ok(()),
        },
    }
}

/// For each commit of an accepted script's code, in the order of the code, the block that has its
/// statement; none outside of blocks. A block has its commits wherever it is applied. The error is
/// out of memory.
pub(crate) fn commit_blocks(
    alloc: Global,
    blocks: &[Vec<Statement>],
    statements: &[Statement],
) -> Result<Vec<Option<BlockId>>, AllocError> {
    let mut defined: Vec<Vec<Option<BlockId>>> = Vec::new(alloc);
    let mut number = 0u8;
    for block in blocks {
        let mut its = Vec::new(alloc);
        let own = BlockId::new(number);
        push_statements(&mut its, defined.as_slice(), &own, block.as_slice())?;
        defined.push(its)?;
        number = number.saturating_add(1);
    }
    let mut commits = Vec::new(alloc);
    push_statements(&mut commits, defined.as_slice(), &None, statements)?;
    Ok(commits)
}
