//! Constructors of statements.

ghost use Rattle.std.specs.Prelude.{◌≡◌, []};
ghost use Rattle.script_front.specs.Block.{Block, basic, stop, when, either, repeat, forever};
ghost use Rattle.script_front.specs.Block.{apply, before, block_of};
ghost use Rattle.script_front.specs.Block.{nothing};

use crate::tree::{Act, BlockId, Condition, Statement};
use plan_code::Times;

/// A statement without a block.
pub fn acting(line: u16, act: Act) -> Statement
    ensures { (b : Block) → before [] result b ≡ basic line act b }
{
    Statement::Act { line, act }
}

/// `end`
pub fn ending(line: u16) -> Statement
    ensures { (b : Block) → before [] result b ≡ stop line b }
{
    Statement::End { line }
}

/// `if` without `else`
pub fn conditional(line: u16, condition: Condition, first: Vec<Statement>) -> Statement
    ensures { (b : Block) → before [] result b ≡ when line condition (block_of [] first.items) b }
{
    Statement::If {
        line,
        condition,
        first,
    }
}

/// `if` with `else`
pub fn choosing(
    line: u16,
    condition: Condition,
    first: Vec<Statement>,
    second: Vec<Statement>,
) -> Statement
    ensures { (b : Block) → before [] result b ≡ either line condition (block_of [] first.items)
        (block_of [] second.items) b }
{
    Statement::IfElse {
        line,
        condition,
        first,
        second,
    }
}

/// `repeat`
pub fn repeating(line: u16, times: Times, body: Vec<Statement>) -> Statement
    ensures { (b : Block) → before [] result b ≡ repeat line times (block_of [] body.items) b }
{
    Statement::Repeat { line, times, body }
}

/// `forever`
pub fn looping(line: u16, body: Vec<Statement>) -> Statement
    ensures { (b : Block) → before [] result b ≡ forever line (block_of [] body.items) b }
{
    Statement::Forever { line, body }
}

/// `apply`
pub fn applying(line: u16, block: BlockId) -> Statement
    ensures { (b : Block) → before [] result b ≡ apply line block nothing b }
{
    Statement::Apply { line, block }
}
