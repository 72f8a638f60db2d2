//! Facts of statements before they are compiled: whether control reaches their end, and whether
//! they emit nothing.

ghost use Rattle.std.specs.Prelude.{◌≡◌, map, List};
ghost use Rattle.script_front.specs.Block.{Block, nothing, block_of, before};
ghost use Rattle.script_compiler.specs.Scheme.{falls_out};
ghost use Rattle.script_compiler.specs.Emission.{has_no_instr, facts_of};

use crate::context::BlockFacts;
use script_front::Statement;

/// Whether control reaches the end of these statements, given the facts of the blocks that they
/// apply.
#[cycle(falls)]
pub(crate) fn all_fall(facts: &[BlockFacts], statements: &[Statement]) -> bool
    ensures { (table : List Block) → facts.now ≡ map facts_of table → result
        ≡ falls_out (block_of table statements.now) }
{
    for statement in statements {
        if !falls(facts, statement) {
            return false;
        }
    }
    true
}

/// Whether control reaches the end of this statement.
#[cycle(falls)]
fn falls(facts: &[BlockFacts], statement: &Statement) -> bool
    ensures { (table : List Block) → facts.now ≡ map facts_of table → result
        ≡ falls_out (before table statement.now nothing) }
{
    match statement {
        Statement::End { .. } => false,
        Statement::Forever { .. } => false,
        Statement::IfElse { first, second, .. } => all_fall(facts, first)
            || all_fall(facts, second),
        Statement::Repeat { body, .. } => all_fall(facts, body),
        Statement::Apply { block, .. } => {
            let number = usize::from(block.get());
            number >= facts.len() || facts[number].reaches_end
        }
        Statement::Act { .. } => true,
        Statement::If { .. } => true,
    }
}

/// Whether these statements emit no instructions, given the facts of the blocks that they apply.
pub(crate) fn all_silent(facts: &[BlockFacts], statements: &[Statement]) -> bool
    ensures { (table : List Block) → facts.now ≡ map facts_of table → result
        ≡ has_no_instr (block_of table statements.now) }
{
    for statement in statements {
        if !is_silent(facts, statement) {
            return false;
        }
    }
    true
}

/// Whether this statement emits no instructions.
fn is_silent(facts: &[BlockFacts], statement: &Statement) -> bool
    ensures { (table : List Block) → facts.now ≡ map facts_of table → result
        ≡ has_no_instr (before table statement.now nothing) }
{
    match statement {
        Statement::Apply { block, .. } => {
            let number = usize::from(block.get());
            number >= facts.len() || facts[number].emits_nothing
        }
        Statement::Act { .. } => false,
        Statement::End { .. } => false,
        Statement::If { .. } => false,
        Statement::IfElse { .. } => false,
        Statement::Repeat { .. } => false,
        Statement::Forever { .. } => false,
    }
}
