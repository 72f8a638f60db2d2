//! How many instructions of a script's code can run in one frame, whatever its budget is.

ghost use Rattle.std.specs.Prelude.{◌≡◌, ◌≢◌, ◌<◌, ◌≤◌, length, IfOk, IfErr};
ghost use Rattle.script_compiler.specs.Compiled.{placed_instrs, lines_of_placed};
ghost use Rattle.script_compiler.specs.FrameCosts.{IsFrameCost, IsAcceptedButForCosts};
ghost use Rattle.script_compiler.specs.declared.fault.CompileFault.TheVariants.{Memory};

use crate::compiler::{emit, line_at};
use crate::cost::first_round;
use crate::fault::CompileFault;
use crate::longest_path::{LongestPath, longest_in};
use crate::needs::{first_over, needs};
use crate::opening_items::{built, test};
use plan_code::Line;
use script_front::Script;
use std::alloc::{AllocError, Global};

/// The greatest budget of a plan.
const MOST_BUDGET: u8 = 255;

/// How many instructions of a code can run in one frame.
#[derive(Clone, Copy, Debug, PartialEq, Eq)]
pub enum FrameCost {
    /// At most those of this path.
    Most(LongestPath),
    /// Without a bound: a loop can repeat without a suspension. The line is that of the first
    /// instruction that closes such a loop.
    Repeats { line: u16 },
    /// More than 255, so that no budget suffices, though no loop can repeat without a suspension.
    /// The line is that of the first instruction from which so many can run.
    Beyond { line: u16 },
}

/// How many instructions of a code can run in one frame.
fn cost_of(alloc: Global, lines: &[Line]) -> Result<FrameCost, AllocError>
    requires few { length lines.now ≤ 4096 }
    requires some { 0 < length lines.now }
    ensures { IfOk result (IsFrameCost lines.now) }
{
    let needs = needs(alloc, lines, MOST_BUDGET)?;
    let Some(over) = first_over(&needs, MOST_BUDGET) else {
        return Ok(FrameCost::Most(longest_in(lines, &needs)));
    };
    match first_round(alloc, lines)? {
        Some(pc) => Ok(FrameCost::Repeats {
            line: line_at(lines, pc),
        }),
        None => Ok(FrameCost::Beyond {
            line: line_at(lines, over),
        }),
    }
}

/// How many instructions of a script's code can run in one frame: what the budget of its header
/// would have to allow.
///
/// # Errors
///
/// `Memory` if out of memory; else the fault with which [`compile`](crate::compile) refuses the
/// script before its costs.
pub fn frame_cost(alloc: Global, script: &Script) -> Result<FrameCost, CompileFault>
    ensures cost { IfOk result (IsFrameCost (lines_of_placed (placed_instrs script.now))) }
    ensures refused { IfErr result (λ e. e ≢ Memory → IsAcceptedButForCosts script.now → ⊥) }
{
    let plan = script.header();
    let config = built(script.items())?;
    test(&plan, &config, script.begin_line())?;
    let work = emit(alloc, &plan, script, &config)?;
    let cost = cost_of(alloc, &work.lines)?;
    Ok(cost)
}
