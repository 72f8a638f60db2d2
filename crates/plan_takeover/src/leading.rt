//! The instructions that lead from one configuration to another.

ghost use Rattle.std.specs.Prelude.{◌≡◌, ◌≤◌, IfOk};
ghost use Rattle.plan_code.specs.Program.{IsPlan};
ghost use Rattle.plan_takeover.specs.Takeover.{leading};

use mux_config::Config;
use plan_code::{Line, Plan};
use script_compiler::instr_of;
use script_config::acts_between;
use std::alloc::{AllocError, Global};

/// The instructions that lead from one configuration to another by one reconfiguration, all with
/// this source line.
#[tactic(auto, using(crate::proofs::Sequences::one_changed))]
pub(crate) fn leading(
    alloc: Global,
    plan: Plan,
    line: u16,
    from: &Config,
    to: &Config,
) -> Result<Vec<Line>, AllocError>
    requires headed { IsPlan plan }
    requires room { 2 ≤ plan.budget }
    ensures { IfOk result (λ v. v.items ≡ leading plan line from.now to.now) }
{
    let acts = acts_between(alloc, plan, from, to)?;
    let mut lines = Vec::new(alloc);
    for act in &acts {
        let instr = instr_of(*act);
        lines.push(Line {
            number: line,
            instr,
        })?;
    }
    Ok(lines)
}
