//! Checks statements that are one instruction: what is known after one, or why it is refused.

ghost use Rattle.std.specs.Prelude.{◌≡◌, ◌↔◌, List, IsOk, IfErr, OnOk};
ghost use Rattle.mux_config.specs.Configuration.{Configuration};
ghost use Rattle.plan_verifier.specs.Rules.{IsFine};
ghost use Rattle.plan_verifier.specs.Flows.{known_at, after_instr};
ghost use Rattle.plan_verifier.specs.Indexed.{IsTracked};
ghost use Rattle.script_compiler.specs.Alternatives.{instr_of_act};
ghost use Rattle.script_compiler.specs.Refusals.{IsRefusedAs};

use crate::fault::CompileFault;
use crate::instructions::wait_any;
use crate::refusal::refused;
use mux_tables::Tables;
use plan_code::{Instr, Plan};
use plan_verifier::TrackedFlow;
use script_front::Act;

/// The instruction of a statement that compiles to one, such as an edit or a wait.
pub fn instr_of(act: Act) -> Instr
    ensures { result ≡ instr_of_act act }
{
    match act {
        Act::Edit(edit) => Instr::Edit(edit),
        Act::Wait(frames) => Instr::Wait(frames),
        Act::WaitContact { contact, closed } => Instr::WaitContact { contact, closed },
        Act::Until(moment) => Instr::Until(moment.frame()),
        Act::WaitAny(alternatives) => wait_any(alternatives.as_slice()),
        Act::CommitIn(delay) => Instr::CommitIn(delay),
        Act::CommitAt(count) => Instr::CommitAt(count),
        Act::Join => Instr::Join,
        Act::Settle => Instr::Settle,
    }
}

/// Checks a statement and updates the flow. The statement is valid exactly if what is known
/// satisfies what its instruction needs.
///
/// # Errors
///
/// `Refused` at the statement's line, with the first cause that [`TrackedFlow::apply`] names. The
/// flow is unchanged then.
pub(crate) fn judge(
    plan: &Plan,
    line: u16,
    act: Act,
    tracked: &mut TrackedFlow<Tables>,
) -> Result<(), CompileFault>
    ensures left { OnOk result (tracked.new.flow ≡ after_instr plan.now (instr_of_act act)
        tracked.old.flow) }
    ensures fine { IsOk result ↔ IsFine plan.now (instr_of_act act)
        (known_at tracked.old.flow) }
    ensures refused { IfErr result (λ e. IsRefusedAs plan.now line (instr_of_act act)
        tracked.old.flow e) }
    ensures kept { IfErr result (λ e. tracked.new.flow ≡ tracked.old.flow) }
    ensures tracked { (pool : List Configuration) → IsTracked (λ c. c) pool tracked.old
        → IsTracked (λ c. c) pool tracked.new }
{
    match tracked.apply(plan, instr_of(act)) {
        Ok(()) => Ok(()),
        Err(cause) => Err(refused(line, cause)),
    }
}
