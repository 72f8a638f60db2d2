//! Checking one instruction.

ghost use Rattle.std.specs.Prelude.{◌≡◌, ◌≤◌, ◌+◌, ◌==◌, ◌&&◌, List, OnOk, length};
ghost use Rattle.mux_config.specs.Configuration.{Configuration};
ghost use Rattle.plan_code.specs.Program.{instr_at, label_at};
ghost use Rattle.plan_verifier.specs.Flows.{flow_of, known_with, after_instr, set_after, left_over};
ghost use Rattle.plan_verifier.specs.Indexed.{IsTracked};
ghost use Rattle.plan_verifier.specs.Held.{known_of};
ghost use Rattle.plan_verifier.specs.Typing.{leaves, spent, continues};
ghost use Rattle.plan_verifier.specs.Walking.{unless, flow_cause, target_cause, instr_cause};
ghost use Rattle.plan_verifier.specs.Walking.{known_cause, jump_cause, instr_or_end};

use crate::Cause;
use crate::known::KnownState;
use crate::labels::{label_at, test_entry};
use crate::properties::continues;
use mux_config::Store;
use plan_code::{Code, Instr, Plan};

/// Checks a jump to the label at the target. Refusals: `Target`, where there is none, `Mismatch`
/// and `Cost`.
fn test_jump<S: Store>(code: &Code, target: u16, state: &mut KnownState<S>) -> Result<(), Cause>
    requires allowance { 1 ≤ state.old.allowance }
    requires tracked { IsTracked S.content code.now.configurations state.old.tracked }
    ensures cause { result ≡ unless (jump_cause code.now (label_at code.now target) (spent
        (known_of S.content state.old))) }
    ensures kept { known_of S.content state.new ≡ known_of S.content state.old }
    ensures allowance { state.new.allowance ≡ state.old.allowance }
    ensures tracked { IsTracked S.content code.now.configurations state.new.tracked }
{
    match label_at(code, target) {
        None => Err(Cause::Target),
        Some(label) => test_entry(code, &label, state.allowance - 1, state),
    }
}

/// Checks the jump of an instruction, if it has one. Refusals: `CounterUnset`, where a loop's
/// counter may not be set, `Target`, `Mismatch` and `Cost`.
fn test_target<S: Store>(code: &Code, instr: Instr, state: &mut KnownState<S>) -> Result<(), Cause>
    requires allowance { 1 ≤ state.old.allowance }
    requires tracked { IsTracked S.content code.now.configurations state.old.tracked }
    ensures cause { result ≡ unless (target_cause code.now instr
        (known_of S.content state.old)) }
    ensures kept { known_of S.content state.new ≡ known_of S.content state.old }
    ensures allowance { state.new.allowance ≡ state.old.allowance }
    ensures tracked { IsTracked S.content code.now.configurations state.new.tracked }
{
    match instr {
        Instr::Test { target, .. } => test_jump(code, target, state),
        Instr::TestTime { target, .. } => test_jump(code, target, state),
        Instr::Jump(target) => test_jump(code, target, state),
        Instr::Loop { counter, target } => {
            if !state.counters.has(counter) {
                return Err(Cause::CounterUnset);
            }
            test_jump(code, target, state)
        }
        Instr::Edit(_) => Ok(()),
        Instr::CommitIn(_) => Ok(()),
        Instr::CommitAt(_) => Ok(()),
        Instr::Wait(_) => Ok(()),
        Instr::Until(_) => Ok(()),
        Instr::WaitContact { .. } => Ok(()),
        Instr::WaitAny { .. } => Ok(()),
        Instr::Join => Ok(()),
        Instr::Settle => Ok(()),
        Instr::Set { .. } => Ok(()),
        Instr::End => Ok(()),
    }
}

/// Updates the configurations and the swap for an instruction, or returns the first cause for
/// refusing it.
fn advance<S: Store>(plan: &Plan, instr: Instr, state: &mut KnownState<S>) -> Result<(), Cause>
    ensures cause { result ≡ unless (flow_cause plan.now instr (known_of S.content state.old)) }
    ensures left { OnOk result (known_of S.content state.new
        ≡ known_with (after_instr plan.now instr (flow_of (known_of S.content state.old)))
        state.old.counters state.old.allowance) }
    ensures tracked { (table : List Configuration) → IsTracked S.content table state.old.tracked
        → IsTracked S.content table state.new.tracked }
{
    state.tracked.apply(plan, instr)
}

/// Updates the counters that are set, and the allowance for the next instruction.
fn account<S: Store>(plan: &Plan, instr: Instr, state: &mut KnownState<S>)
    requires { 1 ≤ state.old.allowance }
    ensures value { known_of S.content state.new ≡ known_with (flow_of
        (known_of S.content state.old)) (set_after instr state.old.counters)
        (left_over plan.now instr state.old.allowance) }
    ensures tracked { state.new.tracked ≡ state.old.tracked }
{
    match instr {
        Instr::Wait(_) => state.allowance = plan.budget,
        Instr::Until(_) => state.allowance = plan.budget,
        Instr::WaitContact { .. } => state.allowance = plan.budget,
        Instr::WaitAny { .. } => state.allowance = plan.budget,
        Instr::Join => state.allowance = plan.budget,
        Instr::Set { counter, .. } => {
            state.counters = state.counters.with(counter);
            state.allowance -= 1;
        }
        Instr::Loop { counter, .. } => {
            state.counters = state.counters.without(counter);
            state.allowance -= 1;
        }
        Instr::Edit(_) => state.allowance -= 1,
        Instr::CommitIn(_) => state.allowance -= 1,
        Instr::CommitAt(_) => state.allowance -= 1,
        Instr::Settle => state.allowance -= 1,
        Instr::Test { .. } => state.allowance -= 1,
        Instr::TestTime { .. } => state.allowance -= 1,
        Instr::Jump(_) => state.allowance -= 1,
        Instr::End => state.allowance -= 1,
    }
}

/// Checks one instruction that has an allowance, and updates the state.
fn step<S: Store>(code: &Code, instr: &Instr, state: &mut KnownState<S>) -> Result<(), Cause>
    requires allowance { 1 ≤ state.old.allowance }
    requires tracked { IsTracked S.content code.now.configurations state.old.tracked }
    ensures cause { result ≡ unless (instr_cause code.now instr.now
        (known_of S.content state.old)) }
    ensures left { OnOk result (known_of S.content state.new ≡ leaves code.now.plan instr.now
        (known_of S.content state.old)) }
    ensures tracked { OnOk result (IsTracked S.content code.now.configurations state.new.tracked) }
{
    let plan = code.plan();
    test_target(code, *instr, state)?;
    advance(&plan, *instr, state)?;
    account(&plan, *instr, state);
    Ok(())
}

/// The instruction at a pc; `End` past the last one.
pub(crate) fn instr_at(code: &Code, pc: u16) -> Instr
    ensures { result ≡ instr_or_end (instr_at code.now pc) }
{
    match code.instr(pc) {
        Some(instr) => instr,
        None => Instr::End,
    }
}

/// Whether the instruction at a pc is the last one and continues past the end.
fn falls_off(code: &Code, pc: u16) -> bool
    ensures { result ≡ (continues (instr_or_end (instr_at code.now pc)) &&
        (pc + 1 == length code.now.lines)) }
{
    continues(instr_at(code, pc)) && usize::from(pc) + 1 == code.lines().len()
}

/// Checks one instruction, starting with the allowance, and updates the state.
pub(crate) fn judge<S: Store>(code: &Code, pc: u16, state: &mut KnownState<S>) -> Result<(), Cause>
    requires { IsTracked S.content code.now.configurations state.old.tracked }
    ensures cause { result ≡ unless (known_cause code.now pc (instr_or_end (instr_at code.now pc))
        (known_of S.content state.old)) }
    ensures left { OnOk result (known_of S.content state.new ≡ leaves code.now.plan (instr_or_end
        (instr_at code.now pc)) (known_of S.content state.old)) }
    ensures tracked { OnOk result (IsTracked S.content code.now.configurations state.new.tracked) }
{
    if state.allowance == 0 {
        return Err(Cause::Cost);
    }
    step(code, &instr_at(code, pc), state)?;
    if falls_off(code, pc) {
        return Err(Cause::FallsOff);
    }
    Ok(())
}
