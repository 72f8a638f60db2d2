//! The transfer function of the flow analysis: what is known after an instruction.

ghost use Rattle.std.specs.Prelude.{◌≡◌, ◌↔◌, ℕ, IsOk, OnOk, IfErr};
ghost use Rattle.plan_code.specs.declared.flags.Counters.{Counters};
ghost use Rattle.plan_code.specs.declared.instr.Instr.TheVariants.{Edit as Edits, Wait, Join};
ghost use Rattle.plan_verifier.specs.Rules.{IsFine};
ghost use Rattle.plan_verifier.specs.Causes.{FlowRefused};
ghost use Rattle.plan_verifier.specs.Flows.{held, known_at, known_with, after_instr, HasItsCounter};
ghost use Rattle.plan_verifier.specs.Tests.{unless, flow_cause};

use crate::cause::Cause;
use crate::commits::{commit_at, commit_in};
use crate::flow::{Flow, is_idle};
use crate::swaps::{is_certain, is_surely_pending, pause, settle, swap, wait};
use mux_config::{Edit, Store};
use plan_code::{Frames, Instr, Plan};

/// Edits the next configuration. Refusals: `Pending` and `Edit`.
fn edit<S: Store>(plan: &Plan, edit: Edit, flow: &mut Flow<S>) -> Result<(), Cause>
    ensures cause { result ≡ unless (flow_cause plan.now (Edits edit) (known_at
        (held S.content flow.old))) }
    ensures fine { IsOk result ↔ IsFine plan.now (Edits edit) (known_at
        (held S.content flow.old)) }
    ensures left { OnOk result (held S.content flow.new ≡ after_instr plan.now (Edits edit)
        (held S.content flow.old)) }
    ensures kept { IfErr result (λ cause. held S.content flow.new ≡ held S.content flow.old) }
{
    if !is_idle(flow.pending) {
        return Err(Cause::Pending);
    }
    if let Err(fault) = edit.apply(&mut flow.next) {
        return Err(Cause::Edit(fault));
    }
    Ok(())
}

/// Waits this many frames. Refusal: `SwapUncertain`.
fn wait_frames<S: Store>(plan: &Plan, frames: Frames, flow: &mut Flow<S>) -> Result<(), Cause>
    ensures cause { result ≡ unless (flow_cause plan.now (Wait frames) (known_at
        (held S.content flow.old))) }
    ensures fine { IsOk result ↔ IsFine plan.now (Wait frames) (known_at
        (held S.content flow.old)) }
    ensures left { OnOk result (held S.content flow.new ≡ after_instr plan.now (Wait frames)
        (held S.content flow.old)) }
    ensures kept { IfErr result (λ cause. held S.content flow.new ≡ held S.content flow.old) }
{
    if !is_certain(frames.get(), flow.pending) {
        return Err(Cause::SwapUncertain);
    }
    wait(frames.get(), flow);
    Ok(())
}

/// Waits for the swap. Refusal: `JoinIdle`.
fn join<S: Store>(plan: &Plan, flow: &mut Flow<S>) -> Result<(), Cause>
    ensures cause { result ≡ unless (flow_cause plan.now Join (known_at
        (held S.content flow.old))) }
    ensures fine { IsOk result ↔ IsFine plan.now Join (known_at
        (held S.content flow.old)) }
    ensures left { OnOk result (held S.content flow.new ≡ after_instr plan.now Join
        (held S.content flow.old)) }
    ensures kept { IfErr result (λ cause. held S.content flow.new ≡ held S.content flow.old) }
{
    if !is_surely_pending(flow.pending) {
        return Err(Cause::JoinIdle);
    }
    swap(flow);
    Ok(())
}

/// Updates what is known after an instruction, or returns the first cause for refusing it.
fn run<S: Store>(plan: &Plan, instr: Instr, flow: &mut Flow<S>) -> Result<(), Cause>
    ensures cause { result ≡ unless (flow_cause plan.now instr (known_at
        (held S.content flow.old))) }
    ensures fine { (counters : Counters) (allowance : ℕ) → HasItsCounter instr counters
        → (IsOk result ↔ IsFine plan.now instr (known_with (held S.content flow.old) counters
        allowance)) }
    ensures left { OnOk result (held S.content flow.new ≡ after_instr plan.now instr
        (held S.content flow.old)) }
    ensures kept { IfErr result (λ cause. held S.content flow.new ≡ held S.content flow.old) }
{
    match instr {
        Instr::Edit(change) => return edit(plan, change, flow),
        Instr::CommitIn(delay) => return commit_in(plan, delay, flow),
        Instr::CommitAt(count) => return commit_at(plan, count, flow),
        Instr::Wait(frames) => return wait_frames(plan, frames, flow),
        Instr::Join => return join(plan, flow),
        Instr::Until(_) => pause(flow),
        Instr::WaitContact { .. } => pause(flow),
        Instr::WaitAny { .. } => pause(flow),
        Instr::Settle => settle(flow),
        Instr::Test { .. } | Instr::TestTime { .. } | Instr::Jump(_) => {}
        Instr::Loop { .. } | Instr::Set { .. } | Instr::End => {}
    }
    Ok(())
}

impl<S: Store> Flow<S> {
    /// Updates the flow to what holds at the next instruction, if control continues there. Only the
    /// configurations and the swap are checked: a loop's counter is assumed to be set, and labels
    /// are not checked.
    ///
    /// # Errors
    ///
    /// The first cause in this order; the flow is then unchanged. An edit: `Pending`, where a swap
    /// is or may be pending; `Edit`. A commit: `Pending`; `Notice`, where the delay is shorter than
    /// the notice, or `Count`, where no swap falls on the CIF count; `Config`, where the next
    /// configuration is not sound; `NoChange`, where it is the current one; `Round`, where there is
    /// no room for its pages. A wait: `SwapUncertain`, where it may end before or after the swap. A
    /// join: `JoinIdle`, where a swap may not be pending.
    pub fn apply(&mut self, plan: &Plan, instr: Instr) -> Result<(), Cause>
        ensures fine { (counters : Counters) (allowance : ℕ) → HasItsCounter instr counters
            → (IsOk result ↔ IsFine plan.now instr (known_with (held S.content self.old)
            counters allowance)) }
        ensures left { OnOk result (held S.content self.new ≡ after_instr plan.now instr
            (held S.content self.old)) }
        ensures refused { IfErr result (λ cause. FlowRefused plan.now instr (known_at
            (held S.content self.old)) cause) }
        ensures kept { IfErr result (λ cause. held S.content self.new ≡ held S.content self.old) }
        ensures cause { result ≡ unless (flow_cause plan.now instr (known_at
            (held S.content self.old))) }
    {
        run(plan, instr, self)
    }
}
