//! The commit of the next configuration.

ghost use Rattle.std.specs.Prelude.{◌≡◌, ◌≢◌, ◌↔◌, IsTrue, IsOk, OnOk, IfErr};
ghost use Rattle.mux_config.specs.Sound.{IsSound};
ghost use Rattle.fib_codec.specs.Layouts.{layout_mode};
ghost use Rattle.plan_code.specs.Machine.{IsSwapCount};
ghost use Rattle.plan_code.specs.declared.instr.Instr.TheVariants.{CommitIn, CommitAt};
ghost use Rattle.plan_verifier.specs.Rules.{HasRoom, IsFine};
ghost use Rattle.plan_verifier.specs.Flows.{held, known_at, after_instr};
ghost use Rattle.plan_verifier.specs.Tests.{unless, is_swap_count, has_room_for_notice};
ghost use Rattle.plan_verifier.specs.Tests.{change_cause, flow_cause};

use crate::cause::Cause;
use crate::flow::{Flow, is_idle, is_same};
use crate::pages::{notice_pages, pages_alone};
use mux_config::{Store, soundness};
use plan_code::limits::COUNTS;
use plan_code::{Delay, Plan, Swap};

/// Whether the pages of both configurations fit in the period and, three times, in the notice, and
/// those of the next one in the period.
fn has_room<S: Store>(plan: &Plan, flow: &Flow<S>) -> bool
    ensures value { result ≡ has_room_for_notice plan.now (known_at (held S.content flow.now)) }
    ensures room { IsTrue result ↔ HasRoom plan.now (known_at (held S.content flow.now)) }
{
    let both = notice_pages(plan, &flow.current, &flow.next);
    both <= usize::from(plan.period)
        && 3 * both <= usize::from(plan.notice)
        && pages_alone(plan, &flow.next) <= usize::from(plan.period)
}

/// Whether the next configuration can be committed when no swap is pending. Refusals: `Config`,
/// where it is not sound, `NoChange` and `Round`.
fn test_change<S: Store>(plan: &Plan, flow: &Flow<S>) -> Result<(), Cause>
    ensures cause { result ≡ unless (change_cause plan.now (known_at (held S.content flow.now))) }
    ensures fine { IsOk result ↔ (IsSound (S.content flow.now.next)
        × (S.content flow.now.next ≢ S.content flow.now.current)
        × HasRoom plan.now (known_at (held S.content flow.now))) }
{
    if let Err(fault) = soundness(&flow.next) {
        return Err(Cause::Config(fault));
    }
    if is_same(&flow.next, &flow.current) {
        return Err(Cause::NoChange);
    }
    if !has_room(plan, flow) {
        return Err(Cause::Round);
    }
    Ok(())
}

/// Whether a swap can fall on this CIF count.
fn is_swap_count(plan: &Plan, count: u16) -> bool
    ensures value { result ≡ is_swap_count plan.now count }
    ensures falls { IsTrue result ↔ IsSwapCount (layout_mode plan.now.layout) count }
{
    count % plan.layout.mode().step() == 0 && count < COUNTS
}

/// Commits the next configuration, for a swap after this delay.
pub(crate) fn commit_in<S: Store>(
    plan: &Plan,
    delay: Delay,
    flow: &mut Flow<S>,
) -> Result<(), Cause>
    ensures cause { result ≡ unless (flow_cause plan.now (CommitIn delay) (known_at
        (held S.content flow.old))) }
    ensures fine { IsOk result ↔ IsFine plan.now (CommitIn delay) (known_at
        (held S.content flow.old)) }
    ensures left { OnOk result (held S.content flow.new ≡ after_instr plan.now (CommitIn delay)
        (held S.content flow.old)) }
    ensures kept { IfErr result (λ cause. flow.new ≡ flow.old) }
{
    let least = delay.get();
    if !is_idle(flow.pending) {
        return Err(Cause::Pending);
    }
    if least < u16::from(plan.notice) {
        return Err(Cause::Notice);
    }
    test_change(plan, flow)?;
    flow.pending = Swap::Within(least, least + (plan.layout.mode().step() - 1));
    Ok(())
}

/// Commits the next configuration, for a swap at this CIF count.
pub(crate) fn commit_at<S: Store>(plan: &Plan, count: u16, flow: &mut Flow<S>) -> Result<(), Cause>
    ensures cause { result ≡ unless (flow_cause plan.now (CommitAt count) (known_at
        (held S.content flow.old))) }
    ensures fine { IsOk result ↔ IsFine plan.now (CommitAt count) (known_at
        (held S.content flow.old)) }
    ensures left { OnOk result (held S.content flow.new ≡ after_instr plan.now (CommitAt count)
        (held S.content flow.old)) }
    ensures kept { IfErr result (λ cause. flow.new ≡ flow.old) }
{
    let notice = u16::from(plan.notice);
    if !is_idle(flow.pending) {
        return Err(Cause::Pending);
    }
    if !is_swap_count(plan, count) {
        return Err(Cause::Count);
    }
    test_change(plan, flow)?;
    flow.pending = Swap::Within(notice, notice + (COUNTS - 1));
    Ok(())
}
