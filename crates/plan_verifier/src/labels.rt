//! What is known where the machine reaches a label.

ghost use Rattle.std.specs.Prelude.{◌≡◌, ℕ, length, IfSome};
ghost use Rattle.plan_code.specs.Program.{IsProgram, IsLabel, label_at};
ghost use Rattle.plan_verifier.specs.Indexed.{IsTracked};
ghost use Rattle.plan_verifier.specs.Held.{known_of, flow_of_label};
ghost use Rattle.plan_verifier.specs.Walking.{unless, is_fit, declared_by, entry_cause};
ghost use Rattle.plan_verifier.specs.Walking.{label_cause};

use crate::known::{KnownState, includes};
use crate::{Cause, IndexedFlow};
use mux_config::Store;
use plan_code::{Code, Label};

/// The label at an instruction. Its fields are within their limits.
pub(crate) fn label_at(code: &Code, pc: u16) -> Option<Label>
    ensures value { result ≡ label_at code.now pc }
    ensures within { IfSome result (IsLabel (length code.now.configurations)) }
    ensures formed { IsProgram code.now }
{
    code.label_at(pc)
}

/// What a label declares of the configurations and the swap.
fn flow_of(label: &Label) -> IndexedFlow
    ensures { result ≡ flow_of_label label.now }
{
    IndexedFlow {
        current: usize::from(label.cur),
        next: usize::from(label.next),
        pending: label.pending,
    }
}

/// Whether the state fits what a label declares, whatever its allowance.
fn is_fit<S: Store>(code: &Code, label: &Label, state: &KnownState<S>) -> bool
    requires within { IsLabel (length code.now.configurations) label.now }
    requires tracked { IsTracked S.content code.now.configurations state.now.tracked }
    ensures { (allowance : ℕ) → result ≡ is_fit (record (known_of S.content state.now) {
      allowance = allowance;
    }) (declared_by code.now label.now) }
{
    includes(state.counters, label.counters) && state.tracked.fits(code.configs(), &flow_of(label))
}

/// Checks that the state fits what a label declares, and notes where its configurations are then.
/// Refusals: `Mismatch`, where it does not fit, and `Cost`, where this allowance is below the
/// label's cost.
pub(crate) fn test_entry<S: Store>(
    code: &Code,
    label: &Label,
    allowance: u8,
    state: &mut KnownState<S>,
) -> Result<(), Cause>
    requires within { IsLabel (length code.now.configurations) label.now }
    requires tracked { IsTracked S.content code.now.configurations state.old.tracked }
    ensures cause { result ≡ unless (entry_cause code.now label.now (record
        (known_of S.content state.old) { allowance = allowance })) }
    ensures kept { known_of S.content state.new ≡ known_of S.content state.old }
    ensures allowance { state.new.allowance ≡ state.old.allowance }
    ensures tracked { IsTracked S.content code.now.configurations state.new.tracked }
{
    if !is_fit(code, label, state) {
        return Err(Cause::Mismatch);
    }
    state.tracked.note_fit(&flow_of(label));
    if allowance < label.cost {
        return Err(Cause::Cost);
    }
    Ok(())
}

/// Checks that a label's cost is within the budget. Refusal: `Cost`.
pub(crate) fn test_cost(code: &Code, label: &Label) -> Result<(), Cause>
    ensures { result ≡ unless (label_cause code.now label.now) }
{
    if code.plan().budget < label.cost {
        return Err(Cause::Cost);
    }
    Ok(())
}

/// Adopts what a label declares.
pub(crate) fn take<S: Store>(code: &Code, label: &Label, state: &mut KnownState<S>)
    requires within { IsLabel (length code.now.configurations) label.now }
    requires tracked { IsTracked S.content code.now.configurations state.old.tracked }
    ensures value { known_of S.content state.new ≡ declared_by code.now label.now }
    ensures tracked { IsTracked S.content code.now.configurations state.new.tracked }
{
    state.tracked.take(code.configs(), &flow_of(label));
    state.counters = label.counters;
    state.allowance = label.cost;
}
