//! Gives numbers in the pool to the configurations of a flow.

ghost use Rattle.std.specs.Prelude.{◌≡◌, ◌<◌, length, slice_get, Some, IfOk, IfErr};
ghost use Rattle.plan_verifier.specs.Indexed.{flow_at, IsAt, IsTracked, IsWithin};
ghost use Rattle.script_compiler.specs.Pool.{Extends};
ghost use Rattle.script_compiler.specs.declared.fault.CompileFault.TheVariants.{Memory};

use crate::fault::CompileFault;
use crate::unpriced::UnpricedLabels;
use mux_tables::Tables;
use plan_verifier::flow::is_same;
use plan_verifier::{IndexedFlow, TrackedFlow};

/// The known number of the current configuration, or else its number in the pool, to which it is
/// added if absent.
fn current_number(
    unpriced: &mut UnpricedLabels,
    current: &Tables,
    known: Option<usize>,
) -> Result<usize, CompileFault>
    requires known { IsAt unpriced.old.pool known current.now }
    ensures items { unpriced.new.items ≡ unpriced.old.items }
    ensures table { unpriced.new.table ≡ unpriced.old.table }
    ensures kept { Extends unpriced.old.pool unpriced.new.pool }
    ensures number { IfOk result (λ k. slice_get unpriced.new.pool k ≡ Some current.now) }
    ensures memory { IfErr result (λ e. e ≡ Memory) }
{
    match known {
        Some(number) => Ok(number),
        None => unpriced.number_of(current),
    }
}

/// The known number of the next configuration, or else that of the current one if they are the
/// same, as after a swap; or else its number in the pool, to which it is added if absent.
fn next_number(
    unpriced: &mut UnpricedLabels,
    next: &Tables,
    known: Option<usize>,
    current: usize,
) -> Result<usize, CompileFault>
    requires known { IsAt unpriced.old.pool known next.now }
    requires current { current < length unpriced.old.pool }
    ensures items { unpriced.new.items ≡ unpriced.old.items }
    ensures table { unpriced.new.table ≡ unpriced.old.table }
    ensures kept { Extends unpriced.old.pool unpriced.new.pool }
    ensures number { IfOk result (λ k. slice_get unpriced.new.pool k ≡ Some next.now) }
    ensures memory { IfErr result (λ e. e ≡ Memory) }
{
    if let Some(number) = known {
        return Ok(number);
    }
    if is_same(&unpriced.pool()[current], next) {
        return Ok(current);
    }
    unpriced.number_of(next)
}

/// A flow with its configurations by number. Configurations without a number are added to the pool.
///
/// # Errors
///
/// `Memory`.
pub(crate) fn numbered(
    unpriced: &mut UnpricedLabels,
    tracked: &TrackedFlow<Tables>,
) -> Result<IndexedFlow, CompileFault>
    requires known { IsTracked (λ c. c) unpriced.old.pool tracked.now }
    ensures items { unpriced.new.items ≡ unpriced.old.items }
    ensures table { unpriced.new.table ≡ unpriced.old.table }
    ensures kept { Extends unpriced.old.pool unpriced.new.pool }
    ensures same { IfOk result (λ f. flow_at unpriced.new.pool f ≡ tracked.now.flow) }
    ensures within { IfOk result (λ f. IsWithin (length unpriced.new.pool) f) }
    ensures memory { IfErr result (λ e. e ≡ Memory) }
{
    let flow = &tracked.flow;
    let known = tracked.indices;
    let current = match current_number(unpriced, &flow.current, known.current) {
        Ok(current) => current,
        Err(fault) => return Err(fault),
    };
    let next = match next_number(unpriced, &flow.next, known.next, current) {
        Ok(next) => next,
        Err(fault) => return Err(fault),
    };
    Ok(IndexedFlow {
        current,
        next,
        pending: flow.pending,
    })
}
