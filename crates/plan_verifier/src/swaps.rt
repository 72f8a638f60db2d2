//! How waiting affects a pending swap.

ghost use Rattle.std.specs.Prelude.{◌≡◌};
ghost use Rattle.plan_verifier.specs.Rules.{known_after_swap, after_wait, perhaps_swapped};
ghost use Rattle.plan_verifier.specs.Rules.{after_pause, after_settle};
ghost use Rattle.plan_verifier.specs.Flows.{held, known_at, flow_of};
ghost use Rattle.plan_verifier.specs.Tests.{is_certain, is_surely_pending};

use crate::flow::Flow;
use mux_config::Store;
use plan_code::Swap;

/// Whether a wait of this many frames certainly ends before the swap, or certainly not before it. A
/// swap that may already have been made may also fall during the wait.
pub(crate) fn is_certain(frames: u16, pending: Swap) -> bool
    ensures { result ≡ is_certain frames pending }
{
    match pending {
        Swap::Idle => true,
        Swap::Within(low, high) => frames < low || high <= frames,
        Swap::Perhaps(_) => true,
    }
}

/// Whether it is certain that a swap is pending.
pub(crate) fn is_surely_pending(pending: Swap) -> bool
    ensures { result ≡ is_surely_pending pending }
{
    match pending {
        Swap::Idle => false,
        Swap::Within(_, _) => true,
        Swap::Perhaps(_) => false,
    }
}

/// Updates the flow: the swap has been made.
pub(crate) fn swap<S: Store>(flow: &mut Flow<S>)
    ensures { held S.content flow.new ≡ flow_of (known_after_swap (known_at
        (held S.content flow.old))) }
{
    flow.current.copy_from(&flow.next);
    flow.pending = Swap::Idle;
}

/// Updates the flow: this many frames have passed.
pub(crate) fn wait<S: Store>(frames: u16, flow: &mut Flow<S>)
    ensures { held S.content flow.new ≡ flow_of (after_wait frames flow.old.pending (known_at
        (held S.content flow.old))) }
{
    match flow.pending {
        Swap::Idle => {}
        Swap::Within(low, high) => {
            if frames < low {
                flow.pending = Swap::Within(low - frames, high.saturating_sub(frames));
            } else {
                swap(flow);
            }
        }
        Swap::Perhaps(high) => {
            if frames < high {
                flow.pending = Swap::Perhaps(high - frames);
            } else {
                swap(flow);
            }
        }
    }
}

/// Updates the flow: one frame or more has passed, and the swap falls after at most this many.
fn perhaps_swap<S: Store>(high: u16, flow: &mut Flow<S>)
    ensures { held S.content flow.new ≡ flow_of (perhaps_swapped high (known_at
        (held S.content flow.old))) }
{
    if 1 < high {
        flow.pending = Swap::Perhaps(high - 1);
    } else {
        swap(flow);
    }
}

/// Updates the flow: one frame or more has passed.
pub(crate) fn pause<S: Store>(flow: &mut Flow<S>)
    ensures { held S.content flow.new ≡ flow_of (after_pause flow.old.pending (known_at
        (held S.content flow.old))) }
{
    match flow.pending {
        Swap::Idle => {}
        Swap::Within(_, high) => perhaps_swap(high, flow),
        Swap::Perhaps(high) => perhaps_swap(high, flow),
    }
}

/// Updates the flow: if a swap was pending, it has been made.
pub(crate) fn settle<S: Store>(flow: &mut Flow<S>)
    ensures { held S.content flow.new ≡ flow_of (after_settle flow.old.pending (known_at
        (held S.content flow.old))) }
{
    match flow.pending {
        Swap::Idle => {}
        Swap::Within(_, _) => swap(flow),
        Swap::Perhaps(_) => swap(flow),
    }
}
