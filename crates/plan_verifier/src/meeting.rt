//! Merging two control-flow paths.

ghost use Rattle.std.specs.Prelude.{◌≡◌, ◌↔◌, ◌&&◌, true, false, IsTrue};
ghost use Rattle.plan_verifier.specs.Flows.{held, known_at, merged, FitsFlow};
ghost use Rattle.plan_verifier.specs.Tests.{is_same, fits_swap};

use crate::fitting::{Condition, needed, widest};
use crate::flow::{Flow, is_idle, is_same};
use mux_config::Store;
use plan_code::Swap;

/// Whether a flow has these configurations.
fn has<S: Store, T: Store>(flow: &Flow<S>, current: &T, next: &T) -> bool
    ensures { result ≡ (is_same (S.content flow.now.current) (T.content current.now)
        && is_same (S.content flow.now.next) (T.content next.now)) }
{
    is_same(&flow.current, current) && is_same(&flow.next, next)
}

/// Whether two paths can merge: each fits the merged flow. The one whose configurations that flow
/// has fits it anyway.
fn agree<S: Store>(first: &Flow<S>, second: &Flow<S>) -> bool
    ensures { IsTrue result ↔ (FitsFlow (held S.content first.now) (merged
        (held S.content first.now) (held S.content second.now)) × FitsFlow
        (held S.content second.now) (merged (held S.content first.now)
        (held S.content second.now))) }
{
    let pending = widest(first.pending, second.pending);
    if is_idle(first.pending) {
        return first.fits(&second.current, &second.next, pending);
    }
    second.fits(&first.current, &first.next, pending)
}

impl<S: Store> Flow<S> {
    /// Whether the flow implies what a label with these configurations and this swap declares.
    pub fn fits<T: Store>(&self, current: &T, next: &T, pending: Swap) -> bool
        ensures fits { IsTrue result ↔ FitsFlow (held S.content self.now) (record {
          current = T.content current.now;
          next = T.content next.now;
          pending = pending;
        }) }
        ensures value { result ≡ fits_swap self.now.pending pending (known_at
            (held S.content self.now)) (known_at (record {
              current = T.content current.now;
              next = T.content next.now;
              pending = pending;
            })) }
    {
        match needed(self.pending, pending) {
            Condition::Never => false,
            Condition::Both => has(self, current, next),
            Condition::NextTwice => has(self, next, next),
        }
    }

    /// Merges this path with another. False where one of them does not fit the merged flow; this
    /// one is then unchanged.
    pub fn meet(&mut self, other: &Flow<S>) -> bool
        ensures met { result ≡ true → held S.content self.new ≡ merged (held S.content self.old)
            (held S.content other.now) }
        ensures agree { IsTrue result ↔ (FitsFlow (held S.content self.old) (merged
            (held S.content self.old) (held S.content other.now)) × FitsFlow
            (held S.content other.now) (merged (held S.content self.old)
            (held S.content other.now))) }
        ensures kept { result ≡ false → self.new ≡ self.old }
    {
        if !agree(self, other) {
            return false;
        }
        let pending = widest(self.pending, other.pending);
        if is_idle(self.pending) && !is_idle(other.pending) {
            self.current.copy_from(&other.current);
        }
        self.pending = pending;
        true
    }
}
