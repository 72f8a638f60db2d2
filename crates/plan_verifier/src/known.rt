//! What is known at an instruction.

ghost use Rattle.std.specs.Prelude.{◌≡◌};
ghost use Rattle.plan_verifier.specs.Walking.{includes};

use crate::TrackedFlow;
use mux_config::Store;
use plan_code::Counters;

/// What is known whenever the machine reaches an instruction, with each configuration in a store.
#[derive(Drop)]
pub(crate) struct KnownState<S: Store> {
    /// What is known of the configurations and the swap, and where the configurations are in the
    /// code's table.
    pub(crate) tracked: TrackedFlow<S>,
    /// Counters that are certainly set.
    pub(crate) counters: Counters,
    /// How many instructions may still run in this frame, including this one.
    pub(crate) allowance: u8,
}

/// Whether every counter of the second set is in the first.
pub(crate) fn includes(counters: Counters, others: Counters) -> bool
    ensures { result ≡ includes counters others }
{
    counters.includes(others)
}
