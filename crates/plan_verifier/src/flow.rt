//! What is known of the configurations and the swap.

ghost use Rattle.std.specs.Prelude.{◌≡◌, ◌↔◌, IsTrue};
ghost use Rattle.plan_code.specs.declared.label.Swap.TheVariants.{Idle};
ghost use Rattle.plan_verifier.specs.Tests.{is_idle, is_same};

use mux_config::Store;
use mux_config::reconfiguration::{has_same_services, has_same_subs};
use plan_code::Swap;

/// What is known of the configurations and of the swap from the current one to the next, with each
/// configuration in a store.
#[derive(Drop)]
pub struct Flow<S: Store> {
    /// The current configuration.
    pub current: S,
    /// The next configuration.
    pub next: S,
    /// Whether a swap is pending, and when it falls.
    pub pending: Swap,
}

/// Whether no swap is pending.
pub fn is_idle(pending: Swap) -> bool
    ensures value { result ≡ is_idle pending }
    ensures idle { IsTrue result ↔ (pending ≡ Idle) }
{
    match pending {
        Swap::Idle => true,
        Swap::Within(_, _) => false,
        Swap::Perhaps(_) => false,
    }
}

/// Whether two stores, of the same type or not, hold the same configuration.
pub fn is_same<S: Store, T: Store>(a: &S, b: &T) -> bool
    ensures value { result ≡ is_same (S.content a.now) (T.content b.now) }
    ensures same { IsTrue result ↔ (S.content a.now ≡ T.content b.now) }
{
    has_same_subs(a, b) && has_same_services(a, b)
}
