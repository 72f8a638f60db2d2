//! Whether a plan can start with a configuration.

ghost use Rattle.std.specs.Prelude.{◌≡◌, ◌≤◌, ◌↔◌, IsOk};
ghost use Rattle.mux_config.specs.Sound.{IsSound};
ghost use Rattle.plan_verifier.specs.Rules.{pages_alone};
ghost use Rattle.plan_verifier.specs.Tests.{unless, start_cause};

use crate::cause::Cause;
use crate::pages::pages_alone;
use mux_config::{Store, soundness};
use plan_code::Plan;

/// Whether a plan can start with this configuration. Refusals, in this order: `Config`, where it is
/// not sound, and `Round`, where its pages take longer than the period.
pub fn test_opening<S: Store>(plan: &Plan, opening: &S) -> Result<(), Cause>
    ensures cause { result ≡ unless (start_cause plan.now (S.content opening.now)) }
    ensures fine { IsOk result ↔ (IsSound (S.content opening.now)
        × (pages_alone plan.now (S.content opening.now) ≤ plan.now.period)) }
{
    if let Err(fault) = soundness(opening) {
        return Err(Cause::Config(fault));
    }
    if usize::from(plan.period) < pages_alone(plan, opening) {
        return Err(Cause::Round);
    }
    Ok(())
}
