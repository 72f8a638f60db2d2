//! Builds and tests the configuration that a script begins with.

ghost use Rattle.std.specs.Prelude.{◌≡◌, ◌≤◌, ◌↔◌, None, OnOk, IsOk, IfOk, IfErr};
ghost use Rattle.mux_config.specs.Configuration.{nothing};
ghost use Rattle.mux_config.specs.Edits.{changed, edit_fault};
ghost use Rattle.mux_config.specs.Sound.{IsSound};
ghost use Rattle.plan_verifier.specs.Rules.{pages_alone};
ghost use Rattle.plan_verifier.specs.Causes.{WhereSome};
ghost use Rattle.plan_verifier.specs.declared.cause.Cause.TheVariants.{Edit as OfEdit};
ghost use Rattle.script_compiler.specs.Compiled.{with_items, AreFine};
ghost use Rattle.script_compiler.specs.Refused.{IsItemRefused, IsOpeningRefused};
ghost use Rattle.script_compiler.specs.Refusals.{IfRefused, IfLimit};

use crate::fault::CompileFault;
use crate::refusal::refused;
use mux_config::{Config, Store};
use plan_code::Plan;
use plan_verifier::{Cause, test_opening};
use script_front::Item;

/// Applies one item; refuses with `Edit` at its line.
fn add(item: &Item, config: &mut Config) -> Result<(), CompileFault>
    ensures made { OnOk result (config.new ≡ changed item.now.edit config.old) }
    ensures fine { IsOk result ↔ (edit_fault item.now.edit config.old ≡ None) }
    ensures unlimited { IfErr result (λ e. IfLimit e (λ _ _. ⊥)) }
    ensures why { IfErr result (λ e. IfRefused e (λ at given. (at ≡ item.now.line)
        × WhereSome (edit_fault item.now.edit config.old) OfEdit given)) }
{
    if let Err(fault) = item.edit.apply(config) {
        return Err(refused(item.line, Cause::Edit(fault)));
    }
    Ok(())
}

/// Applies the items in order to the empty configuration; refuses with `Edit` at the item's line.
pub(crate) fn built(items: &[Item]) -> Result<Config, CompileFault>
    ensures made { IfOk result (λ c. c ≡ with_items items.now nothing) }
    ensures fine { IsOk result ↔ AreFine items.now nothing }
    ensures unlimited { IfErr result (λ e. IfLimit e (λ _ _. ⊥)) }
    ensures why { IfErr result (λ e. IfRefused e (λ at given. IsItemRefused items.now nothing at
        given)) }
{
    let mut config = Config::empty();
    for item in items {
        add(item, &mut config)?;
    }
    Ok(config)
}

/// Tests the opening of a script; refuses with `Config` or `Round` at this line.
pub(crate) fn test(plan: &Plan, config: &Config, line: u16) -> Result<(), CompileFault>
    ensures fine { IsOk result ↔ (IsSound config.now × (pages_alone plan.now config.now
        ≤ plan.now.period)) }
    ensures unlimited { IfErr result (λ e. IfLimit e (λ _ _. ⊥)) }
    ensures why { IfErr result (λ e. IfRefused e (λ at given. (at ≡ line)
        × IsOpeningRefused plan.now config.now given)) }
{
    match test_opening(plan, config) {
        Ok(()) => Ok(()),
        Err(cause) => Err(refused(line, cause)),
    }
}
