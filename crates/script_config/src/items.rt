//! The configuration that the items of a script make, or the first item with a fault.

ghost use Rattle.std.specs.Prelude.{◌≡◌, None, Some, IfOk, IfErr, OnOk};
ghost use Rattle.mux_config.specs.Configuration.{nothing};
ghost use Rattle.mux_config.specs.Edits.{changed, edit_fault};
ghost use Rattle.script_front.specs.Alike.{added_by};
ghost use Rattle.script_config.specs.Sequences.{Transform};
ghost use Rattle.script_config.specs.Items.{made_by};

use mux_config::{Config, EditFault, Store};
use script_front::Item;
use thiserror::Error;

/// Why the items of a script make no configuration: the first item with a fault. The line is 1 to
/// 65,535 in a script that was read. `Display` writes the line that `compile` prints.
#[derive(Clone, Copy, Debug, PartialEq, Eq, Error)]
#[error("refused line {line}: Edit {fault}")]
pub struct ItemFault {
    /// The line of the item's first token.
    pub line: u16,
    /// The fault.
    pub fault: EditFault,
}

/// Applies one item.
fn add(item: &Item, config: &mut Config) -> Result<(), ItemFault>
    ensures made { OnOk result (config.new ≡ changed item.now.edit config.old) }
    ensures fine { OnOk result (edit_fault item.now.edit config.old ≡ None) }
    ensures refused { IfErr result (λ e. (e.line ≡ item.now.line)
        × (edit_fault item.now.edit config.old ≡ Some e.fault)) }
{
    let line = item.line;
    match item.edit.apply(config) {
        Ok(()) => Ok(()),
        Err(fault) => Err(ItemFault { line, fault }),
    }
}

/// The configuration that items make: they are applied to the empty one, in order. It may be
/// unsound. The first item with a fault is reported, with its line.
#[tactic(auto, using(crate::proofs::ItemByItem::made_leads))]
pub fn made_by(items: &[Item]) -> Result<Config, ItemFault>
    ensures value { result ≡ made_by items.now nothing }
    ensures leads { IfOk result (λ c. Transform (added_by items.now) nothing c) }
{
    let mut config = Config::empty();
    for item in items {
        if let Err(fault) = add(item, &mut config) {
            return Err(fault);
        }
    }
    Ok(config)
}
