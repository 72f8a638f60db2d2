//! Reading a text that lists items: the steps of an event file, or the commands of a command file.

ghost use Rattle.std.specs.Prelude.{◌≡◌, ◌≢◌, List, [], ◌∷◌, ◌++◌, OnOk, IfOk, IfErr};
ghost use Rattle.plan_session.specs.declared.event_fault.EventFault.TheVariants.{Memory};
ghost use Rattle.plan_session.specs.ItemFaults.{ReportsItemFault};
ghost use Rattle.plan_session.specs.Items.{HoldsItems};
ghost use Rattle.plan_session.specs.FirstFaults.{ReportsFirstFault};

use crate::event_fault::EventFault;
use crate::items::Item;
use crate::listing::{list_items, take_item};
use std::alloc::Global;

/// The items of a text, one after another, separated by blanks and comments as in scripts.
///
/// # Errors
///
/// First `Byte`, for a byte outside comments that is not allowed; then the fault of the first item
/// that cannot be read. `Memory` if memory runs out. A text that lists items has no other fault.
pub(crate) fn read_items<T: Item>(alloc: Global, text: &str) -> Result<Vec<T>, EventFault>
    ensures found { IfOk result (λ v. HoldsItems T.spelled T.is_item text.now v.items) }
    ensures only { IfErr result (λ e. e ≢ Memory → (all : List T)
        → HoldsItems T.spelled T.is_item text.now all → ⊥) }
    ensures first { IfErr result (λ e. e ≢ Memory → ReportsFirstFault text.now e) }
    ensures fault { IfErr result (λ e. e ≢ Memory
        → ReportsItemFault T.spelled T.is_item text.now e) }
{
    let mut left = list_items::<T>(text)?;
    let mut items = Vec::new(alloc);
    while let Some(item) = take_item::<T>(&mut left) {
        push(&mut items, item)?;
    }
    Ok(items)
}

/// Appends an item.
fn push<T: Item>(items: &mut Vec<T>, item: T) -> Result<(), EventFault>
    ensures added { OnOk result (items.new.items ≡ items.old.items ++ item ∷ []) }
    ensures named { IfErr result (λ e. e ≡ Memory) }
{
    match items.push(item) {
        Ok(()) => Ok(()),
        Err(_full) => Err(EventFault::Memory),
    }
}
