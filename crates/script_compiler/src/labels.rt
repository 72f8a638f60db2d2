//! Prices labels: the labels of a code, with their counters and costs.

ghost use Rattle.std.specs.Prelude.{◌≡◌, ℕ, ◌<◌, ◌≤◌, None, [], ◌∷◌, ◌++◌, map, slice_index, OnOk};
ghost use Rattle.std.specs.Prelude.{IfOk, IfErr, IfSome};
ghost use Rattle.script_compiler.specs.Compiled.{first_counters};
ghost use Rattle.script_compiler.specs.Unpriced.{priced_label, AreShallow};
ghost use Rattle.script_compiler.specs.declared.fault.CompileFault.TheVariants.{Memory};

use crate::fault::CompileFault;
use crate::needs::at;
use crate::short::IndexedLabel;
use plan_code::{CounterId, Counters, Label};
use std::alloc::Global;

/// The set of the first `count` counters; None if there are fewer.
fn first_counters(count: u8) -> Option<Counters>
    ensures value { IfSome result (λ c. c ≡ first_counters count) }
    ensures none { result ≡ None → 8 < count }
{
    let mut set = Counters(0);
    for number in 0..count {
        let Some(counter) = CounterId::new(number) else {
            return None;
        };
        set = set.with(counter);
    }
    Some(set)
}

/// The label of an unpriced label, which is in at most as many repeats as there are counters.
fn label_of(unpriced_label: &IndexedLabel, needs: &[u16]) -> Label
    requires bytes { (pc : ℕ) → slice_index needs.now pc ≤ 255 }
    requires deep { unpriced_label.now.repeats ≤ 8 }
    ensures { result ≡ priced_label needs.now unpriced_label.now }
{
    let counters = match first_counters(unpriced_label.repeats) {
        Some(counters) => counters,
        None => unreachable!(),
    };
    Label {
        pc: unpriced_label.pc,
        cur: unpriced_label.cur,
        next: unpriced_label.next,
        pending: unpriced_label.pending,
        counters,
        cost: at(needs, usize::from(unpriced_label.pc)) as u8,
    }
}

/// Appends a label.
fn add(labels: &mut Vec<Label>, label: Label) -> Result<(), CompileFault>
    ensures added { OnOk result (labels.new.items ≡ labels.old.items ++ label ∷ []) }
    ensures memory { IfErr result (λ e. e ≡ Memory) }
{
    if labels.push(label).is_err() {
        return Err(CompileFault::Memory);
    }
    Ok(())
}

/// The labels of unpriced labels, each with the need of its pc as its cost.
///
/// # Errors
///
/// `Memory`.
pub(crate) fn labels_of(
    alloc: Global,
    unpriced: &[IndexedLabel],
    needs: &[u16],
) -> Result<Vec<Label>, CompileFault>
    requires needs { (pc : ℕ) → slice_index needs.now pc ≤ 255 }
    requires deep { AreShallow 8 unpriced.now }
    ensures labels { IfOk result (λ l. l.items ≡ map (priced_label needs.now) unpriced.now) }
    ensures memory { IfErr result (λ e. e ≡ Memory) }
{
    let mut labels = Vec::new(alloc);
    for unpriced_label in unpriced {
        add(&mut labels, label_of(unpriced_label, needs))?;
    }
    Ok(labels)
}
