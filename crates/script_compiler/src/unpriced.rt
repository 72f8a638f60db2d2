//! Labels without their costs, and the table of the configurations that they name.

ghost use Rattle.std.specs.Prelude.{◌≡◌, ℕ, ◌<◌, ◌≤◌, [], ◌∷◌, ◌++◌, length, slice_get};
ghost use Rattle.std.specs.Prelude.{slice_index, false, Some, OnOk, IfOk, IfErr};
ghost use Rattle.script_compiler.specs.Compiled.{Added, AreLabelsOf};
ghost use Rattle.script_compiler.specs.Refusals.{IsLimitAt};
ghost use Rattle.script_compiler.specs.Longest.{Priced};
ghost use Rattle.script_compiler.specs.Unpriced.{configuration_at, unpriced_in};
ghost use Rattle.script_compiler.specs.Pool.{Extends};
ghost use Rattle.script_compiler.specs.Room.{HasRoomFor, IsDeepAtMost};
ghost use Rattle.script_compiler.specs.declared.fault.CodeLimit.TheVariants.{Configurations};
ghost use Rattle.script_compiler.specs.declared.fault.CompileFault.TheVariants.{Memory};

use crate::fault::CompileFault;
use crate::labels::labels_of;
use crate::short::IndexedLabel;
use crate::table::ConfigTable;
use mux_config::Config;
use mux_tables::Tables;
use plan_code::Label;
use std::alloc::Global;
use std::marker::Model;

/// Unpriced labels, and the configurations of these and of the compiler's flows. Contracts see the
/// labels with the configurations that they name.
#[derive(Drop)]
pub(crate) struct UnpricedLabels {
    short: Vec<IndexedLabel>,
    table: ConfigTable,
}

impl Model for UnpricedLabels {
    ghost use Rattle.std.specs.Prelude.{length, map};
    ghost use Rattle.script_compiler.specs.Unpriced.{unpriced_in, AreInTable};
    ghost use Rattle.script_compiler.specs.Pool.{UnpricedPool};

    ghost Value = { UnpricedPool };

    ghost view = { λ m. record {
      items = map (unpriced_in m.table.table) m.short.items;
      table = m.table.table;
      pool = m.table.pool;
    } };

    ghost invariant = { λ m. AreInTable (length m.table.table) m.short.items };
}

impl UnpricedLabels {
    /// No labels and no configurations.
    pub(crate) fn new(alloc: Global) -> UnpricedLabels
        ensures items { result.items ≡ [] }
        ensures table { result.table ≡ [] }
        ensures pool { result.pool ≡ [] }
    {
        UnpricedLabels {
            short: Vec::new(alloc),
            table: ConfigTable::new(alloc),
        }
    }

    /// The number of labels.
    pub(crate) fn len(&self) -> usize
        ensures { result ≡ length self.now.items }
    {
        self.short.len()
    }

    /// The number of a configuration, which is added to the pool if absent.
    ///
    /// # Errors
    ///
    /// `Memory`.
    pub(crate) fn number_of(&mut self, config: &Tables) -> Result<usize, CompileFault>
        ensures items { self.new.items ≡ self.old.items }
        ensures table { self.new.table ≡ self.old.table }
        ensures kept { Extends self.old.pool self.new.pool }
        ensures number { IfOk result (λ i. slice_get self.new.pool i ≡ Some config.now) }
        ensures memory { IfErr result (λ e. e ≡ Memory) }
    {
        self.table.number_of(config)
    }

    /// The configurations, by number.
    pub(crate) fn pool(&self) -> &[Config]
        ensures { result.now ≡ self.now.pool }
    {
        self.table.pool()
    }

    /// The index in the table of the configuration with a number, which is added if absent. A
    /// `Limit` is reported at this line.
    ///
    /// # Errors
    ///
    /// `Limit` if the table is full, `Memory`.
    pub(crate) fn index_of(&mut self, line: u16, number: usize) -> Result<u16, CompileFault>
        requires number { number < length self.old.pool }
        requires room { length self.old.table ≤ 256 }
        ensures items { self.new.items ≡ self.old.items }
        ensures pool { self.new.pool ≡ self.old.pool }
        ensures room { OnOk result (length self.new.table ≤ 256) }
        ensures added { OnOk result (Added (configuration_at self.old.pool number) self.old.table
            self.new.table) }
        ensures index { IfOk result (λ i. slice_get self.new.table i
            ≡ Some (configuration_at self.old.pool number)) }
        ensures limited { IfErr result (λ e. IsLimitAt line (λ limit. (limit ≡ Configurations)
            × (HasRoomFor self.old.table (configuration_at self.old.pool number ∷ []) → ⊥)) e) }
    {
        self.table.index_of(line, number)
    }

    /// Whether the table has the configurations with two numbers, or room for those that it lacks.
    pub(crate) fn has_room_for_both(&self, first: usize, second: usize) -> bool
        requires first { first < length self.now.pool }
        requires second { second < length self.now.pool }
        ensures limited { result ≡ false → HasRoomFor self.now.table
            (configuration_at self.now.pool first ∷ configuration_at self.now.pool second ∷ [])
            → ⊥ }
    {
        self.table.has_room_for_both(first, second)
    }

    /// Appends an unpriced label whose configurations are in the table.
    pub(crate) fn push(&mut self, unpriced_label: IndexedLabel) -> Result<(), CompileFault>
        requires current { unpriced_label.cur < length self.old.table }
        requires following { unpriced_label.next < length self.old.table }
        ensures table { self.new.table ≡ self.old.table }
        ensures pool { self.new.pool ≡ self.old.pool }
        ensures added { OnOk result (self.new.items ≡ self.old.items
            ++ unpriced_in self.old.table unpriced_label ∷ []) }
        ensures memory { IfErr result (λ e. e ≡ Memory) }
    {
        if self.short.push(unpriced_label).is_err() {
            return Err(CompileFault::Memory);
        }
        Ok(())
    }

    /// The labels, each with the need of its pc as its cost.
    ///
    /// # Errors
    ///
    /// `Memory`.
    pub(crate) fn labels(&self, alloc: Global, needs: &[u16]) -> Result<Vec<Label>, CompileFault>
        requires needs { (pc : ℕ) → slice_index needs.now pc ≤ 255 }
        requires deep { IsDeepAtMost 8 self.now.items }
        ensures labels { IfOk result (λ l. AreLabelsOf self.now.table self.now.items l.items) }
        ensures costs { IfOk result (λ l. Priced needs.now l.items) }
        ensures memory { IfErr result (λ e. e ≡ Memory) }
    {
        labels_of(alloc, &self.short, needs)
    }

    /// The configurations of the table.
    ///
    /// # Errors
    ///
    /// `Memory`.
    pub(crate) fn into_configs(self, alloc: Global) -> Result<Vec<Config>, CompileFault>
        ensures value { IfOk result (λ v. v.items ≡ self.table) }
        ensures memory { IfErr result (λ e. e ≡ Memory) }
    {
        self.table.into_configs(alloc)
    }
}
