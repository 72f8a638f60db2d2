//! The table of configurations that labels name, each configuration once.

ghost use Rattle.std.specs.Prelude.{◌≡◌, ◌≢◌, ◌≤◌, ◌<◌, ℕ, [], ◌∷◌, ◌++◌, length, map, slice_get};
ghost use Rattle.std.specs.Prelude.{false, true, Some, None, OnOk, IfOk, IfErr, IfSome};
ghost use Rattle.script_compiler.specs.Compiled.{Added};
ghost use Rattle.script_compiler.specs.Refusals.{IsLimitAt};
ghost use Rattle.script_compiler.specs.Unpriced.{configuration_at};
ghost use Rattle.script_compiler.specs.Pool.{AreBelow, Extends, IsDistinct};
ghost use Rattle.script_compiler.specs.Room.{HasRoomFor};
ghost use Rattle.script_compiler.specs.declared.fault.CodeLimit.TheVariants.{Configurations};
ghost use Rattle.script_compiler.specs.declared.fault.CompileFault.TheVariants.{Memory};

use crate::fault::{CodeLimit, CompileFault};
use crate::pool::Pool;
use mux_config::{Config, Store};
use mux_tables::Tables;
use plan_code::limits::MOST_CONFIGURATIONS;
use std::alloc::Global;
use std::marker::Model;

/// A pool of configurations, and the table of those that labels name. Contracts see both as lists.
#[derive(Drop)]
pub(crate) struct ConfigTable {
    pool: Pool,
    /// The numbers of the table's configurations, in its order.
    order: Vec<usize>,
}

impl Model for ConfigTable {
    ghost use Rattle.std.specs.Prelude.{length, map};
    ghost use Rattle.script_compiler.specs.Unpriced.{configuration_at};
    ghost use Rattle.script_compiler.specs.Pool.{AreBelow, PooledTable};

    ghost Value = { PooledTable };

    ghost view = { λ t. record {
      pool = t.pool.items;
      table = map (configuration_at t.pool.items) t.order.items;
    } };

    ghost invariant = { λ t. AreBelow (length t.pool.items) t.order.items };
}

impl ConfigTable {
    /// An empty pool and table.
    pub(crate) fn new(alloc: Global) -> ConfigTable
        ensures pool { result.pool ≡ [] }
        ensures table { result.table ≡ [] }
    {
        ConfigTable {
            pool: Pool::new(alloc),
            order: Vec::new(alloc),
        }
    }

    /// The number of a configuration, which is added to the pool if absent.
    ///
    /// # Errors
    ///
    /// `Memory`.
    pub(crate) fn number_of(&mut self, config: &Tables) -> Result<usize, CompileFault>
        ensures table { self.new.table ≡ self.old.table }
        ensures kept { Extends self.old.pool self.new.pool }
        ensures number { IfOk result (λ i. slice_get self.new.pool i ≡ Some config.now) }
        ensures memory { IfErr result (λ e. e ≡ Memory) }
    {
        self.pool.number_of(config)
    }

    /// The configurations, by number.
    pub(crate) fn pool(&self) -> &[Config]
        ensures { result.now ≡ self.now.pool }
    {
        self.pool.configs()
    }

    /// No configuration has two numbers.
    fn is_distinct(&self)
        ensures { IsDistinct self.now.pool }
    {
        self.pool.is_distinct();
    }

    /// The index in the table of the configuration with a number; None if absent.
    fn find(&self, number: usize) -> Option<usize>
        requires { number < length self.now.pool }
        ensures some { IfSome result (λ i. slice_get self.now.table i
            ≡ Some (configuration_at self.now.pool number)) }
        ensures none { result ≡ None → (i : ℕ) → slice_get self.now.table i
            ≢ Some (configuration_at self.now.pool number) }
    {
        self.pool.is_distinct();
        position(&self.order, number)
    }

    /// The number of configurations in the table.
    fn len(&self) -> usize
        ensures { result ≡ length self.now.table }
    {
        self.order.len()
    }

    /// Appends the configuration with a number to the table.
    fn add(&mut self, number: usize) -> Result<(), CompileFault>
        requires { number < length self.old.pool }
        ensures pool { self.new.pool ≡ self.old.pool }
        ensures added { OnOk result (self.new.table ≡ self.old.table
            ++ configuration_at self.old.pool number ∷ []) }
        ensures unchanged { IfErr result (λ _. self.new.table ≡ self.old.table) }
        ensures memory { IfErr result (λ e. e ≡ Memory) }
    {
        if self.order.push(number).is_err() {
            return Err(CompileFault::Memory);
        }
        Ok(())
    }

    /// The index in the table of the configuration with a number, which is added if absent. A
    /// `Limit` is reported at this line.
    ///
    /// # Errors
    ///
    /// `Limit` if the table is full, `Memory`.
    pub(crate) fn index_of(&mut self, line: u16, number: usize) -> Result<u16, CompileFault>
        requires number { number < length self.old.pool }
        requires room { length self.old.table ≤ 256 }
        ensures pool { self.new.pool ≡ self.old.pool }
        ensures room { OnOk result (length self.new.table ≤ 256) }
        ensures added { OnOk result (Added (configuration_at self.old.pool number) self.old.table
            self.new.table) }
        ensures index { IfOk result (λ i. slice_get self.new.table i
            ≡ Some (configuration_at self.old.pool number)) }
        ensures unchanged { IfErr result (λ _. self.new.table ≡ self.old.table) }
        ensures limited { IfErr result (λ e. IsLimitAt line (λ limit. (limit ≡ Configurations)
            × (HasRoomFor self.old.table (configuration_at self.old.pool number ∷ []) → ⊥)) e) }
    {
        if let Some(index) = self.find(number) {
            return Ok(index as u16);
        }
        let index = self.len();
        if index >= usize::from(MOST_CONFIGURATIONS) {
            return Err(CompileFault::Limit {
                line,
                limit: CodeLimit::Configurations,
            });
        }
        self.add(number)?;
        Ok(index as u16)
    }

    /// Whether the table has the configuration with a number, or room for it.
    fn has_room_for(&self, number: usize) -> bool
        requires { number < length self.now.pool }
        ensures limited { result ≡ false → HasRoomFor self.now.table
            (configuration_at self.now.pool number ∷ []) → ⊥ }
    {
        if self.len() < usize::from(MOST_CONFIGURATIONS) {
            return true;
        }
        self.find(number).is_some()
    }

    /// Whether the table has the configurations with two numbers, or room for those that it lacks.
    pub(crate) fn has_room_for_both(&self, first: usize, second: usize) -> bool
        requires first { first < length self.now.pool }
        requires second { second < length self.now.pool }
        ensures limited { result ≡ false → HasRoomFor self.now.table
            (configuration_at self.now.pool first ∷ configuration_at self.now.pool second ∷ [])
            → ⊥ }
    {
        if self.len() <= usize::from(MOST_CONFIGURATIONS - 2) {
            return true;
        }
        if second == first {
            return self.has_room_for(first);
        }
        self.is_distinct();
        if self.find(second).is_some() {
            return self.has_room_for(first);
        }
        if self.find(first).is_some() {
            return self.has_room_for(second);
        }
        false
    }

    /// The configurations of the table.
    ///
    /// # Errors
    ///
    /// `Memory`.
    pub(crate) fn into_configs(self, alloc: Global) -> Result<Vec<Config>, CompileFault>
        ensures value { IfOk result (λ v. v.items ≡ self.table) }
        ensures memory { IfErr result (λ e. e ≡ Memory) }
    {
        let mut configs = self.pool.into_configs();
        if is_in_order(&self.order) {
            configs.truncate(self.order.len());
            return Ok(configs);
        }
        select(alloc, &configs, &self.order)
    }
}

/// The index of a number among others, searched from the end; None if absent.
fn position(numbers: &[usize], number: usize) -> Option<usize>
    ensures some { IfSome result (λ i. slice_get numbers.now i ≡ Some number) }
    ensures none { result ≡ None → (i : ℕ) → slice_get numbers.now i ≢ Some number }
{
    for taken in 0..numbers.len() {
        let index = numbers.len() - taken - 1;
        if numbers[index] == number {
            return Some(index);
        }
    }
    None
}

/// Whether these are the numbers 0, 1, 2 and so on.
fn is_in_order(numbers: &[usize]) -> bool
    ensures { result ≡ true → (i k : ℕ) → slice_get numbers.now i ≡ Some k → k ≡ i }
{
    for (index, number) in numbers.iter().enumerate() {
        if *number != index {
            return false;
        }
    }
    true
}

/// A copy of a configuration.
fn copied(config: &Config) -> Config
    ensures { result ≡ config.now }
{
    config.to_config()
}

/// The configurations with these numbers.
fn select(alloc: Global, configs: &[Config], numbers: &[usize]) -> Result<Vec<Config>, CompileFault>
    requires { AreBelow (length configs.now) numbers.now }
    ensures value { IfOk result (λ v. v.items ≡ map (configuration_at configs.now) numbers.now) }
    ensures memory { IfErr result (λ e. e ≡ Memory) }
{
    let mut select = Vec::new(alloc);
    for number in numbers {
        if select.push(copied(&configs[*number])).is_err() {
            return Err(CompileFault::Memory);
        }
    }
    Ok(select)
}
