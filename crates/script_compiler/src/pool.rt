//! A pool of numbered configurations, each configuration once.

ghost use Rattle.std.specs.Prelude.{◌≡◌, ◌≢◌, ◌<◌, ℕ, [], ◌∷◌, ◌++◌, length, map, slice_get, Some};
ghost use Rattle.std.specs.Prelude.{None, OnOk, IfOk, IfErr, IfSome};
ghost use Rattle.script_compiler.specs.Fingerprint.{print_of};
ghost use Rattle.script_compiler.specs.Pool.{Extends, IsDistinct};
ghost use Rattle.script_compiler.specs.declared.fault.CompileFault.TheVariants.{Memory};

use crate::fault::CompileFault;
use crate::fingerprint::print_of;
use mux_config::{Config, Store};
use mux_tables::Tables;
use plan_verifier::flow::is_same;
use std::alloc::Global;
use std::marker::Model;

/// Configurations, each once, numbered from 0 in the order in which they are added. A number keeps
/// its configuration. Contracts see the list of them.
#[derive(Drop)]
pub(crate) struct Pool {
    configs: Vec<Config>,
    /// The fingerprint of each, so that a search compares the parts of few.
    prints: Vec<u64>,
}

impl Model for Pool {
    ghost use Rattle.std.specs.Prelude.{◌≡◌, map};
    ghost use Rattle.script_compiler.specs.Fingerprint.{Listed, print_of};
    ghost use Rattle.script_compiler.specs.Pool.{IsDistinct};

    ghost Value = { Listed };

    ghost view = { λ t. record { items = t.configs.items } };

    ghost invariant = { λ t. (t.prints.items ≡ map print_of t.configs.items)
        × IsDistinct t.configs.items };
}

impl Pool {
    /// An empty pool.
    pub(crate) fn new(alloc: Global) -> Pool
        ensures { result.items ≡ [] }
    {
        Pool {
            configs: Vec::new(alloc),
            prints: Vec::new(alloc),
        }
    }

    /// The configurations, by number.
    pub(crate) fn configs(&self) -> &[Config]
        ensures { result.now ≡ self.now.items }
    {
        &self.configs
    }

    /// No configuration has two numbers.
    pub(crate) fn is_distinct(&self)
        ensures { IsDistinct self.now.items }
    {
        let _ = &self.configs;
    }

    /// Adds a configuration that the pool does not have.
    fn add(&mut self, print: u64, config: &Tables) -> Result<(), CompileFault>
        requires print { print ≡ print_of config.now }
        requires new { (i : ℕ) → slice_get self.old.items i ≢ Some config.now }
        ensures added { OnOk result (self.new.items ≡ self.old.items ++ config.now ∷ []) }
        ensures unchanged { IfErr result (λ _. self.new.items ≡ self.old.items) }
        ensures memory { IfErr result (λ e. e ≡ Memory) }
    {
        if self.prints.push(print).is_err() {
            return Err(CompileFault::Memory);
        }
        if self.configs.push(config.to_config()).is_err() {
            self.prints.pop();
            return Err(CompileFault::Memory);
        }
        Ok(())
    }

    /// The number of a configuration, which is added if absent.
    ///
    /// # Errors
    ///
    /// `Memory`.
    pub(crate) fn number_of(&mut self, config: &Tables) -> Result<usize, CompileFault>
        ensures kept { Extends self.old.items self.new.items }
        ensures number { IfOk result (λ i. slice_get self.new.items i ≡ Some config.now) }
        ensures memory { IfErr result (λ e. e ≡ Memory) }
    {
        let print = print_of(config);
        if let Some(number) = find(&self.prints, &self.configs, print, config) {
            return Ok(number);
        }
        let number = self.configs.len();
        if let Err(fault) = self.add(print, config) {
            return Err(fault);
        }
        Ok(number)
    }

    /// The configurations, by number.
    pub(crate) fn into_configs(self) -> Vec<Config>
        ensures { result.items ≡ self.items }
    {
        self.configs
    }
}

/// The index of a configuration among others, found by fingerprint; None if absent. Configurations
/// that differ in their last sub-channel alone would be told apart only after 63 comparisons.
fn find(prints: &[u64], configs: &[Config], print: u64, config: &Tables) -> Option<usize>
    requires prints { prints.now ≡ map print_of configs.now }
    requires print { print ≡ print_of config.now }
    ensures within { IfSome result (λ i. i < length configs.now) }
    ensures some { IfSome result (λ i. slice_get configs.now i ≡ Some config.now) }
    ensures none { result ≡ None → (i : ℕ) → slice_get configs.now i ≢ Some config.now }
{
    for (index, other) in prints.iter().enumerate() {
        if *other == print {
            if is_same(&configs[index], config) {
                return Some(index);
            }
        }
    }
    None
}
