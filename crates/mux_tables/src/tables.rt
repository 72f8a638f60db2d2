//! A configuration that counts the sub-channels of each capacity unit.

ghost use Rattle.std.specs.Prelude.{◌≡◌, ◌↔◌, None, Some, IfSome, IsTrue, []};
ghost use Rattle.mux_config.specs.Configuration.{Configuration, IsConfiguration, IsPlaced, sub_key};
ghost use Rattle.mux_config.specs.Configuration.{nothing};
ghost use Rattle.mux_config.specs.Tables.{entry_at, with_entry_changed};
ghost use Rattle.mux_config.specs.Sound.{IsCrowded};
ghost use Rattle.mux_config.specs.Edits.{sub_at, add_sub_fault, sub_added, sub_dropped};

use crate::span::span_of;
use crate::sub_table::SubTable;
use crate::unit_map::{Block, count_in, count_out, empty_map, has_shared_unit};
use mux_config::{Config, Store, Sub, SubId};
use std::marker::Model;

/// A configuration of the multiplex (EN 300 401 clauses 6.1 to 6.3) that counts, for each capacity
/// unit, the sub-channels whose span covers it. Contracts see it as the configuration that it
/// represents.
///
/// It does not allocate. Its edits cost as much as those of [`Config`], plus a few steps for the
/// blocks of 32 capacity units that the span of a sub-channel touches.
#[derive(Drop)]
pub struct Tables {
    pub(crate) subs: SubTable,
    pub(crate) units: [Block; 27],
    pub(crate) others: Config,
}

impl Model for Tables {
    ghost use Rattle.mux_config.specs.Configuration.{Configuration};
    ghost use Rattle.mux_tables.specs.Units.{with_sub_channels, CountsUsers};

    ghost Value = { Configuration };

    ghost view = { λ t. with_sub_channels t.subs t.others };

    ghost invariant = { λ t. CountsUsers t.subs t.units t.others };
}

impl Tables {
    /// The empty configuration.
    pub fn new() -> Tables
        ensures { result ≡ nothing }
    {
        Tables {
            subs: SubTable::new(),
            units: empty_map(),
            others: Config::new(),
        }
    }

    /// Copies the services and packet components of a configuration, and removes every sub-channel.
    pub(crate) fn copy_others_from(&mut self, config: &Config)
        ensures { self.new ≡ record config.now { subs = [] } }
    {
        self.subs.clear();
        self.units = empty_map();
        self.others.copy_others_from(config);
    }

    /// Whether two sub-channels share a capacity unit.
    pub fn is_crowded(&self) -> bool
        ensures value { IsTrue result ↔ IsCrowded self.now }
        ensures configuration { IsConfiguration self.now }
    {
        has_shared_unit(&self.units)
    }

    /// The sub-channel with an identifier; None if there is none.
    pub(crate) fn get(&self, id: SubId) -> Option<Sub>
        ensures value { result ≡ sub_at id self.now }
        ensures placed { IfSome result (λ s. IsPlaced s) }
        ensures configuration { IsConfiguration self.now }
    {
        self.subs.get(id)
    }

    /// Adds a sub-channel; the edit must have no fault.
    pub(crate) fn insert(&mut self, sub: Sub)
        requires { add_sub_fault sub self.old ≡ None }
        ensures { self.new ≡ sub_added sub self.old }
    {
        count_in(&mut self.units, span_of(&sub));
        self.subs.insert(sub);
    }

    /// Replaces the sub-channel with the same identifier.
    pub(crate) fn replace(&mut self, old: Sub, new: Sub)
        requires there { entry_at sub_key new.id self.old.subs ≡ Some old }
        requires placed { IsPlaced new }
        ensures { self.new
            ≡ record self.old { subs = with_entry_changed sub_key new self.old.subs } }
    {
        count_out(&mut self.units, span_of(&old));
        count_in(&mut self.units, span_of(&new));
        self.subs.replace(new);
    }

    /// Removes a sub-channel, if it exists.
    pub(crate) fn remove(&mut self, id: SubId)
        ensures { self.new ≡ sub_dropped id self.old }
    {
        if let Some(sub) = self.subs.get(id) {
            count_out(&mut self.units, span_of(&sub));
            self.subs.remove(id);
        }
    }
}
