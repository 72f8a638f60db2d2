//! A configuration in three sorted tables.

ghost use Rattle.std.specs.Prelude.{◌≡◌, ◌≤◌, length};
ghost use Rattle.mux_types.specs.Configuration.{Configuration, IsConfiguration, nothing};

use mux_types::{Packet, Service, SortedTable, Sub};
use std::marker::Model;

/// A configuration of the multiplex: at most 64 sub-channels, services and packet components
/// (EN 300 401 clauses 6.1 to 6.3). Contracts see it as the three lists in ascending order.
#[derive(Drop)]
pub struct Config {
    pub(crate) subs: SortedTable<Sub, 64>,
    pub(crate) services: SortedTable<Service, 64>,
    pub(crate) packets: SortedTable<Packet, 64>,
}

impl Model for Config {
    ghost use Rattle.mux_types.specs.Configuration.{Configuration, IsConfiguration};

    ghost Value = { Configuration };

    ghost view = { λ c. record { subs = c.subs; services = c.services; packets = c.packets } };

    ghost invariant = { λ c.
        IsConfiguration (record { subs = c.subs; services = c.services; packets = c.packets }) };
}

impl Config {
    /// The empty configuration.
    pub fn new() -> Config
        ensures value { result ≡ nothing }
        ensures configuration { IsConfiguration result }
    {
        Config {
            subs: SortedTable::new(),
            services: SortedTable::new(),
            packets: SortedTable::new(),
        }
    }

    /// The configuration with these three sets, which must form one.
    pub fn of(
        subs: SortedTable<Sub, 64>,
        services: SortedTable<Service, 64>,
        packets: SortedTable<Packet, 64>,
    ) -> Config
        requires { IsConfiguration (record {
          subs = subs;
          services = services;
          packets = packets;
        }) }
        ensures { result ≡ record { subs = subs; services = services; packets = packets } }
    {
        Config {
            subs,
            services,
            packets,
        }
    }

    /// The sub-channels in ascending order of SubChId.
    pub fn subs(&self) -> &[Sub]
        ensures value { result.now ≡ self.now.subs }
        ensures bound { length result.now ≤ 64 }
        ensures configuration { IsConfiguration self.now }
    {
        self.subs.as_slice()
    }

    /// The services in ascending order of SId, the 16-bit ones first.
    pub fn services(&self) -> &[Service]
        ensures value { result.now ≡ self.now.services }
        ensures bound { length result.now ≤ 64 }
        ensures configuration { IsConfiguration self.now }
    {
        self.services.as_slice()
    }

    /// The packet components in ascending order of SCId.
    pub fn packets(&self) -> &[Packet]
        ensures value { result.now ≡ self.now.packets }
        ensures bound { length result.now ≤ 64 }
        ensures configuration { IsConfiguration self.now }
    {
        self.packets.as_slice()
    }

    /// Becomes a copy of another configuration.
    pub fn copy_from(&mut self, other: &Config)
        ensures { self.new ≡ other.now }
    {
        self.subs.copy_from(&other.subs);
        self.services.copy_from(&other.services);
        self.packets.copy_from(&other.packets);
    }

    /// Copies the services and packet components of another configuration; the sub-channels are
    /// unchanged.
    pub fn copy_others_from(&mut self, other: &Config)
        ensures value { self.new ≡ record other.now { subs = self.old.subs } }
        ensures configuration { IsConfiguration self.new }
    {
        self.services.copy_from(&other.services);
        self.packets.copy_from(&other.packets);
    }
}
