//! The edits that turn one configuration into another, and those that make one from the empty one.

ghost use Rattle.std.specs.Prelude.{◌≡◌, ◌≤◌, length, IfOk};
ghost use Rattle.mux_config.specs.Configuration.{IsConfiguration, nothing};
ghost use Rattle.script_config.specs.Differences.{edits_between};
ghost use Rattle.script_config.specs.Making.{edits_that_make};
ghost use Rattle.script_config.specs.Sequences.{Transform};

use crate::additions::{grow_services, new_packets, new_subs};
use crate::alterations::alter_subs;
use crate::laws;
use crate::removals::{cut_services, drop_packets, drop_services, drop_subs};
use mux_config::{Config, Edit, Store};
use std::alloc::{AllocError, Global};

/// The edits that turn one configuration into another, each kind in ascending order of identifiers:
/// drop services, then components (the last of a service first), packet components and
/// sub-channels; alter sub-channels that stay; add sub-channels, packet components, and services
/// with their components. A sub-channel whose protection profile changes and a packet component
/// that changes at all are dropped and added again; so are the components of a service after the
/// longest common prefix.
///
/// Applied in this order, no edit has a fault.
pub fn edits_between(alloc: Global, from: &Config, to: &Config) -> Result<Vec<Edit>, AllocError>
    ensures value { IfOk result (λ v. v.items ≡ edits_between from.now to.now) }
    ensures leads { IfOk result (λ v. Transform v.items from.now to.now) }
    ensures few { IfOk result (λ v. length v.items ≤ 2048) }
{
    laws::transforming();
    let mut edits = Vec::new(alloc);
    drop_services(&mut edits, from.services(), to)?;
    cut_services(&mut edits, from.services(), to)?;
    drop_packets(&mut edits, from.packets(), to)?;
    drop_subs(&mut edits, from.subs(), to)?;
    alter_subs(&mut edits, from.subs(), to)?;
    new_subs(&mut edits, to.subs(), from)?;
    new_packets(&mut edits, to.packets(), from)?;
    grow_services(&mut edits, to.services(), from)?;
    Ok(edits)
}

/// The edits that make a configuration from the empty one, at most 960: the sub-channels by
/// SubChId; the services by SId, the 16-bit ones first, each followed by its components in order;
/// the packet components by SCId.
pub fn edits_that_make(alloc: Global, config: &Config) -> Result<Vec<Edit>, AllocError>
    ensures value { IfOk result (λ v. v.items ≡ edits_that_make config.now) }
    ensures leads { IfOk result (λ v. Transform v.items nothing config.now) }
    ensures few { IfOk result (λ v. length v.items ≤ 960) }
    ensures configuration { IsConfiguration config.now }
{
    laws::transforming();
    let nothing = Config::empty();
    let mut edits = Vec::new(alloc);
    new_subs(&mut edits, config.subs(), &nothing)?;
    grow_services(&mut edits, config.services(), &nothing)?;
    new_packets(&mut edits, config.packets(), &nothing)?;
    Ok(edits)
}
