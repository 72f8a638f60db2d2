//! Tests whether a configuration is sound.

ghost use Rattle.std.specs.Prelude.{◌≡◌, ◌≤◌, ◌↔◌, length, drop, Some, None, IsOk};
ghost use Rattle.std.specs.List.{list_any};
ghost use Rattle.mux_types.specs.Configuration.{IsConfiguration, IsPlaced, carrier_of};
ghost use Rattle.mux_config.specs.Sound.{IsSound, sound_or_fault, first_fault, other_fault};
ghost use Rattle.mux_config.specs.Sound.{first_overlap, overlap_with, has_orphan, is_missing};
ghost use Rattle.mux_config.specs.Sound.{has_address_twice, has_same_address, is_empty_service};
ghost use Rattle.mux_config.specs.declared.fault.ConfigFault.TheVariants.{Overlap};
ghost use Rattle.mux_types.specs.declared.parts.Carrier.TheVariants.{Sub as BySub};

use crate::fault::ConfigFault;
use crate::overlap::overlaps;
use crate::store::Store;
use mux_types::{Carrier, Component, Packet, Sub};

/// Whether a configuration is sound: no two sub-channels share a capacity unit, what each component
/// and each packet component refers to exists, no two packet components of a sub-channel have the
/// same address, and each service has a component (EN 300 401 clauses 6.2.1, 6.3.1 and 6.3.2).
///
/// The faults are tested in this order: `Overlap(a, b)` (the lowest `a` that shares a capacity unit
/// with a higher sub-channel, and the lowest such `b`), `Orphan` (what a component or a packet
/// component refers to does not exist), `AddressUsed` (two packet components of one sub-channel
/// have the same address), `EmptyService`.
pub fn soundness<S: Store>(store: &S) -> Result<(), ConfigFault>
    ensures first_fault { result ≡ sound_or_fault (S.content store.now) }
    ensures sound { IsOk result ↔ IsSound (S.content store.now) }
{
    match first_fault(store) {
        Some(fault) => Err(fault),
        None => Ok(()),
    }
}

/// The first fault, if there is one.
fn first_fault<S: Store>(store: &S) -> Option<ConfigFault>
    ensures value { result ≡ first_fault (S.content store.now) }
    ensures configuration { IsConfiguration (S.content store.now) }
{
    if store.crowded() {
        return first_overlap(store);
    }
    other_fault(store)
}

/// The first fault after an overlap, if there is one.
fn other_fault<S: Store>(store: &S) -> Option<ConfigFault>
    ensures { result ≡ other_fault (S.content store.now) }
{
    if has_orphan(store) {
        return Some(ConfigFault::Orphan);
    }
    if has_address_twice(store) {
        return Some(ConfigFault::AddressUsed);
    }
    if has_empty_service(store) {
        return Some(ConfigFault::EmptyService);
    }
    None
}

/// The first two sub-channels that share a capacity unit.
fn first_overlap<S: Store>(store: &S) -> Option<ConfigFault>
    ensures value { let c = S.content store.now in result ≡ first_overlap c.subs }
    ensures configuration { IsConfiguration (S.content store.now) }
{
    for place in 0..store.sub_count() {
        let fault = overlap_with(store, &store.sub_at(place), place + 1);
        if fault.is_some() {
            return fault;
        }
    }
    None
}

/// The first sub-channel, from an index on, that shares a capacity unit with this one.
fn overlap_with<S: Store>(store: &S, sub: &Sub, from: usize) -> Option<ConfigFault>
    requires placed { IsPlaced sub.now }
    requires within { let c = S.content store.now in from ≤ length c.subs }
    ensures { let c = S.content store.now in result ≡ overlap_with sub.now (drop from c.subs) }
{
    for place in from..store.sub_count() {
        let other = store.sub_at(place);
        if overlaps(sub, &other) {
            return Some(ConfigFault::Overlap(sub.id, other.id));
        }
    }
    None
}

/// Whether a component or a packet component refers to something that does not exist.
fn has_orphan<S: Store>(store: &S) -> bool
    ensures { result ≡ has_orphan (S.content store.now) }
{
    has_orphan_component(store) || has_orphan_packet(store)
}

/// Whether a component of a service refers to something that does not exist.
fn has_orphan_component<S: Store>(store: &S) -> bool
    ensures { let c = S.content store.now in
        result ≡ list_any (λ s. list_any (λ m. is_missing c (carrier_of m)) s.components)
        c.services }
{
    for place in 0..store.service_count() {
        if names_missing(store, store.service_at(place).components.as_slice()) {
            return true;
        }
    }
    false
}

/// Whether one of these components refers to something that does not exist.
fn names_missing<S: Store>(store: &S, components: &[Component]) -> bool
    ensures { result ≡ list_any (λ m.
        is_missing (S.content store.now) (carrier_of m)) components.now }
{
    for component in components {
        if is_missing(store, component.carrier()) {
            return true;
        }
    }
    false
}

/// Whether a packet component refers to a sub-channel that does not exist.
fn has_orphan_packet<S: Store>(store: &S) -> bool
    ensures { let c = S.content store.now in
        result ≡ list_any (λ p. is_missing c (BySub p.sub)) c.packets }
{
    for place in 0..store.packet_count() {
        if is_missing(store, Carrier::Sub(store.packet_at(place).sub)) {
            return true;
        }
    }
    false
}

/// Whether a carrier does not exist.
#[tactic(auto, using(crate::proofs::Sounding::has_found))]
fn is_missing<S: Store>(store: &S, carrier: Carrier) -> bool
    ensures { result ≡ is_missing (S.content store.now) carrier }
{
    match carrier {
        Carrier::Sub(id) => !store.sub(id).is_some(),
        Carrier::Packet(scid) => !store.packet(scid).is_some(),
    }
}

/// Whether two packet components of one sub-channel have the same address. They are compared from
/// the last to the first, and only if a later one has the same sub-channel.
fn has_address_twice<S: Store>(store: &S) -> bool
    ensures { let c = S.content store.now in result ≡ has_address_twice c.packets }
{
    let mut named = [false; 64];
    let count = store.packet_count();
    for gone in 0..count {
        let place = count - 1 - gone;
        let packet = store.packet_at(place);
        let sub = usize::from(packet.sub.get());
        if named[sub] && has_same_address_from(store, &packet, place + 1) {
            return true;
        }
        named[sub] = true;
    }
    false
}

/// Whether a packet component, from an index on, has the sub-channel and the address of this one.
fn has_same_address_from<S: Store>(store: &S, packet: &Packet, from: usize) -> bool
    requires { let c = S.content store.now in from ≤ length c.packets }
    ensures { let c = S.content store.now in
        result ≡ list_any (has_same_address packet.now) (drop from c.packets) }
{
    for place in from..store.packet_count() {
        if has_same_address(packet, &store.packet_at(place)) {
            return true;
        }
    }
    false
}

/// Whether two packet components have the same sub-channel and the same address.
fn has_same_address(p: &Packet, q: &Packet) -> bool
    ensures { result ≡ has_same_address p.now q.now }
{
    p.sub == q.sub && p.address == q.address
}

/// Whether a service has no component.
fn has_empty_service<S: Store>(store: &S) -> bool
    ensures { let c = S.content store.now in result ≡ list_any is_empty_service c.services }
{
    for place in 0..store.service_count() {
        if store.service_at(place).components.len() == 0 {
            return true;
        }
    }
    false
}
