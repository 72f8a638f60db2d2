//! Fingerprints, which distinguish most configurations without comparing their parts.

ghost use Rattle.std.specs.Prelude.{◌≡◌};
ghost use Rattle.script_compiler.specs.Fingerprint.{mix, mix_all, sub_bits, service_bits};
ghost use Rattle.script_compiler.specs.Fingerprint.{component_number, packet_bits, print_of};

use mux_config::{Component, Keyed, Packet, Service, Store, Sub};
use mux_eep::EepSet;
use mux_tables::Tables;

/// Odd, so that different fingerprints still differ after the same `u64`: 2 to the power of 64,
/// divided by the golden ratio.
const MULTIPLIER: u64 = 0x9E37_79B9_7F4A_7C15;

/// Extends a fingerprint by a `u64`.
#[tactic(auto, unfolding(crate::specs::Fingerprint::mix))]
fn mix(print: u64, word: u64) -> u64
    ensures { result ≡ mix print word }
{
    print.wrapping_mul(MULTIPLIER).wrapping_add(word)
}

/// The parts of a sub-channel, combined into a `u64`.
fn sub_bits(sub: &Sub) -> u64
    ensures { result ≡ sub_bits sub.now }
{
    let set = match sub.protection.set() {
        EepSet::A => 0u64,
        EepSet::B => 8u64,
    };
    let profile = u64::from(sub.protection.level()) + set;
    let start = mix(u64::from(sub.id.get()) + 64 * profile, u64::from(sub.start));
    mix(start, u64::from(sub.kbits))
}

/// The parts of a component, combined into a `u64`.
fn component_u16(component: &Component) -> u64
    ensures { result ≡ component_number component.now }
{
    match *component {
        Component::Sound { ty, sub } => u64::from(sub.get()) + 64 * u64::from(ty.get()),
        Component::Stream { ty, sub } => u64::from(sub.get()) + 64 * u64::from(ty.get()) + 4096,
        Component::Packet { scid } => u64::from(scid.get()) + 8192,
    }
}

/// A service and its components, combined into a `u64`.
fn service_bits(service: &Service) -> u64
    ensures { result ≡ service_bits service.now }
{
    let mut print = service.key();
    for component in service.components.as_slice() {
        print = mix(print, component_u16(component));
    }
    print
}

/// The parts of a packet component, combined into a `u64`.
fn packet_bits(packet: &Packet) -> u64
    ensures { result ≡ packet_bits packet.now }
{
    let flag = if packet.dg { 64u64 } else { 0u64 };
    let carried = u64::from(packet.sub.get()) + 4096 * (u64::from(packet.ty.get()) + flag);
    let typed = mix(u64::from(packet.scid.get()), carried);
    mix(typed, u64::from(packet.address))
}

/// Extends a fingerprint by the sub-channels.
fn mixed_subs(before: u64, tables: &Tables) -> u64
    ensures { result ≡ mix_all sub_bits before tables.now.subs }
{
    let mut print = before;
    for place in 0..tables.sub_count() {
        print = mix(print, sub_bits(&tables.sub_at(place)));
    }
    print
}

/// Extends a fingerprint by the services.
fn mixed_services(before: u64, tables: &Tables) -> u64
    ensures { result ≡ mix_all service_bits before tables.now.services }
{
    let mut print = before;
    for place in 0..tables.service_count() {
        print = mix(print, service_bits(tables.service_at(place)));
    }
    print
}

/// Extends a fingerprint by the packet components.
fn mixed_packets(before: u64, tables: &Tables) -> u64
    ensures { result ≡ mix_all packet_bits before tables.now.packets }
{
    let mut print = before;
    for place in 0..tables.packet_count() {
        print = mix(print, packet_bits(&tables.packet_at(place)));
    }
    print
}

/// The fingerprint of a configuration, over all of its parts.
pub(crate) fn print_of(tables: &Tables) -> u64
    ensures { result ≡ print_of tables.now }
{
    let subs = mixed_subs(0, tables);
    let services = mixed_services(subs, tables);
    mixed_packets(services, tables)
}
