//! Converts the members of a configuration into entries.
//!
//! Each sub-channel gives an entry of FIG 0/1, each service one of FIG 0/2, and each packet
//! component one of FIG 0/3 (EN 300 401 clauses 6.2.1, 6.3.1 and 6.3.2).

ghost use Rattle.std.specs.Prelude.{◌≡◌, ◌+◌, ◌*◌, ◌<◌, ◌≤◌, ◌^◌, ◌++◌, length};
ghost use Rattle.fib_codec.specs.Spelling.{components_bytes, entry_bytes, entry_size};
ghost use Rattle.mux_config.specs.Configuration.{IsPlaced, IsService, IsAddressed};
ghost use Rattle.mux_types.specs.declared.entry.Entry.TheVariants.{Sub as SubOf};
ghost use Rattle.mux_types.specs.declared.entry.Entry.TheVariants.{Packet as PacketOf};
ghost use Rattle.mux_types.specs.Facts.{sub_entry, service_entry, packet_entry, component_entry};
ghost use Rattle.mux_types.specs.Facts.{component_entries};

use fib_codec::Fib;
use mux_config::{Bits, Component, ComponentEntry, Packet, PacketEntry, Service, Sub, SubEntry};
use mux_eep::{EepSet, size_of};

/// The field with this value, which fits in its bits.
fn field<const WIDTH: u32>(value: u16) -> Bits<WIDTH>
    requires { value < 2 ^ WIDTH }
    ensures { result ≡ value }
{
    Bits::new(value).unwrap_or_default()
}

/// The entry of a sub-channel, in the long form.
fn sub_entry(sub: Sub) -> SubEntry
    requires { IsPlaced sub }
    ensures { SubOf result ≡ sub_entry sub }
{
    let option = match sub.protection.set() {
        EepSet::A => 0,
        EepSet::B => 1,
    };
    let size = match size_of(sub.protection, sub.kbits) {
        Ok(size) => size,
        Err(_) => 0,
    };
    SubEntry {
        id: sub.id,
        start: field(sub.start),
        option: field(option),
        level: field(u16::from(sub.protection.level() - 1)),
        size: field(size),
    }
}

/// The description of a component in FIG 0/2, with its P/S flag.
fn component_entry(primary: bool, component: Component) -> ComponentEntry
    ensures { result ≡ component_entry primary component }
{
    let ca = false;
    match component {
        Component::Sound { ty, sub } => ComponentEntry::Sound {
            ty,
            sub,
            primary,
            ca,
        },
        Component::Stream { ty, sub } => ComponentEntry::Stream {
            ty,
            sub,
            primary,
            ca,
        },
        Component::Packet { scid } => ComponentEntry::Packet { scid, primary, ca },
    }
}

/// Appends the components of a service to its entry; the first is the primary one.
fn put_components(fib: &mut Fib, components: &[Component])
    requires { length fib.old + 2 * length components.now ≤ 30 }
    ensures { fib.new ≡ fib.old ++ components_bytes (component_entries components.now) }
{
    for (place, component) in components.iter().enumerate() {
        fib.put_component(component_entry(place == 0, *component));
    }
}

/// Appends the entry of a service to a FIB that has room for it.
#[inline(always)]
pub(crate) fn put_service(fib: &mut Fib, service: &Service)
    requires service { IsService service.now }
    requires room { length fib.old + entry_size (service_entry service.now) ≤ 30 }
    ensures { fib.new ≡ fib.old ++ entry_bytes (service_entry service.now) }
{
    let count = service.components.len();
    fib.begin_service(service.sid, false, Bits::default(), count);
    put_components(fib, service.components.as_slice());
}

/// The entry of a packet component.
fn packet_entry(packet: Packet) -> PacketEntry
    requires { IsAddressed packet }
    ensures { PacketOf result ≡ packet_entry packet }
{
    PacketEntry {
        scid: packet.scid,
        rfa: Bits::default(),
        dg: packet.dg,
        rfu: false,
        ty: packet.ty,
        sub: packet.sub,
        address: field(packet.address),
        ca_org: None,
    }
}

/// Appends the entry of a sub-channel to a FIB that has room for it.
pub(crate) fn put_sub(fib: &mut Fib, sub: Sub)
    requires sub { IsPlaced sub }
    requires room { length fib.old + entry_size (sub_entry sub) ≤ 30 }
    ensures { fib.new ≡ fib.old ++ entry_bytes (sub_entry sub) }
{
    fib.put_sub(sub_entry(sub));
}

/// Appends the entry of a packet component to a FIB that has room for it.
pub(crate) fn put_packet(fib: &mut Fib, packet: Packet)
    requires packet { IsAddressed packet }
    requires room { length fib.old + entry_size (packet_entry packet) ≤ 30 }
    ensures { fib.new ≡ fib.old ++ entry_bytes (packet_entry packet) }
{
    fib.put_packet(packet_entry(packet));
}
