//! Converts entries into the sub-channels, services and packet components that they describe.

ghost use Rattle.std.specs.Prelude.{◌≡◌, ◌≤◌, IfSome, IfNone, List, length};
ghost use Rattle.mux_config.specs.Configuration.{IsPlaced, IsService, IsAddressed, AreDifferent};
ghost use Rattle.mux_config.specs.Configuration.{IsComponent};
ghost use Rattle.std.specs.List.{AllByRecursion};
ghost use Rattle.mux_types.specs.Facts.{sub_entry, service_entry, packet_entry, component_entry};
ghost use Rattle.mux_types.specs.Facts.{component_entries};
ghost use Rattle.fib_codec.specs.Ranges.{IsSubEntry, IsServiceEntry, IsPacketEntry};
ghost use Rattle.fib_codec.specs.Ranges.{IsComponentEntry};
ghost use Rattle.mux_types.specs.declared.parts.Sub.{Sub};
ghost use Rattle.mux_types.specs.declared.parts.Service.{Service};
ghost use Rattle.mux_types.specs.declared.parts.Packet.{Packet};
ghost use Rattle.mux_types.specs.declared.parts.Component.{Component};
ghost use Rattle.mux_types.specs.declared.entry.Entry.TheVariants.{Sub as SubOf};
ghost use Rattle.mux_types.specs.declared.entry.Entry.TheVariants.{Service as ServiceOf};
ghost use Rattle.mux_types.specs.declared.entry.Entry.TheVariants.{Packet as PacketOf};

use mux_config::{
    BoundedVec, Component, ComponentEntry, Entry, Packet, PacketEntry, Service, ServiceEntry, Sub,
    SubEntry,
};
use mux_eep::{CAPACITY_UNITS, EepSet, Protection, rate_of};

/// The sub-channel that an entry in the long form describes; None if no protection profile and rate
/// have this option and size, or if it would end past the last capacity unit.
pub fn sub_from_entry(entry: &SubEntry) -> Option<Sub>
    requires { IsSubEntry entry.now }
    ensures member { IfSome result IsPlaced }
    ensures value { IfSome result (λ s. sub_entry s ≡ SubOf entry.now) }
    ensures none { IfNone result ((s : Sub) → IsPlaced s → sub_entry s ≡ SubOf entry.now → ⊥) }
{
    let set = match entry.option.get() {
        0 => EepSet::A,
        1 => EepSet::B,
        _ => return None,
    };
    let protection = Protection::new(set, entry.level.get() as u8 + 1)?;
    let kbits = rate_of(protection, entry.size.get())?;
    if entry.start.get() + entry.size.get() > CAPACITY_UNITS {
        return None;
    }
    Some(Sub {
        id: entry.id,
        start: entry.start.get(),
        protection,
        kbits,
    })
}

/// The packet component that its entry describes; None if its address is 0, or a field that is sent
/// as 0 is set.
pub fn packet_from_entry(entry: &PacketEntry) -> Option<Packet>
    requires { IsPacketEntry entry.now }
    ensures member { IfSome result IsAddressed }
    ensures value { IfSome result (λ p. packet_entry p ≡ PacketOf entry.now) }
    ensures none { IfNone result ((p : Packet) → IsAddressed p
        → packet_entry p ≡ PacketOf entry.now → ⊥) }
{
    if entry.rfa.get() > 0 {
        return None;
    }
    if entry.rfu {
        return None;
    }
    if entry.ca_org.is_some() {
        return None;
    }
    if entry.address.get() == 0 {
        return None;
    }
    Some(Packet {
        scid: entry.scid,
        dg: entry.dg,
        ty: entry.ty,
        sub: entry.sub,
        address: entry.address.get(),
    })
}

/// The component that its entry describes, with this P/S flag; None if the entry has the other
/// flag, the CA flag is set or the TMId is not in this profile.
fn component_from_entry(primary: bool, entry: &ComponentEntry) -> Option<Component>
    requires { IsComponentEntry entry.now }
    ensures member { IfSome result IsComponent }
    ensures value { IfSome result (λ c. component_entry primary c ≡ entry.now) }
    ensures none { IfNone result ((c : Component) → component_entry primary c ≡ entry.now → ⊥) }
{
    let (component, first, ca) = match *entry {
        ComponentEntry::Sound {
            ty,
            sub,
            primary,
            ca,
        } => (Component::Sound { ty, sub }, primary, ca),
        ComponentEntry::Stream {
            ty,
            sub,
            primary,
            ca,
        } => (Component::Stream { ty, sub }, primary, ca),
        ComponentEntry::Packet { scid, primary, ca } => (Component::Packet { scid }, primary, ca),
        ComponentEntry::Other { bits: _ } => return None,
    };
    if ca {
        return None;
    }
    if first != primary {
        return None;
    }
    Some(component)
}

/// The components that their entries describe; None if one describes none or has a P/S flag that is
/// wrong for its index, or if two have the same carrier.
fn components_from_entry(entries: &[ComponentEntry]) -> Option<BoundedVec<Component, 12>>
    requires within { AllByRecursion IsComponentEntry entries.now }
    requires few { length entries.now ≤ 12 }
    ensures members { IfSome result (AllByRecursion IsComponent) }
    ensures different { IfSome result AreDifferent }
    ensures value { IfSome result (λ cs. component_entries cs ≡ entries.now) }
    ensures none { IfNone result ((cs : List Component) → AreDifferent cs
        → component_entries cs ≡ entries.now → ⊥) }
{
    let mut components = BoundedVec::new();
    for index in 0..entries.len() {
        let Some(component) = component_from_entry(index == 0, &entries[index]) else {
            return None;
        };
        if component.carrier().is_named_by(components.as_slice()) {
            return None;
        }
        components.push(component);
    }
    Some(components)
}

/// The service that its entry describes; None if its components describe none or are too many, or a
/// field that is sent as 0 is set.
pub fn service_from_entry(entry: &ServiceEntry) -> Option<Service>
    requires { IsServiceEntry entry.now }
    ensures member { IfSome result IsService }
    ensures value { IfSome result (λ s. service_entry s ≡ ServiceOf entry.now) }
    ensures none { IfNone result ((s : Service) → IsService s
        → service_entry s ≡ ServiceOf entry.now → ⊥) }
{
    if entry.rfa {
        return None;
    }
    if entry.ca_id.get() > 0 {
        return None;
    }
    let service = Service::new(entry.sid);
    if entry.components.len() > service.limit() {
        return None;
    }
    Some(Service {
        sid: entry.sid,
        components: components_from_entry(entry.components.as_slice())?,
    })
}
