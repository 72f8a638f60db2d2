//! Why an edit of a configuration is refused, in any [`Store`]: the first of its faults, in the
//! order given at the methods of `Store`.

ghost use Rattle.std.specs.Prelude.{◌≡◌, ◌+◌, ◌≤◌, nat_lt, if◌then◌else◌, Some, None, IfSome};
ghost use Rattle.mux_types.specs.Configuration.{IsPlaced, sub_key, service_key, packet_key};
ghost use Rattle.mux_types.specs.Configuration.{sid_key};
ghost use Rattle.mux_types.specs.Tables.{has_entry};
ghost use Rattle.mux_config.specs.Edits.{sub_at, at_start, placing_fault, component_fault};
ghost use Rattle.mux_config.specs.Edits.{is_past_end, add_sub_fault, drop_sub_fault};
ghost use Rattle.mux_config.specs.Edits.{move_sub_fault, rate_sub_fault, add_service_fault};
ghost use Rattle.mux_config.specs.Edits.{drop_service_fault, add_component_fault};
ghost use Rattle.mux_config.specs.Edits.{drop_component_fault, add_packet_fault, drop_packet_fault};
ghost use Rattle.mux_config.specs.declared.fault.EditFault.TheVariants.{PastEnd};

use crate::fault::EditFault;
use crate::overlap::units;
use crate::store::Store;
use mux_eep::{CAPACITY_UNITS, size_of};
use mux_types::{Carrier, Component, MEMBERS, Packet, ScId, Service, Sid, Sub, SubId};

/// The greatest packet address, which has 10 bits (EN 300 401 clause 6.3.2).
const LAST_ADDRESS: u16 = 1023;

/// Whether there is a sub-channel with this identifier.
fn has_sub<S: Store>(store: &S, id: SubId) -> bool
    ensures { let c = S.content store.now in result ≡ has_entry sub_key id c.subs }
{
    store.sub(id).is_some()
}

/// Whether there is a service with this identifier.
fn has_service<S: Store>(store: &S, sid: Sid) -> bool
    ensures { let c = S.content store.now in
        result ≡ has_entry service_key (sid_key sid) c.services }
{
    store.service(sid).is_some()
}

/// Whether there is a packet component with this identifier.
fn has_packet<S: Store>(store: &S, scid: ScId) -> bool
    ensures { let c = S.content store.now in result ≡ has_entry packet_key scid c.packets }
{
    store.packet(scid).is_some()
}

/// The sub-channel with an identifier; it has a size and lies within the multiplex.
fn placed_sub<S: Store>(store: &S, id: SubId) -> Option<Sub>
    ensures value { result ≡ sub_at id (S.content store.now) }
    ensures placed { IfSome result (λ s. IsPlaced s) }
{
    // Matched for the proof: its goal is about the sub-channel found.
    match store.sub(id) {
        Some(found) => Some(found),
        None => None,
    }
}

/// Why a sub-channel cannot have its start address and rate; None if it can.
fn placing_fault(sub: &Sub) -> Option<EditFault>
    ensures { result ≡ placing_fault sub.now }
{
    match size_of(sub.protection, sub.kbits) {
        Ok(size) => end_fault(sub.start, u32::from(size)),
        Err(_) => Some(EditFault::BadRate),
    }
}

/// Why this many capacity units cannot begin at a start address; None if they can.
fn end_fault(start: u16, size: u32) -> Option<EditFault>
    requires { size ≤ CAPACITY_UNITS }
    ensures { result ≡ (if nat_lt CAPACITY_UNITS (start + size) then Some PastEnd else None) }
{
    if u32::from(start) + size > u32::from(CAPACITY_UNITS) {
        return Some(EditFault::PastEnd);
    }
    None
}

/// Why a sub-channel of the configuration cannot have another start address; None if it can.
fn start_fault(sub: &Sub, start: u16) -> Option<EditFault>
    requires { IsPlaced sub.now }
    ensures { result ≡ (if is_past_end (at_start start sub.now) then Some PastEnd else None) }
{
    end_fault(start, units(sub))
}

/// Why [`Store::add_sub`] is refused; None if it is not.
pub(crate) fn add_sub_fault<S: Store>(store: &S, sub: &Sub) -> Option<EditFault>
    ensures { result ≡ add_sub_fault sub.now (S.content store.now) }
{
    if has_sub(store, sub.id) {
        return Some(EditFault::IdUsed);
    }
    placing_fault(sub)
}

/// Why [`Store::drop_sub`] is refused; None if it is not.
pub(crate) fn drop_sub_fault<S: Store>(store: &S, id: SubId) -> Option<EditFault>
    ensures { result ≡ drop_sub_fault id (S.content store.now) }
{
    match store.sub(id) {
        Some(_) => None,
        None => Some(EditFault::IdAbsent),
    }
}

/// Why [`Store::move_sub`] is refused; None if it is not.
pub(crate) fn move_sub_fault<S: Store>(store: &S, id: SubId, start: u16) -> Option<EditFault>
    ensures { result ≡ move_sub_fault id start (S.content store.now) }
{
    match placed_sub(store, id) {
        Some(sub) => start_fault(&sub, start),
        None => Some(EditFault::IdAbsent),
    }
}

/// Why [`Store::rate_sub`] is refused; None if it is not.
pub(crate) fn rate_sub_fault<S: Store>(store: &S, id: SubId, kbits: u16) -> Option<EditFault>
    ensures { result ≡ rate_sub_fault id kbits (S.content store.now) }
{
    match store.sub(id) {
        Some(sub) => placing_fault(&Sub { kbits, ..sub }),
        None => Some(EditFault::IdAbsent),
    }
}

/// Why [`Store::add_service`] is refused; None if it is not.
pub(crate) fn add_service_fault<S: Store>(store: &S, sid: Sid) -> Option<EditFault>
    ensures { result ≡ add_service_fault sid (S.content store.now) }
{
    if has_service(store, sid) {
        return Some(EditFault::IdUsed);
    }
    if store.service_count() >= MEMBERS {
        return Some(EditFault::TableFull);
    }
    None
}

/// Why [`Store::drop_service`] is refused; None if it is not.
pub(crate) fn drop_service_fault<S: Store>(store: &S, sid: Sid) -> Option<EditFault>
    ensures { result ≡ drop_service_fault sid (S.content store.now) }
{
    match store.service(sid) {
        Some(_) => None,
        None => Some(EditFault::IdAbsent),
    }
}

/// Why [`Store::add_component`] is refused; None if it is not.
pub(crate) fn add_component_fault<S: Store>(
    store: &S,
    sid: Sid,
    component: &Component,
) -> Option<EditFault>
    ensures { result ≡ add_component_fault sid component.now (S.content store.now) }
{
    match store.service(sid) {
        Some(service) => component_fault(service, component),
        None => Some(EditFault::IdAbsent),
    }
}

/// Why a service cannot have one more component; None if it can.
fn component_fault(service: &Service, component: &Component) -> Option<EditFault>
    ensures { result ≡ component_fault component.now service.now }
{
    let named = component.carrier();
    if named.is_named_by(service.components.as_slice()) {
        return Some(EditFault::IdUsed);
    }
    if service.components.len() >= service.limit() {
        return Some(EditFault::TooManyComponents);
    }
    None
}

/// Why [`Store::drop_component`] is refused; None if it is not.
pub(crate) fn drop_component_fault<S: Store>(
    store: &S,
    sid: Sid,
    carrier: &Carrier,
) -> Option<EditFault>
    ensures { result ≡ drop_component_fault sid carrier.now (S.content store.now) }
{
    match store.service(sid) {
        Some(service) => {
            if carrier.is_named_by(service.components.as_slice()) {
                return None;
            }
            Some(EditFault::IdAbsent)
        }
        None => Some(EditFault::IdAbsent),
    }
}

/// Why [`Store::add_packet`] is refused; None if it is not.
pub(crate) fn add_packet_fault<S: Store>(store: &S, packet: &Packet) -> Option<EditFault>
    ensures { result ≡ add_packet_fault packet.now (S.content store.now) }
{
    if has_packet(store, packet.scid) {
        return Some(EditFault::IdUsed);
    }
    if packet.address == 0 {
        return Some(EditFault::BadAddress);
    }
    if packet.address > LAST_ADDRESS {
        return Some(EditFault::BadAddress);
    }
    if store.packet_count() >= MEMBERS {
        return Some(EditFault::TableFull);
    }
    None
}

/// Why [`Store::drop_packet`] is refused; None if it is not.
pub(crate) fn drop_packet_fault<S: Store>(store: &S, scid: ScId) -> Option<EditFault>
    ensures { result ≡ drop_packet_fault scid (S.content store.now) }
{
    match store.packet(scid) {
        Some(_) => None,
        None => Some(EditFault::IdAbsent),
    }
}
