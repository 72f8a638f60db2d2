//! The edits that drop members of the first configuration, those that the second lacks and those
//! that are replaced.

ghost use Rattle.std.specs.Prelude.{◌≡◌, ◌++◌, ◌≤◌, length, drop, OnOk};
ghost use Rattle.std.specs.List.{flat_map};
ghost use Rattle.mux_config.specs.Edits.{sub_at, service_at, packet_at};
ghost use Rattle.script_config.specs.Differences.{after_common, components_dropped, service_gone};
ghost use Rattle.script_config.specs.Differences.{service_cut, packet_gone, sub_gone};
ghost use Rattle.script_config.specs.Differences.{is_same_profile};

use crate::list::put_copy;
use mux_config::{Component, Config, Edit, Packet, Service, Sid, Store, Sub};
use mux_types::sameness::is_same_packet;
use std::alloc::AllocError;

/// The length of the longest common prefix of two lists of components.
pub(crate) fn common(components: &[Component], others: &[Component]) -> usize
    ensures after_common { drop result components.now ≡ after_common components.now others.now }
    ensures bound { result ≤ length components.now }
{
    let mut place = 0;
    while place < components.len() && place < others.len() {
        if components[place] != others[place] {
            return place;
        }
        place += 1;
    }
    place
}

/// The edits that drop components of a service, the last one first.
fn drop_components(
    edits: &mut Vec<Edit>,
    sid: Sid,
    components: &[Component],
) -> Result<(), AllocError>
    ensures { OnOk result (edits.new.items ≡ edits.old.items
        ++ components_dropped sid components.now) }
{
    let mut place = components.len();
    while place > 0 {
        place -= 1;
        let carrier = components[place].carrier();
        put_copy(edits, Edit::DropComponent { sid, carrier })?;
    }
    Ok(())
}

/// Whether two sub-channels have the same protection profile.
pub(crate) fn has_same_profile(sub: &Sub, other: &Sub) -> bool
    ensures { result ≡ is_same_profile sub.now.protection other.now.protection }
{
    sub.protection == other.protection
}

/// The edits that drop the services that the other configuration lacks.
pub(crate) fn drop_services(
    edits: &mut Vec<Edit>,
    services: &[Service],
    to: &Config,
) -> Result<(), AllocError>
    ensures { OnOk result (edits.new.items ≡ edits.old.items
        ++ flat_map (λ s. service_gone (service_at s.sid to.now) s) services.now) }
{
    for service in services {
        if to.service(service.sid).is_none() {
            put_copy(edits, Edit::DropService(service.sid))?;
        }
    }
    Ok(())
}

/// The edits that drop the components of the services that stay after the longest common prefix.
pub(crate) fn cut_services(
    edits: &mut Vec<Edit>,
    services: &[Service],
    to: &Config,
) -> Result<(), AllocError>
    ensures { OnOk result (edits.new.items ≡ edits.old.items
        ++ flat_map (λ s. service_cut (service_at s.sid to.now) s) services.now) }
{
    for service in services {
        if let Some(other) = to.service(service.sid) {
            let components = service.components.as_slice();
            let place = common(components, other.components.as_slice());
            drop_components(edits, service.sid, &components[place..])?;
        }
    }
    Ok(())
}

/// The edits that drop the packet components that the other configuration lacks or has in a
/// different form.
pub(crate) fn drop_packets(
    edits: &mut Vec<Edit>,
    packets: &[Packet],
    to: &Config,
) -> Result<(), AllocError>
    ensures { OnOk result (edits.new.items ≡ edits.old.items
        ++ flat_map (λ p. packet_gone (packet_at p.scid to.now) p) packets.now) }
{
    for packet in packets {
        if let Some(other) = to.packet(packet.scid) {
            if is_same_packet(*packet, other) {
                continue;
            }
        }
        put_copy(edits, Edit::DropPacket(packet.scid))?;
    }
    Ok(())
}

/// The edits that drop the sub-channels that the other configuration lacks or has with another
/// protection profile.
pub(crate) fn drop_subs(edits: &mut Vec<Edit>, subs: &[Sub], to: &Config) -> Result<(), AllocError>
    ensures { OnOk result (edits.new.items ≡ edits.old.items
        ++ flat_map (λ s. sub_gone (sub_at s.id to.now) s) subs.now) }
{
    for sub in subs {
        if let Some(other) = to.sub(sub.id) {
            if has_same_profile(sub, &other) {
                continue;
            }
        }
        put_copy(edits, Edit::DropSub(sub.id))?;
    }
    Ok(())
}
