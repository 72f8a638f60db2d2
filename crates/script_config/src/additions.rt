//! The edits that add members of the second configuration, new ones and those that replace dropped
//! ones.

ghost use Rattle.std.specs.Prelude.{◌≡◌, ◌++◌, OnOk};
ghost use Rattle.std.specs.List.{flat_map, AllByRecursion};
ghost use Rattle.mux_config.specs.Configuration.{IsPlaced};
ghost use Rattle.mux_config.specs.Edits.{sub_at, service_at, packet_at};
ghost use Rattle.script_config.specs.Differences.{sub_new, packet_new, service_grown};
ghost use Rattle.script_config.specs.Making.{components_added};

use crate::list::put_copy;
use crate::removals::{common, has_same_profile};
use mux_config::{Component, Config, Edit, NewSub, Packet, Service, Sid, Store, Sub};
use mux_types::sameness::is_same_packet;
use std::alloc::AllocError;

/// The edits that add these components to a service, in order.
fn add_components(
    edits: &mut Vec<Edit>,
    sid: Sid,
    components: &[Component],
) -> Result<(), AllocError>
    ensures { OnOk result (edits.new.items ≡ edits.old.items
        ++ components_added sid components.now) }
{
    for component in components {
        let component = *component;
        put_copy(edits, Edit::AddComponent { sid, component })?;
    }
    Ok(())
}

/// The edits that add the sub-channels that the other configuration lacks or has with another
/// protection profile.
pub(crate) fn new_subs(edits: &mut Vec<Edit>, subs: &[Sub], from: &Config) -> Result<(), AllocError>
    requires { AllByRecursion IsPlaced subs.now }
    ensures { OnOk result (edits.new.items ≡ edits.old.items
        ++ flat_map (λ t. sub_new (sub_at t.id from.now) t) subs.now) }
{
    for sub in subs {
        if let Some(other) = from.sub(sub.id) {
            if has_same_profile(&other, sub) {
                continue;
            }
        }
        put_copy(edits, Edit::AddSub(NewSub::new(*sub).unwrap()))?;
    }
    Ok(())
}

/// The edits that add the packet components that the other configuration lacks or has in a
/// different form.
pub(crate) fn new_packets(
    edits: &mut Vec<Edit>,
    packets: &[Packet],
    from: &Config,
) -> Result<(), AllocError>
    ensures { OnOk result (edits.new.items ≡ edits.old.items
        ++ flat_map (λ q. packet_new (packet_at q.scid from.now) q) packets.now) }
{
    for packet in packets {
        if let Some(other) = from.packet(packet.scid) {
            if is_same_packet(other, *packet) {
                continue;
            }
        }
        put_copy(edits, Edit::AddPacket(*packet))?;
    }
    Ok(())
}

/// The edits that add the services that the other configuration lacks, with their components, and
/// to those that it has only the components after the longest common prefix.
pub(crate) fn grow_services(
    edits: &mut Vec<Edit>,
    services: &[Service],
    from: &Config,
) -> Result<(), AllocError>
    ensures { OnOk result (edits.new.items ≡ edits.old.items
        ++ flat_map (λ t. service_grown (service_at t.sid from.now) t) services.now) }
{
    for service in services {
        let components = service.components.as_slice();
        let place = match from.service(service.sid) {
            Some(other) => common(components, other.components.as_slice()),
            None => {
                put_copy(edits, Edit::AddService(service.sid))?;
                0
            }
        };
        add_components(edits, service.sid, &components[place..])?;
    }
    Ok(())
}
