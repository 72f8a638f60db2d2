//! `Store`: a configuration in any representation.

ghost use Rattle.std.specs.Prelude.{◌≡◌, ◌<◌, ◌↔◌, IsTrue, length, option_copied, slice_get, Some};
ghost use Rattle.std.specs.Prelude.{None};
ghost use Rattle.mux_types.specs.Configuration.{Configuration, IsConfiguration, nothing};
ghost use Rattle.mux_config.specs.Sound.{IsCrowded};
ghost use Rattle.mux_config.specs.Edits.{Edits, sub_at, service_at, packet_at, add_sub};
ghost use Rattle.mux_config.specs.Edits.{add_sub_fault, sub_added, drop_sub, drop_sub_fault};
ghost use Rattle.mux_config.specs.Edits.{sub_dropped, move_sub, move_sub_fault, sub_moved};
ghost use Rattle.mux_config.specs.Edits.{rate_sub, rate_sub_fault, sub_rated, add_service};
ghost use Rattle.mux_config.specs.Edits.{add_service_fault, service_added, drop_service};
ghost use Rattle.mux_config.specs.Edits.{drop_service_fault, service_dropped, add_component};
ghost use Rattle.mux_config.specs.Edits.{add_component_fault, component_added, drop_component};
ghost use Rattle.mux_config.specs.Edits.{drop_component_fault, component_dropped, add_packet};
ghost use Rattle.mux_config.specs.Edits.{add_packet_fault, packet_added, drop_packet};
ghost use Rattle.mux_config.specs.Edits.{drop_packet_fault, packet_dropped};

use crate::config::Config;
use crate::edit_faults::{
    add_component_fault, add_packet_fault, add_service_fault, add_sub_fault, drop_component_fault,
    drop_packet_fault, drop_service_fault, drop_sub_fault, move_sub_fault, rate_sub_fault,
};
use crate::fault::EditFault;
use mux_types::{Carrier, Component, Packet, ScId, Service, Sid, Sub, SubId};

/// A configuration in any representation: its three sets, in ascending order, and the ten edits (EN
/// 300 401 clauses 6.1 to 6.3). Contracts see the configuration that it represents. No call
/// allocates.
///
/// A refused edit returns the first of its faults, in the order given in its documentation, and
/// changes nothing. The method of the same name with `_known` is for a caller that knows that there
/// is no fault.
pub trait Store: Drop {
    ghost use Rattle.mux_types.specs.Configuration.{Configuration};

    /// The configuration that it represents.
    ghost content: { Self → Configuration };

    /// The empty configuration.
    fn empty() -> Self
        ensures { content result ≡ nothing };

    /// A store with the content of a configuration in tables.
    fn from_config(config: &Config) -> Self
        ensures { content result ≡ config.now };

    /// Its content, as a configuration in tables.
    fn to_config(&self) -> Config
        ensures { result ≡ content self.now };

    /// Becomes a copy of another store.
    fn copy_from(&mut self, other: &Self)
        ensures { content self.new ≡ content other.now };

    /// Becomes a copy of a configuration in tables.
    fn copy_from_config(&mut self, config: &Config)
        ensures { content self.new ≡ config.now };

    /// Whether both represent the same configuration.
    fn same(&self, other: &Self) -> bool
        ensures { IsTrue result ↔ (content self.now ≡ content other.now) };

    /// The number of sub-channels, at most 64.
    fn sub_count(&self) -> usize
        ensures value { let c = content self.now in result ≡ length c.subs }
        ensures configuration { IsConfiguration (content self.now) };

    /// The sub-channel at an index, from 0 in ascending order of SubChId. The index must be in
    /// range.
    fn sub_at(&self, place: usize) -> Sub
        requires { let c = content self.now in place < length c.subs }
        ensures value { let c = content self.now in slice_get c.subs place ≡ Some result }
        ensures configuration { IsConfiguration (content self.now) };

    /// The number of services, at most 64.
    fn service_count(&self) -> usize
        ensures value { let c = content self.now in result ≡ length c.services }
        ensures configuration { IsConfiguration (content self.now) };

    /// The service at an index, from 0 in ascending order of SId, the 16-bit ones first. The index
    /// must be in range.
    fn service_at(&self, place: usize) -> &Service
        requires { let c = content self.now in place < length c.services }
        ensures value { let c = content self.now in slice_get c.services place ≡ Some result.now }
        ensures configuration { IsConfiguration (content self.now) };

    /// The number of packet components, at most 64.
    fn packet_count(&self) -> usize
        ensures value { let c = content self.now in result ≡ length c.packets }
        ensures configuration { IsConfiguration (content self.now) };

    /// The packet component at an index, from 0 in ascending order of SCId. The index must be in
    /// range.
    fn packet_at(&self, place: usize) -> Packet
        requires { let c = content self.now in place < length c.packets }
        ensures value { let c = content self.now in slice_get c.packets place ≡ Some result }
        ensures configuration { IsConfiguration (content self.now) };

    /// The sub-channel with an identifier; None if there is none.
    fn sub(&self, id: SubId) -> Option<Sub>
        ensures value { result ≡ sub_at id (content self.now) }
        ensures configuration { IsConfiguration (content self.now) };

    /// The service with an identifier; None if there is none.
    fn service(&self, sid: Sid) -> Option<&Service>
        ensures value { option_copied result ≡ service_at sid (content self.now) }
        ensures configuration { IsConfiguration (content self.now) };

    /// The packet component with an identifier; None if there is none.
    fn packet(&self, scid: ScId) -> Option<Packet>
        ensures value { result ≡ packet_at scid (content self.now) }
        ensures configuration { IsConfiguration (content self.now) };

    /// Whether two sub-channels share a capacity unit (EN 300 401 clause 6.2.1).
    fn crowded(&self) -> bool
        ensures value { IsTrue result ↔ IsCrowded (content self.now) }
        ensures configuration { IsConfiguration (content self.now) };

    /// Adds a sub-channel. Faults: `IdUsed` (its identifier is in use), `BadRate` (its profile has
    /// no size at its rate), `PastEnd` (it would end past capacity unit 863).
    final fn add_sub(&mut self, sub: Sub) -> Result<(), EditFault>
        ensures { Edits (content self.old) (content self.new)
            (add_sub sub (content self.old)) result }
    {
        if let Some(fault) = add_sub_fault(self, &sub) {
            return Err(fault);
        }
        self.add_sub_known(sub);
        Ok(())
    }

    /// [`Store::add_sub`] if there is no fault.
    fn add_sub_known(&mut self, sub: Sub)
        requires { add_sub_fault sub (content self.old) ≡ None }
        ensures { content self.new ≡ sub_added sub (content self.old) };

    /// Removes a sub-channel. Fault: `IdAbsent` (it does not exist).
    final fn drop_sub(&mut self, id: SubId) -> Result<(), EditFault>
        ensures { Edits (content self.old) (content self.new)
            (drop_sub id (content self.old)) result }
    {
        if let Some(fault) = drop_sub_fault(self, id) {
            return Err(fault);
        }
        self.drop_sub_known(id);
        Ok(())
    }

    /// [`Store::drop_sub`] if there is no fault.
    fn drop_sub_known(&mut self, id: SubId)
        requires { drop_sub_fault id (content self.old) ≡ None }
        ensures { content self.new ≡ sub_dropped id (content self.old) };

    /// Gives a sub-channel another start address. Faults: `IdAbsent` (it does not exist), `PastEnd`
    /// (it would end past capacity unit 863).
    final fn move_sub(&mut self, id: SubId, start: u16) -> Result<(), EditFault>
        ensures { Edits (content self.old) (content self.new)
            (move_sub id start (content self.old)) result }
    {
        if let Some(fault) = move_sub_fault(self, id, start) {
            return Err(fault);
        }
        self.move_sub_known(id, start);
        Ok(())
    }

    /// [`Store::move_sub`] if there is no fault.
    fn move_sub_known(&mut self, id: SubId, start: u16)
        requires { move_sub_fault id start (content self.old) ≡ None }
        ensures { content self.new ≡ sub_moved id start (content self.old) };

    /// Gives a sub-channel another bit rate, in kbit/s, with the same protection profile. Faults:
    /// `IdAbsent` (it does not exist), `BadRate` (its profile has no size at that rate), `PastEnd`
    /// (it would end past capacity unit 863).
    final fn rate_sub(&mut self, id: SubId, kbits: u16) -> Result<(), EditFault>
        ensures { Edits (content self.old) (content self.new)
            (rate_sub id kbits (content self.old)) result }
    {
        if let Some(fault) = rate_sub_fault(self, id, kbits) {
            return Err(fault);
        }
        self.rate_sub_known(id, kbits);
        Ok(())
    }

    /// [`Store::rate_sub`] if there is no fault.
    fn rate_sub_known(&mut self, id: SubId, kbits: u16)
        requires { rate_sub_fault id kbits (content self.old) ≡ None }
        ensures { content self.new ≡ sub_rated id kbits (content self.old) };

    /// Adds a service without components. Faults: `IdUsed` (its identifier is in use), `TableFull`
    /// (there are 64 services).
    final fn add_service(&mut self, sid: Sid) -> Result<(), EditFault>
        ensures { Edits (content self.old) (content self.new)
            (add_service sid (content self.old)) result }
    {
        if let Some(fault) = add_service_fault(self, sid) {
            return Err(fault);
        }
        self.add_service_known(sid);
        Ok(())
    }

    /// [`Store::add_service`] if there is no fault.
    fn add_service_known(&mut self, sid: Sid)
        requires { add_service_fault sid (content self.old) ≡ None }
        ensures { content self.new ≡ service_added sid (content self.old) };

    /// Removes a service, with its components. Fault: `IdAbsent` (it does not exist).
    final fn drop_service(&mut self, sid: Sid) -> Result<(), EditFault>
        ensures { Edits (content self.old) (content self.new)
            (drop_service sid (content self.old)) result }
    {
        if let Some(fault) = drop_service_fault(self, sid) {
            return Err(fault);
        }
        self.drop_service_known(sid);
        Ok(())
    }

    /// [`Store::drop_service`] if there is no fault.
    fn drop_service_known(&mut self, sid: Sid)
        requires { drop_service_fault sid (content self.old) ≡ None }
        ensures { content self.new ≡ service_dropped sid (content self.old) };

    /// Adds a component at the end of a service. Faults: `IdAbsent` (the service does not exist),
    /// `IdUsed` (it has a component with that carrier), `TooManyComponents` (it has 12, or 11 with
    /// a 32-bit SId).
    final fn add_component(&mut self, sid: Sid, component: Component) -> Result<(), EditFault>
        ensures { Edits (content self.old) (content self.new)
            (add_component sid component (content self.old)) result }
    {
        if let Some(fault) = add_component_fault(self, sid, &component) {
            return Err(fault);
        }
        self.add_component_known(sid, component);
        Ok(())
    }

    /// [`Store::add_component`] if there is no fault.
    fn add_component_known(&mut self, sid: Sid, component: Component)
        requires { add_component_fault sid component (content self.old) ≡ None }
        ensures { content self.new ≡ component_added sid component (content self.old) };

    /// Removes the component with a carrier from a service; the later ones move up. Fault:
    /// `IdAbsent` (the service does not exist, or has no component with that carrier).
    final fn drop_component(&mut self, sid: Sid, carrier: Carrier) -> Result<(), EditFault>
        ensures { Edits (content self.old) (content self.new)
            (drop_component sid carrier (content self.old)) result }
    {
        if let Some(fault) = drop_component_fault(self, sid, &carrier) {
            return Err(fault);
        }
        self.drop_component_known(sid, carrier);
        Ok(())
    }

    /// [`Store::drop_component`] if there is no fault.
    fn drop_component_known(&mut self, sid: Sid, carrier: Carrier)
        requires { drop_component_fault sid carrier (content self.old) ≡ None }
        ensures { content self.new ≡ component_dropped sid carrier (content self.old) };

    /// Adds a packet component. Faults: `IdUsed` (its SCId is in use), `BadAddress` (its address is
    /// 0 or above 1023), `TableFull` (there are 64 packet components).
    final fn add_packet(&mut self, packet: Packet) -> Result<(), EditFault>
        ensures { Edits (content self.old) (content self.new)
            (add_packet packet (content self.old)) result }
    {
        if let Some(fault) = add_packet_fault(self, &packet) {
            return Err(fault);
        }
        self.add_packet_known(packet);
        Ok(())
    }

    /// [`Store::add_packet`] if there is no fault.
    fn add_packet_known(&mut self, packet: Packet)
        requires { add_packet_fault packet (content self.old) ≡ None }
        ensures { content self.new ≡ packet_added packet (content self.old) };

    /// Removes a packet component. Fault: `IdAbsent` (it does not exist).
    final fn drop_packet(&mut self, scid: ScId) -> Result<(), EditFault>
        ensures { Edits (content self.old) (content self.new)
            (drop_packet scid (content self.old)) result }
    {
        if let Some(fault) = drop_packet_fault(self, scid) {
            return Err(fault);
        }
        self.drop_packet_known(scid);
        Ok(())
    }

    /// [`Store::drop_packet`] if there is no fault.
    fn drop_packet_known(&mut self, scid: ScId)
        requires { drop_packet_fault scid (content self.old) ≡ None }
        ensures { content self.new ≡ packet_dropped scid (content self.old) };
}
