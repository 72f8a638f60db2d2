//! What a configuration consists of: sub-channels, services with their components, packet
//! components.

ghost use Rattle.std.specs.Prelude.{◌≡◌, []};
ghost use Rattle.mux_types.specs.Configuration.{component_limit, carrier_of};
ghost use Rattle.mux_types.specs.Sameness.{names};
ghost use Rattle.std.specs.List.{list_any};
ghost use Rattle.mux_types.specs.declared.numbers.Sid.TheVariants.{Short};

use crate::bounded_vec::BoundedVec;
use crate::numbers::{ScId, ScTy, Sid, SubId};
use mux_eep::Protection;

/// A sub-channel: a part of the multiplex that is protected as one (EN 300 401 clauses 5.1 and
/// 6.2.1).
#[derive(Clone, Copy, Debug, PartialEq, Eq)]
pub struct Sub {
    /// Its identifier.
    pub id: SubId,
    /// The first of its capacity units, numbered from 0.
    pub start: u16,
    /// Its protection profile.
    pub protection: Protection,
    /// Its bit rate in kbit/s.
    pub kbits: u16,
}

impl Default for Sub {
    /// A sub-channel with rate 0, which fills the unused slots of a list.
    fn default() -> Self {
        Sub {
            id: SubId::default(),
            start: 0,
            protection: Protection::default(),
            kbits: 0,
        }
    }
}

/// A component of a service, by the kind of its transport (EN 300 401 clause 6.3.1).
#[derive(Clone, Copy, Debug, PartialEq, Eq)]
pub enum Component {
    /// Audio in stream mode, TMId 00.
    Sound { ty: ScTy, sub: SubId },
    /// Data in stream mode, TMId 01.
    Stream { ty: ScTy, sub: SubId },
    /// Data in packet mode, TMId 11.
    Packet { scid: ScId },
}

impl Default for Component {
    /// The packet component 0, which fills the unused slots of a list.
    fn default() -> Self {
        Component::Packet {
            scid: ScId::default(),
        }
    }
}

impl Component {
    /// The carrier of its content.
    pub fn carrier(&self) -> Carrier
        ensures { result ≡ carrier_of self.now }
    {
        match *self {
            Component::Sound { ty: _, sub } => Carrier::Sub(sub),
            Component::Stream { ty: _, sub } => Carrier::Sub(sub),
            Component::Packet { scid } => Carrier::Packet(scid),
        }
    }
}

/// The carrier of a component's content. No two components of one service have the same carrier.
#[derive(Clone, Copy, Debug, PartialEq, Eq)]
pub enum Carrier {
    /// A sub-channel, for a component in stream mode.
    Sub(SubId),
    /// A packet component, for a component in packet mode.
    Packet(ScId),
}

impl Carrier {
    /// Whether it is the carrier of one of the components.
    pub fn is_named_by(&self, components: &[Component]) -> bool
        ensures { result ≡ list_any (names self.now) components.now }
    {
        for component in components {
            if component.carrier() == *self {
                return true;
            }
        }
        false
    }
}

/// A service and its components, of which the first is the primary one (EN 300 401 clause 6.3.1).
#[derive(Drop)]
pub struct Service {
    /// Its identifier.
    pub sid: Sid,
    /// Its components in order: at most 12 with a 16-bit SId, and at most 11 with a 32-bit SId.
    pub components: BoundedVec<Component, 12>,
}

impl Default for Service {
    ghost is_default = { λ s. s ≡ record { sid = Short 0; components = [] } };

    /// A service without components, which fills the unused slots of a list.
    fn default() -> Self {
        Service {
            sid: Sid::Short(0),
            components: BoundedVec::new(),
        }
    }
}

impl Service {
    /// The service with an SId, without components.
    pub fn new(sid: Sid) -> Service
        ensures { result ≡ record { sid = sid; components = [] } }
    {
        Service {
            sid,
            components: BoundedVec::new(),
        }
    }

    /// A copy of it.
    pub fn copied(&self) -> Service
        ensures { result ≡ self.now }
    {
        Service {
            sid: self.sid,
            components: self.components.copied(),
        }
    }

    /// The most components that a service can have with its kind of SId: 12 with 16 bits, 11 with
    /// 32.
    pub fn limit(&self) -> usize
        ensures { result ≡ component_limit self.now.sid }
    {
        match self.sid {
            Sid::Short(_) => 12,
            Sid::Long(_) => 11,
        }
    }
}

/// A service component in packet mode (EN 300 401 clause 6.3.2).
#[derive(Clone, Copy, Debug, PartialEq, Eq)]
pub struct Packet {
    /// Its identifier.
    pub scid: ScId,
    /// The DG flag as it is sent: false if data groups are used.
    pub dg: bool,
    /// Its type, DSCTy.
    pub ty: ScTy,
    /// The sub-channel that carries its packets.
    pub sub: SubId,
    /// The address of its packets, 1 to 1023 in a configuration.
    pub address: u16,
}

impl Default for Packet {
    /// The packet component 0 without an address, which fills the unused slots of a list.
    fn default() -> Self {
        Packet {
            scid: ScId::default(),
            dg: false,
            ty: ScTy::default(),
            sub: SubId::default(),
            address: 0,
        }
    }
}
