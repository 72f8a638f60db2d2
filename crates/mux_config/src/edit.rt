//! An edit of a configuration as a value, as plans and scripts contain it.

ghost use Rattle.std.specs.Prelude.{◌≡◌, ◌<◌, ◌↔◌, IsSome, IfSome};

use mux_eep::Protection;
use mux_types::{Carrier, Component, Packet, ScId, Sid, Sub, SubId};
use std::marker::Model;

/// A start address as FIG 0/1 can carry it, in capacity units: 10 bits, 0 to 1023 (EN 300 401
/// clause 6.2.1).
#[derive(Clone, Copy, Debug, PartialEq, Eq, PartialOrd, Ord)]
pub struct StartAddress {
    address: u16,
}

impl Model for StartAddress {
    ghost use Rattle.std.specs.Prelude.{ℕ, ◌<◌};

    ghost Value = { ℕ };

    ghost view = { λ s. s.address };

    ghost invariant = { λ s. s.address < 1024 };

    ghost inverse = { λ n. record { address = n } };
}

impl StartAddress {
    /// The start address with this number; None if it is above 1023.
    pub fn new(address: u16) -> Option<StartAddress>
        ensures in_range { IsSome result ↔ (address < 1024) }
        ensures value { IfSome result (λ s. s ≡ address) }
    {
        if address < 1024 {
            Some(StartAddress { address })
        } else {
            None
        }
    }

    /// Its number, 0 to 1023.
    pub fn get(self) -> u16
        ensures value { result ≡ self }
        ensures in_range { result < 1024 }
    {
        self.address
    }
}

/// A sub-channel to be added: a [`Sub`] whose start address is at most 1023. The edit checks
/// whether it has a size and fits in the multiplex.
#[derive(Clone, Copy, Debug, PartialEq, Eq)]
pub struct NewSub {
    sub: Sub,
}

impl Model for NewSub {
    ghost use Rattle.std.specs.Prelude.{◌<◌};
    ghost use Rattle.mux_types.specs.declared.parts.Sub.{Sub};

    ghost Value = { Sub };

    ghost view = { λ n. n.sub };

    ghost invariant = { λ n. n.sub.start < 1024 };

    ghost inverse = { λ s. record { sub = s } };
}

impl NewSub {
    /// This sub-channel, to be added; None if its start address is above 1023.
    pub fn new(sub: Sub) -> Option<NewSub>
        ensures in_range { IsSome result ↔ (sub.start < 1024) }
        ensures value { IfSome result (λ n. n ≡ sub) }
    {
        if sub.start < 1024 {
            Some(NewSub { sub })
        } else {
            None
        }
    }

    /// The sub-channel with these fields, to be added.
    pub fn from_parts(id: SubId, start: StartAddress, protection: Protection, kbits: u16) -> NewSub
        ensures { result
            ≡ record { id = id; start = start; protection = protection; kbits = kbits } }
    {
        NewSub {
            sub: Sub {
                id,
                start: start.get(),
                protection,
                kbits,
            },
        }
    }

    /// The sub-channel; its start address is 0 to 1023.
    pub fn get(self) -> Sub
        ensures value { result ≡ self }
        ensures in_range { result.start < 1024 }
    {
        self.sub
    }
}

/// One of the ten edits of a configuration.
#[derive(Clone, Copy, Debug, PartialEq, Eq)]
pub enum Edit {
    /// Adds a sub-channel.
    AddSub(NewSub),
    /// Removes a sub-channel.
    DropSub(SubId),
    /// Gives a sub-channel another start address.
    MoveSub { id: SubId, start: StartAddress },
    /// Gives a sub-channel another bit rate, in kbit/s, with the same protection profile.
    RateSub { id: SubId, kbits: u16 },
    /// Adds a service without components.
    AddService(Sid),
    /// Removes a service, with its components.
    DropService(Sid),
    /// Adds a component at the end of a service.
    AddComponent { sid: Sid, component: Component },
    /// Removes the component with this carrier from a service; the later ones move up.
    DropComponent { sid: Sid, carrier: Carrier },
    /// Adds a packet component; any address is allowed here, and the edit checks it.
    AddPacket(Packet),
    /// Removes a packet component.
    DropPacket(ScId),
}
