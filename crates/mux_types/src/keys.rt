//! The members of the three sets of a configuration, identified by their keys.

ghost use Rattle.std.specs.Prelude.{◌≡◌};
ghost use Rattle.mux_types.specs.Configuration.{sub_key, sid_key, service_key, packet_key};

use crate::numbers::Sid;
use crate::parts::{Packet, Service, Sub};
use crate::sorted_table::Keyed;

/// The rank of an SId in the order of services: short ones come before long ones.
pub fn sid_key(sid: Sid) -> u64
    ensures { result ≡ sid_key sid }
{
    match sid {
        Sid::Short(id) => u64::from(id),
        Sid::Long(id) => 65_536 + u64::from(id),
    }
}

impl Keyed for Sub {
    ghost key = { sub_key };

    fn key(&self) -> u64 {
        u64::from(self.id.get())
    }

    fn copied(&self) -> Self {
        *self
    }
}

impl Keyed for Service {
    ghost key = { service_key };

    fn key(&self) -> u64 {
        sid_key(self.sid)
    }

    fn copied(&self) -> Self {
        Service::copied(self)
    }
}

impl Keyed for Packet {
    ghost key = { packet_key };

    fn key(&self) -> u64 {
        u64::from(self.scid.get())
    }

    fn copied(&self) -> Self {
        *self
    }
}
