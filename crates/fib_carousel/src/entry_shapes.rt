//! The heads and the sizes of the entries that describe a configuration.

ghost use Rattle.std.specs.Prelude.{◌≡◌, ◌≤◌, false};
ghost use Rattle.fib_codec.specs.Spelling.{entry_size, is_long_entry};
ghost use Rattle.mux_config.specs.Configuration.{IsService};
ghost use Rattle.mux_types.specs.Facts.{service_entry};
ghost use Rattle.fib_carousel.specs.Runs.{sub_shape, packet_shape};

use crate::pack_state::EntryShape;
use fib_codec::Head;
use mux_config::{Service, Sid};

/// The shape of every FIG 0/1 entry in the long form with this C/N flag.
pub(crate) fn sub_shape(next: bool) -> EntryShape
    ensures { result ≡ sub_shape next }
{
    shape(next, false, 1, 4)
}

/// The shape of the entry of a service with this C/N flag.
pub(crate) fn service_shape(service: &Service, next: bool) -> EntryShape
    requires { IsService service.now }
    ensures next { result.head.next ≡ next }
    ensures ours { result.head.oe ≡ false }
    ensures long { result.head.long ≡ is_long_entry (service_entry service.now) }
    ensures ext { result.head.ext ≡ 2 }
    ensures size { result.size ≡ entry_size (service_entry service.now) }
    ensures some { 1 ≤ result.size }
    ensures small { result.size ≤ 28 }
{
    let components = service.components.len() as u8;
    match service.sid {
        Sid::Short(_) => shape(next, false, 2, 3 + 2 * components),
        Sid::Long(_) => shape(next, true, 2, 5 + 2 * components),
    }
}

/// The shape of every FIG 0/3 entry without CAOrg with this C/N flag.
pub(crate) fn packet_shape(next: bool) -> EntryShape
    ensures { result ≡ packet_shape next }
{
    shape(next, false, 3, 5)
}

/// A shape with OE 0: an entry of this ensemble.
fn shape(next: bool, long: bool, ext: u8, size: u8) -> EntryShape
    ensures { result ≡ record {
      head = record { next = next; oe = false; long = long; ext = ext };
      size = size;
    } }
{
    let oe = false;
    EntryShape {
        head: Head {
            next,
            oe,
            long,
            ext,
        },
        size,
    }
}
