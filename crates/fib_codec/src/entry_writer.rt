//! Encodes any entry of FIG 0/0 to 0/3; its layout is in the file of its FIG.

ghost use Rattle.std.specs.Prelude.{◌≡◌, ◌+◌, ◌≤◌, ◌++◌, length};
ghost use Rattle.fib_codec.specs.Ranges.{IsWithin};
ghost use Rattle.fib_codec.specs.Spelling.{entry_size, entry_bytes};

use crate::data::Data;
use crate::{fig0_0, fig0_1, fig0_2, fig0_3};
use mux_types::{Entry, Sid};

/// The length of an entry in bytes, from 3 to 35.
#[tactic(auto, using(crate::proofs::Lengths::entry_length))]
pub fn entry_len(entry: &Entry) -> usize
    ensures size { result ≡ entry_size entry.now }
    ensures spelled { result ≡ length (entry_bytes entry.now) }
{
    match entry {
        Entry::Ensemble(ensemble) => fig0_0::len(ensemble.occurrence().is_some()),
        Entry::Sub(_) => fig0_1::len(true),
        Entry::Short(_) => fig0_1::len(false),
        Entry::Service(service) => match service.sid {
            Sid::Short(_) => fig0_2::len(false, service.components.len()),
            Sid::Long(_) => fig0_2::len(true, service.components.len()),
        },
        Entry::Packet(packet) => fig0_3::len(packet.ca_org.is_some()),
    }
}

/// Appends an entry, for which there is room.
#[tactic(auto, using(crate::proofs::Lengths::entry_length))]
pub(crate) fn put_entry(out: &mut Data, entry: &Entry)
    requires { length out.old + entry_size entry.now ≤ 30 }
    ensures written { out.new ≡ out.old ++ entry_bytes entry.now }
    ensures within { IsWithin entry.now }
{
    match entry {
        Entry::Ensemble(ensemble) => fig0_0::encode(out, *ensemble),
        Entry::Sub(sub) => fig0_1::encode_long(out, *sub),
        Entry::Short(short) => fig0_1::encode_short(out, *short),
        Entry::Service(service) => fig0_2::encode(out, service),
        Entry::Packet(packet) => fig0_3::encode(out, *packet),
    }
}
