//! A FIB that is being written.

ghost use Rattle.std.specs.Prelude.{◌≡◌, ◌+◌, ◌*◌, ◌≤◌, ◌<◌, ◌↔◌, ◌++◌, ◌∷◌, [], length, IsTrue};
ghost use Rattle.std.specs.Prelude.{IsFalse, MatchOption, List, take, slice_index_or, slice_set};
ghost use Rattle.std.specs.List.{AllByRecursion};
ghost use Rattle.fib_codec.specs.Ranges.{IsWithin};
ghost use Rattle.byteorder.specs.Endian.{big_bytes};
ghost use Rattle.fib_codec.specs.Spelling.{head_byte, bit_of, sid_size, sid_bytes, component_u16};
ghost use Rattle.fib_codec.specs.Spelling.{sub_bytes, packet_bytes, entry_bytes, entry_size};
ghost use Rattle.fib_codec.specs.Spelling.{entries_bytes, fig_bytes, IsUnder, IsFormed, FitsFig};
ghost use Rattle.fib_codec.specs.Spelling.{IsWritten, filled, checked};
ghost use Rattle.fib_codec.specs.Grammar.{HoldsFigsOf, IsValidOf};

use crate::data::Data;
use crate::entry_writer::{entry_len, put_entry};
use crate::extension::Extension;
use crate::head::{self, Head};
use crate::{fig0_1, fig0_2, fig0_3};
use mux_types::{Bits, ComponentEntry, Entry, PacketEntry, Sid, SubEntry};
use std::marker::Model;

/// A Fast Information Block that is being written (EN 300 401 clause 5.2.1). Contracts see it as
/// its data bytes so far, at most 30: those of the FIGs appended to it.
#[derive(Drop)]
pub struct Fib {
    bytes: Data,
}

impl Model for Fib {
    ghost use Rattle.std.specs.Prelude.{List, ℕ, length, ◌≤◌};

    ghost Value = { List ℕ };

    ghost view = { λ f. f.bytes };

    ghost invariant = { λ f. length f.bytes ≤ 30 };
}

/// Whether an entry can be sent under this head.
fn is_under(head: Head, entry: &Entry) -> bool
    ensures { IsTrue result ↔ IsUnder head entry.now }
{
    if head.ext != Extension::of(entry).number() {
        return false;
    }
    match entry {
        Entry::Service(service) => match service.sid {
            Sid::Short(_) => !head.long,
            Sid::Long(_) => head.long,
        },
        Entry::Ensemble(_) | Entry::Sub(_) | Entry::Short(_) | Entry::Packet(_) => true,
    }
}

fn are_under(head: Head, entries: &[Entry]) -> bool
    ensures { IsTrue result ↔ AllByRecursion (IsUnder head) entries.now }
{
    for entry in entries {
        if !is_under(head, entry) {
            return false;
        }
    }
    true
}

/// Whether these entries belong together in one FIG with this head.
fn is_formed(head: Head, entries: &[Entry]) -> bool
    ensures { IsTrue result ↔ IsFormed head entries.now }
{
    if entries.is_empty() {
        return false;
    }
    if head.ext == Extension::Ensemble.number() {
        if entries.len() > 1 {
            return false;
        }
    }
    are_under(head, entries)
}

/// The length of these entries in bytes if that is at most `room`.
fn len_within(entries: &[Entry], room: usize) -> Option<usize>
    ensures { let all = length (entries_bytes entries.now) in
        MatchOption result (room < all) (λ len. (len ≡ all) × (len ≤ room)) }
{
    let mut len = 0;
    for entry in entries {
        let more = entry_len(entry);
        if more > room - len {
            return None;
        }
        len += more;
    }
    Some(len)
}

fn put_entries(out: &mut Data, entries: &[Entry])
    requires { length out.old + length (entries_bytes entries.now) ≤ 30 }
    ensures written { out.new ≡ out.old ++ entries_bytes entries.now }
    ensures within { AllByRecursion IsWithin entries.now }
{
    for entry in entries {
        put_entry(out, entry);
    }
}

impl Fib {
    /// A FIB without FIGs.
    pub fn new() -> Fib
        ensures { result ≡ [] }
    {
        Fib { bytes: Data::new() }
    }

    /// Appends a FIG of type 0 with this head and these entries, and returns whether it did. It
    /// returns false, and the FIB is unchanged, exactly if `entries` is empty, an entry is of
    /// another extension than the head's, a service's SId is not as long as the head's P/D flag
    /// says, FIG 0/0 is given more than one entry, or the FIG does not fit in what is left of the
    /// 30 data bytes.
    pub fn try_fig(&mut self, head: Head, entries: &[Entry]) -> bool
        ensures answer { IsTrue result ↔ FitsFig self.old head entries.now }
        ensures added { IsTrue result → self.new ≡ self.old ++ fig_bytes head entries.now }
        ensures written { IsTrue result
            → IsWritten (record { head = head; entries = entries.now }) }
        ensures unchanged { IsFalse result → self.new ≡ self.old }
    {
        if !is_formed(head, entries) {
            return false;
        }
        let used = self.bytes.len();
        if used > 28 {
            return false;
        }
        match len_within(entries, 28 - used) {
            None => false,
            Some(len) => {
                self.begin_fig(head, len);
                put_entries(&mut self.bytes, entries);
                true
            }
        }
    }

    /// Appends the first two bytes of a FIG of type 0, for this head and entries of `len` bytes.
    /// For a caller that knows the length of the entries and that there is room, and appends them
    /// next, one by one. Other callers use [`Fib::try_fig`].
    pub fn begin_fig(&mut self, head: Head, len: usize)
        requires ext { head.ext < 32 }
        requires room { length self.old + 2 + len ≤ 30 }
        ensures { self.new ≡ self.old ++ (1 + len) ∷ head_byte head ∷ [] }
    {
        self.bytes.push_two(1 + len as u8, head::encode(head));
    }

    /// Lengthens the FIG whose header is at offset `place` of the data bytes by `more` bytes, for
    /// an entry that the caller appends next. For the last FIG that was begun, if there is room for
    /// the entry.
    pub fn lengthen_fig(&mut self, place: usize, more: u8)
        requires place { place < length self.old }
        requires fits { slice_index_or self.old place 0 + more ≤ 255 }
        ensures { self.new ≡ slice_set self.old place (slice_index_or self.old place 0 + more) }
    {
        self.bytes.add_at(place, more);
    }

    /// Appends an entry to the FIG that was begun, which has room for it. A caller that does not
    /// know this uses [`Fib::try_fig`].
    pub fn put_entry(&mut self, entry: &Entry)
        requires { length self.old + entry_size entry.now ≤ 30 }
        ensures written { self.new ≡ self.old ++ entry_bytes entry.now }
        ensures within { IsWithin entry.now }
    {
        put_entry(&mut self.bytes, entry);
    }

    /// Appends the start of a service's entry, before its components: the SId, Rfa, CAId and the
    /// number of components, at most 15 (EN 300 401 clause 6.3.1). For a caller that appends the
    /// components next, one by one, and knows that there is room.
    pub fn begin_service(&mut self, sid: Sid, rfa: bool, ca_id: Bits<3>, count: usize)
        requires few { count ≤ 15 }
        requires room { length self.old + sid_size sid + 1 ≤ 30 }
        ensures { self.new ≡ self.old ++ sid_bytes sid
            ++ (bit_of rfa * 128 + ca_id * 16 + count) ∷ [] }
    {
        fig0_2::encode_head(&mut self.bytes, sid, rfa, ca_id, count);
    }

    /// Appends the two bytes of a component to the entry of a service that was begun, which has
    /// room for it.
    pub fn put_component(&mut self, component: ComponentEntry)
        requires { length self.old + 2 ≤ 30 }
        ensures { self.new ≡ self.old ++ big_bytes 2 (component_u16 component) }
    {
        fig0_2::encode_component(&mut self.bytes, component);
    }

    /// Appends the entry of a sub-channel in the long form to the FIG that was begun, which has
    /// room for it.
    pub fn put_sub(&mut self, sub: SubEntry)
        requires { length self.old + 4 ≤ 30 }
        ensures { self.new ≡ self.old ++ sub_bytes sub }
    {
        fig0_1::encode_long(&mut self.bytes, sub);
    }

    /// Appends the entry of a packet component to the FIG that was begun, which has room for it.
    pub fn put_packet(&mut self, packet: PacketEntry)
        requires { length self.old + length (packet_bytes packet) ≤ 30 }
        ensures { self.new ≡ self.old ++ packet_bytes packet }
    {
        fig0_3::encode(&mut self.bytes, packet);
    }

    /// The data bytes so far: those of the FIGs that were appended.
    pub fn data(&self) -> &[u8]
        ensures value { result.now ≡ self.now }
        ensures size { length result.now ≤ 30 }
    {
        self.bytes.as_slice()
    }

    /// The 32 bytes of the FIB written so far, without its CRC.
    pub(crate) fn row(&self) -> &[u8; 32]
        ensures filled { take 30 result.now ≡ filled self.now }
        ensures whole { length result.now ≡ 32 }
    {
        self.bytes.row()
    }

    /// The 32 bytes of the FIB: its FIGs, the end marker and zeros if there is room for them, and
    /// the CRC. By the grammar they contain exactly the FIGs that were appended, in order. Those
    /// with OE 1 are FIGs that are not parsed; without such a one the FIB is valid.
    pub fn finish(self) -> [u8; 32]
        ensures spelled { result ≡ checked (filled self) }
        ensures figs { HoldsFigsOf self result }
        ensures valid { IsValidOf self result }
    {
        self.bytes.finish()
    }
}
