//! Runs of entries with the same head and size, appended to a FIB together.

ghost use Rattle.std.specs.Prelude.{◌≡◌, ◌+◌, ◌-◌, ◌*◌, ◌<◌, ◌≤◌, ◌++◌, length, map, take, drop};
ghost use Rattle.std.specs.Prelude.{slice_get, Some};
ghost use Rattle.mux_types.specs.Facts.{Marked, facts_of, sub_entry, packet_entry};
ghost use Rattle.fib_codec.specs.Spelling.{entries_bytes};
ghost use Rattle.fib_carousel.specs.declared.pack_state.EntryShape.{EntryShape};
ghost use Rattle.fib_carousel.specs.Packing.{size_of};
ghost use Rattle.fib_carousel.specs.Walk.{IsShapeAt};
ghost use Rattle.fib_carousel.specs.Items.{config_entries};
ghost use Rattle.fib_carousel.specs.Shapes.{TakesRuns, PutsRun};

use crate::entry_shapes::service_shape;
use crate::pack_state::is_same_shape;
use crate::to_entries::{put_packet, put_service, put_sub};
use fib_codec::Fib;
use mux_config::Store;

/// The lengths of the entries of a sub-channel and of a packet component, in bytes.
const SUB_LEN: u8 = 4;

const PACKET_LEN: u8 = 5;

/// The number of entries of this size that fit in the room, at most the number available.
fn as_many(room: u8, size: u8, there: usize) -> usize
    requires { 1 ≤ size }
    ensures fits { result * size ≤ room }
    ensures within { result ≤ there }
    ensures some { size ≤ room → 1 ≤ there → 1 ≤ result }
{
    let most = usize::from(room / size);
    if most < there { most } else { there }
}

/// Appends the entries of the sub-channels with indices from `from` to `end`, exclusive.
fn put_subs<S: Store>(store: &S, from: usize, end: usize, fib: &mut Fib)
    requires order { from ≤ end }
    requires there { let c = S.content store.now in end ≤ length c.subs }
    requires room { length fib.old + (end - from) * 4 ≤ 30 }
    ensures { let c = S.content store.now in let there = take (end - from) (drop from c.subs) in
        fib.new ≡ fib.old ++ entries_bytes (map sub_entry there) }
{
    for place in from..end {
        put_sub(fib, store.sub_at(place));
    }
}

/// Appends the entries of the packet components with indices from `from` to `end`, exclusive.
fn put_packets<S: Store>(store: &S, from: usize, end: usize, fib: &mut Fib)
    requires order { from ≤ end }
    requires there { let c = S.content store.now in end ≤ length c.packets }
    requires room { length fib.old + (end - from) * 5 ≤ 30 }
    ensures { let c = S.content store.now in let there = take (end - from) (drop from c.packets) in
        fib.new ≡ fib.old ++ entries_bytes (map packet_entry there) }
{
    for place in from..end {
        put_packet(fib, store.packet_at(place));
    }
}

/// Appends the entry of the service at an index, with this C/N flag, and those of the same head and
/// size that follow it, as far as they fit in `room` bytes. Returns the number of entries appended.
fn put_services<S: Store>(store: &S, next: bool, from: usize, room: u8, fib: &mut Fib) -> usize
    requires there { let c = S.content store.now in from < length c.services }
    requires first { let c = S.content store.now in
        (m : Marked) → slice_get (facts_of c next) (length c.subs + from) ≡ Some m
        → size_of m ≤ room }
    requires room { let c = S.content store.now in
        TakesRuns (facts_of c next) (length c.subs + from) room fib.old }
    ensures puts { let c = S.content store.now in (s : EntryShape)
        → IsShapeAt (facts_of c next) (length c.subs + from) s
        → PutsRun (facts_of c next) (length c.subs + from) s room result fib.old fib.new }
    ensures bound { result ≤ 64 }
{
    let first = store.service_at(from);
    let shape = service_shape(first, next);
    put_service(fib, first);
    let mut left = room - shape.size;
    let mut place = from + 1;
    'services: while place < store.service_count() {
        if left < shape.size {
            break;
        }
        let service = store.service_at(place);
        if !is_same_shape(service_shape(service, next), shape) {
            break;
        }
        put_service(fib, service);
        left -= shape.size;
        place += 1;
    }
    place - from
}

/// Appends the entry at an index of a store's configuration, with this C/N flag, and those of the
/// same head and size that follow it, as far as they fit in `room` bytes. Returns the number of
/// entries appended.
#[inline(always)]
pub(crate) fn put_run_at<S: Store>(store: &S, next: bool, index: u16, room: u8, fib: &mut Fib) -> u8
    requires here { index < length (config_entries (S.content store.now)) }
    requires first { (m : Marked)
        → slice_get (facts_of (S.content store.now) next) index ≡ Some m → size_of m ≤ room }
    requires room { TakesRuns (facts_of (S.content store.now) next) index room fib.old }
    ensures { let c = S.content store.now in (s : EntryShape)
        → IsShapeAt (facts_of c next) index s
        → PutsRun (facts_of c next) index s room result fib.old fib.new }
{
    let index = usize::from(index);
    let subs = store.sub_count();
    if index < subs {
        let count = as_many(room, SUB_LEN, subs - index);
        put_subs(store, index, index + count, fib);
        return count as u8;
    }
    let services = store.service_count();
    if index < subs + services {
        return put_services(store, next, index - subs, room, fib) as u8;
    }
    let from = index - subs - services;
    let count = as_many(room, PACKET_LEN, store.packet_count() - from);
    put_packets(store, from, from + count, fib);
    count as u8
}
