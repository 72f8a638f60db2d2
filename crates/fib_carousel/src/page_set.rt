//! The entries of the pages: those of the current configuration, and those of the next one if
//! given.

ghost use Rattle.std.specs.Prelude.{◌≡◌, ◌+◌, ◌<◌, ◌≤◌, Bool, true, false, length};
ghost use Rattle.std.specs.Option.{option_copied};
ghost use Rattle.mux_types.specs.Facts.{marked, facts_of};
ghost use Rattle.fib_carousel.specs.Pages.{page_set_of};
ghost use Rattle.mux_types.specs.declared.entry.Entry.{Entry};
ghost use Rattle.fib_codec.specs.Spelling.{entry_size, ext_of, is_long_entry};
ghost use Rattle.fib_carousel.specs.Carried.{AreSendable};
ghost use Rattle.fib_carousel.specs.Walk.{IsShapeAt};
ghost use Rattle.fib_carousel.specs.Items.{item_entry, IsFormedItem, config_entries, IsItemAt};

use crate::entry_list::EntryList;
use crate::entry_runs::put_run_at;
use crate::entry_shapes::{packet_shape, service_shape, sub_shape};
use crate::pack_state::EntryShape;
use fib_codec::Fib;
use mux_config::{Packet, Service, Store, Sub};

/// A member of one of the three sets of a configuration.
#[derive(Drop)]
enum Item<'a> {
    /// A sub-channel.
    Sub(Sub),
    /// A service.
    Service(&'a Service),
    /// A packet component.
    Packet(Packet),
}

impl Item<'_> {
    /// The head and the size of its entry with this C/N flag.
    fn shape(&self, next: bool) -> EntryShape
        requires { IsFormedItem self.now }
        ensures next { result.head.next ≡ next }
        ensures ours { result.head.oe ≡ false }
        ensures long { result.head.long ≡ is_long_entry (item_entry self.now) }
        ensures ext { result.head.ext ≡ ext_of (item_entry self.now) }
        ensures size { result.size ≡ entry_size (item_entry self.now) }
        ensures some { 1 ≤ result.size }
        ensures small { result.size ≤ 28 }
    {
        match self {
            Item::Sub(_) => sub_shape(next),
            Item::Service(service) => service_shape(service, next),
            Item::Packet(_) => packet_shape(next),
        }
    }
}

/// The number of entries of a store's configuration, at most 192.
fn entry_count<S: Store>(store: &S) -> u16
    ensures value { result ≡ length (config_entries (S.content store.now)) }
    ensures bound { result ≤ 192 }
    ensures sendable { (next : Bool) → AreSendable (facts_of (S.content store.now) next) }
{
    (store.sub_count() + store.service_count() + store.packet_count()) as u16
}

/// The sub-channel at an index of a store's configuration.
fn sub_item<S: Store>(store: &S, index: usize) -> Item<'_>
    requires { let c = S.content store.now in index < length c.subs }
    ensures { IsItemAt (S.content store.now) index result }
{
    Item::Sub(store.sub_at(index))
}

/// The service at an index of a store's configuration; services are counted after sub-channels.
fn service_item<S: Store>(store: &S, index: usize) -> Item<'_>
    requires from { let c = S.content store.now in length c.subs ≤ index }
    requires below { let c = S.content store.now in index < length c.subs + length c.services }
    ensures { IsItemAt (S.content store.now) index result }
{
    Item::Service(store.service_at(index - store.sub_count()))
}

/// The packet component at an index of a store's configuration; packet components are counted last.
fn packet_item<S: Store>(store: &S, index: usize) -> Item<'_>
    requires from { let c = S.content store.now in length c.subs + length c.services ≤ index }
    requires below { index < length (config_entries (S.content store.now)) }
    ensures { IsItemAt (S.content store.now) index result }
{
    Item::Packet(store.packet_at(index - store.sub_count() - store.service_count()))
}

/// The member of a store's configuration at an index, counting sub-channels, services and packet
/// components in this order from 0.
fn item_at<S: Store>(store: &S, index: u16) -> Item<'_>
    requires { index < length (config_entries (S.content store.now)) }
    ensures { IsItemAt (S.content store.now) index result }
{
    let index = usize::from(index);
    let subs = store.sub_count();
    if index < subs {
        return sub_item(store, index);
    }
    if index < subs + store.service_count() {
        return service_item(store, index);
    }
    packet_item(store, index)
}

/// The head and the size of the entry at an index of a store's configuration, with this C/N flag.
fn shape_at<S: Store>(store: &S, next: bool, index: u16) -> EntryShape
    requires { index < length (config_entries (S.content store.now)) }
    ensures value { IsShapeAt (facts_of (S.content store.now) next) index result }
    ensures some { 1 ≤ result.size }
    ensures small { result.size ≤ 28 }
{
    item_at(store, index).shape(next)
}

/// The entries of the pages: those of the current configuration with C/N 0, then those of the next
/// one with C/N 1.
#[derive(Drop)]
pub(crate) struct PageSet<'a, 'b, S: Store> {
    current: &'a S,
    next: Option<&'b S>,
}

impl<'a, 'b, S: Store> PageSet<'a, 'b, S> {
    /// The page set of these configurations.
    pub(crate) fn new(current: &'a S, next: Option<&'b S>) -> PageSet<'a, 'b, S>
        ensures { ⟦<PageSet<'a, 'b, S> as EntryList>⟧.entries result
            ≡ page_set_of S.content current.now (option_copied next.entry) }
    {
        PageSet { current, next }
    }
}

impl<'a, 'b, S: Store> EntryList for PageSet<'a, 'b, S> {
    ghost use Rattle.std.specs.Option.{option_copied};
    ghost use Rattle.fib_carousel.specs.Pages.{page_set_of};

    ghost entries = { λ p. page_set_of S.content p.current.now (option_copied p.next) };

    fn len(&self) -> u16 {
        let current = entry_count(self.current);
        match self.next {
            Some(next) => current + entry_count(next),
            None => current,
        }
    }

    fn shape(&self, index: u16) -> EntryShape {
        let current = entry_count(self.current);
        if index < current {
            return shape_at(self.current, false, index);
        }
        match self.next {
            Some(next) => shape_at(next, true, index - current),
            None => shape_at(self.current, false, index),
        }
    }

    fn put_run(&self, index: u16, room: u8, fib: &mut Fib) -> u8 {
        let current = entry_count(self.current);
        if index < current {
            return put_run_at(self.current, false, index, room, fib);
        }
        match self.next {
            Some(next) => put_run_at(next, true, index - current, room, fib),
            None => put_run_at(self.current, false, index, room, fib),
        }
    }
}
