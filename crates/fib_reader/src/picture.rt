//! What a receiver has heard of one configuration.

ghost use Rattle.std.specs.Prelude.{◌≡◌, true, false};

use crate::entries::RawEntry;
use crate::entry_table::EntryTable;
use crate::members::members;
use crate::owned_entry::OwnedEntry;
use fib_codec::Extension;
use mux_config::{Config, Packet, Service, Sub};
use std::marker::Model;

/// What a receiver has heard of one configuration: entries of FIG 0/1 to 0/3, distinguished by
/// their identifiers. Contracts see it as three lists of entries as they were sent, each in
/// ascending order.
#[derive(Drop)]
pub struct Picture {
    subs: EntryTable<OwnedEntry>,
    services: EntryTable<OwnedEntry>,
    packets: EntryTable<OwnedEntry>,
}

impl Model for Picture {
    ghost use Rattle.fib_reader.specs.Listening.{Pictured};
    ghost use Rattle.fib_reader.specs.Picture.{IsPictured};

    ghost Value = { Pictured };

    ghost view = { λ p. record { subs = p.subs; services = p.services; packets = p.packets } };

    ghost invariant = { λ p.
        IsPictured (record { subs = p.subs; services = p.services; packets = p.packets }) };
}

impl Picture {
    ghost use Rattle.std.specs.Prelude.{◌≡◌, ◌≢◌, ◌≤◌, true, false, Some, None, IfSome};
    ghost use Rattle.mux_config.specs.Configuration.{Configuration, IsConfiguration};
    ghost use Rattle.fib_reader.specs.Listening.{Pictured, blank, pictured, all_entries};
    ghost use Rattle.fib_reader.specs.Picture.{AreInOrder, IsKept, Shows};
    ghost use Rattle.fib_reader.specs.Forecast.{HasGrownBy};

    /// The empty picture.
    pub(crate) fn new() -> Self
        ensures { result ≡ blank }
    {
        Picture {
            subs: EntryTable::new(),
            services: EntryTable::new(),
            packets: EntryTable::new(),
        }
    }

    /// Becomes a copy of another picture.
    pub(crate) fn copy_from(&mut self, other: &Self)
        ensures { self.new ≡ other.now }
    {
        self.subs.copy_from(&other.subs);
        self.services.copy_from(&other.services);
        self.packets.copy_from(&other.packets);
    }

    /// Takes in an entry of FIG 0/1 to 0/3 if there is room for it. Returns whether there was; if
    /// not, nothing changes.
    #[inline(always)]
    pub(crate) fn take_in(&mut self, entry: &RawEntry<'_>) -> bool
        requires { entry.now.ext ≢ 0 }
        ensures taken { result ≡ true → pictured entry.now self.old ≡ Some self.new }
        ensures full { result ≡ false → pictured entry.now self.old ≡ None }
        ensures unchanged { result ≡ false → self.new ≡ self.old }
    {
        if self.has(entry) {
            return true;
        }
        let identifier = entry.identifier();
        match entry.extension() {
            Extension::Ensemble => unreachable!(),
            Extension::SubChannels => self.subs.keep(identifier, entry, 0),
            Extension::Services => self.services.keep(identifier, entry, 0),
            Extension::Packets => self.packets.keep(identifier, entry, 0),
        }
    }

    /// Whether it has this very entry of FIG 0/1 to 0/3, so that taking it in again changes
    /// nothing.
    #[inline(always)]
    pub(crate) fn has(&self, entry: &RawEntry<'_>) -> bool
        requires { entry.now.ext ≢ 0 }
        ensures { result ≡ true → pictured entry.now self.now ≡ Some self.now }
    {
        match entry.extension() {
            Extension::Ensemble => unreachable!(),
            Extension::SubChannels => self.subs.has(entry),
            Extension::Services => self.services.has(entry),
            Extension::Packets => self.packets.has(entry),
        }
    }

    /// The number of new members of a kind after this entry of FIG 0/1 to 0/3 is taken in too, if
    /// at most `others` of those taken in before were new; None if there may be no room for it.
    /// There are never too many sub-channels, so they are not counted.
    pub(crate) fn new_members(&self, others: usize, entry: &RawEntry<'_>) -> Option<usize>
        requires { entry.now.ext ≢ 0 }
        ensures { IfSome result (λ all. (p : Pictured) → HasGrownBy others self.now p
            → (q : Pictured) × (pictured entry.now p ≡ Some q) × HasGrownBy all self.now q
            × (others ≤ all)) }
    {
        match entry.extension() {
            Extension::Ensemble => unreachable!(),
            Extension::SubChannels => Some(others),
            Extension::Services => self.services.new_members(others, entry),
            Extension::Packets => self.packets.new_members(others, entry),
        }
    }

    /// The configuration that it shows: Some if its entries are exactly those of one configuration
    /// of this profile. So it is None if a sub-channel is in the short form, has an option above 1
    /// or a size that no rate has, if a field that is sent as 0 is set, or a component has another
    /// TMId.
    pub fn config(&self) -> Option<Config>
        ensures configuration { IfSome result IsConfiguration }
        ensures shown { IfSome result (Shows self.now) }
        ensures every { (c : Configuration) → IsConfiguration c → Shows self.now c
            → result ≡ Some c }
    {
        fib_codec::laws::spelling();
        mux_config::laws::facts();
        let Some(subs) = members::<Sub>(self.subs.as_slice()) else {
            return None;
        };
        let Some(services) = members::<Service>(self.services.as_slice()) else {
            return None;
        };
        let Some(packets) = members::<Packet>(self.packets.as_slice()) else {
            return None;
        };
        Some(Config::of(subs, services, packets))
    }

    /// Its entries in ascending order of extension and identifier: FIG 0/1 by SubChId, FIG 0/2 by
    /// SId with the short ones first, FIG 0/3 by SCId.
    pub fn entries(&self) -> PictureEntries<'_>
        ensures value { result ≡ all_entries self.now }
        ensures ascending { AreInOrder result }
        ensures kept { IsKept self.now }
    {
        PictureEntries {
            subs: self.subs.as_slice(),
            services: self.services.as_slice(),
            packets: self.packets.as_slice(),
        }
    }
}

/// The entries of a picture in order.
#[derive(Drop)]
pub struct PictureEntries<'a> {
    subs: &'a [OwnedEntry],
    services: &'a [OwnedEntry],
    packets: &'a [OwnedEntry],
}

impl<'a> Model for PictureEntries<'a> {
    ghost use Rattle.std.specs.Prelude.{List, ◌++◌};
    ghost use Rattle.fib_reader.specs.Raw.{Raw};

    ghost Value = { List Raw };

    ghost view = { λ s. s.subs.now ++ s.services.now ++ s.packets.now };
}

impl<'a> Iterator for PictureEntries<'a> {
    ghost use Rattle.std.specs.Iterator.{YieldsFirstBy, item_count};

    type Item = RawEntry<'a>;

    ghost next_gives = { YieldsFirstBy (λ e. e) (λ s. s) };

    ghost remaining = { item_count (λ s. s) };

    fn next(&mut self) -> Option<RawEntry<'a>> {
        if let Some((first, rest)) = self.subs.split_first() {
            self.subs = rest;
            return Some(first.as_raw_entry());
        }
        if let Some((first, rest)) = self.services.split_first() {
            self.services = rest;
            return Some(first.as_raw_entry());
        }
        let (first, rest) = self.packets.split_first()?;
        self.packets = rest;
        Some(first.as_raw_entry())
    }
}
