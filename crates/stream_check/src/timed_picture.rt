//! What was heard of one configuration, and when.

ghost use Rattle.std.specs.Prelude.{◌≡◌, ◌≢◌};

use crate::heard_table::{HeardTable, Lookup};
use fib_codec::Extension;
use fib_reader::RawEntry;
use fig_mentions::{Mention, is_nothing};
use std::marker::Model;

/// The entries of FIG 0/1 to 0/3 heard of one configuration, each with the time when it was last
/// heard. There is no FIG 0/0 among them.
#[derive(Drop)]
pub struct TimedPicture {
    subs: HeardTable,
    services: HeardTable,
    packets: HeardTable,
}

impl Model for TimedPicture {
    ghost use Rattle.std.specs.Prelude.{◌≢◌};
    ghost use Rattle.stream_check.specs.Pictures.{Heard, HeardPicture, Each};

    ghost Value = { HeardPicture };

    ghost view = { λ p. record { subs = p.subs; services = p.services; packets = p.packets } };

    ghost invariant = { λ p. Each (λ (h : Heard). h.raw.ext ≢ 0)
        (record { subs = p.subs; services = p.services; packets = p.packets }) };
}

impl TimedPicture {
    ghost use Rattle.std.specs.Prelude.{◌≡◌, ◌≢◌};
    ghost use Rattle.std.specs.List.{AllByRecursion};
    ghost use Rattle.fig_mentions.specs.Agreeing.{is_present};
    ghost use Rattle.stream_check.specs.Pictures.{Heard, empty_picture, picture_of_heard};
    ghost use Rattle.stream_check.specs.Pictures.{picture_kept, heard_since};
    ghost use Rattle.stream_check.specs.Rules.{change_between};
    ghost use Rattle.stream_check.specs.Lookup.{lookup_in};
    ghost use Rattle.stream_check.specs.declared.heard_table.Lookup.TheVariants as standings;

    /// An empty picture.
    pub(crate) fn new() -> Self
        ensures { result ≡ empty_picture }
    {
        TimedPicture {
            subs: HeardTable::new(),
            services: HeardTable::new(),
            packets: HeardTable::new(),
        }
    }

    /// The sub-channels in ascending order.
    pub(crate) fn subs(&self) -> &HeardTable
        ensures value { result.now ≡ self.now.subs }
        ensures members { AllByRecursion (λ (h : Heard). h.raw.ext ≢ 0) result.now }
    {
        &self.subs
    }

    /// The services in ascending order.
    pub(crate) fn services(&self) -> &HeardTable
        ensures value { result.now ≡ self.now.services }
        ensures members { AllByRecursion (λ (h : Heard). h.raw.ext ≢ 0) result.now }
    {
        &self.services
    }

    /// The packet components in ascending order.
    pub(crate) fn packets(&self) -> &HeardTable
        ensures value { result.now ≡ self.now.packets }
        ensures members { AllByRecursion (λ (h : Heard). h.raw.ext ≢ 0) result.now }
    {
        &self.packets
    }

    /// Replaces the entry of FIG 0/1 to 0/3 with the same identifier, or inserts a new one, as
    /// heard at this time. Returns how it compared with the entries before; where there is no room
    /// for it, nothing changes.
    pub(crate) fn hear(&mut self, entry: &RawEntry<'_>, at: u64) -> Lookup
        requires { entry.now.ext ≢ 0 }
        ensures lookup { result ≡ lookup_in entry.now (picture_of_heard self.old) }
        ensures kept { result ≢ standings.Full
            → self.new ≡ picture_kept (record { raw = entry.now; at = at }) self.old }
        ensures full { result ≡ standings.Full → self.new ≡ self.old }
    {
        match entry.extension() {
            Extension::Ensemble => unreachable!(),
            Extension::SubChannels => self.subs.hear(entry, at),
            Extension::Services => self.services.hear(entry, at),
            Extension::Packets => self.packets.hear(entry, at),
        }
    }

    /// Whether what an entry of a FIG names is among the entries.
    pub(crate) fn has(&self, mention: Mention) -> bool
        ensures { result ≡ is_present (picture_of_heard self.now) mention }
    {
        if is_nothing(mention) {
            return true;
        }
        if self.subs.has(mention) {
            return true;
        }
        self.services.has(mention) || self.packets.has(mention)
    }

    /// Updates the times of the oldest entries, if one may have been last heard at `before` or
    /// earlier. The entries stay the same.
    pub(crate) fn find_oldest(&mut self, before: u64)
        ensures { self.new ≡ self.old }
    {
        self.subs.find_oldest(before);
        self.services.find_oldest(before);
        self.packets.find_oldest(before);
    }

    /// Whether each entry was last heard after this time.
    pub(crate) fn is_heard_since(&self, since: u64) -> bool
        ensures { result ≡ heard_since since self.now }
    {
        self.subs.is_heard_since(since)
            && (self.services.is_heard_since(since) && self.packets.is_heard_since(since))
    }

    /// The change flags from this picture to another: 1 where sub-channels differ, 2 where services
    /// or packet components differ, 3 where both do.
    pub(crate) fn change_to(&self, other: &TimedPicture) -> u8
        ensures { result ≡ change_between (picture_of_heard self.now) (picture_of_heard other.now) }
    {
        let subs = if self.subs.has_same_entries(&other.subs) {
            0
        } else {
            1
        };
        let has_same_services = self.services.has_same_entries(&other.services);
        let has_same_packets = self.packets.has_same_entries(&other.packets);
        let services = if has_same_services && has_same_packets {
            0
        } else {
            2
        };
        subs + services
    }
}
