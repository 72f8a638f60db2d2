//! The entries of one extension heard of a configuration, each with the time when it was last
//! heard.

ghost use Rattle.std.specs.Prelude.{◌≡◌, ◌≤◌, ℕ, nat_lt};
ghost use Rattle.std.specs.List.{list_all, list_any, AllByRecursion};
ghost use Rattle.fig_mentions.specs.Agreeing.{is_named};
ghost use Rattle.stream_check.specs.Pictures.{Heard, raws};
ghost use Rattle.fib_reader.specs.Listening.{identifier_of};
ghost use Rattle.stream_check.specs.Lookup.{lookup};
ghost use Rattle.stream_check.specs.Rules.{are_same};

use crate::heard_entry::HeardEntry;
use fib_reader::{EntryTable, RawEntry};
use fig_mentions::{Mention, is_named};
use std::marker::Model;

/// How an entry compares with those of a table.
#[derive(Clone, Copy, Debug, PartialEq, Eq)]
pub enum Lookup {
    /// An entry with its identifier and the same bytes is there.
    Same,
    /// An entry with its identifier but with other bytes is there.
    Other,
    /// No entry with its identifier is there, and there is room for it.
    Absent,
    /// No entry with its identifier is there, and there is no room for it.
    Full,
}

/// At most 64 entries of one extension. In contracts they are a list in ascending order of
/// identifiers.
#[derive(Drop)]
pub struct HeardTable {
    table: EntryTable<HeardEntry>,
    /// A time before which no entry was last heard.
    oldest: u64,
}

impl Model for HeardTable {
    ghost use Rattle.std.specs.Prelude.{◌≤◌, List};
    ghost use Rattle.std.specs.List.{AllByRecursion};
    ghost use Rattle.stream_check.specs.Pictures.{Heard};

    ghost Value = { List Heard };

    ghost view = { λ t. t.table };

    ghost invariant = { λ t. AllByRecursion (λ (h : Heard). t.oldest ≤ h.at) t.table };
}

impl HeardTable {
    ghost use Rattle.std.specs.Prelude.{◌≡◌, ◌≢◌, ◌≤◌, [], length, nat_lt};
    ghost use Rattle.std.specs.List.{list_all, list_any, AllByRecursion};
    ghost use Rattle.fig_mentions.specs.Agreeing.{is_named};
    ghost use Rattle.stream_check.specs.Rules.{are_same};
    ghost use Rattle.stream_check.specs.Pictures.{Heard, heard_kept, raws};
    ghost use Rattle.stream_check.specs.Lookup.{lookup};
    ghost use Rattle.stream_check.specs.declared.heard_table.Lookup.TheVariants as standings;

    /// An empty table.
    pub(crate) fn new() -> Self
        ensures { result ≡ [] }
    {
        HeardTable {
            table: EntryTable::new(),
            oldest: u64::MAX,
        }
    }

    /// The entries in ascending order of identifiers.
    pub(crate) fn as_slice(&self) -> &[HeardEntry]
        ensures value { result.now ≡ self.now }
        ensures bound { length result.now ≤ 64 }
    {
        self.table.as_slice()
    }

    /// A time before which no entry was last heard.
    pub(crate) fn oldest(&self) -> u64
        ensures { AllByRecursion (λ (h : Heard). result ≤ h.at) self.now }
    {
        self.oldest
    }

    /// Recomputes that time, if an entry may have been last heard at `before` or earlier. The
    /// entries stay the same.
    pub(crate) fn find_oldest(&mut self, before: u64)
        ensures { self.new ≡ self.old }
    {
        if self.oldest <= before {
            self.oldest = oldest_of(self.table.as_slice());
        }
    }

    /// Replaces the entry with the same identifier, or inserts a new one, as heard at this time.
    /// Returns how it compared with the entries before; where there is no room for it, nothing
    /// changes.
    pub(crate) fn hear(&mut self, entry: &RawEntry<'_>, at: u64) -> Lookup
        ensures lookup { result ≡ lookup entry.now (raws self.old) }
        ensures kept { result ≢ standings.Full
            → self.new ≡ heard_kept (record { raw = entry.now; at = at }) self.old }
        ensures full { result ≡ standings.Full → self.new ≡ self.old }
    {
        let identifier = entry.identifier();
        let found = look_up(&self.table, identifier, entry);
        if !self.table.keep(identifier, entry, at) {
            return Lookup::Full;
        }
        self.oldest = earlier(self.oldest, at);
        found
    }

    /// Whether one of the entries is what an entry of a FIG names.
    pub(crate) fn has(&self, mention: Mention) -> bool
        ensures { result ≡ list_any (is_named mention) (raws self.now) }
    {
        has_named(mention, self.table.as_slice())
    }

    /// Whether each entry was last heard after this time.
    pub(crate) fn is_heard_since(&self, since: u64) -> bool
        ensures { result ≡ list_all (λ h. nat_lt since h.at) self.now }
    {
        are_heard_since(since, self.table.as_slice())
    }

    /// Whether the entries of another table are the same, at whatever times they were heard.
    pub(crate) fn has_same_entries(&self, other: &HeardTable) -> bool
        ensures { result ≡ are_same (raws self.now) (raws other.now) }
    {
        have_same_entries(self.table.as_slice(), other.table.as_slice())
    }
}

/// How an entry with this identifier compares with those of a table.
fn look_up(table: &EntryTable<HeardEntry>, identifier: u64, entry: &RawEntry<'_>) -> Lookup
    requires { identifier ≡ identifier_of entry.now }
    ensures { result ≡ lookup entry.now (raws table.now) }
{
    let Some(known) = table.get(identifier) else {
        return if table.len() < 64 {
            Lookup::Absent
        } else {
            Lookup::Full
        };
    };
    if known.is(entry) {
        Lookup::Same
    } else {
        Lookup::Other
    }
}

/// Whether one of these entries is what an entry of a FIG names.
fn has_named(mention: Mention, entries: &[HeardEntry]) -> bool
    ensures { result ≡ list_any (is_named mention) (raws entries.now) }
{
    let mut rest = entries;
    while let Some((entry, after)) = rest.split_first() {
        if is_named(mention, &entry.as_raw_entry()) {
            return true;
        }
        rest = after;
    }
    false
}

/// The minimum of two times.
fn earlier(one: u64, other: u64) -> u64
    ensures first { result ≤ one }
    ensures second { result ≤ other }
    ensures latest { (n : ℕ) → n ≤ one → n ≤ other → n ≤ result }
{
    if one < other { one } else { other }
}

/// The latest time before which none of these entries was last heard.
fn oldest_of(entries: &[HeardEntry]) -> u64
    ensures { AllByRecursion (λ (h : Heard). result ≤ h.at) entries.now }
{
    let mut oldest = u64::MAX;
    let mut rest = entries;
    while let Some((entry, after)) = rest.split_first() {
        oldest = earlier(oldest, entry.at());
        rest = after;
    }
    oldest
}

/// Whether each of these entries was last heard after this time.
fn are_heard_since(since: u64, entries: &[HeardEntry]) -> bool
    ensures { result ≡ list_all (λ h. nat_lt since h.at) entries.now }
{
    let mut rest = entries;
    while let Some((entry, after)) = rest.split_first() {
        if entry.at() <= since {
            return false;
        }
        rest = after;
    }
    true
}

/// Whether two slices have the same entries.
fn have_same_entries(entries: &[HeardEntry], others: &[HeardEntry]) -> bool
    ensures { result ≡ are_same (raws entries.now) (raws others.now) }
{
    let mut rest = entries;
    let mut others_rest = others;
    while let Some((entry, after)) = rest.split_first() {
        let Some((other, others_after)) = others_rest.split_first() else {
            return false;
        };
        if !entry.is(&other.as_raw_entry()) {
            return false;
        }
        rest = after;
        others_rest = others_after;
    }
    others_rest.is_empty()
}
