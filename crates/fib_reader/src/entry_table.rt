//! The entries of one extension that a picture keeps, in ascending order of their identifiers.

use crate::entries::RawEntry;
use crate::owned_entry::OwnedEntry;
use mux_config::{Keyed, SortedTable};
use std::marker::Model;

/// What a table keeps of an entry: the entry alone, or also when it was heard.
pub trait TableEntry: Keyed {
    ghost use Rattle.std.specs.Prelude.{◌≡◌, ℕ};
    ghost use Rattle.fib_reader.specs.Raw.{Raw};

    ghost heard: { Raw → ℕ → Self };

    /// What is kept of an entry that is heard at this time.
    fn heard(entry: &RawEntry<'_>, at: u64) -> Self
        ensures { result ≡ heard entry.now at };
}

/// At most 64 entries of one extension, found by their identifiers. Contracts see a list in
/// ascending order of identifiers.
#[derive(Drop)]
pub struct EntryTable<T: TableEntry> {
    table: SortedTable<T, 64>,
    /// The index of each entry, by a hash of its identifier. Entries are repeated over and over,
    /// and most are found at once. It is only a hint: another entry may be at the index, or have
    /// the same hash.
    hints: [u8; 256],
}

impl<T: TableEntry> Model for EntryTable<T> {
    ghost use Rattle.std.specs.Prelude.{List};

    ghost Value = { List T };

    ghost view = { λ s. s.table };
}

impl<T: TableEntry> EntryTable<T> {
    ghost use Rattle.std.specs.Prelude.{◌≡◌, ◌≤◌, ◌||◌, true, false, if◌then◌else◌, nat_lt, length};
    ghost use Rattle.std.specs.Prelude.{[], option_copied};
    ghost use Rattle.mux_config.specs.Configuration.{IsAscending};
    ghost use Rattle.mux_config.specs.Tables.{entry_at, has_entry, with_entry, with_entry_changed};

    /// No entries.
    pub fn new() -> Self
        ensures { result ≡ [] }
    {
        EntryTable {
            table: SortedTable::new(),
            hints: [0; 256],
        }
    }

    /// Becomes a copy of another table.
    pub fn copy_from(&mut self, other: &Self)
        ensures { self.new ≡ other.now }
    {
        self.table.copy_from(&other.table);
        self.hints = other.hints;
    }

    /// The number of entries, at most 64.
    pub fn len(&self) -> usize
        ensures value { result ≡ length self.now }
        ensures bound { result ≤ 64 }
    {
        self.table.len()
    }

    /// The entries in ascending order of identifiers.
    pub fn as_slice(&self) -> &[T]
        ensures value { result.now ≡ self.now }
        ensures bound { length result.now ≤ 64 }
        ensures ascending { IsAscending T.key self.now }
    {
        self.table.as_slice()
    }

    /// The entry with an identifier; None if there is none.
    #[inline(always)]
    pub fn get(&self, identifier: u64) -> Option<&T>
        ensures value { option_copied result ≡ entry_at T.key identifier self.now }
        ensures ascending { IsAscending T.key self.now }
    {
        let entries = self.table.as_slice();
        let hint = usize::from(self.hints[usize::from(hash(identifier))]);
        if hint < entries.len() {
            if entries[hint].key() == identifier {
                return Some(&entries[hint]);
            }
        }
        self.table.get(identifier)
    }

    /// Replaces the entry with this identifier, or adds this one if there is room, as heard at a
    /// time. Returns whether it was kept; if not, nothing changes.
    pub fn keep(&mut self, identifier: u64, entry: &RawEntry<'_>, at: u64) -> bool
        requires { identifier ≡ T.key (T.heard entry.now at) }
        ensures room { result ≡ (has_entry T.key (T.key (T.heard entry.now at)) self.old
            || nat_lt (length self.old) 64) }
        ensures kept { result ≡ true → self.new
            ≡ (if has_entry T.key (T.key (T.heard entry.now at)) self.old
            then with_entry_changed T.key (T.heard entry.now at) self.old
            else with_entry T.key (T.heard entry.now at) self.old) }
        ensures unchanged { result ≡ false → self.new ≡ self.old }
        ensures ascending { IsAscending T.key self.old }
    {
        if self.get(identifier).is_some() {
            self.table.replace(T::heard(entry, at));
            return true;
        }
        if self.table.is_full() {
            return false;
        }
        self.table.insert(T::heard(entry, at));
        // the entries after it have moved
        note_places(&mut self.hints, self.table.as_slice(), identifier);
        true
    }
}

/// The highest eight bits of a multiple of an identifier, which spread even identifiers that differ
/// in only a few bits. The lowest ones would put SIds that are 16 apart, as those of real
/// multiplexes are, in a few places.
fn hash(identifier: u64) -> u8 {
    (identifier.wrapping_mul(0x9E37_79B9_7F4A_7C15) >> 56) as u8
}

/// Records the index of each entry from this identifier on.
fn note_places<T: Keyed>(hints: &mut [u8; 256], entries: &[T], first: u64) {
    let mut rest = entries;
    while let Some((last, before)) = rest.split_last() {
        let identifier = last.key();
        if identifier < first {
            return;
        }
        hints[usize::from(hash(identifier))] = (before.len() % 64) as u8;
        rest = before;
    }
}

impl EntryTable<OwnedEntry> {
    ghost use Rattle.std.specs.Prelude.{◌≡◌, ◌<◌, ◌+◌, true, false, length, IfSome};
    ghost use Rattle.fib_reader.specs.Listening.{is_known, kept};

    /// Whether this very entry is present, so that keeping it again changes nothing.
    #[inline(always)]
    pub(crate) fn has(&self, entry: &RawEntry<'_>) -> bool
        ensures known { result ≡ true → is_known entry.now self.now ≡ true }
        ensures kept { result ≡ true → kept entry.now self.now ≡ self.now }
    {
        match self.get(entry.identifier()) {
            Some(known) => known.is(entry),
            None => false,
        }
    }

    /// The number of new entries after this one is kept too, if at most `others` of those kept
    /// before were new; None if there may be no room for it.
    pub(crate) fn new_members(&self, others: usize, entry: &RawEntry<'_>) -> Option<usize>
        ensures known { IfSome result (λ all. is_known entry.now self.now ≡ true → all ≡ others) }
        ensures new { IfSome result (λ all. is_known entry.now self.now ≡ false
            → (all ≡ others + 1) × (length self.now + others < 64)) }
    {
        if self.get(entry.identifier()).is_some() {
            return Some(others);
        }
        if others >= 64 - self.len() {
            return None;
        }
        Some(others + 1)
    }
}
