//! A finite set whose members have keys, stored inline in ascending order, without allocation.

ghost use Rattle.std.specs.Prelude.{◌≡◌, ◌<◌, ◌≤◌, ◌++◌, ◌∷◌, [], ◌↔◌, length, Some, None, IfSome};
ghost use Rattle.std.specs.Prelude.{IfNone, IfOk, IfErr, IsTrue, option_copied, slice_get, set};
ghost use Rattle.std.specs.List.{insert, remove, AllByRecursion};
ghost use Rattle.mux_types.specs.Configuration.{IsAscending};
ghost use Rattle.mux_types.specs.Tables.{entry_at, with_entry, without_entry, with_entry_changed};

use crate::bounded_vec::BoundedVec;
use std::marker::Model;

/// A member of a set, identified by its key.
pub trait Keyed: Default + Drop {
    ghost use Rattle.std.specs.Prelude.{ℕ};

    ghost key: { Self → ℕ };

    /// Its key.
    fn key(&self) -> u64
        ensures { result ≡ key self.now };

    /// A copy of it.
    fn copied(&self) -> Self
        ensures { result ≡ self.now };
}

/// A set of at most `CAP` members. Contracts see it as the list of its members in ascending order
/// of their keys.
#[derive(Drop)]
pub struct SortedTable<T: Keyed, const CAP: usize> {
    entries: BoundedVec<T, CAP>,
}

impl<T: Keyed, const CAP: usize> Model for SortedTable<T, CAP> {
    ghost use Rattle.std.specs.Prelude.{List};
    ghost use Rattle.mux_types.specs.Configuration.{IsAscending};

    ghost Value = { List T };

    ghost view = { λ t. t.entries };

    ghost invariant = { λ t. IsAscending T.key t.entries };
}

impl<T: Keyed, const CAP: usize> SortedTable<T, CAP> {
    /// The empty set.
    pub fn new() -> Self
        ensures { result ≡ [] }
    {
        SortedTable {
            entries: BoundedVec::new(),
        }
    }
}

/// The index of the entry with a key, by binary search; or, if there is none, the index at which it
/// would be inserted.
fn search<T: Keyed>(entries: &[T], key: u64) -> Result<usize, usize>
    requires { IsAscending T.key entries.now }
    ensures found { IfOk result (λ place.
        slice_get entries.now place ≡ entry_at T.key key entries.now) }
    ensures in_bounds { IfOk result (λ place. place < length entries.now) }
    ensures removed { IfOk result (λ place.
        remove entries.now place ≡ without_entry T.key key entries.now) }
    ensures changed { IfOk result (λ place. (y : T) → T.key y ≡ key
        → set entries.now place y ≡ with_entry_changed T.key y entries.now) }
    ensures absent { IfErr result (λ place. entry_at T.key key entries.now ≡ None) }
    ensures room { IfErr result (λ place. place ≤ length entries.now) }
    ensures inserted { IfErr result (λ place. (y : T) → T.key y ≡ key
        → insert entries.now place y ≡ with_entry T.key y entries.now) }
{
    let mut low = 0;
    let mut high = entries.len();
    while low < high {
        let middle = low + (high - low) / 2;
        let found = entries[middle].key();
        if found == key {
            return Ok(middle);
        }
        if found < key {
            low = middle + 1;
        } else {
            high = middle;
        }
    }
    Err(low)
}

impl<T: Keyed, const CAP: usize> SortedTable<T, CAP> {
    /// The number of members, at most `CAP`.
    pub fn len(&self) -> usize
        ensures value { result ≡ length self.now }
        ensures bound { result ≤ CAP }
    {
        self.entries.len()
    }

    /// Whether it has `CAP` members.
    pub fn is_full(&self) -> bool
        ensures { IsTrue result ↔ (CAP ≤ length self.now) }
    {
        self.entries.len() >= CAP
    }

    /// The members in ascending order.
    pub fn as_slice(&self) -> &[T]
        ensures value { result.now ≡ self.now }
        ensures bound { length result.now ≤ CAP }
        ensures ascending { IsAscending T.key self.now }
    {
        self.entries.as_slice()
    }

    /// The member at an index, from 0 in ascending order.
    pub fn item(&self, place: usize) -> &T
        requires { place < length self.now }
        ensures { Some result.now ≡ slice_get self.now place }
    {
        &self.entries.as_slice()[place]
    }

    /// The index of the member with a key; None if there is none.
    pub fn place(&self, key: u64) -> Option<usize>
        ensures found { IfSome result (λ place.
            slice_get self.now place ≡ entry_at T.key key self.now) }
        ensures in_bounds { IfSome result (λ place. place < length self.now) }
        ensures absent { IfNone result (entry_at T.key key self.now ≡ None) }
        ensures ascending { IsAscending T.key self.now }
    {
        search(self.entries.as_slice(), key).ok()
    }

    /// The member with a key; None if there is none.
    pub fn get(&self, key: u64) -> Option<&T>
        ensures value { option_copied result ≡ entry_at T.key key self.now }
        ensures ascending { IsAscending T.key self.now }
    {
        let entries = self.entries.as_slice();
        match search(entries, key) {
            Ok(place) => Some(&entries[place]),
            Err(_) => None,
        }
    }

    /// Inserts a member whose key is not in the set; there must be room.
    pub fn insert(&mut self, entry: T)
        requires absent { entry_at T.key (T.key entry) self.old ≡ None }
        requires room { length self.old < CAP }
        ensures { self.new ≡ with_entry T.key entry self.old }
    {
        match search(self.entries.as_slice(), entry.key()) {
            Ok(_taken) => {}
            Err(place) => self.entries.insert(place, entry),
        }
    }

    /// Appends a member whose key is above that of every other; there must be room.
    pub fn append(&mut self, entry: T)
        requires above { AllByRecursion (λ x. T.key x < T.key entry) self.old }
        requires room { length self.old < CAP }
        ensures { self.new ≡ self.old ++ entry ∷ [] }
    {
        self.entries.push(entry);
    }

    /// Replaces the member with the same key; if there is none, nothing changes.
    pub fn replace(&mut self, entry: T)
        ensures { self.new ≡ with_entry_changed T.key entry self.old }
    {
        match search(self.entries.as_slice(), entry.key()) {
            Ok(place) => self.entries.set(place, entry),
            Err(_place) => {}
        }
    }

    /// Removes the member with a key; if there is none, nothing changes.
    pub fn remove(&mut self, key: u64)
        ensures { self.new ≡ without_entry T.key key self.old }
    {
        match search(self.entries.as_slice(), key) {
            Ok(place) => self.entries.remove(place),
            Err(_place) => {}
        }
    }

    /// Removes every member.
    pub fn clear(&mut self)
        ensures { self.new ≡ [] }
    {
        self.entries.clear();
    }

    /// Becomes a copy of another set.
    pub fn copy_from(&mut self, other: &Self)
        ensures { self.new ≡ other.now }
    {
        self.entries.copy_from(&other.entries);
    }
}
