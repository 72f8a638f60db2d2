//! A list of a few values, stored inline, without allocation.

ghost use Rattle.std.specs.Prelude.{◌≡◌, ◌+◌, ◌<◌, ◌≤◌, List, ◌++◌, ◌∷◌, [], ◌↔◌, length, take};
ghost use Rattle.std.specs.Prelude.{IsTrue, option_copied, slice_get, slice_index_or, set};
ghost use Rattle.std.specs.List.{insert, remove};

use crate::sorted_table::Keyed;
use std::marker::Model;

/// A list of at most `CAP` values. Contracts see it as the list.
#[derive(Drop)]
pub struct BoundedVec<T: Drop, const CAP: usize> {
    items: [T; CAP],
    len: usize,
}

impl<T: Drop, const CAP: usize> Model for BoundedVec<T, CAP> {
    ghost use Rattle.std.specs.Prelude.{◌≡◌, ◌≤◌, List, length, take};

    ghost Value = { List T };

    ghost view = { λ f. take f.len f.items };

    ghost invariant = { λ f. (f.len ≤ CAP) × (length f.items ≡ CAP) };
}

impl<T: Default + Drop, const CAP: usize> BoundedVec<T, CAP> {
    /// The empty list.
    pub fn new() -> Self
        ensures { result ≡ [] }
    {
        BoundedVec {
            items: Default::default(),
            len: 0,
        }
    }
}

impl<T: Drop, const CAP: usize> BoundedVec<T, CAP> {
    /// The number of values, at most `CAP`.
    pub fn len(&self) -> usize
        ensures value { result ≡ length self.now }
        ensures bound { result ≤ CAP }
    {
        self.len
    }

    /// Appends a value. The list must have room for it.
    pub fn push(&mut self, value: T)
        requires { length self.old < CAP }
        ensures { self.new ≡ self.old ++ value ∷ [] }
    {
        let len = self.len;
        self.items[len] = value;
        self.len = len + 1;
    }

    /// The values in order.
    pub fn as_slice(&self) -> &[T]
        ensures value { result.now ≡ self.now }
        ensures bound { length result.now ≤ CAP }
    {
        &self.items[..self.len]
    }

    /// The value at an index, from 0.
    pub fn get(&self, place: usize) -> Option<&T>
        ensures { option_copied result ≡ slice_get self.now place }
    {
        self.as_slice().get(place)
    }

    /// Whether it holds `CAP` values.
    pub fn is_full(&self) -> bool
        ensures { IsTrue result ↔ (CAP ≤ length self.now) }
    {
        self.len >= CAP
    }
}

impl<T: Drop, const CAP: usize> BoundedVec<T, CAP> {
    /// Removes every value.
    pub fn clear(&mut self)
        ensures { self.new ≡ [] }
    {
        self.len = 0;
    }

    /// Inserts a value at an index, before the one that is there; the later ones move up. The list
    /// must have room for it.
    pub fn insert(&mut self, place: usize, value: T)
        requires in_bounds { place ≤ length self.old }
        requires room { length self.old < CAP }
        ensures { self.new ≡ insert self.old place value }
    {
        let len = self.len;
        self.items[len] = value;
        self.len = len + 1;
        last_to(&mut self.items[..len + 1], place);
    }

    /// Removes the value at an index; the later ones move down.
    pub fn remove(&mut self, place: usize)
        requires { place < length self.old }
        ensures { self.new ≡ remove self.old place }
    {
        let len = self.len;
        to_last(&mut self.items[..len], place);
        self.len = len - 1;
    }

    /// Replaces the value at an index.
    pub fn set(&mut self, place: usize, value: T)
        requires { place < length self.old }
        ensures { self.new ≡ set self.old place value }
    {
        let len = self.len;
        self.items[..len][place] = value;
    }
}

/// Moves the last value to an index; those from there on move up.
fn last_to<T>(values: &mut [T], place: usize)
    requires { place < length values.old }
    ensures { (front : List T) (last : T) → values.old ≡ front ++ last ∷ []
        → values.new ≡ insert front place last }
{
    values[place..].rotate_right(1);
}

/// Moves the value at an index to the end; those after it move down.
fn to_last<T>(values: &mut [T], place: usize)
    requires { place < length values.old }
    ensures { (d : T) → values.new
        ≡ remove values.old place ++ slice_index_or values.old place d ∷ [] }
{
    values[place..].rotate_left(1);
}

impl<T: Copy + Drop, const CAP: usize> BoundedVec<T, CAP> {
    /// A copy of the list.
    pub fn copied(&self) -> Self
        ensures { result ≡ self.now }
    {
        BoundedVec {
            items: self.items,
            len: self.len,
        }
    }
}

impl<T: Keyed, const CAP: usize> BoundedVec<T, CAP> {
    /// Becomes a copy of another list.
    pub(crate) fn copy_from(&mut self, other: &Self)
        ensures { self.new ≡ other.now }
    {
        copy_in(&mut self.items, other.as_slice());
        self.len = other.len;
    }
}

/// Overwrites the front with copies of values.
fn copy_in<T: Keyed>(places: &mut [T], values: &[T])
    requires { length values.now ≤ length places.old }
    ensures front { take (length values.now) places.new ≡ values.now }
    ensures len { length places.new ≡ length places.old }
{
    for index in 0..values.len() {
        places[index] = values[index].copied();
    }
}
