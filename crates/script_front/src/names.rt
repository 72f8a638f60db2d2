//! The names of defined blocks.

ghost use Rattle.std.specs.Prelude.{◌≡◌, ◌≢◌, ℕ, ◌<◌, ◌++◌, ◌∷◌, [], length, slice_get, Some};
ghost use Rattle.std.specs.Prelude.{IfSome, OnOk, List, option_map, position};
ghost use Rattle.std.specs.Str.{bytes_eq};

use indexmap::IndexSet;
use std::alloc::{AllocError, Global};
use std::marker::Model;

/// Different names, in the order in which they were added.
#[derive(Drop)]
pub struct Names {
    set: IndexSet<String>,
}

impl Model for Names {
    ghost use Rattle.std.specs.Prelude.{List, ℕ, map, string_bytes};

    ghost Value = { List (List ℕ) };

    ghost view = { λ n. map string_bytes n.set.keys };
}

impl Names {
    /// No names.
    pub fn new(alloc: Global) -> Names
        ensures { result ≡ [] }
    {
        Names {
            set: IndexSet::new(alloc),
        }
    }

    /// The number of names.
    pub fn len(&self) -> usize
        ensures { result ≡ length self.now }
    {
        self.set.len()
    }

    /// The index of this name; None if it is not among the names.
    pub fn find(&self, name: &str) -> Option<usize>
        ensures is { result ≡ position (bytes_eq name.now) self.now }
        ensures within { IfSome result (λ i. i < length self.now) }
        ensures found { IfSome result (λ i. slice_get self.now i ≡ Some name.now) }
        ensures none { result ≡ None → (i : ℕ) → slice_get self.now i ≢ Some name.now }
    {
        self.set.get_index_of(name)
    }

    /// The name at this index; None past the last one.
    pub fn get(&self, index: usize) -> Option<&str>
        ensures { option_map (λ s. s.now) result ≡ slice_get self.now index }
    {
        match self.set.get_index(index) {
            Some(name) => Some(name.as_str()),
            None => None,
        }
    }

    /// Appends a name, which must not be among the names.
    ///
    /// # Errors
    ///
    /// If memory runs out.
    pub fn add(&mut self, alloc: Global, name: &str) -> Result<(), AllocError>
        requires { (i : ℕ) → slice_get self.old i ≢ Some name.now }
        ensures { OnOk result (self.new ≡ self.old ++ name.now ∷ []) }
    {
        self.set.insert(String::from_str(alloc, name)?)?;
        Ok(())
    }
}
