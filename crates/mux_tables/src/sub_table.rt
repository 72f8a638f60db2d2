//! Sub-channels, indexed by their identifiers.

ghost use Rattle.std.specs.Prelude.{◌≡◌, ◌<◌, ◌↔◌, [], length, None, Some, IsTrue, replicate};
ghost use Rattle.std.specs.Prelude.{slice_get};
ghost use Rattle.mux_config.specs.Configuration.{IsAscending, sub_key};
ghost use Rattle.mux_config.specs.Tables.{entry_at, with_entry, without_entry, with_entry_changed};
ghost use Rattle.mux_tables.specs.Members.{members, InPlace};

use mux_config::{Keyed, SortedTable, Sub, SubId};
use std::marker::Model;

/// The identifier of a sub-channel in the table.
#[derive(Clone, Copy)]
struct ListedId {
    id: SubId,
}

impl Default for ListedId {
    /// SubChId 0, which fills the unused slots of a list.
    fn default() -> Self {
        ListedId {
            id: SubId::default(),
        }
    }
}

impl Keyed for ListedId {
    ghost key = { λ listed. listed.id };

    fn key(&self) -> u64 {
        u64::from(self.id.get())
    }

    fn copied(&self) -> Self {
        *self
    }
}

/// At most 64 sub-channels, each at the index of its SubChId, with their identifiers in ascending
/// order. Contracts see it as the list of the sub-channels in ascending order of SubChId.
#[derive(Drop)]
pub(crate) struct SubTable {
    by_id: [Option<Sub>; 64],
    ids: SortedTable<ListedId, 64>,
}

impl Model for SubTable {
    ghost use Rattle.std.specs.Prelude.{◌≡◌, List, map};
    ghost use Rattle.mux_types.specs.declared.parts.Sub.{Sub};
    ghost use Rattle.mux_config.specs.Configuration.{sub_key};
    ghost use Rattle.mux_tables.specs.Members.{members, InPlace};
    ghost use Rattle.mux_tables.specs.Listed.{listed};

    ghost Value = { List Sub };

    ghost view = { λ t. members t.by_id };

    ghost invariant = { λ t. InPlace sub_key 0 t.by_id × (t.ids ≡ map listed (members t.by_id)) };
}

/// Slots without sub-channels.
fn empty_places() -> [Option<Sub>; 64]
    ensures { result ≡ replicate 64 None }
{
    [None; 64]
}

impl SubTable {
    /// No sub-channels.
    pub(crate) fn new() -> SubTable
        ensures { result ≡ [] }
    {
        SubTable {
            by_id: empty_places(),
            ids: SortedTable::new(),
        }
    }

    /// The number of sub-channels, at most 64.
    pub(crate) fn len(&self) -> usize
        ensures { result ≡ length self.now }
    {
        self.ids.len()
    }

    /// The sub-channel at an index, from 0 in ascending order of SubChId.
    pub(crate) fn item(&self, index: usize) -> Sub
        requires { index < length self.now }
        ensures { slice_get self.now index ≡ Some result }
    {
        let id = self.ids.item(index).id;
        match self.get(id) {
            Some(sub) => sub,
            None => Sub::default(),
        }
    }

    /// The sub-channel with an identifier; None if there is none.
    pub(crate) fn get(&self, id: SubId) -> Option<Sub>
        ensures value { result ≡ entry_at sub_key id self.now }
        ensures ascending { IsAscending sub_key self.now }
    {
        self.by_id[usize::from(id.get())]
    }

    /// Inserts a sub-channel whose identifier is not in use.
    pub(crate) fn insert(&mut self, sub: Sub)
        requires { entry_at sub_key sub.id self.old ≡ None }
        ensures { self.new ≡ with_entry sub_key sub self.old }
    {
        let place = usize::from(sub.id.get());
        self.ids.insert(ListedId { id: sub.id });
        self.by_id[place] = Some(sub);
    }

    /// Replaces the sub-channel with the same identifier; if there is none, nothing changes.
    pub(crate) fn replace(&mut self, sub: Sub)
        ensures { self.new ≡ with_entry_changed sub_key sub self.old }
    {
        match self.get(sub.id) {
            Some(_old) => {
                let place = usize::from(sub.id.get());
                self.by_id[place] = Some(sub);
            }
            None => {}
        }
    }

    /// Removes the sub-channel with an identifier; if there is none, nothing changes.
    pub(crate) fn remove(&mut self, id: SubId)
        ensures { self.new ≡ without_entry sub_key id self.old }
    {
        self.ids.remove(u64::from(id.get()));
        self.by_id[usize::from(id.get())] = None;
    }

    /// Removes every sub-channel.
    pub(crate) fn clear(&mut self)
        ensures { self.new ≡ [] }
    {
        self.by_id = empty_places();
        self.ids.clear();
    }

    /// Becomes a copy of another table.
    pub(crate) fn copy_from(&mut self, other: &SubTable)
        ensures { self.new ≡ other.now }
    {
        self.by_id.copy_from_slice(&other.by_id);
        self.ids.copy_from(&other.ids);
    }

    /// Whether both have the same sub-channels.
    pub(crate) fn same(&self, other: &SubTable) -> bool
        ensures { IsTrue result ↔ (self.now ≡ other.now) }
    {
        has_same_places(&self.by_id, &other.by_id)
    }
}

/// Whether two tables have the same sub-channels.
fn has_same_places(one: &[Option<Sub>; 64], other: &[Option<Sub>; 64]) -> bool
    requires one { InPlace sub_key 0 one.now }
    requires other { InPlace sub_key 0 other.now }
    ensures { IsTrue result ↔ (members one.now ≡ members other.now) }
{
    for place in 0..64 {
        if !is_same_entry(one[place], other[place]) {
            return false;
        }
    }
    true
}

/// Whether two slots have the same sub-channel, or none.
fn is_same_entry(one: Option<Sub>, other: Option<Sub>) -> bool
    ensures { IsTrue result ↔ (one ≡ other) }
{
    one == other
}
