//! Converts lists of entries into sets of members of a configuration.

ghost use Rattle.std.specs.Prelude.{◌≡◌, ◌≤◌, IfSome, IfNone, List, map, length};
ghost use Rattle.mux_config.specs.Configuration.{IsAscending};
ghost use Rattle.std.specs.List.{AllByRecursion};
ghost use Rattle.fib_reader.specs.Raw.{raw_entry};
ghost use Rattle.fib_reader.specs.Listening.{identifier_of};

use crate::from_entry::{packet_from_entry, service_from_entry, sub_from_entry};
use crate::owned_entry::OwnedEntry;
use mux_config::{Entry, Keyed, Packet, Service, SortedTable, Sub};

/// A member of a configuration that an entry can describe: a sub-channel, a service or a packet
/// component.
pub(crate) trait FromEntry: Keyed {
    ghost use Rattle.std.specs.Prelude.{◌≡◌, IfSome, IfNone};
    ghost use Rattle.mux_types.specs.declared.entry.Entry.{Entry};
    ghost use Rattle.fib_codec.specs.Ranges.{IsWithin};
    ghost use Rattle.fib_reader.specs.Raw.{raw_entry};
    ghost use Rattle.fib_reader.specs.Listening.{identifier_of};

    /// The entry that describes it.
    ghost entry_of: { Self → Entry };

    /// It may be a member of a configuration.
    ghost is_member: { Self → Type 0 };

    /// The member that an entry describes; None if it describes none.
    fn from_entry(entry: &Entry) -> Option<Self>
        requires { IsWithin entry.now }
        ensures member { IfSome result is_member }
        ensures value { IfSome result (λ x. entry_of x ≡ entry.now) }
        ensures none { IfNone result ((x : Self) → is_member x → entry_of x ≡ entry.now → ⊥) };

    /// The law of every member's entry: its fields are within their bits, and its identifier is the
    /// member's key. The function does nothing; its contract is the law.
    fn laws()
        ensures within { (x : Self) → is_member x → IsWithin (entry_of x) }
        ensures identified { (x : Self) → is_member x
            → identifier_of (raw_entry (entry_of x)) ≡ Self.key x };
}

impl FromEntry for Sub {
    ghost use Rattle.mux_config.specs.Configuration.{IsPlaced};
    ghost use Rattle.mux_types.specs.Facts.{sub_entry};

    ghost entry_of = { sub_entry };

    ghost is_member = { IsPlaced };

    fn from_entry(entry: &Entry) -> Option<Sub> {
        match entry {
            Entry::Sub(entry) => sub_from_entry(entry),
            Entry::Ensemble(_) | Entry::Short(_) | Entry::Service(_) | Entry::Packet(_) => None,
        }
    }

    fn laws() {}
}

impl FromEntry for Service {
    ghost use Rattle.mux_config.specs.Configuration.{IsService};
    ghost use Rattle.mux_types.specs.Facts.{service_entry};

    ghost entry_of = { service_entry };

    ghost is_member = { IsService };

    fn from_entry(entry: &Entry) -> Option<Service> {
        match entry {
            Entry::Service(entry) => service_from_entry(entry),
            Entry::Ensemble(_) | Entry::Sub(_) | Entry::Short(_) | Entry::Packet(_) => None,
        }
    }

    fn laws() {}
}

impl FromEntry for Packet {
    ghost use Rattle.mux_config.specs.Configuration.{IsAddressed};
    ghost use Rattle.mux_types.specs.Facts.{packet_entry};

    ghost entry_of = { packet_entry };

    ghost is_member = { IsAddressed };

    fn from_entry(entry: &Entry) -> Option<Packet> {
        match entry {
            Entry::Packet(entry) => packet_from_entry(entry),
            Entry::Ensemble(_) | Entry::Sub(_) | Entry::Short(_) | Entry::Service(_) => None,
        }
    }

    fn laws() {}
}

/// The set of members that entries in ascending order describe; None if one of them describes none.
pub(crate) fn members<T: FromEntry>(kept: &[OwnedEntry]) -> Option<SortedTable<T, 64>>
    requires ascending { IsAscending identifier_of kept.now }
    requires few { length kept.now ≤ 64 }
    ensures said { IfSome result (λ xs. map (λ x. raw_entry (T.entry_of x)) xs ≡ kept.now) }
    ensures members { IfSome result (AllByRecursion T.is_member) }
    ensures none { IfNone result ((xs : List T) → AllByRecursion T.is_member xs
        → map (λ x. raw_entry (T.entry_of x)) xs ≡ kept.now → ⊥) }
{
    fib_codec::laws::spelling();
    T::laws();
    let mut table = SortedTable::new();
    for entry in kept {
        let Some(member) = T::from_entry(&entry.as_raw_entry().value()) else {
            return None;
        };
        table.append(member);
    }
    Some(table)
}
