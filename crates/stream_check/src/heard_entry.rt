//! An entry with the time when it was last heard.

ghost use Rattle.std.specs.Prelude.{◌≡◌};
ghost use Rattle.stream_check.specs.Lookup.{agree};

use fib_reader::{OwnedEntry, RawEntry, TableEntry};
use mux_config::Keyed;
use std::marker::Model;

/// An entry, and the time when it was last heard. In contracts it is the entry as sent, and that
/// number.
#[derive(Drop)]
pub struct HeardEntry {
    entry: OwnedEntry,
    at: u64,
}

impl Model for HeardEntry {
    ghost use Rattle.stream_check.specs.Pictures.{Heard};

    ghost Value = { Heard };

    ghost view = { λ h. record { raw = h.entry; at = h.at } };
}

impl HeardEntry {
    /// The time when it was last heard.
    pub(crate) fn at(&self) -> u64
        ensures { result ≡ self.now.at }
    {
        self.at
    }

    /// Whether it is the same entry.
    #[tactic(auto, using(crate::proofs::Agreeing::agree_where))]
    pub(crate) fn is(&self, entry: &RawEntry<'_>) -> bool
        ensures { result ≡ agree self.now.raw entry.now }
    {
        self.entry.is(entry)
    }

    /// The entry, borrowed.
    pub(crate) fn as_raw_entry(&self) -> RawEntry<'_>
        ensures { result ≡ self.now.raw }
    {
        self.entry.as_raw_entry()
    }
}

impl Default for HeardEntry {
    /// A sub-channel in the short form, all zeros, never heard. It fills the unused slots of a
    /// table.
    fn default() -> HeardEntry {
        HeardEntry {
            entry: OwnedEntry::default(),
            at: 0,
        }
    }
}

impl Keyed for HeardEntry {
    ghost use Rattle.stream_check.specs.Pictures.{heard_key};

    ghost key = { heard_key };

    fn key(&self) -> u64 {
        self.entry.key()
    }

    fn copied(&self) -> HeardEntry {
        HeardEntry {
            entry: self.entry.copied(),
            at: self.at,
        }
    }
}

impl TableEntry for HeardEntry {
    ghost heard = { λ raw at. record { raw = raw; at = at } };

    fn heard(entry: &RawEntry<'_>, at: u64) -> HeardEntry {
        HeardEntry {
            entry: OwnedEntry::of(entry),
            at,
        }
    }
}
