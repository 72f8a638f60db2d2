//! An entry that owns its bytes, as a picture keeps it.

ghost use Rattle.std.specs.Prelude.{◌≡◌, ◌↔◌, IsTrue};

use crate::entries::RawEntry;
use crate::entry_table::TableEntry;
use fib_codec::Extension;
use mux_config::Keyed;
use std::marker::Model;

/// The length of the longest entry: a service with an SId of 32 bits and 15 components.
const LONGEST: usize = 35;

/// An entry that owns its bytes, with the identifier by which it is looked up. Contracts see it as
/// the entry that is sent.
#[derive(Drop)]
pub struct OwnedEntry {
    identifier: u64,
    bytes: [u8; LONGEST],
    len: u8,
    extension: Extension,
    long: bool,
}

impl Model for OwnedEntry {
    ghost use Rattle.std.specs.Prelude.{take, ◌≡◌, ◌≤◌};
    ghost use Rattle.fib_codec.specs.Extensions.{number_of};
    ghost use Rattle.fib_reader.specs.Raw.{Raw, IsRaw};
    ghost use Rattle.fib_reader.specs.Listening.{identifier_of};

    ghost Value = { Raw };

    ghost view = { λ k.
        record { ext = number_of k.extension; long = k.long; bytes = take k.len k.bytes } };

    ghost invariant = { λ k. let raw : Raw =
        record { ext = number_of k.extension; long = k.long; bytes = take k.len k.bytes } in
        (k.len ≤ 35) × IsRaw raw × (k.identifier ≡ identifier_of raw) };
}

impl OwnedEntry {
    /// A copy of an entry.
    pub fn of(entry: &RawEntry<'_>) -> OwnedEntry
        ensures { result ≡ entry.now }
    {
        let given = entry.bytes();
        let mut bytes = [0; LONGEST];
        bytes[..given.len()].copy_from_slice(given);
        OwnedEntry {
            identifier: entry.identifier(),
            bytes,
            len: given.len() as u8,
            extension: entry.extension(),
            long: entry.long(),
        }
    }

    /// Whether it equals this entry.
    pub fn is(&self, entry: &RawEntry<'_>) -> bool
        ensures { IsTrue result ↔ (self.now ≡ entry.now) }
    {
        let given = entry.bytes();
        if usize::from(self.len) != given.len()
            || self.extension != entry.extension()
            || self.long != entry.long()
        {
            return false;
        }
        &self.bytes[..usize::from(self.len)] == given
    }

    /// The entry, borrowed.
    pub fn as_raw_entry(&self) -> RawEntry<'_>
        ensures { result ≡ self.now }
    {
        RawEntry::of(
            self.extension,
            self.long,
            &self.bytes[..usize::from(self.len)],
        )
    }
}

impl Default for OwnedEntry {
    /// A sub-channel in the short form, all zeros. It fills the unused slots of a table.
    fn default() -> OwnedEntry {
        OwnedEntry {
            identifier: 0,
            bytes: [0; LONGEST],
            len: 3,
            extension: Extension::SubChannels,
            long: false,
        }
    }
}

impl Keyed for OwnedEntry {
    ghost use Rattle.fib_reader.specs.Listening.{identifier_of};

    ghost key = { identifier_of };

    fn key(&self) -> u64 {
        self.identifier
    }

    fn copied(&self) -> OwnedEntry {
        OwnedEntry {
            identifier: self.identifier,
            bytes: self.bytes,
            len: self.len,
            extension: self.extension,
            long: self.long,
        }
    }
}

impl TableEntry for OwnedEntry {
    ghost heard = { λ raw at. raw };

    fn heard(entry: &RawEntry<'_>, _at: u64) -> OwnedEntry {
        OwnedEntry::of(entry)
    }
}
