//! The entries of a FIG, borrowed from its bytes.

ghost use Rattle.std.specs.Prelude.{◌≡◌, ◌==◌, ◌<◌, ◌≤◌, [], ◌∷◌, List, length, MatchOption};
ghost use Rattle.fib_codec.specs.Extensions.{number_of};
ghost use Rattle.fib_reader.specs.Walk.{entries_of};

use crate::bytes::entry_len_of;
use fib_codec::{Extension, fig0_0, fig0_1, fig0_2, fig0_3};
use mux_config::{Ensemble, Entry};
use std::marker::Model;

/// The number of 16-bit SIds; the 32-bit ones come after them.
const SHORT_SIDS: u64 = 1 << 16;

/// An entry of FIG 0/0 to 0/3 as it is sent. It borrows its bytes.
#[derive(Drop)]
pub struct RawEntry<'a> {
    extension: Extension,
    long: bool,
    bytes: &'a [u8],
}

impl<'a> Model for RawEntry<'a> {
    ghost use Rattle.fib_codec.specs.Extensions.{number_of};
    ghost use Rattle.fib_reader.specs.Raw.{Raw, IsRaw};

    ghost Value = { Raw };

    ghost view = { λ r.
        record { ext = number_of r.extension; long = r.long; bytes = r.bytes.now } };

    ghost invariant = { λ r.
        IsRaw (record { ext = number_of r.extension; long = r.long; bytes = r.bytes.now }) };
}

impl<'a> RawEntry<'a> {
    ghost use Rattle.std.specs.Prelude.{◌≡◌, ◌==◌, ◌<◌, ◌≤◌, length};
    ghost use Rattle.fib_codec.specs.Extensions.{number_of};
    ghost use Rattle.fib_reader.specs.Raw.{IsRaw, IsValue, ensemble_in};
    ghost use Rattle.fib_reader.specs.Listening.{identifier_of};

    /// The entry with these bytes, which must be whole.
    pub(crate) fn of(extension: Extension, long: bool, bytes: &'a [u8]) -> Self
        requires { IsRaw (record { ext = number_of extension; long = long; bytes = bytes.now }) }
        ensures { result ≡ record { ext = number_of extension; long = long; bytes = bytes.now } }
    {
        RawEntry {
            extension,
            long,
            bytes,
        }
    }

    /// Distinguishes it from other entries of its extension: the EId of ensemble information, the
    /// SubChId in both forms of FIG 0/1, the SId with all short ones before the long ones, the SCId
    /// (EN 300 401 clauses 6.4, 6.2.1, 6.3.1 and 6.3.2).
    pub fn identifier(&self) -> u64
        ensures value { result ≡ identifier_of self.now }
        ensures sub { self.now.ext ≡ 1 → result < 64 }
        ensures in_range { self.now.ext < 4 }
    {
        match self.extension {
            Extension::Ensemble => u64::from(fig0_0::eid_at(self.bytes)),
            Extension::SubChannels => u64::from(fig0_1::sub_id_at(self.bytes)),
            Extension::Services => {
                if self.long {
                    SHORT_SIDS + u64::from(fig0_2::long_sid_at(self.bytes))
                } else {
                    u64::from(fig0_2::short_sid_at(self.bytes))
                }
            }
            Extension::Packets => u64::from(fig0_3::scid_at(self.bytes)),
        }
    }

    /// Its bytes, as they are in the FIB.
    pub fn bytes(&self) -> &'a [u8]
        ensures value { result.now ≡ self.now.bytes }
        ensures short { length result.now ≤ 35 }
        ensures whole { IsRaw self.now }
    {
        self.bytes
    }

    /// The extension of its FIG.
    pub fn extension(&self) -> Extension
        ensures value { number_of result ≡ self.now.ext }
        ensures in_range { self.now.ext < 4 }
    {
        self.extension
    }

    /// The number of its FIG's extension, 0 to 3.
    pub fn ext(&self) -> u8
        ensures value { result ≡ self.now.ext }
        ensures in_range { result < 4 }
    {
        self.extension.number()
    }

    /// Whether it is ensemble information (FIG 0/0); any other entry belongs to a configuration.
    pub fn is_ensemble(&self) -> bool
        ensures value { result ≡ (self.now.ext == 0) }
        ensures in_range { self.now.ext < 4 }
    {
        match self.extension {
            Extension::Ensemble => true,
            Extension::SubChannels | Extension::Services | Extension::Packets => false,
        }
    }

    /// Whether it has an SId of 32 bits: the P/D flag of its FIG in FIG 0/2, and false in the
    /// others.
    pub fn long(&self) -> bool
        ensures { result ≡ self.now.long }
    {
        self.long
    }

    /// The ensemble information in an entry of FIG 0/0 (EN 300 401 clause 6.4).
    pub fn ensemble(&self) -> Ensemble
        requires { self.now.ext ≡ 0 }
        ensures { result ≡ ensemble_in self.now }
    {
        fig0_0::decode(self.bytes)
    }

    /// Its decoded value (EN 300 401 clauses 6.2.1, 6.3.1, 6.3.2 and 6.4).
    // (an entry is large: inlined, most of it need not go through memory when it is taken apart at
    // once)
    #[inline(always)]
    pub fn value(&self) -> Entry
        ensures { IsValue self.now result }
    {
        match self.extension {
            Extension::Ensemble => Entry::Ensemble(fig0_0::decode(self.bytes)),
            Extension::SubChannels => {
                if fig0_1::is_long_form(self.bytes) {
                    Entry::Sub(fig0_1::decode_long(self.bytes))
                } else {
                    Entry::Short(fig0_1::decode_short(self.bytes))
                }
            }
            Extension::Services => Entry::Service(fig0_2::decode(self.long, self.bytes)),
            Extension::Packets => Entry::Packet(fig0_3::decode(self.bytes)),
        }
    }
}

/// The bytes of the first entry, and the rest; None if there are none.
fn split_entry(extension: Extension, long: bool, bytes: &[u8]) -> Option<(&[u8], &[u8])>
    ensures { MatchOption result (entries_of (number_of extension) long bytes.now ≡ [])
        (λ x. entries_of (number_of extension) long bytes.now
        ≡ x.0.now ∷ entries_of (number_of extension) long x.1.now) }
{
    if bytes.is_empty() {
        return None;
    }
    let len = entry_len_of(extension, long, bytes).min(bytes.len());
    Some(bytes.split_at(len))
}

/// Whether entries of this extension have SIds, whose length the P/D flag of their FIG gives (EN
/// 300 401 clause 6.3.1).
fn has_sids(extension: Extension) -> bool
    ensures { result ≡ (number_of extension == 2) }
{
    match extension {
        Extension::Services => true,
        Extension::Ensemble | Extension::SubChannels | Extension::Packets => false,
    }
}

/// The entries of one FIG in order.
#[derive(Drop)]
pub struct Entries<'a> {
    extension: Extension,
    long: bool,
    rest: &'a [u8],
}

impl<'a> Model for Entries<'a> {
    ghost use Rattle.std.specs.Prelude.{List};
    ghost use Rattle.fib_codec.specs.Extensions.{number_of};
    ghost use Rattle.fib_reader.specs.Raw.{Raw};
    ghost use Rattle.fib_reader.specs.Walk.{raws_of, AreRaw};

    ghost Value = { List Raw };

    ghost view = { λ s. raws_of (number_of s.extension) s.long s.rest.now };

    ghost invariant = { λ s. AreRaw (raws_of (number_of s.extension) s.long s.rest.now) };
}

impl<'a> Iterator for Entries<'a> {
    ghost use Rattle.std.specs.Iterator.{YieldsFirstBy, item_count};

    type Item = RawEntry<'a>;

    ghost next_gives = { YieldsFirstBy (λ e. e) (λ s. s) };

    ghost remaining = { item_count (λ s. s) };

    fn next(&mut self) -> Option<RawEntry<'a>> {
        let (bytes, rest) = split_entry(self.extension, self.long, self.rest)?;
        self.rest = rest;
        Some(RawEntry {
            extension: self.extension,
            long: has_sids(self.extension) && self.long,
            bytes,
        })
    }
}

impl<'a> Entries<'a> {
    ghost use Rattle.std.specs.Prelude.{◌≡◌, []};
    ghost use Rattle.fib_codec.specs.Extensions.{number_of};
    ghost use Rattle.fib_reader.specs.Walk.{raws_of, AreRaw};

    /// The entries that follow the second byte of a FIG with this extension and P/D flag.
    pub(crate) fn under(extension: Extension, long: bool, body: &'a [u8]) -> Self
        requires { AreRaw (raws_of (number_of extension) long body.now) }
        ensures { result ≡ raws_of (number_of extension) long body.now }
    {
        Entries {
            extension,
            long,
            rest: body,
        }
    }

    /// No entries.
    pub(crate) fn none() -> Self
        ensures { result ≡ [] }
    {
        Entries {
            extension: Extension::Ensemble,
            long: false,
            rest: &[],
        }
    }
}
