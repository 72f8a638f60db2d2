//! The extensions of FIG type 0 that are parsed: FIG 0/0 to 0/3.

ghost use Rattle.std.specs.Prelude.{◌≡◌, ◌<◌, ◌≤◌, IfSome, IfNone};
ghost use Rattle.fib_codec.specs.Extensions.{number_of};
ghost use Rattle.fib_codec.specs.Spelling.{ext_of};

use mux_types::Entry;

/// An extension of FIG type 0 that is parsed. FIGs with extensions 4 to 31 are skipped.
#[derive(Clone, Copy, Debug, PartialEq, Eq)]
pub enum Extension {
    /// FIG 0/0, ensemble information (EN 300 401 clause 6.4).
    Ensemble,
    /// FIG 0/1, sub-channels (EN 300 401 clause 6.2.1).
    SubChannels,
    /// FIG 0/2, services and their components (EN 300 401 clause 6.3.1).
    Services,
    /// FIG 0/3, packet components (EN 300 401 clause 6.3.2).
    Packets,
}

impl Extension {
    /// The extension with this number; None from 4 on, for those that are not parsed.
    pub fn from_number(number: u8) -> Option<Extension>
        ensures value { IfSome result (λ e. number_of e ≡ number) }
        ensures other { IfNone result (4 ≤ number) }
    {
        match number {
            0 => Some(Extension::Ensemble),
            1 => Some(Extension::SubChannels),
            2 => Some(Extension::Services),
            3 => Some(Extension::Packets),
            _ => None,
        }
    }

    /// The extension of the FIGs in which this entry is sent.
    pub fn of(entry: &Entry) -> Extension
        ensures { number_of result ≡ ext_of entry.now }
    {
        match entry {
            Entry::Ensemble(_) => Extension::Ensemble,
            Entry::Sub(_) | Entry::Short(_) => Extension::SubChannels,
            Entry::Service(_) => Extension::Services,
            Entry::Packet(_) => Extension::Packets,
        }
    }

    /// Its number, 0 to 3, as in the head of its FIGs.
    pub fn number(self) -> u8
        ensures value { result ≡ number_of self }
        ensures in_range { result < 4 }
    {
        match self {
            Extension::Ensemble => 0,
            Extension::SubChannels => 1,
            Extension::Services => 2,
            Extension::Packets => 3,
        }
    }
}
