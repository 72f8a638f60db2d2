//! The length of the entry at the front of some bytes.

ghost use Rattle.std.specs.Prelude.{◌≡◌};
ghost use Rattle.fib_codec.specs.Extensions.{number_of};
ghost use Rattle.fib_codec.specs.Grammar.{entry_len};

use fib_codec::{Extension, fig0_0, fig0_1, fig0_2, fig0_3};

/// The length of the entry at the front of `bytes`, in this extension and with this P/D flag,
/// computed from the bytes that determine it. It exceeds the number of bytes if one of these is
/// missing.
pub(crate) fn entry_len_of(extension: Extension, long: bool, bytes: &[u8]) -> usize
    ensures { result ≡ entry_len (number_of extension) long bytes.now }
{
    match extension {
        Extension::Ensemble => fig0_0::len_at(bytes),
        Extension::SubChannels => fig0_1::len_at(bytes),
        Extension::Services => fig0_2::len_at(long, bytes),
        Extension::Packets => fig0_3::len_at(bytes),
    }
}
