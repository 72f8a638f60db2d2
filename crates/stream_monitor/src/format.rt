//! Streams that are none of FIBs, but carry them, by their first bytes.

ghost use Rattle.std.specs.Prelude.{◌≡◌, ◌≤◌, get_or};
ghost use Rattle.stream_monitor.specs.Formats.{are_at, is_sync, is_eti, is_edi, is_other};
ghost use Rattle.stream_monitor.specs.Formats.{format_of};

use std::fmt::{self, Display, Formatter};

/// What a stream is that carries FIBs among other bytes.
#[derive(Clone, Copy, Debug, PartialEq, Eq)]
pub enum Format {
    /// ETI, NI or LI, raw, streamed or framed (ETS 300 799).
    Eti,
    /// EDI: AF packets, or fragments of them (ETSI TS 102 693).
    Edi,
}

impl Display for Format {
    fn fmt<W: fmt::Write>(&self, f: &mut Formatter<W>) -> fmt::Result {
        f.write_str(match self {
            Format::Eti => "ETI",
            Format::Edi => "EDI",
        })
    }
}

/// What a stream of these first bytes is; `None` if it is not known. The first ten bytes decide.
pub fn format_of(bytes: &[u8]) -> Option<Format>
    ensures { result ≡ format_of bytes.now }
{
    if is_eti(bytes) {
        Some(Format::Eti)
    } else if is_edi(bytes) {
        Some(Format::Edi)
    } else {
        None
    }
}

/// Whether a stream of these first bytes is known to be none of FIBs. The first ten bytes decide.
pub fn is_other(bytes: &[u8]) -> bool
    ensures { result ≡ is_other bytes.now }
{
    is_eti(bytes) || is_edi(bytes)
}

/// Whether the bytes begin a frame of ETI: FSYNC is behind one byte of a raw frame, behind three of
/// a streamed one, and behind seven of a framed one.
fn is_eti(bytes: &[u8]) -> bool
    ensures { result ≡ is_eti bytes.now }
{
    is_sync(bytes, 1) || is_sync(bytes, 3) || is_sync(bytes, 7)
}

/// Whether FSYNC stands at this place: its bytes, or in every other frame these inverted.
fn is_sync(bytes: &[u8], place: usize) -> bool
    requires near { place ≤ 7 }
    ensures { result ≡ is_sync bytes.now place }
{
    are_at(bytes, place, 0x07, 0x3A, 0xB6) || are_at(bytes, place, 0xF8, 0xC5, 0x49)
}

/// Whether the bytes begin an AF packet of EDI, or a fragment of one.
fn is_edi(bytes: &[u8]) -> bool
    ensures { result ≡ is_edi bytes.now }
{
    let third = byte_at(bytes, 2);
    let is_packet = are_at(bytes, 0, b'A', b'F', third) && byte_at(bytes, 9) == b'T';
    let is_fragment = are_at(bytes, 0, b'P', b'F', third)
        && byte_at(bytes, 4) == 0
        && byte_at(bytes, 7) == 0;
    is_packet || is_fragment
}

/// Whether these three bytes stand at this place.
fn are_at(bytes: &[u8], place: usize, one: u8, two: u8, three: u8) -> bool
    requires near { place ≤ 7 }
    ensures { result ≡ are_at bytes.now place one two three }
{
    byte_at(bytes, place) == one
        && byte_at(bytes, place + 1) == two
        && byte_at(bytes, place + 2) == three
}

/// The byte at a place; 0 behind the last one.
fn byte_at(bytes: &[u8], place: usize) -> u8
    ensures { result ≡ get_or bytes.now place 0 }
{
    match bytes.get(place) {
        Some(byte) => *byte,
        None => 0,
    }
}
