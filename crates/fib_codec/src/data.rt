//! The data bytes of a FIB that is being written.

ghost use Rattle.std.specs.Prelude.{◌≡◌, ◌+◌, ◌<◌, ◌≤◌, ◌++◌, ◌∷◌, [], length, take};
ghost use Rattle.std.specs.Prelude.{slice_index_or, slice_set};
ghost use Rattle.byteorder.specs.Endian.{big_bytes};
ghost use Rattle.fib_codec.specs.Spelling.{filled, checked};

use crate::crc::crc16;
use byteorder::{BigEndian, ByteOrder};
use std::marker::Model;

/// The data bytes of a FIB written so far, at most 30. Contracts see them as a list. They are kept
/// in the 32 bytes of the FIB, followed by the end marker and zeros.
#[derive(Drop)]
pub(crate) struct Data {
    bytes: [u8; 32],
    len: usize,
}

impl Model for Data {
    ghost use Rattle.std.specs.Prelude.{List, ℕ, take};
    ghost use Rattle.fib_codec.specs.Begun.{IsBegun};

    ghost Value = { List ℕ };

    ghost view = { λ d. take d.len d.bytes };

    ghost invariant = { λ d. IsBegun d.len d.bytes };
}

/// The FIB with these bytes, the last two replaced by the CRC of the others.
fn with_crc(mut bytes: [u8; 32]) -> [u8; 32]
    requires { length bytes ≡ 32 }
    ensures { result ≡ checked (take 30 bytes) }
{
    let crc = crc16(&bytes[..30]);
    BigEndian::write_u16(&mut bytes[30..], crc);
    bytes
}

impl Data {
    /// No data bytes.
    pub(crate) fn new() -> Data
        ensures { result ≡ [] }
    {
        let mut bytes = [0; 32];
        bytes[0] = 0xff;
        Data { bytes, len: 0 }
    }

    /// The number of data bytes.
    pub(crate) fn len(&self) -> usize
        ensures value { result ≡ length self.now }
        ensures bound { result ≤ 30 }
    {
        self.len
    }

    /// The bytes in order.
    pub(crate) fn as_slice(&self) -> &[u8]
        ensures value { result.now ≡ self.now }
        ensures bound { length self.now ≤ 30 }
    {
        &self.bytes[..self.len]
    }

    /// Appends a byte, for which there is room.
    pub(crate) fn push(&mut self, byte: u8)
        requires { length self.old < 30 }
        ensures { self.new ≡ self.old ++ byte ∷ [] }
    {
        let at = self.len;
        self.bytes[at] = byte;
        self.bytes[at + 1] = 0xff;
        self.len = at + 1;
    }

    /// Appends two bytes, for which there is room.
    pub(crate) fn push_two(&mut self, first: u8, second: u8)
        requires { length self.old < 29 }
        ensures { self.new ≡ self.old ++ first ∷ second ∷ [] }
    {
        let at = self.len;
        self.bytes[at] = first;
        self.bytes[at + 1] = second;
        self.bytes[at + 2] = 0xff;
        self.len = at + 2;
    }

    /// Appends a 16-bit number, high byte first.
    pub(crate) fn push_u16(&mut self, number: u16)
        requires { length self.old + 2 ≤ 30 }
        ensures { self.new ≡ self.old ++ big_bytes 2 number }
    {
        let mut bytes = [0u8; 2];
        BigEndian::write_u16(&mut bytes, number);
        self.push_two(bytes[0], bytes[1]);
    }

    /// Appends a 32-bit number, high byte first.
    pub(crate) fn push_u32(&mut self, number: u32)
        requires { length self.old + 4 ≤ 30 }
        ensures { self.new ≡ self.old ++ big_bytes 4 number }
    {
        let mut bytes = [0u8; 4];
        BigEndian::write_u32(&mut bytes, number);
        self.push_two(bytes[0], bytes[1]);
        self.push_two(bytes[2], bytes[3]);
    }

    /// Adds to the byte at an offset.
    pub(crate) fn add_at(&mut self, offset: usize, more: u8)
        requires offset { offset < length self.old }
        requires fits { slice_index_or self.old offset 0 + more ≤ 255 }
        ensures { self.new
            ≡ slice_set self.old offset (slice_index_or self.old offset 0 + more) }
    {
        self.bytes[offset] += more;
    }

    /// The 32 bytes of the FIB, of which the last two are not its CRC yet.
    pub(crate) fn row(&self) -> &[u8; 32]
        ensures filled { take 30 result.now ≡ filled self.now }
        ensures whole { length result.now ≡ 32 }
        ensures bound { length self.now ≤ 30 }
    {
        &self.bytes
    }

    /// The FIB with these data bytes, padded to thirty.
    pub(crate) fn finish(self) -> [u8; 32]
        ensures value { result ≡ checked (filled self) }
        ensures bound { length self ≤ 30 }
    {
        with_crc(self.bytes)
    }
}
