//! Reads single bytes and big-endian numbers from the bytes of an entry.

ghost use Rattle.std.specs.Prelude.{◌≡◌, ◌+◌, ◌*◌, ◌<◌, get_or};

/// The byte at an offset, or 0 past the end.
pub fn byte_at(bytes: &[u8], offset: usize) -> u8
    ensures { result ≡ get_or bytes.now offset 0 }
{
    match bytes.get(offset) {
        Some(byte) => *byte,
        None => 0,
    }
}

/// The number with these two bytes.
pub(crate) fn u16_of(high: u8, low: u8) -> u16
    ensures { result ≡ high * 256 + low }
{
    u16::from_be_bytes([high, low])
}

/// The big-endian number in the two bytes at an offset; a byte past the end is 0.
pub(crate) fn u16_at(bytes: &[u8], offset: usize) -> u16
    requires { offset < 8 }
    ensures { result ≡ get_or bytes.now offset 0 * 256 + get_or bytes.now (offset + 1) 0 }
{
    u16_of(byte_at(bytes, offset), byte_at(bytes, offset + 1))
}

/// The number with these two halves of 16 bits.
pub(crate) fn u32_of(high: u16, low: u16) -> u32
    ensures { result ≡ high * 65536 + low }
{
    (u32::from(high) << u16::BITS) | u32::from(low)
}
