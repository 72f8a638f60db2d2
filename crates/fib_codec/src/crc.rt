//! The CRC of a FIB, bit by bit, and by tables six bytes at a time (EN 300 401 clause 5.2.1).

ghost use Rattle.std.specs.Prelude.{◌≡◌, ◌↔◌, [], ◌∷◌, IsTrue};
ghost use Rattle.fib_codec.specs.Crc.{low_bits, check_bits, IsChecked};
ghost use Rattle.fib_codec.specs.Register.{next, after, after_all};

use crate::crc_tables::{slice_0, slice_1, slice_2, slice_3, slice_4, slice_5};

/// The register after one bit of the message.
fn step(register: u16, bit: u8) -> u16
    ensures { result ≡ next register bit }
{
    let moved = register << 1;
    let top = (register >> 15) as u8;
    if top == bit { moved } else { moved ^ 0x1021 }
}

/// The register after one byte of the message, bit by bit.
fn byte_step_by_bits(mut register: u16, byte: u8) -> u16
    ensures { result ≡ after 8 byte register }
{
    for index in 0u8..8 {
        register = step(register, (byte >> (7 - index)) & 1);
    }
    register
}

/// The CRC of these bytes as it is sent, complemented: the same number as `crc16`, computed bit by
/// bit.
pub fn crc16_by_bits(bytes: &[u8]) -> u16
    ensures { low_bits 16 result ≡ check_bits bytes.now }
{
    let mut register = 0xffffu16;
    for byte in bytes {
        register = byte_step_by_bits(register, *byte);
    }
    register ^ 0xffff
}

/// The register after one byte of the message.
fn byte_step(register: u16, byte: u8) -> u16
    ensures { result ≡ after 8 byte register }
{
    let top = (register >> 8) as u8;
    (register << 8) ^ slice_0(top ^ byte)
}

/// The register after these bytes of the message, byte by byte.
fn bytes_step(mut register: u16, bytes: &[u8]) -> u16
    ensures { result ≡ after_all bytes.now register }
{
    for byte in bytes {
        register = byte_step(register, *byte);
    }
    register
}

/// The register after six bytes of the message. A FIB has thirty data bytes: five such steps, and
/// nothing left over.
fn six_step(register: u16, a: u8, b: u8, c: u8, d: u8, e: u8, f: u8) -> u16
    ensures { result ≡ after_all (a ∷ b ∷ c ∷ d ∷ e ∷ f ∷ []) register }
{
    let top = (register >> 8) as u8;
    let low = (register % 256) as u8;
    // the part that does not depend on the register comes first
    let behind = slice_0(f) ^ (slice_1(e) ^ (slice_2(d) ^ slice_3(c)));
    behind ^ (slice_4(low ^ b) ^ slice_5(top ^ a))
}

/// The CRC of these bytes as it is sent: the remainder of the long division by
/// x^16 + x^12 + x^5 + 1, complemented.
pub fn crc16(bytes: &[u8]) -> u16
    ensures { low_bits 16 result ≡ check_bits bytes.now }
{
    let mut register = 0xffffu16;
    let mut rest = bytes;
    while rest.len() >= 6 {
        register = six_step(
            register, rest[0], rest[1], rest[2], rest[3], rest[4], rest[5],
        );
        let (_, behind) = rest.split_at(6);
        rest = behind;
    }
    bytes_step(register, rest) ^ 0xffff
}

/// Whether the last two of these 32 bytes are the CRC of the others.
pub fn is_checked(fib: &[u8; 32]) -> bool
    ensures { IsTrue result ↔ IsChecked fib.now }
{
    let crc = crc16(&fib[..30]);
    crc == u16::from(fib[30]) * 256 + u16::from(fib[31])
}
