//! FIBs from their data bytes, and the CRC of a FIB, which no command shows.
//!
//! A call with a long contract is in a small function without one, so that no test's proof carries
//! it.

use fib_codec::{crc16, crc16_by_bits};

/// Whether this FIB begins with these bytes.
pub fn begins(fib: &[u8; 32], front: &[u8]) -> bool {
    fib.as_slice().starts_with(front)
}

/// These data bytes, padded with zeros to thirty.
fn filled_of(data: &[u8]) -> [u8; 30] {
    let mut filled = [0u8; 30];
    let mut rest = data.iter();
    for place in &mut filled {
        if let Some(byte) = rest.next() {
            *place = *byte;
        }
    }
    filled
}

/// The CRC of these data bytes, as it is sent.
fn crc_of(filled: &[u8; 30]) -> [u8; 2] {
    crc16(filled).to_be_bytes()
}

/// The FIB with these data bytes, padded with zeros to thirty, and its CRC.
pub fn fib_of(data: &[u8]) -> [u8; 32] {
    let filled = filled_of(data);
    let crc = crc_of(&filled);
    let mut fib = [0u8; 32];
    let (body, last) = fib.split_at_mut(30);
    body.copy_from_slice(&filled);
    last.copy_from_slice(&crc);
    fib
}

#[test]
fn check_word_of_the_ascii_digits(rt: HostRuntime) {
    assert_eq!(rt; crc16(b"123456789"), 0xd64e);
    assert_eq!(rt; crc16_by_bits(b"123456789"), 0xd64e);
}
