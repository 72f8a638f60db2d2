//! The end of a FIB: the end marker, zeros and the CRC (EN 300 401 clause 5.2.1).

ghost use Rattle.std.specs.Prelude.{◌≡◌, ◌+◌, ◌≤◌, ◌++◌, length, take, drop};
ghost use Rattle.fib_codec.specs.Spelling.{filled, checked};

use byteorder::{BigEndian, ByteOrder};
use fib_codec::crc16;

/// Overwrites the bytes from an offset on with these.
pub(crate) fn write_at(fib: &mut [u8], offset: usize, bytes: &[u8])
    requires { offset + length bytes.now ≤ length fib.old }
    ensures { fib.new ≡ take offset fib.old
        ++ (bytes.now ++ drop (offset + length bytes.now) fib.old) }
{
    fib[offset..offset + bytes.len()].copy_from_slice(bytes);
}

/// Ends a FIB after this many data bytes: with the end marker and zeros if there is room for them,
/// and the CRC.
pub(crate) fn end_fib(fib: &mut [u8], used: usize)
    requires whole { length fib.old ≡ 32 }
    requires within { used ≤ 30 }
    ensures { fib.new ≡ checked (filled (take used fib.old)) }
{
    pad(fib, used);
    seal(fib);
}

/// Pads the data bytes of a FIB to thirty: with the end marker and zeros.
fn pad(fib: &mut [u8], used: usize)
    requires whole { length fib.old ≡ 32 }
    requires within { used ≤ 30 }
    ensures data { take 30 fib.new ≡ filled (take used fib.old) }
    ensures whole { length fib.new ≡ 32 }
{
    let mut padding = [0; 30];
    padding[0] = 0xff;
    write_at(fib, used, &padding[..30 - used]);
}

/// Writes the CRC of the first thirty bytes of a FIB after them.
fn seal(fib: &mut [u8])
    requires { length fib.old ≡ 32 }
    ensures { fib.new ≡ checked (take 30 fib.old) }
{
    let crc = crc16(&fib[..30]);
    BigEndian::write_u16(&mut fib[30..], crc);
}
