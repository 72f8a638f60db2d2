//! The FIBs of one frame.

ghost use Rattle.std.specs.Prelude.{◌≡◌, ◌+◌, ◌-◌, ◌*◌, ◌≤◌, ◌<◌, ◌++◌, ◌↔◌, length, take, drop};
ghost use Rattle.std.specs.Prelude.{replicate, IsSome, IfSome};
ghost use Rattle.fib_codec.specs.Modes.{fib_count, with_fib};
ghost use Rattle.fib_codec.specs.Heard.{fib_at};
ghost use Rattle.fib_codec.specs.Spelling.{checked, filled};

use crate::crc::crc16;
use crate::fib::Fib;
use crate::modes::Mode;
use byteorder::{BigEndian, ByteOrder};
use std::marker::Model;

/// The most FIBs that a frame has, in mode III.
const MOST_FIBS: usize = 4;

/// The FIBs of one CIF one after another: 96 bytes, or 128 in mode III (EN 300 401 clause 5.1).
/// Contracts see the list of these bytes.
#[derive(Clone, Copy, Debug, PartialEq, Eq)]
pub struct FibFrame {
    bytes: [u8; 32 * MOST_FIBS],
    len: usize,
}

impl Model for FibFrame {
    ghost use Rattle.std.specs.Prelude.{List, ℕ, length, ◌-◌, ◌++◌, take, replicate};
    ghost use Rattle.std.proofs.Common.{arith, ap, sym, ◌∙◌, take-append-drop, length-take-le};
    ghost use Rattle.fib_codec.specs.Modes.{IsInFrame};

    ghost Value = { List ℕ };

    ghost view = { λ f. take f.len f.bytes };

    ghost invariant = { λ f. IsInFrame f.len f.bytes };

    ghost inverse = { λ l. record { bytes = l ++ replicate (128 - length l) 0; len = length l } };

    ghost inverse_ok = { λ f h i.
        let len = length-take-le f.len f.bytes (omega (arith, h.within, h.whole)) in
        record {
          bytes = (ap (λ n. take f.len f.bytes ++ replicate (128 - n) 0) len
              ∙ ap (λ t. take f.len f.bytes ++ t) (sym h.rest) ∙ take-append-drop f.len f.bytes) i;
          len = len i;
        } };
}

/// Overwrites the 32 bytes at an offset with a FIB.
fn write_at(bytes: &mut [u8], offset: usize, fib: &[u8; 32])
    requires { offset + 32 ≤ length bytes.old }
    ensures { bytes.new ≡ take offset bytes.old ++ (fib.now ++ drop (offset + 32) bytes.old) }
{
    bytes[offset..offset + 32].copy_from_slice(fib);
}

/// Overwrites the 32 bytes at an offset with the FIB of these bytes, the last two replaced by the
/// CRC of the others.
fn write_sealed(bytes: &mut [u8], offset: usize, row: &[u8; 32])
    requires within { offset + 32 ≤ length bytes.old }
    requires whole { length row.now ≡ 32 }
    ensures { bytes.new ≡
        take offset bytes.old ++ (checked (take 30 row.now) ++ drop (offset + 32) bytes.old) }
{
    let crc = crc16(&row[..30]);
    let fib = &mut bytes[offset..offset + 32];
    fib.copy_from_slice(row);
    BigEndian::write_u16(&mut fib[30..], crc);
}

/// Overwrites the front of a FIB byte by byte: a wide copy would have to wait until each byte of
/// `fig` is stored.
fn write_front<const LEN: usize>(fib: &mut [u8], fig: &[u8; LEN])
    requires { LEN ≤ length fib.old }
    ensures { fib.new ≡ fig.now ++ drop (length fig.now) fib.old }
{
    for index in 0..LEN {
        fib[index] = fig[index];
    }
}

/// Overwrites the data bytes of a FIB with a FIG followed by as many bytes of another FIB as fit.
fn join<const LEN: usize>(fib: &mut [u8], fig: &[u8; LEN], plain: &[u8; 32])
    requires whole { length fib.old ≡ 32 }
    requires few { LEN ≤ 30 }
    ensures { fib.new ≡ (fig.now ++ take (30 - length fig.now) plain.now) ++ drop 30 fib.old }
{
    write_front(fib, fig);
    fib[LEN..30].copy_from_slice(&plain[..30 - LEN]);
}

/// Writes the CRC of the first thirty bytes of a FIB after them.
fn seal(fib: &mut [u8])
    requires { length fib.old ≡ 32 }
    ensures { fib.new ≡ checked (take 30 fib.old) }
{
    let crc = crc16(&fib[..30]);
    BigEndian::write_u16(&mut fib[30..], crc);
}

/// Overwrites the 32 bytes at an offset with a FIB of a FIG followed by as many bytes of another
/// FIB as fit.
fn write_joined<const LEN: usize>(
    bytes: &mut [u8],
    offset: usize,
    fig: &[u8; LEN],
    plain: &[u8; 32],
)
    requires within { offset + 32 ≤ length bytes.old }
    requires few { LEN ≤ 30 }
    ensures { bytes.new ≡ take offset bytes.old
        ++ (checked (fig.now ++ take (30 - length fig.now) plain.now)
        ++ drop (offset + 32) bytes.old) }
{
    let fib = &mut bytes[offset..offset + 32];
    join(fib, fig, plain);
    seal(fib);
}

impl FibFrame {
    /// A frame of this mode with all bytes 0, to write FIBs into.
    pub fn new(mode: Mode) -> FibFrame
        ensures { result ≡ replicate (32 * fib_count mode) 0 }
    {
        FibFrame {
            bytes: [0; 32 * MOST_FIBS],
            len: 32 * mode.fibs(),
        }
    }

    /// Overwrites the FIB at this index, from 0.
    pub fn write_fib(&mut self, index: usize, fib: &[u8; 32])
        requires { 32 * index + 32 ≤ length self.old }
        ensures written { self.new ≡ with_fib index fib.now self.old }
        ensures front { take (32 * index + 32) self.new ≡ take (32 * index) self.old ++ fib.now }
        ensures size { length self.new ≡ length self.old }
    {
        write_at(&mut self.bytes, 32 * index, fib);
    }

    /// Finishes a FIB and writes it over the one at this index, from 0: the bytes that
    /// [`Fib::finish`] gives.
    pub fn finish_fib(&mut self, index: usize, fib: &Fib)
        requires { 32 * index + 32 ≤ length self.old }
        ensures written { self.new ≡ with_fib index (checked (filled fib.now)) self.old }
        ensures front { take (32 * index + 32) self.new
            ≡ take (32 * index) self.old ++ checked (filled fib.now) }
        ensures size { length self.new ≡ length self.old }
    {
        write_sealed(&mut self.bytes, 32 * index, fib.row());
    }

    /// Overwrites the FIB at this index, from 0, with a FIG followed by as many bytes of another
    /// FIB as fit in thirty data bytes, and their CRC.
    pub fn join_fib<const LEN: usize>(&mut self, index: usize, fig: &[u8; LEN], plain: &[u8; 32])
        requires there { 32 * index + 32 ≤ length self.old }
        requires few { LEN ≤ 30 }
        ensures { self.new ≡ with_fib index
            (checked (fig.now ++ take (30 - length fig.now) plain.now)) self.old }
    {
        write_joined(&mut self.bytes, 32 * index, fig, plain);
    }

    /// The bytes of all its FIBs, in order.
    pub fn bytes(&self) -> &[u8]
        ensures value { result.now ≡ self.now }
        ensures size { length self.now ≤ 128 }
    {
        &self.bytes[..self.len]
    }

    /// The FIB at this index, from 0; None if the frame has no such FIB.
    pub fn fib(&self, index: usize) -> Option<&[u8; 32]>
        ensures found { IsSome result ↔ (32 * index + 32 ≤ length self.now) }
        ensures value { IfSome result (λ fib. fib.now ≡ fib_at self.now index) }
    {
        if index >= self.len / 32 {
            return None;
        }
        let (_, rest) = self.bytes().split_at(32 * index);
        rest.first_chunk::<32>()
    }
}
