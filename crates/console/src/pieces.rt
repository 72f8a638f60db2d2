//! Reads a file piece by piece, as its bytes come.

ghost use Rattle.std.specs.Prelude.{◌≡◌, ◌≤◌, ◌<◌, ◌-◌, ◌+◌, ◌%◌, ℕ, List, Option, take};
ghost use Rattle.std.specs.Prelude.{slice_range, length, IfOk, OnErr, IfSome};
ghost use Rattle.std.specs.Io.KnownBytes.{Consumes, IsAtEnd, prepend_known};

use crate::files::{FileFault, fault_of};
use std::alloc::{AllocError, Global};
use std::io::{self, ErrorKind, Read};
use std::marker::Model;

/// The most bytes of a piece: 256 KB, which are 8,192 FIBs of 32 bytes.
pub const PIECE: usize = 262_144;

/// The size of a FIB.
const FIB: usize = 32;

/// The bytes of a file or of standard input in pieces of whole FIBs of 32 bytes, at most [`PIECE`]
/// bytes each. A piece has what a read returns, so that nothing waits for bytes that are still to
/// come; the bytes of a FIB that a read cuts are kept for the next piece. The last piece has all
/// remaining bytes, which may end within a FIB. One piece is in memory at a time, however long the
/// file is.
///
/// Contracts refer to the bytes that are left, if known, and to the last piece read.
#[derive(Drop)]
pub struct Pieces<R: Read + Drop> {
    source: R,
    buffer: Vec<u8>,
    len: usize,
    filled: usize,
}

impl<R: Read + Drop> Model for Pieces<R> {
    ghost use Rattle.std.specs.Prelude.{take, drop, length, ◌≡◌, ◌≤◌, ◌<◌, ◌+◌, slice_range};
    ghost use Rattle.std.specs.Io.KnownBytes.{prepend_known};
    ghost use Rattle.console.specs.Reading.{Reading};

    ghost Value = { Reading };

    ghost view = { λ p. record {
      left = prepend_known (slice_range p.buffer.items p.len p.filled) (R.remaining p.source);
      piece = take p.len p.buffer.items;
    } };

    ghost invariant = { λ p. (length p.buffer.items ≡ 262144) × (p.len ≤ p.filled)
        × (p.filled ≤ 262144) × (p.filled < p.len + 32) };
}

impl<R: Read + Drop> Pieces<R> {
    ghost use Rattle.std.specs.Prelude.{◌≡◌, ◌≢◌, ◌%◌, ◌≤◌, ◌<◌, true, false, [], length, IfOk};
    ghost use Rattle.std.specs.Prelude.{OnOk, OnErr};
    ghost use Rattle.std.specs.Io.KnownBytes.{Consumes, IsAtEnd, Keeps};

    /// The pieces of the remaining bytes of a source, before the first; `AllocError` if out of
    /// memory for one.
    #[tactic(auto, using(crate::proofs::Filling::none_kept))]
    pub fn new(alloc: Global, source: R) -> Result<Self, AllocError>
        ensures left { IfOk result (λ p. Keeps (R.remaining source) p.left) }
        ensures piece { IfOk result (λ p. p.piece ≡ []) }
    {
        let mut buffer = Vec::new(alloc);
        buffer.resize(PIECE, 0)?;
        Ok(Pieces {
            source,
            buffer,
            len: 0,
            filled: 0,
        })
    }

    /// Reads the next piece, and returns whether there was one. The source is read until a FIB is
    /// whole, and no further; so a piece is empty only at the end, and ends within a FIB only
    /// there.
    ///
    /// `Failed` if the source fails. The piece is empty then, and what was read of it is lost.
    #[tactic(auto, using(crate::proofs::Filling::handed, crate::proofs::Filling::none_behind))]
    pub fn advance(&mut self) -> Result<bool, FileFault>
        ensures bytes { OnOk result (Consumes self.old.left self.new.left self.new.piece) }
        ensures bound { length self.new.piece ≤ 262144 }
        ensures last { OnOk result
            (0 < length self.new.piece % 32 → IsAtEnd self.new.left) }
        ensures some { IfOk result (λ more. more ≡ true → 0 < length self.new.piece) }
        ensures none { IfOk result (λ more. more ≡ false → self.new.piece ≡ []) }
        ensures end { IfOk result (λ more. more ≡ false → IsAtEnd self.new.left) }
        ensures failed { OnErr result (self.new.piece ≡ []) }
    {
        let kept = self.len;
        let end = self.filled;
        self.len = 0;
        self.filled = 0;
        let filled = refill(&mut self.source, self.buffer.as_mut_slice(), kept, end)?;
        self.filled = filled;
        self.len = handed_of(filled);
        Ok(self.len > 0)
    }

    /// The last piece read; empty before the first, after the last and after a fault.
    pub fn piece(&self) -> &[u8]
        ensures { result.now ≡ self.now.piece }
    {
        &self.buffer[..self.len]
    }
}

/// Moves these bytes of a buffer to its front, reads behind them until a FIB is whole or the source
/// ends, and returns the number of bytes that the buffer then has; `Failed` if the source fails.
fn refill<R: Read>(
    source: &mut R,
    buffer: &mut [u8],
    start: usize,
    end: usize,
) -> Result<usize, FileFault>
    requires order { start ≤ end }
    requires cut { end < start + 32 }
    requires bound { end ≤ length buffer.old }
    requires room { 32 ≤ length buffer.old }
    ensures kept { length buffer.new ≡ length buffer.old }
    ensures bound { IfOk result (λ n. n ≤ length buffer.new) }
    ensures bytes { IfOk result (λ n.
        Consumes (prepend_known (slice_range buffer.old start end) (R.remaining source.old))
        (R.remaining source.new) (take n buffer.new)) }
    ensures last { IfOk result (λ n. n < 32 → IsAtEnd (R.remaining source.new)) }
{
    keep(buffer, start, end);
    fill(source, buffer, end - start)
}

/// Moves these bytes of a buffer to its front.
fn keep(buffer: &mut [u8], start: usize, end: usize)
    requires order { start ≤ end }
    requires bound { end ≤ length buffer.old }
    ensures kept { length buffer.new ≡ length buffer.old }
    ensures moved { take (end - start) buffer.new ≡ slice_range buffer.old start end }
{
    buffer.copy_within(start..end, 0);
}

/// How many of the first bytes are handed out: those of whole FIBs, and at the end of the source
/// all of them.
fn handed_of(filled: usize) -> usize
    ensures bound { result ≤ filled }
    ensures some { 0 < filled → 0 < result }
    ensures rest { filled < result + 32 }
    ensures part { 0 < result % 32 → (result ≡ filled) × (filled < 32) }
    ensures none { filled < 32 → result ≡ filled }
{
    if filled < FIB {
        filled
    } else {
        filled - filled % FIB
    }
}

/// Reads until a FIB is whole or the source ends, behind the first `kept` bytes of a buffer, and
/// returns the number of bytes that it then has; `Failed` if the source fails.
fn fill<R: Read>(source: &mut R, buffer: &mut [u8], kept: usize) -> Result<usize, FileFault>
    requires cut { kept < 32 }
    requires room { 32 ≤ length buffer.old }
    ensures kept { length buffer.new ≡ length buffer.old }
    ensures bound { IfOk result (λ n. n ≤ length buffer.new) }
    ensures bytes { IfOk result (λ n.
        Consumes (prepend_known (take kept buffer.old) (R.remaining source.old))
        (R.remaining source.new) (take n buffer.new)) }
    ensures last { IfOk result (λ n. n < 32 → IsAtEnd (R.remaining source.new)) }
{
    let mut filled = kept;
    for _ in 0..u64::MAX {
        if filled >= FIB {
            return Ok(filled);
        }
        match read_behind(source, buffer, filled) {
            Ok(0) => return Ok(filled),
            Ok(count) => filled += count,
            Err(error) => {
                if error.kind() != ErrorKind::Interrupted {
                    return Err(fault_of(&error));
                }
            }
        }
    }
    Err(FileFault::Failed)
}

/// Reads once, behind the first `filled` bytes of a buffer, which are less than a FIB: no byte is
/// asked for while a whole FIB is to be handed out.
fn read_behind<R: Read>(source: &mut R, buffer: &mut [u8], filled: usize) -> io::Result<usize>
    requires cut { filled < 32 }
    requires room { 32 ≤ length buffer.old }
    ensures kept { length buffer.new ≡ length buffer.old }
    ensures bound { IfOk result (λ n. filled + n ≤ length buffer.new) }
    ensures bytes { IfOk result (λ n. (before : Option (List ℕ))
        → Consumes before (R.remaining source.old) (take filled buffer.old)
        → Consumes before (R.remaining source.new) (take (filled + n) buffer.new)) }
    ensures failed { OnErr result ((before : Option (List ℕ))
        → Consumes before (R.remaining source.old) (take filled buffer.old)
        → Consumes before (R.remaining source.new) (take filled buffer.new)) }
    ensures last { IfOk result (λ n. n ≡ 0 → IsAtEnd (R.remaining source.new)) }
{
    source.read(&mut buffer[filled..])
}

/// The remaining bytes of a source, at most `most`; `Failed` if it fails, `Memory` if out of
/// memory.
pub fn read_within<R: Read + Drop>(
    alloc: Global,
    source: R,
    most: usize,
) -> Result<Vec<u8>, FileFault>
    ensures { IfOk result (λ read. IfSome (R.remaining source)
        (λ bytes. read.items ≡ take most bytes)) }
{
    let mut bytes = Vec::new(alloc);
    match source.take(most as u64).read_to_end(&mut bytes) {
        Ok(_) => Ok(bytes),
        Err(error) => Err(fault_of(&error)),
    }
}
