//! Frames of a source, of which more bytes are asked for only once the output has all frames so
//! far.

ghost use Rattle.std.specs.Prelude.{◌≡◌, ◌+◌, ◌-◌, ◌<◌, ◌≤◌, ℕ, List, Option, [], true, false, Ok};
ghost use Rattle.std.specs.Prelude.{length, take, drop, slice_range, IfOk, OnOk, OnErr};
ghost use Rattle.std.specs.Io.KnownBytes.{Consumes, IsAtEnd, Keeps, prepend_known};
ghost use Rattle.cli_streams.specs.Held.{IsWritten};

use crate::held_frames::HeldFrames;
use std::alloc::{AllocError, Global};
use std::io::{self, Error, ErrorKind, Read, Write};
use std::marker::Model;

/// The most bytes that are buffered: 64 KB, which are 682 frames of three FIBs.
pub const MOST_BUFFERED: usize = 65_536;

/// The bytes of a source, of which some are buffered. The source is asked for more only where a
/// whole frame is not, and only after the output of the frames before has taken them all.
#[derive(Drop)]
pub struct FrameReader<R: Read + Drop> {
    source: R,
    buffer: Vec<u8>,
    start: usize,
    end: usize,
}

impl<R: Read + Drop> Model for FrameReader<R> {
    ghost use Rattle.std.specs.Prelude.{length, ◌≡◌, ◌≤◌, slice_range};
    ghost use Rattle.stream_monitor.specs.Buffered.{Buffered};

    ghost Value = { Buffered };

    ghost view = { λ r. record {
      ahead = slice_range r.buffer.items r.start r.end;
      behind = R.remaining r.source;
    } };

    ghost invariant = { λ r. (length r.buffer.items ≡ 65536) × (r.start ≤ r.end)
        × (r.end ≤ 65536) };
}

impl<R: Read + Drop> FrameReader<R> {
    ghost use Rattle.std.specs.Prelude.{◌≡◌, ◌+◌, ◌≤◌, ◌<◌, true, false, [], length, take, drop};
    ghost use Rattle.std.specs.Prelude.{IfOk, OnOk, OnErr};
    ghost use Rattle.std.specs.Io.KnownBytes.{IsAtEnd, Keeps};
    ghost use Rattle.stream_monitor.specs.Buffered.{left_of};
    ghost use Rattle.cli_streams.specs.Held.{IsWritten};

    /// The bytes that a source has left, none of them buffered; `AllocError` if out of memory for a
    /// buffer.
    pub fn new(alloc: Global, source: R) -> Result<Self, AllocError>
        ensures none { IfOk result (λ r. r.ahead ≡ []) }
        ensures source { IfOk result (λ r. r.behind ≡ R.remaining source) }
    {
        let mut buffer = Vec::new(alloc);
        buffer.resize(MOST_BUFFERED, 0)?;
        Ok(FrameReader {
            source,
            buffer,
            start: 0,
            end: 0,
        })
    }

    /// The number of buffered bytes.
    pub fn len(&self) -> usize
        ensures { result ≡ length self.now.ahead }
    {
        self.end - self.start
    }

    /// The first buffered bytes.
    pub fn front(&self, count: usize) -> &[u8]
        requires { count ≤ length self.now.ahead }
        ensures { result.now ≡ take count self.now.ahead }
    {
        &self.buffer[self.start..self.start + count]
    }

    /// Passes over the first buffered bytes.
    pub fn pass(&mut self, count: usize)
        requires { count ≤ length self.old.ahead }
        ensures ahead { self.new.ahead ≡ drop count self.old.ahead }
        ensures behind { self.new.behind ≡ self.old.behind }
    {
        self.start += count;
    }

    /// Whether a next frame of this size is buffered, after the source is asked for more bytes
    /// where it is not: until it is, or the source ends. Nothing is asked for where it is, and else
    /// `frames` has to be written.
    ///
    /// An error is the source's; what was read before stays buffered.
    pub fn next<W: Write>(&mut self, size: usize, frames: &HeldFrames<'_, W>) -> io::Result<bool>
        requires size { size ≤ 65536 }
        requires written { length self.old.ahead < size → IsWritten W.contents frames.now }
        ensures left { Keeps (left_of self.old) (left_of self.new) }
        ensures whole { IfOk result (λ more. more ≡ true → size ≤ length self.new.ahead) }
        ensures short { IfOk result (λ more. more ≡ false → length self.new.ahead < size) }
        ensures end { IfOk result (λ more. more ≡ false → IsAtEnd self.new.behind) }
        ensures buffered { size ≤ length self.old.ahead → (result ≡ Ok true)
            × (self.new ≡ self.old) }
    {
        if self.len() >= size {
            return Ok(true);
        }
        self.refill(size, frames)
    }

    /// Asks the source for bytes until a frame of this size is buffered, and returns whether it is,
    /// or the source ends.
    fn refill<W: Write>(&mut self, size: usize, frames: &HeldFrames<'_, W>) -> io::Result<bool>
        requires size { size ≤ 65536 }
        requires short { length self.old.ahead < size }
        requires written { IsWritten W.contents frames.now }
        ensures left { Keeps (left_of self.old) (left_of self.new) }
        ensures whole { IfOk result (λ more. more ≡ true → size ≤ length self.new.ahead) }
        ensures short { IfOk result (λ more. more ≡ false → length self.new.ahead < size) }
        ensures end { IfOk result (λ more. more ≡ false → IsAtEnd self.new.behind) }
    {
        let kept = self.end - self.start;
        let buffer = self.buffer.as_mut_slice();
        buffer.copy_within(self.start..self.end, 0);
        let (end, result) = fill(&mut self.source, buffer, kept, size, frames);
        self.start = 0;
        self.end = end;
        match result {
            Ok(()) => Ok(end >= size),
            Err(error) => Err(error),
        }
    }
}

/// Reads behind the first `kept` bytes of a buffer until it has as many as a frame, or the source
/// ends or fails, and returns how many it then has.
fn fill<R: Read, W: Write>(
    source: &mut R,
    buffer: &mut [u8],
    kept: usize,
    size: usize,
    frames: &HeldFrames<'_, W>,
) -> (usize, io::Result<()>)
    requires short { kept < size }
    requires room { size ≤ length buffer.old }
    requires written { IsWritten W.contents frames.now }
    ensures whole { length buffer.new ≡ length buffer.old }
    ensures bound { result.0 ≤ length buffer.new }
    ensures bytes { Consumes (prepend_known (take kept buffer.old) (R.remaining source.old))
        (R.remaining source.new) (take result.0 buffer.new) }
    ensures last { OnOk result.1 (result.0 < size → IsAtEnd (R.remaining source.new)) }
{
    let mut filled = kept;
    for _ in 0..u64::MAX {
        if filled >= size {
            return (filled, Ok(()));
        }
        match read_behind(source, buffer, filled, frames) {
            Ok(0) => return (filled, Ok(())),
            Ok(count) => filled += count,
            Err(error) => {
                if error.kind() != ErrorKind::Interrupted {
                    return (filled, Err(error));
                }
            }
        }
    }
    (filled, Err(Error::from(ErrorKind::Other)))
}

/// Reads once, behind the first `filled` bytes of a buffer, into its rest. This is the only read of
/// a source: the output has all frames so far.
fn read_behind<R: Read, W: Write>(
    source: &mut R,
    buffer: &mut [u8],
    filled: usize,
    frames: &HeldFrames<'_, W>,
) -> io::Result<usize>
    requires room { filled < length buffer.old }
    requires written { IsWritten W.contents frames.now }
    ensures whole { length buffer.new ≡ length buffer.old }
    ensures bound { IfOk result (λ n. filled + n ≤ length buffer.new) }
    ensures bytes { IfOk result (λ n. (before : Option (List ℕ))
        → Consumes before (R.remaining source.old) (take filled buffer.old)
        → Consumes before (R.remaining source.new) (take (filled + n) buffer.new)) }
    ensures failed { OnErr result ((before : Option (List ℕ))
        → Consumes before (R.remaining source.old) (take filled buffer.old)
        → Consumes before (R.remaining source.new) (take filled buffer.new)) }
    ensures last { IfOk result (λ n. n ≡ 0 → IsAtEnd (R.remaining source.new)) }
{
    source.read(&mut buffer[filled..])
}
