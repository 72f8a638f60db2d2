//! Buffered standard output, which never writes again after a failure.

ghost use Rattle.std.specs.Prelude.{◌≡◌, ◌≤◌, OnOk, length, take};
ghost use Rattle.std.specs.Io.{WritesAtMost};
ghost use Rattle.std.specs.Io.KnownBytes.{Appends, Keeps, WriteAppends};

use arrayvec::ArrayVec;
use std::io::{self, Error, ErrorKind, Write};

/// A writer that buffers what is printed and writes it to `out` in pieces of up to 2,048 bytes.
///
/// A write that fails, takes nothing or is interrupted is not retried: nothing is written to `out`
/// after it, and each later flush returns an error. The bytes in `out` followed by the buffered
/// ones are always all that was printed.
#[derive(Drop)]
pub struct Output<W> {
    out: W,
    held: ArrayVec<u8, 2048>,
    has_failed: bool,
}

impl<W: Write + Drop> Output<W> {
    ghost use Rattle.std.specs.Prelude.{false};
    ghost use Rattle.console.specs.Printed.{printed, writer_of, has_failed};

    /// An empty buffer over `out`, of which no write has failed.
    pub fn new(out: W) -> Self
        ensures printed { Keeps (W.contents out) (printed W.contents result) }
        ensures writer { writer_of result ≡ out }
        ensures works { has_failed result ≡ false }
    {
        Output {
            out,
            held: ArrayVec::new(),
            has_failed: false,
        }
    }

    /// The writer. What is buffered still, as after a failed flush, is lost.
    pub fn into_inner(self) -> W
        ensures { result ≡ writer_of self }
    {
        self.out
    }
}

impl<W: Write> Write for Output<W> {
    ghost use Rattle.std.specs.Prelude.{◌≡◌, true, false, IsErr, OnErr};
    ghost use Rattle.console.specs.Printed.{printed, writer_of, has_failed};

    ghost contents = { printed W.contents };

    #[inline]
    fn write(&mut self, bytes: &[u8]) -> io::Result<usize>
        ensures bound { WritesAtMost result bytes.now }
        ensures bytes { WriteAppends (printed W.contents self.old) (printed W.contents self.new)
            result bytes.now }
    {
        if self.held.is_full() {
            self.flush()?;
        }
        let count = bytes.len().min(self.held.remaining_capacity());
        match self.held.try_extend_from_slice(&bytes[..count]) {
            Ok(()) => Ok(count),
            Err(_) => Err(Error::from(ErrorKind::Other)),
        }
    }

    fn flush(&mut self) -> io::Result<()>
        ensures bytes { Keeps (printed W.contents self.old) (printed W.contents self.new) }
        ensures passed { OnOk result (Keeps (printed W.contents self.old)
            (W.contents (writer_of self.new))) }
        ensures works { OnOk result (has_failed self.new ≡ false) }
        ensures failed { OnErr result (has_failed self.new ≡ true) }
        ensures stays { has_failed self.old ≡ true → IsErr result }
    {
        if self.has_failed {
            return Err(Error::from(ErrorKind::Other));
        }
        let (taken, result) = write_out(self.held.as_slice(), &mut self.out);
        let mut left = ArrayVec::new();
        let _ = left.try_extend_from_slice(&self.held.as_slice()[taken..]);
        self.held = left;
        self.has_failed = result.is_err();
        result
    }
}

/// Writes until all is written or a write fails, and returns how many bytes were taken.
pub fn write_out<W: Write>(bytes: &[u8], out: &mut W) -> (usize, io::Result<()>)
    ensures bound { result.0 ≤ length bytes.now }
    ensures all { OnOk result.1 (result.0 ≡ length bytes.now) }
    ensures taken { Appends (W.contents out.old) (W.contents out.new) (take result.0 bytes.now) }
{
    let mut taken = 0;
    while taken < bytes.len() {
        match out.write(&bytes[taken..]) {
            Ok(0) => return (taken, Err(Error::from(ErrorKind::WriteZero))),
            Ok(count) => taken += count,
            Err(_) => return (taken, Err(Error::from(ErrorKind::Other))),
        }
    }
    (taken, Ok(()))
}

/// Writes all bytes, and flushes the writer. It fails if a write fails or takes nothing, or the
/// flush fails: some of the bytes are taken then, the first ones.
#[tactic(auto, using(crate::proofs::Taking::all_taken))]
pub fn write_through<W: Write>(bytes: &[u8], out: &mut W) -> io::Result<()>
    ensures { OnOk result (Appends (W.contents out.old) (W.contents out.new) bytes.now) }
{
    let (_taken, written) = write_out(bytes, out);
    match written {
        Ok(()) => out.flush(),
        Err(error) => Err(error),
    }
}
