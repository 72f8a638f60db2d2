//! Standard streams in non-blocking mode.

ghost use Rattle.std.specs.Prelude.{◌≡◌, ◌≢◌, IfErr};
ghost use Rattle.std.specs.IoError.{error_kind};
ghost use Rattle.std.specs.Io.{ReadsAtMost, WritesAtMost};
ghost use Rattle.std.specs.Io.KnownBytes.{Keeps, ReadConsumes, WriteAppends};

use std::io::{self, Error, ErrorKind, Read, Write};
use std::rt::Clock;
use std::thread;
use std::time::Duration;

/// The pause between two attempts in milliseconds: a twelfth of a frame. The library has no call
/// that waits for a descriptor.
const PAUSE: u64 = 2;

/// A reader or writer that may be in non-blocking mode (`O_NONBLOCK`), in which supervisors hand
/// over standard streams.
///
/// A read or write that would block is retried after a pause, until the stream is ready, as a
/// stream in blocking mode waits. All other results are those of the inner stream.
#[derive(Drop)]
pub struct Waiting<'a, C, T> {
    clock: &'a C,
    inner: T,
}

impl<'a, C, T> Waiting<'a, C, T> {
    /// A stream that pauses with this clock.
    pub fn new(clock: &'a C, inner: T) -> Self
        ensures { result.inner ≡ inner }
    {
        Waiting { clock, inner }
    }
}

impl<C: Clock, T: Read> Read for Waiting<'_, C, T> {
    ghost use Rattle.std.specs.Prelude.{◌≢◌, IfErr};
    ghost use Rattle.std.specs.IoError.{error_kind};
    ghost use Rattle.std.specs.Io.{ReadsAtMost};
    ghost use Rattle.std.specs.Io.KnownBytes.{ReadConsumes};

    ghost remaining = { λ w. T.remaining w.inner };

    fn read(&mut self, buffer: &mut [u8]) -> io::Result<usize>
        ensures bound { ReadsAtMost result buffer.new }
        ensures bytes { ReadConsumes (T.remaining self.old.inner) (T.remaining self.new.inner)
            result buffer.new }
        ensures ready { IfErr result (λ e. error_kind e ≢ ErrorKind.WouldBlock) }
    {
        read_when_ready(self.clock, &mut self.inner, buffer)
    }
}

impl<C: Clock, T: Write> Write for Waiting<'_, C, T> {
    ghost use Rattle.std.specs.Prelude.{◌≢◌, IfErr};
    ghost use Rattle.std.specs.IoError.{error_kind};
    ghost use Rattle.std.specs.Io.{WritesAtMost};
    ghost use Rattle.std.specs.Io.KnownBytes.{Keeps, WriteAppends};

    ghost contents = { λ w. T.contents w.inner };

    fn write(&mut self, bytes: &[u8]) -> io::Result<usize>
        ensures bound { WritesAtMost result bytes.now }
        ensures bytes { WriteAppends (T.contents self.old.inner) (T.contents self.new.inner)
            result bytes.now }
        ensures ready { IfErr result (λ e. error_kind e ≢ ErrorKind.WouldBlock) }
    {
        write_when_ready(self.clock, &mut self.inner, bytes)
    }

    fn flush(&mut self) -> io::Result<()>
        ensures bytes { Keeps (T.contents self.old.inner) (T.contents self.new.inner) }
        ensures ready { IfErr result (λ e. error_kind e ≢ ErrorKind.WouldBlock) }
    {
        flush_when_ready(self.clock, &mut self.inner)
    }
}

/// Pauses before the next attempt.
pub(crate) fn pause<C: Clock>(clock: &C) {
    thread::sleep(clock, Duration::from_millis(PAUSE));
}

/// Reads, retrying while the read would block.
fn read_when_ready<C: Clock, T: Read>(
    clock: &C,
    inner: &mut T,
    buffer: &mut [u8],
) -> io::Result<usize>
    ensures bound { ReadsAtMost result buffer.new }
    ensures bytes { ReadConsumes (T.remaining inner.old) (T.remaining inner.new) result
        buffer.new }
    ensures ready { IfErr result (λ e. error_kind e ≢ ErrorKind.WouldBlock) }
{
    for _ in 0..u64::MAX {
        match inner.read(buffer) {
            Ok(count) => return Ok(count),
            Err(error) => {
                if error.kind() != ErrorKind::WouldBlock {
                    return Err(error);
                }
            }
        }
        pause(clock);
    }
    Err(Error::from(ErrorKind::TimedOut))
}

/// Writes, retrying while the write would block.
fn write_when_ready<C: Clock, T: Write>(clock: &C, inner: &mut T, bytes: &[u8]) -> io::Result<usize>
    ensures bound { WritesAtMost result bytes.now }
    ensures bytes { WriteAppends (T.contents inner.old) (T.contents inner.new) result bytes.now }
    ensures ready { IfErr result (λ e. error_kind e ≢ ErrorKind.WouldBlock) }
{
    for _ in 0..u64::MAX {
        match inner.write(bytes) {
            Ok(count) => return Ok(count),
            Err(error) => {
                if error.kind() != ErrorKind::WouldBlock {
                    return Err(error);
                }
            }
        }
        pause(clock);
    }
    Err(Error::from(ErrorKind::TimedOut))
}

/// Flushes, retrying while that would block.
fn flush_when_ready<C: Clock, T: Write>(clock: &C, inner: &mut T) -> io::Result<()>
    ensures bytes { Keeps (T.contents inner.old) (T.contents inner.new) }
    ensures ready { IfErr result (λ e. error_kind e ≢ ErrorKind.WouldBlock) }
{
    for _ in 0..u64::MAX {
        match inner.flush() {
            Ok(()) => return Ok(()),
            Err(error) => {
                if error.kind() != ErrorKind::WouldBlock {
                    return Err(error);
                }
            }
        }
        pause(clock);
    }
    Err(Error::from(ErrorKind::TimedOut))
}
