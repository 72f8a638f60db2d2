//! A writer as a sink of frames.

ghost use Rattle.std.specs.Prelude.{◌≡◌, false};

use plan_player::Sink;
use std::io::Write;

/// A writer as a sink. It fails if the writer fails, also if the write is interrupted, and if the
/// writer accepts nothing. It reports its bytes if the writer does.
#[derive(Drop)]
pub(crate) struct WriterSink<W> {
    out: W,
    has_failed: bool,
}

impl<W: Write> WriterSink<W> {
    /// A sink over this writer that has not failed.
    pub(crate) fn new(out: W) -> Self
        ensures works { result.has_failed ≡ false }
        ensures out { result.out ≡ out }
    {
        WriterSink {
            out,
            has_failed: false,
        }
    }

    /// The writer.
    pub(crate) fn into_inner(self) -> W
        ensures { result ≡ self.out }
    {
        self.out
    }
}

impl<W: Write> Sink for WriterSink<W> {
    ghost taken = { λ s. W.contents s.out };

    ghost has_failed = { λ s. s.has_failed };

    fn put(&mut self, bytes: &[u8]) -> Option<usize> {
        match self.out.write(bytes) {
            Ok(0) | Err(_) => {
                self.has_failed = true;
                None
            }
            Ok(count) => Some(count),
        }
    }

    fn failed(&self) -> bool {
        self.has_failed
    }
}
