//! Receivers of the bytes of frames.

ghost use Rattle.std.specs.Prelude.{◌≡◌, ◌<◌, ◌≤◌, length, take, true, false, IfSome, IfNone};
ghost use Rattle.std.specs.Prelude.{IfErr, OnOk, OnErr};
ghost use Rattle.std.specs.Io.KnownBytes.{Appends, Keeps};

use std::io::Write;

/// Accepts bytes, any number at a time, until it fails.
pub trait Sink {
    ghost use Rattle.std.specs.Prelude.{ℕ, List, Option, Bool};

    /// The bytes that it has accepted, if it reports them.
    ghost taken: { Self → Option (List ℕ) };

    /// Whether it has failed.
    ghost has_failed: { Self → Bool };

    /// Accepts a non-empty prefix of these bytes, which must not be empty, and returns its length.
    /// `None`: it accepted nothing, and has failed from then on. Nothing else makes it fail.
    fn put(&mut self, bytes: &[u8]) -> Option<usize>
        requires { 0 < length bytes.now }
        ensures bound { IfSome result (λ n. (1 ≤ n) × (n ≤ length bytes.now)) }
        ensures some { IfSome result (λ n.
            Appends (taken self.old) (taken self.new) (take n bytes.now)) }
        ensures works { IfSome result (λ _. has_failed self.new ≡ has_failed self.old) }
        ensures none { IfNone result
            (Keeps (taken self.old) (taken self.new) × (has_failed self.new ≡ true)) };

    /// Whether it has failed.
    fn failed(&self) -> bool
        ensures { result ≡ has_failed self.now };
}

/// A writer as a sink. It fails if the writer fails, also if the write is interrupted, and if the
/// writer accepts nothing. It reports its bytes if the writer does.
#[derive(Drop)]
pub struct Writer<W> {
    inner: W,
    is_failed: bool,
}

impl<W: Write> Writer<W> {
    /// A sink over this writer that has not failed.
    pub fn new(inner: W) -> Self
        ensures works { result.is_failed ≡ false }
        ensures inner { result.inner ≡ inner }
    {
        Writer {
            inner,
            is_failed: false,
        }
    }

    /// The writer.
    pub fn inner(&self) -> &W
        ensures { result.now ≡ self.now.inner }
    {
        &self.inner
    }
}

impl<W: Write> Sink for Writer<W> {
    ghost taken = { λ w. W.contents w.inner };

    ghost has_failed = { λ w. w.is_failed };

    /// One call of the writer's `write`.
    fn put(&mut self, bytes: &[u8]) -> Option<usize> {
        match self.inner.write(bytes) {
            Ok(0) => {
                self.is_failed = true;
                None
            }
            Ok(count) => Some(count),
            Err(_) => {
                self.is_failed = true;
                None
            }
        }
    }

    fn failed(&self) -> bool {
        self.is_failed
    }
}

/// Writes all bytes to a sink that has not failed, in any number of calls. `Err`: it failed after
/// this many of them, fewer than all.
pub fn put_all<K: Sink>(sink: &mut K, bytes: &[u8]) -> Result<(), usize>
    requires working { K.has_failed sink.old ≡ false }
    ensures all { OnOk result (Appends (K.taken sink.old) (K.taken sink.new) bytes.now) }
    ensures works { OnOk result (K.has_failed sink.new ≡ false) }
    ensures bound { IfErr result (λ n. n < length bytes.now) }
    ensures part { IfErr result (λ n.
        Appends (K.taken sink.old) (K.taken sink.new) (take n bytes.now)) }
    ensures fails { OnErr result (K.has_failed sink.new ≡ true) }
{
    let mut taken = 0;
    while taken < bytes.len() {
        match sink.put(&bytes[taken..]) {
            None => return Err(taken),
            Some(count) => taken += count,
        }
    }
    Ok(())
}
