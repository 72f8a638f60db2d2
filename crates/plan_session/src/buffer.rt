//! A sink that collects bytes and passes them to another sink in large pieces.

ghost use Rattle.std.specs.Prelude.{◌≡◌, ◌+◌, ◌<◌, ◌≤◌, length, take, true, false, IfSome, IfNone};
ghost use Rattle.std.specs.Io.KnownBytes.{Appends, Keeps};

use plan_player::{Bytes, Sink, put_all};

/// The capacity of a buffer in bytes: about 24 seconds of frames.
const SIZE: usize = 98_304;

/// A sink that passes bytes to an inner sink in pieces of up to 98,304.
///
/// It has taken what the inner sink has taken, followed by what it holds. It has failed when the
/// inner sink has; after that nothing is put into the inner sink.
#[derive(Drop)]
pub(crate) struct Buffer<K> {
    out: K,
    held: Bytes<SIZE>,
}

impl<K: Sink> Buffer<K> {
    ghost use Rattle.plan_session.specs.Buffering.{taken_by};

    /// A buffer that has taken nothing.
    pub(crate) fn new(out: K) -> Self
        ensures taken { Keeps (K.taken out) (taken_by K.taken result) }
        ensures out { result.out ≡ out }
    {
        Buffer {
            out,
            held: Bytes::new(),
        }
    }

    /// The number of bytes held.
    pub(crate) fn held(&self) -> usize
        ensures value { result ≡ length self.now.held }
        ensures bound { result ≤ 98304 }
    {
        self.held.len()
    }

    /// The inner sink. What is held is lost.
    pub(crate) fn into_inner(self) -> K
        ensures { result ≡ self.out }
    {
        self.out
    }

    /// Holds as many of these bytes as there is room for, at least one: a full buffer is flushed
    /// first. Returns their number; `None` if the inner sink failed in the flush.
    #[inline(never)]
    fn put_part(&mut self, bytes: &[u8]) -> Option<usize>
        requires working { K.has_failed self.old.out ≡ false }
        requires one { 0 < length bytes.now }
        ensures bound { IfSome result (λ n. (1 ≤ n) × (n ≤ length bytes.now)) }
        ensures some { IfSome result (λ n.
            Appends (taken_by K.taken self.old) (taken_by K.taken self.new) (take n bytes.now)) }
        ensures works { IfSome result (λ _. K.has_failed self.new.out ≡ false) }
        ensures keeps { IfNone result (Keeps (taken_by K.taken self.old)
            (taken_by K.taken self.new)) }
        ensures fails { IfNone result (K.has_failed self.new.out ≡ true) }
    {
        if self.held.is_full() {
            if !self.deliver() {
                return None;
            }
        }
        Some(self.held.fill(bytes))
    }

    /// Passes all bytes held to the inner sink, which must not have failed. Returns whether it took
    /// all of them.
    #[inline(never)]
    pub(crate) fn deliver(&mut self) -> bool
        requires working { K.has_failed self.old.out ≡ false }
        ensures bytes { Keeps (taken_by K.taken self.old) (taken_by K.taken self.new) }
        ensures all { result ≡ true → length self.new.held ≡ 0 }
        ensures works { result ≡ true → K.has_failed self.new.out ≡ false }
        ensures fails { result ≡ false → K.has_failed self.new.out ≡ true }
    {
        match put_all(&mut self.out, self.held.as_slice()) {
            Ok(()) => {
                self.held.clear();
                true
            }
            Err(taken) => {
                self.held.release(taken);
                false
            }
        }
    }
}

impl<K: Sink> Sink for Buffer<K> {
    ghost use Rattle.plan_session.specs.Buffering.{taken_by};

    ghost taken = { taken_by K.taken };

    ghost has_failed = { λ b. K.has_failed b.out };

    /// Holds all the bytes if there is room for them; otherwise as many as there is room for, after
    /// a flush if the buffer is full.
    fn put(&mut self, bytes: &[u8]) -> Option<usize> {
        if self.out.failed() {
            return None;
        }
        if self.held.has_room(bytes.len()) {
            self.held.append(bytes);
            return Some(bytes.len());
        }
        self.put_part(bytes)
    }

    fn failed(&self) -> bool {
        self.out.failed()
    }
}

/// Of this many frames of this size and this many bytes of the next frame, the last `held` bytes
/// were not delivered. Returns the number of frames that were delivered whole, and of bytes
/// delivered of the next one.
pub(crate) fn delivered(frames: u128, bytes: usize, held: usize, size: usize) -> (u128, usize)
    requires some { 0 < size }
    requires few { held + size ≤ 100000 }
{
    if held <= bytes {
        return (frames, bytes - held);
    }
    let back = (held - bytes).div_ceil(size);
    (
        frames.saturating_sub(back as u128),
        bytes + back * size - held,
    )
}
