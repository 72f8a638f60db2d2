//! Frames on their way to the output, which are held to be written together.

ghost use Rattle.std.specs.Prelude.{◌≡◌, ◌+◌, ◌<◌, ◌≤◌, [], true, length, OnOk};
ghost use Rattle.std.specs.Io.KnownBytes.{Appends, Keeps};

use arrayvec::ArrayVec;
use console::output::write_out;
use std::io::Write;

/// What an output took before it failed: whole frames, and bytes of the next one.
#[derive(Clone, Copy)]
pub struct Taken {
    /// The whole frames.
    pub frames: u64,
    /// The bytes of the next one, fewer than a frame has.
    pub bytes: usize,
}

/// An output of frames of one size, which are held until they are written together.
///
/// The bytes that the output has taken, followed by those that are held, are always those of all
/// frames so far.
#[derive(Drop)]
pub struct HeldFrames<'o, W> {
    out: &'o mut W,
    /// The frames that are held: 682 of three FIBs, or 512 of four, have room.
    held: ArrayVec<u8, 65536>,
    /// The size of a frame.
    size: usize,
    /// The number of frames that the output has taken.
    taken: u64,
}

impl<'o, W: Write> HeldFrames<'o, W> {
    ghost use Rattle.cli_streams.specs.Held.{IsWritten, finished, writer_of};

    /// No frame so far.
    pub fn new(out: &'o mut W, size: usize) -> Self
        ensures none { result.held.items ≡ [] }
        ensures out { writer_of result ≡ out.old }
        ensures output { result.out.ghost_name ≡ out.entry.ghost_name }
        ensures size { result.size ≡ size }
    {
        HeldFrames {
            out,
            held: ArrayVec::new(),
            size,
            taken: 0,
        }
    }

    /// The size of a frame.
    pub fn size(&self) -> usize
        ensures { result ≡ self.now.size }
    {
        self.size
    }

    /// Whether another frame can be held.
    pub fn has_room(&self) -> bool
        ensures { result ≡ true → length self.now.held.items + self.now.size ≤ 65536 }
    {
        self.held.remaining_capacity() >= self.size
    }

    /// Holds a frame behind those that are held.
    pub fn hold(&mut self, frame: &[u8])
        requires size { length frame.now ≡ self.old.size }
        requires room { length self.old.held.items + self.old.size ≤ 65536 }
        ensures frame { Appends (finished W.contents self.old) (finished W.contents self.new)
            frame.now }
        ensures held { length self.new.held.items ≡ length self.old.held.items + self.old.size }
        ensures size { self.new.size ≡ self.old.size }
        ensures output { self.new.out.ghost_name ≡ self.old.out.ghost_name }
    {
        let _ = self.held.try_extend_from_slice(frame);
    }

    /// Writes the frames that are held, and flushes the output.
    ///
    /// # Errors
    ///
    /// What the output took in all, if a write or the flush fails. Nothing is to be written after
    /// that.
    pub fn write(&mut self) -> Result<(), Taken>
        requires size { 0 < self.old.size }
        ensures written { OnOk result (IsWritten W.contents self.new) }
        ensures kept { OnOk result
            (Keeps (finished W.contents self.old) (finished W.contents self.new)) }
        ensures size { self.new.size ≡ self.old.size }
        ensures output { self.new.out.ghost_name ≡ self.old.out.ghost_name }
    {
        if self.held.is_empty() {
            return Ok(());
        }
        let (taken, result) = write_out(self.held.as_slice(), self.out);
        if result.is_err() || self.out.flush().is_err() {
            return Err(self.taken_of(taken));
        }
        self.taken = self.taken_of(taken).frames;
        self.held.clear();
        Ok(())
    }

    /// What the output has taken with these bytes of those that are held.
    fn taken_of(&self, bytes: usize) -> Taken
        requires size { 0 < self.now.size }
    {
        Taken {
            frames: self.taken.saturating_add((bytes / self.size) as u64),
            bytes: bytes % self.size,
        }
    }
}
