//! The frames of the multiplexer that `merge` reads beside the plan's.

ghost use Rattle.std.specs.Prelude.{◌≡◌, ◌+◌, ◌%◌, ◌<◌, ◌≤◌, ℕ, List, Option, length, OnOk, true};
ghost use Rattle.std.specs.Io.KnownBytes.{Keeps};
ghost use Rattle.stream_check.specs.Frames.{Reading};
ghost use Rattle.stream_monitor.specs.Buffered.{left_of};
ghost use Rattle.cli_streams.specs.Held.{IsWritten, finished};
ghost use Rattle.cli_streams.specs.Merged.{ReadsFrame, TakesAs, TakesFrames, TakesNext};
ghost use Rattle.cli_streams.specs.Merged.{after_frame_taken};
ghost use Rattle.console.specs.declared.exit.Status.TheVariants.{Done};

use crate::frame_reader::FrameReader;
use crate::held_frames::HeldFrames;
use crate::merge::{LONGEST, MergeFault, make_way, read_frame, refuse_other};
use console::exit::Status;
use console::files::Files;
use fig_merge::Merger;
use std::io::{Read, Write};

/// The frames of a multiplexer, as far as they are read.
#[derive(Drop)]
pub(crate) struct OtherFrames<'a, R: Read + Drop> {
    source: FrameReader<R>,
    path: &'a str,
    /// Whether none of them was read.
    is_first: bool,
    /// Whether there may be more of them.
    is_open: bool,
    /// `Refused` if they can't be read on.
    pub(crate) status: Status,
}

impl<'a, R: Read + Drop> OtherFrames<'a, R> {
    /// None read so far.
    pub(crate) fn new(source: FrameReader<R>, path: &'a str) -> Self
        ensures source { result.source ≡ source }
        ensures open { (result.is_open ≡ true) × (result.status ≡ Done) }
    {
        OtherFrames {
            source,
            path,
            is_first: true,
            is_open: true,
            status: Status::Done,
        }
    }

    /// Writes the frames that are held, unless the next frame is buffered, or there may be none.
    pub(crate) fn make_way<W: Write>(
        &self,
        out: &mut HeldFrames<'_, W>,
    ) -> Result<(), MergeFault<'a>>
        requires size { (0 < out.old.size) × (out.old.size ≤ 65536) }
        requires room { length out.old.held.items + out.old.size ≤ 65536 }
        ensures written { OnOk result (self.now.is_open ≡ true
            → length self.now.source.ahead < out.old.size → IsWritten W.contents out.new) }
        ensures room { OnOk result (length out.new.held.items + out.old.size ≤ 65536) }
        ensures kept { OnOk result
            (Keeps (finished W.contents out.old) (finished W.contents out.new)) }
        ensures size { out.new.size ≡ out.old.size }
        ensures output { out.new.out.ghost_name ≡ out.old.out.ghost_name }
    {
        if self.is_open {
            make_way(&self.source, out)
        } else {
            Ok(())
        }
    }

    /// Takes the FIGs of the next frame of this size, while there is one. That there is less than a
    /// frame, that it can't be read, or that the first one is of another format, is reported at
    /// once, and no more is read.
    pub(crate) fn take_next<F: Files, W: Write>(
        &mut self,
        size: usize,
        merger: &mut Merger,
        files: &mut F,
        out: &HeldFrames<'_, W>,
    )
        requires size { (0 < size) × (size % 32 ≡ 0) × (size ≤ 128) }
        requires written { self.old.is_open ≡ true → length self.old.source.ahead < size
            → IsWritten W.contents out.now }
        ensures takes { (before : Option (List ℕ)) (count : ℕ) (taken : List (List ℕ))
            → TakesFrames size before (left_of self.old.source) self.old.is_open
            self.old.status count taken
            → TakesNext size before (left_of self.new.source) self.new.is_open
            self.new.status count taken merger.old merger.new }
    {
        if !self.is_open {
            return;
        }
        let is_first = self.is_first;
        self.is_first = false;
        match take_frame(&mut self.source, size, merger, self.path, is_first, out) {
            Ok(more) => self.is_open = more,
            Err(fault) => {
                files.report(fault);
                self.is_open = false;
                self.status = Status::Refused;
            }
        }
    }
}

/// Takes the FIGs of the next frame of this size of the file of this path, and returns whether
/// there is one. Those of a frame that is not whole are not taken, nor those of the first one if
/// the file is of another format.
fn take_frame<'a, R: Read + Drop, W: Write>(
    source: &mut FrameReader<R>,
    size: usize,
    merger: &mut Merger,
    path: &'a str,
    is_first: bool,
    out: &HeldFrames<'_, W>,
) -> Result<bool, MergeFault<'a>>
    requires size { (0 < size) × (size % 32 ≡ 0) × (size ≤ 128) }
    requires written { length source.old.ahead < size → IsWritten W.contents out.now }
    ensures takes { (frame : List ℕ) × (length frame ≡ size)
        × ReadsFrame (left_of source.old) (left_of source.new) frame result
        × TakesAs frame result merger.old merger.new }
{
    let mut buffer = [0; LONGEST];
    let frame = &mut buffer[..size];
    let result = read_frame(source, frame, path, out);
    if let Ok(true) = result {
        if is_first {
            refuse_other(frame, path)?;
        }
        take_fibs(frame, merger);
    }
    result
}

/// Takes the FIGs of a frame.
fn take_fibs(frame: &[u8], merger: &mut Merger)
    ensures { (r : Reading) → merger.new ≡ after_frame_taken r frame.now merger.old }
{
    for fib in frame.as_chunks::<32>().0 {
        merger.take(fib);
    }
}
