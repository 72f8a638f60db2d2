//! `dabplan merge`: carries the other FIGs of a multiplexer in the frames of a plan.

ghost use Rattle.std.specs.Prelude.{◌≡◌, ◌+◌, ◌*◌, ◌%◌, ◌<◌, ◌≤◌, ℕ, List, [], length, IfOk, OnOk};
ghost use Rattle.std.specs.Prelude.{true, false};
ghost use Rattle.std.specs.Io.KnownBytes.{IsAtEnd, Keeps};
ghost use Rattle.fib_codec.specs.Modes.{fib_count};
ghost use Rattle.stream_check.specs.Frames.{Reading};
ghost use Rattle.stream_monitor.specs.Buffered.{left_of};
ghost use Rattle.cli_streams.specs.Held.{IsWritten, finished, writer_of};
ghost use Rattle.cli_streams.specs.Merged.{FillsFib, Merges, ReadsFrame, after_frame_filled};
ghost use Rattle.cli_streams.specs.Merged.{frame_filled, summary_of};
ghost use Rattle.cli_streams.specs.Success.{AreTwo, MergesFiles, known_at};
ghost use Rattle.console.specs.declared.exit.Status.TheVariants.{Done};

use crate::frame_reader::FrameReader;
use crate::held_frames::{HeldFrames, Taken};
use crate::other_frames::OtherFrames;
use console::escaped::Escaped;
use console::exit::{Failure, Status, open_input};
use console::files::Files;
use fib_codec::Mode;
use fib_reader::check;
use fig_merge::Merger;
use std::alloc::Global;
use std::error;
use std::fmt::{self, Display, Formatter};
use std::io::{ErrorKind, Read, Write};
use stream_monitor::{OtherFormat, format_of};

/// More frames than any stream has.
const MOST_FRAMES: u64 = 1 << 63;

/// The bytes of the longest frame: four FIBs, in mode III.
pub(crate) const LONGEST: usize = 128;

/// The arguments of `merge`.
#[derive(Clone, Copy)]
pub struct MergeRequest<'a> {
    /// The path of the plan's frames, or `-` for standard input.
    pub plan: &'a str,
    /// The path of the multiplexer's frames, or `-` for standard input if that is not the plan's.
    pub other: &'a str,
    /// The transmission mode of both.
    pub mode: Mode,
}

/// Why frames are not merged, or the multiplexer's are not read on. Each is one line on standard
/// error, and `Status::Refused`.
#[derive(Debug, Drop)]
pub enum MergeFault<'a> {
    /// Out of memory, or a file can't be read.
    Failed(Failure<'a>),
    /// The file of this path ends within a frame.
    NotWhole(&'a str),
    /// The file of this path is of another format, by its first frame.
    OtherFormat(OtherFormat<'a>),
    /// Standard output took this many whole frames, and this many bytes of the next one.
    Write { frames: u64, bytes: usize },
}

impl Display for MergeFault<'_> {
    fn fmt<W: fmt::Write>(&self, f: &mut Formatter<W>) -> fmt::Result {
        match self {
            MergeFault::Failed(failure) => write!(f, "{failure}"),
            MergeFault::NotWhole(path) => {
                write!(f, "{}: not whole frames", Escaped::in_line(path))
            }
            MergeFault::OtherFormat(fault) => write!(f, "{fault}"),
            MergeFault::Write { frames, bytes } => {
                write!(f, "write failed after {frames} frames and {bytes} bytes")
            }
        }
    }
}

impl error::Error for MergeFault<'_> {}

/// What was merged.
#[derive(Clone, Copy)]
pub struct MergeSummary {
    /// The frames of the plan.
    pub frames: u64,
    /// The FIGs that were carried.
    pub carried: u64,
    /// The FIGs that wait still.
    pub waiting: usize,
    /// The FIGs that were dropped, since 256 others waited.
    pub dropped: u64,
    /// The FIGs that did not agree with the plan's configuration when their turn came.
    pub stale: u64,
    /// The damaged FIBs of both inputs.
    pub damaged: u64,
}

impl Display for MergeSummary {
    fn fmt<W: fmt::Write>(&self, f: &mut Formatter<W>) -> fmt::Result {
        let MergeSummary {
            frames,
            carried,
            waiting,
            dropped,
            stale,
            damaged,
        } = *self;
        write!(f, "frames {frames} carried {carried} waiting {waiting} ")?;
        write!(f, "dropped {dropped} stale {stale} damaged {damaged}")
    }
}

/// Runs `merge`: the frames of the plan, with FIGs of the multiplexer in their free room, are
/// written to `out`. All frames so far are written, and `out` is flushed, before a file is asked
/// for more bytes; until then they are held, so that frames which are read together are written
/// together. The summary, and that the multiplexer's frames can't be read on, are reported on
/// standard error; then the status is `Refused`, though all of the plan's frames are written.
///
/// # Errors
///
/// `Failed` if a file can't be opened, the plan's can't be read, or if out of memory; `NotWhole` if
/// the plan's ends within a frame; `OtherFormat` if the plan's is ETI or EDI; `Write` if `out`
/// fails. What was written before stays.
pub fn show_merged<'a, F: Files, W: Write>(
    alloc: Global,
    request: &MergeRequest<'a>,
    files: &mut F,
    out: &mut W,
) -> Result<Status, MergeFault<'a>>
    ensures success { AreTwo request.now.plan.now request.now.other.now
        → IfOk result (MergesFiles (fib_count request.now.mode * 32)
        (known_at (F.known files.old) (F.known_input files.old) request.now.plan.now)
        (known_at (F.known files.old) (F.known_input files.old) request.now.other.now)
        (W.contents out.old) (W.contents out.new)) }
{
    let mut plan = match frames_of(alloc, files, request.plan) {
        Ok(source) => source,
        Err(failure) => return Err(MergeFault::Failed(failure)),
    };
    let mut other = match frames_of(alloc, files, request.other) {
        Ok(source) => OtherFrames::new(source, request.other),
        Err(failure) => return Err(MergeFault::Failed(failure)),
    };
    let mut buffer = [0; LONGEST];
    let frame = &mut buffer[..request.mode.fibs() * 32];
    match merge_frames(&mut plan, request.plan, &mut other, frame, files, out) {
        Ok(summary) => {
            files.report(summary);
            Ok(other.status)
        }
        Err(fault) => Err(fault),
    }
}

/// The frames of the file of this path, or of standard input if the path is `-`.
fn frames_of<'a, F: Files>(
    alloc: Global,
    files: &mut F,
    path: &'a str,
) -> Result<FrameReader<F::In>, Failure<'a>>
    ensures bytes { IfOk result (λ source.
        Keeps (known_at (F.known files.old) (F.known_input files.old) path.now)
        (left_of source)) }
    ensures kept { (other : List ℕ) → AreTwo path.now other
        → Keeps (known_at (F.known files.old) (F.known_input files.old) other)
        (known_at (F.known files.new) (F.known_input files.new) other) }
{
    let mut source = open_input(files, path)?;
    if !can_be_read(&mut source) {
        return Err(Failure::Read(path));
    }
    FrameReader::new(alloc, source).map_err(|_| Failure::Memory)
}

/// Whether a source can be read. A folder can be opened, and not read: a read of no bytes fails
/// there, and takes nothing elsewhere.
fn can_be_read<R: Read>(source: &mut R) -> bool
    ensures { Keeps (R.remaining source.old) (R.remaining source.new) }
{
    match source.read(&mut []) {
        Ok(_) => true,
        Err(error) => error.kind() == ErrorKind::Interrupted,
    }
}

/// Merges the plan's frames, one after the other, with those of the multiplexer, to the plan's end,
/// and returns what is to be reported then. `frame` has the size of a frame.
fn merge_frames<'a, P: Read + Drop, O: Read + Drop, F: Files, W: Write>(
    plan: &mut FrameReader<P>,
    path: &'a str,
    other: &mut OtherFrames<'a, O>,
    frame: &mut [u8],
    files: &mut F,
    out: &mut W,
) -> Result<MergeSummary, MergeFault<'a>>
    requires size { (0 < length frame.old) × (length frame.old % 32 ≡ 0)
        × (length frame.old ≤ 128) }
    requires open { (other.old.is_open ≡ true) × (other.old.status ≡ Done) }
    ensures merges { IfOk result (Merges (length frame.old) (left_of plan.old)
        (left_of other.old.source) (W.contents out.old) (W.contents out.new) other.new.status) }
{
    let mut held = HeldFrames::new(out, frame.len());
    merge_held(plan, path, other, frame, files, &mut held)
}

/// The same over an output that holds frames, none so far.
fn merge_held<'a, P: Read + Drop, O: Read + Drop, F: Files, W: Write>(
    plan: &mut FrameReader<P>,
    path: &'a str,
    other: &mut OtherFrames<'a, O>,
    frame: &mut [u8],
    files: &mut F,
    out: &mut HeldFrames<'_, W>,
) -> Result<MergeSummary, MergeFault<'a>>
    requires size { (0 < length frame.old) × (length frame.old % 32 ≡ 0)
        × (length frame.old ≤ 128) }
    requires open { (other.old.is_open ≡ true) × (other.old.status ≡ Done) }
    requires first { out.old.held.items ≡ [] }
    requires sized { out.old.size ≡ length frame.old }
    ensures merges { IfOk result (Merges (length frame.old) (left_of plan.old)
        (left_of other.old.source) (W.contents (writer_of out.old))
        (W.contents (writer_of out.new)) other.new.status) }
    ensures output { out.new.out.ghost_name ≡ out.old.out.ghost_name }
{
    let mut merger = Merger::new();
    for frames in 0..MOST_FRAMES {
        make_way(plan, out)?;
        if !read_frame(plan, frame, path, out)? {
            return Ok(summary_of(frames, &merger));
        }
        if frames == 0 {
            refuse_other(frame, path)?;
        }
        other.make_way(out)?;
        other.take_next(frame.len(), &mut merger, files, out);
        fill_frame(frame, &mut merger);
        out.hold(frame);
    }
    write_held(out)?;
    Err(MergeFault::Failed(Failure::Read(path)))
}

/// Refuses the file of a path that begins with this frame, if that is ETI or EDI, and the frame's
/// first FIB is damaged.
pub(crate) fn refuse_other<'a>(frame: &[u8], path: &'a str) -> Result<(), MergeFault<'a>> {
    let (fibs, _) = frame.as_chunks::<32>();
    if let Some(fib) = fibs.first() {
        if check(fib).is_ok() {
            return Ok(());
        }
    }
    match format_of(frame) {
        Some(format) => Err(MergeFault::OtherFormat(OtherFormat { path, format })),
        None => Ok(()),
    }
}

/// Writes the frames that are held, unless the next frame of a source is buffered, and there is
/// room to hold it too.
pub(crate) fn make_way<'a, R: Read + Drop, W: Write>(
    source: &FrameReader<R>,
    out: &mut HeldFrames<'_, W>,
) -> Result<(), MergeFault<'a>>
    requires size { (0 < out.old.size) × (out.old.size ≤ 65536) }
    ensures written { OnOk result
        (length source.now.ahead < out.old.size → IsWritten W.contents out.new) }
    ensures room { OnOk result (length out.new.held.items + out.old.size ≤ 65536) }
    ensures kept { OnOk result (Keeps (finished W.contents out.old) (finished W.contents out.new)) }
    ensures size { out.new.size ≡ out.old.size }
    ensures output { out.new.out.ghost_name ≡ out.old.out.ghost_name }
{
    if source.len() >= out.size() && out.has_room() {
        return Ok(());
    }
    write_held(out)
}

/// Writes the frames that are held, and flushes the output.
fn write_held<'a, W: Write>(out: &mut HeldFrames<'_, W>) -> Result<(), MergeFault<'a>>
    requires size { 0 < out.old.size }
    ensures written { OnOk result (IsWritten W.contents out.new) }
    ensures kept { OnOk result (Keeps (finished W.contents out.old) (finished W.contents out.new)) }
    ensures size { out.new.size ≡ out.old.size }
    ensures output { out.new.out.ghost_name ≡ out.old.out.ghost_name }
{
    match out.write() {
        Ok(()) => Ok(()),
        Err(Taken { frames, bytes }) => Err(MergeFault::Write { frames, bytes }),
    }
}

/// Reads the next frame of the file of this path, and returns whether there is one. The file is
/// asked for bytes only where the frame is not buffered, and then all frames so far are written.
pub(crate) fn read_frame<'a, R: Read + Drop, W: Write>(
    source: &mut FrameReader<R>,
    frame: &mut [u8],
    path: &'a str,
    out: &HeldFrames<'_, W>,
) -> Result<bool, MergeFault<'a>>
    requires size { (0 < length frame.old) × (length frame.old ≤ 128) }
    requires written { length source.old.ahead < length frame.old → IsWritten W.contents out.now }
    ensures whole { length frame.new ≡ length frame.old }
    ensures reads { ReadsFrame (left_of source.old) (left_of source.new) frame.new result }
    ensures end { IfOk result (λ more. more ≡ false
        → length source.old.ahead < length frame.old) }
{
    match source.next(frame.len(), out) {
        Ok(true) => {
            frame.copy_from_slice(source.front(frame.len()));
            source.pass(frame.len());
            Ok(true)
        }
        Ok(false) => end_of(source, path),
        Err(_) => Err(MergeFault::Failed(Failure::Read(path))),
    }
}

/// Passes over the bytes at the end of a file, which are less than a frame; `NotWhole` if there are
/// some.
fn end_of<'a, R: Read + Drop>(
    source: &mut FrameReader<R>,
    path: &'a str,
) -> Result<bool, MergeFault<'a>>
    requires end { IsAtEnd source.old.behind }
    ensures reads { (frame : List ℕ)
        → ReadsFrame (left_of source.old) (left_of source.new) frame result }
    ensures none { IfOk result (λ more. more ≡ false) }
{
    let cut = source.len();
    source.pass(cut);
    if cut == 0 {
        Ok(false)
    } else {
        Err(MergeFault::NotWhole(path))
    }
}

/// Fills the FIBs of a frame.
fn fill_frame(frame: &mut [u8], merger: &mut Merger)
    requires { length frame.old % 32 ≡ 0 }
    ensures bytes { (r : Reading) → frame.new ≡ frame_filled r frame.old merger.old }
    ensures merger { (r : Reading) → merger.new ≡ after_frame_filled r frame.old merger.old }
    ensures whole { length frame.new ≡ length frame.old }
{
    for index in 0..frame.len() / 32 {
        fill_fib(frame, index * 32, merger);
    }
}

/// Fills the FIB at an offset of a frame.
fn fill_fib(frame: &mut [u8], offset: usize, merger: &mut Merger)
    requires { offset + 32 ≤ length frame.old }
    ensures fills { FillsFib offset frame.old frame.new merger.old merger.new }
    ensures whole { length frame.new ≡ length frame.old }
{
    let mut fib = [0; 32];
    fib.copy_from_slice(&frame[offset..offset + 32]);
    merger.fill(&mut fib);
    frame[offset..offset + 32].copy_from_slice(&fib);
}

/// What was merged in this many frames.
fn summary_of(frames: u64, merger: &Merger) -> MergeSummary
    ensures { result ≡ summary_of frames merger.now }
{
    MergeSummary {
        frames,
        carried: merger.carried(),
        waiting: merger.waiting(),
        dropped: merger.dropped(),
        stale: merger.stale(),
        damaged: merger.damaged(),
    }
}
