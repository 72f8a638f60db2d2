//! `dabplan frame`: prints one frame of the configuration in a record.

ghost use Rattle.std.specs.Prelude.{◌≡◌, IfOk, OnOk, true};
ghost use Rattle.std.specs.Io.KnownBytes.{Appends};
ghost use Rattle.console.specs.Printed.{printed};
ghost use Rattle.console.specs.World.{Stays};
ghost use Rattle.cli_streams.specs.Frame.{frame_of, page_or_fault, sent};
ghost use Rattle.cli_streams.specs.Success.{HasFrame, ShowsFrame, StreamsFrame, known_at};

use console::exit::{Failure, Status, read_input};
use console::files::Files;
use console::hexadecimal::digits_of_fib;
use console::output::{Output, write_through};
use fib_carousel::{page, pages};
use fib_codec::{FibFrame, FrameLayout, Mode};
use mux_config::{Config, ConfigFault, Ensemble, RecordFault, read_config, soundness};
use std::alloc::Global;
use std::error;
use std::fmt::{self, Display, Formatter};
use std::io::{self, Write};

/// The most bytes of a configuration record: the three numbers, 64 sub-channels and 64 packet
/// components of 7 bytes each, and 64 services of 4 bytes with 12 components of 3 bytes each. One
/// byte more is read, to detect bytes after the record.
const MOST_BYTES: usize = 3 + 64 * 7 + 64 * (4 + 12 * 3) + 64 * 7;

/// The arguments of `frame`.
#[derive(Clone, Copy)]
pub struct FrameRequest<'a> {
    /// The path of the configuration record, or `-` for standard input.
    pub config: &'a str,
    /// The layout of the frame: the transmission mode, and the number of FIBs that the entries
    /// leave free.
    pub layout: FrameLayout,
    /// The identifier of the ensemble and the CIF count, without change flags.
    pub ensemble: Ensemble,
    /// The page number, from 0.
    pub page: u16,
    /// Whether the FIBs are written as bytes rather than as digits.
    pub raw: bool,
}

/// Why a record gives no frame, in the order in which [`frame_of`] tests.
#[derive(Clone, Copy, Debug)]
pub enum FrameFault {
    /// The bytes are not a configuration record.
    Record(RecordFault),
    /// Bytes follow the record.
    Trailing,
    /// The configuration is not sound.
    Unsound(ConfigFault),
    /// The configuration has no page of this number.
    NoSuchPage,
}

impl Display for FrameFault {
    /// The printed line.
    fn fmt<W: fmt::Write>(&self, f: &mut Formatter<W>) -> fmt::Result {
        match self {
            FrameFault::Record(RecordFault::Short) => f.write_str("record: Short"),
            FrameFault::Record(RecordFault::Field(offset)) => write!(f, "record: Field {offset}"),
            FrameFault::Record(RecordFault::Order) => f.write_str("record: Order"),
            FrameFault::Trailing => f.write_str("record: trailing"),
            FrameFault::Unsound(ConfigFault::Overlap(low, high)) => {
                write!(f, "refused: Overlap {} {}", low.get(), high.get())
            }
            FrameFault::Unsound(ConfigFault::Orphan) => f.write_str("refused: Orphan"),
            FrameFault::Unsound(ConfigFault::AddressUsed) => f.write_str("refused: AddressUsed"),
            FrameFault::Unsound(ConfigFault::EmptyService) => f.write_str("refused: EmptyService"),
            FrameFault::NoSuchPage => f.write_str("refused: no such page"),
        }
    }
}

impl error::Error for FrameFault {}

/// Runs `frame`: prints the FIBs of the frame, three or in mode III four, a line each.
///
/// # Errors
///
/// `Read` if the record can't be read, or `Memory` if out of memory, before anything is printed;
/// `Output` if the output failed, after which nothing is printed.
#[tactic(auto, using(crate::proofs::Checked::shows_frame, crate::proofs::Checked::shows_fault))]
pub fn show_frame<'a, F: Files, W: Write>(
    alloc: Global,
    request: &FrameRequest<'a>,
    files: &mut F,
    out: &mut Output<W>,
) -> Result<Status, Failure<'a>>
    ensures success { IfOk result (ShowsFrame request.now
        (known_at (F.known files.old) (F.known_input files.old) request.now.config.now)
        (printed W.contents out.old) (printed W.contents out.new)) }
    ensures world { Stays (F.world files.old) (F.world files.new) }
{
    match asked_frame(alloc, request, files)? {
        Ok(frame) => {
            print_frame(&frame, request.raw, out)?;
            Ok(Status::Done)
        }
        Err(fault) => {
            writeln!(out, "{fault}")?;
            Ok(Status::Refused)
        }
    }
}

/// Runs `frame --raw`: writes the FIBs of the frame to `out` as bytes, whole, and nothing else; or
/// why there is none to `lines`. Whether the request is for bytes does not matter.
///
/// The failures are those of [`show_frame`]: `Output` if `out` fails, which may have taken some
/// bytes then, or if `lines` fails.
#[tactic(auto, using(crate::proofs::Checked::streams_frame, crate::proofs::Checked::streams_fault))]
pub fn stream_frame<'a, F: Files, W: Write, L: Write>(
    alloc: Global,
    request: &FrameRequest<'a>,
    files: &mut F,
    out: &mut W,
    lines: &mut L,
) -> Result<Status, Failure<'a>>
    ensures success { IfOk result (StreamsFrame request.now
        (known_at (F.known files.old) (F.known_input files.old) request.now.config.now)
        (W.contents out.old) (W.contents out.new)) }
    ensures world { Stays (F.world files.old) (F.world files.new) }
{
    match asked_frame(alloc, request, files)? {
        Ok(frame) => {
            write_through(frame.bytes(), out)?;
            Ok(Status::Done)
        }
        Err(fault) => {
            writeln!(lines, "{fault}")?;
            Ok(Status::Refused)
        }
    }
}

/// The frame of a request, or why there is none. `Read` if the record can't be read, `Memory` if
/// out of memory.
fn asked_frame<'a, F: Files>(
    alloc: Global,
    request: &FrameRequest<'a>,
    files: &mut F,
) -> Result<Result<FibFrame, FrameFault>, Failure<'a>>
    ensures frame { IfOk result (HasFrame request.now
        (known_at (F.known files.old) (F.known_input files.old) request.now.config.now)) }
    ensures world { Stays (F.world files.old) (F.world files.new) }
{
    let record = read_input(alloc, files, request.config, MOST_BYTES + 1)?;
    Ok(frame_of(
        record.as_slice(),
        request.layout,
        request.ensemble,
        request.page,
    ))
}

/// The FIBs of page `index` of the configuration in a record, with FIG 0/0 of `ensemble` if its
/// count is a multiple of the mode's step: 4, 1, 1 or 2 (EN 300 401 clauses 5.1 and 6.4). The
/// reserved FIBs of the layout are empty.
///
/// Returns the first fault: `Record`, `Trailing`, `Unsound`, `NoSuchPage`.
pub fn frame_of(
    bytes: &[u8],
    layout: FrameLayout,
    ensemble: Ensemble,
    index: u16,
) -> Result<FibFrame, FrameFault>
    ensures { result ≡ frame_of layout ensemble index bytes.now }
{
    let (config, length) = match read_config(bytes) {
        Ok(read) => read,
        Err(fault) => return Err(FrameFault::Record(fault)),
    };
    if length < bytes.len() {
        return Err(FrameFault::Trailing);
    }
    if let Err(fault) = soundness(&config) {
        return Err(FrameFault::Unsound(fault));
    }
    page_of(&config, layout, ensemble, index)
}

/// The FIBs of page `index` of a configuration; `NoSuchPage` if there is no such page.
pub fn page_of<'a>(
    config: &'a Config,
    layout: FrameLayout,
    ensemble: Ensemble,
    index: u16,
) -> Result<FibFrame, FrameFault>
    ensures { result ≡ page_or_fault layout ensemble index config.now }
{
    let alone: Option<&'a Config> = None;
    let index = usize::from(index);
    if index >= pages(layout, config, alone) {
        return Err(FrameFault::NoSuchPage);
    }
    Ok(page(layout, config, alone, index, sent(layout.mode(), ensemble)))
}

/// The ensemble information of this frame, which is sent if the count is a multiple of the mode's
/// step.
fn sent(mode: Mode, ensemble: Ensemble) -> Option<Ensemble>
    ensures { result ≡ sent mode ensemble }
{
    if ensemble.count() % mode.step() == 0 {
        Some(ensemble)
    } else {
        None
    }
}

/// Prints the FIBs of a frame as bytes, or as 64 hexadecimal digits each.
pub fn print_frame<W: Write>(frame: &FibFrame, raw: bool, out: &mut W) -> io::Result<()>
    ensures { raw ≡ true
        → OnOk result (Appends (W.contents out.old) (W.contents out.new) frame.now) }
{
    if raw {
        return out.write_all(frame.bytes());
    }
    for fib in frame.bytes().as_chunks::<32>().0 {
        out.write_all(digits_of_fib(fib).as_slice())?;
        out.write_all(b"\n")?;
    }
    Ok(())
}
