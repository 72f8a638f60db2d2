//! `dabplan listen --script`: prints the current configuration of a stream of FIBs as a script.

ghost use Rattle.std.specs.Prelude.{◌≡◌, ◌≢◌, ℕ, ◌≤◌, List, codes, IfOk, IfSome, OnOk};
ghost use Rattle.std.specs.Io.KnownBytes.{Appends, Consumes, IsAtEnd};
ghost use Rattle.console.specs.declared.exit.Status.TheVariants.{Refused};
ghost use Rattle.plan_code.specs.Program.{IsPlan};
ghost use Rattle.script_config.specs.Texts.{IsTextOf};
ghost use Rattle.cli_scripts.specs.Naming.{HearsNamed, ended_named};
ghost use Rattle.cli_scripts.specs.ScriptOfStream.{clamped, header_of, HasScript};
ghost use Rattle.fib_reader.specs.Listening.{picture_of};
ghost use Rattle.cli_scripts.specs.Success.{TellsScript};

use cli_streams::entries::print_head;
use cli_streams::listen::{Heard, MOST_PIECES, StreamFault};
use console::escaped::Escaped;
use console::exit::{Failure, Status, pieces_of};
use console::files::{FileFault, Files};
use console::pieces::Pieces;
use fib_codec::FrameLayout;
use fib_reader::{Listener, OwnedEntry, Picture};
use mux_config::Config;
use plan_code::Plan;
use plan_code::limits::{LONGEST_NOTICE, LONGEST_PERIOD, SHORTEST_NOTICE};
use script_config::{config_heard, config_text, eid_after, usual_period};
use std::alloc::Global;
use std::fmt::{self, Display, Formatter};
use std::io::{Read, Write};
use stream_monitor::Hints;

/// The arguments of `listen --script`.
#[derive(Clone, Copy)]
pub struct ListenScriptRequest<'a> {
    /// The path of the file of FIBs, or `-` for standard input.
    pub file: &'a str,
    /// The layout of a frame of the script: the transmission mode, which FIBs do not carry, and the
    /// reserve.
    pub layout: FrameLayout,
    /// The period, in frames, 1 to 60; `None` for the default.
    pub period: Option<u8>,
    /// The notice, in frames, 12 to 248.
    pub notice: u8,
    /// The budget, in instructions per frame, 1 to 255.
    pub budget: u8,
    /// Whether the next configuration is printed, rather than the current one.
    pub is_next: bool,
}

/// That a swap is announced in the stream of this path, for the count of this low part.
#[derive(Clone, Copy)]
struct SwapAnnounced<'p> {
    path: &'p str,
    low: u8,
}

impl Display for SwapAnnounced<'_> {
    fn fmt<W: fmt::Write>(&self, f: &mut Formatter<W>) -> fmt::Result {
        let low = self.low;
        write!(
            f,
            "{}: swap announced, at low {low}: this is the configuration before it",
            Escaped::in_line(self.path)
        )
    }
}

/// A decoded stream, and the ensemble of its last FIG 0/0.
#[derive(Drop)]
pub struct Named {
    /// The decoded stream.
    pub heard: Heard,
    /// The EId of the last FIG 0/0; `None` if there is none.
    pub eid: Option<u16>,
}

/// Runs `listen --script`: prints the script of the current configuration at the end of the file,
/// or of standard input if the path is `-`; or of the next one, if that is asked for. Where a swap
/// is awaited, standard error says that the current configuration is the one before it.
///
/// `Read` if the file can't be read, or `Memory` if out of memory: nothing is printed then.
/// `Output` if `out` fails: it has taken a part, from the first byte on.
pub fn show_script<'a, F: Files, W: Write>(
    alloc: Global,
    request: &ListenScriptRequest<'a>,
    files: &mut F,
    out: &mut W,
) -> Result<Status, Failure<'a>>
    ensures input { IfOk result (λ status. request.now.file.now ≡ codes "-"
        → IfSome (F.known_input files.old) (λ stream. TellsScript stream request.now
        (Appends (W.contents out.old) (W.contents out.new)) status)) }
    ensures file { IfOk result (λ status. request.now.file.now ≢ codes "-"
        → IfSome (F.known files.old request.now.file.now) (λ stream. TellsScript stream
        request.now (Appends (W.contents out.old) (W.contents out.new)) status)) }
{
    let mut pieces = pieces_of(alloc, files, request.file)?;
    let mut hints = Hints::new(request.file);
    match name_of(&mut pieces, &mut hints, files) {
        Ok(Ok(named)) => {
            if let (false, Some(low)) = (request.is_next, named.heard.listener.swap_at()) {
                files.report(SwapAnnounced {
                    path: request.file,
                    low,
                });
            }
            print_named(alloc, request, &named, out)
        }
        Ok(Err(fault)) => print_fault(fault, out),
        Err(fault) => Err(Failure::of_file(fault, request.file)),
    }
}

/// Decodes a stream of FIBs as [`listen_to`](cli_streams::listen::listen_to) does, and the ensemble
/// of the last FIG 0/0 (OE 0) in FIBs that are not damaged (EN 300 401 clause 6.4).
///
/// `Failed` if the source of the pieces fails.
#[tactic(auto, using(crate::proofs::Naming::ends_named))]
pub fn name_of<R: Read + Drop, F: Files>(
    pieces: &mut Pieces<R>,
    hints: &mut Hints<'_>,
    files: &mut F,
) -> Result<Result<Named, StreamFault>, FileFault>
    ensures hears { IfOk result (λ given. (stream : List ℕ)
        × Consumes pieces.old.left pieces.new.left stream
        × IsAtEnd pieces.new.left × HearsNamed stream given) }
{
    let mut heard = Heard::new();
    let mut eid = None;
    let mut has_room = true;
    for _ in 0..MOST_PIECES {
        if !pieces.advance()? {
            hints.end(files);
            return Ok(ended(has_room, heard, eid));
        }
        let (fibs, rest) = pieces.piece().as_chunks::<32>();
        hints.look(pieces.piece(), files);
        if !rest.is_empty() {
            hints.end(files);
            return Ok(Err(StreamFault::NotWhole));
        }
        eid = eid_after(fibs, eid);
        if has_room {
            has_room = heard.hear(fibs);
        }
    }
    Err(FileFault::Failed)
}

/// The result for whole FIBs.
fn ended(has_room: bool, heard: Heard, eid: Option<u16>) -> Result<Named, StreamFault>
    ensures { result ≡ ended_named has_room heard eid }
{
    if has_room {
        Ok(Named { heard, eid })
    } else {
        Err(StreamFault::Full)
    }
}

/// Prints why a stream is refused.
fn print_fault<'a, W: Write>(fault: StreamFault, out: &mut W) -> Result<Status, Failure<'a>>
    ensures { IfOk result (λ status. status ≡ Refused) }
{
    writeln!(out, "{fault}")?;
    Ok(Status::Refused)
}

/// Prints the script of a decoded stream with an ensemble, or why there is none.
fn print_named<'a, W: Write>(
    alloc: Global,
    request: &ListenScriptRequest<'a>,
    named: &Named,
    out: &mut W,
) -> Result<Status, Failure<'a>>
    ensures { IfOk result (HasScript request.now named.now
        (Appends (W.contents out.old) (W.contents out.new))) }
{
    let Some(eid) = named.eid else {
        writeln!(out, "refused: no ensemble")?;
        return Ok(Status::Refused);
    };
    if request.is_next && named.heard.listener.swap_at().is_none() {
        writeln!(out, "refused: no swap is announced")?;
        return Ok(Status::Refused);
    }
    match config_heard(picture_of(request, &named.heard.listener)) {
        Ok(config) => {
            print_config(alloc, request, eid, &config, out)?;
            Ok(Status::Done)
        }
        Err(entry) => print_unscriptable(&entry, out),
    }
}

/// The picture that is printed.
fn picture_of<'l>(request: &ListenScriptRequest<'_>, listener: &'l Listener) -> &'l Picture
    ensures { result.now ≡ picture_of request.now.is_next listener.now }
{
    if request.is_next {
        listener.next()
    } else {
        listener.current()
    }
}

/// Prints the script of a configuration.
fn print_config<'a, W: Write>(
    alloc: Global,
    request: &ListenScriptRequest<'a>,
    eid: u16,
    config: &Config,
    out: &mut W,
) -> Result<(), Failure<'a>>
    ensures { OnOk result ((text : List ℕ)
        × IsTextOf (header_of request.now eid config.now) config.now text
        × Appends (W.contents out.old) (W.contents out.new) text) }
{
    let header = header_for(request, eid, config);
    match config_text(alloc, header, config) {
        Ok(text) => Ok(out.write_all(text.as_str().as_bytes())?),
        Err(_) => Err(Failure::Memory),
    }
}

/// A number within bounds, or the nearest one.
fn clamped(low: u8, high: u8, number: u8) -> u8
    requires { low ≤ high }
    ensures value { result ≡ clamped low high number }
    ensures range { (low ≤ result) × (result ≤ high) }
{
    if number < low {
        low
    } else if number > high {
        high
    } else {
        number
    }
}

/// The header of the script, from the request and the stream. An out-of-range number, which the
/// command line refuses, is clamped.
fn header_for(request: &ListenScriptRequest<'_>, eid: u16, config: &Config) -> Plan
    ensures value { result ≡ header_of request.now eid config.now }
    ensures headed { IsPlan result }
{
    let period = match request.period {
        Some(period) => period,
        None => usual_period(request.layout, config),
    };
    Plan {
        eid,
        layout: request.layout,
        period: clamped(1, LONGEST_PERIOD, period),
        notice: clamped(SHORTEST_NOTICE, LONGEST_NOTICE, request.notice),
        budget: clamped(1, 255, request.budget),
    }
}

/// Prints that an entry is part of no configuration.
fn print_unscriptable<'a, W: Write>(entry: &OwnedEntry, out: &mut W) -> Result<Status, Failure<'a>>
    ensures { IfOk result (λ status. status ≡ Refused) }
{
    let value = entry.as_raw_entry().value();
    out.write_all(b"refused: cannot be written: ")?;
    print_head(&value, out)?;
    Ok(Status::Refused)
}
