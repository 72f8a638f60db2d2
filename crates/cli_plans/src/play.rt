//! `dabplan play`: plays a plan code over events, and writes its frames to a file or to standard
//! output.

ghost use Rattle.std.specs.Prelude.{◌≡◌, ◌≢◌, ◌⊎◌, Err, IfOk, IfErr, IsOk};
ghost use Rattle.console.specs.declared.exit.Status.TheVariants.{Done as PlayedToEnd};
ghost use Rattle.console.specs.declared.exit.Status.TheVariants.{Refused as GotVerdict};
ghost use Rattle.plan_session.specs.Playback.{asked_from, IsRunFault};
ghost use Rattle.plan_session.specs.declared.run_fault.RunFault.TheVariants.{Events};
ghost use Rattle.cli_plans.specs.Success.{Plays, PlaysToOutput, IsPlayedInto, IsPlayedTo};
ghost use Rattle.cli_plans.specs.Success.{EndsWithVerdict, RefusesPlay};

use crate::event_file::read_event_text;
use crate::item_notes::{lines_on_items, report_items};
use crate::item_place::Listing;
use crate::writer_sink::WriterSink;
use console::code_file::read_code;
use console::exit::{Failure, Status, touch_file};
use console::files::Files;
use plan_code::CodeFault;
use plan_session::{EventFault, RunFault, Session, StartOptions, StepList, play_into};
use std::alloc::Global;
use std::io::{self, Write};

/// The arguments of `play`.
#[derive(Clone, Copy)]
pub struct PlayRequest<'a> {
    /// The path of the code file.
    pub code: &'a str,
    /// The path of the event file.
    pub events: &'a str,
    /// The path of the file that the frames are written to.
    pub out: &'a str,
    /// The start options.
    pub start: StartOptions,
}

/// Runs `play`: plays the code over the events, writes the FIBs of each frame to the file, and
/// prints the number of frames written, or why playback failed.
///
/// The file is created, or truncated, when the code, the start and the events were found to be
/// good. Where they are refused an empty file is created if there is none; a file that is there
/// keeps its bytes, as it does where the code or the events can't be read.
pub fn run_play<'a, F: Files, W: Write>(
    alloc: Global,
    request: &PlayRequest<'a>,
    files: &mut F,
    out: &mut W,
) -> Result<Status, Failure<'a>>
    ensures success { IfOk result (λ status. status ≡ PlayedToEnd
        → Plays request.now (F.known files.old) (F.world files.old) (F.world files.new)) }
    ensures refused { IfOk result (λ status. status ≡ GotVerdict
        → RefusesPlay request.now (F.known files.old)) }
    ensures status { IfOk result (λ status. (status ≡ PlayedToEnd) ⊎ (status ≡ GotVerdict)) }
{
    let code = match read_code(alloc, files, request.code) {
        Ok(code) => code,
        Err(failure) => return Err(failure),
    };
    let events = match read_event_text(alloc, files, request.events) {
        Ok(events) => events,
        Err(failure) => return Err(failure),
    };
    match write_playback(alloc, code.as_slice(), events.as_str(), request, files) {
        Ok(ended) => print_ending(ended, out),
        Err(failure) => Err(failure),
    }
}

/// Plays a code over events into the file of a request. Returns the number of frames, or why
/// playback failed; or why the file failed. Where the events are no steps, standard error says why.
#[tactic(auto, using(crate::proofs::Playbacks::begin_is_run, crate::proofs::Playbacks::refused_for, crate::proofs::Playbacks::not_played_for))]
fn write_playback<'a, F: Files>(
    alloc: Global,
    code: &[u8],
    events: &str,
    request: &PlayRequest<'a>,
    files: &mut F,
) -> Result<Result<u128, RunFault>, Failure<'a>>
    ensures played { IfOk result (λ ended. IfOk ended (λ _. IsPlayedInto request.now.out.now
        code.now events.now request.now.start (F.world files.old) (F.world files.new))) }
    ensures fault { IfOk result (λ ended. IfErr ended (λ e.
        IsRunFault (asked_from code.now events.now request.now.start) e)) }
{
    let session = match Session::new(alloc, code, request.start) {
        Ok(session) => session,
        Err(fault) => return refuse(fault, request.out, files),
    };
    let mut steps = match StepList::new(events) {
        Ok(steps) => steps,
        Err(fault) => {
            report_items(alloc, request.events, events, Listing::Steps, fault, files);
            return refuse(RunFault::Events(fault), request.out, files);
        }
    };
    let file = match files.create(request.out) {
        Ok(file) => file,
        Err(fault) => return Err(Failure::of_output(fault, request.out)),
    };
    let (ended, sink) = play_into(&session, &mut steps, WriterSink::new(file));
    match files.close(request.out, sink.into_inner()) {
        Ok(()) => Ok(ended),
        Err(fault) => Err(Failure::of_output(fault, request.out)),
    }
}

/// Creates an empty file of this path, if there is none, for a playback that is refused.
fn refuse<'a, F: Files>(
    fault: RunFault,
    path: &'a str,
    files: &mut F,
) -> Result<Result<u128, RunFault>, Failure<'a>>
    ensures { IfOk result (λ ended. ended ≡ Err fault) }
{
    match touch_file(files, path) {
        Ok(()) => Ok(Err(fault)),
        Err(failure) => Err(failure),
    }
}

/// Runs `play` with standard output in place of the file: the frames go to `out`, which is
/// returned, and the line to `lines`. The failures are those of [`run_play`], but that no file is
/// created.
pub fn stream_play<'a, F: Files, W: Write, L: Write>(
    alloc: Global,
    request: &PlayRequest<'a>,
    files: &mut F,
    out: W,
    lines: &mut L,
) -> (Result<Status, Failure<'a>>, W)
    ensures success { IfOk result.0 (λ status. status ≡ PlayedToEnd
        → PlaysToOutput request.now (F.known files.old) (W.contents out) (W.contents result.1)) }
    ensures refused { IfOk result.0 (λ status. status ≡ GotVerdict
        → RefusesPlay request.now (F.known files.old)) }
    ensures status { IfOk result.0 (λ status. (status ≡ PlayedToEnd) ⊎ (status ≡ GotVerdict)) }
{
    let code = match read_code(alloc, files, request.code) {
        Ok(code) => code,
        Err(failure) => return (Err(failure), out),
    };
    let events = match read_event_text(alloc, files, request.events) {
        Ok(events) => events,
        Err(failure) => return (Err(failure), out),
    };
    let (ended, out) = stream_playback(alloc, code.as_slice(), events.as_str(), request.start, out);
    (
        print_explained(alloc, request.events, events.as_str(), ended, lines),
        out,
    )
}

/// Prints the number of frames played, or why playback failed; and where the text of the event file
/// of this path is no steps, behind that why.
fn print_explained<'a, L: Write>(
    alloc: Global,
    path: &str,
    text: &str,
    ended: Result<u128, RunFault>,
    lines: &mut L,
) -> Result<Status, Failure<'a>>
    ensures done { IfOk result (λ status. status ≡ PlayedToEnd → IsOk ended) }
    ensures verdict { IfOk result (λ status. status ≡ GotVerdict → EndsWithVerdict ended) }
    ensures status { IfOk result (λ status. (status ≡ PlayedToEnd) ⊎ (status ≡ GotVerdict)) }
{
    match ended {
        Err(RunFault::Events(fault)) => print_event_fault(alloc, path, text, fault, lines),
        Ok(frames) => print_ending(Ok(frames), lines),
        Err(fault) => print_ending(Err(fault), lines),
    }
}

/// Prints the fault of the text of an event file of this path, and behind it what explains it.
fn print_event_fault<'a, L: Write>(
    alloc: Global,
    path: &str,
    text: &str,
    fault: EventFault,
    lines: &mut L,
) -> Result<Status, Failure<'a>>
    ensures done { IfOk result (λ status. status ≢ PlayedToEnd) }
    ensures verdict { IfOk result (λ status. status ≡ GotVerdict
        → EndsWithVerdict (Err (Events fault))) }
    ensures status { IfOk result (λ status. (status ≡ PlayedToEnd) ⊎ (status ≡ GotVerdict)) }
{
    let status = print_ending(Err(RunFault::Events(fault)), lines)?;
    put_items(alloc, path, text, fault, lines)?;
    Ok(status)
}

/// Writes why the text of an event file of this path has no steps, behind the line that says so.
fn put_items<L: Write>(
    alloc: Global,
    path: &str,
    text: &str,
    fault: EventFault,
    lines: &mut L,
) -> io::Result<()> {
    let notes = lines_on_items(alloc, path, text, Listing::Steps, fault)?;
    lines.write_all(notes.as_slice())
}

/// Plays a code over events to a writer. Returns the number of frames, and the writer.
#[tactic(auto, using(crate::proofs::Playbacks::begin_is_run))]
fn stream_playback<W: Write>(
    alloc: Global,
    code: &[u8],
    events: &str,
    start: StartOptions,
    out: W,
) -> (Result<u128, RunFault>, W)
    ensures played { IfOk result.0 (λ _. IsPlayedTo code.now events.now start (W.contents out)
        (W.contents result.1)) }
    ensures fault { IfErr result.0 (λ e.
        IsRunFault (asked_from code.now events.now start) e) }
{
    let session = match Session::new(alloc, code, start) {
        Ok(session) => session,
        Err(fault) => return (Err(fault), out),
    };
    let mut steps = match StepList::new(events) {
        Ok(steps) => steps,
        Err(fault) => return (Err(RunFault::Events(fault)), out),
    };
    let (ended, sink) = play_into(&session, &mut steps, WriterSink::new(out));
    (ended, sink.into_inner())
}

/// Prints the number of frames played, or why playback failed; `Memory` if out of memory for it.
pub(crate) fn print_ending<'a, W: Write>(
    ended: Result<u128, RunFault>,
    out: &mut W,
) -> Result<Status, Failure<'a>>
    ensures done { IfOk result (λ status. status ≡ PlayedToEnd → IsOk ended) }
    ensures verdict { IfOk result (λ status. status ≡ GotVerdict → EndsWithVerdict ended) }
    ensures status { IfOk result (λ status. (status ≡ PlayedToEnd) ⊎ (status ≡ GotVerdict)) }
{
    match ended {
        Ok(frames) => {
            writeln!(out, "played {frames} frames")?;
            Ok(Status::Done)
        }
        Err(RunFault::Code(CodeFault::Memory)) => Err(Failure::Memory),
        Err(RunFault::Events(EventFault::Memory)) => Err(Failure::Memory),
        Err(fault) => {
            writeln!(out, "{fault}")?;
            Ok(Status::Refused)
        }
    }
}
