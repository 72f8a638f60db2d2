//! Checks a stream of FIBs as its bytes come.

ghost use Rattle.std.specs.Prelude.{◌≡◌, ℕ, List, Option, [], ◌∷◌, IfOk, IfSome, OnOk};
ghost use Rattle.std.specs.Io.KnownBytes.{IsAtEnd};
ghost use Rattle.stream_check.specs.Frames.{Reading};
ghost use Rattle.stream_monitor.specs.Checking.{HasReadAll, StopsAtFib};
ghost use Rattle.stream_monitor.specs.Lines.{finding_lines, is_due};
ghost use Rattle.stream_monitor.specs.Log.{HasLines, LogsLines};
ghost use Rattle.stream_monitor.specs.Going.{IsAfter, EndsFrameFrom, cause_of, due_lines, end_of};
ghost use Rattle.stream_monitor.specs.Going.{ChecksFib};
ghost use Rattle.stream_monitor.specs.Outcome.{ChecksInput, StopsAtEnd};
ghost use Rattle.stream_monitor.specs.declared.ending.Ending.TheVariants.{Refused};
ghost use Rattle.stream_monitor.specs.declared.line.Line.{Line};
ghost use Rattle.stream_monitor.specs.declared.options.CheckOptions.{CheckOptions as OptionsOf};

use crate::ending::Ending;
use crate::fibs::Next;
use crate::frame_findings::FrameFindings;
use crate::line::{Cause, Totals};
use crate::monitor::Monitor;
use crate::options::CheckOptions;
use crate::tally::{Tally, counted, no_tally};
use console::files::FileFault;
use stream_check::{CheckFault, Checker, Finding, Summary};

/// Why a check does not come to its end.
#[derive(Clone, Copy, Debug, PartialEq, Eq)]
pub enum CheckFailure {
    /// The input failed, or has 2^64 - 1 FIBs.
    Read(FileFault),
    /// The output failed. Nothing more is printed.
    Write,
    /// There is no room: a frame has more than 1,024 findings.
    Memory,
}

/// A check between FIBs.
#[derive(Drop)]
pub(crate) struct State {
    checker: Checker,
    tally: Tally,
}

/// Before the first FIB.
fn start(options: CheckOptions) -> State
    ensures { (r : Reading) → IsAfter r options [] [] result }
{
    State {
        checker: Checker::new(options.mode, options.period),
        tally: no_tally(),
    }
}

/// The totals with these numbers of frames and FIBs.
fn totals_of(tally: Tally, summary: Summary) -> Totals
    ensures { result ≡ record { summary = summary; swaps = tally.swaps; faults = tally.faults } }
{
    Totals {
        summary,
        swaps: tally.swaps,
        faults: tally.faults,
    }
}

/// Checks the FIBs of a monitor's stream as they come: it is told each finding in a frame as soon
/// as its FIBs decide the frame, and the totals so far where they are due. Returns how the check
/// ends, which is its last line and is not told.
///
/// # Errors
///
/// `Read` if the stream can't be read, or has 2^64 - 1 FIBs; `Write` if what is told can't be
/// handed on; `Memory` if a frame has more than 1,024 findings, for which there is no room.
pub fn check_stream<M: Monitor>(
    options: CheckOptions,
    monitor: &mut M,
) -> Result<Ending, CheckFailure>
    // What is told, and how the check ends.
    ensures checked { IfOk result (λ ending. (r : Reading) → (log : List Line)
        × ChecksInput r options (M.left monitor.old) (M.left monitor.new) log ending
        × HasLines options log (M.log monitor.new)) }
    ensures all { IfOk result (λ ending. HasReadAll options ending (M.left monitor.new)) }
{
    let mut state = start(options);
    let mut frame = FrameFindings::new();
    monitor.start(options);
    for _ in 0..u64::MAX {
        match monitor.next()? {
            Next::Fib(fib) => {
                if let Some(ending) = check_fib(options, &mut state, &mut frame, &fib, monitor)? {
                    return Ok(ending);
                }
            }
            Next::Part => return Ok(Ending::Refused(Cause::NotWhole)),
            Next::End => return Ok(finish(options, &state)),
        }
    }
    Err(CheckFailure::Read(FileFault::Failed))
}

/// Checks a FIB, tells the findings in the frame that it ends, if it ends one, and returns the end
/// of the check if it comes with it.
fn check_fib<M: Monitor>(
    options: CheckOptions,
    state: &mut State,
    frame: &mut FrameFindings,
    fib: &[u8; 32],
    monitor: &mut M,
) -> Result<Option<Ending>, CheckFailure>
    ensures checked { IfOk result (λ e. ChecksFib options fib.now state.old state.new
        (M.log monitor.old) (M.log monitor.new) e) }
    ensures ended { IfOk result (λ e. IfSome e (StopsAtFib options)) }
    ensures left { M.left monitor.new ≡ M.left monitor.old }
{
    frame.clear();
    let heard = state.checker.hear(fib, frame);
    let Some(findings) = frame.findings() else {
        return Err(CheckFailure::Memory);
    };
    let skipped = state.checker.decided().skipped;
    tell_findings(findings, skipped, monitor)?;
    state.tally = counted(state.tally, findings);
    match heard {
        Ok(false) => Ok(None),
        Ok(true) => end_frame(options, state, monitor),
        Err(fault) => Ok(Some(Ending::Refused(cause_of(fault)))),
    }
}

/// The cause of a refusal by the checker.
fn cause_of(fault: CheckFault) -> Cause
    ensures value { result ≡ cause_of fault }
    ensures ended { (o : OptionsOf) → StopsAtFib o (Refused result) }
{
    match fault {
        CheckFault::Full => Cause::Full,
        CheckFault::TooLong => Cause::TooLong,
    }
}

/// Tells findings, in order, in frames of a stream of which this many FIBs are skipped.
fn tell_findings<M: Monitor>(
    findings: &[Finding],
    skipped: u64,
    monitor: &mut M,
) -> Result<(), CheckFailure>
    ensures log { OnOk result (LogsLines (M.log monitor.old) (M.log monitor.new)
        (finding_lines findings.now)) }
    ensures left { M.left monitor.new ≡ M.left monitor.old }
{
    let mut rest = findings;
    while let Some((finding, after)) = rest.split_first() {
        monitor.found(finding, skipped)?;
        rest = after;
    }
    Ok(())
}

/// Whether totals are told after this many frames.
fn is_due(every: Option<u32>, frames: u64) -> bool
    ensures { result ≡ is_due every frames }
{
    match every {
        Some(every) => {
            let every = u64::from(every);
            every > 0 && frames % every == 0
        }
        None => false,
    }
}

/// Tells the totals so far, if they are due.
fn tell_due<M: Monitor>(
    options: CheckOptions,
    totals: &Totals,
    monitor: &mut M,
) -> Result<(), CheckFailure>
    ensures log { OnOk result (LogsLines (M.log monitor.old) (M.log monitor.new)
        (due_lines options totals.now)) }
    ensures left { M.left monitor.new ≡ M.left monitor.old }
{
    if !is_due(options.every, totals.summary.frames) {
        return Ok(());
    }
    monitor.alive(totals)
}

/// The end of a check with a frame, if it ends with a fault that was found.
fn end_of(options: CheckOptions, totals: Totals) -> Option<Ending>
    ensures value { result ≡ end_of options totals }
    ensures ended { IfSome result (StopsAtFib options) }
{
    if options.until_fault && totals.faults > 0 {
        Some(Ending::Counted(totals))
    } else {
        None
    }
}

/// Ends a frame: tells the totals so far, if they are due, and returns the end of the check if it
/// ends with a fault that was found.
fn end_frame<M: Monitor>(
    options: CheckOptions,
    state: &State,
    monitor: &mut M,
) -> Result<Option<Ending>, CheckFailure>
    ensures ends { IfOk result (EndsFrameFrom options state.now
        (M.log monitor.old) (M.log monitor.new)) }
    ensures ended { IfOk result (λ e. IfSome e (StopsAtFib options)) }
    ensures left { M.left monitor.new ≡ M.left monitor.old }
{
    let totals = totals_of(state.tally, state.checker.decided());
    tell_due(options, &totals, monitor)?;
    Ok(end_of(options, totals))
}

/// The end of a check at the end of its stream.
fn finish(options: CheckOptions, state: &State) -> Ending
    ensures all { (left : Option (List ℕ)) → IsAtEnd left → HasReadAll options result left }
    ensures ends { (r : Reading) (fibs : List (List ℕ)) (log : List Line)
        → IsAfter r options fibs log state.now → StopsAtEnd r options fibs [] log result }
{
    match state.checker.finish() {
        Some(summary) => Ending::Counted(totals_of(state.tally, summary)),
        None => Ending::Refused(Cause::NoEnsemble),
    }
}
