//! The answers to `live` and `merge`, whose messages and mistakes go to standard error.

ghost use Rattle.std.specs.Prelude.{◌≤◌};

use crate::args::{FramesRequest, frames_request_of};
use crate::mistakes::answer_mistake;
use crate::remarks::{remark_code, remark_failure};
use cli_plans::live::{JsonEnding, LiveEnding, LiveRequest, play_live};
use cli_streams::merge::{MergeFault, MergeRequest, show_merged};
use console::ending::status_number;
use console::files::Files;
use plan_live::LiveFault;
use plan_session::RunFault;
use std::alloc::Global;
use std::convert::AsStr;
use std::io::Write;

/// Whether the first argument is a command that writes frames: `live` or `merge`.
pub(crate) fn writes_frames<S: AsStr>(args: &[S]) -> bool {
    match args.first() {
        Some(first) => matches!(first.as_str(), "live" | "merge"),
        None => false,
    }
}

/// Runs `live` or `merge` and returns its exit status. Frames and help go to `out`; everything else
/// goes to standard error.
#[inline(never)]
pub(crate) fn answer_frames<S: AsStr, F: Files, W: Write>(
    alloc: Global,
    args: &[S],
    files: &mut F,
    out: &mut W,
) -> u8
    ensures bound { result ≤ 3 }
{
    match frames_request_of(alloc, args) {
        Ok(FramesRequest::Live(request)) => answer_live(alloc, &request, files, out),
        Ok(FramesRequest::Merge(request)) => answer_merge(alloc, &request, files, out),
        Err(unasked) => answer_mistake(alloc, unasked, true, files, out),
    }
}

/// Runs `live`, and returns its exit status.
fn answer_live<F: Files, W: Write>(
    alloc: Global,
    request: &LiveRequest<'_>,
    files: &mut F,
    out: &mut W,
) -> u8
    ensures bound { result ≤ 3 }
{
    let (ended, _out) = play_live(alloc, request, files, out);
    match ended {
        Ok(()) => 0,
        Err(ending) => {
            report_ending(alloc, files, request.json, &ending);
            if !request.json && is_of_code(&ending) {
                remark_code(alloc, request.code, files);
            }
            1
        }
    }
}

/// Whether a live run did not begin, since its file is no code.
fn is_of_code(ending: &LiveEnding<'_>) -> bool {
    matches!(
        ending,
        LiveEnding::Live(LiveFault::Playback(RunFault::Code(_)))
    )
}

/// Writes the line of the end of a live run on standard error; and behind it, but for objects of
/// JSON, why its code can't be read.
fn report_ending<F: Files>(alloc: Global, files: &mut F, json: bool, ending: &LiveEnding<'_>) {
    if json {
        files.report(JsonEnding(ending));
        return;
    }
    files.report(ending);
    if let LiveEnding::Failed(failure) = ending {
        remark_failure(alloc, failure, files);
    }
}

/// Runs `merge`, and returns its exit status.
fn answer_merge<F: Files, W: Write>(
    alloc: Global,
    request: &MergeRequest<'_>,
    files: &mut F,
    out: &mut W,
) -> u8
    ensures bound { result ≤ 3 }
{
    match show_merged(alloc, request, files, out) {
        Ok(status) => status_number(status),
        Err(fault) => {
            files.report(&fault);
            if let MergeFault::Failed(failure) = &fault {
                remark_failure(alloc, failure, files);
            }
            1
        }
    }
}
