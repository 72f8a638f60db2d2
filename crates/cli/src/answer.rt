//! The program's entry: runs the command that the arguments name and returns its exit status.

ghost use Rattle.std.specs.Prelude.{◌≤◌};

use crate::args::{Request, UsageError, request_of};
use crate::causes::{cause_asked, print_causes};
use crate::live::{answer_frames, writes_frames};
use crate::mistakes::answer_mistake;
use crate::products::{answer_product, can_stream, has_product};
use crate::remarks::{Remark, make_remark};
use crate::same_files::same_file;
use cli_plans::{debug, play};
use cli_scripts::{compile, compile_from, diff, frame_script, listen_script, map, verify};
use cli_streams::{check, frame, listen};
use cli_timeline::timeline;
use console::ending::{finish, report, status_number};
use console::exit::{Failure, Status};
use console::files::Files;
use console::output::Output;
use std::alloc::Global;
use std::convert::AsStr;
use std::io::{self, ErrorKind, Write};

/// Runs the command that the arguments after the program's name ask for, prints to `out`, and
/// returns the exit status. `live` and `merge` write frames to `out` as they are made, and their
/// messages to standard error; so do `play` and `compile` with their output, where it is `-`.
///
/// 0: done, or help was printed. 1: refused, a file could not be read, out of memory, or `out`
/// failed, after which nothing more is printed. 2: the arguments are invalid, which is found before
/// a file is read. 3: `check` found faults. The texts of help and of invalid arguments are checked
/// by tests alone.
pub fn answer<S: AsStr, F: Files, W: Write>(
    alloc: Global,
    args: &[S],
    files: &mut F,
    out: &mut W,
) -> u8
    ensures bound { result ≤ 3 }
{
    if writes_frames(args) {
        return answer_frames(alloc, args, files, out);
    }
    if let Some(asked) = cause_asked(args) {
        let mut output = Output::new(out);
        let ended = print_causes(&asked, &mut output);
        return finish(ended, &mut output);
    }
    match request_of(alloc, args) {
        Ok(request) => answer_request(alloc, &request, can_stream(args), files, out),
        Err(mistake) => answer_mistake(alloc, mistake, can_stream(args), files, out),
    }
}

/// Reports arguments that could not be read, and returns the exit status: 1 if out of memory or if
/// `out` failed, else 2. The report goes to standard error if the first argument is a command that
/// writes frames.
pub fn answer_without_args<F: Files, W: Write>(
    alloc: Global,
    error: &io::Error,
    writes_frames: bool,
    files: &mut F,
    out: &mut W,
) -> u8
    ensures bound { result ≤ 2 }
{
    let unasked = match error.kind() {
        ErrorKind::OutOfMemory => UsageError::Memory,
        _ => UsageError::NoText,
    };
    answer_mistake(alloc, unasked, writes_frames, files, out)
}

/// Runs the command of a request, and returns the exit status.
fn answer_request<F: Files, W: Write>(
    alloc: Global,
    request: &Request<'_>,
    can_stream: bool,
    files: &mut F,
    out: &mut W,
) -> u8
    ensures bound { result ≤ 3 }
{
    if let Some(mistake) = same_file(request, files) {
        return answer_mistake(alloc, mistake, can_stream, files, out);
    }
    if has_product(request) {
        return status_number(answer_product(alloc, request, files, out));
    }
    answer_printed(alloc, request, files, out)
}

/// Runs a command that prints, prints its failure, and returns the exit status.
#[inline(never)]
fn answer_printed<F: Files, W: Write>(
    alloc: Global,
    request: &Request<'_>,
    files: &mut F,
    out: &mut W,
) -> u8
    ensures bound { result ≤ 3 }
{
    let mut output = Output::new(out);
    let ended = run(alloc, request, files, &mut output);
    make_remark(alloc, request, Remark::on(&ended), files);
    let ended = report(is_json_of(request), ended, &mut output);
    finish(ended, &mut output)
}

/// Runs a command that prints.
pub(crate) fn run<'a, F: Files, W: Write>(
    alloc: Global,
    request: &Request<'a>,
    files: &mut F,
    out: &mut Output<W>,
) -> Result<Status, Failure<'a>> {
    match request {
        Request::Frame(request) => frame::show_frame(alloc, request, files, out),
        Request::FrameScript(request) => frame_script::show_script_frame(
            alloc, request, files, out,
        ),
        Request::Listen(request) => listen::show_heard(alloc, request, files, out),
        Request::ListenScript(request) => listen_script::show_script(alloc, request, files, out),
        Request::Diff(request) => diff::show_diff(alloc, request, files, out),
        Request::Check(request) => check::show_check(alloc, request, files, out),
        Request::Compile(request) => compile::show_compile(alloc, request, files, out),
        Request::CompileFrom(request) => {
            compile_from::show_compile_from(alloc, request, files, out)
        }
        Request::Verify(request) => verify::show_verdict(alloc, request, files, out),
        Request::Play(request) => play::run_play(alloc, request, files, out),
        Request::Debug(request) => debug::show_debug(alloc, request, files, out),
        Request::Map(request) => map::show_map(alloc, request, files, out),
        Request::Timeline(request) => timeline::show_timeline(alloc, request, files, out),
    }
}

/// Whether a request is for objects of JSON.
fn is_json_of(request: &Request<'_>) -> bool {
    match request {
        Request::Listen(request) => request.is_json,
        Request::Check(request) => request.options.form.is_json,
        Request::Map(request) => request.is_json,
        Request::Timeline(request) => request.is_json,
        _ => false,
    }
}
