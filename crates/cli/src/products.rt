//! Commands whose standard output is a product, as a plan or frames: it gets the product alone,
//! whole, and all lines go to standard error.

use crate::answer::run;
use crate::args::Request;
use crate::remarks::{Remark, make_remark};
use cli_plans::play::stream_play;
use cli_scripts::compile::stream_compile;
use cli_scripts::compile_from::stream_compile_from;
use cli_scripts::explained::report_lines;
use cli_streams::frame::stream_frame;
use console::ending::report;
use console::exit::{Failure, Status};
use console::files::Files;
use console::output::{Output, write_out};
use std::alloc::Global;
use std::convert::AsStr;
use std::io::Write;

/// Whether standard output gets a product of the command of this request.
pub(crate) fn has_product(request: &Request<'_>) -> bool {
    match request {
        Request::Compile(request) => request.out == "-",
        Request::CompileFrom(request) => request.out == "-",
        Request::Play(request) => request.out == "-",
        Request::Frame(request) => request.raw,
        Request::FrameScript(_) | Request::ListenScript(_) | Request::Diff(_) => true,
        _ => false,
    }
}

/// Whether mistakes in these arguments go to standard error: those of `play` and `compile` with
/// `-`, which may be the output, and those of `diff`.
pub(crate) fn can_stream<S: AsStr>(args: &[S]) -> bool {
    let Some((command, others)) = args.split_first() else {
        return false;
    };
    match command.as_str() {
        "play" | "compile" => others.iter().any(|arg| arg.as_str() == "-"),
        "diff" => true,
        _ => false,
    }
}

/// Runs a command whose product goes to `out`, and returns its exit status. Its lines, and that of
/// its failure, go to standard error.
#[inline(never)]
pub(crate) fn answer_product<F: Files, W: Write>(
    alloc: Global,
    request: &Request<'_>,
    files: &mut F,
    out: &mut W,
) -> Status {
    let mut lines: Vec<u8> = Vec::new(alloc);
    let ended = match request {
        Request::Play(request) => {
            let (ended, _out) = stream_play(alloc, request, files, out, &mut lines);
            ended
        }
        Request::Compile(request) => stream_compile(alloc, request, files, out, &mut lines),
        Request::CompileFrom(request) => {
            stream_compile_from(alloc, request, files, out, &mut lines)
        }
        Request::Frame(request) => stream_frame(alloc, request, files, out, &mut lines),
        _ => print_product(alloc, request, files, out, &mut lines),
    };
    let remark = Remark::on(&ended);
    let status = match report(false, ended, &mut lines) {
        Ok(status) => {
            report_lines(lines.as_slice(), files);
            status
        }
        Err(_error) => {
            files.report(Failure::Memory);
            Status::Refused
        }
    };
    make_remark(alloc, request, remark, files);
    status
}

/// Runs a command that prints a product, which is held until it is whole: what is printed of a
/// refusal is left in `lines`.
fn print_product<'a, F: Files, W: Write>(
    alloc: Global,
    request: &Request<'a>,
    files: &mut F,
    out: &mut W,
    lines: &mut Vec<u8>,
) -> Result<Status, Failure<'a>> {
    let mut held = Output::new(Vec::new(alloc));
    let ended = run(alloc, request, files, &mut held)?;
    held.flush()?;
    let printed: Vec<u8> = held.into_inner();
    if ended != Status::Done {
        lines.write_all(printed.as_slice())?;
        return Ok(ended);
    }
    let (_taken, written) = write_out(printed.as_slice(), out);
    written?;
    out.flush()?;
    Ok(ended)
}
