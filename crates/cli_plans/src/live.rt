//! `dabplan live`: plays a plan code over standard input, line by line as the lines arrive.

ghost use Rattle.std.specs.Prelude.{OnOk};
ghost use Rattle.cli_plans.specs.Success.{Lives, IsLiveTo};

use crate::standard_error::StandardError;
use console::code_file::read_code;
use console::exit::{Failure, JsonFailure};
use console::files::Files;
use plan_code::CodeFault;
use plan_live::{LiveFault, LiveOptions, Messages, Streams, Wanted, live};
use plan_session::{RunFault, StartOptions};
use std::alloc::Global;
use std::error;
use std::fmt::{self, Display, Formatter};
use std::io::{BufReader, Read, Write};

/// The arguments of `live`.
#[derive(Clone, Copy)]
pub struct LiveRequest<'a> {
    /// The path of the code file.
    pub code: &'a str,
    /// The start options.
    pub start: StartOptions,
    /// The number of frames at the beginning that are played but not written.
    pub skip: u64,
    /// The notes of frames that are reported on standard error.
    pub wanted: Wanted,
    /// Whether messages and the reason for an early end are objects of JSON, one a line.
    pub json: bool,
}

/// Why a plan is not played to the end of standard input. Each is one line on standard error, and
/// `Status::Refused`.
#[derive(Debug, Drop)]
pub enum LiveEnding<'a> {
    /// Out of memory, or the code file or standard input can't be read.
    Failed(Failure<'a>),
    /// The code can't be played from the start, as in `play`; or the run stopped.
    Live(LiveFault),
}

impl Display for LiveEnding<'_> {
    fn fmt<W: fmt::Write>(&self, f: &mut Formatter<W>) -> fmt::Result {
        match self {
            LiveEnding::Failed(failure) => write!(f, "{failure}"),
            LiveEnding::Live(fault) => write!(f, "{fault}"),
        }
    }
}

impl error::Error for LiveEnding<'_> {}

/// The end of a live run as an object of JSON, `{"kind":"refused","cause":"cannot read PATH"}`: the
/// cause is its line.
#[derive(Debug, Drop)]
pub struct JsonEnding<'e, 'a>(pub &'e LiveEnding<'a>);

impl Display for JsonEnding<'_, '_> {
    fn fmt<W: fmt::Write>(&self, f: &mut Formatter<W>) -> fmt::Result {
        match self.0 {
            LiveEnding::Failed(failure) => write!(f, "{}", JsonFailure(failure)),
            LiveEnding::Live(fault) => {
                write!(f, "{{\"kind\":\"refused\",\"cause\":\"{fault}\"}}")
            }
        }
    }
}

/// Plays the code over standard input, line by line, to its end. The frames are written to `out`,
/// which is returned, and flushed before the next line is read, as in [`live`](plan_live::live);
/// messages go to standard error after the frames of their line, and those of a line that is not
/// played to its end after the run.
///
/// # Errors
///
/// `Failed` if the code file or standard input can't be read, or if out of memory for the code.
/// `Live` with the fault with which `play` refuses the code or the start, before a line is read; or
/// with why the run stopped.
pub fn play_live<'a, F: Files, W: Write>(
    alloc: Global,
    request: &LiveRequest<'a>,
    files: &mut F,
    out: W,
) -> (Result<(), LiveEnding<'a>>, W)
    ensures success { OnOk result.0 (Lives request.now (F.known files.old)
        (F.known_input files.old) (W.contents out) (W.contents result.1)) }
{
    let input = match files.input() {
        Ok(input) => input,
        Err(fault) => return (Err(LiveEnding::Failed(Failure::of_file(fault, "-"))), out),
    };
    let code = match read_code(alloc, files, request.code) {
        Ok(code) => code,
        Err(failure) => return (Err(LiveEnding::Failed(failure)), out),
    };
    let Ok(reader) = BufReader::new(alloc, input) else {
        return (Err(LiveEnding::Failed(Failure::Memory)), out);
    };
    let (ended, out) = drive_out(alloc, code.as_slice(), request, reader, files, out);
    match ended {
        Ok(()) => (Ok(()), out),
        Err(LiveFault::Playback(RunFault::Code(CodeFault::Memory))) => {
            (Err(LiveEnding::Failed(Failure::Memory)), out)
        }
        Err(fault) => (Err(LiveEnding::Live(fault)), out),
    }
}

/// Plays a code file over the lines of a reader, with messages on standard error. Returns the
/// output, too.
fn drive_out<F: Files, R: Read + Drop, W: Write>(
    alloc: Global,
    code: &[u8],
    request: &LiveRequest<'_>,
    reader: R,
    files: &mut F,
    out: W,
) -> (Result<(), LiveFault>, W)
    ensures { OnOk result.0 (IsLiveTo request.now code.now (R.remaining reader) (W.contents out)
        (W.contents result.1)) }
{
    let options = LiveOptions {
        skip: request.skip,
        wanted: request.wanted,
    };
    let mut ends = Streams::new(reader, out, StandardError::new(files, request.json));
    let ended = live(alloc, code, request.start, options, &mut ends);
    let (out, mut messages) = ends.into_parts();
    messages.release();
    (ended, out)
}
