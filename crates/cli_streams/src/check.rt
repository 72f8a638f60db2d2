//! `dabplan check`: checks that a stream of FIBs announces each reconfiguration as EN 300 401
//! clause 6.5 requires.

ghost use Rattle.std.specs.Prelude.{◌≡◌, IfOk};
ghost use Rattle.cli_streams.specs.Success.{ChecksFile, check_status, known_at};

use console::exit::{Failure, Status, pieces_of};
use console::files::{FileFault, Files};
use console::output::Output;
use std::alloc::Global;
use std::io::Write;
use stream_monitor::{CheckFailure, CheckOptions, Ending, FileMonitor, check_stream};

/// The arguments of `check`.
#[derive(Clone, Copy)]
pub struct CheckRequest<'a> {
    /// The path of the file of FIBs, or `-` for standard input.
    pub file: &'a str,
    /// What is checked, and what is printed.
    pub options: CheckOptions,
}

/// Runs `check`: prints the findings in the file, or in standard input if the path is `-`, as its
/// bytes come, and the totals. The stream is checked piece by piece, so that memory use does not
/// depend on its length. The status is 0 without a fault, 3 with one, and 1 if the stream is
/// refused, which is the last line then.
///
/// # Errors
///
/// `Read` if the file can't be read, behind the lines of the FIBs before; `Memory` if out of memory
/// for a piece, or if a frame has more than 1,024 findings; `Output` if the output failed, after
/// which nothing is printed.
pub fn show_check<'a, F: Files, W: Write>(
    alloc: Global,
    request: &CheckRequest<'a>,
    files: &mut F,
    out: &mut Output<W>,
) -> Result<Status, Failure<'a>>
    ensures success { IfOk result (ChecksFile request.now.options
        (known_at (F.known files.old) (F.known_input files.old) request.now.file.now)) }
{
    let pieces = pieces_of(alloc, files, request.file)?;
    let mut monitor = FileMonitor::new(request.file, pieces, files, out);
    match check_stream(request.options, &mut monitor) {
        Ok(ending) => match monitor.end(&ending) {
            Ok(()) => Ok(status_of(&ending)),
            Err(failure) => Err(failure_of(failure, request.file)),
        },
        Err(failure) => Err(failure_of(failure, request.file)),
    }
}

/// The failure for a check that gives up.
fn failure_of<'a>(failure: CheckFailure, path: &'a str) -> Failure<'a> {
    match failure {
        CheckFailure::Read(FileFault::Failed) => Failure::Read(path),
        CheckFailure::Read(FileFault::Memory) | CheckFailure::Memory => Failure::Memory,
        CheckFailure::Write => Failure::Output,
    }
}

/// The exit status for the end of a check.
fn status_of(ending: &Ending) -> Status
    ensures { result ≡ check_status ending.now }
{
    match ending {
        Ending::Counted(totals) if totals.faults > 0 => Status::Faulty,
        Ending::Counted(_) => Status::Done,
        Ending::Refused(_) => Status::Refused,
    }
}
