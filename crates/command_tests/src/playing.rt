//! `play` over files in memory: what its output file holds.

ghost use Rattle.std.specs.Prelude.{◌≡◌, codes, Some, IfOk, IfSome};
ghost use Rattle.console.specs.Versions.{world_of};
ghost use Rattle.command_tests.specs.Playing.{HoldsRun};

use cli_plans::play::{PlayRequest, run_play};
use console::exit::Status;
use console::memory::MemoryFiles;
use plan_session::StartOptions;
use std::alloc::{AllocError, Global};

/// The path of the code file.
pub const CODE: &str = "x.code";
/// The path of the event file.
pub const EVENTS: &str = "x.events";
/// The path of the output file.
pub const OUT: &str = "x.fib";

/// Files in memory, of which the first two have these bytes.
fn files_with(alloc: Global, code: &[u8], events: &[u8]) -> Result<MemoryFiles, AllocError>
    ensures code { IfOk result (λ files. (world_of files).files (codes "x.code") ≡ Some code.now) }
    ensures events { IfOk result (λ files.
        (world_of files).files (codes "x.events") ≡ Some events.now) }
{
    let mut files = MemoryFiles::new(alloc, Vec::new(alloc));
    files.put(CODE, code)?;
    files.put(EVENTS, events)?;
    Ok(files)
}

/// The files after `play x.code x.events x.fib` over files in memory that have this code and these
/// events: `x.fib` holds the run of the code over the events then. None if they are not played to
/// their end.
///
/// # Errors
///
/// `AllocError` if out of memory for the files.
pub fn played(
    alloc: Global,
    code: &[u8],
    events: &[u8],
    start: StartOptions,
) -> Result<Option<MemoryFiles>, AllocError>
    ensures { IfOk result (λ found. IfSome found (λ files.
        HoldsRun code.now events.now start (world_of files))) }
{
    let mut files = files_with(alloc, code, events)?;
    let request = PlayRequest {
        code: CODE,
        events: EVENTS,
        out: OUT,
        start,
    };
    let mut lines = Vec::new(alloc);
    match run_play(alloc, &request, &mut files, &mut lines) {
        Ok(Status::Done) => Ok(Some(files)),
        Ok(_) => Ok(None),
        Err(_) => Ok(None),
    }
}
