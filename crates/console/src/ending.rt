//! The end of a command: the line of its failure, and the exit status.

ghost use Rattle.std.specs.Prelude.{◌≡◌, ◌≢◌, ◌≤◌, Ok, true, IfOk, IfErr, IsOk, IsErr};
ghost use Rattle.std.specs.Io.KnownBytes.{Keeps};
ghost use Rattle.console.specs.Ending.{exit_number};
ghost use Rattle.console.specs.Printed.{printed, writer_of, has_failed};
ghost use Rattle.console.specs.declared.exit.Status.TheVariants.{Refused as WasRefused};

use crate::exit::{Failure, JsonFailure, Status};
use crate::output::Output;
use std::io::{self, Write};

/// Prints the line of a failure, as an object of JSON or as text, and returns `Refused`. Any other
/// status is returned as it is, and nothing is printed. It takes no memory.
pub fn report<W: Write>(
    is_json: bool,
    ended: Result<Status, Failure<'_>>,
    out: &mut W,
) -> io::Result<Status>
    ensures same { IfOk ended.entry (λ status. result ≡ Ok status) }
    ensures silent { IsOk ended.entry → out.new ≡ out.old }
    ensures refused { IsErr ended.entry → IfOk result (λ status. status ≡ WasRefused) }
{
    match ended {
        Ok(status) => Ok(status),
        Err(failure) => {
            if is_json {
                writeln!(out, "{}", JsonFailure(&failure))?;
            } else {
                writeln!(out, "{failure}")?;
            }
            Ok(Status::Refused)
        }
    }
}

/// Flushes the output and returns the number of the exit status: all that was printed was taken
/// then. 1 if printing failed, or the output fails now.
pub fn finish<W: Write>(ended: io::Result<Status>, out: &mut Output<W>) -> u8
    ensures bound { result ≤ 3 }
    ensures status { IfOk ended (λ status. has_failed out.new ≢ true
        → result ≡ exit_number status) }
    ensures taken { IfOk ended (λ _. has_failed out.new ≢ true
        → Keeps (printed W.contents out.old) (W.contents (writer_of out.new))) }
    ensures failed { has_failed out.new ≡ true → result ≡ 1 }
    ensures unprinted { IfErr ended (λ _. result ≡ 1) }
{
    let Ok(status) = ended else {
        return Status::Refused as u8;
    };
    match out.flush() {
        Ok(()) => status_number(status),
        Err(_) => Status::Refused as u8,
    }
}

/// The number of an exit status: 0 to 3.
pub fn status_number(status: Status) -> u8
    ensures number { result ≡ exit_number status }
    ensures bound { result ≤ 3 }
{
    status as u8
}
