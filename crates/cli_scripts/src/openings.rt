//! Reads the opening of the script or the schedule in a file.

ghost use Rattle.std.specs.Prelude.{◌≡◌, ℕ, List, take, IfOk, IfSome};
ghost use Rattle.std.specs.Io.KnownBytes.{Keeps};
ghost use Rattle.console.specs.World.{Stays};
ghost use Rattle.console.specs.declared.exit.Status.TheVariants.{Refused};
ghost use Rattle.script_config.specs.Openings.{IsSoundOpening};
ghost use Rattle.cli_scripts.specs.Success.{HasScriptOpening};

use crate::compile::ScriptRefusal;
use crate::explained::{Explanation, explain_script};
use crate::script_file::{read_script, script_text};
use console::escaped::Escaped;
use console::exit::{Failure, Status};
use console::files::Files;
use plan_verifier::Cause;
use script_compiler::CompileFault;
use script_config::{Opening, OpeningFault, read_opening};
use std::alloc::Global;
use std::io::Write;

/// A script or a schedule without an opening: the first bytes of its file, and why it has none.
#[derive(Drop)]
pub(crate) struct NoOpening {
    bytes: Vec<u8>,
    fault: OpeningFault,
}

/// The opening of the script or the schedule in a file, or why there is none. No file is changed.
pub(crate) fn opening_in<'a, F: Files>(
    alloc: Global,
    files: &mut F,
    path: &'a str,
) -> Result<Result<Opening, NoOpening>, Failure<'a>>
    ensures formed { IfOk result (λ found. IfOk found IsSoundOpening) }
    ensures opening { IfOk result (λ found. IfOk found (λ opening.
        IfSome (F.known files.old path.now) (λ bytes. HasScriptOpening bytes opening))) }
    ensures known { (other : List ℕ)
        → Keeps (F.known files.old other) (F.known files.new other) }
    ensures world { Stays (F.world files.old) (F.world files.new) }
{
    let bytes = read_script(alloc, files, path)?;
    match opening_of_bytes(alloc, path, bytes.as_slice())? {
        Ok(opening) => Ok(Ok(opening)),
        Err(fault) => Ok(Err(NoOpening { bytes, fault })),
    }
}

/// The same for the first bytes of the file, which are all that was read of it.
fn opening_of_bytes<'a>(
    alloc: Global,
    path: &'a str,
    bytes: &[u8],
) -> Result<Result<Opening, OpeningFault>, Failure<'a>>
    ensures formed { IfOk result (λ found. IfOk found IsSoundOpening) }
    ensures opening { IfOk result (λ found. IfOk found (λ opening.
        (file : List ℕ) → bytes.now ≡ take 1048581 file → HasScriptOpening file opening)) }
{
    let text = script_text(bytes, path)?;
    match read_opening(alloc, text) {
        Ok(opening) => Ok(Ok(opening)),
        Err(OpeningFault::Memory) => Err(Failure::Memory),
        Err(fault) => Ok(Err(fault)),
    }
}

/// Prints why the script of this path has no opening, and explains it. No file is changed.
pub(crate) fn print_no_opening<'a, F: Files, W: Write>(
    alloc: Global,
    path: &'a str,
    none: &NoOpening,
    explanation: Explanation,
    files: &mut F,
    out: &mut W,
) -> Result<Status, Failure<'a>>
    ensures status { IfOk result (λ status. status ≡ Refused) }
    ensures world { Stays (F.world files.old) (F.world files.new) }
{
    let shown = Escaped::in_line(path);
    match none.fault {
        OpeningFault::Script(fault) => writeln!(out, "{shown}:{fault}")?,
        _ => writeln!(out, "{shown}: {}", none.fault)?,
    }
    let text = script_text(none.bytes.as_slice(), path)?;
    let refusal = refusal_of(none.fault);
    explain_script(alloc, path, text, refusal, explanation, files, out)?;
    Ok(Status::Refused)
}

/// The refusal by `compile` of a script that has no opening for this reason.
fn refusal_of(fault: OpeningFault) -> ScriptRefusal {
    let (line, cause) = match fault {
        OpeningFault::Script(fault) => return ScriptRefusal::Script(fault),
        OpeningFault::Item(item) => (item.line, Cause::Edit(item.fault)),
        OpeningFault::Unsound { line, fault } => (line, Cause::Config(fault)),
        OpeningFault::Memory => return ScriptRefusal::Memory,
    };
    ScriptRefusal::Plan(CompileFault::Refused { line, cause })
}
