//! `dabplan verify`: reports whether the plan code in a file is accepted.

ghost use Rattle.std.specs.Prelude.{◌≡◌, ◌≢◌, codes, take, IfOk, OnOk, IfErr, IfSome};
ghost use Rattle.plan_code.specs.declared.fault.CodeFault.TheVariants.{Memory as NoMemoryForCode};
ghost use Rattle.plan_session.specs.declared.run_fault.RunFault.TheVariants.{Code as OfCode};
ghost use Rattle.cli_scripts.specs.Success.{IsAcceptedFile, Verifies};

use crate::explained::{Explanation, show_code_refusal};
use console::code_file::read_code_input;
use console::exit::{Failure, Status};
use console::files::Files;
use plan_code::CodeFault;
use plan_session::{RunFault, typed_code};
use std::alloc::Global;
use std::io::Write;

/// The arguments of `verify`.
#[derive(Clone, Copy)]
pub struct VerifyRequest<'a> {
    /// The path of the code file; standard input if it is `-`.
    pub code: &'a str,
    /// Where a refusal is explained.
    pub explanation: Explanation,
}

/// Runs `verify`: prints `accepted`, or why the code in the file is not accepted, and explains it.
/// No file is changed.
///
/// `Read` if the file can't be read; `Output` if `out` fails; `Memory` if out of memory.
pub fn show_verdict<'a, F: Files, W: Write>(
    alloc: Global,
    request: &VerifyRequest<'a>,
    files: &mut F,
    out: &mut W,
) -> Result<Status, Failure<'a>>
    ensures input { request.now.code.now ≡ codes "-" → IfOk result (λ status.
        IfSome (F.known_input files.old) (λ file. Verifies (take 1048577 file) status)) }
    ensures file { request.now.code.now ≢ codes "-" → IfOk result (λ status.
        IfSome (F.known files.old request.now.code.now)
        (λ file. Verifies (take 1048577 file) status)) }
{
    let file = read_code_input(alloc, files, request.code)?;
    print_verdict(alloc, request, file.as_slice(), files, out)
}

/// Prints the verdict on a file of these bytes.
fn print_verdict<'a, F: Files, W: Write>(
    alloc: Global,
    request: &VerifyRequest<'a>,
    file: &[u8],
    files: &mut F,
    out: &mut W,
) -> Result<Status, Failure<'a>>
    ensures { IfOk result (Verifies file.now) }
{
    match verdict_on(alloc, file) {
        Ok(()) => {
            writeln!(out, "accepted")?;
            Ok(Status::Done)
        }
        Err(RunFault::Code(CodeFault::Memory)) => Err(Failure::Memory),
        Err(fault) => {
            let explanation = request.explanation;
            show_code_refusal(alloc, request.code, file, fault, explanation, files, out)?;
            Ok(Status::Refused)
        }
    }
}

/// Whether a file holds an accepted code; else why not.
fn verdict_on(alloc: Global, file: &[u8]) -> Result<(), RunFault>
    ensures accepted { OnOk result (IsAcceptedFile file.now) }
    ensures refused { IfErr result (λ fault. fault ≢ OfCode NoMemoryForCode
        → IsAcceptedFile file.now → ⊥) }
{
    match typed_code(alloc, file) {
        Ok(_verified) => Ok(()),
        Err(fault) => Err(fault),
    }
}
