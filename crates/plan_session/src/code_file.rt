//! Loading a code file that can be played.

ghost use Rattle.std.specs.Prelude.{◌≡◌, IfOk, IfErr};
ghost use Rattle.plan_code.specs.declared.fault.CodeFault.TheVariants.{Memory as NoMemoryForCode};
ghost use Rattle.plan_code.specs.Program.{Program, line_at};
ghost use Rattle.plan_session.specs.declared.run_fault.RunFault.TheVariants.{Code as OfCode};
ghost use Rattle.plan_session.specs.Parts.{IsCodeFault};
ghost use Rattle.plan_session.specs.Playback.{IsTypedFileOf, or_zero};

use crate::run_fault::RunFault;
use mux_tables::Tables;
use plan_code::{Code, decode};
use plan_verifier::{Verified, verify};
use std::alloc::Global;

/// The source line of the instruction at this pc; 0 if there is no instruction.
fn line_of(code: &Code, pc: u16) -> u16
    ensures { result ≡ or_zero (line_at code.now pc) }
{
    match code.line_at(pc) {
        Some(line) => line,
        None => 0,
    }
}

/// The code of this file, if the bytes are a code file and the code is typed.
///
/// # Errors
///
/// `Code`: the first fault of bytes that are not a code file, or out of memory. `Refused`: the
/// first pc at which the code is refused, the source line, and the first cause there. There is no
/// other fault.
pub fn typed_code(alloc: Global, bytes: &[u8]) -> Result<Verified, RunFault>
    ensures found { IfOk result (λ v. IsTypedFileOf v bytes.now) }
    ensures only { (code : Program) → IsTypedFileOf code bytes.now → IfOk result (λ v. v ≡ code) }
    ensures fault { IfErr result (λ e. IsCodeFault bytes.now e) }
    ensures memory { (code : Program) → IsTypedFileOf code bytes.now
        → IfErr result (λ e. e ≡ OfCode NoMemoryForCode) }
{
    let code = match decode(alloc, bytes) {
        Ok(code) => code,
        Err(fault) => return Err(RunFault::Code(fault)),
    };
    match verify::<Tables>(code) {
        Ok(verified) => Ok(verified),
        Err(refused) => Err(RunFault::Refused {
            pc: refused.pc,
            line: line_of(&refused.code, refused.pc),
            cause: refused.cause,
        }),
    }
}
