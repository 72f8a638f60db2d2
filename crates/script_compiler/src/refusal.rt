//! Builds refusals.

ghost use Rattle.std.specs.Prelude.{◌≡◌};
ghost use Rattle.script_compiler.specs.declared.fault.CompileFault.TheVariants.{Refused};

use crate::fault::CompileFault;
use plan_verifier::Cause;

/// A refusal with a line and a cause.
pub(crate) fn refused(line: u16, cause: Cause) -> CompileFault
    ensures { result ≡ Refused line cause }
{
    CompileFault::Refused { line, cause }
}
