//! The compiler's errors: refusals, exceeded limits, out of memory.

use plan_verifier::Cause;
use std::alloc::AllocError;
use thiserror::Error;

/// A limit on codes.
#[derive(Clone, Copy, Debug, PartialEq, Eq)]
pub enum CodeLimit {
    /// A code has at most 4,096 instructions.
    Instructions,
    /// A code has at most 1,024 labels.
    Labels,
    /// The table of a code has at most 256 configurations.
    Configurations,
    /// A code has eight counters, so repeats are nested at most eight deep.
    Counters,
}

/// Why a script does not compile. `Display` writes the line that `dabplan compile` prints: `refused
/// line L: CAUSE`, `refused: Limit` or `no memory`.
#[derive(Clone, Copy, Debug, PartialEq, Eq, Error)]
pub enum CompileFault {
    /// A statement, an item or the opening is refused. The line is that of the first token of the
    /// item or the statement, also inside a defined block, or that of `begin` for the opening as a
    /// whole.
    #[error("refused line {line}: {cause}")]
    Refused { line: u16, cause: Cause },
    /// The code would exceed this limit. The line is that of the first token of the statement whose
    /// code exceeds it, or that of the last token of the text for the `End` after the statements.
    #[error("refused: Limit")]
    Limit { line: u16, limit: CodeLimit },
    /// Out of memory.
    #[error("no memory")]
    Memory,
}

impl From<AllocError> for CompileFault {
    ghost use Rattle.std.specs.Prelude.{◌≡◌};
    ghost use Rattle.script_compiler.specs.declared.fault.CompileFault.TheVariants.{Memory};

    ghost from_gives = { λ _ e. e ≡ Memory };

    /// An allocation failure is `Memory`.
    fn from(_error: AllocError) -> Self {
        CompileFault::Memory
    }
}
