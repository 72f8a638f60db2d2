//! Why a text is not a script.

use std::alloc::AllocError;
use std::fmt::{self, Display, Formatter, Write};
use thiserror::Error;

/// A position in a text: its line and its column in bytes, both from 1.
#[derive(Clone, Copy, Debug, Default, PartialEq, Eq)]
pub struct Position {
    pub line: usize,
    pub column: usize,
}

impl Position {
    /// The position just past a text.
    pub fn past(text: &[u8]) -> Position {
        let mut line = 1;
        let mut column = 1;
        for byte in text {
            if *byte == b'\n' {
                line += 1;
                column = 1;
            } else {
                column += 1;
            }
        }
        Position { line, column }
    }
}

impl Display for Position {
    /// Line and column with a colon between them.
    fn fmt<W: Write>(&self, f: &mut Formatter<W>) -> fmt::Result {
        write!(f, "{}:{}", self.line, self.column)
    }
}

/// Why a text is not a script, with the position of the token at fault, or just past the text.
#[derive(Clone, Copy, Debug, PartialEq, Eq, Error)]
pub enum ScriptFault {
    /// A byte outside comments that is not allowed in a script.
    #[error("{0}: Byte")]
    Byte(Position),
    /// An atom where a value is required that is not such a value in range.
    #[error("{0}: Number")]
    Number(Position),
    /// A token, or the end of the text, where another token is required.
    #[error("{0}: Expected")]
    Expected(Position),
    /// A brace that would be more than 16 deep.
    #[error("{0}: Depth")]
    Depth(Position),
    /// A second definition of a name.
    #[error("{0}: NameUsed")]
    NameUsed(Position),
    /// A name that is not defined before it is applied.
    #[error("{0}: NameUnknown")]
    NameUnknown(Position),
    /// A text, a line, an atom, the defined blocks, or the items and statements exceed their limit.
    #[error("{0}: Limit")]
    Limit(Position),
    /// Out of memory.
    #[error("no memory")]
    Memory,
}

impl From<AllocError> for ScriptFault {
    ghost use Rattle.std.specs.Prelude.{◌≡◌};
    ghost use Rattle.script_tokens.specs.declared.fault.ScriptFault.TheVariants.{Memory};

    ghost from_gives = { λ _ e. e ≡ Memory };

    /// Out of memory.
    fn from(_error: AllocError) -> Self {
        ScriptFault::Memory
    }
}
