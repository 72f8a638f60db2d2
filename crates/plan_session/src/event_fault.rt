//! Why a text is not an event file or a command file.

use script_tokens::{Position, ScriptFault};
use std::alloc::AllocError;
use thiserror::Error;

/// Why a text is not an event file or a command file, with the position of the token, or just past
/// the text.
#[derive(Clone, Copy, Debug, PartialEq, Eq, Error)]
pub enum EventFault {
    /// A byte outside comments that is not allowed.
    #[error("{0}: Byte")]
    Byte(Position),
    /// An atom that is not the required number in range.
    #[error("{0}: Number")]
    Number(Position),
    /// Any other wrong token, or the end of the text.
    #[error("{0}: Expected")]
    Expected(Position),
    /// Out of memory.
    #[error("no memory")]
    Memory,
}

impl From<AllocError> for EventFault {
    ghost use Rattle.std.specs.Prelude.{◌≡◌};
    ghost use Rattle.plan_session.specs.declared.event_fault.EventFault.TheVariants.{Memory};

    ghost from_gives = { λ _ e. e ≡ Memory };

    /// Out of memory.
    fn from(_error: AllocError) -> Self {
        EventFault::Memory
    }
}

impl From<ScriptFault> for EventFault {
    ghost use Rattle.std.specs.Prelude.{◌≡◌};
    ghost use Rattle.plan_session.specs.FirstFaults.{reported_fault};

    ghost from_gives = { λ fault e. e ≡ reported_fault fault };

    /// The fault for one of the lexer or of the reader. Event and command files have no blocks,
    /// names or limits, so only `Byte`, `Number`, `Expected` and `Memory` occur.
    fn from(fault: ScriptFault) -> Self {
        match fault {
            ScriptFault::Memory => EventFault::Memory,
            ScriptFault::Byte(position) => EventFault::Byte(position),
            ScriptFault::Number(position) => EventFault::Number(position),
            ScriptFault::Expected(position)
            | ScriptFault::Depth(position)
            | ScriptFault::NameUsed(position)
            | ScriptFault::NameUnknown(position)
            | ScriptFault::Limit(position) => EventFault::Expected(position),
        }
    }
}
