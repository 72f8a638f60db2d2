//! Why bytes are not a code file.

ghost use Rattle.std.specs.Prelude.{◌≡◌, ℕ, ◌+◌, ◌<◌, ◌^◌};
ghost use Rattle.plan_code.specs.Reading.{fault_from as fault_of_part};
ghost use Rattle.plan_code.specs.declared.fault.CodeFault.TheVariants.{Memory};

use mux_config::RecordFault;
use std::alloc::{AllocError, AllocFailed};
use thiserror::Error;

/// Why bytes are not a code file: the first fault in file order. Its text is its name.
#[derive(Clone, Copy, Debug, PartialEq, Eq, Error)]
pub enum CodeFault {
    /// The file doesn't begin with the four bytes `DABP`.
    #[error("Magic")]
    Magic,
    /// The version is none of 1 to 3.
    #[error("Version")]
    Version,
    /// Bytes of a field are missing.
    #[error("Truncated")]
    Truncated,
    /// A field is out of range; its first byte is at this offset of the file.
    #[error("Field {0}")]
    Field(usize),
    /// There are more than 256 configurations, 1,024 labels or 4,096 instructions.
    #[error("Limit")]
    Limit,
    /// Bytes follow the last instruction.
    #[error("Trailing")]
    Trailing,
    /// Out of memory.
    #[error("Memory")]
    Memory,
}

/// The fault of a part of a file that begins at `start`; offsets within the part are counted from
/// there.
pub(crate) fn fault_from(start: usize, fault: RecordFault) -> CodeFault
    requires { (place : ℕ) → fault ≡ RecordFault.Field place → start + place < 2 ^ 64 }
    ensures { result ≡ fault_of_part start fault }
{
    match fault {
        RecordFault::Short => CodeFault::Truncated,
        RecordFault::Field(place) => CodeFault::Field(start + place),
        RecordFault::Order => CodeFault::Field(start),
    }
}

/// The fault of a part that begins at the start of the file.
impl From<RecordFault> for CodeFault {
    ghost use Rattle.std.specs.Prelude.{◌≡◌};
    ghost use Rattle.plan_code.specs.Reading.{fault_from};

    ghost from_gives = { λ f e. e ≡ fault_from 0 f };

    fn from(fault: RecordFault) -> CodeFault {
        fault_from(0, fault)
    }
}

impl From<AllocError> for CodeFault {
    ghost from_gives = { λ _ e. e ≡ Memory };

    fn from(_error: AllocError) -> CodeFault {
        CodeFault::Memory
    }
}

impl<T: Drop> From<AllocFailed<T>> for CodeFault {
    ghost from_gives = { λ _ e. e ≡ Memory };

    fn from(_error: AllocFailed<T>) -> CodeFault {
        CodeFault::Memory
    }
}
