//! Why a schedule does not compile.

use plan_verifier::Cause;
use std::alloc::AllocError;
use thiserror::Error;

/// A limit on schedules and their codes.
#[derive(Clone, Copy, Debug, PartialEq, Eq)]
pub enum ScheduleLimit {
    /// At most 4,096 combinations of overlays can hold at some moment.
    Combinations,
    /// At most 256 configurations can be due.
    Configurations,
    /// A code has at most 4,096 instructions.
    Instructions,
    /// A code has at most 1,024 labels.
    Labels,
    /// At most 200,000 regions of contacts and frames of the day are looked at to know that a code
    /// plays as the schedule prescribes.
    Regions,
}

/// Why a schedule does not compile. `Display` writes the line that `dabplan compile` prints.
#[derive(Clone, Copy, Debug, PartialEq, Eq, Error)]
pub enum ScheduleFault {
    /// A configuration, a change or the cost of the code is refused. The line is that of the edit
    /// at fault, or of the last overlay that holds, or of `schedule`; 1 to 65,535. The overlays are
    /// those that hold there, or before a change or behind it; the first one is the lowest bit.
    #[error("refused line {line}: {cause}")]
    Refused {
        line: u16,
        cause: Cause,
        overlays: u64,
    },
    /// A limit is exceeded.
    #[error("refused: Limit")]
    Limit(ScheduleLimit),
    /// The verifier does not accept the code, or it is not known to play as the schedule
    /// prescribes; no such schedule is known.
    #[error("refused: Uncertified")]
    Uncertified,
    /// Out of memory.
    #[error("no memory")]
    Memory,
}

/// Why no code is built of a schedule that has no fault itself.
#[derive(Clone, Copy, Debug, PartialEq, Eq)]
pub(crate) enum BuildFault {
    /// A limit is exceeded.
    Limit(ScheduleLimit),
    /// What was found is not what it should be; no such schedule is known.
    Uncertified,
    /// Out of memory.
    Memory,
}

impl From<AllocError> for BuildFault {
    ghost use Rattle.std.specs.Prelude.{◌≡◌};
    ghost use Rattle.schedule_compiler.specs.declared.fault.BuildFault.TheVariants.{Memory};

    ghost from_gives = { λ _ e. e ≡ Memory };

    /// An allocation failure is `Memory`.
    fn from(_error: AllocError) -> Self {
        BuildFault::Memory
    }
}

impl From<BuildFault> for ScheduleFault {
    ghost use Rattle.std.specs.Prelude.{◌≡◌};
    ghost use Rattle.schedule_compiler.specs.Refusals.{fault_of_build};

    ghost from_gives = { λ f e. e ≡ fault_of_build f };

    /// The same fault.
    fn from(fault: BuildFault) -> Self {
        match fault {
            BuildFault::Limit(limit) => ScheduleFault::Limit(limit),
            BuildFault::Uncertified => ScheduleFault::Uncertified,
            BuildFault::Memory => ScheduleFault::Memory,
        }
    }
}

impl From<AllocError> for ScheduleFault {
    ghost use Rattle.std.specs.Prelude.{◌≡◌};
    ghost use Rattle.schedule_compiler.specs.declared.fault.ScheduleFault.TheVariants.{Memory};

    ghost from_gives = { λ _ e. e ≡ Memory };

    /// An allocation failure is `Memory`.
    fn from(_error: AllocError) -> Self {
        ScheduleFault::Memory
    }
}
