//! Why a code is refused.

use mux_config::{ConfigFault, EditFault};
use thiserror::Error;

/// Why a code is refused at an instruction. It is printed as its name; after `Edit` and `Config`
/// comes the fault of the edit or of the configuration.
#[derive(Clone, Copy, Debug, PartialEq, Eq, Error)]
pub enum Cause {
    /// There is no label at the target of the instruction.
    #[error("Target")]
    Target,
    /// A label is missing at the first instruction, or at one that the preceding instruction does
    /// not continue to; or a label is past the last instruction.
    #[error("Table")]
    Table,
    /// The edit has this fault on the next configuration.
    #[error("Edit {0}")]
    Edit(EditFault),
    /// The initial configuration, or the one that is committed, is not sound.
    #[error("Config {0}")]
    Config(ConfigFault),
    /// An edit or a commit while a swap is or may be pending.
    #[error("Pending")]
    Pending,
    /// A commit of a configuration that is already the current one.
    #[error("NoChange")]
    NoChange,
    /// A commit whose delay is shorter than the notice.
    #[error("Notice")]
    Notice,
    /// A commit at a CIF count of 5000 or more, or on which no swap can fall in the transmission
    /// mode.
    #[error("Count")]
    Count,
    /// A join where no swap is pending, or may not be.
    #[error("JoinIdle")]
    JoinIdle,
    /// A wait that may end before or after the swap.
    #[error("SwapUncertain")]
    SwapUncertain,
    /// A loop on a counter that may not be set.
    #[error("CounterUnset")]
    CounterUnset,
    /// What is known on reaching a label does not fit what the label declares.
    #[error("Mismatch")]
    Mismatch,
    /// More instructions may run in one frame than the budget or a label's cost allows.
    #[error("Cost")]
    Cost,
    /// The configurations take more pages than the period has frames, or than can be sent three
    /// times within the notice.
    #[error("Round")]
    Round,
    /// The last instruction continues past the end of the code.
    #[error("FallsOff")]
    FallsOff,
}
