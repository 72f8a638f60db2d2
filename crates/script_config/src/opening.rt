//! Reads the opening of a script or a schedule: its header and the configuration that its items
//! make.

ghost use Rattle.std.specs.Prelude.{◌≡◌, ◌≢◌, IfOk, IfErr};
ghost use Rattle.script_config.specs.Openings.{HasNoOpening, IsOpeningReason, IsSoundOpening};
ghost use Rattle.script_config.specs.Openings.{FailsToOpen, HasConfig, Opens};
ghost use Rattle.script_config.specs.declared.opening.OpeningFault.TheVariants.{Memory as NoMemory};

use crate::items::{ItemFault, made_by};
use mux_config::{Config, ConfigFault, soundness};
use plan_code::Plan;
use schedule_front::{Source, parse_source};
use script_front::{Item, ScriptFault};
use std::alloc::Global;
use thiserror::Error;

/// The opening of a script or a schedule; its blocks and statements, or its overlays, are parsed
/// but not compiled.
#[derive(Drop)]
pub struct Opening {
    /// The header of the script.
    pub header: Plan,
    /// The line of `begin`, or of `schedule`, 1 to 65,535.
    pub begin_line: u16,
    /// The configuration that its items make.
    pub config: Config,
}

/// Why a text has no opening, in the order tested. `Display` writes the line that `compile` prints.
#[derive(Clone, Copy, Debug, PartialEq, Eq, Error)]
pub enum OpeningFault {
    /// The text is neither a script nor a schedule.
    #[error("{0}")]
    Script(ScriptFault),
    /// An item has a fault.
    #[error("{0}")]
    Item(ItemFault),
    /// The configuration is not sound; the line is that of `begin` or `schedule`.
    #[error("refused line {line}: Config {fault}")]
    Unsound { line: u16, fault: ConfigFault },
    /// Out of memory.
    #[error("no memory")]
    Memory,
}

/// The opening of this header and these items, behind which the line of `begin` or `schedule` is.
///
/// `Item` for the first item with a fault, `Unsound` if they make an unsound configuration.
fn opening_with(header: Plan, line: u16, items: &[Item]) -> Result<Opening, OpeningFault>
    ensures header { IfOk result (λ opening. opening.header ≡ header) }
    ensures line { IfOk result (λ opening. opening.begin_line ≡ line) }
    ensures config { IfOk result (λ opening. HasConfig items.now opening.config) }
    ensures fault { IfErr result (FailsToOpen items.now line) }
{
    let config = match made_by(items) {
        Ok(config) => config,
        Err(fault) => return Err(OpeningFault::Item(fault)),
    };
    if let Err(fault) = soundness(&config) {
        return Err(OpeningFault::Unsound { line, fault });
    }
    Ok(Opening {
        header,
        begin_line: line,
        config,
    })
}

/// Reads the opening of the script or the schedule in a text. Its configuration is sound.
///
/// # Errors
///
/// The first fault, in the order of [`OpeningFault`].
#[tactic(auto, using(crate::proofs::OpeningFaults::unopened_steps, crate::proofs::OpeningFaults::unopened_schedule))]
pub fn read_opening(alloc: Global, text: &str) -> Result<Opening, OpeningFault>
    ensures opens { IfOk result (Opens text.now) }
    ensures formed { IfOk result IsSoundOpening }
    ensures fault { IfErr result (HasNoOpening text.now) }
    ensures reason { IfErr result (λ fault. fault ≢ NoMemory → IsOpeningReason fault) }
{
    match parse_source(alloc, text) {
        Ok(Source::Steps(script)) => {
            opening_with(script.header(), script.begin_line(), script.items())
        }
        Ok(Source::Schedule(schedule)) => {
            opening_with(schedule.header(), schedule.line(), schedule.items())
        }
        Err(ScriptFault::Memory) => Err(OpeningFault::Memory),
        Err(fault) => Err(OpeningFault::Script(fault)),
    }
}
