//! Program points: what is known at the instructions of a script's code.

ghost use Rattle.std.specs.Prelude.{◌≡◌, true};
ghost use Rattle.plan_code.specs.declared.label.Swap.TheVariants.{Idle};

use mux_config::{Config, Store};
use mux_tables::Tables;
use plan_code::Swap;
use plan_verifier::Flow;

/// What is known at an instruction of a code, and whether it has a label.
#[derive(Drop)]
pub struct ProgramPoint {
    /// What is known of the configurations and of the swap from the current one to the next.
    pub flow: Flow<Tables>,
    /// Whether the instruction has a label.
    pub labelled: bool,
}

/// A copy of a configuration.
fn copied(tables: &Tables) -> Tables
    ensures { result ≡ tables.now }
{
    let mut copy = Tables::empty();
    copy.copy_from(tables);
    copy
}

impl ProgramPoint {
    /// The program point at the start: this configuration, no pending swap, and a label.
    pub fn opening(config: &Config) -> ProgramPoint
        ensures { result ≡ record {
          flow = record { current = config.now; next = config.now; pending = Idle };
          labelled = true;
        } }
    {
        ProgramPoint {
            flow: Flow {
                current: Tables::from_config(config),
                next: Tables::from_config(config),
                pending: Swap::Idle,
            },
            labelled: true,
        }
    }

    /// A copy of this program point.
    pub fn copied(&self) -> ProgramPoint
        ensures { result ≡ self.now }
    {
        ProgramPoint {
            flow: Flow {
                current: copied(&self.flow.current),
                next: copied(&self.flow.next),
                pending: self.flow.pending,
            },
            labelled: self.labelled,
        }
    }
}

/// The instruction of a label, and what is known there.
#[derive(Drop)]
pub struct UnpricedLabel {
    /// The pc of the instruction, from 0.
    pub pc: u16,
    /// What is known there.
    pub flow: Flow<Tables>,
    /// The number of enclosing repeats; their counters, the first ones, are set.
    pub repeats: u8,
}
