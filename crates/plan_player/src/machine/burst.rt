//! Executing the instructions of one frame.

ghost use Rattle.std.specs.Prelude.{◌≡◌};
ghost use Rattle.plan_code.specs.Machine.{StepIsAllowed, step};
ghost use Rattle.plan_runs.specs.Frames.{is_running, burst, burst_steps};
ghost use Rattle.plan_player.specs.Positions.{state_of, CanRun};

use super::Machine;
use super::instruction::carry_out;
use mux_config::Store;
use plan_code::{Code, Hold, Plan};

/// Whether the machine is not suspended, so that instructions are executed.
fn is_running(hold: Hold) -> bool
    ensures { result ≡ is_running hold }
{
    match hold {
        Hold::Running => true,
        Hold::Waits(_) | Hold::WaitsDay(_) | Hold::WaitsContact { .. } => false,
        Hold::WaitsAny { .. } | Hold::WaitsSwap | Hold::Ended => false,
    }
}

/// Executes the instruction at the machine's pc, which doesn't trap.
fn step<S: Store>(code: &Code, plan: &Plan, machine: &mut Machine<S>)
    requires plan { plan.now ≡ code.now.plan }
    requires allowed { StepIsAllowed code.now (state_of S.content machine.old) }
    ensures { state_of S.content machine.new ≡ step code.now (state_of S.content machine.old) }
{
    let instr = code.instr(machine.pc).unwrap();
    carry_out(plan, instr, machine);
}

/// Executes instructions until one suspends, and returns their number; none of them traps, and they
/// are within the budget. Neither traps nor the budget are tested for.
#[tactic(auto, using(crate::proofs::Remaining::remains_all, crate::proofs::Remaining::stops))]
pub(crate) fn run<S: Store>(code: &Code, machine: &mut Machine<S>) -> u8
    requires { CanRun code.now (state_of S.content machine.old) }
    ensures state { state_of S.content machine.new ≡
        burst code.now.plan.budget code.now (state_of S.content machine.old) }
    ensures steps { result ≡
        burst_steps code.now.plan.budget code.now (state_of S.content machine.old) }
{
    let plan = code.plan();
    let mut steps = 0u8;
    'instructions: while is_running(machine.hold) {
        step(code, &plan, machine);
        steps += 1;
    }
    steps
}
