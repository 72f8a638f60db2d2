//! Whether each change that a schedule can make has room for its pages.

ghost use Rattle.std.specs.Prelude.{◌≡◌, ◌≤◌, IsTrue, IfErr};
ghost use Rattle.mux_config.specs.Configuration.{Configuration};
ghost use Rattle.schedule_compiler.specs.Refusals.{HasNoRoom, IsBadRound, IsNoBeginning};
ghost use Rattle.schedule_compiler.specs.Refusals.{IsNoWayTo};

use crate::fault::ScheduleFault;
use crate::lines::line_of;
use crate::states::{State, find};
use mux_config::{Config, Store};
use mux_tables::Tables;
use plan_code::{Delay, Instr, Plan, Swap};
use plan_verifier::{Cause, Flow, test_opening};
use schedule_front::Schedule;

/// Tests that a plan can begin with a configuration.
fn test_alone(schedule: &Schedule, config: &Config) -> Result<(), ScheduleFault>
    ensures { IfErr result (IsNoBeginning schedule.now config.now) }
{
    match test_opening(&schedule.header(), config) {
        Ok(()) => Ok(()),
        Err(cause) => Err(ScheduleFault::Refused {
            line: schedule.line(),
            cause,
            overlays: 0,
        }),
    }
}

/// Whether a change to this configuration has no room for its pages, if it is committed a notice
/// ahead.
fn is_crowded(plan: &Plan, delay: Delay, flow: &mut Flow<Tables>, to: &Config) -> bool
    requires { plan.now.notice ≤ delay }
    ensures kept { flow.new.current ≡ flow.old.current }
    ensures crowded { IsTrue result → HasNoRoom plan.now flow.old.current to.now }
{
    flow.next = Tables::from_config(to);
    flow.pending = Swap::Idle;
    flow.apply(plan, Instr::CommitIn(delay)) == Err(Cause::Round)
}

/// Tests the changes from a configuration, made by these overlays, to each state but one.
fn test_from(
    schedule: &Schedule,
    delay: Delay,
    from: &Config,
    overlays: u64,
    states: &[State],
    except: usize,
) -> Result<(), ScheduleFault>
    requires { schedule.now.header.notice ≤ delay }
    ensures { IfErr result (IsNoWayTo schedule.now from.now overlays states.now) }
{
    let plan = schedule.header();
    let mut flow = Flow {
        current: Tables::from_config(from),
        next: Tables::from_config(from),
        pending: Swap::Idle,
    };
    for (index, to) in states.iter().enumerate() {
        if index != except {
            if is_crowded(&plan, delay, &mut flow, &to.config) {
                let both = overlays | to.overlays;
                return Err(ScheduleFault::Refused {
                    line: line_of(schedule, both),
                    cause: Cause::Round,
                    overlays: both,
                });
            }
        }
    }
    Ok(())
}

/// Tests that a plan can begin with a configuration that is none of the states, and that each
/// change from it has room for its pages.
fn test_start(
    schedule: &Schedule,
    delay: Delay,
    start: &Config,
    states: &[State],
) -> Result<(), ScheduleFault>
    requires { schedule.now.header.notice ≤ delay }
    ensures { (items : Configuration) → IfErr result
        (IsBadRound schedule.now items start.now states.now) }
{
    if let Err(fault) = test_alone(schedule, start) {
        return Err(fault);
    }
    test_from(schedule, delay, start, 0, states, states.len())
}

/// Tests that the pages of the items go out within the period, and that each change from one state
/// to another has room for its pages: three times within the notice. Where the plan begins with
/// another configuration than a state's, that is tested first.
///
/// # Errors
///
/// `Round` at the line of `schedule` for one configuration, else at that of the last overlay that
/// holds before the change or behind it.
pub(crate) fn test_rounds(
    schedule: &Schedule,
    delay: Delay,
    items: &Config,
    start: &Config,
    states: &[State],
) -> Result<(), ScheduleFault>
    requires { schedule.now.header.notice ≤ delay }
    ensures { IfErr result (IsBadRound schedule.now items.now start.now states.now) }
{
    if find(states, start).is_none() {
        if let Err(fault) = test_start(schedule, delay, start, states) {
            return Err(fault);
        }
    }
    if let Err(fault) = test_alone(schedule, items) {
        return Err(fault);
    }
    for (index, from) in states.iter().enumerate() {
        if let Err(fault) = test_from(schedule, delay, &from.config, from.overlays, states, index) {
            return Err(fault);
        }
    }
    Ok(())
}
