//! Compiles a schedule.

ghost use Rattle.std.specs.Prelude.{◌≡◌, ◌≤◌, IfErr, IfOk};
ghost use Rattle.mux_config.specs.Configuration.{Configuration};
ghost use Rattle.schedule_runs.specs.Due.{opening_of};
ghost use Rattle.schedule_verifier.specs.Playing.{PlaysAsScheduled};
ghost use Rattle.schedule_compiler.specs.Refusals.{IsBadItem, IsRefused, IsRefusedAmong};

use crate::combinations::Combinations;
use crate::decisions::Decisions;
use crate::emission::Emission;
use crate::fault::{BuildFault, ScheduleFault, ScheduleLimit};
use crate::labels::{labels, rank_of};
use crate::reach::{Distances, at, reach};
use crate::rounds::test_rounds;
use crate::search::{Cell, Search, searched};
use crate::states::{State, States, find};
use crate::terms::{bit, short};
use mux_config::{Config, Store};
use mux_tables::Tables;
use plan_code::limits::MOST_INSTRUCTIONS;
use plan_code::{Code, Delay, Plan};
use plan_verifier::{Cause, Verified, verify};
use schedule_front::Schedule;
use schedule_verifier::{Room, are_combinations, implements};
use script_compiler::needs::{first_over, needs};
use script_config::{ItemFault, made_by};
use std::alloc::{AllocError, Global};

/// More states than a code has room for: each takes three instructions to change to each other one.
const MANY_STATES: usize = 40;

/// A copy of a configuration.
fn copied(config: &Config) -> Config {
    let mut copy = Config::empty();
    copy.copy_from(config);
    copy
}

/// The delay of each commit: a notice.
fn delay_of(plan: &Plan) -> Result<Delay, BuildFault>
    ensures { IfOk result (λ delay. delay ≡ plan.now.notice) }
{
    match Delay::new(u16::from(plan.notice)) {
        Some(delay) => Ok(delay),
        None => Err(BuildFault::Uncertified),
    }
}

/// The configuration of the items.
fn items_of(schedule: &Schedule) -> Result<Config, ScheduleFault>
    ensures made { IfOk result (λ c. c ≡ opening_of schedule.now) }
    ensures refused { IfErr result (IsBadItem schedule.now) }
{
    match made_by(schedule.items()) {
        Ok(config) => Ok(config),
        Err(ItemFault { line, fault }) => Err(ScheduleFault::Refused {
            line,
            cause: Cause::Edit(fault),
            overlays: 0,
        }),
    }
}

/// The index of the state with the configuration that the plan begins with, which is added if it is
/// none of the states.
fn start_of(states: &mut Vec<State>, start: &Config, line: u16) -> Result<u16, BuildFault> {
    if let Some(index) = find(states.as_slice(), start) {
        return Ok(short(index));
    }
    let index = short(states.len());
    let state = State {
        config: copied(start),
        overlays: 0,
        line,
    };
    match states.push(state) {
        Ok(()) => Ok(index),
        Err(_full) => Err(BuildFault::Memory),
    }
}

/// Appends the states of this number, but one, that are in a set, or that are not.
fn add_states(
    order: &mut Vec<u16>,
    count: usize,
    except: u16,
    set: u64,
    within: bool,
) -> Result<(), AllocError> {
    for index in 0..count {
        let state = short(index);
        if state != except && (set & bit(state) != 0) == within {
            order.push(state)?;
        }
    }
    Ok(())
}

/// The states that have code, in the order of it: the first one, and those that can be due.
fn order_of(alloc: Global, count: usize, start: u16, due: u64) -> Result<Vec<u16>, AllocError> {
    let mut order = Vec::new(alloc);
    order.push(start)?;
    add_states(&mut order, count, start, due, true)?;
    Ok(order)
}

/// Emits the code of these states, and returns where each begins.
fn emit(alloc: Global, emission: &mut Emission, order: &[u16]) -> Result<Vec<u16>, BuildFault> {
    let mut starts = Vec::new(alloc);
    for state in order {
        let pc = emission.state(*state)?;
        if starts.push(pc).is_err() {
            return Err(BuildFault::Memory);
        }
    }
    Ok(starts)
}

/// Sets the targets of the jumps to the code of states.
fn link(emission: &mut Emission, order: &[u16], starts: &[u16]) {
    for index in 0..emission.returns.len() {
        let Some(jump) = emission.returns.get(index).copied() else {
            return;
        };
        if let Some(target) = starts.get(usize::from(rank_of(order, jump.state))) {
            emission.set_target(jump.pc, *target);
        }
    }
}

/// The configurations of these states.
fn table(alloc: Global, states: &[State], order: &[u16]) -> Result<Vec<Config>, BuildFault> {
    let mut table = Vec::new(alloc);
    for index in order {
        if let Some(state) = states.get(usize::from(*index)) {
            if table.push(copied(&state.config)).is_err() {
                return Err(BuildFault::Memory);
            }
        }
    }
    Ok(table)
}

/// The code, once the verifier has accepted it.
fn certified(code: Option<Code>) -> Result<Verified, BuildFault> {
    let Some(code) = code else {
        return Err(BuildFault::Uncertified);
    };
    match verify::<Tables>(code) {
        Ok(verified) => Ok(verified),
        Err(_refused) => Err(BuildFault::Uncertified),
    }
}

/// The code of these states and decisions, which begins with the first of these; None if it costs
/// more than the budget.
fn code_of(
    alloc: Global,
    schedule: &Schedule,
    delay: Delay,
    states: &[State],
    decisions: &Decisions,
    start: u16,
) -> Result<Option<Verified>, BuildFault> {
    let plan = schedule.header();
    let reach = reach(alloc, decisions.nodes.as_slice())?;
    let distances = Distances::new(alloc, states)?;
    let due = at(reach.as_slice(), decisions.root);
    let mut order = order_of(alloc, states.len(), start, due)?;
    let mut emission = Emission::new(
        alloc,
        schedule,
        delay,
        states,
        decisions,
        reach.as_slice(),
        &distances,
    );
    let starts = emit(alloc, &mut emission, order.as_slice())?;
    add_states(&mut order, states.len(), start, due, false)?;
    link(&mut emission, order.as_slice(), starts.as_slice());
    if emission.code.len() > usize::from(MOST_INSTRUCTIONS) {
        return Err(BuildFault::Limit(ScheduleLimit::Instructions));
    }
    let needs = needs(alloc, emission.code.as_slice(), plan.budget)?;
    let labels = labels(
        alloc,
        emission.code.as_slice(),
        emission.points.as_slice(),
        order.as_slice(),
        needs.as_slice(),
    )?;
    if first_over(needs.as_slice(), plan.budget).is_some() {
        return Ok(None);
    }
    let configs = table(alloc, states, order.as_slice())?;
    let verified = certified(Code::new(plan, configs, labels, emission.code))?;
    Ok(Some(verified))
}

/// The code of a schedule with these states, whose plan begins with this configuration; None if it
/// costs more than the budget.
fn built(
    alloc: Global,
    schedule: &Schedule,
    delay: Delay,
    cells: &[Cell],
    mut states: States<'_>,
    start: &Config,
) -> Result<Option<Verified>, BuildFault> {
    if states.list.len() > MANY_STATES {
        return Err(BuildFault::Limit(ScheduleLimit::Instructions));
    }
    let decisions = Decisions::new(alloc, cells, &states, schedule.header().notice)?;
    let first = start_of(&mut states.list, start, schedule.line())?;
    code_of(
        alloc,
        schedule,
        delay,
        states.list.as_slice(),
        &decisions,
        first,
    )
}

/// A fault of these combinations, once they are known to be those of the schedule.
///
/// `Limit` where to find that out takes too long, `Uncertified` where it is not known.
fn confirmed(schedule: &Schedule, found: &Combinations, fault: ScheduleFault) -> ScheduleFault
    ensures { (start : Configuration)
        → IsRefusedAmong schedule.now (opening_of schedule.now) start found.now.sets.items fault
        → IsRefused schedule.now start result }
{
    let mut room = Room::new();
    if are_combinations(schedule, found.as_slice(), found.moments(), &mut room) {
        return fault;
    }
    if room.is_used_up() {
        ScheduleFault::Limit(ScheduleLimit::Regions)
    } else {
        ScheduleFault::Uncertified
    }
}

/// The states of these combinations, between which every change has room for its pages; the items
/// make the opening, and the plan begins with `start`.
///
/// # Errors
///
/// The first fault of a combination, the first change that has no room, `Limit`, or `Memory`.
fn states_of<'a>(
    alloc: Global,
    schedule: &Schedule,
    delay: Delay,
    found: &'a Combinations,
    items: &Config,
    start: &Config,
) -> Result<States<'a>, ScheduleFault>
    requires made { items.now ≡ opening_of schedule.now }
    requires noticed { schedule.now.header.notice ≤ delay }
    ensures { IfErr result
        (IsRefusedAmong schedule.now items.now start.now found.now.sets.items) }
{
    let states = match States::new(alloc, schedule, items, found) {
        Ok(states) => states,
        Err(fault) => return Err(fault),
    };
    if let Err(fault) = test_rounds(schedule, delay, items, start, states.list.as_slice()) {
        return Err(fault);
    }
    Ok(states)
}

/// Compiles a schedule of which this was found out, and whose plan begins with `start`; the items
/// make the opening.
fn compiled(
    alloc: Global,
    schedule: &Schedule,
    search: &Search,
    items: &Config,
    start: &Config,
) -> Result<Verified, ScheduleFault>
    requires { items.now ≡ opening_of schedule.now }
    ensures { IfErr result (IsRefused schedule.now start.now) }
{
    let delay = delay_of(&schedule.header())?;
    let found = &search.combinations;
    let states = match states_of(alloc, schedule, delay, found, items, start) {
        Ok(states) => states,
        Err(fault) => return Err(confirmed(schedule, found, fault)),
    };
    match built(
        alloc,
        schedule,
        delay,
        search.cells.as_slice(),
        states,
        start,
    )? {
        Some(code) => Ok(code),
        None => Err(ScheduleFault::Refused {
            line: schedule.line(),
            cause: Cause::Cost,
            overlays: 0,
        }),
    }
}

/// The code, once it is known to play as the schedule prescribes; it begins with this
/// configuration.
///
/// # Errors
///
/// `Limit` where to find that out takes too long, `Uncertified` where it is not known.
fn implementing(
    schedule: &Schedule,
    opening: &Config,
    code: Verified,
) -> Result<Verified, BuildFault>
    ensures { IfOk result (λ code. PlaysAsScheduled schedule.now opening.now code) }
{
    let mut room = Room::new();
    if implements(schedule, opening, &code, &mut room) {
        return Ok(code);
    }
    if room.is_used_up() {
        return Err(BuildFault::Limit(ScheduleLimit::Regions));
    }
    Err(BuildFault::Uncertified)
}

/// Compiles a schedule. The code plays as the schedule prescribes: from every start in range and
/// over every list of contact changes and frames, it comes to what the schedule's machine comes to,
/// which begins with the configuration of the items.
///
/// # Errors
///
/// `Refused`, with the line and the cause of what is to blame: an item; the first combination of
/// overlays that can hold with an edit that has a fault, or with a configuration that is unsound;
/// the pages of the items, or of a change, that have no room; or the cost of the code. `Limit`, or
/// `Memory`; `Uncertified`, which is a fault of this crate: no schedule is known for which it
/// comes.
pub fn compile_schedule(alloc: Global, schedule: &Schedule) -> Result<Verified, ScheduleFault>
    ensures plays { IfOk result (λ code.
        PlaysAsScheduled schedule.now (opening_of schedule.now) code) }
    ensures refused { IfErr result (IsRefused schedule.now (opening_of schedule.now)) }
{
    let found = searched(alloc, schedule.overlays(), schedule.header().notice)?;
    let items = items_of(schedule)?;
    let code = compiled(alloc, schedule, &found, &items, &items)?;
    Ok(implementing(schedule, &items, code)?)
}

/// Compiles a schedule whose plan begins with this configuration. The code plays as the schedule
/// prescribes from there on.
///
/// # Errors
///
/// As `compile_schedule`; `Refused` also where this configuration is unsound, or where it or a
/// change from it has no room for its pages.
pub fn compile_from(
    alloc: Global,
    schedule: &Schedule,
    start: &Config,
) -> Result<Verified, ScheduleFault>
    ensures plays { IfOk result (λ code. PlaysAsScheduled schedule.now start.now code) }
    ensures refused { IfErr result (IsRefused schedule.now start.now) }
{
    let found = searched(alloc, schedule.overlays(), schedule.header().notice)?;
    let items = items_of(schedule)?;
    let code = compiled(alloc, schedule, &found, &items, start)?;
    Ok(implementing(schedule, start, code)?)
}
