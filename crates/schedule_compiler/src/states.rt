//! The states of a schedule: the configurations that can be due.

ghost use Rattle.std.specs.Prelude.{◌≡◌, ◌⊎◌, ◌++◌, ◌∷◌, [], None, Some, IfErr, IfOk, OnOk, map};
ghost use Rattle.std.specs.List.{AllByRecursion};
ghost use Rattle.mux_config.specs.Edits.{changed, edit_fault};
ghost use Rattle.schedule_front.specs.Tree.{overlay_of};
ghost use Rattle.schedule_runs.specs.Due.{opening_of};
ghost use Rattle.schedule_compiler.specs.Refusals.{edited, overlaid, blame_of, Makes, IsBlamed};
ghost use Rattle.schedule_compiler.specs.Refusals.{IsAmong, IsBlamedAmong, IsStateOf};

use crate::combinations::Combinations;
use crate::fault::{BuildFault, ScheduleFault, ScheduleLimit};
use crate::lines::line_of;
use crate::terms::short;
use mux_config::{Config, Store, soundness};
use plan_verifier::Cause;
use plan_verifier::flow::is_same;
use schedule_front::{Overlay, OverlayEdit, Schedule};
use script_config::ItemFault;
use std::alloc::Global;

/// The most configurations that can be due.
const MOST_STATES: usize = 256;

/// A configuration that can be due.
#[derive(Drop)]
pub(crate) struct State {
    pub(crate) config: Config,
    /// The first combination of overlays that makes it, the first overlay the lowest bit.
    pub(crate) overlays: u64,
    /// The line of the last overlay of that combination, or of `schedule` for the items.
    pub(crate) line: u16,
}

/// The configurations that can be due, that of the items first, each once.
#[derive(Drop)]
pub(crate) struct States<'a> {
    pub(crate) list: Vec<State>,
    /// The combinations, and the state of each.
    combinations: &'a Combinations,
    states: Vec<u16>,
}

/// Applies an edit of an overlay.
fn apply(edit: &OverlayEdit, config: &mut Config) -> Result<(), ItemFault>
    ensures made { OnOk result (config.new ≡ changed edit.now.edit config.old) }
    ensures fine { OnOk result (edit_fault edit.now.edit config.old ≡ None) }
    ensures refused { IfErr result (λ e. (e.line ≡ edit.now.line)
        × (edit_fault edit.now.edit config.old ≡ Some e.fault)) }
{
    let line = edit.line;
    match edit.edit.apply(config) {
        Ok(()) => Ok(()),
        Err(fault) => Err(ItemFault { line, fault }),
    }
}

/// Applies the edits of an overlay, in the order of the text.
fn apply_all(edits: &[OverlayEdit], config: &mut Config) -> Result<(), ItemFault>
    ensures { Makes (edited edits.now config.old) config.new result }
{
    for edit in edits {
        if let Err(fault) = apply(edit, config) {
            return Err(fault);
        }
    }
    Ok(())
}

/// Applies the edits of the overlays of a set, in the order of the text.
fn overlay(overlays: &[Overlay], set: u64, config: &mut Config) -> Result<(), ItemFault>
    ensures { Makes (overlaid set (map overlay_of overlays.now) config.old) config.new result }
{
    let mut rest = set;
    for overlay in overlays {
        if rest % 2 == 1 {
            if let Err(fault) = apply_all(overlay.edits.as_slice(), config) {
                return Err(fault);
            }
        }
        rest /= 2;
    }
    Ok(())
}

/// The configuration of a combination of overlays, which is sound; the items make the opening.
///
/// # Errors
///
/// `Edit` at the line of the first edit with a fault; then `Config` at the line of the last overlay
/// that holds, or of `schedule`.
fn made_by(schedule: &Schedule, items: &Config, set: u64) -> Result<State, ScheduleFault>
    requires { items.now ≡ opening_of schedule.now }
    ensures fine { IfOk result (λ state. blame_of schedule.now set ≡ None) }
    ensures made { IfOk result (λ state. IsStateOf schedule.now state) }
    ensures of { IfOk result (λ state. state.overlays ≡ set) }
    ensures blamed { IfErr result (IsBlamed schedule.now set) }
{
    let mut config = Config::empty();
    config.copy_from(items);
    if let Err(ItemFault { line, fault }) = overlay(schedule.overlays(), set, &mut config) {
        return Err(ScheduleFault::Refused {
            line,
            cause: Cause::Edit(fault),
            overlays: set,
        });
    }
    let line = line_of(schedule, set);
    match soundness(&config) {
        Ok(()) => Ok(State {
            config,
            overlays: set,
            line,
        }),
        Err(fault) => Err(ScheduleFault::Refused {
            line,
            cause: Cause::Config(fault),
            overlays: set,
        }),
    }
}

/// The index of the state with this configuration; None if there is none.
pub(crate) fn find(states: &[State], config: &Config) -> Option<usize> {
    for (index, state) in states.iter().enumerate() {
        if is_same(&state.config, config) {
            return Some(index);
        }
    }
    None
}

impl<'a> States<'a> {
    /// The states of these combinations; the items make the opening.
    ///
    /// # Errors
    ///
    /// The first fault of a combination; then `Limit` where there are more than 256 states;
    /// `Memory`.
    pub(crate) fn new(
        alloc: Global,
        schedule: &Schedule,
        items: &Config,
        combinations: &'a Combinations,
    ) -> Result<States<'a>, ScheduleFault>
        requires { items.now ≡ opening_of schedule.now }
        ensures made { IfOk result (λ s. AllByRecursion
            (IsAmong schedule.now combinations.now.sets.items) s.list.items) }
        ensures blamed { IfErr result
            (IsBlamedAmong schedule.now combinations.now.sets.items) }
    {
        let mut list: Vec<State> = Vec::new(alloc);
        let mut states = Vec::new(alloc);
        for set in combinations.as_slice() {
            let state = match made_by(schedule, items, *set) {
                Ok(state) => state,
                Err(fault) => return Err(fault),
            };
            let index = place(&mut list, state)?;
            if states.push(short(index)).is_err() {
                return Err(ScheduleFault::Memory);
            }
        }
        if list.len() > MOST_STATES {
            return Err(ScheduleFault::Limit(ScheduleLimit::Configurations));
        }
        Ok(States {
            list,
            combinations,
            states,
        })
    }

    /// The index of the state of a combination; None for one that never holds.
    pub(crate) fn of(&self, set: u64) -> Option<u16> {
        let index = self.combinations.index_of(set)?;
        self.states.get(index).copied()
    }
}

/// The index of a state's configuration, which is added if absent, unless there are more than 256
/// already.
fn place(list: &mut Vec<State>, state: State) -> Result<usize, BuildFault>
    ensures { (list.new.items ≡ list.old.items) ⊎ (list.new.items ≡ list.old.items ++ state ∷ []) }
{
    if let Some(index) = find(list.as_slice(), &state.config) {
        return Ok(index);
    }
    let index = list.len();
    if index > MOST_STATES {
        return Ok(MOST_STATES);
    }
    match list.push(state) {
        Ok(()) => Ok(index),
        Err(_full) => Err(BuildFault::Memory),
    }
}
