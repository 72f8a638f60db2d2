//! The first step of a frame: a due swap, and the end of a wait.

ghost use Rattle.std.specs.Prelude.{◌≡◌};
ghost use Rattle.plan_runs.specs.Frames.{is_due, is_day, is_any_here, is_here, hold_after_swap};
ghost use Rattle.plan_runs.specs.Frames.{with_swap, with_hold_ended, ready};
ghost use Rattle.plan_player.specs.Positions.{state_of};

use super::Machine;
use mux_config::Store;
use plan_code::{Contacts, DayFrame, Hold};

/// Whether a swap is due: one is pending, and no frame is left until it.
pub(crate) fn is_due(left: Option<u16>) -> bool
    ensures { result ≡ is_due left }
{
    match left {
        None => false,
        Some(left) => left == 0,
    }
}

/// The wait condition after a swap: a wait for the swap ends.
fn hold_after_swap(hold: Hold) -> Hold
    ensures { result ≡ hold_after_swap hold }
{
    match hold {
        Hold::WaitsSwap => Hold::Running,
        Hold::Running | Hold::Waits(_) | Hold::WaitsDay(_) => hold,
        Hold::WaitsContact { .. } | Hold::WaitsAny { .. } | Hold::Ended => hold,
    }
}

/// Makes the swap: the next configuration becomes the current one, a wait for the swap ends, and
/// page 0 is in turn.
fn swap<S: Store>(machine: &mut Machine<S>)
    ensures { state_of S.content machine.new ≡ with_swap (state_of S.content machine.old) }
{
    machine.current.copy_from(&machine.next);
    machine.left = None;
    machine.hold = hold_after_swap(machine.hold);
    machine.page_index = 0;
}

/// Whether it is this frame of the day, if there is one.
fn is_day(day: u32, until: Option<DayFrame>) -> bool
    ensures { result ≡ is_day day until }
{
    match until {
        None => false,
        Some(frame) => day == frame.get(),
    }
}

/// Whether one of the alternatives of a wait is met.
fn is_any_here<S: Store>(
    machine: &Machine<S>,
    closed: Contacts,
    opened: Contacts,
    until: Option<DayFrame>,
    left: Option<u16>,
) -> bool
    ensures { result ≡ is_any_here (state_of S.content machine.now) closed opened until left }
{
    let contacts = machine.contacts;
    contacts.any_closed(closed)
        || contacts.any_open(opened)
        || is_day(machine.day, until)
        || is_due(left)
}

/// Whether the wait condition is met.
fn is_here<S: Store>(machine: &Machine<S>) -> bool
    ensures { result ≡ is_here (state_of S.content machine.now) machine.now.hold }
{
    match machine.hold {
        Hold::Running => true,
        Hold::Waits(frames) => frames == 0,
        Hold::WaitsDay(frame) => machine.day == frame.get(),
        Hold::WaitsContact { contact, closed } => machine.contacts.is_closed(contact) == closed,
        Hold::WaitsAny {
            closed,
            opened,
            until,
            left,
        } => is_any_here(machine, closed, opened, until, left),
        Hold::WaitsSwap => false,
        Hold::Ended => false,
    }
}

/// Resumes the machine if its wait condition is met.
fn end_hold<S: Store>(machine: &mut Machine<S>)
    ensures { state_of S.content machine.new ≡ with_hold_ended (state_of S.content machine.old) }
{
    if is_here(machine) {
        machine.hold = Hold::Running;
    }
}

/// Begins a frame: makes a due swap, and then resumes the machine if its wait condition is met.
/// Returns whether a swap was made.
pub(crate) fn begin<S: Store>(machine: &mut Machine<S>) -> bool
    ensures state { state_of S.content machine.new ≡ ready (state_of S.content machine.old) }
    ensures swapped { result ≡ is_due machine.old.left }
{
    let due = is_due(machine.left);
    if due {
        swap(machine);
    }
    end_hold(machine);
    due
}
