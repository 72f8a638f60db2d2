//! Counting quiet frames, which make no swap, execute no instruction and begin no phase.

ghost use Rattle.std.specs.Prelude.{◌≡◌, ◌≤◌, ◌<◌, ◌+◌, IfSome};
ghost use Rattle.plan_player.specs.Positions.{state_of};
ghost use Rattle.plan_player.specs.Quiet.{AreQuiet, SwapIsAway, DayIsAway, AreAway, HoldIsAway};

use super::Machine;
use mux_config::Store;
use plan_code::limits::FRAMES_A_DAY;
use plan_code::{Code, Contacts, DayFrame, Hold};

/// The number of frames before the swap and before the first frame of its notice.
fn before_swap(notice: u8, left: Option<u16>) -> u32
    ensures { SwapIsAway notice left result }
{
    let notice = u16::from(notice);
    match left {
        None => u32::MAX,
        Some(left) => {
            if notice <= left {
                u32::from(left - notice)
            } else {
                u32::from(left)
            }
        }
    }
}

/// The number of frames before this frame of the day and before the end of the day.
fn before_day(day: u32, frame: u32) -> u32
    requires { frame < FRAMES_A_DAY }
    ensures within { 1 ≤ result → day + result ≤ FRAMES_A_DAY }
    ensures before { day ≤ frame → day + result ≤ frame }
{
    if day <= frame {
        frame - day
    } else {
        FRAMES_A_DAY.saturating_sub(day)
    }
}

/// The number of frames before this frame of the day, if there is one, and before the end of the
/// day.
fn before_until(day: u32, until: Option<DayFrame>) -> u32
    ensures { IfSome until (DayIsAway day result) }
{
    match until {
        None => u32::MAX,
        Some(frame) => before_day(day, frame.get()),
    }
}

/// The number of frames that are left of a wait, if it has a number of them.
fn before_end(left: Option<u16>) -> u32
    ensures { IfSome left (λ k. result ≤ k) }
{
    match left {
        None => u32::MAX,
        Some(left) => u32::from(left),
    }
}

/// The number of frames before one of the alternatives of a wait is met.
#[tactic(auto, using(crate::proofs::Quiet::fewer_until, crate::proofs::Quiet::fewer_left))]
fn before_any<S: Store>(
    machine: &Machine<S>,
    closed: Contacts,
    opened: Contacts,
    until: Option<DayFrame>,
    left: Option<u16>,
) -> u32
    ensures { AreAway (state_of S.content machine.now) closed opened until left result }
{
    if machine.contacts.any_closed(closed) {
        return 0;
    }
    if machine.contacts.any_open(opened) {
        return 0;
    }
    let day = before_until(machine.day, until);
    let frames = before_end(left);
    day.min(frames)
}

/// The number of frames before the machine can resume.
fn before_resuming<S: Store>(machine: &Machine<S>) -> u32
    ensures { HoldIsAway (state_of S.content machine.now) machine.now.hold result }
{
    match machine.hold {
        Hold::Running => 0,
        Hold::Waits(frames) => u32::from(frames),
        Hold::WaitsDay(frame) => before_day(machine.day, frame.get()),
        Hold::WaitsContact { contact, closed } => {
            if machine.contacts.is_closed(contact) == closed {
                0
            } else {
                u32::MAX
            }
        }
        Hold::WaitsAny {
            closed,
            opened,
            until,
            left,
        } => before_any(machine, closed, opened, until, left),
        Hold::WaitsSwap => u32::MAX,
        Hold::Ended => u32::MAX,
    }
}

/// A number of frames, at most `most`, that are quiet from this one on. It may be smaller than
/// possible, since frames are not tested one by one.
pub(crate) fn quiet_frames<S: Store>(code: &Code, machine: &Machine<S>, most: u32) -> u32
    ensures quiet { AreQuiet code.now result (state_of S.content machine.now) }
    ensures bound { result ≤ most }
{
    let plan = code.plan();
    let swap = before_swap(plan.notice, machine.left);
    let hold = before_resuming(machine);
    let nearer = swap.min(hold);
    nearer.min(most)
}
