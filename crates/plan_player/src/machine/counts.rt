//! The last step of a frame: advancing the counts.

ghost use Rattle.std.specs.Prelude.{◌≡◌, ◌≤◌, ◌<◌, ◌+◌, ◌%◌};
ghost use Rattle.fib_carousel.specs.Pages.{page_after};
ghost use Rattle.plan_code.specs.declared.plan.Plan.{Plan};
ghost use Rattle.plan_runs.specs.Frames.{left_after_frame, hold_after_frame, with_next_counts};
ghost use Rattle.plan_player.specs.Positions.{state_of};
ghost use Rattle.plan_player.specs.Quiet.{counted_on};
ghost use Rattle.plan_player.specs.Stretch.{left_later, hold_later, HasRounds};

use super::Machine;
use mux_config::Store;
use plan_code::Hold;
use plan_code::limits::{COUNTS, FRAMES_A_DAY};

/// The number of frames until the swap, this many frames later.
fn left_later(left: Option<u16>, frames: u16) -> Option<u16>
    ensures { result ≡ left_later frames left }
{
    match left {
        None => None,
        Some(left) => Some(left.saturating_sub(frames)),
    }
}

/// The wait condition, this many frames later.
fn hold_later(hold: Hold, frames: u16) -> Hold
    ensures { result ≡ hold_later frames hold }
{
    match hold {
        Hold::Waits(left) => Hold::Waits(left.saturating_sub(frames)),
        Hold::WaitsAny {
            closed,
            opened,
            until,
            left,
        } => Hold::WaitsAny {
            closed,
            opened,
            until,
            left: left_later(left, frames),
        },
        Hold::Running | Hold::WaitsDay(_) | Hold::WaitsContact { .. } => hold,
        Hold::WaitsSwap | Hold::Ended => hold,
    }
}

/// The number of frames until the swap, one frame later.
fn left_after_frame(left: Option<u16>) -> Option<u16>
    ensures { result ≡ left_after_frame left }
{
    left_later(left, 1)
}

/// The wait condition, one frame later.
fn hold_after_frame(hold: Hold) -> Hold
    ensures { result ≡ hold_after_frame hold }
{
    hold_later(hold, 1)
}

/// The CIF count after this one: 0 again after 4999 (EN 300 401 clause 5.1).
pub(crate) fn count_after(count: u16) -> u16
    ensures { result ≡ (count + 1) % COUNTS }
{
    if count < COUNTS - 1 {
        return count + 1;
    }
    ((u32::from(count) + 1) % u32::from(COUNTS)) as u16
}

/// The CIF count this many frames after this one.
pub(crate) fn count_later(count: u16, frames: u16) -> u16
    requires count { count < COUNTS }
    requires frames { frames ≤ COUNTS }
    ensures { result ≡ (count + frames) % COUNTS }
{
    let later = count + frames;
    if later < COUNTS {
        later
    } else {
        later - COUNTS
    }
}

/// The frame of the day after this one: 0 again after 3,599,999.
fn day_after(day: u32) -> u32
    ensures { result ≡ (day + 1) % FRAMES_A_DAY }
{
    if day < FRAMES_A_DAY - 1 {
        return day + 1;
    }
    ((u64::from(day) + 1) % u64::from(FRAMES_A_DAY)) as u32
}

/// The page index after this one, with this many pages, at most 256; it wraps to 0 after the last.
pub(crate) fn page_after(pages: usize, page: u8) -> u8
    requires { pages ≤ 256 }
    ensures { result ≡ page_after pages page }
{
    if usize::from(page) + 1 < pages {
        page + 1
    } else {
        0
    }
}

/// Ends a frame: advances the CIF count and the frame of the day, counts down a pending swap and a
/// wait, and sets the page in turn.
pub(crate) fn pass<S: Store>(page_index: u8, machine: &mut Machine<S>)
    ensures { (plan : Plan) → state_of S.content machine.new
        ≡ record (with_next_counts plan (state_of S.content machine.old)) {
          page_index = page_index;
        } }
{
    machine.left = left_after_frame(machine.left);
    machine.hold = hold_after_frame(machine.hold);
    machine.count = count_after(machine.count);
    machine.day = day_after(machine.day);
    machine.page_index = page_index;
}

/// The page in turn this many frames after `page`, with this many pages.
fn page_later(pages: u8, page: u8, frames: u16) -> u8
    requires { page < pages }
    ensures { result ≡ (page + frames) % pages }
{
    ((u32::from(page) + u32::from(frames)) % u32::from(pages)) as u8
}

/// Ends this many frames at once, at least one, in each of which what is sent takes this many
/// pages.
pub(crate) fn pass_many<S: Store>(pages: u8, frames: u16, machine: &mut Machine<S>)
    requires some { 1 ≤ frames }
    requires within { machine.old.page_index < pages }
    ensures { (plan : Plan) → HasRounds plan frames (state_of S.content machine.old) pages
        → state_of S.content machine.new ≡
        counted_on plan frames (state_of S.content machine.old) }
{
    let count = u32::from(machine.count) + u32::from(frames);
    let day = u64::from(machine.day) + u64::from(frames);
    machine.left = left_later(machine.left, frames);
    machine.hold = hold_later(machine.hold, frames);
    machine.count = (count % u32::from(COUNTS)) as u16;
    machine.day = (day % u64::from(FRAMES_A_DAY)) as u32;
    machine.page_index = page_later(pages, machine.page_index, frames);
}
