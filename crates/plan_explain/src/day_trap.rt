//! Waits for a time of day that can be past: the way there from a test of the time may take longer
//! than it is to that time.

ghost use Rattle.std.specs.Prelude.{◌≡◌, ◌<◌, ◌+◌, ◌%◌, ◌++◌, OnOk, drop};
ghost use Rattle.plan_code.specs.declared.limits.TheConstants.{FRAMES_A_DAY};
ghost use Rattle.plan_explain.specs.DayWaits.{new_way};
ghost use Rattle.plan_explain.specs.DayTraps.{wait_of, first_late, time_at, leads_on, farther};
ghost use Rattle.plan_explain.specs.DayTraps.{trap_of, trap_ahead, at_window, at_test};
ghost use Rattle.plan_explain.specs.DayTraps.{traps};

use crate::day_wait::{more, new_way, swapped};
use crate::list::push;
use crate::straight::Way;
use crate::warning::Warning;
use plan_code::limits::FRAMES_A_DAY;
use plan_code::{DayFrame, Instr, Line};
use std::alloc::AllocError;

/// A test of the time of day that is passed in a window of the day.
#[derive(Clone, Copy, PartialEq, Eq)]
pub struct Passage {
    /// The line of the test.
    pub line: u16,
    /// The first frame of the window.
    pub from: DayFrame,
    /// The frame in which the window ends; over midnight where it is before the first.
    pub to: DayFrame,
}

/// A wait for a time of day that is the one of the next day, where a test before it is passed late
/// in its window.
#[derive(Clone, Copy, PartialEq, Eq)]
pub struct DayTrap {
    /// The line of the wait.
    pub line: u16,
    /// The frame of the day for which it waits, alone or beside others.
    pub until: DayFrame,
    /// The test, and its window.
    pub passage: Passage,
    /// The first frame of the window in which it is passed too late.
    pub first: DayFrame,
    /// The way from the test to the wait, from the beginning of the window.
    pub way: Way,
}

/// How many frames a wait takes that begins in this frame of the day, for another one: a day for
/// the same.
fn wait_of(from: DayFrame, until: DayFrame) -> u32
    ensures { result ≡ wait_of from until }
{
    let left = (until.get() + (FRAMES_A_DAY - from.get())) % FRAMES_A_DAY;
    if left == 0 { FRAMES_A_DAY } else { left }
}

/// How many frames behind the beginning of a window a way is begun too late that takes this many.
fn first_late(from: DayFrame, frames: u32, until: DayFrame) -> u32
    ensures { result ≡ first_late from frames until }
{
    wait_of(from, until).saturating_sub(frames)
}

/// The frame of the day for which an instruction waits, alone or beside others.
fn time_at(instr: &Instr) -> Option<DayFrame>
    ensures { result ≡ time_at instr.now }
{
    match instr {
        Instr::Until(frame) => Some(*frame),
        Instr::WaitAny { until, .. } => *until,
        _ => None,
    }
}

/// Whether the next instruction can follow this one, without a test of the time of day and without
/// a wait for it.
fn leads_on(instr: &Instr) -> bool
    ensures { result ≡ leads_on instr.now }
{
    match instr {
        Instr::Wait(_) | Instr::WaitContact { .. } => true,
        Instr::WaitAny { until, .. } => match until {
            None => true,
            Some(_) => false,
        },
        Instr::CommitIn(_) | Instr::CommitAt(_) | Instr::Join | Instr::Settle => true,
        Instr::Edit(_) | Instr::Set { .. } | Instr::Test { .. } => true,
        Instr::Until(_) | Instr::TestTime { .. } => false,
        Instr::Jump(_) | Instr::Loop { .. } | Instr::End => false,
    }
}

/// The way behind one more instruction that leads on.
fn farther(way: Way, instr: &Instr) -> Way
    ensures { result ≡ farther way instr.now }
{
    let frames = way.frames;
    match instr {
        Instr::Wait(wait) => Way {
            frames: more(frames, u32::from(wait.get())),
            ..way
        },
        Instr::WaitContact { .. } | Instr::WaitAny { .. } => Way {
            frames: more(frames, 1),
            ..way
        },
        Instr::CommitIn(delay) => Way {
            swap: Some(more(frames, u32::from(delay.get()))),
            ..way
        },
        Instr::CommitAt(_) => Way { swap: None, ..way },
        Instr::Join | Instr::Settle => Way {
            frames: swapped(frames, way.swap),
            ..way
        },
        _ => way,
    }
}

/// The frame of the day that is this many frames after another one, less than a day.
fn frame_after(from: DayFrame, frames: u32) -> DayFrame
    requires { frames < FRAMES_A_DAY }
    ensures { result ≡ (from + frames) % FRAMES_A_DAY }
{
    match DayFrame::new((from.get() + frames) % FRAMES_A_DAY) {
        Some(frame) => frame,
        None => unreachable!(),
    }
}

/// What is to be said of a wait in a line for a frame of the day, on this way from this test, if it
/// is one.
fn trap_of(passage: Passage, way: Way, line: u16, until: Option<DayFrame>) -> Option<DayTrap>
    ensures { result ≡ trap_of passage way line until }
{
    let Some(until) = until else {
        return None;
    };
    let late = first_late(passage.from, way.frames, until);
    let window = (passage.to.get() + (FRAMES_A_DAY - passage.from.get())) % FRAMES_A_DAY;
    if late < window {
        return Some(DayTrap {
            line,
            until,
            passage,
            first: frame_after(passage.from, late),
            way,
        });
    }
    None
}

/// What is to be said of the first wait for a time of day to which these instructions lead from
/// this test.
fn trap_ahead(passage: Passage, lines: &[Line]) -> Option<DayTrap>
    ensures { result ≡ trap_ahead passage (new_way passage.from) lines.now }
{
    let mut way = new_way(passage.from);
    for line in lines {
        if !leads_on(&line.instr) {
            return trap_of(passage, way, line.number, time_at(&line.instr));
        }
        way = farther(way, &line.instr);
    }
    None
}

/// Appends what is to be said of the way through these instructions from a test in this window.
fn push_window(found: &mut Vec<Warning>, passage: Passage, lines: &[Line]) -> Result<(), AllocError>
    ensures { OnOk result (found.new.items ≡ found.old.items ++ at_window passage lines.now) }
{
    match trap_ahead(passage, lines) {
        None => Ok(()),
        Some(trap) => push(found, Warning::Trapped(trap)),
    }
}

/// The instructions of a code from a target on.
fn from_target(lines: &[Line], target: u16) -> &[Line]
    ensures { result.now ≡ drop target lines.now }
{
    match lines.get(usize::from(target)..) {
        Some(rest) => rest,
        None => &[],
    }
}

/// Appends what is to be said of both ways from an instruction of a code, if it tests the time of
/// day: the one within its window goes on behind it, the other one at its target.
fn push_test(
    found: &mut Vec<Warning>,
    lines: &[Line],
    line: &Line,
    behind: &[Line],
) -> Result<(), AllocError>
    ensures { OnOk result (found.new.items ≡ found.old.items
        ++ at_test lines.now line.now behind.now) }
{
    let Instr::TestTime { from, to, target } = line.instr else {
        return Ok(());
    };
    let number = line.number;
    let inside = Passage {
        line: number,
        from,
        to,
    };
    push_window(found, inside, behind)?;
    let outside = Passage {
        line: number,
        from: to,
        to: from,
    };
    push_window(found, outside, from_target(lines, target))
}

/// Appends what is to be said of the waits of a code for times of day, behind its tests of the time
/// of day.
pub(crate) fn push_traps(found: &mut Vec<Warning>, lines: &[Line]) -> Result<(), AllocError>
    ensures { OnOk result (found.new.items ≡ found.old.items ++ traps lines.now) }
{
    let mut rest = lines;
    while let Some((line, behind)) = rest.split_first() {
        push_test(found, lines, line, behind)?;
        rest = behind;
    }
    Ok(())
}
