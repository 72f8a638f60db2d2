//! The day: windows, and the frames of the day at which they begin and end.

use plan_code::DayFrame;
use plan_code::limits::FRAMES_A_DAY;
use schedule_front::{Overlay, Test};
use std::alloc::{AllocError, Global};

/// The number of frames from one frame of the day to the next that is the other one; 0 where they
/// are the same.
fn frames_between(from: DayFrame, to: DayFrame) -> u32 {
    (to.get() + FRAMES_A_DAY - from.get()) % FRAMES_A_DAY
}

/// Whether a frame of the day is in the window that begins with `from`, runs over midnight where
/// `to` is before it, and ends before `to`.
pub(crate) fn is_within(from: DayFrame, to: DayFrame, at: DayFrame) -> bool {
    frames_between(from, at) < frames_between(from, to)
}

/// The frame of the day so many frames before this one, perhaps of the day before.
pub(crate) fn earlier(at: DayFrame, frames: u8) -> DayFrame {
    match DayFrame::new((at.get() + FRAMES_A_DAY - u32::from(frames)) % FRAMES_A_DAY) {
        Some(frame) => frame,
        None => unreachable!(),
    }
}

/// Appends the beginning and the end of each window of these tests that is not empty.
fn add_ends(ends: &mut Vec<DayFrame>, tests: &[Test]) -> Result<(), AllocError> {
    for test in tests {
        if let Test::Time { from, to } = *test {
            if from != to {
                ends.push(from.frame())?;
                ends.push(to.frame())?;
            }
        }
    }
    Ok(())
}

/// Appends the beginnings and ends of the windows of an overlay.
fn add_overlay(ends: &mut Vec<DayFrame>, overlay: &Overlay) -> Result<(), AllocError> {
    for tests in &overlay.condition {
        add_ends(ends, tests.as_slice())?;
    }
    Ok(())
}

/// The frames of the day at which a window of these overlays begins or ends, ascending, each once;
/// midnight where there is no window. What holds between two of them, by the clock, does not
/// change.
pub(crate) fn window_ends(
    alloc: Global,
    overlays: &[Overlay],
) -> Result<Vec<DayFrame>, AllocError> {
    let mut ends = Vec::new(alloc);
    for overlay in overlays {
        add_overlay(&mut ends, overlay)?;
    }
    ends.sort_unstable();
    each_once(alloc, &ends)
}

/// Frames of the day in ascending order, each once; midnight where there is none.
fn each_once(alloc: Global, frames: &[DayFrame]) -> Result<Vec<DayFrame>, AllocError> {
    let mut found: Vec<DayFrame> = Vec::new(alloc);
    for frame in frames {
        if found.last() != Some(frame) {
            found.push(*frame)?;
        }
    }
    if found.is_empty() {
        if let Some(midnight) = DayFrame::new(0) {
            found.push(midnight)?;
        }
    }
    Ok(found)
}
