//! `until` for a time that is past: the way there from the last time of day takes longer than it is
//! to its time.

ghost use Rattle.std.specs.Prelude.{◌≡◌};
ghost use Rattle.plan_explain.specs.DayWaits.{more, swapped, moment_in, time_of, new_way, further};
ghost use Rattle.plan_explain.specs.DayWaits.{comes_late};

use crate::straight::Way;
use plan_code::DayFrame;
use plan_code::limits::FRAMES_A_DAY;
use script_front::{Act, Alternative, Moment};

/// An `until` that waits for its time of the next day, since the way to it takes longer than it is
/// from the last wait for a time of day to its time.
#[derive(Clone, Copy, PartialEq, Eq)]
pub struct DayWait {
    /// The line of `until`.
    pub line: u16,
    /// What it waits for.
    pub until: Moment,
    /// The way there.
    pub way: Way,
}

/// A number of frames and more of them, a day at most.
pub(crate) fn more(frames: u32, others: u32) -> u32
    ensures { result ≡ more frames others }
{
    let sum = u64::from(frames) + u64::from(others);
    if sum < u64::from(FRAMES_A_DAY) {
        return frames + others;
    }
    FRAMES_A_DAY
}

/// The number of frames after a swap has come that does not come before this.
pub(crate) fn swapped(frames: u32, swap: Option<u32>) -> u32
    ensures { result ≡ swapped frames swap }
{
    match swap {
        None => frames,
        Some(swap) => { if frames < swap { swap } else { frames } }
    }
}

/// The frame of the day among some alternatives.
fn moment_in(alternatives: &[Alternative]) -> Option<DayFrame>
    ensures { result ≡ moment_in alternatives.now }
{
    for alternative in alternatives {
        if let Alternative::Until(moment) = *alternative {
            return Some(moment.frame());
        }
    }
    None
}

/// The frame of the day for which an act waits, alone or beside others.
pub(crate) fn time_of(act: &Act) -> Option<DayFrame>
    ensures { result ≡ time_of act.now }
{
    match act {
        Act::Until(moment) => Some(moment.frame()),
        Act::WaitAny(alternatives) => moment_in(alternatives.as_slice()),
        _ => None,
    }
}

/// The way where it begins.
pub(crate) fn new_way(from: DayFrame) -> Way
    ensures { result ≡ new_way from }
{
    Way {
        from,
        frames: 0,
        swap: None,
    }
}

/// The way behind one more act.
pub(crate) fn further(way: Way, act: &Act) -> Way
    ensures { result ≡ further way act.now }
{
    let frames = way.frames;
    match act {
        Act::Wait(wait) => Way {
            frames: more(frames, u32::from(wait.get())),
            ..way
        },
        Act::WaitContact { .. } | Act::WaitAny(_) | Act::Until(_) => Way {
            frames: more(frames, 1),
            ..way
        },
        Act::CommitIn(delay) => Way {
            swap: Some(more(frames, u32::from(delay.get()))),
            ..way
        },
        Act::CommitAt(_) => Way { swap: None, ..way },
        Act::Join => Way {
            frames: swapped(frames, way.swap),
            ..way
        },
        Act::Settle | Act::Edit(_) => way,
    }
}

/// Whether an `until` waits for its time of the next day where it comes on this way.
pub(crate) fn comes_late(way: &Way, until: &Moment) -> bool
    ensures { result ≡ comes_late way.now until.now }
{
    let left = (until.frame().get() + (FRAMES_A_DAY - way.from.get())) % FRAMES_A_DAY;
    left <= way.frames
}
