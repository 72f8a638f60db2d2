//! The notes of a frame: a swap, the start of a notice, the end, and how far the run is.

use crate::message::Message;
use crate::options::Wanted;
use mux_config::{Store, change};
use plan_code::Hold;
use plan_code::limits::COUNTS;
use plan_player::Player;

/// The notes of a frame, in order.
pub(crate) type Notes = [Option<Message>; 4];

/// The part of the state before a frame on which its notes depend.
#[derive(Clone, Copy)]
pub(crate) struct Look {
    count: u16,
    is_due: bool,
    has_ended: bool,
}

/// The part of the state before the next frame on which its notes depend.
pub(crate) fn look_at<S: Store>(player: &Player<'_, S>) -> Look {
    Look {
        count: player.count(),
        is_due: player.remaining() == Some(0),
        has_ended: has_ended(player.hold()),
    }
}

/// Whether a machine in this wait state has ended.
fn has_ended(hold: Hold) -> bool {
    match hold {
        Hold::Ended => true,
        Hold::Running
        | Hold::Waits(_)
        | Hold::WaitsDay(_)
        | Hold::WaitsContact { .. }
        | Hold::WaitsAny { .. }
        | Hold::WaitsSwap => false,
    }
}

/// The wanted notes of the last frame of a player, which had this number in the run; `before` is
/// the state before it.
pub(crate) fn notes_of<S: Store>(
    player: &Player<'_, S>,
    before: Look,
    frame: u64,
    wanted: Wanted,
) -> Notes {
    let passed = note_of_passing(before.count, frame, wanted.every);
    if !wanted.status {
        return [None, None, None, passed];
    }
    let count = before.count;
    let swap = if before.is_due {
        Some(Message::Swap { frame, count })
    } else {
        None
    };
    let end = if !before.has_ended && has_ended(player.hold()) {
        Some(Message::End { frame, count })
    } else {
        None
    };
    [swap, note_of_notice(player, count, frame), end, passed]
}

/// That a notice begins with the last frame of a player, which had this count; if it does.
fn note_of_notice<S: Store>(player: &Player<'_, S>, count: u16, frame: u64) -> Option<Message> {
    let notice = player.plan().notice;
    let left = player.remaining()?;
    if u32::from(left) + 1 != u32::from(notice) {
        return None;
    }
    Some(Message::Notice {
        frame,
        count,
        change: change(player.current(), player.next()).bits(),
        low: ((u32::from(count) + u32::from(notice)) % u32::from(COUNTS) % 250) as u8,
        left: notice,
    })
}

/// That the frame of this number was made, if it is the last of as many as are asked for.
fn note_of_passing(count: u16, frame: u64, every: u32) -> Option<Message> {
    if every == 0 {
        return None;
    }
    if frame % u64::from(every) == u64::from(every) - 1 {
        return Some(Message::Passed { frame, count });
    }
    None
}

/// The number of frames before the next one that is reported because it is one of so many, from the
/// frame of this number on.
pub(crate) fn silent_frames(number: u64, every: u32) -> u64 {
    let every = u64::from(every);
    if every == 0 {
        return u64::MAX;
    }
    every - 1 - number % every
}
