//! Drives a player line by line.

ghost use Rattle.std.specs.Prelude.{◌≡◌, ◌≤◌, length, true, OnOk};
ghost use Rattle.plan_live.specs.Going.{LineWent};
ghost use Rattle.plan_live.specs.Living.{streams_at, Whole, IsPrompt};

use crate::ends::Ends;
use crate::fault::Stop;
use crate::frames::play_line;
use crate::line::{Unread, steps_of_line};
use crate::message::{LineFault, Message};
use crate::options::LiveOptions;
use arrayvec::ArrayVec;
use console::lines::Heard;
use mux_config::Store;
use plan_player::Player;
use std::alloc::Global;

/// Plays the steps of the line of this number, or reports that it lists none.
fn take_line<'a, S: Store, E: Ends>(
    alloc: Global,
    player: &mut Player<'a, S>,
    made: &mut u64,
    line: &[u8],
    number: u64,
    options: LiveOptions,
    ends: &mut E,
) -> Result<(), Stop>
    requires short { length line.now ≤ 65536 }
    requires flushed { E.is_flushed ends.old ≡ true }
    ensures went { let at = streams_at E.left E.written in OnOk result
        (LineWent options.skip player.old made.old line.now player.new made.new
        (at ends.old) (at ends.new)) }
    ensures moments { E.moments ends.new ≡ E.moments ends.old }
    ensures flushed { OnOk result (E.is_flushed ends.new ≡ true) }
{
    match steps_of_line(alloc, line) {
        Ok(steps) => play_line(player, made, steps.as_slice(), options, ends),
        Err(unread) => match unread {
            Unread::Bad(fault) => {
                ends.report(Message::Bad(number, fault));
                Ok(())
            }
            Unread::Memory => Err(Stop::Memory),
        },
    }
}

/// Drives a player with the lines of an input to its end. The steps that a line lists are played
/// before the next line is read: the bytes of their frames are written, except the first `skip`
/// frames of the run, and flushed. A line that lists no steps does nothing and is reported. No more
/// memory is allocated than the steps of one line need. Messages are delivered after the frames of
/// their line; if they are too many to be held, the earlier ones after the frames up to there,
/// which are flushed first. Those held when the run ends are left to the caller to release.
///
/// # Errors
///
/// `Write` if the output failed, with all that it took; `Memory` if out of memory for a line's
/// steps; `Read` if the input failed; `TooMany` after 2^64 - 1 frames or lines. No line is read
/// after it.
pub fn drive<'a, S: Store, E: Ends>(
    alloc: Global,
    player: &mut Player<'a, S>,
    options: LiveOptions,
    ends: &mut E,
) -> Result<(), Stop>
    requires flushed { E.is_flushed ends.old ≡ true }
    ensures whole { let at = streams_at E.left E.written in OnOk result
        (Whole options.skip player.old (at ends.old) (at ends.new)) }
    // Each time a line is requested, all lines before it have been processed.
    ensures prompt { let at = streams_at E.left E.written in
        IsPrompt options.skip player.old (at ends.old) (E.moments ends.old) (E.moments ends.new) }
{
    let mut line = ArrayVec::new();
    let mut made = 0u64;
    for number in 0..u64::MAX {
        match ends.next(&mut line) {
            Heard::End => return Ok(()),
            Heard::Failed => return Err(Stop::Read),
            Heard::Long => ends.report(Message::Bad(number + 1, LineFault::Limit)),
            Heard::Line => {
                let line = line.as_slice();
                take_line(alloc, player, &mut made, line, number + 1, options, ends)?;
            }
        }
    }
    Err(Stop::TooMany)
}
