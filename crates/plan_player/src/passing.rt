//! Playing quiet frames without making their bytes.

ghost use Rattle.std.specs.Prelude.{◌≡◌, ◌≤◌, replicate};
ghost use Rattle.plan_runs.specs.declared.event.Event.TheVariants.{Frame};
ghost use Rattle.plan_player.specs.Playing.{played};
ghost use Rattle.plan_player.specs.Quiet.{AreQuiet};

use crate::player::Player;
use mux_config::Store;

/// Plays quiet frames from the next one on, at most `most`, without making their bytes, and returns
/// their number: 0 if the next frame isn't quiet. The player is then where it would be had it made
/// them. A swap, an instruction or the start of a notice is in none of them.
///
/// Once all pages of a phase have been made, the time that this takes does not depend on the number
/// of frames, up to 65,535 of them.
pub fn pass_frames<'a, S: Store>(player: &mut Player<'a, S>, most: u32) -> u32
    ensures state { player.new ≡ played player.old (replicate result Frame) }
    ensures quiet { AreQuiet player.old.code result player.old.state }
    ensures bound { result ≤ most }
{
    let quiet = player.quiet_frames(most);
    let plan = player.plan();
    let mut done = 0u32;
    while done < quiet {
        done += player.pass_quiet(&plan, quiet - done);
    }
    quiet
}
