//! Playing a number of frames into a sink, with no event between them.

ghost use Rattle.std.specs.Prelude.{◌≡◌, ◌≤◌, false, true, length, replicate, IfOk, OnOk, IfErr};
ghost use Rattle.std.specs.Prelude.{OnErr};
ghost use Rattle.std.specs.Io.KnownBytes.{Appends};
ghost use Rattle.plan_runs.specs.declared.event.Event.TheVariants.{Frame};
ghost use Rattle.plan_runs.specs.Headline.{MeetsGuarantees};
ghost use Rattle.plan_player.specs.Playing.{played};
ghost use Rattle.plan_player.specs.Delivery.{frames_of, played_bytes, Delivered, Stopped};
ghost use Rattle.plan_player.specs.Delivery.{StoppedBy};
ghost use Rattle.plan_player.specs.Quiet.{AreQuiet};

use crate::fault::{Accepted, PlayFault};
use crate::player::{Player, promise};
use crate::sink::Sink;
use mux_config::Store;

/// Plays this many frames, all of which are quiet.
#[inline(never)]
fn play_quiet<'a, S: Store, K: Sink>(
    player: &mut Player<'a, S>,
    count: u32,
    sink: &mut K,
) -> Result<(), Accepted>
    requires working { K.has_failed sink.old ≡ false }
    requires quiet { AreQuiet player.old.code count player.old.state }
    ensures done { OnOk result (Delivered player.old player.new (replicate count Frame)
        (K.taken sink.old) (K.taken sink.new) count) }
    ensures works { OnOk result (K.has_failed sink.new ≡ false) }
    ensures stopped { IfErr result (λ cut. Stopped player.old player.new
        (replicate count Frame) (K.taken sink.old) (K.taken sink.new) cut.frames cut.bytes) }
    ensures fails { OnErr result (K.has_failed sink.new ≡ true) }
{
    let plan = player.plan();
    let mut done = 0u32;
    while done < count {
        match player.put_quiet(&plan, count - done, sink) {
            Ok(made) => done += made,
            Err(cut) => {
                return Err(Accepted {
                    frames: done + cut.frames,
                    bytes: cut.bytes,
                });
            }
        }
    }
    Ok(())
}

/// Plays quiet frames from the next one on, at most this many; or one frame, if it isn't quiet.
/// Returns the number of frames played.
fn play_some<'a, S: Store, K: Sink>(
    player: &mut Player<'a, S>,
    most: u32,
    sink: &mut K,
) -> Result<u32, Accepted>
    requires working { K.has_failed sink.old ≡ false }
    requires one { 1 ≤ most }
    ensures done { IfOk result (λ n. Delivered player.old player.new (replicate n Frame)
        (K.taken sink.old) (K.taken sink.new) n) }
    ensures some { IfOk result (λ n. (1 ≤ n) × (n ≤ most)) }
    ensures works { OnOk result (K.has_failed sink.new ≡ false) }
    ensures stopped { IfErr result (λ cut. Stopped player.old player.new
        (replicate most Frame) (K.taken sink.old) (K.taken sink.new) cut.frames cut.bytes) }
    ensures fails { OnErr result (K.has_failed sink.new ≡ true) }
{
    let quiet = player.quiet_frames(most);
    if quiet == 0 {
        return match player.put_frame(sink) {
            Ok(()) => Ok(1),
            Err(bytes) => Err(Accepted { frames: 0, bytes }),
        };
    }
    match play_quiet(player, quiet, sink) {
        Ok(()) => Ok(quiet),
        Err(cut) => Err(cut),
    }
}

/// Plays this many frames, writes each to the sink, which must not have failed, and returns the
/// number of frames: the same as [`play`](crate::play) with that many frame events. A stretch of
/// frames without a swap, an instruction or the start of a phase is detected once, not frame by
/// frame.
///
/// `Write`: the sink failed. The frame that it didn't accept in full has been made, and later ones
/// have not.
pub fn play_frames<'a, S: Store, K: Sink>(
    player: &mut Player<'a, S>,
    count: u32,
    sink: &mut K,
) -> Result<u64, PlayFault>
    requires working { K.has_failed sink.old ≡ false }
    ensures bytes { OnOk result (Appends (K.taken sink.old) (K.taken sink.new)
        (played_bytes player.old (replicate count Frame))) }
    ensures state { OnOk result (player.new ≡ played player.old (replicate count Frame)) }
    ensures frames { IfOk result (λ n. n ≡ length (frames_of player.old (replicate count Frame))) }
    ensures works { OnOk result (K.has_failed sink.new ≡ false) }
    ensures stopped { IfErr result (λ fault. StoppedBy player.old player.new
        (replicate count Frame) (K.taken sink.old) (K.taken sink.new) fault) }
    ensures fails { OnErr result (K.has_failed sink.new ≡ true) }
    ensures headline { MeetsGuarantees player.old.code player.old.state (replicate count Frame) }
{
    promise(player);
    let mut done = 0u32;
    while done < count {
        match play_some(player, count - done, sink) {
            Ok(made) => done += made,
            Err(cut) => {
                return Err(PlayFault::Write {
                    frames: u64::from(done + cut.frames),
                    bytes: cut.bytes,
                });
            }
        }
    }
    Ok(u64::from(count))
}
