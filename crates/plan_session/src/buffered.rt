//! Playback through a buffer, with few large writes.

ghost use Rattle.std.specs.Prelude.{◌≡◌, ◌<◌, ◌≤◌, List, length, false, true, IfOk, OnOk, OnErr};
ghost use Rattle.std.specs.Io.KnownBytes.{Appends};
ghost use Rattle.plan_player.specs.Playing.{Playing, IsAtStart};
ghost use Rattle.plan_player.specs.Delivery.{frames_of, played_bytes};
ghost use Rattle.plan_session.specs.declared.step.Step.{Step};
ghost use Rattle.plan_session.specs.Events.{events_of};
ghost use Rattle.plan_session.specs.Listing.{ListsSteps};
ghost use Rattle.plan_session.specs.Playback.{is_write};

use crate::buffer::{Buffer, delivered};
use crate::playing::{Cut, play_list};
use crate::run_fault::RunFault;
use crate::session::Session;
use crate::step_list::StepList;
use mux_config::Store;
use plan_player::{Player, Sink};

/// The length of a FIB in bytes.
const FIB: usize = 32;

/// [`play_list`] through a buffer. Returns the sink, too. A frame has this many bytes.
fn play_list_into<'a, S: Store, K: Sink>(
    player: &mut Player<'a, S>,
    size: usize,
    steps: &mut StepList<'_>,
    out: K,
) -> (Result<u128, Cut>, K)
    requires working { K.has_failed out ≡ false }
    requires some { 0 < size }
    requires few { size ≤ 1000 }
    ensures played { IfOk result.0 (λ n. (all : List Step) → ListsSteps steps.old all
        → (n ≡ length (frames_of player.old (events_of all)))
        × Appends (K.taken out) (K.taken result.1) (played_bytes player.old (events_of all))) }
    ensures works { OnOk result.0 (K.has_failed result.1 ≡ false) }
    ensures fails { OnErr result.0 (K.has_failed result.1 ≡ true) }
{
    let mut buffer = Buffer::new(out);
    match play_list(player, steps, &mut buffer) {
        Ok(frames) => {
            if buffer.deliver() {
                return (Ok(frames), buffer.into_inner());
            }
            let (frames, bytes) = delivered(frames, 0, buffer.held(), size);
            (Err(Cut { frames, bytes }), buffer.into_inner())
        }
        Err(cut) => {
            let (frames, bytes) = delivered(cut.frames, cut.bytes, buffer.held(), size);
            (Err(Cut { frames, bytes }), buffer.into_inner())
        }
    }
}

/// Plays the steps of a list from the start of a session, in pieces of up to 98,304 bytes, into a
/// sink that has not failed. Returns the number of frames, and the sink. No memory is allocated.
///
/// # Errors
///
/// `Write` if the sink fails, with what it took in all, whichever piece it failed in. There is no
/// other fault.
pub fn play_into<K: Sink>(
    session: &Session,
    steps: &mut StepList<'_>,
    out: K,
) -> (Result<u128, RunFault>, K)
    requires working { K.has_failed out ≡ false }
    ensures begun { (p : Playing) × IsAtStart session.now.code session.now.start p }
    // A sink that reports its bytes has the bytes of the playback after those that it had.
    ensures played { IfOk result.0 (λ n. (p : Playing) (all : List Step)
        → IsAtStart session.now.code session.now.start p → ListsSteps steps.old all
        → (n ≡ length (frames_of p (events_of all)))
        × Appends (K.taken out) (K.taken result.1) (played_bytes p (events_of all))) }
    // The sink has failed exactly if the fault is `Write`, and there is no other.
    ensures failed { K.has_failed result.1 ≡ is_write result.0 }
    ensures only { OnErr result.0 (is_write result.0 ≡ true) }
{
    let size = FIB * session.code().code().plan().layout.fibs();
    let mut player = session.player();
    let (ended, sink) = play_list_into(&mut player, size, steps, out);
    match ended {
        Ok(frames) => (Ok(frames), sink),
        Err(cut) => {
            let Cut { frames, bytes } = cut;
            (Err(RunFault::Write { frames, bytes }), sink)
        }
    }
}
