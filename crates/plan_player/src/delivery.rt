//! Playing events into a sink.

ghost use Rattle.std.specs.Prelude.{◌≡◌, ◌<◌, ◌≤◌, [], ◌∷◌, length, take, false, true, IfOk, OnOk};
ghost use Rattle.std.specs.Prelude.{IfErr, OnErr};
ghost use Rattle.std.specs.Io.KnownBytes.{Appends};
ghost use Rattle.plan_runs.specs.declared.event.Event.TheVariants.{Frame};
ghost use Rattle.plan_runs.specs.Headline.{MeetsGuarantees};
ghost use Rattle.plan_player.specs.Playing.{played};
ghost use Rattle.plan_player.specs.Delivery.{frames_of, played_bytes, next_frame, StoppedBy};

use crate::fault::PlayFault;
use crate::player::{Player, promise};
use crate::sink::Sink;
use mux_config::Store;
use plan_runs::Event;

/// Plays one event and returns the number of frames made. `Err`: the event is a frame, of which the
/// sink accepted this many bytes, fewer than all.
fn play_event<'a, S: Store, K: Sink>(
    player: &mut Player<'a, S>,
    event: Event,
    sink: &mut K,
) -> Result<u64, usize>
    requires working { K.has_failed sink.old ≡ false }
    ensures state { player.new ≡ played player.old (event ∷ []) }
    ensures bytes { OnOk result
        (Appends (K.taken sink.old) (K.taken sink.new) (played_bytes player.old (event ∷ []))) }
    ensures frames { IfOk result (λ n. n ≡ length (frames_of player.old (event ∷ []))) }
    ensures one { IfOk result (λ n. n ≤ 1) }
    ensures works { OnOk result (K.has_failed sink.new ≡ false) }
    ensures frame { OnErr result (event ≡ Frame) }
    ensures bound { IfErr result (λ n. n < length (next_frame player.old)) }
    ensures part { IfErr result (λ n.
        Appends (K.taken sink.old) (K.taken sink.new) (take n (next_frame player.old))) }
    ensures fails { OnErr result (K.has_failed sink.new ≡ true) }
{
    match event {
        Event::Contact(contact, closed) => {
            player.contact(contact, closed);
            Ok(0)
        }
        Event::Frame => {
            player.put_frame(sink)?;
            Ok(1)
        }
    }
}

/// Plays these events, writes each frame to the sink, which must not have failed, and returns the
/// number of frames. There is no trap, every frame is correct, and each swap falls on the announced
/// count, after its change flags were sent and the whole next configuration could be read three
/// times.
///
/// `Write`: the sink failed. The event whose frame it didn't accept in full has been played, and
/// later ones have not.
pub fn play<'a, S: Store, K: Sink>(
    player: &mut Player<'a, S>,
    events: &[Event],
    sink: &mut K,
) -> Result<u64, PlayFault>
    requires working { K.has_failed sink.old ≡ false }
    ensures bytes { OnOk result
        (Appends (K.taken sink.old) (K.taken sink.new) (played_bytes player.old events.now)) }
    ensures state { OnOk result (player.new ≡ played player.old events.now) }
    ensures frames { IfOk result (λ n. n ≡ length (frames_of player.old events.now)) }
    ensures works { OnOk result (K.has_failed sink.new ≡ false) }
    ensures stopped { IfErr result (λ fault.
        StoppedBy player.old player.new events.now (K.taken sink.old) (K.taken sink.new) fault) }
    ensures fails { OnErr result (K.has_failed sink.new ≡ true) }
    ensures headline { MeetsGuarantees player.old.code player.old.state events.now }
{
    promise(player);
    let mut frames = 0u64;
    for event in events {
        match play_event(player, *event, sink) {
            Ok(made) => frames += made,
            Err(bytes) => return Err(PlayFault::Write { frames, bytes }),
        }
    }
    Ok(frames)
}
