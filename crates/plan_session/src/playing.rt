//! Playing the steps of an event file into a sink, one by one.

ghost use Rattle.std.specs.Prelude.{◌≡◌, List, false, true, replicate, IfOk, OnOk, IfErr, OnErr};
ghost use Rattle.plan_runs.specs.declared.event.Event.TheVariants.{Frame};
ghost use Rattle.plan_player.specs.Delivery.{Delivered, Stopped};
ghost use Rattle.plan_session.specs.declared.step.Step.{Step};
ghost use Rattle.plan_session.specs.Events.{events_of_step, events_of};
ghost use Rattle.plan_session.specs.Listing.{ListsSteps};

use crate::step::Step;
use crate::step_list::StepList;
use mux_config::Store;
use plan_player::{Event, PlayFault, Player, Sink, play, play_frames};

/// What a sink took before it failed: this many whole frames, and this many bytes of the next
/// frame.
#[derive(Clone, Copy, PartialEq, Eq)]
pub(crate) struct Cut {
    pub(crate) frames: u128,
    pub(crate) bytes: usize,
}

/// Plays events. Returns the number of frames, or what the sink took before it failed.
fn play_events<'a, S: Store, K: Sink>(
    player: &mut Player<'a, S>,
    events: &[Event],
    sink: &mut K,
) -> Result<u128, Cut>
    requires working { K.has_failed sink.old ≡ false }
    ensures done { IfOk result (λ n.
        Delivered player.old player.new events.now (K.taken sink.old) (K.taken sink.new) n) }
    ensures works { OnOk result (K.has_failed sink.new ≡ false) }
    ensures stopped { IfErr result (λ cut.
        Stopped player.old player.new events.now (K.taken sink.old) (K.taken sink.new)
        cut.frames cut.bytes) }
    ensures fails { OnErr result (K.has_failed sink.new ≡ true) }
{
    match play(player, events, sink) {
        Ok(frames) => Ok(u128::from(frames)),
        Err(PlayFault::Write { frames, bytes }) => Err(Cut {
            frames: u128::from(frames),
            bytes,
        }),
    }
}

/// Plays this many frames.
fn play_many<'a, S: Store, K: Sink>(
    player: &mut Player<'a, S>,
    count: u32,
    sink: &mut K,
) -> Result<u128, Cut>
    requires working { K.has_failed sink.old ≡ false }
    ensures done { IfOk result (λ n. Delivered player.old player.new (replicate count Frame)
        (K.taken sink.old) (K.taken sink.new) n) }
    ensures works { OnOk result (K.has_failed sink.new ≡ false) }
    ensures stopped { IfErr result (λ cut. Stopped player.old player.new (replicate count Frame)
        (K.taken sink.old) (K.taken sink.new) cut.frames cut.bytes) }
    ensures fails { OnErr result (K.has_failed sink.new ≡ true) }
{
    match play_frames(player, count, sink) {
        Ok(frames) => Ok(u128::from(frames)),
        Err(PlayFault::Write { frames, bytes }) => Err(Cut {
            frames: u128::from(frames),
            bytes,
        }),
    }
}

/// Plays a step.
fn play_step<'a, S: Store, K: Sink>(
    player: &mut Player<'a, S>,
    step: Step,
    sink: &mut K,
) -> Result<u128, Cut>
    requires working { K.has_failed sink.old ≡ false }
    ensures done { IfOk result (λ n. Delivered player.old player.new (events_of_step step)
        (K.taken sink.old) (K.taken sink.new) n) }
    ensures works { OnOk result (K.has_failed sink.new ≡ false) }
    ensures stopped { IfErr result (λ cut. Stopped player.old player.new (events_of_step step)
        (K.taken sink.old) (K.taken sink.new) cut.frames cut.bytes) }
    ensures fails { OnErr result (K.has_failed sink.new ≡ true) }
{
    match step {
        Step::Contact(contact, closed) => {
            play_events(player, &[Event::Contact(contact, closed)], sink)
        }
        Step::Frames(count) => play_many(player, count, sink),
    }
}

/// Plays the steps of a list, one after another.
pub(crate) fn play_list<'a, S: Store, K: Sink>(
    player: &mut Player<'a, S>,
    steps: &mut StepList<'_>,
    sink: &mut K,
) -> Result<u128, Cut>
    requires working { K.has_failed sink.old ≡ false }
    ensures done { IfOk result (λ n. (all : List Step) → ListsSteps steps.old all
        → Delivered player.old player.new (events_of all) (K.taken sink.old) (K.taken sink.new) n) }
    ensures works { OnOk result (K.has_failed sink.new ≡ false) }
    ensures stopped { IfErr result (λ cut. (all : List Step) → ListsSteps steps.old all
        → Stopped player.old player.new (events_of all) (K.taken sink.old) (K.taken sink.new)
        cut.frames cut.bytes) }
    ensures fails { OnErr result (K.has_failed sink.new ≡ true) }
{
    let mut frames = 0u128;
    while let Some(step) = steps.next() {
        match play_step(player, step, sink) {
            Ok(made) => frames += made,
            Err(cut) => {
                return Err(Cut {
                    frames: frames + cut.frames,
                    bytes: cut.bytes,
                });
            }
        }
    }
    Ok(frames)
}
