//! Finding the swaps of a run, without making the frames between them.

ghost use Rattle.std.specs.Prelude.{◌≡◌, ◌+◌, ◌≤◌, ◌<◌, [], ◌∷◌, IfOk, IfNone, IfSome};
ghost use Rattle.std.specs.Prelude.{OnOk, OnErr};
ghost use Rattle.plan_runs.specs.declared.event.Event.TheVariants.{Frame};
ghost use Rattle.plan_player.specs.Playing.{played};
ghost use Rattle.plan_timeline.specs.Swaps.{swap_in, found, Went, FindsNext, begun, frames_in};
ghost use Rattle.plan_timeline.specs.Swaps.{HasTooMany};

use crate::swap::Swap;
use mux_config::Store;
use plan_player::{Player, pass_frames};
use plan_session::{Step, StepList};
use std::error;
use std::fmt::{self, Display, Formatter};

/// How far a run is.
#[derive(Clone, Copy, Debug, PartialEq, Eq)]
pub struct Position {
    /// The number of its next frame, from 0.
    pub frame: u64,
    /// How many frames of the step at hand are left.
    pub left: u32,
}

/// A run has more than 2^64 - 1 frames.
#[derive(Clone, Copy, Debug, PartialEq, Eq)]
pub struct TooManyFrames;

impl Display for TooManyFrames {
    fn fmt<W: fmt::Write>(&self, f: &mut Formatter<W>) -> fmt::Result {
        f.write_str("too many frames")
    }
}

impl error::Error for TooManyFrames {}

/// Makes the next frame, which has this number, and returns the swap in it, if there is one.
fn make_frame<'a, S: Store>(player: &mut Player<'a, S>, frame: u64) -> Option<Swap>
    ensures state { player.new ≡ played player.old (Frame ∷ []) }
    ensures swap { found result ≡ swap_in player.old.state frame }
{
    match player.remaining() {
        Some(0) => {
            let swap = Swap {
                frame,
                count: player.count(),
                day: player.day(),
                line: player.commit_line(),
                before: player.current().to_config(),
                now: player.next().to_config(),
            };
            player.frame();
            Some(swap)
        }
        Some(_) | None => {
            player.frame();
            None
        }
    }
}

/// Plays some frames of the step at hand, which has some left: quiet ones, or the next frame.
/// Returns the swap in it, if there is one.
#[tactic(auto, using(crate::proofs::Playing::went_quiet, crate::proofs::Playing::went_one))]
fn play_some<'a, S: Store>(player: &mut Player<'a, S>, at: &mut Position) -> Option<Swap>
    requires some { 1 ≤ at.old.left }
    requires room { at.old.frame + at.old.left ≤ 18446744073709551615 }
    ensures went { Went player.old at.old player.new at.new (found result) }
    ensures less { at.new.left + 1 ≤ at.old.left }
{
    let passed = pass_frames(player, at.left);
    if passed > 0 {
        at.frame += u64::from(passed);
        at.left -= passed;
        return None;
    }
    let swap = make_frame(player, at.frame);
    at.frame += 1;
    at.left -= 1;
    swap
}

/// Plays frames of the step at hand, up to and including the next that makes a swap, or all that
/// are left.
#[tactic(auto, using(crate::proofs::Playing::went_none, crate::proofs::Playing::went_onward, crate::proofs::Playing::went_then))]
fn next_in_step<'a, S: Store>(player: &mut Player<'a, S>, at: &mut Position) -> Option<Swap>
    requires room { at.old.frame + at.old.left ≤ 18446744073709551615 }
    ensures went { Went player.old at.old player.new at.new (found result) }
    ensures end { IfNone result (at.new.left ≡ 0) }
    ensures onward { IfSome result (λ w. at.old.frame < at.new.frame) }
{
    let mut swap = None;
    while at.left > 0 && swap.is_none() {
        swap = play_some(player, at);
    }
    swap
}

/// Begins the next step: changes its contact, or has its frames at hand.
///
/// `TooManyFrames`: they can't all be numbered. Nothing is changed then.
fn begin_step<'a, S: Store>(
    player: &mut Player<'a, S>,
    step: Step,
    at: &mut Position,
) -> Result<(), TooManyFrames>
    requires none { at.old.left ≡ 0 }
    requires room { at.old.frame + at.old.left ≤ 18446744073709551615 }
    ensures state { OnOk result (player.new ≡ begun player.old step) }
    ensures frame { at.new.frame ≡ at.old.frame }
    ensures left { OnOk result (at.new.left ≡ frames_in step) }
    ensures fault { OnErr result (18446744073709551615 < at.old.frame + frames_in step) }
    ensures room { at.new.frame + at.new.left ≤ 18446744073709551615 }
{
    match step {
        Step::Contact(contact, closed) => {
            player.contact(contact, closed);
            Ok(())
        }
        Step::Frames(count) => {
            if at.frame > u64::MAX - u64::from(count) {
                return Err(TooManyFrames);
            }
            at.left = count;
            Ok(())
        }
    }
}

/// Plays the steps of a list, up to and including the frame of the next swap, which it returns;
/// `None` if there is no other. No frame of a step is at hand.
fn next_in_steps<'a, S: Store>(
    player: &mut Player<'a, S>,
    steps: &mut StepList<'_>,
    at: &mut Position,
) -> Result<Option<Swap>, TooManyFrames>
    requires none { at.old.left ≡ 0 }
    requires room { at.old.frame + at.old.left ≤ 18446744073709551615 }
    ensures finds { IfOk result (λ swap.
        FindsNext player.old at.old steps.old player.new at.new steps.new swap) }
    ensures fault { OnErr result (HasTooMany at.old steps.old) }
    ensures onward { IfOk result (λ swap. IfSome swap (λ w. at.old.frame < at.new.frame)) }
    ensures room { at.new.frame + at.new.left ≤ 18446744073709551615 }
{
    let mut swap = None;
    while swap.is_none() {
        match steps.next() {
            None => return Ok(None),
            Some(step) => match begin_step(player, step, at) {
                Ok(()) => swap = next_in_step(player, at),
                Err(fault) => return Err(fault),
            },
        }
    }
    Ok(swap)
}

/// Plays the frames that are left of the step at hand, and the steps of a list, up to and including
/// the frame of the next swap, which it returns; `None` if there is no other. Frames in which
/// nothing happens take no time. Each swap is in a later frame than the one before it.
///
/// `TooManyFrames`: the run has more frames than can be numbered: those before, those left of the
/// step at hand, and those of the steps are together more than 2^64 - 1.
pub fn next_swap<'a, S: Store>(
    player: &mut Player<'a, S>,
    steps: &mut StepList<'_>,
    at: &mut Position,
) -> Result<Option<Swap>, TooManyFrames>
    requires room { at.old.frame + at.old.left ≤ 18446744073709551615 }
    ensures finds { IfOk result (λ swap.
        FindsNext player.old at.old steps.old player.new at.new steps.new swap) }
    ensures fault { OnErr result (HasTooMany at.old steps.old) }
    ensures onward { IfOk result (λ swap. IfSome swap (λ w. at.old.frame < at.new.frame)) }
    ensures room { at.new.frame + at.new.left ≤ 18446744073709551615 }
{
    match next_in_step(player, at) {
        Some(swap) => Ok(Some(swap)),
        None => next_in_steps(player, steps, at),
    }
}
