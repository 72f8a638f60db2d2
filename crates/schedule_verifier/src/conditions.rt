//! What is known of tests and conditions in a region.

ghost use Rattle.std.specs.Prelude.{◌≡◌, ◌+◌, ◌%◌, ◌<◌, ◌↔◌, IsTrue, map};
ghost use Rattle.std.specs.List.{list_all};
ghost use Rattle.plan_code.specs.declared.limits.TheConstants.{FRAMES_A_DAY};
ghost use Rattle.plan_code.specs.Flags.{is_closed};
ghost use Rattle.plan_code.specs.Machine.{frames_until, is_in_window};
ghost use Rattle.mux_types.specs.Sameness.{is_same_flag};
ghost use Rattle.schedule_front.specs.Tree.{alternatives_of};
ghost use Rattle.schedule_runs.specs.Due.{test_holds, condition_holds};
ghost use Rattle.schedule_verifier.specs.Regions.{Decides, earlier};

use crate::region::{Answer, Question, Region, both, either};
use plan_code::limits::FRAMES_A_DAY;
use plan_code::{ContactId, DayFrame};
use schedule_front::Test;

/// The number of frames from a frame of the day to the next one that is `to`.
fn frames_until(from: DayFrame, to: u32) -> u32
    ensures { result ≡ frames_until from to }
{
    let later = u64::from(to) + u64::from(FRAMES_A_DAY - from.get());
    (later % u64::from(FRAMES_A_DAY)) as u32
}

/// Whether the frame of the day is in the window from `from` to `to`.
fn is_in_window(from: DayFrame, to: DayFrame, day: u32) -> bool
    ensures { result ≡ is_in_window from to day }
{
    frames_until(from, day) < frames_until(from, to.get())
}

/// The frame of the day that comes so many frames before this one.
fn earlier(at: DayFrame, frames: u8) -> DayFrame
    ensures value { result ≡ earlier at frames }
    ensures in_range { at < FRAMES_A_DAY }
{
    match DayFrame::new((at.get() + (FRAMES_A_DAY - u32::from(frames))) % FRAMES_A_DAY) {
        Some(frame) => frame,
        None => unreachable!(),
    }
}

/// Whether a frame of the day is in a region, and not its first one.
fn divides(region: &Region, at: DayFrame) -> bool
    ensures { IsTrue result ↔ ((region.now.from < at) × (at < region.now.to)) }
{
    region.from < at.get() && at.get() < region.to
}

/// Whether the frame of the day is in the window from `from` to `to`.
pub(crate) fn window(region: &Region, from: DayFrame, to: DayFrame) -> Answer
    ensures { Decides result region.now (λ contacts day. is_in_window from to day) }
{
    if divides(region, from) {
        return Answer::Ask(Question::Day(from.get()));
    }
    if divides(region, to) {
        return Answer::Ask(Question::Day(to.get()));
    }
    if is_in_window(from, to, region.from) {
        Answer::Yes
    } else {
        Answer::No
    }
}

/// Whether a contact has this level.
pub(crate) fn level(region: &Region, contact: ContactId, closed: bool) -> Answer
    ensures { Decides result region.now (λ contacts day.
        is_same_flag (is_closed contacts contact) closed) }
{
    if region.closed.is_closed(contact) {
        return if closed { Answer::Yes } else { Answer::No };
    }
    if region.opened.is_closed(contact) {
        return if closed { Answer::No } else { Answer::Yes };
    }
    Answer::Ask(Question::Contact(contact))
}

/// Whether a test holds so many frames later.
fn holds(region: &Region, notice: u8, test: Test) -> Answer
    ensures { Decides result region.now (λ contacts day.
        test_holds contacts ((day + notice) % FRAMES_A_DAY) test) }
{
    match test {
        Test::Contact { contact, closed } => level(region, contact, closed),
        Test::Time { from, to } => {
            let from = earlier(from.frame(), notice);
            let to = earlier(to.frame(), notice);
            window(region, from, to)
        }
    }
}

/// Whether all these tests hold so many frames later.
fn all_hold(region: &Region, notice: u8, tests: &[Test]) -> Answer
    ensures { Decides result region.now (λ contacts day.
        list_all (test_holds contacts ((day + notice) % FRAMES_A_DAY)) tests.now) }
{
    let mut all = Answer::Yes;
    for one in tests {
        all = both(all, holds(region, notice, *one));
    }
    all
}

/// Whether a condition holds so many frames later.
pub(crate) fn condition(region: &Region, notice: u8, condition: &[Vec<Test>]) -> Answer
    ensures { Decides result region.now (λ contacts day.
        condition_holds contacts ((day + notice) % FRAMES_A_DAY) (alternatives_of condition.now)) }
{
    let mut any = Answer::No;
    for alternative in condition {
        any = either(any, all_hold(region, notice, alternative.as_slice()));
    }
    any
}
