//! What is due everywhere in a region.

ghost use Rattle.std.specs.Prelude.{◌≡◌, ◌+◌, ◌%◌, if◌then◌else◌, IsTrue, map};
ghost use Rattle.plan_code.specs.declared.limits.TheConstants.{FRAMES_A_DAY};
ghost use Rattle.schedule_front.specs.Tree.{overlay_of};
ghost use Rattle.script_config.specs.Sequences.{after};
ghost use Rattle.schedule_runs.specs.Due.{due, opening_of, edits_of, condition_holds};
ghost use Rattle.schedule_runs.specs.Due.{with_overlays};
ghost use Rattle.schedule_verifier.specs.Regions.{IfYes, Throughout};

use crate::conditions::condition;
use crate::region::{Answer, Region};
use crate::room::Room;
use crate::walk::apply;
use mux_config::{Config, Store};
use plan_verifier::flow::is_same;
use schedule_front::{Overlay, OverlayEdit, Schedule};

/// Applies edits, in their order; false where one has a fault.
fn apply_all(edits: &[OverlayEdit], config: &mut Config) -> bool
    ensures { IsTrue result → config.new ≡ after (map (λ e. e.edit) edits.now) config.old }
{
    for edit in edits {
        if !apply(edit.edit, config) {
            return false;
        }
    }
    true
}

/// Applies the edits of an overlay if its condition holds so many frames later; `No` where one of
/// them has a fault.
fn add_overlay(region: &Region, notice: u8, overlay: &Overlay, config: &mut Config) -> Answer
    ensures { IfYes result (Throughout region.now (λ contacts day. config.new
        ≡ (if condition_holds contacts ((day + notice) % FRAMES_A_DAY)
        (overlay_of overlay.now).condition then after (edits_of (overlay_of overlay.now)) config.old
        else config.old))) }
{
    match condition(region, notice, overlay.condition.as_slice()) {
        Answer::Yes => {
            if apply_all(overlay.edits.as_slice(), config) {
                Answer::Yes
            } else {
                Answer::No
            }
        }
        Answer::No => Answer::Yes,
        Answer::Ask(question) => Answer::Ask(question),
    }
}

/// Applies the edits of the overlays whose conditions hold so many frames later; `No` where one of
/// them has a fault.
fn add_overlays(region: &Region, notice: u8, overlays: &[Overlay], config: &mut Config) -> Answer
    ensures { IfYes result (Throughout region.now (λ contacts day. config.new
        ≡ with_overlays contacts ((day + notice) % FRAMES_A_DAY) (map overlay_of overlays.now)
        config.old)) }
{
    for overlay in overlays {
        match add_overlay(region, notice, overlay, config) {
            Answer::Yes => {}
            Answer::No => return Answer::No,
            Answer::Ask(question) => return Answer::Ask(question),
        }
    }
    Answer::Yes
}

/// Whether this configuration is due everywhere in a region; the items make the opening. What is
/// due is written to `wanted`.
pub(crate) fn is_due(
    schedule: &Schedule,
    opening: &Config,
    region: &Region,
    config: &Config,
    wanted: &mut Config,
) -> Answer
    requires { opening.now ≡ opening_of schedule.now }
    ensures { IfYes result (Throughout region.now (λ contacts day.
        due schedule.now contacts day ≡ config.now)) }
{
    wanted.copy_from(opening);
    let notice = schedule.header().notice;
    match add_overlays(region, notice, schedule.overlays(), wanted) {
        Answer::Yes => {
            if is_same(wanted, config) {
                Answer::Yes
            } else {
                Answer::No
            }
        }
        Answer::No => Answer::No,
        Answer::Ask(question) => Answer::Ask(question),
    }
}

/// The most questions one after the other: each contact, and each beginning and end of a window.
pub(crate) const MOST_QUESTIONS: u16 = 4200;

/// Whether this configuration is due everywhere in a region, which may be empty; the items make the
/// opening. At most `left` questions are asked one after the other, and no where the room has no
/// region left.
pub(crate) fn stays_due(
    schedule: &Schedule,
    opening: &Config,
    region: &Region,
    config: &Config,
    room: &mut Room,
    left: u16,
) -> bool
    requires { opening.now ≡ opening_of schedule.now }
    ensures { IsTrue result → Throughout region.now (λ contacts day.
        due schedule.now contacts day ≡ config.now) }
{
    if region.to <= region.from {
        return true;
    }
    if !room.takes_region() {
        return false;
    }
    let question = match is_due(schedule, opening, region, config, &mut room.wanted) {
        Answer::Yes => return true,
        Answer::No => return false,
        Answer::Ask(question) => question,
    };
    if left == 0 {
        return false;
    }
    let first = region.first(&question);
    if !stays_due(schedule, opening, &first, config, room, left - 1) {
        return false;
    }
    let second = region.second(&question);
    stays_due(schedule, opening, &second, config, room, left - 1)
}
