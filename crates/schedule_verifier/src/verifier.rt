//! Whether a code implements a schedule.

ghost use Rattle.std.specs.Prelude.{◌≡◌, ◌<◌, ℕ, IsTrue, Some, length, slice_get};
ghost use Rattle.mux_types.specs.Configuration.{Configuration};
ghost use Rattle.plan_code.specs.Program.{IsProgram};
ghost use Rattle.schedule_runs.specs.Due.{opening_of};
ghost use Rattle.schedule_verifier.specs.Certificate.{is_rest, IsCertified, IsKeptFrom, IsTop};
ghost use Rattle.schedule_verifier.specs.Certificate.{LeadsOn, moment, Names, ReturnsFrom};
ghost use Rattle.schedule_verifier.specs.Playing.{PlaysAsScheduled};
ghost use Rattle.schedule_verifier.specs.Regions.{IfYes, Throughout};

use crate::laws::schedules;
use crate::leaves::{leaf, names};
use crate::region::{Answer, Region};
use crate::room::Room;
use crate::walk::{Step, walk};
use crate::wanted::MOST_QUESTIONS;
use mux_config::{Config, Store};
use plan_code::{Code, Instr, Label};
use plan_verifier::Verified;
use schedule_front::Schedule;
use script_config::made_by;

/// Whether the code does what the schedule prescribes, everywhere in a region, from a top on, with
/// this configuration on air; the items make the opening.
fn judge(
    code: &Code,
    schedule: &Schedule,
    opening: &Config,
    region: &Region,
    top: u16,
    current: &Config,
    next: &mut Config,
    room: &mut Room,
) -> Answer
    requires { opening.now ≡ opening_of schedule.now }
    ensures { IfYes result (Throughout region.now (λ contacts day.
        LeadsOn (moment schedule.now code.now current.now contacts day) top current.now)) }
{
    next.copy_from(current);
    match walk(code, region, top, next) {
        Step::Leaf(pc) => { leaf(code, schedule, opening, region, pc, current, next, room) },
        Step::Ask(question) => Answer::Ask(question),
        Step::To(_) => Answer::No,
        Step::Fails => Answer::No,
    }
}

/// As `judge`; at most `left` questions are asked one after the other, and no where the room has no
/// region left.
fn is_kept(
    code: &Code,
    schedule: &Schedule,
    opening: &Config,
    region: &Region,
    top: u16,
    current: &Config,
    next: &mut Config,
    room: &mut Room,
    left: u16,
) -> bool
    requires { opening.now ≡ opening_of schedule.now }
    ensures { IsTrue result → Throughout region.now (λ contacts day.
        LeadsOn (moment schedule.now code.now current.now contacts day) top current.now) }
{
    if !room.takes_region() {
        return false;
    }
    let question = match judge(code, schedule, opening, region, top, current, next, room) {
        Answer::Yes => return true,
        Answer::No => return false,
        Answer::Ask(question) => question,
    };
    if left == 0 {
        return false;
    }
    let first = region.first(&question);
    if !is_kept(
        code,
        schedule,
        opening,
        &first,
        top,
        current,
        next,
        room,
        left - 1,
    ) {
        return false;
    }
    let second = region.second(&question);
    is_kept(
        code,
        schedule,
        opening,
        &second,
        top,
        current,
        next,
        room,
        left - 1,
    )
}

/// The number of instructions, 1 to 4,096.
fn count(code: &Code) -> u16
    ensures value { result ≡ length code.now.lines }
    ensures formed { IsProgram code.now }
{
    let lines = code.lines();
    lines.len() as u16
}

/// Whether an instruction waits for the swap, or with alternatives.
fn is_rest(instr: Instr) -> bool
    ensures { result ≡ is_rest (Some instr) }
{
    match instr {
        Instr::Join | Instr::WaitAny { .. } => true,
        _ => false,
    }
}

/// Whether the code waits at a pc, and goes on at another one.
fn returns_from(code: &Code, at: u16, pc: u16) -> bool
    requires { at < 4096 }
    ensures { ReturnsFrom code.now at pc → IsTrue result }
{
    let Some(rest) = code.instr(at) else {
        return false;
    };
    if !is_rest(rest) {
        return false;
    }
    let Some(instr) = code.instr(at + 1) else {
        return false;
    };
    let Instr::Jump(to) = instr else {
        return false;
    };
    to == pc
}

/// Whether a pc is a top: the first one, or one at which the code goes on when a wait is over.
fn is_top(code: &Code, pc: u16) -> bool
    ensures { IsTop code.now pc → IsTrue result }
{
    if pc == 0 {
        return true;
    }
    for at in 0..count(code) {
        if returns_from(code, at, pc) {
            return true;
        }
    }
    false
}

/// Whether the code does what the schedule prescribes from a label on, if that is at a top.
fn is_label_kept(
    code: &Code,
    schedule: &Schedule,
    opening: &Config,
    label: Label,
    room: &mut Room,
) -> bool
    requires { opening.now ≡ opening_of schedule.now }
    ensures { IsTrue result → IsTop code.now label.pc → (c : Configuration)
        → slice_get code.now.configurations label.cur ≡ Some c
        → IsKeptFrom schedule.now code.now label.pc c }
{
    if !is_top(code, label.pc) {
        return true;
    }
    let mut next = Config::empty();
    let Some(config) = code.config(label.cur) else {
        return false;
    };
    let all = Region::everything();
    is_kept(
        code,
        schedule,
        opening,
        &all,
        label.pc,
        config,
        &mut next,
        room,
        MOST_QUESTIONS,
    )
}

/// Whether the code does what the schedule prescribes from each top on.
fn are_kept(code: &Code, schedule: &Schedule, opening: &Config, room: &mut Room) -> bool
    requires { opening.now ≡ opening_of schedule.now }
    ensures { IsTrue result → (pc : ℕ) (c : Configuration) → IsTop code.now pc
        → Names code.now pc c → IsKeptFrom schedule.now code.now pc c }
{
    for label in code.labels() {
        if !is_label_kept(code, schedule, opening, *label, room) {
            return false;
        }
    }
    true
}

/// Whether the code, which begins with this configuration, is certified: it does what the schedule
/// prescribes from each of its tops. That is tried with what the tests of the code and of the
/// overlays make known; a code that is not certified may still play as scheduled.
fn is_certified(schedule: &Schedule, opening: &Config, code: &Code, room: &mut Room) -> bool
    ensures { IsTrue result → IsCertified schedule.now opening.now code.now }
{
    if code.plan() != schedule.header() {
        return false;
    }
    if !names(code, 0, opening) {
        return false;
    }
    match made_by(schedule.items()) {
        Err(_fault) => false,
        Ok(items) => are_kept(code, schedule, &items, room),
    }
}

/// Whether the code, which begins with this configuration, is known to play as the schedule
/// prescribes, from every start in range and over every list of contact changes and frames. No does
/// not say that it plays otherwise: where the room is used up, no answer was found.
pub fn implements(schedule: &Schedule, opening: &Config, code: &Verified, room: &mut Room) -> bool
    ensures { IsTrue result → PlaysAsScheduled schedule.now opening.now code.now }
{
    schedules();
    is_certified(schedule, opening, code.code(), room)
}
