//! Where a code is suspended: whether it has done there what the schedule prescribes.

ghost use Rattle.std.specs.Prelude.{◌≡◌, ◌<◌, ℕ, if◌then◌else◌, IsTrue, Some};
ghost use Rattle.mux_types.specs.Configuration.{Configuration};
ghost use Rattle.plan_code.specs.declared.flags.Contacts.{Contacts as AnyContacts};
ghost use Rattle.plan_code.specs.declared.limits.TheConstants.{FRAMES_A_DAY};
ghost use Rattle.plan_code.specs.declared.instr.Instr.TheVariants.{Join};
ghost use Rattle.plan_code.specs.Program.{Program, instr_at};
ghost use Rattle.schedule_runs.specs.Due.{due, opening_of};
ghost use Rattle.schedule_verifier.specs.Certificate.{Names, GoesOn, IsAway, Lasts, Changes};
ghost use Rattle.schedule_verifier.specs.Certificate.{Rests, Stays, LeadsOn, moment};
ghost use Rattle.schedule_verifier.specs.Regions.{IfYes, Throughout};
ghost use Rattle.schedule_verifier.specs.declared.region.Answer.TheVariants.{Yes, No};

use crate::region::{Answer, Region};
use crate::room::Room;
use crate::wanted::{MOST_QUESTIONS, is_due, stays_due};
use mux_config::Config;
use plan_code::limits::{FRAMES_A_DAY, MOST_INSTRUCTIONS};
use plan_code::{Code, Contacts, DayFrame, Delay, Frames, Instr};
use plan_verifier::flow::is_same;
use schedule_front::Schedule;

/// Whether the label at a pc names this configuration.
pub(crate) fn names(code: &Code, pc: u16, config: &Config) -> bool
    ensures { IsTrue result → Names code.now pc config.now }
{
    let Some(label) = code.label_at(pc) else {
        return false;
    };
    let Some(other) = code.config(label.cur) else {
        return false;
    };
    is_same(other, config)
}

/// Whether the instruction at a pc is a jump to a label that names this configuration.
fn goes_on(code: &Code, pc: u16, config: &Config) -> bool
    ensures { IsTrue result → GoesOn code.now pc config.now }
{
    let Some(instr) = code.instr(pc) else {
        return false;
    };
    let Instr::Jump(to) = instr else {
        return false;
    };
    names(code, to, config)
}

/// Whether the instruction at a pc waits for the swap.
fn is_join(code: &Code, pc: u16) -> bool
    ensures { IsTrue result → instr_at code.now pc ≡ Some Join }
{
    match code.instr(pc) {
        None => false,
        Some(instr) => instr == Instr::Join,
    }
}

/// Whether a commit of the next configuration with this delay, at a pc, is what the schedule
/// prescribes everywhere in a region.
fn changes(
    code: &Code,
    schedule: &Schedule,
    opening: &Config,
    region: &Region,
    pc: u16,
    delay: Delay,
    next: &Config,
    room: &mut Room,
) -> Answer
    requires low { pc < 4096 }
    requires opening { opening.now ≡ opening_of schedule.now }
    ensures { (current : Configuration) → IfYes result (Throughout region.now (λ contacts day.
        Changes (moment schedule.now code.now current contacts day) pc next.now delay)) }
{
    if delay.get() != u16::from(schedule.header().notice) {
        return Answer::No;
    }
    if !is_join(code, pc + 1) {
        return Answer::No;
    }
    if !goes_on(code, pc + 2, next) {
        return Answer::No;
    }
    is_due(schedule, opening, region, next, &mut room.wanted)
}

/// Whether none of these contacts is closed, and none of those is open, everywhere in a region.
fn is_away(region: &Region, closed: Contacts, opened: Contacts) -> bool
    ensures { IsTrue result → Throughout region.now
        (λ contacts day. IsAway closed opened contacts) }
{
    !region.opened.any_open(closed) && !region.closed.any_open(opened)
}

/// The region in which none of these contacts is closed, and none of those open, from one frame of
/// the day to another.
fn waiting(closed: Contacts, opened: Contacts, from: u32, to: u32) -> Region
    ensures { result ≡ record { closed = opened; opened = closed; from = from; to = to } }
{
    Region {
        closed: opened,
        opened: closed,
        from,
        to,
    }
}

/// Whether this configuration is due as long as a wait for these contacts lasts that ends with a
/// frame of the day, from wherever in the region it begins.
fn lasts_until(
    schedule: &Schedule,
    opening: &Config,
    region: &Region,
    closed: Contacts,
    opened: Contacts,
    until: DayFrame,
    config: &Config,
    room: &mut Room,
) -> bool
    requires { opening.now ≡ opening_of schedule.now }
    ensures { IsTrue result → Throughout region.now (λ contacts day.
        Lasts schedule.now config.now closed opened (Some until) day) }
{
    let end = until.get();
    if region.from < end {
        if region.to > end {
            return false;
        }
        let wait = waiting(closed, opened, region.from, end);
        return stays_due(schedule, opening, &wait, config, room, MOST_QUESTIONS);
    }
    if region.from == end {
        return false;
    }
    let evening = waiting(closed, opened, region.from, FRAMES_A_DAY);
    let morning = waiting(closed, opened, 0, end);
    if !stays_due(schedule, opening, &evening, config, room, MOST_QUESTIONS) {
        return false;
    }
    stays_due(schedule, opening, &morning, config, room, MOST_QUESTIONS)
}

/// Whether this configuration is due as long as a wait lasts, from wherever in the region it
/// begins.
fn lasts(
    schedule: &Schedule,
    opening: &Config,
    region: &Region,
    closed: Contacts,
    opened: Contacts,
    until: Option<DayFrame>,
    config: &Config,
    room: &mut Room,
) -> bool
    requires { opening.now ≡ opening_of schedule.now }
    ensures { IsTrue result → Throughout region.now (λ contacts day.
        Lasts schedule.now config.now closed opened until day) }
{
    match until {
        Some(frame) => lasts_until(
            schedule, opening, region, closed, opened, frame, config, room,
        ),
        None => {
            let wait = waiting(closed, opened, 0, FRAMES_A_DAY);
            stays_due(schedule, opening, &wait, config, room, MOST_QUESTIONS)
        }
    }
}

/// Whether a wait at a pc is what the schedule prescribes everywhere in a region.
fn rests(
    code: &Code,
    schedule: &Schedule,
    opening: &Config,
    region: &Region,
    pc: u16,
    closed: Contacts,
    opened: Contacts,
    until: Option<DayFrame>,
    frames: Option<Frames>,
    current: &Config,
    next: &Config,
    room: &mut Room,
) -> bool
    requires low { pc < 4096 }
    requires opening { opening.now ≡ opening_of schedule.now }
    ensures { IsTrue result → Throughout region.now (λ contacts day.
        Rests (moment schedule.now code.now current.now contacts day) pc next.now closed opened
        until frames) }
{
    let None = frames else {
        return false;
    };
    if !is_same(next, current) {
        return false;
    }
    if !is_away(region, closed, opened) {
        return false;
    }
    if !goes_on(code, pc + 1, current) {
        return false;
    }
    lasts(
        schedule, opening, region, closed, opened, until, current, room,
    )
}

/// Whether an end is what the schedule prescribes.
fn stays(
    schedule: &Schedule,
    opening: &Config,
    current: &Config,
    next: &Config,
    room: &mut Room,
) -> bool
    requires { opening.now ≡ opening_of schedule.now }
    ensures { IsTrue result → (code : Program) (contacts : AnyContacts) (day : ℕ) →
        Stays (moment schedule.now code current.now contacts day) next.now }
{
    if !is_same(next, current) {
        return false;
    }
    stays_due(
        schedule,
        opening,
        &Region::everything(),
        current,
        room,
        MOST_QUESTIONS,
    )
}

/// `Yes` for true, `No` for false.
fn answer(test: bool) -> Answer
    ensures { result ≡ (if test then Yes else No) }
{
    if test { Answer::Yes } else { Answer::No }
}

/// Whether the instruction at a pc, which commits, waits or ends, is what the schedule prescribes
/// everywhere in a region, with these configurations current and next.
pub(crate) fn leaf(
    code: &Code,
    schedule: &Schedule,
    opening: &Config,
    region: &Region,
    pc: u16,
    current: &Config,
    next: &Config,
    room: &mut Room,
) -> Answer
    requires { opening.now ≡ opening_of schedule.now }
    ensures { IfYes result (Throughout region.now (λ contacts day.
        LeadsOn (moment schedule.now code.now current.now contacts day) pc next.now)) }
{
    if pc >= MOST_INSTRUCTIONS {
        return Answer::No;
    }
    let Some(instr) = code.instr(pc) else {
        return Answer::No;
    };
    match instr {
        Instr::CommitIn(delay) => {
            changes(code, schedule, opening, region, pc, delay, next, room)
        }
        Instr::WaitAny {
            closed,
            opened,
            until,
            frames,
        } => answer(rests(
            code, schedule, opening, region, pc, closed, opened, until, frames, current, next, room,
        )),
        Instr::End => answer(stays(schedule, opening, current, next, room)),
        _ => Answer::No,
    }
}
