//! Executing one instruction that doesn't trap.

ghost use Rattle.std.specs.Prelude.{◌≡◌, ◌<◌};
ghost use Rattle.plan_code.specs.Machine.{HasNoFault, IsAllowed, IsCounterSet, frames_until};
ghost use Rattle.plan_code.specs.Machine.{is_in_window, effect, suspend};
ghost use Rattle.plan_code.specs.declared.plan.Plan.{Plan as AnyPlan};
ghost use Rattle.plan_code.specs.declared.instr.Instr.TheVariants.{WaitAny, CommitIn, CommitAt};
ghost use Rattle.plan_code.specs.declared.instr.Instr.TheVariants.{Settle, Edit as Edits, Test};
ghost use Rattle.plan_code.specs.declared.instr.Instr.TheVariants.{TestTime, Jump, Set, Loop, End};
ghost use Rattle.plan_player.specs.Positions.{state_of};

use super::Machine;
use super::commit::{left_at, left_in};
use mux_config::{Edit, Store};
use plan_code::limits::{COUNTS, FRAMES_A_DAY};
use plan_code::{
    ContactId, Contacts, CounterId, DayFrame, Delay, Frames, Hold, Instr, Plan, Times,
};

/// Suspends; the next instruction runs when the wait has ended.
fn suspend<S: Store>(hold: Hold, machine: &mut Machine<S>)
    requires { machine.old.pc < 65535 }
    ensures { state_of S.content machine.new ≡ suspend hold (state_of S.content machine.old) }
{
    machine.hold = hold;
    machine.pc += 1;
}

/// Suspends until one of the alternatives is met.
fn wait_any<S: Store>(
    closed: Contacts,
    opened: Contacts,
    until: Option<DayFrame>,
    frames: Option<Frames>,
    machine: &mut Machine<S>,
)
    requires { machine.old.pc < 65535 }
    ensures { (plan : AnyPlan) → state_of S.content machine.new
        ≡ effect plan (WaitAny closed opened until frames) (state_of S.content machine.old) }
{
    let left = match frames {
        None => None,
        Some(frames) => Some(frames.get()),
    };
    let hold = Hold::WaitsAny {
        closed,
        opened,
        until,
        left,
    };
    suspend(hold, machine);
}

/// Commits the next configuration, for a swap after this delay.
fn commit_in<S: Store>(plan: &Plan, delay: Delay, machine: &mut Machine<S>)
    requires { machine.old.pc < 65535 }
    ensures { state_of S.content machine.new ≡ effect plan.now (CommitIn delay)
        (state_of S.content machine.old) }
{
    machine.committed = Some(machine.pc);
    machine.left = Some(left_in(plan.layout.mode().step(), machine.count, delay.get()));
    machine.pc += 1;
}

/// Commits the next configuration, for a swap at this CIF count.
fn commit_at<S: Store>(plan: &Plan, count: u16, machine: &mut Machine<S>)
    requires within { machine.old.pc < 65535 }
    requires count { count < COUNTS }
    ensures { state_of S.content machine.new ≡ effect plan.now (CommitAt count)
        (state_of S.content machine.old) }
{
    machine.committed = Some(machine.pc);
    machine.left = Some(left_at(machine.count, plan.notice, count));
    machine.pc += 1;
}

/// Waits for the swap if one is pending, and otherwise continues.
fn settle<S: Store>(machine: &mut Machine<S>)
    requires { machine.old.pc < 65535 }
    ensures { (plan : AnyPlan) → state_of S.content machine.new ≡ effect plan Settle
        (state_of S.content machine.old) }
{
    match machine.left {
        None => machine.pc += 1,
        Some(_) => suspend(Hold::WaitsSwap, machine),
    }
}

/// Ends the code: the machine never resumes.
fn end<S: Store>(machine: &mut Machine<S>)
    ensures { (plan : AnyPlan) → state_of S.content machine.new ≡ effect plan End
        (state_of S.content machine.old) }
{
    machine.hold = Hold::Ended;
}

/// Edits the next configuration.
fn edit<S: Store>(edit: Edit, machine: &mut Machine<S>)
    requires within { machine.old.pc < 65535 }
    requires fine { HasNoFault edit (S.content machine.old.next) }
    ensures { (plan : AnyPlan) → state_of S.content machine.new ≡ effect plan (Edits edit)
        (state_of S.content machine.old) }
{
    edit.apply_known(&mut machine.next);
    machine.pc += 1;
}

/// Continues if the contact is closed, and otherwise jumps to the target.
fn test<S: Store>(contact: ContactId, target: u16, machine: &mut Machine<S>)
    requires { machine.old.pc < 65535 }
    ensures { (plan : AnyPlan) → state_of S.content machine.new ≡ effect plan (Test contact target)
        (state_of S.content machine.old) }
{
    if machine.contacts.is_closed(contact) {
        machine.pc += 1;
    } else {
        machine.pc = target;
    }
}

/// The number of frames from a frame of the day to the next one that is `to`.
fn frames_until(from: DayFrame, to: u32) -> u32
    ensures { result ≡ frames_until from to }
{
    let later = u64::from(to) + u64::from(FRAMES_A_DAY - from.get());
    (later % u64::from(FRAMES_A_DAY)) as u32
}

/// Whether the frame of the day is in the window from `from` to `to`.
fn is_in_window(from: DayFrame, to: DayFrame, day: u32) -> bool
    ensures { result ≡ is_in_window from to day }
{
    frames_until(from, day) < frames_until(from, to.get())
}

/// Continues if the frame of the day is in the window, and otherwise jumps to the target.
fn test_time<S: Store>(from: DayFrame, to: DayFrame, target: u16, machine: &mut Machine<S>)
    requires { machine.old.pc < 65535 }
    ensures { (plan : AnyPlan) → state_of S.content machine.new
        ≡ effect plan (TestTime from to target) (state_of S.content machine.old) }
{
    if is_in_window(from, to, machine.day) {
        machine.pc += 1;
    } else {
        machine.pc = target;
    }
}

/// Jumps to the target.
fn jump<S: Store>(target: u16, machine: &mut Machine<S>)
    ensures { (plan : AnyPlan) → state_of S.content machine.new ≡ effect plan (Jump target)
        (state_of S.content machine.old) }
{
    machine.pc = target;
}

/// Sets a counter.
fn set<S: Store>(counter: CounterId, times: Times, machine: &mut Machine<S>)
    requires { machine.old.pc < 65535 }
    ensures { (plan : AnyPlan) → state_of S.content machine.new ≡ effect plan (Set counter times)
        (state_of S.content machine.old) }
{
    machine.counters[usize::from(counter.get())] = times.get();
    machine.pc += 1;
}

/// Decrements a counter, and jumps to the target if the result is not 0.
fn repeat<S: Store>(counter: CounterId, target: u16, machine: &mut Machine<S>)
    requires within { machine.old.pc < 65535 }
    requires set { IsCounterSet (state_of S.content machine.old) counter }
    ensures { (plan : AnyPlan) → state_of S.content machine.new
        ≡ effect plan (Loop counter target) (state_of S.content machine.old) }
{
    let place = usize::from(counter.get());
    let times = machine.counters[place];
    machine.counters[place] = times - 1;
    if 1 < times {
        machine.pc = target;
    } else {
        machine.pc += 1;
    }
}

/// Executes an instruction that doesn't trap, without testing for traps. Its pc is not the largest
/// `u16`, so that the next one exists.
pub(crate) fn carry_out<S: Store>(plan: &Plan, instr: Instr, machine: &mut Machine<S>)
    requires within { machine.old.pc < 65535 }
    requires allowed { IsAllowed plan.now instr (state_of S.content machine.old) }
    ensures { state_of S.content machine.new ≡ effect plan.now instr
        (state_of S.content machine.old) }
{
    match instr {
        Instr::Wait(frames) => suspend(Hold::Waits(frames.get()), machine),
        Instr::Until(frame) => suspend(Hold::WaitsDay(frame), machine),
        Instr::WaitContact { contact, closed } => {
            suspend(Hold::WaitsContact { contact, closed }, machine)
        }
        Instr::WaitAny {
            closed,
            opened,
            until,
            frames,
        } => wait_any(closed, opened, until, frames, machine),
        Instr::CommitIn(delay) => commit_in(plan, delay, machine),
        Instr::CommitAt(count) => commit_at(plan, count, machine),
        Instr::Join => suspend(Hold::WaitsSwap, machine),
        Instr::Settle => settle(machine),
        Instr::End => end(machine),
        Instr::Edit(change) => edit(change, machine),
        Instr::Test { contact, target } => test(contact, target, machine),
        Instr::TestTime { from, to, target } => test_time(from, to, target, machine),
        Instr::Jump(target) => jump(target, machine),
        Instr::Set { counter, times } => set(counter, times, machine),
        Instr::Loop { counter, target } => repeat(counter, target, machine),
    }
}
