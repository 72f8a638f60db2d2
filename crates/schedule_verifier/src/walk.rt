//! The instructions from a top of a code to where it is suspended, as far as a region decides them.

ghost use Rattle.std.specs.Prelude.{◌≡◌, ◌<◌, IsTrue, Some};
ghost use Rattle.plan_code.specs.Program.{Program, instr_at};
ghost use Rattle.mux_config.specs.Edits.{changed};
ghost use Rattle.schedule_verifier.specs.Walks.{branch_of, Passes, WalksTo};

use crate::conditions::{level, window};
use crate::region::{Answer, Question, Region};
use mux_config::{Config, Edit};
use plan_code::limits::MOST_INSTRUCTIONS;
use plan_code::{Code, Instr};

/// Where an instruction leads to.
#[derive(Clone, Copy, Debug, PartialEq, Eq)]
pub(crate) enum Step {
    /// To this pc, in the same frame.
    To(u16),
    /// Nowhere else: the instruction at this pc commits, waits or ends.
    Leaf(u16),
    /// This is to be known first.
    Ask(Question),
    /// Nowhere: an edit has a fault, the instruction is one of another kind, there is none, or
    /// there were too many.
    Fails,
}

/// The most tests, jumps and edits before a commit, a wait or an end: those of a frame.
const MOST_STEPS: u16 = 255;

/// Where a test leads to.
fn branch(answer: Answer, pc: u16, target: u16) -> Step
    requires { pc < 4096 }
    ensures { result ≡ branch_of answer pc target }
{
    match answer {
        Answer::Yes => Step::To(pc + 1),
        Answer::No => Step::To(target),
        Answer::Ask(question) => Step::Ask(question),
    }
}

/// Applies an edit; false where it has a fault.
pub(crate) fn apply(edit: Edit, config: &mut Config) -> bool
    ensures { IsTrue result → config.new ≡ changed edit config.old }
{
    match edit.apply(config) {
        Ok(()) => true,
        Err(_fault) => false,
    }
}

/// Where an instruction at a pc leads to in a region; an edit changes the next configuration.
fn pass(instr: Instr, region: &Region, pc: u16, next: &mut Config) -> Step
    requires { pc < 4096 }
    ensures { (code : Program) → instr_at code pc ≡ Some instr
        → Passes code region.now pc next.old result next.new }
{
    match instr {
        Instr::Test { contact, target } => branch(level(region, contact, true), pc, target),
        Instr::TestTime { from, to, target } => branch(window(region, from, to), pc, target),
        Instr::Jump(target) => Step::To(target),
        Instr::Edit(edit) => {
            if apply(edit, next) {
                Step::To(pc + 1)
            } else {
                Step::Fails
            }
        }
        Instr::CommitIn(_) | Instr::WaitAny { .. } | Instr::End => Step::Leaf(pc),
        Instr::Wait(_) | Instr::Until(_) | Instr::WaitContact { .. } => Step::Fails,
        Instr::CommitAt(_) | Instr::Join | Instr::Settle => Step::Fails,
        Instr::Set { .. } | Instr::Loop { .. } => Step::Fails,
    }
}

/// Where the instruction at a pc leads to in a region; an edit changes the next configuration.
fn advance(code: &Code, region: &Region, pc: u16, next: &mut Config) -> Step
    ensures { Passes code.now region.now pc next.old result next.new }
{
    if pc >= MOST_INSTRUCTIONS {
        return Step::Fails;
    }
    match code.instr(pc) {
        Some(instr) => pass(instr, region, pc, next),
        None => Step::Fails,
    }
}

/// Where the instructions from a top on lead to in a region; `Leaf` with the next configuration
/// there, or `Ask`, or `Fails`.
pub(crate) fn walk(code: &Code, region: &Region, top: u16, next: &mut Config) -> Step
    ensures { WalksTo code.now region.now top next.old result next.new }
{
    let mut pc = top;
    'steps: for _step in 0..MOST_STEPS {
        match advance(code, region, pc, next) {
            Step::To(to) => pc = to,
            Step::Leaf(at) => return Step::Leaf(at),
            Step::Ask(question) => return Step::Ask(question),
            Step::Fails => return Step::Fails,
        }
    }
    Step::Fails
}
