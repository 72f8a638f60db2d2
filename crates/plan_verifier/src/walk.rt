//! The pass over a code: what is known at each instruction, and the first one that is refused.

ghost use Rattle.std.specs.Prelude.{◌≡◌, IfErr, OnOk, Ok, Err, Some, None, length};
ghost use Rattle.plan_code.specs.Program.{IsProgram, instr_at, label_at};
ghost use Rattle.plan_verifier.specs.Indexed.{IsTracked};
ghost use Rattle.plan_verifier.specs.Held.{known_of};
ghost use Rattle.plan_verifier.specs.Typing.{leaves, continues};
ghost use Rattle.plan_verifier.specs.Walking.{whole_cause, opening_known, known_at_pc, entered};
ghost use Rattle.plan_verifier.specs.Walking.{known_if_reached, known_cause, past_end, walk};
ghost use Rattle.plan_verifier.specs.Walking.{refusal_of, opening_cause, is_initial, unless};
ghost use Rattle.plan_verifier.specs.Walking.{PassesInstr, instr_or_end};

use crate::flow::{is_idle, is_same};
use crate::known::KnownState;
use crate::labels::{label_at, take, test_cost, test_entry};
use crate::properties::continues;
use crate::refusal::Refusal;
use crate::step::{instr_at, judge};
use crate::{Cause, Flow, TrackedFlow, test_opening};
use mux_config::Store;
use plan_code::{Code, Counters, Label, Swap};

/// Whether a code can start in this state: equal configurations, no pending swap and no counter
/// set.
fn is_initial<S: Store>(state: &KnownState<S>) -> bool
    ensures { result ≡ is_initial (known_of S.content state.now) }
{
    is_idle(state.tracked.flow.pending)
        && state.counters.0 == 0
        && is_same(&state.tracked.flow.current, &state.tracked.flow.next)
}

/// Checks that a code can start in the state of its first label. Refusals, in this order:
/// `Mismatch`, `Cost`, `Config` and `Round`.
fn test_first<S: Store>(code: &Code, label: &Label, state: &KnownState<S>) -> Result<(), Cause>
    ensures { result ≡ unless (opening_cause code.now label.now (known_of S.content state.now)) }
{
    if !is_initial(state) {
        return Err(Cause::Mismatch);
    }
    test_cost(code, label)?;
    test_opening(&code.plan(), &state.tracked.flow.current)
}

/// Sets up the state at the first instruction, or returns why the code is refused there.
fn open<S: Store>(code: &Code, state: &mut KnownState<S>) -> Result<(), Cause>
    requires { IsTracked S.content code.now.configurations state.old.tracked }
    ensures refused { IfErr result (λ cause. opening_known code.now (label_at code.now 0) ≡
        Err cause) }
    ensures known { OnOk result (opening_known code.now (label_at code.now 0) ≡ Ok
        (known_of S.content state.new)) }
    ensures tracked { OnOk result (IsTracked S.content code.now.configurations state.new.tracked) }
{
    match label_at(code, 0) {
        None => Err(Cause::Table),
        Some(label) => {
            take(code, &label, state);
            test_first(code, &label, state)
        }
    }
}

/// Updates the state at a later instruction, where `comes` says whether the preceding one continues
/// to it; or returns why the code is refused there.
fn enter<S: Store>(
    code: &Code,
    pc: u16,
    comes: bool,
    state: &mut KnownState<S>,
) -> Result<(), Cause>
    requires { IsTracked S.content code.now.configurations state.old.tracked }
    ensures refused { IfErr result (λ cause. known_at_pc code.now (label_at code.now pc)
        (known_if_reached comes (known_of S.content state.old)) ≡ Err cause) }
    ensures known { OnOk result (known_at_pc code.now (label_at code.now pc) (known_if_reached comes
        (known_of S.content state.old)) ≡ Ok (known_of S.content state.new)) }
    ensures tracked { OnOk result (IsTracked S.content code.now.configurations state.new.tracked) }
{
    match label_at(code, pc) {
        None => { if comes { Ok(()) } else { Err(Cause::Table) } }
        Some(label) => {
            if comes {
                test_entry(code, &label, state.allowance, state)?;
            }
            test_cost(code, &label)?;
            take(code, &label, state);
            Ok(())
        }
    }
}

/// Updates the state at an instruction, the first or a later one.
#[tactic(auto, using(crate::proofs::Stepping::entered_first, crate::proofs::Stepping::entered_later))]
fn enter_at<S: Store>(
    code: &Code,
    pc: u16,
    comes: bool,
    state: &mut KnownState<S>,
) -> Result<(), Cause>
    requires { IsTracked S.content code.now.configurations state.old.tracked }
    ensures refused { IfErr result (λ cause. entered code.now pc (known_if_reached comes
        (known_of S.content state.old)) ≡ Err cause) }
    ensures known { OnOk result (entered code.now pc (known_if_reached comes
        (known_of S.content state.old)) ≡ Ok (known_of S.content state.new)) }
    ensures tracked { OnOk result (IsTracked S.content code.now.configurations state.new.tracked) }
{
    if pc == 0 {
        return open(code, state);
    }
    enter(code, pc, comes, state)
}

/// Checks the instruction at a pc of the code, and updates the known state.
fn visit<S: Store>(
    code: &Code,
    pc: u16,
    comes: bool,
    state: &mut KnownState<S>,
) -> Result<(), Cause>
    requires { IsTracked S.content code.now.configurations state.old.tracked }
    ensures refused { IfErr result (λ cause. whole_cause
        (entered code.now pc (known_if_reached comes (known_of S.content state.old)))
        (known_cause code.now pc (instr_or_end (instr_at code.now pc))) ≡ Some cause) }
    ensures passed { OnOk result (PassesInstr code.now pc (instr_or_end (instr_at code.now pc))
        (known_if_reached comes (known_of S.content state.old)) (known_of S.content state.new)) }
    ensures tracked { OnOk result (IsTracked S.content code.now.configurations state.new.tracked) }
{
    match enter_at(code, pc, comes, state) {
        Err(cause) => Err(cause),
        Ok(()) => judge(code, pc, state),
    }
}

/// The refusal of the first label at or past the end of the code, if there is one.
fn past_end(code: &Code) -> Option<Refusal>
    ensures { result ≡ past_end code.now }
{
    let end = code.lines().len();
    for label in code.labels() {
        if end <= usize::from(label.pc) {
            return Some(Refusal {
                pc: label.pc,
                cause: Cause::Table,
            });
        }
    }
    None
}

/// The number of instructions, 1 to 4,096.
fn count(code: &Code) -> u16
    ensures value { result ≡ length code.now.lines }
    ensures formed { IsProgram code.now }
{
    let lines = code.lines();
    lines.len() as u16
}

/// The first instruction that is refused, with its cause, if there is one.
pub(crate) fn refusal<S: Store>(code: &Code) -> Option<Refusal>
    ensures value { result ≡ refusal_of code.now }
    ensures formed { IsProgram code.now }
{
    let mut state = KnownState {
        tracked: TrackedFlow::new(Flow {
            current: S::empty(),
            next: S::empty(),
            pending: Swap::Idle,
        }),
        counters: Counters(0),
        allowance: 0,
    };
    let mut comes = false;
    for pc in 0..count(code) {
        match visit(code, pc, comes, &mut state) {
            Err(cause) => return Some(Refusal { pc, cause }),
            Ok(()) => {}
        }
        comes = continues(instr_at(code, pc));
    }
    past_end(code)
}
