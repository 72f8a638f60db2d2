//! What is to be said of the configurations of a code.

ghost use Rattle.std.specs.Prelude.{◌≡◌, ◌++◌, [], List, OnOk, map};
ghost use Rattle.std.specs.List.{flat_map};
ghost use Rattle.plan_verifier.specs.Rules.{IsFine, leaves};
ghost use Rattle.plan_verifier.specs.Flows.{flow_of};
ghost use Rattle.plan_verifier.specs.Typing.{Known, IsTyping};
ghost use Rattle.plan_explain.specs.declared.warning.Warning.TheVariants.{Flawed, OtherPrimary};
ghost use Rattle.plan_explain.specs.Flaws.{unless_among};
ghost use Rattle.plan_explain.specs.ConfigurationChanges.{between, at_commits, at_opening};
ghost use Rattle.plan_explain.specs.Walking.{entered, at_flow};

use crate::flaw::{Flaw, flaws_of, is_among};
use crate::list::push;
use crate::primary::{Primary, primaries_of};
use crate::warning::Warning;
use mux_config::Config;
use plan_code::{Code, Instr, Line, Plan, Swap};
use plan_verifier::Flow;
use plan_verifier::properties::commits;
use std::alloc::{AllocError, Global};

/// Appends a flaw in a line, unless it is among others.
fn push_flaw(
    found: &mut Vec<Warning>,
    line: u16,
    others: &[Flaw],
    flaw: &Flaw,
) -> Result<(), AllocError>
    ensures { OnOk result (found.new.items ≡ found.old.items ++ map (Flawed line)
        (unless_among others.now flaw.now)) }
{
    if is_among(others, flaw) {
        return Ok(());
    }
    push(found, Warning::Flawed(line, *flaw))
}

/// Appends those of some flaws in a line that are not among others.
fn push_flaws(
    found: &mut Vec<Warning>,
    line: u16,
    others: &[Flaw],
    flaws: &[Flaw],
) -> Result<(), AllocError>
    ensures { OnOk result (found.new.items ≡ found.old.items ++ map (Flawed line)
        (flat_map (unless_among others.now) flaws.now)) }
{
    for flaw in flaws {
        push_flaw(found, line, others, flaw)?;
    }
    Ok(())
}

/// Appends the other primary components in a line.
fn push_primaries(
    found: &mut Vec<Warning>,
    line: u16,
    primaries: &[Primary],
) -> Result<(), AllocError>
    ensures { OnOk result (found.new.items ≡ found.old.items ++ map (OtherPrimary line)
        primaries.now) }
{
    for primary in primaries {
        push(found, Warning::OtherPrimary(line, *primary))?;
    }
    Ok(())
}

/// Appends what is to be said of a configuration that comes in a line in the place of another one.
fn push_between(
    alloc: Global,
    found: &mut Vec<Warning>,
    line: u16,
    before: &Config,
    after: &Config,
) -> Result<(), AllocError>
    ensures { OnOk result (found.new.items ≡ found.old.items ++ between line before.now after.now) }
{
    let others = flaws_of(alloc, before)?;
    let flaws = flaws_of(alloc, after)?;
    push_flaws(found, line, others.as_slice(), flaws.as_slice())?;
    let primaries = primaries_of(alloc, before, after)?;
    push_primaries(found, line, primaries.as_slice())
}

/// What is known at a pc of a code, given what the instruction before left: what a label there
/// declares, if there is one.
pub(crate) fn enter(code: &Code, pc: u16, flow: &mut Flow<Config>)
    ensures { flow.new ≡ entered code.now pc flow.old }
{
    let Some(label) = code.label_at(pc) else {
        return;
    };
    if let Some(current) = code.config(label.cur) {
        flow.current.copy_from(current);
    }
    if let Some(next) = code.config(label.next) {
        flow.next.copy_from(next);
    }
    flow.pending = label.pending;
}

/// What is known after an instruction that can't be refused.
fn pass(plan: &Plan, instr: Instr, flow: &mut Flow<Config>)
    ensures { (t : Known) → flow.old ≡ flow_of t → IsFine plan.now instr t
        → flow.new ≡ flow_of (leaves plan.now instr t) }
{
    let _ = flow.apply(plan, instr);
}

/// Appends what is to be said of the configuration that an instruction commits, if it does.
fn push_commit(
    alloc: Global,
    found: &mut Vec<Warning>,
    line: &Line,
    flow: &Flow<Config>,
) -> Result<(), AllocError>
    ensures { OnOk result (found.new.items ≡ found.old.items ++ at_flow line.now flow.now) }
{
    if commits(line.instr) {
        return push_between(alloc, found, line.number, &flow.current, &flow.next);
    }
    Ok(())
}

/// What is known before the first instruction: nothing.
pub(crate) fn unknown() -> Flow<Config> {
    Flow {
        current: Config::new(),
        next: Config::new(),
        pending: Swap::Idle,
    }
}

/// Appends what is to be said of the configuration that a plan begins with, in the line of `begin`.
#[tactic(auto, using(crate::proofs::Known::opened))]
pub(crate) fn push_opening(
    alloc: Global,
    found: &mut Vec<Warning>,
    begin: u16,
    code: &Code,
) -> Result<(), AllocError>
    ensures { OnOk result ((typing : List Known) → IsTyping code.now typing
        → found.new.items ≡ found.old.items ++ at_opening begin typing) }
{
    let mut flow = unknown();
    enter(code, 0, &mut flow);
    push_between(alloc, found, begin, &Config::new(), &flow.current)
}

/// Appends what is to be said of the configurations that a code commits.
pub(crate) fn push_commits(
    alloc: Global,
    found: &mut Vec<Warning>,
    code: &Code,
) -> Result<(), AllocError>
    ensures { let p = code.now in OnOk result ((typing : List Known) → IsTyping p typing
        → found.new.items ≡ found.old.items ++ at_commits p.lines typing) }
{
    let plan = code.plan();
    let mut flow = unknown();
    let mut pc = 0u16;
    for line in code.lines() {
        enter(code, pc, &mut flow);
        push_commit(alloc, found, line, &flow)?;
        pass(&plan, line.instr, &mut flow);
        pc += 1;
    }
    Ok(())
}
