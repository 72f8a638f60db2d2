//! The warnings about a script and its code.

ghost use Rattle.std.specs.Prelude.{◌≡◌, ◌↔◌, ◌++◌, List, IfOk, OnOk, Contains, map};
ghost use Rattle.plan_verifier.specs.Typing.{Known, IsTyped, IsTyping};
ghost use Rattle.plan_explain.specs.declared.warning.Warning.TheVariants.{Unreached as IsNotReached};
ghost use Rattle.plan_explain.specs.Listed.{at_wait, warnings};
ghost use Rattle.plan_explain.specs.Repeats.{AreApart};
ghost use Rattle.plan_explain.specs.Warnings.{IsWarranted};

use crate::beginning::{FirstWait, first_wait};
use crate::blocks::unreached;
use crate::changes::{push_commits, push_opening};
use crate::day_trap::push_traps;
use crate::list::push;
use crate::once::each_once;
use crate::straight::push_straight;
use crate::warning::Warning;
use plan_code::Code;
use script_front::Script;
use std::alloc::{AllocError, Global};

/// Appends the first wait of a code, if it waits for a time of day.
fn push_wait(found: &mut Vec<Warning>, wait: Option<FirstWait>) -> Result<(), AllocError>
    ensures { OnOk result (found.new.items ≡ found.old.items ++ at_wait wait) }
{
    match wait {
        None => Ok(()),
        Some(wait) => push(found, Warning::WaitsForTime(wait)),
    }
}

/// Appends lines that no path reaches.
fn push_unreached(found: &mut Vec<Warning>, lines: &[u16]) -> Result<(), AllocError>
    ensures { OnOk result (found.new.items ≡ found.old.items ++ map IsNotReached lines.now) }
{
    for line in lines {
        push(found, Warning::Unreached(*line))?;
    }
    Ok(())
}

/// The warnings about a script and its code, in the order of its configurations, as a list.
fn all_warnings(alloc: Global, script: &Script, code: &Code) -> Result<Vec<Warning>, AllocError>
    ensures { IfOk result (λ v. (typing : List Known) → IsTyping code.now typing
        → v.items ≡ warnings script.now code.now typing) }
{
    let mut found = Vec::new(alloc);
    push_opening(alloc, &mut found, script.begin_line(), code)?;
    push_commits(alloc, &mut found, code)?;
    push_wait(&mut found, first_wait(code.lines()))?;
    let lines = unreached(alloc, code.lines(), script.blocks())?;
    push_unreached(&mut found, lines.as_slice())?;
    push_traps(&mut found, code.lines())?;
    push_straight(&mut found, script)?;
    Ok(found)
}

/// The warnings about a script and its code, which is typed: those that are true, and no other
/// ones, each once. First those of the opening, then of each commit in the order of the code, then
/// the others.
///
/// # Errors
///
/// Out of memory.
pub fn warnings_of(alloc: Global, script: &Script, code: &Code) -> Result<Vec<Warning>, AllocError>
    requires { IsTyped code.now }
    ensures each { IfOk result (λ v. (w : Warning) → Contains v.items w
        ↔ IsWarranted script.now code.now w) }
    ensures apart { IfOk result (λ v. AreApart v.items) }
{
    let found = all_warnings(alloc, script, code)?;
    each_once(alloc, found.as_slice())
}
