//! Makes the plan that turns one configuration into another.

ghost use Rattle.std.specs.Prelude.{◌≡◌, ◌≤◌, ◌++◌, ◌∷◌, [], length, OnOk, IfOk};
ghost use Rattle.mux_config.specs.Configuration.{nothing};
ghost use Rattle.script_config.specs.Making.{edits_that_make};
ghost use Rattle.script_config.specs.Sequences.{Transform};
ghost use Rattle.script_front.specs.declared.tree.Act.TheVariants as act;
ghost use Rattle.script_front.specs.Alike.{added_by};
ghost use Rattle.plan_code.specs.Program.{IsPlan};
ghost use Rattle.script_config.specs.Plain.{IsPlain};
ghost use Rattle.script_config.specs.Frames.{FitFrames, edits_in};
ghost use Rattle.script_config.specs.Plan.{pause_after, paced, plan_acts};

use crate::edits_between;
use crate::list::put;
use crate::plain::script_of;
use mux_config::{Config, Edit};
use plan_code::{Delay, Frames, Plan};
use script_front::{Act, Script};
use std::alloc::{AllocError, Global};

/// Appends an edit and, if it fills its frame, a wait for the next frame.
fn put_edit(acts: &mut Vec<Act>, full: u16, number: u16, edit: Edit) -> Result<(), AllocError>
    requires { 1 ≤ full }
    ensures { OnOk result (acts.new.items ≡ acts.old.items
        ++ act.Edit edit ∷ pause_after full number) }
{
    put(acts, Act::Edit(edit))?;
    if number % full == 0 {
        put(acts, Act::Wait(Frames::new(1).unwrap()))?;
    }
    Ok(())
}

/// The edits as acts, paced so that each frame has at most `full` of them.
fn paced(alloc: Global, full: u16, edits: &[Edit]) -> Result<Vec<Act>, AllocError>
    requires full { 1 ≤ full }
    requires few { length edits.now ≤ 2048 }
    ensures { IfOk result (λ v. v.items ≡ paced full 1 edits.now) }
{
    let mut acts = Vec::new(alloc);
    let mut number = 1;
    for edit in edits {
        put_edit(&mut acts, full, number, *edit)?;
        number += 1;
    }
    Ok(acts)
}

/// The acts of the plan that turns one configuration into another: the edits between them, paced so
/// that each frame has at most the budget less one of them and a wait, a commit with the notice of
/// the header, and `join`.
pub fn acts_between(
    alloc: Global,
    header: Plan,
    from: &Config,
    to: &Config,
) -> Result<Vec<Act>, AllocError>
    requires headed { IsPlan header }
    requires room { 2 ≤ header.budget }
    ensures { IfOk result (λ v. v.items ≡ plan_acts header from.now to.now) }
{
    let edits = edits_between(alloc, from, to)?;
    let full = u16::from(header.budget) - 1;
    let mut acts = paced(alloc, full, edits.as_slice())?;
    let notice = Delay::new(u16::from(header.notice)).unwrap();
    put(&mut acts, Act::CommitIn(notice))?;
    put(&mut acts, Act::Join)?;
    Ok(acts)
}

/// The plan with this header that turns one configuration into the other by one reconfiguration:
/// the edits between them in order, a commit with the header's notice, and `join`. A `wait 1`
/// follows each edit whose number, counted from 1, is a multiple of the budget less one, so that no
/// frame has more instructions than the budget.
pub fn plan_between(
    alloc: Global,
    header: Plan,
    from: &Config,
    to: &Config,
) -> Result<Script, AllocError>
    requires headed { IsPlan header }
    requires room { 2 ≤ header.budget }
    ensures plain { IfOk result (λ s. IsPlain header (edits_that_make from.now)
        (plan_acts header from.now to.now) s) }
    ensures begins { IfOk result (λ s. Transform (added_by s.items) nothing from.now) }
    ensures leads { Transform (edits_in (plan_acts header from.now to.now)) from.now to.now }
    ensures frames { FitFrames header.budget header.budget (plan_acts header from.now to.now) }
{
    mux_eep::laws::sizes();
    crate::laws::transforming();
    from.subs();
    to.subs();
    let acts = acts_between(alloc, header, from, to)?;
    script_of(alloc, header, from, acts.as_slice())
}
