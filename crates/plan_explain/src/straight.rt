//! Warnings about statements in a row: `until` directly behind `wait contact`, and for a time that
//! is past.

ghost use Rattle.std.specs.Prelude.{◌≡◌, ◌++◌, [], Some, None, OnOk, map};
ghost use Rattle.std.specs.List.{flat_map};
ghost use Rattle.script_front.specs.Block.{Block, before};
ghost use Rattle.plan_explain.specs.LateUntils.{contact_wait};
ghost use Rattle.plan_explain.specs.Straight.{way_behind, late_of, day_of, at_until, at_act};
ghost use Rattle.plan_explain.specs.Straight.{straight_from, straight_in, straight_warnings};

use crate::day_wait::{DayWait, comes_late, further, new_way, time_of};
use crate::late_until::{LateUntil, contact_wait};
use crate::list::push;
use crate::warning::Warning;
use plan_code::{ContactId, DayFrame};
use script_front::{Act, Moment, Script, Statement};
use std::alloc::{AllocError, Global};

/// A wait for a contact.
#[derive(Clone, Copy)]
pub struct ContactWait {
    /// The contact.
    pub contact: ContactId,
    /// Whether it is awaited closed, or else open.
    pub closed: bool,
}

/// How far a plan is at least behind a wait for a time of day.
#[derive(Clone, Copy, PartialEq, Eq)]
pub struct Way {
    /// The frame of the day for which it waits.
    pub from: DayFrame,
    /// How many frames have passed since at least, a day at most.
    pub frames: u32,
    /// How many frames after `from` the swap of the last commit comes at least, if it is a `commit
    /// in` behind `from`.
    pub swap: Option<u32>,
}

/// The way behind an act.
fn way_behind(way: Option<Way>, act: &Act) -> Option<Way>
    ensures { result ≡ way_behind way act.now }
{
    match time_of(act) {
        Some(from) => Some(new_way(from)),
        None => match way {
            Some(way) => Some(further(way, act)),
            None => None,
        },
    }
}

/// Appends an `until` in a line, if it is directly behind this wait.
fn push_late(
    found: &mut Vec<Warning>,
    wait: Option<ContactWait>,
    line: u16,
    until: &Moment,
) -> Result<(), AllocError>
    ensures { OnOk result (found.new.items ≡ found.old.items ++ late_of wait line until.now) }
{
    match wait {
        None => Ok(()),
        Some(ContactWait { contact, closed }) => push(
            found,
            Warning::Late(LateUntil {
                line,
                contact,
                closed,
                until: *until,
            }),
        ),
    }
}

/// Appends an `until` in a line, if it comes late on this way.
fn push_day(
    found: &mut Vec<Warning>,
    way: &Way,
    line: u16,
    until: &Moment,
) -> Result<(), AllocError>
    ensures { OnOk result (found.new.items ≡ found.old.items
        ++ day_of (Some way.now) line until.now) }
{
    if !comes_late(way, until) {
        return Ok(());
    }
    push(
        found,
        Warning::NextDay(DayWait {
            line,
            until: *until,
            way: *way,
        }),
    )
}

/// Appends the warnings about an `until` in a line, directly behind this wait, if it is one, and on
/// this way.
fn push_until(
    found: &mut Vec<Warning>,
    wait: &Option<ContactWait>,
    way: &Option<Way>,
    line: u16,
    until: &Moment,
) -> Result<(), AllocError>
    ensures { OnOk result (found.new.items ≡ found.old.items
        ++ at_until (record { wait = wait.now; way = way.now }) line until.now) }
{
    push_late(found, *wait, line, until)?;
    match way {
        None => Ok(()),
        Some(way) => push_day(found, way, line, until),
    }
}

/// Appends the warnings about an act in a line.
fn push_act(
    found: &mut Vec<Warning>,
    wait: &Option<ContactWait>,
    way: &Option<Way>,
    line: u16,
    act: &Act,
) -> Result<(), AllocError>
    ensures { OnOk result (found.new.items ≡ found.old.items
        ++ at_act (record { wait = wait.now; way = way.now }) line act.now) }
{
    match act {
        Act::Until(until) => push_until(found, wait, way, line, until),
        _ => Ok(()),
    }
}

/// Goes on behind an act.
fn pass(wait: &mut Option<ContactWait>, way: &mut Option<Way>, act: &Act)
    ensures wait { wait.new ≡ contact_wait act.now }
    ensures way { way.new ≡ way_behind way.old act.now }
{
    *wait = contact_wait(act);
    *way = way_behind(*way, act);
}

/// Goes on behind a statement that is no act: nothing leads there straight.
fn forget(wait: &mut Option<ContactWait>, way: &mut Option<Way>)
    ensures wait { wait.new ≡ None }
    ensures way { way.new ≡ None }
{
    *wait = None;
    *way = None;
}

/// Appends the warnings about a statement, directly behind this wait, if it is one, and on this
/// way; both then lead to the next one.
#[cycle(straight)]
fn push_statement(
    found: &mut Vec<Warning>,
    wait: &mut Option<ContactWait>,
    way: &mut Option<Way>,
    statement: &Statement,
) -> Result<(), AllocError>
    ensures { OnOk result ((rest : Block)
        → found.new.items ++ straight_from (record { wait = wait.new; way = way.new }) rest
        ≡ found.old.items ++ straight_from (record {
          wait = wait.old;
          way = way.old;
        }) (before [] statement.now rest)) }
{
    match statement {
        Statement::Act { line, act } => {
            push_act(found, wait, way, *line, act)?;
            pass(wait, way, act);
            return Ok(());
        }
        Statement::End { .. } => {}
        Statement::If { first, .. } => push_statements(found, first.as_slice())?,
        Statement::IfElse { first, second, .. } => {
            push_statements(found, first.as_slice())?;
            push_statements(found, second.as_slice())?;
        }
        Statement::Repeat { body, .. } => push_statements(found, body.as_slice())?,
        Statement::Forever { body, .. } => push_statements(found, body.as_slice())?,
        Statement::Apply { .. } => {}
    }
    forget(wait, way);
    Ok(())
}

/// Appends the warnings about a list of statements.
#[cycle(straight)]
fn push_statements(found: &mut Vec<Warning>, statements: &[Statement]) -> Result<(), AllocError>
    ensures { OnOk result (found.new.items ≡ found.old.items ++ straight_in statements.now) }
{
    let mut wait = None;
    let mut way = None;
    for statement in statements {
        push_statement(found, &mut wait, &mut way, statement)?;
    }
    Ok(())
}

/// Appends the warnings about defined blocks.
fn push_blocks(found: &mut Vec<Warning>, blocks: &[Vec<Statement>]) -> Result<(), AllocError>
    ensures { OnOk result (found.new.items ≡ found.old.items
        ++ flat_map straight_in (map (λ b. b.items) blocks.now)) }
{
    for block in blocks {
        push_statements(found, block.as_slice())?;
    }
    Ok(())
}

/// Appends those about a script: its blocks, then its statements.
pub(crate) fn push_straight(found: &mut Vec<Warning>, script: &Script) -> Result<(), AllocError>
    ensures { OnOk result (found.new.items ≡ found.old.items ++ straight_warnings script.now) }
{
    push_blocks(found, script.blocks())?;
    push_statements(found, script.statements())
}
