//! Warnings without their repetitions: a block that is applied twice has its commits twice in the
//! code.

ghost use Rattle.std.specs.Prelude.{◌≡◌, ◌↔◌, IfOk, OnOk, IsTrue, Contains};
ghost use Rattle.plan_explain.specs.Repeats.{AreEachOnce, Joins};

use crate::list::push;
use crate::primary::Primary;
use crate::warning::Warning;
use std::alloc::{AllocError, Global};

/// Whether two changes of a primary component are the same.
fn is_same_primary(one: &Primary, other: &Primary) -> bool
    ensures { IsTrue result ↔ (one.now ≡ other.now) }
{
    one.sid == other.sid && one.before == other.before && one.after == other.after
}

/// Whether two warnings are the same.
fn is_same(one: &Warning, other: &Warning) -> bool
    ensures { IsTrue result ↔ (one.now ≡ other.now) }
{
    match (one, other) {
        (Warning::Flawed(m, f), Warning::Flawed(n, g)) => *m == *n && *f == *g,
        (Warning::OtherPrimary(m, p), Warning::OtherPrimary(n, q)) => {
            *m == *n && is_same_primary(p, q)
        }
        (Warning::WaitsForTime(a), Warning::WaitsForTime(b)) => *a == *b,
        (Warning::Unreached(m), Warning::Unreached(n)) => *m == *n,
        (Warning::Late(a), Warning::Late(b)) => *a == *b,
        (Warning::NextDay(a), Warning::NextDay(b)) => *a == *b,
        (Warning::Trapped(a), Warning::Trapped(b)) => *a == *b,
        _ => false,
    }
}

/// Whether a warning is among others.
fn is_among(others: &[Warning], warning: &Warning) -> bool
    ensures { IsTrue result ↔ Contains others.now warning.now }
{
    others.iter().any(|other| is_same(other, warning))
}

/// Appends a warning, unless it is among them.
fn push_new(kept: &mut Vec<Warning>, warning: &Warning) -> Result<(), AllocError>
    ensures { OnOk result (Joins kept.old.items warning.now kept.new.items) }
{
    if is_among(kept.as_slice(), warning) {
        return Ok(());
    }
    push(kept, *warning)
}

/// Warnings in their order, each where it is first.
pub(crate) fn each_once(alloc: Global, found: &[Warning]) -> Result<Vec<Warning>, AllocError>
    ensures { IfOk result (λ v. AreEachOnce found.now v.items) }
{
    let mut kept = Vec::new(alloc);
    for warning in found {
        push_new(&mut kept, warning)?;
    }
    Ok(kept)
}
