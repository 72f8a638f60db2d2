//! Printing waits, moments of the day, and the conditions of `if`.

ghost use Rattle.std.specs.Prelude.{◌≡◌, ◌++◌, ◌∷◌, ◌<◌, OnOk, string_bytes};
ghost use Rattle.script_tokens.specs.Spelling.{two_digits, time_text};
ghost use Rattle.script_front.specs.declared.alternatives.Alternative.TheVariants.{Contact as OfContact};
ghost use Rattle.script_front.specs.declared.tree.Condition.TheVariants.{Time};
ghost use Rattle.script_front.specs.Spelled.{moment_lexemes, alternative_lexemes, or_lexemes};
ghost use Rattle.script_front.specs.Spelled.{alternatives_lexemes, condition_lexemes};
ghost use Rattle.script_front.specs.Printing.{each_after};

use crate::alternatives::{Alternative, Alternatives};
use crate::moment::{Moment, MomentForm};
use crate::tree::Condition;
use plan_code::ContactId;
use script_tokens::time::TimeOfDay;
use std::alloc::AllocError;
use std::fmt::Write;

/// Two decimal digits.
#[tactic(auto, using(crate::proofs::Printed::digit))]
fn put_two(out: &mut String, number: u32) -> Result<(), AllocError>
    requires { number < 100 }
    ensures { OnOk result (string_bytes out.new ≡ string_bytes out.old ++ two_digits number) }
{
    let tens = number / 10;
    let ones = number % 10;
    write!(out, "{tens}{ones}")
}

/// A time of day, `HH:MM:SS`.
fn put_time(out: &mut String, time: TimeOfDay) -> Result<(), AllocError>
    ensures { OnOk result (string_bytes out.new ≡ string_bytes out.old ++ time_text time) }
{
    let seconds = time.seconds();
    put_two(out, seconds / 3600)?;
    out.push_str(":")?;
    put_two(out, seconds / 60 % 60)?;
    out.push_str(":")?;
    put_two(out, seconds % 60)?;
    Ok(())
}

/// A space, then `TIME`.
fn put_after_space(out: &mut String, time: TimeOfDay) -> Result<(), AllocError>
    ensures { OnOk result (string_bytes out.new ≡ string_bytes out.old ++ (32 ∷ time_text time)) }
{
    out.push_str(" ")?;
    put_time(out, time)?;
    Ok(())
}

/// A space, then `TIME` or `TIME early N`.
#[tactic(auto, using(crate::proofs::PrintedWaits::at_put, crate::proofs::PrintedWaits::early_put))]
pub(crate) fn put_moment(out: &mut String, moment: Moment) -> Result<(), AllocError>
    ensures { OnOk result (string_bytes out.new ≡ string_bytes out.old ++ each_after
        (moment_lexemes moment)) }
{
    match moment.form() {
        MomentForm::At(time) => put_after_space(out, time),
        MomentForm::Early { time, frames } => {
            let frames = frames.get();
            put_after_space(out, time)?;
            write!(out, " early {frames}")
        }
    }
}

/// A space, then `contact C closed` or `open`.
///
/// # Errors
///
/// If memory runs out.
#[tactic(auto, unfolding(script_tokens::specs::Keywords::letters))]
pub fn put_contact(out: &mut String, contact: ContactId, closed: bool) -> Result<(), AllocError>
    ensures { OnOk result (string_bytes out.new ≡ string_bytes out.old ++ each_after
        (alternative_lexemes (OfContact contact closed))) }
{
    let contact = contact.get();
    if closed {
        write!(out, " contact {contact} closed")
    } else {
        write!(out, " contact {contact} open")
    }
}

/// A space, then an alternative of a `wait`.
#[tactic(auto, unfolding(script_tokens::specs::Keywords::letters), using(crate::proofs::PrintedWaits::moment_alternative_put))]
fn put_alternative(out: &mut String, alternative: Alternative) -> Result<(), AllocError>
    ensures { OnOk result (string_bytes out.new ≡ string_bytes out.old ++ each_after
        (alternative_lexemes alternative)) }
{
    match alternative {
        Alternative::Contact { contact, closed } => put_contact(out, contact, closed),
        Alternative::Until(moment) => {
            out.push_str(" until")?;
            put_moment(out, moment)?;
            Ok(())
        }
        Alternative::Frames(frames) => {
            let frames = frames.get();
            write!(out, " {frames}")
        }
    }
}

/// Alternatives, each after `or`.
#[tactic(auto, using(crate::proofs::PrintedWaits::or_more, crate::proofs::PrintedWaits::or_all))]
fn put_each_or(out: &mut String, alternatives: &[Alternative]) -> Result<(), AllocError>
    ensures { OnOk result (string_bytes out.new ≡ string_bytes out.old ++ each_after (or_lexemes
        alternatives.now)) }
{
    for alternative in alternatives {
        out.push_str(" or")?;
        put_alternative(out, *alternative)?;
    }
    Ok(())
}

/// The alternatives of a `wait` in their order, with `or` between each two.
#[tactic(auto, using(crate::proofs::PrintedWaits::alternatives_put))]
pub(crate) fn put_alternatives(
    out: &mut String,
    alternatives: &Alternatives,
) -> Result<(), AllocError>
    ensures { OnOk result (string_bytes out.new ≡ string_bytes out.old ++ each_after
        (alternatives_lexemes alternatives.now)) }
{
    match alternatives.as_slice() {
        [] => Ok(()),
        [first, others @ ..] => {
            put_alternative(out, *first)?;
            put_each_or(out, others)?;
            Ok(())
        }
    }
}

/// A space, then `time A to B`.
///
/// # Errors
///
/// If memory runs out.
#[tactic(auto, using(crate::proofs::PrintedWaits::window_put))]
pub fn put_window(out: &mut String, from: TimeOfDay, to: TimeOfDay) -> Result<(), AllocError>
    ensures { OnOk result (string_bytes out.new ≡ string_bytes out.old ++ each_after
        (condition_lexemes (Time from to))) }
{
    out.push_str(" time ")?;
    put_time(out, from)?;
    out.push_str(" to ")?;
    put_time(out, to)?;
    Ok(())
}

/// A space, then the condition of an `if`.
#[tactic(auto, unfolding(script_tokens::specs::Keywords::letters))]
pub(crate) fn put_condition(out: &mut String, condition: Condition) -> Result<(), AllocError>
    ensures { OnOk result (string_bytes out.new ≡ string_bytes out.old ++ each_after
        (condition_lexemes condition)) }
{
    match condition {
        Condition::Contact(contact) => {
            let contact = contact.get();
            write!(out, " contact {contact}")
        }
        Condition::Time { from, to } => put_window(out, from, to),
    }
}
