//! Parsing waits, moments of the day, and the conditions of `if`.

ghost use Rattle.std.specs.Prelude.{◌≡◌, ◌≤◌, ◌+◌, ◌∷◌, [], length, drop, true, IfOk};
ghost use Rattle.script_tokens.specs.Reading.{Takes, is_next};
ghost use Rattle.script_tokens.specs.declared.keyword.Keyword.TheVariants as the;
ghost use Rattle.script_front.specs.Waits.{may_follow};
ghost use Rattle.script_front.specs.Readers.{moment_at, allowed_at, alternatives_from, waiting_at};
ghost use Rattle.script_front.specs.Readers.{condition_at};

use crate::alternatives::{Alternative, Alternatives, MOST_ALTERNATIVES, has_moment, has_number};
use crate::moment::{Moment, MomentForm};
use crate::tree::{Act, Condition};
use script_tokens::fault::ScriptFault;
use script_tokens::keyword::Keyword;
use script_tokens::token_reader::TokenReader;
use script_tokens::values::{contact, frames, level, time};

/// `TIME`, or `TIME early N`
#[tactic(auto, unfolding(crate::specs::Readers::moment_at))]
pub(crate) fn moment(reader: &mut TokenReader) -> Result<Moment, ScriptFault>
    ensures { Takes (moment_at reader.old.lexemes) result reader.old reader.new }
{
    let time = time(reader)?;
    if !reader.is_next(Keyword::Early) {
        return Ok(Moment::new(MomentForm::At(time)));
    }
    reader.advance();
    let frames = frames(reader)?;
    Ok(Moment::new(MomentForm::Early { time, frames }))
}

/// An alternative that can be beside those before it.
///
/// # Errors
///
/// `Expected` at a second `until`, and where any other atom follows that is not `contact`, if there
/// was a number of frames already.
#[tactic(auto, unfolding(crate::specs::Readers::allowed_at, crate::specs::Readers::alternative_at))]
fn alternative(reader: &mut TokenReader, before: &[Alternative]) -> Result<Alternative, ScriptFault>
    ensures read { Takes (allowed_at before.now reader.old.lexemes) result reader.old reader.new }
    ensures fits { IfOk result (λ a. may_follow before.now a ≡ true) }
{
    if reader.is_next(Keyword::Contact) {
        reader.advance();
        let contact = contact(reader)?;
        let closed = level(reader)?;
        return Ok(Alternative::Contact { contact, closed });
    }
    if reader.is_next(Keyword::Until) {
        if has_moment(before) {
            return Err(reader.expected());
        }
        reader.advance();
        let moment = moment(reader)?;
        return Ok(Alternative::Until(moment));
    }
    if has_number(before) {
        return Err(reader.expected());
    }
    let frames = frames(reader)?;
    Ok(Alternative::Frames(frames))
}

/// `or`, then an alternative beside those before it.
fn or_alternative(
    reader: &mut TokenReader,
    before: &[Alternative],
) -> Result<Alternative, ScriptFault>
    requires { is_next the.Or reader.old.lexemes ≡ true }
    ensures read { Takes (allowed_at before.now (drop 1 reader.old.lexemes)) result reader.old
        reader.new }
    ensures fits { IfOk result (λ a. may_follow before.now a ≡ true) }
{
    reader.advance();
    alternative(reader, before)
}

/// `or`, then the second alternative.
fn second_alternative(
    reader: &mut TokenReader,
    first: &Alternative,
) -> Result<Alternative, ScriptFault>
    requires { is_next the.Or reader.old.lexemes ≡ true }
    ensures read { Takes (allowed_at (first.now ∷ []) (drop 1 reader.old.lexemes)) result reader.old
        reader.new }
    ensures fits { IfOk result (λ a. may_follow (first.now ∷ []) a ≡ true) }
{
    or_alternative(reader, &[*first])
}

/// The alternatives of a `wait` of which the first one is read, where `or` is next.
#[tactic(auto, using(crate::proofs::ReadingWaits::none_more, crate::proofs::ReadingWaits::no_room, crate::proofs::ReadingWaits::one_on, crate::proofs::ReadingWaits::all_found))]
fn alternatives(reader: &mut TokenReader, first: Alternative) -> Result<Alternatives, ScriptFault>
    requires { is_next the.Or reader.old.lexemes ≡ true }
    ensures { Takes (alternatives_from 7 (first ∷ []) reader.old.lexemes) result reader.old
        reader.new }
{
    let second = second_alternative(reader, &first)?;
    let mut all = Alternatives::new(first, second);
    'alternatives: while reader.is_next(Keyword::Or) {
        if all.as_slice().len() == MOST_ALTERNATIVES {
            return Err(reader.expected());
        }
        let next = or_alternative(reader, all.as_slice())?;
        all.push(next);
    }
    Ok(all)
}

/// The rest of a statement after `wait`
#[tactic(auto, unfolding(crate::specs::Readers::waiting_at), using(crate::proofs::ReadingWaits::all_found, crate::proofs::ReadingWaits::waits_for))]
pub(crate) fn waiting(reader: &mut TokenReader) -> Result<Act, ScriptFault>
    ensures { Takes (waiting_at reader.old.lexemes) result reader.old reader.new }
{
    let first = alternative(reader, &[])?;
    if reader.is_next(Keyword::Or) {
        let all = alternatives(reader, first)?;
        return Ok(Act::WaitAny(all));
    }
    match first {
        Alternative::Contact { contact, closed } => Ok(Act::WaitContact { contact, closed }),
        Alternative::Frames(frames) => Ok(Act::Wait(frames)),
        Alternative::Until(_) => Err(reader.expected()),
    }
}

/// `contact C` or `time A to B`, after `if`
#[tactic(auto, unfolding(crate::specs::Readers::condition_at))]
pub(crate) fn condition(reader: &mut TokenReader) -> Result<Condition, ScriptFault>
    ensures { Takes (condition_at reader.old.lexemes) result reader.old reader.new }
{
    if reader.is_next(Keyword::Time) {
        reader.advance();
        let from = time(reader)?;
        reader.expect(Keyword::To)?;
        let to = time(reader)?;
        return Ok(Condition::Time { from, to });
    }
    reader.expect(Keyword::Contact)?;
    let contact = contact(reader)?;
    Ok(Condition::Contact(contact))
}
