//! Tries changes of a script's text: what the changed text is, and whether its refusal is passed.

ghost use Rattle.std.specs.Prelude.{IfOk, IfSome, string_bytes};
ghost use Rattle.script_compiler.specs.declared.fault.CompileFault.TheVariants.{Refused};
ghost use Rattle.plan_explain.specs.declared.trial.Refusal.TheVariants.{Token, Plan};
ghost use Rattle.plan_explain.specs.declared.trial.Outcome.TheVariants.{NoScript, NoPlan};
ghost use Rattle.plan_explain.specs.TextChanges.{IsWith, IsChanged, IsOutcome, IsJudged, IsTried};

use crate::source::{Source, Spot, is_before};
use plan_verifier::Cause;
use script_compiler::{CompileFault, compile};
use script_front::{Position, ScriptFault, parse};
use std::alloc::{AllocError, Global};

/// Other bytes in the place of those from `start` to `end`, exclusive.
#[derive(Drop)]
pub(crate) struct TextPatch {
    pub(crate) start: usize,
    pub(crate) end: usize,
    pub(crate) part: String,
}

impl TextPatch {
    /// Words in the place of the tokens of a spot.
    pub(crate) fn at(alloc: Global, spot: &Spot, words: &str) -> Result<TextPatch, AllocError> {
        Ok(TextPatch {
            start: spot.start,
            end: spot.end,
            part: String::from_str(alloc, words)?,
        })
    }
}

/// A change of a text in one place, or in a second one after it too.
#[derive(Drop)]
pub(crate) struct Change {
    pub(crate) first: TextPatch,
    pub(crate) second: Option<TextPatch>,
}

/// What a text is.
#[derive(Clone, Copy)]
pub(crate) enum Outcome {
    /// An accepted script.
    Accepted,
    /// No script, with its first fault.
    NoScript(ScriptFault),
    /// A script that is not compiled, with its first fault.
    NoPlan(CompileFault),
}

/// Where and why a text is refused.
#[derive(Clone, Copy)]
pub(crate) enum Refusal {
    /// It is no script, by a token at this position.
    Token(Position),
    /// The item or statement in this line is refused for a cause; `is_defined` is whether it is in
    /// a defined block.
    Plan {
        line: u16,
        cause: Cause,
        is_defined: bool,
    },
}

/// What becomes of a refusal where the text is changed.
#[derive(Clone, Copy, PartialEq, Eq)]
pub(crate) enum Verdict {
    /// The text is accepted.
    Accepted,
    /// This refusal is passed, and the text is refused later.
    Passed,
    /// The text is refused as before.
    Same,
    /// The text is refused otherwise, before this refusal is reached.
    Other,
}

/// What a change touches.
#[derive(Clone, Copy)]
pub(crate) struct Touched {
    /// How many lines it puts before the refused one.
    pub(crate) added: u16,
    /// How many bytes it puts before the token at fault, in its line.
    pub(crate) columns: usize,
    /// The lines of the changed text that it puts there or changes.
    pub(crate) lines: [usize; 2],
}

/// A text with other bytes in the place of some; none if these are no whole characters of it.
pub(crate) fn patched(
    alloc: Global,
    text: &str,
    patch: &TextPatch,
) -> Result<Option<String>, AllocError>
    ensures { IfOk result (λ o. IfSome o (λ s. IsWith patch.now text.now (string_bytes s))) }
{
    if patch.start > patch.end {
        return Ok(None);
    }
    let Some(front) = text.get(..patch.start) else {
        return Ok(None);
    };
    let Some(back) = text.get(patch.end..) else {
        return Ok(None);
    };
    let mut whole = String::from_str(alloc, front)?;
    whole.push_str(patch.part.as_str())?;
    whole.push_str(back)?;
    Ok(Some(whole))
}

/// A text with a change.
pub(crate) fn changed(
    alloc: Global,
    text: &str,
    change: &Change,
) -> Result<Option<String>, AllocError>
    ensures { IfOk result (λ o. IfSome o (λ s. IsChanged change.now text.now (string_bytes s))) }
{
    let Some(second) = &change.second else {
        return patched(alloc, text, &change.first);
    };
    let Some(later) = patched(alloc, text, second)? else {
        return Ok(None);
    };
    patched(alloc, later.as_str(), &change.first)
}

/// What a text is: `parse` and then `compile` decide.
pub(crate) fn outcome_of(alloc: Global, text: &str) -> Result<Outcome, AllocError>
    ensures { IfOk result (λ o. IsOutcome text.now o) }
{
    let script = match parse(alloc, text) {
        Ok(script) => script,
        Err(ScriptFault::Memory) => return Err(AllocError),
        Err(fault) => return Ok(Outcome::NoScript(fault)),
    };
    match compile(alloc, &script) {
        Ok(_code) => Ok(Outcome::Accepted),
        Err(CompileFault::Memory) => Err(AllocError),
        Err(fault) => Ok(Outcome::NoPlan(fault)),
    }
}

/// The position of a fault; none if out of memory.
pub(crate) fn position_of(fault: ScriptFault) -> Option<Position> {
    match fault {
        ScriptFault::Byte(at)
        | ScriptFault::Number(at)
        | ScriptFault::Expected(at)
        | ScriptFault::Depth(at)
        | ScriptFault::NameUsed(at)
        | ScriptFault::NameUnknown(at)
        | ScriptFault::Limit(at) => Some(at),
        ScriptFault::Memory => None,
    }
}

/// What becomes of a refusal by a token at a position, given the fault of the changed text: it is
/// passed if that fault is after where the token is now.
fn verdict_on_token(position: Position, touched: &Touched, fault: ScriptFault) -> Verdict
    ensures { IsJudged result (Token position) (NoScript fault) }
{
    let moved = Position {
        line: position.line.saturating_add(usize::from(touched.added)),
        column: position.column.saturating_add(touched.columns),
    };
    match position_of(fault) {
        Some(at) if is_before(moved, at) => Verdict::Passed,
        Some(at) if is_before(at, moved) => Verdict::Other,
        _ => Verdict::Same,
    }
}

/// Whether a refusal in this line for a cause is passed if the plan is refused in `later` for
/// another one: costs are checked after all statements, and statements in the order of the text.
fn is_passed(line: u32, cause: Cause, later: u32, why: Cause) -> bool {
    if cause == Cause::Cost {
        return why == Cause::Cost && later > line;
    }
    why == Cause::Cost || later > line
}

/// Whether a block of the statement in `first` ends in a later line or after it: its paths meet
/// after that line.
fn reaches_after(source: &Source, line: u16, first: u16) -> bool {
    first < line && source.reaches(usize::from(first), usize::from(line))
}

/// What becomes of a refusal in this line for a cause, given the line and the cause of the changed
/// text's refusal. It is not known to be passed in a defined block, which may be applied twice.
fn verdict_on_line(
    source: &Source,
    line: u16,
    cause: Cause,
    is_defined: bool,
    touched: &Touched,
    later: u16,
    why: Cause,
) -> Verdict
    ensures { IsJudged result (Plan line cause is_defined) (NoPlan (Refused later why)) }
{
    let moved = u32::from(line) + u32::from(touched.added);
    if u32::from(later) == moved && why == cause {
        return Verdict::Same;
    }
    let [first, second] = touched.lines;
    let is_touched = usize::from(later) == first || usize::from(later) == second;
    let is_after = is_passed(moved, cause, u32::from(later), why)
        || (why == Cause::Mismatch && reaches_after(source, line, later));
    if !is_after || is_touched || is_defined {
        return Verdict::Other;
    }
    if later == line && why == cause {
        return Verdict::Other;
    }
    Verdict::Passed
}

/// What becomes of a refusal, by what the changed text is.
fn verdict_of(source: &Source, refusal: &Refusal, touched: &Touched, outcome: &Outcome) -> Verdict
    ensures { IsJudged result refusal.now outcome.now }
{
    match outcome {
        Outcome::Accepted => Verdict::Accepted,
        Outcome::NoScript(fault) => match refusal {
            Refusal::Token(position) => verdict_on_token(*position, touched, *fault),
            Refusal::Plan { .. } => Verdict::Other,
        },
        Outcome::NoPlan(fault) => match refusal {
            Refusal::Token(_) => Verdict::Passed,
            Refusal::Plan {
                line,
                cause,
                is_defined,
            } => {
                let CompileFault::Refused {
                    line: later,
                    cause: why,
                } = fault
                else {
                    return Verdict::Other;
                };
                verdict_on_line(source, *line, *cause, *is_defined, touched, *later, *why)
            }
        },
    }
}

/// Tries a change of a text, with its tokens: what becomes of its refusal. None if the change is
/// none of this text.
pub(crate) fn try_change(
    alloc: Global,
    text: &str,
    source: &Source,
    refusal: Refusal,
    touched: &Touched,
    change: &Change,
) -> Result<Option<Verdict>, AllocError>
    ensures { IfOk result (λ o. IfSome o (IsTried change.now text.now refusal)) }
{
    let Some(after) = changed(alloc, text, change)? else {
        return Ok(None);
    };
    match outcome_of(alloc, after.as_str()) {
        Ok(outcome) => Ok(Some(verdict_of(source, &refusal, touched, &outcome))),
        Err(error) => Err(error),
    }
}
