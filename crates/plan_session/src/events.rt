//! Reading event files.

ghost use Rattle.std.specs.Prelude.{◌≡◌, ◌≢◌, Bool, List, ℕ, ◌∷◌, ◌++◌, codes, IfOk, IfErr, IfSome};
ghost use Rattle.std.specs.Prelude.{IfNone};
ghost use Rattle.plan_session.specs.declared.event_fault.EventFault.TheVariants.{Memory};
ghost use Rattle.plan_session.specs.declared.step.Step.{Step};
ghost use Rattle.plan_session.specs.Events.{IsStep, step_lexemes, first_lexeme, Holds};
ghost use Rattle.plan_session.specs.ItemFaults.{IsWrongItem, ReportsStepFault};
ghost use Rattle.plan_session.specs.FirstFaults.{ReportsFirstFault};

use crate::event_fault::EventFault;
use crate::item_fault::{NO_ITEM, Wrong};
use crate::items::{Item, change, number};
use crate::reading::read_items;
use crate::step::Step;
use plan_code::limits::FRAMES_A_DAY;
use script_tokens::TokenReader;
use std::alloc::Global;

/// The rest of a step, after the token `frames`, or otherwise `contact`.
#[tactic(auto, using(crate::proofs::WrongSteps::no_frames, crate::proofs::WrongSteps::no_contact))]
fn step_after(of_frames: bool, reader: &mut TokenReader) -> Result<Step, Wrong>
    ensures read { IfOk result (λ s. first_lexeme of_frames ∷ reader.old.lexemes
        ≡ step_lexemes s ++ reader.new.lexemes) }
    ensures range { IfOk result IsStep }
    ensures none { IfErr result (λ e. (s : Step) (rest : List (List ℕ)) → IsStep s
        → first_lexeme of_frames ∷ reader.old.lexemes ≢ step_lexemes s ++ rest) }
    ensures wrong { IfErr result (λ e.
        IsWrongItem step_lexemes IsStep (first_lexeme of_frames ∷ reader.old.lexemes) e) }
{
    if of_frames {
        Ok(Step::Frames(number(reader, 1, FRAMES_A_DAY)?))
    } else {
        let (contact, closed) = change(reader)?;
        Ok(Step::Contact(contact, closed))
    }
}

/// Whether this token is `frames`, or otherwise `contact`; None if it is neither.
fn begins_frames(word: &[u8]) -> Option<bool>
    ensures found { IfSome result (λ frames. word.now ≡ first_lexeme frames) }
    ensures none { IfNone result ((frames : Bool) → word.now ≢ first_lexeme frames) }
{
    match word {
        b"frames" => Some(true),
        b"contact" => Some(false),
        _ => None,
    }
}

impl Item for Step {
    ghost spelled = { step_lexemes };

    ghost is_item = { IsStep };

    fn uniqueness() {}

    fn further(word: &[u8]) -> usize {
        match begins_frames(word) {
            Some(true) => 1,
            Some(false) => 2,
            None => 0,
        }
    }

    fn read(reader: &mut TokenReader) -> Result<Step, Wrong> {
        let Some(word) = reader.peek() else {
            return Err(NO_ITEM);
        };
        let Some(of_frames) = begins_frames(word) else {
            return Err(NO_ITEM);
        };
        reader.advance();
        step_after(of_frames, reader)
    }
}

/// Parses an event file: `frames N` with N from 1 to 3,600,000, `contact C closed` and `contact C
/// open` with C from 0 to 15, separated by blanks and comments as in scripts.
///
/// # Errors
///
/// First `Byte`, for a byte outside comments that is not allowed; then the first in text order of
/// `Number`, for an atom that is not the required number in range, and `Expected`, for any other
/// wrong token or the end of the text. Each has its position. `Memory` if memory runs out. A text
/// that lists steps has no other fault.
pub fn read_events(alloc: Global, text: &str) -> Result<Vec<Step>, EventFault>
    ensures found { IfOk result (λ v. Holds text.now v.items) }
    ensures only { IfErr result (λ e. e ≢ Memory → (all : List Step) → Holds text.now all → ⊥) }
    ensures first { IfErr result (λ e. e ≢ Memory → ReportsFirstFault text.now e) }
    ensures fault { IfErr result (λ e. e ≢ Memory → ReportsStepFault text.now e) }
{
    read_items(alloc, text)
}
