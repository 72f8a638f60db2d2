//! The steps of an event file one by one.

ghost use Rattle.std.specs.Prelude.{◌≡◌};

use crate::event_fault::EventFault;
use crate::listing::{list_items, take_item};
use crate::step::Step;
use script_tokens::Scanner;
use std::marker::Model;

/// The steps of the text of an event file, one by one: none is kept.
///
/// Contracts refer to the part of the text that is left; the steps that it lists are defined in
/// `specs/Listing.antt`.
#[derive(Drop)]
pub struct StepList<'a> {
    scanner: Scanner<'a>,
}

impl<'a> Model for StepList<'a> {
    ghost use Rattle.std.specs.Prelude.{List};
    ghost use Rattle.script_tokens.specs.Scanning.{Scan};
    ghost use Rattle.plan_session.specs.declared.step.Step.{Step};
    ghost use Rattle.plan_session.specs.Listing.{ListsSteps};

    ghost Value = { Scan };

    ghost view = { λ s. s.scanner };

    ghost invariant = { λ s. (steps : List Step) × ListsSteps s.scanner steps };
}

impl<'a> StepList<'a> {
    ghost use Rattle.std.specs.Prelude.{◌≢◌, List, IfOk, IfErr};
    ghost use Rattle.plan_session.specs.declared.step.Step.{Step};
    ghost use Rattle.plan_session.specs.declared.event_fault.EventFault.TheVariants.{Memory};
    ghost use Rattle.plan_session.specs.Events.{Holds};
    ghost use Rattle.plan_session.specs.ItemFaults.{ReportsStepFault};
    ghost use Rattle.plan_session.specs.FirstFaults.{ReportsFirstFault};
    ghost use Rattle.plan_session.specs.Listing.{ListsSteps, TakesStep};

    /// The steps of a text. All of the text is parsed, and no memory is allocated.
    ///
    /// # Errors
    ///
    /// First `Byte`, for a byte outside comments that is not allowed; then the first in text order
    /// of `Number`, for an atom that is not the required number in range, and `Expected`, for any
    /// other wrong token or the end of the text. Each has its position. A text that lists steps has
    /// no fault.
    pub fn new(text: &'a str) -> Result<Self, EventFault>
        ensures found { IfOk result (λ list. (steps : List Step) × Holds text.now steps
            × ListsSteps list steps) }
        ensures only { IfErr result (λ e. (all : List Step) → Holds text.now all → ⊥) }
        ensures first { IfErr result (λ e. ReportsFirstFault text.now e) }
        ensures fault { IfErr result (λ e. ReportsStepFault text.now e) }
        ensures named { IfErr result (λ e. e ≢ Memory) }
    {
        let scanner = list_items::<Step>(text)?;
        Ok(StepList { scanner })
    }

    /// The next of the steps that are left; None if there is none.
    pub fn next(&mut self) -> Option<Step>
        ensures { TakesStep self.old self.new result }
    {
        take_item::<Step>(&mut self.scanner)
    }
}
