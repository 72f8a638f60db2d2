//! The commands of a command file one by one.

ghost use Rattle.std.specs.Prelude.{◌≡◌};

use crate::command::Command;
use crate::event_fault::EventFault;
use crate::listing::{list_items, take_item};
use script_tokens::Scanner;
use std::marker::Model;

/// The commands of the text of a command file, one by one: none is kept.
///
/// Contracts refer to the part of the text that is left; the commands that it lists are defined in
/// `specs/Listing.antt`.
#[derive(Drop)]
pub struct CommandList<'a> {
    scanner: Scanner<'a>,
}

impl<'a> Model for CommandList<'a> {
    ghost use Rattle.std.specs.Prelude.{List};
    ghost use Rattle.script_tokens.specs.Scanning.{Scan};
    ghost use Rattle.plan_session.specs.declared.command.Command.{Command};
    ghost use Rattle.plan_session.specs.Listing.{ListsCommands};

    ghost Value = { Scan };

    ghost view = { λ s. s.scanner };

    ghost invariant = { λ s. (commands : List Command) × ListsCommands s.scanner commands };
}

impl<'a> CommandList<'a> {
    ghost use Rattle.std.specs.Prelude.{◌≢◌, List, IfOk, IfErr};
    ghost use Rattle.plan_session.specs.declared.command.Command.{Command};
    ghost use Rattle.plan_session.specs.declared.event_fault.EventFault.TheVariants.{Memory};
    ghost use Rattle.plan_session.specs.Commands.{HoldsCommands};
    ghost use Rattle.plan_session.specs.ItemFaults.{ReportsCommandFault};
    ghost use Rattle.plan_session.specs.FirstFaults.{ReportsFirstFault};
    ghost use Rattle.plan_session.specs.Listing.{ListsCommands, TakesCommand};

    /// The commands of a text. All of the text is parsed, and no memory is allocated.
    ///
    /// # Errors
    ///
    /// First `Byte`, for a byte outside comments that is not allowed; then the first in text order
    /// of `Number`, for an atom that is not the required number in range, and `Expected`, for any
    /// other wrong token or the end of the text. Each has its position. A text that lists commands
    /// has no fault.
    pub fn new(text: &'a str) -> Result<Self, EventFault>
        ensures found { IfOk result (λ list. (commands : List Command)
            × HoldsCommands text.now commands
            × ListsCommands list commands) }
        ensures only { IfErr result (λ e. (all : List Command) → HoldsCommands text.now all → ⊥) }
        ensures first { IfErr result (λ e. ReportsFirstFault text.now e) }
        ensures fault { IfErr result (λ e. ReportsCommandFault text.now e) }
        ensures named { IfErr result (λ e. e ≢ Memory) }
    {
        let scanner = list_items::<Command>(text)?;
        Ok(CommandList { scanner })
    }

    /// The next of the commands that are left; None if there is none.
    pub fn next(&mut self) -> Option<Command>
        ensures { TakesCommand self.old self.new result }
    {
        take_item::<Command>(&mut self.scanner)
    }
}
