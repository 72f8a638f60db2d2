//! Reading command files.

ghost use Rattle.std.specs.Prelude.{◌≡◌, ◌≢◌, ℕ, List, ◌∷◌, ◌++◌, IfOk, IfErr, IfSome, IfNone};
ghost use Rattle.plan_session.specs.declared.command.Command.{Command};
ghost use Rattle.plan_session.specs.declared.commands.Keyword.{Keyword};
ghost use Rattle.plan_session.specs.declared.event_fault.EventFault.TheVariants.{Memory};
ghost use Rattle.plan_session.specs.Commands.{IsCommand, command_lexemes, HoldsCommands};
ghost use Rattle.plan_session.specs.ItemFaults.{IsWrongItem, ReportsCommandFault};
ghost use Rattle.plan_session.specs.FirstFaults.{ReportsFirstFault};
ghost use Rattle.plan_session.specs.Keywords.{keyword_text, tokens_after};

use crate::command::Command;
use crate::event_fault::EventFault;
use crate::item_fault::{NO_ITEM, Wrong};
use crate::items::{Item, change, number};
use crate::reading::read_items;
use plan_code::limits::FRAMES_A_DAY;
use script_tokens::TokenReader;
use std::alloc::Global;

/// The keywords of commands.
#[derive(Clone, Copy)]
enum Keyword {
    Contact,
    Run,
    Next,
    Break,
    Clear,
    Show,
}

/// The keyword that this token spells; None if it spells none.
fn keyword_of(word: &[u8]) -> Option<Keyword>
    ensures found { IfSome result (λ k. word.now ≡ keyword_text k) }
    ensures none { IfNone result ((k : Keyword) → word.now ≢ keyword_text k) }
{
    match word {
        b"contact" => Some(Keyword::Contact),
        b"run" => Some(Keyword::Run),
        b"next" => Some(Keyword::Next),
        b"break" => Some(Keyword::Break),
        b"clear" => Some(Keyword::Clear),
        b"show" => Some(Keyword::Show),
        _ => None,
    }
}

/// The number of tokens after a keyword.
fn tokens_after(keyword: Keyword) -> usize
    ensures { result ≡ tokens_after keyword }
{
    match keyword {
        Keyword::Contact => 2,
        Keyword::Run | Keyword::Break => 1,
        Keyword::Next | Keyword::Clear | Keyword::Show => 0,
    }
}

/// The rest of a command, after its keyword.
#[tactic(auto, using(crate::proofs::WrongCommands::no_contact, crate::proofs::WrongCommands::no_run, crate::proofs::WrongCommands::no_break))]
fn command_after(keyword: Keyword, reader: &mut TokenReader) -> Result<Command, Wrong>
    ensures read { IfOk result (λ s. keyword_text keyword ∷ reader.old.lexemes
        ≡ command_lexemes s ++ reader.new.lexemes) }
    ensures range { IfOk result IsCommand }
    ensures none { IfErr result (λ e. (s : Command) (rest : List (List ℕ)) → IsCommand s
        → keyword_text keyword ∷ reader.old.lexemes ≢ command_lexemes s ++ rest) }
    ensures wrong { IfErr result (λ e.
        IsWrongItem command_lexemes IsCommand (keyword_text keyword ∷ reader.old.lexemes) e) }
{
    match keyword {
        Keyword::Contact => {
            let (contact, closed) = change(reader)?;
            Ok(Command::Contact(contact, closed))
        }
        Keyword::Run => Ok(Command::Run(number(reader, 1, FRAMES_A_DAY)?)),
        Keyword::Next => Ok(Command::Next),
        Keyword::Break => Ok(Command::Break(number(reader, 1, u32::from(u16::MAX))? as u16)),
        Keyword::Clear => Ok(Command::Clear),
        Keyword::Show => Ok(Command::Show),
    }
}

impl Item for Command {
    ghost spelled = { command_lexemes };

    ghost is_item = { IsCommand };

    fn uniqueness() {}

    fn further(word: &[u8]) -> usize {
        match keyword_of(word) {
            Some(keyword) => tokens_after(keyword),
            None => 0,
        }
    }

    fn read(reader: &mut TokenReader) -> Result<Command, Wrong> {
        let Some(word) = reader.peek() else {
            return Err(NO_ITEM);
        };
        let Some(keyword) = keyword_of(word) else {
            return Err(NO_ITEM);
        };
        reader.advance();
        command_after(keyword, reader)
    }
}

/// Parses a command file: `contact C closed` and `contact C open` with C from 0 to 15, `run N` with
/// N from 1 to 3,600,000, `next`, `break LINE` with LINE from 1 to 65,535, `clear` and `show`,
/// separated by blanks and comments as in scripts.
///
/// # Errors
///
/// First `Byte`, for a byte outside comments that is not allowed; then the first in text order of
/// `Number`, for an atom that is not the required number in range, and `Expected`, for any other
/// wrong token or the end of the text. Each has its position. `Memory` if memory runs out. A text
/// that lists commands has no other fault.
pub fn read_commands(alloc: Global, text: &str) -> Result<Vec<Command>, EventFault>
    ensures found { IfOk result (λ v. HoldsCommands text.now v.items) }
    ensures only { IfErr result (λ e. e ≢ Memory → (all : List Command)
        → HoldsCommands text.now all → ⊥) }
    ensures first { IfErr result (λ e. e ≢ Memory → ReportsFirstFault text.now e) }
    ensures fault { IfErr result (λ e. e ≢ Memory → ReportsCommandFault text.now e) }
{
    read_items(alloc, text)
}
