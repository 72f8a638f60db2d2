//! Parsing overlays.

ghost use Rattle.std.specs.Prelude.{◌≡◌, ◌≢◌, ℕ, suc, ◌<◌, ◌∷◌, [], length, map, None, Some};
ghost use Rattle.std.specs.Prelude.{IfOk, OnOk, IfErr, IsSome, true, false};
ghost use Rattle.script_tokens.specs.declared.fault.ScriptFault.TheVariants.{Memory};
ghost use Rattle.schedule_front.specs.Tree.{overlay_of};
ghost use Rattle.schedule_front.specs.Readers.{first_edit, edits_at, overlay_from, overlay_at};
ghost use Rattle.schedule_front.specs.Readers.{overlays_at};
ghost use Rattle.schedule_front.specs.Parsing.{ReadsEdits, HasMore, ReadsOverlay, HasOneMore};
ghost use Rattle.schedule_front.specs.Parsing.{ReadsOverlays};

use crate::conditions::condition;
use crate::tree::{Overlay, OverlayEdit};
use script_front::fault::ScriptFault;
use script_front::items::edit;
use script_front::keyword::Keyword;
use script_front::names::Names;
use script_front::parser::new_name;
use script_front::token_reader::TokenReader;
use script_tokens::first_keyword::{ActKeyword, EditKeyword, StatementKeyword};
use std::alloc::Global;

/// The maximum number of overlays of a schedule.
pub const MOST_OVERLAYS: usize = 64;

/// The next token, if it is a keyword that begins an edit.
#[tactic(auto, unfolding(crate::specs::Readers::first_edit))]
fn edit_keyword(reader: &TokenReader) -> Option<EditKeyword>
    ensures first { result ≡ first_edit reader.now.lexemes }
    ensures some { IsSome result → 0 < length reader.now.lexemes }
{
    match reader.statement_keyword() {
        Some(StatementKeyword::Act(ActKeyword::Edit(first))) => Some(first),
        _ => None,
    }
}

/// Whether the next token begins an edit.
fn begins_edit(reader: &TokenReader) -> bool
    ensures begins { result ≡ true → first_edit reader.now.lexemes ≢ None }
    ensures none { result ≡ false → first_edit reader.now.lexemes ≡ None }
{
    edit_keyword(reader).is_some()
}

/// Reads an edit and appends it to a list.
#[tactic(auto, unfolding(crate::specs::Readers::edits_at))]
fn one_more(reader: &mut TokenReader, list: &mut Vec<OverlayEdit>) -> Result<(), ScriptFault>
    requires { first_edit reader.old.lexemes ≢ None }
    ensures more { OnOk result (HasMore list.old.items list.new.items reader.old reader.new) }
    ensures none { IfErr result (λ e. e ≢ Memory → (left : ℕ) → edits_at (suc left) reader.old.lines
        reader.old.lexemes ≡ None) }
{
    let Some(first) = edit_keyword(reader) else {
        return Err(reader.expected());
    };
    let line = reader.line();
    reader.advance();
    let edit = edit(reader, first)?;
    match list.push(OverlayEdit { line, edit }) {
        Ok(()) => Ok(()),
        Err(_full) => Err(ScriptFault::Memory),
    }
}

/// Edits, as long as one begins; `left` is how many more overlays and edits may follow.
#[tactic(auto, using(crate::proofs::ReadingEdits::goes_on, crate::proofs::ReadingEdits::all_read, crate::proofs::ReadingEdits::none_left, crate::proofs::ReadingEdits::none_next))]
fn edits(
    alloc: Global,
    reader: &mut TokenReader,
    left: &mut u16,
) -> Result<Vec<OverlayEdit>, ScriptFault>
    ensures read { IfOk result (λ v. ReadsEdits v.items left.old left.new reader.old reader.new) }
    ensures none { IfErr result (λ e. e ≢ Memory → edits_at left.old reader.old.lines
        reader.old.lexemes ≡ None) }
{
    let mut list = Vec::new(alloc);
    'edits: while begins_edit(reader) {
        if *left == 0 {
            return Err(ScriptFault::Limit(reader.position()));
        }
        *left -= 1;
        one_more(reader, &mut list)?;
    }
    Ok(list)
}

/// `NAME while CONDITION { edits }`, after `overlay` in this line
#[tactic(auto, unfolding(crate::specs::Readers::overlay_from))]
fn overlay(
    alloc: Global,
    reader: &mut TokenReader,
    names: &mut Names,
    left: &mut u16,
    line: u16,
) -> Result<Overlay, ScriptFault>
    ensures read { IfOk result (λ o. ReadsOverlay names.old names.new line left.old left.new
        reader.old reader.new (overlay_of o)) }
    ensures none { IfErr result (λ e. e ≢ Memory → overlay_from names.old reader.old.lines line
        left.old reader.old.lexemes ≡ None) }
{
    let name = new_name(reader, names)?;
    reader.advance();
    reader.expect(Keyword::While)?;
    let condition = condition(alloc, reader)?;
    reader.expect(Keyword::OpenBrace)?;
    let edits = edits(alloc, reader, left)?;
    reader.expect(Keyword::CloseBrace)?;
    names.add(alloc, name)?;
    Ok(Overlay {
        line,
        condition,
        edits,
    })
}

/// Whether a token is left.
fn has_more(reader: &TokenReader) -> bool
    ensures some { result ≡ true → reader.now.lexemes ≢ [] }
    ensures none { result ≡ false → reader.now.lexemes ≡ [] }
{
    !reader.is_empty()
}

/// The fault where no more overlay may follow: `Limit` if one begins, else `Expected`.
fn no_room(reader: &TokenReader) -> ScriptFault
    ensures { result ≢ Memory }
{
    if reader.is_next(Keyword::Overlay) {
        return ScriptFault::Limit(reader.position());
    }
    reader.expected()
}

/// Reads an overlay and appends it to a list.
#[tactic(auto, unfolding(crate::specs::Readers::overlay_at), using(crate::proofs::ReadingOverlays::pushed))]
fn next_overlay(
    alloc: Global,
    reader: &mut TokenReader,
    names: &mut Names,
    left: &mut u16,
    list: &mut Vec<Overlay>,
) -> Result<(), ScriptFault>
    ensures read { OnOk result (HasOneMore names.old names.new left.old left.new (map overlay_of
        list.old.items) (map overlay_of list.new.items) reader.old reader.new) }
    ensures none { IfErr result (λ e. e ≢ Memory → overlay_at names.old reader.old.lines left.old
        reader.old.lexemes ≡ None) }
{
    if *left == 0 {
        return Err(no_room(reader));
    }
    let line = reader.line();
    reader.expect(Keyword::Overlay)?;
    *left -= 1;
    let next = overlay(alloc, reader, names, left, line)?;
    match list.push(next) {
        Ok(()) => Ok(()),
        Err(_full) => Err(ScriptFault::Memory),
    }
}

/// Overlays, up to the end of the text; `left` is how many overlays and edits there may be. Their
/// names are added to `names`, which must be empty.
///
/// # Errors
///
/// The first in text order of: `Limit` at a 65th overlay, and at an overlay or edit that is one too
/// many; `NameUsed` at the name of an overlay before; `Number` for an atom where a value is
/// required that is not such a value in range; `Limit` at a 33rd test; `Expected` for any other
/// wrong token or the end of the text. `Memory` if memory runs out.
#[tactic(auto, using(crate::proofs::ReadingOverlays::begins_on, crate::proofs::ReadingOverlays::goes_on, crate::proofs::ReadingOverlays::all_read, crate::proofs::ReadingOverlays::no_room, crate::proofs::ReadingOverlays::none_next))]
pub fn overlays(
    alloc: Global,
    reader: &mut TokenReader,
    names: &mut Names,
    left: &mut u16,
) -> Result<Vec<Overlay>, ScriptFault>
    requires { names.old ≡ [] }
    ensures read { IfOk result (λ v. ReadsOverlays names.new (map overlay_of v.items) left.old
        reader.old) }
    ensures none { IfErr result (λ e. e ≢ Memory → overlays_at 64 [] reader.old.lines left.old
        reader.old.lexemes ≡ None) }
{
    let mut list = Vec::new(alloc);
    'overlays: while has_more(reader) {
        if list.len() == MOST_OVERLAYS {
            return Err(no_room(reader));
        }
        next_overlay(alloc, reader, names, left, &mut list)?;
    }
    Ok(list)
}
