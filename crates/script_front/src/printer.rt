//! Printing a script.

ghost use Rattle.std.specs.Prelude.{◌≡◌, ◌+◌, ◌-◌, ◌<◌, ◌≤◌, ◌++◌, ◌∷◌, [], length, OnOk, IfOk};
ghost use Rattle.std.specs.Prelude.{string_bytes};
ghost use Rattle.std.specs.Fmt.{decimal};
ghost use Rattle.script_tokens.specs.declared.keyword.Keyword.TheVariants as the;
ghost use Rattle.script_tokens.specs.Keywords.{letters};
ghost use Rattle.script_front.specs.Block.{before, nothing, block_of};
ghost use Rattle.script_front.specs.Tree.{IsInBounds, AllFit};
ghost use Rattle.script_front.specs.Parsing.{bodies};
ghost use Rattle.script_front.specs.Spelled.{act_lexemes, edit_lexemes, name_at};
ghost use Rattle.script_front.specs.Printing.{IsPut, line, indent, if_lexemes, line_text};
ghost use Rattle.script_front.specs.Printing.{text_of_lines, block_lines, items_lines};
ghost use Rattle.script_front.specs.Printing.{definition_lines, defined_lines, tree_lines};
ghost use Rattle.script_front.specs.Denoting.{Denotes};

use crate::lexemes::{put_act, put_edit, put_header};
use crate::names::Names;
use crate::script::Script;
use crate::tree::{Act, BlockId, Condition, Item, Statement};
use crate::wait_lexemes::put_condition;
use plan_code::Times;
use std::alloc::{AllocError, Global};
use std::fmt::Write;

/// Two spaces for each level.
#[tactic(auto, using(crate::proofs::Printed::indented))]
fn put_indent(out: &mut String, depth: u8) -> Result<(), AllocError>
    ensures { OnOk result (string_bytes out.new ≡ string_bytes out.old ++ indent depth) }
{
    for _level in 0..depth {
        out.push_str("  ")?;
    }
    Ok(())
}

/// The line of an item.
fn put_item(out: &mut String, item: &Item) -> Result<(), AllocError>
    ensures { OnOk result (string_bytes out.new ≡ string_bytes out.old ++ line_text (line 0
        (edit_lexemes item.now.edit))) }
{
    put_edit(out, item.edit)?;
    out.push_str("\n")?;
    Ok(())
}

/// The items, one per line.
///
/// # Errors
///
/// If memory runs out.
#[tactic(auto, using(crate::proofs::Printed::item_more, crate::proofs::Printed::items_all))]
pub fn put_items(out: &mut String, items: &[Item]) -> Result<(), AllocError>
    ensures { OnOk result (string_bytes out.new ≡ string_bytes out.old ++ text_of_lines
        (items_lines items.now)) }
{
    for item in items {
        put_item(out, item)?;
    }
    Ok(())
}

/// An indented line; `text` includes the line end.
fn put_line(out: &mut String, depth: u8, text: &str) -> Result<(), AllocError>
    ensures { OnOk result (string_bytes out.new ≡ string_bytes out.old ++ (indent depth ++
        text.now)) }
{
    put_indent(out, depth)?;
    out.push_str(text)?;
    Ok(())
}

/// The line of a statement without a block.
fn put_basic(out: &mut String, act: Act, depth: u8) -> Result<(), AllocError>
    ensures { OnOk result (string_bytes out.new ≡ string_bytes out.old ++ line_text (line depth
        (act_lexemes act))) }
{
    put_indent(out, depth)?;
    put_act(out, act)?;
    out.push_str("\n")?;
    Ok(())
}

/// The line of `apply`.
#[tactic(auto, unfolding(script_tokens::specs::Keywords::letters))]
fn put_apply(out: &mut String, names: &Names, block: BlockId, depth: u8) -> Result<(), AllocError>
    requires { block < length names.now }
    ensures { OnOk result (string_bytes out.new ≡ string_bytes out.old ++ line_text (line depth
        (letters the.Apply ∷ name_at names.now block ∷ []))) }
{
    put_line(out, depth, "apply ")?;
    put_name(out, names, usize::from(block.get()))?;
    out.push_str("\n")?;
    Ok(())
}

/// The name at an index below the number of names.
///
/// # Errors
///
/// If memory runs out.
#[tactic(auto, using(crate::proofs::Printed::name_got, crate::proofs::Printed::name_there))]
pub fn put_name(out: &mut String, names: &Names, index: usize) -> Result<(), AllocError>
    requires { index < length names.now }
    ensures { OnOk result (string_bytes out.new ≡ string_bytes out.old ++ name_at names.now index) }
{
    match names.get(index) {
        Some(name) => out.push_str(name),
        None => Ok(()),
    }
}

/// The first line of `if`.
#[tactic(auto, using(crate::proofs::PrintedWaits::if_put))]
fn put_if(out: &mut String, condition: Condition, depth: u8) -> Result<(), AllocError>
    ensures { OnOk result (string_bytes out.new ≡ string_bytes out.old ++ line_text (line depth
        (if_lexemes condition))) }
{
    put_line(out, depth, "if")?;
    put_condition(out, condition)?;
    out.push_str(" {\n")?;
    Ok(())
}

/// The first line of `repeat`.
#[tactic(auto, unfolding(script_tokens::specs::Keywords::letters))]
fn put_repeat(out: &mut String, times: Times, depth: u8) -> Result<(), AllocError>
    ensures { OnOk result (string_bytes out.new ≡ string_bytes out.old
        ++ line_text (line depth (letters the.Repeat ∷ decimal times ∷ letters the.OpenBrace ∷
        []))) }
{
    let times = times.get();
    put_indent(out, depth)?;
    write!(out, "repeat {times} {{\n")
}

/// The lines of a statement at this depth, with at most `left` more braces nested in it.
#[cycle(put_statements)]
#[tactic(auto, using(crate::proofs::Printed::act_put, crate::proofs::Printed::stop_put, crate::proofs::Printed::when_put, crate::proofs::Printed::either_put, crate::proofs::Printed::repeat_put, crate::proofs::Printed::forever_put, crate::proofs::Printed::apply_put))]
fn put_statement(
    out: &mut String,
    names: &Names,
    statement: &Statement,
    depth: u8,
    left: u8,
) -> Result<(), AllocError>
    requires room { depth + left ≤ 16 }
    requires fits { IsInBounds (length names.now) left (before [] statement.now nothing) }
    ensures { OnOk result (IsPut names.now depth (before [] statement.now) (string_bytes out.old)
        (string_bytes out.new)) }
{
    match statement {
        Statement::Act { act, .. } => {
            put_basic(out, *act, depth)?;
            Ok(())
        }
        Statement::End { .. } => {
            put_line(out, depth, "end\n")?;
            Ok(())
        }
        Statement::If {
            condition,
            first,
            ..
        } => {
            put_if(out, *condition, depth)?;
            put_statements(out, names, first.as_slice(), depth + 1, left - 1)?;
            put_line(out, depth, "}\n")?;
            Ok(())
        }
        Statement::IfElse {
            condition,
            first,
            second,
            ..
        } => {
            put_if(out, *condition, depth)?;
            put_statements(out, names, first.as_slice(), depth + 1, left - 1)?;
            put_line(out, depth, "} else {\n")?;
            put_statements(out, names, second.as_slice(), depth + 1, left - 1)?;
            put_line(out, depth, "}\n")?;
            Ok(())
        }
        Statement::Repeat { times, body, .. } => {
            put_repeat(out, *times, depth)?;
            put_statements(out, names, body.as_slice(), depth + 1, left - 1)?;
            put_line(out, depth, "}\n")?;
            Ok(())
        }
        Statement::Forever { body, .. } => {
            put_line(out, depth, "forever {\n")?;
            put_statements(out, names, body.as_slice(), depth + 1, left - 1)?;
            put_line(out, depth, "}\n")?;
            Ok(())
        }
        Statement::Apply { block, .. } => {
            put_apply(out, names, *block, depth)?;
            Ok(())
        }
    }
}

/// The lines of statements at this depth, with at most `left` more braces nested in them.
#[cycle(put_statements)]
#[tactic(auto, using(crate::proofs::Printed::put_more, crate::proofs::Printed::all_put))]
fn put_statements(
    out: &mut String,
    names: &Names,
    list: &[Statement],
    depth: u8,
    left: u8,
) -> Result<(), AllocError>
    requires room { depth + left ≤ 16 }
    requires fits { IsInBounds (length names.now) left (block_of [] list.now) }
    ensures { OnOk result (string_bytes out.new ≡ string_bytes out.old ++ text_of_lines
        (block_lines names.now depth (block_of [] list.now))) }
{
    for statement in list {
        put_statement(out, names, statement, depth, left)?;
    }
    Ok(())
}

/// A definition.
#[tactic(auto, using(crate::proofs::Printed::definition_put), unfolding(script_tokens::specs::Keywords::letters))]
fn put_definition(
    out: &mut String,
    names: &Names,
    index: usize,
    block: &[Statement],
) -> Result<(), AllocError>
    requires known { index < length names.now }
    requires fits { IsInBounds (length names.now) 15 (block_of [] block.now) }
    ensures { OnOk result (string_bytes out.new ≡ string_bytes out.old ++ text_of_lines
        (definition_lines names.now index block.now)) }
{
    out.push_str("define ")?;
    put_name(out, names, index)?;
    out.push_str(" {\n")?;
    put_statements(out, names, block, 1, 15)?;
    out.push_str("}\n")?;
    Ok(())
}

/// The definitions, in order.
fn put_definitions(
    out: &mut String,
    names: &Names,
    blocks: &[Vec<Statement>],
) -> Result<(), AllocError>
    requires fit { AllFit 0 (bodies blocks.now) }
    requires few { length blocks.now ≤ length names.now }
    ensures { OnOk result (string_bytes out.new ≡ string_bytes out.old ++ text_of_lines
        (defined_lines names.now 0 (bodies blocks.now))) }
{
    for (index, block) in blocks.iter().enumerate() {
        put_definition(out, names, index, block.as_slice())?;
    }
    Ok(())
}

/// The text of a script: `ensemble` on one line, `period`, `notice` and `budget` on the next; then
/// each item, `define`, `begin` and statement on its own line, indented by two spaces for each
/// depth of braces.
///
/// # Errors
///
/// If memory runs out.
pub fn print(alloc: Global, script: &Script) -> Result<String, AllocError>
    ensures layout { IfOk result (λ s. string_bytes s ≡ text_of_lines (tree_lines script.now)) }
    ensures denotes { IfOk result (λ s. Denotes (string_bytes s) script.now) }
{
    let mut out = String::new(alloc);
    put_header(&mut out, script.header())?;
    put_items(&mut out, script.items())?;
    put_definitions(&mut out, script.names(), script.blocks())?;
    out.push_str("begin\n")?;
    put_statements(&mut out, script.names(), script.statements(), 0, 16)?;
    Ok(out)
}
