//! Parsing statements.

ghost use Rattle.std.specs.Prelude.{◌≡◌, ◌≢◌, ◌≤◌, [], length, true, false, None, IfOk, OnOk};
ghost use Rattle.std.specs.Prelude.{IfErr, OnErr};
ghost use Rattle.script_tokens.specs.declared.fault.ScriptFault.TheVariants.{Memory};
ghost use Rattle.script_tokens.specs.declared.first_keyword.StatementKeyword.TheVariants as the;
ghost use Rattle.script_tokens.specs.Reading.{Leaves};
ghost use Rattle.script_front.specs.Block.{before, block_of};
ghost use Rattle.script_front.specs.BlockReader.{stops, open_at, applied_at};
ghost use Rattle.script_front.specs.Parsing.{ReadsBlock, ReadsNone, ReadsBody, ReadsNoBody};
ghost use Rattle.script_front.specs.Parsing.{ReadsStatement, ReadsAfter, ReadsNoneAfter, IsApplied};

use crate::items::act;
use crate::make::{acting, applying, choosing, conditional, ending, looping, repeating};
use crate::names::Names;
use crate::tree::{BlockId, Statement};
use crate::waits::condition;
use script_tokens::fault::ScriptFault;
use script_tokens::first_keyword::StatementKeyword;
use script_tokens::keyword::Keyword;
use script_tokens::token_reader::TokenReader;
use script_tokens::values::{name, times};
use std::alloc::Global;

/// A statement; `left` is how many more items and statements the script may have, and `depth` how
/// many more braces may be nested.
#[cycle(statements)]
#[tactic(auto, unfolding(crate::specs::BlockReader::block_at, crate::specs::BlockReader::begun_at))]
fn statement(
    alloc: Global,
    reader: &mut TokenReader,
    names: &Names,
    left: &mut u16,
    depth: u8,
) -> Result<Statement, ScriptFault>
    requires known { length names.now ≤ 64 }
    requires not_stopped { stops reader.old.lexemes ≡ false }
    ensures read { IfOk result (λ s. ReadsStatement names.now depth left.old left.new reader.old
        reader.new (before [] s)) }
    ensures none { IfErr result (λ e. e ≢ Memory → ReadsNone names.now depth left.old reader.old) }
{
    let Some(first) = reader.statement_keyword() else {
        return Err(reader.expected());
    };
    if *left == 0 {
        return Err(ScriptFault::Limit(reader.position()));
    }
    *left -= 1;
    let line = reader.line();
    reader.advance();
    let statement = after_keyword(alloc, reader, names, left, depth, line, first)?;
    Ok(statement)
}

/// A statement, after its first keyword.
#[cycle(statements)]
#[tactic(auto, unfolding(crate::specs::BlockReader::statement_from, crate::specs::BlockReader::branch_at))]
fn after_keyword(
    alloc: Global,
    reader: &mut TokenReader,
    names: &Names,
    left: &mut u16,
    depth: u8,
    line: u16,
    first: StatementKeyword,
) -> Result<Statement, ScriptFault>
    requires { length names.now ≤ 64 }
    ensures read { IfOk result (λ s. ReadsAfter first names.now line depth left.old left.new
        reader.old reader.new (before [] s)) }
    ensures none { IfErr result (λ e. e ≢ Memory
        → ReadsNoneAfter first names.now line depth left.old
        reader.old) }
{
    match first {
        StatementKeyword::End => Ok(ending(line)),
        StatementKeyword::If => choice(alloc, reader, names, left, depth, line),
        StatementKeyword::Repeat => repetition(alloc, reader, names, left, depth, line),
        StatementKeyword::Forever => endless(alloc, reader, names, left, depth, line),
        StatementKeyword::Apply => {
            let applied = application(reader, names, line)?;
            Ok(applied)
        }
        StatementKeyword::Act(keyword) => {
            let act = act(reader, keyword)?;
            Ok(acting(line, act))
        }
    }
}

/// Statements, up to a closing brace or the end of the text.
#[cycle(statements)]
#[tactic(auto, using(crate::proofs::ReadingOn::none_next))]
pub fn statements(
    alloc: Global,
    reader: &mut TokenReader,
    names: &Names,
    left: &mut u16,
    depth: u8,
) -> Result<Vec<Statement>, ScriptFault>
    requires { length names.now ≤ 64 }
    ensures read { IfOk result (λ v. ReadsBlock names.now depth left.old left.new reader.old
        reader.new (block_of [] v.items)) }
    ensures none { IfErr result (λ e. e ≢ Memory → ReadsNone names.now depth left.old reader.old) }
{
    let mut list = Vec::new(alloc);
    'statements: while !ends(reader) {
        let next = statement(alloc, reader, names, left, depth)?;
        if list.push(next).is_err() {
            return Err(ScriptFault::Memory);
        }
    }
    Ok(list)
}

/// Whether no token is left, or a closing brace is next.
#[tactic(auto, unfolding(crate::specs::BlockReader::stops))]
fn ends(reader: &TokenReader) -> bool
    ensures { result ≡ stops reader.now.lexemes }
{
    if reader.is_empty() {
        return true;
    }
    reader.is_next(Keyword::CloseBrace)
}

/// A block in braces.
#[cycle(statements)]
#[tactic(auto, unfolding(crate::specs::BlockReader::body_at))]
pub fn block(
    alloc: Global,
    reader: &mut TokenReader,
    names: &Names,
    left: &mut u16,
    depth: u8,
) -> Result<Vec<Statement>, ScriptFault>
    requires { length names.now ≤ 64 }
    ensures read { IfOk result (λ v. ReadsBody names.now depth left.old left.new reader.old
        reader.new (block_of [] v.items)) }
    ensures none { IfErr result (λ e. e ≢ Memory
        → ReadsNoBody names.now depth left.old reader.old) }
{
    open(reader, depth)?;
    let body = statements(alloc, reader, names, left, depth - 1)?;
    reader.expect(Keyword::CloseBrace)?;
    Ok(body)
}

/// An opening brace, if `depth` allows one more.
#[tactic(auto, unfolding(crate::specs::BlockReader::open_at, script_tokens::specs::Reading::after))]
fn open(reader: &mut TokenReader, depth: u8) -> Result<(), ScriptFault>
    ensures room { OnOk result (1 ≤ depth) }
    ensures leaves { Leaves (open_at depth reader.old.lexemes) result reader.old reader.new }
{
    if !reader.is_next(Keyword::OpenBrace) {
        return Err(reader.expected());
    }
    if depth == 0 {
        return Err(ScriptFault::Depth(reader.position()));
    }
    reader.advance();
    Ok(())
}

/// The rest of a statement after `if`.
#[cycle(statements)]
#[tactic(auto, unfolding(crate::specs::BlockReader::statement_from, crate::specs::BlockReader::branch_at))]
fn choice(
    alloc: Global,
    reader: &mut TokenReader,
    names: &Names,
    left: &mut u16,
    depth: u8,
    line: u16,
) -> Result<Statement, ScriptFault>
    requires { length names.now ≤ 64 }
    ensures read { IfOk result (λ s. ReadsAfter the.If names.now line depth left.old left.new
        reader.old reader.new (before [] s)) }
    ensures none { IfErr result (λ e. e ≢ Memory → ReadsNoneAfter the.If names.now line depth
        left.old reader.old) }
{
    let condition = condition(reader)?;
    let first = block(alloc, reader, names, left, depth)?;
    if !reader.is_next(Keyword::Else) {
        return Ok(conditional(line, condition, first));
    }
    reader.advance();
    let second = block(alloc, reader, names, left, depth)?;
    Ok(choosing(line, condition, first, second))
}

/// The rest of a statement after `repeat`.
#[cycle(statements)]
#[tactic(auto, unfolding(crate::specs::BlockReader::statement_from, crate::specs::BlockReader::branch_at))]
fn repetition(
    alloc: Global,
    reader: &mut TokenReader,
    names: &Names,
    left: &mut u16,
    depth: u8,
    line: u16,
) -> Result<Statement, ScriptFault>
    requires { length names.now ≤ 64 }
    ensures read { IfOk result (λ s. ReadsAfter the.Repeat names.now line depth left.old left.new
        reader.old reader.new (before [] s)) }
    ensures none { IfErr result (λ e. e ≢ Memory → ReadsNoneAfter the.Repeat names.now line depth
        left.old reader.old) }
{
    let times = times(reader)?;
    let body = block(alloc, reader, names, left, depth)?;
    Ok(repeating(line, times, body))
}

/// The rest of a statement after `forever`.
#[cycle(statements)]
#[tactic(auto, unfolding(crate::specs::BlockReader::statement_from, crate::specs::BlockReader::branch_at))]
fn endless(
    alloc: Global,
    reader: &mut TokenReader,
    names: &Names,
    left: &mut u16,
    depth: u8,
    line: u16,
) -> Result<Statement, ScriptFault>
    requires { length names.now ≤ 64 }
    ensures read { IfOk result (λ s. ReadsAfter the.Forever names.now line depth left.old left.new
        reader.old reader.new (before [] s)) }
    ensures none { IfErr result (λ e. e ≢ Memory → ReadsNoneAfter the.Forever names.now line depth
        left.old reader.old) }
{
    let body = block(alloc, reader, names, left, depth)?;
    Ok(looping(line, body))
}

/// The name after `apply`.
#[tactic(auto, unfolding(crate::specs::BlockReader::applied_at))]
fn application(reader: &mut TokenReader, names: &Names, line: u16) -> Result<Statement, ScriptFault>
    requires { length names.now ≤ 64 }
    ensures read { IfOk result (λ s. IsApplied names.now line reader.old reader.new (before [] s)) }
    ensures none { OnErr result (applied_at names.now reader.old.lexemes ≡ None) }
{
    let name = name(reader)?;
    let Some(index) = names.find(name) else {
        return Err(ScriptFault::NameUnknown(reader.position()));
    };
    let Some(block) = BlockId::new(index as u8) else {
        return Err(ScriptFault::NameUnknown(reader.position()));
    };
    reader.advance();
    Ok(applying(line, block))
}
