//! Parsing a script.

ghost use Rattle.std.specs.Prelude.{◌≡◌, ◌≢◌, ℕ, [], ◌<◌, length, drop, slice_get, true, Some};
ghost use Rattle.std.specs.Prelude.{None, IfOk, OnOk, IfErr, OnErr};
ghost use Rattle.script_tokens.specs.declared.fault.ScriptFault.TheVariants.{Memory};
ghost use Rattle.script_tokens.specs.declared.keyword.Keyword.TheVariants as the;
ghost use Rattle.script_tokens.specs.Reading.{is_next};
ghost use Rattle.script_front.specs.Block.{block_of};
ghost use Rattle.script_front.specs.BlockReader.{new_name_at, definition_at, definitions_at};
ghost use Rattle.script_front.specs.BlockReader.{content_of, script_at};
ghost use Rattle.script_front.specs.Parsing.{ReadsDefinition, ReadsDefinitions};
ghost use Rattle.script_front.specs.Denoting.{IsScriptOf, IsNoScript};

use crate::header::header;
use crate::items::items;
use crate::names::Names;
use crate::script::Script;
use crate::statements::{block, statements};
use crate::tree::Statement;
use script_tokens::fault::ScriptFault;
use script_tokens::keyword::Keyword;
use script_tokens::lexer::lex;
use script_tokens::token_reader::TokenReader;
use script_tokens::values::name;
use std::alloc::Global;

/// The maximum number of items and statements of a script.
pub const MOST_STATEMENTS: u16 = 8192;

/// The maximum number of defined blocks of a script.
const MOST_BLOCKS: usize = 64;

/// The maximum depth of nested braces.
const DEEPEST: u8 = 16;

/// Definitions, as long as one begins. A name is defined at the end of its block.
#[tactic(auto, using(crate::proofs::ReadingDefinitions::begins_on, crate::proofs::ReadingDefinitions::goes_on))]
fn definitions(
    alloc: Global,
    reader: &mut TokenReader,
    names: &mut Names,
    left: &mut u16,
) -> Result<Vec<Vec<Statement>>, ScriptFault>
    requires { names.old ≡ [] }
    ensures defined { IfOk result (λ v. ReadsDefinitions names.new left.old left.new reader.old
        reader.new v.items) }
    ensures none { IfErr result (λ e. e ≢ Memory → definitions_at 64 [] reader.old.lines left.old
        reader.old.lexemes ≡ None) }
{
    let mut blocks = Vec::new(alloc);
    while reader.is_next(Keyword::Define) {
        if blocks.len() == MOST_BLOCKS {
            return Err(ScriptFault::Limit(reader.position()));
        }
        let body = definition(alloc, reader, names, left)?;
        if blocks.push(body).is_err() {
            return Err(ScriptFault::Memory);
        }
    }
    Ok(blocks)
}

/// `define NAME`, then a block
#[tactic(auto, unfolding(crate::specs::BlockReader::definition_at))]
fn definition(
    alloc: Global,
    reader: &mut TokenReader,
    names: &mut Names,
    left: &mut u16,
) -> Result<Vec<Statement>, ScriptFault>
    requires few { length names.old < 64 }
    requires begins { is_next the.Define reader.old.lexemes ≡ true }
    ensures defined { IfOk result (λ v. ReadsDefinition names.old names.new left.old left.new
        reader.old reader.new (block_of [] v.items)) }
    ensures none { IfErr result (λ e. e ≢ Memory → definition_at names.old reader.old.lines left.old
        (drop 1 reader.old.lexemes) ≡ None) }
{
    reader.advance();
    let name = new_name(reader, names)?;
    reader.advance();
    let body = block(alloc, reader, names, left, DEEPEST)?;
    names.add(alloc, name)?;
    Ok(body)
}

/// A name that is not among `names`; the reader does not advance.
///
/// # Errors
///
/// `Expected` where no name is next, and `NameUsed` where it is one of `names`.
#[tactic(auto, unfolding(crate::specs::BlockReader::new_name_at))]
pub fn new_name<'a>(reader: &TokenReader<'a>, names: &Names) -> Result<&'a str, ScriptFault>
    ensures read { IfOk result (λ s. new_name_at names.now reader.now.lexemes ≡ Some (
      s.now,
      drop 1
          reader.now.lexemes,
    )) }
    ensures new { IfOk result (λ s. (i : ℕ) → slice_get names.now i ≢ Some s.now) }
    ensures none { OnErr result (new_name_at names.now reader.now.lexemes ≡ None) }
{
    let name = name(reader)?;
    match names.find(name) {
        None => Ok(name),
        Some(_index) => Err(ScriptFault::NameUsed(reader.position())),
    }
}

/// Checks that no token is left.
///
/// # Errors
///
/// `Expected` at the next token.
pub fn end(reader: &TokenReader) -> Result<(), ScriptFault>
    ensures all { OnOk result (reader.now.lexemes ≡ []) }
    ensures none { OnErr result (reader.now.lexemes ≢ []) }
{
    match reader.peek() {
        None => Ok(()),
        Some(_word) => Err(reader.expected()),
    }
}

/// Parses the tokens of a whole script.
#[tactic(auto, unfolding(crate::specs::BlockReader::script_at))]
fn script(alloc: Global, reader: &mut TokenReader) -> Result<Script, ScriptFault>
    ensures read { IfOk result (λ s. script_at reader.old ≡ Some (content_of s)) }
    ensures none { IfErr result (λ e. e ≢ Memory → script_at reader.old ≡ None) }
{
    let last_line = reader.last_line();
    let header = header(reader)?;
    let mut left = MOST_STATEMENTS;
    let items = items(alloc, reader, &mut left)?;
    let mut names = Names::new(alloc);
    let blocks = definitions(alloc, reader, &mut names, &mut left)?;
    let begin_line = reader.line();
    reader.expect(Keyword::Begin)?;
    let statements = statements(alloc, reader, &names, &mut left, DEEPEST)?;
    end(reader)?;
    Ok(Script::new(
        header, items, names, blocks, begin_line, statements, last_line,
    ))
}

/// Parses the script of a text, with the lines of its items, its statements, `begin` and its last
/// token.
///
/// # Errors
///
/// The faults of `lex`; then the first in text order of: `Number` for an atom where a value is
/// required that is not such a value in range, `Expected` for any other wrong token or the end of
/// the text, `Depth` for a brace more than 16 deep, `NameUsed` for a second definition of a name,
/// `NameUnknown` for applying a name that was not defined before, `Limit` for a 65th definition,
/// and for an item or statement past 8,192 in all. `Memory` if memory runs out. Each but `Memory`
/// has the position of the token at fault, or just past the text.
///
/// Barring allocation failure, a text is refused only if it is not a script: if no tree with every
/// number in range, with names well formed and different, and within all limits has these tokens on
/// these lines.
pub fn parse(alloc: Global, text: &str) -> Result<Script, ScriptFault>
    ensures script { IfOk result (λ s. IsScriptOf text.now s) }
    ensures none { IfErr result (λ e. e ≢ Memory → IsNoScript text.now) }
{
    let tokens = lex(alloc, text)?;
    let mut reader = TokenReader::new(text.as_bytes(), &tokens);
    let found = script(alloc, &mut reader)?;
    Ok(found)
}
