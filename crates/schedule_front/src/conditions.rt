//! Parsing the conditions of overlays.

ghost use Rattle.std.specs.Prelude.{◌≡◌, ◌≢◌, ◌-◌, ◌≤◌, ◌<◌, None, Some, IfOk, OnOk, IfErr, OnErr};
ghost use Rattle.script_tokens.specs.declared.fault.ScriptFault.TheVariants.{Memory};
ghost use Rattle.script_tokens.specs.Reading.{Takes};
ghost use Rattle.schedule_front.specs.Tree.{alternatives_of};
ghost use Rattle.schedule_front.specs.Readers.{test_at, tests_at, condition_at};
ghost use Rattle.schedule_front.specs.Parsing.{ReadsTests, ReadsCondition, HasMoreTests};
ghost use Rattle.schedule_front.specs.Parsing.{HasMoreAlternatives};

use crate::tree::Test;
use script_front::fault::ScriptFault;
use script_front::keyword::Keyword;
use script_front::token_reader::TokenReader;
use script_front::values::{contact, level, time};
use std::alloc::Global;

/// The maximum number of tests of a condition.
pub const MOST_TESTS: u8 = 32;

/// `contact C closed`, `contact C open`, or `time A to B`
#[tactic(auto, unfolding(crate::specs::Readers::test_at))]
fn test(reader: &mut TokenReader) -> Result<Test, ScriptFault>
    ensures { Takes (test_at reader.old.lexemes) result reader.old reader.new }
{
    if reader.is_next(Keyword::Contact) {
        reader.advance();
        let contact = contact(reader)?;
        let closed = level(reader)?;
        return Ok(Test::Contact { contact, closed });
    }
    reader.expect(Keyword::Time)?;
    let from = time(reader)?;
    reader.expect(Keyword::To)?;
    let to = time(reader)?;
    Ok(Test::Time { from, to })
}

/// The fault where no more test may follow: `Limit` if one begins, else `Expected`.
fn no_room(reader: &TokenReader) -> ScriptFault
    ensures { result ≢ Memory }
{
    match reader.keyword() {
        Some(Keyword::Contact) => ScriptFault::Limit(reader.position()),
        Some(Keyword::Time) => ScriptFault::Limit(reader.position()),
        _ => reader.expected(),
    }
}

/// Reads a test; `room` is how many more the condition may have.
fn one_test(reader: &mut TokenReader, room: &mut u8) -> Result<Test, ScriptFault>
    ensures read { IfOk result (λ t. (test_at reader.old.lexemes ≡ Some (t, reader.new.lexemes)) ×
        (reader.new.lines ≡ reader.old.lines)) }
    ensures counts { OnOk result ((1 ≤ room.old) × (room.new ≡ room.old - 1)) }
    ensures none { OnErr result (1 ≤ room.old → test_at reader.old.lexemes ≡ None) }
{
    if *room == 0 {
        return Err(no_room(reader));
    }
    *room -= 1;
    test(reader)
}

/// Reads a test and appends it to a list.
fn next_test(
    reader: &mut TokenReader,
    room: &mut u8,
    list: &mut Vec<Test>,
) -> Result<(), ScriptFault>
    ensures more { OnOk result (HasMoreTests list.old.items list.new.items room.old room.new
        reader.old reader.new) }
    ensures none { IfErr result (λ e. e ≢ Memory → 1 ≤ room.old → test_at reader.old.lexemes ≡
        None) }
{
    let test = one_test(reader, room)?;
    match list.push(test) {
        Ok(()) => Ok(()),
        Err(_full) => Err(ScriptFault::Memory),
    }
}

/// Tests with `and` between each two.
#[tactic(auto, using(crate::proofs::ReadingTests::first_read, crate::proofs::ReadingTests::none_first, crate::proofs::ReadingTests::next_read, crate::proofs::ReadingTests::none_next, crate::proofs::ReadingTests::tests_read_on))]
fn tests(alloc: Global, reader: &mut TokenReader, room: &mut u8) -> Result<Vec<Test>, ScriptFault>
    ensures read { IfOk result (λ v. ReadsTests v.items room.old room.new reader.old reader.new) }
    ensures fewer { OnOk result (room.new < room.old) }
    ensures none { IfErr result (λ e. e ≢ Memory → tests_at room.old reader.old.lexemes ≡ None) }
{
    let mut list = Vec::new(alloc);
    next_test(reader, room, &mut list)?;
    'tests: while reader.is_next(Keyword::And) {
        reader.advance();
        next_test(reader, room, &mut list)?;
    }
    Ok(list)
}

/// Reads tests that hold together and appends them to the alternatives of a condition.
#[tactic(auto, using(crate::proofs::ReadingTests::one_longer))]
fn next_tests(
    alloc: Global,
    reader: &mut TokenReader,
    room: &mut u8,
    list: &mut Vec<Vec<Test>>,
) -> Result<(), ScriptFault>
    ensures more { OnOk result (HasMoreAlternatives (alternatives_of list.old.items)
        (alternatives_of list.new.items) room.old room.new reader.old reader.new) }
    ensures none { IfErr result (λ e. e ≢ Memory → tests_at room.old reader.old.lexemes ≡ None) }
{
    let tests = tests(alloc, reader, room)?;
    match list.push(tests) {
        Ok(()) => Ok(()),
        Err(_full) => Err(ScriptFault::Memory),
    }
}

/// A condition: tests that hold together, with `or` between each two of such alternatives.
///
/// # Errors
///
/// The first in text order of: `Expected` where neither `contact` nor `time` begins a test, and for
/// a wrong token in one; `Number` for a contact or a time that is none; `Limit` where a 33rd test
/// begins. `Memory` if memory runs out.
#[tactic(auto, using(crate::proofs::ReadingTests::begins_on, crate::proofs::ReadingTests::none_begins, crate::proofs::ReadingTests::goes_on, crate::proofs::ReadingTests::none_on, crate::proofs::ReadingTests::condition_read))]
pub fn condition(alloc: Global, reader: &mut TokenReader) -> Result<Vec<Vec<Test>>, ScriptFault>
    ensures read { IfOk result (λ v. ReadsCondition (alternatives_of v.items) reader.old
        reader.new) }
    ensures none { IfErr result (λ e. e ≢ Memory → condition_at reader.old.lexemes ≡ None) }
{
    let mut room = MOST_TESTS;
    let mut alternatives = Vec::new(alloc);
    next_tests(alloc, reader, &mut room, &mut alternatives)?;
    'alternatives: while reader.is_next(Keyword::Or) {
        reader.advance();
        next_tests(alloc, reader, &mut room, &mut alternatives)?;
    }
    Ok(alternatives)
}
