//! Explains why a text is not a script.

use crate::byte::explain_byte;
use crate::expected::Expected;
use crate::keywords::HEADER;
use crate::list::push_owned;
use crate::note::Note;
use crate::probe::Front;
use crate::repair::{Wrong, attempt_until, is_close, is_level};
use crate::source::{Source, leading_number, put_bytes, text_from, token_at};
use crate::trial::{Refusal, TextPatch, patched, position_of};
use crate::trier::Trier;
use script_front::{Position, ScriptFault, parse};
use std::alloc::{AllocError, Global};
use std::io::{self, Write};

/// Tokens one of which is valid wherever a number, an identifier or a profile is, other than a
/// time.
const STAND_INS: [&str; 7] = ["1", "2", "12", "8", "A1B2", "A1B2C3D4", "3-A"];

/// The most numbers that are explained beside the first one.
const MOST: u32 = 20;

/// The token at a position of a text; empty past its end.
fn token_of(text: &str, position: Position) -> &[u8] {
    token_at(text_from(text.as_bytes(), position))
}

/// Writes the token at a position, after `word`.
fn put_found<W: Write>(text: &str, position: Position, word: &str, out: &mut W) -> io::Result<()> {
    let token = token_of(text, position);
    if token.is_empty() {
        return out.write_all(b"the script ends here");
    }
    write!(out, "{word}'")?;
    put_bytes(token, out)?;
    out.write_all(b"'")
}

/// Whether a token is a header keyword where another one is expected.
fn is_out_of_order(front: &Front, token: &[u8]) -> Result<bool, AllocError> {
    let mut is_wanted = false;
    for word in HEADER {
        is_wanted = is_wanted || (word.as_bytes() != token && front.passes(word)?);
    }
    Ok(is_wanted && HEADER.iter().any(|word| word.as_bytes() == token))
}

/// The line of the token before one at fault, if it is another one, and that token does not end an
/// item or a statement.
fn line_before(
    source: &Source,
    front: &Front,
    index: usize,
    position: Position,
) -> Result<Option<usize>, AllocError> {
    let line = source.line(index.saturating_sub(1));
    if index == 0 || position.line == line {
        return Ok(None);
    }
    let budget = source.index_of("budget");
    let is_in_header = budget.is_none_or(|at| index <= at.saturating_add(2));
    if is_in_header || front.passes("join")? || front.passes("begin")? {
        return Ok(None);
    }
    Ok(Some(line))
}

/// Writes what is expected of the token at a position, and what is found.
fn put_expected(
    text: &str,
    position: Position,
    expected: &Expected,
    after: Option<usize>,
    note: &mut Note,
) -> io::Result<()> {
    let out = &mut note.text;
    out.write_all(b"expected ")?;
    expected.put(out)?;
    if let Some(line) = after {
        write!(out, " to go on from line {line}")?;
    }
    out.write_all(b"; ")?;
    put_found(text, position, "found ", out)
}

/// Says of a time in the place of frames how many they are.
fn put_frames(trier: &Trier, wrong: &Wrong, frames: u32, note: &mut Note) -> io::Result<()> {
    let out = &mut note.text;
    out.write_all(b": a frame is 24 ms, so ")?;
    match leading_number(wrong.token) {
        (number, unit @ (b"s" | b"sec")) if unit.len() < wrong.token.len() => {
            write!(out, "{number} s are")?
        }
        (_, unit) if unit.len() < wrong.token.len() => {
            put_bytes(wrong.token, out)?;
            out.write_all(b" is")?
        }
        _ => {
            let number = trier.source.word(wrong.spot.index.saturating_sub(1));
            write!(out, "{number} ")?;
            put_bytes(wrong.token, out)?;
            out.write_all(b" are")?
        }
    }
    write!(out, " {frames} frames")?;
    if wrong.token.contains(&b':') {
        out.write_all(b"; 'until' waits for a time of day")?;
    }
    Ok(())
}

/// Says more of an invalid token than what is expected.
fn put_more(trier: &Trier, wrong: &Wrong, note: &mut Note) -> io::Result<()> {
    if let Some(frames) = wrong.frames(trier) {
        return put_frames(trier, wrong, frames, note);
    }
    let out = &mut note.text;
    let more = match (wrong.front.last, wrong.token) {
        ("mode", b"1") => ": mode I is the default",
        (_, b"and") => ": the alternatives of a wait are joined by 'or'",
        (_, b"uep") => ": plans have equal error protection only",
        ("at", token) if token.contains(&b':') => {
            ": a commit is at a CIF count, and 'until' waits for a time of day"
        }
        _ => "",
    };
    out.write_all(more.as_bytes())
}

/// Advises on the end of a text within braces: which brace is open, and which block ends before it
/// by its indentation.
fn advise_brace(source: &Source, line: usize, out: &mut Vec<u8>) -> io::Result<()> {
    write!(out, "the brace opened in line {line} is not closed")?;
    match source.unindented() {
        Some((first, next)) => write!(
            out,
            "; by its indentation, the block of line {first} ends before line {next}"
        ),
        None => Ok(()),
    }
}

/// Advises on an invalid token: by what may have been meant, or else in words.
fn advise_token(
    trier: &mut Trier,
    wrong: &Wrong,
    expected: &Expected,
    note: &mut Note,
) -> io::Result<()> {
    if is_out_of_order(wrong.front, wrong.token)? {
        return note.hint.write_all(
            b"the header's order: 'ensemble', 'mode', which may be left out, 'period', 'notice', \
             'budget'",
        );
    }
    if is_level(wrong.token) && wrong.front.passes("closed")? {
        return note.hint.write_all(
            b"write 'closed' where the input's circuit is closed, 'open' where it is not",
        );
    }
    wrong.attempt_all(trier)?;
    if let Some(keyword) = expected.only_keyword() {
        trier.put(keyword)?;
    }
    put_more(trier, wrong, note)?;
    trier.put_hint(note)
}

/// Explains an invalid token: what is valid, and what may have been meant.
fn explain_token(alloc: Global, text: &str, position: Position, note: &mut Note) -> io::Result<()> {
    let mut trier = Trier::new(alloc, text, Refusal::Token(position))?;
    let index = trier.source.count_before(position);
    trier.spot = trier.source.spot(index, 1);
    let front = Front::new(alloc, &trier.source, index)?;
    let expected = Expected::at(&front)?;
    let after = line_before(&trier.source, &front, index, position)?;
    put_expected(text, position, &expected, after, note)?;
    let token = token_of(text, position);
    attempt_until(&mut trier, index)?;
    if !trier.is_at_loss() {
        if token.is_empty() {
            note.shown = trier.source.position(index.saturating_sub(1));
        }
        return trier.put_hint(note);
    }
    if let Some(spot) = trier.spot {
        let front = &front;
        return advise_token(&mut trier, &Wrong { front, spot, token }, &expected, note);
    }
    match trier.source.open_brace() {
        Some(brace) if token.is_empty() => {
            note.shown = Some(brace);
            advise_brace(&trier.source, brace.line, &mut note.hint)
        }
        _ => Ok(()),
    }
}

/// Explains a name that is not defined before; the names of defined blocks that are like it are
/// tried.
fn explain_unknown(
    alloc: Global,
    text: &str,
    position: Position,
    note: &mut Note,
) -> io::Result<()> {
    put_found(text, position, "", &mut note.text)?;
    note.text
        .write_all(b" is not the name of a block that is defined before")?;
    let mut trier = Trier::new(alloc, text, Refusal::Token(position))?;
    trier.advice.write_all(
        b"'define' the block above the line that applies it; a block does not apply itself",
    )?;
    let count = trier.source.count_before(position);
    let Some(spot) = trier.source.spot(count, 1) else {
        return trier.put_hint(note);
    };
    for index in 1..count {
        let name = trier.source.word(index);
        let is_name = trier.source.word(index.saturating_sub(1)) == "define";
        if is_name && is_close(name.as_bytes(), token_of(text, position)) {
            trier.write_token(spot, name)?;
        }
    }
    trier.put_hint(note)
}

/// Explains a token by what is wrong with it, and a hint.
fn explain_found(
    text: &str,
    position: Position,
    what: &str,
    hint: &str,
    note: &mut Note,
) -> io::Result<()> {
    put_found(text, position, "", &mut note.text)?;
    note.text.write_all(what.as_bytes())?;
    note.hint.write_all(hint.as_bytes())
}

/// Explains an exceeded limit.
fn explain_limit(text: &str, position: Position, note: &mut Note) -> io::Result<()> {
    let token = token_of(text, position);
    let letters = token.len();
    let what = if text.len() > 1_048_576 {
        "the text has more than 1048576 bytes"
    } else if position.line > 65_535 {
        "a token is after line 65535"
    } else if letters > 32 {
        return write!(
            &mut note.text,
            "a token of {letters} bytes; the longest has 32"
        );
    } else if token == b"define".as_slice() {
        "the 65th definition; a script has 64 at most"
    } else {
        "the 8193rd item or statement; a script has 8192 at most"
    };
    note.shown = None;
    note.text.write_all(what.as_bytes())
}

/// The position of the first number out of range in the header and the items of a text, if it is
/// the text's first fault.
fn bad_number(alloc: Global, source: &Source) -> Result<Option<Position>, AllocError> {
    let position = match parse(alloc, source.text) {
        Err(ScriptFault::Memory) => return Err(AllocError),
        Err(ScriptFault::Number(position)) => position,
        _ => return Ok(None),
    };
    let begin = source.index_of("begin").unwrap_or(source.len());
    Ok((begin >= source.count_before(position)).then_some(position))
}

/// The text with a valid token in the place of its first number out of range, on which a note is
/// appended if `is_new`; none if it has no such number first, or no token is valid there.
fn correct_one(
    alloc: Global,
    original: &Source,
    text: &str,
    is_new: bool,
    notes: &mut Vec<Note>,
) -> io::Result<Option<String>> {
    let source = Source::new(alloc, text)?;
    let Some(position) = bad_number(alloc, &source)? else {
        return Ok(None);
    };
    let index = source.count_before(position);
    let front = Front::new(alloc, &source, index)?;
    if let (true, Some(position)) = (is_new, original.position(index)) {
        let mut note = Note::at(alloc, position);
        put_expected(
            original.text,
            position,
            &Expected::at(&front)?,
            None,
            &mut note,
        )?;
        push_owned(notes, note)?;
    }
    let Some(spot) = source.spot(index, 1) else {
        return Ok(None);
    };
    for token in STAND_INS {
        if front.passes(token)? {
            return Ok(patched(alloc, text, &TextPatch::at(alloc, &spot, token)?)?);
        }
    }
    Ok(None)
}

/// Appends a note on each number that is out of range in the header and the items of a text after
/// its first fault: it is found with valid ones in the place of those before it.
fn note_numbers(alloc: Global, text: &str, notes: &mut Vec<Note>) -> io::Result<()> {
    let original = Source::new(alloc, text)?;
    let mut corrected = String::from_str(alloc, text)?;
    for number in 0..MOST {
        let next = correct_one(alloc, &original, corrected.as_str(), number > 0, notes)?;
        let Some(next) = next else {
            return Ok(());
        };
        corrected = next;
    }
    Ok(())
}

/// Notes on why a text is not a script: the position of the fault, what is valid there and, if one
/// is found, the token that may have been meant; and each further number of the header and the
/// items that is out of range. None if the fault is out of memory.
///
/// A token that may have been meant was tried: with it the first fault of the text, if it has one,
/// is after it; where `then it is accepted` follows, `compile` accepts the text.
///
/// # Errors
///
/// `OutOfMemory`.
pub fn notes_on_fault(alloc: Global, text: &str, fault: ScriptFault) -> io::Result<Vec<Note>> {
    let mut notes = Vec::new(alloc);
    let Some(position) = position_of(fault) else {
        return Ok(notes);
    };
    let mut note = Note::at(alloc, position);
    match fault {
        ScriptFault::Byte(at) => note = explain_byte(alloc, text, at)?,
        ScriptFault::Number(at) | ScriptFault::Expected(at) => {
            explain_token(alloc, text, at, &mut note)?
        }
        ScriptFault::Depth(at) => explain_found(
            text,
            at,
            " would be more than 16 braces deep",
            "put an inner block into a 'define' and 'apply' it",
            &mut note,
        )?,
        ScriptFault::NameUsed(at) => explain_found(
            text,
            at,
            " is the name of a block that is defined before",
            "give one of both another name",
            &mut note,
        )?,
        ScriptFault::NameUnknown(at) => explain_unknown(alloc, text, at, &mut note)?,
        ScriptFault::Limit(at) => explain_limit(text, at, &mut note)?,
        ScriptFault::Memory => {}
    }
    push_owned(&mut notes, note)?;
    if let ScriptFault::Number(_) = fault {
        note_numbers(alloc, text, &mut notes)?;
    }
    Ok(notes)
}
