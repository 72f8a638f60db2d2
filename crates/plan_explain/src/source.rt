//! A script's text: its tokens, where they are, and how a position of it is shown.

use script_front::{Position, ScriptFault, Token, lex};
use std::alloc::{AllocError, Global};
use std::fmt::{self, Display, Formatter};
use std::io::{self, Write};

/// A script's text with its tokens.
#[derive(Drop)]
pub(crate) struct Source<'a> {
    /// The text.
    pub(crate) text: &'a str,
    tokens: Vec<Token>,
}

/// Tokens in a row in one line of a text.
#[derive(Clone, Copy)]
pub(crate) struct Spot {
    /// The index of the first token.
    pub(crate) index: usize,
    /// The offset of the first byte.
    pub(crate) start: usize,
    /// The offset after the last byte.
    pub(crate) end: usize,
    /// The line.
    pub(crate) line: usize,
    /// Whether no token is before them in the line.
    pub(crate) is_first: bool,
    /// Whether there is also none behind them.
    pub(crate) is_whole: bool,
}

impl<'a> Source<'a> {
    /// The tokens of a text; none if it has no tokens within the limits of a script.
    pub(crate) fn new(alloc: Global, text: &'a str) -> Result<Source<'a>, AllocError> {
        match lex(alloc, text) {
            Ok(tokens) => Ok(Source { text, tokens }),
            Err(ScriptFault::Memory) => Err(AllocError),
            Err(_fault) => Ok(Source {
                text,
                tokens: Vec::new(alloc),
            }),
        }
    }

    /// The number of tokens.
    pub(crate) fn len(&self) -> usize {
        self.tokens.len()
    }

    /// The text of the token at this index; empty if there is none.
    pub(crate) fn word(&self, index: usize) -> &'a str {
        match self.tokens.get(index) {
            Some(token) => self.text.get(token.start..token.end).unwrap_or(""),
            None => "",
        }
    }

    /// The text of a spot.
    pub(crate) fn shown(&self, spot: &Spot) -> &'a str {
        self.text.get(spot.start..spot.end).unwrap_or("")
    }

    /// The position of the token at an index, if there is one.
    pub(crate) fn position(&self, index: usize) -> Option<Position> {
        Some(self.tokens.get(index)?.position)
    }

    /// The line of the token at this index; 0 if there is none.
    pub(crate) fn line(&self, index: usize) -> usize {
        self.position(index).map_or(0, |at| at.line)
    }

    /// Whether tokens in a row in one line, from this index on, are those of some words, `_` being
    /// any.
    fn has_at(&self, index: usize, words: &Source) -> bool {
        (0..words.len()).all(|offset| {
            let (at, word) = (index.saturating_add(offset), words.word(offset));
            (word == "_" || word == self.word(at)) && self.line(at) == self.line(index)
        })
    }

    /// The token at this index and those that follow it, in all so many; none if there are fewer,
    /// or no token.
    pub(crate) fn spot(&self, index: usize, count: usize) -> Option<Spot> {
        let behind = index.saturating_add(count);
        let first = self.tokens.get(index)?;
        let last = self.tokens.get(behind.saturating_sub(1))?;
        let line = first.position.line;
        let is_first = index == 0 || self.line(index - 1) != line;
        Some(Spot {
            index,
            start: first.start,
            end: last.end,
            line,
            is_first,
            is_whole: is_first && self.line(behind) != line,
        })
    }

    /// Where some words are in a line; none if they are not, or in two places, or no words.
    pub(crate) fn find(&self, line: usize, words: &Source) -> Option<Spot> {
        let is_it = |at: &usize| self.line(*at) == line && self.has_at(*at, words);
        let mut found = (0..self.len()).filter(is_it);
        let index = found.next()?;
        if words.len() == 0 || found.next().is_some() {
            return None;
        }
        self.spot(index, words.len())
    }

    /// Where some of these words are last, of those whose first token is before an index; none if
    /// they are nowhere, or no words.
    pub(crate) fn last_before(&self, before: usize, words: &[Source]) -> Option<Spot> {
        (0..before.min(self.len())).rev().find_map(|index| {
            let is_it = |words: &&Source| words.len() > 0 && self.has_at(index, *words);
            let found = words.iter().find(is_it)?;
            self.spot(index, found.len())
        })
    }

    /// Where some words are first after an index.
    pub(crate) fn first_after(&self, after: usize, words: &Source) -> Option<Spot> {
        let index = (after.saturating_add(1)..self.len()).find(|index| self.has_at(*index, words))?;
        self.spot(index, words.len())
    }

    /// The decimal after a word, the first one of the text; 0 if there is none.
    pub(crate) fn number_after(&self, word: &str) -> u32 {
        let number = |index: usize| number_in(self.word(index.saturating_add(1)));
        self.index_of(word).map_or(0, number)
    }

    /// The index of the first token that is this word, in any line.
    pub(crate) fn index_of(&self, word: &str) -> Option<usize> {
        (0..self.len()).find(|index| self.word(*index) == word)
    }

    /// The index of the only token of a line that is one of these words.
    pub(crate) fn index_in(&self, line: usize, one: &str, other: &str) -> Option<usize> {
        let is_it = |at: &usize| {
            self.line(*at) == line && (self.word(*at) == one || self.word(*at) == other)
        };
        let mut found = (0..self.len()).filter(is_it);
        let index = found.next()?;
        found.next().is_none().then_some(index)
    }

    /// The index of the brace that closes the last block of a statement that begins at this index.
    pub(crate) fn last_brace(&self, index: usize) -> Option<usize> {
        let last = self.closing(index)?;
        let next = last.saturating_add(1);
        if self.word(next) == "else" {
            return self.closing(next);
        }
        Some(last)
    }

    /// Whether a block of a statement that begins in a line ends in another line or after it.
    pub(crate) fn reaches(&self, first: usize, line: usize) -> bool {
        (0..self.len()).any(|index| {
            self.line(index) == first
                && matches!(self.word(index), "if" | "repeat" | "forever")
                && self
                    .last_brace(index)
                    .is_some_and(|last| self.line(last) >= line)
        })
    }

    /// The number of tokens before a position.
    pub(crate) fn count_before(&self, position: Position) -> usize {
        let mut tokens = self.tokens.as_slice().iter();
        let first = tokens.position(|token| !is_before(token.position, position));
        first.unwrap_or(self.len())
    }

    /// The index of the brace that closes the first block after this index.
    pub(crate) fn closing(&self, index: usize) -> Option<usize> {
        let mut depth = 0u32;
        for at in index..self.len() {
            match self.word(at) {
                "{" => depth = depth.saturating_add(1),
                "}" if depth <= 1 => return Some(at),
                "}" => depth -= 1,
                _ => {}
            }
        }
        None
    }

    /// The position of the last brace that is not closed.
    pub(crate) fn open_brace(&self) -> Option<Position> {
        let mut closed = 0u32;
        for index in (0..self.len()).rev() {
            match self.word(index) {
                "}" => closed = closed.saturating_add(1),
                "{" if closed == 0 => return self.position(index),
                "{" => closed -= 1,
                _ => {}
            }
        }
        None
    }

    /// The column of the token at an index; 0 if there is none.
    fn column(&self, index: usize) -> usize {
        self.position(index).map_or(0, |at| at.column)
    }

    /// The first line after a brace at this index, before the one that closes it, that is indented
    /// no more than the line of that brace and does not begin with a brace.
    fn unindented_after(&self, index: usize) -> Option<usize> {
        let line = self.line(index);
        let start = (0..index)
            .find(|at| self.line(*at) == line)
            .unwrap_or(index);
        let end = self.closing(index).unwrap_or(self.len());
        let at = (index..end).find(|at| {
            let new = self.line(*at);
            let is_new = new > line && new != self.line(at.saturating_sub(1));
            is_new && self.column(*at) <= self.column(start) && self.word(*at) != "}"
        })?;
        Some(self.line(at))
    }

    /// The lines of the innermost block that ends by its indentation before its brace is closed:
    /// where it begins, and the next line.
    pub(crate) fn unindented(&self) -> Option<(usize, usize)> {
        let braces = (0..self.len()).filter(|index| self.word(*index) == "{");
        let lines = |index: usize| Some((self.line(index), self.unindented_after(index)?));
        braces.filter_map(lines).last()
    }
}

/// The digits at the front of some bytes, as a number, and what follows them.
pub(crate) fn leading_number(bytes: &[u8]) -> (u32, &[u8]) {
    let mut number = 0u32;
    for (at, byte) in bytes.iter().enumerate() {
        if !byte.is_ascii_digit() {
            return (number, &bytes[at..]);
        }
        number = number
            .saturating_mul(10)
            .saturating_add(u32::from(*byte - b'0'));
    }
    (number, b"")
}

/// A word as a decimal; 0 if it is none.
pub(crate) fn number_in(word: &str) -> u32 {
    match leading_number(word.as_bytes()) {
        (number, []) => number,
        _ => 0,
    }
}

/// Whether a position is before another one.
pub(crate) fn is_before(a: Position, b: Position) -> bool {
    a.line < b.line || (a.line == b.line && a.column < b.column)
}

/// The most bytes of a line that are shown.
const SHOWN: usize = 160;

/// The offset of the first byte of a line, from 1; none if the text has no such line.
pub(crate) fn line_start(text: &[u8], number: usize) -> Option<usize> {
    if number == 1 {
        return Some(0);
    }
    let mut ends = text.iter().enumerate().filter(|(_, byte)| **byte == b'\n');
    let (end, _) = ends.nth(number.checked_sub(2)?)?;
    Some(end.saturating_add(1))
}

/// The bytes of a text from a position on; none past its end.
pub(crate) fn text_from(text: &[u8], position: Position) -> &[u8] {
    let start = line_start(text, position.line).unwrap_or(text.len());
    let at = start.saturating_add(position.column.saturating_sub(1));
    text.get(at..).unwrap_or(b"")
}

/// The atom at the front of some bytes; the first byte if they begin with none, and none if they
/// are empty.
pub(crate) fn token_at(bytes: &[u8]) -> &[u8] {
    let is_letter = |byte: &u8| byte.is_ascii_alphanumeric() || matches!(*byte, b'_' | b':' | b'-');
    match bytes.iter().position(|byte| !is_letter(byte)) {
        Some(end) => &bytes[..end.max(1)],
        None => bytes,
    }
}

/// The line of this number, from 1, without its end; empty if the text has none.
fn line_of(text: &[u8], number: usize) -> &[u8] {
    let start = line_start(text, number).unwrap_or(text.len());
    let rest = text.get(start..).unwrap_or(b"");
    let end = rest
        .iter()
        .position(|byte| *byte == b'\n')
        .unwrap_or(rest.len());
    match &rest[..end] {
        [line @ .., b'\r'] => line,
        line => line,
    }
}

/// Writes a line of the text, and a caret under a column of it. Of a long line the first bytes are
/// shown, or those around the column. Bytes that a terminal would not show are written as `?`.
pub(crate) fn show_position<W: Write>(
    text: &[u8],
    position: Position,
    out: &mut W,
) -> io::Result<()> {
    let line = line_of(text, position.line);
    let column = position.column.saturating_sub(1);
    let start = if column < SHOWN {
        0
    } else {
        column - SHOWN / 2
    };
    let end = line.len().min(start.saturating_add(SHOWN));
    out.write_all(b"    ")?;
    put_bytes(line.get(start..end).unwrap_or(b""), out)?;
    out.write_all(b"\n    ")?;
    for _column in start..column {
        out.write_all(b" ")?;
    }
    out.write_all(b"^\n")
}

/// Words of a text, with bytes that a terminal obeys by their numbers.
#[derive(Clone, Copy)]
pub(crate) struct Plain<'a>(pub(crate) &'a str);

impl Display for Plain<'_> {
    fn fmt<W: fmt::Write>(&self, f: &mut Formatter<W>) -> fmt::Result {
        for character in self.0.chars() {
            match character {
                '\0'..='\x1F' | '\x7F' => write!(f, "\\x{:02X}", u32::from(character))?,
                _ => write!(f, "{character}")?,
            }
        }
        Ok(())
    }
}

/// Writes bytes of a text.
pub(crate) fn put_bytes<W: Write>(bytes: &[u8], out: &mut W) -> io::Result<()> {
    for byte in bytes {
        let shown = match *byte {
            b'\t' => b' ',
            0x20..=0x7E => *byte,
            _ => b'?',
        };
        out.write_all(&[shown])?;
    }
    Ok(())
}
