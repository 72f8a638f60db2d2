//! Notes on a refused text or code: a sentence on a place, and a hint; and how they are printed.

use crate::source::show_position;
use script_front::Position;
use std::alloc::Global;
use std::io::{self, Write};

/// What is to be said of a place.
#[derive(Drop)]
pub struct Note {
    /// The line, from 1; 0 if a code has none.
    pub line: usize,
    /// The column, from 1; 0 if the whole line is meant.
    pub column: usize,
    /// What is wrong, without a line feed.
    pub text: Vec<u8>,
    /// What would correct it, without a line feed; empty if nothing is known.
    pub hint: Vec<u8>,
    /// The position that is shown with a caret, if any.
    pub shown: Option<Position>,
}

impl Note {
    /// A note on a line, without words yet.
    pub(crate) fn on_line(alloc: Global, line: u16) -> Note {
        Note {
            line: usize::from(line),
            column: 0,
            text: Vec::new(alloc),
            hint: Vec::new(alloc),
            shown: None,
        }
    }

    /// A note on a position, which is shown.
    pub(crate) fn at(alloc: Global, position: Position) -> Note {
        Note {
            line: position.line,
            column: position.column,
            shown: Some(position),
            ..Note::on_line(alloc, 0)
        }
    }
}

/// Writes notes on the text of this path, each with `word` before its sentence, and with its place
/// before its hint if `is_placed`.
fn put_each<W: Write>(
    path: &str,
    text: &str,
    notes: &[Note],
    word: &str,
    is_placed: bool,
    out: &mut W,
) -> io::Result<()> {
    for note in notes {
        let line = note.line;
        write!(out, "{path}:{line}:")?;
        if note.column > 0 {
            write!(out, "{}:", note.column)?;
        }
        out.write_all(word.as_bytes())?;
        out.write_all(note.text.as_slice())?;
        out.write_all(b"\n")?;
        if let Some(position) = note.shown {
            show_position(text.as_bytes(), position, out)?;
        }
        if !note.hint.is_empty() {
            if is_placed {
                write!(out, "{path}:{line}: ")?;
            }
            out.write_all(b"hint: ")?;
            out.write_all(note.hint.as_slice())?;
            out.write_all(b"\n")?;
        }
    }
    Ok(())
}

/// Writes notes on the text of this path: each as `PATH:L:C: SENTENCE`, the line with a caret, and
/// `hint: HINT`.
///
/// # Errors
///
/// Those of the writer.
pub fn put_notes<W: Write>(path: &str, text: &str, notes: &[Note], out: &mut W) -> io::Result<()> {
    put_each(path, text, notes, " ", false, out)
}

/// Writes notes on the text of this path as editors read them: each as `PATH:L:C: error: SENTENCE`,
/// the line with a caret, and `PATH:L: hint: HINT`.
///
/// # Errors
///
/// Those of the writer.
pub fn put_errors<W: Write>(path: &str, text: &str, notes: &[Note], out: &mut W) -> io::Result<()> {
    put_each(path, text, notes, " error: ", true, out)
}
