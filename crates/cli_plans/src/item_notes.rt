//! Explains why the text of an event file or of a command file lists no items: what is expected at
//! the position of its fault, and a hint.

use crate::item_hints::{put_frames, put_hint};
use crate::item_place::{Listing, Wrong};
use console::escaped::Escaped;
use console::files::Files;
use plan_explain::{Note, note_on_byte, put_errors};
use plan_session::EventFault;
use script_tokens::Position;
use std::alloc::Global;
use std::io::{self, Write};
use std::str;

/// The position of a fault; none if it is out of memory.
pub(crate) fn position_of(fault: EventFault) -> Option<Position> {
    match fault {
        EventFault::Byte(at) | EventFault::Number(at) | EventFault::Expected(at) => Some(at),
        EventFault::Memory => None,
    }
}

/// Writes what is expected at a wrong token, and what is found.
fn put_expected(wrong: &Wrong, out: &mut Vec<u8>) -> io::Result<()> {
    write!(out, "expected {}; ", wrong.expected())?;
    let token = wrong.token();
    if token.is_empty() {
        return out.write_all(b"the text ends here");
    }
    write!(out, "found '{token}'")?;
    put_frames(wrong, out)
}

/// The note on a fault of a text. The error is out of memory.
fn note_on(
    alloc: Global,
    text: &str,
    listing: Listing,
    fault: EventFault,
    position: Position,
) -> io::Result<Note> {
    if let EventFault::Byte(_) = fault {
        return note_on_byte(alloc, text, position, listing.file());
    }
    let wrong = Wrong::at(text, listing, position);
    let mut note = Note {
        line: position.line,
        column: position.column,
        text: Vec::new(alloc),
        hint: Vec::new(alloc),
        shown: Some(position),
    };
    put_expected(&wrong, &mut note.text)?;
    put_hint(alloc, &wrong, &mut note.hint)?;
    Ok(note)
}

/// The lines that explain why the text of the file of this path lists no items, as editors read
/// them: `PATH:L:C: error: SENTENCE`, the line with a caret, and `PATH:L: hint: HINT`. None if the
/// fault is out of memory.
///
/// # Errors
///
/// `OutOfMemory`.
pub fn lines_on_items(
    alloc: Global,
    path: &str,
    text: &str,
    listing: Listing,
    fault: EventFault,
) -> io::Result<Vec<u8>> {
    let mut lines: Vec<u8> = Vec::new(alloc);
    if let Some(position) = position_of(fault) {
        let notes = [note_on(alloc, text, listing, fault, position)?];
        let path = Escaped::in_line(path).to_string(alloc)?;
        put_errors(path.as_str(), text, &notes, &mut lines)?;
    }
    Ok(lines)
}

/// Reports these lines on standard error; nothing if out of memory for them.
pub fn report_items<F: Files>(
    alloc: Global,
    path: &str,
    text: &str,
    listing: Listing,
    fault: EventFault,
    files: &mut F,
) {
    let Ok(lines) = lines_on_items(alloc, path, text, listing, fault) else {
        return;
    };
    if let Ok(text) = str::from_utf8(lines.as_slice()) {
        if !text.is_empty() {
            files.report(text.trim_end());
        }
    }
}
