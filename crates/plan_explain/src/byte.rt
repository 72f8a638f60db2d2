//! Explains a byte that is not allowed outside comments: the character that it begins, by its name
//! where texts from elsewhere have it, and what may have been meant.

use crate::note::Note;
use crate::source::{line_start, text_from};
use crate::trial::Refusal;
use crate::trier::Trier;
use script_front::Position;
use std::alloc::Global;
use std::io::{self, Write};
use std::str;

/// What is allowed.
const ALLOWED: &[u8] =
    b"letters, digits, '_', ':', '-', '{', '}', blanks and ';' are allowed there; '#' begins a comment";

/// A character that word processors and web pages put in the place of another one.
struct Stranger {
    character: char,
    name: &'static str,
    /// What is written in its place; nothing if it is empty.
    meant: &'static str,
}

/// Those that are known.
const STRANGERS: [Stranger; 14] = [
    Stranger {
        character: '\u{A0}',
        name: "a no-break space",
        meant: " ",
    },
    Stranger {
        character: '\u{202F}',
        name: "a narrow no-break space",
        meant: " ",
    },
    Stranger {
        character: '\u{2009}',
        name: "a thin space",
        meant: " ",
    },
    Stranger {
        character: '\u{3000}',
        name: "an ideographic space",
        meant: " ",
    },
    Stranger {
        character: '\u{2010}',
        name: "a hyphen",
        meant: "-",
    },
    Stranger {
        character: '\u{2011}',
        name: "a no-break hyphen",
        meant: "-",
    },
    Stranger {
        character: '\u{2013}',
        name: "an en dash",
        meant: "-",
    },
    Stranger {
        character: '\u{2014}',
        name: "an em dash",
        meant: "-",
    },
    Stranger {
        character: '\u{2212}',
        name: "a minus sign",
        meant: "-",
    },
    Stranger {
        character: '\u{AD}',
        name: "a soft hyphen",
        meant: "",
    },
    Stranger {
        character: '\u{200B}',
        name: "a zero-width space",
        meant: "",
    },
    Stranger {
        character: '\u{FEFF}',
        name: "a byte-order mark",
        meant: "",
    },
    Stranger {
        character: '\u{2028}',
        name: "a line separator",
        meant: " ",
    },
    Stranger {
        character: '\u{A7}',
        name: "a section sign",
        meant: "",
    },
];

/// The known character at a position of a text.
fn stranger_at(text: &str, position: Position) -> Option<&'static Stranger> {
    let rest = str::from_utf8(text_from(text.as_bytes(), position)).ok()?;
    let first = rest.chars().next()?;
    STRANGERS
        .iter()
        .find(|stranger| stranger.character == first)
}

/// Writes which byte or character is not allowed, in what file.
fn put_byte(text: &str, position: Position, file: &str, note: &mut Note) -> io::Result<()> {
    let rest = text_from(text.as_bytes(), position);
    let character = str::from_utf8(rest)
        .ok()
        .and_then(|rest| rest.chars().next());
    match (stranger_at(text, position), character) {
        (Some(stranger), _) => write!(
            &mut note.text,
            "{} (U+{:04X})",
            stranger.name,
            u32::from(stranger.character)
        )?,
        (None, Some(other)) if !other.is_ascii() => {
            write!(&mut note.text, "the character U+{:04X}", u32::from(other))?
        }
        _ => {
            let byte = rest.first().copied().unwrap_or(0);
            write!(&mut note.text, "the byte {byte:02X}")?
        }
    }
    write!(&mut note.text, " is not allowed in {file} outside comments")
}

/// The note on a byte at a position that is not allowed in the text of a file, as `a script`.
///
/// # Errors
///
/// `OutOfMemory`.
pub fn note_on_byte(alloc: Global, text: &str, position: Position, file: &str) -> io::Result<Note> {
    let mut note = Note::at(alloc, position);
    let bytes = text_from(text.as_bytes(), position);
    if bytes.len() == text.len() && bytes.starts_with(&[0xEF, 0xBB, 0xBF]) {
        note.shown = None;
        note.text
            .write_all(b"a byte-order mark of UTF-8 stands before the text")?;
        note.hint.write_all(b"save it without one")?;
        return Ok(note);
    }
    put_byte(text, position, file, &mut note)?;
    note.hint.write_all(ALLOWED)?;
    Ok(note)
}

/// Tries what is meant by the character at a position of a script.
fn attempt_meant(trier: &mut Trier, text: &str, position: Position) -> io::Result<()> {
    let Some(stranger) = stranger_at(text, position) else {
        return Ok(());
    };
    let start = line_start(text.as_bytes(), position.line).unwrap_or(text.len());
    let start = start.saturating_add(position.column.saturating_sub(1));
    let end = start.saturating_add(stranger.character.len_utf8());
    let sentence = match stranger.meant {
        "" => "leave it out",
        " " => "write a blank in its place",
        _ => "write '-' in its place",
    };
    Ok(trier.write_bytes(position.line, [start, end], stranger.meant, sentence)?)
}

/// Explains a byte that is not allowed in a script.
pub(crate) fn explain_byte(alloc: Global, text: &str, position: Position) -> io::Result<Note> {
    let mut note = note_on_byte(alloc, text, position, "a script")?;
    let mut trier = Trier::new(alloc, text, Refusal::Token(position))?;
    attempt_meant(&mut trier, text, position)?;
    if !trier.is_at_loss() {
        note.hint.clear();
        trier.put_hint(&mut note)?;
    }
    Ok(note)
}
