//! Texts of unknown origin in messages: names of files, and arguments.

use std::fmt::{self, Display, Formatter, Write};

/// Where a text is shown.
#[derive(Clone, Copy, Debug, PartialEq, Eq)]
pub enum Form {
    /// In a line of text. A control byte, 00 to 1F or 7F, is `\x` and two digits 0-9 A-F; a control
    /// character from U+0080 to U+009F, one that turns the direction of writing, and one of which
    /// nothing is seen is `\u{9B}` with its digits.
    Line = 1,
    /// In a string of JSON (RFC 8259 clause 7). `"` and `\` have a `\` before them; of the bytes
    /// below 20, 08, 09, 0A, 0C and 0D are `\b`, `\t`, `\n`, `\f` and `\r`, others `\u00` and two
    /// digits 0-9 a-f.
    Json = 2,
}

/// A text without the characters that would break the line or the string that it is part of. All
/// others are as they are.
#[derive(Clone, Copy, Debug, Drop, PartialEq, Eq)]
pub struct Escaped<'a> {
    text: &'a str,
    form: Form,
}

impl<'a> Escaped<'a> {
    /// A text as it is shown in a line of text.
    pub fn in_line(text: &'a str) -> Self {
        Escaped {
            text,
            form: Form::Line,
        }
    }

    /// A text as it is shown in a string of JSON, without the quotation marks.
    pub fn in_json(text: &'a str) -> Self {
        Escaped {
            text,
            form: Form::Json,
        }
    }
}

impl Display for Escaped<'_> {
    fn fmt<W: Write>(&self, f: &mut Formatter<W>) -> fmt::Result {
        for character in self.text.chars() {
            match self.form {
                Form::Line => write_in_line(character, f)?,
                Form::Json => write_in_json(character, f)?,
            }
        }
        Ok(())
    }
}

/// Writes a character of a line of text.
fn write_in_line<W: Write>(character: char, f: &mut Formatter<W>) -> fmt::Result {
    match character {
        '\0'..='\x1F' | '\x7F' => write!(f, "\\x{:02X}", u32::from(character)),
        _ if turns_a_terminal(character) || is_unseen(character) => {
            write!(f, "\\u{{{:X}}}", u32::from(character))
        }
        _ => f.write_char(character),
    }
}

/// Whether a terminal obeys a character rather than shows it: C1 controls, and the marks of the
/// direction of writing.
fn turns_a_terminal(character: char) -> bool {
    matches!(character,
        '\u{80}'..='\u{9F}' | '\u{61C}' | '\u{200E}' | '\u{200F}'
        | '\u{202A}'..='\u{202E}' | '\u{2066}'..='\u{2069}')
}

/// Whether nothing is seen of a character: soft hyphens, spaces without width, joiners, separators
/// of lines, fillers, selectors of variants, tags, and marks of notes.
fn is_unseen(character: char) -> bool {
    matches!(character,
        '\u{AD}' | '\u{34F}' | '\u{115F}' | '\u{1160}' | '\u{17B4}' | '\u{17B5}'
        | '\u{180B}'..='\u{180F}' | '\u{200B}'..='\u{200D}' | '\u{2028}' | '\u{2029}'
        | '\u{2060}'..='\u{2065}' | '\u{206A}'..='\u{206F}' | '\u{3164}'
        | '\u{FE00}'..='\u{FE0F}' | '\u{FEFF}' | '\u{FFA0}' | '\u{FFF0}'..='\u{FFFB}'
        | '\u{1BCA0}'..='\u{1BCA3}' | '\u{1D173}'..='\u{1D17A}' | '\u{E0000}'..='\u{E0FFF}')
}

/// Writes a character of a string of JSON.
fn write_in_json<W: Write>(character: char, f: &mut Formatter<W>) -> fmt::Result {
    match character {
        '"' => f.write_str("\\\""),
        '\\' => f.write_str("\\\\"),
        '\x08' => f.write_str("\\b"),
        '\t' => f.write_str("\\t"),
        '\n' => f.write_str("\\n"),
        '\x0C' => f.write_str("\\f"),
        '\r' => f.write_str("\\r"),
        '\0'..='\x1F' => write!(f, "\\u{:04x}", u32::from(character)),
        _ => f.write_char(character),
    }
}
