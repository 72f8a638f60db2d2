//! Tokens, their limits, and the states of the lexer.

use crate::fault::Position;

/// A token of a text: the bytes from `start` to `end`, exclusive, and the position of the first
/// byte.
#[derive(Clone, Copy, Debug, Default, PartialEq, Eq)]
pub struct Token {
    pub start: usize,
    pub end: usize,
    pub position: Position,
}

/// The limits on the tokens of a text.
#[derive(Clone, Copy, Debug, PartialEq, Eq)]
pub struct Limits {
    /// The maximum length of an atom in bytes.
    pub atom: usize,
    /// The last line on which a token may begin.
    pub line: usize,
}

/// The limits of a script: atoms of 32 bytes, tokens up to line 65,535.
pub const SCRIPT_LIMITS: Limits = Limits {
    atom: 32,
    line: 65_535,
};

/// No limits, for texts that are not scripts.
pub const NO_LIMITS: Limits = Limits {
    atom: usize::MAX,
    line: usize::MAX,
};

/// The maximum length of a script in bytes.
pub const MOST_BYTES: usize = 1_048_576;

/// The kind of a byte.
#[derive(Clone, Copy, Debug, PartialEq, Eq)]
pub enum Kind {
    /// Space, tab, carriage return or `;`.
    Blank,
    /// Line feed.
    LineEnd,
    /// `#`
    Hash,
    /// `{` or `}`
    Brace,
    /// A letter, a digit, `_`, `:` or `-`.
    Letter,
    /// Any other byte.
    Bad,
}

/// A byte offset in a text, with its line and column.
#[derive(Clone, Copy, Debug, PartialEq, Eq)]
pub struct Place {
    pub at: usize,
    pub position: Position,
}

/// The state of the lexer between two bytes.
#[derive(Clone, Copy, Debug, PartialEq, Eq)]
pub enum Inside {
    /// Neither an atom nor a comment.
    Nothing,
    /// A comment.
    Comment,
    /// An atom, which begins here.
    Atom(Place),
}
