//! A wrong token of an event file or of a command file, and the item that it is in.

use plan_session::{CommandList, EventFault, StepList};
use script_tokens::{NO_LIMITS, Position, Scanner};

/// What a text lists.
#[derive(Clone, Copy, Debug, PartialEq, Eq)]
pub enum Listing {
    /// The steps of an event file.
    Steps = 1,
    /// The commands of a command file.
    Commands = 2,
}

impl Listing {
    /// What its file is called.
    pub(crate) fn file(self) -> &'static str {
        match self {
            Listing::Steps => "an event file",
            Listing::Commands => "a command file",
        }
    }

    /// The words with which its items begin.
    pub(crate) fn words(self) -> &'static [&'static str] {
        match self {
            Listing::Steps => &["frames", "contact"],
            Listing::Commands => &["run", "next", "contact", "break", "clear", "show"],
        }
    }

    /// How many tokens follow the first one of an item.
    fn further(self, word: &str) -> usize {
        match word {
            "contact" => 2,
            "frames" | "run" | "break" => 1,
            _ => 0,
        }
    }

    /// The first fault of a text, if it does not list such items.
    pub(crate) fn fault_of(self, text: &str) -> Option<EventFault> {
        match self {
            Listing::Steps => StepList::new(text).err(),
            Listing::Commands => CommandList::new(text).err(),
        }
    }
}

/// A token that is wrong where it is, and the item that it is in.
#[derive(Clone, Copy)]
pub(crate) struct Wrong<'a> {
    /// The text.
    pub(crate) text: &'a str,
    /// What it lists.
    pub(crate) listing: Listing,
    /// The first word of the item; where the token is to begin one, of the item before it, if there
    /// is one.
    pub(crate) item: &'a str,
    /// The offset of that word.
    pub(crate) item_start: usize,
    /// How many tokens of the item are before the token: 0 where it is to begin one.
    pub(crate) index: usize,
    /// The offset of the token; the length of the text past its end.
    pub(crate) start: usize,
    /// The offset behind it.
    pub(crate) end: usize,
}

impl<'a> Wrong<'a> {
    /// The token at a position of a text whose tokens before it are right.
    pub(crate) fn at(text: &'a str, listing: Listing, position: Position) -> Wrong<'a> {
        let mut wrong = Wrong {
            text,
            listing,
            item: "",
            item_start: 0,
            index: 0,
            start: text.len(),
            end: text.len(),
        };
        let mut left = 0usize;
        let mut scanner = Scanner::new(text, NO_LIMITS);
        for _token in 0..text.len() {
            let Ok(Some(token)) = scanner.next() else {
                return wrong;
            };
            if token.position == position {
                wrong.start = token.start;
                wrong.end = token.end;
                return wrong;
            }
            left = wrong.pass(token.start, token.end, left);
        }
        wrong
    }

    /// Goes on behind a token that is right, where so many of the item's follow before it; returns
    /// how many follow it.
    fn pass(&mut self, start: usize, end: usize, left: usize) -> usize {
        let word = self.text.get(start..end).unwrap_or("");
        let mut following = left.saturating_sub(1);
        if left == 0 {
            self.item = word;
            self.item_start = start;
            self.index = 0;
            following = self.listing.further(word);
        }
        self.index = if following == 0 {
            0
        } else {
            self.index.saturating_add(1)
        };
        following
    }

    /// The token; empty past the end of the text.
    pub(crate) fn token(&self) -> &'a str {
        self.text.get(self.start..self.end).unwrap_or("")
    }

    /// The token behind it in its line, and the offset behind that; empty if there is none.
    pub(crate) fn next(&self) -> (&'a str, usize) {
        let rest = self.text.get(self.end..).unwrap_or("");
        match Scanner::new(rest, NO_LIMITS).next() {
            Ok(Some(token)) if token.position.line == 1 => (
                rest.get(token.start..token.end).unwrap_or(""),
                self.end.saturating_add(token.end),
            ),
            _ => ("", self.end),
        }
    }

    /// What is expected in its place.
    pub(crate) fn expected(&self) -> &'static str {
        match (self.index, self.item, self.listing) {
            (0, _, Listing::Steps) => "'frames' or 'contact'",
            (0, _, Listing::Commands) => "'run', 'next', 'contact', 'break', 'clear' or 'show'",
            (1, "contact", _) => "a contact, 0 to 15",
            (_, "contact", _) => "'closed' or 'open'",
            (_, "break", _) => "a line of the script, 1 to 65535",
            _ => "a number of frames, 1 to 3600000",
        }
    }
}
