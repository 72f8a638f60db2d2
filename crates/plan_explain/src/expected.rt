//! Describes what is valid at a position of a script.

use crate::keywords::{HEADER, ITEMS, OTHERS, WAITS};
use crate::list::push_owned;
use crate::probe::Front;
use std::alloc::AllocError;
use std::io::{self, Write};

/// What is valid after a front, as phrases.
#[derive(Drop)]
pub(crate) struct Expected<'a> {
    front: &'a Front<'a>,
    phrases: Vec<String>,
}

/// Tokens of a kind, one of which is tried, and what the kind is called: identifiers of eight
/// digits before those of four.
const KINDS: [(&str, &str); 4] = [
    (
        "A1B2C3D4",
        "an SId: four or eight digits 0-9 A-F, in capitals and without 0x",
    ),
    (
        "A1B2",
        "an EId: four digits 0-9 A-F, in capitals and without 0x",
    ),
    ("3-A", "a protection profile, 1-A to 4-A or 1-B to 4-B"),
    ("06:00:00", "a time HH:MM:SS, 00:00:00 to 23:59:59"),
];

/// What the name of a block is.
const NAME: &str =
    "the name of a block: a lower-case letter, then lower-case letters, digits or '_', and no keyword";

impl<'a> Expected<'a> {
    /// Adds those of some keywords that are valid.
    fn add_tokens(&mut self, words: &[&str]) -> Result<(), AllocError> {
        for word in words {
            if self.front.passes(word)? {
                push_owned(&mut self.phrases, format!(in self.front.alloc; "'{word}'")?)?;
            }
        }
        Ok(())
    }

    /// Adds a phrase, if what it says is valid.
    fn add_if(&mut self, is_valid: bool, phrase: &str) -> Result<(), AllocError> {
        if is_valid {
            push_owned(
                &mut self.phrases,
                String::from_str(self.front.alloc, phrase)?,
            )?;
        }
        Ok(())
    }

    /// Adds the first of some kinds of tokens that is valid.
    fn add_kind(&mut self, kinds: &[(&str, &str)]) -> Result<(), AllocError> {
        for (token, phrase) in kinds {
            if self.front.passes(token)? {
                return self.add_if(true, phrase);
            }
        }
        Ok(())
    }

    /// Adds a decimal, with its range.
    fn add_number(&mut self) -> Result<(), AllocError> {
        let Some((low, high)) = self.front.range()? else {
            return Ok(());
        };
        let last = self.front.last;
        let what = number_after(last.as_bytes(), high);
        let high = if high == 1023 && last == "at" {
            863
        } else {
            high
        };
        let phrase = if low == high {
            format!(in self.front.alloc; "{what}, {low}")?
        } else {
            format!(in self.front.alloc; "{what}, {low} to {high}")?
        };
        push_owned(&mut self.phrases, phrase)
    }

    /// Collects what is valid after the front. Where a statement is, neither the keywords of items
    /// are named nor those with which a wait may go on.
    pub(crate) fn at(front: &'a Front<'a>) -> Result<Expected<'a>, AllocError> {
        let mut found = Expected {
            front,
            phrases: Vec::new(front.alloc),
        };
        let takes_statement = front.passes("join")?;
        found.add_kind(&KINDS[..2])?;
        found.add_number()?;
        found.add_kind(&KINDS[2..])?;
        found.add_if(front.takes_name()?, NAME)?;
        found.add_if(takes_statement, "a statement")?;
        if !takes_statement {
            found.add_tokens(&ITEMS)?;
        }
        found.add_tokens(&HEADER)?;
        found.add_tokens(&OTHERS)?;
        if !takes_statement {
            found.add_tokens(&WAITS)?;
        }
        found.add_tokens(&["{", "}"])?;
        found.add_if(front.may_end()?, "the end of the script")?;
        Ok(found)
    }

    /// The keyword that is expected, if nothing else is.
    pub(crate) fn only_keyword(&self) -> Option<&str> {
        let [only] = self.phrases.as_slice() else {
            return None;
        };
        match only.as_bytes() {
            [b'\'', .., b'\''] => only.as_str().get(1..only.len().saturating_sub(1)),
            _ => None,
        }
    }

    /// Writes the phrases as a list.
    pub(crate) fn put<W: Write>(&self, out: &mut W) -> io::Result<()> {
        let count = self.phrases.len();
        for (at, phrase) in self.phrases.as_slice().iter().enumerate() {
            let between = match at {
                0 => "",
                _ if at + 1 == count => " or ",
                _ => ", ",
            };
            write!(out, "{between}{phrase}")?;
        }
        Ok(())
    }
}

/// What a decimal up to `high` means after a keyword of the grammar.
fn number_after(word: &[u8], high: u32) -> &'static str {
    match word {
        b"mode" => "a transmission mode",
        b"period" => "the period in frames",
        b"notice" => "the notice in frames",
        b"budget" => "the budget in instructions per frame",
        b"reserve" => "the number of FIBs of a frame to reserve",
        b"sub" => "a SubChId",
        b"audio" | b"data" | b"type" => "a type",
        b"packet" | b"carry" => "an SCId",
        b"address" => "a packet address",
        b"contact" => "a contact",
        b"wait" | b"or" | b"early" | b"in" => "a number of frames",
        b"repeat" => "a number of times",
        b"at" if high < 1024 => "a start address in capacity units",
        b"at" => "a CIF count",
        _ => "a rate in kbit/s",
    }
}
