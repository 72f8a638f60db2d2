//! Finds the first of several corrections of a script's text that removes its refusal.

use crate::note::Note;
use crate::source::{Plain, Source, Spot, line_start};
use crate::trial::{Change, Refusal, TextPatch, Touched, Verdict, try_change};
use plan_code::Code;
use script_front::Position;
use std::alloc::{AllocError, Global};
use std::io::{self, Write};

/// A correction that was tried, and removes the refusal.
#[derive(Drop)]
struct Found {
    /// What to do.
    sentence: String,
    /// Whether the text is accepted then.
    is_accepted: bool,
}

/// Tries corrections of a text in turn, until one removes the refusal.
#[derive(Drop)]
pub(crate) struct Trier<'a> {
    pub(crate) alloc: Global,
    /// The text, with its tokens; empty for a code.
    pub(crate) source: Source<'a>,
    /// The code, and the pc at which it is refused.
    pub(crate) code: Option<(&'a Code, u16)>,
    /// The refused statement, if its words stand once in its line.
    pub(crate) spot: Option<Spot>,
    /// The token before which earlier statements are looked for.
    pub(crate) before: usize,
    /// The line of the commit by which a swap is pending there, if it is known.
    pub(crate) commit: Option<usize>,
    /// What is advised where no correction is found.
    pub(crate) advice: Vec<u8>,
    refusal: Refusal,
    found: Option<Found>,
}

/// The first token of a loop or an `if`, and the brace that closes its last block.
#[derive(Clone, Copy)]
pub(crate) struct Braces {
    pub(crate) first: Spot,
    pub(crate) last: Spot,
}

/// A change in one place.
#[derive(Drop)]
struct Step {
    /// What to do; empty if that is said of the step before it.
    sentence: String,
    patch: TextPatch,
    /// The line that it touches, and how many it puts before that.
    line: usize,
    added: u16,
    /// How many bytes it puts in a line before the words that it is put before.
    columns: usize,
}

impl<'a> Trier<'a> {
    /// Tries nothing yet.
    pub(crate) fn new(
        alloc: Global,
        text: &'a str,
        refusal: Refusal,
    ) -> Result<Trier<'a>, AllocError> {
        Ok(Trier {
            alloc,
            source: Source::new(alloc, text)?,
            code: None,
            spot: None,
            before: 0,
            commit: None,
            advice: Vec::new(alloc),
            refusal,
            found: None,
        })
    }

    /// Turns to the refused statement, which has these words in a line.
    pub(crate) fn turn_to(&mut self, line: u16, words: &str) -> Result<(), AllocError> {
        let line = usize::from(line);
        self.spot = self.spot_of(line, words)?;
        self.before = match self.spot {
            Some(spot) => spot.index,
            None => self.source.count_before(Position {
                line: line.saturating_add(1),
                column: 1,
            }),
        };
        Ok(())
    }

    /// How many lines a step puts before the refused one.
    fn shift(&self, step: &Step) -> u16 {
        let refused = match self.refusal {
            Refusal::Token(position) => position.line,
            Refusal::Plan { line, .. } => usize::from(line),
        };
        if step.line <= refused { step.added } else { 0 }
    }

    /// What becomes of the refusal with a step, or with two, the first of which is before the
    /// second in the text.
    fn verdict(&self, one: Step, other: Option<Step>) -> Result<Option<Verdict>, AllocError> {
        let mut touched = Touched {
            added: self.shift(&one),
            columns: one.columns,
            lines: [one.line, one.line],
        };
        let mut second = None;
        if let Some(other) = other {
            touched = Touched {
                added: touched.added.saturating_add(self.shift(&other)),
                columns: one.columns.saturating_add(other.columns),
                lines: [one.line, other.line.saturating_add(usize::from(one.added))],
            };
            second = Some(other.patch);
        }
        let change = Change {
            first: one.patch,
            second,
        };
        let (source, text) = (&self.source, self.source.text);
        try_change(self.alloc, text, source, self.refusal, &touched, &change)
    }

    /// What becomes of the refusal without the tokens of a spot.
    pub(crate) fn without(&self, spot: &Spot) -> Result<Option<Verdict>, AllocError> {
        self.verdict(self.step_instead(spot, "")?, None)
    }

    /// Tries a step, or two, unless a correction was found before with which the text is accepted.
    fn attempt(&mut self, one: Step, other: Option<Step>) -> Result<(), AllocError> {
        if self.is_done() {
            return Ok(());
        }
        let (and, second) = match &other {
            Some(other) if !other.sentence.is_empty() => (", and ", other.sentence.as_str()),
            _ => ("", ""),
        };
        let sentence = format!(in self.alloc; "{}{and}{second}", one.sentence)?;
        let tried = self.verdict(one, other)?;
        let is_accepted = tried == Some(Verdict::Accepted);
        if is_accepted || (tried == Some(Verdict::Passed) && self.found.is_none()) {
            self.found = Some(Found {
                sentence,
                is_accepted,
            });
        }
        Ok(())
    }

    /// Whether a correction was found with which the text is accepted.
    pub(crate) fn is_done(&self) -> bool {
        matches!(&self.found, Some(found) if found.is_accepted)
    }

    /// Whether no correction was found that removes the refusal.
    pub(crate) fn is_at_loss(&self) -> bool {
        self.found.is_none()
    }

    /// Where words are in a line, once.
    pub(crate) fn spot_of(&self, line: usize, words: &str) -> Result<Option<Spot>, AllocError> {
        let words = Source::new(self.alloc, words)?;
        Ok(self.source.find(line, &words))
    }

    /// Where a word of the header is with its number; none if they are in two lines.
    pub(crate) fn header_spot(&self, word: &str, number: u8) -> Result<Option<Spot>, AllocError> {
        let Some(index) = self.source.index_of(word) else {
            return Ok(None);
        };
        let words = format!(in self.alloc; "{word} {number}")?;
        self.spot_of(self.source.line(index), words.as_str())
    }

    /// Where a statement of these words is last before the refused one, in a line in which it is
    /// once.
    pub(crate) fn last_spot(&self, words: &str) -> Result<Option<Spot>, AllocError> {
        let words = [Source::new(self.alloc, words)?];
        let last = self.source.last_before(self.before, &words);
        Ok(last.and_then(|spot| self.source.find(spot.line, &words[0])))
    }

    /// The loop or `if` that begins in a line, the only one there.
    pub(crate) fn braces_of(&self, line: u16, one: &str, other: &str) -> Option<Braces> {
        let index = self.source.index_in(usize::from(line), one, other)?;
        let last = self.source.last_brace(index)?;
        Some(Braces {
            first: self.source.spot(index, 1)?,
            last: self.source.spot(last, 1)?,
        })
    }

    /// Putting words before other ones: as a line of their own if those are the first of their
    /// line.
    fn step_before(&self, spot: &Spot, what: &str) -> Result<Option<Step>, AllocError> {
        let (alloc, line, words) = (self.alloc, spot.line, self.source.shown(spot));
        let words = Plain(words);
        if spot.is_first {
            let start = line_start(self.source.text.as_bytes(), line).unwrap_or(spot.start);
            let part = format!(in alloc; "{what}\n")?;
            let sentence = format!(in alloc; "put '{what}' before line {line}")?;
            let mut step = self.step(line, [start, start], part.as_str(), sentence)?;
            step.added = 1;
            return Ok(Some(step));
        }
        let part = format!(in alloc; "{what}; ")?;
        let place = self.place_of(spot)?;
        let sentence = format!(in alloc; "put '{what}' before '{words}' {}", place.as_str())?;
        let mut step = self.step(line, [spot.start, spot.start], part.as_str(), sentence)?;
        step.columns = part.len();
        Ok(Some(step))
    }

    /// Writing `new` in the place of the bytes between two offsets, in a line, as a sentence says.
    fn step(
        &self,
        line: usize,
        [start, end]: [usize; 2],
        new: &str,
        sentence: String,
    ) -> Result<Step, AllocError> {
        let part = String::from_str(self.alloc, new)?;
        Ok(Step {
            sentence,
            patch: TextPatch { start, end, part },
            line,
            added: 0,
            columns: 0,
        })
    }

    /// Where the words of a spot are: in a line, or at a column where they stand there twice.
    fn place_of(&self, spot: &Spot) -> Result<String, AllocError> {
        let (line, words) = (spot.line, self.source.shown(spot));
        match (self.spot_of(line, words)?, self.source.position(spot.index)) {
            (None, Some(at)) => format!(in self.alloc; "at {line}:{}", at.column),
            _ => format!(in self.alloc; "in line {line}"),
        }
    }

    /// Writing words in the place of others, or leaving these out.
    fn step_instead(&self, spot: &Spot, new: &str) -> Result<Step, AllocError> {
        let (old, line) = (Plain(self.source.shown(spot)), spot.line);
        let place = self.place_of(spot)?;
        let place = place.as_str();
        let sentence = if new.is_empty() {
            format!(in self.alloc; "leave out '{old}' {place}")?
        } else {
            format!(in self.alloc; "write '{new}' in place of '{old}' {place}")?
        };
        self.step(line, [spot.start, spot.end], new, sentence)
    }

    /// Tries `what` before the tokens of a spot.
    pub(crate) fn put_at(&mut self, spot: Option<Spot>, what: &str) -> Result<(), AllocError> {
        let Some(spot) = spot else {
            return Ok(());
        };
        match self.step_before(&spot, what)? {
            Some(step) => self.attempt(step, None),
            None => Ok(()),
        }
    }

    /// Tries `what` before the refused statement.
    pub(crate) fn put(&mut self, what: &str) -> Result<(), AllocError> {
        self.put_at(self.spot, what)
    }

    /// Tries `what` before both spots of braces together.
    pub(crate) fn put_both(&mut self, braces: &Braces, what: &str) -> Result<(), AllocError> {
        let first = self.step_before(&braces.first, what)?;
        let second = self.step_before(&braces.last, what)?;
        match (first, second) {
            (Some(first), Some(second)) => self.attempt(first, Some(second)),
            _ => Ok(()),
        }
    }

    /// Tries `new` in the place of the tokens of a spot; leaves them out if it is empty.
    pub(crate) fn write_at(&mut self, spot: Option<Spot>, new: &str) -> Result<(), AllocError> {
        let Some(spot) = spot else {
            return Ok(());
        };
        let step = self.step_instead(&spot, new)?;
        self.attempt(step, None)
    }

    /// Tries `new` in the place of the refused statement.
    pub(crate) fn write(&mut self, new: &str) -> Result<(), AllocError> {
        self.write_at(self.spot, new)
    }

    /// Tries to leave out the refused statement.
    pub(crate) fn leave_out(&mut self) -> Result<(), AllocError> {
        self.write_at(self.spot, "")
    }

    /// Tries a token in the place of the one at the position of the fault.
    pub(crate) fn write_token(&mut self, spot: Spot, token: &str) -> Result<(), AllocError> {
        let sentence = format!(in self.alloc; "write '{token}'")?;
        let step = self.step(spot.line, [spot.start, spot.end], token, sentence)?;
        self.attempt(step, None)
    }

    /// Tries `new` in the place of the bytes between two offsets, in a line, as a sentence says.
    pub(crate) fn write_bytes(
        &mut self,
        line: usize,
        place: [usize; 2],
        new: &str,
        sentence: &str,
    ) -> Result<(), AllocError> {
        let sentence = String::from_str(self.alloc, sentence)?;
        let step = self.step(line, place, new, sentence)?;
        self.attempt(step, None)
    }

    /// Tries `one` in the place of the tokens of a spot together with `other` in the place of those
    /// of a later one.
    pub(crate) fn write_both(
        &mut self,
        here: Spot,
        one: &str,
        there: Spot,
        other: &str,
    ) -> Result<(), AllocError> {
        let first = self.step_instead(&here, one)?;
        let second = self.step_instead(&there, other)?;
        self.attempt(first, Some(second))
    }

    /// Tries to move the refused statement, the only one of its line, behind the line of a later
    /// one of other words.
    pub(crate) fn move_behind(&mut self, target: &str) -> Result<(), AllocError> {
        let target = Source::new(self.alloc, target)?;
        let Some(spot) = self.spot else {
            return Ok(());
        };
        match self.source.first_after(spot.index, &target) {
            Some(there) if spot.is_whole && there.is_whole => self.move_line(spot.line, there.line),
            _ => Ok(()),
        }
    }

    /// Tries to move a line behind a later one.
    fn move_line(&mut self, from: usize, to: usize) -> Result<(), AllocError> {
        let text = self.source.text;
        let bytes = text.as_bytes();
        let start = line_start(bytes, from);
        let end = line_start(bytes, from.saturating_add(1));
        let behind = line_start(bytes, to.saturating_add(1));
        let (Some(start), Some(end), Some(behind)) = (start, end, behind) else {
            return Ok(());
        };
        let sentence = format!(in self.alloc; "move line {from} behind line {to}")?;
        let taken = self.step(to, [start, end], "", sentence)?;
        let line = text.get(start..end).unwrap_or("");
        let put = self.step(to, [behind, behind], line, String::new(self.alloc))?;
        self.attempt(taken, Some(put))
    }

    /// Writes the correction that was found, or else the advice, as the hint of a note.
    pub(crate) fn put_hint(&self, note: &mut Note) -> io::Result<()> {
        let Some(found) = &self.found else {
            return note.hint.write_all(self.advice.as_slice());
        };
        let then = if found.is_accepted {
            "; then it is accepted"
        } else {
            ""
        };
        write!(&mut note.hint, "{}{then}", found.sentence)
    }
}
