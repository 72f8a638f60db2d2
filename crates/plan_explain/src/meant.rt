//! Suggests what may have been meant by a word that is right elsewhere, or in another language.

use crate::keywords::STATEMENTS;
use crate::repair::Wrong;
use crate::source::{leading_number, number_in};
use crate::trier::Trier;
use std::alloc::AllocError;

/// The most frames of a `wait`.
const LONGEST_WAIT: u32 = 65_535;

/// The milliseconds of a unit of time.
fn unit(word: &[u8]) -> Option<u32> {
    Some(match word {
        b"ms" => 1,
        b"s" | b"sec" | b"second" | b"seconds" => 1000,
        b"min" | b"minute" | b"minutes" => 60_000,
        b"h" | b"hour" | b"hours" => 3_600_000,
        _ => return None,
    })
}

/// The number of frames that last so many of a unit of time, or little more.
fn frames_in(number: u32, unit: u32) -> u32 {
    let milliseconds = u64::from(number).saturating_mul(u64::from(unit));
    u32::try_from(milliseconds.div_ceil(24)).unwrap_or(u32::MAX)
}

/// The seconds of a time `HH:MM:SS`.
fn seconds_of(token: &[u8]) -> Option<u32> {
    let (hours, rest) = leading_number(token);
    let (minutes, rest) = leading_number(rest.strip_prefix(b":")?);
    let (seconds, rest) = leading_number(rest.strip_prefix(b":")?);
    let is_time = hours < 24 && minutes < 60 && seconds < 60 && rest.is_empty();
    is_time.then(|| hours.saturating_mul(3600) + minutes * 60 + seconds)
}

/// The number of frames that a token means by its unit, or as a time.
pub(crate) fn frames_of(token: &[u8]) -> Option<u32> {
    if let Some(seconds) = seconds_of(token) {
        return Some(frames_in(seconds, 1000));
    }
    let (number, rest) = leading_number(token);
    let has_digit = rest.len() < token.len();
    unit(rest)
        .filter(|_| has_digit)
        .map(|unit| frames_in(number, unit))
}

/// Whether a number of frames may follow a word behind another one.
fn takes_frames(before: &str, word: &str) -> bool {
    matches!(
        (before, word),
        (_, "wait" | "or" | "early") | ("commit", "in")
    )
}

impl<'a> Wrong<'a> {
    /// The number of frames that the token means, with the number before it if it is a unit alone.
    pub(crate) fn frames(&self, trier: &Trier) -> Option<u32> {
        let before = trier.source.word(self.spot.index.saturating_sub(2));
        if takes_frames(before, self.front.last) {
            return frames_of(self.token);
        }
        let unit = unit(self.token)?;
        let first = trier.source.word(self.spot.index.saturating_sub(3));
        if !takes_frames(first, before) {
            return None;
        }
        let number = number_in(self.front.last);
        (number > 0).then(|| frames_in(number, unit))
    }

    /// Tries the number of frames for a time, in the place of its number and its unit.
    pub(crate) fn attempt_frames(&self, trier: &mut Trier) -> Result<(), AllocError> {
        let Some(frames) = self.frames(trier) else {
            return Ok(());
        };
        let both = trier.source.spot(self.spot.index.saturating_sub(1), 2);
        let token = format!(in trier.alloc; "{frames}")?;
        if unit(self.token).is_some() {
            return trier.write_at(both, token.as_str());
        }
        if self.front.last != "wait" || frames <= LONGEST_WAIT {
            return self.attempt(trier, token.as_str());
        }
        if self.token.contains(&b':') {
            let time = trier.source.word(self.spot.index);
            let words = format!(in trier.alloc; "until {time}")?;
            return trier.write_at(both, words.as_str());
        }
        self.attempt_long(trier, frames)
    }

    /// Tries a repeated wait in the place of one that is too long.
    fn attempt_long(&self, trier: &mut Trier, frames: u32) -> Result<(), AllocError> {
        let behind = trier.source.word(self.spot.index.saturating_add(1));
        if behind == "or" {
            return Ok(());
        }
        let least = frames.div_ceil(LONGEST_WAIT);
        let mut divisors = least..least.saturating_add(1000);
        let Some(times) = divisors.find(|times| frames % (*times).max(1) == 0) else {
            return Ok(());
        };
        let each = frames / times.max(1);
        let words = format!(in trier.alloc; "repeat {times} {{ wait {each} }}")?;
        let spot = trier.source.spot(self.spot.index.saturating_sub(1), 2);
        trier.write_at(spot, words.as_str())
    }

    /// Tries what is meant by a number after `wait` that is too large.
    fn attempt_wait(&self, trier: &mut Trier) -> Result<(), AllocError> {
        match leading_number(self.token) {
            (frames, []) if self.front.last == "wait" && frames > LONGEST_WAIT => {
                self.attempt_long(trier, frames)
            }
            _ => Ok(()),
        }
    }

    /// Tries what is meant by a level behind the contact of an `if`.
    fn attempt_level(&self, trier: &mut Trier) -> Result<(), AllocError> {
        let first = self.spot.index.saturating_sub(3);
        if trier.source.word(first) != "if" {
            return Ok(());
        }
        if self.token == b"closed".as_slice() {
            return trier.leave_out();
        }
        let spot = trier.source.spot(self.spot.index, 2);
        trier.write_at(spot, "{ } else {")
    }

    /// Tries what may have been meant by a word that is no mistake of writing.
    pub(crate) fn attempt_word(&self, trier: &mut Trier) -> Result<(), AllocError> {
        match (self.front.last, self.token) {
            (_, b"and") => self.attempt(trier, "or"),
            (_, b"loop" | b"for" | b"always") => {
                let next = trier.source.word(self.spot.index.saturating_add(1));
                self.attempt(trier, if next == "{" { "forever" } else { "repeat" })
            }
            (_, b"to") => {
                self.attempt(trier, "at")?;
                self.attempt(trier, "in")
            }
            (_, b"closed" | b"open") => self.attempt_level(trier),
            ("or", token) if token.contains(&b':') => trier.put("until"),
            (_, token) if begins_statement(token) && self.front.passes("begin")? => {
                trier.put("begin")
            }
            _ => self.attempt_wait(trier),
        }
    }
}

/// Whether a token begins a statement that is no item.
fn begins_statement(token: &[u8]) -> bool {
    token == b"until".as_slice() || STATEMENTS.iter().any(|word| word.as_bytes() == token)
}
