//! Suggests the token that may have been meant by an invalid one.

use crate::keywords::{HEADER, ITEMS, OTHERS, STATEMENTS, WAITS};
use crate::probe::Front;
use crate::source::{Spot, leading_number};
use crate::trier::Trier;
use std::alloc::{AllocError, Global};

/// Words for a state of a contact that do not say whether it is closed or open.
const LEVELS: [&str; 6] = ["on", "off", "high", "low", "true", "false"];

/// Whether two words are equal except for two adjacent letters.
pub(crate) fn is_close(a: &[u8], b: &[u8]) -> bool {
    let pairs = a.iter().zip(b.iter());
    let front = pairs.take_while(|(one, other)| **one == **other).count();
    let pairs = a.iter().rev().zip(b.iter().rev());
    let back = pairs.take_while(|(one, other)| **one == **other).count();
    let (common, longest) = (front.saturating_add(back), a.len().max(b.len()));
    longest >= 3 && longest <= common.saturating_add(2)
}

/// These bytes as text, which are all letters of atoms.
fn text_of(alloc: Global, bytes: &[u8]) -> Result<String, AllocError> {
    String::from_str(alloc, std::str::from_utf8(bytes).unwrap_or(""))
}

/// The bytes without leading zeros, but at least the last byte.
fn without_zeros(bytes: &[u8]) -> &[u8] {
    let last = bytes.len().saturating_sub(1);
    let start = bytes.iter().position(|byte| *byte != b'0').unwrap_or(last);
    bytes.get(start..).unwrap_or(bytes)
}

/// The frames of whole seconds that are at least so many: 3 s are 125 frames.
fn whole_seconds(frames: u32) -> u32 {
    frames.div_ceil(125).saturating_mul(125)
}

/// A token that is invalid after the front, in the place of which others are tried in turn.
#[derive(Clone, Copy)]
pub(crate) struct Wrong<'a> {
    pub(crate) front: &'a Front<'a>,
    pub(crate) spot: Spot,
    pub(crate) token: &'a [u8],
}

impl<'a> Wrong<'a> {
    /// Tries a token that is valid after the front.
    pub(crate) fn attempt(&self, trier: &mut Trier, token: &str) -> Result<(), AllocError> {
        if !trier.is_done() && self.front.passes(token)? {
            return trier.write_token(self.spot, token);
        }
        Ok(())
    }

    /// Tries numbers and identifiers that may have been meant.
    fn attempt_value(&self, trier: &mut Trier) -> Result<(), AllocError> {
        let bare = match self.token {
            [b'0', b'x' | b'X', rest @ ..] => rest,
            _ => self.token,
        };
        let digits = text_of(trier.alloc, bare)?;
        let digits = digits.as_str().to_ascii_uppercase(trier.alloc)?;
        self.attempt(trier, digits.as_str())?;
        let short = text_of(trier.alloc, without_zeros(self.token))?;
        self.attempt(trier, short.as_str())
    }

    /// Tries times that may have been meant by one without seconds, or with an hour of one digit.
    fn attempt_time(&self, trier: &mut Trier) -> Result<(), AllocError> {
        if !self.token.contains(&b':') {
            return Ok(());
        }
        let token = text_of(trier.alloc, self.token)?;
        for (before, behind) in [("", ":00"), ("0", ":00"), ("0", "")] {
            let time = format!(in trier.alloc; "{before}{token}{behind}")?;
            self.attempt(trier, time.as_str())?;
        }
        Ok(())
    }

    /// Tries the protection profile that may have been meant, as `3-A` by `3a`, `A3` or `a-3`.
    fn attempt_profile(&self, trier: &mut Trier) -> Result<(), AllocError> {
        let (first, last) = match self.token {
            [first, last] | [first, b'-' | b'_', last] => (*first, *last),
            _ => return Ok(()),
        };
        let (level, set) = match first {
            b'0'..=b'9' => (first, last),
            _ => (last, first),
        };
        let token = text_of(trier.alloc, &[level, b'-', set.to_ascii_uppercase()])?;
        self.attempt(trier, token.as_str())
    }

    /// Tries the keywords that are like the token.
    fn attempt_keyword(&self, trier: &mut Trier) -> Result<(), AllocError> {
        let token = text_of(trier.alloc, self.token)?;
        let lower = token.as_str().to_ascii_lowercase(trier.alloc)?;
        if lower.as_bytes() != self.token {
            self.attempt(trier, lower.as_str())?;
        }
        let lists: [&[&str]; 5] = [&HEADER, &ITEMS, &OTHERS, &WAITS, &STATEMENTS];
        for words in lists {
            for word in words {
                if is_close(word.as_bytes(), lower.as_bytes()) {
                    self.attempt(trier, word)?;
                }
            }
        }
        Ok(())
    }

    /// Whether the token begins with a digit.
    fn has_digit(&self) -> bool {
        matches!(self.token, [b'0'..=b'9', ..])
    }

    /// Tries a rate without its unit.
    fn attempt_unit(&self, trier: &mut Trier) -> Result<(), AllocError> {
        match leading_number(self.token) {
            (rate, b"k" | b"kb" | b"kbit" | b"kbits" | b"kbps") if self.has_digit() => {
                let token = format!(in trier.alloc; "{rate}")?;
                self.attempt(trier, token.as_str())
            }
            _ => Ok(()),
        }
    }

    /// Tries statements that may have been meant by the words up to this one: a commit at a time of
    /// day, and one without `in`.
    fn attempt_statement(&self, trier: &mut Trier) -> Result<(), AllocError> {
        let last = self.spot.index.saturating_sub(1);
        let before = self.spot.index.saturating_sub(2);
        match (self.front.last, self.token) {
            ("at", token) if token.contains(&b':') => {
                if trier.source.word(before) != "commit" {
                    return Ok(());
                }
                let token = text_of(trier.alloc, token)?;
                let early = whole_seconds(trier.source.number_after("notice"));
                let words = format!(in trier.alloc;
                    "until {token} early {early}; commit in {early}"
                )?;
                let spot = trier.source.spot(before, 3);
                trier.write_at(spot, words.as_str())
            }
            ("commit", token) if leading_number(token).0 > 0 => trier.put("in"),
            (_, b"to") if trier.is_at_loss() => trier.leave_out(),
            ("mode", b"1") => {
                let spot = trier.source.spot(last, 2);
                trier.write_at(spot, "")
            }
            _ => Ok(()),
        }
    }

    /// Tries what may have been meant: a token that is valid in the place of this one, or another
    /// statement.
    pub(crate) fn attempt_all(&self, trier: &mut Trier) -> Result<(), AllocError> {
        self.attempt_word(trier)?;
        self.attempt_statement(trier)?;
        self.attempt_frames(trier)?;
        self.attempt_unit(trier)?;
        self.attempt_profile(trier)?;
        self.attempt_keyword(trier)?;
        self.attempt_value(trier)?;
        self.attempt_time(trier)
    }
}

/// Tries `until` in the place of `wait until` without an alternative, directly before the token
/// with this index, or the end of the text.
pub(crate) fn attempt_until(trier: &mut Trier, index: usize) -> Result<(), AllocError> {
    let plain = index.saturating_sub(3);
    let early = index.saturating_sub(5);
    let source = &trier.source;
    if index >= 3 && source.word(plain) == "wait" && source.word(plain + 1) == "until" {
        let words = format!(in trier.alloc; "until {}", source.word(plain + 2))?;
        let spot = source.spot(plain, 3);
        return trier.write_at(spot, words.as_str());
    }
    if index >= 5 && source.word(early) == "wait" && source.word(early + 3) == "early" {
        let (time, frames) = (source.word(early + 2), source.word(early + 4));
        let words = format!(in trier.alloc; "until {time} early {frames}")?;
        let spot = source.spot(early, 5);
        return trier.write_at(spot, words.as_str());
    }
    Ok(())
}

/// Whether a token names a state that may be either of a contact's, closed or open.
pub(crate) fn is_level(token: &[u8]) -> bool {
    LEVELS
        .iter()
        .any(|word| token.eq_ignore_ascii_case(word.as_bytes()))
}
