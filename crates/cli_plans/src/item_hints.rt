//! Hints on wrong tokens of event files and command files: each is tried before it is given.

use crate::item_notes::position_of;
use crate::item_place::{Listing, Wrong};
use script_tokens::Position;
use std::alloc::{AllocError, Global};
use std::io::{self, Write};

/// What is advised where a level is meant that may be either.
const LEVELS: &[u8] = b"write 'closed' where the input's circuit is closed, 'open' where it is not";

/// Words in the place of the bytes between two offsets.
#[derive(Drop)]
struct Fix {
    start: usize,
    end: usize,
    words: String,
}

/// The digits at the front of a word as a number, and what follows them; none without digits.
fn number_of(word: &str) -> Option<(u32, &str)> {
    let end = word
        .bytes()
        .position(|byte| !byte.is_ascii_digit())
        .unwrap_or(word.len());
    let number = word.get(..end)?.parse::<u32>().ok()?;
    Some((number, word.get(end..)?))
}

/// The number of frames of 24 ms that take at least so many of a unit.
fn frames_in(number: u32, unit: &str) -> Option<u32> {
    let milliseconds = match unit {
        "ms" => 1u64,
        "s" | "sec" | "second" | "seconds" => 1000,
        "min" | "minute" | "minutes" => 60_000,
        "h" | "hour" | "hours" => 3_600_000,
        _ => return None,
    };
    let frames = (u64::from(number) * milliseconds).div_ceil(24);
    u32::try_from(frames).ok()
}

/// The number of seconds of a time `HH:MM:SS`.
fn seconds_in(word: &str) -> Option<u32> {
    let (hours, rest) = word.split_once(':')?;
    let (minutes, seconds) = rest.split_once(':')?;
    match (number_of(hours)?, number_of(minutes)?, number_of(seconds)?) {
        ((h @ 0..=23, ""), (m @ 0..=59, ""), (s @ 0..=59, "")) => Some(h * 3600 + m * 60 + s),
        _ => None,
    }
}

/// The number of frames that a word means by its unit, or as a time.
fn frames_of(word: &str) -> Option<u32> {
    match seconds_in(word) {
        Some(seconds) => frames_in(seconds, "s"),
        None => {
            let (number, unit) = number_of(word)?;
            frames_in(number, unit)
        }
    }
}

/// The level that a word means; none if it may be either, or means none.
fn level_of(word: &str) -> Option<&'static str> {
    let is_one = |words: &[&str]| words.iter().any(|other| word.eq_ignore_ascii_case(other));
    if is_one(&["closed", "close", "closes", "shut"]) {
        return Some("closed");
    }
    is_one(&["open", "opened", "opens"]).then_some("open")
}

/// Whether a word names a level that may be either of a contact's.
fn is_unclear(word: &str) -> bool {
    ["on", "off", "high", "low", "true", "false", "0", "1"]
        .iter()
        .any(|other| word.eq_ignore_ascii_case(other))
}

/// Whether a word may be a keyword that is misspelt: in other letters, cut off, or with more.
fn is_like(word: &str, keyword: &str) -> bool {
    let common = word
        .bytes()
        .zip(keyword.bytes())
        .take_while(|(one, other)| one.eq_ignore_ascii_case(other))
        .count();
    common >= 3 && common.saturating_add(2) >= word.len().max(keyword.len())
}

/// Says more of a number of frames that is written as a time.
pub(crate) fn put_frames(wrong: &Wrong, out: &mut Vec<u8>) -> io::Result<()> {
    let token = wrong.token();
    match (wrong.item, wrong.index, frames_of(token)) {
        ("frames" | "run", 1, Some(frames)) => write!(
            out,
            ": a frame is 24 ms, so {token} is {frames} frames"
        ),
        _ => Ok(()),
    }
}

/// What may have been meant by the token, from its own offset on.
fn meant(alloc: Global, wrong: &Wrong) -> Result<Option<Fix>, AllocError> {
    let (token, (next, behind)) = (wrong.token(), wrong.next());
    let fix = |end: usize, words: String| Some(Fix {
        start: wrong.start,
        end,
        words,
    });
    Ok(match (wrong.index, wrong.item) {
        (1, "frames" | "run") => match (frames_of(token), number_of(token)) {
            (Some(frames), _) => fix(wrong.end, format!(in alloc; "{frames}")?),
            (None, Some((number, ""))) => fix(wrong.end, format!(in alloc; "{number}")?),
            _ => None,
        },
        (1, "contact") => match (level_of(token), number_of(next), number_of(token)) {
            (Some(level), Some((number, "")), _) => {
                fix(behind, format!(in alloc; "{number} {level}")?)
            }
            (None, _, Some((number, ""))) => fix(wrong.end, format!(in alloc; "{number}")?),
            _ => None,
        },
        (2, _) => match level_of(token) {
            Some(level) => fix(wrong.end, String::from_str(alloc, level)?),
            None => None,
        },
        _ => None,
    })
}

/// The item that may have been meant where none begins.
fn item_meant(alloc: Global, wrong: &Wrong) -> Result<Option<Fix>, AllocError> {
    let (token, (next, behind)) = (wrong.token(), wrong.next());
    if wrong.index > 0 {
        return Ok(None);
    }
    let contact = match (
        number_of(token),
        number_of(next),
        level_of(token),
        level_of(next),
    ) {
        (Some((number, "")), _, _, Some(level)) => Some((number, level)),
        (_, Some((number, "")), Some(level), _) => Some((number, level)),
        _ => None,
    };
    if let Some((number, level)) = contact {
        return Ok(Some(Fix {
            start: wrong.start,
            end: behind,
            words: format!(in alloc; "contact {number} {level}")?,
        }));
    }
    let words = match (wrong.listing, token) {
        (Listing::Steps, "wait" | "run") => "frames",
        (Listing::Commands, "wait" | "frames" | "continue") => "run",
        (Listing::Commands, "step") => "next",
        (listing, _) => {
            let alike = listing.words().iter().find(|word| is_like(token, word));
            match alike {
                Some(word) => word,
                None => return Ok(None),
            }
        }
    };
    Ok(Some(Fix {
        start: wrong.start,
        end: wrong.end,
        words: String::from_str(alloc, words)?,
    }))
}

/// A number of frames whose unit stands behind it as a word of its own, which begins no item.
fn unit_meant(alloc: Global, wrong: &Wrong) -> Result<Option<Fix>, AllocError> {
    let before = wrong.text.get(wrong.item_start..wrong.start).unwrap_or("");
    let mut words = before.split_ascii_whitespace();
    let (Some(item), Some(number), 0) = (words.next(), words.next(), wrong.index) else {
        return Ok(None);
    };
    let frames = match (item, number_of(number)) {
        ("frames" | "run", Some((number, ""))) => frames_in(number, wrong.token()),
        _ => None,
    };
    let Some(frames) = frames else {
        return Ok(None);
    };
    Ok(Some(Fix {
        start: wrong.item_start,
        end: wrong.end,
        words: format!(in alloc; "{item} {frames}")?,
    }))
}

/// The offset of a position of a text.
fn offset_of(text: &str, position: Position) -> usize {
    let mut line = 1usize;
    for (at, byte) in text.bytes().enumerate() {
        if line == position.line {
            return at.saturating_add(position.column.saturating_sub(1));
        }
        if byte == b'\n' {
            line = line.saturating_add(1);
        }
    }
    text.len()
}

/// Writes what is to be done, if a text with a fix has no fault up to it.
fn put_tried(alloc: Global, wrong: &Wrong, fix: &Fix, out: &mut Vec<u8>) -> io::Result<()> {
    let front = wrong.text.get(..fix.start).unwrap_or("");
    let old = wrong.text.get(fix.start..fix.end).unwrap_or("");
    let rest = wrong.text.get(fix.end..).unwrap_or("");
    if old.bytes().any(|byte| byte == b'\n' || byte == b'#') {
        return Ok(());
    }
    let words = fix.words.as_str();
    let text = format!(in alloc; "{front}{words}{rest}")?;
    let then = match wrong.listing.fault_of(text.as_str()) {
        None => "; then it is accepted",
        Some(fault) => match position_of(fault) {
            Some(at) if offset_of(text.as_str(), at) >= front.len() + words.len() => "",
            _ => return Ok(()),
        },
    };
    write!(out, "write '{words}' in place of '{old}'{then}")
}

/// Writes a hint on a wrong token, if one is known.
pub(crate) fn put_hint(alloc: Global, wrong: &Wrong, out: &mut Vec<u8>) -> io::Result<()> {
    if wrong.index == 2 && is_unclear(wrong.token()) {
        return out.write_all(LEVELS);
    }
    let fixes = [
        meant(alloc, wrong)?,
        unit_meant(alloc, wrong)?,
        item_meant(alloc, wrong)?,
    ];
    for fix in &fixes {
        if let Some(fix) = fix {
            if out.is_empty() {
                put_tried(alloc, wrong, fix, out)?;
            }
        }
    }
    Ok(())
}
