//! The hint on a refused schedule: a condition with which an overlay excludes another one. It is
//! shown where the schedule compiles with it.

use schedule_compiler::compile_schedule;
use schedule_front::{Overlay, Schedule, Test, parse_schedule};
use script_front::Keyword;
use script_front::wait_lexemes::{put_contact, put_window};
use script_tokens::{SCRIPT_LIMITS, Scanner};
use std::alloc::{AllocError, Global};
use std::fmt::Write;

/// The most conditions that are tried.
const MOST_TRIES: usize = 4;

/// The most tests of an overlay.
const MOST_TESTS: usize = 32;

/// Writes a space, then a test.
fn put_test(out: &mut String, test: Test) -> Result<(), AllocError> {
    match test {
        Test::Contact { contact, closed } => put_contact(out, contact, closed),
        Test::Time { from, to } => put_window(out, from, to),
    }
}

/// Whether a test has an opposite: it holds at some time.
fn has_opposite(test: Test) -> bool {
    match test {
        Test::Contact { .. } => true,
        Test::Time { from, to } => from != to,
    }
}

/// Writes a space, then the opposite of a test.
fn put_opposite(out: &mut String, test: Test) -> Result<(), AllocError> {
    match test {
        Test::Contact { contact, closed } => put_contact(out, contact, !closed),
        Test::Time { from, to } => put_window(out, to, from),
    }
}

/// Writes tests, and behind them the opposite of another one.
fn put_without(out: &mut String, tests: &[Test], other: Test) -> Result<(), AllocError> {
    for test in tests {
        put_test(out, *test)?;
        out.push_str(" and")?;
    }
    put_opposite(out, other)
}

/// Writes an alternative for each of some tests, with its opposite; `or` stands before each but the
/// first one of the condition.
fn put_each(
    out: &mut String,
    tests: &[Test],
    others: &[Test],
    is_first: bool,
) -> Result<(), AllocError> {
    let mut is_first = is_first;
    for other in others {
        if !is_first {
            out.push_str(" or")?;
        }
        is_first = false;
        put_without(out, tests, *other)?;
    }
    Ok(())
}

/// The condition of an overlay, and that one of some tests does not hold.
fn condition_without(
    alloc: Global,
    overlay: &Overlay,
    others: &[Test],
) -> Result<String, AllocError> {
    let mut out = String::new(alloc);
    let mut is_first = true;
    for tests in &overlay.condition {
        put_each(&mut out, tests.as_slice(), others, is_first)?;
        is_first = false;
    }
    Ok(out)
}

/// The number of tests of that condition.
fn tests_without(overlay: &Overlay, others: usize) -> usize {
    let mut count = 0usize;
    for tests in &overlay.condition {
        count = count.saturating_add(others.saturating_mul(tests.len().saturating_add(1)));
    }
    count
}

/// The tests of an overlay whose condition has no alternatives, if each of them has an opposite.
fn tests_of(overlay: &Overlay) -> Option<&[Test]> {
    let [tests] = overlay.condition.as_slice() else {
        return None;
    };
    for test in tests {
        if !has_opposite(*test) {
            return None;
        }
    }
    Some(tests.as_slice())
}

/// Where the condition of an overlay stands in a text: behind its `while`, up to its brace.
fn place_of(text: &str, index: usize) -> Option<(usize, usize)> {
    let mut scanner = Scanner::new(text, SCRIPT_LIMITS);
    let mut left = index.saturating_add(1);
    let mut begin = None;
    while let Ok(Some(token)) = scanner.next() {
        let word = text.as_bytes().get(token.start..token.end).unwrap_or(&[]);
        match Keyword::of(word) {
            Some(Keyword::Overlay) => left = left.saturating_sub(1),
            Some(Keyword::While) if left == 0 => begin = Some(token.end),
            _ => {}
        }
        if word == b"{".as_slice() && begin.is_some() {
            return Some((begin?, token.start));
        }
    }
    None
}

/// The text with another condition of an overlay; None if the place is none of it.
fn changed(
    alloc: Global,
    text: &str,
    place: (usize, usize),
    condition: &str,
) -> Result<Option<String>, AllocError> {
    let (Some(front), Some(back)) = (text.get(..place.0), text.get(place.1..)) else {
        return Ok(None);
    };
    let mut out = String::new(alloc);
    out.push_str(front)?;
    out.push_str(condition)?;
    out.push_str(" ")?;
    out.push_str(back)?;
    Ok(Some(out))
}

/// Whether a text is a schedule that compiles.
fn compiles(alloc: Global, text: &str) -> bool {
    match parse_schedule(alloc, text) {
        Ok(schedule) => compile_schedule(alloc, &schedule).is_ok(),
        Err(_fault) => false,
    }
}

/// The index of the last overlay that begins on this line or before it.
fn overlay_at(schedule: &Schedule, line: u16) -> Option<usize> {
    let mut found = None;
    for (index, overlay) in schedule.overlays().iter().enumerate() {
        if overlay.line <= line {
            found = Some(index);
        }
    }
    found
}

/// The condition with which an overlay excludes another one, if the schedule of the text compiles
/// with it.
fn condition_tried(
    alloc: Global,
    text: &str,
    schedule: &Schedule,
    index: usize,
    other: usize,
) -> Result<Option<String>, AllocError> {
    let (Some(overlay), Some(excluded)) = (
        schedule.overlays().get(index),
        schedule.overlays().get(other),
    ) else {
        return Ok(None);
    };
    let (Some(others), Some(place)) = (tests_of(excluded), place_of(text, index)) else {
        return Ok(None);
    };
    if tests_without(overlay, others.len()) > MOST_TESTS {
        return Ok(None);
    }
    let condition = condition_without(alloc, overlay, others)?;
    let Some(text) = changed(alloc, text, place, condition.as_str())? else {
        return Ok(None);
    };
    if compiles(alloc, text.as_str()) {
        Ok(Some(condition))
    } else {
        Ok(None)
    }
}

/// The hint for a line of a schedule that is refused with these overlays, the first one the lowest
/// bit; empty if none of those that are tried helps.
pub(crate) fn hint_on_overlays(
    alloc: Global,
    text: &str,
    schedule: &Schedule,
    line: u16,
    overlays: u64,
) -> Result<String, AllocError> {
    let mut hint = String::new(alloc);
    let Some(index) = overlay_at(schedule, line) else {
        return Ok(hint);
    };
    let mut left = MOST_TRIES;
    for other in 0..schedule.overlays().len().min(64) {
        if left == 0 || other == index || (overlays >> other) & 1 == 0 {
            continue;
        }
        left -= 1;
        if let Some(condition) = condition_tried(alloc, text, schedule, index, other)? {
            if let Some(name) = schedule.names().get(index) {
                write!(hint, "overlay {name} while{condition}")?;
                return Ok(hint);
            }
        }
    }
    Ok(hint)
}
