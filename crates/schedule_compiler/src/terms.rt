//! What the contacts decide while no window begins or ends.

use crate::day::is_within;
use plan_code::{ContactId, Contacts, DayFrame};
use schedule_front::{Overlay, Test};
use std::alloc::{AllocError, Global};

/// An alternative of an overlay's condition whose windows hold: the contacts that have to be
/// closed, and those that have to be open.
#[derive(Clone, Copy, Debug, PartialEq, Eq)]
pub(crate) struct Term {
    /// The number of the overlay, from 0.
    pub(crate) overlay: u16,
    pub(crate) closed: Contacts,
    pub(crate) open: Contacts,
}

/// What is known of the contacts.
#[derive(Clone, Copy, Debug, PartialEq, Eq)]
pub(crate) struct Known {
    pub(crate) closed: Contacts,
    pub(crate) open: Contacts,
}

/// What follows from what is known of the contacts.
#[derive(Clone, Copy, Debug, PartialEq, Eq)]
pub(crate) enum Decision {
    /// Each overlay is decided: these hold, the first overlay the lowest bit.
    Combination(u64),
    /// This contact is to be known first.
    Ask(ContactId),
}

/// Nothing is known of the contacts.
pub(crate) const UNKNOWN: Known = Known {
    closed: Contacts(0),
    open: Contacts(0),
};

impl Known {
    /// What is known once this contact is closed, or open.
    pub(crate) fn with(self, contact: ContactId, closed: bool) -> Known {
        if closed {
            Known {
                closed: self.closed.with(contact, true),
                open: self.open,
            }
        } else {
            Known {
                closed: self.closed,
                open: self.open.with(contact, true),
            }
        }
    }

    /// Whether this term holds, whatever the other contacts are.
    fn grants(self, term: Term) -> bool {
        term.closed.0 & !self.closed.0 == 0 && term.open.0 & !self.open.0 == 0
    }

    /// Whether this term fails, whatever the other contacts are.
    fn denies(self, term: Term) -> bool {
        term.closed.0 & self.open.0 != 0 || term.open.0 & self.closed.0 != 0
    }

    /// The contacts of this term that are not known.
    fn lacks(self, term: Term) -> u16 {
        (term.closed.0 | term.open.0) & !(self.closed.0 | self.open.0)
    }
}

/// The set of overlays, or of states, with this one alone; empty from 64 on.
pub(crate) fn bit(number: u16) -> u64 {
    if number < 64 { 1u64 << number } else { 0 }
}

/// A number as one of 16 bits; 65,535 where it is greater.
pub(crate) fn short(number: usize) -> u16 {
    match u16::try_from(number) {
        Ok(number) => number,
        Err(_) => u16::MAX,
    }
}

/// The term of these tests at a moment of the day; None where one of their windows does not hold
/// there, or where a contact is to be both closed and open.
fn term_of(tests: &[Test], overlay: u16, at: DayFrame) -> Option<Term> {
    let mut known = UNKNOWN;
    for test in tests {
        match *test {
            Test::Contact { contact, closed } => known = known.with(contact, closed),
            Test::Time { from, to } => {
                if !is_within(from.frame(), to.frame(), at) {
                    return None;
                }
            }
        }
    }
    if known.closed.0 & known.open.0 != 0 {
        return None;
    }
    Some(Term {
        overlay,
        closed: known.closed,
        open: known.open,
    })
}

/// Appends the terms of an overlay at a moment of the day.
fn add_terms(
    terms: &mut Vec<Term>,
    overlay: &Overlay,
    number: u16,
    at: DayFrame,
) -> Result<(), AllocError> {
    for tests in &overlay.condition {
        if let Some(term) = term_of(tests.as_slice(), number, at) {
            terms.push(term)?;
        }
    }
    Ok(())
}

/// The terms of all overlays at a moment of the day, in the order of the text.
pub(crate) fn terms_at(
    alloc: Global,
    overlays: &[Overlay],
    at: DayFrame,
) -> Result<Vec<Term>, AllocError> {
    let mut terms = Vec::new(alloc);
    for (number, overlay) in overlays.iter().enumerate() {
        add_terms(&mut terms, overlay, short(number), at)?;
    }
    Ok(terms)
}

/// The overlays that hold, whatever the contacts are that are not known.
fn granted(terms: &[Term], known: Known) -> u64 {
    let mut overlays = 0;
    for term in terms {
        if known.grants(*term) {
            overlays |= bit(term.overlay);
        }
    }
    overlays
}

/// The contacts that can still decide whether an overlay holds that is not among these.
fn asked(terms: &[Term], known: Known, overlays: u64) -> u16 {
    let mut contacts = 0;
    for term in terms {
        if overlays & bit(term.overlay) == 0 && !known.denies(*term) {
            contacts |= known.lacks(*term);
        }
    }
    contacts
}

/// The first contact of a set; None if the set is empty.
fn first_of(contacts: Contacts) -> Option<ContactId> {
    for number in 0u8..16 {
        if let Some(contact) = ContactId::new(number) {
            if contacts.is_closed(contact) {
                return Some(contact);
            }
        }
    }
    None
}

/// What follows from what is known of the contacts while these are the terms. The contact that is
/// asked for is not known.
pub(crate) fn decide(terms: &[Term], known: Known) -> Decision {
    let overlays = granted(terms, known);
    match first_of(Contacts(asked(terms, known, overlays))) {
        None => Decision::Combination(overlays),
        Some(contact) => Decision::Ask(contact),
    }
}
