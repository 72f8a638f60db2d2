//! Regions: what is known of the contacts and of the frame of the day, and what follows from it.

ghost use Rattle.std.specs.Prelude.{◌≡◌};
ghost use Rattle.schedule_verifier.specs.Regions.{first_part, second_part, everything, both};
ghost use Rattle.schedule_verifier.specs.Regions.{either};

use plan_code::limits::FRAMES_A_DAY;
use plan_code::{ContactId, Contacts};

/// What is known of the contacts and of the frame of the day.
#[derive(Clone, Copy, Debug, PartialEq, Eq)]
pub(crate) struct Region {
    /// Contacts that are closed.
    pub(crate) closed: Contacts,
    /// Contacts that are open.
    pub(crate) opened: Contacts,
    /// The frame of the day is this one or a later one.
    pub(crate) from: u32,
    /// The frame of the day is before this one.
    pub(crate) to: u32,
}

/// What is to be known before a test can be answered.
#[derive(Clone, Copy, Debug, PartialEq, Eq)]
pub(crate) enum Question {
    /// Whether this contact is closed.
    Contact(ContactId),
    /// Whether the frame of the day is before this one.
    Day(u32),
}

/// What is known of a test in a region.
#[derive(Clone, Copy, Debug, PartialEq, Eq)]
pub(crate) enum Answer {
    /// It holds everywhere in the region.
    Yes,
    /// It holds nowhere in the region.
    No,
    /// This is to be known first.
    Ask(Question),
}

impl Region {
    /// All contacts and all frames of the day.
    pub(crate) fn everything() -> Region
        ensures { result ≡ everything }
    {
        Region {
            closed: Contacts(0),
            opened: Contacts(0),
            from: 0,
            to: FRAMES_A_DAY,
        }
    }

    /// The part in which the contact of the question is closed, or the frame of the day is before
    /// the one of the question.
    pub(crate) fn first(&self, question: &Question) -> Region
        ensures { result ≡ first_part question.now self.now }
    {
        match *question {
            Question::Contact(contact) => Region {
                closed: self.closed.with(contact, true),
                opened: self.opened,
                from: self.from,
                to: self.to,
            },
            Question::Day(at) => Region {
                closed: self.closed,
                opened: self.opened,
                from: self.from,
                to: at,
            },
        }
    }

    /// The other part.
    pub(crate) fn second(&self, question: &Question) -> Region
        ensures { result ≡ second_part question.now self.now }
    {
        match *question {
            Question::Contact(contact) => Region {
                closed: self.closed,
                opened: self.opened.with(contact, true),
                from: self.from,
                to: self.to,
            },
            Question::Day(at) => Region {
                closed: self.closed,
                opened: self.opened,
                from: at,
                to: self.to,
            },
        }
    }
}

/// Whether both tests hold.
pub(crate) fn both(first: Answer, second: Answer) -> Answer
    ensures { result ≡ both first second }
{
    match first {
        Answer::No => Answer::No,
        Answer::Yes => second,
        Answer::Ask(question) => match second {
            Answer::No => Answer::No,
            Answer::Yes => Answer::Ask(question),
            Answer::Ask(_) => Answer::Ask(question),
        },
    }
}

/// Whether one of the tests holds.
pub(crate) fn either(first: Answer, second: Answer) -> Answer
    ensures { result ≡ either first second }
{
    match first {
        Answer::Yes => Answer::Yes,
        Answer::No => second,
        Answer::Ask(question) => match second {
            Answer::Yes => Answer::Yes,
            Answer::No => Answer::Ask(question),
            Answer::Ask(_) => Answer::Ask(question),
        },
    }
}
