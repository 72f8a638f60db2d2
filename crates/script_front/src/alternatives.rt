//! The alternatives of a `wait`.

ghost use Rattle.std.specs.Prelude.{◌≡◌, ◌<◌, ◌++◌, ◌∷◌, [], true, length};
ghost use Rattle.std.specs.List.{list_any};
ghost use Rattle.script_front.specs.Waits.{is_moment, is_frames, may_follow};

use crate::moment::Moment;
use plan_code::{ContactId, Frames};
use std::marker::Model;

/// One of the alternatives of a `wait`.
#[derive(Clone, Copy, Debug, PartialEq, Eq)]
pub enum Alternative {
    /// `contact C closed` or `open`: the contact has this level.
    Contact { contact: ContactId, closed: bool },
    /// `until MOMENT`: the frame is the one of this moment.
    Until(Moment),
    /// `N`: this many frames have passed.
    Frames(Frames),
}

/// The most alternatives of a `wait`.
pub const MOST_ALTERNATIVES: usize = 8;

/// The alternatives of a `wait`, in the order of the text: 2 to 8, of which at most one is a
/// moment, and at most one a number of frames. Contracts see them as a list.
#[derive(Clone, Copy, Debug, PartialEq, Eq)]
pub struct Alternatives {
    slots: [Alternative; MOST_ALTERNATIVES],
    len: usize,
}

impl Model for Alternatives {
    ghost use Rattle.std.specs.Prelude.{◌≡◌, List, length, take};
    ghost use Rattle.script_front.specs.declared.alternatives.Alternative.{Alternative};
    ghost use Rattle.script_front.specs.Slots.{in_slots};
    ghost use Rattle.script_front.specs.Waits.{AreAlternatives};

    ghost Value = { List Alternative };

    ghost view = { λ a. take a.len a.slots };

    ghost invariant = { λ a. (a.len ≡ length (take a.len a.slots)) × (a.slots ≡ in_slots (take
        a.len a.slots)) × AreAlternatives (take a.len a.slots) };

    ghost inverse = { λ listed. record { slots = in_slots listed; len = length listed } };
}

impl Alternatives {
    /// Two alternatives. They must not both be moments, nor both be numbers of frames.
    pub fn new(first: Alternative, second: Alternative) -> Alternatives
        requires { may_follow (first ∷ []) second ≡ true }
        ensures { result ≡ first ∷ second ∷ [] }
    {
        let mut slots = [first; MOST_ALTERNATIVES];
        slots[1] = second;
        Alternatives { slots, len: 2 }
    }

    /// Appends an alternative. There must be fewer than 8, and with a moment or a number of frames
    /// none of them may be one.
    pub fn push(&mut self, next: Alternative)
        requires room { length self.old < 8 }
        requires fits { may_follow self.old next ≡ true }
        ensures { self.new ≡ self.old ++ next ∷ [] }
    {
        let len = self.len;
        self.slots[len] = next;
        self.len = len + 1;
    }

    /// The alternatives in order.
    pub fn as_slice(&self) -> &[Alternative]
        ensures { result.now ≡ self.now }
    {
        &self.slots[..self.len]
    }
}

/// Whether one of these alternatives is a moment.
pub(crate) fn has_moment(alternatives: &[Alternative]) -> bool
    ensures { result ≡ list_any is_moment alternatives.now }
{
    alternatives.iter().any(|a| is_moment(*a))
}

/// Whether one of these alternatives is a number of frames.
pub(crate) fn has_number(alternatives: &[Alternative]) -> bool
    ensures { result ≡ list_any is_frames alternatives.now }
{
    alternatives.iter().any(|a| is_number(*a))
}

fn is_moment(alternative: Alternative) -> bool
    ensures { result ≡ is_moment alternative }
{
    match alternative {
        Alternative::Until(_) => true,
        Alternative::Contact { .. } | Alternative::Frames(_) => false,
    }
}

fn is_number(alternative: Alternative) -> bool
    ensures { result ≡ is_frames alternative }
{
    match alternative {
        Alternative::Frames(_) => true,
        Alternative::Contact { .. } | Alternative::Until(_) => false,
    }
}
