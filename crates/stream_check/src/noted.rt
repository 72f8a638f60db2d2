//! The contradictions that were reported since the last swap.

ghost use Rattle.std.specs.Prelude.{◌≡◌};
ghost use Rattle.std.specs.List.{list_any};
ghost use Rattle.stream_check.specs.Contradictions.{is_same};

use crate::contradiction::{Contradiction, is_same};
use arrayvec::ArrayVec;
use std::marker::Model;

/// The contradictions that were reported since the last swap, at most 64. In contracts it is the
/// list of them, in the order of their reports.
#[derive(Drop)]
pub struct Noted {
    contradictions: ArrayVec<Contradiction, 64>,
}

impl Model for Noted {
    ghost use Rattle.std.specs.Prelude.{List};
    ghost use Rattle.stream_check.specs.declared.contradiction.Contradiction.{Contradiction};

    ghost Value = { List Contradiction };

    ghost view = { λ n. n.contradictions.items };
}

impl Noted {
    ghost use Rattle.std.specs.Prelude.{◌≡◌, ◌++◌, ◌∷◌, [], true, false};
    ghost use Rattle.stream_check.specs.Contradictions.{is_new};

    /// None yet.
    pub(crate) fn new() -> Self
        ensures { result ≡ [] }
    {
        Noted {
            contradictions: ArrayVec::new(),
        }
    }

    /// Whether a contradiction is to be reported: it is not among these, which are fewer than 64.
    fn is_new(&self, contradiction: Contradiction) -> bool
        ensures { result ≡ is_new self.now contradiction }
    {
        self.contradictions.len() < 64 && !has_same(contradiction, self.contradictions.as_slice())
    }

    /// Adds a contradiction, if it is to be reported, and returns whether it is.
    pub(crate) fn note(&mut self, contradiction: Contradiction) -> bool
        ensures new { result ≡ is_new self.old contradiction }
        ensures noted { result ≡ true → self.new ≡ self.old ++ contradiction ∷ [] }
        ensures unchanged { result ≡ false → self.new ≡ self.old }
    {
        if !self.is_new(contradiction) {
            return false;
        }
        self.contradictions.push(contradiction);
        true
    }
}

/// Whether a contradiction is among these.
fn has_same(contradiction: Contradiction, others: &[Contradiction]) -> bool
    ensures { result ≡ list_any (is_same contradiction) others.now }
{
    let mut rest = others;
    while let Some((other, after)) = rest.split_first() {
        if is_same(contradiction, *other) {
            return true;
        }
        rest = after;
    }
    false
}
