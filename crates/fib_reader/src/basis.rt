//! The part of a receiver's state that decides whether FIGs are new to it.

ghost use Rattle.std.specs.Prelude.{◌≡◌, true};
ghost use Rattle.fib_reader.specs.Listening.{Listening, hear_figs};
ghost use Rattle.fib_reader.specs.Remembering.{KeepsCurrent};

use crate::figs::Figs;
use fib_codec::{Extension, Head};

/// The part of a receiver's state, besides whether it has heard a FIG 0/0 yet, that decides whether
/// FIGs are new to it.
#[derive(Clone, Copy)]
pub(crate) enum Basis {
    /// The picture of the current configuration.
    Current,
    /// The pictures of the current and of the next configuration.
    Pictures,
    /// The whole state.
    All,
}

impl Basis {
    ghost use Rattle.std.specs.Prelude.{◌≡◌};
    ghost use Rattle.fib_reader.specs.Listening.{Listening};
    ghost use Rattle.fib_reader.specs.Remembering.{Agrees, basis_of};

    /// The basis of FIGs with this head: the whole state for FIG 0/0, both pictures for entries
    /// with C/N 1.
    pub(crate) fn of(head: Head) -> Basis
        ensures { result ≡ basis_of head.next head.ext }
    {
        if head.ext == Extension::Ensemble.number() {
            return Basis::All;
        }
        if head.next {
            Basis::Pictures
        } else {
            Basis::Current
        }
    }

    /// A basis that includes both.
    pub(crate) fn and(self, other: Basis) -> Basis
        ensures one { (old l : Listening) → Agrees result old l → Agrees self old l }
        ensures other { (old l : Listening) → Agrees result old l → Agrees other old l }
    {
        match (self, other) {
            (Basis::All, _) | (_, Basis::All) => Basis::All,
            (Basis::Pictures, _) | (_, Basis::Pictures) => Basis::Pictures,
            (Basis::Current, Basis::Current) => Basis::Current,
        }
    }
}

/// Whether all entries of FIGs are of the next configuration, so that they leave the current
/// picture unchanged.
pub(crate) fn are_of_next(mut figs: Figs<'_>) -> bool
    ensures { result ≡ true → KeepsCurrent (hear_figs figs.entry) }
{
    while let Some(fig) = figs.next() {
        if let Some(head) = fig.head() {
            match Basis::of(head) {
                Basis::Pictures => {}
                Basis::Current | Basis::All => return false,
            }
        }
    }
    true
}
