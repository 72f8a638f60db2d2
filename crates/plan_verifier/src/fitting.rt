//! Which swap fits which, and the swap where two paths merge.

ghost use Rattle.std.specs.Prelude.{◌≡◌, ◌&&◌, min, max};
ghost use Rattle.plan_verifier.specs.Rules.{Known};
ghost use Rattle.plan_verifier.specs.Flows.{latest, widest};
ghost use Rattle.plan_verifier.specs.Tests.{fits_swap, has_configurations_of, satisfies};

use plan_code::Swap;

/// Which configurations of another flow a flow must have in order to fit it.
#[derive(Clone, Copy)]
pub(crate) enum Condition {
    /// It does not fit, whatever its configurations are.
    Never,
    /// The current one and the next one.
    Both,
    /// The next one as both: the other flow may have a swap pending that has been made here.
    NextTwice,
}

/// Both configurations if the bounds of the swap fit.
fn both_if(fits: bool) -> Condition
    ensures { (t other : Known) → satisfies result t other
        ≡ (fits && has_configurations_of t other) }
{
    if fits {
        Condition::Both
    } else {
        Condition::Never
    }
}

/// Which configurations a flow with one swap must have in order to fit a flow with the other.
pub(crate) fn needed(pending: Swap, declared: Swap) -> Condition
    ensures { (t other : Known) → fits_swap pending declared t other
        ≡ satisfies result t other }
{
    match (pending, declared) {
        (Swap::Idle, Swap::Idle) => Condition::Both,
        (Swap::Idle, Swap::Within(_, _)) => Condition::Never,
        (Swap::Idle, Swap::Perhaps(_)) => Condition::NextTwice,
        (Swap::Within(low, high), Swap::Within(least, most)) => {
            both_if(least <= low && high <= most)
        }
        (Swap::Within(_, high), Swap::Perhaps(most)) => both_if(high <= most),
        (Swap::Within(_, _), Swap::Idle) => Condition::Never,
        (Swap::Perhaps(high), Swap::Perhaps(most)) => both_if(high <= most),
        (Swap::Perhaps(_), Swap::Idle) => Condition::Never,
        (Swap::Perhaps(_), Swap::Within(_, _)) => Condition::Never,
    }
}

/// The maximum number of frames until a swap that is or may be pending; 0 where none is.
fn latest(pending: Swap) -> u16
    ensures { result ≡ latest pending }
{
    match pending {
        Swap::Idle => 0,
        Swap::Within(_, high) => high,
        Swap::Perhaps(high) => high,
    }
}

/// The maximum of two numbers.
fn greater(a: u16, b: u16) -> u16
    ensures { result ≡ max a b }
{
    if a < b { b } else { a }
}

/// The minimum of two numbers.
fn lesser(a: u16, b: u16) -> u16
    ensures { result ≡ min a b }
{
    if a < b { a } else { b }
}

/// The swap bounds of a label where two paths merge.
pub(crate) fn widest(first: Swap, second: Swap) -> Swap
    ensures { result ≡ widest first second }
{
    match (first, second) {
        (Swap::Idle, Swap::Idle) => Swap::Idle,
        (Swap::Within(low, high), Swap::Within(least, most)) => {
            Swap::Within(lesser(low, least), greater(high, most))
        }
        (_, _) => Swap::Perhaps(greater(latest(first), latest(second))),
    }
}
