//! Where a text stops listing items, and the fault that is reported there.

ghost use Rattle.std.specs.Prelude.{◌≡◌, ◌+◌, ◌<◌, ◌≤◌};
ghost use Rattle.script_tokens.specs.Bytes.{position_after};
ghost use Rattle.plan_session.specs.ItemFaults.{end_position, fault_at};

use script_tokens::token::Kind;
use script_tokens::{Place, Position, ScriptFault, Token, kind_of};

/// The token at which an item can't be read.
#[derive(Clone, Copy)]
pub(crate) struct Wrong {
    /// How many tokens of the item are before it.
    pub(crate) index: usize,
    /// Whether it is an atom in the place of a number.
    pub(crate) is_number: bool,
}

/// No item begins with the first token.
pub(crate) const NO_ITEM: Wrong = Wrong {
    index: 0,
    is_number: false,
};

/// The fault of these tokens, which begin with an item that can't be read.
pub(crate) fn fault_at(text: &[u8], tokens: &[Token], wrong: Wrong) -> ScriptFault
    ensures { result ≡ fault_at text.now tokens.now wrong }
{
    let position = match tokens.get(wrong.index) {
        Some(token) => token.position,
        None => past(text),
    };
    if wrong.is_number {
        return ScriptFault::Number(position);
    }
    ScriptFault::Expected(position)
}

/// The position just past a text.
fn past(text: &[u8]) -> Position
    ensures { result ≡ end_position text.now }
{
    let mut place = Place {
        at: 0,
        position: Position { line: 1, column: 1 },
    };
    while place.at < text.len() {
        place = place_after(place, kind_of(text[place.at]));
    }
    place.position
}

/// The place after a byte of this kind in a text.
fn place_after(place: Place, kind: Kind) -> Place
    requires room { place.at + 1 < usize.MAX }
    requires line { place.position.line ≤ place.at + 1 }
    requires column { place.position.column ≤ place.at + 1 }
    ensures { result ≡ position_after place kind }
{
    let position = match kind {
        Kind::LineEnd => Position {
            line: place.position.line + 1,
            column: 1,
        },
        Kind::Blank | Kind::Hash | Kind::Brace | Kind::Letter | Kind::Bad => Position {
            line: place.position.line,
            column: place.position.column + 1,
        },
    };
    Place {
        at: place.at + 1,
        position,
    }
}
