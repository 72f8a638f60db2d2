//! Reading an item that a text lists: a step of an event file, or a command of a command file.

ghost use Rattle.std.specs.Prelude.{◌≡◌, ◌≢◌, ℕ, ◌<◌, ◌≤◌, Bool, List, ◌∷◌, ◌++◌, length, [], IfOk};
ghost use Rattle.std.specs.Prelude.{IfErr};
ghost use Rattle.std.specs.Fmt.{decimal};
ghost use Rattle.script_tokens.specs.Reading.{Passes};
ghost use Rattle.script_tokens.specs.Spelling.{level_text};
ghost use Rattle.plan_session.specs.ItemFaults.{IsAtomNext, IsNoNumber, IsNoChange};

use crate::item_fault::Wrong;
use plan_code::ContactId;
use script_tokens::TokenReader;
use script_tokens::values::{contact, decimal, level};

/// An item that a text lists, spelled by tokens.
pub(crate) trait Item: Copy {
    ghost use Rattle.std.specs.Prelude.{◌≡◌, ◌≢◌, ◌≤◌, ℕ, List, ◌∷◌, ◌++◌, length, IfOk, IfErr};
    ghost use Rattle.plan_session.specs.ItemFaults.{IsWrongItem};
    ghost use Rattle.plan_session.specs.Items.{AreUnique, HasLexemes};

    /// The tokens that spell it.
    ghost spelled: { Self → List (List ℕ) };

    /// Whether its numbers are in their ranges.
    ghost is_item: { Self → Type 0 };

    /// The law of items: their tokens identify them. The function does nothing; its contract is the
    /// law.
    fn uniqueness()
        ensures unique { AreUnique spelled is_item }
        ensures some { HasLexemes spelled };

    /// The number of tokens after the first one, for an item that begins with this token.
    fn further(word: &[u8]) -> usize
        ensures bound { result ≤ 2 }
        ensures count { (s : Self) (rest : List (List ℕ)) → spelled s ≡ word.now ∷ rest
            → length rest ≡ result };

    /// Reads the next item; the token at which it can't be read, if it can't.
    fn read(reader: &mut TokenReader) -> Result<Self, Wrong>
        ensures read { IfOk result (λ s. reader.old.lexemes ≡ spelled s ++ reader.new.lexemes) }
        ensures range { IfOk result is_item }
        ensures none { IfErr result (λ e. (s : Self) (rest : List (List ℕ)) → is_item s
            → reader.old.lexemes ≢ spelled s ++ rest) }
        ensures wrong { IfErr result (λ e. IsWrongItem spelled is_item reader.old.lexemes e) };
}

/// Whether the next token is an atom: no brace, and not the end of the text.
fn is_atom_next(reader: &TokenReader) -> bool
    ensures { IsAtomNext reader.now.lexemes result }
{
    match reader.peek() {
        None => false,
        Some(b"{") => false,
        Some(b"}") => false,
        Some(_atom) => true,
    }
}

/// A number from `low` to `high`, the second token of an item.
pub(crate) fn number(reader: &mut TokenReader, low: u32, high: u32) -> Result<u32, Wrong>
    ensures read { IfOk result (λ n. Passes (decimal n ∷ []) reader.old reader.new) }
    ensures range { IfOk result (λ n. (low ≤ n) × (n ≤ high)) }
    ensures wrong { IfErr result (λ e. IsNoNumber low high reader.old.lexemes e) }
{
    let is_number = is_atom_next(reader);
    match decimal(reader, low, high) {
        Ok(value) => Ok(value),
        Err(_other) => Err(Wrong {
            index: 1,
            is_number,
        }),
    }
}

/// A contact, the second token of an item.
fn contact_number(reader: &mut TokenReader) -> Result<ContactId, Wrong>
    ensures read { IfOk result (λ c. Passes (decimal c ∷ []) reader.old reader.new) }
    ensures range { IfOk result (λ c. c < 16) }
    ensures wrong { IfErr result (λ e. IsNoNumber 0 15 reader.old.lexemes e) }
{
    let is_number = is_atom_next(reader);
    match contact(reader) {
        Ok(contact) => Ok(contact),
        Err(_other) => Err(Wrong {
            index: 1,
            is_number,
        }),
    }
}

/// A contact and its level, after `contact`.
pub(crate) fn change(reader: &mut TokenReader) -> Result<(ContactId, bool), Wrong>
    ensures read { IfOk result (λ c. Passes (decimal c.0 ∷ level_text c.1 ∷ []) reader.old
        reader.new) }
    ensures range { IfOk result (λ c. c.0 < 16) }
    ensures none { IfErr result (λ e. (c : ℕ) (closed : Bool) (rest : List (List ℕ)) → c < 16
        → reader.old.lexemes ≢ decimal c ∷ level_text closed ∷ rest) }
    ensures wrong { IfErr result (λ e. IsNoChange reader.old.lexemes e) }
{
    let contact = contact_number(reader)?;
    match level(reader) {
        Ok(closed) => Ok((contact, closed)),
        Err(_other) => Err(Wrong {
            index: 2,
            is_number: false,
        }),
    }
}
