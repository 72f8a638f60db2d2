//! The items of a text one by one, of which none is kept.

ghost use Rattle.std.specs.Prelude.{◌≡◌, ◌≢◌, ◌+◌, ◌≤◌, ℕ, List, length, Ok, Err, OnOk, IfOk};
ghost use Rattle.std.specs.Prelude.{IfErr};
ghost use Rattle.script_tokens.specs.declared.fault.ScriptFault.TheVariants.{Memory as NoMemory};
ghost use Rattle.script_tokens.specs.declared.token.Token.{Token};
ghost use Rattle.script_tokens.specs.Reading.{AreWithin, lexemes_of};
ghost use Rattle.plan_session.specs.declared.event_fault.EventFault.TheVariants.{Memory};
ghost use Rattle.plan_session.specs.ItemFaults.{ReportsItemFault};
ghost use Rattle.plan_session.specs.Items.{HoldsItems};
ghost use Rattle.plan_session.specs.FirstFaults.{ReportsFirstFault, cut_of};
ghost use Rattle.plan_session.specs.Listing.{Lists, TakesItem, TakesTokens, FindsItem, ReadsItem};
ghost use Rattle.plan_session.specs.Listing.{HasFaultLeft};

use crate::event_fault::EventFault;
use crate::item_fault::fault_at;
use crate::items::Item;
use arrayvec::ArrayVec;
use script_tokens::token::NO_LIMITS;
use script_tokens::{Scanner, ScriptFault, Token, TokenReader};

/// Takes up to `count` tokens; fewer only at the end of the text.
fn take_tokens(
    scanner: &mut Scanner<'_>,
    tokens: &mut ArrayVec<Token, 3>,
    count: usize,
) -> Result<(), ScriptFault>
    requires { length tokens.old.items + count ≤ 3 }
    ensures { TakesTokens count scanner.old scanner.new tokens.old.items tokens.new.items result }
{
    for _taken in 0..count {
        match scanner.next() {
            Ok(Some(token)) => tokens.push(token),
            Ok(None) => return Ok(()),
            Err(fault) => return Err(fault),
        }
    }
    Ok(())
}

/// The item that these tokens of a text begin with.
fn item_of<T: Item>(text: &[u8], tokens: &[Token]) -> Result<T, ScriptFault>
    requires { AreWithin (length text.now) tokens.now }
    ensures { ReadsItem T.spelled T.is_item text.now tokens.now result }
{
    let mut reader = TokenReader::new(text, tokens);
    match T::read(&mut reader) {
        Ok(item) => Ok(item),
        Err(wrong) => Err(fault_at(text, tokens, wrong)),
    }
}

/// The next item; None at the end of the text.
///
/// # Errors
///
/// `Byte`, `Number` or `Expected`, with the position of the token, or just past the text.
fn next_item<T: Item>(scanner: &mut Scanner<'_>) -> Result<Option<T>, ScriptFault>
    ensures { FindsItem T.spelled T.is_item scanner.old scanner.new result }
{
    T::uniqueness();
    let text = scanner.text();
    let first = match scanner.next() {
        Ok(Some(first)) => first,
        Ok(None) => return Ok(None),
        Err(fault) => return Err(fault),
    };
    let mut tokens = ArrayVec::new();
    tokens.push(first);
    let count = T::further(&text[first.start..first.end]);
    match take_tokens(scanner, &mut tokens, count) {
        Ok(()) => {}
        Err(fault) => return Err(fault),
    }
    match item_of(text, tokens.as_slice()) {
        Ok(item) => Ok(Some(item)),
        Err(fault) => Err(fault),
    }
}

/// Whether a text has tokens: the first fault, if it has none.
fn check_tokens(text: &str) -> Result<(), ScriptFault>
    ensures tokens { OnOk result ((tokens : List Token) × (cut_of text.now ≡ Ok tokens)) }
    ensures fault { IfErr result (λ e. cut_of text.now ≡ Err e) }
    ensures named { IfErr result (λ e. e ≢ NoMemory) }
{
    let mut scanner = Scanner::new(text, NO_LIMITS);
    while let Some(_token) = scanner.next()? {}
    Ok(())
}

/// Whether the tokens that are left spell items: the fault of the first that can't be read, if they
/// do not.
fn check_items<T: Item>(scanner: &mut Scanner<'_>) -> Result<(), ScriptFault>
    ensures found { OnOk result ((items : List T) × Lists T.spelled T.is_item scanner.old items) }
    ensures none { IfErr result (λ e. (items : List T) → Lists T.spelled T.is_item scanner.old items
        → ⊥) }
    ensures fault { IfErr result (λ e. HasFaultLeft T.spelled T.is_item scanner.old e) }
    ensures named { IfErr result (λ e. e ≢ NoMemory) }
{
    T::uniqueness();
    while let Some(_item) = next_item::<T>(scanner)? {}
    Ok(())
}

/// A scanner at the first item of a text that lists items.
///
/// # Errors
///
/// First `Byte`, for a byte outside comments that is not allowed; then the fault of the first item
/// that cannot be read. A text that lists items has no fault.
pub(crate) fn list_items<'a, T: Item>(text: &'a str) -> Result<Scanner<'a>, EventFault>
    ensures found { IfOk result (λ s. (items : List T)
        × HoldsItems T.spelled T.is_item text.now items
        × Lists T.spelled T.is_item s items) }
    ensures none { IfErr result (λ e. (items : List T)
        → HoldsItems T.spelled T.is_item text.now items → ⊥) }
    ensures first { IfErr result (λ e. ReportsFirstFault text.now e) }
    ensures fault { IfErr result (λ e. ReportsItemFault T.spelled T.is_item text.now e) }
    ensures named { IfErr result (λ e. e ≢ Memory) }
{
    check_tokens(text)?;
    let mut scanner = Scanner::new(text, NO_LIMITS);
    check_items::<T>(&mut scanner)?;
    Ok(Scanner::new(text, NO_LIMITS))
}

/// The next of the items that are left; None if there is none.
pub(crate) fn take_item<T: Item>(scanner: &mut Scanner<'_>) -> Option<T>
    requires { (items : List T) × Lists T.spelled T.is_item scanner.old items }
    ensures item { TakesItem T.spelled T.is_item scanner.old scanner.new result }
    ensures listed { (items : List T) × Lists T.spelled T.is_item scanner.new items }
{
    T::uniqueness();
    match next_item::<T>(scanner) {
        Ok(found) => found,
        Err(_) => None,
    }
}
