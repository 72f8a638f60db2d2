//! Reading values: numbers in their ranges, identifiers, profiles and times.
//!
//! Each function but `name` advances past the token that it reads. Unless a function says
//! otherwise, the fault is `Number` where the next token is an atom that is not such a value, and
//! `Expected` where it is a brace or the text has ended.

ghost use Rattle.std.specs.Prelude.{◌≡◌, ℕ, ◌∷◌, ◌<◌, ◌≤◌, [], length, List, ◌≢◌, Bool, IfOk};
ghost use Rattle.std.specs.Prelude.{IfErr, OnOk, OnErr};
ghost use Rattle.std.specs.Fmt.{decimal};
ghost use Rattle.script_tokens.specs.declared.fault.ScriptFault.TheVariants.{Memory};
ghost use Rattle.script_tokens.specs.Reading.{Passes, BeginsWith, Takes};
ghost use Rattle.script_tokens.specs.Taking.{number_at, eid_at, sid_at, profile_at, time_at};
ghost use Rattle.script_tokens.specs.Taking.{level_at, name_next};
ghost use Rattle.script_tokens.specs.Spelling.{level_text};
ghost use Rattle.std.specs.Prelude.{true, false, Some, None, drop};
ghost use Rattle.std.specs.List.{list_all};
ghost use Rattle.script_tokens.specs.Keywords.{IsName, has_name_letters, is_name_byte};

use crate::fault::ScriptFault;
use crate::keyword::Keyword;
use crate::number;
use crate::time::TimeOfDay;
use crate::token_reader::TokenReader;
use mux_config::{ScId, ScTy, Sid, StartAddress, SubId};
use mux_eep::Protection;
use plan_code::{ContactId, Delay, Frames, Times};

/// A decimal from `low` to `high`.
#[tactic(auto, using(crate::proofs::Wording::decimal_letters, crate::proofs::Atoms::decimal_below, crate::proofs::Atoms::decimal_above, crate::proofs::Taking::number_next, crate::proofs::Taking::number_other, crate::proofs::Taking::number_out, crate::proofs::Taking::number_no_atom))]
pub fn decimal(reader: &mut TokenReader, low: u32, high: u32) -> Result<u32, ScriptFault>
    ensures read { Takes (number_at low high reader.old.lexemes) result reader.old reader.new }
    ensures spells { IfOk result (λ n. Passes (decimal n ∷ []) reader.old reader.new) }
    ensures none { OnErr result ((n : ℕ) (rest : List (List ℕ)) → low ≤ n → n ≤ high → n <
        1000000000
        → reader.old.lexemes ≢ decimal n ∷ rest) }
    ensures range { IfOk result (λ n. (low ≤ n) × (n ≤ high)) }
    ensures shorter { OnOk result (length reader.new.lexemes < length reader.old.lexemes) }
    ensures named { IfErr result (λ e. e ≢ Memory) }
{
    let atom = reader.atom()?;
    let Some(value) = number::decimal(atom) else {
        return Err(reader.no_number());
    };
    if value < low {
        return Err(reader.no_number());
    }
    if value > high {
        return Err(reader.no_number());
    }
    reader.advance();
    Ok(value)
}

/// A decimal from 0 to 65,535.
pub fn any_u16(reader: &mut TokenReader) -> Result<u16, ScriptFault>
    ensures { Takes (number_at 0 65535 reader.old.lexemes) result reader.old reader.new }
{
    let value = decimal(reader, 0, 65_535)?;
    Ok(value as u16)
}

/// A SubChId, 0 to 63.
pub fn sub_id(reader: &mut TokenReader) -> Result<SubId, ScriptFault>
    ensures { Takes (number_at 0 63 reader.old.lexemes) result reader.old reader.new }
{
    let value = decimal(reader, 0, 63)?;
    match SubId::new(value as u8) {
        Some(id) => Ok(id),
        None => Err(reader.no_number()),
    }
}

/// An SCId, 0 to 4095.
pub fn sc_id(reader: &mut TokenReader) -> Result<ScId, ScriptFault>
    ensures { Takes (number_at 0 4095 reader.old.lexemes) result reader.old reader.new }
{
    let value = decimal(reader, 0, 4095)?;
    match ScId::new(value as u16) {
        Some(id) => Ok(id),
        None => Err(reader.no_number()),
    }
}

/// A component type (ASCTy or DSCTy), 0 to 63.
pub fn sc_ty(reader: &mut TokenReader) -> Result<ScTy, ScriptFault>
    ensures { Takes (number_at 0 63 reader.old.lexemes) result reader.old reader.new }
{
    let value = decimal(reader, 0, 63)?;
    match ScTy::new(value as u8) {
        Some(ty) => Ok(ty),
        None => Err(reader.no_number()),
    }
}

/// A start address, 0 to 1023.
pub fn start(reader: &mut TokenReader) -> Result<StartAddress, ScriptFault>
    ensures { Takes (number_at 0 1023 reader.old.lexemes) result reader.old reader.new }
{
    let value = decimal(reader, 0, 1023)?;
    match StartAddress::new(value as u16) {
        Some(start) => Ok(start),
        None => Err(reader.no_number()),
    }
}

/// A contact, 0 to 15.
pub fn contact(reader: &mut TokenReader) -> Result<ContactId, ScriptFault>
    ensures read { Takes (number_at 0 15 reader.old.lexemes) result reader.old reader.new }
    ensures spells { IfOk result (λ n. Passes (decimal n ∷ []) reader.old reader.new) }
    ensures none { OnErr result ((n : ℕ) (rest : List (List ℕ)) → n < 16
        → reader.old.lexemes ≢ decimal n ∷ rest) }
    ensures range { IfOk result (λ c. c < 16) }
    ensures shorter { OnOk result (length reader.new.lexemes < length reader.old.lexemes) }
    ensures named { IfErr result (λ e. e ≢ Memory) }
{
    let value = decimal(reader, 0, 15)?;
    match ContactId::new(value as u8) {
        Some(contact) => Ok(contact),
        None => Err(reader.no_number()),
    }
}

/// The level of a contact, `closed` or `open`: whether it is closed.
///
/// # Errors
///
/// `Expected` where the next token is neither.
#[tactic(auto, unfolding(crate::specs::Taking::level_at))]
pub fn level(reader: &mut TokenReader) -> Result<bool, ScriptFault>
    ensures read { Takes (level_at reader.old.lexemes) result reader.old reader.new }
    ensures spells { IfOk result (λ closed. Passes (level_text closed ∷ []) reader.old reader.new) }
    ensures none { OnErr result ((closed : Bool) (rest : List (List ℕ))
        → reader.old.lexemes ≢ level_text closed ∷ rest) }
    ensures shorter { OnOk result (length reader.new.lexemes < length reader.old.lexemes) }
    ensures named { IfErr result (λ e. e ≢ Memory) }
{
    if reader.is_next(Keyword::Closed) {
        reader.advance();
        return Ok(true);
    }
    reader.expect(Keyword::Open)?;
    Ok(false)
}

/// A number of frames to wait, 1 to 65,535.
pub fn frames(reader: &mut TokenReader) -> Result<Frames, ScriptFault>
    ensures { Takes (number_at 1 65535 reader.old.lexemes) result reader.old reader.new }
{
    let value = decimal(reader, 1, 65_535)?;
    match Frames::new(value as u16) {
        Some(frames) => Ok(frames),
        None => Err(reader.no_number()),
    }
}

/// The number of times that a loop repeats, 1 to 65,535.
pub fn times(reader: &mut TokenReader) -> Result<Times, ScriptFault>
    ensures { Takes (number_at 1 65535 reader.old.lexemes) result reader.old reader.new }
{
    let value = decimal(reader, 1, 65_535)?;
    match Times::new(value as u16) {
        Some(times) => Ok(times),
        None => Err(reader.no_number()),
    }
}

/// The delay of a swap in frames, 1 to 60,000.
pub fn delay(reader: &mut TokenReader) -> Result<Delay, ScriptFault>
    ensures { Takes (number_at 1 60000 reader.old.lexemes) result reader.old reader.new }
{
    let value = decimal(reader, 1, 60_000)?;
    match Delay::new(value as u16) {
        Some(delay) => Ok(delay),
        None => Err(reader.no_number()),
    }
}

/// An EId: four digits 0-9 or A-F.
#[tactic(auto, using(crate::proofs::Taking::eid_next, crate::proofs::Taking::eid_other, crate::proofs::Taking::eid_no_atom))]
pub fn eid(reader: &mut TokenReader) -> Result<u16, ScriptFault>
    ensures { Takes (eid_at reader.old.lexemes) result reader.old reader.new }
{
    let atom = reader.atom()?;
    match number::hex_text(atom) {
        Some(eid) => {
            reader.advance();
            Ok(eid)
        }
        None => Err(reader.no_number()),
    }
}

/// An SId: four digits 0-9 or A-F for a short one, eight for a long one.
#[tactic(auto, using(crate::proofs::Taking::sid_next, crate::proofs::Taking::sid_other, crate::proofs::Taking::sid_no_atom))]
pub fn sid(reader: &mut TokenReader) -> Result<Sid, ScriptFault>
    ensures { Takes (sid_at reader.old.lexemes) result reader.old reader.new }
{
    let atom = reader.atom()?;
    match number::sid(atom) {
        Some(sid) => {
            reader.advance();
            Ok(sid)
        }
        None => Err(reader.no_number()),
    }
}

/// A protection profile, `1-A` to `4-A` or `1-B` to `4-B`.
#[tactic(auto, using(crate::proofs::Taking::profile_next, crate::proofs::Taking::profile_other, crate::proofs::Taking::profile_no_atom))]
pub fn profile(reader: &mut TokenReader) -> Result<Protection, ScriptFault>
    ensures { Takes (profile_at reader.old.lexemes) result reader.old reader.new }
{
    let atom = reader.atom()?;
    match number::profile(atom) {
        Some(profile) => {
            reader.advance();
            Ok(profile)
        }
        None => Err(reader.no_number()),
    }
}

/// A time of day, 00:00:00 to 23:59:59.
#[tactic(auto, using(crate::proofs::Taking::time_next, crate::proofs::Taking::time_other, crate::proofs::Taking::time_no_atom))]
pub fn time(reader: &mut TokenReader) -> Result<TimeOfDay, ScriptFault>
    ensures { Takes (time_at reader.old.lexemes) result reader.old reader.new }
{
    let atom = reader.atom()?;
    match number::time(atom) {
        Some(time) => {
            reader.advance();
            Ok(time)
        }
        None => Err(reader.no_number()),
    }
}

/// The name of a block; the reader does not advance.
///
/// # Errors
///
/// `Expected` where the next token is not a name: a brace, an ill-formed atom or a keyword; or
/// where the text has ended.
#[tactic(auto, using(crate::proofs::Taking::name_shown))]
pub fn name<'a>(reader: &TokenReader<'a>) -> Result<&'a str, ScriptFault>
    ensures next { IfOk result (λ s. name_next reader.now.lexemes ≡ Some (
      s.now,
      drop 1
          reader.now.lexemes,
    )) }
    ensures other { OnErr result (name_next reader.now.lexemes ≡ None) }
{
    let atom = reader.atom()?;
    if !is_name(atom) {
        return Err(reader.expected());
    }
    match std::str::from_utf8(atom) {
        Ok(name) => Ok(name),
        Err(_other) => Err(reader.expected()),
    }
}

/// Whether an atom can be the name of a block.
fn is_name(atom: &[u8]) -> bool
    ensures formed { result ≡ true → IsName atom.now }
    ensures none { result ≡ false → IsName atom.now → ⊥ }
{
    if atom.len() > 32 {
        return false;
    }
    if !has_name_letters(atom) {
        return false;
    }
    match Keyword::of(atom) {
        Some(_word) => false,
        None => true,
    }
}

fn has_name_letters(atom: &[u8]) -> bool
    ensures { result ≡ has_name_letters atom.now }
{
    match atom {
        [] => false,
        [first, rest @ ..] => {
            if !first.is_ascii_lowercase() {
                return false;
            }
            has_name_bytes(rest)
        }
    }
}

fn has_name_bytes(bytes: &[u8]) -> bool
    ensures { result ≡ list_all is_name_byte bytes.now }
{
    bytes.iter().all(|byte| is_name_byte(*byte))
}

fn is_name_byte(byte: u8) -> bool
    ensures { result ≡ is_name_byte byte }
{
    match byte {
        b'a'..=b'z' | b'0'..=b'9' | b'_' => true,
        _ => false,
    }
}
