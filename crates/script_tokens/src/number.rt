//! The values of atoms: decimals, hexadecimal identifiers, profiles and times.

ghost use Rattle.std.specs.Prelude.{◌≡◌, ◌≢◌, ℕ, ◌<◌, ◌≤◌, ◌++◌, ◌∷◌, [], length, IfSome, None};
ghost use Rattle.mux_types.specs.declared.numbers.Sid.{Sid};
ghost use Rattle.mux_eep.specs.Sizes.{Profile};
ghost use Rattle.script_tokens.specs.Spelling.{hex_digit, hex_byte, hex_text, hex_long, sid_text};
ghost use Rattle.script_tokens.specs.Spelling.{profile_text, two_digits, time_text};
ghost use Rattle.std.specs.Fmt.{decimal};
ghost use Rattle.mux_config.specs.Configuration.{IsSid};

use crate::time::TimeOfDay;
use mux_config::Sid;
use mux_eep::{EepSet, Protection};

/// The value of a decimal without leading zeros, of at most nine digits; None if the atom is not
/// one.
pub fn decimal(atom: &[u8]) -> Option<u32>
    ensures found { IfSome result (λ n. (atom.now ≡ decimal n) × (n < 1000000000)) }
    ensures none { result ≡ None → (n : ℕ) → n < 1000000000 → atom.now ≢ decimal n }
{
    if atom.is_empty() {
        return None;
    }
    if atom.len() > 9 {
        return None;
    }
    if atom[0] == b'0' {
        if atom.len() > 1 {
            return None;
        }
    }
    let mut value = 0u32;
    for byte in atom {
        if !byte.is_ascii_digit() {
            return None;
        }
        value = value * 10 + u32::from(*byte - b'0');
    }
    Some(value)
}

/// The value of a digit 0-9 or A-F; None for any other byte.
#[tactic(auto, using(crate::proofs::Numerals::low_digit, crate::proofs::Numerals::high_digit, crate::proofs::Numerals::no_digit))]
fn hex_digit(byte: u8) -> Option<u8>
    ensures range { IfSome result (λ d. d < 16) }
    ensures spells { IfSome result (λ d. byte ≡ hex_digit d) }
    ensures none { result ≡ None → (d : ℕ) → d < 16 → byte ≢ hex_digit d }
{
    match byte {
        b'0'..=b'9' => Some(byte - b'0'),
        b'A'..=b'F' => Some(byte - b'A' + 10),
        _ => None,
    }
}

/// The value of two digits 0-9 or A-F; None if they are not.
#[tactic(auto, using(crate::proofs::Numerals::two_hex, crate::proofs::Numerals::no_high, crate::proofs::Numerals::no_low))]
fn hex_byte(high: u8, low: u8) -> Option<u8>
    ensures spells { IfSome result (λ n. high ∷ low ∷ [] ≡ hex_byte n) }
    ensures none { result ≡ None → (n : ℕ) → n < 256 → high ∷ low ∷ [] ≢ hex_byte n }
{
    let high = hex_digit(high)?;
    let low = hex_digit(low)?;
    Some(high * 16 + low)
}

/// The value of four digits 0-9 or A-F; None if the atom is anything else.
#[tactic(auto, using(crate::proofs::Numerals::four_hex, crate::proofs::Numerals::no_front, crate::proofs::Numerals::no_back, crate::proofs::Numerals::not_four))]
pub fn hex_text(atom: &[u8]) -> Option<u16>
    ensures spells { IfSome result (λ n. atom.now ≡ hex_text n) }
    ensures none { result ≡ None → (n : ℕ) → n < 65536 → atom.now ≢ hex_text n }
{
    match atom {
        [a, b, c, d] => {
            let high = hex_byte(*a, *b)?;
            let low = hex_byte(*c, *d)?;
            Some(u16::from(high) * 256 + u16::from(low))
        }
        _ => None,
    }
}

/// The value of eight digits 0-9 or A-F, given as two groups of four; None if they are not.
#[tactic(auto, using(crate::proofs::Numerals::eight_hex, crate::proofs::Numerals::no_long_front, crate::proofs::Numerals::no_long_back))]
fn hex_long(front: &[u8], back: &[u8]) -> Option<u32>
    ensures spells { IfSome result (λ n. front.now ++ back.now ≡ hex_long n) }
    ensures none { result ≡ None → length front.now ≡ 4 → (n : ℕ) → n < 4294967296
        → front.now ++ back.now ≢ hex_long n }
{
    let high = hex_text(front)?;
    let low = hex_text(back)?;
    Some(u32::from(high) * 65_536 + u32::from(low))
}

/// The SId of an atom: four digits 0-9 or A-F for a short one, eight for a long one; None if it is
/// neither.
pub fn sid(atom: &[u8]) -> Option<Sid>
    ensures range { IfSome result IsSid }
    ensures spells { IfSome result (λ s. atom.now ≡ sid_text s) }
    ensures none { result ≡ None → (s : Sid) → IsSid s → atom.now ≢ sid_text s }
{
    match atom {
        [_, _, _, _] => Some(Sid::Short(hex_text(atom)?)),
        [a, b, c, d, e, f, g, h] => {
            let long = hex_long(&[*a, *b, *c, *d], &[*e, *f, *g, *h])?;
            Some(Sid::Long(long))
        }
        _ => None,
    }
}

/// The protection profile of an atom, `1-A` to `4-A` or `1-B` to `4-B`; None if it is not one.
#[tactic(auto, using(crate::proofs::Atoms::profile_length, crate::proofs::Atoms::profile_level, crate::proofs::Atoms::profile_dash, crate::proofs::Atoms::profile_set))]
pub fn profile(atom: &[u8]) -> Option<Protection>
    ensures range { IfSome result (λ p. (1 ≤ p.level) × (p.level ≤ 4)) }
    ensures spells { IfSome result (λ p. atom.now ≡ profile_text p) }
    ensures none { result ≡ None → (p : Profile) → 1 ≤ p.level → p.level ≤ 4
        → atom.now ≢ profile_text p }
{
    match atom {
        [level, b'-', b'A'] => Protection::new(EepSet::A, level.checked_sub(b'0')?),
        [level, b'-', b'B'] => Protection::new(EepSet::B, level.checked_sub(b'0')?),
        _ => None,
    }
}

/// The value of two decimal digits; None if they are not.
#[tactic(auto, using(crate::proofs::Numerals::two_decimal, crate::proofs::Atoms::no_tens, crate::proofs::Atoms::no_ones))]
fn two_digits(tens: u8, ones: u8) -> Option<u32>
    ensures range { IfSome result (λ n. n < 100) }
    ensures spells { IfSome result (λ n. tens ∷ ones ∷ [] ≡ two_digits n) }
    ensures none { result ≡ None → (n : ℕ) → n < 100 → tens ∷ ones ∷ [] ≢ two_digits n }
{
    if !tens.is_ascii_digit() {
        return None;
    }
    if !ones.is_ascii_digit() {
        return None;
    }
    Some(u32::from(tens - b'0') * 10 + u32::from(ones - b'0'))
}

/// The time of an atom `HH:MM:SS`, 00:00:00 to 23:59:59; None if it is not one.
#[tactic(auto, using(crate::proofs::Numerals::a_time, crate::proofs::Atoms::time_length, crate::proofs::Atoms::first_colon, crate::proofs::Atoms::second_colon, crate::proofs::Atoms::no_hours, crate::proofs::Atoms::no_minutes, crate::proofs::Atoms::no_seconds, crate::proofs::Atoms::more_hours, crate::proofs::Atoms::more_minutes, crate::proofs::Atoms::more_seconds))]
pub fn time(atom: &[u8]) -> Option<TimeOfDay>
    ensures range { IfSome result (λ t. t < 86400) }
    ensures spells { IfSome result (λ t. atom.now ≡ time_text t) }
    ensures none { result ≡ None → (t : ℕ) → t < 86400 → atom.now ≢ time_text t }
{
    match atom {
        [a, b, b':', c, d, b':', e, f] => {
            let hours = two_digits(*a, *b)?;
            let minutes = two_digits(*c, *d)?;
            let seconds = two_digits(*e, *f)?;
            if minutes > 59 {
                return None;
            }
            if seconds > 59 {
                return None;
            }
            let time = TimeOfDay::new(hours * 3600 + minutes * 60 + seconds)?;
            Some(time)
        }
        _ => None,
    }
}
