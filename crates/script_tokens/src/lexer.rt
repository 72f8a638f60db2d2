//! Cutting a text into tokens.

ghost use Rattle.std.specs.Prelude.{◌≡◌, ◌≢◌, ◌+◌, ◌∷◌, [], ◌<◌, ◌≤◌, true, false, length, List};
ghost use Rattle.std.specs.Prelude.{IfOk, IfErr, Ok, Err, Result};
ghost use Rattle.script_tokens.specs.Bytes.{position_after, first_position, token_at};
ghost use Rattle.script_tokens.specs.Lexing.{inside_after, is_bad, IsQuiet, atom_ended, made, fits};
ghost use Rattle.script_tokens.specs.Lexing.{lexed, Pushes};
ghost use Rattle.script_tokens.specs.Reading.{AreWithin, AreOnScriptLines};
ghost use Rattle.script_tokens.specs.Texts.{AreTokens, IsFirstFault};
ghost use Rattle.script_tokens.specs.declared.token.Token.{Token};
ghost use Rattle.script_tokens.specs.declared.fault.ScriptFault.TheVariants.{Memory};
ghost use Rattle.script_tokens.specs.declared.token.Inside.TheVariants.{Nothing};

use crate::fault::{Position, ScriptFault};
use crate::kinds::kind_of;
use crate::token::{Inside, Kind, Limits, MOST_BYTES, Place, SCRIPT_LIMITS, Token};
use std::alloc::Global;

pub(crate) fn inside_after(inside: Inside, place: Place, kind: Kind) -> Inside
    ensures { result ≡ inside_after inside place kind }
{
    match kind {
        Kind::LineEnd => Inside::Nothing,
        Kind::Hash => Inside::Comment,
        Kind::Letter => match inside {
            Inside::Nothing => Inside::Atom(place),
            Inside::Comment => Inside::Comment,
            Inside::Atom(start) => Inside::Atom(start),
        },
        Kind::Blank | Kind::Brace | Kind::Bad => match inside {
            Inside::Comment => Inside::Comment,
            Inside::Nothing | Inside::Atom(_) => Inside::Nothing,
        },
    }
}

fn is_bad(inside: Inside, kind: Kind) -> bool
    ensures { result ≡ is_bad inside kind }
{
    match inside {
        Inside::Comment => false,
        Inside::Nothing | Inside::Atom(_) => kind == Kind::Bad,
    }
}

/// Whether a byte of this kind makes no token and leaves the lexer's state unchanged.
fn is_quiet(inside: Inside, kind: Kind) -> bool
    ensures { result ≡ true → IsQuiet inside kind }
{
    match inside {
        Inside::Nothing => kind == Kind::Blank || kind == Kind::LineEnd,
        Inside::Comment => kind != Kind::LineEnd,
        Inside::Atom(_) => kind == Kind::Letter,
    }
}

pub(crate) fn position_after(place: Place, kind: Kind) -> Place
    requires room { place.at + 1 < usize.MAX }
    requires lines { place.position.line ≤ place.at + 1 }
    requires columns { place.position.column ≤ place.at + 1 }
    ensures { result ≡ position_after place kind }
{
    let position = match kind {
        Kind::LineEnd => Position {
            line: place.position.line + 1,
            column: 1,
        },
        Kind::Blank | Kind::Hash | Kind::Brace | Kind::Letter | Kind::Bad => Position {
            line: place.position.line,
            column: place.position.column + 1,
        },
    };
    Place {
        at: place.at + 1,
        position,
    }
}

/// The tokens of a text, within these limits.
///
/// # Errors
///
/// The first in text order of: `Byte` for a byte outside comments that is not allowed in a text,
/// `Limit` for a token past a limit. `Memory` if memory runs out.
pub fn cut(alloc: Global, text: &str, limits: Limits) -> Result<Vec<Token>, ScriptFault>
    ensures tokens { IfOk result (λ v. lexed limits Nothing first_position text.now ≡ Ok v.items) }
    ensures fault { IfErr result (λ e. e ≢ Memory →
        lexed limits Nothing first_position text.now ≡ Err
        e) }
    ensures within { IfOk result (λ v. AreWithin (length text.now) v.items) }
{
    let mut tokens = Vec::new(alloc);
    let mut inside = Inside::Nothing;
    let mut place = Place {
        at: 0,
        position: Position { line: 1, column: 1 },
    };
    for byte in text.as_bytes() {
        let kind = kind_of(*byte);
        if is_quiet(inside, kind) {
            place = position_after(place, kind);
            continue;
        }
        push_made(&mut tokens, limits, inside, place, kind)?;
        if is_bad(inside, kind) {
            return Err(ScriptFault::Byte(place.position));
        }
        inside = inside_after(inside, place, kind);
        place = position_after(place, kind);
    }
    push_atom(&mut tokens, limits, inside, place.at, Kind::Blank)?;
    Ok(tokens)
}

fn push_atom(
    tokens: &mut Vec<Token>,
    limits: Limits,
    inside: Inside,
    at: usize,
    kind: Kind,
) -> Result<(), ScriptFault>
    ensures { Pushes limits tokens.old.items tokens.new.items (atom_ended inside at kind) result }
{
    if let Inside::Atom(start) = inside {
        if kind != Kind::Letter {
            push(tokens, limits, start, at)?;
        }
    }
    Ok(())
}

fn push_made(
    tokens: &mut Vec<Token>,
    limits: Limits,
    inside: Inside,
    place: Place,
    kind: Kind,
) -> Result<(), ScriptFault>
    requires { place.at < usize.MAX }
    ensures { Pushes limits tokens.old.items tokens.new.items (made inside place kind) result }
{
    push_atom(tokens, limits, inside, place.at, kind)?;
    if inside != Inside::Comment && kind == Kind::Brace {
        push(tokens, limits, place, place.at + 1)?;
    }
    Ok(())
}

fn push(
    tokens: &mut Vec<Token>,
    limits: Limits,
    start: Place,
    end: usize,
) -> Result<(), ScriptFault>
    ensures { Pushes limits tokens.old.items tokens.new.items (token_at start end ∷ []) result }
{
    let token = Token {
        start: start.at,
        end,
        position: start.position,
    };
    if !fits(limits, token) {
        return Err(ScriptFault::Limit(token.position));
    }
    match tokens.push(token) {
        Ok(()) => Ok(()),
        Err(_full) => Err(ScriptFault::Memory),
    }
}

pub(crate) fn fits(limits: Limits, token: Token) -> bool
    ensures { result ≡ fits limits token }
{
    if token.end > token.start.saturating_add(limits.atom) {
        return false;
    }
    token.position.line <= limits.line
}

/// The tokens of a script, which are its braces and atoms, each with its span.
///
/// # Errors
///
/// `Limit` at 1:1 for a text of more than 1,048,576 bytes; otherwise the first in text order of:
/// `Byte` for a byte outside comments that is not allowed in a script, `Limit` for an atom of more
/// than 32 bytes or a token past line 65,535. `Memory` if memory runs out.
#[tactic(auto, using(crate::proofs::Spans::on_script_lines, crate::proofs::Pieces::cut_into, crate::proofs::Pieces::not_cut))]
pub fn lex(alloc: Global, text: &str) -> Result<Vec<Token>, ScriptFault>
    ensures tokens { IfOk result (λ v. AreTokens text.now v.items) }
    ensures none { IfErr result (λ e. e ≢ Memory → (tokens : List Token) → AreTokens text.now
        tokens → ⊥) }
    ensures fault { IfErr result (λ e. e ≢ Memory → IsFirstFault text.now e) }
    ensures within { IfOk result (λ v. AreWithin (length text.now) v.items) }
    ensures lines { IfOk result (λ v. AreOnScriptLines v.items) }
{
    if text.len() > MOST_BYTES {
        return Err(ScriptFault::Limit(Position { line: 1, column: 1 }));
    }
    let tokens = cut(alloc, text, SCRIPT_LIMITS)?;
    Ok(tokens)
}
