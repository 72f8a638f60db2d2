//! A reader of the tokens of a text.

ghost use Rattle.std.specs.Prelude.{◌≡◌, min};

use crate::fault::{Position, ScriptFault};
use crate::first_keyword::{ItemKeyword, StatementKeyword};
use crate::keyword::Keyword;
use crate::token::Token;
use std::marker::Model;

/// The remaining tokens of a text.
#[derive(Drop)]
pub struct TokenReader<'a> {
    text: &'a [u8],
    all: &'a [Token],
    tokens: &'a [Token],
}

impl<'a> Model for TokenReader<'a> {
    ghost use Rattle.std.specs.Prelude.{ℕ, List, length};
    ghost use Rattle.script_tokens.specs.Reading.{Input, lexemes_of, shown_lines, AreWithin};
    ghost use Rattle.script_tokens.specs.Reading.{AreLastOf};

    ghost Value = { Input };

    ghost view = { λ r. record {
      lexemes = lexemes_of r.text.now r.tokens.now;
      lines = shown_lines r.all.now;
    } };

    ghost invariant = { λ r. AreWithin (length r.text.now) r.tokens.now
        × AreWithin (length r.text.now) r.all.now
        × AreLastOf r.all.now r.tokens.now };
}

impl<'a> TokenReader<'a> {
    ghost use Rattle.std.specs.Prelude.{◌≡◌, ◌≢◌, ◌↔◌, ℕ, ◌<◌, length, drop, List, [], ◌∷◌, IsTrue};
    ghost use Rattle.std.specs.Prelude.{MatchOption, IsSome, IfSome, None, Some, true, false, IfOk};
    ghost use Rattle.std.specs.Prelude.{IfErr, OnOk, OnErr};
    ghost use Rattle.script_tokens.specs.Reading.{lexemes_of, lines_of, shown_lines, line_of_left};
    ghost use Rattle.script_tokens.specs.Reading.{line_of, AreWithin, AreOnScriptLines, BeginsWith};
    ghost use Rattle.script_tokens.specs.Reading.{Passes, is_next, first_key, first_statement};
    ghost use Rattle.script_tokens.specs.Reading.{first_item, after, Leaves};
    ghost use Rattle.script_tokens.specs.Keywords.{letters};
    ghost use Rattle.script_tokens.specs.Texts.{AreLetters};
    ghost use Rattle.script_tokens.specs.declared.fault.ScriptFault.TheVariants.{Memory};
    ghost use Rattle.script_tokens.specs.declared.keyword.Keyword.{Keyword};

    /// A reader at the first of these tokens of a text.
    #[tactic(auto, using(crate::proofs::Ending::shown_are))]
    pub fn new(text: &'a [u8], tokens: &'a [Token]) -> Self
        requires { AreWithin (length text.now) tokens.now }
        ensures reads { result ≡ record {
          lexemes = lexemes_of text.now tokens.now;
          lines = shown_lines tokens.now;
        } }
        ensures lines { AreOnScriptLines tokens.now → result.lines ≡ lines_of tokens.now }
    {
        TokenReader {
            text,
            all: tokens,
            tokens,
        }
    }

    /// Whether no token is left.
    pub fn is_empty(&self) -> bool
        ensures { IsTrue result ↔ (self.now.lexemes ≡ []) }
    {
        self.peek().is_none()
    }

    /// The position of the next token, or just past the text.
    pub fn position(&self) -> Position {
        match self.tokens.first() {
            None => Position::past(self.text),
            Some(first) => first.position,
        }
    }

    /// The line of the next token, at most 65,535, the last line of a script; 0 where no token is
    /// left.
    pub fn line(&self) -> u16
        ensures { 0 < length self.now.lexemes → result ≡ line_of self.now.lines self.now.lexemes }
    {
        match self.tokens.first() {
            None => 0,
            Some(first) => shown_line(*first),
        }
    }

    /// The line of the last token of the text, at most 65,535, the last line of a script; 0 where
    /// the text has no token.
    pub fn last_line(&self) -> u16
        ensures { result ≡ line_of_left self.now.lines 1 }
    {
        match self.all.last() {
            None => 0,
            Some(last) => shown_line(*last),
        }
    }

    /// The bytes of the next token; None where no token is left.
    pub fn peek(&self) -> Option<&'a [u8]>
        ensures { MatchOption result (self.now.lexemes ≡ [])
            (λ w. BeginsWith self.now.lexemes w.now) }
    {
        match self.tokens.first() {
            None => None,
            Some(first) => Some(&self.text[first.start..first.end]),
        }
    }

    /// Advances past the next token, if there is one.
    pub fn advance(&mut self)
        ensures lexemes { self.new.lexemes ≡ drop 1 self.old.lexemes }
        ensures lines { self.new.lines ≡ self.old.lines }
        ensures passes { (word : List ℕ) → BeginsWith self.old.lexemes word → Passes (word ∷ [])
            self.old self.new }
    {
        if let Some((_first, rest)) = self.tokens.split_first() {
            self.tokens = rest;
        }
    }

    /// The next token, if it is a keyword or a brace.
    pub fn keyword(&self) -> Option<Keyword>
        ensures some { IsSome result → 0 < length self.now.lexemes }
        ensures begins { IfSome result (λ k. BeginsWith self.now.lexemes (letters k)) }
        ensures none { result ≡ None → (k : Keyword) (rest : List (List ℕ))
            → self.now.lexemes ≢ letters k ∷ rest }
        ensures is { (k : Keyword) (rest : List (List ℕ)) → self.now.lexemes ≡ letters k ∷ rest
            → result ≡ Some k }
        ensures first { result ≡ first_key self.now.lexemes }
    {
        match self.peek() {
            None => None,
            Some(word) => Keyword::of(word),
        }
    }

    /// The next token, if it is a keyword that begins a statement.
    #[tactic(auto, unfolding(crate::specs::Reading::first_statement))]
    pub fn statement_keyword(&self) -> Option<StatementKeyword>
        ensures first { result ≡ first_statement self.now.lexemes }
        ensures some { IsSome result → 0 < length self.now.lexemes }
    {
        match self.keyword() {
            None => None,
            Some(found) => found.statement(),
        }
    }

    /// The next token, if it is a keyword that begins an item.
    #[tactic(auto, unfolding(crate::specs::Reading::first_item))]
    pub fn item_keyword(&self) -> Option<ItemKeyword>
        ensures first { result ≡ first_item self.now.lexemes }
        ensures some { IsSome result → 0 < length self.now.lexemes }
    {
        match self.statement_keyword() {
            None => None,
            Some(found) => found.item(),
        }
    }

    /// Whether the next token is this keyword.
    pub fn is_next(&self, keyword: Keyword) -> bool
        ensures is { result ≡ is_next keyword self.now.lexemes }
        ensures some { result ≡ true → 0 < length self.now.lexemes }
        ensures begins { result ≡ true → BeginsWith self.now.lexemes (letters keyword) }
        ensures none { result ≡ false → (rest : List (List ℕ))
            → self.now.lexemes ≢ letters keyword ∷
            rest }
    {
        self.finds(keyword)
    }

    /// Whether the next token is this keyword, by comparison of keywords.
    fn finds(&self, keyword: Keyword) -> bool
        ensures some { result ≡ true → 0 < length self.now.lexemes }
        ensures begins { result ≡ true → BeginsWith self.now.lexemes (letters keyword) }
        ensures none { result ≡ false → (rest : List (List ℕ))
            → self.now.lexemes ≢ letters keyword ∷
            rest }
    {
        match self.keyword() {
            None => false,
            Some(found) => found == keyword,
        }
    }

    /// The next token, if it is an atom; the reader does not advance.
    ///
    /// # Errors
    ///
    /// `Expected` if it is a brace, or no token is left.
    #[tactic(auto, using(crate::proofs::Braces::no_open, crate::proofs::Braces::no_close))]
    pub fn atom(&self) -> Result<&'a [u8], ScriptFault>
        ensures some { OnOk result (0 < length self.now.lexemes) }
        ensures begins { IfOk result (λ w. BeginsWith self.now.lexemes w.now) }
        ensures none { OnErr result ((w : List ℕ) (rest : List (List ℕ)) → AreLetters w
            → self.now.lexemes ≢ w ∷ rest) }
        ensures named { IfErr result (λ e. e ≢ Memory) }
    {
        match self.peek() {
            None => Err(self.expected()),
            Some(b"{") => Err(self.expected()),
            Some(b"}") => Err(self.expected()),
            Some(atom) => Ok(atom),
        }
    }

    /// The fault for an atom that is not the required value in range.
    pub fn no_number(&self) -> ScriptFault
        ensures { result ≢ Memory }
    {
        ScriptFault::Number(self.position())
    }

    /// The fault for a wrong token, or for the end of the text.
    pub fn expected(&self) -> ScriptFault
        ensures { result ≢ Memory }
    {
        ScriptFault::Expected(self.position())
    }

    /// Advances past the next token, which must be this keyword.
    ///
    /// # Errors
    ///
    /// `Expected` if it is not.
    #[tactic(auto, unfolding(crate::specs::Reading::after))]
    pub fn expect(&mut self, keyword: Keyword) -> Result<(), ScriptFault>
        ensures leaves { Leaves (after keyword self.old.lexemes) result self.old self.new }
        ensures spells { OnOk result (Passes (letters keyword ∷ []) self.old self.new) }
        ensures none { OnErr result ((rest : List (List ℕ)) → self.old.lexemes ≢ letters keyword ∷
            rest) }
        ensures shorter { OnOk result (length self.new.lexemes < length self.old.lexemes) }
        ensures named { IfErr result (λ e. e ≢ Memory) }
    {
        if !self.is_next(keyword) {
            return Err(self.expected());
        }
        self.advance();
        Ok(())
    }
}

/// The line of a token, at most 65,535, the last line of a script.
fn shown_line(token: Token) -> u16
    ensures { result ≡ min token.position.line 65535 }
{
    token.position.line.min(65_535) as u16
}
