//! Tokens of scripts, event files and command files, and the values that tokens spell.
//!
//! `lex` cuts a script into tokens; `cut` does so for a text with other limits, and a `Scanner`
//! finds them one by one and keeps none. A `TokenReader` iterates over the tokens of a text; each
//! function of `values` reads the next token as a value, and those of `number` give the value that
//! an atom spells. Begin with `Token` and `TokenReader`. Which tokens `lex` returns, and which
//! fault, is defined in `specs/Texts.antt` (`AreTokens`, `IsFirstFault`); how values are spelled,
//! in `specs/Spelling.antt`.
#![tactic(auto)]

pub mod fault;
pub mod first_keyword;
pub mod keyword;
pub mod kinds;
pub mod laws;
pub mod lexer;
pub mod number;
pub mod scanner;
pub mod time;
pub mod token;
pub mod token_reader;
pub mod values;

pub use fault::{Position, ScriptFault};
pub use first_keyword::{ActKeyword, ComponentKeyword, EditKeyword, ItemKeyword, StatementKeyword};
pub use keyword::Keyword;
pub use kinds::kind_of;
pub use lexer::{cut, lex};
pub use scanner::Scanner;
pub use time::TimeOfDay;
pub use token::{Inside, Kind, Limits, MOST_BYTES, NO_LIMITS, Place, SCRIPT_LIMITS, Token};
pub use token_reader::TokenReader;
