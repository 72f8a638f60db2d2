//! The script language of reconfiguration plans: its tree, parser and printer.
//!
//! `parse` reads a text into a `Script`, `print` prints one, and `lex`, of `script_tokens`, returns
//! a text's tokens. Begin with `Script` and `Statement`. The script of a text, which `parse`
//! returns, is defined in `specs/Denoting.antt` (`IsScriptOf`); what a compiler takes a tree to
//! mean, in `specs/Block.antt`.
#![tactic(auto)]

pub mod alternatives;
pub mod header;
pub mod items;
pub mod laws;
pub mod lexemes;
pub mod make;
pub mod moment;
pub mod names;
pub mod parser;
pub mod printer;
pub mod script;
pub mod statements;
pub mod tree;
pub mod wait_lexemes;
mod waits;

pub use alternatives::{Alternative, Alternatives, MOST_ALTERNATIVES};
pub use fib_codec::Mode;
pub use moment::{Moment, MomentForm};
pub use names::Names;
pub use parser::parse;
pub use plan_code::Plan;
pub use printer::print;
pub use script::Script;
pub use script_tokens::{
    Keyword, Limits, Position, ScriptFault, TimeOfDay, Token, cut, fault, keyword, lex, lexer,
    number, time, token, token_reader, values,
};
pub use tree::{Act, BlockId, Condition, Item, Statement};
