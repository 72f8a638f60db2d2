//! The compiler: translates a script to plan code that plays as the script reads.
//!
//! [`compile`] takes a `Script` and returns a `Code`, or a [`CompileFault`] with a line. Statements
//! are compiled in text order, tracking what is known at the current instruction. Each
//! configuration that a label names or that is saved for a branch or a loop has a number: a saved
//! program point is two numbers and the swap, and a configuration is looked up only if an edit has
//! changed it since. The costs of labels are computed last.
//!
//! The code of a script is `IsCodeOf` of `specs/Compiled.antt`: the instructions are a function of
//! its tree, each with what is known there (`specs/Scheme.antt`), and so are the labels, except for
//! their costs. Which scripts have a code that never goes wrong is defined by cases on statements
//! (`specs/Judged.antt`); the cost of a label is defined by the paths in the code
//! (`specs/Need.antt`). What is known is a `Flow` of `plan_verifier`; a [`ProgramPoint`] is a flow,
//! and whether there is a label.
//!
//! `specs/Meaning.antt` is an abstract machine for scripts, whose control state is the list of
//! statements still to execute: it has no pc, no labels and no counters. The functions of [`laws`]
//! do nothing: their contracts are the laws that a script has one code, and that a compiled script
//! plays as it reads.
#![tactic(auto)]

mod branches;
pub mod compiler;
mod context;
mod cost;
mod emission;
mod falls;
pub mod fault;
mod fingerprint;
pub mod flow;
mod frame_costs;
mod instructions;
mod judge;
mod labels;
pub mod laws;
mod longest_path;
pub mod needs;
mod numbers;
mod opening_items;
mod pool;
mod refusal;
mod short;
mod statements;
mod table;
mod unpriced;
mod work;

pub use compiler::compile;
pub use fault::{CodeLimit, CompileFault};
pub use flow::{ProgramPoint, UnpricedLabel};
pub use frame_costs::{FrameCost, frame_cost};
pub use instructions::test_of;
pub use judge::instr_of;
pub use longest_path::LongestPath;
pub use statements::line_of;
