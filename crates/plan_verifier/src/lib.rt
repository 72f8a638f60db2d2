//! The verifier: checks that a plan code is typed, so that no playback of it traps.
//!
//! `verify` takes a `Code`, and returns it as `Verified`, or `Refused` at an instruction with a
//! `Cause`. Typed codes are defined in `specs/Typing.antt` and refusals in `specs/Refusals.antt`.
//!
//! The rules of a plan are a flow analysis: a [`Flow`] is what is known at an instruction of the
//! configurations and of the swap from the current one to the next. `apply` updates a flow for an
//! instruction, or refuses the instruction with the first cause of `specs/Causes.antt`. Counters,
//! allowances and costs are not part of a flow: the verifier and the compiler have their own rules
//! for them. What an instruction needs, and what holds after it, is defined in `specs/Rules.antt`.
//! Where paths merge, `fits` tests a flow against what is known there, and `meet` computes that.
//!
//! A [`TrackedFlow`] also knows the indices of its configurations in a table, as far as that is
//! known: it does the same for flows that give theirs by index (`specs/Indexed.antt`), and what is
//! known to be equal is neither compared nor copied. The verifier's table is that of the code, the
//! compiler's is its pool; `plan_explain` compares flows without one.
#![tactic(auto)]

mod apply;
pub mod cause;
mod commits;
mod fitting;
pub mod flow;
pub mod indices;
mod known;
mod labels;
pub mod laws;
mod meeting;
mod pages;
pub mod properties;
mod refusal;
pub mod start;
mod step;
mod swaps;
pub mod tracked;
pub mod verified;
mod walk;

pub use cause::Cause;
pub use flow::Flow;
pub use indices::{IndexedFlow, Indices};
pub use start::test_opening;
pub use tracked::TrackedFlow;
pub use verified::{Refused, Verified, verify};
