//! Merges the other FIGs of a multiplexer into the FIBs of a plan (EN 300 401 clauses 5.2.1 and
//! 5.2.2).
//!
//! A [`Merger`] takes FIGs from the multiplexer's FIBs, all but those that a plan sends itself, and
//! appends them to FIBs of the plan that have room. A listener, and the checker of streams, know of
//! a filled FIB what they know of the plan's.
//!
//! The definitions that contracts cite are in `specs/`: `Taking` says which FIGs are taken and how
//! they wait, `Filling` which of them go into a FIB.
#![tactic(auto)]

pub mod laws;
pub mod merger;
mod queue;
mod sealing;
mod stored_fig;

pub use merger::Merger;
