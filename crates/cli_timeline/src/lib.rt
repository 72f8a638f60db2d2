//! The command `timeline` of the program: the dry run of a plan.
//!
//! Which swaps a run has is defined and proved in `plan_timeline`; what the command prints is
//! tested.
#![tactic(auto)]

mod drawn;
mod loading;
mod run;
pub mod timeline;
