//! Checks frame by frame that a stream of FIBs announces each reconfiguration as EN 300 401 clause
//! 6.5 requires. The checker is a fold over the FIBs, in a fixed amount of memory.
#![tactic(auto)]

pub mod checker;
mod checker_state;
pub mod contradiction;
mod ensemble_rules;
pub mod finding;
mod frame;
mod frame_rules;
mod heard_entry;
mod heard_table;
mod hearing;
pub mod laws;
mod member_rules;
mod mention_rules;
mod noted;
pub mod reporting;
mod subs;
mod swap_rules;
mod timed_picture;

pub use checker::{CheckFault, Checker, Summary};
pub use contradiction::Contradiction;
pub use finding::{EntryName, Fault, Finding, StreamEvent, What};
pub use reporting::Report;
