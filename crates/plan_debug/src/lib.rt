//! The debugger: a player that is driven by commands.
//!
//! A [`Debugger`] plays a player's frames up to a line or up to the next change of the instruction,
//! and records the last announcements that were sent: the FIG 0/0 with change flags. How many
//! frames a command plays is defined in `specs/Commands.antt`, and their announcements in
//! `specs/Announcements.antt`.
#![tactic(auto)]

pub mod announcement;
pub mod debugger;
mod decoding;
pub mod laws;
mod log;
pub mod report;

pub use announcement::Announcement;
pub use debugger::Debugger;
pub use plan_session::Command;
pub use report::Report;
