//! The compiler of schedules: from what is to be on air, and when, to a plan code.
//!
//! `compile_schedule` begins with the configuration of the items, `compile_from` with any other.
//! The ways through the code are decisions over the time of day and the contacts (`decisions.rt`);
//! each state, a configuration that can be due, has code of its own (`emission.rt`), and what is
//! written was accepted by the verifier.
#![tactic(auto)]

mod combinations;
mod compiler;
mod day;
mod decisions;
mod emission;
mod fault;
mod labels;
pub mod laws;
mod lines;
mod reach;
mod rounds;
mod search;
mod states;
mod terms;
mod way;

pub use compiler::{compile_from, compile_schedule};
pub use fault::{ScheduleFault, ScheduleLimit};
