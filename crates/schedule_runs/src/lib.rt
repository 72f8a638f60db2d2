//! What a schedule means, and that it is kept.
//!
//! `specs/Due.antt` defines what a schedule wants on air in each frame of the day, and what is due:
//! what is wanted a notice later. `specs/Machine.antt` defines what is on air and what comes next,
//! frame by frame and after a list of events; a code implements the schedule if it plays so.
//! `specs/Kept.antt` says how a schedule is kept. The functions of `laws` do nothing: their
//! contracts are the laws.
#![tactic(auto)]

pub mod laws;
