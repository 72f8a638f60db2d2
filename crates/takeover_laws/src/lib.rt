//! What a plan that takes over from what is on air does.
//!
//! `specs/Moved.antt` defines states that differ in the pc alone: a code plays on behind the
//! instructions of a take-over as it plays alone. `specs/TakingOver.antt` says what is on air until
//! its first swap, and that from the frame of that swap on it is the plan that it leads to. The
//! functions of `laws` do nothing: their contracts are the laws.
#![tactic(auto)]

pub mod laws;
