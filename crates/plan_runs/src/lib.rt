//! Runs of plan codes: the player's behaviour frame by frame, and laws of every typed code.
//!
//! `specs/Frames.antt` defines one frame, `Runs.antt` the state after a list of events,
//! `Announced.antt` and `RightBytes.antt` requirements on the bytes, `Headline.antt` the guarantees
//! of a typed code, and `Listening.antt` what a listener knows. The functions of `laws` do nothing:
//! their contracts are the laws.
#![tactic(auto)]

pub mod event;
pub mod laws;

pub use event::{Event, Start};
