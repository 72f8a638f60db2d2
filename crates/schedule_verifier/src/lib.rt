//! The verifier of schedules' codes: whether a code plays as its schedule prescribes.
//!
//! `implements` follows the instructions of a code from each of its tops, for regions of contacts
//! and frames of the day, and divides a region where a test or an overlay is not decided in it;
//! `are_combinations` follows the overlays alone, for what can hold at some moment.
//! `specs/Certificate.antt` defines when a code is certified, `specs/Playing.antt` what it is to
//! play as scheduled, and the contract of `laws::schedules` is the law that a certified code does.
#![tactic(auto)]

pub mod combinations;
mod conditions;
pub mod laws;
mod leaves;
mod region;
pub mod room;
pub mod verifier;
mod walk;
mod wanted;

pub use combinations::{Moment, are_combinations};
pub use room::Room;
pub use verifier::implements;
