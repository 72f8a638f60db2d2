//! The player: plays a plan code frame by frame.
//!
//! A [`Player`] plays a code that `plan_verifier` accepted, over any store of configurations;
//! [`play`] writes the frames of a list of events to a [`Sink`], and [`play_frames`] a number of
//! frames with no event between them; [`pass_frames`] plays frames without making their bytes.
//! Their behaviour is defined in `plan_runs`, whose events, starts and laws this crate re-exports.
//! `specs/Playing.antt` defines the state of a player, `specs/Delivery.antt` what a sink receives,
//! and `specs/Quiet.antt` the frames that need nothing but their page and their counts.
#![tactic(auto)]

mod batch;
pub mod bytes;
mod count_tables;
pub mod delivery;
pub mod fault;
mod frame_step;
pub mod frames;
pub mod laws;
mod machine;
pub mod passing;
mod phase_pages;
pub mod player;
mod recount;
pub mod sink;
mod stretch;

pub use bytes::Bytes;
pub use delivery::play;
pub use fault::{PlayFault, StartFault};
pub use frames::play_frames;
pub use passing::pass_frames;
pub use plan_runs::{Event, Start};
pub use player::Player;
pub use sink::{Sink, Writer, put_all};
