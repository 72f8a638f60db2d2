//! The commands of the program that play plans: `play`, `debug` and `live`.
//!
//! What status 0 of `play` and `live` means is defined in `specs/Success.antt`. What they and
//! `debug` print, and what is left where a file or an output fails, is tested.
#![tactic(auto)]

pub mod debug;
pub mod event_file;
mod item_hints;
pub mod item_notes;
mod item_place;
pub mod live;
pub mod play;
mod reports;
mod standard_error;
mod writer_sink;

pub use item_place::Listing;
