//! Live playback: a plan that is driven line by line while it runs.
//!
//! [`live`] plays a code file over the lines of an input as they arrive, and [`drive`] a player at
//! its start. Both use three streams, [`Ends`]: lines in, bytes out, and messages; [`Streams`]
//! implements them over a reader, a writer and [`Messages`]. The steps of a line are defined in
//! `specs/Lines.antt`, and the outcome of a live run in `specs/Living.antt`. That a live run is the
//! playback of one event file is a law of [`laws`].
#![tactic(auto)]

pub mod driving;
pub mod ends;
pub mod fault;
mod frames;
pub mod laws;
mod line;
pub mod message;
mod notes;
pub mod options;
pub mod playback;
pub mod streams;

pub use driving::drive;
pub use ends::{Ends, Messages};
pub use fault::{LiveFault, Stop};
pub use message::{JsonMessage, LineFault, Message};
pub use options::{LiveOptions, Wanted};
pub use playback::live;
pub use streams::Streams;
