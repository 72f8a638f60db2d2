//! The timeline of a plan: the swaps of a run, with what changes and when, without its frames.
//!
//! [`next_swap`] plays steps up to the next swap, [`write_timeline`] prints a line for each, and
//! [`draw_timeline`] draws them. What the swaps of a run are is defined in `specs/Swaps.antt`. Text
//! and drawing have no contract; tests print them.
#![tactic(auto)]

pub mod clock;
pub mod drawing;
mod spans;
pub mod swap;
pub mod swaps;
pub mod text;

pub use clock::Clock;
pub use drawing::{Drawing, draw_timeline};
pub use swap::Swap;
pub use swaps::{Position, TooManyFrames, next_swap};
pub use text::{Form, print_on_air, print_swap};
