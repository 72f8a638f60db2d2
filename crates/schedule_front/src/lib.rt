//! The language of schedules: its tree, parser and printer.
//!
//! `parse_schedule` reads a text into a `Schedule`, `parse_source` one of either form, and
//! `print_schedule` prints a schedule. The header, the items, the edits and the faults are those of
//! `script_front`. Begin with `Schedule` and `Overlay`. The schedule of a text, which
//! `parse_schedule` returns, is defined in `specs/Denoting.antt` (`IsScheduleOf`).
#![tactic(auto)]

mod conditions;
pub mod laws;
mod lexemes;
mod overlays;
pub mod parser;
pub mod printer;
pub mod schedule;
pub mod source;
pub mod tree;

pub use parser::{parse_schedule, parse_source};
pub use printer::print_schedule;
pub use schedule::Schedule;
pub use source::Source;
pub use tree::{Overlay, OverlayEdit, Test};
