//! Explained plans: what a user needs to correct a refused script or code, with the objects and
//! numbers involved; and what the author of an accepted plan may not want, though it is not wrong.
//!
//! [`notes_on_fault`] says why a text is not a script, [`notes_on_script`] why a script is not
//! compiled, and [`notes_on_code`] why a code is refused; [`put_notes`] and [`put_errors`] print
//! what they say. A refused script is followed up to the refusal, with what is known there: a
//! `Stop`, which is the compiler's refusal (`specs/Stops.antt`). A `Fact` about it is printed only
//! if it holds (`specs/Facts.antt`); a line is to blame if the refusal is passed without it; and a
//! hint that changes the text was compiled (`specs/TextChanges.antt`).
//!
//! [`warnings_of`] returns the warnings that are true of a script and its code: all of them, and no
//! other ones. When a [`Warning`] is true is defined in `specs/Warnings.antt`; [`put_warning`]
//! prints one.
#![tactic(auto)]

mod because;
mod beginning;
mod blocks;
mod byte;
mod changes;
mod code;
mod cost;
mod day_trap;
mod day_wait;
mod difference;
mod edits;
mod expected;
mod fact;
mod facts;
mod flaw;
mod follow;
mod hint;
mod keywords;
mod late_until;
mod limit;
mod list;
mod meant;
mod note;
mod once;
mod opening;
mod primary;
mod probe;
mod reach;
mod repair;
mod room;
mod script;
mod sentence;
mod source;
mod stop;
mod straight;
mod syntax;
mod trial;
mod trier;
mod warned;
mod warning;
mod warnings;
mod words;

pub use beginning::FirstWait;
pub use byte::note_on_byte;
pub use code::notes_on_code;
pub use day_trap::{DayTrap, Passage};
pub use day_wait::DayWait;
pub use flaw::Flaw;
pub use late_until::LateUntil;
pub use note::{Note, put_errors, put_notes};
pub use primary::Primary;
pub use script::notes_on_script;
pub use straight::Way;
pub use syntax::notes_on_fault;
pub use warned::put_warning;
pub use warning::Warning;
pub use warnings::warnings_of;
