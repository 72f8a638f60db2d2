//! The map of a plan: which capacity units each sub-channel has, at first and after each commit.
//!
//! [`rows_of`] returns the rows of a code, [`print_map`] writes them as text, [`print_json_map`] as
//! objects of JSON, and [`draw_map`] as a drawing to scale. Which rows a code has is defined in
//! `specs/Rows.antt`, what leads to a commit in `specs/Leads.antt`, and the one layout for all of
//! them in `specs/Layout.antt`. [`laws`] says what the rows have to do with the runs of the code.
//! Text, objects and drawing have no contract; tests print them.
#![tactic(auto)]

pub mod cells;
pub mod changes;
pub mod drawing;
mod drawn_parts;
mod drawn_row;
mod drawn_subs;
mod json;
pub mod key;
pub mod laws;
pub mod layout;
pub mod lead;
mod legend;
pub mod rows;
pub mod text;

pub use cells::units_of;
pub use changes::{print_changes, print_sid};
pub use drawing::draw_map;
pub use drawn_parts::draw_colour;
pub use json::{print_json_layout, print_json_map};
pub use key::{Use, is_carried_by, key_of};
pub use layout::{Clash, Layout, layout_of, print_layout};
pub use lead::{AnyOf, Lead, Reached, Ways};
pub use rows::{Row, RowKind, rows_of};
pub use text::print_map;
