//! The carousel: distributes the entries of FIG 0/1 to 0/3 over the FIBs of successive frames (EN
//! 300 401 clause 5.2).
//!
//! A configuration, or two side by side, can be too large for one frame. Its entries are packed
//! into one sequence of FIBs, as many to a page as a frame has that are not reserved, so that no
//! division of them in order takes fewer. `pages` and `page` answer for any page; a `Cursor` yields
//! the pages in order. The definitions that contracts cite are in `specs/`: begin with
//! `Packing.antt` and `Pages.antt`.
#![tactic(auto)]

pub mod carousel;
mod entry_list;
mod entry_runs;
mod entry_shapes;
pub mod kept_page;
pub mod laws;
mod pack_state;
mod page_count;
pub mod page_cursor;
mod page_set;
mod page_writer;
mod to_entries;

pub use carousel::{page, pages};
pub use kept_page::KeptPage;
pub use page_cursor::Cursor;
