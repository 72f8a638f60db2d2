//! Reads FIBs from untrusted bytes (EN 300 401 clauses 5.2.1 and 5.2.2).
//!
//! The layout of each entry is in the file of its FIG in `fib_codec`, which is called for lengths
//! and values.
#![tactic(auto)]

mod basis;
mod bytes;
pub mod checking;
pub mod entries;
mod entry_table;
pub mod fault;
pub mod figs;
pub mod from_entry;
mod known_fibs;
pub mod laws;
pub mod listener;
mod members;
mod owned_entry;
pub mod picture;
mod receiver;

pub use checking::check;
pub use entries::{Entries, RawEntry};
pub use entry_table::{EntryTable, TableEntry};
pub use fault::{FibFault, ListenFault};
pub use figs::{Fig, Figs};
pub use listener::Listener;
pub use owned_entry::OwnedEntry;
pub use picture::{Picture, PictureEntries};
