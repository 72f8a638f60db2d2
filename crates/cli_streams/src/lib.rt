//! The FIB commands of the program: one frame of a configuration, the configuration in a stream of
//! FIBs, and the check of a stream's announcements (EN 300 401 clauses 6.2 to 6.5).
#![tactic(auto)]

pub mod check;
pub mod entries;
pub mod frame;
mod frame_reader;
mod held_frames;
pub mod json;
mod json_listing;
pub mod laws;
pub mod listen;
mod listing;
pub mod merge;
mod other_frames;
