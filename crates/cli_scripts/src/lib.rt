//! The commands of the program that read or print scripts: `compile`, `diff` and `map`, and `frame`
//! and `listen` with `--script`; and `verify`, whose refusals are explained as those of `compile`
//! are.
#![tactic(auto)]

mod commit_blocks;
pub mod compile;
pub mod compile_from;
pub mod diff;
mod exclusion;
pub mod explained;
pub mod frame_script;
pub mod listen_script;
pub mod map;
mod notes;
mod openings;
mod schedule_notes;
pub mod script_file;
pub mod script_map;
pub mod verify;
