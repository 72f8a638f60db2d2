//! What all commands share: files, standard output and standard error, reading line by line, exit
//! statuses, hexadecimal digits, and texts of unknown origin in messages.
#![tactic(auto)]

pub mod code_file;
pub mod ending;
pub mod escaped;
pub mod exit;
pub mod files;
pub mod hexadecimal;
pub mod laws;
pub mod lines;
pub mod memory;
pub mod output;
pub mod pieces;
mod places;
mod reasons;
mod replacing;
pub mod sink;
pub mod waiting;
