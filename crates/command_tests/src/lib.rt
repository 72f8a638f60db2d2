//! Commands in a world of which all is known: files in memory, and an output that is a list of
//! bytes. `playing` states there what `play` leaves in its file, and the tests run the commands
//! there.
#![tactic(auto)]

pub mod playing;
#[cfg(test)]
mod tests;
