//! Tests of what neither a contract nor a command shows of library calls: the rows that every store
//! passes, the layout of FIG entries, the offsets of faults in FIBs, the layout of printed scripts,
//! and of playback the writers and readers that fail or are interrupted, sinks that take one byte
//! per call, the largest code file, and laws that are passed on from other crates.
//!
//! Begin with `tests.rt`, which says what each file tests.
#![tactic(auto)]

#[cfg(test)]
mod tests;
