//! Tests of library calls: of stores (`stores`), FIBs (`fibs`, `entries`, `places`), printed
//! scripts (`printing`), schedules (`schedules`) and playback (the others).

mod codes;
mod entries;
mod fibs;
mod into_sink;
mod largest_file;
mod laws;
mod places;
mod printing;
mod schedules;
mod sinks;
mod stores;
mod texts;
mod writers;
