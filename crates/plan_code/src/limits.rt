//! Limits of plan codes, named in code and definitions.

pub use mux_types::COUNTS;

/// The maximum number of configurations in a code.
pub const MOST_CONFIGURATIONS: u16 = 256;

/// The maximum number of labels in a code.
pub const MOST_LABELS: u16 = 1024;

/// The maximum number of instructions in a code.
pub const MOST_INSTRUCTIONS: u16 = 4096;

/// The longest period of a plan, in frames; the shortest is 1.
pub const LONGEST_PERIOD: u8 = 60;

/// The shortest notice of a plan, in frames: it contains three FIG 0/0 in every transmission mode.
pub const SHORTEST_NOTICE: u8 = 12;

/// The longest notice of a plan, in frames: below 250, so that the low part of a CIF count
/// identifies one frame of a notice.
pub const LONGEST_NOTICE: u8 = 248;

/// The longest delay of a commit, in frames; the shortest is 1.
pub const LONGEST_DELAY: u16 = 60_000;

/// The number of contacts, numbered from 0.
pub const CONTACTS: u8 = 16;

/// The number of counters, numbered from 0.
pub const COUNTERS: u8 = 8;

/// The number of 24 ms frames in a day.
pub const FRAMES_A_DAY: u32 = 3_600_000;
