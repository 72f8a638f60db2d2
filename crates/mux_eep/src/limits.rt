//! The size of a multiplex. Code and definitions cite this name.

/// The capacity units of a multiplex, numbered 0 to 863 (EN 300 401 clause 5.1).
pub const CAPACITY_UNITS: u16 = 864;
