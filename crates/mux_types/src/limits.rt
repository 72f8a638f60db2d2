//! The size of a configuration and the range of CIF counts. Code and definitions cite these names.

/// The most sub-channels of a configuration, the most services and the most packet components: a
/// SubChId has six bits (EN 300 401 clause 6.2.1), and this project limits the other two sets to
/// the same number.
pub const MEMBERS: usize = 64;

/// The number of CIF counts: the count runs from 0 to one below it (EN 300 401 clause 6.4).
pub const COUNTS: u16 = 5000;
