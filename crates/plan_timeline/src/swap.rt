//! A swap of a run.

use mux_config::Config;

/// A swap of a run: the next configuration becomes the current one.
#[derive(Drop)]
pub struct Swap {
    /// The number of its frame in the run, from 0.
    pub frame: u64,
    /// The CIF count of its frame, 0 to 4999.
    pub count: u16,
    /// The frame of the day of its frame, 0 to 3,599,999.
    pub day: u32,
    /// The source line of the `commit` that led to it.
    pub line: u16,
    /// The configuration before it.
    pub before: Config,
    /// The configuration from its frame on.
    pub now: Config,
}
