//! Options of a live run.

/// What a live run writes and reports.
#[derive(Clone, Copy, Debug, PartialEq, Eq)]
pub struct LiveOptions {
    /// The number of frames at the beginning of the run that are played but not written. Those of
    /// them in which nothing happens take no time.
    pub skip: u64,
    /// The notes that are reported.
    pub wanted: Wanted,
}

/// Which notes of the frames are reported.
#[derive(Clone, Copy, Debug, PartialEq, Eq)]
pub struct Wanted {
    /// Whether swaps, the start of notices and the end are reported.
    pub status: bool,
    /// One frame of this many is reported: the last of them. 0: none.
    pub every: u32,
}
