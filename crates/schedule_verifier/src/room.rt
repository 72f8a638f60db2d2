//! The room for a verification, which bounds its work.

use mux_config::{Config, Store};

/// The most regions of contacts and frames of the day that are looked at for a code.
pub const MOST_REGIONS: u32 = 200_000;

/// Room for a verification: for what is due, and for so many more regions.
#[derive(Drop)]
pub struct Room {
    /// What is due in the region that was looked at last.
    pub(crate) wanted: Config,
    /// How many regions may still be looked at.
    left: u32,
}

impl Room {
    /// Room for one code, with [`MOST_REGIONS`] regions.
    pub fn new() -> Room {
        Room {
            wanted: Config::empty(),
            left: MOST_REGIONS,
        }
    }

    /// Whether no region is left to be looked at.
    pub fn is_used_up(&self) -> bool {
        self.left == 0
    }

    /// Takes one of the regions that may still be looked at; false where none is left.
    pub(crate) fn takes_region(&mut self) -> bool {
        if self.left == 0 {
            return false;
        }
        self.left -= 1;
        true
    }
}
