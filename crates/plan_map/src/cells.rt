//! The cells of a bar: 72 of 12 capacity units each.

ghost use Rattle.std.specs.Prelude.{◌≡◌, ◌≤◌};
ghost use Rattle.plan_map.specs.Cells.{units_of, end_of};

use mux_config::Sub;
use mux_eep::{CAPACITY_UNITS, size_of};

/// The number of cells in a line: half a bar.
pub const HALF: u16 = 36;

/// The number of capacity units in a cell.
pub const CELL_UNITS: u16 = 12;

/// The size of a sub-channel in capacity units; 0 if its profile has no size at its rate.
pub fn units_of(sub: &Sub) -> u16
    ensures value { result ≡ units_of sub.now }
    ensures bound { result ≤ 864 }
{
    match size_of(sub.protection, sub.kbits) {
        Ok(size) => size,
        Err(_) => 0,
    }
}

/// The first capacity unit after a sub-channel.
pub fn end_of(sub: &Sub) -> u32
    ensures { result ≡ end_of sub.now }
{
    u32::from(sub.start) + u32::from(units_of(sub))
}

/// How many capacity units of a cell belong to a sub-channel.
fn units_in(cell: u16, sub: &Sub) -> u32 {
    let first = u32::from(cell) * u32::from(CELL_UNITS);
    let low = u32::from(sub.start).max(first);
    let high = end_of(sub).min(first + u32::from(CELL_UNITS));
    high.saturating_sub(low)
}

/// The sub-channel that has most of a cell, the first in a tie; `None` if the cell is free.
pub(crate) fn holder(cell: u16, subs: &[Sub]) -> Option<Sub> {
    let mut best = None;
    let mut most = 0u32;
    for sub in subs {
        let units = units_in(cell, sub);
        if units > most {
            best = Some(*sub);
            most = units;
        }
    }
    best
}

/// The number of free capacity units, if no two sub-channels share any: 864 less the sizes of all.
pub(crate) fn free_units(subs: &[Sub]) -> u16 {
    let mut free = CAPACITY_UNITS;
    for sub in subs {
        free = free.saturating_sub(units_of(sub));
    }
    free
}
