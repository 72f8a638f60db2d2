//! Room in a multiplex: sizes, rates and starts of sub-channels, and numbers that are free.

ghost use Rattle.std.specs.Prelude.{◌≤◌};

use crate::fact::{end_of, overlap_of};
use mux_config::{Config, Edit, Store, Sub, SubId};
use mux_eep::{CAPACITY_UNITS, EepSet, Protection, size_of};
use std::iter;

/// The sub-channel that an edit would make.
pub(crate) fn edited_sub(config: &Config, edit: &Edit) -> Option<Sub> {
    match edit {
        Edit::AddSub(sub) => Some(sub.get()),
        Edit::MoveSub { id, start } => Some(Sub {
            start: start.get(),
            ..config.sub(*id)?
        }),
        Edit::RateSub { id, kbits } => Some(Sub {
            kbits: *kbits,
            ..config.sub(*id)?
        }),
        _ => None,
    }
}

/// Whether a sub-channel would fit at this capacity unit if it were not in the multiplex.
pub(crate) fn has_room(config: &Config, sub: &Sub, start: u32) -> bool {
    let Ok(start) = u16::try_from(start) else {
        return false;
    };
    let moved = Sub { start, ..*sub };
    let mut subs = config.subs().iter();
    end_of(&moved) <= u32::from(CAPACITY_UNITS)
        && subs.all(|other| overlap_of(&moved, other).is_none())
}

/// A capacity unit at which a sub-channel would fit: the first one, or one after another
/// sub-channel.
pub(crate) fn room_for(config: &Config, sub: &Sub) -> Option<u16> {
    let ends = config.subs().iter().map(|other| end_of(other));
    let start = iter::once(0)
        .chain(ends)
        .find(|start| has_room(config, sub, *start))?;
    u16::try_from(start).ok()
}

/// The rates of a set are multiples of this.
pub(crate) fn rate_step(protection: Protection) -> u16
    ensures { 8 ≤ result }
{
    match protection.set() {
        EepSet::A => 8,
        EepSet::B => 32,
    }
}

/// The capacity units for each step of the rate.
pub(crate) fn step_units(protection: Protection) -> u32
    ensures { 4 ≤ result }
{
    match size_of(protection, rate_step(protection)) {
        Ok(size) => u32::from(size).max(4),
        Err(_fault) => 4,
    }
}

/// The highest rate of a profile.
pub(crate) fn most_rate(protection: Protection) -> u16 {
    let steps = (u32::from(CAPACITY_UNITS) / step_units(protection)) as u16;
    steps.saturating_mul(rate_step(protection))
}

/// The rates below and above one that is no multiple of the step of its set, the nearer one first.
pub(crate) fn near_rates(sub: &Sub) -> [u16; 2] {
    let step = rate_step(sub.protection);
    let over = sub.kbits % step;
    let low = sub.kbits.saturating_sub(over);
    let high = low.saturating_add(step);
    if over > step / 2 {
        [high, low]
    } else {
        [low, high]
    }
}

/// The least packet address that no packet component of a sub-channel has.
pub(crate) fn free_address(config: &Config, sub: SubId) -> u16 {
    let mut address = 1u16;
    for _more in config.packets() {
        for packet in config.packets() {
            if packet.sub == sub && packet.address == address {
                address = address.saturating_add(1);
            }
        }
    }
    address
}
