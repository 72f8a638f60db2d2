//! Protection profiles, and the size of a sub-channel at each bit rate.

ghost use Rattle.std.specs.Prelude.{◌≡◌, ℕ, ◌<◌, ◌≤◌, ◌↔◌, IsSome, IfSome, IfNone, IfOk, Ok, Err};
ghost use Rattle.mux_eep.specs.Sizes.{Profile, IsSize, size_or_fault, units_of_step, rate_step};
ghost use Rattle.mux_eep.specs.declared.sizes.EepSet.TheVariants.{A};

use crate::fault::EepFault;
use crate::limits::CAPACITY_UNITS;
use std::marker::Model;

/// The set of protection levels of a profile (EN 300 401 clause 6.2.1, option 000 and 001 of FIG
/// 0/1).
#[derive(Clone, Copy, Debug, PartialEq, Eq, PartialOrd, Ord)]
pub enum EepSet {
    /// Rates that are multiples of 8 kbit/s.
    A,
    /// Rates that are multiples of 32 kbit/s.
    B,
}

/// A profile of equal error protection, such as 3-A: a set, and a level from 1 (strongest) to 4
/// (EN 300 401 clause 11.3).
#[derive(Clone, Copy, Debug, PartialEq, Eq, PartialOrd, Ord)]
pub struct Protection {
    set: EepSet,
    level: u8,
}

impl Model for Protection {
    ghost use Rattle.std.specs.Prelude.{◌≤◌};
    ghost use Rattle.mux_eep.specs.Sizes.{Profile};

    ghost Value = { Profile };

    ghost view = { λ p. record { set = p.set; level = p.level } };

    ghost invariant = { λ p. (1 ≤ p.level) × (p.level ≤ 4) };

    ghost inverse = { λ p. record { set = p.set; level = p.level } };
}

impl Default for Protection {
    ghost is_default = { λ p. p ≡ record { set = A; level = 1 } };

    /// The profile 1-A.
    fn default() -> Self {
        Protection {
            set: EepSet::A,
            level: 1,
        }
    }
}

impl Protection {
    /// The profile with this set and level; None unless the level is 1 to 4.
    pub fn new(set: EepSet, level: u8) -> Option<Protection>
        ensures in_range { IsSome result ↔ ((1 ≤ level) × (level ≤ 4)) }
        ensures set { IfSome result (λ p. p.set ≡ set) }
        ensures level { IfSome result (λ p. p.level ≡ level) }
    {
        if level < 1 {
            return None;
        }
        if level > 4 {
            return None;
        }
        Some(Protection { set, level })
    }

    /// The set of levels, A or B.
    pub fn set(&self) -> EepSet
        ensures { result ≡ self.now.set }
    {
        self.set
    }

    /// The level, 1 to 4.
    pub fn level(&self) -> u8
        ensures value { result ≡ self.now.level }
        ensures from_one { 1 ≤ result }
        ensures to_four { result ≤ 4 }
    {
        self.level
    }

    /// The capacity units for each step of the rate, 4 to 27.
    fn units_of_step(self) -> u16
        ensures { result ≡ units_of_step self.set self.level }
    {
        match self.set {
            EepSet::A => match self.level {
                1 => 12,
                2 => 8,
                3 => 6,
                _ => 4,
            },
            EepSet::B => match self.level {
                1 => 27,
                2 => 21,
                3 => 18,
                _ => 15,
            },
        }
    }
}

impl EepSet {
    /// The rates of the set are the multiples of this, in kbit/s.
    fn rate_step(self) -> u16
        ensures { result ≡ rate_step self }
    {
        match self {
            EepSet::A => 8,
            EepSet::B => 32,
        }
    }
}

/// The size, in capacity units, of a sub-channel of profile `p` that carries `kbits` kbit/s: 1 to
/// 864 (EN 300 401 clause 6.2.1).
///
/// The faults are tested in this order: `ZeroRate` (0 kbit/s), `NotMultiple` (not a multiple of 8
/// kbit/s in set A, or of 32 in set B), `PastMultiplex` (more than 864 capacity units).
pub fn size_of(p: Protection, kbits: u16) -> Result<u16, EepFault>
    ensures first_fault { result ≡ size_or_fault p kbits }
    ensures is_size { IfOk result (λ size. IsSize p kbits size) }
    ensures only_size { (size : ℕ) → IsSize p kbits size → result ≡ Ok size }
{
    let step = p.set.rate_step();
    if kbits == 0 {
        return Err(EepFault::ZeroRate);
    }
    if kbits % step > 0 {
        return Err(EepFault::NotMultiple);
    }
    let size = u32::from(p.units_of_step()) * u32::from(kbits / step);
    if size > u32::from(CAPACITY_UNITS) {
        return Err(EepFault::PastMultiplex);
    }
    Ok(size as u16)
}

/// The one rate, in kbit/s, at which a sub-channel of profile `p` takes `cu` capacity units; None
/// if no rate does (EN 300 401 clause 6.2.1).
pub fn rate_of(p: Protection, cu: u16) -> Option<u16>
    ensures is_rate { IfSome result (λ kbits. IsSize p kbits cu) }
    ensures only_rate { IfSome result (λ kbits. (other : ℕ) → IsSize p other cu → other ≡ kbits) }
    ensures none { IfNone result ((kbits : ℕ) → IsSize p kbits cu → ⊥) }
{
    let units = p.units_of_step();
    if cu == 0 {
        return None;
    }
    if cu > CAPACITY_UNITS {
        return None;
    }
    if cu % units > 0 {
        return None;
    }
    Some(cu / units * p.set.rate_step())
}
