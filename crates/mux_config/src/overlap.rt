//! Sub-channels that share capacity units.

ghost use Rattle.std.specs.Prelude.{◌≡◌, ◌≤◌};
ghost use Rattle.std.specs.List.{list_any, AllByRecursion};
ghost use Rattle.mux_eep.specs.declared.limits.TheConstants.{CAPACITY_UNITS};
ghost use Rattle.mux_types.specs.Configuration.{IsPlaced, size_of_sub};
ghost use Rattle.mux_config.specs.Sound.{overlaps, is_crowded};

use mux_eep::size_of;
use mux_types::Sub;

/// Whether two of these sub-channels share a capacity unit.
pub(crate) fn is_crowded(subs: &[Sub]) -> bool
    requires { AllByRecursion IsPlaced subs.now }
    ensures { result ≡ is_crowded subs.now }
{
    for place in 0..subs.len() {
        if overlaps_any(&subs[place], &subs[place + 1..]) {
            return true;
        }
    }
    false
}

/// Whether a sub-channel shares a capacity unit with one of the others.
fn overlaps_any(sub: &Sub, others: &[Sub]) -> bool
    requires placed { IsPlaced sub.now }
    requires others { AllByRecursion IsPlaced others.now }
    ensures { result ≡ list_any (overlaps sub.now) others.now }
{
    for other in others {
        if overlaps(sub, other) {
            return true;
        }
    }
    false
}

/// Whether two sub-channels share a capacity unit.
pub(crate) fn overlaps(a: &Sub, b: &Sub) -> bool
    requires first { IsPlaced a.now }
    requires second { IsPlaced b.now }
    ensures { result ≡ overlaps a.now b.now }
{
    let end = u32::from(a.start) + units(a);
    let other_end = u32::from(b.start) + units(b);
    u32::from(a.start) < other_end && u32::from(b.start) < end
}

/// The size of a sub-channel in capacity units.
pub(crate) fn units(sub: &Sub) -> u32
    requires { IsPlaced sub.now }
    ensures value { result ≡ size_of_sub sub.now }
    ensures bound { result ≤ CAPACITY_UNITS }
{
    match size_of(sub.protection, sub.kbits) {
        Ok(size) => u32::from(size),
        Err(_) => 0,
    }
}
