//! Ranges of capacity units.

ghost use Rattle.std.specs.Prelude.{◌≡◌, ◌+◌, ◌≤◌};
ghost use Rattle.mux_config.specs.Configuration.{IsPlaced};
ghost use Rattle.mux_eep.specs.declared.limits.TheConstants.{CAPACITY_UNITS};
ghost use Rattle.mux_tables.specs.Units.{span_of};

use mux_config::Sub;
use mux_eep::size_of;

/// A range of capacity units.
#[derive(Clone, Copy)]
pub(crate) struct Span {
    /// The first unit, numbered from 0.
    pub(crate) start: u16,
    /// The number of units.
    pub(crate) size: u16,
}

/// The capacity units of a sub-channel.
pub(crate) fn span_of(sub: &Sub) -> Span
    requires { IsPlaced sub.now }
    ensures value { result ≡ span_of sub.now }
    ensures ends { result.start + result.size ≤ CAPACITY_UNITS }
{
    match size_of(sub.protection, sub.kbits) {
        Ok(size) => Span {
            start: sub.start,
            size,
        },
        Err(_) => Span { start: 0, size: 0 },
    }
}
