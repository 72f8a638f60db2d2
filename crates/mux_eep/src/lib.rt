//! Sizes of equal error protection: how many capacity units of the multiplex a sub-channel takes at
//! a protection profile and a bit rate (EN 300 401 clauses 6.2.1 and 11.3).
//!
//! `Protection` is a profile such as 3-A. `size_of` gives the size at a rate and `rate_of` the one
//! rate with a size; both are proved equal to the standard's table, which `specs/Sizes.antt` states
//! independently of them.
#![tactic(auto)]

pub mod fault;
pub mod laws;
pub mod limits;
pub mod sizes;

pub use fault::EepFault;
pub use limits::CAPACITY_UNITS;
pub use sizes::{EepSet, Protection, rate_of, size_of};

#[cfg(test)]
mod tests;
