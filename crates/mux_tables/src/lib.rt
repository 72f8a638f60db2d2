//! A store for configurations that finds shared capacity units without comparing sub-channels:
//! [`Tables`].
//!
//! Sub-channels are stored by SubChId in a table of 64; a map counts, for each of the 864 capacity
//! units of the multiplex (EN 300 401 clause 5.1), the sub-channels whose span covers it. `Tables`
//! has the contracts that [`mux_config::Store`] gives every store. Begin with `tables.rt`; the
//! invariant of the map is `Counts` in `specs/Units.antt`.
#![tactic(auto)]

mod span;
mod store;
mod sub_table;
mod tables;
mod unit_map;

pub use tables::Tables;
