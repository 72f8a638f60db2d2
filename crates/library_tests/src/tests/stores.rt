//! The rows that every `Store` has to pass, over `Config` and `Tables`.
//!
//! Each run takes the type of the store, and fails at the first unexpected result; `every_run` is
//! all of them. `parts` makes sub-channels, services, packet components and edits from their
//! numbers. The contract of `mux_config::Store` says what a store is; begin with `edits::full`. A
//! new store gets a test here.

mod edits;
mod items;
mod parts;
mod soundness;

use mux_config::{Config, Store};
use mux_tables::Tables;
use std::test::Fail;

/// All runs, one after the other: the faults of edits in their order, edits and their twins,
/// members in ascending order, copies, soundness, and what a reconfiguration changes.
fn every_run<S: Store>() -> Result<(), Fail> {
    edits::faults_of_full_sets::<S>()?;
    edits::faults_of_sub_channels::<S>()?;
    edits::twins::<S>()?;
    items::members::<S>()?;
    items::services::<S>()?;
    items::copies::<S>()?;
    soundness::shared_capacity_units::<S>()?;
    soundness::first_faults::<S>()?;
    soundness::dropped_sub_channels::<S>()?;
    soundness::changes::<S>()
}

#[test]
fn configurations_in_tables_are_a_store() -> Result<(), Fail> {
    every_run::<Config>()
}

#[test]
fn counted_configurations_are_a_store() -> Result<(), Fail> {
    every_run::<Tables>()
}
