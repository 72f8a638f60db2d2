//! Unpriced labels and program points in the form in which the compiler stores them: with indices
//! of configurations.

use plan_code::Swap;
use plan_verifier::IndexedFlow;

/// An unpriced label and what is known there, with the configurations by their indices in a table.
#[derive(Clone, Copy)]
pub(crate) struct IndexedLabel {
    /// The pc of the instruction, from 0.
    pub(crate) pc: u16,
    /// The index of the current configuration in the table.
    pub(crate) cur: u16,
    /// The index of the next configuration in the table.
    pub(crate) next: u16,
    /// Whether a swap is pending, and when it falls.
    pub(crate) pending: Swap,
    /// The number of enclosing repeats.
    pub(crate) repeats: u8,
}

/// A program point, with the configurations by their numbers in a pool.
#[derive(Clone, Copy)]
pub(crate) struct IndexedPoint {
    /// What is known of the configurations and of the swap.
    pub(crate) flow: IndexedFlow,
    /// Whether the instruction has a label.
    pub(crate) labelled: bool,
}
