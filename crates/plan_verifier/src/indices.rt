//! Flows whose configurations are in a table, and which configuration of a flow is which one of a
//! table.

ghost use Rattle.std.specs.Prelude.{◌≡◌, List, length};
ghost use Rattle.mux_config.specs.Configuration.{Configuration};
ghost use Rattle.plan_verifier.specs.Indexed.{flow_at, AreAt, IsWithin, indices_of};
ghost use Rattle.plan_verifier.specs.Indexed.{swapped_indices, has_swapped, moved_indices};
ghost use Rattle.plan_verifier.specs.Indexed.{indices_after, fit_indices};

use crate::flow::is_idle;
use plan_code::{Instr, Swap};

/// A flow with its configurations by their indices in a table.
#[derive(Clone, Copy)]
pub struct IndexedFlow {
    /// The index of the current configuration.
    pub current: usize,
    /// The index of the next configuration.
    pub next: usize,
    /// Whether a swap is pending, and when it falls.
    pub pending: Swap,
}

/// The indices of the two configurations of a flow in a table, where these are known. An edit
/// changes the next configuration, whose index is then unknown.
#[derive(Clone, Copy)]
pub struct Indices {
    /// The index of the current configuration.
    pub current: Option<usize>,
    /// The index of the next configuration.
    pub next: Option<usize>,
}

impl IndexedFlow {
    /// The indices of both configurations: in every table that has these, those of the flow there.
    pub fn indices(&self) -> Indices
        ensures value { result ≡ indices_of self.now }
        ensures at { (table : List Configuration) → IsWithin (length table) self.now
            → AreAt table result (flow_at table self.now) }
    {
        Indices {
            current: Some(self.current),
            next: Some(self.next),
        }
    }
}

/// The indices after the swap.
fn swapped_indices(indices: Indices) -> Indices
    ensures { result ≡ swapped_indices indices }
{
    Indices {
        current: indices.next,
        next: indices.next,
    }
}

/// Whether a swap that was or may have been pending has been made.
fn has_swapped(before: Swap, after: Swap) -> bool
    ensures { result ≡ has_swapped before after }
{
    !is_idle(before) && is_idle(after)
}

/// The indices after an instruction during which a pending swap may be made.
fn moved_indices(before: Swap, after: Swap, indices: Indices) -> Indices
    ensures { result ≡ moved_indices before after indices }
{
    if has_swapped(before, after) {
        return swapped_indices(indices);
    }
    indices
}

/// The indices after an instruction that changes the swap from `before` to `after`.
pub(crate) fn indices_after(instr: Instr, before: Swap, after: Swap, indices: Indices) -> Indices
    ensures { result ≡ indices_after instr before after indices }
{
    match instr {
        Instr::Edit(_) => Indices {
            current: indices.current,
            next: None,
        },
        Instr::Join => swapped_indices(indices),
        Instr::Wait(_) => moved_indices(before, after, indices),
        Instr::Until(_) => moved_indices(before, after, indices),
        Instr::WaitContact { .. } => moved_indices(before, after, indices),
        Instr::WaitAny { .. } => moved_indices(before, after, indices),
        Instr::Settle => moved_indices(before, after, indices),
        Instr::CommitIn(_) => indices,
        Instr::CommitAt(_) => indices,
        Instr::Test { .. } => indices,
        Instr::TestTime { .. } => indices,
        Instr::Jump(_) => indices,
        Instr::Loop { .. } => indices,
        Instr::Set { .. } => indices,
        Instr::End => indices,
    }
}

/// The indices of a flow with this swap that fits another: those of the other, except for the
/// current one if the swap may have been made.
pub(crate) fn fit_indices(pending: Swap, other: &IndexedFlow) -> Indices
    ensures { result ≡ fit_indices pending other.now }
{
    if has_swapped(other.pending, pending) {
        return swapped_indices(other.indices());
    }
    other.indices()
}
