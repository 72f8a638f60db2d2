//! A flow of which it is known where its configurations are in a table.

ghost use Rattle.std.specs.Prelude.{◌≡◌, ◌↔◌, ◌<◌, ◌&&◌, ℕ, List, length, None, true, false};
ghost use Rattle.std.specs.Prelude.{if◌then◌else◌, IsTrue, IsOk, OnOk, IfErr};
ghost use Rattle.mux_config.specs.Configuration.{Configuration};
ghost use Rattle.plan_code.specs.declared.flags.Counters.{Counters};
ghost use Rattle.plan_verifier.specs.Rules.{IsFine};
ghost use Rattle.plan_verifier.specs.Causes.{FlowRefused};
ghost use Rattle.plan_verifier.specs.Flows.{held, known_at, known_with, after_instr, merged};
ghost use Rattle.plan_verifier.specs.Flows.{FitsFlow, HasItsCounter};
ghost use Rattle.plan_verifier.specs.Tests.{unless, flow_cause, fits_swap, is_idle, is_same};
ghost use Rattle.plan_verifier.specs.Indexed.{configuration_at, flow_at, IsAt, IsTracked, IsWithin};
ghost use Rattle.plan_verifier.specs.Indexed.{indices_of, indices_after, fit_indices};

use crate::cause::Cause;
use crate::fitting::{Condition, needed, widest};
use crate::flow::{Flow, is_idle, is_same};
use crate::indices::{IndexedFlow, Indices, fit_indices, indices_after};
use mux_config::{Config, Store};
use plan_code::{Instr, Plan, Swap};

/// A flow, and where its configurations are in a table. What is known to be there is neither
/// compared nor copied.
#[derive(Drop)]
pub struct TrackedFlow<S: Store> {
    /// What is known of the configurations and the swap.
    pub flow: Flow<S>,
    /// The indices of its configurations, where these are known.
    pub indices: Indices,
}

/// Whether the known index is this one.
fn is_index(known: Option<usize>, index: usize) -> bool
    ensures { IsTrue result ↔ (known ≡ Some index) }
{
    known == Some(index)
}

/// Whether a store holds the configuration at an index, given its own index if known.
fn is_at<S: Store>(table: &[Config], store: &S, known: Option<usize>, index: usize) -> bool
    requires within { index < length table.now }
    requires known { IsAt table.now known (S.content store.now) }
    ensures { result ≡ is_same (S.content store.now) (configuration_at table.now index) }
{
    is_index(known, index) || is_same(store, &table[index])
}

/// Copies the configuration at an index into a store, given the store's own index if known.
fn put<S: Store>(table: &[Config], index: usize, known: Option<usize>, store: &mut S)
    requires within { index < length table.now }
    requires known { IsAt table.now known (S.content store.old) }
    ensures { S.content store.new ≡ configuration_at table.now index }
{
    if !is_index(known, index) {
        store.copy_from_config(&table[index]);
    }
}

impl<S: Store> TrackedFlow<S> {
    /// A flow of which no index is known.
    pub fn new(flow: Flow<S>) -> TrackedFlow<S>
        ensures flow { result.flow ≡ flow }
        ensures indices { result.indices ≡ record { current = None; next = None } }
        ensures tracked { (table : List Configuration) → IsTracked S.content table result }
    {
        TrackedFlow {
            flow,
            indices: Indices {
                current: None,
                next: None,
            },
        }
    }

    /// Updates the flow to what holds at the next instruction, as [`Flow::apply`], and the indices
    /// with it.
    ///
    /// # Errors
    ///
    /// Those of [`Flow::apply`]; what is known is then unchanged.
    pub fn apply(&mut self, plan: &Plan, instr: Instr) -> Result<(), Cause>
        ensures fine { (counters : Counters) (allowance : ℕ) → HasItsCounter instr counters
            → (IsOk result ↔ IsFine plan.now instr (known_with (held S.content self.old.flow)
            counters allowance)) }
        ensures left { OnOk result (held S.content self.new.flow ≡ after_instr plan.now instr
            (held S.content self.old.flow)) }
        ensures refused { IfErr result (λ cause. FlowRefused plan.now instr (known_at
            (held S.content self.old.flow)) cause) }
        ensures kept { IfErr result (λ cause. held S.content self.new.flow
            ≡ held S.content self.old.flow) }
        ensures cause { result ≡ unless (flow_cause plan.now instr (known_at
            (held S.content self.old.flow))) }
        ensures indices { OnOk result (self.new.indices ≡ indices_after instr
            self.old.flow.pending self.new.flow.pending self.old.indices) }
        ensures tracked { (table : List Configuration) → IsTracked S.content table self.old
            → IsTracked S.content table self.new }
    {
        let before = self.flow.pending;
        let passed = instr;
        self.flow.apply(plan, instr)?;
        self.indices = indices_after(passed, before, self.flow.pending, self.indices);
        Ok(())
    }

    /// Whether the flow has the configurations at these indices.
    fn has(&self, table: &[Config], current: usize, next: usize) -> bool
        requires current { current < length table.now }
        requires next { next < length table.now }
        requires tracked { IsTracked S.content table.now self.now }
        ensures { result ≡ (is_same (S.content self.now.flow.current)
            (configuration_at table.now current) && is_same (S.content self.now.flow.next)
            (configuration_at table.now next)) }
    {
        is_at(table, &self.flow.current, self.indices.current, current)
            && is_at(table, &self.flow.next, self.indices.next, next)
    }

    /// Whether the next configuration is that at both of these indices.
    fn has_next_twice(&self, table: &[Config], current: usize, next: usize) -> bool
        requires current { current < length table.now }
        requires next { next < length table.now }
        requires tracked { IsTracked S.content table.now self.now }
        ensures { result ≡ (is_same (S.content self.now.flow.next)
            (configuration_at table.now current) && is_same (S.content self.now.flow.next)
            (configuration_at table.now next)) }
    {
        is_at(table, &self.flow.next, self.indices.next, current)
            && is_at(table, &self.flow.next, self.indices.next, next)
    }

    /// Whether the flow implies what another says, the configurations of which are in this table.
    pub fn fits(&self, table: &[Config], other: &IndexedFlow) -> bool
        requires within { IsWithin (length table.now) other.now }
        requires tracked { IsTracked S.content table.now self.now }
        ensures fits { IsTrue result ↔ FitsFlow (held S.content self.now.flow)
            (flow_at table.now other.now) }
        ensures value { result ≡ fits_swap self.now.flow.pending other.now.pending (known_at
            (held S.content self.now.flow)) (known_at (flow_at table.now other.now)) }
    {
        match needed(self.flow.pending, other.pending) {
            Condition::Never => false,
            Condition::Both => self.has(table, other.current, other.next),
            Condition::NextTwice => self.has(table, other.next, other.next),
        }
    }

    /// Whether another flow, with its configurations in this table, implies what this one says but
    /// for the swap, which is the given one.
    fn is_fit_by(&self, table: &[Config], other: &IndexedFlow, pending: Swap) -> bool
        requires within { IsWithin (length table.now) other.now }
        requires tracked { IsTracked S.content table.now self.now }
        ensures { IsTrue result ↔ FitsFlow (flow_at table.now other.now) (record
            (held S.content self.now.flow) { pending = pending }) }
    {
        match needed(other.pending, pending) {
            Condition::Never => false,
            Condition::Both => self.has(table, other.current, other.next),
            Condition::NextTwice => self.has_next_twice(table, other.current, other.next),
        }
    }

    /// Notes where the configurations are of a flow that fits another, with its configurations in a
    /// table: where those of the other are, except for the current one if the swap may have been
    /// made.
    pub fn note_fit(&mut self, other: &IndexedFlow)
        ensures flow { self.new.flow ≡ self.old.flow }
        ensures indices { self.new.indices ≡ fit_indices self.old.flow.pending other.now }
        ensures tracked { (table : List Configuration) → IsWithin (length table) other.now
            → FitsFlow (held S.content self.old.flow) (flow_at table other.now)
            → IsTracked S.content table self.new }
    {
        self.indices = fit_indices(self.flow.pending, other);
    }

    /// Becomes another flow, with its configurations in this table. Copies what is not known to be
    /// in place already.
    pub fn take(&mut self, table: &[Config], other: &IndexedFlow)
        requires within { IsWithin (length table.now) other.now }
        requires tracked { IsTracked S.content table.now self.old }
        ensures value { held S.content self.new.flow ≡ flow_at table.now other.now }
        ensures indices { self.new.indices ≡ indices_of other.now }
        ensures tracked { IsTracked S.content table.now self.new }
    {
        put(
            table,
            other.current,
            self.indices.current,
            &mut self.flow.current,
        );
        put(table, other.next, self.indices.next, &mut self.flow.next);
        self.flow.pending = other.pending;
        self.indices = other.indices();
    }

    /// Whether this path and another can merge: each fits the merged flow. The one whose
    /// configurations that flow has fits it anyway.
    fn agrees(&self, table: &[Config], other: &IndexedFlow) -> bool
        requires within { IsWithin (length table.now) other.now }
        requires tracked { IsTracked S.content table.now self.now }
        ensures { IsTrue result ↔ (FitsFlow (held S.content self.now.flow) (merged
            (held S.content self.now.flow) (flow_at table.now other.now)) × FitsFlow
            (flow_at table.now other.now) (merged (held S.content self.now.flow)
            (flow_at table.now other.now))) }
    {
        let pending = widest(self.flow.pending, other.pending);
        if is_idle(self.flow.pending) {
            return self.fits(table, &IndexedFlow { pending, ..*other });
        }
        self.is_fit_by(table, other, pending)
    }

    /// Merges this path with another, with its configurations in this table. False where one of
    /// them does not fit the merged flow; this one is then unchanged.
    pub fn meet(&mut self, table: &[Config], other: &IndexedFlow) -> bool
        requires within { IsWithin (length table.now) other.now }
        requires tracked { IsTracked S.content table.now self.old }
        ensures met { result ≡ true → held S.content self.new.flow ≡ merged
            (held S.content self.old.flow) (flow_at table.now other.now) }
        ensures agree { IsTrue result ↔ (FitsFlow (held S.content self.old.flow) (merged
            (held S.content self.old.flow) (flow_at table.now other.now)) × FitsFlow
            (flow_at table.now other.now) (merged (held S.content self.old.flow)
            (flow_at table.now other.now))) }
        ensures kept { result ≡ false → self.new ≡ self.old }
        ensures indices { result ≡ true → self.new.indices ≡ (if is_idle self.old.flow.pending
            then indices_of other.now else self.old.indices) }
        ensures tracked { IsTracked S.content table.now self.new }
    {
        if !self.agrees(table, other) {
            return false;
        }
        let pending = widest(self.flow.pending, other.pending);
        if is_idle(self.flow.pending) {
            self.take(table, other);
        }
        self.flow.pending = pending;
        true
    }
}
