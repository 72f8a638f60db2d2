//! Which states are due behind each decision, and how far states are apart.

use crate::decisions::Node;
use crate::fault::BuildFault;
use crate::states::State;
use crate::terms::{bit, short};
use script_config::edits_between;
use std::alloc::{AllocError, Global};

/// The set of states at an index; empty past the end.
pub(crate) fn at(sets: &[u64], index: u16) -> u64 {
    match sets.get(usize::from(index)) {
        Some(set) => *set,
        None => 0,
    }
}

/// The states that can be due behind a decision, given those of the decisions before it.
fn behind(node: Node, sets: &[u64]) -> u64 {
    match node {
        Node::State(state) => bit(state),
        Node::Contact { closed, open, .. } => at(sets, closed) | at(sets, open),
        Node::Window {
            inside,
            outside,
            ..
        } => at(sets, inside) | at(sets, outside),
    }
}

/// For each decision the set of the states that can be due behind it; the first state is the lowest
/// bit, and there are at most 64.
pub(crate) fn reach(alloc: Global, nodes: &[Node]) -> Result<Vec<u64>, AllocError> {
    let mut sets = Vec::new(alloc);
    for node in nodes {
        let set = behind(*node, sets.as_slice());
        sets.push(set)?;
    }
    Ok(sets)
}

/// How many edits lead from each state to each other one.
#[derive(Drop)]
pub(crate) struct Distances {
    counts: Vec<u32>,
    states: usize,
}

impl Distances {
    /// The distances of these states.
    pub(crate) fn new(alloc: Global, states: &[State]) -> Result<Distances, BuildFault> {
        let mut counts = Vec::new(alloc);
        for from in states {
            add_from(alloc, from, states, &mut counts)?;
        }
        Ok(Distances {
            counts,
            states: states.len(),
        })
    }

    /// The number of edits from one state to another.
    fn between(&self, from: u16, to: u16) -> u32 {
        let place = usize::from(from)
            .saturating_mul(self.states)
            .saturating_add(usize::from(to));
        match self.counts.get(place) {
            Some(count) => *count,
            None => 0,
        }
    }

    /// The number of edits from one state to each state of a set.
    fn to_all(&self, from: u16, set: u64) -> u32 {
        let mut sum = 0u32;
        for state in 0u16..64 {
            if set & bit(state) != 0 {
                sum = sum.saturating_add(self.between(from, state));
            }
        }
        sum
    }

    /// The state to edit towards first, on the way from one state to any of a set: the one by way
    /// of which all of them take the fewest edits, itself where no other one saves any.
    pub(crate) fn first_on_the_way(&self, from: u16, set: u64) -> u16 {
        let mut best = from;
        let mut least = self.to_all(from, set);
        for index in 0..self.states {
            let state = short(index);
            let edits = self
                .between(from, state)
                .saturating_add(self.to_all(state, set));
            if edits < least {
                least = edits;
                best = state;
            }
        }
        best
    }
}

/// Appends the number of edits from one state to each.
fn add_from(
    alloc: Global,
    from: &State,
    states: &[State],
    counts: &mut Vec<u32>,
) -> Result<(), BuildFault> {
    for to in states {
        let edits = edits_between(alloc, &from.config, &to.config)?;
        if counts.push(edits.len() as u32).is_err() {
            return Err(BuildFault::Memory);
        }
    }
    Ok(())
}
