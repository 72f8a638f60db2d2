//! Decisions: which state is due, by the time of day and the contacts.

use crate::day::earlier;
use crate::fault::{BuildFault, ScheduleLimit};
use crate::search::Cell;
use crate::states::States;
use crate::terms::{Decision, Known, Term, UNKNOWN, decide, short};
use plan_code::{ContactId, DayFrame};
use std::alloc::Global;

/// The most decisions: each takes an instruction of the code.
const MOST_NODES: usize = 4096;

/// A decision, or the state that is due. The decisions that follow are named by their indices,
/// which are less than its own.
#[derive(Clone, Copy, Debug, PartialEq, Eq)]
pub(crate) enum Node {
    /// The state with this index is due.
    State(u16),
    /// What is due where a contact is closed, and where it is open.
    Contact {
        contact: ContactId,
        closed: u16,
        open: u16,
    },
    /// What is due in a window of the day, and outside it. Its ends are a notice before those of
    /// the schedule's windows.
    Window {
        from: DayFrame,
        to: DayFrame,
        inside: u16,
        outside: u16,
    },
}

/// A stretch of the day with one decision, until the next one begins.
#[derive(Clone, Copy, Debug, PartialEq, Eq)]
struct Run {
    from: DayFrame,
    node: u16,
}

/// The decisions of a schedule, each once.
#[derive(Drop)]
pub(crate) struct Decisions {
    pub(crate) nodes: Vec<Node>,
    /// The index of the first decision.
    pub(crate) root: u16,
}

impl Decisions {
    /// The decisions of these cells.
    ///
    /// # Errors
    ///
    /// `Limit` where the code would have too many instructions; `Memory`.
    pub(crate) fn new(
        alloc: Global,
        cells: &[Cell],
        states: &States<'_>,
        notice: u8,
    ) -> Result<Decisions, BuildFault> {
        let mut decisions = Decisions {
            nodes: Vec::new(alloc),
            root: 0,
        };
        let runs = decisions.runs(alloc, cells, states, notice)?;
        decisions.root = decisions.over(runs.as_slice(), 0, runs.len(), 16)?;
        Ok(decisions)
    }

    /// The decision with this index.
    pub(crate) fn get(&self, index: u16) -> Option<Node> {
        self.nodes.get(usize::from(index)).copied()
    }

    /// The index of a decision, which is added if absent.
    fn add(&mut self, node: Node) -> Result<u16, BuildFault> {
        for (index, other) in self.nodes.iter().enumerate() {
            if *other == node {
                return Ok(short(index));
            }
        }
        let index = self.nodes.len();
        if index >= MOST_NODES {
            return Err(BuildFault::Limit(ScheduleLimit::Instructions));
        }
        match self.nodes.push(node) {
            Ok(()) => Ok(short(index)),
            Err(_full) => Err(BuildFault::Memory),
        }
    }

    /// The decision over the contacts while these are the terms and this is known; at most `left`
    /// contacts are still asked for.
    fn contacts(
        &mut self,
        terms: &[Term],
        states: &States<'_>,
        known: Known,
        left: u8,
    ) -> Result<u16, BuildFault> {
        let contact = match decide(terms, known) {
            Decision::Combination(set) => {
                let Some(state) = states.of(set) else {
                    return Err(BuildFault::Uncertified);
                };
                return self.add(Node::State(state));
            }
            Decision::Ask(contact) => contact,
        };
        if left == 0 {
            return Err(BuildFault::Uncertified);
        }
        let closed = self.contacts(terms, states, known.with(contact, true), left - 1)?;
        let open = self.contacts(terms, states, known.with(contact, false), left - 1)?;
        if closed == open {
            return Ok(closed);
        }
        self.add(Node::Contact {
            contact,
            closed,
            open,
        })
    }

    /// The stretches of the day with one decision each, in its order; neighbours have different
    /// ones, also over midnight.
    fn runs(
        &mut self,
        alloc: Global,
        cells: &[Cell],
        states: &States<'_>,
        notice: u8,
    ) -> Result<Vec<Run>, BuildFault> {
        let mut runs: Vec<Run> = Vec::new(alloc);
        for cell in cells {
            let node = self.contacts(cell.terms.as_slice(), states, UNKNOWN, 16)?;
            let from = earlier(cell.from, notice);
            if let Some(last) = runs.last() {
                if last.node == node {
                    continue;
                }
            }
            if runs.push(Run { from, node }).is_err() {
                return Err(BuildFault::Memory);
            }
        }
        if runs.len() > 1 {
            if runs[0].node == runs[runs.len() - 1].node {
                runs.remove(0);
            }
        }
        Ok(runs)
    }

    /// The decision over the runs from one index to another, which halves them.
    fn over(&mut self, runs: &[Run], low: usize, high: usize, left: u8) -> Result<u16, BuildFault> {
        let Some(first) = runs.get(low) else {
            return Err(BuildFault::Uncertified);
        };
        if high <= low + 1 {
            return Ok(first.node);
        }
        let middle = low + (high - low) / 2;
        let Some(second) = runs.get(middle) else {
            return Err(BuildFault::Uncertified);
        };
        if left == 0 {
            return Err(BuildFault::Uncertified);
        }
        let inside = self.over(runs, low, middle, left - 1)?;
        let outside = self.over(runs, middle, high, left - 1)?;
        if inside == outside {
            return Ok(inside);
        }
        self.add(Node::Window {
            from: first.from,
            to: second.from,
            inside,
            outside,
        })
    }
}
