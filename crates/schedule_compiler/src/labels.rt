//! The labels of a schedule's code.

use crate::emission::Point;
use crate::fault::{BuildFault, ScheduleLimit};
use crate::terms::short;
use plan_code::limits::MOST_LABELS;
use plan_code::{Counters, Label, Line, Swap};
use plan_verifier::properties::target_of;
use std::alloc::{AllocError, Global};

/// For each instruction whether it has a label: the first one, and the target of each jump.
fn targets(alloc: Global, code: &[Line]) -> Result<Vec<bool>, AllocError> {
    let mut targets = Vec::new(alloc);
    for _line in code {
        targets.push(false)?;
    }
    if let Some(first) = targets.first_mut() {
        *first = true;
    }
    for line in code {
        if let Some(target) = target_of(line.instr) {
            if let Some(place) = targets.get_mut(usize::from(target)) {
                *place = true;
            }
        }
    }
    Ok(targets)
}

/// The index of a state in the table of configurations, which has these states.
pub(crate) fn rank_of(order: &[u16], state: u16) -> u16 {
    for (rank, other) in order.iter().enumerate() {
        if *other == state {
            return short(rank);
        }
    }
    0
}

/// What is needed at a pc; 255 where it is more.
fn cost_at(needs: &[u16], pc: usize) -> u8 {
    match u8::try_from(needs.get(pc).copied().unwrap_or(0)) {
        Ok(cost) => cost,
        Err(_) => u8::MAX,
    }
}

/// The labels of a code, in ascending order; each costs what is needed from there.
///
/// # Errors
///
/// `Limit` where there are more than 1,024; `Memory`.
pub(crate) fn labels(
    alloc: Global,
    code: &[Line],
    points: &[Point],
    order: &[u16],
    needs: &[u16],
) -> Result<Vec<Label>, BuildFault> {
    let targets = targets(alloc, code)?;
    let mut labels = Vec::new(alloc);
    for (pc, point) in points.iter().enumerate() {
        if targets.get(pc) != Some(&true) {
            continue;
        }
        if labels.len() >= usize::from(MOST_LABELS) {
            return Err(BuildFault::Limit(ScheduleLimit::Labels));
        }
        let label = Label {
            pc: short(pc),
            cur: rank_of(order, point.current),
            next: rank_of(order, point.next),
            pending: Swap::Idle,
            counters: Counters(0),
            cost: cost_at(needs, pc),
        };
        if labels.push(label).is_err() {
            return Err(BuildFault::Memory);
        }
    }
    Ok(labels)
}
