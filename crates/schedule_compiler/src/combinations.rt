//! The combinations of overlays that can hold at some moment.

use crate::fault::{BuildFault, ScheduleLimit};
use plan_code::{Contacts, DayFrame};
use schedule_verifier::Moment;
use std::alloc::Global;

/// The most combinations.
const MOST_COMBINATIONS: usize = 4096;

/// Sets of overlays, the first overlay the lowest bit, in ascending order, each once, and for each
/// a moment at which it holds; at most 4,096.
#[derive(Drop)]
pub(crate) struct Combinations {
    sets: Vec<u64>,
    moments: Vec<Moment>,
}

impl Combinations {
    ghost use Rattle.std.specs.Prelude.{◌≡◌};

    /// The items alone: no overlay holds, perhaps at no moment.
    pub(crate) fn new(alloc: Global) -> Result<Combinations, BuildFault> {
        let mut sets = Vec::new(alloc);
        let mut moments = Vec::new(alloc);
        let moment = Moment {
            contacts: Contacts(0),
            day: midnight(),
        };
        if sets.push(0).is_err() || moments.push(moment).is_err() {
            return Err(BuildFault::Memory);
        }
        Ok(Combinations { sets, moments })
    }

    /// The sets in ascending order.
    pub(crate) fn as_slice(&self) -> &[u64]
        ensures { result.now ≡ self.now.sets.items }
    {
        self.sets.as_slice()
    }

    /// The moment of each set.
    pub(crate) fn moments(&self) -> &[Moment] {
        self.moments.as_slice()
    }

    /// The index of a set; None if it is not among them.
    pub(crate) fn index_of(&self, set: u64) -> Option<usize> {
        match self.sets.binary_search(&set) {
            Ok(index) => Some(index),
            Err(_place) => None,
        }
    }

    /// Adds a set, which holds at this moment.
    ///
    /// # Errors
    ///
    /// `Limit` where it is new and there are 4,096 already, `Memory`.
    pub(crate) fn add(&mut self, set: u64, moment: Moment) -> Result<(), BuildFault> {
        let place = self.sets.partition_point(|other| *other < set);
        if self.sets.get(place) == Some(&set) {
            return Ok(());
        }
        if self.sets.len() >= MOST_COMBINATIONS {
            return Err(BuildFault::Limit(ScheduleLimit::Combinations));
        }
        let beside = place.min(self.moments.len());
        if self.moments.insert(beside, moment).is_err() {
            return Err(BuildFault::Memory);
        }
        match self.sets.insert(place, set) {
            Ok(()) => Ok(()),
            Err(_full) => Err(BuildFault::Memory),
        }
    }
}

/// The first frame of the day.
fn midnight() -> DayFrame {
    match DayFrame::new(0) {
        Some(frame) => frame,
        None => unreachable!(),
    }
}
