//! The search for the combinations that can hold at some moment.

use crate::combinations::Combinations;
use crate::day::{earlier, window_ends};
use crate::fault::{BuildFault, ScheduleLimit};
use crate::terms::{Decision, Known, Term, UNKNOWN, decide, terms_at};
use plan_code::DayFrame;
use schedule_front::Overlay;
use schedule_verifier::Moment;
use std::alloc::Global;

/// The most ways through the contacts that are looked at, in all cells of the day together. A code
/// of 4,096 instructions has far fewer.
const MOST_WAYS: u32 = 65_536;

/// A stretch of the day in which no window begins or ends, until the next one begins.
#[derive(Drop)]
pub(crate) struct Cell {
    /// The frame of the day with which it begins.
    pub(crate) from: DayFrame,
    /// What the contacts decide in it.
    pub(crate) terms: Vec<Term>,
}

/// The cells of the day, in its order.
fn cells(alloc: Global, overlays: &[Overlay]) -> Result<Vec<Cell>, BuildFault> {
    let ends = window_ends(alloc, overlays)?;
    let mut cells = Vec::new(alloc);
    for end in &ends {
        let from = *end;
        let terms = terms_at(alloc, overlays, from)?;
        if cells.push(Cell { from, terms }).is_err() {
            return Err(BuildFault::Memory);
        }
    }
    Ok(cells)
}

/// Adds the combinations that can hold in this frame of the day, where these are the terms, while
/// this is known; at most `left` contacts are still asked for, and `ways` is how many more ways are
/// looked at.
fn add_ways(
    terms: &[Term],
    day: DayFrame,
    known: Known,
    left: u8,
    ways: &mut u32,
    found: &mut Combinations,
) -> Result<(), BuildFault> {
    let contact = match decide(terms, known) {
        Decision::Combination(overlays) => {
            if *ways == 0 {
                return Err(BuildFault::Limit(ScheduleLimit::Combinations));
            }
            *ways -= 1;
            let contacts = known.closed;
            return found.add(overlays, Moment { contacts, day });
        }
        Decision::Ask(contact) => contact,
    };
    if left == 0 {
        return Err(BuildFault::Uncertified);
    }
    if let Err(fault) = add_ways(terms, day, known.with(contact, true), left - 1, ways, found) {
        return Err(fault);
    }
    add_ways(
        terms,
        day,
        known.with(contact, false),
        left - 1,
        ways,
        found,
    )
}

/// The combinations that can hold at some moment, and the items alone. What is on air is announced
/// so many frames before.
///
/// # Errors
///
/// `Limit` where there are more than 4,096, or too many ways to them; `Memory`.
fn combinations(alloc: Global, cells: &[Cell], notice: u8) -> Result<Combinations, BuildFault> {
    let mut found = Combinations::new(alloc)?;
    let mut ways = MOST_WAYS;
    let mut before: &[Term] = &[];
    for cell in cells {
        if cell.terms.as_slice() != before {
            if let Err(fault) = add_ways(
                cell.terms.as_slice(),
                earlier(cell.from, notice),
                UNKNOWN,
                16,
                &mut ways,
                &mut found,
            ) {
                return Err(fault);
            }
            before = cell.terms.as_slice();
        }
    }
    Ok(found)
}

/// What the overlays come to: the cells of the day, and the combinations that can hold.
#[derive(Drop)]
pub(crate) struct Search {
    pub(crate) cells: Vec<Cell>,
    pub(crate) combinations: Combinations,
}

/// What the overlays of a schedule come to, with this notice.
///
/// # Errors
///
/// As `combinations`.
pub(crate) fn searched(
    alloc: Global,
    overlays: &[Overlay],
    notice: u8,
) -> Result<Search, BuildFault> {
    let cells = cells(alloc, overlays)?;
    let combinations = combinations(alloc, cells.as_slice(), notice)?;
    Ok(Search {
        cells,
        combinations,
    })
}
