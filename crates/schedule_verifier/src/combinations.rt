//! The combinations of overlays that can hold at some moment.

ghost use Rattle.std.specs.Prelude.{◌≡◌, ◌⊎◌, ◌+◌, ◌%◌, ◌<◌, ◌≤◌, ℕ, IsTrue, Some, length, map};
ghost use Rattle.std.specs.Prelude.{slice_get};
ghost use Rattle.plan_code.specs.declared.limits.TheConstants.{FRAMES_A_DAY};
ghost use Rattle.schedule_front.specs.Tree.{overlay_of};
ghost use Rattle.schedule_verifier.specs.Combinations.{AreCombinations, CanHold, IfHeld, held};
ghost use Rattle.schedule_verifier.specs.Combinations.{held_of, with_first};
ghost use Rattle.schedule_verifier.specs.Regions.{Covers, Throughout};

use crate::conditions::condition;
use crate::region::{Answer, Question, Region};
use crate::room::Room;
use crate::wanted::MOST_QUESTIONS;
use plan_code::{Contacts, DayFrame};
use schedule_front::{Overlay, Schedule};

/// A moment: the contacts that are closed, and a frame of the day.
#[derive(Clone, Copy, Debug, PartialEq, Eq)]
pub struct Moment {
    /// The contacts that are closed; all others are open.
    pub contacts: Contacts,
    /// The frame of the day.
    pub day: DayFrame,
}

/// What is known in a region of the overlays that hold.
#[derive(Clone, Copy, Debug, PartialEq, Eq)]
pub(crate) enum Held {
    /// These hold everywhere in it, and no others; the first overlay is the lowest bit.
    Set(u64),
    /// This is to be known first.
    Ask(Question),
}

/// The region of one moment.
fn region_of(moment: Moment) -> Region
    ensures { Covers result moment.contacts moment.day }
{
    Region {
        closed: moment.contacts,
        opened: Contacts(!moment.contacts.0),
        from: moment.day.get(),
        to: moment.day.get() + 1,
    }
}

/// A set with one more overlay before the others.
fn with_first(holds: bool, others: u64) -> u64
    requires room { others < 9223372036854775808 }
    ensures { result ≡ with_first holds others }
{
    let first = if holds { 1 } else { 0 };
    first + 2 * others
}

/// Which of these overlays hold so many frames later.
fn held_of(region: &Region, notice: u8, overlays: &[Overlay]) -> Held
    requires few { length overlays.now ≤ 64 }
    ensures { IfHeld result (λ set. Throughout region.now (λ contacts day.
        held_of contacts ((day + notice) % FRAMES_A_DAY) (map overlay_of overlays.now) ≡ set)) }
{
    let mut set = 0u64;
    let mut left = overlays.len();
    while left > 0 {
        let overlay = &overlays[left - 1];
        match condition(region, notice, overlay.condition.as_slice()) {
            Answer::Yes => set = with_first(true, set),
            Answer::No => set = with_first(false, set),
            Answer::Ask(question) => return Held::Ask(question),
        }
        left -= 1;
    }
    Held::Set(set)
}

/// Which overlays make what is due in a region.
fn held_in(schedule: &Schedule, region: &Region) -> Held
    ensures { IfHeld result (λ set. Throughout region.now (λ contacts day.
        held schedule.now contacts day ≡ set)) }
{
    let notice = schedule.header().notice;
    held_of(region, notice, schedule.overlays())
}

/// Whether a set is among these, which ascend.
fn is_among(set: u64, sets: &[u64]) -> bool
    ensures { IsTrue result → (i : ℕ) × (slice_get sets.now i ≡ Some set) }
{
    let Ok(index) = sets.binary_search(&set) else {
        return false;
    };
    match sets.get(index) {
        Some(found) => *found == set,
        None => false,
    }
}

/// Whether each set that holds somewhere in a region, which may be empty, is among these. At most
/// `left` questions are asked one after the other, and no where the room has no region left.
fn are_all(schedule: &Schedule, region: &Region, sets: &[u64], room: &mut Room, left: u16) -> bool
    ensures { IsTrue result → Throughout region.now (λ contacts day.
        (i : ℕ) × (slice_get sets.now i ≡ Some (held schedule.now contacts day))) }
{
    if region.to <= region.from {
        return true;
    }
    if !room.takes_region() {
        return false;
    }
    let question = match held_in(schedule, region) {
        Held::Set(set) => return is_among(set, sets),
        Held::Ask(question) => question,
    };
    if left == 0 {
        return false;
    }
    let first = region.first(&question);
    if !are_all(schedule, &first, sets, room, left - 1) {
        return false;
    }
    let second = region.second(&question);
    are_all(schedule, &second, sets, room, left - 1)
}

/// Whether a set holds at a moment; that of the items alone need not.
fn can_hold(schedule: &Schedule, set: u64, moment: Moment) -> bool
    ensures { IsTrue result → (set ≡ 0) ⊎ CanHold schedule.now set }
{
    if set == 0 {
        return true;
    }
    match held_in(schedule, &region_of(moment)) {
        Held::Set(found) => found == set,
        Held::Ask(_) => false,
    }
}

/// Whether each of these sets holds at the moment beside it.
fn each_can_hold(schedule: &Schedule, sets: &[u64], moments: &[Moment]) -> bool
    ensures { IsTrue result → (i set : ℕ) → slice_get sets.now i ≡ Some set
        → (set ≡ 0) ⊎ CanHold schedule.now set }
{
    if sets.len() != moments.len() {
        return false;
    }
    for index in 0..sets.len() {
        if !can_hold(schedule, sets[index], moments[index]) {
            return false;
        }
    }
    true
}

/// Whether these sets ascend.
fn ascend(sets: &[u64]) -> bool
    ensures { IsTrue result → (i j a b : ℕ) → i < j → slice_get sets.now i ≡ Some a
        → slice_get sets.now j ≡ Some b → a < b }
{
    for index in 1..sets.len() {
        if sets[index] <= sets[index - 1] {
            return false;
        }
    }
    true
}

/// Whether these are the combinations of a schedule: the items alone, and all sets of overlays that
/// can hold, in ascending order. For each of them there is a moment at which it holds; that beside
/// the items alone, 0, does not matter. Where the room is used up, no does not say that they are
/// not.
pub fn are_combinations(
    schedule: &Schedule,
    sets: &[u64],
    moments: &[Moment],
    room: &mut Room,
) -> bool
    ensures { IsTrue result → AreCombinations schedule.now sets.now }
{
    if sets.first() != Some(&0) || !ascend(sets) {
        return false;
    }
    if !each_can_hold(schedule, sets, moments) {
        return false;
    }
    let all = Region::everything();
    are_all(schedule, &all, sets, room, MOST_QUESTIONS)
}
