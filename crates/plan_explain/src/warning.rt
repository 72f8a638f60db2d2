//! A warning about an accepted plan.

use crate::beginning::FirstWait;
use crate::day_trap::DayTrap;
use crate::day_wait::DayWait;
use crate::flaw::Flaw;
use crate::late_until::LateUntil;
use crate::primary::Primary;

/// A warning about an accepted plan, with the line of the script that it is about.
#[derive(Clone, Copy, PartialEq, Eq)]
pub enum Warning {
    /// A configuration that comes in this line has a flaw, which the one before it did not have:
    /// the opening in the line of `begin`, another one in that of its commit.
    Flawed(u16, Flaw),
    /// The commit in this line gives a service another primary component.
    OtherPrimary(u16, Primary),
    /// The plan waits for a time of day first.
    WaitsForTime(FirstWait),
    /// No path reaches the statement in this line, the first one of a defined block, and what
    /// follows it there.
    Unreached(u16),
    /// An `until` is directly behind a `wait contact`: it comes after the wait, and not instead.
    Late(LateUntil),
    /// An `until` waits for its time of the next day: that of this day is past when the plan comes
    /// to it.
    NextDay(DayWait),
    /// A wait for a time of day is one for the next day where a test of the time is passed late in
    /// its window: what is between them takes longer than it is to that time then, or the time is
    /// past.
    Trapped(DayTrap),
}
