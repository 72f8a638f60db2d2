//! What a text says: the steps of a plan, or a schedule.

use crate::schedule::Schedule;
use script_front::script::Script;

/// What a text says: the steps of a plan, or a schedule.
#[derive(Drop)]
pub enum Source {
    /// A script, whose statements are the steps.
    Steps(Script),
    /// A schedule.
    Schedule(Schedule),
}
