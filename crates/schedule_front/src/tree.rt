//! The tree of a schedule: its overlays.

use mux_config::Edit;
use plan_code::ContactId;
use script_tokens::time::TimeOfDay;

/// A test of a condition.
#[derive(Clone, Copy, Debug, PartialEq, Eq)]
pub enum Test {
    /// `contact C closed` or `contact C open`: whether the contact has this level.
    Contact { contact: ContactId, closed: bool },
    /// `time A to B`: whether the frame of the day is at A or later, and before B; over midnight
    /// where B is before A, never where they are equal.
    Time { from: TimeOfDay, to: TimeOfDay },
}

/// An edit of an overlay.
#[derive(Clone, Copy, Debug, PartialEq, Eq)]
pub struct OverlayEdit {
    /// The line of its first token, 1 to 65,535.
    pub line: u16,
    /// The edit, one of all ten.
    pub edit: Edit,
}

/// An overlay: edits of the items' configuration while a condition holds.
#[derive(Drop)]
pub struct Overlay {
    /// The line of `overlay`, 1 to 65,535.
    pub line: u16,
    /// The condition: alternatives (`or`), each of tests that hold together (`and`); at least one
    /// alternative, each of at least one test, and at most 32 tests in all.
    pub condition: Vec<Vec<Test>>,
    /// The edits, in the order of the text.
    pub edits: Vec<OverlayEdit>,
}
