//! Why there is no plan from one opening to another.

ghost use Rattle.std.specs.Prelude.{◌↔◌, ◌≤◌, IsTrue, IfSome, IfNone};
ghost use Rattle.script_config.specs.Refusals.{FitsPeriod, IsOneEnsemble, HaveRoom, CanBePlanned};
ghost use Rattle.script_config.specs.Refusals.{IsInTheWay};

use crate::opening::Opening;
use fib_carousel::pages;
use mux_config::{Config, Store};
use thiserror::Error;

/// Why there is no plan from one opening to another, in the order tested.
#[derive(Clone, Copy, Debug, PartialEq, Eq, Error)]
pub enum DiffFault {
    /// Their ensembles or transmission modes differ.
    #[error("refused: another ensemble")]
    AnotherEnsemble,
    /// They have the same configuration.
    #[error("refused: NoChange")]
    NoChange,
    /// The pages of both configurations together take longer than the period, or three cycles of
    /// them longer than the notice.
    #[error("refused: Round")]
    Round,
    /// The budget is 1, so no frame has room for an edit and a wait.
    #[error("refused: Cost")]
    Cost,
}

/// Whether the pages of an opening go out within its own period.
pub fn fits_period(opening: &Opening) -> bool
    ensures { IsTrue result ↔ FitsPeriod opening.now }
{
    let alone: Option<&Config> = None;
    pages(opening.header.layout, &opening.config, alone) <= usize::from(opening.header.period)
}

/// Whether two openings have the same ensemble and transmission mode, whatever FIBs they reserve.
fn is_one_ensemble(from: &Opening, to: &Opening) -> bool
    ensures { IsTrue result ↔ IsOneEnsemble from.now to.now }
{
    from.header.eid == to.header.eid && from.header.layout.mode() == to.header.layout.mode()
}

/// Whether the pages of both go out once within the period of the second opening, and three times
/// within its notice.
fn have_room(from: &Opening, to: &Opening) -> bool
    ensures { IsTrue result ↔ HaveRoom from.now to.now }
{
    let both = pages(to.header.layout, &from.config, Some(&to.config));
    both <= usize::from(to.header.period) && both <= usize::from(to.header.notice) / 3
}

/// Why there is no plan with the second opening's header from the first to the second; None if
/// there is one.
pub fn fault_between(from: &Opening, to: &Opening) -> Option<DiffFault>
    requires { 1 ≤ to.now.header.budget }
    ensures fault { IfSome result (IsInTheWay from.now to.now) }
    ensures none { IfNone result (CanBePlanned from.now to.now) }
{
    if !is_one_ensemble(from, to) {
        return Some(DiffFault::AnotherEnsemble);
    }
    if from.config.same(&to.config) {
        return Some(DiffFault::NoChange);
    }
    if !have_room(from, to) {
        return Some(DiffFault::Round);
    }
    if to.header.budget == 1 {
        return Some(DiffFault::Cost);
    }
    None
}
