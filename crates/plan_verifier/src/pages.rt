//! Page counts of configurations.

ghost use Rattle.std.specs.Prelude.{◌≡◌, Some, None};
ghost use Rattle.fib_carousel.specs.Pages.{page_set, rounds};
ghost use Rattle.plan_verifier.specs.Rules.{pages_alone};

use fib_carousel::pages;
use mux_config::Store;
use plan_code::Plan;

/// The number of pages that the current and the next configuration take together, in the frames of
/// a notice.
pub(crate) fn notice_pages<'a, S: Store>(plan: &Plan, current: &'a S, next: &'a S) -> usize
    ensures { result ≡ rounds plan.now.layout (page_set (S.content current.now) (Some
        (S.content next.now))) }
{
    pages(plan.layout, current, Some(next))
}

/// The number of pages that a configuration takes by itself.
pub(crate) fn pages_alone<'a, S: Store>(plan: &Plan, store: &'a S) -> usize
    ensures { result ≡ pages_alone plan.now (S.content store.now) }
{
    let alone: Option<&'a S> = None;
    pages(plan.layout, store, alone)
}
