//! The number of pages that configurations take.
//!
//! Entries of sub-channels have one size and entries of packet components another, so both are
//! counted in runs.

ghost use Rattle.std.specs.Prelude.{◌≡◌, ◌+◌, ◌/◌, ◌≤◌, map};
ghost use Rattle.mux_types.specs.Facts.{facts_of, marked, service_entry};
ghost use Rattle.fib_codec.specs.Layouts.{used_fibs};
ghost use Rattle.std.specs.Option.{option_copied};
ghost use Rattle.fib_carousel.specs.Pages.{page_set_of, rounds};
ghost use Rattle.fib_carousel.specs.Runs.{all_placed};

use crate::entry_shapes::{packet_shape, service_shape, sub_shape};
use crate::pack_state::PackState;
use fib_codec::FrameLayout;
use mux_config::Store;

/// The state after placing the services of a configuration with this C/N flag.
fn with_services<S: Store>(
    before: PackState,
    layout: FrameLayout,
    store: &S,
    next: bool,
) -> PackState
    requires used { before.used ≤ 30 }
    requires fib { before.fib ≤ 1024 }
    ensures value { let c = S.content store.now in
        result ≡ all_placed layout (map (λ s. marked next (service_entry s)) c.services) before }
    ensures used { result.used ≤ 30 }
    ensures to { result.fib ≤ before.fib + 128 }
{
    let mut state = before;
    for index in 0..store.service_count() {
        state = state.then(layout, service_shape(store.service_at(index), next));
    }
    state
}

/// The state after placing the entries of a configuration with this C/N flag.
fn with_entries<S: Store>(
    before: PackState,
    layout: FrameLayout,
    store: &S,
    next: bool,
) -> PackState
    requires used { before.used ≤ 30 }
    requires fib { before.fib ≤ 512 }
    ensures value { result ≡ all_placed layout (facts_of (S.content store.now) next) before }
    ensures used { result.used ≤ 30 }
    ensures to { result.fib ≤ before.fib + 384 }
{
    let subs = before.run(layout, sub_shape(next), store.sub_count());
    let services = with_services(subs, layout, store, next);
    services.run(layout, packet_shape(next), store.packet_count())
}

/// The number of pages if this is the state after the last entry.
fn rounds_to(last: PackState, layout: FrameLayout) -> usize
    requires { last.fib ≤ 1024 }
    ensures { result ≡ last.fib / used_fibs layout + 1 }
{
    last.fib / layout.used() + 1
}

/// The number of pages that the entries of these configurations take, at least 1.
pub(crate) fn pages<S: Store>(layout: FrameLayout, current: &S, next: Option<&S>) -> usize
    ensures { let ms = page_set_of S.content current.now (option_copied next.entry) in
        result ≡ rounds layout ms }
{
    let last = with_entries(PackState::start(), layout, current, false);
    match next {
        Some(next) => rounds_to(with_entries(last, layout, next, true), layout),
        None => rounds_to(last, layout),
    }
}
