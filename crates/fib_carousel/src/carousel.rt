//! The pages of the current configuration, or of the current and the next one.

ghost use Rattle.std.specs.Prelude.{◌≡◌, ℕ, ◌<◌, ◌≤◌, List};
ghost use Rattle.std.specs.Option.{option_copied};
ghost use Rattle.fib_carousel.specs.Packing.{IsPacking, rounds_of};
ghost use Rattle.fib_carousel.specs.Pages.{page_set_of, rounds};
ghost use Rattle.fib_carousel.specs.Bytes.{page_bytes, page_figs, figs_by, AreFibs};

use crate::pack_state::Position;
use crate::page_count;
use crate::page_set::PageSet;
use crate::page_writer::write_page;
use fib_codec::{FibFrame, FrameLayout};
use mux_config::{Ensemble, Store};

/// The number of pages that the entries of the current configuration and, if given, of the next one
/// take with this layout: at least 1. No division of the entries into the FIBs that are not
/// reserved takes fewer.
pub fn pages<'a, 'b, S: Store>(layout: FrameLayout, current: &'a S, next: Option<&'b S>) -> usize
    ensures value { let ms = page_set_of S.content current.now (option_copied next.entry) in
        result ≡ rounds layout ms }
    ensures packing { let ms = page_set_of S.content current.now (option_copied next.entry) in
        (ns : List ℕ) → IsPacking layout ms ns → result ≡ rounds_of layout ns }
    ensures one { 1 ≤ result }
{
    page_count::pages(layout, current, next)
}

/// The FIBs of a page, pages counting from 0: three, or four in mode III. The only FIG 0/0 is the
/// one given, if any, at the start of the first FIB; the entries follow as the packing places them.
/// A FIB without entries is empty, and so are the reserved ones, which come last.
pub fn page<'a, 'b, S: Store>(
    layout: FrameLayout,
    current: &'a S,
    next: Option<&'b S>,
    page: usize,
    ensemble: Option<Ensemble>,
) -> FibFrame
    requires { page < rounds layout (page_set_of S.content current.now (option_copied next)) }
    ensures bytes { let ms = page_set_of S.content current.now (option_copied next.entry) in
        result ≡ page_bytes layout ensemble page ms }
    ensures valid { let ms = page_set_of S.content current.now (option_copied next.entry) in
        AreFibs (page_figs layout ensemble page ms) result }
    ensures packing { let ms = page_set_of S.content current.now (option_copied next.entry) in
        (ns : List ℕ) → IsPacking layout ms ns
        → AreFibs (figs_by layout ns ensemble page ms) result }
{
    let mut position = Position::start();
    let mut frame = FibFrame::new(layout.mode());
    write_page(
        &PageSet::new(current, next),
        layout,
        &mut position,
        page,
        ensemble,
        &mut frame,
    );
    frame
}
