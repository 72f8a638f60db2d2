//! The pages of a phase, each packed once.

ghost use Rattle.std.specs.Prelude.{◌≡◌, ℕ, ◌+◌, ◌<◌, ◌≤◌, List, slice_get, Some, true, false};
ghost use Rattle.std.specs.Option.{option_copied};
ghost use Rattle.mux_types.specs.Facts.{Marked};
ghost use Rattle.fib_codec.specs.declared.frame_layout.FrameLayout.{FrameLayout};
ghost use Rattle.fib_carousel.specs.Pages.{page_set_of, rounds};
ghost use Rattle.fib_carousel.specs.declared.kept_page.KeptPage.{KeptPage};
ghost use Rattle.plan_player.specs.Phase.{Keeps, ShowsBytes};

use fib_carousel::{Cursor, KeptPage};
use fib_codec::{FibFrame, FrameLayout, Mode};
use mux_config::Store;

/// The maximum number of pages in a phase of a typed code: the longest period of a plan.
const MOST_PAGES: usize = 60;

/// Where the bytes of a frame are stored.
#[derive(Clone, Copy, PartialEq, Eq)]
pub(crate) enum Sent {
    /// In the kept page with this index, which has no FIG 0/0.
    Kept(u8),
    /// In a buffer of its own, as a page with FIG 0/0.
    Headed,
}

/// The pages of a phase that have been made. Each is packed when it is first in turn, and then kept
/// until the phase ends.
#[derive(Drop)]
pub(crate) struct PhasePages {
    /// The pages made so far, from page 0 on; later entries are from an earlier phase.
    pub(crate) pages: [Option<KeptPage>; MOST_PAGES],
    /// The number of pages made in this phase.
    pub(crate) made: u8,
    /// Whether all pages of the phase have been made.
    pub(crate) is_whole: bool,
    /// Where the next page to be made starts.
    pub(crate) cursor: Cursor,
    /// The change flags of the notice, if it has begun.
    pub(crate) change: u8,
    /// Where the last frame is stored.
    pub(crate) sent: Sent,
    /// The last frame that had a FIG 0/0.
    pub(crate) headed: FibFrame,
}

/// A page that has been made.
pub(crate) fn held(pages: &[Option<KeptPage>; MOST_PAGES], number: u8) -> &KeptPage
    requires { (page : KeptPage) × (slice_get pages.now number ≡ Some (Some page)) }
    ensures { slice_get pages.now number ≡ Some (Some result.now) }
{
    pages[usize::from(number)].as_ref().unwrap()
}

/// Makes the next page.
#[inline(never)]
fn make<'a, 'b, S: Store>(
    pages: &mut PhasePages,
    layout: FrameLayout,
    current: &'a S,
    next: Option<&'b S>,
)
    requires keeps { let ms = page_set_of S.content current.now (option_copied next) in
        Keeps layout ms pages.old.made pages.old }
    requires within { let ms = page_set_of S.content current.now (option_copied next) in
        pages.old.made < rounds layout ms }
    requires few { pages.old.made < 60 }
    ensures keeps { let ms = page_set_of S.content current.now (option_copied next.entry) in
        Keeps layout ms pages.old.made pages.new }
    ensures made { pages.new.made ≡ pages.old.made + 1 }
    ensures change { pages.new.change ≡ pages.old.change }
{
    let page = pages.cursor.kept_page(layout, current, next);
    let place = usize::from(pages.made);
    pages.pages[place] = Some(page);
    pages.is_whole = pages.cursor.number() == 0;
    pages.made += 1;
}

/// Makes the page in turn of these configurations, unless it has already been made in this phase.
pub(crate) fn make_if_new<'a, 'b, S: Store>(
    pages: &mut PhasePages,
    layout: FrameLayout,
    page_index: u8,
    current: &'a S,
    next: Option<&'b S>,
)
    requires keeps { let ms = page_set_of S.content current.now (option_copied next) in
        Keeps layout ms page_index pages.old }
    requires within { let ms = page_set_of S.content current.now (option_copied next) in
        page_index < rounds layout ms }
    requires few { page_index < 60 }
    ensures keeps { let ms = page_set_of S.content current.now (option_copied next.entry) in
        Keeps layout ms page_index pages.new }
    ensures made { page_index < pages.new.made }
    ensures change { pages.new.change ≡ pages.old.change }
{
    if page_index < pages.made {
        return;
    }
    make(pages, layout, current, next);
}

impl PhasePages {
    /// A phase without pages.
    pub(crate) fn new() -> PhasePages
        ensures { (layout : FrameLayout) (ms : List Marked) → Keeps layout ms 0 result }
    {
        PhasePages {
            pages: [None; MOST_PAGES],
            made: 0,
            is_whole: false,
            cursor: Cursor::new(),
            change: 0,
            sent: Sent::Headed,
            headed: FibFrame::new(Mode::I),
        }
    }

    /// The number of pages of the phase if all have been made; otherwise the number made plus one.
    pub(crate) fn count(&self) -> usize
        ensures whole { self.now.is_whole ≡ true → result ≡ self.now.made }
        ensures more { self.now.is_whole ≡ false → result ≡ self.now.made + 1 }
        ensures bound { result ≤ 256 }
    {
        usize::from(self.made) + usize::from(!self.is_whole)
    }

    /// The last frame.
    pub(crate) fn frame(&self) -> &FibFrame
        requires { (bytes : List ℕ) × ShowsBytes self.now bytes }
        ensures { (bytes : List ℕ) → ShowsBytes self.now bytes → result.now ≡ bytes }
    {
        match self.sent {
            Sent::Kept(number) => held(&self.pages, number).without_ensemble(),
            Sent::Headed => &self.headed,
        }
    }

    /// Discards the pages at the start of a phase.
    pub(crate) fn restart(&mut self)
        ensures pages { (layout : FrameLayout) (ms : List Marked) → Keeps layout ms 0 self.new }
        ensures change { self.new.change ≡ self.old.change }
    {
        self.made = 0;
        self.is_whole = false;
        self.cursor.restart();
    }
}
