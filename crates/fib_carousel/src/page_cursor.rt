//! A cursor over the pages.

ghost use Rattle.std.specs.Prelude.{◌≡◌, ◌+◌, ◌-◌, ◌<◌};
ghost use Rattle.std.specs.Option.{option_copied};
ghost use Rattle.fib_codec.specs.Layouts.{used_fibs};
ghost use Rattle.fib_carousel.specs.Pages.{page_set_of, page_after, rounds, first_fib};
ghost use Rattle.fib_carousel.specs.Bytes.{page_bytes};
ghost use Rattle.fib_carousel.specs.Kept.{IsKept};
ghost use Rattle.fib_carousel.specs.Walk.{IsAtFirstPage, IsAtPageStart, IsAtPage, cursor_page};
ghost use Rattle.fib_carousel.specs.Walk.{IsAtFib, HasPassed};

use crate::entry_list::EntryList;
use crate::kept_page::KeptPage;
use crate::pack_state::Position;
use crate::page_set::PageSet;
use crate::page_writer::write_page;
use fib_codec::{FibFrame, FrameLayout};
use mux_config::{Ensemble, Store};

/// Yields the pages of a page set in order, and page 0 again after the last. It keeps the position
/// in the list of entries at which the next page starts, so a page is packed from there and not
/// from the first entry. It keeps none of the entries: the configurations are passed in for each
/// page. When they or the layout change, it must be restarted.
#[derive(Clone, Copy, Debug, PartialEq, Eq)]
pub struct Cursor {
    page: usize,
    position: Position,
}

impl Default for Cursor {
    ghost use Rattle.fib_carousel.specs.Walk.{IsAtFirstPage};

    ghost is_default = { IsAtFirstPage };

    /// A cursor at page 0, as [`Cursor::new`] gives it.
    fn default() -> Self {
        Cursor::new()
    }
}

impl Cursor {
    /// A cursor at page 0, whatever the entries are.
    pub fn new() -> Cursor
        ensures { IsAtFirstPage result }
    {
        Cursor {
            page: 0,
            position: Position::start(),
        }
    }

    /// Returns to page 0, whatever the entries are.
    pub fn restart(&mut self)
        ensures { IsAtFirstPage self.new }
    {
        *self = Cursor::new();
    }

    /// The number of the current page, from 0.
    pub fn number(&self) -> usize
        ensures { result ≡ cursor_page self.now }
    {
        self.page
    }

    /// Advances past the page that was packed: to the next page, and to page 0 after the last.
    fn advance<L: EntryList>(&mut self, list: &L, layout: FrameLayout)
        requires within { self.old.page < rounds layout (L.entries list.now) }
        requires before { let next = first_fib layout self.old.page + used_fibs layout in
            IsAtFib layout (L.entries list.now) next self.old.position }
        requires passed { let last = first_fib layout self.old.page + used_fibs layout - 1 in
            HasPassed layout (L.entries list.now) last self.old.position }
        ensures stands { IsAtPageStart layout (L.entries list.now) self.new }
        ensures page { let pages = rounds layout (L.entries list.now) in
            cursor_page self.new ≡ page_after pages (cursor_page self.old) }
    {
        if self.position.index < list.len() {
            self.page += 1;
        } else {
            self.restart();
        }
    }

    /// Returns the current page, with FIG 0/0 first if given (the bytes that `page` gives for it),
    /// and advances, wrapping after the last. The configurations and the layout are those with
    /// which the cursor came to this page.
    pub fn page<'a, 'b, S: Store>(
        &mut self,
        layout: FrameLayout,
        current: &'a S,
        next: Option<&'b S>,
        ensemble: Option<Ensemble>,
    ) -> FibFrame
        requires stands { let ms = page_set_of S.content current.now (option_copied next) in
            IsAtPageStart layout ms self.old }
        ensures bytes { let ms = page_set_of S.content current.now (option_copied next.entry) in
            result ≡ page_bytes layout ensemble (cursor_page self.old) ms }
        ensures next { let ms = page_set_of S.content current.now (option_copied next.entry) in
            IsAtPage layout ms (page_after (rounds layout ms) (cursor_page self.old)) self.new }
    {
        let set = PageSet::new(current, next);
        let mut frame = FibFrame::new(layout.mode());
        write_page(
            &set,
            layout,
            &mut self.position,
            self.page,
            ensemble,
            &mut frame,
        );
        self.advance(&set, layout);
        frame
    }

    /// Returns the current page, to be sent in several frames with FIG 0/0 or without it, and
    /// advances, wrapping after the last. The configurations and the layout are those with which
    /// the cursor came to this page.
    pub fn kept_page<'a, 'b, S: Store>(
        &mut self,
        layout: FrameLayout,
        current: &'a S,
        next: Option<&'b S>,
    ) -> KeptPage
        requires stands { let ms = page_set_of S.content current.now (option_copied next) in
            IsAtPageStart layout ms self.old }
        ensures kept { let ms = page_set_of S.content current.now (option_copied next.entry) in
            IsKept layout ms (cursor_page self.old) result }
        ensures next { let ms = page_set_of S.content current.now (option_copied next.entry) in
            IsAtPage layout ms (page_after (rounds layout ms) (cursor_page self.old)) self.new }
    {
        let set = PageSet::new(current, next);
        let mut plain = FibFrame::new(layout.mode());
        write_page(
            &set,
            layout,
            &mut self.position,
            self.page,
            None,
            &mut plain,
        );
        self.advance(&set, layout);
        KeptPage::new(plain)
    }
}
