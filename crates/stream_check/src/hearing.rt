//! Hearing a frame, entry by entry.

use crate::checker_state::CheckerState;
use crate::frame::read;
use crate::reporting::{FrameAt, Report};
use fib_reader::{Entries, Fig, Figs, RawEntry};

impl CheckerState {
    ghost use Rattle.std.specs.Prelude.{◌≡◌, ◌≢◌, ◌<◌, [], ◌∷◌, map, not, Bool};
    ghost use Rattle.stream_check.specs.Frames.{Reading};
    ghost use Rattle.stream_check.specs.History.{items_of};
    ghost use Rattle.stream_check.specs.Sent.{entries_sent, fig_sent, figs_sent, fib_sent};
    ghost use Rattle.stream_check.specs.Sent.{frame_sent};
    ghost use Rattle.stream_check.specs.CheckerState.{IsSane, most};
    ghost use Rattle.stream_check.specs.Hearing.{IsLater, HearsItems, Hears};

    /// Applies an entry of FIG 0/1 to 0/3, and reports the findings at it. Before the first FIG 0/0
    /// it is ignored. False if there is no room for it.
    fn hear_member<R: Report>(
        &mut self,
        at: FrameAt,
        next: bool,
        entry: &RawEntry<'_>,
        report: &mut R,
    ) -> bool
        requires member { entry.now.ext ≢ 0 }
        requires few { entry.now.ext < 4 }
        requires sane { IsSane self.old }
        requires frames { self.old.frames < most }
        ensures later { IsLater self.old self.new }
        ensures heard { (first : Bool) → HearsItems at (items_of first next (entry.now ∷ []))
            self.old (R.reported report.old) self.new (R.reported report.new) (not result) }
        ensures noted { self.new.noted ≡ self.old.noted }
    {
        if !self.tuned {
            return true;
        }
        if next {
            return self.hear_next(at, entry, report);
        }
        self.hear_current(at, entry, report)
    }

    /// Applies one entry, and reports the findings at it.
    fn hear_entry<R: Report>(
        &mut self,
        at: FrameAt,
        first: bool,
        next: bool,
        entry: &RawEntry<'_>,
        report: &mut R,
    ) -> bool
        requires sane { IsSane self.old }
        requires frames { self.old.frames < most }
        ensures later { IsLater self.old self.new }
        ensures heard { Hears at (entries_sent first next (entry.now ∷ []))
            self.old (R.reported report.old) self.new (R.reported report.new) (not result) }
    {
        if entry.is_ensemble() {
            self.hear_ensemble(at, first, &entry.ensemble(), report);
            return true;
        }
        self.hear_member(at, next, entry, report)
    }

    /// Applies the entries of one FIG in order, and reports the findings at each, as
    /// [`Self::hear_entry`].
    fn hear_entries<R: Report>(
        &mut self,
        at: FrameAt,
        first: bool,
        next: bool,
        mut entries: Entries<'_>,
        report: &mut R,
    ) -> bool
        requires sane { IsSane self.old }
        requires frames { self.old.frames < most }
        ensures later { IsLater self.old self.new }
        ensures heard { Hears at (entries_sent first next entries.entry)
            self.old (R.reported report.old) self.new (R.reported report.new) (not result) }
    {
        while let Some(entry) = entries.next() {
            if !self.hear_entry(at, first, next, &entry, report) {
                return false;
            }
        }
        true
    }

    /// Applies one FIG: its entries, or what it names if its extension has no entries here.
    fn hear_fig<R: Report>(
        &mut self,
        at: FrameAt,
        first: bool,
        fig: &Fig<'_>,
        report: &mut R,
    ) -> bool
        requires sane { IsSane self.old }
        requires frames { self.old.frames < most }
        ensures later { IsLater self.old self.new }
        ensures heard { Hears at (fig_sent first fig.now)
            self.old (R.reported report.old) self.new (R.reported report.new) (not result) }
    {
        match fig.head() {
            Some(head) => self.hear_entries(at, first, head.next, fig.entries(), report),
            None => {
                self.hear_mentions(at, fig.bytes(), report);
                true
            }
        }
    }

    /// Applies the FIGs of one FIB in order.
    fn hear_figs<R: Report>(
        &mut self,
        at: FrameAt,
        first: bool,
        mut figs: Figs<'_>,
        report: &mut R,
    ) -> bool
        requires sane { IsSane self.old }
        requires frames { self.old.frames < most }
        ensures later { IsLater self.old self.new }
        ensures heard { Hears at (figs_sent first figs.entry)
            self.old (R.reported report.old) self.new (R.reported report.new) (not result) }
    {
        let mut is_first = first;
        while let Some(fig) = figs.next() {
            if !self.hear_fig(at, is_first, &fig, report) {
                return false;
            }
            is_first = false;
        }
        true
    }

    /// Applies one FIB. A damaged one has no entries.
    fn hear_fib<R: Report>(
        &mut self,
        at: FrameAt,
        first: bool,
        fib: &[u8; 32],
        report: &mut R,
    ) -> bool
        requires sane { IsSane self.old }
        requires frames { self.old.frames < most }
        ensures later { IsLater self.old self.new }
        ensures heard { (r : Reading) → Hears at (fib_sent first (r.read fib.now))
            self.old (R.reported report.old) self.new (R.reported report.new) (not result) }
    {
        match read(fib) {
            Some(figs) => self.hear_figs(at, first, figs, report),
            None => true,
        }
    }

    /// Applies the FIBs of a frame in order, and reports the findings at their entries. False if
    /// there is no room for one; those before it are applied.
    pub(crate) fn hear_fibs<R: Report>(
        &mut self,
        at: FrameAt,
        fibs: &[[u8; 32]],
        report: &mut R,
    ) -> bool
        requires sane { IsSane self.old }
        requires frames { self.old.frames < most }
        ensures later { IsLater self.old self.new }
        ensures heard { (r : Reading) → Hears at (frame_sent (map r.read fibs.now))
            self.old (R.reported report.old) self.new (R.reported report.new) (not result) }
    {
        let mut is_first = true;
        let mut rest = fibs;
        while let Some((fib, after)) = rest.split_first() {
            if !self.hear_fib(at, is_first, fib, report) {
                return false;
            }
            is_first = false;
            rest = after;
        }
        true
    }
}
