//! The findings in a frame (EN 300 401 clauses 5.1, 6.4 and 6.5).

ghost use Rattle.std.specs.Prelude.{◌≡◌};
ghost use Rattle.stream_check.specs.CheckerState.{later};

use crate::checker_state::CheckerState;
use crate::finding::{Fault, StreamEvent, What};
use crate::frame::FrameFibs;
use crate::heard_entry::HeardEntry;
use crate::heard_table::HeardTable;
use crate::member_rules::name_of;
use crate::reporting::{FrameAt, Report, note, note_if};

/// The maximum of two numbers.
fn later(one: u64, other: u64) -> u64
    ensures { result ≡ later one other }
{
    if one < other { other } else { one }
}

impl CheckerState {
    ghost use Rattle.std.specs.Prelude.{◌≡◌, ◌≢◌, ◌<◌, ◌≤◌, ◌+◌, ◌==◌, ◌&&◌, map, not, true, false};
    ghost use Rattle.std.specs.List.{AllByRecursion};
    ghost use Rattle.stream_check.specs.Pictures.{Heard};
    ghost use Rattle.stream_check.specs.Reported.{with_more};
    ghost use Rattle.stream_check.specs.Reporting.{in_frame};
    ghost use Rattle.stream_check.specs.Frames.{Reading};
    ghost use Rattle.stream_check.specs.History.{frame_items};
    ghost use Rattle.stream_check.specs.Stream.{count_due, count_of_frame, first_line};
    ghost use Rattle.stream_check.specs.Stream.{size_findings, damaged_findings, missing_findings};
    ghost use Rattle.stream_check.specs.Stream.{frame_findings};
    ghost use Rattle.stream_check.specs.CheckerState.{IsSane, most, later, is_quiet};
    ghost use Rattle.stream_check.specs.CheckerState.{quiet_findings, silent_in};
    ghost use Rattle.stream_check.specs.Hearing.{IsLater, HearsFrame};

    /// The count that is due in a frame; in the first frame that of its first FIG 0/0.
    fn count_due(&self, fibs: &FrameFibs) -> u16
        requires sane { IsSane self.now }
        ensures value { (r : Reading) → result ≡ count_due self.now.due (map r.read fibs.now) }
        ensures in_range { result < 5000 }
    {
        if let Some(due) = self.due {
            return due;
        }
        match fibs.first() {
            Some(ensemble) => ensemble.count(),
            None => 0,
        }
    }

    /// The count of a frame: that of its FIG 0/0 in place, or else the one that was due.
    fn count_of(&self, fibs: &FrameFibs) -> u16
        requires sane { IsSane self.now }
        ensures value { (r : Reading)
            → result ≡ count_of_frame self.now.step self.now.due (map r.read fibs.now) }
        ensures in_range { result < 5000 }
    {
        let due = self.count_due(fibs);
        match fibs.opening() {
            Some(ensemble) => {
                if ensemble.count() % self.step == 0 {
                    ensemble.count()
                } else {
                    due
                }
            }
            None => due,
        }
    }

    /// Reports the ensemble of the first frame.
    fn report_first_line<R: Report>(&self, at: FrameAt, fibs: &FrameFibs, report: &mut R)
        ensures { (r : Reading) → R.reported report.new ≡ with_more (R.reported report.old)
            (map (in_frame at) (first_line self.now.due (map r.read fibs.now))) }
    {
        if self.due.is_some() {
            return;
        }
        let eid = match fibs.first() {
            Some(ensemble) => ensemble.eid(),
            None => 0,
        };
        note(at, What::Event(StreamEvent::Ensemble(eid)), report);
    }

    /// Reports a frame with fewer FIBs than the mode requires.
    fn report_size<R: Report>(&self, at: FrameAt, size: usize, fibs: &FrameFibs, report: &mut R)
        ensures { (r : Reading) → R.reported report.new ≡ with_more (R.reported report.old)
            (map (in_frame at) (size_findings size (map r.read fibs.now))) }
    {
        let count = fibs.len() as u64;
        note_if(fibs.len() < size, at, Fault::ShortFrame(count), report);
    }

    /// Reports the damaged FIBs of a frame.
    fn report_damaged<R: Report>(&self, at: FrameAt, fibs: &FrameFibs, report: &mut R)
        ensures { (r : Reading) → R.reported report.new ≡ with_more (R.reported report.old)
            (map (in_frame at) (damaged_findings (map r.read fibs.now))) }
    {
        let damaged = fibs.damaged();
        note_if(damaged > 0, at, Fault::Damaged(damaged), report);
    }

    /// Reports a frame that should begin with a FIG 0/0, and does not.
    fn report_missing<R: Report>(&self, at: FrameAt, fibs: &FrameFibs, report: &mut R)
        requires sane { IsSane self.now }
        ensures { (r : Reading) → R.reported report.new ≡ with_more (R.reported report.old)
            (map (in_frame at)
            (missing_findings self.now.step self.now.due (map r.read fibs.now))) }
    {
        let is_missing = self.count_due(fibs) % self.step == 0 && fibs.starts_without_ensemble();
        note_if(is_missing, at, Fault::NoEnsemble, report);
    }

    /// Reports the findings for a frame as a whole.
    fn report_frame<R: Report>(&self, at: FrameAt, size: usize, fibs: &FrameFibs, report: &mut R)
        requires sane { IsSane self.now }
        ensures { (r : Reading) → R.reported report.new ≡ with_more (R.reported report.old)
            (map (in_frame at)
            (frame_findings size self.now.step self.now.due (map r.read fibs.now))) }
    {
        self.report_first_line(at, fibs, report);
        self.report_size(at, size, fibs, report);
        self.report_damaged(at, fibs, report);
        self.report_missing(at, fibs, report);
    }

    /// Whether an entry of the current configuration was last heard, or the last swap made, exactly
    /// `period` frames before this one.
    fn is_quiet(&self, entry: &HeardEntry) -> bool
        requires frames { self.now.frames < most }
        ensures { result
            ≡ is_quiet self.now.swapped self.now.period self.now.frames entry.now }
    {
        let last = later(entry.at(), self.swapped);
        let now = self.frames + 1;
        if last > now {
            return false;
        }
        now - last == self.period
    }

    /// Whether no entry can be silent yet, given a time before which none was last heard.
    fn is_too_soon(&self, oldest: u64) -> bool
        requires frames { self.now.frames < most }
        ensures { result ≡ true
            → self.now.frames + 1 < later oldest self.now.swapped + self.now.period }
    {
        let last = later(oldest, self.swapped);
        let now = self.frames + 1;
        last > now || now - last < self.period
    }

    /// Reports the silent entries in this table of the current configuration.
    fn report_quiet<R: Report>(&self, at: FrameAt, table: &HeardTable, report: &mut R)
        requires members { AllByRecursion (λ (h : Heard). h.raw.ext ≢ 0) table.now }
        requires frames { self.now.frames < most }
        ensures { R.reported report.new ≡ with_more (R.reported report.old) (map (in_frame at)
            (quiet_findings self.now.swapped self.now.period self.now.frames table.now)) }
    {
        if self.is_too_soon(table.oldest()) {
            return;
        }
        let mut rest = table.as_slice();
        while let Some((entry, after)) = rest.split_first() {
            let is_quiet = self.is_quiet(entry);
            note_if(
                is_quiet,
                at,
                Fault::Silent(name_of(&entry.as_raw_entry())),
                report,
            );
            rest = after;
        }
    }

    /// Reports the silent entries of the current configuration.
    fn report_silent<R: Report>(&self, at: FrameAt, report: &mut R)
        requires frames { self.now.frames < most }
        ensures { R.reported report.new ≡ with_more (R.reported report.old)
            (map (in_frame at) (silent_in self.now)) }
    {
        self.report_quiet(at, self.current.subs(), report);
        self.report_quiet(at, self.current.services(), report);
        self.report_quiet(at, self.current.packets(), report);
    }

    /// Updates the time of the oldest entries from time to time. The contents stay the same.
    fn find_oldest(&mut self)
        requires frames { self.old.frames < most }
        ensures { self.new ≡ self.old }
    {
        if self.frames % 8 == 0 {
            let before = (self.frames + 1).saturating_sub(self.period);
            self.current.find_oldest(before);
        }
    }

    /// Hears the FIBs of a frame, and reports the findings in it. False if a picture had no room
    /// for an entry; nothing is reported after it.
    pub(crate) fn hear_frame<R: Report>(
        &mut self,
        size: usize,
        fibs: &FrameFibs,
        report: &mut R,
    ) -> bool
        requires sane { IsSane self.old }
        requires frames { self.old.frames < most }
        ensures sane { IsSane self.new }
        ensures bound { self.new.frames ≤ most }
        ensures step { self.new.step ≡ self.old.step }
        ensures period { self.new.period ≡ self.old.period }
        ensures heard { (r : Reading) → HearsFrame size (map r.read fibs.now) self.old
            (R.reported report.old) self.new (R.reported report.new) (not result) }
    {
        let count = self.count_of(fibs);
        let at = FrameAt {
            frame: self.frames,
            count,
        };
        self.report_frame(at, size, fibs, report);
        if !self.hear_fibs(at, fibs.as_slice(), report) {
            return false;
        }
        self.report_silent(at, report);
        self.find_oldest();
        self.end_frame(count);
        true
    }
}
