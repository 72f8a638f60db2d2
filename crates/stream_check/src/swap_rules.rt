//! The findings at a swap (EN 300 401 clause 6.5).

use crate::checker_state::CheckerState;
use crate::finding::{Fault, StreamEvent, What};
use crate::reporting::{FrameAt, Report, note, note_if, note_some};
use crate::subs::{overlap, past_end};
use mux_config::Ensemble;

impl CheckerState {
    ghost use Rattle.std.specs.Prelude.{◌≡◌, ◌&&◌, not, map};
    ghost use Rattle.stream_check.specs.Reported.{with_more};
    ghost use Rattle.stream_check.specs.Reporting.{in_frame};
    ghost use Rattle.stream_check.specs.Rules.{times_faults, heard_faults, flags_faults};
    ghost use Rattle.stream_check.specs.Rules.{notice_faults, unit_faults, count_findings};
    ghost use Rattle.stream_check.specs.Rules.{swap_findings};
    ghost use Rattle.stream_check.specs.CheckerState.{known_in};

    /// Whether a fault of the notice is reported: only if the beginning of the notice was heard.
    fn is_fault(&self, holds: bool) -> bool
        ensures { result ≡ not self.now.is_cut_off && holds }
    {
        !self.is_cut_off && holds
    }

    /// Reports a notice with fewer than three flagged FIG 0/0.
    fn report_times<R: Report>(&self, at: FrameAt, report: &mut R)
        ensures { R.reported report.new ≡ with_more (R.reported report.old)
            (map (in_frame at) (times_faults (known_in self.now))) }
    {
        let is_hasty = self.is_fault(self.times < 3);
        note_if(is_hasty, at, Fault::AnnouncedTimes(self.times), report);
    }

    /// Reports a notice in which the next configuration could not be read three times.
    fn report_heard<R: Report>(&self, at: FrameAt, report: &mut R)
        ensures { R.reported report.new ≡ with_more (R.reported report.old)
            (map (in_frame at) (heard_faults (known_in self.now))) }
    {
        let is_unheard = self.is_fault(self.parts < 3);
        note_if(is_unheard, at, Fault::NextHeard(self.parts), report);
    }

    /// Reports change flags other than those that the configurations require.
    fn report_flags<R: Report>(&self, at: FrameAt, report: &mut R)
        ensures { R.reported report.new ≡ with_more (R.reported report.old)
            (map (in_frame at) (flags_faults (known_in self.now))) }
    {
        let changes = self.current.change_to(&self.next);
        let is_misnamed = self.is_fault(self.flags != changes);
        note_if(is_misnamed, at, Fault::Flags(self.flags, changes), report);
    }

    /// Reports the faults of the notice of a swap.
    fn report_notice<R: Report>(&self, at: FrameAt, report: &mut R)
        ensures { R.reported report.new ≡ with_more (R.reported report.old)
            (map (in_frame at) (notice_faults (known_in self.now))) }
    {
        self.report_times(at, report);
        self.report_heard(at, report);
        self.report_flags(at, report);
    }

    /// Reports the faults in the capacity units of the next configuration.
    fn report_units<R: Report>(&self, at: FrameAt, report: &mut R)
        ensures { R.reported report.new ≡ with_more (R.reported report.old)
            (map (in_frame at) (unit_faults (known_in self.now))) }
    {
        note_some(overlap(self.next.subs().as_slice()), at, report);
        note_some(past_end(self.next.subs().as_slice()), at, report);
    }

    /// Reports a swap, and the fault of its count.
    fn report_count<R: Report>(&self, at: FrameAt, ensemble: &Ensemble, report: &mut R)
        ensures { R.reported report.new ≡ with_more (R.reported report.old)
            (map (in_frame at) (count_findings (known_in self.now) ensemble.now)) }
    {
        let low = self.awaited.unwrap_or(0);
        note(at, What::Event(StreamEvent::Swap), report);
        let is_moved = ensemble.count() % 250 != u16::from(low);
        note_if(is_moved, at, Fault::AnnouncedFor(low), report);
    }

    /// Reports a swap, and the faults of its count, its notice and the next configuration.
    pub(crate) fn report_swap<R: Report>(&self, at: FrameAt, ensemble: &Ensemble, report: &mut R)
        ensures { R.reported report.new ≡ with_more (R.reported report.old)
            (map (in_frame at) (swap_findings (known_in self.now) ensemble.now)) }
    {
        self.report_count(at, ensemble, report);
        self.report_notice(at, report);
        self.report_units(at, report);
    }
}
