//! The findings at a FIG 0/0 (EN 300 401 clauses 6.4 and 6.5).

ghost use Rattle.std.specs.Prelude.{◌≡◌};
ghost use Rattle.stream_check.specs.Rules.{can_fall_at};

use crate::checker_state::CheckerState;
use crate::finding::{Fault, StreamEvent, What};
use crate::reporting::{FrameAt, Report, note, note_if};
use mux_config::Ensemble;

/// Whether a swap can fall on a count with this low part.
fn can_fall_at(step: u16, low: u8) -> bool
    ensures { result ≡ can_fall_at step low }
{
    low < 250 && (low % 2 == 0 || step % 2 != 0)
}

impl CheckerState {
    ghost use Rattle.std.specs.Prelude.{◌≡◌, ◌<◌, ◌≤◌, map, if◌then◌else◌};
    ghost use Rattle.stream_check.specs.Reported.{with_more};
    ghost use Rattle.stream_check.specs.Reporting.{in_frame};
    ghost use Rattle.stream_check.specs.Rules.{is_placed, makes_swap, announces_another, is_other};
    ghost use Rattle.stream_check.specs.Rules.{place_faults, swap_or_another, announcement};
    ghost use Rattle.stream_check.specs.Rules.{announces_first, ensemble_findings};
    ghost use Rattle.stream_check.specs.Rules.{unannounced_findings};
    ghost use Rattle.stream_check.specs.CheckerState.{IsSane, known_in, most, with_swap};
    ghost use Rattle.stream_check.specs.CheckerState.{with_flags, with_ensemble};

    /// Whether a FIG 0/0 is in place: the first FIG of its frame, at a count that is a multiple of
    /// the mode's step.
    pub(crate) fn is_in_place(&self, first: bool, ensemble: &Ensemble) -> bool
        requires step { 0 < self.now.step }
        ensures { result ≡ is_placed (known_in self.now) first ensemble.now }
    {
        first && ensemble.count() % self.step == 0
    }

    /// Whether the awaited swap is made at this FIG 0/0.
    fn is_made(&self, ensemble: &Ensemble) -> bool
        ensures { result ≡ makes_swap (known_in self.now) ensemble.now }
    {
        match self.awaited {
            Some(low) => ensemble.change() == 0 || ensemble.count() % 250 == u16::from(low),
            None => false,
        }
    }

    /// Whether a swap other than the awaited one is announced.
    fn announces_another(&self, ensemble: &Ensemble) -> bool
        ensures { result ≡ announces_another (known_in self.now) ensemble.now }
    {
        match self.awaited {
            Some(low) => {
                ensemble.change() != self.flags || ensemble.occurrence().unwrap_or(0) != low
            }
            None => false,
        }
    }

    /// Whether the EId differs from that of the last FIG 0/0 in place.
    fn is_other_ensemble(&self, ensemble: &Ensemble) -> bool
        ensures { result ≡ is_other ensemble.now.eid self.now.eid }
    {
        match self.eid {
            Some(eid) => ensemble.eid() != eid,
            None => false,
        }
    }

    /// Whether the count differs from the one that was due.
    fn is_other_count(&self, ensemble: &Ensemble) -> bool
        ensures { result ≡ is_other ensemble.now.count self.now.due }
    {
        match self.due {
            Some(due) => ensemble.count() != due,
            None => false,
        }
    }

    /// Reports if it is out of place, or in place with a value that was not due.
    fn report_place<R: Report>(&self, at: FrameAt, first: bool, ensemble: &Ensemble, report: &mut R)
        requires step { 0 < self.now.step }
        ensures { R.reported report.new ≡ with_more (R.reported report.old)
            (map (in_frame at) (place_faults (known_in self.now) first ensemble.now)) }
    {
        let is_in_place = self.is_in_place(first, ensemble);
        let is_other_ensemble = is_in_place && self.is_other_ensemble(ensemble);
        note_if(
            is_other_ensemble,
            at,
            Fault::OtherEnsemble(ensemble.eid()),
            report,
        );
        let is_other_count = is_in_place && self.is_other_count(ensemble);
        note_if(
            is_other_count,
            at,
            Fault::Count(self.due.unwrap_or(0)),
            report,
        );
        note_if(!is_in_place, at, Fault::OutOfPlace, report);
    }

    /// Reports the findings at a swap or, if there is none, another announcement.
    fn report_swap_or_another<R: Report>(&self, at: FrameAt, ensemble: &Ensemble, report: &mut R)
        ensures { R.reported report.new ≡ with_more (R.reported report.old)
            (map (in_frame at) (swap_or_another (known_in self.now) ensemble.now)) }
    {
        if self.is_made(ensemble) {
            self.report_swap(at, ensemble, report);
            return;
        }
        let another = Fault::AnnouncedAgain(ensemble.change(), ensemble.occurrence().unwrap_or(0));
        note_if(self.announces_another(ensemble), at, another, report);
    }

    /// Whether this is a first announcement: flags where no swap was awaited, or where the swap has
    /// just been made.
    fn announces_first(&self, ensemble: &Ensemble) -> bool
        ensures { result ≡ announces_first (known_in self.now) ensemble.now }
    {
        ensemble.change() > 0 && (self.is_made(ensemble) || self.awaited.is_none())
    }

    /// Reports a first announcement.
    fn report_announcement<R: Report>(&self, at: FrameAt, ensemble: &Ensemble, report: &mut R)
        ensures { R.reported report.new ≡ with_more (R.reported report.old)
            (map (in_frame at) (announcement (known_in self.now) ensemble.now)) }
    {
        if self.announces_first(ensemble) {
            let low = ensemble.occurrence().unwrap_or(0);
            note(
                at,
                What::Event(StreamEvent::Announced(ensemble.change(), low)),
                report,
            );
            note_if(
                !can_fall_at(self.step, low),
                at,
                Fault::NoSwapAt(low),
                report,
            );
        }
    }

    /// Reports the findings at a FIG 0/0.
    fn report_ensemble<R: Report>(
        &self,
        at: FrameAt,
        first: bool,
        ensemble: &Ensemble,
        report: &mut R,
    )
        requires step { 0 < self.now.step }
        ensures { R.reported report.new ≡ with_more (R.reported report.old)
            (map (in_frame at) (ensemble_findings (known_in self.now) first ensemble.now)) }
    {
        self.report_place(at, first, ensemble, report);
        self.report_swap_or_another(at, ensemble, report);
        self.report_announcement(at, ensemble, report);
        self.report_unannounced(at, ensemble, report);
    }

    /// Reports a FIG 0/0 without change flags, if its frame has entries of the next configuration
    /// before it.
    fn report_unannounced<R: Report>(&self, at: FrameAt, ensemble: &Ensemble, report: &mut R)
        ensures { R.reported report.new ≡ with_more (R.reported report.old)
            (map (in_frame at) (unannounced_findings (known_in self.now) ensemble.now)) }
    {
        let is_bare = ensemble.change() == 0 && self.began_early;
        note_if(is_bare, at, Fault::NextUnannounced, report);
    }

    /// Applies change flags.
    fn note_flags(&mut self, ensemble: &Ensemble)
        requires times { self.old.times ≤ 3 }
        ensures { self.new ≡ with_flags ensemble.now self.old }
    {
        if ensemble.change() > 0 {
            self.is_cut_off = self.is_cut_off || !self.tuned;
            self.awaited = ensemble.occurrence();
            self.flags = ensemble.change();
            self.times = (self.times + 1).min(3);
            self.has_begun = true;
        }
    }

    /// Applies a FIG 0/0.
    fn note_ensemble(&mut self, first: bool, ensemble: &Ensemble)
        requires step { 0 < self.old.step }
        requires times { self.old.times ≤ 3 }
        ensures { self.new ≡ with_ensemble first ensemble.now self.old }
    {
        let is_in_place = self.is_in_place(first, ensemble);
        self.note_flags(ensemble);
        if self.eid.is_none() || is_in_place {
            self.eid = Some(ensemble.eid());
        }
        self.began_early = false;
        self.has_ensemble = true;
        self.tuned = true;
    }

    /// Applies a FIG 0/0, and reports the findings at it.
    pub(crate) fn hear_ensemble<R: Report>(
        &mut self,
        at: FrameAt,
        first: bool,
        ensemble: &Ensemble,
        report: &mut R,
    )
        requires step { 0 < self.old.step }
        requires times { self.old.times ≤ 3 }
        requires frames { self.old.frames < most }
        requires period { self.old.period < 65536 }
        ensures reported { R.reported report.new ≡ with_more (R.reported report.old)
            (map (in_frame at) (ensemble_findings (known_in self.old) first ensemble.now)) }
        ensures state { self.new ≡ with_ensemble first ensemble.now
            (if makes_swap (known_in self.old) ensemble.now then with_swap self.old else self.old) }
    {
        self.report_ensemble(at, first, ensemble, report);
        if self.is_made(ensemble) {
            self.swap();
        }
        self.note_ensemble(first, ensemble);
    }
}
