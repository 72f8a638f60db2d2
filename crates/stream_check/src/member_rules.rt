//! The findings at an entry of FIG 0/1 to 0/3 (EN 300 401 clause 6.5).

ghost use Rattle.std.specs.Prelude.{◌≡◌, ◌≢◌};
ghost use Rattle.stream_check.specs.Rules.{name_of};

use crate::checker_state::CheckerState;
use crate::finding::{EntryName, Fault, What};
use crate::heard_table::Lookup;
use crate::reporting::{FrameAt, Report, note, note_if};
use fib_codec::Extension;
use fib_reader::RawEntry;

/// The name of an entry of FIG 0/1 to 0/3.
pub(crate) fn name_of(entry: &RawEntry<'_>) -> EntryName
    requires { entry.now.ext ≢ 0 }
    ensures { result ≡ name_of entry.now }
{
    let identifier = entry.identifier();
    match entry.extension() {
        Extension::Ensemble => unreachable!(),
        Extension::SubChannels => EntryName::Sub(identifier),
        Extension::Services => {
            if entry.long() {
                EntryName::LongService(identifier - 65_536)
            } else {
                EntryName::Service(identifier)
            }
        }
        Extension::Packets => EntryName::Packet(identifier),
    }
}

impl CheckerState {
    ghost use Rattle.std.specs.Prelude.{◌≡◌, ◌≢◌, ◌<◌, ◌+◌, map, true, false};
    ghost use Rattle.stream_check.specs.declared.heard_table.Lookup.TheVariants as standings;
    ghost use Rattle.stream_check.specs.Reported.{with_more};
    ghost use Rattle.stream_check.specs.Reporting.{in_frame};
    ghost use Rattle.stream_check.specs.Pictures.{picture_of_heard};
    ghost use Rattle.stream_check.specs.Lookup.{lookup_in};
    ghost use Rattle.stream_check.specs.Rules.{finds_no_room, current_findings, next_findings};
    ghost use Rattle.stream_check.specs.CheckerState.{known_in, most, with_current, with_begun};
    ghost use Rattle.stream_check.specs.CheckerState.{with_next};

    /// Hears an entry of the current configuration, and reports the findings at it. False if there
    /// was no room for it; then nothing changes.
    pub(crate) fn hear_current<R: Report>(
        &mut self,
        at: FrameAt,
        entry: &RawEntry<'_>,
        report: &mut R,
    ) -> bool
        requires member { entry.now.ext ≢ 0 }
        requires frames { self.old.frames < most }
        ensures room { result ≡ true →
            finds_no_room (lookup_in entry.now (picture_of_heard self.old.current)) ≡ false }
        ensures reported { result ≡ true → R.reported report.new ≡ with_more (R.reported report.old)
            (map (in_frame at) (current_findings (known_in self.old) entry.now)) }
        ensures state { result ≡ true → self.new ≡ with_current entry.now self.old }
        ensures full { result ≡ false →
            finds_no_room (lookup_in entry.now (picture_of_heard self.old.current)) ≡ true }
        ensures nothing { result ≡ false → R.reported report.new ≡ R.reported report.old }
        ensures unchanged { result ≡ false → self.new ≡ self.old }
    {
        match self.current.hear(entry, self.frames + 1) {
            Lookup::Full => return false,
            Lookup::Same => {}
            Lookup::Other => {
                note(at, What::Fault(Fault::Changed(name_of(entry))), report);
            }
            Lookup::Absent => {
                let is_settled = self.settles_at <= self.frames;
                note_if(is_settled, at, Fault::Appeared(name_of(entry)), report);
            }
        }
        true
    }

    /// Notes that an entry of the next configuration was heard, which may begin the notice, and
    /// whether its identifier is new.
    fn note_next(&mut self, is_absent: bool)
        ensures { self.new ≡ with_begun is_absent self.old }
    {
        if !self.has_begun {
            self.began_early = !self.has_ensemble;
        }
        self.has_begun = true;
        if is_absent {
            self.since = 0;
            self.parts = 0;
        }
    }

    /// Hears an entry of the next configuration, and reports the findings at it. False if there
    /// was no room for it; then nothing changes.
    pub(crate) fn hear_next<R: Report>(
        &mut self,
        at: FrameAt,
        entry: &RawEntry<'_>,
        report: &mut R,
    ) -> bool
        requires member { entry.now.ext ≢ 0 }
        requires rows { self.old.rows < most }
        ensures room { result ≡ true →
            finds_no_room (lookup_in entry.now (picture_of_heard self.old.next)) ≡ false }
        ensures reported { result ≡ true → R.reported report.new ≡ with_more (R.reported report.old)
            (map (in_frame at) (next_findings (known_in self.old) entry.now)) }
        ensures state { result ≡ true → self.new ≡ with_next entry.now self.old }
        ensures full { result ≡ false →
            finds_no_room (lookup_in entry.now (picture_of_heard self.old.next)) ≡ true }
        ensures nothing { result ≡ false → R.reported report.new ≡ R.reported report.old }
        ensures unchanged { result ≡ false → self.new ≡ self.old }
    {
        let lookup = self.next.hear(entry, self.rows + 1);
        if lookup == Lookup::Full {
            return false;
        }
        let is_bare = !self.has_begun && self.has_ensemble;
        note_if(is_bare, at, Fault::NextUnannounced, report);
        if lookup == Lookup::Other {
            note(at, What::Fault(Fault::NextChanged(name_of(entry))), report);
        }
        self.note_next(lookup == Lookup::Absent);
        true
    }
}
