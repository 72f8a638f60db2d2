//! The findings at a FIG that names sub-channels, packet components or components of services
//! (EN 300 401 clauses 6.2.2, 6.3.3, 6.3.5, 8.1.2 and 8.1.6.2).

ghost use Rattle.std.specs.Prelude.{◌≡◌, ◌<◌, [], ◌∷◌, true, false, length};
ghost use Rattle.fig_mentions.specs.Mentions.{entry_mention, mentions_of};
ghost use Rattle.stream_check.specs.Pictures.{picture_of_heard};
ghost use Rattle.stream_check.specs.Contradictions.{absent, absent_among, are_whole};
ghost use Rattle.stream_check.specs.Contradictions.{contradictions_among, contradictions_in};
ghost use Rattle.stream_check.specs.Hearing.{AreNoted};

use crate::checker_state::CheckerState;
use crate::contradiction::Contradiction;
use crate::finding::{Fault, What};
use crate::noted::Noted;
use crate::reporting::{FrameAt, Report, note};
use crate::timed_picture::TimedPicture;
use fib_codec::bytes::byte_at;
use fig_mentions::{entry_mention, entry_size, is_judged};

/// Reports a contradiction, if it is new.
fn note_new<R: Report>(at: FrameAt, contradiction: Contradiction, noted: &mut Noted, report: &mut R)
    ensures { AreNoted at (contradiction ∷ []) noted.old (R.reported report.old)
        noted.new (R.reported report.new) }
{
    if noted.note(contradiction) {
        note(at, What::Fault(Fault::Contradicts(contradiction)), report);
    }
}

/// Whether these are whole entries of a FIG with this extension and P/D flag.
fn are_whole(ext: u8, long: bool, entries: &[u8]) -> bool
    ensures { result ≡ are_whole (mentions_of ext long entries.now) }
{
    let mut rest = entries;
    while !rest.is_empty() {
        let size = entry_size(ext, long, rest);
        if size > rest.len() {
            return false;
        }
        rest = &rest[size..];
    }
    true
}

/// Reports what the first entry in a FIG with this extension and P/D flag names, if it is absent.
fn note_entry<R: Report>(
    at: FrameAt,
    ext: u8,
    long: bool,
    entries: &[u8],
    current: &TimedPicture,
    noted: &mut Noted,
    report: &mut R,
)
    ensures { AreNoted at
        (absent (picture_of_heard current.now) ext (entry_mention ext long entries.now))
        noted.old (R.reported report.old) noted.new (R.reported report.new) }
{
    let mention = entry_mention(ext, long, entries);
    if !current.has(mention) {
        note_new(at, Contradiction::NotThere(ext, mention), noted, report);
    }
}

/// Reports what whole entries of a FIG with this extension and P/D flag name that is not there.
fn note_entries<R: Report>(
    at: FrameAt,
    ext: u8,
    long: bool,
    entries: &[u8],
    current: &TimedPicture,
    noted: &mut Noted,
    report: &mut R,
)
    requires whole { are_whole (mentions_of ext long entries.now) ≡ true }
    ensures { AreNoted at
        (absent_among (picture_of_heard current.now) ext (mentions_of ext long entries.now))
        noted.old (R.reported report.old) noted.new (R.reported report.new) }
{
    let mut rest = entries;
    while !rest.is_empty() {
        note_entry(at, ext, long, rest, current, noted, report);
        rest = &rest[entry_size(ext, long, rest)..];
    }
}

/// Reports the contradictions of entries in a FIG with this second byte.
fn note_among<R: Report>(
    at: FrameAt,
    second: u8,
    entries: &[u8],
    current: &TimedPicture,
    noted: &mut Noted,
    report: &mut R,
)
    ensures { AreNoted at (contradictions_among (picture_of_heard current.now) second entries.now)
        noted.old (R.reported report.old) noted.new (R.reported report.new) }
{
    let ext = second % 32;
    let long = (second >> 5) & 1 == 1;
    if entries.is_empty() {
        note_new(at, Contradiction::NotWhole(ext), noted, report);
        return;
    }
    if !are_whole(ext, long, entries) {
        note_new(at, Contradiction::NotWhole(ext), noted, report);
        return;
    }
    note_entries(at, ext, long, entries, current, noted, report);
}

/// Reports the contradictions of a FIG, given by its bytes.
fn note_fig<R: Report>(
    at: FrameAt,
    fig: &[u8],
    current: &TimedPicture,
    noted: &mut Noted,
    report: &mut R,
)
    ensures { AreNoted at (contradictions_in (picture_of_heard current.now) fig.now)
        noted.old (R.reported report.old) noted.new (R.reported report.new) }
{
    if is_judged(fig) {
        let entries = &fig[fig.len().min(2)..];
        note_among(at, byte_at(fig, 1), entries, current, noted, report);
    }
}

impl CheckerState {
    ghost use Rattle.std.specs.Prelude.{◌≡◌, nat_le, [], if◌then◌else◌};
    ghost use Rattle.stream_check.specs.Pictures.{picture_of_heard};
    ghost use Rattle.stream_check.specs.CheckerState.{with_noted};
    ghost use Rattle.stream_check.specs.Contradictions.{contradictions_in};
    ghost use Rattle.stream_check.specs.Hearing.{AreNoted};

    /// Reports the contradictions of a FIG, given by its bytes, to the current configuration, once
    /// `period` frames have ended.
    pub(crate) fn hear_mentions<R: Report>(&mut self, at: FrameAt, fig: &[u8], report: &mut R)
        ensures state { self.new ≡ with_noted self.new.noted self.old }
        ensures noted { AreNoted at
            (if nat_le self.old.period self.old.frames
            then contradictions_in (picture_of_heard self.old.current) fig.now else [])
            self.old.noted (R.reported report.old) self.new.noted (R.reported report.new) }
    {
        if self.frames >= self.period {
            note_fig(at, fig, &self.current, &mut self.noted, report);
        }
    }
}
