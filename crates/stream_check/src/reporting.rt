//! Receivers of findings.

ghost use Rattle.std.specs.Prelude.{◌≡◌, [], ◌∷◌, map};
ghost use Rattle.stream_check.specs.Reported.{with_more};
ghost use Rattle.stream_check.specs.Reporting.{in_frame, when, as_list};

use crate::finding::{Fault, Finding, What};

/// Receives findings one after the other.
pub trait Report {
    ghost use Rattle.stream_check.specs.Reported.{Reported};

    /// What was reported to it: all findings, if it keeps them, or if it keeps a limited number and
    /// these are no more.
    ghost reported: { Self → Reported };

    /// Receives one more finding.
    fn note(&mut self, finding: Finding)
        ensures { reported self.new ≡ with_more (reported self.old) (finding ∷ []) };
}

/// A frame, by its number from 0 and its CIF count.
#[derive(Clone, Copy, Debug, PartialEq, Eq)]
pub struct FrameAt {
    /// The number of the frame.
    pub frame: u64,
    /// The CIF count of the frame.
    pub count: u16,
}

/// Reports a finding in a frame.
pub(crate) fn note<R: Report>(at: FrameAt, what: What, report: &mut R)
    ensures { R.reported report.new ≡ with_more (R.reported report.old) (in_frame at what ∷ []) }
{
    report.note(Finding {
        frame: at.frame,
        count: at.count,
        what,
    });
}

/// Reports a fault if the condition holds.
pub(crate) fn note_if<R: Report>(holds: bool, at: FrameAt, fault: Fault, report: &mut R)
    ensures { let found = map (in_frame at) (when holds fault) in
        R.reported report.new ≡ with_more (R.reported report.old) found }
{
    if holds {
        note(at, What::Fault(fault), report);
    }
}

/// Reports a fault, if there is one.
pub(crate) fn note_some<R: Report>(fault: Option<Fault>, at: FrameAt, report: &mut R)
    ensures { let found = map (in_frame at) (as_list fault) in
        R.reported report.new ≡ with_more (R.reported report.old) found }
{
    if let Some(fault) = fault {
        note(at, What::Fault(fault), report);
    }
}
