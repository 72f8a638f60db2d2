//! What a code declares for a whole playback.

ghost use Rattle.std.specs.Prelude.{◌↔◌, IsTrue};

use crate::limits::{LONGEST_NOTICE, LONGEST_PERIOD, SHORTEST_NOTICE};
use fib_codec::FrameLayout;

/// The plan of an ensemble: what its frames carry and how long its notices last.
#[derive(Clone, Copy, Debug, PartialEq, Eq)]
pub struct Plan {
    /// The identifier of the ensemble, EId (EN 300 401 clause 6.4).
    pub eid: u16,
    /// The layout of a frame: the transmission mode, which says how many FIBs a frame has, and on
    /// which CIF counts FIG 0/0 and swaps fall; and the reserve, the number of FIBs of each frame
    /// that carry no FIG of the plan.
    pub layout: FrameLayout,
    /// The period P, in frames, 1 to 60 in a code: any P successive frames of one phase carry the
    /// whole current configuration.
    pub period: u8,
    /// The notice, in frames, 12 to 248 in a code: how long a swap is announced before it is made.
    pub notice: u8,
    /// The budget, 1 to 255 in a code: the maximum number of instructions that run in one frame.
    pub budget: u8,
}

impl Plan {
    ghost use Rattle.plan_code.specs.Program.{IsPlan};

    /// Whether each field is within its limits.
    pub fn is_within_limits(&self) -> bool
        ensures { IsTrue result ↔ IsPlan self.now }
    {
        let has_period = 1 <= self.period && self.period <= LONGEST_PERIOD;
        let has_notice = SHORTEST_NOTICE <= self.notice && self.notice <= LONGEST_NOTICE;
        let has_budget = 1 <= self.budget;
        // Read for the proof: a value's invariant is known where the value is read.
        let _eid = self.eid;
        has_period && has_notice && has_budget
    }
}
