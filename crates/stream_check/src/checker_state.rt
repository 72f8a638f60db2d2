//! The checker's state: what it keeps of the stream so far.

ghost use Rattle.std.specs.Prelude.{◌≡◌};

use crate::noted::Noted;
use crate::timed_picture::TimedPicture;
use fib_codec::Mode;
use std::mem;

/// What is kept of the frames heard so far.
#[derive(Drop)]
pub struct CheckerState {
    /// The mode's step of counts.
    pub(crate) step: u16,
    /// The number of successive frames within which each entry of the current configuration has to
    /// be sent.
    pub(crate) period: u64,
    /// The number of frames that have ended.
    pub(crate) frames: u64,
    /// The count that is due.
    pub(crate) due: Option<u16>,
    /// The EId of the last FIG 0/0 in place.
    pub(crate) eid: Option<u16>,
    /// Whether the current frame has had a FIG 0/0.
    pub(crate) has_ensemble: bool,
    /// Whether a FIG 0/0 has been heard, so that entries are kept.
    pub(crate) tuned: bool,
    /// The current configuration. Each entry has the number of the frame, from 1, in which it was
    /// last heard.
    pub(crate) current: TimedPicture,
    /// The next configuration. Each entry has the number of the notice's frame, from 1, in which it
    /// was last heard.
    pub(crate) next: TimedPicture,
    /// The low part of the count at which a swap is awaited.
    pub(crate) awaited: Option<u8>,
    /// The flags of the last flagged FIG 0/0.
    pub(crate) flags: u8,
    /// The number of flagged FIG 0/0 in the notice, at most three.
    pub(crate) times: u64,
    /// Whether the beginning of the notice was not heard.
    pub(crate) is_cut_off: bool,
    /// The number of the frame, from 1, in which the last swap was made.
    pub(crate) swapped: u64,
    /// The frame from which on all entries of the current configuration should be known.
    pub(crate) settles_at: u64,
    /// Whether the notice has begun.
    pub(crate) has_begun: bool,
    /// Whether an entry began it, since the last FIG 0/0, in a frame that had no FIG 0/0 yet.
    pub(crate) began_early: bool,
    /// The number of frames of the notice that have ended.
    pub(crate) rows: u64,
    /// The number of these that are in complete parts.
    pub(crate) since: u64,
    /// The number of complete parts.
    pub(crate) parts: u64,
    /// The contradictions that were reported since the last swap.
    pub(crate) noted: Noted,
}

impl CheckerState {
    ghost use Rattle.std.specs.Prelude.{◌≡◌, ◌<◌, ◌≤◌, [], false, true};
    ghost use Rattle.fib_codec.specs.Modes.{count_step};
    ghost use Rattle.stream_check.specs.CheckerState.{IsSane, Knows, most, with_swap, with_row};
    ghost use Rattle.stream_check.specs.CheckerState.{with_frame};

    /// The state before the first FIB.
    pub(crate) fn new(mode: Mode, period: u16) -> Self
        ensures knows { Knows (count_step mode) period [] result }
        ensures sane { IsSane result }
        ensures frames { result.frames ≡ 0 }
        ensures noted { result.noted ≡ [] }
    {
        CheckerState {
            step: mode.step(),
            period: u64::from(period),
            frames: 0,
            due: None,
            eid: None,
            has_ensemble: false,
            tuned: false,
            current: TimedPicture::new(),
            next: TimedPicture::new(),
            awaited: None,
            flags: 0,
            times: 0,
            is_cut_off: false,
            swapped: 0,
            settles_at: u64::from(period),
            has_begun: false,
            began_early: false,
            rows: 0,
            since: 0,
            parts: 0,
            noted: Noted::new(),
        }
    }

    /// The number of frames that have ended.
    pub(crate) fn frames(&self) -> u64
        ensures { result ≡ self.now.frames }
    {
        self.frames
    }

    /// Whether the number of frames is at the limit.
    pub(crate) fn is_full(&self) -> bool
        ensures room { result ≡ false → self.now.frames < most }
        ensures full { result ≡ true → most ≤ self.now.frames }
    {
        self.frames >= 1u64 << 62
    }

    /// Ends a frame of the notice.
    fn end_row(&mut self)
        requires rows { self.old.rows < most }
        requires parts { self.old.parts < most }
        ensures { self.new ≡ with_row self.old }
    {
        self.rows += 1;
        if self.next.is_heard_since(self.since) {
            self.parts += 1;
            self.since = self.rows;
        }
    }

    /// Ends the current frame, which had this count.
    pub(crate) fn end_frame(&mut self, count: u16)
        requires count { count < 5000 }
        requires frames { self.old.frames < most }
        requires rows { self.old.rows < most }
        requires parts { self.old.parts < most }
        ensures { self.new ≡ with_frame count self.old }
    {
        if self.has_begun {
            self.end_row();
        }
        self.has_ensemble = false;
        self.frames += 1;
        self.due = Some((count + 1) % 5000);
    }

    /// Makes the next configuration the current one.
    #[inline(never)]
    pub(crate) fn swap(&mut self)
        requires frames { self.old.frames < most }
        requires period { self.old.period < 65536 }
        ensures { self.new ≡ with_swap self.old }
    {
        mem::swap(&mut self.current, &mut self.next);
        self.next = TimedPicture::new();
        self.awaited = None;
        self.settles_at = if self.is_cut_off {
            self.frames + self.period
        } else {
            0
        };
        self.is_cut_off = false;
        self.swapped = self.frames + 1;
        self.times = 0;
        self.has_begun = false;
        self.rows = 0;
        self.since = 0;
        self.parts = 0;
        self.noted = Noted::new();
    }
}
