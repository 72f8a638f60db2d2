//! The checker of a stream, which it receives FIB by FIB.

ghost use Rattle.fib_codec.specs.Modes.{fib_count};

use crate::checker_state::CheckerState;
use crate::frame::{FibSummary, FrameFibs, first_of, summary_of};
use crate::reporting::Report;
use fib_codec::Mode;
use std::marker::Model;
use thiserror::Error;

/// The limit of all counters; no real stream comes near it.
const LIMIT: u64 = 1 << 62;

/// Why a check ends before its stream does.
#[derive(Clone, Copy, Debug, PartialEq, Eq, Error)]
pub enum CheckFault {
    /// A picture would get a 65th service or packet component.
    #[error("refused: Full")]
    Full,
    /// The stream has 2^62 frames, skipped FIBs or damaged FIBs, and these are not counted further.
    #[error("refused: too long")]
    TooLong,
}

/// The totals of a stream.
#[derive(Clone, Copy, Debug, PartialEq, Eq)]
pub struct Summary {
    /// The number of frames.
    pub frames: u64,
    /// The number of FIBs before the first that contains a FIG 0/0.
    pub skipped: u64,
    /// The number of FIBs at the end that do not form a frame.
    pub left_over: u64,
    /// The number of damaged FIBs in the frames.
    pub damaged: u64,
}

/// Checks a stream of FIBs, which it receives one after the other. It does not allocate.
#[derive(Drop)]
pub struct Checker {
    size: usize,
    state: CheckerState,
    held: FrameFibs,
    skipped: u64,
    damaged: u64,
}

impl Model for Checker {
    ghost use Rattle.stream_check.specs.Following.{Checking, IsChecking};

    ghost Value = { Checking };

    ghost view = { λ c. record {
      size = c.size;
      state = c.state;
      held = c.held;
      skipped = c.skipped;
      damaged = c.damaged;
    } };

    ghost invariant = { λ c. IsChecking (record {
      size = c.size;
      state = c.state;
      held = c.held;
      skipped = c.skipped;
      damaged = c.damaged;
    }) };
}

impl Checker {
    ghost use Rattle.std.specs.Prelude.{◌≡◌, ◌&&◌, ℕ, ◌<◌, ◌+◌, ◌++◌, ◌∷◌, [], List, Option};
    ghost use Rattle.std.specs.Prelude.{length, map, not, true, false, OnOk, IfOk, IfErr, IfSome};
    ghost use Rattle.std.specs.Prelude.{IfNone};
    ghost use Rattle.fib_codec.specs.Modes.{count_step};
    ghost use Rattle.fib_codec.specs.declared.modes.Mode as modes;
    ghost use Rattle.stream_check.specs.Reported.{Reported};
    ghost use Rattle.stream_check.specs.declared.checker.CheckFault.TheVariants as faults;
    ghost use Rattle.stream_check.specs.Frames.{Fib, Reading, IsSeen, damaged_in, holds_ensemble};
    ghost use Rattle.stream_check.specs.Frames.{is_there};
    ghost use Rattle.stream_check.specs.CheckerState.{most};
    ghost use Rattle.stream_check.specs.Hearing.{HearsFrame};
    ghost use Rattle.stream_check.specs.Following.{Follows, EndsFull, FollowsFib, EndsAtFib};
    ghost use Rattle.stream_check.specs.Following.{IsAtLimit, IsSummary, is_begun, is_empty};
    ghost use Rattle.stream_check.specs.Following.{with_skip, with_fib};

    /// A checker of a stream in this mode, before its first FIB. Any `period` successive frames
    /// have to carry each entry of the current configuration.
    pub fn new(mode: Mode, period: u16) -> Checker
        ensures { (r : Reading) (start : Reported)
            → Follows r mode period [] start start result }
    {
        Checker {
            size: mode.fibs(),
            state: CheckerState::new(mode, period),
            held: FrameFibs::new(),
            skipped: 0,
            damaged: 0,
        }
    }

    /// Whether a FIG 0/0 has been heard.
    fn has_begun(&self) -> bool
        ensures { result ≡ is_begun self.now }
    {
        self.state.frames() > 0 || !self.held.is_empty()
    }

    /// Whether a FIB is skipped: no FIG 0/0 was heard before, and it contains none.
    fn is_skipped(&self, fib: &[u8; 32]) -> bool
        ensures { (r : Reading)
            → result ≡ (not (is_begun self.now) && not (holds_ensemble (r.read fib.now))) }
    {
        !self.has_begun() && first_of(fib).is_none()
    }

    /// Whether this FIB ends a buffered frame by beginning with a FIG 0/0.
    fn is_cut(&self, summary: &FibSummary) -> bool
        ensures value { result ≡ (is_there summary.now.opening && not (is_empty self.now.held)) }
        ensures room { length self.now.held < self.now.size }
    {
        summary.opening.is_some() && !self.held.is_empty()
    }

    /// Whether one of the counters is at its limit.
    fn is_at_limit(&self) -> bool
        ensures room { result ≡ false → (self.now.state.frames < most)
            × (self.now.skipped < most) × (self.now.damaged < most) }
        ensures limit { result ≡ true → IsAtLimit self.now }
    {
        self.state.is_full() || (self.skipped >= LIMIT || self.damaged >= LIMIT)
    }

    /// Whether the current frame is still incomplete with one more FIB.
    fn has_space(&self) -> bool
        ensures space { result ≡ true → length self.now.held + 1 < self.now.size }
        ensures last { result ≡ false → length self.now.held + 1 ≡ self.now.size }
    {
        self.held.len() + 1 < self.size
    }

    /// Skips a FIB.
    fn skip(&mut self)
        requires skipped { self.old.skipped < most }
        ensures { self.new ≡ with_skip self.old }
    {
        self.skipped += 1;
    }

    /// Buffers a FIB of the current frame, which is incomplete with it.
    fn hold(&mut self, fib: &[u8; 32], summary: &FibSummary)
        requires space { length self.old.held + 1 < self.old.size }
        requires seen { (r : Reading) → IsSeen summary.now (r.read fib.now) }
        ensures { self.new ≡ with_fib fib.now self.old }
    {
        self.held.push(fib, summary);
    }

    /// Hears the buffered FIBs, which are a frame, and buffers this one, which begins the next.
    /// False if a picture had no room for an entry.
    fn hear_cut<R: Report>(&mut self, fib: &[u8; 32], summary: &FibSummary, report: &mut R) -> bool
        requires seen { (r : Reading) → IsSeen summary.now (r.read fib.now) }
        requires frames { self.old.state.frames < most }
        requires damaged { self.old.damaged < most }
        ensures heard { (r : Reading) → HearsFrame self.old.size (map r.read self.old.held)
            self.old.state (R.reported report.old)
            self.new.state (R.reported report.new) (not result) }
        ensures damaged { (r : Reading)
            → self.new.damaged ≡ self.old.damaged + damaged_in (map r.read self.old.held) }
        ensures held { self.new.held ≡ fib.now ∷ [] }
        ensures size { self.new.size ≡ self.old.size }
        ensures skipped { self.new.skipped ≡ self.old.skipped }
    {
        let is_heard = self.state.hear_frame(self.size, &self.held, report);
        self.damaged += self.held.damaged();
        self.held = FrameFibs::new();
        self.held.push(fib, summary);
        is_heard
    }

    /// Hears the buffered FIBs and this one, which are a frame, and empties the buffer. False if a
    /// picture had no room for an entry.
    fn hear_last<R: Report>(&mut self, fib: &[u8; 32], summary: &FibSummary, report: &mut R) -> bool
        requires seen { (r : Reading) → IsSeen summary.now (r.read fib.now) }
        requires frames { self.old.state.frames < most }
        requires damaged { self.old.damaged < most }
        ensures heard { (r : Reading)
            → HearsFrame self.old.size (map r.read (self.old.held ++ fib.now ∷ []))
            self.old.state (R.reported report.old)
            self.new.state (R.reported report.new) (not result) }
        ensures damaged { (r : Reading) → self.new.damaged
            ≡ self.old.damaged + damaged_in (map r.read (self.old.held ++ fib.now ∷ [])) }
        ensures held { self.new.held ≡ [] }
        ensures size { self.new.size ≡ self.old.size }
        ensures skipped { self.new.skipped ≡ self.old.skipped }
    {
        self.held.push(fib, summary);
        let is_heard = self.state.hear_frame(self.size, &self.held, report);
        self.damaged += self.held.damaged();
        self.held = FrameFibs::new();
        is_heard
    }

    /// Hears one FIB and, if it ends a frame, reports the findings in that frame; returns whether
    /// it does. A frame ends with the last of its FIBs, or where the next one begins with a FIG
    /// 0/0. FIBs before the first that contains a FIG 0/0 are skipped.
    ///
    /// - `Full`: a picture had no room for an entry; the findings before it were reported, and
    /// nothing after it may be
    ///   heard;
    /// - `TooLong`: there were already 2^62 frames, skipped FIBs or damaged FIBs; the FIB was not
    /// heard, and nothing
    ///   changed.
    pub fn hear<R: Report>(&mut self, fib: &[u8; 32], report: &mut R) -> Result<bool, CheckFault>
        ensures heard { OnOk result ((r : Reading) (mode : modes.Mode) (period : ℕ)
            (stream : List Fib) (start : Reported)
            → Follows r mode period stream start (R.reported report.old) self.old
            → Follows r mode period (stream ++ r.read fib.now ∷ []) start (R.reported report.new)
            self.new) }
        ensures added { IfOk result (λ ends. (r : Reading) (mode : modes.Mode) (period : ℕ)
            (stream : List Fib) → FollowsFib r mode period stream (r.read fib.now) ends
            (R.reported report.old) (R.reported report.new) self.old self.new) }
        ensures cut { IfErr result (λ fault. fault ≡ faults.Full → (r : Reading)
            (mode : modes.Mode) (period : ℕ) (stream : List Fib)
            → EndsAtFib r mode period stream (r.read fib.now)
            (R.reported report.old) (R.reported report.new) self.old) }
        ensures full { IfErr result (λ fault. fault ≡ faults.Full → (r : Reading)
            (mode : modes.Mode) (period : ℕ) (stream : List Fib)
            (start : Reported)
            → Follows r mode period stream start (R.reported report.old) self.old
            → EndsFull r mode period (stream ++ r.read fib.now ∷ []) start
            (R.reported report.new)) }
        ensures long { IfErr result (λ fault. fault ≡ faults.TooLong
            → (self.new ≡ self.old) × (R.reported report.new ≡ R.reported report.old)) }
        ensures limit { IfErr result (λ fault. fault ≡ faults.TooLong → IsAtLimit self.old) }
    {
        if self.is_at_limit() {
            return Err(CheckFault::TooLong);
        }
        if self.is_skipped(fib) {
            self.skip();
            return Ok(false);
        }
        let summary = summary_of(fib);
        if self.is_cut(&summary) {
            if !self.hear_cut(fib, &summary, report) {
                return Err(CheckFault::Full);
            }
            return Ok(true);
        }
        if self.has_space() {
            self.hold(fib, &summary);
            return Ok(false);
        }
        if !self.hear_last(fib, &summary, report) {
            return Err(CheckFault::Full);
        }
        Ok(true)
    }

    /// The totals of the frames so far. FIBs behind them count nowhere, so that none is left over.
    pub fn decided(&self) -> Summary
        ensures { (r : Reading) (mode : modes.Mode) (period : ℕ) (stream : List Fib)
            (start reported : Reported)
            (follows : Follows r mode period stream start reported self.now)
            → IsSummary follows.skipped follows.frames [] result }
    {
        Summary {
            frames: self.state.frames(),
            skipped: self.skipped,
            left_over: 0,
            damaged: self.damaged,
        }
    }

    /// Ends the check and returns the totals; None where the stream has no FIG 0/0.
    pub fn finish(&self) -> Option<Summary>
        ensures none { IfNone result (is_begun self.now ≡ false) }
        ensures some { IfSome result (λ s. (is_begun self.now ≡ true)
            × ((r : Reading) (mode : modes.Mode) (period : ℕ) (stream : List Fib)
            (start reported : Reported)
            (follows : Follows r mode period stream start reported self.now)
            → IsSummary follows.skipped follows.frames (map r.read self.now.held) s)) }
    {
        if !self.has_begun() {
            return None;
        }
        Some(Summary {
            frames: self.state.frames(),
            skipped: self.skipped,
            left_over: self.held.len() as u64,
            damaged: self.damaged,
        })
    }
}
