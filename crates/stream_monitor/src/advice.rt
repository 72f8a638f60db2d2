//! Hints on a stream of FIBs that is checked in another transmission mode than its own, and on one
//! of which bytes were lost. Each is given once at most, on standard error; what is found in the
//! stream stays as it is.

use console::escaped::Escaped;
use console::files::Files;
use fib_codec::Mode;
use fib_reader::{Entries, check};
use std::fmt::{self, Display, Formatter};

/// So many equal steps of the CIF count from one FIG 0/0 to the next show the mode of a stream.
const STEADY: u8 = 2;

/// The CIF count is below this (EN 300 401 clause 6.4).
const COUNTS: u16 = 5000;

/// So many damaged FIBs in a row, behind one that is not, show that bytes were lost.
const MANY: u8 = 30;

/// What is advised on a stream.
#[derive(Clone, Copy)]
enum Advice {
    /// FIG 0/0 comes at steps of this many frames, as in another mode.
    OtherMode(u16),
    /// The FIBs are damaged from this byte on, and FIBs go on at that one, if it is known.
    LostBytes { from: u64, to: Option<u64> },
}

/// Some advice, and the path of the file.
#[derive(Clone, Copy)]
struct AdviceLine<'a> {
    path: &'a str,
    advice: Advice,
}

impl Display for AdviceLine<'_> {
    /// The printed line, with the control bytes of the path as `\xHH`.
    fn fmt<W: fmt::Write>(&self, f: &mut Formatter<W>) -> fmt::Result {
        let path = Escaped::in_line(self.path);
        match self.advice {
            Advice::OtherMode(1) => write!(f, "{path}: FIG 0/0 in every frame: --mode 2 or 3?"),
            Advice::OtherMode(2) => write!(f, "{path}: FIG 0/0 in every second frame: --mode 4?"),
            Advice::OtherMode(_) => write!(f, "{path}: FIG 0/0 in every fourth frame: --mode 1?"),
            Advice::LostBytes { from, to: None } => {
                write!(f, "{path}: FIBs are damaged from byte {from} on")
            }
            Advice::LostBytes { from, to: Some(to) } => write!(
                f,
                "{path}: FIBs are damaged from byte {from} on: if bytes were lost there, the \
                 stream goes on at byte {to}"
            ),
        }
    }
}

/// Watches the steps of the CIF count from one FIG 0/0 to the next.
#[derive(Drop)]
struct StepWatch {
    /// The step of the mode that the stream is checked in.
    wanted: u16,
    /// The last CIF count, and the step that came to it.
    count: Option<u16>,
    step: u16,
    /// How many times this step came in a row.
    times: u8,
    is_done: bool,
}

impl StepWatch {
    /// Before the first FIG 0/0 of a stream that is checked in this mode.
    fn new(mode: Mode) -> Self {
        StepWatch {
            wanted: mode.step(),
            count: None,
            step: 0,
            times: 0,
            is_done: false,
        }
    }

    /// Watches the next FIB; returns the step of the stream as soon as it is clear that it is
    /// another one than wanted.
    fn see(&mut self, fib: &[u8; 32]) -> Option<u16> {
        if self.is_done {
            return None;
        }
        let count = count_of(fib)?;
        self.step_to(count);
        self.count = Some(count);
        if self.times < STEADY || !matches!(self.step, 1 | 2 | 4) {
            return None;
        }
        self.is_done = true;
        if self.step == self.wanted {
            return None;
        }
        Some(self.step)
    }

    /// Counts the step from the last CIF count to this one.
    fn step_to(&mut self, count: u16) {
        let Some(last) = self.count else {
            return;
        };
        let step = count.saturating_add(COUNTS).saturating_sub(last) % COUNTS;
        self.times = if step == self.step {
            self.times.saturating_add(1)
        } else {
            1
        };
        self.step = step;
    }
}

/// The CIF count in a FIB, if it has a FIG 0/0.
fn count_of(fib: &[u8; 32]) -> Option<u16> {
    let Ok(figs) = check(fib) else {
        return None;
    };
    for fig in figs {
        let found = count_among(fig.entries());
        if found.is_some() {
            return found;
        }
    }
    None
}

/// The CIF count among the entries of a FIG.
fn count_among(entries: Entries<'_>) -> Option<u16> {
    for entry in entries {
        if entry.is_ensemble() {
            return Some(entry.ensemble().count());
        }
    }
    None
}

/// Watches for FIBs that stay damaged behind one that is not.
#[derive(Drop)]
struct LossWatch {
    /// The offset of the next FIB, in bytes.
    at: u64,
    /// The offset of the first of the damaged FIBs that come last in a row, and their number.
    from: u64,
    damaged: u8,
    is_begun: bool,
    is_done: bool,
}

impl LossWatch {
    /// Before the first FIB.
    fn new() -> Self {
        LossWatch {
            at: 0,
            from: 0,
            damaged: 0,
            is_begun: false,
            is_done: false,
        }
    }

    /// Watches the next FIB; returns the offset of the first damaged one, once so many came that
    /// bytes were lost.
    fn see(&mut self, fib: &[u8; 32]) -> Option<u64> {
        let at = self.at;
        self.at = at.saturating_add(32);
        if check(fib).is_ok() {
            self.is_begun = true;
            self.damaged = 0;
            return None;
        }
        if self.damaged == 0 {
            self.from = at;
        }
        self.damaged = self.damaged.saturating_add(1);
        if self.is_done || !self.is_begun || self.damaged < MANY {
            return None;
        }
        self.is_done = true;
        Some(self.from)
    }
}

/// The offset of the first place behind `from` in a piece at which three FIBs in a row are not
/// damaged.
fn resumed_in(piece: &[u8], from: usize) -> Option<usize> {
    for place in from.saturating_add(1)..piece.len() {
        if is_resumed(piece.get(place..)) {
            return Some(place);
        }
    }
    None
}

/// Whether bytes begin with three FIBs that are not damaged.
fn is_resumed(rest: Option<&[u8]>) -> bool {
    let Some(rest) = rest else {
        return false;
    };
    let (fibs, _) = rest.as_chunks::<32>();
    match fibs {
        [one, two, three, ..] => check(one).is_ok() && check(two).is_ok() && check(three).is_ok(),
        _ => false,
    }
}

/// Watches a stream that is checked, and gives its hints.
#[derive(Drop)]
pub(crate) struct Adviser<'a> {
    path: &'a str,
    steps: StepWatch,
    loss: LossWatch,
}

impl<'a> Adviser<'a> {
    /// Before the first piece of the file of this path, which is checked in this mode.
    pub(crate) fn new(path: &'a str, mode: Mode) -> Self {
        Adviser {
            path,
            steps: StepWatch::new(mode),
            loss: LossWatch::new(),
        }
    }

    /// Takes another mode to check in, before the first piece.
    pub(crate) fn start(&mut self, mode: Mode) {
        self.steps = StepWatch::new(mode);
    }

    /// Looks at the next piece: all its whole FIBs.
    pub(crate) fn look<F: Files>(&mut self, piece: &[u8], files: &mut F) {
        let begin = self.loss.at;
        let (fibs, _) = piece.as_chunks::<32>();
        for fib in fibs {
            if let Some(step) = self.steps.see(fib) {
                self.give(Advice::OtherMode(step), files);
            }
            if let Some(from) = self.loss.see(fib) {
                self.give(lost_from(piece, begin, from), files);
            }
        }
    }

    /// Gives a hint.
    fn give<F: Files>(&self, advice: Advice, files: &mut F) {
        files.report(AdviceLine {
            path: self.path,
            advice,
        });
    }
}

/// The advice on bytes that were lost at the byte `from` of a stream, where a piece that begins at
/// the byte `begin` is at hand.
fn lost_from(piece: &[u8], begin: u64, from: u64) -> Advice {
    let to = match usize::try_from(from.saturating_sub(begin)) {
        Ok(behind) => resumed_in(piece, behind),
        Err(_) => None,
    };
    Advice::LostBytes {
        from,
        to: to.map(|place| begin.saturating_add(place as u64)),
    }
}
