//! The FIGs that wait to be carried.

ghost use Rattle.std.specs.Prelude.{◌≡◌};

use crate::sealing::write_at;
use crate::stored_fig::StoredFig;
use arrayvec::ArrayVec;
use fib_reader::Picture;
use fig_mentions::agrees;
use std::marker::Model;

/// The most FIGs that wait.
const MOST: usize = 256;

/// At most 256 FIGs, the one that has waited longest first. Contracts see the list of their bytes.
#[derive(Drop)]
pub(crate) struct Queue {
    figs: ArrayVec<StoredFig, MOST>,
}

impl Model for Queue {
    ghost use Rattle.std.specs.Prelude.{List, ℕ};

    ghost Value = { List (List ℕ) };

    ghost view = { λ q. q.figs.items };
}

/// What was carried in a FIB.
#[derive(Clone, Copy)]
pub(crate) struct Carried {
    /// The number of data bytes of the FIB, with those of the FIGs that are carried.
    pub(crate) used: usize,
    /// The number of FIGs that are carried.
    pub(crate) figs: u64,
    /// The number of FIGs whose turn came, and that do not agree.
    pub(crate) stale: u64,
}

impl Queue {
    ghost use Rattle.std.specs.Prelude.{◌≡◌, ◌-◌, ◌<◌, ◌≤◌, ◌++◌, ◌∷◌, [], true, false, length};
    ghost use Rattle.std.specs.Prelude.{take};
    ghost use Rattle.std.specs.List.{concat};
    ghost use Rattle.fig_merge.specs.Taking.{most, waits};
    ghost use Rattle.fig_mentions.specs.Agreeing.{fig_agrees};
    ghost use Rattle.fig_merge.specs.Filling.{carried_in, left_waiting, stale_in};

    /// No FIG.
    pub(crate) fn new() -> Queue
        ensures { result ≡ [] }
    {
        Queue {
            figs: ArrayVec::new(),
        }
    }

    /// The number of FIGs.
    pub(crate) fn len(&self) -> usize
        ensures value { result ≡ length self.now }
        ensures bound { result ≤ most }
    {
        self.figs.len()
    }

    /// Whether 256 FIGs wait.
    pub(crate) fn is_full(&self) -> bool
        ensures full { result ≡ true → length self.now ≡ most }
        ensures room { result ≡ false → length self.now < most }
    {
        self.figs.is_full()
    }

    /// Whether a FIG with these bytes waits.
    pub(crate) fn has(&self, fig: &[u8]) -> bool
        ensures { result ≡ waits fig.now self.now }
    {
        for waiting in self.figs.as_slice() {
            if waiting.is(fig) {
                return true;
            }
        }
        false
    }

    /// Appends a FIG.
    pub(crate) fn push(&mut self, fig: &[u8])
        requires fits { length fig.now ≤ 30 }
        requires room { length self.old < most }
        ensures { self.new ≡ self.old ++ fig.now ∷ [] }
    {
        self.figs.push(StoredFig::of(fig));
    }

    /// Moves FIGs into a FIB, behind its first `front` data bytes: from the one that has waited
    /// longest on, each that fits into what is left of the thirty data bytes, and agrees with a
    /// configuration. One that fits and does not agree is let go.
    pub(crate) fn carry(&mut self, fib: &mut [u8], front: usize, current: &Picture) -> Carried
        requires whole { length fib.old ≡ 32 }
        requires within { front ≤ 30 }
        ensures data { take result.used fib.new ≡ take front fib.old
            ++ concat (carried_in (fig_agrees current.now) (30 - front) self.old) }
        ensures whole { length fib.new ≡ 32 }
        ensures within { result.used ≤ 30 }
        ensures left { self.new ≡ left_waiting (fig_agrees current.now) (30 - front) self.old }
        ensures count { result.figs
            ≡ length (carried_in (fig_agrees current.now) (30 - front) self.old) }
        ensures stale { result.stale
            ≡ length (stale_in (fig_agrees current.now) (30 - front) self.old) }
    {
        let mut used = front;
        let mut figs = 0;
        let mut stale = 0;
        let mut at = 0;
        for _ in 0..self.figs.len() {
            if self.figs[at].len() > 30 - used {
                at += 1;
            } else {
                let fig = self.figs.remove(at);
                if agrees(fig.as_slice(), current) {
                    write_at(fib, used, fig.as_slice());
                    used += fig.len();
                    figs += 1;
                } else {
                    stale += 1;
                }
            }
        }
        Carried { used, figs, stale }
    }
}
