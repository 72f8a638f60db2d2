//! Takes FIGs from one multiplex, and fills the FIBs of another with them.

ghost use Rattle.std.specs.Prelude.{◌≡◌, ◌+◌, ◌≤◌, length};
ghost use Rattle.fig_merge.specs.Taking.{is_left_out, limited};
ghost use Rattle.fig_merge.specs.Filling.{data_of};

use crate::queue::Queue;
use crate::sealing::end_fib;
use fib_codec::bytes::byte_at;
use fib_reader::{Fig, Figs, Listener, check};
use std::marker::Model;

/// The FIGs of a multiplexer that wait to be carried in the FIBs of a plan, at most 256, and
/// counts; and what was heard of the plan. It does not allocate.
#[derive(Drop)]
pub struct Merger {
    queue: Queue,
    carried: u64,
    dropped: u64,
    stale: u64,
    damaged: u64,
    listener: Listener,
}

impl Model for Merger {
    ghost use Rattle.fig_merge.specs.Taking.{Merging, IsMerging};

    ghost Value = { Merging };

    ghost view = { λ m. record {
      waiting = m.queue;
      carried = m.carried;
      dropped = m.dropped;
      stale = m.stale;
      damaged = m.damaged;
      heard = m.listener;
    } };

    ghost invariant = { λ m. IsMerging (record {
      waiting = m.queue;
      carried = m.carried;
      dropped = m.dropped;
      stale = m.stale;
      damaged = m.damaged;
      heard = m.listener;
    }) };
}

/// The extension of FIG 0/7.
const CONFIGURATION: u8 = 7;

/// Whether a FIG is left out: FIG 0/0 to 0/3 or 0/7 of this ensemble.
fn is_left_out(fig: &Fig<'_>) -> bool
    ensures { result ≡ is_left_out fig.now }
{
    if fig.head().is_some() {
        return true;
    }
    let bytes = fig.bytes();
    let second = byte_at(bytes, 1);
    byte_at(bytes, 0) < 32 && (second >> 6) & 1 == 0 && second % 32 == CONFIGURATION
}

/// The number of data bytes of FIGs.
fn data_len(mut figs: Figs<'_>) -> usize
    requires { length (data_of figs) ≤ 30 }
    ensures { result ≡ length (data_of figs.entry) }
{
    let mut len = 0;
    while let Some(fig) = figs.next() {
        len += fig.bytes().len();
    }
    len
}

/// The sum, or the greatest `u64`.
fn sum(count: u64, more: u64) -> u64
    ensures { result ≡ limited (count + more) }
{
    count.saturating_add(more)
}

impl Merger {
    ghost use Rattle.std.specs.Prelude.{◌≡◌, ◌++◌, List, ℕ, length, map};
    ghost use Rattle.fib_codec.specs.Grammar as grammar;
    ghost use Rattle.std.specs.List.{AllByRecursion};
    ghost use Rattle.stream_check.specs.Frames.{Reading};
    ghost use Rattle.fig_merge.specs.Taking.{nothing_taken, with_fig, with_figs, with_damaged};
    ghost use Rattle.fig_merge.specs.Taking.{taken_of, after_take, IsPassedOver, IsSendable};
    ghost use Rattle.fig_merge.specs.Filling.{agrees_with, merged, after_fill, carried_in, room_of};

    /// A merger that has taken nothing.
    pub fn new() -> Merger
        ensures { result ≡ nothing_taken }
    {
        Merger {
            queue: Queue::new(),
            carried: 0,
            dropped: 0,
            stale: 0,
            damaged: 0,
            listener: Listener::new(),
        }
    }

    /// The number of FIGs that were carried.
    pub fn carried(&self) -> u64
        ensures { result ≡ self.now.carried }
    {
        self.carried
    }

    /// The number of FIGs that wait, at most 256.
    pub fn waiting(&self) -> usize
        ensures { result ≡ length self.now.waiting }
    {
        self.queue.len()
    }

    /// The number of FIGs that were dropped, since 256 others waited.
    pub fn dropped(&self) -> u64
        ensures { result ≡ self.now.dropped }
    {
        self.dropped
    }

    /// The number of FIGs that did not agree with the plan's configuration when their turn came.
    pub fn stale(&self) -> u64
        ensures { result ≡ self.now.stale }
    {
        self.stale
    }

    /// The number of damaged FIBs, of both multiplexes.
    pub fn damaged(&self) -> u64
        ensures { result ≡ self.now.damaged }
    {
        self.damaged
    }

    /// Takes the FIGs of a FIB of the multiplexer, in order, but for FIG 0/0 to 0/3 and 0/7 of this
    /// ensemble. Each waits, unless one with the same bytes waits already; where 256 wait, it is
    /// dropped, and counted. A damaged FIB gives none, and is counted.
    pub fn take(&mut self, fib: &[u8; 32])
        ensures { (r : Reading) → self.new ≡ after_take (r.read fib.now) self.old }
    {
        match check(fib) {
            Ok(figs) => self.take_figs(figs),
            Err(_) => self.note_damaged(),
        }
    }

    /// Takes FIGs in order.
    fn take_figs(&mut self, mut figs: Figs<'_>)
        requires { AllByRecursion IsSendable figs }
        ensures { self.new ≡ with_figs (taken_of figs.entry) self.old }
    {
        while let Some(fig) = figs.next() {
            if !is_left_out(&fig) {
                self.take_fig(fig.bytes());
            }
        }
    }

    /// Takes a FIG.
    fn take_fig(&mut self, fig: &[u8])
        requires { IsPassedOver fig.now }
        ensures { self.new ≡ with_fig fig.now self.old }
    {
        if self.queue.has(fig) {
            return;
        }
        if self.queue.is_full() {
            self.dropped = sum(self.dropped, 1);
        } else {
            self.queue.push(fig);
        }
    }

    /// Counts a damaged FIB.
    fn note_damaged(&mut self)
        ensures { self.new ≡ with_damaged self.old }
    {
        self.damaged = sum(self.damaged, 1);
    }

    /// Appends FIGs that wait to those of a FIB of the plan: as long as one of them fits into what
    /// is left of the thirty data bytes, the turn of the one that has waited longest of those that
    /// fit comes. It is carried if it agrees with the current configuration, as far as it was heard
    /// in the plan's FIBs up to and with this one; else it is let go, and counted. A damaged FIB
    /// stays as it is, and is counted.
    pub fn fill(&mut self, fib: &mut [u8; 32])
        ensures merger { (r : Reading) → self.new ≡ after_fill (r.read fib.old) self.old }
        ensures bytes { (r : Reading) → fib.new ≡ merged fib.old (r.read fib.old) self.old }
        ensures figs { (figs : List grammar.Fig) → grammar.IsFib fib.old figs
            → grammar.IsFib fib.new (figs ++ map grammar.Other
            (carried_in (agrees_with figs self.old.heard) (room_of figs) self.old.waiting)) }
    {
        let used = match check(fib) {
            Ok(figs) => data_len(figs),
            Err(_) => {
                self.note_damaged();
                return;
            }
        };
        // A FIB for which a listener has no room says nothing.
        let _ = self.listener.hear(fib);
        let load = self.queue.carry(fib, used, self.listener.current());
        end_fib(fib, load.used);
        self.carried = sum(self.carried, load.figs);
        self.stale = sum(self.stale, load.stale);
    }
}
