//! Inspecting FIBs before they are heard.

ghost use Rattle.std.specs.Prelude.{◌≡◌, if◌then◌else◌, map};
ghost use Rattle.stream_check.specs.Frames.{Reading, IsSeen, first_raw, first_in, first_in_figs};
ghost use Rattle.stream_check.specs.Frames.{opening_in_figs, first_of_frame};

use arrayvec::ArrayVec;
use fib_reader::{Entries, Figs, check};
use mux_config::Ensemble;
use std::marker::Model;

/// The FIGs of a FIB; None where it is damaged.
pub(crate) fn read(fib: &[u8; 32]) -> Option<Figs<'_>>
    ensures { (r : Reading) → result ≡ r.read fib.now }
{
    match check(fib) {
        Ok(figs) => Some(figs),
        Err(_) => None,
    }
}

/// The first FIG 0/0 of these entries.
fn first_of_entries(mut entries: Entries<'_>) -> Option<Ensemble>
    ensures { result ≡ first_raw entries.entry }
{
    while let Some(entry) = entries.next() {
        if entry.is_ensemble() {
            return Some(entry.ensemble());
        }
    }
    None
}

/// The first FIG 0/0 of these FIGs.
fn first_of_figs(mut figs: Figs<'_>) -> Option<Ensemble>
    ensures { result ≡ first_in_figs figs.entry }
{
    while let Some(fig) = figs.next() {
        if let Some(ensemble) = first_of_entries(fig.entries()) {
            return Some(ensemble);
        }
    }
    None
}

/// The FIG 0/0 at the beginning of these FIGs.
fn opening_of_figs(mut figs: Figs<'_>) -> Option<Ensemble>
    ensures { result ≡ opening_in_figs figs.entry }
{
    match figs.next() {
        Some(fig) => first_of_entries(fig.entries()),
        None => None,
    }
}

/// What is known of one FIB before it is heard.
#[derive(Clone, Copy)]
pub(crate) struct FibSummary {
    /// Whether it is damaged.
    pub(crate) is_damaged: bool,
    /// The FIG 0/0 that it begins with.
    pub(crate) opening: Option<Ensemble>,
}

impl FibSummary {
    ghost use Rattle.std.specs.Prelude.{◌≡◌, ◌&&◌, not};
    ghost use Rattle.stream_check.specs.Frames.{is_there};

    /// Whether the FIB is undamaged, and does not begin with a FIG 0/0.
    fn starts_without_ensemble(&self) -> bool
        ensures { result ≡ (not self.now.is_damaged && not (is_there self.now.opening)) }
    {
        !self.is_damaged && self.opening.is_none()
    }
}

/// Inspects a FIB.
pub(crate) fn summary_of(fib: &[u8; 32]) -> FibSummary
    ensures { (r : Reading) → IsSeen result (r.read fib.now) }
{
    match read(fib) {
        Some(figs) => FibSummary {
            is_damaged: false,
            opening: opening_of_figs(figs),
        },
        None => FibSummary {
            is_damaged: true,
            opening: None,
        },
    }
}

/// The first FIG 0/0 of a FIB.
pub(crate) fn first_of(fib: &[u8; 32]) -> Option<Ensemble>
    ensures { (r : Reading) → result ≡ first_in (r.read fib.now) }
{
    match read(fib) {
        Some(figs) => first_of_figs(figs),
        None => None,
    }
}

/// The first FIG 0/0 of these FIBs.
fn first_of_fibs(fibs: &[[u8; 32]]) -> Option<Ensemble>
    ensures { (r : Reading) → result ≡ first_of_frame (map r.read fibs.now) }
{
    let mut rest = fibs;
    while let Some((fib, after)) = rest.split_first() {
        if let Some(ensemble) = first_of(fib) {
            return Some(ensemble);
        }
        rest = after;
    }
    None
}

/// Selects one of two values.
fn choose<T: Copy>(first: bool, one: T, other: T) -> T
    ensures { result ≡ (if first then one else other) }
{
    if first { one } else { other }
}

/// The FIBs of a frame, with what is known of them before they are heard. In contracts it is the
/// list of FIBs.
#[derive(Drop)]
pub struct FrameFibs {
    fibs: ArrayVec<[u8; 32], 4>,
    damaged: u64,
    opening: Option<Ensemble>,
    starts_without_ensemble: bool,
}

impl Model for FrameFibs {
    ghost use Rattle.std.specs.Prelude.{◌≤◌, ℕ, List, length, map};
    ghost use Rattle.stream_check.specs.Frames.{Reading, AreSeen};

    ghost Value = { List (List ℕ) };

    ghost view = { λ f. f.fibs.items };

    ghost invariant = { λ f. ((r : Reading)
        → AreSeen f.damaged f.opening f.starts_without_ensemble (map r.read f.fibs.items))
        × (f.damaged ≤ length f.fibs.items) };
}

impl FrameFibs {
    ghost use Rattle.std.specs.Prelude.{◌≡◌, ◌≤◌, ◌<◌, ◌++◌, ◌∷◌, [], length, map};
    ghost use Rattle.stream_check.specs.Frames.{Reading, IsSeen, damaged_in, first_of_frame};
    ghost use Rattle.stream_check.specs.Frames.{first_opening, lacks_opening};
    ghost use Rattle.stream_check.specs.Following.{is_empty};

    /// An empty frame.
    pub(crate) fn new() -> FrameFibs
        ensures { result ≡ [] }
    {
        FrameFibs {
            fibs: ArrayVec::new(),
            damaged: 0,
            opening: None,
            starts_without_ensemble: false,
        }
    }

    /// The number of FIBs.
    pub(crate) fn len(&self) -> usize
        ensures value { result ≡ length self.now }
        ensures bound { result ≤ 4 }
    {
        self.fibs.len()
    }

    /// Whether there are no FIBs.
    pub(crate) fn is_empty(&self) -> bool
        ensures { result ≡ is_empty self.now }
    {
        self.fibs.is_empty()
    }

    /// All FIBs, in order.
    pub(crate) fn as_slice(&self) -> &[[u8; 32]]
        ensures { result.now ≡ self.now }
    {
        self.fibs.as_slice()
    }

    /// Appends a FIB, given what is known of it. There must be room for it.
    pub(crate) fn push(&mut self, fib: &[u8; 32], summary: &FibSummary)
        requires room { length self.old < 4 }
        requires seen { (r : Reading) → IsSeen summary.now (r.read fib.now) }
        ensures { self.new ≡ self.old ++ fib.now ∷ [] }
    {
        let is_first = self.is_empty();
        self.opening = choose(is_first, summary.opening, self.opening);
        self.starts_without_ensemble = choose(
            is_first,
            summary.starts_without_ensemble(),
            self.starts_without_ensemble,
        );
        self.damaged += choose(summary.is_damaged, 1, 0);
        self.fibs.push(*fib);
    }

    /// The number of damaged FIBs.
    pub(crate) fn damaged(&self) -> u64
        ensures value { (r : Reading) → result ≡ damaged_in (map r.read self.now) }
        ensures bound { result ≤ length self.now }
    {
        self.damaged
    }

    /// The first FIG 0/0 in the frame.
    pub(crate) fn first(&self) -> Option<Ensemble>
        ensures { (r : Reading) → result ≡ first_of_frame (map r.read self.now) }
    {
        first_of_fibs(self.fibs.as_slice())
    }

    /// The FIG 0/0 that the first FIB begins with.
    pub(crate) fn opening(&self) -> Option<Ensemble>
        ensures { (r : Reading) → result ≡ first_opening (map r.read self.now) }
    {
        self.opening
    }

    /// Whether the first FIB is undamaged, and does not begin with a FIG 0/0.
    pub(crate) fn starts_without_ensemble(&self) -> bool
        ensures { (r : Reading) → result ≡ lacks_opening (map r.read self.now) }
    {
        self.starts_without_ensemble
    }
}
