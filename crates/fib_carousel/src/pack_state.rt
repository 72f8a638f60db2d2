//! The progress of the packing.

ghost use Rattle.std.specs.Prelude.{◌≡◌, ◌↔◌, ◌+◌, ◌*◌, ◌<◌, ◌≤◌, ◌^◌, IsTrue, IfSome, Some, None};
ghost use Rattle.mux_types.specs.Facts.{Marked};
ghost use Rattle.fib_codec.specs.Spelling.{head_of};
ghost use Rattle.fib_carousel.specs.Packing.{cost, room, same_head, size_of};
ghost use Rattle.fib_carousel.specs.Greedy.{start, placed};
ghost use Rattle.fib_carousel.specs.Runs.{shape_cost, step, steps, closed, IsThenWithin};
ghost use Rattle.fib_carousel.specs.Runs.{IsPlacedAfter};

use fib_codec::{FrameLayout, Head};

/// The most bytes that FIGs may take in a FIB.
pub(crate) const MOST_USED: u8 = 30;

/// The most bytes that the FIGs of entries may take in the first FIB of a page.
pub(crate) const FIRST_ROOM: u8 = 23;

/// What the packing needs to know about an entry: the head of its FIG, and its size.
#[derive(Clone, Copy)]
pub(crate) struct EntryShape {
    /// The head of its FIG.
    pub head: Head,
    /// Its size in bytes.
    pub size: u8,
}

/// Where the previous entry was placed: the number of its FIB in the sequence of pages, the bytes
/// of that FIB taken so far, and the head of its FIG.
#[derive(Clone, Copy, Debug, PartialEq, Eq)]
pub(crate) struct PackState {
    /// The number of the FIB, from 0.
    pub fib: usize,
    /// The bytes taken by the FIGs of this FIB so far, not counting FIG 0/0: at most 30.
    pub used: u8,
    /// The head of the last FIG; None before the first entry and after the FIB is closed.
    pub head: Option<Head>,
}

/// The progress through the list: the index of the next entry, and where the previous one was
/// placed.
#[derive(Clone, Copy, Debug, PartialEq, Eq)]
pub(crate) struct Position {
    /// The index of the next entry, from 0.
    pub index: u16,
    /// Where the previous entry was placed.
    pub state: PackState,
}

/// The bytes that the FIGs of entries may take in a FIB of the sequence. The first FIB of a page
/// reserves 7 bytes for FIG 0/0, even if none is sent.
fn room(layout: FrameLayout, fib: usize) -> u8
    ensures value { result ≡ room layout fib }
    ensures bound { result ≤ 30 }
{
    let is_first = match layout.used() {
        2 => fib % 2 == 0,
        3 => fib % 3 == 0,
        _ => fib % 4 == 0,
    };
    if is_first { FIRST_ROOM } else { MOST_USED }
}

/// Whether two entries can share a FIG.
pub(crate) fn same_head(one: Head, other: Head) -> bool
    ensures { result ≡ same_head one other }
{
    one.next == other.next && one.oe == other.oe && one.long == other.long && one.ext == other.ext
}

/// Whether two entries have the same head and size.
pub(crate) fn is_same_shape(one: EntryShape, other: EntryShape) -> bool
    ensures { IsTrue result ↔ (one ≡ other) }
{
    same_head(one.head, other.head) && one.size == other.size
}

/// The state in FIB `number` with `used` bytes taken and this head of its last FIG; None if they
/// exceed the room of that FIB, `known`.
#[inline(always)]
fn state_within(number: usize, used: u8, head: Head, known: u8) -> Option<PackState>
    ensures within { IfSome result (λ q. (used ≤ known)
        × (q ≡ record { fib = number; used = used; head = Some head })) }
    ensures over { result ≡ None → known < used }
{
    if used > known {
        return None;
    }
    let head = Some(head);
    Some(PackState {
        fib: number,
        used,
        head,
    })
}

impl PackState {
    /// The state before the first entry.
    pub(crate) fn start() -> PackState
        ensures { result ≡ start }
    {
        PackState {
            fib: 0,
            used: 0,
            head: None,
        }
    }

    /// The bytes that an entry takes after the previous one in the same FIB.
    pub(crate) fn cost(self, shape: EntryShape) -> u8
        requires { shape.size ≤ 28 }
        ensures value { (m : Marked)
            → shape.head ≡ head_of m → shape.size ≡ size_of m → result ≡ cost self.head m }
        ensures shape { result ≡ shape_cost self.head shape }
        ensures bound { result ≤ 30 }
    {
        match self.head {
            Some(head) => {
                if same_head(head, shape.head) {
                    shape.size
                } else {
                    2 + shape.size
                }
            }
            None => 2 + shape.size,
        }
    }

    /// The state after placing the next entry: in the same FIB if it fits, else in the next FIB in
    /// which it fits.
    pub(crate) fn then(self, layout: FrameLayout, shape: EntryShape) -> PackState
        requires small { shape.size ≤ 28 }
        requires used { self.used ≤ 30 }
        requires fib { self.fib < 2 ^ 32 }
        ensures value { (m : Marked)
            → shape.head ≡ head_of m → shape.size ≡ size_of m → result ≡ placed layout m self }
        ensures step { result ≡ step layout shape self }
        ensures used { result.used ≤ 30 }
        ensures from { self.fib ≤ result.fib }
        ensures to { result.fib ≤ self.fib + 2 }
    {
        let used = self.used + self.cost(shape);
        if used <= room(layout, self.fib) {
            return PackState {
                fib: self.fib,
                used,
                head: Some(shape.head),
            };
        }
        let fib = if 2 + shape.size <= room(layout, self.fib + 1) {
            self.fib + 1
        } else {
            self.fib + 2
        };
        PackState {
            fib,
            used: 2 + shape.size,
            head: Some(shape.head),
        }
    }

    /// The state after placing the next entry, as [`PackState::then`] gives it; None if that is
    /// past FIB `number`.
    #[inline(never)]
    fn then_from_before(
        &self,
        layout: FrameLayout,
        shape: EntryShape,
        number: usize,
    ) -> Option<PackState>
        requires small { shape.size ≤ 28 }
        requires used { self.now.used ≤ 30 }
        requires fib { self.now.fib < 2 ^ 32 }
        ensures within { IfSome result (λ q. IsThenWithin layout shape number self.now q) }
        ensures behind { result ≡ None → IsPlacedAfter layout shape number self.now }
    {
        let state = self.then(layout, shape);
        if state.fib > number {
            return None;
        }
        Some(state)
    }

    /// The state after placing the next entry, as [`PackState::then`] gives it; None if that is
    /// past FIB `number`. The room of that FIB is passed in, so that it is not computed again for
    /// each entry; if the previous FIB was closed, no other room is needed.
    #[inline(always)]
    pub(crate) fn then_within(
        &self,
        layout: FrameLayout,
        shape: EntryShape,
        number: usize,
        known: u8,
    ) -> Option<PackState>
        requires some { 1 ≤ shape.size }
        requires small { shape.size ≤ 28 }
        requires used { self.now.used ≤ 30 }
        requires fib { self.now.fib < 2 ^ 32 }
        requires known { known ≡ room layout number }
        ensures within { IfSome result (λ q. IsThenWithin layout shape number self.now q) }
        ensures behind { result ≡ None → IsPlacedAfter layout shape number self.now }
    {
        if self.fib == number {
            return state_within(number, self.used + self.cost(shape), shape.head, known);
        }
        if self.used == MOST_USED {
            if self.fib + 1 == number {
                return state_within(number, 2 + shape.size, shape.head, known);
            }
        }
        self.then_from_before(layout, shape, number)
    }

    /// The state with its FIB closed: the next entry starts a later FIB, as it does if this one has
    /// no room for it.
    fn closed(self) -> PackState
        ensures { result ≡ closed self }
    {
        PackState {
            fib: self.fib,
            used: MOST_USED,
            head: None,
        }
    }

    /// The state after placing this many entries of one shape, as many to a FIB as fit. Such an
    /// entry fits in every FIB.
    pub(crate) fn run(self, layout: FrameLayout, shape: EntryShape, count: usize) -> PackState
        requires some { 1 ≤ shape.size }
        requires small { shape.size ≤ 21 }
        requires used { self.used ≤ 30 }
        requires fib { self.fib + 2 * count < 2 ^ 32 }
        ensures value { result ≡ steps layout shape count self }
        ensures used { result.used ≤ 30 }
        ensures to { result.fib ≤ self.fib + 2 * count }
    {
        if count == 0 {
            return self;
        }
        let mut state = self.then(layout, shape);
        let mut left = count - 1;
        while left > 0 {
            let fit = usize::from((room(layout, state.fib) - state.used) / shape.size);
            if left <= fit {
                let used = state.used + left as u8 * shape.size;
                return PackState { used, ..state };
            }
            left = left - fit - 1;
            state = PackState {
                fib: state.fib + 1,
                used: 2 + shape.size,
                head: state.head,
            };
        }
        state
    }
}

impl Position {
    /// The position before the first entry.
    pub(crate) fn start() -> Position
        ensures index { result.index ≡ 0 }
        ensures state { result.state ≡ start }
    {
        Position {
            index: 0,
            state: PackState::start(),
        }
    }

    /// Closes the FIB of the previous entry.
    pub(crate) fn close(&mut self)
        ensures { self.new ≡ record { index = self.old.index; state = closed self.old.state } }
    {
        self.state = self.state.closed();
    }
}
