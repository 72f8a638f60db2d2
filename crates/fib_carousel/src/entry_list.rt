//! Lists of entries to be packed.

ghost use Rattle.std.specs.Prelude.{◌≡◌, ◌<◌, ◌≤◌, List, length, slice_get, Some};
ghost use Rattle.mux_types.specs.Facts.{Marked};

use crate::pack_state::EntryShape;
use fib_codec::Fib;

/// A list of entries in the order in which they are packed.
pub(crate) trait EntryList {
    ghost use Rattle.std.specs.Prelude.{List};
    ghost use Rattle.mux_types.specs.Facts.{Marked};
    ghost use Rattle.fib_carousel.specs.declared.pack_state.EntryShape.{EntryShape};
    ghost use Rattle.fib_carousel.specs.Packing.{size_of};
    ghost use Rattle.fib_carousel.specs.Carried.{AreSendable};
    ghost use Rattle.fib_carousel.specs.Walk.{IsShapeAt};
    ghost use Rattle.fib_carousel.specs.Shapes.{TakesRuns, PutsRun};

    ghost entries: { Self → List Marked };

    /// The number of entries.
    fn len(&self) -> u16
        ensures count { result ≡ length (entries self.now) }
        ensures sendable { AreSendable (entries self.now) };

    /// The head and the size of the entry at an index.
    fn shape(&self, index: u16) -> EntryShape
        requires { index < length (entries self.now) }
        ensures value { IsShapeAt (entries self.now) index result }
        ensures some { 1 ≤ result.size }
        ensures small { result.size ≤ 28 };

    /// Appends the entry at an index to a FIB, possibly with entries of the same head and size that
    /// follow it, in at most `room` bytes altogether. Returns the number of entries appended.
    fn put_run(&self, index: u16, room: u8, fib: &mut Fib) -> u8
        requires here { index < length (entries self.now) }
        requires first { (m : Marked) → slice_get (entries self.now) index ≡ Some m
            → size_of m ≤ room }
        requires room { TakesRuns (entries self.now) index room fib.old }
        ensures { (s : EntryShape) → IsShapeAt (entries self.now) index s
            → PutsRun (entries self.now) index s room result fib.old fib.new };
}
