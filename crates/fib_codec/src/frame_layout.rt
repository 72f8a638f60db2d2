//! Which FIBs of a frame carry FIGs, and which are reserved for others.

ghost use Rattle.std.specs.Prelude.{◌≡◌, ◌↔◌, ◌+◌, ◌≤◌, IsSome, IfSome};
ghost use Rattle.fib_codec.specs.Modes.{fib_count};
ghost use Rattle.fib_codec.specs.Layouts.{layout_mode, reserved_fibs, used_fibs, frame_fibs};

use crate::modes::Mode;

/// The division of the FIBs of each frame: those that carry FIGs come first, then the reserved
/// ones, which are empty. At least two FIBs carry FIGs, so one may be reserved, or two in mode III.
#[derive(Clone, Copy, Debug, PartialEq, Eq)]
pub enum FrameLayout {
    /// No FIB is reserved.
    Whole(Mode),
    /// The last FIB is reserved.
    ReserveOne(Mode),
    /// The last two of four FIBs are reserved, in mode III.
    ReserveTwo,
}

impl FrameLayout {
    /// The layout with this number of reserved FIBs: 0, 1, or 2 in mode III. None for another
    /// number.
    pub fn new(mode: Mode, reserve: u8) -> Option<FrameLayout>
        ensures in_range { IsSome result ↔ (reserve + 2 ≤ fib_count mode) }
        ensures mode { IfSome result (λ l. layout_mode l ≡ mode) }
        ensures reserve { IfSome result (λ l. reserved_fibs l ≡ reserve) }
    {
        match reserve {
            0 => Some(FrameLayout::Whole(mode)),
            1 => Some(FrameLayout::ReserveOne(mode)),
            2 => match mode {
                Mode::I => None,
                Mode::II => None,
                Mode::III => Some(FrameLayout::ReserveTwo),
                Mode::IV => None,
            },
            _ => None,
        }
    }

    /// The transmission mode.
    pub fn mode(self) -> Mode
        ensures { result ≡ layout_mode self }
    {
        match self {
            FrameLayout::Whole(mode) => mode,
            FrameLayout::ReserveOne(mode) => mode,
            FrameLayout::ReserveTwo => Mode::III,
        }
    }

    /// The number of reserved FIBs of a frame, 0 to 2.
    pub fn reserve(self) -> u8
        ensures value { result ≡ reserved_fibs self }
        ensures in_range { result ≤ 2 }
    {
        match self {
            FrameLayout::Whole(_) => 0,
            FrameLayout::ReserveOne(_) => 1,
            FrameLayout::ReserveTwo => 2,
        }
    }

    /// The number of FIBs of a frame, reserved or not: 3, or 4 in mode III.
    pub fn fibs(self) -> usize
        ensures value { result ≡ frame_fibs self }
        ensures in_range { (3 ≤ result) × (result ≤ 4) }
    {
        self.mode().fibs()
    }

    /// The number of FIBs of a frame that carry FIGs, 2 to 4: all but the reserved ones.
    pub fn used(self) -> usize
        ensures value { result ≡ used_fibs self }
        ensures rest { result + reserved_fibs self ≡ frame_fibs self }
        ensures in_range { (2 ≤ result) × (result ≤ 4) }
    {
        match self {
            FrameLayout::Whole(mode) => mode.fibs(),
            FrameLayout::ReserveOne(mode) => mode.fibs() - 1,
            FrameLayout::ReserveTwo => 2,
        }
    }
}
