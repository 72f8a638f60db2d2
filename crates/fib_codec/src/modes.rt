//! Transmission modes: how many FIBs a frame has, and at which CIF counts FIG 0/0 is sent and swaps
//! are made.

ghost use Rattle.std.specs.Prelude.{◌≡◌, ◌≤◌};
ghost use Rattle.fib_codec.specs.Modes.{fib_count, count_step};
ghost use Rattle.fib_codec.specs.declared.modes.Mode.TheVariants.{I};

/// A transmission mode of DAB (EN 300 401 clauses 5.1 and 6.4).
#[derive(Clone, Copy, Debug, PartialEq, Eq)]
pub enum Mode {
    /// Four CIFs and twelve FIBs in 96 ms.
    I,
    /// One CIF and three FIBs in 24 ms.
    II,
    /// One CIF and four FIBs in 24 ms.
    III,
    /// Two CIFs and six FIBs in 48 ms.
    IV,
}

impl Default for Mode {
    ghost is_default = { λ m. m ≡ I };

    /// Mode I, which is used in Band III.
    fn default() -> Self {
        Mode::I
    }
}

impl Mode {
    /// The number of FIBs of one CIF, and so of one frame of 24 ms: 3, or 4 in mode III.
    pub fn fibs(self) -> usize
        ensures value { result ≡ fib_count self }
        ensures in_range { (3 ≤ result) × (result ≤ 4) }
    {
        match self {
            Mode::I => 3,
            Mode::II => 3,
            Mode::III => 4,
            Mode::IV => 3,
        }
    }

    /// The step of the CIF counts at which FIG 0/0 is sent and a reconfiguration is made: the
    /// multiples of the step, which are the counts of the first CIFs of the mode's own frames. 4,
    /// 1, 1 and 2.
    pub fn step(self) -> u16
        ensures value { result ≡ count_step self }
        ensures in_range { (1 ≤ result) × (result ≤ 4) }
    {
        match self {
            Mode::I => 4,
            Mode::II => 1,
            Mode::III => 1,
            Mode::IV => 2,
        }
    }
}
