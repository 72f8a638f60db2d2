//! What a code declares at the target of a jump.

ghost use Rattle.std.specs.Prelude.{◌↔◌, IsTrue};

use crate::flags::Counters;

/// What a label declares of the swap from its current configuration to its next one.
#[derive(Clone, Copy, Debug, PartialEq, Eq)]
pub enum Swap {
    /// No swap is pending.
    Idle,
    /// A swap is pending and falls after at least and at most this many frames; the least is 1 or
    /// more, and not above the greatest.
    Within(u16, u16),
    /// A swap is pending and falls after at most this many frames, 1 or more; or it has been made,
    /// and the label's next configuration is the current one.
    Perhaps(u16),
}

impl Swap {
    ghost use Rattle.plan_code.specs.Program.{AreBounds};

    /// Whether its bounds are within their limits: the least is 1 or more, and not above the
    /// greatest.
    pub fn is_within_limits(&self) -> bool
        ensures { IsTrue result ↔ AreBounds self.now }
    {
        match *self {
            Swap::Idle => true,
            Swap::Within(low, high) => 1 <= low && low <= high,
            Swap::Perhaps(high) => 1 <= high,
        }
    }
}

/// A label: what holds whenever the machine reaches this instruction.
#[derive(Clone, Copy, Debug, PartialEq, Eq)]
pub struct Label {
    /// The index of the instruction in the code, from 0.
    pub pc: u16,
    /// The current configuration, by its index in the table of configurations.
    pub cur: u16,
    /// The next configuration, by its index in the table.
    pub next: u16,
    /// Whether a swap is pending, and when it falls.
    pub pending: Swap,
    /// Counters that are set; others may be set too.
    pub counters: Counters,
    /// How many instructions may at least still run in this frame, 1 to 255 in a code.
    pub cost: u8,
}

impl Label {
    ghost use Rattle.plan_code.specs.Program.{IsLabel};

    /// Whether each field is within its limits, where the table has this many configurations.
    pub fn is_within_limits(&self, configs: usize) -> bool
        ensures { IsTrue result ↔ IsLabel configs self.now }
    {
        let has_configs = usize::from(self.cur) < configs && usize::from(self.next) < configs;
        // Read for the proof: a value's invariant is known where the value is read.
        let _pc = self.pc;
        let _counters = self.counters.0;
        has_configs && self.pending.is_within_limits() && 1 <= self.cost
    }
}
