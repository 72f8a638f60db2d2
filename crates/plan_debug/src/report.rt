//! The report of a debugger after each command.

use fib_codec::FibFrame;

/// The player's state after a command, and what the command played.
#[derive(Clone, Copy, Debug, PartialEq, Eq)]
pub struct Report {
    /// The frames that this command played.
    pub frames: u32,
    /// The number of instructions that the player's last frame executed; 0 before its first frame.
    pub steps: u8,
    /// The index of the next instruction, counted from 0.
    pub pc: u16,
    /// The source line of that instruction.
    pub line: u16,
    /// The CIF count of the next frame, 0 to 4999.
    pub count: u16,
    /// The frames until the swap; `None` if none is pending.
    pub remaining: Option<u16>,
    /// Whether the break line was reached by the last frame of this command, a `Run`.
    pub broke: bool,
    /// The FIBs of the last frame that this command played; `None` if it played none.
    pub fibs: Option<FibFrame>,
}
