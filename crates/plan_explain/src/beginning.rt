//! Codes that wait for a time of day first.

ghost use Rattle.std.specs.Prelude.{◌≡◌};
ghost use Rattle.plan_explain.specs.Beginnings.{first_wait};

use plan_code::{DayFrame, Instr, Line};

/// An `until` before anything else: the plan shows its opening until then, at whatever time of day
/// it starts.
#[derive(Clone, Copy, PartialEq, Eq)]
pub struct FirstWait {
    /// The line of the script.
    pub line: u16,
    /// The frame of the day.
    pub frame: DayFrame,
}

/// The wait for a time of day before anything is seen of a code in a frame, if there is one.
pub(crate) fn first_wait(lines: &[Line]) -> Option<FirstWait>
    ensures { result ≡ first_wait lines.now }
{
    for line in lines {
        match line.instr {
            Instr::Edit(_) => {}
            Instr::Set { .. } => {}
            Instr::Until(frame) => return Some(FirstWait {
                line: line.number,
                frame,
            }),
            _ => return None,
        }
    }
    None
}
