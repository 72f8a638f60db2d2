//! The number of frames from a commit to its swap.

ghost use Rattle.std.specs.Prelude.{◌≡◌, ◌≤◌, ◌<◌};
ghost use Rattle.plan_code.specs.Machine.{left_in, left_at};

use plan_code::limits::COUNTS;

/// The number of frames from this CIF count, at least `least`, to the first frame whose count is a
/// multiple of the step, 1 to 4.
pub(crate) fn left_in(step: u16, count: u16, least: u16) -> u16
    requires step { (1 ≤ step) × (step ≤ 4) }
    requires delay { least ≤ 60000 }
    ensures { result ≡ left_in step count least }
{
    let past = u32::from(count) + u32::from(least) + u32::from(step - 1);
    let over = (past % u32::from(step)) as u16;
    least + (step - 1 - over)
}

/// The number of frames from this CIF count, at least `least`, to the first frame whose count is
/// `at`, 0 to 4999.
pub(crate) fn left_at(count: u16, least: u8, at: u16) -> u16
    requires { at < COUNTS }
    ensures { result ≡ left_at count least at }
{
    let counts = u32::from(COUNTS);
    let first = (u32::from(count) + u32::from(least)) % counts;
    let more = (u32::from(at) + counts - first) % counts;
    u16::from(least) + more as u16
}
