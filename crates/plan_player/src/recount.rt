//! Changing the count of FIG 0/0 in finished frames.

ghost use Rattle.std.specs.Prelude.{◌≡◌, ℕ, ◌*◌, ◌-◌, ◌%◌, ◌<◌, ◌≤◌, List, ◌∷◌, length};
ghost use Rattle.fib_codec.specs.Layouts.{frame_fibs};
ghost use Rattle.fib_codec.specs.Spelling.{checked};
ghost use Rattle.plan_player.specs.Stretch.{AreRecounted};

use crate::count_tables::{high_byte_crc, low_byte_crc};
use crate::machine::{Header, count_later};
use plan_code::Plan;
use plan_code::limits::COUNTS;

/// Replaces the count of the FIG 0/0 at the start of a FIB: its third and fourth byte of data, and
/// the CRC, updated by the contributions of these two.
pub(crate) fn recount(fib: &mut [u8], high: u8, low: u8)
    requires { length fib.old ≡ 32 }
    ensures bytes { (a b c d x y : ℕ) (rest : List ℕ) → length rest ≡ 24
        → fib.old ≡ checked (a ∷ b ∷ c ∷ d ∷ x ∷ y ∷ rest)
        → fib.new ≡ checked (a ∷ b ∷ c ∷ d ∷ high ∷ low ∷ rest) }
    ensures size { length fib.new ≡ length fib.old }
{
    let turned = high_byte_crc(fib[4] ^ high) ^ low_byte_crc(fib[5] ^ low);
    let word = (u16::from(fib[30]) * 256 + u16::from(fib[31])) ^ turned;
    fib[4] = high;
    fib[5] = low;
    fib[30] = (word / 256) as u8;
    fib[31] = (word % 256) as u8;
}

/// The number of frames before the first whose count is a multiple of the step, starting with this
/// count.
fn before_step(step: u16, count: u16) -> u16
    requires { 1 ≤ step }
    ensures { result ≡ (step - count % step) % step }
{
    (step - count % step) % step
}

/// Changes these frames into the ones that are alike but start with this count: the count is
/// replaced in each frame with FIG 0/0.
pub(crate) fn recount_frames(plan: &Plan, header: Header, count: u16, frames: u16, bytes: &mut [u8])
    requires count { count < COUNTS }
    requires change { header.change < 4 }
    requires few { frames ≤ 128 }
    requires size { length bytes.old ≡ frames * (32 * frame_fibs plan.now.layout) }
    ensures frames { AreRecounted plan.now header count frames bytes.old bytes.new }
    ensures size { length bytes.new ≡ length bytes.old }
{
    let size = 32 * plan.layout.fibs();
    let step = plan.layout.mode().step();
    let mut at = before_step(step, count);
    let mut number = count_later(count, at);
    while at < frames {
        let offset = usize::from(at) * size;
        let fib = &mut bytes[offset..offset + 32];
        recount(fib, header.high(number), (number % 250) as u8);
        at += step;
        number = count_later(number, step);
    }
}
