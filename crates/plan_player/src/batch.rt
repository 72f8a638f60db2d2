//! A buffer of frames that go to a sink together.

ghost use Rattle.std.specs.Prelude.{◌≡◌, ℕ, List, ◌+◌, ◌*◌, ◌<◌, ◌≤◌, ◌++◌, length, take, drop};
ghost use Rattle.fib_codec.specs.Layouts.{frame_fibs};
ghost use Rattle.plan_player.specs.Stretch.{AreRecounted};

use crate::bytes::Bytes;
use crate::machine::Header;
use crate::recount::recount_frames;
use plan_code::Plan;
use plan_code::limits::COUNTS;

/// The size of a batch in bytes.
const SIZE: usize = 16_384;

/// The maximum number of frames in a batch; they fit in every mode.
pub(crate) const MOST_FRAMES: u16 = 128;

/// The bytes of up to 128 frames, one after another.
pub(crate) type Batch = Bytes<SIZE>;

/// Copies the first `len` bytes to an offset.
fn copy_front(bytes: &mut [u8], len: usize, offset: usize)
    requires before { len ≤ offset }
    requires within { offset + len ≤ length bytes.old }
    ensures { bytes.new ≡ take offset bytes.old
        ++ (take len bytes.old ++ drop (offset + len) bytes.old) }
{
    let (front, behind) = bytes.split_at_mut(offset);
    behind[..len].copy_from_slice(&front[..len]);
}

impl Bytes<SIZE> {
    /// Appends this many frames, starting with this count, for which there has to be room: copies
    /// of its first frames that differ in the count alone.
    pub(crate) fn repeat(&mut self, plan: &Plan, header: Header, count: u16, frames: u16)
        requires count { count < COUNTS }
        requires change { header.change < 4 }
        requires few { frames ≤ 128 }
        requires there { frames * (32 * frame_fibs plan.now.layout) ≤ length self.old }
        requires room { length self.old + frames * (32 * frame_fibs plan.now.layout) ≤ 16384 }
        ensures { (text : List ℕ) × (self.new ≡ self.old ++ text)
            × AreRecounted plan.now header count frames
            (take (frames * (32 * frame_fibs plan.now.layout)) self.old) text }
    {
        let offset = self.len;
        let len = usize::from(frames) * (32 * plan.layout.fibs());
        copy_front(&mut self.bytes, len, offset);
        let copy = &mut self.bytes[offset..offset + len];
        recount_frames(plan, header, count, frames, copy);
        self.len += len;
    }
}
