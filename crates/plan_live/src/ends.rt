//! The three streams of a live run, as traits: lines in, bytes out, and messages.

ghost use Rattle.std.specs.Prelude.{◌≡◌, ◌<◌, ◌≤◌, ℕ, List, ◌∷◌, [], length, true, OnOk};
ghost use Rattle.std.specs.Io.KnownBytes.{Appends, Keeps, IsAtEnd};
ghost use Rattle.console.specs.Lines.{GivesLine};
ghost use Rattle.console.specs.declared.lines.Heard.TheVariants.{Line as IsLine, Long as IsLong};
ghost use Rattle.console.specs.declared.lines.Heard.TheVariants.{End as IsEnd};
ghost use Rattle.plan_live.specs.Growing.{Grows};
ghost use Rattle.plan_live.specs.Living.{streamed};

use crate::message::Message;
use arrayvec::ArrayVec;
use console::lines::Heard;

/// A message sink, which holds some messages, at least four. A message that can't be delivered is
/// lost.
pub trait Messages {
    /// Whether four more messages can be held, the most of a frame.
    fn has_room(&self) -> bool;

    /// Holds a message until the next release. It is lost if there is no room.
    fn report(&mut self, message: Message);

    /// Delivers all messages held, in order.
    fn release(&mut self);
}

/// The three streams of a live run: an input of lines, an output of bytes, and a sink of messages.
/// Messages are held, and neither are they delivered nor is a line read before the output is
/// flushed.
pub trait Ends {
    ghost use Rattle.std.specs.Prelude.{ℕ, List, Option, Bool};
    ghost use Rattle.plan_live.specs.Living.{Streamed};

    /// The remaining bytes of the input, if known.
    ghost left: { Self → Option (List ℕ) };

    /// The bytes that the output has taken, if known.
    ghost written: { Self → Option (List ℕ) };

    /// Whether the output is flushed.
    ghost is_flushed: { Self → Bool };

    /// The remaining and the written bytes at each request for a line, if known.
    ghost moments: { Self → Option (List Streamed) };

    /// Delivers all messages held; then reads up to the next line feed and no byte further, and
    /// puts the line, without its line feed, into `line`. With any result but `Line` the content of
    /// `line` is unspecified.
    fn next(&mut self, line: &mut ArrayVec<u8, 65536>) -> Heard
        requires flushed { is_flushed self.old ≡ true }
        ensures line { result ≡ IsLine → GivesLine (left self.old) line.new.items (left self.new) }
        ensures bound { result ≡ IsLine → length line.new.items ≤ 65536 }
        ensures long { result ≡ IsLong → (line : List ℕ) × (65536 < length line)
            × GivesLine (left self.old) line (left self.new) }
        ensures end { result ≡ IsEnd
            → Keeps (left self.old) (left self.new) × IsAtEnd (left self.new) }
        ensures moments { Grows (moments self.old) (moments self.new)
            (streamed (left self.old) (written self.old) ∷ []) }
        ensures flushed { is_flushed self.new ≡ true }
        ensures written { written self.new ≡ written self.old };

    /// Writes these bytes. `Err`: the output failed after this many of them, fewer than all.
    fn write(&mut self, bytes: &[u8]) -> Result<(), usize>
        ensures all { OnOk result (Appends (written self.old) (written self.new) bytes.now) }
        ensures moments { moments self.new ≡ moments self.old }
        ensures left { left self.new ≡ left self.old };

    /// Flushes the output, and returns whether that succeeded.
    fn flush(&mut self) -> bool
        ensures flushed { result ≡ true → is_flushed self.new ≡ true }
        ensures written { Keeps (written self.old) (written self.new) }
        ensures moments { moments self.new ≡ moments self.old }
        ensures left { left self.new ≡ left self.old };

    /// Whether four more messages can be held, the most of a frame.
    fn has_room(&self) -> bool;

    /// Holds a message until the next release. It is lost if there is no room.
    fn report(&mut self, message: Message)
        ensures moments { moments self.new ≡ moments self.old }
        ensures flushed { is_flushed self.new ≡ is_flushed self.old }
        ensures written { written self.new ≡ written self.old }
        ensures left { left self.new ≡ left self.old };

    /// Delivers all messages held, in order.
    fn release(&mut self)
        requires flushed { is_flushed self.old ≡ true }
        ensures moments { moments self.new ≡ moments self.old }
        ensures written { written self.new ≡ written self.old }
        ensures left { left self.new ≡ left self.old };
}
