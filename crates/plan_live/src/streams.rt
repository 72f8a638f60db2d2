//! The three streams over a reader, a writer and a sink of messages.

ghost use Rattle.std.specs.Prelude.{◌≡◌};

use crate::ends::{Ends, Messages};
use crate::message::Message;
use arrayvec::ArrayVec;
use console::lines::{Heard, Lines};
use console::output::write_out;
use std::io::{Read, Write};

/// The lines of a reader, a writer that is flushed, and a message sink. A write that fails, takes
/// nothing or is interrupted is not retried. What the message sink holds is delivered before a line
/// is read. What is known of the reader and of the writer is known of the streams.
#[derive(Drop)]
pub struct Streams<R: Read + Drop, W, M> {
    lines: Lines<R>,
    out: W,
    messages: M,
    is_flushed: bool,
}

impl<R: Read + Drop, W: Write, M: Messages> Streams<R, W, M> {
    ghost use Rattle.std.specs.Prelude.{◌≡◌, true};
    ghost use Rattle.plan_live.specs.Streaming.{writer_of};

    /// The streams, with nothing written so far.
    pub fn new(reader: R, out: W, messages: M) -> Self
        ensures left { result.lines ≡ R.remaining reader }
        ensures writer { writer_of result ≡ out }
        ensures flushed { result.is_flushed ≡ true }
    {
        Streams {
            lines: Lines::new(reader),
            out,
            messages,
            is_flushed: true,
        }
    }

    /// The writer, and the message sink with what it holds still. The reader is dropped.
    pub fn into_parts(self) -> (W, M)
        ensures writer { result.0 ≡ writer_of self }
    {
        let Streams {
            lines: _,
            out,
            messages,
            is_flushed: _,
        } = self;
        (out, messages)
    }
}

impl<R: Read + Drop, W: Write, M: Messages> Ends for Streams<R, W, M> {
    ghost use Rattle.std.specs.Prelude.{None};
    ghost use Rattle.plan_live.specs.Streaming.{writer_of};

    ghost left = { λ s. s.lines };

    ghost written = { λ s. W.contents (writer_of s) };

    ghost is_flushed = { λ s. s.is_flushed };

    ghost moments = { λ _. None };

    fn next(&mut self, line: &mut ArrayVec<u8, 65536>) -> Heard {
        self.messages.release();
        self.lines.next(line)
    }

    fn write(&mut self, bytes: &[u8]) -> Result<(), usize> {
        self.is_flushed = false;
        let (taken, result) = write_out(bytes, &mut self.out);
        match result {
            Ok(()) => Ok(()),
            Err(_) => Err(taken),
        }
    }

    fn flush(&mut self) -> bool {
        match self.out.flush() {
            Ok(()) => {
                self.is_flushed = true;
                true
            }
            Err(_) => false,
        }
    }

    fn has_room(&self) -> bool {
        self.messages.has_room()
    }

    fn report(&mut self, message: Message) {
        self.messages.report(message);
    }

    fn release(&mut self) {
        self.messages.release();
    }
}
