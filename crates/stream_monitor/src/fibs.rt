//! The FIBs of a file, one after the other.

ghost use Rattle.stream_monitor.specs.Splitting.{BeginsWith};

use console::files::FileFault;
use console::pieces::Pieces;
use std::io::Read;
use std::marker::Model;

/// The size of a FIB, in bytes.
const FIB: usize = 32;

/// What a stream of FIBs has next.
#[derive(Clone, Copy)]
pub enum Next {
    /// A FIB.
    Fib([u8; 32]),
    /// Fewer than 32 bytes, which end the stream.
    Part,
    /// Nothing more.
    End,
}

/// The FIBs of a reader, which is read in pieces: a piece only once the one before it is used up.
#[derive(Drop)]
pub struct FileFibs<R: Read + Drop> {
    pieces: Pieces<R>,
    /// The offset of the next FIB in the piece.
    at: usize,
}

impl<R: Read + Drop> Model for FileFibs<R> {
    ghost use Rattle.std.specs.Prelude.{◌≡◌, ◌≤◌, ◌<◌, ◌%◌, drop, length};
    ghost use Rattle.std.specs.Io.KnownBytes.{IsAtEnd};
    ghost use Rattle.stream_monitor.specs.Buffered.{Buffered};

    ghost Value = { Buffered };

    ghost view = { λ f. record {
      ahead = drop f.at f.pieces.piece;
      behind = f.pieces.left;
    } };

    ghost invariant = { λ f. (f.at ≤ length f.pieces.piece)
        × (f.at < length f.pieces.piece → f.at % 32 ≡ 0)
        × (0 < length f.pieces.piece % 32 → IsAtEnd f.pieces.left) };
}

impl<R: Read + Drop> FileFibs<R> {
    ghost use Rattle.std.specs.Prelude.{◌≡◌, ◌<◌, [], length, IfOk, OnOk};
    ghost use Rattle.std.specs.Io.KnownBytes.{IsAtEnd, Keeps};
    ghost use Rattle.stream_monitor.specs.Buffered.{left_of};
    ghost use Rattle.stream_monitor.specs.Log.{Gives};

    /// The FIBs of pieces, none of which is read yet.
    pub fn new(pieces: Pieces<R>) -> Self
        requires unread { pieces.piece ≡ [] }
        ensures { Keeps pieces.left (left_of result) }
    {
        FileFibs { pieces, at: 0 }
    }

    /// The piece that was read last; empty before the first one, and after the last.
    pub fn piece(&self) -> &[u8] {
        self.pieces.piece()
    }

    /// Whether this piece is used up, so that the next FIB is still to be read.
    pub fn is_used_up(&self) -> bool {
        self.at >= self.pieces.piece().len()
    }

    /// The next FIB.
    ///
    /// The fault if the next piece can't be read.
    pub fn next(&mut self) -> Result<Next, FileFault>
        ensures { IfOk result (Gives (left_of self.old) (left_of self.new)) }
    {
        self.refill()?;
        Ok(self.take())
    }

    /// Reads the next piece where this one is used up.
    fn refill(&mut self) -> Result<(), FileFault>
        ensures left { OnOk result (Keeps (left_of self.old) (left_of self.new)) }
        ensures end { OnOk result (length self.new.ahead < 32 → IsAtEnd self.new.behind) }
    {
        if self.at < self.pieces.piece().len() {
            return Ok(());
        }
        self.at = 0;
        match self.pieces.advance() {
            Ok(_) => Ok(()),
            Err(fault) => Err(fault),
        }
    }

    /// Takes the next FIB of the piece.
    fn take(&mut self) -> Next
        requires end { length self.old.ahead < 32 → IsAtEnd self.old.behind }
        ensures { Gives (left_of self.old) (left_of self.new) result }
    {
        let piece = self.pieces.piece();
        let next = next_of(&piece[self.at..]);
        self.at = piece.len().min(self.at + FIB);
        next
    }
}

/// What the rest of a piece begins with.
fn next_of(rest: &[u8]) -> Next
    ensures { BeginsWith rest.now result }
{
    match rest.first_chunk::<FIB>() {
        Some(fib) => Next::Fib(*fib),
        None if rest.is_empty() => Next::End,
        None => Next::Part,
    }
}
