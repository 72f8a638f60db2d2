//! Reads an input line by line, no byte further than needed.

ghost use Rattle.std.specs.Prelude.{◌≡◌, ◌<◌, ◌≤◌, ℕ, List, length, true};
ghost use Rattle.std.specs.Io.KnownBytes.{Keeps, IsAtEnd};
ghost use Rattle.console.specs.Lines.{GivesLine};
ghost use Rattle.console.specs.LineBytes.{TakesByte};
ghost use Rattle.console.specs.declared.lines.Heard.TheVariants.{Line as IsLine, Long as IsLong};
ghost use Rattle.console.specs.declared.lines.Heard.TheVariants.{End as IsEnd};

use arrayvec::ArrayVec;
use std::io::{ErrorKind, Read};
use std::marker::Model;

/// The result of reading a line.
#[derive(Clone, Copy, Debug, PartialEq, Eq)]
pub enum Heard {
    /// A line of up to 65,536 bytes.
    Line = 1,
    /// A longer line, which was skipped.
    Long = 2,
    /// The input is at its end.
    End = 3,
    /// The read failed.
    Failed = 4,
}

/// The lines of a reader: the bytes up to each line feed, and those after the last one. A line is
/// returned before any byte after its line feed is read, and nothing is read after the end of the
/// reader.
///
/// The reader is read byte by byte: use one that returns as soon as a byte is available, at low
/// cost, as a `BufReader` does. Contracts refer to the bytes that are left in the reader, if it
/// reports them.
#[derive(Drop)]
pub struct Lines<R: Read + Drop> {
    inner: R,
    is_at_end: bool,
}

impl<R: Read + Drop> Model for Lines<R> {
    ghost use Rattle.std.specs.Prelude.{ℕ, List, Option, ◌≡◌, true};
    ghost use Rattle.std.specs.Io.KnownBytes.{IsAtEnd};

    ghost Value = { Option (List ℕ) };

    ghost view = { λ l. R.remaining l.inner };

    ghost invariant = { λ l. l.is_at_end ≡ true → IsAtEnd (R.remaining l.inner) };
}

impl<R: Read + Drop> Lines<R> {
    ghost use Rattle.std.specs.Prelude.{◌≡◌, ◌<◌, ◌≤◌, ℕ, List, length};
    ghost use Rattle.std.specs.Io.KnownBytes.{Keeps, IsAtEnd};
    ghost use Rattle.console.specs.Lines.{GivesLine};
    ghost use Rattle.console.specs.declared.lines.Heard.TheVariants.{Line as IsLine};
    ghost use Rattle.console.specs.declared.lines.Heard.TheVariants.{Long as IsLong, End as IsEnd};

    /// The lines of the remaining bytes of this reader.
    pub fn new(inner: R) -> Self
        ensures { result ≡ R.remaining inner }
    {
        Lines {
            inner,
            is_at_end: false,
        }
    }

    /// Reads up to the next line feed and no byte further, and puts the line, without its line
    /// feed, into `line`. With any result but `Line` the content of `line` is unspecified.
    pub fn next(&mut self, line: &mut ArrayVec<u8, 65536>) -> Heard
        ensures line { result ≡ IsLine → GivesLine self.old line.new.items self.new }
        ensures bound { result ≡ IsLine → length line.new.items ≤ 65536 }
        ensures long { result ≡ IsLong
            → (line : List ℕ) × (65536 < length line) × GivesLine self.old line self.new }
        ensures end { result ≡ IsEnd → Keeps self.old self.new × IsAtEnd self.new }
    {
        if self.is_at_end {
            return Heard::End;
        }
        let (heard, is_at_end) = read_line(&mut self.inner, line);
        self.is_at_end = is_at_end;
        heard
    }
}

/// Reads a line; the flag is whether the reader is known to be at its end.
fn read_line<R: Read>(input: &mut R, line: &mut ArrayVec<u8, 65536>) -> (Heard, bool)
    ensures line { result.0 ≡ IsLine
        → GivesLine (R.remaining input.old) line.new.items (R.remaining input.new) }
    ensures bound { result.0 ≡ IsLine → length line.new.items ≤ 65536 }
    ensures long { result.0 ≡ IsLong → (line : List ℕ) × (65536 < length line)
        × GivesLine (R.remaining input.old) line (R.remaining input.new) }
    ensures end { result.0 ≡ IsEnd → Keeps (R.remaining input.old) (R.remaining input.new)
        × IsAtEnd (R.remaining input.new) }
    ensures ended { result.1 ≡ true → IsAtEnd (R.remaining input.new) }
{
    line.clear();
    let mut is_long = false;
    for _ in 0..u64::MAX {
        match next_byte(input) {
            NextByte::Failed => return (Heard::Failed, false),
            NextByte::End => {
                if is_long {
                    return (Heard::Long, true);
                }
                if line.is_empty() {
                    return (Heard::End, true);
                }
                return (Heard::Line, true);
            }
            NextByte::Byte(byte) => {
                if byte == b'\n' {
                    if is_long {
                        return (Heard::Long, false);
                    }
                    return (Heard::Line, false);
                }
                if line.is_full() {
                    is_long = true;
                } else {
                    line.push(byte);
                }
            }
        }
    }
    (Heard::Failed, false)
}

/// The result of reading a byte.
enum NextByte {
    Byte(u8),
    End,
    Failed,
}

/// Reads the next byte. An interrupted read is retried.
fn next_byte<R: Read>(input: &mut R) -> NextByte
    ensures { TakesByte (R.remaining input.old) (R.remaining input.new) result }
{
    for _ in 0..u64::MAX {
        let mut byte = [0u8];
        match input.read(&mut byte) {
            Ok(0) => return NextByte::End,
            Ok(_) => return NextByte::Byte(byte[0]),
            Err(error) => {
                if error.kind() != ErrorKind::Interrupted {
                    return NextByte::Failed;
                }
            }
        }
    }
    NextByte::Failed
}
