//! `dabplan listen`: decodes a stream of FIBs as a receiver would, and prints the resulting
//! configuration.

ghost use Rattle.std.specs.Prelude.{◌≡◌, ◌==◌, if◌then◌else◌, ℕ, List, IfOk, Ok};
ghost use Rattle.std.specs.Io.KnownBytes.{Consumes, IsAtEnd};
ghost use Rattle.cli_streams.specs.Stream.{HearsStream, ended};
ghost use Rattle.cli_streams.specs.Success.{ListensTo, known_at, listen_status};
ghost use Rattle.stream_monitor.specs.Formats.{is_other};

use crate::json_listing::print_json_listing;
use crate::listing::print_listing;
use console::exit::{Failure, Status, pieces_of};
use console::files::{FileFault, Files};
use console::output::Output;
use console::pieces::Pieces;
use fib_reader::{ListenFault, Listener};
use std::alloc::Global;
use std::io::{Read, Write};
use stream_monitor::{Hints, is_other};
use thiserror::Error;

/// Why a stream is refused.
#[derive(Clone, Copy, Debug, Error)]
pub enum StreamFault {
    /// The length is not a multiple of 32 bytes.
    #[error("refused: not whole FIBs")]
    NotWhole,
    /// A configuration would get a 65th service or packet component.
    #[error("refused: Full")]
    Full,
}

impl StreamFault {
    /// The fault as it is printed in an object of JSON.
    pub(crate) fn cause(self) -> &'static str {
        match self {
            StreamFault::NotWhole => "not whole FIBs",
            StreamFault::Full => "Full",
        }
    }
}

/// More pieces than any stream has: 2^50 of 256 KB.
pub const MOST_PIECES: u64 = 1 << 50;

/// A decoded stream.
#[derive(Drop)]
pub struct Heard {
    /// The number of FIBs.
    pub fibs: u64,
    /// The number of damaged FIBs.
    pub damaged: u64,
    /// Whether the first FIB is damaged, and is the beginning of a frame of ETI or a packet of EDI.
    pub is_other: bool,
    /// The listener after the last of them.
    pub listener: Listener,
}

impl Heard {
    ghost use Rattle.std.specs.Prelude.{◌≡◌, ◌≤◌, ◌+◌, ◌^◌, Ok, Err, true, false, length};
    ghost use Rattle.cli_streams.specs.Stream.{unheard, HearsTheStream};
    ghost use Rattle.cli_streams.specs.declared.listen.StreamFault.TheVariants.{Full as NoRoom};

    /// Before the first FIB.
    pub fn new() -> Heard
        ensures { result ≡ unheard }
    {
        Heard {
            fibs: 0,
            damaged: 0,
            is_other: false,
            listener: Listener::new(),
        }
    }

    /// Decodes FIBs in order. A damaged one is only counted; the first one that exceeds a
    /// configuration's capacity ends the decoding, and the result is false.
    pub fn hear(&mut self, fibs: &[[u8; 32]]) -> bool
        requires few { self.old.fibs + length fibs.now ≤ 2 ^ 63 }
        requires damaged { self.old.damaged ≤ self.old.fibs }
        ensures heard { result ≡ true → HearsTheStream fibs.now self.old (Ok self.new) }
        ensures full { result ≡ false → HearsTheStream fibs.now self.old (Err NoRoom) }
        ensures few { self.new.fibs ≤ self.old.fibs + length fibs.now }
        ensures damaged { self.new.damaged ≤ self.new.fibs }
    {
        for fib in fibs {
            match self.listener.hear(fib) {
                Ok(()) => {}
                Err(ListenFault::Fib(_)) => {
                    self.damaged += 1;
                    let seen = other_so_far(self.fibs, self.is_other, fib);
                    self.is_other = seen;
                }
                Err(ListenFault::Full) => return false,
            }
            self.fibs += 1;
        }
        true
    }
}

/// Whether a stream is of another format, by a damaged FIB behind so many others: the first of all
/// says it, and later ones change nothing.
fn other_so_far(fibs: u64, before: bool, fib: &[u8; 32]) -> bool
    ensures { result ≡ (if fibs == 0 then is_other fib.now else before) }
{
    if fibs == 0 { is_other(fib) } else { before }
}

/// The arguments of `listen`.
#[derive(Clone, Copy)]
pub struct ListenRequest<'a> {
    /// The path of the file of FIBs, or `-` for standard input.
    pub file: &'a str,
    /// Prints one object of JSON instead of lines.
    pub is_json: bool,
}

/// Runs `listen`: prints what was decoded from the file, or from standard input if the path is `-`.
/// The stream is decoded piece by piece, so that memory use does not depend on its length. Where it
/// is no stream of FIBs, a hint is given on standard error. The status is 0 if it can be decoded;
/// but 1 if it begins as ETI or EDI do, and all its FIBs are damaged.
///
/// # Errors
///
/// `Read` if the file can't be read, or `Memory` if out of memory for a piece, before anything is
/// printed; `Output` if the output failed, after which nothing is printed.
pub fn show_heard<'a, F: Files, W: Write>(
    alloc: Global,
    request: &ListenRequest<'a>,
    files: &mut F,
    out: &mut Output<W>,
) -> Result<Status, Failure<'a>>
    ensures success { IfOk result (ListensTo
        (known_at (F.known files.old) (F.known_input files.old) request.now.file.now)) }
{
    let path = request.file;
    let mut pieces = pieces_of(alloc, files, path)?;
    let mut hints = Hints::new(path);
    let heard = match listen_to(&mut pieces, &mut hints, files) {
        Ok(heard) => heard,
        Err(fault) => return Err(Failure::of_file(fault, path)),
    };
    if request.is_json {
        print_json_listing(&heard, out)?;
    } else {
        print_listing(&heard, out)?;
    }
    match heard {
        Ok(heard) => Ok(status_of(&heard)),
        Err(_) => Ok(Status::Refused),
    }
}

/// The exit status for a decoded stream. One of another format, that has no FIB that is not
/// damaged, is refused, though its FIBs are counted.
fn status_of(heard: &Heard) -> Status
    ensures { result ≡ listen_status (Ok heard.now) }
{
    if heard.is_other && heard.damaged == heard.fibs {
        return Status::Refused;
    }
    Status::Done
}

/// Decodes a stream of FIBs with a new listener (EN 300 401 clauses 5.2.1 and 6.5), to the end of
/// its pieces. A damaged FIB is only counted; the first one that exceeds a configuration's capacity
/// ends the decoding. A length that is not a multiple of 32 bytes takes precedence.
///
/// The fault of a piece that can't be read; `Failed` too after 2^50 pieces.
pub fn listen_to<R: Read + Drop, F: Files>(
    pieces: &mut Pieces<R>,
    hints: &mut Hints<'_>,
    files: &mut F,
) -> Result<Result<Heard, StreamFault>, FileFault>
    ensures hears { IfOk result (λ given. (stream : List ℕ)
        × Consumes pieces.old.left pieces.new.left stream
        × IsAtEnd pieces.new.left × HearsStream stream given) }
{
    let mut heard = Heard::new();
    let mut has_room = true;
    for _ in 0..MOST_PIECES {
        if !pieces.advance()? {
            hints.end(files);
            return Ok(ended(has_room, heard));
        }
        let (fibs, rest) = pieces.piece().as_chunks::<32>();
        hints.look(pieces.piece(), files);
        if !rest.is_empty() {
            hints.end(files);
            return Ok(Err(StreamFault::NotWhole));
        }
        if has_room {
            has_room = heard.hear(fibs);
        }
    }
    Err(FileFault::Failed)
}

/// The result for whole FIBs.
fn ended(has_room: bool, heard: Heard) -> Result<Heard, StreamFault>
    ensures { result ≡ ended has_room heard }
{
    if has_room {
        Ok(heard)
    } else {
        Err(StreamFault::Full)
    }
}
