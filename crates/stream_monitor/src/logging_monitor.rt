//! A monitor that keeps what it has given and was told.

use crate::check::CheckFailure;
use crate::fibs::{FileFibs, Next};
use crate::line::{Line, Totals};
use crate::monitor::Monitor;
use crate::options::CheckOptions;
use console::pieces::Pieces;
use std::alloc::Global;
use std::io::Read;
use stream_check::Finding;

/// A monitor of a reader that prints nothing, and keeps the FIBs that it has given and the lines
/// that it was told since the check began. Of it all that [`check_stream`](crate::check_stream)
/// promises of a log holds: what was told whenever a FIB is requested, and at the end.
#[derive(Drop)]
pub struct LoggingMonitor<R: Read + Drop> {
    fibs: FileFibs<R>,
    options: CheckOptions,
    given: Vec<[u8; 32]>,
    told: Vec<Line>,
}

impl<R: Read + Drop> LoggingMonitor<R> {
    ghost use Rattle.std.specs.Prelude.{◌≡◌, [], ◌∷◌, Some, OnOk};
    ghost use Rattle.std.specs.Io.KnownBytes.{Keeps};
    ghost use Rattle.stream_monitor.specs.Buffered.{left_of};
    ghost use Rattle.stream_monitor.specs.Log.{IsLog, LogsLines};
    ghost use Rattle.stream_monitor.specs.Logging.{log_in};

    /// A monitor of pieces, none of which is read yet, for a check with these options.
    pub fn new(alloc: Global, pieces: Pieces<R>, options: CheckOptions) -> Self
        requires unread { pieces.piece ≡ [] }
        ensures left { Keeps pieces.left (left_of result.fibs) }
        ensures log { IsLog options [] [] (Some (log_in result)) }
    {
        LoggingMonitor {
            fibs: FileFibs::new(pieces),
            options,
            given: Vec::new(alloc),
            told: Vec::new(alloc),
        }
    }

    /// The lines that were told.
    pub fn told(&self) -> &[Line]
        ensures { result.now ≡ (log_in self.now).lines }
    {
        self.told.as_slice()
    }

    /// Keeps a line; `Memory` if out of memory.
    fn keep(&mut self, line: Line) -> Result<(), CheckFailure>
        ensures log { OnOk result (LogsLines (Some (log_in self.old)) (Some (log_in self.new))
            (line ∷ [])) }
        ensures left { self.new.fibs ≡ self.old.fibs }
    {
        match self.told.push(line) {
            Ok(()) => Ok(()),
            Err(_) => Err(CheckFailure::Memory),
        }
    }
}

impl<R: Read + Drop> Monitor for LoggingMonitor<R> {
    ghost use Rattle.std.specs.Prelude.{Some};
    ghost use Rattle.stream_monitor.specs.Buffered.{left_of};
    ghost use Rattle.stream_monitor.specs.Logging.{log_in};

    ghost left = { λ m. left_of m.fibs };

    ghost log = { λ m. Some (log_in m) };

    fn start(&mut self, options: CheckOptions) {
        self.options = options;
        self.given.clear();
        self.told.clear();
    }

    /// `Memory` if out of memory to keep the FIB.
    fn next(&mut self) -> Result<Next, CheckFailure> {
        let next = match self.fibs.next() {
            Ok(next) => next,
            Err(fault) => return Err(CheckFailure::Read(fault)),
        };
        match next {
            Next::Fib(fib) => match self.given.push(fib) {
                Ok(()) => Ok(Next::Fib(fib)),
                Err(_) => Err(CheckFailure::Memory),
            },
            Next::Part => Ok(Next::Part),
            Next::End => Ok(Next::End),
        }
    }

    fn found(&mut self, finding: &Finding, _skipped: u64) -> Result<(), CheckFailure> {
        self.keep(Line::Found(*finding))
    }

    fn alive(&mut self, totals: &Totals) -> Result<(), CheckFailure> {
        self.keep(Line::Alive(*totals))
    }
}
