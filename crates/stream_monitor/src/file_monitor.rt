//! The monitor of a file: its findings are printed, a line each.

ghost use Rattle.std.specs.Prelude.{◌≡◌, []};
ghost use Rattle.std.specs.Io.KnownBytes.{Keeps};
ghost use Rattle.stream_monitor.specs.Buffered.{left_of};

use crate::advice::Adviser;
use crate::check::CheckFailure;
use crate::ending::Ending;
use crate::fibs::{FileFibs, Next};
use crate::hint::Hints;
use crate::line::{Form, Line, Totals, print_line};
use crate::monitor::Monitor;
use crate::options::CheckOptions;
use console::files::Files;
use console::output::Output;
use console::pieces::Pieces;
use fib_codec::Mode;
use std::io::{Read, Write};
use stream_check::Finding;

/// A file that is checked, and the output that is told what is found in it. Before the file is
/// asked for more bytes, all lines so far are written. Where it is no stream of FIBs, one of
/// another mode, or one of which bytes were lost, a hint is given on standard error as soon as that
/// is clear.
#[derive(Drop)]
pub struct FileMonitor<'a, 'f, 'o, R: Read + Drop, F, W> {
    fibs: FileFibs<R>,
    hints: Hints<'a>,
    adviser: Adviser<'a>,
    files: &'f mut F,
    /// How lines are printed, from the start of a check on.
    form: Form,
    /// The transmission mode, from the start of a check on.
    mode: Mode,
    out: &'o mut Output<W>,
}

impl<'a, 'f, 'o, R: Read + Drop, F: Files, W: Write> FileMonitor<'a, 'f, 'o, R, F, W> {
    /// The file of this path, none of whose pieces is read yet.
    pub fn new(path: &'a str, pieces: Pieces<R>, files: &'f mut F, out: &'o mut Output<W>) -> Self
        requires unread { pieces.piece ≡ [] }
        ensures { Keeps pieces.left (left_of result.fibs) }
    {
        FileMonitor {
            fibs: FileFibs::new(pieces),
            hints: Hints::new(path),
            adviser: Adviser::new(path, Mode::I),
            files,
            form: Form {
                is_json: false,
                start: None,
            },
            mode: Mode::I,
            out,
        }
    }

    /// Ends a check that has come to its end: gives a hint, if it is due and was not given, and
    /// prints the last line.
    pub fn end(&mut self, ending: &Ending) -> Result<(), CheckFailure> {
        self.look();
        self.hints.end(self.files);
        let line = match ending {
            Ending::Counted(totals) => Line::Ended(*totals),
            Ending::Refused(cause) => Line::Refused(*cause),
        };
        self.print(0, &line)
    }

    /// Looks at the piece that was read last, for hints.
    fn look(&mut self)
        ensures { self.new.fibs ≡ self.old.fibs }
    {
        self.hints.look(self.fibs.piece(), self.files);
        if !self.hints.is_other() {
            self.adviser.look(self.fibs.piece(), self.files);
        }
    }

    /// Prints a line, where this many FIBs are skipped: whole frames but for the first one, which
    /// a stream may begin within.
    fn print(&mut self, skipped: u64, line: &Line) -> Result<(), CheckFailure>
        ensures { self.new.fibs ≡ self.old.fibs }
    {
        let before = skipped.div_ceil(self.mode.fibs() as u64);
        print_line(self.form, before, line, self.out).map_err(|_| CheckFailure::Write)
    }
}

impl<'a, 'f, 'o, R: Read + Drop, F: Files, W: Write> Monitor for FileMonitor<'a, 'f, 'o, R, F, W> {
    ghost left = { λ m. left_of m.fibs };

    fn start(&mut self, options: CheckOptions) {
        self.form = options.form;
        self.mode = options.mode;
        self.adviser.start(options.mode);
    }

    fn next(&mut self) -> Result<Next, CheckFailure> {
        if self.fibs.is_used_up() {
            self.look();
            self.out.flush().map_err(|_| CheckFailure::Write)?;
        }
        self.fibs.next().map_err(CheckFailure::Read)
    }

    fn found(&mut self, finding: &Finding, skipped: u64) -> Result<(), CheckFailure> {
        self.print(skipped, &Line::Found(*finding))
    }

    fn alive(&mut self, totals: &Totals) -> Result<(), CheckFailure> {
        self.print(0, &Line::Alive(*totals))
    }
}
