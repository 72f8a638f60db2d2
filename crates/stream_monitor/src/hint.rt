//! Hints where a file is no stream of FIBs.

use crate::format::{Format, format_of};
use arrayvec::ArrayVec;
use console::escaped::Escaped;
use console::files::Files;
use fib_reader::check;
use std::fmt::{self, Display, Formatter};

/// So many damaged FIBs at the beginning of a stream are no FIBs.
const MANY: u64 = 2048;

/// Why a file is no stream of FIBs, as far as it is known.
#[derive(Clone, Copy)]
enum Hint {
    /// It looks like nothing that is known.
    NoFibs,
    /// It has frames or packets of another format, that carry FIBs.
    Other(Format),
    /// It is hexadecimal text.
    Digits,
}

/// That the file of a path has frames or packets of another format: the line that says so.
#[derive(Clone, Copy, Debug)]
pub struct OtherFormat<'a> {
    /// The path of the file.
    pub path: &'a str,
    /// What it has.
    pub format: Format,
}

impl Display for OtherFormat<'_> {
    /// The printed line, with the control bytes of the path as `\xHH`.
    fn fmt<W: fmt::Write>(&self, f: &mut Formatter<W>) -> fmt::Result {
        let OtherFormat { path, format } = *self;
        let hint = Hint::Other(format);
        write!(f, "{}", HintLine { path, hint })
    }
}

/// A hint, and the path of the file.
#[derive(Clone, Copy)]
struct HintLine<'a> {
    /// The path of the file.
    path: &'a str,
    /// The hint.
    hint: Hint,
}

impl Display for HintLine<'_> {
    /// The printed line, with the control bytes of the path as `\xHH`.
    fn fmt<W: fmt::Write>(&self, f: &mut Formatter<W>) -> fmt::Result {
        let path = Escaped::in_line(self.path);
        match self.hint {
            Hint::NoFibs => write!(f, "{path}: no whole FIB: 32 bytes each are expected"),
            Hint::Other(format) => write!(
                f,
                "{path}: no whole FIB: 32 bytes each are expected ({format}: dabplan-bridge fic \
                 takes out its FIBs)"
            ),
            Hint::Digits => write!(
                f,
                "{path}: no whole FIB: 32 bytes each are expected (hexadecimal text: xxd -r -p)"
            ),
        }
    }
}

/// Looks at the beginning of a stream until it is clear whether it has FIBs.
#[derive(Drop)]
struct Watch {
    head: ArrayVec<u8, 64>,
    damaged: u64,
    is_done: bool,
    /// Whether it is clear that the stream is of another format.
    is_other: bool,
}

impl Watch {
    /// Before the first piece.
    fn new() -> Self {
        Watch {
            head: ArrayVec::new(),
            damaged: 0,
            is_done: false,
            is_other: false,
        }
    }

    /// Looks at the next piece, and returns a hint as soon as it is clear: once 64 bytes are read,
    /// what they look like, if the first 32 are a damaged FIB; else once the first 2,048 FIBs are
    /// damaged.
    fn look(&mut self, piece: &[u8]) -> Option<Hint> {
        if self.is_done {
            return None;
        }
        self.look_at_head(piece);
        let (fibs, _) = piece.as_chunks::<32>();
        let has_fib = self.look_at_fibs(fibs);
        let hint = self.hint_so_far();
        self.is_done = has_fib || hint.is_some();
        self.is_other = matches!(hint, Some(Hint::Other(_)));
        hint
    }

    /// The hint at the end of a stream that is not empty, if there was none before.
    fn end(&mut self) -> Option<Hint> {
        if self.is_done || self.head.is_empty() {
            return None;
        }
        self.is_done = true;
        match likeness(self.head.as_slice()) {
            Some(hint) => Some(hint),
            None => Some(Hint::NoFibs),
        }
    }

    /// Keeps the first 64 bytes.
    fn look_at_head(&mut self, piece: &[u8]) {
        let count = piece.len().min(self.head.remaining_capacity());
        let _ = self.head.try_extend_from_slice(&piece[..count]);
    }

    /// Counts damaged FIBs up to the first that is not, and returns whether there is one among the
    /// first 2,048.
    fn look_at_fibs(&mut self, fibs: &[[u8; 32]]) -> bool {
        for fib in fibs {
            if self.damaged >= MANY {
                return false;
            }
            if check(fib).is_ok() {
                return true;
            }
            self.damaged += 1;
        }
        false
    }

    /// The hint that is clear by now.
    fn hint_so_far(&self) -> Option<Hint> {
        if self.head.is_full() {
            if let Some(hint) = likeness(self.head.as_slice()) {
                return Some(hint);
            }
        }
        if self.damaged >= MANY {
            return Some(Hint::NoFibs);
        }
        None
    }
}

/// Gives a hint on standard error where the file of a path is no stream of FIBs, once at most.
#[derive(Drop)]
pub struct Hints<'a> {
    path: &'a str,
    watch: Watch,
}

impl<'a> Hints<'a> {
    /// Before the first piece of the file of this path.
    pub fn new(path: &'a str) -> Self {
        Hints {
            path,
            watch: Watch::new(),
        }
    }

    /// Looks at the next piece.
    pub fn look<F: Files>(&mut self, piece: &[u8], files: &mut F) {
        let hint = self.watch.look(piece);
        self.give(hint, files);
    }

    /// Whether a hint was given that the stream is of another format.
    pub(crate) fn is_other(&self) -> bool {
        self.watch.is_other
    }

    /// Looks at what was read, at the end of the stream or of its check.
    pub fn end<F: Files>(&mut self, files: &mut F) {
        let hint = self.watch.end();
        self.give(hint, files);
    }

    /// Gives a hint, if there is one.
    fn give<F: Files>(&self, hint: Option<Hint>, files: &mut F) {
        if let Some(hint) = hint {
            files.report(HintLine {
                path: self.path,
                hint,
            });
        }
    }
}

/// What the first bytes of a stream, at most 64, look like; `None` if they begin with an undamaged
/// FIB, or look like nothing that is known.
fn likeness(head: &[u8]) -> Option<Hint> {
    if let Some((fib, _)) = head.split_first_chunk::<32>() {
        if check(fib).is_ok() {
            return None;
        }
    }
    if let Some(format) = format_of(head) {
        return Some(Hint::Other(format));
    }
    if head.len() == 64 && are_digits(head) {
        return Some(Hint::Digits);
    }
    None
}

/// Whether all bytes are hexadecimal digits or blanks.
fn are_digits(head: &[u8]) -> bool {
    for byte in head {
        if !is_digit_or_blank(*byte) {
            return false;
        }
    }
    true
}

/// Whether a byte is a hexadecimal digit of either case, a blank, a tab or the end of a line.
fn is_digit_or_blank(byte: u8) -> bool {
    byte.is_ascii_hexdigit() || matches!(byte, b' ' | b'\t' | b'\n' | b'\r')
}
