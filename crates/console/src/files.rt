//! Access to the files that the program reads and writes.

ghost use Rattle.std.specs.Prelude.{◌≡◌};

use crate::places::{Place, opened, place_of};
use crate::reasons::reason_of;
use crate::replacing::replaced;
use crate::sink::Sink;
use crate::waiting::{Waiting, pause};
use std::fmt::Display;
use std::fs::OpenOptions;
use std::io::{self, Eprint, ErrorKind, Input, Print, Printer, Read, Write};
use std::os::unix::fs::MetadataExt;
use std::rt;

/// Why a file can't be accessed.
#[derive(Clone, Copy, Debug, PartialEq, Eq)]
pub enum FileFault {
    /// The system reported an error.
    Failed = 1,
    /// Out of memory for its bytes.
    Memory = 2,
}

/// Access to the program's files.
pub trait Files {
    ghost use Rattle.std.specs.Prelude.{◌≡◌, ◌↔◌, List, [], Option, None, Some, ℕ, IsTrue, IfOk};
    ghost use Rattle.std.specs.Prelude.{OnOk, OnErr, IfSome};
    ghost use Rattle.std.specs.Io.KnownBytes.{Keeps};
    ghost use Rattle.console.specs.World.{World, Exists, Becomes, Stays, IsSameBut, HasWritten};
    ghost use Rattle.console.specs.World.{HasTouched};

    /// The bytes of the file of a path, if known.
    ghost known: { Self → List ℕ → Option (List ℕ) } = { λ _ _. None };

    /// The bytes of standard input, if known.
    ghost known_input: { Self → Option (List ℕ) } = { λ _. None };

    /// What all files hold, if known.
    ghost world: { Self → Option World } = { λ _. None };

    /// A file opened for reading, or standard input: its remaining bytes.
    type In: Read + Drop;

    /// A file opened for writing.
    type Out: Write + Drop;

    /// Opens the file of this path for reading, from its first byte; `Failed` on a system error.
    /// Other files, and standard input, keep their bytes.
    fn open(&mut self, path: &str) -> Result<Self::In, FileFault>
        ensures bytes { IfOk result (λ file. Keeps (known self.old path.now)
            (Self.In.remaining file)) }
        ensures files { (other : List ℕ) → Keeps (known self.old other) (known self.new other) }
        ensures input { Keeps (known_input self.old) (known_input self.new) }
        ensures world { Stays (world self.old) (world self.new) };

    /// Whether the file of this path can be opened again for the same bytes: whether there is a
    /// file of its own, and no pipe or device, of which what was read is gone.
    fn can_reread(&self, path: &str) -> bool
        ensures { IfSome (world self.now)
            (λ w. IsTrue result ↔ Exists (w.files path.now)) };

    /// Standard input, from its current position; `Failed` on a system error. Files keep their
    /// bytes.
    fn input(&mut self) -> Result<Self::In, FileFault>
        ensures bytes { IfOk result (λ file. Keeps (known_input self.old)
            (Self.In.remaining file)) }
        ensures files { (other : List ℕ) → Keeps (known self.old other) (known self.new other) }
        ensures world { Stays (world self.old) (world self.new) };

    /// Creates the file of this path for writing, or truncates it. `Failed` on a system error,
    /// `Memory` if out of memory: all files are as they were then. Other files are as they were in
    /// any case. What the file holds is known again when it is closed.
    fn create(&mut self, path: &str) -> Result<Self::Out, FileFault>
        ensures empty { IfOk result (λ file. IfSome (world self.old)
            (λ _. Self.Out.contents file ≡ Some [])) }
        ensures others { Becomes (IsSameBut path.now) (world self.old) (world self.new) }
        ensures failed { OnErr result (Stays (world self.old) (world self.new)) };

    /// Closes a file that was created for this path: what was written to it is what the file of the
    /// path holds. `Failed` on a system error, `Memory` if out of memory: nothing is known of this
    /// file then. Other files are as they were in any case.
    fn close(&mut self, path: &str, file: Self::Out) -> Result<(), FileFault>
        ensures written { OnOk result (IfSome (Self.Out.contents file)
            (λ bytes. Becomes (HasWritten path.now bytes) (world self.old) (world self.new))) }
        ensures others { Becomes (IsSameBut path.now) (world self.old) (world self.new) };

    /// Gives the file of this path these bytes, or leaves it as it was: `Failed` on a system error,
    /// `Memory` if out of memory. What is no regular file, as a pipe or a device, takes the bytes
    /// as they are written.
    fn replace(&mut self, path: &str, bytes: &[u8]) -> Result<(), FileFault>
        ensures written { OnOk result
            (Becomes (HasWritten path.now bytes.now) (world self.old) (world self.new)) }
        ensures others { Becomes (IsSameBut path.now) (world self.old) (world self.new) };

    /// Whether two paths are of one regular file.
    fn is_same(&self, one: &str, other: &str) -> bool;

    /// Whether a path is of something else than a regular file, as a device or a pipe.
    fn is_special(&self, path: &str) -> bool;

    /// Why the file of a path can't be opened for reading, in the words of the system; `None` if it
    /// can, or for another reason.
    fn obstacle(&self, path: &str) -> Option<&'static str>;

    /// Why the last file that could not be created or written could not be, in the words of the
    /// system; `None` if each could, or for another reason.
    fn refusal(&self) -> Option<&'static str>;

    /// Creates an empty file of this path if there is none; a file that is there keeps its bytes.
    /// `Failed` on a system error, as where the file can't be opened for writing, `Memory` if out
    /// of memory: all files are as they were then.
    fn touch(&mut self, path: &str) -> Result<(), FileFault>
        ensures touched { OnOk result
            (Becomes (HasTouched path.now) (world self.old) (world self.new)) }
        ensures failed { OnErr result (Stays (world self.old) (world self.new)) };

    /// Writes a line on standard error. Where standard error fails, the rest of it is lost. Files
    /// are as they were.
    fn report<D: Display + Drop>(&mut self, line: D)
        ensures world { Stays (world self.old) (world self.new) };
}

/// The files of the system. Its standard streams may be in non-blocking mode: reads and messages
/// wait for them.
#[derive(Drop)]
pub struct System<'a, R> {
    rt: &'a R,
    /// Whether standard input was closed at the start: a file that is opened later takes its
    /// descriptor.
    has_no_input: bool,
    /// Why the last file that could not be written could not be.
    refusal: Option<&'static str>,
}

impl<'a, R: rt::Files> System<'a, R> {
    /// The files accessible to this runtime, before any is opened.
    pub fn new(rt: &'a R) -> Self {
        System {
            rt,
            has_no_input: is_absent(rt, "/proc/self/fd/0") && !is_absent(rt, "/proc/self/fd"),
            refusal: None,
        }
    }

    /// The fault for an error of a file that is written. Its reason is kept.
    fn refused(&mut self, error: &io::Error) -> FileFault {
        self.refusal = reason_of(error);
        fault_of(error)
    }
}

/// Whether there is nothing of this path.
fn is_absent<R: rt::Files>(rt: &R, path: &str) -> bool {
    match std::fs::metadata(rt, path) {
        Ok(_) => false,
        Err(error) => error.kind() == ErrorKind::NotFound,
    }
}

/// A file of the system, or its standard input.
#[derive(Drop)]
pub enum Source<F, I> {
    /// A file.
    File(F),
    /// Standard input.
    Input(I),
}

impl<F: Read, I: Read> Read for Source<F, I> {
    ghost use Rattle.console.specs.Reading.{left_of_source};

    ghost remaining = { left_of_source F.remaining I.remaining };

    fn read(&mut self, buffer: &mut [u8]) -> io::Result<usize> {
        match self {
            Source::File(file) => file.read(buffer),
            Source::Input(input) => input.read(buffer),
        }
    }
}

impl<'a, R> Files for System<'a, R>
where
    R: rt::Files + rt::Clock + Input + Print + Eprint + AllocGlobal,
{
    type In = Source<R::File, Waiting<'a, R, R::Reader>>;

    type Out = Sink<R::File, Waiting<'a, R, Printer<'a, R>>>;

    fn open(&mut self, path: &str) -> Result<Self::In, FileFault> {
        match std::fs::open(self.rt, path) {
            Ok(file) => Ok(Source::File(file)),
            Err(error) => Err(fault_of(&error)),
        }
    }

    /// Only a regular file, or a link to one, can be read again.
    fn can_reread(&self, path: &str) -> bool {
        match std::fs::metadata(self.rt, path) {
            Ok(metadata) => metadata.is_file(),
            Err(_) => false,
        }
    }

    fn input(&mut self) -> Result<Self::In, FileFault> {
        if self.has_no_input {
            return Err(FileFault::Failed);
        }
        Ok(Source::Input(Waiting::new(self.rt, self.rt.reader())))
    }

    /// A name of a descriptor, as `/dev/stdout`, is written where the descriptor is.
    fn create(&mut self, path: &str) -> Result<Self::Out, FileFault> {
        match created(self.rt, path) {
            Ok(file) => Ok(file),
            Err(error) => Err(self.refused(&error)),
        }
    }

    /// A file of the system has taken its bytes when a write returns.
    fn close(&mut self, _path: &str, mut file: Self::Out) -> Result<(), FileFault> {
        match file.flush() {
            Ok(()) => Ok(()),
            Err(error) => Err(self.refused(&error)),
        }
    }

    /// A file that is there stays the file that it is, with its owner, permissions and links.
    fn replace(&mut self, path: &str, bytes: &[u8]) -> Result<(), FileFault> {
        match replaced(self.rt, path, bytes) {
            Ok(()) => Ok(()),
            Err(error) => Err(self.refused(&error)),
        }
    }

    fn is_same(&self, one: &str, other: &str) -> bool {
        let (Ok(one), Ok(other)) = (
            std::fs::metadata(self.rt, one),
            std::fs::metadata(self.rt, other),
        ) else {
            return false;
        };
        one.is_file() && one.dev() == other.dev() && one.ino() == other.ino()
    }

    fn is_special(&self, path: &str) -> bool {
        match std::fs::metadata(self.rt, path) {
            Ok(metadata) => !metadata.is_file(),
            Err(_) => false,
        }
    }

    fn obstacle(&self, path: &str) -> Option<&'static str> {
        match std::fs::metadata(self.rt, path) {
            Ok(metadata) if metadata.is_dir() => return Some("Is a directory"),
            Ok(_) | Err(_) => {}
        }
        match std::fs::open(self.rt, path) {
            Ok(_file) => None,
            Err(error) => reason_of(&error),
        }
    }

    fn refusal(&self) -> Option<&'static str> {
        self.refusal
    }

    fn touch(&mut self, path: &str) -> Result<(), FileFault> {
        match OpenOptions::new()
            .append(true)
            .create(true)
            .open(self.rt, path)
        {
            Ok(_file) => Ok(()),
            Err(error) => Err(self.refused(&error)),
        }
    }

    /// Standard error may be in non-blocking mode: a line that would block is retried, as a whole,
    /// until it is written.
    fn report<D: Display + Drop>(&mut self, line: D) {
        for _ in 0..u64::MAX {
            match self.rt.eprintln(&line) {
                Err(error) if error.kind() == ErrorKind::WouldBlock => pause(self.rt),
                Ok(()) | Err(_) => return,
            }
        }
    }
}

/// Creates the file of a path for writing, or truncates it; a name of a descriptor is opened where
/// the descriptor is.
fn created<'a, R>(
    rt: &'a R,
    path: &str,
) -> io::Result<Sink<R::File, Waiting<'a, R, Printer<'a, R>>>>
where
    R: rt::Files + rt::Clock + Print + AllocGlobal,
{
    match place_of(rt, path)? {
        Place::Output => Ok(Sink::Output(Waiting::new(rt, io::writer(rt)))),
        Place::Descriptor(number) => Ok(Sink::File(opened(rt, number)?)),
        _ => Ok(Sink::File(std::fs::create(rt, path)?)),
    }
}

/// The fault for an error of the system.
pub(crate) fn fault_of(error: &io::Error) -> FileFault {
    match error.kind() {
        ErrorKind::OutOfMemory => FileFault::Memory,
        _ => FileFault::Failed,
    }
}
