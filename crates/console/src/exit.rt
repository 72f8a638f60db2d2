//! Exit statuses, and failures to access a file.

ghost use Rattle.std.specs.Prelude.{◌≡◌, ◌≢◌, ℕ, List, [], take, codes, IfOk, OnOk, IfSome};
ghost use Rattle.std.specs.Io.KnownBytes.{Keeps};
ghost use Rattle.console.specs.World.{Becomes, Stays, IsSameBut, HasWritten, HasTouched};

use crate::escaped::Escaped;
use crate::files::{FileFault, Files};
use crate::pieces::{Pieces, read_within};
use std::alloc::Global;
use std::fmt::{self, Display, Formatter};
use std::{error, io};

/// The exit status of the program.
#[derive(Clone, Copy, Debug, PartialEq, Eq)]
pub enum Status {
    /// Success.
    Done = 0,
    /// The input was refused, or a file could not be read.
    Refused = 1,
    /// The command line is invalid.
    Misused = 2,
    /// A stream was checked, and faults were found in it.
    Faulty = 3,
}

/// Why a command could not process its input. Each is one printed line, and `Status::Refused`.
#[derive(Debug, Drop)]
pub enum Failure<'a> {
    /// Out of memory.
    Memory,
    /// The file of this path could not be read.
    Read(&'a str),
    /// The file of this path could not be created.
    Create(&'a str),
    /// Standard output failed. Nothing more is printed.
    Output,
}

impl Display for Failure<'_> {
    /// The printed line, with the control bytes of paths as `\xHH`.
    fn fmt<W: fmt::Write>(&self, f: &mut Formatter<W>) -> fmt::Result {
        match self {
            Failure::Memory => f.write_str("no memory"),
            Failure::Read(path) => write!(f, "cannot read {}", Escaped::in_line(path)),
            Failure::Create(path) => write!(f, "cannot write {}", Escaped::in_line(path)),
            Failure::Output => f.write_str("cannot write"),
        }
    }
}

impl error::Error for Failure<'_> {}

/// A failure as an object of JSON, `{"kind":"refused","cause":"cannot read PATH"}`: the cause is
/// its line, with PATH as in a string of JSON.
#[derive(Debug, Drop)]
pub struct JsonFailure<'f, 'a>(pub &'f Failure<'a>);

impl Display for JsonFailure<'_, '_> {
    fn fmt<W: fmt::Write>(&self, f: &mut Formatter<W>) -> fmt::Result {
        match self.0 {
            Failure::Memory => f.write_str("{\"kind\":\"refused\",\"cause\":\"no memory\"}"),
            Failure::Read(path) => {
                let path = Escaped::in_json(path);
                write!(
                    f,
                    "{{\"kind\":\"refused\",\"cause\":\"cannot read {path}\"}}"
                )
            }
            Failure::Create(path) => {
                let path = Escaped::in_json(path);
                write!(
                    f,
                    "{{\"kind\":\"refused\",\"cause\":\"cannot write {path}\"}}"
                )
            }
            Failure::Output => f.write_str("{\"kind\":\"refused\",\"cause\":\"cannot write\"}"),
        }
    }
}

impl<'a> Failure<'a> {
    /// The failure to report for an unreadable file.
    pub fn of_file(fault: FileFault, path: &'a str) -> Self {
        match fault {
            FileFault::Failed => Failure::Read(path),
            FileFault::Memory => Failure::Memory,
        }
    }

    /// The failure to report for a file that can't be created.
    pub fn of_output(fault: FileFault, path: &'a str) -> Self {
        match fault {
            FileFault::Failed => Failure::Create(path),
            FileFault::Memory => Failure::Memory,
        }
    }
}

impl From<io::Error> for Failure<'_> {
    fn from(_error: io::Error) -> Self {
        Failure::Output
    }
}

/// Opens the file of this path, or standard input if the path is `-`. Other files keep their bytes,
/// and so does standard input where a file is opened.
pub fn open_input<'a, F: Files>(files: &mut F, path: &'a str) -> Result<F::In, Failure<'a>>
    ensures input { path.now ≡ codes "-" → IfOk result (λ source.
        Keeps (F.known_input files.old) (F.In.remaining source)) }
    ensures file { path.now ≢ codes "-" → IfOk result (λ source.
        Keeps (F.known files.old path.now) (F.In.remaining source)) }
    ensures files { (other : List ℕ)
        → Keeps (F.known files.old other) (F.known files.new other) }
    ensures kept { path.now ≢ codes "-"
        → Keeps (F.known_input files.old) (F.known_input files.new) }
    ensures world { Stays (F.world files.old) (F.world files.new) }
{
    let source = if path == "-" {
        files.input()
    } else {
        files.open(path)
    };
    source.map_err(|fault| Failure::of_file(fault, path))
}

/// The pieces of the file of this path, or of standard input if the path is `-`.
pub fn pieces_of<'a, F: Files>(
    alloc: Global,
    files: &mut F,
    path: &'a str,
) -> Result<Pieces<F::In>, Failure<'a>>
    ensures input { path.now ≡ codes "-" → IfOk result (λ pieces.
        Keeps (F.known_input files.old) pieces.left) }
    ensures file { path.now ≢ codes "-" → IfOk result (λ pieces.
        Keeps (F.known files.old path.now) pieces.left) }
    ensures first { IfOk result (λ pieces. pieces.piece ≡ []) }
    ensures files { (other : List ℕ)
        → Keeps (F.known files.old other) (F.known files.new other) }
    ensures world { Stays (F.world files.old) (F.world files.new) }
{
    let source = open_input(files, path)?;
    Pieces::new(alloc, source).map_err(|_| Failure::Memory)
}

/// The first bytes of the file of this path, at most `most`. Files keep their bytes.
///
/// If `most` is one more than the longest valid file, a longer file is recognised by its length,
/// and the rest of it is not read.
pub fn read_file<'a, F: Files>(
    alloc: Global,
    files: &mut F,
    path: &'a str,
    most: usize,
) -> Result<Vec<u8>, Failure<'a>>
    ensures bytes { IfOk result (λ read. IfSome (F.known files.old path.now)
        (λ bytes. read.items ≡ take most bytes)) }
    ensures files { (other : List ℕ)
        → Keeps (F.known files.old other) (F.known files.new other) }
    ensures world { Stays (F.world files.old) (F.world files.new) }
{
    let file = files.open(path);
    let file = file.map_err(|fault| Failure::of_file(fault, path))?;
    read_within(alloc, file, most).map_err(|fault| Failure::of_file(fault, path))
}

/// Like [`read_file`], with standard input for the path `-`: at most `most` of the bytes that it
/// has left.
pub fn read_input<'a, F: Files>(
    alloc: Global,
    files: &mut F,
    path: &'a str,
    most: usize,
) -> Result<Vec<u8>, Failure<'a>>
    ensures input { path.now ≡ codes "-" → IfOk result (λ read.
        IfSome (F.known_input files.old) (λ bytes. read.items ≡ take most bytes)) }
    ensures file { path.now ≢ codes "-" → IfOk result (λ read.
        IfSome (F.known files.old path.now) (λ bytes. read.items ≡ take most bytes)) }
    ensures files { (other : List ℕ)
        → Keeps (F.known files.old other) (F.known files.new other) }
    ensures world { Stays (F.world files.old) (F.world files.new) }
{
    let source = open_input(files, path)?;
    read_within(alloc, source, most).map_err(|fault| Failure::of_file(fault, path))
}

/// Gives the file of this path these bytes, or leaves it as it was. Other files are as they were in
/// any case.
///
/// `Create` if it can't be created or written to the end, `Memory` if out of memory.
pub fn write_file<'a, F: Files>(
    files: &mut F,
    path: &'a str,
    bytes: &[u8],
) -> Result<(), Failure<'a>>
    ensures written { OnOk result
        (Becomes (HasWritten path.now bytes.now) (F.world files.old) (F.world files.new)) }
    ensures others { Becomes (IsSameBut path.now) (F.world files.old) (F.world files.new) }
{
    files
        .replace(path, bytes)
        .map_err(|fault| Failure::of_output(fault, path))
}

/// Creates an empty file of this path if there is none. A file that is there keeps its bytes.
/// `Create` on a system error, `Memory` if out of memory: all files are as they were then.
pub fn touch_file<'a, F: Files>(files: &mut F, path: &'a str) -> Result<(), Failure<'a>>
    ensures touched { OnOk result
        (Becomes (HasTouched path.now) (F.world files.old) (F.world files.new)) }
{
    files
        .touch(path)
        .map_err(|fault| Failure::of_output(fault, path))
}
