//! Files in memory, all of which is known: a world in which commands can be tested, and of which
//! all contracts over files say something.

ghost use Rattle.std.specs.Prelude.{◌≡◌, [], IfSome, IfNone, IfOk, OnOk, OnErr, None, Some};
ghost use Rattle.std.specs.Io.Cursor.{cursor_remaining};
ghost use Rattle.console.specs.World.{IsSame, HasWritten};
ghost use Rattle.console.specs.Versions.{bytes_in, world_of};

use crate::files::{FileFault, Files};
use std::alloc::{AllocError, Global};
use std::fmt::Display;
use std::io::Cursor;

/// What a file held at one time.
#[derive(Drop)]
pub struct Version {
    /// The path of the file.
    path: String,
    /// All its bytes.
    bytes: Vec<u8>,
}

/// Files in memory, with a standard input and a standard error. A path has a file once it is put,
/// created or touched; what is written to a file that is not closed is lost.
///
/// Each change of a file adds a version of it, and the newest one counts.
#[derive(Drop)]
pub struct MemoryFiles {
    alloc: Global,
    versions: Vec<Version>,
    input: Vec<u8>,
    errors: Vec<u8>,
}

impl MemoryFiles {
    /// No files. Standard input has these bytes each time.
    pub fn new(alloc: Global, input: Vec<u8>) -> Self
        ensures files { result.versions.items ≡ [] }
        ensures errors { result.errors.items ≡ [] }
        ensures input { result.input ≡ input }
    {
        MemoryFiles {
            alloc,
            versions: Vec::new(alloc),
            input,
            errors: Vec::new(alloc),
        }
    }

    /// Gives the file of a path these bytes, in place of those that it has. `AllocError` if out of
    /// memory: all files are as they were then.
    pub fn put(&mut self, path: &str, bytes: &[u8]) -> Result<(), AllocError>
        ensures put { OnOk result
            (HasWritten path.now bytes.now (world_of self.old) (world_of self.new)) }
        ensures input { self.new.input ≡ self.old.input }
        ensures failed { OnErr result (IsSame (world_of self.old) (world_of self.new)) }
    {
        let bytes = Vec::from_slice(self.alloc, bytes)?;
        self.add(path, bytes)
    }

    /// Adds a version of the file of a path.
    fn add(&mut self, path: &str, bytes: Vec<u8>) -> Result<(), AllocError>
        ensures put { OnOk result
            (HasWritten path.now bytes.items (world_of self.old) (world_of self.new)) }
        ensures input { self.new.input ≡ self.old.input }
        ensures failed { OnErr result (IsSame (world_of self.old) (world_of self.new)) }
    {
        let path = String::from_str(self.alloc, path)?;
        match self.versions.insert(0, Version { path, bytes }) {
            Ok(()) => Ok(()),
            Err(_) => Err(AllocError),
        }
    }

    /// The bytes that the file of a path has; `None` if there is no file.
    pub fn held(&self, path: &str) -> Option<&[u8]>
        ensures found { IfSome result (λ bytes.
            (world_of self.now).files path.now ≡ Some bytes.now) }
        ensures none { IfNone result ((world_of self.now).files path.now ≡ None) }
    {
        newest(self.versions.as_slice(), path)
    }

    /// The bytes that standard error has taken.
    pub fn errors(&self) -> &[u8]
        ensures { result.now ≡ self.now.errors.items }
    {
        self.errors.as_slice()
    }
}

impl Files for MemoryFiles {
    ghost use Rattle.std.specs.Prelude.{Some};
    ghost use Rattle.console.specs.Versions.{bytes_in, world_of};

    ghost known = { λ s path. bytes_in path s.versions.items };

    ghost known_input = { λ s. Some s.input.items };

    ghost world = { λ s. Some (world_of s) };

    type In = Cursor<Vec<u8>>;

    type Out = Vec<u8>;

    fn open(&mut self, path: &str) -> Result<Self::In, FileFault> {
        match self.held(path) {
            Some(bytes) => copy_of(self.alloc, bytes),
            None => Err(FileFault::Failed),
        }
    }

    fn can_reread(&self, path: &str) -> bool {
        self.held(path).is_some()
    }

    fn input(&mut self) -> Result<Self::In, FileFault> {
        copy_of(self.alloc, self.input.as_slice())
    }

    fn create(&mut self, path: &str) -> Result<Self::Out, FileFault> {
        match self.add(path, Vec::new(self.alloc)) {
            Ok(()) => Ok(Vec::new(self.alloc)),
            Err(_) => Err(FileFault::Memory),
        }
    }

    fn close(&mut self, path: &str, file: Self::Out) -> Result<(), FileFault> {
        match self.add(path, file) {
            Ok(()) => Ok(()),
            Err(_) => Err(FileFault::Memory),
        }
    }

    fn replace(&mut self, path: &str, bytes: &[u8]) -> Result<(), FileFault> {
        match self.put(path, bytes) {
            Ok(()) => Ok(()),
            Err(_) => Err(FileFault::Memory),
        }
    }

    fn is_same(&self, one: &str, other: &str) -> bool {
        one == other && self.held(one).is_some()
    }

    fn is_special(&self, _path: &str) -> bool {
        false
    }

    fn obstacle(&self, path: &str) -> Option<&'static str> {
        match self.held(path) {
            Some(_) => None,
            None => Some("No such file or directory"),
        }
    }

    /// Only memory can be lacking.
    fn refusal(&self) -> Option<&'static str> {
        None
    }

    fn touch(&mut self, path: &str) -> Result<(), FileFault> {
        if self.held(path).is_some() {
            return Ok(());
        }
        match self.add(path, Vec::new(self.alloc)) {
            Ok(()) => Ok(()),
            Err(_) => Err(FileFault::Memory),
        }
    }

    /// A line for which there is no memory is lost as a whole.
    fn report<D: Display + Drop>(&mut self, line: D) {
        if let Ok(line) = format!(in self.alloc; "{line}\n") {
            let _ = self.errors.extend_from_slice(line.as_str().as_bytes());
        }
    }
}

/// A copy of bytes, to be read from the first; `Memory` if out of memory.
fn copy_of(alloc: Global, bytes: &[u8]) -> Result<Cursor<Vec<u8>>, FileFault>
    ensures { IfOk result (λ file. cursor_remaining (λ v. Some v.items) file ≡ Some bytes.now) }
{
    match Vec::from_slice(alloc, bytes) {
        Ok(copy) => Ok(Cursor::new(copy)),
        Err(_) => Err(FileFault::Memory),
    }
}

/// The bytes of the newest version of the file of a path; `None` if there is none.
fn newest<'v>(versions: &'v [Version], path: &str) -> Option<&'v [u8]>
    ensures found { IfSome result (λ bytes. bytes_in path.now versions.now ≡ Some bytes.now) }
    ensures none { IfNone result (bytes_in path.now versions.now ≡ None) }
{
    for version in versions {
        if version.path.as_str() == path {
            return Some(version.bytes.as_slice());
        }
    }
    None
}
