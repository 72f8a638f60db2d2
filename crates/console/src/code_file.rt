//! Reads code files, up to a bound that no code file exceeds.

ghost use Rattle.std.specs.Prelude.{◌≡◌, ◌≢◌, ℕ, List, codes, take, IfOk, IfSome};
ghost use Rattle.std.specs.Io.KnownBytes.{Keeps};
ghost use Rattle.console.specs.World.{Stays};

use crate::exit::{Failure, read_file, read_input};
use crate::files::Files;
use std::alloc::Global;

/// More bytes than any code file has: 256 configurations, 1,024 labels and 4,096 instructions, each
/// of the greatest length, take 943,889.
const MOST_BYTES: usize = 1_048_576;

/// Reads a code file, or returns why it can't be read. A file longer than any code file is read
/// only as far as its first fault needs. Files keep their bytes.
pub fn read_code<'a, F: Files>(
    alloc: Global,
    files: &mut F,
    path: &'a str,
) -> Result<Vec<u8>, Failure<'a>>
    ensures bytes { IfOk result (λ read. IfSome (F.known files.old path.now)
        (λ bytes. read.items ≡ take 1048577 bytes)) }
    ensures files { (other : List ℕ)
        → Keeps (F.known files.old other) (F.known files.new other) }
    ensures world { Stays (F.world files.old) (F.world files.new) }
{
    read_file(alloc, files, path, MOST_BYTES + 1)
}

/// Like [`read_code`], with standard input for the path `-`.
pub fn read_code_input<'a, F: Files>(
    alloc: Global,
    files: &mut F,
    path: &'a str,
) -> Result<Vec<u8>, Failure<'a>>
    ensures input { path.now ≡ codes "-" → IfOk result (λ read.
        IfSome (F.known_input files.old) (λ bytes. read.items ≡ take 1048577 bytes)) }
    ensures file { path.now ≢ codes "-" → IfOk result (λ read.
        IfSome (F.known files.old path.now) (λ bytes. read.items ≡ take 1048577 bytes)) }
    ensures world { Stays (F.world files.old) (F.world files.new) }
{
    read_input(alloc, files, path, MOST_BYTES + 1)
}
