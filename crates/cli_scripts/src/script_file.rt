//! Reads scripts, up to a bound that no script exceeds.

ghost use Rattle.std.specs.Prelude.{◌≡◌, ◌≢◌, ℕ, List, codes, ◌<◌, ◌≤◌, take, length, IfOk, OnOk};
ghost use Rattle.std.specs.Prelude.{OnErr, IfSome, IsUtf8};
ghost use Rattle.std.specs.Io.KnownBytes.{Keeps};
ghost use Rattle.console.specs.World.{Stays};
ghost use Rattle.cli_scripts.specs.FileTexts.{IsReadOf};

use console::exit::{Failure, read_file, read_input};
use console::files::Files;
use script_tokens::token::MOST_BYTES;
use std::alloc::Global;
use std::str;

/// The most bytes read of a file: more than any script has, and one whole character after them.
const READ: usize = MOST_BYTES + 5;

/// The first bytes of a script's file, or why it can't be read: all bytes of a file within the size
/// limit of scripts, and of a longer one just enough to detect that it is longer. All files keep
/// their bytes.
pub fn read_script<'a, F: Files>(
    alloc: Global,
    files: &mut F,
    path: &'a str,
) -> Result<Vec<u8>, Failure<'a>>
    ensures bytes { IfOk result (λ read. IfSome (F.known files.old path.now)
        (λ bytes. read.items ≡ take 1048581 bytes)) }
    ensures known { (other : List ℕ)
        → Keeps (F.known files.old other) (F.known files.new other) }
    ensures world { Stays (F.world files.old) (F.world files.new) }
{
    read_file(alloc, files, path, READ)
}

/// Like [`read_script`], with standard input for the path `-`.
pub fn read_script_input<'a, F: Files>(
    alloc: Global,
    files: &mut F,
    path: &'a str,
) -> Result<Vec<u8>, Failure<'a>>
    ensures input { path.now ≡ codes "-" → IfOk result (λ read.
        IfSome (F.known_input files.old) (λ bytes. read.items ≡ take 1048581 bytes)) }
    ensures file { path.now ≢ codes "-" → IfOk result (λ read.
        IfSome (F.known files.old path.now) (λ bytes. read.items ≡ take 1048581 bytes)) }
    ensures known { (other : List ℕ)
        → Keeps (F.known files.old other) (F.known files.new other) }
    ensures world { Stays (F.world files.old) (F.world files.new) }
{
    read_input(alloc, files, path, READ)
}

/// Drops a character that was cut at the end of the bytes: of a file read to the limit, keeps the
/// bytes before a character that begins after the longest script. In UTF-8 one of four successive
/// bytes begins a character.
pub fn whole_characters(bytes: &[u8]) -> &[u8]
    ensures short { length bytes.now < 1048581 → result.now ≡ bytes.now }
    ensures long { 1048581 ≤ length bytes.now → 1048576 < length result.now }
    ensures front { result.now ≡ take (length result.now) bytes.now }
{
    if bytes.len() < READ {
        return bytes;
    }
    for at in MOST_BYTES + 1..READ {
        if bytes[at] & 0xC0 != 0x80 {
            return &bytes[..at];
        }
    }
    bytes
}

/// The bytes of a file as text; a file that is not UTF-8 can't be read.
pub fn text_of<'b, 'a>(bytes: &'b [u8], path: &'a str) -> Result<&'b str, Failure<'a>>
    ensures text { IfOk result (λ text. text.now ≡ bytes.now) }
    ensures utf8 { OnOk result (IsUtf8 bytes.now) }
    ensures fault { OnErr result (IsUtf8 bytes.now → ⊥) }
{
    match str::from_utf8(bytes) {
        Ok(text) => Ok(text),
        Err(_) => Err(Failure::Read(path)),
    }
}

/// The text of a script's file, of which these are the first bytes, as [`read_script`] reads them;
/// a file that is not UTF-8 can't be read. Of a file longer than any script it is more than any
/// script has.
pub(crate) fn script_text<'b, 'a>(bytes: &'b [u8], path: &'a str) -> Result<&'b str, Failure<'a>>
    ensures text { (file : List ℕ) → bytes.now ≡ take 1048581 file
        → IfOk result (λ text. IsReadOf file text.now) }
{
    let kept = whole_characters(bytes);
    text_of(kept, path)
}
