//! Reading the text of an event file or of a command file.

ghost use Rattle.std.specs.Prelude.{◌≡◌, ◌≢◌, ℕ, List, ◌++◌, true, OnOk, IfOk, IfErr, IfSome};
ghost use Rattle.std.specs.Prelude.{IsUtf8, string_bytes};
ghost use Rattle.plan_session.specs.declared.text_fault.TextFault.TheVariants.{NotUtf8};

use crate::text_fault::TextFault;
use std::alloc::Global;
use std::io::{self, ErrorKind, Read};
use std::str;

/// The maximum number of bytes read at once.
const PIECE: usize = 65_536;

/// The text of an event file or of a command file: all remaining bytes of a reader, which must be
/// UTF-8. It takes a byte of memory for a byte of text, and little more.
///
/// # Errors
///
/// `NotUtf8` if the text is not UTF-8; where its first bytes show that already, the rest is not
/// read. `Failed` if the reader fails before that; `Memory` if memory for the text runs out.
pub fn read_text<R: Read + Drop>(alloc: Global, source: R) -> Result<String, TextFault>
    ensures text { IfOk result (λ text. IfSome (R.remaining source)
        (λ whole. whole ≡ string_bytes text)) }
    ensures not_utf8 { IfErr result (λ e. e ≡ NotUtf8 → IfSome (R.remaining source)
        (λ whole. IsUtf8 whole → ⊥)) }
{
    let mut source = source;
    let bytes = read_bytes(alloc, &mut source)?;
    match String::from_utf8(bytes) {
        Ok(text) => Ok(text),
        Err(_) => Err(TextFault::NotUtf8),
    }
}

/// All remaining bytes of a reader; `NotUtf8` if no text begins with the first of them.
fn read_bytes<R: Read>(alloc: Global, source: &mut R) -> Result<Vec<u8>, TextFault>
    ensures all { IfOk result (λ bytes. IfSome (R.remaining source.old)
        (λ whole. whole ≡ bytes.items)) }
    ensures not_utf8 { IfErr result (λ e. e ≡ NotUtf8 → IfSome (R.remaining source.old)
        (λ whole. IsUtf8 whole → ⊥)) }
{
    let mut bytes = Vec::new(alloc);
    let mut piece = [0u8; PIECE];
    for _ in 0..u64::MAX {
        match source.read(&mut piece) {
            Ok(0) => return Ok(bytes),
            Ok(count) => match take_piece(&mut bytes, &piece[..count]) {
                Ok(()) => {}
                Err(fault) => return Err(fault),
            },
            Err(error) => {
                if error.kind() != ErrorKind::Interrupted {
                    return Err(fault_of(&error));
                }
            }
        }
    }
    Err(TextFault::Failed)
}

/// Appends the next piece of a text. `NotUtf8`: it is the first, and no text begins with it.
fn take_piece(bytes: &mut Vec<u8>, piece: &[u8]) -> Result<(), TextFault>
    ensures added { OnOk result (bytes.new.items ≡ bytes.old.items ++ piece.now) }
    ensures not_utf8 { IfErr result (λ e. e ≡ NotUtf8 → (rest : List ℕ)
        → IsUtf8 (bytes.old.items ++ (piece.now ++ rest)) → ⊥) }
{
    if bytes.is_empty() {
        if begins_no_text(piece) {
            return Err(TextFault::NotUtf8);
        }
    }
    append(bytes, piece)
}

/// Whether these bytes show that no text begins with them: behind whole characters are four bytes
/// with which none begins.
#[tactic(auto, using(crate::proofs::NoTexts::no_text_begins))]
fn begins_no_text(bytes: &[u8]) -> bool
    ensures { result ≡ true → (rest : List ℕ) → IsUtf8 (bytes.now ++ rest) → ⊥ }
{
    match str::from_utf8(bytes) {
        Ok(_) => false,
        Err(error) => bytes.len() - error.valid_up_to() >= 4,
    }
}

/// Appends bytes. The room grows by a sixty-fourth, so that little of it is never used, and each
/// byte is moved a few times at most.
fn append(bytes: &mut Vec<u8>, piece: &[u8]) -> Result<(), TextFault>
    ensures added { OnOk result (bytes.new.items ≡ bytes.old.items ++ piece.now) }
    ensures named { IfErr result (λ e. e ≢ NotUtf8) }
{
    if bytes.capacity() - bytes.len() < piece.len() {
        if bytes.reserve_exact(PIECE + bytes.len() / 64).is_err() {
            return Err(TextFault::Memory);
        }
    }
    match bytes.extend_from_slice(piece) {
        Ok(()) => Ok(()),
        Err(_) => Err(TextFault::Memory),
    }
}

/// The fault for a text whose reader returns an error.
fn fault_of(error: &io::Error) -> TextFault
    ensures { result ≢ NotUtf8 }
{
    match error.kind() {
        ErrorKind::OutOfMemory => TextFault::Memory,
        _ => TextFault::Failed,
    }
}
