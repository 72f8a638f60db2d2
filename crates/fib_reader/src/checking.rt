//! Checks a FIB: its CRC, then its FIGs and entries from the front.

ghost use Rattle.std.specs.Prelude.{◌≡◌, ◌+◌, ◌<◌, ◌≤◌, List, length, Ok, IfOk, IfErr};
ghost use Rattle.fib_codec.specs.Extensions.{number_of};
ghost use Rattle.fib_codec.specs.Grammar.{Fig, IsFib};
ghost use Rattle.fib_reader.specs.Faults.{IsFibFault};
ghost use Rattle.fib_reader.specs.FirstFault.{entries_fault, ensemble_fault, body_fault, fig_fault};
ghost use Rattle.fib_reader.specs.FirstFault.{figs_fault};

use crate::bytes::entry_len_of;
use crate::fault::FibFault;
use crate::figs::Figs;
use fib_codec::bytes::byte_at;
use fib_codec::head::{extension_of, is_long_of};
use fib_codec::{Extension, is_checked};

/// The offset of the first entry that is not whole.
fn entries_fault_of(extension: Extension, long: bool, offset: usize, bytes: &[u8]) -> Option<usize>
    requires { offset + length bytes.now ≤ 32 }
    ensures { result
        ≡ entries_fault (length bytes.now) (number_of extension) long offset bytes.now }
{
    let mut at = offset;
    let mut rest = bytes;
    while !rest.is_empty() {
        let len = entry_len_of(extension, long, rest);
        if rest.len() < len {
            return Some(at);
        }
        let (_, after) = rest.split_at(len);
        at += len;
        rest = after;
    }
    None
}

/// The offset of the fault in the bytes after FIG 0/0's second byte, which must be exactly one
/// entry.
fn ensemble_fault_of(offset: usize, bytes: &[u8]) -> Option<usize>
    requires { offset + length bytes.now ≤ 32 }
    ensures { result ≡ ensemble_fault offset bytes.now }
{
    let len = entry_len_of(Extension::Ensemble, false, bytes);
    if bytes.len() < len {
        return Some(offset);
    }
    if byte_at(bytes, 2) % 32 > 19 {
        return Some(offset);
    }
    if byte_at(bytes, 3) > 249 {
        return Some(offset);
    }
    if bytes.len() > len {
        return Some(offset + len);
    }
    None
}

/// The offset of the first entry at fault.
fn body_fault_of(extension: Extension, long: bool, offset: usize, bytes: &[u8]) -> Option<usize>
    requires { offset + length bytes.now ≤ 32 }
    ensures { result ≡ body_fault (number_of extension) long offset bytes.now }
{
    match extension {
        Extension::Ensemble => ensemble_fault_of(offset, bytes),
        Extension::SubChannels | Extension::Services | Extension::Packets => {
            entries_fault_of(extension, long, offset, bytes)
        }
    }
}

/// The fault of one FIG with its header at `offset`, followed by `bytes`.
fn fig_fault_of(offset: usize, header: u8, bytes: &[u8]) -> Option<FibFault>
    requires { offset + 1 + length bytes.now ≤ 32 }
    ensures { result ≡ fig_fault offset header bytes.now }
{
    if bytes.len() < usize::from(header % 32) {
        return Some(FibFault::Overrun(offset));
    }
    if header > 31 {
        return None;
    }
    if header == 0 {
        return Some(FibFault::Entry(offset));
    }
    let second = byte_at(bytes, 0);
    let Some(extension) = extension_of(second) else {
        return None;
    };
    let (fig, _) = bytes.split_at(usize::from(header));
    let (_, body) = fig.split_at(1);
    match body_fault_of(extension, is_long_of(second), offset + 2, body) {
        Some(at) => Some(FibFault::Entry(at)),
        None => None,
    }
}

/// The first fault of the FIGs in the data bytes.
fn figs_fault_of(bytes: &[u8]) -> Option<FibFault>
    requires { length bytes.now ≤ 30 }
    ensures { result ≡ figs_fault (length bytes.now) 0 bytes.now }
{
    let mut at = 0;
    let mut rest = bytes;
    while !rest.is_empty() {
        let header = byte_at(rest, 0);
        if header == 255 {
            return None;
        }
        let (_, body) = rest.split_at(1);
        if let Some(fault) = fig_fault_of(at, header, body) {
            return Some(fault);
        }
        let len = usize::from(header % 32);
        let (_, after) = body.split_at(len);
        at += 1 + len;
        rest = after;
    }
    None
}

/// Checks a FIB: its CRC, then its FIGs from the front to the end of the data bytes or to an end
/// marker instead of a header (EN 300 401 clauses 5.2.1 and 5.2.2). Without a fault, returns the
/// FIGs in order.
///
/// FIGs of types 1 to 7, of extensions above 3 and of other ensembles are not parsed. Those of
/// extensions 0 to 3 must consist of whole entries, and FIG 0/0 of exactly one, with a CIF count in
/// range; any other field value is accepted. Of several faults the first is reported:
/// - `Crc`: the last two bytes are not the CRC of the others;
/// - `Overrun`, at the header of a FIG that is longer than the data bytes that are left;
/// - `Entry`, at the first byte of an entry at fault, or at the header of a FIG of type 0 without a
/// second byte.
pub fn check(bytes: &[u8; 32]) -> Result<Figs<'_>, FibFault>
    ensures figs { IfOk result (λ figs. IsFib bytes.now figs) }
    ensures every { (figs : List Fig) → IsFib bytes.now figs → result ≡ Ok figs }
    ensures fault { IfErr result (λ fault. IsFibFault bytes.now fault) }
{
    if !is_checked(bytes) {
        return Err(FibFault::Crc);
    }
    let data = &bytes[..30];
    if let Some(fault) = figs_fault_of(data) {
        return Err(fault);
    }
    Ok(Figs::of(data))
}
