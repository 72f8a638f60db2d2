//! FIG 0/0, ensemble information (EN 300 401 clause 6.4): the layout of its entry.
//!
//! EId 16, change flags 2, Al 1, CIF count high part 5 and low part 8, and if a change flag is set
//! the occurrence change 8. The contract of `decode` says that `encode` and `decode` agree: its
//! result is encoded as these bytes, and nothing else is.

ghost use Rattle.std.specs.Prelude.{◌≡◌, ◌+◌, ◌*◌, ◌/◌, ◌%◌, ◌≤◌, ◌++◌, if◌then◌else◌, length};
ghost use Rattle.std.specs.Prelude.{get_or};
ghost use Rattle.fib_codec.specs.Grammar.{ensemble_len, IsCounted};
ghost use Rattle.fib_codec.specs.Ranges.{IsEnsembleInformation};
ghost use Rattle.fib_codec.specs.Spelling.{bit_of, ensemble_bytes};
ghost use Rattle.mux_types.specs.Entries.{EnsembleInformation};

use crate::bytes::{byte_at, u16_at, u16_of};
use crate::data::Data;
use mux_types::Ensemble;

/// The length without an occurrence change, in bytes.
const PLAIN_LEN: usize = 4;

/// The length with an occurrence change, in bytes.
const FLAGGED_LEN: usize = 5;

/// The third byte: the change flags, Al, and the CIF count's high part.
const CHANGE_SHIFT: u32 = 6;

const AL_SHIFT: u32 = 5;

const AL_MASK: u8 = 0x01;

const COUNT_HIGH_MASK: u8 = 0x1f;

/// The low part of the CIF count is below this.
const COUNT_LOW_RANGE: u16 = 250;

/// The length of the entry in bytes, with a change flag set or without.
pub fn len(flagged: bool) -> usize
    ensures { result ≡ (if flagged then 5 else 4) }
{
    if flagged { FLAGGED_LEN } else { PLAIN_LEN }
}

/// The length of the entry at the front of these bytes, by its change flags.
pub fn len_at(bytes: &[u8]) -> usize
    ensures { result ≡ ensemble_len bytes.now }
{
    len(byte_at(bytes, 2) >> CHANGE_SHIFT != 0)
}

/// The EId of the entry at the front of these bytes.
pub fn eid_at(bytes: &[u8]) -> u16
    ensures { result ≡ get_or bytes.now 0 0 * 256 + get_or bytes.now 1 0 }
{
    u16_at(bytes, 0)
}

/// The third byte of the entry: the change flags, Al, and the high part of the CIF count.
pub fn third_byte(ensemble: Ensemble) -> u8
    ensures { result ≡ ensemble.change * 64 + bit_of ensemble.al * 32 + ensemble.count / 250 }
{
    let high = (ensemble.count() / COUNT_LOW_RANGE) as u8;
    let al = (u8::from(ensemble.al()) << AL_SHIFT) | high;
    (ensemble.change() << CHANGE_SHIFT) | al
}

/// The fourth byte of the entry: the low part of the CIF count.
pub fn fourth_byte(ensemble: Ensemble) -> u8
    ensures { result ≡ ensemble.count % 250 }
{
    (ensemble.count() % COUNT_LOW_RANGE) as u8
}

/// Appends the entry.
pub(crate) fn encode(out: &mut Data, ensemble: Ensemble)
    requires { length out.old + length (ensemble_bytes ensemble) ≤ 30 }
    ensures written { out.new ≡ out.old ++ ensemble_bytes ensemble }
    ensures within { IsEnsembleInformation ensemble }
{
    out.push_u16(ensemble.eid());
    out.push(third_byte(ensemble));
    out.push(fourth_byte(ensemble));
    match ensemble.occurrence() {
        Some(low) => out.push(low),
        None => {}
    }
}

/// The ensemble information that these bytes encode; no other has this encoding.
pub fn decode(bytes: &[u8]) -> Ensemble
    requires whole { length bytes.now ≡ ensemble_len bytes.now }
    requires counted { IsCounted bytes.now }
    ensures spelled { bytes.now ≡ ensemble_bytes result }
    ensures within { IsEnsembleInformation result }
    ensures only { (e : EnsembleInformation) → IsEnsembleInformation e
        → bytes.now ≡ ensemble_bytes e → result ≡ e }
{
    let flags = bytes[2];
    let change = flags >> CHANGE_SHIFT;
    let high = u16::from(flags & COUNT_HIGH_MASK);
    let occurrence = if change > 0 { Some(bytes[4]) } else { None };
    Ensemble::new(
        u16_of(bytes[0], bytes[1]),
        change,
        (flags >> AL_SHIFT) & AL_MASK == 1,
        high * COUNT_LOW_RANGE + u16::from(bytes[3]),
        occurrence,
    )
    .unwrap()
}
