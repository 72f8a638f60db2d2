//! FIG 0/1, sub-channels (EN 300 401 clause 6.2.1): the layout of its entries in both forms.
//!
//! An entry begins with 16 bits: SubChId 6, start address 10. Long form: 1, option 3, protection
//! level 2, size 10. Short form: 0, table switch 1, table index 6. The contracts of `decode_long`
//! and `decode_short` say that encoding and decoding agree: their result is encoded as these bytes,
//! and nothing else is.

ghost use Rattle.std.specs.Prelude.{◌≡◌, ◌+◌, ◌<◌, ◌≤◌, ◌↔◌, ◌/◌, ◌==◌, ◌++◌, IsTrue};
ghost use Rattle.std.specs.Prelude.{if◌then◌else◌, length, get_or};
ghost use Rattle.fib_codec.specs.Grammar.{sub_len};
ghost use Rattle.fib_codec.specs.Ranges.{IsSubEntry, IsShortEntry};
ghost use Rattle.fib_codec.specs.Spelling.{sub_bytes, short_bytes};
ghost use Rattle.mux_types.specs.declared.entry.SubEntry.{SubEntry as Long};
ghost use Rattle.mux_types.specs.declared.entry.ShortEntry.{ShortEntry as Short};

use crate::bytes::{byte_at, u16_of};
use crate::data::Data;
use mux_types::{Bits, ShortEntry, SubEntry, SubId};

/// The length of an entry in the long form, in bytes.
const LONG_LEN: usize = 4;

/// The length of an entry in the short form, in bytes.
const SHORT_LEN: usize = 3;

/// The form bit, the highest one of the third byte: 1 in the long form.
const LONG_FORM: u8 = 0x80;

/// The first 16 bits of an entry in either form.
const SUB_ID_SHIFT: u32 = 10;

const START_MASK: u16 = 0x03ff;

/// The 16 bits that follow in the long form, after the form bit.
const OPTION_SHIFT: u32 = 12;

const OPTION_MASK: u16 = 0x0007;

const LEVEL_SHIFT: u32 = 10;

const LEVEL_MASK: u16 = 0x0003;

const SIZE_MASK: u16 = 0x03ff;

/// The byte that follows in the short form.
const SWITCH_SHIFT: u32 = 6;

const TABLE_MASK: u8 = 0x3f;

/// The length of an entry in bytes, in the long form or in the short one.
pub fn len(long_form: bool) -> usize
    ensures { result ≡ (if long_form then 4 else 3) }
{
    if long_form { LONG_LEN } else { SHORT_LEN }
}

/// Whether the entry at the front of these bytes is in the long form.
pub fn is_long_form(bytes: &[u8]) -> bool
    ensures form { result ≡ (get_or bytes.now 2 0 / 128 == 1) }
    ensures third_byte { IsTrue result ↔ (128 ≤ get_or bytes.now 2 0) }
{
    byte_at(bytes, 2) >= LONG_FORM
}

/// The length of the entry at the front of these bytes, by its third byte.
pub fn len_at(bytes: &[u8]) -> usize
    ensures { result ≡ sub_len bytes.now }
{
    len(is_long_form(bytes))
}

/// The SubChId of the entry at the front of these bytes, in either form: the six highest bits.
pub fn sub_id_at(bytes: &[u8]) -> u8
    ensures value { result ≡ get_or bytes.now 0 0 / 4 }
    ensures in_range { result < 64 }
{
    byte_at(bytes, 0) >> (SUB_ID_SHIFT - u8::BITS)
}

/// Appends an entry in the long form.
pub(crate) fn encode_long(out: &mut Data, sub: SubEntry)
    requires { length out.old + 4 ≤ 30 }
    ensures written { out.new ≡ out.old ++ sub_bytes sub }
    ensures within { IsSubEntry sub }
{
    out.push_u16((u16::from(sub.id.get()) << SUB_ID_SHIFT) | sub.start.get());
    let protection = (sub.level.get() << LEVEL_SHIFT) | sub.size.get();
    let profile = (sub.option.get() << OPTION_SHIFT) | protection;
    out.push_u16(u16_of(LONG_FORM, 0) | profile);
}

/// Appends an entry in the short form.
pub(crate) fn encode_short(out: &mut Data, short: ShortEntry)
    requires { length out.old + 3 ≤ 30 }
    ensures written { out.new ≡ out.old ++ short_bytes short }
    ensures within { IsShortEntry short }
{
    out.push_u16((u16::from(short.id.get()) << SUB_ID_SHIFT) | short.start.get());
    out.push((u8::from(short.switch) << SWITCH_SHIFT) | short.table.get() as u8);
}

/// The sub-channel in the long form that these bytes encode; no other has this encoding.
pub fn decode_long(bytes: &[u8]) -> SubEntry
    requires whole { length bytes.now ≡ 4 }
    requires long { 128 ≤ get_or bytes.now 2 0 }
    ensures spelled { bytes.now ≡ sub_bytes result }
    ensures within { IsSubEntry result }
    ensures only { (e : Long) → IsSubEntry e → bytes.now ≡ sub_bytes e → result ≡ e }
{
    let front = u16_of(bytes[0], bytes[1]);
    let size = u16_of(bytes[2], bytes[3]);
    SubEntry {
        id: SubId::new((front >> SUB_ID_SHIFT) as u8).unwrap(),
        start: Bits::new(front & START_MASK).unwrap(),
        option: Bits::new((size >> OPTION_SHIFT) & OPTION_MASK).unwrap(),
        level: Bits::new((size >> LEVEL_SHIFT) & LEVEL_MASK).unwrap(),
        size: Bits::new(size & SIZE_MASK).unwrap(),
    }
}

/// The sub-channel in the short form that these bytes encode; no other has this encoding.
pub fn decode_short(bytes: &[u8]) -> ShortEntry
    requires whole { length bytes.now ≡ 3 }
    requires short { get_or bytes.now 2 0 < 128 }
    ensures spelled { bytes.now ≡ short_bytes result }
    ensures within { IsShortEntry result }
    ensures only { (e : Short) → IsShortEntry e → bytes.now ≡ short_bytes e → result ≡ e }
{
    let front = u16_of(bytes[0], bytes[1]);
    let table = bytes[2];
    ShortEntry {
        id: SubId::new((front >> SUB_ID_SHIFT) as u8).unwrap(),
        start: Bits::new(front & START_MASK).unwrap(),
        switch: table >> SWITCH_SHIFT == 1,
        table: Bits::new(u16::from(table & TABLE_MASK)).unwrap(),
    }
}
