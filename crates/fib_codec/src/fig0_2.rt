//! FIG 0/2, services and their components (EN 300 401 clause 6.3.1): the layout of its entries.
//!
//! SId 16 or 32 by the P/D flag, Rfa 1, CAId 3, number of components 4, then 16 bits for each
//! component: TMId 2, ASCTy or DSCTy 6 and SubChId 6, or SCId 12, then P/S 1 and CA 1. The contract
//! of `decode` says that `encode` and `decode` agree: its result is encoded as these bytes, and
//! nothing else is.

ghost use Rattle.std.specs.Prelude.{◌≡◌, ◌+◌, ◌*◌, ◌%◌, ◌≤◌, ◌<◌, ◌++◌, ◌∷◌, [], if◌then◌else◌};
ghost use Rattle.std.specs.Prelude.{length, get_or};
ghost use Rattle.byteorder.specs.Endian.{big_bytes};
ghost use Rattle.fib_codec.specs.Grammar.{service_len};
ghost use Rattle.fib_codec.specs.Ranges.{IsComponentEntry, IsServiceEntry};
ghost use Rattle.fib_codec.specs.Spelling.{bit_of, sid_size, sid_bytes, is_long_sid, component_u16};
ghost use Rattle.fib_codec.specs.Spelling.{components_bytes, service_bytes};
ghost use Rattle.mux_types.specs.Configuration.{IsSid};
ghost use Rattle.std.specs.List.{AllByRecursion};
ghost use Rattle.mux_types.specs.declared.entry.ServiceEntry.{ServiceEntry as Entry};

use crate::bytes::{byte_at, u16_at, u16_of, u32_of};
use crate::data::Data;
use mux_types::{Bits, BoundedVec, ComponentEntry, ScId, ScTy, ServiceEntry, Sid, SubId};

/// The length before the components with a 16-bit SId, in bytes.
const SHORT_HEAD_LEN: usize = 3;

/// The length before the components with a 32-bit SId, in bytes.
const LONG_HEAD_LEN: usize = 5;

/// The length of a component, in bytes.
const COMPONENT_LEN: usize = 2;

/// The byte before the components: Rfa, CAId and their number.
const RFA_SHIFT: u32 = 7;

const CA_ID_SHIFT: u32 = 4;

const CA_ID_MASK: u8 = 0x07;

const COUNT_MASK: u8 = 0x0f;

/// The TMId of a component is its two highest bits.
const TM_ID_SHIFT: u32 = 14;

const TM_ID_SOUND: u16 = 0;

const TM_ID_STREAM: u16 = 1;

const TM_ID_OTHER: u16 = 2;

const TM_ID_PACKET: u16 = 3;

/// The fourteen bits after the TMId.
const OTHER_MASK: u16 = 0x3fff;

/// The bits after the TMId: the type and the SubChId, or the SCId, and the two flags.
const TY_SHIFT: u32 = 6;

const TY_MASK: u8 = 0x3f;

const FIELD_SHIFT: u32 = 2;

const PRIMARY_SHIFT: u32 = 1;

const FLAG_MASK: u16 = 0x0001;

/// The length of an entry before its components in bytes, with a 32-bit SId or a 16-bit one.
fn head_len(long: bool) -> usize
    ensures { result ≡ (if long then 5 else 3) }
{
    if long { LONG_HEAD_LEN } else { SHORT_HEAD_LEN }
}

/// The length of an entry in bytes, with a 32-bit SId or a 16-bit one and this many components.
pub fn len(long: bool, count: usize) -> usize
    requires { count ≤ 15 }
    ensures { result ≡ (if long then 5 + 2 * count else 3 + 2 * count) }
{
    head_len(long) + COMPONENT_LEN * count
}

/// The length of the entry at the front of these bytes under this P/D flag, by its number of
/// components.
pub fn len_at(long: bool, bytes: &[u8]) -> usize
    ensures { result ≡ service_len long bytes.now }
{
    let counted = byte_at(bytes, head_len(long) - 1);
    len(long, usize::from(counted & COUNT_MASK))
}

/// The 16-bit SId of the entry at the front of these bytes.
pub fn short_sid_at(bytes: &[u8]) -> u16
    ensures { result ≡ get_or bytes.now 0 0 * 256 + get_or bytes.now 1 0 }
{
    u16_at(bytes, 0)
}

/// The 32-bit SId of the entry at the front of these bytes.
pub fn long_sid_at(bytes: &[u8]) -> u32
    ensures { result ≡ (get_or bytes.now 0 0 * 256 + get_or bytes.now 1 0) * 65536
        + (get_or bytes.now 2 0 * 256 + get_or bytes.now 3 0) }
{
    u32_of(u16_at(bytes, 0), u16_at(bytes, 2))
}

fn encode_sid(out: &mut Data, sid: Sid)
    requires { length out.old + sid_size sid ≤ 30 }
    ensures written { out.new ≡ out.old ++ sid_bytes sid }
    ensures within { IsSid sid }
{
    match sid {
        Sid::Short(number) => out.push_u16(number),
        Sid::Long(number) => out.push_u32(number),
    }
}

/// Appends the start of an entry, before its components.
pub(crate) fn encode_head(out: &mut Data, sid: Sid, rfa: bool, ca_id: Bits<3>, count: usize)
    requires few { count ≤ 15 }
    requires room { length out.old + sid_size sid + 1 ≤ 30 }
    ensures written { let counted = bit_of rfa * 128 + ca_id * 16 + count in
        out.new ≡ out.old ++ sid_bytes sid ++ counted ∷ [] }
    ensures within { IsSid sid }
    ensures ca_id { ca_id < 8 }
{
    encode_sid(out, sid);
    let counted = ((ca_id.get() as u8) << CA_ID_SHIFT) | count as u8;
    out.push((u8::from(rfa) << RFA_SHIFT) | counted);
}

/// The 16 bits of a component: its TMId, the twelve bits that follow, the P/S flag and the CA flag.
fn component_word_of(tm_id: u16, field: u16, primary: bool, ca: bool) -> u16
    requires tm_id { tm_id < 4 }
    requires field { field < 4096 }
    ensures { result ≡ tm_id * 16384 + field * 4 + bit_of primary * 2 + bit_of ca }
{
    let flags = (u16::from(primary) << PRIMARY_SHIFT) | u16::from(ca);
    let fields = (field << FIELD_SHIFT) | flags;
    (tm_id << TM_ID_SHIFT) | fields
}

/// The twelve bits with the type and the sub-channel of a component.
fn type_and_sub(ty: ScTy, sub: SubId) -> u16
    ensures value { result ≡ ty * 64 + sub }
    ensures in_range { (ty < 64) × (sub < 64) }
{
    (u16::from(ty.get()) << TY_SHIFT) | u16::from(sub.get())
}

/// The 16 bits of a component.
fn component_bits(component: ComponentEntry) -> u16
    ensures word { result ≡ component_u16 component }
    ensures within { IsComponentEntry component }
{
    match component {
        ComponentEntry::Sound {
            ty,
            sub,
            primary,
            ca,
        } => component_word_of(TM_ID_SOUND, type_and_sub(ty, sub), primary, ca),
        ComponentEntry::Stream {
            ty,
            sub,
            primary,
            ca,
        } => component_word_of(TM_ID_STREAM, type_and_sub(ty, sub), primary, ca),
        ComponentEntry::Other { bits } => (TM_ID_OTHER << TM_ID_SHIFT) | bits.get(),
        ComponentEntry::Packet { scid, primary, ca } => {
            component_word_of(TM_ID_PACKET, scid.get(), primary, ca)
        }
    }
}

/// Appends the two bytes of a component.
pub(crate) fn encode_component(out: &mut Data, component: ComponentEntry)
    requires { length out.old + 2 ≤ 30 }
    ensures written { out.new ≡ out.old ++ big_bytes 2 (component_u16 component) }
    ensures within { IsComponentEntry component }
{
    out.push_u16(component_bits(component));
}

fn encode_components(out: &mut Data, components: &[ComponentEntry])
    requires { length out.old + 2 * length components.now ≤ 30 }
    ensures written { out.new ≡ out.old ++ components_bytes components.now }
    ensures within { AllByRecursion IsComponentEntry components.now }
{
    for component in components {
        encode_component(out, *component);
    }
}

/// Appends an entry.
pub(crate) fn encode(out: &mut Data, service: &ServiceEntry)
    requires { let count = length service.now.components in
        length out.old + sid_size service.now.sid + 1 + 2 * count ≤ 30 }
    ensures written { out.new ≡ out.old ++ service_bytes service.now }
    ensures within { IsServiceEntry service.now }
{
    let count = service.components.len();
    encode_head(out, service.sid, service.rfa, service.ca_id, count);
    encode_components(out, service.components.as_slice());
}

/// The component encoded in two bytes.
fn decode_component(high: u8, low: u8) -> ComponentEntry
    ensures spelled { high ∷ low ∷ [] ≡ big_bytes 2 (component_u16 result) }
    ensures within { IsComponentEntry result }
{
    let word = u16_of(high, low);
    let primary = (word >> PRIMARY_SHIFT) & FLAG_MASK == 1;
    let ca = word & FLAG_MASK == 1;
    match word >> TM_ID_SHIFT {
        TM_ID_SOUND => ComponentEntry::Sound {
            ty: ScTy::new(high & TY_MASK).unwrap(),
            sub: SubId::new(low >> FIELD_SHIFT).unwrap(),
            primary,
            ca,
        },
        TM_ID_STREAM => ComponentEntry::Stream {
            ty: ScTy::new(high & TY_MASK).unwrap(),
            sub: SubId::new(low >> FIELD_SHIFT).unwrap(),
            primary,
            ca,
        },
        TM_ID_OTHER => ComponentEntry::Other {
            bits: Bits::new(word & OTHER_MASK).unwrap(),
        },
        TM_ID_PACKET => ComponentEntry::Packet {
            scid: ScId::new((word & OTHER_MASK) >> FIELD_SHIFT).unwrap(),
            primary,
            ca,
        },
        _ => unreachable!(),
    }
}

/// Decodes the components in these bytes and appends them to an empty list.
fn decode_components(components: &mut BoundedVec<ComponentEntry, 15>, bytes: &[u8])
    requires none { components.old ≡ [] }
    requires few { length bytes.now ≤ 30 }
    requires even { length bytes.now % 2 ≡ 0 }
    ensures spelled { bytes.now ≡ components_bytes components.new }
    ensures count { length bytes.now ≡ 2 * length components.new }
    ensures within { AllByRecursion IsComponentEntry components.new }
{
    let mut rest = bytes;
    while rest.len() >= COMPONENT_LEN {
        components.push(decode_component(rest[0], rest[1]));
        let (_, after) = rest.split_at(COMPONENT_LEN);
        rest = after;
    }
}

/// The service that these bytes encode under this P/D flag; no other has this encoding.
pub fn decode(long: bool, bytes: &[u8]) -> ServiceEntry
    requires { length bytes.now ≡ service_len long bytes.now }
    ensures spelled { bytes.now ≡ service_bytes result }
    ensures form { is_long_sid result.sid ≡ long }
    ensures within { IsServiceEntry result }
    ensures only { (e : Entry) → IsServiceEntry e → is_long_sid e.sid ≡ long
        → bytes.now ≡ service_bytes e → result ≡ e }
{
    let (head, components) = bytes.split_at(head_len(long));
    let sid = if long {
        Sid::Long(u32_of(u16_of(head[0], head[1]), u16_of(head[2], head[3])))
    } else {
        Sid::Short(u16_of(head[0], head[1]))
    };
    let counted = head[head.len() - 1];
    let mut service = ServiceEntry {
        sid,
        rfa: counted >> RFA_SHIFT == 1,
        ca_id: Bits::new(u16::from((counted >> CA_ID_SHIFT) & CA_ID_MASK)).unwrap(),
        components: BoundedVec::new(),
    };
    decode_components(&mut service.components, components);
    service
}
