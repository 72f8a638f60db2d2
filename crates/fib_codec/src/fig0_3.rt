//! FIG 0/3, packet components (EN 300 401 clause 6.3.2): the layout of its entries.
//!
//! SCId 12, Rfa 3, CAOrg flag 1, DG flag 1, Rfu 1, DSCTy 6, SubChId 6, packet address 10, and if
//! the CAOrg flag is set the CAOrg 16. The contract of `decode` says that `encode` and `decode`
//! agree: its result is encoded as these bytes, and nothing else is.

ghost use Rattle.std.specs.Prelude.{◌≡◌, ◌+◌, ◌*◌, ◌/◌, ◌≤◌, ◌++◌, if◌then◌else◌, length, get_or};
ghost use Rattle.fib_codec.specs.Grammar.{packet_len};
ghost use Rattle.fib_codec.specs.Ranges.{IsPacketEntry};
ghost use Rattle.fib_codec.specs.Spelling.{packet_bytes};
ghost use Rattle.mux_types.specs.declared.entry.PacketEntry.{PacketEntry as Entry};

use crate::bytes::{byte_at, u16_at, u16_of};
use crate::data::Data;
use mux_types::{Bits, PacketEntry, ScId, ScTy, SubId};

/// The length of an entry without a CAOrg, in bytes.
const PLAIN_LEN: usize = 5;

/// The length of an entry with a CAOrg, in bytes.
const CA_ORG_LEN: usize = 7;

/// The first 16 bits: the SCId, Rfa and the CAOrg flag.
const SCID_SHIFT: u32 = 4;

const RFA_SHIFT: u32 = 1;

const RFA_MASK: u16 = 0x0007;

const CA_ORG_FLAG: u8 = 0x01;

/// The third byte: the DG flag, Rfu and the DSCTy.
const DG_SHIFT: u32 = 7;

const RFU_SHIFT: u32 = 6;

const RFU_MASK: u8 = 0x01;

const TY_MASK: u8 = 0x3f;

/// The next 16 bits: the SubChId and the packet address.
const SUB_ID_SHIFT: u32 = 10;

const ADDRESS_MASK: u16 = 0x03ff;

/// The length of an entry in bytes, with a CAOrg or without.
pub fn len(has_ca_org: bool) -> usize
    ensures { result ≡ (if has_ca_org then 7 else 5) }
{
    if has_ca_org { CA_ORG_LEN } else { PLAIN_LEN }
}

/// The length of the entry at the front of these bytes, by its CAOrg flag.
pub fn len_at(bytes: &[u8]) -> usize
    ensures { result ≡ packet_len bytes.now }
{
    len(byte_at(bytes, 1) & CA_ORG_FLAG == 1)
}

/// The SCId of the entry at the front of these bytes: the twelve highest bits.
pub fn scid_at(bytes: &[u8]) -> u16
    ensures { result ≡ (get_or bytes.now 0 0 * 256 + get_or bytes.now 1 0) / 16 }
{
    u16_at(bytes, 0) >> SCID_SHIFT
}

/// Appends an entry.
pub(crate) fn encode(out: &mut Data, packet: PacketEntry)
    requires { length out.old + length (packet_bytes packet) ≤ 30 }
    ensures written { out.new ≡ out.old ++ packet_bytes packet }
    ensures within { IsPacketEntry packet }
{
    let flagged = u16::from(packet.ca_org.is_some());
    let flags = (packet.rfa.get() << RFA_SHIFT) | flagged;
    out.push_u16((packet.scid.get() << SCID_SHIFT) | flags);
    let ty = (u8::from(packet.rfu) << RFU_SHIFT) | packet.ty.get();
    out.push((u8::from(packet.dg) << DG_SHIFT) | ty);
    out.push_u16((u16::from(packet.sub.get()) << SUB_ID_SHIFT) | packet.address.get());
    match packet.ca_org {
        Some(org) => out.push_u16(org),
        None => {}
    }
}

/// The packet component that these bytes encode; no other has this encoding.
pub fn decode(bytes: &[u8]) -> PacketEntry
    requires { length bytes.now ≡ packet_len bytes.now }
    ensures spelled { bytes.now ≡ packet_bytes result }
    ensures within { IsPacketEntry result }
    ensures only { (e : Entry) → IsPacketEntry e → bytes.now ≡ packet_bytes e → result ≡ e }
{
    let front = u16_of(bytes[0], bytes[1]);
    let flags = bytes[2];
    let location = u16_of(bytes[3], bytes[4]);
    let ca_org = if front & u16::from(CA_ORG_FLAG) == 1 {
        Some(u16_of(bytes[5], bytes[6]))
    } else {
        None
    };
    PacketEntry {
        scid: ScId::new(front >> SCID_SHIFT).unwrap(),
        rfa: Bits::new((front >> RFA_SHIFT) & RFA_MASK).unwrap(),
        dg: flags >> DG_SHIFT == 1,
        rfu: (flags >> RFU_SHIFT) & RFU_MASK == 1,
        ty: ScTy::new(flags & TY_MASK).unwrap(),
        sub: SubId::new((location >> SUB_ID_SHIFT) as u8).unwrap(),
        address: Bits::new(location & ADDRESS_MASK).unwrap(),
        ca_org,
    }
}
