//! Appends the fields of a record to bytes.

ghost use Rattle.std.specs.Prelude.{◌≡◌, ◌++◌, OnOk};
ghost use Rattle.std.specs.Int.{w32, to_be_bytes};
ghost use Rattle.mux_config.specs.FieldSpelling.{u16_bytes, protection_bytes, sid_field};
ghost use Rattle.mux_config.specs.FieldSpelling.{component_bytes};

use byteorder::{BigEndian, ByteOrder};
use mux_eep::{EepSet, Protection};
use mux_types::{Component, Sid};
use std::alloc::AllocError;

/// Writes a two-byte number.
pub fn put_u16(out: &mut Vec<u8>, number: u16) -> Result<(), AllocError>
    ensures { OnOk result (out.new.items ≡ out.old.items ++ u16_bytes number) }
{
    let mut bytes = [0; 2];
    BigEndian::write_u16(&mut bytes, number);
    out.extend_from_slice(&bytes)
}

/// Writes a four-byte number.
pub fn put_u32(out: &mut Vec<u8>, number: u32) -> Result<(), AllocError>
    ensures { OnOk result (out.new.items ≡ out.old.items ++ to_be_bytes w32 number) }
{
    let mut bytes = [0; 4];
    BigEndian::write_u32(&mut bytes, number);
    out.extend_from_slice(&bytes)
}

/// Writes a protection profile: its set, 0 for A and 1 for B, and its level.
pub fn put_protection(out: &mut Vec<u8>, protection: Protection) -> Result<(), AllocError>
    ensures { OnOk result (out.new.items ≡ out.old.items ++ protection_bytes protection) }
{
    let set = match protection.set() {
        EepSet::A => 0,
        EepSet::B => 1,
    };
    out.extend_from_slice(&[set, protection.level()])
}

/// Writes an SId: its kind, 0 for 16 bits and 1 for 32, and its number.
pub fn put_sid(out: &mut Vec<u8>, sid: Sid) -> Result<(), AllocError>
    ensures { OnOk result (out.new.items ≡ out.old.items ++ sid_field sid) }
{
    match sid {
        Sid::Short(id) => {
            out.push(0)?;
            put_u16(out, id)
        }
        Sid::Long(id) => {
            out.push(1)?;
            put_u32(out, id)
        }
    }
}

/// Writes a component: its TMId, and its type and carrier.
pub fn put_component(out: &mut Vec<u8>, component: &Component) -> Result<(), AllocError>
    ensures { OnOk result (out.new.items ≡ out.old.items ++ component_bytes component.now) }
{
    match *component {
        Component::Sound { ty, sub } => out.extend_from_slice(&[0, ty.get(), sub.get()]),
        Component::Stream { ty, sub } => out.extend_from_slice(&[1, ty.get(), sub.get()]),
        Component::Packet { scid } => {
            out.push(3)?;
            put_u16(out, scid.get())
        }
    }
}
