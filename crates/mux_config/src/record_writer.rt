//! Writes a configuration record.

ghost use Rattle.std.specs.Prelude.{◌≡◌, ℕ, ◌++◌, List, Ok, OnOk, IfOk};
ghost use Rattle.std.specs.List.{flat_map};
ghost use Rattle.mux_types.specs.Configuration.{IsConfiguration};
ghost use Rattle.mux_config.specs.FieldSpelling.{set_byte, component_bytes};
ghost use Rattle.mux_config.specs.Spelling.{sub_record, service_record, packet_record};
ghost use Rattle.mux_config.specs.Spelling.{config_bytes};
ghost use Rattle.mux_config.specs.Reading.{config_at};

use crate::config::Config;
use crate::put_component;
use mux_eep::EepSet;
use mux_types::{Component, Packet, Service, Sid, Sub};
use std::alloc::{AllocError, Global};

/// A value that is written as bytes of a record.
trait Spelled {
    ghost use Rattle.std.specs.Prelude.{ℕ, List};

    ghost text: { Self → List ℕ };

    /// Writes its bytes.
    fn put(&self, out: &mut Vec<u8>) -> Result<(), AllocError>
        ensures { OnOk result (out.new.items ≡ out.old.items ++ text self.now) };
}

/// The number of a protection set: 0 for A and 1 for B.
fn set_byte(set: EepSet) -> u8
    ensures { result ≡ set_byte set }
{
    match set {
        EepSet::A => 0,
        EepSet::B => 1,
    }
}

impl Spelled for Sub {
    ghost text = { sub_record };

    fn put(&self, out: &mut Vec<u8>) -> Result<(), AllocError> {
        let [start, start_low] = self.start.to_be_bytes();
        let [rate, rate_low] = self.kbits.to_be_bytes();
        let set = set_byte(self.protection.set());
        let level = self.protection.level();
        out.extend_from_slice(&[self.id.get(), start, start_low, set, level, rate, rate_low])
    }
}

impl Spelled for Component {
    ghost text = { component_bytes };

    fn put(&self, out: &mut Vec<u8>) -> Result<(), AllocError> {
        put_component(out, self)
    }
}

impl Spelled for Service {
    ghost text = { service_record };

    fn put(&self, out: &mut Vec<u8>) -> Result<(), AllocError> {
        let count = self.components.len() as u8;
        match self.sid {
            Sid::Short(sid) => {
                let [high, low] = sid.to_be_bytes();
                out.extend_from_slice(&[0, high, low, count])?;
            }
            Sid::Long(sid) => {
                let [first, second, third, fourth] = sid.to_be_bytes();
                out.extend_from_slice(&[1, first, second, third, fourth, count])?;
            }
        }
        put_all(out, self.components.as_slice())
    }
}

impl Spelled for Packet {
    ghost text = { packet_record };

    fn put(&self, out: &mut Vec<u8>) -> Result<(), AllocError> {
        let [id, id_low] = self.scid.get().to_be_bytes();
        let [address, address_low] = self.address.to_be_bytes();
        out.extend_from_slice(&[
            id,
            id_low,
            u8::from(self.dg),
            self.ty.get(),
            self.sub.get(),
            address,
            address_low,
        ])
    }
}

/// Writes these values in order.
fn put_all<T: Spelled>(out: &mut Vec<u8>, items: &[T]) -> Result<(), AllocError>
    ensures { OnOk result (out.new.items ≡ out.old.items ++ flat_map T.text items.now) }
{
    for item in items {
        item.put(out)?;
    }
    Ok(())
}

/// Appends the record of a configuration to `out`.
pub fn put_config(out: &mut Vec<u8>, config: &Config) -> Result<(), AllocError>
    ensures spelled { OnOk result (out.new.items ≡ out.old.items ++ config_bytes config.now) }
    ensures configuration { IsConfiguration config.now }
{
    out.push(config.subs().len() as u8)?;
    out.push(config.services().len() as u8)?;
    out.push(config.packets().len() as u8)?;
    put_all(out, config.subs())?;
    put_all(out, config.services())?;
    put_all(out, config.packets())
}

/// The record of a configuration. Reading it gives the same configuration, whatever follows it.
pub fn write_config(alloc: Global, config: &Config) -> Result<Vec<u8>, AllocError>
    ensures spelled { IfOk result (λ bytes. bytes.items ≡ config_bytes config.now) }
    ensures read_back { IfOk result (λ bytes. (rest : List ℕ)
        → config_at (bytes.items ++ rest) ≡ Ok (config.now, rest)) }
{
    let mut out = Vec::new(alloc);
    put_config(&mut out, config)?;
    Ok(out)
}
