//! Prints the entries of FIG 0/1 to 0/3 as objects of JSON.

use crate::entries::{SidDigits, groups_name};
use mux_config::{ComponentEntry, Entry, PacketEntry, ServiceEntry, ShortEntry, SubEntry};
use mux_eep::{EepSet, Protection, rate_of};
use std::fmt::{self, Display, Formatter};
use std::io::{self, Write};

/// Prints an entry as an object. Ensemble information has none.
pub fn print_json_entry<W: Write>(entry: &Entry, out: &mut W) -> io::Result<()> {
    match entry {
        Entry::Ensemble(_) => Ok(()),
        Entry::Sub(sub) => print_sub(sub, out),
        Entry::Short(short) => print_short(short, out),
        Entry::Service(service) => print_service(service, out),
        Entry::Packet(packet) => print_packet(packet, out),
    }
}

/// A sub-channel in the long form: with its protection as `3-A` for options 0 and 1, which are the
/// sets A and B, and its rate in kbit/s, if there is one of this size; with numbers for the other
/// options.
fn print_sub<W: Write>(sub: &SubEntry, out: &mut W) -> io::Result<()> {
    let id = sub.id.get();
    let start = sub.start.get();
    let size = sub.size.get();
    let level = sub.level.get() as u8 + 1;
    write!(out, "{{\"sub\":{id},\"start\":{start},\"size\":{size}")?;
    match sub.option.get() {
        0 => print_protection(Protection::new(EepSet::A, level), level, 'A', size, out),
        1 => print_protection(Protection::new(EepSet::B, level), level, 'B', size, out),
        option => write!(out, ",\"option\":{option},\"level\":{level}}}"),
    }
}

/// The protection of a sub-channel in a set of this name, and the rate in kbit/s that it then has,
/// to the end of the object.
fn print_protection<W: Write>(
    protection: Option<Protection>,
    level: u8,
    set: char,
    size: u16,
    out: &mut W,
) -> io::Result<()> {
    write!(out, ",\"protection\":\"{level}-{set}\"")?;
    let rate = match protection {
        Some(protection) => rate_of(protection, size),
        None => None,
    };
    match rate {
        Some(kbits) => write!(out, ",\"kbits\":{kbits}}}"),
        None => out.write_all(b"}"),
    }
}

/// A sub-channel in the short form.
fn print_short<W: Write>(short: &ShortEntry, out: &mut W) -> io::Result<()> {
    let id = short.id.get();
    let start = short.start.get();
    let switch = u8::from(short.switch);
    let table = short.table.get();
    write!(
        out,
        "{{\"sub\":{id},\"start\":{start},\"switch\":{switch},\"table\":{table}}}"
    )
}

/// A service, with its components in order.
fn print_service<W: Write>(service: &ServiceEntry, out: &mut W) -> io::Result<()> {
    write!(
        out,
        "{{\"service\":\"{}\",\"components\":[",
        SidDigits(service.sid)
    )?;
    let mut is_first = true;
    for component in service.components.as_slice() {
        print_comma(is_first, out)?;
        write!(out, "{{{}}}", ComponentFields(*component))?;
        is_first = false;
    }
    out.write_all(b"]}")
}

/// A comma, but not before the first of a list.
pub(crate) fn print_comma<W: Write>(is_first: bool, out: &mut W) -> io::Result<()> {
    if is_first {
        Ok(())
    } else {
        out.write_all(b",")
    }
}

/// The fields of a component. One of TMId 10 has its 16 bits.
#[derive(Clone, Copy)]
struct ComponentFields(ComponentEntry);

impl Display for ComponentFields {
    fn fmt<W: fmt::Write>(&self, f: &mut Formatter<W>) -> fmt::Result {
        match self.0 {
            ComponentEntry::Sound {
                ty,
                sub,
                primary,
                ..
            } => {
                let (ty, sub) = (ty.get(), sub.get());
                write!(f, "\"audio\":{ty},\"sub\":{sub},\"primary\":{primary}")
            }
            ComponentEntry::Stream {
                ty,
                sub,
                primary,
                ..
            } => {
                let (ty, sub) = (ty.get(), sub.get());
                write!(f, "\"data\":{ty},\"sub\":{sub},\"primary\":{primary}")
            }
            ComponentEntry::Other { bits } => write!(
                f,
                "\"other\":\"{:04X}\"",
                0x8000 + bits.get()
            ),
            ComponentEntry::Packet { scid, primary, .. } => {
                let scid = scid.get();
                write!(f, "\"packet\":{scid},\"primary\":{primary}")
            }
        }
    }
}

/// A packet component.
fn print_packet<W: Write>(packet: &PacketEntry, out: &mut W) -> io::Result<()> {
    let scid = packet.scid.get();
    let groups = groups_name(packet.dg);
    let ty = packet.ty.get();
    let sub = packet.sub.get();
    let address = packet.address.get();
    write!(
        out,
        "{{\"packet\":{scid},\"transport\":\"{groups}\",\"type\":{ty}"
    )?;
    write!(out, ",\"sub\":{sub},\"address\":{address}}}")
}
