//! Prints the entries of FIG 0/1 to 0/3 as lines of text.

use mux_config::{ComponentEntry, Entry, PacketEntry, ServiceEntry, ShortEntry, Sid, SubEntry};
use std::fmt::{self, Display, Formatter};
use std::io::{self, Write};

/// Prints the lines of an entry. Ensemble information has none.
pub fn print_entry<W: Write>(entry: &Entry, out: &mut W) -> io::Result<()> {
    print_head(entry, out)?;
    if let Entry::Service(service) = entry {
        for component in service.components.as_slice() {
            writeln!(out, "  {}", ComponentText(*component))?;
        }
    }
    Ok(())
}

/// Prints the first line of an entry. Ensemble information has none.
pub fn print_head<W: Write>(entry: &Entry, out: &mut W) -> io::Result<()> {
    match entry {
        Entry::Ensemble(_) => Ok(()),
        Entry::Sub(sub) => print_sub(sub, out),
        Entry::Short(short) => print_short(short, out),
        Entry::Service(ServiceEntry { sid, .. }) => { writeln!(out, "service {}", SidDigits(*sid)) }
        Entry::Packet(packet) => print_packet(packet, out),
    }
}

/// A sub-channel in the long form: its protection as `eep 3-A` for options 0 and 1, which are the
/// sets A and B, and as numbers for the other options.
fn print_sub<W: Write>(sub: &SubEntry, out: &mut W) -> io::Result<()> {
    let id = sub.id.get();
    let start = sub.start.get();
    let size = sub.size.get();
    let level = sub.level.get() + 1;
    write!(out, "sub {id} at {start} size {size} ")?;
    match sub.option.get() {
        0 => writeln!(out, "eep {level}-A"),
        1 => writeln!(out, "eep {level}-B"),
        option => writeln!(out, "option {option} level {level}"),
    }
}

/// A sub-channel in the short form.
fn print_short<W: Write>(short: &ShortEntry, out: &mut W) -> io::Result<()> {
    let id = short.id.get();
    let start = short.start.get();
    let switch = u8::from(short.switch);
    let table = short.table.get();
    writeln!(out, "sub {id} at {start} switch {switch} table {table}")
}

/// A packet component.
fn print_packet<W: Write>(packet: &PacketEntry, out: &mut W) -> io::Result<()> {
    let scid = packet.scid.get();
    let groups = groups_name(packet.dg);
    let ty = packet.ty.get();
    let sub = packet.sub.get();
    let address = packet.address.get();
    writeln!(
        out,
        "packet {scid} {groups} type {ty} sub {sub} address {address}"
    )
}

/// The text for a DG flag.
pub(crate) fn groups_name(dg: bool) -> &'static str {
    if dg { "raw" } else { "groups" }
}

/// An SId as four or eight digits.
#[derive(Clone, Copy)]
pub(crate) struct SidDigits(pub(crate) Sid);

impl Display for SidDigits {
    fn fmt<W: fmt::Write>(&self, f: &mut Formatter<W>) -> fmt::Result {
        match self.0 {
            Sid::Short(number) => write!(f, "{number:04X}"),
            Sid::Long(number) => write!(f, "{number:08X}"),
        }
    }
}

/// A component as text. One of TMId 10 is its 16 bits.
#[derive(Clone, Copy)]
struct ComponentText(ComponentEntry);

impl Display for ComponentText {
    fn fmt<W: fmt::Write>(&self, f: &mut Formatter<W>) -> fmt::Result {
        match self.0 {
            ComponentEntry::Sound {
                ty,
                sub,
                primary,
                ..
            } => write!(f, "audio {} sub {} {}", ty.get(), sub.get(), order(primary)),
            ComponentEntry::Stream {
                ty,
                sub,
                primary,
                ..
            } => write!(f, "data {} sub {} {}", ty.get(), sub.get(), order(primary)),
            ComponentEntry::Other { bits } => write!(f, "other {:04X}", 0x8000 + bits.get()),
            ComponentEntry::Packet { scid, primary, .. } => {
                write!(f, "packet {} {}", scid.get(), order(primary))
            }
        }
    }
}

/// The text for a P/S flag.
fn order(primary: bool) -> &'static str {
    if primary { "primary" } else { "secondary" }
}
