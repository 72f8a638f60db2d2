//! Prints what changes from one configuration to another: a line with `-` for each part that is
//! left out, and one with `+` for each that is new.

use crate::layout::print_sub;
use mux_config::{Component, Config, Packet, Service, Sid, Sub};
use mux_types::sameness::{is_same_packet, is_same_service, is_same_sub};
use std::io::{self, Write};

/// Prints an SId as four or eight digits.
pub fn print_sid<W: Write>(sid: Sid, out: &mut W) -> io::Result<()> {
    match sid {
        Sid::Short(number) => write!(out, "{number:04X}"),
        Sid::Long(number) => write!(out, "{number:08X}"),
    }
}

/// Prints a component, after a blank.
fn print_component<W: Write>(component: Component, out: &mut W) -> io::Result<()> {
    let (kind, ty, sub) = match component {
        Component::Sound { ty, sub } => ("audio", ty.get(), sub.get()),
        Component::Stream { ty, sub } => ("data", ty.get(), sub.get()),
        Component::Packet { scid } => {
            let scid = scid.get();
            return write!(out, " packet {scid}");
        }
    };
    write!(out, " {kind} {ty} sub {sub}")
}

/// A part of a configuration, as the lines of changes have it.
pub(crate) trait Part {
    /// Whether another part is the same.
    fn is_same(&self, other: &Self) -> bool;

    /// Prints it.
    fn print<W: Write>(&self, out: &mut W) -> io::Result<()>;
}

impl Part for Sub {
    fn is_same(&self, other: &Sub) -> bool {
        is_same_sub(*self, *other)
    }

    fn print<W: Write>(&self, out: &mut W) -> io::Result<()> {
        print_sub(self, out)
    }
}

impl Part for Service {
    fn is_same(&self, other: &Service) -> bool {
        is_same_service(self, other)
    }

    fn print<W: Write>(&self, out: &mut W) -> io::Result<()> {
        out.write_all(b"service ")?;
        print_sid(self.sid, out)?;
        for component in self.components.as_slice() {
            print_component(*component, out)?;
        }
        Ok(())
    }
}

impl Part for Packet {
    fn is_same(&self, other: &Packet) -> bool {
        is_same_packet(*self, *other)
    }

    fn print<W: Write>(&self, out: &mut W) -> io::Result<()> {
        let scid = self.scid.get();
        let groups = if self.dg { "raw" } else { "groups" };
        let ty = self.ty.get();
        let sub = self.sub.get();
        let address = self.address;
        write!(
            out,
            "packet {scid} {groups} type {ty} sub {sub} address {address}"
        )
    }
}

/// Whether one of the parts is the same.
pub(crate) fn has<P: Part>(parts: &[P], part: &P) -> bool {
    parts.iter().any(|other| part.is_same(other))
}

/// Prints the parts that the others do not have, each after a sign.
fn mark<P: Part, W: Write>(sign: &str, parts: &[P], others: &[P], out: &mut W) -> io::Result<()> {
    for part in parts {
        if !has(others, part) {
            out.write_all(sign.as_bytes())?;
            part.print(out)?;
            out.write_all(b"\n")?;
        }
    }
    Ok(())
}

/// Prints the parts that are left out, and then those that are new.
fn mark_both<P: Part, W: Write>(before: &[P], now: &[P], out: &mut W) -> io::Result<()> {
    mark("  - ", before, now, out)?;
    mark("  + ", now, before, out)
}

/// Prints what changes from one configuration to another: sub-channels, services, packet
/// components, of each what is left out and then what is new. A part that differs is left out as it
/// was, and new as it is.
pub fn print_changes<W: Write>(before: &Config, now: &Config, out: &mut W) -> io::Result<()> {
    mark_both(before.subs(), now.subs(), out)?;
    mark_both(before.services(), now.services(), out)?;
    mark_both(before.packets(), now.packets(), out)
}
