//! Prints a map as objects of JSON, one a line, without blanks outside of strings.

use crate::cells::{free_units, units_of};
use crate::changes::{Part, has};
use crate::layout::{Clash, Layout, set_text};
use crate::lead::Lead;
use crate::rows::Row;
use crate::text::{kind_text, print_lead};
use mux_config::{Config, Sub};
use std::io::{self, Write};

/// Prints a comma, but not before the first of a list.
fn print_comma<W: Write>(is_first: &mut bool, out: &mut W) -> io::Result<()> {
    if *is_first {
        *is_first = false;
        return Ok(());
    }
    out.write_all(b",")
}

/// Prints the parts that the others do not have as strings of a list.
fn print_strings<P: Part, W: Write>(
    parts: &[P],
    others: &[P],
    is_first: &mut bool,
    out: &mut W,
) -> io::Result<()> {
    for part in parts {
        if !has(others, part) {
            print_comma(is_first, out)?;
            out.write_all(b"\"")?;
            part.print(out)?;
            out.write_all(b"\"")?;
        }
    }
    Ok(())
}

/// Prints the parts of a configuration that another one does not have, as a list of strings:
/// sub-channels, services, packet components, each as a line of changes has it.
fn print_parts<W: Write>(config: &Config, other: &Config, out: &mut W) -> io::Result<()> {
    let mut is_first = true;
    out.write_all(b"[")?;
    print_strings(config.subs(), other.subs(), &mut is_first, out)?;
    print_strings(config.services(), other.services(), &mut is_first, out)?;
    print_strings(config.packets(), other.packets(), &mut is_first, out)?;
    out.write_all(b"]")
}

/// Prints a sub-channel as an object.
fn print_sub<W: Write>(sub: &Sub, out: &mut W) -> io::Result<()> {
    let id = sub.id.get();
    let start = sub.start;
    let size = units_of(sub);
    let level = sub.protection.level();
    let set = set_text(sub.protection.set());
    let kbits = sub.kbits;
    write!(out, "{{\"sub\":{id},\"start\":{start},\"size\":{size}")?;
    write!(out, ",\"protection\":\"{level}-{set}\",\"kbits\":{kbits}}}")
}

/// The place of a sub-channel in a layout, by its first capacity unit and then by its SubChId.
fn place_of(sub: &Sub) -> u32 {
    u32::from(sub.start) * 64 + u32::from(sub.id.get())
}

/// The first sub-channel at a place or behind it.
fn first_from(place: u32, subs: &[Sub]) -> Option<Sub> {
    let mut found = None;
    let mut least = u32::MAX;
    for sub in subs {
        let its = place_of(sub);
        if its >= place && its < least {
            found = Some(*sub);
            least = its;
        }
    }
    found
}

/// Prints sub-channels as a list of objects, in the order of their first capacity units.
fn print_subs<W: Write>(subs: &[Sub], out: &mut W) -> io::Result<()> {
    let mut is_first = true;
    let mut place = 0u32;
    out.write_all(b"[")?;
    for _ in 0..subs.len() {
        if let Some(sub) = first_from(place, subs) {
            print_comma(&mut is_first, out)?;
            print_sub(&sub, out)?;
            place = place_of(&sub).saturating_add(1);
        }
    }
    out.write_all(b"]")
}

/// Prints the name of a row's block as a string; `null` outside of blocks.
fn print_block<W: Write>(letters: &[u8], out: &mut W) -> io::Result<()> {
    if letters.is_empty() {
        return out.write_all(b"null");
    }
    out.write_all(b"\"")?;
    out.write_all(letters)?;
    out.write_all(b"\"")
}

/// Prints what leads to a row as a string; `null` where that differs, and for the first row.
fn print_way<W: Write>(lead: Option<Lead>, out: &mut W) -> io::Result<()> {
    let Some(lead) = lead else {
        return out.write_all(b"null");
    };
    out.write_all(b"\"")?;
    print_lead(lead, out)?;
    out.write_all(b"\"")
}

/// Prints the beginning of the object of a row: its statement and line, its block, what leads to
/// it, and the number of free capacity units.
fn print_head<W: Write>(row: &Row, out: &mut W) -> io::Result<()> {
    let kind = kind_text(row.kind);
    let line = row.line;
    let free = free_units(row.config.subs());
    write!(out, "{{\"kind\":\"{kind}\",\"line\":{line},\"block\":")?;
    print_block(row.block.as_slice(), out)?;
    out.write_all(b",\"lead\":")?;
    print_way(row.lead, out)?;
    write!(out, ",\"free\":{free}")
}

/// Prints the object of a row below one with another configuration.
fn print_row<W: Write>(above: &Config, row: &Row, out: &mut W) -> io::Result<()> {
    let config = &row.config;
    let nothing = Config::new();
    print_head(row, out)?;
    out.write_all(b",\"dropped\":")?;
    print_parts(above, config, out)?;
    out.write_all(b",\"added\":")?;
    print_parts(config, above, out)?;
    out.write_all(b",\"layout\":")?;
    print_subs(config.subs(), out)?;
    out.write_all(b",\"parts\":")?;
    print_parts(config, &nothing, out)?;
    out.write_all(b"}\n")
}

/// Prints a map as objects of JSON, one for each row: its statement, its line, its block, what
/// leads to it, the number of free capacity units, the parts of the configuration above that are
/// left out and those that are new, as [`print_map`](crate::print_map) has them, and what is on air
/// from it on: the sub-channels in the order of their first capacity units, and all parts.
pub fn print_json_map<W: Write>(rows: &[Row], out: &mut W) -> io::Result<()> {
    let Some(first) = rows.first() else {
        return Ok(());
    };
    let mut above = &first.config;
    for row in rows {
        print_row(above, row, out)?;
        above = &row.config;
    }
    Ok(())
}

/// Prints the object of a layout of these sub-channels.
fn print_one<W: Write>(subs: &[Sub], out: &mut W) -> io::Result<()> {
    out.write_all(b"{\"kind\":\"layout\",\"layout\":")?;
    print_subs(subs, out)?;
    out.write_all(b"}\n")
}

/// Prints the object of two sub-channels for which there is no layout.
fn print_clash<W: Write>(clash: &Clash, out: &mut W) -> io::Result<()> {
    out.write_all(b"{\"kind\":\"refused\",\"cause\":\"no one layout\",\"first\":")?;
    print_sub(&clash.first, out)?;
    out.write_all(b",\"second\":")?;
    print_sub(&clash.second, out)?;
    out.write_all(b"}\n")
}

/// Prints a layout as an object of JSON, with its sub-channels in the order of their first capacity
/// units. Or one of a refusal, with two places of one sub-channel or with two sub-channels that
/// share capacity units.
pub fn print_json_layout<W: Write>(layout: &Layout, out: &mut W) -> io::Result<()> {
    match layout {
        Layout::One(subs) => print_one(subs.as_slice(), out),
        Layout::Apart(clash) => print_clash(clash, out),
    }
}
