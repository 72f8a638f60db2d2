//! Draws the key of the services.

use crate::changes::print_sid;
use crate::drawn_parts::{below, draw_colour};
use crate::key::Use;
use mux_config::{Sid, SubId};
use std::io::{self, Write};

/// The number of columns.
const COLUMNS: u64 = 3;

/// The distance from one column to the next, which has room for twelve sub-channels.
const COLUMN: u64 = 640;

/// The distance from one service to the one below it.
const ENTRY: u64 = 26;

/// Whether an entry of a key is the first one of its service.
fn is_first(key: &[Use], index: usize, sid: Sid) -> bool {
    match key.get(..index) {
        Some(before) => before.iter().all(|entry| entry.sid != sid),
        None => false,
    }
}

/// The number of services in a key.
fn service_count(key: &[Use]) -> u64 {
    let mut count = 0u64;
    for (index, entry) in key.iter().enumerate() {
        if is_first(key, index, entry.sid) {
            count = count.saturating_add(1);
        }
    }
    count
}

/// The height of the key, with its heading.
pub(crate) fn legend_height(key: &[Use]) -> u64 {
    let lines = service_count(key).saturating_add(2) / COLUMNS;
    below(60, lines.saturating_mul(ENTRY))
}

/// Writes a sub-channel.
fn draw_sample<W: Write>(x: u64, y: u64, id: SubId, out: &mut W) -> io::Result<()> {
    let number = id.get();
    let centre = below(x, 17);
    let base = below(y, 15);
    write!(
        out,
        "<rect x=\"{x}\" y=\"{y}\" width=\"34\" height=\"20\" stroke=\"black\" stroke-width=\"1\" \
         fill=\""
    )?;
    draw_colour(id, out)?;
    writeln!(
        out,
        "\"><title>Sub-channel {number}</title></rect><text x=\"{centre}\" y=\"{base}\" \
         text-anchor=\"middle\">{number}</text>"
    )
}

/// Writes the sub-channels of a service.
fn draw_samples<W: Write>(key: &[Use], sid: Sid, left: u64, y: u64, out: &mut W) -> io::Result<()> {
    let mut x = left;
    for entry in key {
        if entry.sid == sid {
            draw_sample(x, y, entry.sub, out)?;
            x = below(x, 40);
        }
    }
    Ok(())
}

/// Writes a service and its sub-channels: the one with this number, in its column.
fn draw_service<W: Write>(
    key: &[Use],
    top: u64,
    number: u64,
    sid: Sid,
    out: &mut W,
) -> io::Result<()> {
    let x = 10 + number % COLUMNS * COLUMN;
    let y = below(top, (number / COLUMNS).saturating_mul(ENTRY));
    let base = below(y, 15);
    write!(out, "<text x=\"{x}\" y=\"{base}\">service ")?;
    print_sid(sid, out)?;
    out.write_all(b"</text>\n")?;
    draw_samples(key, sid, x + 150, y, out)
}

/// Writes each service of a key with its sub-channels.
fn draw_services<W: Write>(key: &[Use], top: u64, out: &mut W) -> io::Result<()> {
    let mut number = 0u64;
    for (index, entry) in key.iter().enumerate() {
        if is_first(key, index, entry.sid) {
            draw_service(key, top, number, entry.sid, out)?;
            number = number.saturating_add(1);
        }
    }
    Ok(())
}

/// Writes the key below the rows: each service with the sub-channels that carry it.
pub(crate) fn draw_legend<W: Write>(key: &[Use], top: u64, out: &mut W) -> io::Result<()> {
    let y = below(top, 24);
    writeln!(
        out,
        "<g><title>Services</title>\n<text x=\"10\" y=\"{y}\" font-weight=\"bold\">Services and \
         their sub-channels</text>"
    )?;
    draw_services(key, below(top, 36), out)?;
    out.write_all(b"</g>\n")
}
