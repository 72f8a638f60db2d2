//! A row of a drawing: its label, and its bar with the free units and the sub-channels.

use crate::cells::{end_of, free_units};
use crate::drawn_parts::{WIDE, below, draw_small_tag, x_of};
use crate::drawn_subs::draw_sub;
use crate::rows::Row;
use crate::text::{kind_text, print_lead};
use mux_config::{Config, Sub};
use mux_eep::CAPACITY_UNITS;
use std::io::{self, Write};

/// Whether one of these sub-channels has this capacity unit.
fn is_used(unit: u32, subs: &[Sub]) -> bool {
    subs.iter()
        .any(|sub| u32::from(sub.start) <= unit && unit < end_of(sub))
}

/// The first capacity unit, from this one on, at which a sub-channel begins; the end of the
/// multiplex if none does.
fn next_start(from: u32, subs: &[Sub]) -> u32 {
    let mut next = u32::from(CAPACITY_UNITS);
    for sub in subs {
        let start = u32::from(sub.start);
        if from <= start {
            next = next.min(start);
        }
    }
    next
}

/// Writes free units, hatched, with their description for screen readers: `count` from one on,
/// which is at least one.
fn draw_hatched<W: Write>(from: u32, count: u32, y: u64, out: &mut W) -> io::Result<()> {
    let x = x_of(from);
    let width = u64::from(count) * 2;
    let last = from.saturating_add(count).saturating_sub(1);
    write!(
        out,
        "<rect x=\"{x}\" y=\"{y}\" width=\"{width}\" height=\"124\" fill=\"url(#free)\" \
         stroke=\"#888\" stroke-width=\"1\">"
    )?;
    writeln!(
        out,
        "<title>{count} CU free: {from} to {last}</title></rect>"
    )
}

/// Writes how many of these units are free, if there is room for it.
fn draw_free_label<W: Write>(from: u32, count: u32, y: u64, out: &mut W) -> io::Result<()> {
    if count < WIDE {
        return Ok(());
    }
    let x = below(x_of(from), u64::from(count));
    let base = below(y, 67);
    writeln!(
        out,
        "<text x=\"{x}\" y=\"{base}\" font-size=\"13\" text-anchor=\"middle\" fill=\"#333\" \
         stroke=\"#f4f4f4\" stroke-width=\"4\" paint-order=\"stroke\">{count} CU free</text>"
    )
}

/// Writes the free units that begin at `from`, if it is free.
fn draw_gap<W: Write>(subs: &[Sub], y: u64, from: u32, out: &mut W) -> io::Result<()> {
    let count = next_start(from, subs).saturating_sub(from);
    if count == 0 || is_used(from, subs) {
        return Ok(());
    }
    draw_hatched(from, count, y, out)?;
    draw_free_label(from, count, y, out)
}

/// Writes the free units of a row whose top is at `y`.
fn draw_gaps<W: Write>(subs: &[Sub], y: u64, out: &mut W) -> io::Result<()> {
    draw_gap(subs, y, 0, out)?;
    for sub in subs {
        draw_gap(subs, y, end_of(sub), out)?;
    }
    Ok(())
}

/// Writes the label of a row: its statement and line, above it its block, and below it what leads
/// to it.
fn draw_label<W: Write>(row: &Row, base: u64, out: &mut W) -> io::Result<()> {
    let word = kind_text(row.kind);
    let line = row.line;
    writeln!(
        out,
        "<text x=\"10\" y=\"{base}\" font-weight=\"bold\">{word} {line}</text>"
    )?;
    let block = row.block.as_slice();
    if !block.is_empty() {
        draw_small_tag(base.saturating_sub(20), out)?;
        out.write_all(block)?;
        out.write_all(b"</text>\n")?;
    }
    if let Some(lead) = row.lead {
        draw_small_tag(below(base, 20), out)?;
        print_lead(lead, out)?;
        out.write_all(b"</text>\n")?;
    }
    Ok(())
}

/// Writes a row whose top is at `y`, below one with another configuration: its label, its bar with
/// what is changed framed in red, and how many capacity units are free.
pub(crate) fn draw_row<W: Write>(above: &Config, row: &Row, y: u64, out: &mut W) -> io::Result<()> {
    let config = &row.config;
    let word = kind_text(row.kind);
    let line = row.line;
    let free = free_units(config.subs());
    let base = below(y, 67);
    writeln!(out, "<g><title>{word}, line {line}: {free} CU free</title>")?;
    draw_label(row, base, out)?;
    draw_gaps(config.subs(), y, out)?;
    for sub in config.subs() {
        draw_sub(above, config, y, sub, out)?;
    }
    writeln!(
        out,
        "<text x=\"1890\" y=\"{base}\">free {free}</text>\n</g>"
    )
}
