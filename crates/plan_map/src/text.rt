//! Prints a map as text: for each row its heading, its cells, and what changes from the row above.

use crate::cells::{HALF, free_units, holder};
use crate::changes::print_changes;
use crate::lead::{AnyOf, Lead};
use crate::rows::{Row, RowKind};
use mux_config::Sub;
use plan_code::{ContactId, DayFrame};
use std::io::{self, Write};

/// The keyword of a row's statement.
pub fn kind_text(kind: RowKind) -> &'static str {
    match kind {
        RowKind::Begin => "begin",
        RowKind::Commit => "commit",
    }
}

/// Prints a frame of the day as a time.
fn print_frame<W: Write>(frame: DayFrame, out: &mut W) -> io::Result<()> {
    let second = frame.get() * 3 / 125;
    let hours = second / 3600;
    let minutes = second / 60 % 60;
    let seconds = second % 60;
    write!(out, "{hours:02}:{minutes:02}:{seconds:02}")
}

/// Prints a wait for a frame of the day.
fn print_until<W: Write>(frame: DayFrame, out: &mut W) -> io::Result<()> {
    out.write_all(b"until ")?;
    print_frame(frame, out)
}

/// Prints a contact and its level.
fn print_contact<W: Write>(contact: u8, closed: bool, out: &mut W) -> io::Result<()> {
    let level = if closed { "closed" } else { "open" };
    write!(out, "contact {contact} {level}")
}

/// Prints `or`, behind a first alternative.
fn print_or<W: Write>(is_first: &mut bool, out: &mut W) -> io::Result<()> {
    if *is_first {
        *is_first = false;
        return Ok(());
    }
    out.write_all(b" or ")
}

/// Prints a contact with each level that is an alternative.
fn print_levels<W: Write>(
    contact: ContactId,
    alternatives: &AnyOf,
    is_first: &mut bool,
    out: &mut W,
) -> io::Result<()> {
    if alternatives.closed.is_closed(contact) {
        print_or(is_first, out)?;
        print_contact(contact.get(), true, out)?;
    }
    if alternatives.opened.is_closed(contact) {
        print_or(is_first, out)?;
        print_contact(contact.get(), false, out)?;
    }
    Ok(())
}

/// Prints the contacts that are alternatives, by ascending number.
fn print_contacts<W: Write>(
    alternatives: &AnyOf,
    is_first: &mut bool,
    out: &mut W,
) -> io::Result<()> {
    for number in 0u8..16 {
        if let Some(contact) = ContactId::new(number) {
            print_levels(contact, alternatives, is_first, out)?;
        }
    }
    Ok(())
}

/// Prints the alternatives of a wait: contacts, then a time of day, then a number of frames.
fn print_any<W: Write>(alternatives: AnyOf, out: &mut W) -> io::Result<()> {
    let mut is_first = true;
    print_contacts(&alternatives, &mut is_first, out)?;
    if let Some(frame) = alternatives.until {
        print_or(&mut is_first, out)?;
        print_until(frame, out)?;
    }
    if let Some(frames) = alternatives.frames {
        let frames = frames.get();
        print_or(&mut is_first, out)?;
        write!(out, "{frames} frames")?;
    }
    Ok(())
}

/// Prints the times of day at which a path is taken: inside a window, or outside it, which is at
/// any time where the window is empty.
fn print_window<W: Write>(
    from: DayFrame,
    to: DayFrame,
    inside: bool,
    out: &mut W,
) -> io::Result<()> {
    if !inside && from == to {
        return out.write_all(b"any time");
    }
    let (first, last) = if inside { (from, to) } else { (to, from) };
    out.write_all(b"time ")?;
    print_frame(first, out)?;
    out.write_all(b" to ")?;
    print_frame(last, out)
}

/// Prints what leads to a commit, in the words of the script.
pub fn print_lead<W: Write>(lead: Lead, out: &mut W) -> io::Result<()> {
    match lead {
        Lead::Begin => out.write_all(b"begin"),
        Lead::Wait(frames) => {
            let frames = frames.get();
            write!(out, "wait {frames}")
        }
        Lead::Until(frame) => print_until(frame, out),
        Lead::Contact { contact, closed } => print_contact(contact.get(), closed, out),
        Lead::Any(alternatives) => print_any(alternatives, out),
        Lead::Window { from, to, inside } => print_window(from, to, inside, out),
        Lead::Join => out.write_all(b"join"),
        Lead::Settle => out.write_all(b"settle"),
    }
}

/// Prints the heading of a row: the statement and its line, its block, what leads to it, and the
/// number of free capacity units.
fn print_head<W: Write>(row: &Row, out: &mut W) -> io::Result<()> {
    let line = row.line;
    let free = free_units(row.config.subs());
    out.write_all(kind_text(row.kind).as_bytes())?;
    write!(out, " {line}")?;
    let block = row.block.as_slice();
    if !block.is_empty() {
        out.write_all(b" in ")?;
        out.write_all(block)?;
    }
    if let Some(lead) = row.lead {
        out.write_all(b" (")?;
        print_lead(lead, out)?;
        out.write_all(b")")?;
    }
    writeln!(out, ": free {free}")
}

/// Prints a cell: the number of the sub-channel that has most of it, or `..` if it is free.
fn print_cell<W: Write>(cell: u16, subs: &[Sub], out: &mut W) -> io::Result<()> {
    match holder(cell, subs) {
        None => out.write_all(b".."),
        Some(sub) => {
            let id = sub.id.get();
            if id < 10 {
                write!(out, " {id}")
            } else {
                write!(out, "{id}")
            }
        }
    }
}

/// Prints the cells of a row from `first` on, up to but without `end`.
fn print_cells<W: Write>(first: u16, end: u16, subs: &[Sub], out: &mut W) -> io::Result<()> {
    for cell in first..end {
        print_cell(cell, subs, out)?;
    }
    Ok(())
}

/// Prints the 72 cells of a row in two lines, each after its first capacity unit.
fn print_bar<W: Write>(subs: &[Sub], out: &mut W) -> io::Result<()> {
    out.write_all(b"    0 ")?;
    print_cells(0, HALF, subs, out)?;
    out.write_all(b"\n  432 ")?;
    print_cells(HALF, 2 * HALF, subs, out)?;
    out.write_all(b"\n")
}

/// Prints a map. A row has a heading with the statement, its line, its block, what leads to it, and
/// the number of free capacity units; two lines of 36 cells of 12 capacity units, in two columns
/// each; and a line for each part of the configuration above that is left out, and for each that is
/// new. A cell has the number of the sub-channel that has most of it, the first in a tie, and `..`
/// if no sub-channel has any of it.
pub fn print_map<W: Write>(rows: &[Row], out: &mut W) -> io::Result<()> {
    let Some(first) = rows.first() else {
        return Ok(());
    };
    let mut above = &first.config;
    for row in rows {
        print_head(row, out)?;
        print_bar(row.config.subs(), out)?;
        print_changes(above, &row.config, out)?;
        above = &row.config;
    }
    Ok(())
}
