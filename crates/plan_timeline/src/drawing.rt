//! Draws a timeline as an SVG document: time to the right, capacity units upwards, and below them
//! the contacts.

ghost use Rattle.std.specs.Prelude.{◌≤◌};

use crate::clock::{Clock, moment_of};
pub use crate::spans::Drawing;
use crate::spans::{Carried, Closed, Span};
use crate::text::Form;
use plan_map::{draw_colour, print_sid, units_of};
use std::io::{self, Write};

/// The left edge of the first frame, and the width of a run.
const LEFT: u64 = 110;

const WIDTH: u64 = 1780;

/// The top of the multiplex, and its bottom: three quarters of a unit for each capacity unit.
const TOP: u64 = 130;

const BOTTOM: u64 = TOP + 648;

/// The distance from one contact to the next.
const CONTACT: u64 = 24;

/// The least distance between two times.
const APART: u64 = 16;

/// The left edge of a frame of a run of this many frames.
fn x_of(frame: u64, frames: u64) -> u64 {
    let right = frame.saturating_mul(WIDTH) / frames.max(1);
    LEFT + right.min(WIDTH)
}

/// The height of a capacity unit above the bottom, which is that of the end of the multiplex at
/// most.
fn y_of(unit: u64) -> u64 {
    BOTTOM - (unit.min(864) * 3 / 4)
}

/// The number of contacts that are closed at any time.
fn contact_rows(closed: &[Closed]) -> u64 {
    let mut rows = 0u64;
    for contact in 0..16u8 {
        if closed.iter().any(|bar| bar.contact == contact) {
            rows = rows.saturating_add(1);
        }
    }
    rows
}

/// Writes the header of a drawing of this height.
fn draw_head<W: Write>(eid: u16, swaps: usize, height: u64, out: &mut W) -> io::Result<()> {
    writeln!(
        out,
        "<svg xmlns=\"http://www.w3.org/2000/svg\" width=\"2010\" height=\"{height}\" \
         viewBox=\"0 0 2010 {height}\" font-family=\"Arial, Helvetica, sans-serif\" \
         font-size=\"14\" role=\"graphics-document\" aria-labelledby=\"title\">"
    )?;
    writeln!(
        out,
        "<title id=\"title\">The timeline of ensemble {eid:04X}: {swaps} swaps</title>"
    )?;
    writeln!(
        out,
        "<rect width=\"2010\" height=\"{height}\" fill=\"white\"/>"
    )?;
    writeln!(
        out,
        "<text x=\"10\" y=\"24\" font-size=\"18\" font-weight=\"bold\">Ensemble {eid:04X}</text>"
    )
}

/// Writes the scale of capacity units: every 72 of them a line to the right.
fn draw_units<W: Write>(out: &mut W) -> io::Result<()> {
    for step in 0..13u64 {
        let unit = step * 72;
        let y = y_of(unit);
        writeln!(
            out,
            "<line x1=\"110\" y1=\"{y}\" x2=\"1890\" y2=\"{y}\" stroke=\"#ccc\" \
             stroke-width=\"1\"/>"
        )?;
        writeln!(
            out,
            "<text x=\"100\" y=\"{y}\" font-size=\"12\" text-anchor=\"end\">CU {unit}</text>"
        )?;
    }
    Ok(())
}

/// Writes the services of a sub-channel: the first of them, and how many more there are.
fn draw_services<W: Write>(carried: Carried, out: &mut W) -> io::Result<()> {
    if let Some(sid) = carried.first {
        out.write_all(b", service ")?;
        print_sid(sid, out)?;
        let others = carried.count.saturating_sub(1);
        if others > 0 {
            write!(out, " and {others} more")?;
        }
    }
    Ok(())
}

/// Writes the label of a sub-channel in the middle of its rectangle, as long as there is room for
/// it: its number, and its service.
fn draw_label<W: Write>(
    span: &Span,
    x: u64,
    width: u64,
    y: u64,
    height: u64,
    out: &mut W,
) -> io::Result<()> {
    if width < 20 || height < 9 {
        return Ok(());
    }
    let id = span.sub.id.get();
    let size = height.min(15);
    let middle = x.saturating_add(width / 2);
    let base = y.saturating_add(height / 2).saturating_add(size / 3);
    write!(
        out,
        "<text x=\"{middle}\" y=\"{base}\" font-size=\"{size}\" text-anchor=\"middle\" \
         stroke=\"white\" stroke-width=\"3\" paint-order=\"stroke\">{id}"
    )?;
    if let Some(sid) = span.carried.first {
        if width >= 100 {
            out.write_all(b": ")?;
            print_sid(sid, out)?;
        }
    }
    out.write_all(b"</text>\n")
}

/// Writes a sub-channel of a run of this many frames.
fn draw_span<W: Write>(span: &Span, frames: u64, out: &mut W) -> io::Result<()> {
    let x = x_of(span.from, frames);
    let width = x_of(span.to.min(frames), frames).saturating_sub(x);
    let first = u64::from(span.sub.start);
    let units = u64::from(units_of(&span.sub));
    let top = y_of(first.saturating_add(units));
    let height = y_of(first).saturating_sub(top);
    let id = span.sub.id.get();
    let kbits = span.sub.kbits;
    let last = first.saturating_add(units).saturating_sub(1);
    write!(
        out,
        "<rect x=\"{x}\" y=\"{top}\" width=\"{width}\" height=\"{height}\" stroke=\"black\" \
         stroke-width=\"1\" fill=\""
    )?;
    draw_colour(span.sub.id, out)?;
    write!(
        out,
        "\"><title>Sub-channel {id}: CU {first} to {last}, {kbits} kbit/s"
    )?;
    draw_services(span.carried, out)?;
    out.write_all(b"</title></rect>\n")?;
    draw_label(span, x, width, top, height, out)
}

/// Writes the swaps as lines from top to bottom with their times, of those that are too close the
/// first alone.
fn draw_swaps<W: Write>(
    swaps: &[u64],
    form: &Form,
    frames: u64,
    bottom: u64,
    out: &mut W,
) -> io::Result<()> {
    let mut free = 0u64;
    for frame in swaps {
        let x = x_of(*frame, frames);
        let clock = Clock::of_frame(form.first, *frame, form.has_days);
        writeln!(
            out,
            "<line x1=\"{x}\" y1=\"126\" x2=\"{x}\" y2=\"{bottom}\" stroke=\"#b00000\" \
             stroke-width=\"2\" stroke-dasharray=\"6 3\"><title>Swap at {clock}</title></line>"
        )?;
        if x >= free {
            let base = x.saturating_add(4);
            writeln!(
                out,
                "<text transform=\"translate({base},122) rotate(-60)\" \
                 font-size=\"12\">{clock}</text>"
            )?;
            free = x.saturating_add(APART);
        }
    }
    Ok(())
}

/// Writes the times at which a contact is closed, in the row below `y`.
fn draw_contact<W: Write>(
    contact: u8,
    closed: &[Closed],
    frames: u64,
    y: u64,
    out: &mut W,
) -> io::Result<()> {
    let base = y.saturating_add(13);
    writeln!(
        out,
        "<text x=\"100\" y=\"{base}\" font-size=\"12\" text-anchor=\"end\">contact {contact}</text>"
    )?;
    for bar in closed {
        if bar.contact == contact {
            let x = x_of(bar.from, frames);
            let width = x_of(bar.to.min(frames), frames).saturating_sub(x);
            writeln!(
                out,
                "<rect x=\"{x}\" y=\"{y}\" width=\"{width}\" height=\"16\" \
                 fill=\"#444\"><title>Contact {contact} closed</title></rect>"
            )?;
        }
    }
    Ok(())
}

/// Writes the contacts that are closed at any time, one below another.
fn draw_contacts<W: Write>(closed: &[Closed], frames: u64, out: &mut W) -> io::Result<()> {
    let mut y = BOTTOM + 24;
    for contact in 0..16u8 {
        if closed.iter().any(|bar| bar.contact == contact) {
            draw_contact(contact, closed, frames, y, out)?;
            y = y.saturating_add(CONTACT);
        }
    }
    Ok(())
}

/// The frames between two times of the scale of a run: 3, 30 or 60 seconds, 10 minutes, 1 or 6
/// hours, a day or ten, the first of these with at most 24 of them; or one in 24.
fn scale_of(frames: u64) -> u64
    ensures { 1 ≤ result }
{
    if frames <= 3_000 {
        125
    } else if frames <= 30_000 {
        1_250
    } else if frames <= 60_000 {
        2_500
    } else if frames <= 600_000 {
        25_000
    } else if frames <= 3_600_000 {
        150_000
    } else if frames <= 21_600_000 {
        900_000
    } else if frames <= 86_400_000 {
        3_600_000
    } else if frames <= 864_000_000 {
        36_000_000
    } else {
        frames / 24
    }
}

/// Writes the scale of times below everything, whose bottom is this.
fn draw_times<W: Write>(form: &Form, frames: u64, bottom: u64, out: &mut W) -> io::Result<()> {
    let step = scale_of(frames);
    let (_day, first) = moment_of(form.first, 0);
    let base = bottom.saturating_add(18);
    let mut frame = (step - u64::from(first) % step) % step;
    for _tick in 0..32u8 {
        if frame <= frames {
            let x = x_of(frame, frames);
            let clock = Clock::of_frame(form.first, frame, form.has_days);
            writeln!(
                out,
                "<line x1=\"{x}\" y1=\"778\" x2=\"{x}\" y2=\"{bottom}\" stroke=\"#ccc\" \
                 stroke-width=\"1\"/>"
            )?;
            writeln!(
                out,
                "<text transform=\"translate({x},{base}) rotate(20)\" \
                 font-size=\"12\">{clock}</text>"
            )?;
        }
        frame = frame.saturating_add(step);
    }
    Ok(())
}

/// Writes a timeline as an SVG document: the sub-channels of a run of this many frames to scale,
/// each in its colour of the map with its number and its service, the swaps with their times, and
/// the contacts that are closed.
pub fn draw_timeline<W: Write>(
    eid: u16,
    drawing: &Drawing,
    form: &Form,
    frames: u64,
    out: &mut W,
) -> io::Result<()> {
    let closed = drawing.closed.as_slice();
    let rows = contact_rows(closed);
    let bottom = (BOTTOM + 24).saturating_add(rows.saturating_mul(CONTACT));
    let height = bottom.saturating_add(70);
    draw_head(eid, drawing.swaps.len(), height, out)?;
    draw_units(out)?;
    for span in drawing.spans.as_slice() {
        draw_span(span, frames, out)?;
    }
    draw_times(form, frames, bottom, out)?;
    draw_contacts(closed, frames, out)?;
    draw_swaps(drawing.swaps.as_slice(), form, frames, bottom, out)?;
    out.write_all(b"</svg>\n")
}
