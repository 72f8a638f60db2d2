//! Draws a map as an SVG document, in which a capacity unit is two units wide.

use crate::drawn_parts::below;
use crate::drawn_row::draw_row;
use crate::key::Use;
use crate::legend::{draw_legend, legend_height};
use crate::rows::Row;
use std::io::{self, Write};

/// The top of the first row.
const TOP: u64 = 64;

/// The distance from one row to the next.
const ROW: u64 = 148;

/// Writes the header of a drawing of this height: its size, its title, the pattern of free units,
/// its white background, and the name of the ensemble.
fn draw_head<W: Write>(eid: u16, rows: usize, height: u64, out: &mut W) -> io::Result<()> {
    writeln!(
        out,
        "<svg xmlns=\"http://www.w3.org/2000/svg\" width=\"2010\" height=\"{height}\" viewBox=\"0 0 2010 {height}\" font-family=\"Arial, Helvetica, sans-serif\" font-size=\"14\" role=\"graphics-document\" aria-labelledby=\"title\">"
    )?;
    writeln!(
        out,
        "<title id=\"title\">The multiplex of ensemble {eid:04X}: {rows} configurations</title>"
    )?;
    out.write_all(
        b"<defs><pattern id=\"free\" width=\"8\" height=\"8\" patternUnits=\"userSpaceOnUse\" \
         patternTransform=\"rotate(45)\">",
    )?;
    out.write_all(
        b"<rect width=\"8\" height=\"8\" fill=\"#f4f4f4\"/><rect width=\"2\" height=\"8\" \
         fill=\"#c8c8c8\"/></pattern></defs>\n",
    )?;
    writeln!(
        out,
        "<rect width=\"2010\" height=\"{height}\" fill=\"white\"/>"
    )?;
    writeln!(
        out,
        "<text x=\"10\" y=\"24\" font-size=\"18\" font-weight=\"bold\">Ensemble {eid:04X}</text>"
    )
}

/// Writes the scale of capacity units: every 72 of them a vertical line through all rows, down to
/// `bottom`, and above it the number of its capacity unit.
fn draw_scale<W: Write>(bottom: u64, out: &mut W) -> io::Result<()> {
    for step in 0..13u64 {
        let unit = step * 72;
        let x = 150 + unit * 2;
        writeln!(
            out,
            "<line x1=\"{x}\" y1=\"56\" x2=\"{x}\" y2=\"{bottom}\" stroke=\"#888\" \
             stroke-width=\"1\"/>"
        )?;
        writeln!(
            out,
            "<text x=\"{x}\" y=\"50\" font-size=\"12\" text-anchor=\"middle\">CU {unit}</text>"
        )?;
    }
    Ok(())
}

/// Writes the rows one under another.
fn draw_rows<W: Write>(rows: &[Row], out: &mut W) -> io::Result<()> {
    let Some(first) = rows.first() else {
        return Ok(());
    };
    let mut above = &first.config;
    let mut y = TOP;
    for row in rows {
        draw_row(above, row, y, out)?;
        above = &row.config;
        y = below(y, ROW);
    }
    Ok(())
}

/// Writes a map as an SVG document: the rows one under another with the sub-channels to scale, each
/// in a colour of its own in all rows, what is changed from the row above framed in red, free units
/// hatched, and below them the key of the services.
pub fn draw_map<W: Write>(eid: u16, rows: &[Row], key: &[Use], out: &mut W) -> io::Result<()> {
    let bottom = below(TOP, (rows.len() as u64).saturating_mul(ROW));
    draw_head(eid, rows.len(), below(bottom, legend_height(key)), out)?;
    draw_scale(bottom, out)?;
    draw_rows(rows, out)?;
    draw_legend(key, bottom, out)?;
    out.write_all(b"</svg>\n")
}
