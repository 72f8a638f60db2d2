//! Parts of a drawing: where a capacity unit is, colours, profiles, lines of text.

use crate::layout::set_text;
use mux_config::SubId;
use mux_eep::Protection;
use std::io::{self, Write};

/// The narrowest run of capacity units with room for a horizontal label.
pub(crate) const WIDE: u32 = 36;

/// The position this far below, or right of, another one.
pub(crate) fn below(position: u64, distance: u64) -> u64 {
    position.saturating_add(distance)
}

/// The left edge of a capacity unit.
pub(crate) fn x_of(unit: u32) -> u64 {
    150 + u64::from(unit) * 2
}

/// The hue of a sub-channel in degrees. Those of successive identifiers are far apart.
fn hue_of(id: SubId) -> u32 {
    u32::from(id.get()) * 137 % 360
}

/// The lightness of a sub-channel in percent. Those 21 apart, whose hues are close, are lighter or
/// darker.
fn light_of(id: SubId) -> u32 {
    let number = id.get();
    if number < 21 {
        76
    } else if number < 42 {
        66
    } else if number < 63 {
        87
    } else {
        60
    }
}

/// Writes the colour of a sub-channel, the same in every row.
pub fn draw_colour<W: Write>(id: SubId, out: &mut W) -> io::Result<()> {
    let hue = hue_of(id);
    let light = light_of(id);
    write!(out, "hsl({hue},80%,{light}%)")
}

/// Writes a protection profile.
pub(crate) fn draw_profile<W: Write>(protection: Protection, out: &mut W) -> io::Result<()> {
    let level = protection.level();
    let set = set_text(protection.set());
    write!(out, "{level}-{set}")
}

/// Writes the tag of a small line of text beside a bar.
pub(crate) fn draw_small_tag<W: Write>(y: u64, out: &mut W) -> io::Result<()> {
    write!(out, "<text x=\"10\" y=\"{y}\" font-size=\"13\">")
}
