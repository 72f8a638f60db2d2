//! A sub-channel in the drawing of a row: its rectangle, its description, its label, and whether it
//! is changed.

use crate::cells::{end_of, units_of};
use crate::changes::{has, print_sid};
use crate::drawn_parts::{WIDE, below, draw_colour, draw_profile, x_of};
use crate::key::is_carried_by;
use mux_config::{Config, Service, Sid, Store, Sub, SubId};
use std::io::{self, Write};

/// Writes the services of a configuration that a sub-channel carries.
fn draw_services<W: Write>(config: &Config, id: SubId, out: &mut W) -> io::Result<()> {
    for service in config.services() {
        if is_carried_by(config, service.components.as_slice(), id) {
            out.write_all(b", service ")?;
            print_sid(service.sid, out)?;
        }
    }
    Ok(())
}

/// Whether a service of a configuration has a component on a sub-channel.
fn carries(config: &Config, sid: Sid, id: SubId) -> bool {
    match config.service(sid) {
        Some(service) => is_carried_by(config, service.components.as_slice(), id),
        None => false,
    }
}

/// Whether a service of these is on a sub-channel in one of two configurations alone.
fn is_moved(a: &Config, b: &Config, id: SubId, services: &[Service]) -> bool {
    services.iter().any(|service| carries(a, service.sid, id) != carries(b, service.sid, id))
}

/// Whether a sub-channel differs from that of the configuration above, or carries other services
/// than there.
fn is_changed(above: &Config, config: &Config, sub: &Sub) -> bool {
    !has(above.subs(), sub)
        || is_moved(above, config, sub.id, config.services())
        || is_moved(above, config, sub.id, above.services())
}

/// The attributes of a sub-channel's frame: a thick red one if it is changed.
fn frame_of(changed: bool) -> &'static str {
    if changed {
        "stroke=\"#b00000\" stroke-width=\"4\""
    } else {
        "stroke=\"black\" stroke-width=\"1\""
    }
}

/// Writes the description of a sub-channel for screen readers.
fn draw_sub_title<W: Write>(
    sub: &Sub,
    changed: bool,
    config: &Config,
    out: &mut W,
) -> io::Result<()> {
    let id = sub.id.get();
    let start = sub.start;
    let last = end_of(sub).saturating_sub(1);
    let kbits = sub.kbits;
    write!(
        out,
        "<title>Sub-channel {id}: CU {start} to {last}, {kbits} kbit/s, "
    )?;
    draw_profile(sub.protection, out)?;
    draw_services(config, sub.id, out)?;
    if changed {
        out.write_all(b", changed")?;
    }
    out.write_all(b"</title>")
}

/// Writes the label of a sub-channel in three lines, centred at `x`.
fn draw_wide_label<W: Write>(sub: &Sub, x: u64, y: u64, out: &mut W) -> io::Result<()> {
    let id = sub.id.get();
    let kbits = sub.kbits;
    let first = below(y, 48);
    let second = below(y, 68);
    let third = below(y, 86);
    writeln!(
        out,
        "<text x=\"{x}\" y=\"{first}\" font-size=\"18\" font-weight=\"bold\" \
         text-anchor=\"middle\">{id}</text>"
    )?;
    writeln!(
        out,
        "<text x=\"{x}\" y=\"{second}\" font-size=\"13\" text-anchor=\"middle\">{kbits} \
         kbit/s</text>"
    )?;
    write!(
        out,
        "<text x=\"{x}\" y=\"{third}\" font-size=\"13\" text-anchor=\"middle\">"
    )?;
    draw_profile(sub.protection, out)?;
    out.write_all(b"</text>\n")
}

/// Writes the label of a sub-channel in one upright line, with letters as large as the sub-channel
/// has room for.
fn draw_narrow_label<W: Write>(sub: &Sub, x: u64, y: u64, out: &mut W) -> io::Result<()> {
    let id = sub.id.get();
    let kbits = sub.kbits;
    let size = (u64::from(units_of(sub)) * 2).min(12);
    let left = below(x, size / 3);
    let base = below(y, 62);
    write!(
        out,
        "<text transform=\"translate({left},{base}) rotate(-90)\" font-size=\"{size}\" \
         text-anchor=\"middle\">"
    )?;
    write!(
        out,
        "<tspan font-weight=\"bold\">{id}</tspan> {kbits} kbit/s "
    )?;
    draw_profile(sub.protection, out)?;
    out.write_all(b"</text>\n")
}

/// Writes the label of a sub-channel, centred at `x`.
fn draw_sub_label<W: Write>(sub: &Sub, x: u64, y: u64, out: &mut W) -> io::Result<()> {
    if u32::from(units_of(sub)) < WIDE {
        draw_narrow_label(sub, x, y, out)
    } else {
        draw_wide_label(sub, x, y, out)
    }
}

/// Writes a sub-channel of a row whose top is at `y`, below a row with another configuration.
pub(crate) fn draw_sub<W: Write>(
    above: &Config,
    config: &Config,
    y: u64,
    sub: &Sub,
    out: &mut W,
) -> io::Result<()> {
    let x = x_of(u32::from(sub.start));
    let units = units_of(sub);
    let changed = is_changed(above, config, sub);
    let width = u32::from(units) * 2;
    let frame = frame_of(changed);
    write!(
        out,
        "<g><rect x=\"{x}\" y=\"{y}\" width=\"{width}\" height=\"124\" {frame} fill=\""
    )?;
    draw_colour(sub.id, out)?;
    out.write_all(b"\">")?;
    draw_sub_title(sub, changed, config, out)?;
    out.write_all(b"</rect>\n")?;
    draw_sub_label(sub, below(x, u64::from(units)), y, out)?;
    out.write_all(b"</g>\n")
}
