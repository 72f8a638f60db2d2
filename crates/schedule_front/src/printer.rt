//! Printing a schedule.

ghost use Rattle.std.specs.Prelude.{◌≡◌, ◌<◌, ◌≤◌, ◌++◌, ◌∷◌, [], length, map, OnOk, IfOk};
ghost use Rattle.std.specs.Prelude.{string_bytes};
ghost use Rattle.script_front.specs.Printing.{line, line_text, text_of_lines};
ghost use Rattle.script_front.specs.Spelled.{edit_lexemes, name_at};
ghost use Rattle.schedule_front.specs.Tree.{overlay_of};
ghost use Rattle.schedule_front.specs.Printing.{first_lexemes, edits_lines, overlay_lines};
ghost use Rattle.schedule_front.specs.Printing.{overlays_lines, tree_lines};
ghost use Rattle.schedule_front.specs.Denoting.{Denotes};

use crate::lexemes::put_condition;
use crate::schedule::Schedule;
use crate::tree::{Overlay, OverlayEdit};
use script_front::lexemes::{put_edit, put_header};
use script_front::names::Names;
use script_front::printer::{put_items, put_name};
use std::alloc::{AllocError, Global};

/// The line of an edit of an overlay.
fn put_overlay_edit(out: &mut String, edit: &OverlayEdit) -> Result<(), AllocError>
    ensures { OnOk result (string_bytes out.new ≡ string_bytes out.old ++ line_text (line 1
        (edit_lexemes edit.now.edit))) }
{
    out.push_str("  ")?;
    put_edit(out, edit.edit)?;
    out.push_str("\n")?;
    Ok(())
}

/// The edits of an overlay, one per line.
#[tactic(auto, using(crate::proofs::PrintedOverlays::edit_more, crate::proofs::PrintedOverlays::edits_all))]
fn put_edits(out: &mut String, edits: &[OverlayEdit]) -> Result<(), AllocError>
    ensures { OnOk result (string_bytes out.new ≡ string_bytes out.old ++ text_of_lines
        (edits_lines edits.now)) }
{
    for edit in edits {
        put_overlay_edit(out, edit)?;
    }
    Ok(())
}

/// The first line of an overlay.
#[tactic(auto, using(crate::proofs::PrintedOverlays::first_put))]
fn put_first(
    out: &mut String,
    names: &Names,
    index: usize,
    overlay: &Overlay,
) -> Result<(), AllocError>
    requires { index < length names.now }
    ensures { OnOk result (string_bytes out.new ≡ string_bytes out.old ++ line_text (line 0
        (first_lexemes (name_at names.now index) (overlay_of overlay.now)))) }
{
    out.push_str("overlay ")?;
    put_name(out, names, index)?;
    out.push_str(" while")?;
    put_condition(out, overlay.condition.as_slice())?;
    out.push_str(" {\n")?;
    Ok(())
}

/// An overlay.
#[tactic(auto, using(crate::proofs::PrintedOverlays::overlay_put))]
fn put_overlay(
    out: &mut String,
    names: &Names,
    index: usize,
    overlay: &Overlay,
) -> Result<(), AllocError>
    requires { index < length names.now }
    ensures { OnOk result (string_bytes out.new ≡ string_bytes out.old ++ text_of_lines
        (overlay_lines (name_at names.now index) (overlay_of overlay.now))) }
{
    put_first(out, names, index, overlay)?;
    put_edits(out, overlay.edits.as_slice())?;
    out.push_str("}\n")?;
    Ok(())
}

/// The overlays, in order.
#[tactic(auto, using(crate::proofs::PrintedOverlays::overlay_more, crate::proofs::PrintedOverlays::overlays_all))]
fn put_overlays(out: &mut String, names: &Names, overlays: &[Overlay]) -> Result<(), AllocError>
    requires { length names.now ≡ length overlays.now }
    ensures { OnOk result (string_bytes out.new ≡ string_bytes out.old ++ text_of_lines
        (overlays_lines names.now (map overlay_of overlays.now))) }
{
    for (index, overlay) in overlays.iter().enumerate() {
        put_overlay(out, names, index, overlay)?;
    }
    Ok(())
}

/// The text of a schedule: its header on two lines, each item, `schedule`, and each overlay on a
/// line of its own, with its edits on lines indented by two spaces and `}` on the line after them.
///
/// # Errors
///
/// If memory runs out.
#[tactic(auto, using(crate::proofs::PrintedOverlays::each_has_name))]
pub fn print_schedule(alloc: Global, schedule: &Schedule) -> Result<String, AllocError>
    ensures layout { IfOk result (λ s. string_bytes s ≡ text_of_lines (tree_lines schedule.now)) }
    ensures denotes { IfOk result (λ s. Denotes (string_bytes s) schedule.now) }
{
    let mut out = String::new(alloc);
    put_header(&mut out, schedule.header())?;
    put_items(&mut out, schedule.items())?;
    out.push_str("schedule\n")?;
    put_overlays(&mut out, schedule.names(), schedule.overlays())?;
    Ok(out)
}
