//! `dabplan map`: shows which capacity units each sub-channel has in a plan, or the one layout that
//! serves all of it.

use crate::compile::ScriptRefusal;
use crate::explained::{Explanation, explain_script, report_lines};
use crate::notes::{warning_lines, warning_objects};
use crate::script_file::{read_script_input, script_text};
use crate::script_map::{Map, map_of};
use console::escaped::Escaped;
use console::exit::{Failure, Status, write_file};
use console::files::Files;
use plan_explain::Warning;
use plan_map::{Layout, Row, draw_map, print_json_layout, print_json_map, print_layout, print_map};
use std::alloc::Global;
use std::io::{self, Write};

/// The arguments of `map`.
#[derive(Clone, Copy)]
pub struct MapRequest<'a> {
    /// The path of the script; standard input if it is `-`.
    pub script: &'a str,
    /// The path of the drawing to write, if any.
    pub drawing: Option<&'a str>,
    /// Whether the layout that serves every configuration is printed, rather than the map.
    pub layout: bool,
    /// Whether each line is an object of JSON.
    pub is_json: bool,
    /// Where a refusal is explained, and whether warnings about an accepted script are reported.
    pub explanation: Explanation,
}

/// Runs `map`: writes the drawing, if requested, and prints the map of the script, or its layout if
/// that is requested; or prints why the script is refused, as `compile` does. The drawing is
/// created after every check that can refuse the script. Last, it reports the warnings about the
/// script on standard error, a line each; behind a map of objects of JSON they are printed as such.
/// No other file is changed.
///
/// `Read` if the script can't be read, or is not UTF-8; `Create` if the drawing can't be written;
/// `Output` if `out` fails; `Memory` if out of memory.
pub fn show_map<'a, F: Files, W: Write>(
    alloc: Global,
    request: &MapRequest<'a>,
    files: &mut F,
    out: &mut W,
) -> Result<Status, Failure<'a>> {
    let Some(map) = map_script(alloc, request, files, out)? else {
        return Ok(Status::Refused);
    };
    let lines = warnings_shown(alloc, request, map.warnings.as_slice());
    let lines = lines.map_err(|_| Failure::Memory)?;
    if let Some(path) = request.drawing {
        write_drawing(alloc, &map, path, files)?;
    }
    let status = print_requested(&map, request, out)?;
    if has_objects(request) {
        out.write_all(lines.as_slice())?;
    } else {
        report_lines(lines.as_slice(), files);
    }
    Ok(status)
}

/// Whether the warnings are printed as objects behind the map.
fn has_objects(request: &MapRequest<'_>) -> bool {
    request.is_json && !request.layout
}

/// The lines of these warnings, as they are shown: none where nothing is explained. The error is
/// out of memory.
fn warnings_shown(
    alloc: Global,
    request: &MapRequest<'_>,
    warnings: &[Warning],
) -> io::Result<Vec<u8>> {
    if request.explanation == Explanation::Nowhere {
        return Ok(Vec::new(alloc));
    }
    if has_objects(request) {
        warning_objects(alloc, warnings)
    } else {
        warning_lines(alloc, request.script, warnings)
    }
}

/// The map of the script of the request; `None` after printing why it is refused. No file is
/// changed.
fn map_script<'a, F: Files, W: Write>(
    alloc: Global,
    request: &MapRequest<'a>,
    files: &mut F,
    out: &mut W,
) -> Result<Option<Map>, Failure<'a>> {
    let bytes = read_script_input(alloc, files, request.script)?;
    let text = script_text(bytes.as_slice(), request.script)?;
    match map_of(alloc, text) {
        Ok(map) => Ok(Some(map)),
        Err(ScriptRefusal::Memory) => Err(Failure::Memory),
        Err(refusal) => {
            let path = request.script;
            print_refusal(alloc, request.is_json, &refusal, out)?;
            explain_script(alloc, path, text, refusal, request.explanation, files, out)?;
            Ok(None)
        }
    }
}

/// Prints the line of a refusal, or its object.
fn print_refusal<W: Write>(
    alloc: Global,
    is_json: bool,
    refusal: &ScriptRefusal,
    out: &mut W,
) -> io::Result<()> {
    if !is_json {
        return writeln!(out, "{refusal}");
    }
    let cause = refusal.to_string(alloc)?;
    let cause = Escaped::in_json(cause.as_str());
    writeln!(out, "{{\"kind\":\"refused\",\"cause\":\"{cause}\"}}")
}

/// Prints the map, or its layout if that is requested; returns the exit status, `Refused` where
/// there is no layout.
fn print_requested<W: Write>(
    map: &Map,
    request: &MapRequest<'_>,
    out: &mut W,
) -> io::Result<Status> {
    if !request.layout {
        print_rows(map.rows.as_slice(), request.is_json, out)?;
        return Ok(Status::Done);
    }
    if request.is_json {
        print_json_layout(&map.layout, out)?;
    } else {
        print_layout(&map.layout, out)?;
    }
    match map.layout {
        Layout::One(_) => Ok(Status::Done),
        Layout::Apart(_) => Ok(Status::Refused),
    }
}

/// Prints the rows of a map, as text or as objects.
fn print_rows<W: Write>(rows: &[Row], is_json: bool, out: &mut W) -> io::Result<()> {
    if is_json {
        print_json_map(rows, out)
    } else {
        print_map(rows, out)
    }
}

/// Writes the drawing of a map to the file of this path, when all of it is made.
fn write_drawing<'a, F: Files>(
    alloc: Global,
    map: &Map,
    path: &'a str,
    files: &mut F,
) -> Result<(), Failure<'a>> {
    let mut drawing: Vec<u8> = Vec::new(alloc);
    let drawn = draw_map(
        map.eid,
        map.rows.as_slice(),
        map.key.as_slice(),
        &mut drawing,
    );
    drawn.map_err(|_| Failure::Memory)?;
    write_file(files, path, drawing.as_slice())
}
