//! Notes on an accepted script: its warnings, as lines on standard error.

ghost use Rattle.plan_verifier.specs.Typing.{IsTyped};

use crate::explained::Explanation;
use console::escaped::Escaped;
use plan_code::Code;
use plan_explain::{Warning, put_warning, warnings_of};
use script_front::Script;
use std::alloc::Global;
use std::io::{self, Write};
use std::str;

/// The notes on an accepted script.
#[derive(Drop)]
pub(crate) enum Notes {
    /// These lines.
    Lines(Vec<u8>),
    /// Out of memory for them.
    Memory,
}

impl Notes {
    /// The notes on the script of this path, with this code: none where nothing is explained.
    pub(crate) fn on(
        alloc: Global,
        path: &str,
        script: &Script,
        code: &Code,
        explanation: Explanation,
    ) -> Notes
        requires { IsTyped code.now }
    {
        if explanation == Explanation::Nowhere {
            return Notes::Lines(Vec::new(alloc));
        }
        match lines_on(alloc, path, script, code) {
            Ok(lines) => Notes::Lines(lines),
            Err(_) => Notes::Memory,
        }
    }

    /// The lines, each with its end; `no memory` if out of memory for them.
    pub(crate) fn as_slice(&self) -> &[u8] {
        match self {
            Notes::Lines(lines) => lines.as_slice(),
            Notes::Memory => b"no memory\n",
        }
    }
}

/// A line for each warning about the script of this path, with this code. The error is out of
/// memory.
fn lines_on(alloc: Global, path: &str, script: &Script, code: &Code) -> io::Result<Vec<u8>>
    requires { IsTyped code.now }
{
    let warnings = warnings_of(alloc, script, code)?;
    warning_lines(alloc, path, warnings.as_slice())
}

/// The line and the text of a warning, of what is printed of it behind an empty path: `:9: warning:
/// no component names sub 3`.
fn parts_of(printed: &str) -> Option<(&str, &str)> {
    let printed = printed.strip_prefix(':')?;
    printed.split_once(": warning: ")
}

/// Prints a warning as an object of JSON. The error is out of memory.
fn put_object(alloc: Global, warning: &Warning, out: &mut Vec<u8>) -> io::Result<()> {
    let mut printed: Vec<u8> = Vec::new(alloc);
    put_warning(alloc, "", warning, &mut printed)?;
    let Ok(printed) = str::from_utf8(printed.as_slice()) else {
        return Ok(());
    };
    let Some((line, text)) = parts_of(printed) else {
        return Ok(());
    };
    let text = Escaped::in_json(text);
    writeln!(
        out,
        "{{\"kind\":\"warning\",\"line\":{line},\"warning\":\"{text}\"}}"
    )
}

/// An object of JSON for each of these warnings, a line each. The error is out of memory.
pub(crate) fn warning_objects(alloc: Global, warnings: &[Warning]) -> io::Result<Vec<u8>> {
    let mut lines: Vec<u8> = Vec::new(alloc);
    for warning in warnings {
        put_object(alloc, warning, &mut lines)?;
    }
    Ok(lines)
}

/// A line for each of these warnings about the script of this path. The error is out of memory.
pub(crate) fn warning_lines(
    alloc: Global,
    path: &str,
    warnings: &[Warning],
) -> io::Result<Vec<u8>> {
    let mut lines: Vec<u8> = Vec::new(alloc);
    let shown = Escaped::in_line(path).to_string(alloc)?;
    for warning in warnings {
        put_warning(alloc, shown.as_str(), warning, &mut lines)?;
        lines.write_all(b"\n")?;
    }
    Ok(lines)
}
