//! Remarks on standard error about the files of a command that failed or refused them: why a file
//! can't be read or written, and what it is where it is of another kind than the command wants.

use crate::args::Request;
use console::escaped::Escaped;
use console::exit::{Failure, Status};
use console::files::Files;
use fib_codec::is_checked;
use std::alloc::Global;
use std::io::Read;
use std::str;
use stream_monitor::{Format, format_of};

/// How many bytes of a file are looked at for its kind.
const FRONT: usize = 4096;

/// How many bytes of a file are looked at for one that is no UTF-8: more than any script has.
const MOST: usize = 1_048_581;

/// What a file holds, by its first bytes.
#[derive(Clone, Copy)]
enum Kind {
    Code,
    Script,
    Fibs,
    Stream(Format),
    /// Steps or commands: the second file of its command.
    Items,
    Other,
}

/// What a remark can be made on.
#[derive(Clone, Copy)]
pub(crate) enum Remark<'a> {
    /// The file of this path can't be read.
    Unread(&'a str),
    /// The file of this path can't be created or written.
    Unwritten(&'a str),
    /// The command refused its input.
    Refused,
    /// Nothing.
    Nothing,
}

impl<'a> Remark<'a> {
    /// What can be remarked on where a command ended so.
    pub(crate) fn on(ended: &Result<Status, Failure<'a>>) -> Remark<'a> {
        match ended {
            Err(Failure::Read(path)) => Remark::Unread(path),
            Err(Failure::Create(path)) => Remark::Unwritten(path),
            Ok(Status::Refused) => Remark::Refused,
            _ => Remark::Nothing,
        }
    }
}

/// Reports what else can be said of the files of a request.
pub(crate) fn make_remark<F: Files>(
    alloc: Global,
    request: &Request<'_>,
    remark: Remark<'_>,
    files: &mut F,
) {
    match (remark, wanted_of(request)) {
        (Remark::Refused, wanted) => {
            let is_said = match wanted {
                Some((path, wanted)) => remark_kind(alloc, path, wanted, files),
                None => false,
            };
            if !is_said {
                let _is_said = remark_items(alloc, request, files);
            }
        }
        (Remark::Unread(path), wanted) => {
            let is_said = match wanted {
                Some((input, wanted)) if input == path => {
                    remark_kind(alloc, path, wanted, files)
                }
                _ => items_of(request) == Some(path) && remark_items(alloc, request, files),
            };
            if !is_said {
                remark_unread(alloc, path, is_text(request, path), files);
            }
        }
        (Remark::Unwritten(path), _) => remark_unwritten(alloc, path, files),
        _ => {}
    }
}

/// Reports why the file of a failure can't be read, if that is known, and if it is none of standard
/// input.
pub(crate) fn remark_failure<F: Files>(alloc: Global, failure: &Failure<'_>, files: &mut F) {
    if let Failure::Read(path) = failure {
        remark_unread(alloc, path, false, files);
    }
}

/// Reports why the file of a path could not be created or written, if that is known.
fn remark_unwritten<F: Files>(alloc: Global, path: &str, files: &mut F) {
    if path == "-" {
        return;
    }
    if let Some(reason) = files.refusal() {
        report_error(alloc, path, reason, files);
    }
}

/// Reports what the file of a path is, if it is none of a code.
pub(crate) fn remark_code<F: Files>(alloc: Global, path: &str, files: &mut F) {
    let _is_said = remark_kind(alloc, path, Kind::Code, files);
}

/// The file of a request that lists steps or commands.
fn items_of<'r>(request: &Request<'r>) -> Option<&'r str> {
    match request {
        Request::Play(request) => Some(request.events),
        Request::Debug(request) => Some(request.commands),
        Request::Timeline(request) => Some(request.events),
        _ => None,
    }
}

/// Reports what the file with the steps or commands of a request is, if it lists none; returns
/// whether it does.
fn remark_items<F: Files>(alloc: Global, request: &Request<'_>, files: &mut F) -> bool {
    match items_of(request) {
        Some(path) => remark_kind(alloc, path, Kind::Items, files),
        None => false,
    }
}

/// Reports why the file of a path can't be read, if that is known. Of a text that is where it is
/// none.
fn remark_unread<F: Files>(alloc: Global, path: &str, is_text: bool, files: &mut F) {
    if path == "-" {
        return;
    }
    if let Some(obstacle) = files.obstacle(path) {
        report_error(alloc, path, obstacle, files);
    } else if is_text && files.can_reread(path) {
        let bytes = front_of(alloc, path, MOST, files);
        remark_no_text(alloc, path, bytes.as_slice(), files);
    }
}

/// Reports the first byte of a file that is no UTF-8, if there is one.
fn remark_no_text<F: Files>(alloc: Global, path: &str, bytes: &[u8], files: &mut F) {
    let Err(error) = str::from_utf8(bytes) else {
        return;
    };
    let at = error.valid_up_to();
    let Some(byte) = bytes.get(at) else {
        return;
    };
    let (line, column) = place_of(&bytes[..at]);
    let shown = Escaped::in_line(path);
    if let Ok(line) = format!(in alloc;
        "{shown}:{line}:{column}: error: the byte {byte:02X} is no UTF-8"
    ) {
        files.report(line.as_str());
    }
}

/// Reports what is wrong with the file of a path.
fn report_error<F: Files>(alloc: Global, path: &str, text: &str, files: &mut F) {
    let shown = Escaped::in_line(path);
    if let Ok(line) = format!(in alloc; "{shown}: error: {text}") {
        files.report(line.as_str());
    }
}

/// The line and the column, in bytes, of what follows these bytes.
fn place_of(before: &[u8]) -> (usize, usize) {
    let mut line = 1usize;
    let mut column = 1usize;
    for byte in before {
        if *byte == b'\n' {
            line = line.saturating_add(1);
            column = 1;
        } else {
            column = column.saturating_add(1);
        }
    }
    (line, column)
}

/// The file of a request that may be of another kind, and the kind that is wanted; a record is of
/// no kind that is known.
fn wanted_of<'r>(request: &Request<'r>) -> Option<(&'r str, Kind)> {
    match request {
        Request::Compile(request) => Some((request.script, Kind::Script)),
        Request::CompileFrom(request) => Some((request.script, Kind::Script)),
        Request::Map(request) => Some((request.script, Kind::Script)),
        Request::FrameScript(request) => Some((request.script, Kind::Script)),
        Request::Verify(request) => Some((request.code, Kind::Code)),
        Request::Play(request) => Some((request.code, Kind::Code)),
        Request::Debug(request) => Some((request.code, Kind::Code)),
        Request::Frame(request) => Some((request.config, Kind::Other)),
        _ => None,
    }
}

/// Whether a command reads the file of this path as text.
fn is_text(request: &Request<'_>, path: &str) -> bool {
    match request {
        Request::Compile(_)
        | Request::CompileFrom(_)
        | Request::Map(_)
        | Request::FrameScript(_)
        | Request::Diff(_) => true,
        Request::Play(request) => path == request.events,
        Request::Debug(request) => path == request.commands,
        Request::Timeline(_) => true,
        _ => false,
    }
}

/// Reports what a file is, if it is of another kind than this; returns whether it is.
fn remark_kind<F: Files>(alloc: Global, path: &str, wanted: Kind, files: &mut F) -> bool {
    if path == "-" || !files.can_reread(path) {
        return false;
    }
    let bytes = front_of(alloc, path, FRONT, files);
    match text_of(kind_of(bytes.as_slice()), wanted) {
        Some(text) => {
            report_error(alloc, path, text, files);
            true
        }
        None => false,
    }
}

/// What is said of a file of one kind where another is wanted.
fn text_of(kind: Kind, wanted: Kind) -> Option<&'static str> {
    match (kind, wanted) {
        (Kind::Code, Kind::Code) => None,
        (Kind::Code, Kind::Script) => Some("this is a code file: its script is wanted"),
        (Kind::Script, Kind::Code) => Some("this is a script: compile it first"),
        (Kind::Script, Kind::Other) => Some("this is a script: with --script"),
        (Kind::Code, Kind::Items) => {
            Some("this is a code file: it stands first, events and commands behind it")
        }
        (Kind::Script, Kind::Items) => Some("this is a script: events and commands are wanted"),
        (Kind::Code, _) => Some("this is a code file"),
        (Kind::Fibs, _) => Some("these are FIBs"),
        (Kind::Stream(Format::Eti), _) => Some("this is ETI"),
        (Kind::Stream(Format::Edi), _) => Some("this is EDI"),
        _ => None,
    }
}

/// The first bytes of a file, at most `most`; none if it can't be read.
fn front_of<F: Files>(alloc: Global, path: &str, most: usize, files: &mut F) -> Vec<u8> {
    let mut bytes: Vec<u8> = Vec::new(alloc);
    if let Ok(file) = files.open(path) {
        let _ = file.take(most as u64).read_to_end(&mut bytes);
    }
    bytes
}

/// What a file with these first bytes holds.
fn kind_of(bytes: &[u8]) -> Kind {
    if bytes.starts_with(b"DABP") {
        Kind::Code
    } else if bytes
        .split_first_chunk::<32>()
        .is_some_and(|(fib, _others)| is_checked(fib))
    {
        Kind::Fibs
    } else if let Some(format) = format_of(bytes) {
        Kind::Stream(format)
    } else if begins_script(bytes) {
        Kind::Script
    } else {
        Kind::Other
    }
}

/// Whether the first word of a text, behind comments, is that of a script.
fn begins_script(bytes: &[u8]) -> bool {
    for line in bytes.split(|byte| *byte == b'\n') {
        let line = line.trim_ascii_start();
        if !line.is_empty() && line[0] != b'#' {
            return line.starts_with(b"ensemble ");
        }
    }
    false
}
