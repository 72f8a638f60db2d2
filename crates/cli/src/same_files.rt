//! Inputs and outputs that are one file, by the same words, by other paths or through links: an
//! input is never written over.

use crate::args::{Request, UsageError};
use console::files::Files;

/// The mistake of an input of a request that is its output too, `None` if there is none. Nothing is
/// opened or created.
pub(crate) fn same_file<'a, F: Files>(request: &Request<'a>, files: &F) -> Option<UsageError<'a>> {
    match request {
        Request::Compile(request) => {
            one_file(files, ("SCRIPT", request.script), ("OUT", request.out))
        }
        Request::CompileFrom(request) => {
            let out = ("OUT", request.out);
            match one_file(files, ("SCRIPT", request.script), out) {
                None => one_file(files, ("--from <NOW>", request.on_air), out),
                mistake => mistake,
            }
        }
        Request::Play(request) => {
            let out = ("OUT", request.out);
            match one_file(files, ("CODE", request.code), out) {
                None => one_file(files, ("EVENTS", request.events), out),
                mistake => mistake,
            }
        }
        Request::Map(request) => {
            let drawing = ("--svg <OUT>", request.drawing?);
            one_file(files, ("SCRIPT", request.script), drawing)
        }
        Request::Timeline(request) => {
            let drawing = ("--svg <OUT>", request.drawing?);
            match one_file(files, ("CODE", request.plan), drawing) {
                None => one_file(files, ("EVENTS", request.events), drawing),
                mistake => mistake,
            }
        }
        _ => None,
    }
}

/// The mistake where an input and an output are one file, or are named by the same words; each with
/// its name in the usage, and its path. The output `-` is standard output, the input `-` standard
/// input, which may be a file; and a device or a pipe may be both.
fn one_file<'a, F: Files>(
    files: &F,
    (input, read): (&'static str, &'a str),
    (output, path): (&'static str, &'a str),
) -> Option<UsageError<'a>> {
    if path == "-" || files.is_special(path) {
        return None;
    }
    if read == path {
        return Some(UsageError::SameFile {
            input,
            output,
            path,
        });
    }
    let input = if read == "-" { "/dev/stdin" } else { read };
    if files.is_same(input, path) {
        return Some(UsageError::OneFile {
            input,
            output: path,
        });
    }
    None
}
