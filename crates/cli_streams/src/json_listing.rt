//! Prints the listing of a decoded stream as an object of JSON.

use crate::json::{print_comma, print_json_entry};
use crate::listen::{Heard, StreamFault};
use fib_reader::Picture;
use std::io::{self, Write};

/// Prints the object of a decoded stream, or of a refusal.
pub fn print_json_listing<W: Write>(
    heard: &Result<Heard, StreamFault>,
    out: &mut W,
) -> io::Result<()> {
    match heard {
        Ok(heard) => print_heard(heard, out),
        Err(fault) => writeln!(
            out,
            "{{\"kind\":\"refused\",\"cause\":\"{}\"}}",
            fault.cause()
        ),
    }
}

/// Prints the object of a decoded stream.
fn print_heard<W: Write>(heard: &Heard, out: &mut W) -> io::Result<()> {
    let Heard { fibs, damaged, .. } = heard;
    write!(out, "{{\"fibs\":{fibs},\"damaged\":{damaged},\"current\":[")?;
    print_picture(heard.listener.current(), out)?;
    out.write_all(b"],\"next\":[")?;
    print_picture(heard.listener.next(), out)?;
    match heard.listener.swap_at() {
        Some(low) => writeln!(out, "],\"swap_at\":{low}}}"),
        None => out.write_all(b"],\"swap_at\":null}\n"),
    }
}

/// Prints the objects of the entries of a picture, in their order, with commas between them.
fn print_picture<W: Write>(picture: &Picture, out: &mut W) -> io::Result<()> {
    let mut is_first = true;
    let mut entries = picture.entries();
    while let Some(entry) = entries.next() {
        print_comma(is_first, out)?;
        print_json_entry(&entry.value(), out)?;
        is_first = false;
    }
    Ok(())
}
