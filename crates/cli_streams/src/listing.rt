//! Prints the listing of a decoded stream.

use crate::entries::print_entry;
use crate::listen::{Heard, StreamFault};
use fib_reader::Picture;
use std::io::{self, Write};

/// Prints the listing, or the line of a refusal.
pub fn print_listing<W: Write>(heard: &Result<Heard, StreamFault>, out: &mut W) -> io::Result<()> {
    match heard {
        Ok(heard) => print_heard(heard, out),
        Err(fault) => writeln!(out, "{fault}"),
    }
}

/// Prints the listing of a decoded stream.
fn print_heard<W: Write>(heard: &Heard, out: &mut W) -> io::Result<()> {
    let Heard { fibs, damaged, .. } = heard;
    writeln!(out, "fibs {fibs} damaged {damaged}")?;
    out.write_all(b"current\n")?;
    print_picture(heard.listener.current(), out)?;
    out.write_all(b"next\n")?;
    print_picture(heard.listener.next(), out)?;
    match heard.listener.swap_at() {
        Some(low) => writeln!(out, "swap at low {low}"),
        None => writeln!(out, "no swap"),
    }
}

/// Prints the lines of each entry of a picture, in the order of its entries.
fn print_picture<W: Write>(picture: &Picture, out: &mut W) -> io::Result<()> {
    let mut entries = picture.entries();
    while let Some(entry) = entries.next() {
        print_entry(&entry.value(), out)?;
    }
    Ok(())
}
