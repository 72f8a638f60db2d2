//! Where the bytes of a file go that is written.

use std::io::{self, Write};

/// A file of the system that is written, or its standard output under the name of a file.
#[derive(Drop)]
pub enum Sink<F, O> {
    /// A file.
    File(F),
    /// Standard output.
    Output(O),
}

impl<F: Write, O: Write> Write for Sink<F, O> {
    fn write(&mut self, bytes: &[u8]) -> io::Result<usize> {
        match self {
            Sink::File(file) => file.write(bytes),
            Sink::Output(output) => output.write(bytes),
        }
    }

    fn flush(&mut self) -> io::Result<()> {
        match self {
            Sink::File(file) => file.flush(),
            Sink::Output(output) => output.flush(),
        }
    }
}
