//! A call that allocates, tried while allocations may fail, and then again.

use std::alloc::Global;
use std::io::{self, Write};

/// How a call ended.
#[derive(Drop)]
pub enum Ended<T> {
    /// With a result.
    Answered(T),
    /// Out of memory, reported as such; everything that was passed to the call is unchanged.
    NoMemory,
    /// With another fault, which no trial expects.
    Otherwise,
}

/// A call that allocates.
pub trait Trial {
    /// Its result.
    type Answer: Drop;

    /// Makes the call.
    fn call(&mut self, alloc: Global) -> Ended<Self::Answer>;

    /// Prints a result.
    fn show<W: Write>(
        &mut self,
        alloc: Global,
        answer: Self::Answer,
        out: &mut W,
    ) -> io::Result<()>;
}

/// Makes a call between the lines `ready` and `called`, each of which is one write; prints how it
/// ended; makes it again if it was out of memory; and prints the result.
pub fn try_call<T: Trial, W: Write>(alloc: Global, trial: &mut T, out: &mut W) -> io::Result<()> {
    out.write_all(b"ready\n")?;
    let first = trial.call(alloc);
    out.write_all(b"called\n")?;
    match first {
        Ended::Answered(answer) => {
            out.write_all(b"answered\n")?;
            trial.show(alloc, answer, out)
        }
        Ended::Otherwise => out.write_all(b"another fault\n"),
        Ended::NoMemory => {
            out.write_all(b"no memory\n")?;
            match trial.call(alloc) {
                Ended::Answered(answer) => trial.show(alloc, answer, out),
                Ended::NoMemory => out.write_all(b"no memory again\n"),
                Ended::Otherwise => out.write_all(b"another fault then\n"),
            }
        }
    }
}

/// Prints bytes as hexadecimal digits on a line.
pub fn show_bytes<W: Write>(bytes: &[u8], out: &mut W) -> io::Result<()> {
    for byte in bytes {
        write!(out, "{byte:02X}")?;
    }
    writeln!(out)
}
