//! The program `dabplan`: generates, decodes and plays DAB multiplex reconfigurations (EN 300 401).
//!
//! Parsing, files and output are in the crate `cli`; this file connects its `answer` to the system.
#![tactic(auto)]

use cli::answer::{answer, answer_without_args};
use console::files::System;
use console::waiting::Waiting;
use std::env::{Env, FillError};
use std::process::ExitCode;
use std::{env, io};

fn main(rt: HostRuntime) -> io::Result<ExitCode> {
    let mut files = System::new(&rt);
    let mut out = Waiting::new(&rt, io::writer(&rt));
    let status = match args(&rt) {
        Ok(args) => answer(rt.alloc(), args.as_slice(), &mut files, &mut out),
        Err(error) => {
            answer_without_args(rt.alloc(), &error, writes_frames(&rt), &mut files, &mut out)
        }
    };
    Ok(ExitCode::from(status))
}

/// An environment whose arguments are those after the program's name, which need not be UTF-8.
#[derive(Drop)]
struct AfterName<'a, R> {
    rt: &'a R,
}

impl<R: Env> Env for AfterName<'_, R> {
    fn arg(&self, i: usize, buf: &mut [u8]) -> Result<usize, FillError> {
        self.rt.arg(i.saturating_add(1), buf)
    }

    fn var(&self, name: &str, buf: &mut [u8]) -> Result<usize, FillError> {
        self.rt.var(name, buf)
    }

    fn var_at(&self, i: usize, buf: &mut [u8]) -> Result<usize, FillError> {
        self.rt.var_at(i, buf)
    }
}

/// The arguments after the program's name.
fn args(rt: &HostRuntime) -> io::Result<Vec<String>> {
    let args = env::args(&(AfterName { rt }, rt.alloc()))?;
    Ok(args.collect(rt.alloc())?)
}

/// Whether the first argument is `live` or `merge`. Takes no memory, and later arguments need not
/// be UTF-8.
fn writes_frames(rt: &HostRuntime) -> bool {
    let mut first = [0u8; 5];
    match rt.arg(1, &mut first) {
        Ok(length) => (length == 5 && first == *b"merge")
            || (length == 4 && first.starts_with(b"live")),
        Err(_) => false,
    }
}
