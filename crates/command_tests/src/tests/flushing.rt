//! `live` and `merge` flush their frames before they ask for more. No contract says so of the
//! output: a writer is a list of bytes there.

use crate::tests::playing::{AT_0, AT_4, EMPTY, ENDS_AT_ONCE, START};
use cli_plans::live::{LiveRequest, play_live};
use cli_streams::merge::{MergeRequest, show_merged};
use console::exit::Status;
use console::files::{FileFault, Files};
use fib_codec::Mode;
use plan_live::Wanted;
use std::alloc::Global;
use std::cell::Cell;
use std::fmt::Display;
use std::io::{self, Read, Write};
use std::process::Abort;
use std::test::Fail;

/// What an output was given, and whether a file was read while it had bytes that were not flushed.
#[derive(Drop)]
struct Watch {
    bytes: Cell<usize>,
    unflushed: Cell<usize>,
    flushes: Cell<usize>,
    reads: Cell<usize>,
    is_late: Cell<bool>,
}

impl Watch {
    /// Nothing was written, and nothing read.
    fn new() -> Self {
        Watch {
            bytes: Cell::new(0),
            unflushed: Cell::new(0),
            flushes: Cell::new(0),
            reads: Cell::new(0),
            is_late: Cell::new(false),
        }
    }
}

/// An output that takes all bytes.
#[derive(Drop)]
struct WatchedOutput<'w> {
    watch: &'w Watch,
}

impl Write for WatchedOutput<'_> {
    fn write(&mut self, bytes: &[u8]) -> io::Result<usize> {
        let watch = self.watch;
        watch
            .bytes
            .set(watch.bytes.get().saturating_add(bytes.len()));
        watch
            .unflushed
            .set(watch.unflushed.get().saturating_add(bytes.len()));
        Ok(bytes.len())
    }

    fn flush(&mut self) -> io::Result<()> {
        self.watch.unflushed.set(0);
        self.watch
            .flushes
            .set(self.watch.flushes.get().saturating_add(1));
        Ok(())
    }
}

/// A file that gives a number of bytes at a read.
#[derive(Drop)]
struct WatchedFile<'w> {
    watch: &'w Watch,
    left: &'w [u8],
    step: usize,
}

impl Read for WatchedFile<'_> {
    fn read(&mut self, buffer: &mut [u8]) -> io::Result<usize> {
        let watch = self.watch;
        watch.reads.set(watch.reads.get().saturating_add(1));
        if watch.unflushed.get() > 0 {
            watch.is_late.set(true);
        }
        let count = self.step.min(self.left.len()).min(buffer.len());
        let (first, rest) = self.left.split_at(count);
        buffer[..count].copy_from_slice(first);
        self.left = rest;
        Ok(count)
    }
}

/// One file of every path, and a standard input.
#[derive(Drop)]
struct WatchedFiles<'w> {
    watch: &'w Watch,
    file: &'w [u8],
    input: &'w [u8],
    step: usize,
}

impl<'w> WatchedFiles<'w> {
    /// A file with these bytes.
    fn with(&self, bytes: &'w [u8]) -> WatchedFile<'w> {
        WatchedFile {
            watch: self.watch,
            left: bytes,
            step: self.step,
        }
    }
}

impl<'w> Files for WatchedFiles<'w> {
    type In = WatchedFile<'w>;

    type Out = Vec<u8>;

    fn open(&mut self, _path: &str) -> Result<Self::In, FileFault> {
        Ok(self.with(self.file))
    }

    fn can_reread(&self, _path: &str) -> bool {
        true
    }

    fn is_same(&self, one: &str, other: &str) -> bool {
        one == other
    }

    fn is_special(&self, _path: &str) -> bool {
        false
    }

    fn obstacle(&self, _path: &str) -> Option<&'static str> {
        None
    }

    fn refusal(&self) -> Option<&'static str> {
        None
    }

    fn input(&mut self) -> Result<Self::In, FileFault> {
        Ok(self.with(self.input))
    }

    fn create(&mut self, _path: &str) -> Result<Self::Out, FileFault> {
        Err(FileFault::Failed)
    }

    fn close(&mut self, _path: &str, _file: Self::Out) -> Result<(), FileFault> {
        Err(FileFault::Failed)
    }

    fn replace(&mut self, _path: &str, _bytes: &[u8]) -> Result<(), FileFault> {
        Err(FileFault::Failed)
    }

    fn touch(&mut self, _path: &str) -> Result<(), FileFault> {
        Err(FileFault::Failed)
    }

    fn report<D: Display + Drop>(&mut self, _line: D) {}
}

/// `live` over lines of nine bytes, each given by a read of its own.
const LIVE: LiveRequest<'static> = LiveRequest {
    code: "x.code",
    start: START,
    skip: 0,
    wanted: Wanted {
        status: true,
        every: 2,
    },
    json: false,
};

/// Plays the lines; false unless they are played to their end.
fn is_played(alloc: Global, files: &mut WatchedFiles<'_>, output: &mut WatchedOutput<'_>) -> bool {
    let (ended, _output) = play_live(alloc, &LIVE, files, output);
    ended.is_ok()
}

/// Merges the file with the input; false unless both are read to their end.
fn is_merged(alloc: Global, files: &mut WatchedFiles<'_>, output: &mut WatchedOutput<'_>) -> bool {
    let request = MergeRequest {
        plan: "plan.fib",
        other: "-",
        mode: Mode::I,
    };
    matches!(
        show_merged(alloc, &request, files, output),
        Ok(Status::Done)
    )
}

#[test]
fn live_flushes_the_frames_of_a_line(rt: HostRuntime) -> Result<(), Fail> {
    let watch = Watch::new();
    let mut files = WatchedFiles {
        watch: &watch,
        file: &ENDS_AT_ONCE,
        input: b"frames 1\nframes 2\nframes 1\n",
        step: 9,
    };
    let mut output = WatchedOutput { watch: &watch };
    assert!(rt; is_played(rt.alloc(), &mut files, &mut output));
    assert_eq!(rt; watch.bytes.get(), 4 * 96);
    assert_eq!(rt; watch.unflushed.get(), 0);
    assert!(rt; watch.flushes.get() >= 3);
    assert!(rt; watch.reads.get() > 3);
    assert!(rt; !watch.is_late.get());
    Ok(())
}

#[test]
fn merge_flushes_a_frame(rt: HostRuntime) -> Result<(), Fail> {
    let watch = Watch::new();
    let mut plan = Vec::new(rt.alloc());
    for fib in [
        &AT_0, &EMPTY, &EMPTY, &EMPTY, &EMPTY, &EMPTY, &AT_4, &EMPTY, &EMPTY,
    ] {
        plan.extend_from_slice(fib)?;
    }
    let mut files = WatchedFiles {
        watch: &watch,
        file: plan.as_slice(),
        input: plan.as_slice(),
        step: 96,
    };
    let mut output = WatchedOutput { watch: &watch };
    assert!(rt; is_merged(rt.alloc(), &mut files, &mut output));
    assert_eq!(rt; watch.bytes.get(), 3 * 96);
    assert_eq!(rt; watch.unflushed.get(), 0);
    assert!(rt; watch.flushes.get() >= 3);
    assert!(rt; !watch.is_late.get());
    Ok(())
}
