//! Playback through a buffer into writers that take only part of the bytes.

use super::codes::{ENDED, LOWERED, played};
use plan_code::Contacts;
use plan_player::{Sink, Writer};
use plan_session::{RunFault, Session, StartOptions, StepList, play_into};
use std::alloc::Global;
use std::io::{self, Error, ErrorKind, Write};
use std::test::Fail;

/// The start of the tests: CIF count 0, the first frame of the day, all contacts open.
const FROM_ZERO: StartOptions = StartOptions {
    count: 0,
    day: 0,
    contacts: Contacts(0),
};

/// What a full writer returns.
#[derive(Clone, Copy)]
enum End {
    Nothing,
    Fault,
    Interrupted,
}

/// A writer that takes at most `at_once` bytes per call and `room` bytes in all.
#[derive(Drop)]
struct Narrow {
    at_once: usize,
    room: usize,
    end: End,
    bytes: Vec<u8>,
    calls_after: u32,
}

impl Write for Narrow {
    fn write(&mut self, bytes: &[u8]) -> io::Result<usize> {
        if self.room == 0 {
            self.calls_after = self.calls_after.saturating_add(1);
            return match self.end {
                End::Nothing => Ok(0),
                End::Fault => Err(Error::from(ErrorKind::Other)),
                End::Interrupted => Err(Error::from(ErrorKind::Interrupted)),
            };
        }
        let count = bytes.len().min(self.room).min(self.at_once);
        if self.bytes.extend_from_slice(&bytes[..count]).is_err() {
            return Err(Error::from(ErrorKind::OutOfMemory));
        }
        self.room -= count;
        Ok(count)
    }

    fn flush(&mut self) -> io::Result<()> {
        Ok(())
    }
}

/// Plays a code file into this writer. Returns the result and the sink.
fn into(
    alloc: Global,
    file: &[u8],
    text: &str,
    writer: Narrow,
) -> (Result<u128, RunFault>, Writer<Narrow>) {
    let sink = Writer::new(writer);
    let session = match Session::new(alloc, file, FROM_ZERO) {
        Ok(session) => session,
        Err(fault) => return (Err(fault), sink),
    };
    match StepList::new(text) {
        Ok(mut steps) => play_into(&session, &mut steps, sink),
        Err(fault) => (Err(RunFault::Events(fault)), sink),
    }
}

/// An empty writer.
fn writer_of(alloc: Global, room: usize, at_once: usize, end: End) -> Narrow {
    Narrow {
        at_once,
        room,
        end,
        bytes: Vec::new(alloc),
        calls_after: 0,
    }
}

#[test]
fn a_full_writer_is_reported_with_what_went_out_and_never_called_again(
    rt: HostRuntime,
) -> Result<(), Fail> {
    let alloc = rt.alloc();
    let write = |frames, bytes| Err(RunFault::Write { frames, bytes });
    for (room, wanted) in [
        (0, write(0, 0)),
        (1, write(0, 1)),
        (100, write(1, 4)),
        (6144, write(64, 0)),
        (98_303, write(1023, 95)),
        (98_304, write(1024, 0)),
        (98_305, write(1024, 1)),
        (100_000, write(1041, 64)),
        (196_608, write(2048, 0)),
        (239_999, write(2499, 95)),
        (240_000, Ok(2500)),
    ] {
        for end in [End::Nothing, End::Fault, End::Interrupted] {
            let text = "frames 1000 contact 0 closed frames 1000 frames 500";
            let writer = writer_of(alloc, room, 50_000, end);
            let (answer, sink) = into(alloc, &ENDED, text, writer);
            assert_eq!(rt; answer, wanted, "{room}");
            assert_eq!(rt; sink.failed(), wanted.is_err());
            assert_eq!(rt; sink.inner().bytes.len(), room);
            assert_eq!(rt; sink.inner().calls_after, u32::from(wanted.is_err()));
        }
    }
    Ok(())
}

#[test]
fn a_writer_that_takes_a_byte_at_a_time_gets_the_same_bytes(rt: HostRuntime) -> Result<(), Fail> {
    let alloc = rt.alloc();
    let (answer, bytes) = played(alloc, &LOWERED, "frames 200")?;
    let writer = writer_of(alloc, 1_000_000, 1, End::Fault);
    let (same, sink) = into(alloc, &LOWERED, "frames 200", writer);
    assert_eq!(rt; answer, same);
    assert!(rt; bytes.as_slice() == sink.inner().bytes.as_slice());
    Ok(())
}
