//! Sinks over writers that fail.

use super::codes::{ENDED, START, typed};
use mux_config::Config;
use plan_player::{Event, PlayFault, Player, Sink, Writer, play};
use plan_verifier::Verified;
use std::io::{self, Error, ErrorKind, Write};
use std::process::Abort;
use std::test::Fail;

/// A writer that takes up to 48 bytes per call for this many calls, and then returns 0, or this
/// error.
#[derive(Drop)]
struct Failing {
    calls: u32,
    fault: Option<ErrorKind>,
    taken: usize,
    tried: u32,
}

impl Write for Failing {
    fn write(&mut self, bytes: &[u8]) -> io::Result<usize> {
        self.tried = self.tried.saturating_add(1);
        if self.calls == 0 {
            return match self.fault {
                Some(kind) => Err(Error::from(kind)),
                None => Ok(0),
            };
        }
        self.calls -= 1;
        let count = bytes.len().min(48);
        self.taken = self.taken.saturating_add(count);
        Ok(count)
    }

    fn flush(&mut self) -> io::Result<()> {
        Ok(())
    }
}

/// A writer that fails in this way after this many calls.
fn writer(calls: u32, fault: Option<ErrorKind>) -> Failing {
    Failing {
        calls,
        fault,
        taken: 0,
        tried: 0,
    }
}

/// Plays three frames into this writer. Returns the fault of `play`, and the sink.
fn written(player: &mut Player<Config>, inner: Failing) -> (Option<PlayFault>, Writer<Failing>) {
    let mut sink = Writer::new(inner);
    let frames = play(player, &[Event::Frame; 3], &mut sink);
    (frames.err(), sink)
}

/// The fault of playing three frames, whether the sink has failed, the number of bytes taken, and
/// the number of calls made.
type Outcome = (Option<PlayFault>, bool, usize, u32);

/// The outcome of playing three frames into this writer.
fn three_into(player: &mut Player<Config>, inner: Failing) -> Outcome {
    let (fault, sink) = written(player, inner);
    (fault, sink.failed(), sink.inner().taken, sink.inner().tried)
}

/// The outcome of playing a code's first three frames into this writer.
fn three_frames(code: &Verified, inner: Failing) -> Result<Outcome, Fail> {
    let mut player: Player<Config> = Player::new(code, START)?;
    Ok(three_into(&mut player, inner))
}

/// A number of calls, and the outcome after them: the whole frames taken, the bytes of the next
/// one, all bytes taken, and the calls made.
type Row = (u32, u64, usize, usize, u32);

const ROWS: [Row; 6] = [
    (0, 0, 0, 0, 1),
    (1, 0, 48, 48, 2),
    (2, 1, 0, 96, 3),
    (3, 1, 48, 144, 4),
    (4, 2, 0, 192, 5),
    (5, 2, 48, 240, 6),
];

/// The outcome is that of this row.
fn is_stopped(rt: &impl Abort, outcome: Outcome, row: Row) {
    let (_, frames, bytes, taken, tried) = row;
    assert!(rt; outcome.1);
    assert_eq!(rt; outcome.0, Some(PlayFault::Write { frames, bytes }));
    assert_eq!(rt; outcome.2, taken);
    assert_eq!(rt; outcome.3, tried);
}

/// Every row holds for this way of failing.
fn fails_so(rt: &impl Abort, code: &Verified, fault: Option<ErrorKind>) -> Result<(), Fail> {
    for row in ROWS {
        let outcome = three_frames(code, writer(row.0, fault))?;
        is_stopped(rt, outcome, row);
    }
    Ok(())
}

fn fails_at_each_fault(rt: &impl Abort, code: &Verified) -> Result<(), Fail> {
    for fault in [None, Some(ErrorKind::Other), Some(ErrorKind::Interrupted)] {
        fails_so(rt, code, fault)?;
    }
    Ok(())
}

#[test]
fn a_writer_is_not_called_after_its_first_fault(rt: HostRuntime) -> Result<(), Fail> {
    let code = typed(rt.alloc(), &ENDED)?;
    fails_at_each_fault(&rt, &code)
}
