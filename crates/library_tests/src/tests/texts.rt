//! Reading texts from a reader that is interrupted, and ends or fails.

use plan_session::{TextFault, read_text};
use std::io::{self, Error, ErrorKind, Read};
use std::process::Abort;
use std::test::Fail;

/// A reader that returns up to eight bytes at a time, and is interrupted before each read. It ends
/// after the last byte, or fails there.
#[derive(Drop)]
struct Interrupted<'a> {
    bytes: &'a [u8],
    fails: bool,
    is_interrupted: bool,
}

impl<'a> Interrupted<'a> {
    /// A reader of these bytes.
    fn new(bytes: &'a [u8], fails: bool) -> Self {
        Interrupted {
            bytes,
            fails,
            is_interrupted: false,
        }
    }
}

impl Read for Interrupted<'_> {
    fn read(&mut self, buffer: &mut [u8]) -> io::Result<usize> {
        self.is_interrupted = !self.is_interrupted;
        if self.is_interrupted {
            return Err(Error::from(ErrorKind::Interrupted));
        }
        if self.bytes.is_empty() && self.fails {
            return Err(Error::from(ErrorKind::Other));
        }
        let most = buffer.len().min(8);
        self.bytes.read(&mut buffer[..most])
    }
}

/// Reading this text fails with this fault.
fn refuses<R: Read + Drop>(
    rt: &(impl Abort + AllocGlobal),
    source: R,
    fault: TextFault,
    row: usize,
) {
    match read_text(rt.alloc(), source) {
        Ok(text) => assert!(rt; false, "{row}: {text}"),
        Err(found) => assert_eq!(rt; found, fault, "{row}"),
    }
}

#[test]
fn a_text_is_read_whole(rt: HostRuntime) -> Result<(), Fail> {
    let rows = [
        "",
        "frames 1",
        "# \u{e4}\u{20ac} \u{1f4fb}\nframes 17 contact 3 closed",
    ];
    for wanted in rows {
        match read_text(rt.alloc(), Interrupted::new(wanted.as_bytes(), false)) {
            Ok(text) => assert_eq!(rt; text.as_str(), wanted),
            Err(_) => assert!(rt; false, "{wanted}"),
        }
    }
    Ok(())
}

#[test]
fn a_text_that_is_not_utf8_is_refused(rt: HostRuntime) -> Result<(), Fail> {
    let rows: [&[u8]; 3] = [
        b"\xff",
        b"frames 1 # \xc3",
        b"contact 3 closed # \x80 frames",
    ];
    for (row, bytes) in rows.iter().enumerate() {
        let source = Interrupted::new(*bytes, false);
        refuses(&rt, source, TextFault::NotUtf8, row);
    }
    Ok(())
}

/// Where the first bytes show that no text begins with them, the rest is not read.
#[test]
fn a_reader_that_fails_is_reported_once_it_fails(rt: HostRuntime) -> Result<(), Fail> {
    let rows: [(&[u8], TextFault); 6] = [
        (b"", TextFault::Failed),
        (b"frames 1", TextFault::Failed),
        (b"@@@@@@@@", TextFault::Failed),
        (b"# \xc3\xa4\xc3", TextFault::Failed),
        (b"# \xc3   ", TextFault::NotUtf8),
        (b"\xff\xff\xff\xff @@@@@", TextFault::NotUtf8),
    ];
    for (row, (bytes, fault)) in rows.iter().enumerate() {
        let source = Interrupted::new(*bytes, true);
        refuses(&rt, source, *fault, row);
    }
    Ok(())
}
