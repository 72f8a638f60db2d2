//! `answer` over files in memory: each command by its command line, with its exit status, what it
//! prints, and what the files hold then.

use crate::tests::playing::{AT_0, AT_4, EMPTY};
use cli::answer::answer;
use console::memory::MemoryFiles;
use std::process::Abort;
use std::test::Fail;

/// A script of a plan that ends at once, and its code file.
const ENDS: &[u8] = b"ensemble E1C5 period 4 notice 24 budget 20\nbegin\nend\n";

const ENDS_CODE: [u8; 35] = [
    0x44, 0x41, 0x42, 0x50, 0x01, 0xE1, 0xC5, 0x04, 0x18, 0x14, 0x00, 0x01, 0x00, 0x01, 0x00, 0x01,
    0x00, 0x00, 0x00, 0x00, 0x00, 0x00, 0x00, 0x00, 0x00, 0x00, 0x00, 0x00, 0x00, 0x00, 0x00, 0x01,
    0x00, 0x03, 0x07,
];

/// A sub-channel at 128 kbit/s, and at 96 kbit/s.
const HIGH: &[u8] = b"ensemble E1C5 period 4 notice 24 budget 20\nsub 1 at 0 eep 3-A 128\nbegin\n";

const LOW: &[u8] = b"ensemble E1C5 period 5 notice 30 budget 9\nsub 1 at 0 eep 3-A 96\nbegin\n";

const LOWERS: &[u8] = b"ensemble E1C5\nperiod 5 notice 30 budget 9\n\
sub 1 at 0 eep 3-A 128\nbegin\nrate sub 1 96\ncommit in 30\njoin\n";

/// The paths of the files that every command line finds.
const GIVEN: [&str; 8] = [
    "ends.plan",
    "high.plan",
    "low.plan",
    "ends.code",
    "a.events",
    "a.commands",
    "a.fib",
    "short.rec",
];

/// What standard output must be.
#[derive(Clone, Copy)]
enum Wanted<'w> {
    /// These bytes.
    All(&'w [u8]),
    /// These bytes, and more behind them.
    Front(&'w [u8]),
}

impl Wanted<'_> {
    /// Whether bytes are so.
    fn is_met(&self, printed: &[u8]) -> bool {
        match self {
            Wanted::All(bytes) => printed == *bytes,
            Wanted::Front(bytes) => printed.starts_with(bytes) && printed.len() > bytes.len(),
        }
    }
}

/// The frames of an empty ensemble from count 0 to count 4, three FIBs each.
fn frames(rt: &impl AllocGlobal) -> Result<Vec<u8>, Fail> {
    let mut bytes = Vec::new(rt.alloc());
    for first in [&AT_0, &EMPTY, &EMPTY, &EMPTY, &AT_4] {
        bytes.extend_from_slice(first)?;
        bytes.extend_from_slice(&EMPTY)?;
        bytes.extend_from_slice(&EMPTY)?;
    }
    Ok(bytes)
}

/// The bytes of a given file.
fn given(rt: &impl AllocGlobal, path: &str) -> Result<Vec<u8>, Fail> {
    let bytes: &[u8] = match path {
        "ends.plan" => ENDS,
        "high.plan" => HIGH,
        "low.plan" => LOW,
        "ends.code" => &ENDS_CODE,
        "a.events" => b"frames 2 contact 3 closed frames 3",
        "a.commands" => b"run 2 show",
        "short.rec" => b"\x01\x00",
        _ => return frames(rt),
    };
    Ok(Vec::from_slice(rt.alloc(), bytes)?)
}

/// The given files, with two lines for `live` as standard input.
fn given_files(rt: &impl AllocGlobal) -> Result<MemoryFiles, Fail> {
    let input = Vec::from_slice(rt.alloc(), b"frames 2\nframes 3\n")?;
    let mut files = MemoryFiles::new(rt.alloc(), input);
    for path in GIVEN {
        files.put(path, given(rt, path)?.as_slice())?;
    }
    Ok(files)
}

/// The exit status of a command line, its words separated by single blanks, and what it prints.
fn answered(
    rt: &impl AllocGlobal,
    line: &str,
    files: &mut MemoryFiles,
) -> Result<(u8, Vec<u8>), Fail> {
    let mut words = Vec::new(rt.alloc());
    for word in line.split(' ') {
        words.push(word)?;
    }
    let mut printed = Vec::new(rt.alloc());
    let status = answer(rt.alloc(), words.as_slice(), files, &mut printed);
    Ok((status, printed))
}

/// Whether the given files are as they were.
fn are_kept(rt: &impl AllocGlobal, files: &MemoryFiles) -> Result<bool, Fail> {
    for path in GIVEN {
        if files.held(path) != Some(given(rt, path)?.as_slice()) {
            return Ok(false);
        }
    }
    Ok(true)
}

#[test]
fn each_command_prints_its_answer(rt: HostRuntime) -> Result<(), Fail> {
    let rows: [(&str, u8, Wanted<'static>); 18] = [
        ("verify ends.code", 0, Wanted::All(b"accepted\n")),
        ("verify ends.plan", 1, Wanted::All(b"code: Magic\n")),
        ("verify none", 1, Wanted::All(b"cannot read none\n")),
        ("debug ends.code a.commands", 0, Wanted::Front(b"frames 2 ")),
        (
            "debug ends.code a.events",
            1,
            Wanted::All(b"commands 1:1: Expected\n"),
        ),
        ("map ends.plan", 0, Wanted::Front(b"begin 2: free 864\n")),
        (
            "listen a.fib",
            0,
            Wanted::All(b"fibs 15 damaged 0\ncurrent\nnext\nno swap\n"),
        ),
        (
            "listen a.fib --script",
            0,
            Wanted::All(b"ensemble E1C5\nperiod 4 notice 240 budget 20\nbegin\n"),
        ),
        (
            "check a.fib",
            0,
            Wanted::Front(b"0 0 ensemble E1C5\nframes 5 "),
        ),
        (
            "check a.fib --mode 4",
            3,
            Wanted::Front(b"0 0 ensemble E1C5\n"),
        ),
        (
            "frame short.rec --ensemble E1C5 --count 0",
            1,
            Wanted::All(b"record: Short\n"),
        ),
        (
            "frame ends.plan --script --count 0",
            0,
            Wanted::Front(b"0500E1C50000FF"),
        ),
        ("diff high.plan low.plan", 0, Wanted::All(LOWERS)),
        ("compile low.plan", 2, Wanted::Front(b"error: ")),
        ("compile ends.plan ends.plan", 2, Wanted::Front(b"error: ")),
        ("nothing", 2, Wanted::Front(b"error: ")),
        ("help Round", 0, Wanted::Front(b"refused line L: Round\n")),
        ("--version", 0, Wanted::Front(b"dabplan ")),
    ];
    for (row, (line, wanted, text)) in rows.iter().enumerate() {
        let mut files = given_files(&rt)?;
        let (status, printed) = answered(&rt, line, &mut files)?;
        assert_eq!(rt; status, *wanted, "{row}");
        assert!(rt; text.is_met(printed.as_slice()), "{row}");
        assert!(rt; are_kept(&rt, &files)?, "{row}");
        assert_eq!(rt; files.held("made"), None, "{row}");
    }
    Ok(())
}

#[test]
fn compile_makes_the_code_file(rt: HostRuntime) -> Result<(), Fail> {
    let mut files = given_files(&rt)?;
    let (status, printed) = answered(&rt, "compile ends.plan made", &mut files)?;
    assert_eq!(rt; status, 0);
    assert_eq!(rt;
        printed.as_slice(),
        &b"instructions 1 labels 1 configurations 1\n"[..]
    );
    assert_eq!(rt; files.held("made"), Some(&ENDS_CODE[..]));
    let (status, printed) = answered(&rt, "compile ends.plan -", &mut files)?;
    assert_eq!(rt; status, 0);
    assert_eq!(rt; printed.as_slice(), &ENDS_CODE[..]);
    assert!(rt; are_kept(&rt, &files)?);
    Ok(())
}

#[test]
fn play_makes_the_frames(rt: HostRuntime) -> Result<(), Fail> {
    let frames = frames(&rt)?;
    let mut files = given_files(&rt)?;
    let (status, printed) = answered(&rt, "play ends.code a.events made", &mut files)?;
    assert_eq!(rt; status, 0);
    assert_eq!(rt; printed.as_slice(), &b"played 5 frames\n"[..]);
    assert_eq!(rt; files.held("made"), Some(frames.as_slice()));
    let (status, printed) = answered(&rt, "play ends.code a.events -", &mut files)?;
    assert_eq!(rt; status, 0);
    assert_eq!(rt; printed.as_slice(), frames.as_slice());
    assert!(rt; are_kept(&rt, &files)?);
    Ok(())
}

#[test]
fn live_and_merge_print_frames(rt: HostRuntime) -> Result<(), Fail> {
    let frames = frames(&rt)?;
    let rows = ["live ends.code", "merge a.fib a.fib"];
    for line in rows {
        let mut files = given_files(&rt)?;
        let (status, printed) = answered(&rt, line, &mut files)?;
        assert_eq!(rt; status, 0, "{line}");
        assert_eq!(rt; printed.as_slice(), frames.as_slice(), "{line}");
        assert!(rt; are_kept(&rt, &files)?, "{line}");
    }
    Ok(())
}
