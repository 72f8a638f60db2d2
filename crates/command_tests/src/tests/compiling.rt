//! `compile` over files in memory: what is printed, what the output file holds, and how the command
//! ends.

use cli_scripts::compile::{CompileRequest, show_compile};
use cli_scripts::explained::Explanation;
use console::exit::{Failure, Status};
use console::memory::MemoryFiles;
use std::process::Abort;
use std::test::Fail;

/// A script that repeats a wait.
const REPEATS: &[u8] = b"ensemble E1C5 period 4 notice 24 budget 20\nbegin repeat 3 {\nwait 1\n}\n";

/// Its code file: the plan, one configuration with nothing in it, two labels, and four instructions
/// with their lines.
const REPEATS_CODE: [u8; 65] = [
    0x44, 0x41, 0x42, 0x50, 0x01, 0xE1, 0xC5, 0x04, 0x18, 0x14, 0x00, 0x01, 0x00, 0x02, 0x00, 0x04,
    0x00, 0x00, 0x00, 0x00, 0x00, 0x00, 0x00, 0x00, 0x00, 0x00, 0x00, 0x00, 0x00, 0x00, 0x00, 0x02,
    0x00, 0x01, 0x00, 0x00, 0x00, 0x00, 0x00, 0x00, 0x00, 0x00, 0x00, 0x01, 0x01, 0x00, 0x02, 0x22,
    0x00, 0x00, 0x03, 0x00, 0x03, 0x01, 0x00, 0x01, 0x00, 0x02, 0x23, 0x00, 0x00, 0x01, 0x00, 0x04,
    0x07,
];

/// How a compilation ends.
#[derive(Clone, Copy, Debug, PartialEq, Eq)]
enum End {
    Done,
    Refused,
    Unread,
    Other,
}

/// The request to compile `x.plan` to `x.code`.
const REQUEST: CompileRequest<'static> = CompileRequest {
    script: "x.plan",
    out: "x.code",
    explanation: Explanation::Nowhere,
};

/// Files in memory with this script.
fn files_with(rt: &impl AllocGlobal, script: &[u8]) -> Result<MemoryFiles, Fail> {
    let mut files = MemoryFiles::new(rt.alloc(), Vec::new(rt.alloc()));
    files.put("x.plan", script)?;
    Ok(files)
}

/// Compiles, and returns how it ended and what was printed.
fn compiled(rt: &impl AllocGlobal, files: &mut MemoryFiles) -> (End, Vec<u8>) {
    let mut printed = Vec::new(rt.alloc());
    let end = match show_compile(rt.alloc(), &REQUEST, files, &mut printed) {
        Ok(Status::Done) => End::Done,
        Ok(Status::Refused) => End::Refused,
        Ok(Status::Misused | Status::Faulty) => End::Other,
        Err(Failure::Read(_)) => End::Unread,
        Err(Failure::Memory | Failure::Create(_) | Failure::Output) => End::Other,
    };
    (end, printed)
}

#[test]
fn the_output_holds_the_code_file(rt: HostRuntime) -> Result<(), Fail> {
    let mut files = files_with(&rt, REPEATS)?;
    files.put("other", b"kept")?;
    let (end, printed) = compiled(&rt, &mut files);
    assert_eq!(rt; end, End::Done);
    assert_eq!(rt;
        printed.as_slice(),
        &b"instructions 4 labels 2 configurations 1\n"[..]
    );
    assert_eq!(rt; files.held("x.code"), Some(&REPEATS_CODE[..]));
    assert_eq!(rt; files.held("x.plan"), Some(REPEATS));
    assert_eq!(rt; files.held("other"), Some(&b"kept"[..]));
    assert!(rt; files.errors().is_empty());
    Ok(())
}

#[test]
fn a_refusal_leaves_the_output_as_it_was(rt: HostRuntime) -> Result<(), Fail> {
    let rows: [(&[u8], End, &[u8]); 4] = [
        (b"begin", End::Refused, b"1:1: Expected\n"),
        (
            b"ensemble E1C5 period 4 notice 24 budget 20\nbegin join\n",
            End::Refused,
            b"refused line 2: JoinIdle\n",
        ),
        (b"# \xFF", End::Unread, b""),
        (b"", End::Refused, b"1:1: Expected\n"),
    ];
    for (row, (script, wanted, line)) in rows.iter().enumerate() {
        let mut files = files_with(&rt, script)?;
        let (end, printed) = compiled(&rt, &mut files);
        assert_eq!(rt; end, *wanted, "{row}");
        assert_eq!(rt; printed.as_slice(), *line, "{row}");
        assert_eq!(rt; files.held("x.code"), None, "{row}");
        files.put("x.code", b"before")?;
        let (again, _) = compiled(&rt, &mut files);
        assert_eq!(rt; again, *wanted, "{row}");
        assert_eq!(rt; files.held("x.code"), Some(&b"before"[..]), "{row}");
    }
    Ok(())
}

#[test]
fn a_script_that_is_absent_is_not_read(rt: HostRuntime) -> Result<(), Fail> {
    let mut files = MemoryFiles::new(rt.alloc(), Vec::new(rt.alloc()));
    let (end, printed) = compiled(&rt, &mut files);
    assert_eq!(rt; end, End::Unread);
    assert!(rt; printed.is_empty());
    assert_eq!(rt; files.held("x.code"), None);
    Ok(())
}
