//! `verify` over files in memory: what is printed, and how the command ends.

use cli_scripts::explained::Explanation;
use cli_scripts::verify::{VerifyRequest, show_verdict};
use console::exit::{Failure, Status};
use console::memory::MemoryFiles;
use std::process::Abort;
use std::test::Fail;

/// The code file of a plan that ends at once, up to its last byte: the header, a configuration with
/// nothing in it, one label of cost 1, and the line of one instruction.
const ENDS_AT_ONCE: [u8; 34] = [
    0x44, 0x41, 0x42, 0x50, 0x01, 0xE1, 0xC5, 0x04, 0x18, 0x14, 0x00, 0x01, 0x00, 0x01, 0x00, 0x01,
    0x00, 0x00, 0x00, 0x00, 0x00, 0x00, 0x00, 0x00, 0x00, 0x00, 0x00, 0x00, 0x00, 0x00, 0x00, 0x01,
    0x00, 0x01,
];

/// The opcodes of `end` and `join`, and one that no instruction has.
const END: u8 = 0x07;

const JOIN: u8 = 0x06;

const NONE: u8 = 0xFF;

/// How a verification ends.
#[derive(Clone, Copy, Debug, PartialEq, Eq)]
enum Verdict {
    Accepted,
    Refused,
    Unread,
    Other,
}

/// The request to verify `x.code`.
const REQUEST: VerifyRequest<'static> = VerifyRequest {
    code: "x.code",
    explanation: Explanation::Nowhere,
};

/// Verifies, and returns how it ended and what was printed.
fn verified(rt: &impl AllocGlobal, files: &mut MemoryFiles) -> (Verdict, Vec<u8>) {
    let mut printed = Vec::new(rt.alloc());
    let verdict = match show_verdict(rt.alloc(), &REQUEST, files, &mut printed) {
        Ok(Status::Done) => Verdict::Accepted,
        Ok(Status::Refused) => Verdict::Refused,
        Ok(Status::Misused | Status::Faulty) => Verdict::Other,
        Err(Failure::Read(_)) => Verdict::Unread,
        Err(Failure::Memory | Failure::Create(_) | Failure::Output) => Verdict::Other,
    };
    (verdict, printed)
}

/// Files in memory with a code file of these bytes and this last one.
fn files_with(rt: &impl AllocGlobal, front: &[u8], last: u8) -> Result<MemoryFiles, Fail> {
    let mut file = Vec::from_slice(rt.alloc(), front)?;
    file.push(last)?;
    let mut files = MemoryFiles::new(rt.alloc(), Vec::new(rt.alloc()));
    files.put("x.code", file.as_slice())?;
    Ok(files)
}

#[test]
fn the_verdict_is_that_of_the_file(rt: HostRuntime) -> Result<(), Fail> {
    let rows: [(&[u8], u8, Verdict, &[u8]); 5] = [
        (&ENDS_AT_ONCE, END, Verdict::Accepted, b"accepted\n"),
        (
            &ENDS_AT_ONCE,
            JOIN,
            Verdict::Refused,
            b"refused at 0 line 1: JoinIdle\n",
        ),
        (&ENDS_AT_ONCE, NONE, Verdict::Refused, b"code: Field 34\n"),
        (b"DAB", 0x51, Verdict::Refused, b"code: Magic\n"),
        (b"DA", 0x42, Verdict::Refused, b"code: Truncated\n"),
    ];
    for (row, (front, last, wanted, line)) in rows.iter().enumerate() {
        let mut files = files_with(&rt, front, *last)?;
        let (verdict, printed) = verified(&rt, &mut files);
        assert_eq!(rt; verdict, *wanted, "{row}");
        assert_eq!(rt; printed.as_slice(), *line, "{row}");
        assert!(rt; files.errors().is_empty(), "{row}");
    }
    Ok(())
}

#[test]
fn a_code_that_is_absent_is_not_read(rt: HostRuntime) -> Result<(), Fail> {
    let mut files = MemoryFiles::new(rt.alloc(), Vec::new(rt.alloc()));
    let (verdict, printed) = verified(&rt, &mut files);
    assert_eq!(rt; verdict, Verdict::Unread);
    assert!(rt; printed.is_empty());
    assert_eq!(rt; files.held("x.code"), None);
    Ok(())
}
