//! `diff` over files in memory: which file is which, the order of refusals, and how the command
//! ends.

use cli_scripts::diff::{DiffRequest, show_diff};
use cli_scripts::explained::Explanation;
use console::exit::{Failure, Status};
use console::memory::MemoryFiles;
use std::process::Abort;
use std::test::Fail;

/// A programme at 128 kbit/s, and a script that is not sound.
const HIGH: &[u8] = b"ensemble E1C5 period 4 notice 24 budget 20\nsub 1 at 0 eep 3-A 128\nbegin\n";

const LOW: &[u8] = b"ensemble E1C5 period 5 notice 30 budget 9\nsub 1 at 0 eep 3-A 96\nbegin end\n";

const OTHER: &[u8] = b"ensemble E1C6 period 4 notice 24 budget 20\nsub 1 at 0 eep 3-A 96\nbegin\n";

const UNSOUND: &[u8] = b"ensemble E1C5 period 4 notice 24 budget 20\nservice C221\nbegin\n";

/// The plan from the first of them to the second.
const LOWERS: &[u8] = b"ensemble E1C5\nperiod 5 notice 30 budget 9\n\
sub 1 at 0 eep 3-A 128\nbegin\nrate sub 1 96\ncommit in 30\njoin\n";

/// How a comparison ends.
#[derive(Clone, Copy, Debug, PartialEq, Eq)]
enum End {
    Printed,
    Refused,
    Unread,
    Other,
}

/// The request for the plan from `a.plan` to `b.plan`.
const REQUEST: DiffRequest<'static> = DiffRequest {
    from: "a.plan",
    to: "b.plan",
    explanation: Explanation::Nowhere,
};

/// Compares, and returns how it ended and what was printed.
fn compared(rt: &impl AllocGlobal, files: &mut MemoryFiles) -> (End, Vec<u8>) {
    let mut printed = Vec::new(rt.alloc());
    let end = match show_diff(rt.alloc(), &REQUEST, files, &mut printed) {
        Ok(Status::Done) => End::Printed,
        Ok(Status::Refused) => End::Refused,
        Ok(Status::Misused | Status::Faulty) => End::Other,
        Err(Failure::Read(_)) => End::Unread,
        Err(Failure::Memory | Failure::Create(_) | Failure::Output) => End::Other,
    };
    (end, printed)
}

#[test]
fn the_plan_leads_from_the_first_to_the_second(rt: HostRuntime) -> Result<(), Fail> {
    let rows: [(&[u8], &[u8], End, &[u8]); 6] = [
        (HIGH, LOW, End::Printed, LOWERS),
        (HIGH, HIGH, End::Refused, b"refused: NoChange\n"),
        (HIGH, OTHER, End::Refused, b"refused: another ensemble\n"),
        (
            UNSOUND,
            b"begin",
            End::Refused,
            b"a.plan: refused line 3: Config EmptyService\n",
        ),
        (b"begin", UNSOUND, End::Refused, b"a.plan:1:1: Expected\n"),
        (
            HIGH,
            UNSOUND,
            End::Refused,
            b"b.plan: refused line 3: Config EmptyService\n",
        ),
    ];
    for (row, (from, to, wanted, text)) in rows.iter().enumerate() {
        let mut files = MemoryFiles::new(rt.alloc(), Vec::new(rt.alloc()));
        files.put("a.plan", from)?;
        files.put("b.plan", to)?;
        let (end, printed) = compared(&rt, &mut files);
        assert_eq!(rt; end, *wanted, "{row}");
        assert_eq!(rt; printed.as_slice(), *text, "{row}");
        assert_eq!(rt; files.held("a.plan"), Some(*from), "{row}");
        assert_eq!(rt; files.held("b.plan"), Some(*to), "{row}");
    }
    Ok(())
}

#[test]
fn the_first_file_is_read_first(rt: HostRuntime) -> Result<(), Fail> {
    let mut files = MemoryFiles::new(rt.alloc(), Vec::new(rt.alloc()));
    let (end, printed) = compared(&rt, &mut files);
    assert_eq!(rt; end, End::Unread);
    assert!(rt; printed.is_empty());
    files.put("a.plan", UNSOUND)?;
    let (end, printed) = compared(&rt, &mut files);
    assert_eq!(rt; end, End::Refused);
    assert_eq!(rt;
        printed.as_slice(),
        &b"a.plan: refused line 3: Config EmptyService\n"[..]
    );
    Ok(())
}
