//! `play` over files in memory, with one event file.

use crate::playing::{EVENTS, OUT, played};
use plan_code::Contacts;
use plan_session::StartOptions;
use std::process::Abort;
use std::test::Fail;

/// The code file of a plan that ends at once: the header, with a notice period of 4 frames, a
/// configuration with nothing in it, one label of cost 1, the line of one instruction, and that
/// instruction.
pub(crate) const ENDS_AT_ONCE: [u8; 35] = [
    0x44, 0x41, 0x42, 0x50, 0x01, 0xE1, 0xC5, 0x04, 0x18, 0x14, 0x00, 0x01, 0x00, 0x01, 0x00, 0x01,
    0x00, 0x00, 0x00, 0x00, 0x00, 0x00, 0x00, 0x00, 0x00, 0x00, 0x00, 0x00, 0x00, 0x00, 0x00, 0x01,
    0x00, 0x01, 0x07,
];

/// A FIB without a FIG: an end marker, padding, and its CRC.
pub(crate) const EMPTY: [u8; 32] = [
    0xFF, 0x00, 0x00, 0x00, 0x00, 0x00, 0x00, 0x00, 0x00, 0x00, 0x00, 0x00, 0x00, 0x00, 0x00, 0x00,
    0x00, 0x00, 0x00, 0x00, 0x00, 0x00, 0x00, 0x00, 0x00, 0x00, 0x00, 0x00, 0x00, 0x00, 0xA8, 0xA8,
];

/// A FIB with FIG 0/0 of ensemble E1C5 at CIF count 0, and at 4.
pub(crate) const AT_0: [u8; 32] = [
    0x05, 0x00, 0xE1, 0xC5, 0x00, 0x00, 0xFF, 0x00, 0x00, 0x00, 0x00, 0x00, 0x00, 0x00, 0x00, 0x00,
    0x00, 0x00, 0x00, 0x00, 0x00, 0x00, 0x00, 0x00, 0x00, 0x00, 0x00, 0x00, 0x00, 0x00, 0x47, 0xF0,
];

pub(crate) const AT_4: [u8; 32] = [
    0x05, 0x00, 0xE1, 0xC5, 0x00, 0x04, 0xFF, 0x00, 0x00, 0x00, 0x00, 0x00, 0x00, 0x00, 0x00, 0x00,
    0x00, 0x00, 0x00, 0x00, 0x00, 0x00, 0x00, 0x00, 0x00, 0x00, 0x00, 0x00, 0x00, 0x00, 0x41, 0x01,
];

/// A start at CIF count 0 and the first frame of the day, with all contacts open.
pub(crate) const START: StartOptions = StartOptions {
    count: 0,
    day: 0,
    contacts: Contacts(0),
};

#[test]
fn the_output_holds_the_run(rt: HostRuntime) -> Result<(), Fail> {
    let found = played(
        rt.alloc(),
        &ENDS_AT_ONCE,
        b"frames 2 contact 3 closed frames 3",
        START,
    )?;
    let Some(files) = found else {
        return Err(Fail::new("not played to the end"));
    };
    let frames = [&AT_0, &EMPTY, &EMPTY, &EMPTY, &AT_4];
    let mut wanted = Vec::new(rt.alloc());
    for frame in frames {
        wanted.extend_from_slice(frame)?;
        wanted.extend_from_slice(&EMPTY)?;
        wanted.extend_from_slice(&EMPTY)?;
    }
    assert_eq!(rt; files.held(OUT), Some(wanted.as_slice()));
    assert_eq!(rt;
        files.held(EVENTS),
        Some(&b"frames 2 contact 3 closed frames 3"[..])
    );
    assert!(rt; files.errors().is_empty());
    Ok(())
}

#[test]
fn refused_events_are_not_played(rt: HostRuntime) -> Result<(), Fail> {
    let rows: [&[u8]; 4] = [b"frames 0", b"frames", b"frames 1 @", b"\xFF"];
    for events in rows {
        assert!(rt; played(rt.alloc(), &ENDS_AT_ONCE, events, START)?.is_none());
    }
    Ok(())
}

#[test]
fn refused_codes_are_not_played(rt: HostRuntime) -> Result<(), Fail> {
    let rows: [&[u8]; 3] = [b"", &ENDS_AT_ONCE[..34], b"DABQ"];
    for code in rows {
        assert!(rt; played(rt.alloc(), code, b"frames 1", START)?.is_none());
    }
    Ok(())
}
