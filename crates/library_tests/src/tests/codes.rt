//! Code files, and their playback.

use mux_config::Config;
use plan_code::{Contacts, decode};
use plan_player::{Start, Writer};
use plan_session::{RunFault, run};
use plan_verifier::{Verified, verify};
use std::alloc::Global;
use std::test::Fail;

/// A code that ends at once, over an empty configuration.
pub const ENDED: [u8; 35] = [
    0x44, 0x41, 0x42, 0x50, 0x01, 0xE1, 0xC5, 0x04, 0x18, 0x14, 0x00, 0x01, 0x00, 0x01, 0x00, 0x01,
    0x00, 0x00, 0x00, 0x00, 0x00, 0x00, 0x00, 0x00, 0x00, 0x00, 0x00, 0x00, 0x00, 0x00, 0x00, 0x01,
    0x00, 0x01, 0x07,
];

/// A code that lowers the rate of a sub-channel with a swap 24 frames later, and ends.
pub const LOWERED: [u8; 63] = [
    // the header
    0x44, 0x41, 0x42, 0x50, 0x01, 0xE1, 0xC5, 0x04, 0x18, 0x14, 0x00, 0x01, 0x00, 0x01, 0x00, 0x04,
    // the configuration
    0x01, 0x01, 0x00, 0x01, 0x00, 0x00, 0x00, 0x03, 0x00, 0x80, 0x00, 0xC2, 0x21, 0x01, 0x00, 0x3F,
    0x01,
    // the label
    0x00, 0x00, 0x00, 0x00, 0x00, 0x00, 0x00, 0x00, 0x00, 0x00, 0x00, 0x00, 0x03,
    // the instructions
    0x00, 0x01, 0x13, 0x01, 0x00, 0x60, 0x00, 0x02, 0x04, 0x00, 0x18, 0x00, 0x03, 0x06, 0x00, 0x04,
    0x07,
];

/// A start at CIF count 0 in the first frame of the day, with all contacts open.
pub const START: Start = Start {
    eid: 0xE1C5,
    count: 0,
    day: 0,
    contacts: Contacts(0),
};

/// The typed code of a code file.
pub fn typed(alloc: Global, file: &[u8]) -> Result<Verified, Fail> {
    let code = decode(alloc, file).ok().ok_or("a code")?;
    Ok(verify::<Config>(code).ok().ok_or("a typed code")?)
}

/// Plays a code file from that start over the text of an event file. Returns the result and the
/// bytes written.
pub fn played(
    alloc: Global,
    file: &[u8],
    text: &str,
) -> Result<(Result<u128, RunFault>, Vec<u8>), Fail> {
    let mut sink = Writer::new(Vec::new(alloc));
    let answer = run(alloc, file, text, 0, 0, Contacts(0), &mut sink);
    let mut bytes = Vec::new(alloc);
    bytes.extend_from_slice(sink.inner().as_slice())?;
    Ok((answer, bytes))
}
