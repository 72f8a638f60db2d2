//! A sink that takes one byte per call.

ghost use Rattle.std.specs.Prelude.{◌≡◌, false, Some};

use super::codes::{LOWERED, START, typed};
use mux_config::Config;
use plan_player::{PlayFault, Player, Sink, play_frames};
use plan_verifier::Verified;
use std::alloc::Global;
use std::process::Abort;
use std::test::Fail;

/// Takes one byte per call until memory runs out.
#[derive(Drop)]
struct Single {
    bytes: Vec<u8>,
    is_failed: bool,
}

impl Single {
    /// A sink that has taken nothing.
    fn new(alloc: Global) -> Single
        ensures { result.is_failed ≡ false }
    {
        Single {
            bytes: Vec::new(alloc),
            is_failed: false,
        }
    }
}

impl Sink for Single {
    ghost taken = { λ s. Some s.bytes.items };

    ghost has_failed = { λ s. s.is_failed };

    fn put(&mut self, bytes: &[u8]) -> Option<usize> {
        if self.bytes.extend_from_slice(&bytes[..1]).is_ok() {
            return Some(1);
        }
        self.is_failed = true;
        None
    }

    fn failed(&self) -> bool {
        self.is_failed
    }
}

/// The number of frames played.
const FRAMES: u32 = 70;

/// The bytes of these frames, as `frame` returns them.
fn frame_by_frame(alloc: Global, player: &mut Player<Config>) -> Result<Vec<u8>, Fail> {
    let mut bytes = Vec::new(alloc);
    for _ in 0..FRAMES {
        bytes.extend_from_slice(player.frame().bytes())?;
    }
    Ok(bytes)
}

/// Plays the frames into a sink that takes single bytes. Returns the result of `play_frames`, and
/// whether the sink has these bytes and has not failed.
fn put_singly(
    alloc: Global,
    player: &mut Player<Config>,
    bytes: &[u8],
) -> (Result<u64, PlayFault>, bool) {
    let mut sink = Single::new(alloc);
    let frames = play_frames(player, FRAMES, &mut sink);
    (frames, sink.bytes.as_slice() == bytes && !sink.failed())
}

/// A sink that takes single bytes receives the bytes that `frame` returns.
fn takes_frames(rt: &impl Abort, alloc: Global, code: &Verified) -> Result<(), Fail> {
    let mut player: Player<Config> = Player::new(code, START)?;
    let bytes = frame_by_frame(alloc, &mut player)?;
    let mut again: Player<Config> = Player::new(code, START)?;
    let (frames, is_same) = put_singly(alloc, &mut again, &bytes);
    assert_eq!(rt; frames?, u64::from(FRAMES));
    assert!(rt; is_same);
    Ok(())
}

#[test]
fn a_sink_that_takes_one_byte_a_call_gets_the_same_bytes(rt: HostRuntime) -> Result<(), Fail> {
    let code = typed(rt.alloc(), &LOWERED)?;
    takes_frames(&rt, rt.alloc(), &code)
}
