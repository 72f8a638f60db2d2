//! A day of frames, received by a listener.

use crate::{code_in, unfit};
use fib_reader::Listener;
use mux_config::{Config, Store};
use plan_code::Contacts;
use plan_player::{Player, Start};
use plan_verifier::{Verified, verify};
use std::alloc::Global;
use std::io::{self, Write};

/// The frames of a day.
const FRAMES: u32 = 3_600_000;

/// The results of a day.
#[derive(Clone, Copy)]
struct Met {
    fibs: u32,
    damaged: u32,
    swaps: u32,
    wrong: u32,
}

/// Whether the listener's current configuration is this one.
fn is_right(listener: &Listener, current: &Config) -> bool {
    match listener.current().config() {
        Some(heard) => heard.same(current),
        None => false,
    }
}

/// Plays a day from count 0 on. A listener that is new before the first frame hears each FIB; from
/// the frame on that completes the first period, its configuration must be that of each frame. A
/// swap is counted when no frames are left before it.
fn hear_day(player: &mut Player<'_, Config>, period: u8) -> Met {
    let mut met = Met {
        fibs: 0,
        damaged: 0,
        swaps: 0,
        wrong: 0,
    };
    let mut listener = Listener::new();
    for number in 1..=FRAMES {
        if player.remaining() == Some(0) {
            met.swaps = met.swaps.saturating_add(1);
        }
        let frame = player.frame();
        for place in 0..4usize {
            let Some(fib) = frame.fib(place) else {
                break;
            };
            met.fibs = met.fibs.saturating_add(1);
            if listener.hear(fib).is_err() {
                met.damaged = met.damaged.saturating_add(1);
            }
        }
        if number >= u32::from(period) && !is_right(&listener, player.current()) {
            met.wrong = met.wrong.saturating_add(1);
        }
    }
    met
}

/// Decodes and verifies a code file.
fn typed(alloc: Global, file: &[u8]) -> io::Result<Verified> {
    let code = code_in(alloc, file)?;
    verify::<Config>(code).map_err(|_| unfit())
}

/// Plays a code file for a day, and prints the results.
pub fn try_day<W: Write>(alloc: Global, file: &[u8], out: &mut W) -> io::Result<bool> {
    let code = typed(alloc, file)?;
    let plan = code.code().plan();
    let start = Start {
        eid: plan.eid,
        count: 0,
        day: 0,
        contacts: Contacts(0),
    };
    let mut player: Player<Config> = Player::new(&code, start).map_err(|_| unfit())?;
    let met = hear_day(&mut player, plan.period);
    writeln!(
        out,
        "frames {FRAMES} FIBs {} damaged {} swaps {} frames heard wrongly {}",
        met.fibs, met.damaged, met.swaps, met.wrong
    )?;
    Ok(met.wrong == 0)
}
