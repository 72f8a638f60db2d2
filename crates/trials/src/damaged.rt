//! Damaged code files: each truncation, and each byte with each other value.

use fib_reader::check;
use mux_tables::Tables;
use plan_code::{CodeFault, ContactId, Contacts, decode};
use plan_player::{Player, Start};
use plan_verifier::{Verified, verify};
use std::alloc::Global;
use std::io::{self, Write};

/// The number of frames for which each accepted code is played.
const FRAMES: u8 = 100;

/// The results for damaged files.
#[derive(Clone, Copy)]
struct Counts {
    magic: u32,
    version: u32,
    truncated: u32,
    field: u32,
    limit: u32,
    trailing: u32,
    memory: u32,
    refused: u32,
    accepted: u32,
    unplayed: u32,
    frames: u32,
    good_fibs: u32,
    damaged_fibs: u32,
}

impl Counts {
    const fn none() -> Counts {
        Counts {
            magic: 0,
            version: 0,
            truncated: 0,
            field: 0,
            limit: 0,
            trailing: 0,
            memory: 0,
            refused: 0,
            accepted: 0,
            unplayed: 0,
            frames: 0,
            good_fibs: 0,
            damaged_fibs: 0,
        }
    }

    fn show<W: Write>(&self, out: &mut W) -> io::Result<()> {
        writeln!(
            out,
            "Magic {} Version {} Truncated {} Field {} Limit {} Trailing {} Memory {}",
            self.magic,
            self.version,
            self.truncated,
            self.field,
            self.limit,
            self.trailing,
            self.memory
        )?;
        writeln!(
            out,
            "refused {} accepted {} of these unplayed {}",
            self.refused, self.accepted, self.unplayed
        )?;
        writeln!(
            out,
            "frames {} good FIBs {} damaged FIBs {}",
            self.frames, self.good_fibs, self.damaged_fibs
        )
    }
}

fn count(counter: &mut u32) {
    *counter = counter.saturating_add(1);
}

fn count_fault(fault: CodeFault, counts: &mut Counts) {
    match fault {
        CodeFault::Magic => count(&mut counts.magic),
        CodeFault::Version => count(&mut counts.version),
        CodeFault::Truncated => count(&mut counts.truncated),
        CodeFault::Field(_) => count(&mut counts.field),
        CodeFault::Limit => count(&mut counts.limit),
        CodeFault::Trailing => count(&mut counts.trailing),
        CodeFault::Memory => count(&mut counts.memory),
    }
}

/// Plays an accepted code from count 0 on, closes one contact after another and opens them again,
/// and checks each FIB.
fn play_it(code: &Verified, counts: &mut Counts) {
    let start = Start {
        eid: code.code().plan().eid,
        count: 0,
        day: 0,
        contacts: Contacts(0),
    };
    let Ok(mut player) = Player::<Tables>::new(code, start) else {
        count(&mut counts.unplayed);
        return;
    };
    for number in 0..FRAMES {
        if let Some(contact) = ContactId::new(number % 32) {
            player.contact(contact, number < 64);
        }
        let frame = player.frame();
        count(&mut counts.frames);
        for place in 0..4usize {
            let Some(fib) = frame.fib(place) else {
                break;
            };
            match check(fib) {
                Ok(_) => count(&mut counts.good_fibs),
                Err(_) => count(&mut counts.damaged_fibs),
            }
        }
    }
}

/// Decodes and verifies a damaged file, and plays it if it is accepted.
fn try_file(alloc: Global, file: &[u8], counts: &mut Counts) {
    let code = match decode(alloc, file) {
        Ok(code) => code,
        Err(fault) => {
            count_fault(fault, counts);
            return;
        }
    };
    match verify::<Tables>(code) {
        Ok(verified) => {
            count(&mut counts.accepted);
            play_it(&verified, counts);
        }
        Err(_) => count(&mut counts.refused),
    }
}

/// Tries a code file truncated to each length, and with each byte changed to each other value, and
/// prints the results.
pub fn try_damaged<W: Write>(alloc: Global, file: &mut [u8], out: &mut W) -> io::Result<()> {
    let mut cuts = Counts::none();
    for length in 0..file.len() {
        try_file(alloc, &file[..length], &mut cuts);
    }
    writeln!(out, "cut at {} lengths", file.len())?;
    cuts.show(out)?;
    let mut changes = Counts::none();
    for place in 0..file.len() {
        let was = file[place];
        for step in 1u8..=255 {
            file[place] = was.wrapping_add(step);
            try_file(alloc, file, &mut changes);
        }
        file[place] = was;
    }
    writeln!(out, "each of {} bytes changed to 255 values", file.len())?;
    changes.show(out)?;
    let mut whole = Counts::none();
    try_file(alloc, file, &mut whole);
    writeln!(out, "whole")?;
    whole.show(out)
}
