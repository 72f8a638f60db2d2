//! Playing a code file over the text of an event file.

ghost use Rattle.std.specs.Prelude.{◌≡◌, List, false, IfErr, OnOk};
ghost use Rattle.plan_player.specs.Playing.{Playing};
ghost use Rattle.plan_session.specs.declared.step.Step.{Step};
ghost use Rattle.plan_session.specs.Events.{events_of};
ghost use Rattle.plan_session.specs.Playback.{asked, IsPlayback, IsStarted, Delivers, IsRunFault};
ghost use Rattle.plan_session.specs.Playback.{IsPlayFault, is_write, IsSilent};

use crate::code_file::typed_code;
use crate::laws;
use crate::playing::play_list;
use crate::run_fault::RunFault;
use crate::start::{StartOptions, start_with};
use crate::step_list::StepList;
use mux_tables::Tables;
use plan_code::Contacts;
use plan_player::{Player, Sink, Start};
use plan_verifier::Verified;
use std::alloc::Global;

/// Plays a typed code from this start over the events of a text. Each frame is put into the sink,
/// which must not have failed. Returns the number of frames. No memory is allocated for the steps
/// of the text or their frames.
///
/// # Errors
///
/// The first of these: `Start` if the count is 5000 or more, or the frame of the day 3,600,000 or
/// more; `Events` if the text is not an event file; `Write` if the sink fails, with what it took.
/// With any other fault nothing was written.
pub fn play<K: Sink>(
    code: &Verified,
    start: Start,
    events: &str,
    out: &mut K,
) -> Result<u128, RunFault>
    requires working { K.has_failed out.old ≡ false }
    // A start in range and a text of steps are played, unless memory runs out or the sink fails.
    ensures played { (p : Playing) (steps : List Step)
        → IsStarted code.now start events.now p steps
        → Delivers p (events_of steps) (K.taken out.old) (K.taken out.new) result }
    // Nothing else is played.
    ensures only { OnOk result ((p : Playing) × (steps : List Step)
        × IsStarted code.now start events.now p steps) }
    ensures first_fault { IfErr result (λ e. IsPlayFault code.now start events.now e) }
    // The sink has failed exactly if the fault is `Write`, and has taken nothing with any other
    // fault.
    ensures failed { K.has_failed out.new ≡ is_write result }
    ensures silent { IfErr result (λ e. IsSilent (K.taken out.old) (K.taken out.new) e) }
{
    laws::one_list();
    let mut player: Player<Tables> = match Player::new(code, start) {
        Ok(player) => player,
        Err(fault) => return Err(RunFault::Start(fault)),
    };
    let mut steps = match StepList::new(events) {
        Ok(steps) => steps,
        Err(fault) => return Err(RunFault::Events(fault)),
    };
    match play_list(&mut player, &mut steps, out) {
        Ok(frames) => Ok(frames),
        Err(cut) => Err(RunFault::Write {
            frames: cut.frames,
            bytes: cut.bytes,
        }),
    }
}

/// Plays a code file over the events of a text. The player starts at this CIF count and frame of
/// the day with these contacts closed. Each frame is put into the sink, which must not have failed.
/// Returns the number of frames.
///
/// # Errors
///
/// The first of these: `Code` if the bytes are not a code file, or memory for it runs out;
/// `Refused` if the code is not typed; `Start` if the count is 5000 or more, or the frame of the
/// day 3,600,000 or more; `Events` if the text is not an event file; `Write` if the sink fails,
/// with what it took. With any other fault nothing was written.
pub fn run<K: Sink>(
    alloc: Global,
    code: &[u8],
    events: &str,
    count: u16,
    day: u32,
    contacts: Contacts,
    out: &mut K,
) -> Result<u128, RunFault>
    requires working { K.has_failed out.old ≡ false }
    // A typed code, a start in range and a text of steps are played, unless memory runs out or the
    // sink fails.
    ensures played { (p : Playing) (steps : List Step)
        → IsPlayback (asked code.now events.now count day contacts) p steps
        → Delivers p (events_of steps) (K.taken out.old) (K.taken out.new) result }
    // Nothing else is played.
    ensures only { OnOk result ((p : Playing) × (steps : List Step)
        × IsPlayback (asked code.now events.now count day contacts) p steps) }
    ensures first_fault { IfErr result (λ e.
        IsRunFault (asked code.now events.now count day contacts) e) }
    // The sink has failed exactly if the fault is `Write`, and has taken nothing with any other
    // fault.
    ensures failed { K.has_failed out.new ≡ is_write result }
    ensures silent { IfErr result (λ e. IsSilent (K.taken out.old) (K.taken out.new) e) }
{
    let verified = typed_code(alloc, code)?;
    let start = StartOptions {
        count,
        day,
        contacts,
    };
    let begin = start_with(&verified, start);
    play(&verified, begin, events, out)
}
