//! Makes and writes the frames of steps.

ghost use Rattle.std.specs.Prelude.{◌≡◌, ◌≤◌, [], ◌∷◌, true, replicate, IfOk, OnOk};
ghost use Rattle.std.specs.Io.KnownBytes.{Keeps};
ghost use Rattle.plan_runs.specs.declared.event.Event.TheVariants.{Frame};
ghost use Rattle.plan_player.specs.Playing.{played};
ghost use Rattle.plan_player.specs.Delivery.{next_frame};
ghost use Rattle.plan_session.specs.Events.{events_of_step, events_of};
ghost use Rattle.plan_live.specs.Going.{FrameWent, Went};
ghost use Rattle.plan_live.specs.Living.{Streamed, streams_at};

use crate::ends::Ends;
use crate::fault::Stop;
use crate::notes::{Notes, look_at, notes_of, silent_frames};
use crate::options::LiveOptions;
use fib_codec::FibFrame;
use mux_config::Store;
use plan_player::{Player, pass_frames};
use plan_session::Step;

/// How many of the frames made so far were written.
fn written_of(made: u64, skip: u64) -> u64 {
    made.saturating_sub(skip)
}

/// Writes the bytes of the next frame, unless it is skipped, and counts it.
fn write_frame<E: Ends>(bytes: &[u8], made: &mut u64, skip: u64, ends: &mut E) -> Result<(), Stop>
    ensures went { let at = streams_at E.left E.written in OnOk result
        (FrameWent skip bytes.now made.old made.new (at ends.old) (at ends.new)) }
    ensures moments { E.moments ends.new ≡ E.moments ends.old }
{
    let number = *made;
    if number == u64::MAX {
        return Err(Stop::TooMany);
    }
    *made = number + 1;
    if number < skip {
        return Ok(());
    }
    match ends.write(bytes) {
        Ok(()) => Ok(()),
        Err(bytes) => Err(Stop::Write {
            frames: written_of(number, skip),
            bytes,
        }),
    }
}

/// Makes the next frame.
fn make_frame<'a, S: Store>(player: &mut Player<'a, S>) -> FibFrame
    ensures state { player.new ≡ played player.old (Frame ∷ []) }
    ensures bytes { result ≡ next_frame player.old }
{
    player.frame()
}

/// Flushes the output. `Err`: that failed after this many frames were made.
fn flush_line<E: Ends>(made: u64, skip: u64, ends: &mut E) -> Result<(), Stop>
    ensures flushed { OnOk result (E.is_flushed ends.new ≡ true) }
    ensures moments { E.moments ends.new ≡ E.moments ends.old }
    ensures written { Keeps (E.written ends.old) (E.written ends.new) }
    ensures left { E.left ends.new ≡ E.left ends.old }
{
    if ends.flush() {
        Ok(())
    } else {
        Err(Stop::Write {
            frames: written_of(made, skip),
            bytes: 0,
        })
    }
}

/// Makes room for the messages of a frame: if there is none, the output is flushed, and the
/// messages held are delivered. `Err`: the flush failed after this many frames were made.
fn make_room<E: Ends>(made: u64, skip: u64, ends: &mut E) -> Result<(), Stop>
    ensures moments { E.moments ends.new ≡ E.moments ends.old }
    ensures written { Keeps (E.written ends.old) (E.written ends.new) }
    ensures left { E.left ends.new ≡ E.left ends.old }
{
    if ends.has_room() {
        return Ok(());
    }
    flush_line(made, skip, ends)?;
    ends.release();
    Ok(())
}

/// Reports the notes of a frame.
fn report_notes<E: Ends>(notes: Notes, ends: &mut E)
    ensures moments { E.moments ends.new ≡ E.moments ends.old }
    ensures written { E.written ends.new ≡ E.written ends.old }
    ensures left { E.left ends.new ≡ E.left ends.old }
{
    for note in &notes {
        if let Some(message) = note {
            ends.report(*message);
        }
    }
}

/// Makes the next frame, writes it, and reports its notes.
fn send_frame<'a, S: Store, E: Ends>(
    player: &mut Player<'a, S>,
    made: &mut u64,
    options: LiveOptions,
    ends: &mut E,
) -> Result<(), Stop>
    ensures went { let at = streams_at E.left E.written in OnOk result
        (Went options.skip player.old made.old (Frame ∷ []) player.new made.new
        (at ends.old) (at ends.new)) }
    ensures moments { E.moments ends.new ≡ E.moments ends.old }
{
    let number = *made;
    let before = look_at(player);
    let frame = make_frame(player);
    write_frame(frame.bytes(), made, options.skip, ends)?;
    report_notes(notes_of(player, before, number, options.wanted), ends);
    Ok(())
}

/// Makes the next frame, writes it, and reports its notes, after those before where there is no
/// room for more.
fn play_frame<'a, S: Store, E: Ends>(
    player: &mut Player<'a, S>,
    made: &mut u64,
    options: LiveOptions,
    ends: &mut E,
) -> Result<(), Stop>
    ensures went { let at = streams_at E.left E.written in OnOk result
        (Went options.skip player.old made.old (Frame ∷ []) player.new made.new
        (at ends.old) (at ends.new)) }
    ensures moments { E.moments ends.new ≡ E.moments ends.old }
{
    make_room(*made, options.skip, ends)?;
    send_frame(player, made, options, ends)
}

/// Passes frames that are skipped without making their bytes, at most `most`, and returns their
/// number: quiet ones, up to the next frame after which something is reported.
fn pass_skipped<'a, S: Store>(
    player: &mut Player<'a, S>,
    made: &mut u64,
    most: u32,
    options: LiveOptions,
) -> u32
    ensures went { (at : Streamed) → Went options.skip player.old made.old (replicate result Frame)
        player.new made.new at at }
    ensures bound { result ≤ most }
{
    let number = *made;
    let skipped = options.skip.saturating_sub(number);
    let silent = silent_frames(number, options.wanted.every);
    let most = u64::from(most).min(skipped).min(silent) as u32;
    let passed = pass_frames(player, most);
    *made = number + u64::from(passed);
    passed
}

/// Passes skipped frames, at most `most`, or makes the next frame, and returns the number.
fn play_some<'a, S: Store, E: Ends>(
    player: &mut Player<'a, S>,
    made: &mut u64,
    most: u32,
    options: LiveOptions,
    ends: &mut E,
) -> Result<u32, Stop>
    requires one { 1 ≤ most }
    ensures went { let at = streams_at E.left E.written in IfOk result (λ n.
        Went options.skip player.old made.old (replicate n Frame) player.new made.new
        (at ends.old) (at ends.new)) }
    ensures some { IfOk result (λ n. (1 ≤ n) × (n ≤ most)) }
    ensures moments { E.moments ends.new ≡ E.moments ends.old }
{
    let passed = pass_skipped(player, made, most, options);
    if passed > 0 {
        return Ok(passed);
    }
    match play_frame(player, made, options, ends) {
        Ok(()) => Ok(1),
        Err(stop) => Err(stop),
    }
}

/// Makes this many frames.
fn play_frames<'a, S: Store, E: Ends>(
    player: &mut Player<'a, S>,
    made: &mut u64,
    count: u32,
    options: LiveOptions,
    ends: &mut E,
) -> Result<(), Stop>
    ensures went { let at = streams_at E.left E.written in OnOk result
        (Went options.skip player.old made.old (replicate count Frame) player.new made.new
        (at ends.old) (at ends.new)) }
    ensures moments { E.moments ends.new ≡ E.moments ends.old }
{
    let mut done = 0u32;
    while done < count {
        match play_some(player, made, count - done, options, ends) {
            Ok(played) => done += played,
            Err(stop) => return Err(stop),
        }
    }
    Ok(())
}

/// Plays a step.
fn play_step<'a, S: Store, E: Ends>(
    player: &mut Player<'a, S>,
    made: &mut u64,
    step: Step,
    options: LiveOptions,
    ends: &mut E,
) -> Result<(), Stop>
    ensures went { let at = streams_at E.left E.written in OnOk result
        (Went options.skip player.old made.old (events_of_step step) player.new made.new
        (at ends.old) (at ends.new)) }
    ensures moments { E.moments ends.new ≡ E.moments ends.old }
{
    match step {
        Step::Contact(contact, closed) => {
            player.contact(contact, closed);
            Ok(())
        }
        Step::Frames(count) => play_frames(player, made, count, options, ends),
    }
}

/// Plays steps, one after another.
fn play_steps<'a, S: Store, E: Ends>(
    player: &mut Player<'a, S>,
    made: &mut u64,
    steps: &[Step],
    options: LiveOptions,
    ends: &mut E,
) -> Result<(), Stop>
    ensures went { let at = streams_at E.left E.written in OnOk result
        (Went options.skip player.old made.old (events_of steps.now) player.new made.new
        (at ends.old) (at ends.new)) }
    ensures moments { E.moments ends.new ≡ E.moments ends.old }
{
    for step in steps {
        play_step(player, made, *step, options, ends)?;
    }
    Ok(())
}

/// Plays the steps of a line, and flushes the output.
pub(crate) fn play_line<'a, S: Store, E: Ends>(
    player: &mut Player<'a, S>,
    made: &mut u64,
    steps: &[Step],
    options: LiveOptions,
    ends: &mut E,
) -> Result<(), Stop>
    ensures went { let at = streams_at E.left E.written in OnOk result
        (Went options.skip player.old made.old (events_of steps.now) player.new made.new
        (at ends.old) (at ends.new)) }
    ensures moments { E.moments ends.new ≡ E.moments ends.old }
    ensures flushed { OnOk result (E.is_flushed ends.new ≡ true) }
{
    play_steps(player, made, steps, options, ends)?;
    flush_line(*made, options.skip, ends)
}
