//! Drives a player with debugger commands.

ghost use Rattle.std.specs.Prelude.{◌≡◌, false, ◌↔◌, ◌≤◌, [], ◌∷◌, ◌++◌, length, Some, None};
ghost use Rattle.std.specs.Prelude.{IsTrue, IfOk, IfErr, slice_get};
ghost use Rattle.circular_buffer.specs.Buffer.{keep_last};
ghost use Rattle.plan_runs.specs.declared.event.Event.TheVariants.{Frame};
ghost use Rattle.plan_runs.specs.Frames.{frame_bytes};
ghost use Rattle.plan_player.specs.Playing.{played};
ghost use Rattle.plan_debug.specs.Announcements.{announced};
ghost use Rattle.plan_debug.specs.Commands.{Ends, EndsAt, IsCount, IsBroken, IsView};
ghost use Rattle.plan_debug.specs.Commands.{events_of_command, most_frames, stop_after, last_bytes};
ghost use Rattle.plan_debug.specs.Commands.{frames};

use crate::announcement::Announcement;
use crate::decoding::announcement_in;
use crate::log::Log;
use crate::report::Report;
use fib_codec::{FibFrame, Mode};
use mux_config::Store;
use plan_player::Player;
use plan_session::Command;
use std::alloc::Global;
use std::marker::Model;

/// The most frames that `Next` plays.
const MOST_TO_NEXT: u32 = 5000;

/// Drives a player with debugger commands, and records the last 64 announcements of its frames.
#[derive(Drop)]
pub struct Debugger<'a, S: Store> {
    player: Player<'a, S>,
    stop: Option<u16>,
    log: Log,
}

impl<'a, S: Store> Model for Debugger<'a, S> {
    ghost use Rattle.std.specs.Prelude.{◌≤◌, length};
    ghost use Rattle.plan_debug.specs.Commands.{Debugging};

    ghost Value = { Debugging };

    ghost view = { λ d. record { player = d.player; stop = d.stop; announcements = d.log } };

    ghost invariant = { λ d. length d.log ≤ 64 };
}

/// The frames that a command played: their number, the last of them, and whether it ended the
/// command.
#[derive(Clone, Copy)]
struct Stretch {
    frames: u32,
    last: Option<FibFrame>,
    ended: bool,
}

/// The most frames that a command plays.
fn most_of(command: Command) -> u32
    ensures { result ≡ most_frames command }
{
    match command {
        Command::Run(most) => most,
        Command::Next => MOST_TO_NEXT,
        Command::Contact(..) => 0,
        Command::Break(_) => 0,
        Command::Clear => 0,
        Command::Show => 0,
    }
}

/// Whether a frame ends the command: pc before it, and pc and line after it.
fn is_end(stop: Option<u16>, command: Command, before: u16, pc: u16, line: u16) -> bool
    ensures { IsTrue result ↔ Ends stop command before pc (Some line) }
{
    match command {
        Command::Run(_) => before != pc && stop == Some(line),
        Command::Next => before != pc,
        Command::Contact(..) => false,
        Command::Break(_) => false,
        Command::Clear => false,
        Command::Show => false,
    }
}

/// Plays one frame, and logs its announcement.
fn play_frame<'a, S: Store>(player: &mut Player<'a, S>, log: &mut Log) -> FibFrame
    requires few { length log.old ≤ 64 }
    ensures state { player.new ≡ played player.old (Frame ∷ []) }
    ensures bytes { result ≡ frame_bytes player.old.code player.old.state }
    ensures few { length log.new ≤ 64 }
    ensures log { log.new ≡
        keep_last 64 (log.old ++ announced player.old.code player.old.state (Frame ∷ [])) }
{
    let frame = player.frame();
    log.note(announcement_in(&frame));
    frame
}

/// Plays the frames of a command.
fn play_frames<'a, S: Store>(
    player: &mut Player<'a, S>,
    log: &mut Log,
    stop: Option<u16>,
    command: Command,
) -> Stretch
    requires few { length log.old ≤ 64 }
    ensures count { IsCount player.old.code stop command player.old.state result.frames }
    ensures ended { IsTrue result.ended ↔
        EndsAt player.old.code stop command player.old.state result.frames }
    ensures last { result.last ≡ last_bytes player.old.code player.old.state result.frames }
    ensures state { player.new ≡ played player.old (frames result.frames) }
    ensures few { length log.new ≤ 64 }
    ensures log { log.new ≡ keep_last 64
        (log.old ++ announced player.old.code player.old.state (frames result.frames)) }
{
    let most = most_of(command);
    let mut frames = 0;
    let mut last = FibFrame::new(Mode::I);
    let mut ended = false;
    while frames < most && !ended {
        let before = player.pc();
        last = play_frame(player, log);
        frames += 1;
        ended = is_end(stop, command, before, player.pc(), player.line());
    }
    Stretch {
        frames,
        last: if frames > 0 { Some(last) } else { None },
        ended,
    }
}

/// The report of a player when no frame was played.
fn report_here<'a, S: Store>(player: &Player<'a, S>) -> Report
    ensures none { (result.frames ≡ 0) × (result.broke ≡ false) × (result.fibs ≡ None) }
    ensures views { IsView player.now result }
{
    Report {
        frames: 0,
        steps: player.steps(),
        pc: player.pc(),
        line: player.line(),
        count: player.count(),
        remaining: player.remaining(),
        broke: false,
        fibs: None,
    }
}

impl<'a, S: Store> Debugger<'a, S> {
    /// A debugger of this player, without a break line and without announcements. `Err` returns the
    /// player if out of memory.
    pub fn new(alloc: Global, player: Player<'a, S>) -> Result<Debugger<'a, S>, Player<'a, S>>
        ensures begins { IfOk result (λ d.
            d ≡ record { player = player.entry; stop = None; announcements = [] }) }
        ensures handed_back { IfErr result (λ p. p ≡ player.entry) }
    {
        match Log::new(alloc) {
            Ok(log) => Ok(Debugger {
                player,
                stop: None,
                log,
            }),
            Err(_refused) => Err(player),
        }
    }

    /// Plays the frames of a command.
    fn play(&mut self, command: Command) -> Report
        ensures count { let p = self.old.player in
            IsCount p.code self.old.stop command p.state result.frames }
        ensures broke { let p = self.old.player in
            IsTrue result.broke ↔ IsBroken p.code self.old.stop command p.state result.frames }
        ensures bytes { let p = self.old.player in
            result.fibs ≡ last_bytes p.code p.state result.frames }
        ensures player { self.new.player ≡ played self.old.player (frames result.frames) }
        ensures views { IsView self.new.player result }
        ensures stop { self.new.stop ≡ self.old.stop }
        ensures announcements { let p = self.old.player in
            self.new.announcements ≡ keep_last 64 (self.old.announcements
            ++ announced p.code p.state (frames result.frames)) }
    {
        let stop = self.stop;
        let stretch = play_frames(&mut self.player, &mut self.log, stop, command);
        Report {
            frames: stretch.frames,
            broke: matches!(command, Command::Run(_)) && stretch.ended,
            fibs: stretch.last,
            ..report_here(&self.player)
        }
    }

    /// Executes a command, and reports the player's state after it. It does not allocate.
    ///
    /// `Contact` sets a contact; `Run` and `Next` play frames up to one that ends them, as
    /// [`Command`] defines; `Break` sets the break line and `Clear` removes it; `Show` changes
    /// nothing. Only frames change the announcements.
    pub fn command(&mut self, command: Command) -> Report
        ensures count { let p = self.old.player in
            IsCount p.code self.old.stop command p.state result.frames }
        ensures broke { let p = self.old.player in
            IsTrue result.broke ↔ IsBroken p.code self.old.stop command p.state result.frames }
        ensures bytes { let p = self.old.player in
            result.fibs ≡ last_bytes p.code p.state result.frames }
        ensures player { self.new.player
            ≡ played self.old.player (events_of_command command result.frames) }
        ensures views { IsView self.new.player result }
        ensures stop { self.new.stop ≡ stop_after command self.old.stop }
        ensures announcements { let p = self.old.player in
            self.new.announcements ≡ keep_last 64 (self.old.announcements
            ++ announced p.code p.state (events_of_command command result.frames)) }
    {
        match command {
            Command::Contact(contact, closed) => {
                self.player.contact(contact, closed);
                report_here(&self.player)
            }
            Command::Break(line) => {
                self.stop = Some(line);
                report_here(&self.player)
            }
            Command::Clear => {
                self.stop = None;
                report_here(&self.player)
            }
            Command::Show => report_here(&self.player),
            Command::Run(most) => self.play(Command::Run(most)),
            Command::Next => self.play(Command::Next),
        }
    }

    /// The announcement at this index, from 0: the oldest of the last 64 is the first.
    pub fn announcement(&self, index: usize) -> Option<Announcement>
        ensures value { result ≡ slice_get self.now.announcements index }
        ensures few { length self.now.announcements ≤ 64 }
    {
        self.log.get(index)
    }
}
