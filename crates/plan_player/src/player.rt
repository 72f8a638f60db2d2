//! The player of typed codes.

ghost use Rattle.std.specs.Prelude.{◌≡◌, ◌<◌, ◌≤◌, List, [], ◌∷◌, length, take, replicate, true};
ghost use Rattle.std.specs.Prelude.{false, Some, None, IfOk, IfErr, OnOk, OnErr};
ghost use Rattle.std.specs.Result.{result_err};
ghost use Rattle.std.specs.Io.KnownBytes.{Appends};
ghost use Rattle.mux_config.specs.Sound.{IsSound};
ghost use Rattle.plan_code.specs.Program.{IsPlan, line_at};
ghost use Rattle.plan_runs.specs.declared.event.Event.{Event};
ghost use Rattle.plan_runs.specs.declared.event.Event.TheVariants.{Contact, Frame};
ghost use Rattle.plan_runs.specs.Frames.{frame_bytes, frame_steps, after_frame};
ghost use Rattle.plan_runs.specs.Runs.{StartIsInRange, happens};
ghost use Rattle.plan_runs.specs.TypedRuns.{IsPlayed};
ghost use Rattle.plan_runs.specs.Announced.{FrameRuns, heard_of};
ghost use Rattle.plan_runs.specs.RightBytes.{FrameIsRight, IsHeardEachPeriod};
ghost use Rattle.plan_runs.specs.Headline.{MeetsGuarantees, KeepsCount};
ghost use Rattle.plan_player.specs.Positions.{state_of};
ghost use Rattle.plan_player.specs.Playing.{start_fault, IsAtStart, played};
ghost use Rattle.plan_player.specs.Delivery.{next_frame, Delivered, Stopped};
ghost use Rattle.plan_player.specs.Quiet.{IsQuiet, AreQuiet};

use crate::batch::{Batch, MOST_FRAMES};
use crate::fault::{Accepted, StartFault};
use crate::frame_step::{make_frame, send};
use crate::machine::{Machine, pass_many, quiet_frames};
use crate::phase_pages::PhasePages;
use crate::sink::{Sink, put_all};
use crate::stretch::put_stretch;
use fib_codec::FibFrame;
use mux_config::Store;
use plan_code::limits::{COUNTS, FRAMES_A_DAY};
use plan_code::{Code, ContactId, Hold, Plan};
use plan_runs::{Start, laws};
use plan_verifier::Verified;
use std::marker::Model;

/// The number of instructions that a quiet frame executes.
const QUIET_STEPS: u8 = 0;

/// Plays a typed code, frame by frame, with the current and the next configuration in two stores of
/// this type. It does not allocate, and does not test for traps: a typed code has none.
#[derive(Drop)]
pub struct Player<'a, S: Store> {
    code: &'a Verified,
    machine: Machine<S>,
    pages: PhasePages,
    batch: Batch,
    steps: u8,
}

impl<'a, S: Store> Model for Player<'a, S> {
    ghost use Rattle.plan_player.specs.Positions.{state_of};
    ghost use Rattle.plan_player.specs.Playing.{Playing};
    ghost use Rattle.plan_player.specs.Phase.{IsGoing};

    ghost Value = { Playing };

    ghost view = { λ p. record {
      code = p.code.now;
      state = state_of S.content p.machine;
      steps = p.steps;
    } };

    ghost invariant = { λ p. IsGoing p.code.now (state_of S.content p.machine) p.steps p.pages };
}

/// The first fault of a start.
fn fault_of(start: Start) -> Option<StartFault>
    ensures first { result ≡ start_fault start }
    ensures none { result ≡ None → StartIsInRange start }
{
    // Read for the proof: a value's invariant is known where the value is read.
    let _eid = start.eid;
    let _contacts = start.contacts.0;
    if start.count >= COUNTS {
        return Some(StartFault::Count);
    }
    if start.day >= FRAMES_A_DAY {
        return Some(StartFault::Day);
    }
    None
}

/// The guarantees of the headline, from the next frame on.
pub(crate) fn promise<'a, S: Store>(player: &Player<'a, S>)
    ensures { (events : List Event) → MeetsGuarantees player.now.code player.now.state events }
{
    // Read for the proof: a value's invariant is known where the value is read.
    let _current = player.current();
    laws::headline();
}

impl<'a, S: Store> Player<'a, S> {
    /// A player of this code with this start. No frame has been made yet.
    ///
    /// `Count`: the CIF count is 5000 or more; `Day`: the frame of the day is 3,600,000 or more.
    /// `Count` takes precedence.
    pub fn new(code: &'a Verified, start: Start) -> Result<Player<'a, S>, StartFault>
        ensures begins { IfOk result (λ p. IsAtStart code.now start p) }
        ensures fault { result_err result ≡ start_fault start }
    {
        if let Some(fault) = fault_of(start) {
            return Err(fault);
        }
        // Read for the proof: a value's invariant is known where the value is read.
        let _typed = code.code();
        Ok(Player {
            code,
            machine: Machine::start(code, start),
            pages: PhasePages::new(),
            batch: Batch::new(),
            steps: 0,
        })
    }

    /// Closes or opens a contact between two frames, and leaves the others unchanged.
    pub fn contact(&mut self, contact: ContactId, closed: bool)
        ensures state { self.new ≡ record self.old {
          state =
              happens self.old.code self.old.state (Contact contact closed);
        } }
        ensures played { IsPlayed self.new.code self.new.state }
    {
        // Read for the proof: a value's invariant is known where the value is read.
        let _number = contact.get();
        self.machine.set_contact(contact, closed);
    }

    /// Makes the next frame: a due swap, the instructions, the FIBs, and then the counts. It cannot
    /// fail.
    ///
    /// Its bytes and the state after it are those of the definitions. It has no trap, executes no
    /// more instructions than the budget, and its FIBs are correct; a swap in it was announced by
    /// the frames before it. For any later events, each period from it on has the whole current
    /// configuration, and each swap falls on the announced count.
    pub fn frame(&mut self) -> FibFrame
        ensures bytes { result ≡ frame_bytes self.old.code self.old.state }
        ensures state { self.new ≡ record self.old {
          state = after_frame self.old.code self.old.state;
          steps = frame_steps self.old.code self.old.state;
        } }
        ensures within { self.new.steps ≤ self.old.code.plan.budget }
        ensures announced { let plan = self.old.code.plan in
            FrameRuns self.old.code self.old.state (heard_of plan self.old.state) }
        ensures right { FrameIsRight self.old.code self.old.state }
        ensures whole { IsHeardEachPeriod self.old.code self.old.state }
        ensures counted { (events : List Event)
            → KeepsCount self.old.code self.old.state events }
        ensures played { IsPlayed self.new.code self.new.state }
    {
        promise(self);
        let code = self.code.code();
        self.steps = make_frame(code, &mut self.machine, &mut self.pages);
        *self.pages.frame()
    }

    /// Makes the next frame and writes it to the sink. `Err`: the sink accepted this many of its
    /// bytes, fewer than all.
    pub(crate) fn put_frame<K: Sink>(&mut self, sink: &mut K) -> Result<(), usize>
        requires working { K.has_failed sink.old ≡ false }
        ensures state { self.new ≡ played self.old (Frame ∷ []) }
        ensures bytes { OnOk result
            (Appends (K.taken sink.old) (K.taken sink.new) (next_frame self.old)) }
        ensures works { OnOk result (K.has_failed sink.new ≡ false) }
        ensures bound { IfErr result (λ n. n < length (next_frame self.old)) }
        ensures part { IfErr result (λ n.
            Appends (K.taken sink.old) (K.taken sink.new) (take n (next_frame self.old))) }
        ensures fails { OnErr result (K.has_failed sink.new ≡ true) }
    {
        let code = self.code.code();
        self.steps = make_frame(code, &mut self.machine, &mut self.pages);
        put_all(sink, self.pages.frame().bytes())
    }

    /// A number of frames, at most `most`, that are quiet from the next one on.
    pub(crate) fn quiet_frames(&self, most: u32) -> u32
        ensures quiet { AreQuiet self.now.code result self.now.state }
        ensures bound { result ≤ most }
    {
        quiet_frames(self.code.code(), &self.machine, most)
    }

    /// Makes the next frame, which is quiet, and writes it to the sink: the same as
    /// [`Player::put_frame`], without testing for a swap, instructions and the start of a phase.
    pub(crate) fn put_quiet_frame<K: Sink>(
        &mut self,
        plan: &Plan,
        sink: &mut K,
    ) -> Result<(), usize>
        requires working { K.has_failed sink.old ≡ false }
        requires plan { plan.now ≡ self.old.code.plan }
        requires quiet { IsQuiet self.old.code self.old.state }
        ensures state { self.new ≡ played self.old (Frame ∷ []) }
        ensures bytes { OnOk result
            (Appends (K.taken sink.old) (K.taken sink.new) (next_frame self.old)) }
        ensures works { OnOk result (K.has_failed sink.new ≡ false) }
        ensures bound { IfErr result (λ n. n < length (next_frame self.old)) }
        ensures part { IfErr result (λ n.
            Appends (K.taken sink.old) (K.taken sink.new) (take n (next_frame self.old))) }
        ensures fails { OnErr result (K.has_failed sink.new ≡ true) }
    {
        send(plan, &mut self.machine, &mut self.pages);
        self.steps = 0;
        put_all(sink, self.pages.frame().bytes())
    }

    /// Makes at most `most` of the next frames, all of them quiet, writes them to the sink, and
    /// returns their number, at least one. If all pages of the phase have been made, they are
    /// written together.
    pub(crate) fn put_quiet<K: Sink>(
        &mut self,
        plan: &Plan,
        most: u32,
        sink: &mut K,
    ) -> Result<u32, Accepted>
        requires working { K.has_failed sink.old ≡ false }
        requires plan { plan.now ≡ self.old.code.plan }
        requires one { 1 ≤ most }
        requires quiet { AreQuiet self.old.code most self.old.state }
        ensures done { IfOk result (λ n. Delivered self.old self.new (replicate n Frame)
            (K.taken sink.old) (K.taken sink.new) n) }
        ensures some { IfOk result (λ n. (1 ≤ n) × (n ≤ most)) }
        ensures code { self.new.code ≡ self.old.code }
        ensures works { OnOk result (K.has_failed sink.new ≡ false) }
        ensures stopped { IfErr result (λ cut. Stopped self.old self.new (replicate most Frame)
            (K.taken sink.old) (K.taken sink.new) cut.frames cut.bytes) }
        ensures fails { OnErr result (K.has_failed sink.new ≡ true) }
    {
        if !self.pages.is_whole {
            return match self.put_quiet_frame(plan, sink) {
                Ok(()) => Ok(1),
                Err(bytes) => Err(Accepted { frames: 0, bytes }),
            };
        }
        let count = most.min(u32::from(MOST_FRAMES)) as u16;
        self.steps = QUIET_STEPS;
        put_stretch(
            plan,
            &mut self.machine,
            &self.pages,
            &mut self.batch,
            count,
            sink,
        )
    }

    /// Makes the next frame, which is quiet, without its bytes.
    fn pass_quiet_frame(&mut self, plan: &Plan)
        requires plan { plan.now ≡ self.old.code.plan }
        requires quiet { IsQuiet self.old.code self.old.state }
        ensures { self.new ≡ played self.old (Frame ∷ []) }
    {
        send(plan, &mut self.machine, &mut self.pages);
        self.steps = QUIET_STEPS;
    }

    /// Makes at most `most` of the next frames, all of them quiet, without their bytes, and returns
    /// their number, at least one. If all pages of the phase have been made, only the counts are
    /// advanced.
    pub(crate) fn pass_quiet(&mut self, plan: &Plan, most: u32) -> u32
        requires one { 1 ≤ most }
        requires plan { plan.now ≡ self.old.code.plan }
        requires quiet { AreQuiet self.old.code most self.old.state }
        ensures state { self.new ≡ played self.old (replicate result Frame) }
        ensures some { (1 ≤ result) × (result ≤ most) }
    {
        if !self.pages.is_whole {
            self.pass_quiet_frame(plan);
            return 1;
        }
        let count = most.min(u32::from(u16::MAX)) as u16;
        self.steps = QUIET_STEPS;
        pass_many(self.pages.made, count, &mut self.machine);
        u32::from(count)
    }

    /// The current configuration, which is always sound.
    pub fn current(&self) -> &S
        ensures value { S.content result.now ≡ self.now.state.current }
        ensures sound { IsSound self.now.state.current }
        ensures played { IsPlayed self.now.code self.now.state }
    {
        &self.machine.current
    }

    /// The next configuration: the one that a pending swap makes current, or that edits prepare.
    pub fn next(&self) -> &S
        ensures value { S.content result.now ≡ self.now.state.next }
    {
        &self.machine.next
    }

    /// The number of frames left until the swap; None where none is pending. It is 0 if the next
    /// frame makes the swap.
    pub fn remaining(&self) -> Option<u16>
        ensures value { result ≡ self.now.state.left }
    {
        self.machine.left
    }

    /// The CIF count of the next frame, 0 to 4999.
    pub fn count(&self) -> u16
        ensures value { result ≡ self.now.state.count }
    {
        self.machine.count
    }

    /// The frame of the day of the next frame, 0 to 3,599,999.
    pub fn day(&self) -> u32
        ensures value { result ≡ self.now.state.day }
    {
        self.machine.day
    }

    /// The index of the next instruction, from 0.
    pub fn pc(&self) -> u16
        ensures value { result ≡ self.now.state.pc }
    {
        self.machine.pc
    }

    /// What the machine waits for before it executes that instruction.
    pub fn hold(&self) -> Hold
        ensures value { result ≡ self.now.state.hold }
    {
        self.machine.hold
    }

    /// The plan that is played.
    pub fn plan(&self) -> Plan
        ensures value { result ≡ self.now.code.plan }
        ensures formed { IsPlan result }
    {
        self.code.code().plan()
    }

    /// The source line number of the next instruction.
    pub fn line(&self) -> u16
        ensures value { line_at self.now.code self.now.state.pc ≡ Some result }
    {
        self.code.code().line_at(self.machine.pc).unwrap()
    }

    /// The source line number of the last `commit` that was executed; 0 before the first one.
    pub fn commit_line(&self) -> u16 {
        match self.machine.committed {
            Some(pc) => self.code.code().line_at(pc).unwrap_or(0),
            None => 0,
        }
    }

    /// The number of instructions that the last frame executed, at most the budget; 0 before the
    /// first frame.
    pub fn steps(&self) -> u8
        ensures value { result ≡ self.now.steps }
        ensures within { self.now.steps ≤ self.now.code.plan.budget }
    {
        self.steps
    }
}
