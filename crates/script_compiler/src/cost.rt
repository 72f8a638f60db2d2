//! Finds the instruction at which a code is refused for its cost.

ghost use Rattle.std.specs.Prelude.{◌≡◌, ◌↔◌, ◌+◌, ◌<◌, ◌≤◌, ℕ, [], true, false, length, slice_get};
ghost use Rattle.std.specs.Prelude.{Some, None, IsTrue, IfOk, IfSome, OnOk};
ghost use Rattle.plan_verifier.specs.Rules.{continues, target_of};
ghost use Rattle.script_compiler.specs.Compiled.{instrs_of};
ghost use Rattle.script_compiler.specs.Need.{StepsTo};
ghost use Rattle.script_compiler.specs.Costs.{ClosesCycle, CanRevisit, IsCostlyAt, IsFirst};
ghost use Rattle.script_compiler.specs.Longest.{longest};
ghost use Rattle.script_compiler.specs.Reaching.{GrowsBy, IsAt, Searched, trues};

use plan_code::{Instr, Line};
use plan_verifier::properties::{continues, suspends, target_of};
use std::alloc::{AllocError, Global};

/// A search for reachable pcs: those reached, and those still to be expanded.
#[derive(Drop)]
struct Reached {
    places: Vec<bool>,
    waiting: Vec<usize>,
}

/// No pc reached, in a code of this length.
fn no_flags(alloc: Global, count: usize) -> Result<Vec<bool>, AllocError>
    ensures long { IfOk result (λ v. length v.items ≡ count) }
    ensures none { IfOk result (λ v. (k : ℕ) → IsAt v.items k → ⊥) }
    ensures count { IfOk result (λ v. trues v.items ≡ 0) }
{
    let mut places = Vec::new(alloc);
    for _place in 0..count {
        places.push(false)?;
    }
    Ok(places)
}

impl Reached {
    /// Adds a pc, unless it is past the end or already reached.
    fn add(&mut self, place: usize) -> Result<(), AllocError>
        ensures { OnOk result (GrowsBy self.old.places.items self.new.places.items
            self.old.waiting.items self.new.waiting.items (λ k. k ≡ place)) }
    {
        if place >= self.places.len() {
            return Ok(());
        }
        if self.places[place] {
            return Ok(());
        }
        self.places[place] = true;
        self.waiting.push(place)?;
        Ok(())
    }

    /// Adds the pc to which an instruction can jump.
    fn add_target(&mut self, instr: &Instr) -> Result<(), AllocError>
        ensures { OnOk result (GrowsBy self.old.places.items self.new.places.items
            self.old.waiting.items self.new.waiting.items (λ k. target_of instr.now ≡ Some k)) }
    {
        match target_of(*instr) {
            Some(target) => self.add(usize::from(target)),
            None => Ok(()),
        }
    }

    /// Adds the pc after an instruction, if it continues there.
    fn add_next(&mut self, instr: &Instr, pc: usize) -> Result<(), AllocError>
        requires { pc < 4096 }
        ensures { OnOk result (GrowsBy self.old.places.items self.new.places.items
            self.old.waiting.items self.new.waiting.items (λ k. (continues instr.now ≡ true)
            × (k ≡ pc + 1))) }
    {
        if !continues(*instr) {
            return Ok(());
        }
        self.add(pc + 1)
    }

    /// Adds the pcs to which the machine can go from an instruction in the same frame.
    fn add_following(&mut self, instr: &Instr, pc: usize) -> Result<(), AllocError>
        requires { pc < 4096 }
        ensures { OnOk result (GrowsBy self.old.places.items self.new.places.items
            self.old.waiting.items self.new.waiting.items (StepsTo instr.now pc)) }
    {
        if suspends(*instr) {
            return Ok(());
        }
        self.add_target(instr)?;
        self.add_next(instr, pc)
    }

    /// Expands one waiting pc. False if none is waiting.
    fn step(&mut self, lines: &[Line]) -> Result<bool, AllocError>
        requires { length lines.now ≤ 4096 }
        ensures onward { IfOk result (λ b. b ≡ true → (pc n : ℕ) → Searched (instrs_of lines.now)
            pc n self.old.places.items self.old.waiting.items → Searched (instrs_of lines.now) pc
            (n + 1) self.new.places.items self.new.waiting.items) }
        ensures done { IfOk result (λ b. b ≡ false → (self.old.waiting.items ≡ [])
            × (self.new.places.items ≡ self.old.places.items)) }
    {
        let Some(place) = self.waiting.pop() else {
            return Ok(false);
        };
        if place < lines.len() {
            self.add_following(&lines[place].instr, place)?;
        }
        Ok(true)
    }

    /// Whether a pc is reached.
    fn has(&self, place: usize) -> bool
        ensures { IsTrue result ↔ IsAt self.now.places.items place }
    {
        match self.places.get(place) {
            Some(is_reached) => *is_reached,
            None => false,
        }
    }
}

/// Starts the search: the pcs to which the machine can go from an instruction in the same frame.
fn reached_from(alloc: Global, lines: &[Line], pc: usize) -> Result<Reached, AllocError>
    requires few { length lines.now ≤ 4096 }
    requires within { pc < length lines.now }
    ensures { IfOk result (λ r. Searched (instrs_of lines.now) pc 0 r.places.items
        r.waiting.items) }
{
    let mut reached = Reached {
        places: no_flags(alloc, lines.len())?,
        waiting: Vec::new(alloc),
    };
    reached.add_following(&lines[pc].instr, pc)?;
    Ok(reached)
}

/// Whether the machine can come back to an instruction in the same frame.
fn can_revisit(alloc: Global, lines: &[Line], pc: usize) -> Result<bool, AllocError>
    requires few { length lines.now ≤ 4096 }
    requires within { pc < length lines.now }
    ensures back { IfOk result (λ b. IsTrue b → CanRevisit (instrs_of lines.now) pc) }
    ensures found { IfOk result (λ b. CanRevisit (instrs_of lines.now) pc → IsTrue b) }
{
    let mut reached = reached_from(alloc, lines, pc)?;
    for _step in 0..lines.len() {
        let more = reached.step(lines)?;
        if !more {
            return Ok(reached.has(pc));
        }
    }
    Ok(reached.has(pc))
}

/// Whether an instruction can jump to its own pc or an earlier one.
fn jumps_back(instr: Instr, pc: usize) -> bool
    ensures yes { IsTrue result → (target : ℕ) × (target_of instr ≡ Some target)
        × (target ≤ pc) }
    ensures no { (target : ℕ) → target_of instr ≡ Some target → target ≤ pc → IsTrue result }
{
    match target_of(instr) {
        Some(target) => usize::from(target) <= pc,
        None => false,
    }
}

/// Whether an instruction closes a loop that can iterate without a suspension.
fn closes_cycle(alloc: Global, lines: &[Line], pc: usize) -> Result<bool, AllocError>
    requires few { length lines.now ≤ 4096 }
    requires within { pc < length lines.now }
    ensures yes { IfOk result (λ b. IsTrue b → ClosesCycle (instrs_of lines.now) pc) }
    ensures no { IfOk result (λ b. ClosesCycle (instrs_of lines.now) pc → IsTrue b) }
{
    if !jumps_back(lines[pc].instr, pc) {
        return Ok(false);
    }
    can_revisit(alloc, lines, pc)
}

/// The first instruction that closes a loop that can iterate without a suspension, if there is one.
pub(crate) fn first_round(alloc: Global, lines: &[Line]) -> Result<Option<usize>, AllocError>
    requires few { length lines.now ≤ 4096 }
    ensures some { IfOk result (λ o. IfSome o (λ pc. IsFirst (ClosesCycle
        (instrs_of lines.now)) pc)) }
    ensures none { IfOk result (λ o. o ≡ None → (k : ℕ) → ClosesCycle (instrs_of lines.now) k
        → ⊥) }
{
    for pc in 0..lines.len() {
        let closes = closes_cycle(alloc, lines, pc)?;
        if closes {
            return Ok(Some(pc));
        }
    }
    Ok(None)
}

/// The instruction at which a code is refused, given the first whose need is over the budget: the
/// first that closes a loop that can iterate without a suspension, or else the one given.
pub(crate) fn costly(alloc: Global, lines: &[Line], over: usize) -> Result<usize, AllocError>
    requires few { length lines.now ≤ 4096 }
    ensures { IfOk result (λ pc. (budget : ℕ) → budget
        < longest (instrs_of lines.now) (budget + 1) over
        → ((k : ℕ) → k < over → longest (instrs_of lines.now) (budget + 1) k ≤ budget)
        → IsCostlyAt budget (instrs_of lines.now) pc) }
{
    match first_round(alloc, lines)? {
        Some(round) => Ok(round),
        None => Ok(over),
    }
}
