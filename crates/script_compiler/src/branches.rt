//! The beginnings and ends of branches and loops: what is saved, and what must agree where paths
//! merge.

ghost use Rattle.std.specs.Prelude.{◌≡◌, ℕ, ◌+◌, ◌<◌, true, if◌then◌else◌, [], ◌∷◌, ◌++◌, length};
ghost use Rattle.std.specs.Prelude.{List, Option, Some, is_some, OnOk, IfOk, IfErr};
ghost use Rattle.plan_code.specs.declared.instr.Instr.{Instr};
ghost use Rattle.script_compiler.specs.declared.flow.ProgramPoint.{ProgramPoint};
ghost use Rattle.script_compiler.specs.Scheme.{PlacedInstr, alone, onward, meet, join};
ghost use Rattle.script_compiler.specs.Scheme.{unpriced_labels};
ghost use Rattle.script_compiler.specs.Alternatives.{test_of};
ghost use Rattle.script_compiler.specs.Judged.{WaysAgree, BranchesAgree, FitsEntry};
ghost use Rattle.script_compiler.specs.Compiled.{lines_of_placed};
ghost use Rattle.script_compiler.specs.Pool.{Extends, IsInPool, point_in};
ghost use Rattle.script_compiler.specs.Refusals.{IsLimitAt, IfMismatchAt, IfLimitAt};
ghost use Rattle.script_compiler.specs.Space.{HasSpace, LacksSpace, IsInLimits, HasTable};
ghost use Rattle.script_compiler.specs.Space.{IsCovered, Covers};
ghost use Rattle.script_compiler.specs.Emission.{Forks, ClosesIf, StartsElse, ClosesLoop};
ghost use Rattle.script_compiler.specs.Emission.{IsAfterBranches, jumping, way, points_of};

use crate::fault::CompileFault;
use crate::instructions::test_of;
use crate::refusal::refused;
use crate::short::IndexedPoint;
use crate::work::Work;
use plan_code::Instr;
use plan_verifier::Cause;
use script_front::Condition;

impl Work {
    /// Emits a forward jump whose target is patched later, and saves what is known before it.
    #[inline(never)]
    fn fork(&mut self, line: u16, counters: u8, instr: Instr) -> Result<(), CompileFault>
        requires limits { IsInLimits self.old }
        ensures forks { OnOk result (Forks line instr counters self.old self.new) }
        ensures pool { Extends self.old.pool self.new.pool }
        ensures limits { OnOk result (IsInLimits self.new) }
        ensures limited { IfErr result (λ e. IsLimitAt line
            (λ limit. LacksSpace limit self.old) e) }
    {
        if let Err(fault) = self.save() {
            return Err(fault);
        }
        self.put(line, counters, instr)
    }

    /// Emits the test of a condition, which jumps where it does not hold, and saves what is known
    /// before it.
    #[inline(never)]
    pub(crate) fn fork_if(
        &mut self,
        line: u16,
        counters: u8,
        condition: Condition,
    ) -> Result<(), CompileFault>
        requires limits { IsInLimits self.old }
        ensures forks { OnOk result (Forks line (test_of condition 0) counters self.old self.new) }
        ensures pool { Extends self.old.pool self.new.pool }
        ensures limits { OnOk result (IsInLimits self.new) }
        ensures limited { IfErr result (λ e. IsLimitAt line
            (λ limit. LacksSpace limit self.old) e) }
    {
        self.fork(line, counters, test_of(condition, 0))
    }

    /// Starts a loop: saves what is known at its head, which gets a label if control reaches the
    /// end of the body.
    #[inline(never)]
    pub(crate) fn enter(&mut self, falls: bool, line: u16) -> Result<(), CompileFault>
        requires table { HasTable self.old }
        ensures lines { self.new.lines ≡ self.old.lines }
        ensures unpriced { self.new.unpriced ≡ self.old.unpriced }
        ensures now { OnOk result (self.new.now ≡ record {
          flow = self.old.now.flow;
          labelled = if
              falls then true else self.old.now.labelled;
        }) }
        ensures saved { OnOk result (self.new.saved.items ≡ self.old.saved.items
            ++ self.new.now ∷ []) }
        ensures table { OnOk result (HasTable self.new) }
        ensures limited { IfErr result (λ e. IsLimitAt line (λ limit. (ps : List PlacedInstr)
            → (falls ≡ true → IsCovered self.old.now.flow ps) → HasSpace limit self.old ps → ⊥) e) }
    {
        if falls {
            if let Err(fault) = self.unpriced_label(line) {
                return Err(fault);
            }
        }
        self.save()
    }

    /// Ends a loop: if control reaches the end of the body, what is known must fit what was saved,
    /// and the jump back is emitted.
    #[inline(never)]
    pub(crate) fn close_loop(
        &mut self,
        falls: bool,
        line: u16,
        counters: u8,
        back: Instr,
    ) -> Result<(), CompileFault>
        requires saved { 0 < length self.old.saved.items }
        requires limits { IsInLimits self.old }
        ensures round { OnOk result ((front : List ProgramPoint) (entry : ProgramPoint) →
            self.old.saved.items ≡ front ++ entry ∷ [] → ClosesLoop falls line counters back front
            entry self.old self.new) }
        ensures refused { IfErr result (λ e. IfMismatchAt line ((front : List ProgramPoint)
            (entry : ProgramPoint) → self.old.saved.items ≡ front ++ entry ∷ []
            → FitsEntry (way falls self.old) entry → ⊥) e) }
        ensures limits { OnOk result (IsInLimits self.new) }
        ensures limited { IfErr result (λ e. IfLimitAt line (λ limit. (m n : ℕ) (i : Instr)
            (ps : List PlacedInstr) → HasSpace limit self.old (onward (way falls self.old) []
            (alone m i n) ++ ps) → ⊥) e) }
    {
        let entry = self.restore();
        if !falls {
            return Ok(());
        }
        if !self.fits(&entry) {
            return Err(refused(line, Cause::Mismatch));
        }
        self.put(line, counters, back)
    }

    /// Merges the current path, which may be unreachable, with that of a saved program point.
    fn join(&mut self, falls: bool, line: u16, other: &IndexedPoint) -> Result<(), CompileFault>
        requires table { HasTable self.old }
        requires within { IsInPool (length self.old.pool) other.now }
        ensures lines { self.new.lines ≡ self.old.lines }
        ensures unpriced { self.new.unpriced ≡ self.old.unpriced }
        ensures saved { self.new.saved ≡ self.old.saved }
        ensures met { OnOk result (meet (way falls self.old)
            (Some (point_in self.old.pool other.now)) ≡ Some self.new.now) }
        ensures agree { OnOk result (WaysAgree (way falls self.old)
            (Some (point_in self.old.pool other.now))) }
        ensures refused { IfErr result (λ e. IfMismatchAt line (WaysAgree (way falls self.old)
            (Some (point_in self.old.pool other.now)) → ⊥) e) }
        ensures table { OnOk result (HasTable self.new) }
        ensures limited { IfErr result (λ e. IfLimitAt line (λ limit. (ps : List PlacedInstr)
            → ((u : ProgramPoint) → meet (way falls self.old)
            (Some (point_in self.old.pool other.now)) ≡ Some u → IsCovered u.flow ps)
            → HasSpace limit self.old ps → ⊥) e) }
    {
        if !falls {
            self.take(other);
            return self.unpriced_label(line);
        }
        if !self.meet(other) {
            return Err(refused(line, Cause::Mismatch));
        }
        self.unpriced_label(line)
    }

    /// Ends an `if` without `else`: the path through its block, if it continues, merges with the
    /// one past it.
    #[inline(never)]
    pub(crate) fn close_if(
        &mut self,
        falls: bool,
        line: u16,
        condition: Condition,
        at: usize,
    ) -> Result<bool, CompileFault>
        requires saved { 0 < length self.old.saved.items }
        requires there { at < length self.old.lines.items }
        requires limits { IsInLimits self.old }
        ensures is_reached { IfOk result (λ f. f ≡ true) }
        ensures closes { OnOk result ((front : List ProgramPoint) (entry : ProgramPoint)
            → self.old.saved.items ≡ front
            ++ entry ∷ [] → ClosesIf falls line condition at front entry self.old self.new) }
        ensures refused { IfErr result (λ e. IfMismatchAt line ((front : List ProgramPoint)
            (entry : ProgramPoint) → self.old.saved.items ≡ front ++ entry ∷ []
            → WaysAgree (way falls self.old) (Some entry) → ⊥) e) }
        ensures limits { OnOk result (IsInLimits self.new) }
        ensures limited { IfErr result (λ e. IfLimitAt line (λ limit. (front : List ProgramPoint)
            (entry : ProgramPoint) → self.old.saved.items ≡ front ++ entry ∷ []
            → (ps : List PlacedInstr) → ((u : ProgramPoint) → meet (way falls self.old)
            (Some entry) ≡ Some u → IsCovered u.flow ps) → HasSpace limit self.old ps → ⊥) e) }
    {
        let entry = self.restore();
        let target = self.len() as u16;
        self.patch(at, line, test_of(condition, target));
        if let Err(fault) = self.join(falls, line, &entry) {
            return Err(fault);
        }
        Ok(true)
    }

    /// Leaves a first branch, if control reaches its end: saves what is known and emits a jump over
    /// the second.
    fn jump_past(&mut self, falls: bool, line: u16, counters: u8) -> Result<(), CompileFault>
        requires limits { IsInLimits self.old }
        ensures lines { OnOk result (self.new.lines.items ≡ self.old.lines.items
            ++ lines_of_placed (jumping falls line counters self.old)) }
        ensures unpriced { OnOk result (self.new.unpriced.items ≡ self.old.unpriced.items
            ++ unpriced_labels (length self.old.lines.items)
            (jumping falls line counters self.old)) }
        ensures pool { Extends self.old.pool self.new.pool }
        ensures saved { OnOk result (self.new.saved.items ≡ self.old.saved.items
            ++ points_of (way falls self.old)) }
        ensures limits { OnOk result (IsInLimits self.new) }
        ensures limited { IfErr result (λ e. IsLimitAt line (λ limit. (m n : ℕ) (i : Instr)
            (ps : List PlacedInstr) → HasSpace limit self.old
            (onward (way falls self.old) [] (alone m i n) ++ ps) → ⊥) e) }
    {
        if !falls {
            return Ok(());
        }
        self.fork(line, counters, Instr::Jump(0))
    }

    /// Ends a first branch: if control reaches its end, saves what is known and emits a jump over
    /// the second branch. The second begins with what is known before both.
    #[inline(never)]
    pub(crate) fn start_else(
        &mut self,
        falls: bool,
        line: u16,
        counters: u8,
        condition: Condition,
        at: usize,
    ) -> Result<(), CompileFault>
        requires saved { 0 < length self.old.saved.items }
        requires there { at < length self.old.lines.items }
        requires limits { IsInLimits self.old }
        ensures starts_else { OnOk result ((front : List ProgramPoint) (entry : ProgramPoint) →
            self.old.saved.items ≡ front ++ entry ∷ []
            → StartsElse falls line counters condition at front
            entry self.old self.new) }
        ensures limits { OnOk result (IsInLimits self.new) }
        ensures limited { IfErr result (λ e. IsLimitAt line (λ limit. (front : List ProgramPoint)
            (entry : ProgramPoint) → self.old.saved.items ≡ front ++ entry ∷ []
            → (m n : ℕ) (i : Instr) (ps : List PlacedInstr) → HasSpace limit self.old
            (onward (way falls self.old) [] (alone m i n) ++ ps) → IsCovered entry.flow ps → ⊥) e) }
    {
        let entry = self.restore();
        if let Err(fault) = self.jump_past(falls, line, counters) {
            return Err(fault);
        }
        let target = self.len() as u16;
        self.patch(at, line, test_of(condition, target));
        self.take(&entry);
        self.unpriced_label(line)
    }

    /// Ends a second branch and merges it with the first, if that one continues; returns whether
    /// either does.
    #[inline(never)]
    pub(crate) fn close_else(
        &mut self,
        first: bool,
        second: bool,
        line: u16,
        jump: usize,
    ) -> Result<bool, CompileFault>
        requires saved { first ≡ true → 0 < length self.old.saved.items }
        requires there { first ≡ true → jump < length self.old.lines.items }
        requires limits { IsInLimits self.old }
        ensures arrives { IfOk result (λ f. (front : List ProgramPoint) (a : Option ProgramPoint) →
            first ≡ is_some a → self.old.saved.items ≡ front ++ points_of a → IsAfterBranches a (way
            second self.old) front line jump self.old self.new f) }
        ensures refused { IfErr result (λ e. IfMismatchAt line ((front : List ProgramPoint)
            (a : Option ProgramPoint) → first ≡ is_some a
            → self.old.saved.items ≡ front ++ points_of a
            → BranchesAgree a (way second self.old) → ⊥) e) }
        ensures limits { OnOk result (IsInLimits self.new) }
        ensures limited { IfErr result (λ e. IfLimitAt line (λ limit. (front : List ProgramPoint)
            (a : Option ProgramPoint) → first ≡ is_some a
            → self.old.saved.items ≡ front ++ points_of a → (ps : List PlacedInstr)
            → ((u : ProgramPoint) → join a (way second self.old) ≡ Some u → Covers u ps)
            → HasSpace limit self.old ps → ⊥) e) }
    {
        if !first {
            return Ok(second);
        }
        let exit = self.restore();
        let end = self.len() as u16;
        self.patch(jump, line, Instr::Jump(end));
        if let Err(fault) = self.join(second, line, &exit) {
            return Err(fault);
        }
        Ok(true)
    }
}
