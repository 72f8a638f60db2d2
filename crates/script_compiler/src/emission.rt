//! Emits instructions and their labels.

ghost use Rattle.std.specs.Prelude.{◌≡◌, ℕ, ◌+◌, ◌<◌, ◌≤◌, true, false, [], ◌∷◌, ◌++◌, length};
ghost use Rattle.std.specs.Prelude.{slice_set, List, OnOk, IfOk, IfErr};
ghost use Rattle.plan_code.specs.declared.instr.Instr.{Instr};
ghost use Rattle.plan_code.specs.declared.instr.Instr.TheVariants.{End};
ghost use Rattle.plan_verifier.specs.Flows.{known_at, after_instr};
ghost use Rattle.plan_verifier.specs.Rules.{IsFine};
ghost use Rattle.script_compiler.specs.Alternatives.{instr_of_act};
ghost use Rattle.script_compiler.specs.Scheme.{PlacedInstr, without_label, at_label, alone, onward};
ghost use Rattle.script_compiler.specs.Scheme.{unpriced_labels};
ghost use Rattle.plan_verifier.specs.Causes.{FlowRefused};
ghost use Rattle.script_compiler.specs.Pool.{Extends, IsInPool, point_in};
ghost use Rattle.script_compiler.specs.Refusals.{IsLimitAt, IfRefused, IfLimitAt};
ghost use Rattle.script_compiler.specs.Space.{HasSpace, LacksSpace, IsInLimits, HasTable};
ghost use Rattle.script_compiler.specs.Space.{IsCovered, Covers};
ghost use Rattle.script_compiler.specs.declared.fault.CodeLimit.TheVariants.{Instructions};
ghost use Rattle.script_compiler.specs.Emission.{Emits, line_of_instr, way};

use crate::fault::{CodeLimit, CompileFault};
use crate::judge::instr_of;
use crate::short::{IndexedLabel, IndexedPoint};
use crate::work::Work;
use plan_code::limits::{MOST_INSTRUCTIONS, MOST_LABELS};
use plan_code::{Instr, Line, Plan};
use script_front::Act;

impl Work {
    /// Emits an unpriced label that names the configurations with these numbers.
    fn push_label(
        &mut self,
        line: u16,
        counters: u8,
        point_here: &IndexedPoint,
    ) -> Result<(), CompileFault>
        requires few { length self.old.unpriced.items < 1024 }
        requires within { IsInPool (length self.old.pool) point_here.now }
        requires same { point_in self.old.pool point_here.now ≡ self.old.now }
        requires labelled { self.old.now.labelled ≡ true }
        requires limits { IsInLimits self.old }
        ensures lines { self.new.lines ≡ self.old.lines }
        ensures saved { self.new.saved ≡ self.old.saved }
        ensures pool { self.new.pool ≡ self.old.pool }
        ensures unpriced { OnOk result ((line : ℕ) (i : Instr) → self.new.unpriced.items
            ≡ self.old.unpriced.items
            ++ unpriced_labels (length self.old.lines.items) (alone line i counters self.old.now)) }
        ensures now { OnOk result (self.new.now ≡ without_label self.old.now.flow) }
        ensures table { OnOk result (HasTable self.new) }
        ensures limited { IfErr result (λ e. IsLimitAt line (λ limit. (ps : List PlacedInstr)
            → IsCovered self.old.now.flow ps → HasSpace limit self.old ps → ⊥) e) }
    {
        let cur = match self.unpriced.index_of(line, point_here.flow.current) {
            Ok(cur) => cur,
            Err(fault) => return Err(fault),
        };
        let next = match self.unpriced.index_of(line, point_here.flow.next) {
            Ok(next) => next,
            Err(fault) => return Err(fault),
        };
        let unpriced_label = IndexedLabel {
            pc: self.lines.len() as u16,
            cur,
            next,
            pending: point_here.flow.pending,
            repeats: counters,
        };
        if let Err(fault) = self.unpriced.push(unpriced_label) {
            return Err(fault);
        }
        self.labelled = false;
        Ok(())
    }

    /// Emits the pending label, if any.
    fn put_label(&mut self, line: u16, counters: u8) -> Result<(), CompileFault>
        requires limits { IsInLimits self.old }
        ensures lines { self.new.lines ≡ self.old.lines }
        ensures saved { self.new.saved ≡ self.old.saved }
        ensures pool { Extends self.old.pool self.new.pool }
        ensures unpriced { OnOk result ((line : ℕ) (i : Instr) → self.new.unpriced.items
            ≡ self.old.unpriced.items
            ++ unpriced_labels (length self.old.lines.items) (alone line i counters self.old.now)) }
        ensures now { OnOk result (self.new.now ≡ without_label self.old.now.flow) }
        ensures table { OnOk result (HasTable self.new) }
        ensures limited { IfErr result (λ e. IsLimitAt line (λ limit. (ps : List PlacedInstr)
            → Covers self.old.now ps → HasSpace limit self.old ps → ⊥) e) }
    {
        if !self.labelled {
            return Ok(());
        }
        if self.unpriced.len() >= usize::from(MOST_LABELS) {
            return Err(CompileFault::Limit {
                line,
                limit: CodeLimit::Labels,
            });
        }
        let point_here = self.point_here()?;
        self.push_label(line, counters, &point_here)
    }

    /// Emits an instruction.
    fn put_instr(&mut self, line: u16, instr: Instr) -> Result<(), CompileFault>
        requires table { HasTable self.old }
        ensures saved { self.new.saved ≡ self.old.saved }
        ensures pool { self.new.pool ≡ self.old.pool }
        ensures unpriced { self.new.unpriced ≡ self.old.unpriced }
        ensures now { self.new.now ≡ self.old.now }
        ensures lines { OnOk result (self.new.lines.items ≡ self.old.lines.items
            ++ line_of_instr line instr ∷ []) }
        ensures room { OnOk result (length self.new.lines.items ≤ 4096) }
        ensures table { HasTable self.new }
        ensures limited { IfErr result (λ e. IsLimitAt line (λ limit. (limit ≡ Instructions)
            × (4096 ≤ length self.old.lines.items)) e) }
    {
        if self.lines.len() >= usize::from(MOST_INSTRUCTIONS) {
            return Err(CompileFault::Limit {
                line,
                limit: CodeLimit::Instructions,
            });
        }
        let number = line;
        if self.lines.push(Line { number, instr }).is_err() {
            return Err(CompileFault::Memory);
        }
        Ok(())
    }

    /// Emits an instruction, after the pending label, if any.
    #[inline(never)]
    pub(crate) fn put(&mut self, line: u16, counters: u8, instr: Instr) -> Result<(), CompileFault>
        requires limits { IsInLimits self.old }
        ensures emits { OnOk result (Emits self.old self.new
            (alone line instr counters self.old.now)) }
        ensures pool { Extends self.old.pool self.new.pool }
        ensures now { OnOk result (self.new.now ≡ without_label self.old.now.flow) }
        ensures limits { OnOk result (IsInLimits self.new) }
        ensures limited { IfErr result (λ e. IsLimitAt line
            (λ limit. LacksSpace limit self.old) e) }
    {
        if let Err(fault) = self.put_label(line, counters) {
            return Err(fault);
        }
        self.put_instr(line, instr)
    }

    /// Compiles a statement that is one instruction.
    #[inline(never)]
    pub(crate) fn act(
        &mut self,
        plan: &Plan,
        line: u16,
        counters: u8,
        act: &Act,
    ) -> Result<bool, CompileFault>
        requires limits { IsInLimits self.old }
        ensures is_reached { IfOk result (λ f. f ≡ true) }
        ensures emits { OnOk result (Emits self.old self.new
            (alone line (instr_of_act act.now) counters self.old.now)) }
        ensures now { OnOk result (self.new.now ≡ without_label
            (after_instr plan.now (instr_of_act act.now) self.old.now.flow)) }
        ensures fine { OnOk result (IsFine plan.now (instr_of_act act.now)
            (known_at self.old.now.flow)) }
        ensures refused { IfErr result (λ e. IfRefused e (λ at cause. (at ≡ line) × (FlowRefused
            plan.now (instr_of_act act.now) (known_at self.old.now.flow) cause
            × (IsFine plan.now (instr_of_act act.now) (known_at self.old.now.flow) → ⊥)))) }
        ensures limits { OnOk result (IsInLimits self.new) }
        ensures limited { IfErr result (λ e. IfLimitAt line
            (λ limit. LacksSpace limit self.old) e) }
    {
        if let Err(fault) = self.put_label(line, counters) {
            return Err(fault);
        }
        if let Err(fault) = self.pass(plan, line, act) {
            return Err(fault);
        }
        if let Err(fault) = self.put_instr(line, instr_of(*act)) {
            return Err(fault);
        }
        Ok(true)
    }

    /// Makes a label pending here, if there is room for it and for the configurations that it
    /// names.
    pub(crate) fn unpriced_label(&mut self, line: u16) -> Result<(), CompileFault>
        requires table { HasTable self.old }
        ensures lines { self.new.lines ≡ self.old.lines }
        ensures unpriced { self.new.unpriced ≡ self.old.unpriced }
        ensures saved { self.new.saved ≡ self.old.saved }
        ensures now { OnOk result (self.new.now ≡ at_label self.old.now.flow) }
        ensures table { HasTable self.new }
        ensures limited { IfErr result (λ e. IsLimitAt line (λ limit. (ps : List PlacedInstr)
            → IsCovered self.old.now.flow ps → HasSpace limit self.old ps → ⊥) e) }
    {
        if !self.labelled && self.unpriced.len() >= usize::from(MOST_LABELS) {
            return Err(CompileFault::Limit {
                line,
                limit: CodeLimit::Labels,
            });
        }
        let point_here = self.point_here()?;
        if !self
            .unpriced
            .has_room_for_both(point_here.flow.current, point_here.flow.next)
        {
            return Err(CompileFault::Limit {
                line,
                limit: CodeLimit::Configurations,
            });
        }
        self.labelled = true;
        Ok(())
    }

    /// Overwrites an emitted instruction.
    pub(crate) fn patch(&mut self, at: usize, line: u16, instr: Instr)
        requires there { at < length self.old.lines.items }
        requires table { HasTable self.old }
        ensures lines { self.new.lines.items ≡ slice_set self.old.lines.items at
            (line_of_instr line instr) }
        ensures unpriced { self.new.unpriced ≡ self.old.unpriced }
        ensures now { self.new.now ≡ self.old.now }
        ensures saved { self.new.saved ≡ self.old.saved }
        ensures pool { self.new.pool ≡ self.old.pool }
        ensures table { HasTable self.new }
    {
        let number = line;
        self.lines[at] = Line { number, instr };
    }

    /// Ends a script: emits an `End` if control reaches its end.
    pub(crate) fn close(&mut self, falls: bool, line: u16) -> Result<(), CompileFault>
        requires limits { IsInLimits self.old }
        ensures emits { OnOk result (Emits self.old self.new (onward (way falls self.old) []
            (alone line End 0))) }
        ensures limits { OnOk result (IsInLimits self.new) }
        ensures limited { IfErr result (λ e. IsLimitAt line (λ limit. HasSpace limit self.old
            (onward (way falls self.old) [] (alone line End 0)) → ⊥) e) }
    {
        if !falls {
            return Ok(());
        }
        self.put(line, 0, Instr::End)
    }
}
