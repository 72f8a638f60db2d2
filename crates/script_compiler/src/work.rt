//! The compiler's state: the code emitted so far, and what is known at its end.

ghost use Rattle.std.specs.Prelude.{◌≡◌, ◌↔◌, ◌+◌, ◌<◌, true, false, [], ◌∷◌, ◌++◌, length, Some};
ghost use Rattle.std.specs.Prelude.{IsOk, IsTrue, OnOk, IfOk, IfErr};
ghost use Rattle.plan_verifier.specs.Flows.{known_at, merged, after_instr, FitsFlow};
ghost use Rattle.plan_verifier.specs.Rules.{IsFine};
ghost use Rattle.script_compiler.specs.declared.flow.ProgramPoint.{ProgramPoint};
ghost use Rattle.script_compiler.specs.Alternatives.{instr_of_act};
ghost use Rattle.script_compiler.specs.Scheme.{without_label, meet};
ghost use Rattle.script_compiler.specs.Judged.{WaysAgree};
ghost use Rattle.script_compiler.specs.Compiled.{beginning};
ghost use Rattle.script_compiler.specs.Pool.{Extends, IsInPool, point_in};
ghost use Rattle.script_compiler.specs.Refusals.{IsRefusedAs};
ghost use Rattle.script_compiler.specs.Space.{HasTable};
ghost use Rattle.script_compiler.specs.declared.fault.CompileFault.TheVariants.{Memory};

use crate::ProgramPoint;
use crate::fault::CompileFault;
use crate::judge::judge;
use crate::numbers::numbered;
use crate::short::IndexedPoint;
use crate::unpriced::UnpricedLabels;
use mux_config::Config;
use mux_tables::Tables;
use plan_code::{Line, Plan};
use plan_verifier::TrackedFlow;
use script_front::Act;
use std::alloc::Global;
use std::marker::Model;

/// The code emitted so far, and what is known at its end. Contracts see program points with their
/// configurations rather than numbers.
#[derive(Drop)]
pub(crate) struct Work {
    pub(crate) lines: Vec<Line>,
    /// The unpriced labels, and the configurations that they name.
    pub(crate) unpriced: UnpricedLabels,
    /// What is known here, with the numbers of its configurations.
    now: TrackedFlow<Tables>,
    /// Whether the next instruction has a label.
    pub(crate) labelled: bool,
    /// The program points saved for open branches and loops.
    saved: Vec<IndexedPoint>,
}

impl Model for Work {
    ghost use Rattle.std.specs.Prelude.{length, map};
    ghost use Rattle.plan_verifier.specs.Indexed.{IsTracked};
    ghost use Rattle.script_compiler.specs.Pool.{AreInPool, point_in};
    ghost use Rattle.script_compiler.specs.Working.{Work};

    ghost Value = { Work };

    ghost view = { λ w. record {
      lines = record { items = w.lines.items };
      unpriced = record { items = w.unpriced.items; table = w.unpriced.table };
      now = record { flow = w.now.flow; labelled = w.labelled };
      saved = record { items = map (point_in w.unpriced.pool) w.saved.items };
      pool = w.unpriced.pool;
    } };

    ghost invariant = { λ w. IsTracked (λ c. c) w.unpriced.pool w.now
        × AreInPool (length w.unpriced.pool) w.saved.items };
}

/// The code of a whole script, with unpriced labels.
#[derive(Drop)]
pub(crate) struct Emitted {
    pub(crate) lines: Vec<Line>,
    /// The unpriced labels, and the configurations that they name.
    pub(crate) unpriced: UnpricedLabels,
}

impl Work {
    /// No code yet; this configuration is current and next.
    pub(crate) fn new(alloc: Global, config: &Config) -> Work
        ensures lines { result.lines.items ≡ [] }
        ensures unpriced { result.unpriced.items ≡ [] }
        ensures table { result.unpriced.table ≡ [] }
        ensures now { result.now ≡ beginning config.now }
    {
        let point = ProgramPoint::opening(config);
        Work {
            lines: Vec::new(alloc),
            unpriced: UnpricedLabels::new(alloc),
            now: TrackedFlow::new(point.flow),
            labelled: point.labelled,
            saved: Vec::new(alloc),
        }
    }

    /// The code emitted.
    pub(crate) fn into_emitted(self) -> Emitted
        ensures lines { result.lines.items ≡ self.lines.items }
        ensures items { result.unpriced.items ≡ self.unpriced.items }
        ensures table { result.unpriced.table ≡ self.unpriced.table }
    {
        Emitted {
            lines: self.lines,
            unpriced: self.unpriced,
        }
    }

    /// The number of instructions: the pc of the next one.
    pub(crate) fn len(&self) -> usize
        ensures { result ≡ length self.entry.now.lines.items }
    {
        self.lines.len()
    }

    /// The current program point with its configurations by number. Configurations without a number
    /// get one.
    ///
    /// # Errors
    ///
    /// `Memory`.
    pub(crate) fn point_here(&mut self) -> Result<IndexedPoint, CompileFault>
        ensures lines { self.new.lines ≡ self.old.lines }
        ensures unpriced { self.new.unpriced ≡ self.old.unpriced }
        ensures now { self.new.now ≡ self.old.now }
        ensures saved { self.new.saved ≡ self.old.saved }
        ensures pool { Extends self.old.pool self.new.pool }
        ensures same { IfOk result (λ s. point_in self.new.pool s ≡ self.new.now) }
        ensures within { IfOk result (λ s. IsInPool (length self.new.pool) s) }
        ensures memory { IfErr result (λ e. e ≡ Memory) }
    {
        let flow = match numbered(&mut self.unpriced, &self.now) {
            Ok(flow) => flow,
            Err(fault) => return Err(fault),
        };
        self.now.indices = flow.indices();
        Ok(IndexedPoint {
            flow,
            labelled: self.labelled,
        })
    }

    /// Checks a statement that is one instruction, and updates what is known.
    pub(crate) fn pass(&mut self, plan: &Plan, line: u16, act: &Act) -> Result<(), CompileFault>
        ensures lines { self.new.lines ≡ self.old.lines }
        ensures unpriced { self.new.unpriced ≡ self.old.unpriced }
        ensures saved { self.new.saved ≡ self.old.saved }
        ensures left { OnOk result (self.new.now.flow ≡ after_instr plan.now (instr_of_act act.now)
            self.old.now.flow) }
        ensures labelled { self.new.now.labelled ≡ self.old.now.labelled }
        ensures fine { IsOk result ↔ IsFine plan.now (instr_of_act act.now)
            (known_at self.old.now.flow) }
        ensures refused { IfErr result (λ e. IsRefusedAs plan.now line (instr_of_act act.now)
            self.old.now.flow e) }
    {
        judge(plan, line, *act, &mut self.now)
    }

    /// Saves the current program point.
    pub(crate) fn save(&mut self) -> Result<(), CompileFault>
        requires table { HasTable self.old }
        ensures lines { self.new.lines ≡ self.old.lines }
        ensures unpriced { self.new.unpriced ≡ self.old.unpriced }
        ensures now { self.new.now ≡ self.old.now }
        ensures pool { Extends self.old.pool self.new.pool }
        ensures saved { OnOk result (self.new.saved.items ≡ self.old.saved.items
            ++ self.old.now ∷ []) }
        ensures table { HasTable self.new }
        ensures memory { IfErr result (λ e. e ≡ Memory) }
    {
        let point_here = self.point_here()?;
        if self.saved.push(point_here).is_err() {
            return Err(CompileFault::Memory);
        }
        Ok(())
    }

    /// Removes and returns the program point saved last.
    pub(crate) fn restore(&mut self) -> IndexedPoint
        requires kept { 0 < length self.old.saved.items }
        requires table { HasTable self.old }
        ensures lines { self.new.lines ≡ self.old.lines }
        ensures unpriced { self.new.unpriced ≡ self.old.unpriced }
        ensures now { self.new.now ≡ self.old.now }
        ensures pool { self.new.pool ≡ self.old.pool }
        ensures saved { self.new.saved.items ++ point_in self.new.pool result ∷ []
            ≡ self.old.saved.items }
        ensures within { IsInPool (length self.new.pool) result }
        ensures table { HasTable self.new }
    {
        match self.saved.pop() {
            Some(point) => point,
            None => unreachable!(),
        }
    }

    /// Whether what is known here fits a saved program point.
    pub(crate) fn fits(&self, point: &IndexedPoint) -> bool
        requires { IsInPool (length self.now.pool) point.now }
        ensures { IsTrue result ↔ FitsFlow self.entry.now.now.flow
            (point_in self.entry.now.pool point.now).flow }
    {
        self.now.fits(self.unpriced.pool(), &point.flow)
    }

    /// Continues with what is known at a saved program point, without a label.
    pub(crate) fn take(&mut self, point: &IndexedPoint)
        requires within { IsInPool (length self.old.pool) point.now }
        ensures lines { self.new.lines ≡ self.old.lines }
        ensures unpriced { self.new.unpriced ≡ self.old.unpriced }
        ensures saved { self.new.saved ≡ self.old.saved }
        ensures pool { self.new.pool ≡ self.old.pool }
        ensures now { self.new.now ≡ without_label (point_in self.old.pool point.now).flow }
    {
        self.now.take(self.unpriced.pool(), &point.flow);
        self.labelled = false;
    }

    /// Merges the current path with that of a saved program point. False if either does not fit the
    /// result, and then nothing changes.
    pub(crate) fn meet(&mut self, point: &IndexedPoint) -> bool
        requires within { IsInPool (length self.old.pool) point.now }
        ensures lines { self.new.lines ≡ self.old.lines }
        ensures unpriced { self.new.unpriced ≡ self.old.unpriced }
        ensures saved { self.new.saved ≡ self.old.saved }
        ensures pool { self.new.pool ≡ self.old.pool }
        ensures labelled { self.new.now.labelled ≡ self.old.now.labelled }
        ensures met { result ≡ true → self.new.now.flow ≡ merged self.old.now.flow
            (point_in self.old.pool point.now).flow }
        ensures agree { IsTrue result ↔ WaysAgree (Some self.old.now)
            (Some (point_in self.old.pool point.now)) }
    {
        self.now.meet(self.unpriced.pool(), &point.flow)
    }
}
