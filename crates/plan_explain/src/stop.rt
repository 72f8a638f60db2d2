//! Where a plan is refused: the statement, the cause, and what is known there.

ghost use Rattle.std.specs.Prelude.{◌≡◌, IfSome, IsTrue};
ghost use Rattle.plan_verifier.specs.Flows.{known_at, FitsFlow};
ghost use Rattle.plan_verifier.specs.Tests.{flow_cause, start_cause};
ghost use Rattle.plan_explain.specs.Stops.{cause_of, AgreeAtMerge, IsRefusal, IsStop};

use mux_config::{Config, Store};
use plan_code::{Instr, Plan};
use plan_verifier::{Cause, Flow, test_opening};
use script_compiler::CompileFault;
use script_front::Act;

/// What is refused.
#[derive(Clone, Copy)]
pub(crate) enum Refused {
    /// An instruction, for this cause.
    Instr(Instr, Cause),
    /// The configuration that a plan begins with, for this cause.
    Opening(Cause),
    /// A loop: its body does not come back to what was known at its beginning.
    Loop,
    /// An `if`: its two paths can't be merged.
    Paths,
    /// A statement, an act if it is one, after one in this line that does not continue to it.
    Unreached { act: Option<Act>, after: u16 },
}

/// Where a plan is refused. The configurations and the swap are those that are known before the
/// refused statement; at a loop those at its end, at an `if` those of the path that is later in the
/// text.
#[derive(Drop)]
pub(crate) struct Stop {
    /// The line of the statement or the item, or that of `begin`.
    pub(crate) line: u16,
    /// What is refused.
    pub(crate) refused: Refused,
    /// Whether it is an item, or the configuration of the items.
    pub(crate) in_opening: bool,
    /// The header.
    pub(crate) plan: Plan,
    /// What is known there.
    pub(crate) here: Flow<Config>,
    /// What is known on the other path; at a loop at its beginning. Elsewhere the same as `here`.
    pub(crate) other: Flow<Config>,
}

/// A copy of what is known.
pub(crate) fn copied(flow: &Flow<Config>) -> Flow<Config>
    ensures { result ≡ flow.now }
{
    Flow {
        current: Config::from_config(&flow.current),
        next: Config::from_config(&flow.next),
        pending: flow.pending,
    }
}

/// The cause of a refusal.
pub(crate) fn cause_of(refused: Refused) -> Cause
    ensures { result ≡ cause_of refused }
{
    match refused {
        Refused::Instr(_, cause) => cause,
        Refused::Opening(cause) => cause,
        Refused::Loop => Cause::Mismatch,
        Refused::Paths => Cause::Mismatch,
        Refused::Unreached { .. } => Cause::Table,
    }
}

/// The cause for which an instruction is refused where this is known, if it is.
fn instr_cause(plan: &Plan, instr: Instr, flow: &Flow<Config>) -> Option<Cause>
    ensures { result ≡ flow_cause plan.now instr (known_at flow.now) }
{
    let mut after = copied(flow);
    match after.apply(plan, instr) {
        Ok(()) => None,
        Err(cause) => Some(cause),
    }
}

/// The cause for which a plan can't begin with a configuration, if there is one.
fn opening_cause(plan: &Plan, config: &Config) -> Option<Cause>
    ensures { result ≡ start_cause plan.now config.now }
{
    match test_opening(plan, config) {
        Ok(()) => None,
        Err(cause) => Some(cause),
    }
}

/// Whether a flow does not fit another one.
fn is_unfit(here: &Flow<Config>, there: &Flow<Config>) -> bool
    ensures { IsTrue result → FitsFlow here.now there.now → ⊥ }
{
    !here.fits(&there.current, &there.next, there.pending)
}

/// Whether two flows can't be merged.
fn is_apart(here: &Flow<Config>, there: &Flow<Config>) -> bool
    ensures { IsTrue result → AgreeAtMerge here.now there.now → ⊥ }
{
    let mut both = copied(here);
    !both.meet(there)
}

impl Stop {
    /// Whether what is known refuses what is refused.
    fn is_refusal(&self) -> bool
        ensures { IsTrue result → IsRefusal self.now }
    {
        match self.refused {
            Refused::Instr(instr, cause) => {
                instr_cause(&self.plan, instr, &self.here) == Some(cause)
            }
            Refused::Opening(cause) => opening_cause(&self.plan, &self.here.next) == Some(cause),
            Refused::Loop => is_unfit(&self.here, &self.other),
            Refused::Paths => is_apart(&self.here, &self.other),
            Refused::Unreached { .. } => true,
        }
    }

    /// Whether it is in this line and for this cause.
    fn is_at(&self, line: u16, cause: Cause) -> bool
        ensures { IsTrue result → (line ≡ self.now.line)
            × (cause ≡ cause_of self.now.refused) }
    {
        line == self.line && Some(cause) == Some(cause_of(self.refused))
    }

    /// The refused instruction, if it is one.
    pub(crate) fn instr(&self) -> Option<Instr> {
        match self.refused {
            Refused::Instr(instr, _) => Some(instr),
            _ => None,
        }
    }

    /// This stop, if it is the refusal with which the compiler refuses the script, by what is known
    /// there.
    pub(crate) fn of(self, fault: CompileFault) -> Option<Stop>
        ensures { IfSome result (IsStop fault) }
    {
        let CompileFault::Refused { line, cause } = fault else {
            return None;
        };
        if self.is_at(line, cause) {
            if self.is_refusal() {
                return Some(self);
            }
        }
        None
    }
}
