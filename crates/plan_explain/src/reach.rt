//! What is known at an instruction of a code, from the instructions before it and the labels.

use crate::changes::{enter, unknown};
use mux_config::{Config, Store};
use plan_code::{Code, Counters, Instr, Label, Plan};
use plan_verifier::Flow;
use plan_verifier::properties::{continues, suspends};

/// What is known on entry to an instruction from the one before.
#[derive(Drop)]
pub(crate) struct Reach {
    pub(crate) flow: Flow<Config>,
    /// The set counters.
    pub(crate) counters: Counters,
    /// How many instructions may still run in this frame.
    pub(crate) left: u8,
    /// Whether that is what is left of the budget since a suspension, and not of a label's cost.
    is_of_budget: bool,
    /// Whether the instruction before continues to this one.
    pub(crate) comes: bool,
}

/// A label of a code, and what it declares of the configurations and the swap.
pub(crate) fn declared_at(code: &Code, pc: u16) -> Option<(Label, Flow<Config>)> {
    let label = code.label_at(pc)?;
    let flow = Flow {
        current: Config::from_config(code.config(label.cur)?),
        next: Config::from_config(code.config(label.next)?),
        pending: label.pending,
    };
    Some((label, flow))
}

impl Reach {
    /// Changes to what the label at an instruction declares, if it has one.
    pub(crate) fn enter(&mut self, code: &Code, pc: u16) {
        let Some(label) = code.label_at(pc) else {
            return;
        };
        enter(code, pc, &mut self.flow);
        self.counters = label.counters;
        self.left = label.cost;
        self.is_of_budget = false;
    }

    /// Applies an instruction.
    fn pass(&mut self, plan: &Plan, instr: &Instr) {
        let _ = self.flow.apply(plan, *instr);
        self.counters = match instr {
            Instr::Set { counter, .. } => self.counters.with(*counter),
            Instr::Loop { counter, .. } => self.counters.without(*counter),
            _ => self.counters,
        };
        if suspends(*instr) {
            self.left = plan.budget;
            self.is_of_budget = true;
        } else {
            self.left = self.left.saturating_sub(1);
        }
        self.comes = continues(*instr);
    }

    /// What is known on entry to an instruction of a code.
    pub(crate) fn at(code: &Code, pc: u16) -> Reach {
        let plan = code.plan();
        let mut reach = Reach {
            flow: unknown(),
            counters: Counters(0),
            left: 0,
            is_of_budget: true,
            comes: false,
        };
        for at in 0..pc {
            let Some(instr) = code.instr(at) else {
                return reach;
            };
            reach.enter(code, at);
            reach.pass(&plan, &instr);
        }
        reach
    }

    /// What the allowance is part of.
    pub(crate) fn source(&self) -> &'static str {
        if self.is_of_budget {
            "by the budget since the wait before"
        } else {
            "as the label before declares"
        }
    }
}
