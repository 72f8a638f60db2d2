//! Plan codes as values.

ghost use Rattle.std.specs.Prelude.{◌≡◌, ◌≤◌, ◌<◌, ◌↔◌, IsTrue, IsSome, IfSome, length, slice_get};
ghost use Rattle.std.specs.Prelude.{◌==◌, find};
ghost use Rattle.std.specs.Option.{option_copied};
ghost use Rattle.mux_config.specs.Configuration.{IsAscending, IsConfiguration};
ghost use Rattle.std.specs.List.{AllByRecursion};
ghost use Rattle.plan_code.specs.Program.{Program, IsProgram, IsLabel, IsLine, label_key, label_at};
ghost use Rattle.plan_code.specs.Program.{instr_at, line_at};

use crate::instr::{Instr, Line};
use crate::label::Label;
use crate::limits::{MOST_CONFIGURATIONS, MOST_INSTRUCTIONS, MOST_LABELS};
use crate::plan::Plan;
use crate::ranges::{configs_in_range, lines_in_range};
use mux_config::Config;
use std::marker::Model;

/// A plan code: a plan, a table of configurations, labels in ascending order of their pc, and
/// instructions. Every field is within its limits.
#[derive(Drop)]
pub struct Code {
    plan: Plan,
    configs: Vec<Config>,
    labels: Vec<Label>,
    lines: Vec<Line>,
}

impl Model for Code {
    ghost use Rattle.plan_code.specs.Program.{Program, IsProgram};

    ghost Value = { Program };

    ghost view = { λ c. record {
      plan = c.plan;
      configurations = c.configs.items;
      labels = c.labels.items;
      lines = c.lines.items;
    } };

    ghost invariant = { λ c. IsProgram (record {
      plan = c.plan;
      configurations = c.configs.items;
      labels = c.labels.items;
      lines = c.lines.items;
    }) };
}

/// Whether a table has at least one member and at most `limit`.
fn is_count(len: usize, limit: u16) -> bool
    ensures { IsTrue result ↔ ((1 ≤ len) × (len ≤ limit)) }
{
    1 <= len && len <= usize::from(limit)
}

/// Whether each label is within its limits and their pcs ascend.
fn are_labels(labels: &[Label], configs: usize) -> bool
    ensures { IsTrue result
        ↔ (AllByRecursion (IsLabel configs) labels.now × IsAscending label_key labels.now) }
{
    let mut low = 0u32;
    for label in labels {
        if u32::from(label.pc) < low {
            return false;
        }
        if !label.is_within_limits(configs) {
            return false;
        }
        low = u32::from(label.pc) + 1;
    }
    true
}

/// The label at a pc, found by binary search.
fn search(labels: &[Label], pc: u16) -> Option<Label>
    requires { IsAscending label_key labels.now }
    ensures { result ≡ find (λ l. l.pc == pc) labels.now }
{
    let mut low = 0;
    let mut high = labels.len();
    while low < high {
        let middle = low + (high - low) / 2;
        let label = labels[middle];
        if label.pc == pc {
            return Some(label);
        }
        if label.pc < pc {
            low = middle + 1;
        } else {
            high = middle;
        }
    }
    None
}

impl Code {
    /// Builds a code from its parts; None exactly where a field or a length is outside its limits,
    /// and then the vectors are dropped. Configurations and lines are within their limits by their
    /// types.
    pub fn new(
        plan: Plan,
        configs: Vec<Config>,
        labels: Vec<Label>,
        lines: Vec<Line>,
    ) -> Option<Code>
        ensures within { IsSome result ↔ IsProgram (record {
          plan = plan;
          configurations = configs.items;
          labels = labels.items;
          lines = lines.items;
        }) }
        ensures value { IfSome result (λ c. c ≡ record {
          plan = plan;
          configurations = configs.items;
          labels = labels.items;
          lines = lines.items;
        }) }
        ensures configurations { AllByRecursion IsConfiguration configs.items }
        ensures lines { AllByRecursion IsLine lines.items }
    {
        configs_in_range(&configs);
        lines_in_range(&lines);
        if !plan.is_within_limits() {
            return None;
        }
        if !is_count(configs.len(), MOST_CONFIGURATIONS) {
            return None;
        }
        if !is_count(labels.len(), MOST_LABELS) {
            return None;
        }
        if !is_count(lines.len(), MOST_INSTRUCTIONS) {
            return None;
        }
        if !are_labels(&labels, configs.len()) {
            return None;
        }
        Some(Code {
            plan,
            configs,
            labels,
            lines,
        })
    }

    /// Builds a code from parts that are known to be within their limits.
    pub(crate) fn from_parts(
        plan: Plan,
        configs: Vec<Config>,
        labels: Vec<Label>,
        lines: Vec<Line>,
    ) -> Code
        requires { IsProgram (record {
          plan = plan;
          configurations = configs.items;
          labels = labels.items;
          lines = lines.items;
        }) }
        ensures { result ≡ record {
          plan = plan;
          configurations = configs.items;
          labels = labels.items;
          lines = lines.items;
        } }
    {
        Code {
            plan,
            configs,
            labels,
            lines,
        }
    }

    /// The plan.
    pub fn plan(&self) -> Plan
        ensures value { result ≡ self.now.plan }
        ensures formed { IsProgram self.now }
    {
        self.plan
    }

    /// The table of configurations.
    pub fn configs(&self) -> &[Config]
        ensures value { result.now ≡ self.now.configurations }
        ensures formed { IsProgram self.now }
    {
        self.configs.as_slice()
    }

    /// The configuration at an index of the table; None past its end.
    pub fn config(&self, place: u16) -> Option<&Config>
        ensures value { option_copied result ≡ slice_get self.now.configurations place }
        ensures formed { IsProgram self.now }
    {
        self.configs.get(usize::from(place))
    }

    /// The labels in ascending order of their pc.
    pub fn labels(&self) -> &[Label]
        ensures value { result.now ≡ self.now.labels }
        ensures formed { IsProgram self.now }
    {
        self.labels.as_slice()
    }

    /// The label at a pc of the code; None where there is none.
    pub fn label_at(&self, pc: u16) -> Option<Label>
        ensures value { result ≡ label_at self.now pc }
        ensures formed { IsProgram self.now }
    {
        search(&self.labels, pc)
    }

    /// The instructions in order, each with its source line number.
    pub fn lines(&self) -> &[Line]
        ensures value { result.now ≡ self.now.lines }
        ensures formed { IsProgram self.now }
    {
        self.lines.as_slice()
    }

    /// The instruction at a pc of the code; None past its end.
    pub fn instr(&self, pc: u16) -> Option<Instr>
        ensures value { result ≡ instr_at self.now pc }
        ensures formed { IsProgram self.now }
    {
        match self.lines.get(usize::from(pc)) {
            Some(line) => Some(line.instr),
            None => None,
        }
    }

    /// The source line number of the instruction at a pc of the code; None past its end.
    pub fn line_at(&self, pc: u16) -> Option<u16>
        ensures value { result ≡ line_at self.now pc }
        ensures formed { IsProgram self.now }
    {
        match self.lines.get(usize::from(pc)) {
            Some(line) => Some(line.number),
            None => None,
        }
    }
}
