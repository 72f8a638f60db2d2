//! Explains why a code is refused, by what is known at the instruction.

use crate::facts::facts_of;
use crate::hint::explain_known;
use crate::list::push_owned;
use crate::note::Note;
use crate::reach::{Reach, declared_at};
use crate::stop::{Refused, Stop, copied};
use crate::trial::Refusal;
use crate::trier::Trier;
use crate::words::put_fact;
use mux_config::Config;
use plan_code::{Code, CounterId, Instr, Label};
use plan_verifier::flow::{is_idle, is_same};
use plan_verifier::properties::target_of;
use plan_verifier::{Cause, Flow, test_opening};
use std::alloc::Global;
use std::io::{self, Write};

/// An instruction at which a code is refused, and what is known there.
#[derive(Drop)]
struct Place<'a> {
    alloc: Global,
    code: &'a Code,
    pc: u16,
    reach: Reach,
}

impl Place<'_> {
    /// The target of the instruction, if it jumps.
    fn target(&self) -> Option<u16> {
        match self.code.instr(self.pc) {
            Some(instr) => target_of(instr),
            None => None,
        }
    }

    /// A refusal there, with what is known on another path.
    fn stop(&self, refused: Refused, other: &Flow<Config>) -> Stop {
        Stop {
            line: 0,
            refused,
            in_opening: false,
            plan: self.code.plan(),
            here: copied(&self.reach.flow),
            other: copied(other),
        }
    }

    /// Explains a missing label at an instruction that needs one.
    fn explain_table(&self, out: &mut Vec<u8>) -> io::Result<()> {
        let pc = self.pc;
        let Some(before) = pc.checked_sub(1) else {
            return out.write_all(b"instruction 0, where a code begins, has no label");
        };
        let line = self.code.line_at(before).unwrap_or(0);
        write!(
            out,
            "instruction {pc} can't be reached: instruction {before}, of line {line}, does not \
             continue to it, and it has no label"
        )
    }

    /// Whether what is known does not match the label there, if there is one.
    fn is_unfit(&self) -> bool {
        let Some((label, flow)) = declared_at(self.code, self.pc) else {
            return false;
        };
        !self.reach.counters.includes(label.counters)
            || !self
                .reach
                .flow
                .fits(&flow.current, &flow.next, flow.pending)
    }

    /// Whether the code can't begin with what its first label declares, whatever its configuration.
    fn has_no_beginning(&self) -> bool {
        let Some((label, flow)) = declared_at(self.code, 0) else {
            return false;
        };
        !is_idle(label.pending) || label.counters.0 != 0 || !is_same(&flow.current, &flow.next)
    }

    /// Explains what does not match the label at a pc.
    fn explain_unfit(&self, pc: u16, out: &mut Vec<u8>) -> io::Result<()> {
        write!(out, "at the label of instruction {pc}: ")?;
        let Some((label, declared)) = declared_at(self.code, pc) else {
            return Ok(());
        };
        let counters = self.reach.counters;
        let mut all = (0u8..8).filter_map(|id| CounterId::new(id));
        if let Some(counter) = all.find(|id| label.counters.has(*id) && !counters.has(*id)) {
            return write!(
                out,
                "the label declares that counter {} is set, and it may not be",
                counter.get()
            );
        }
        let stop = self.stop(Refused::Loop, &declared);
        let facts = facts_of(self.alloc, &stop)?;
        out.write_all(b"what is known does not fit the label: ")?;
        let sides = [" as it is known", " as the label declares"];
        match facts.first() {
            Some(fact) => put_fact(fact, &stop, sides, out),
            None => Ok(()),
        }
    }

    /// Explains the difference between what is known and what a label declares: the first label of
    /// the code, the one at the instruction, or the one at its jump target.
    fn explain_mismatch(&mut self, out: &mut Vec<u8>) -> io::Result<()> {
        if self.pc == 0 && self.has_no_beginning() {
            return out.write_all(
                b"the first label has to declare one configuration, both current and next, no \
                 pending swap and no counter",
            );
        }
        if self.reach.comes && self.is_unfit() {
            return self.explain_unfit(self.pc, out);
        }
        self.reach.enter(self.code, self.pc);
        self.explain_unfit(self.target().unwrap_or(self.pc), out)
    }

    /// Explains a label whose cost is more than what may still run.
    fn explain_allowance(&self, label: &Label, left: u8, out: &mut Vec<u8>) -> io::Result<()> {
        let (pc, cost, source) = (label.pc, label.cost, self.reach.source());
        write!(
            out,
            "the label of instruction {pc} declares that {cost} instructions may run from there in \
             one frame; {left} may still run, {source}"
        )
    }

    /// Explains a cost over the budget, or over the allowance of the label before.
    fn explain_cost(&mut self, out: &mut Vec<u8>) -> io::Result<()> {
        let (pc, budget) = (self.pc, self.code.plan().budget);
        if let Some(label) = self.code.label_at(pc) {
            let cost = label.cost;
            if self.reach.comes && self.reach.left < cost {
                return self.explain_allowance(&label, self.reach.left, out);
            }
            if budget < cost {
                return write!(
                    out,
                    "the label of instruction {pc} declares that {cost} instructions may run from \
                     there in one frame; the budget is {budget}"
                );
            }
        }
        self.reach.enter(self.code, pc);
        let target = self.target().and_then(|target| self.code.label_at(target));
        if let (Some(left), Some(label)) = (self.reach.left.checked_sub(1), target) {
            return self.explain_allowance(&label, left, out);
        }
        let source = self.reach.source();
        write!(
            out,
            "no more instructions may run in this frame before instruction {pc}, {source}; the \
             budget is {budget}"
        )
    }

    /// Explains a cause by what is known at the instruction: in the first one it may be that of the
    /// configuration with which the code begins.
    fn explain_known(&self, instr: &Instr, cause: &Cause, note: &mut Note) -> io::Result<()> {
        let (plan, flow) = (self.code.plan(), &self.reach.flow);
        let refused = if self.pc == 0 && test_opening(&plan, &flow.current).is_err() {
            Refused::Opening(*cause)
        } else {
            Refused::Instr(*instr, *cause)
        };
        let stop = self.stop(refused, flow);
        let refusal = Refusal::Plan {
            line: 0,
            cause: *cause,
            is_defined: false,
        };
        let mut trier = Trier::new(self.alloc, "", refusal)?;
        trier.code = Some((self.code, self.pc));
        let facts = facts_of(self.alloc, &stop)?;
        explain_known(&mut trier, &stop, facts.as_slice(), note)?;
        trier.put_hint(note)
    }

    /// Explains a cause at the instruction.
    fn explain(&mut self, instr: Instr, cause: Cause, note: &mut Note) -> io::Result<()> {
        let (pc, out) = (self.pc, &mut note.text);
        match (cause, instr) {
            (Cause::Mismatch, _) => self.explain_mismatch(out),
            (Cause::Cost, _) => self.explain_cost(out),
            (Cause::Table, _) => self.explain_table(out),
            (Cause::Target, _) => {
                let target = target_of(instr).unwrap_or(pc);
                write!(
                    out,
                    "instruction {pc} jumps to {target}, which has no label"
                )
            }
            (Cause::CounterUnset, Instr::Loop { counter, .. }) => write!(
                out,
                "instruction {pc} loops on counter {}, which may not be set here",
                counter.get()
            ),
            (Cause::FallsOff, _) => write!(
                out,
                "the last instruction, {pc}, continues to one that is not there"
            ),
            _ => {
                self.reach.enter(self.code, pc);
                self.explain_known(&instr, &cause, note)
            }
        }
    }
}

/// Notes on why a code is refused at an instruction, with the objects and numbers there. The line
/// is the script's, as recorded in the code; 0 if there is no such instruction.
///
/// # Errors
///
/// `OutOfMemory`.
pub fn notes_on_code(alloc: Global, code: &Code, pc: u16, cause: Cause) -> io::Result<Vec<Note>> {
    let mut note = Note::on_line(alloc, code.line_at(pc).unwrap_or(0));
    let mut place = Place {
        alloc,
        code,
        pc,
        reach: Reach::at(code, pc),
    };
    match code.instr(pc) {
        Some(instr) => place.explain(instr, cause, &mut note)?,
        None => write!(
            &mut note.text,
            "a label is at {pc}, past the last instruction"
        )?,
    }
    let mut notes = Vec::new(alloc);
    push_owned(&mut notes, note)?;
    Ok(notes)
}
