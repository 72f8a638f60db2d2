//! Follows a script up to its first refusal, with the rules of plans, and keeps what is known
//! there.

use crate::list::push_owned;
use crate::stop::{Refused, Stop, copied};
use mux_config::{Config, Store};
use plan_code::{Instr, Plan, Swap};
use plan_verifier::{Cause, Flow, test_opening};
use script_compiler::{instr_of, line_of};
use script_front::{Act, Script, Statement};
use std::alloc::{AllocError, Global};

/// The most steps: more than any script takes whose code is within its limits.
const MOST: u32 = 200_000;

/// What a list of statements is, and the line of the statement that it belongs to.
#[derive(Clone, Copy)]
enum End<'a> {
    /// A defined block, or the whole script.
    Block,
    /// The block of an `if`.
    If(u16),
    /// The first block of an `if` with this second one.
    First(u16, &'a [Statement]),
    /// That second one; whether the first reaches its end.
    Second(u16, bool),
    /// The body of a loop; whether the loop ends.
    Loop(u16, bool),
}

/// Statements that are still to be followed.
#[derive(Clone, Copy)]
struct Frame<'a> {
    rest: &'a [Statement],
    /// How many blocks they may apply.
    blocks: usize,
    /// The line of the statement before them.
    after: u16,
    end: End<'a>,
}

/// A script that is followed: what is known, and what is still to be followed, the innermost
/// statements last. It needs no deeper stack for statements inside others.
#[derive(Drop)]
struct Walk<'a> {
    plan: Plan,
    blocks: &'a [Vec<Statement>],
    /// Whether each block has no instruction.
    silent: Vec<bool>,
    here: Flow<Config>,
    /// What is known at the beginning of each open loop and `if`, or at the end of its first block.
    saved: Vec<Flow<Config>>,
    frames: Vec<Frame<'a>>,
    /// Whether control reaches the next statement.
    falls: bool,
}

/// Nothing pending, and this configuration both current and next.
pub(crate) fn beginning(config: &Config) -> Flow<Config> {
    Flow {
        current: Config::from_config(config),
        next: Config::from_config(config),
        pending: Swap::Idle,
    }
}

impl<'a> Walk<'a> {
    /// The refusal of what is in this line, where `other` is known on the other path.
    fn stop(&self, line: u16, refused: Refused, other: &Flow<Config>) -> Option<Stop> {
        Some(Stop {
            line,
            refused,
            in_opening: false,
            plan: self.plan,
            here: copied(&self.here),
            other: copied(other),
        })
    }

    /// Merges the path with another one; a refusal in this line if they can't be.
    fn join(&mut self, line: u16, other: Flow<Config>) -> Option<Stop> {
        if !self.falls {
            self.here = other;
            self.falls = true;
            return None;
        }
        if self.here.meet(&other) {
            return None;
        }
        self.stop(line, Refused::Paths, &other)
    }

    /// Ends a loop that began with this.
    fn close_loop(&mut self, line: u16, ends: bool, entry: Flow<Config>) -> Option<Stop> {
        let fits = self.here.fits(&entry.current, &entry.next, entry.pending);
        if self.falls && !fits {
            return self.stop(line, Refused::Loop, &entry);
        }
        self.falls = self.falls && ends;
        None
    }

    /// Ends a list of statements: a first block with the second one, which begins with what was
    /// known before both.
    fn close(&mut self, frame: Frame<'a>) -> Result<Option<Stop>, AllocError> {
        let entry = match frame.end {
            End::Block => None,
            _ => self.saved.pop(),
        };
        let Some(entry) = entry else {
            return Ok(None);
        };
        match frame.end {
            End::Block | End::Second(_, false) => Ok(None),
            End::If(line) | End::Second(line, true) => Ok(self.join(line, entry)),
            End::Loop(line, ends) => Ok(self.close_loop(line, ends, entry)),
            End::First(line, second) => {
                push_owned(&mut self.saved, copied(&self.here))?;
                let end = End::Second(line, self.falls);
                self.here = entry;
                self.falls = true;
                self.enter(second, frame.blocks, end)?;
                Ok(None)
            }
        }
    }

    /// Follows these statements next, which may apply so many blocks.
    fn enter(
        &mut self,
        rest: &'a [Statement],
        blocks: usize,
        end: End<'a>,
    ) -> Result<(), AllocError> {
        let frame = Frame {
            rest,
            blocks,
            after: 0,
            end,
        };
        push_owned(&mut self.frames, frame)
    }

    /// Begins a defined block, if it has an instruction.
    fn apply(&mut self, number: usize, blocks: usize) -> Result<(), AllocError> {
        match self.blocks.get(number) {
            Some(block) if number < blocks && self.silent.get(number) != Some(&true) => {
                self.enter(block.as_slice(), number, End::Block)
            }
            _ => Ok(()),
        }
    }

    /// Executes an act.
    fn act(&mut self, line: u16, act: &Act) -> Option<Stop> {
        match self.here.apply(&self.plan, instr_of(*act)) {
            Ok(()) => None,
            Err(cause) => self.stop(line, Refused::Instr(instr_of(*act), cause), &self.here),
        }
    }

    /// Follows a statement.
    fn statement(
        &mut self,
        statement: &'a Statement,
        blocks: usize,
    ) -> Result<Option<Stop>, AllocError> {
        let (block, end) = match statement {
            Statement::Act { line, act } => return Ok(self.act(*line, act)),
            Statement::End { .. } => {
                self.falls = false;
                return Ok(None);
            }
            Statement::Apply { block, .. } => {
                self.apply(usize::from(block.get()), blocks)?;
                return Ok(None);
            }
            Statement::If { line, first, .. } => (first, End::If(*line)),
            Statement::IfElse {
                line,
                first,
                second,
                ..
            } => (first, End::First(*line, second.as_slice())),
            Statement::Repeat { line, body, .. } => (body, End::Loop(*line, true)),
            Statement::Forever { line, body } => (body, End::Loop(*line, false)),
        };
        push_owned(&mut self.saved, copied(&self.here))?;
        self.enter(block.as_slice(), blocks, end)?;
        Ok(None)
    }

    /// Follows the next statement of a list, or ends it.
    fn step(&mut self, frame: Frame<'a>) -> Result<Option<Stop>, AllocError> {
        let Some((statement, rest)) = frame.rest.split_first() else {
            return self.close(frame);
        };
        let line = line_of(statement);
        if !self.falls {
            let act = match statement {
                Statement::Act { act, .. } => Some(*act),
                _ => None,
            };
            let after = frame.after;
            let refused = Refused::Unreached { act, after };
            return Ok(self.stop(line, refused, &self.here));
        }
        let after = line;
        push_owned(
            &mut self.frames,
            Frame {
                rest,
                after,
                ..frame
            },
        )?;
        self.statement(statement, frame.blocks)
    }
}

/// Whether each of these blocks has no instruction: it applies only blocks that have none.
fn silent_blocks(alloc: Global, blocks: &[Vec<Statement>]) -> Result<Vec<bool>, AllocError> {
    let mut silent: Vec<bool> = Vec::new(alloc);
    for block in blocks {
        let is_silent = block.as_slice().iter().all(|statement| match statement {
            Statement::Apply { block, .. } => silent.get(usize::from(block.get())) != Some(&false),
            _ => false,
        });
        push_owned(&mut silent, is_silent)?;
    }
    Ok(silent)
}

/// A refusal among the items of a script, or of the configuration that they make.
pub(crate) fn opening_stop(script: &Script, line: u16, refused: Refused, config: &Config) -> Stop {
    Stop {
        line,
        refused,
        in_opening: true,
        plan: script.header(),
        here: beginning(config),
        other: beginning(config),
    }
}

/// The first refusal among the items of a script, or of the configuration that they make, which is
/// put into `opening`.
fn first_of_opening(script: &Script, opening: &mut Config) -> Option<Stop> {
    for item in script.items() {
        if let Err(fault) = item.edit.apply(opening) {
            let refused = Refused::Instr(Instr::Edit(item.edit), Cause::Edit(fault));
            return Some(opening_stop(script, item.line, refused, opening));
        }
    }
    let cause = test_opening(&script.header(), opening).err()?;
    let refused = Refused::Opening(cause);
    Some(opening_stop(script, script.begin_line(), refused, opening))
}

/// The first refusal of a script, and what is known there; none if no statement is refused, or none
/// is found in so many steps. Costs and limits are not looked at.
pub(crate) fn follow(alloc: Global, script: &Script) -> Result<Option<Stop>, AllocError> {
    let mut opening = Config::new();
    if let Some(stop) = first_of_opening(script, &mut opening) {
        return Ok(Some(stop));
    }
    let mut walk = Walk {
        plan: script.header(),
        blocks: script.blocks(),
        silent: silent_blocks(alloc, script.blocks())?,
        here: beginning(&opening),
        saved: Vec::new(alloc),
        frames: Vec::new(alloc),
        falls: true,
    };
    walk.enter(script.statements(), script.blocks().len(), End::Block)?;
    for _step in 0..MOST {
        let Some(frame) = walk.frames.pop() else {
            return Ok(None);
        };
        if let Some(stop) = walk.step(frame)? {
            return Ok(Some(stop));
        }
    }
    Ok(None)
}
