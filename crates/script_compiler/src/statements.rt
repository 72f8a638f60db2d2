//! Compiles statements one after another, each kind in its own function.

ghost use Rattle.std.specs.Prelude.{List};
ghost use Rattle.script_front.specs.Block.{Block, nothing, when, either, repeat, forever, before};
ghost use Rattle.script_compiler.specs.Refused.{IsLine};
ghost use Rattle.script_compiler.specs.Compiling.{CanCompile, Compiles, block_in, statement_in};

use crate::context::Context;
use crate::falls::all_fall;
use crate::fault::{CodeLimit, CompileFault};
use crate::refusal::refused;
use crate::work::Work;
use plan_code::{CounterId, Instr, Times};
use plan_verifier::Cause;
use script_front::{Condition, Statement};

/// The line of a statement's first token, 1 to 65,535.
pub fn line_of(statement: &Statement) -> u16
    ensures { (table : List Block) (rest : Block) → IsLine (before table statement.now rest)
        result }
{
    match statement {
        Statement::Act { line, .. } => *line,
        Statement::End { line } => *line,
        Statement::If { line, .. } => *line,
        Statement::IfElse { line, .. } => *line,
        Statement::Repeat { line, .. } => *line,
        Statement::Forever { line, .. } => *line,
        Statement::Apply { line, .. } => *line,
    }
}

impl Work {
    /// Compiles the statements of a block; returns whether control reaches its end.
    #[cycle(work)]
    pub(crate) fn block(
        &mut self,
        context: Context,
        statements: &[Statement],
    ) -> Result<bool, CompileFault>
        requires { CanCompile context self.old }
        ensures { Compiles context.entry (block_in context.entry statements.now) nothing
            self.old self.new result }
    {
        let mut is_reached = true;
        for statement in statements {
            if !is_reached {
                return Err(refused(line_of(statement), Cause::Table));
            }
            is_reached = self.statement(context, statement)?;
        }
        Ok(is_reached)
    }

    /// Compiles one statement; returns whether control reaches its end.
    #[cycle(work)]
    fn statement(&mut self, context: Context, statement: &Statement) -> Result<bool, CompileFault>
        requires { CanCompile context self.old }
        ensures { (rest : Block) → Compiles context.entry
            (statement_in context.entry statement.now rest) rest self.old self.new result }
    {
        match statement {
            Statement::Act { line, act } => self.act(context.plan, *line, context.counters, act),
            Statement::End { line } => {
                if let Err(fault) = self.put(*line, context.counters, Instr::End) {
                    return Err(fault);
                }
                Ok(false)
            }
            Statement::If {
                line,
                condition,
                first,
            } => self.when(context, *line, condition, first),
            Statement::IfElse {
                line,
                condition,
                first,
                second,
            } => self.either(context, *line, condition, first, second),
            Statement::Repeat { line, times, body } => self.repeat(context, *line, *times, body),
            Statement::Forever { line, body } => self.forever(context, *line, body),
            Statement::Apply { block, .. } => {
                let number = usize::from(block.get());
                if number >= context.blocks.len() {
                    return Ok(true);
                }
                if context.facts[number].emits_nothing {
                    return Ok(true);
                }
                let inner = Context {
                    blocks: &context.blocks[..number],
                    facts: &context.facts[..number],
                    ..context
                };
                self.block(inner, &context.blocks[number])
            }
        }
    }

    /// Compiles an `if` without `else`.
    #[cycle(work)]
    fn when(
        &mut self,
        context: Context,
        line: u16,
        condition: &Condition,
        first: &[Statement],
    ) -> Result<bool, CompileFault>
        requires { CanCompile context self.old }
        ensures { (rest : Block) → Compiles context.entry
            (when line condition.now (block_in context.entry first.now) rest) rest
            self.old self.new result }
    {
        let at = self.len();
        if let Err(fault) = self.fork_if(line, context.counters, *condition) {
            return Err(fault);
        }
        let falls = match self.block(context, first) {
            Ok(falls) => falls,
            Err(fault) => return Err(fault),
        };
        self.close_if(falls, line, *condition, at)
    }

    /// Compiles an `if` with `else`.
    #[cycle(work)]
    fn either(
        &mut self,
        context: Context,
        line: u16,
        condition: &Condition,
        first: &[Statement],
        second: &[Statement],
    ) -> Result<bool, CompileFault>
        requires { CanCompile context self.old }
        ensures { (rest : Block) → Compiles context.entry
            (either line condition.now (block_in context.entry first.now)
            (block_in context.entry second.now) rest) rest self.old self.new result }
    {
        let at = self.len();
        if let Err(fault) = self.fork_if(line, context.counters, *condition) {
            return Err(fault);
        }
        let first_falls = match self.block(context, first) {
            Ok(falls) => falls,
            Err(fault) => return Err(fault),
        };
        let jump = self.len();
        if let Err(fault) = self.start_else(first_falls, line, context.counters, *condition, at) {
            return Err(fault);
        }
        let second_falls = match self.block(context, second) {
            Ok(falls) => falls,
            Err(fault) => return Err(fault),
        };
        self.close_else(first_falls, second_falls, line, jump)
    }

    /// Compiles a `repeat`, a loop of this many iterations.
    #[cycle(work)]
    fn repeat(
        &mut self,
        context: Context,
        line: u16,
        times: Times,
        body: &[Statement],
    ) -> Result<bool, CompileFault>
        requires { CanCompile context self.old }
        ensures { (rest : Block) → Compiles context.entry
            (repeat line times (block_in context.entry body.now) rest) rest
            self.old self.new result }
    {
        let Some(counter) = CounterId::new(context.counters) else {
            return Err(CompileFault::Limit {
                line,
                limit: CodeLimit::Counters,
            });
        };
        self.put(line, context.counters, Instr::Set { counter, times })?;
        let target = self.len() as u16;
        self.enter(all_fall(context.facts, body), line)?;
        let inner = Context {
            counters: context.counters + 1,
            ..context
        };
        let falls = self.block(inner, body)?;
        let back = Instr::Loop { counter, target };
        self.close_loop(falls, line, inner.counters, back)?;
        Ok(falls)
    }

    /// Compiles a `forever`, an endless loop.
    #[cycle(work)]
    fn forever(
        &mut self,
        context: Context,
        line: u16,
        body: &[Statement],
    ) -> Result<bool, CompileFault>
        requires { CanCompile context self.old }
        ensures { (rest : Block) → Compiles context.entry
            (forever line (block_in context.entry body.now) rest) rest
            self.old self.new result }
    {
        let target = self.len() as u16;
        if let Err(fault) = self.enter(all_fall(context.facts, body), line) {
            return Err(fault);
        }
        let falls = match self.block(context, body) {
            Ok(falls) => falls,
            Err(fault) => return Err(fault),
        };
        if let Err(fault) = self.close_loop(falls, line, context.counters, Instr::Jump(target)) {
            return Err(fault);
        }
        Ok(false)
    }
}
