//! Compiles a script: opening, statements, costs, then labels and the table of configurations.

ghost use Rattle.std.specs.Prelude.{◌≡◌, ◌≢◌, ℕ, ◌+◌, ◌<◌, ◌≤◌, [], length, map, slice_get};
ghost use Rattle.std.specs.Prelude.{slice_index, Some, IsOk, IfOk, IfErr};
ghost use Rattle.script_compiler.specs.Costs.{HasCostAt, IsCostRefused};
ghost use Rattle.script_compiler.specs.Longest.{longest};
ghost use Rattle.plan_verifier.specs.Rules.{pages_alone};
ghost use Rattle.script_compiler.specs.Scheme.{all_places, unpriced_labels};
ghost use Rattle.script_compiler.specs.Compiled.{lines_of_placed, body_of, beginning, opening_of};
ghost use Rattle.script_compiler.specs.Compiled.{placed_instrs, instrs_of, nested, AreFine, Tabled};
ghost use Rattle.script_compiler.specs.Compiled.{IsCodeOf, CostsItsNeeds, IsAccepted};
ghost use Rattle.script_compiler.specs.Judged.{IsJudged};
ghost use Rattle.script_compiler.specs.Need.{IsWithinBudget};
ghost use Rattle.mux_config.specs.Configuration.{nothing};
ghost use Rattle.mux_config.specs.Sound.{IsSound};
ghost use Rattle.script_compiler.specs.Emission.{tables, facts_of};
ghost use Rattle.script_compiler.specs.Refused.{IsRefusedIn, IsRefused};
ghost use Rattle.plan_verifier.specs.declared.cause.Cause.TheVariants.{Cost};
ghost use Rattle.script_compiler.specs.Refusals.{IsRefusal, IfRefused, IfLimit};
ghost use Rattle.script_compiler.specs.Space.{Keeps};
ghost use Rattle.script_compiler.specs.Limits.{Passes};
ghost use Rattle.script_compiler.specs.declared.fault.CompileFault.TheVariants.{Memory};
ghost use Rattle.plan_code.specs.Program.{IsProgram};
ghost use Rattle.plan_verifier.specs.Typing.{IsTyped};
ghost use Rattle.script_compiler.specs.Meaning.{PlaysAsItReads};

use crate::context::{BlockFacts, Context};
use crate::cost::costly;
use crate::falls::{all_fall, all_silent};
use crate::fault::CompileFault;
use crate::laws;
use crate::needs::{first_over, needs};
use crate::opening_items::{built, test};
use crate::refusal::refused;
use crate::work::{Emitted, Work};
use mux_config::Config;
use plan_code::{Code, Line, Plan};
use plan_verifier::Cause;
use script_front::{Script, Statement};
use std::alloc::{AllocError, Global};

/// The facts of each block, in order.
fn facts_of(alloc: Global, blocks: &[Vec<Statement>]) -> Result<Vec<BlockFacts>, AllocError>
    ensures { IfOk result (λ v. v.items ≡ map facts_of (tables blocks.now)) }
{
    let mut facts = Vec::new(alloc);
    for block in blocks {
        let reaches_end = all_fall(&facts, block);
        let emits_nothing = all_silent(&facts, block);
        facts.push(BlockFacts {
            reaches_end,
            emits_nothing,
        })?;
    }
    Ok(facts)
}

/// Compiles the statements of a script that begins with this configuration; the labels are still
/// unpriced.
pub(crate) fn emit(
    alloc: Global,
    plan: &Plan,
    script: &Script,
    config: &Config,
) -> Result<Emitted, CompileFault>
    ensures lines { IfOk result (λ w. w.lines.items ≡ lines_of_placed (all_places plan.now
        script.now.last_line (body_of script.now) (beginning config.now))) }
    ensures unpriced { IfOk result (λ w. w.unpriced.items ≡ unpriced_labels 0 (all_places plan.now
        script.now.last_line (body_of script.now) (beginning config.now))) }
    ensures table { IfOk result (λ w. Tabled [] w.unpriced.items w.unpriced.table) }
    ensures room { IfOk result (λ w. length w.lines.items ≤ 4096) }
    ensures labels { IfOk result (λ w. length w.unpriced.items ≤ 1024) }
    ensures configurations { IfOk result (λ w. length w.unpriced.table ≤ 256) }
    ensures judged { IsOk result → IsJudged plan.now (body_of script.now)
        (beginning config.now) }
    ensures repeats { IsOk result → nested (body_of script.now) ≤ 8 }
    ensures refused { IfErr result (λ e. IsRefusal e → IsJudged plan.now (body_of script.now)
        (beginning config.now) → ⊥) }
    ensures why { IfErr result (λ e. IfRefused e (λ at given. IsRefusedIn plan.now
        (body_of script.now) (beginning config.now) at given)) }
    ensures limited { IfErr result (λ e. IfLimit e (λ _ limit. IsJudged plan.now
        (body_of script.now) (beginning config.now) → Keeps limit (nested (body_of script.now))
        (all_places plan.now script.now.last_line (body_of script.now) (beginning config.now))
        → ⊥)) }
{
    let facts = facts_of(alloc, script.blocks())?;
    let mut work = Work::new(alloc, config);
    let context = Context {
        plan,
        blocks: script.blocks(),
        facts: &facts,
        counters: 0,
    };
    let falls = work.block(context, script.statements())?;
    work.close(falls, script.last_line())?;
    Ok(work.into_emitted())
}

/// The line number of an instruction.
pub(crate) fn line_at(lines: &[Line], pc: usize) -> u16
    ensures { (line : Line) → slice_get lines.now pc ≡ Some line → result ≡ line.number }
{
    match lines.get(pc) {
        Some(line) => line.number,
        None => 0,
    }
}

/// Checks that every need is within the budget. Otherwise refuses with `Cost` at the first
/// instruction that closes a loop that can iterate without a suspension, or, if there is none, at
/// the first whose need exceeds the budget.
fn test_costs(alloc: Global, lines: &[Line], needs: &[u16], budget: u8) -> Result<(), CompileFault>
    requires few { length lines.now ≤ 4096 }
    requires needs { (pc : ℕ) → slice_index needs.now pc ≡ longest (instrs_of lines.now)
        (budget + 1) pc }
    ensures within { IsOk result → (pc : ℕ) → slice_index needs.now pc ≤ budget }
    ensures refused { IfErr result (λ e. e ≢ Memory → (pc : ℕ) × (budget
        < slice_index needs.now pc)) }
    ensures why { IfErr result (λ e. IfRefused e (λ at given. given ≡ Cost)) }
    ensures line { IfErr result (λ e. IfRefused e (λ at given. HasCostAt budget lines.now at)) }
    ensures unlimited { IfErr result (λ e. IfLimit e (λ _ _. ⊥)) }
{
    let Some(over) = first_over(needs, budget) else {
        return Ok(());
    };
    let pc = costly(alloc, lines, over)?;
    Err(refused(line_at(lines, pc), Cause::Cost))
}

/// The law of scripts, applied to the code of an accepted script: it is typed and plays as the
/// script reads.
fn promise(script: &Script, code: &Code)
    requires formed { IsProgram code.now }
    requires code { IsCodeOf script.now code.now }
    requires costs { CostsItsNeeds code.now }
    requires accepted { IsAccepted script.now }
    ensures code { IsCodeOf script.now code.now }
    ensures costs { CostsItsNeeds code.now }
    ensures accepted { IsAccepted script.now }
    ensures typed { IsTyped code.now }
    ensures plays { PlaysAsItReads script.now code.now }
{
    laws::scripts();
}

/// Compiles a script. The instructions, lines, labels and table of configurations of the code are
/// those of `IsCodeOf`; each label costs what the code needs from there, the most instructions that
/// can run in one frame; and the code is typed, so the verifier accepts it. It plays as the script
/// reads: from every start in range, over every list of contact changes and frames, the current and
/// the next configuration, the frames until the swap and the CIF count are those that the script's
/// statements result in. Only accepted scripts compile: the items have no fault, the opening that
/// they make is sound and goes out within the period, each statement is valid for what is known
/// before it, repeats are nested at most eight deep, the code is within the limits on instructions,
/// labels and configurations, and no path in it has more instructions than the budget.
///
/// # Errors
///
/// `Refused` with the first fault found in text order: of an item, of the opening (at the line of
/// `begin`), or of a statement; `Table` means that a statement is unreachable. `Limit` names the
/// first limit exceeded while compiling: if every statement is valid, the whole code exceeds that
/// limit. `Memory` if out of memory. Costs are checked last: `Cost` is at the line of the first
/// instruction that closes a loop that can iterate without a suspension, or else of the first
/// instruction from which more instructions than the budget can run in one frame. An accepted
/// script fails only if out of memory.
pub fn compile(alloc: Global, script: &Script) -> Result<Code, CompileFault>
    ensures code { IfOk result (λ c. IsCodeOf script.now c) }
    ensures costs { IfOk result (λ c. CostsItsNeeds c) }
    ensures accepted { IsOk result → IsAccepted script.now }
    ensures made { IsOk result → AreFine script.now.items nothing }
    ensures sound { IsOk result → IsSound (opening_of script.now) }
    ensures within_period { IsOk result → pages_alone script.now.header
        (opening_of script.now) ≤ script.now.header.period }
    ensures within_budget { IsOk result → IsWithinBudget script.now.header.budget
        (instrs_of (lines_of_placed (placed_instrs script.now))) }
    ensures typed { IfOk result (λ c. IsTyped c) }
    ensures plays { IfOk result (λ c. PlaysAsItReads script.now c) }
    ensures refused { IfErr result (λ e. e ≢ Memory → IsAccepted script.now → ⊥) }
    ensures why { IfErr result (λ e. IfRefused e (λ line cause. IsRefused script.now line
        cause)) }
    ensures cost { IfErr result (λ e. IfRefused e (λ line cause. cause ≡ Cost
        → IsCostRefused script.now line)) }
    ensures limit { IfErr result (λ e. IfLimit e (λ _ limit. Passes limit script.now)) }
{
    let plan = script.header();
    let config = built(script.items())?;
    test(&plan, &config, script.begin_line())?;
    let work = emit(alloc, &plan, script, &config)?;
    let costs = needs(alloc, &work.lines, plan.budget)?;
    test_costs(alloc, &work.lines, &costs, plan.budget)?;
    let labels = work.unpriced.labels(alloc, &costs)?;
    let configs = work.unpriced.into_configs(alloc)?;
    match Code::new(plan, configs, labels, work.lines) {
        Some(code) => {
            promise(script, &code);
            Ok(code)
        }
        None => unreachable!(),
    }
}
