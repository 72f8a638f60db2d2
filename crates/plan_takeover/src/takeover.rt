//! Puts the instructions that lead to a plan before its code.

ghost use Rattle.std.specs.Prelude.{◌≡◌, ◌+◌, ◌≤◌, ◌<◌, ◌++◌, ◌∷◌, [], IfOk, IfErr, length};
ghost use Rattle.std.specs.Prelude.{map, min, slice_index};
ghost use Rattle.std.specs.List.{AllByRecursion};
ghost use Rattle.plan_takeover.specs.Takeover.{IsTakeover, beginning, leading, moved_label};
ghost use Rattle.plan_takeover.specs.Refusals.{IsBegunBy, IsExceeded, IsLimit, IsNear, IsPriced};
ghost use Rattle.plan_takeover.specs.Refusals.{IsTakeoverCode, IsTakeoverRefused};

use crate::leading::leading;
use crate::moving::{append_labels, append_moved, too_many};
use mux_config::{Config, Store};
use mux_tables::Tables;
use plan_code::limits::MOST_CONFIGURATIONS;
use plan_code::{Code, Counters, Label, Line, Swap};
use plan_verifier::{Cause, Verified, verify};
use script_compiler::needs::needs;
use script_compiler::{CodeLimit, CompileFault};
use std::alloc::{AllocError, Global};

/// Copies of these configurations, and behind them one more.
#[tactic(auto, using(crate::proofs::Sequences::one_copied))]
fn table(alloc: Global, configs: &[Config], more: &Config) -> Result<Vec<Config>, AllocError>
    ensures { IfOk result (λ v. v.items ≡ configs.now ++ more.now ∷ []) }
{
    let mut table = Vec::new(alloc);
    for config in configs {
        let mut copy = Config::empty();
        copy.copy_from(config);
        table.push(copy)?;
    }
    let mut copy = Config::empty();
    copy.copy_from(more);
    table.push(copy)?;
    Ok(table)
}

/// The first of these needs; 255 if it is greater.
fn first_need(needs: &[u16]) -> u8
    ensures { result ≡ min 255 (slice_index needs.now 0) }
{
    match needs.first() {
        Some(need) => u8::try_from(*need).unwrap_or(u8::MAX),
        None => 0,
    }
}

/// The most instructions that run from the first one on in one frame; more than the budget where
/// more can run there.
fn first_cost(alloc: Global, lines: &[Line], budget: u8) -> Result<u8, AllocError>
    requires few { length lines.now ≤ 4096 }
    requires some { 1 ≤ length lines.now }
    ensures priced { IfOk result (IsPriced budget lines.now) }
    ensures from { IfOk result (λ cost. 1 ≤ cost) }
    ensures to { IfOk result (λ cost. cost ≤ 255) }
{
    let needs = needs(alloc, lines, budget)?;
    Ok(first_need(needs.as_slice()))
}

/// The label with which a code begins, where this configuration of the table is on air.
fn beginning(alloc: Global, config: u16, cost: u8) -> Result<Vec<Label>, AllocError>
    ensures { IfOk result (λ v. v.items ≡ beginning config cost ∷ []) }
{
    let mut labels = Vec::new(alloc);
    labels.push(Label {
        pc: 0,
        cur: config,
        next: config,
        pending: Swap::Idle,
        counters: Counters(0),
        cost,
    })?;
    Ok(labels)
}

/// The labels of a code that takes over, with this cost of the first one, where so many
/// instructions lead to the plan.
///
/// `Limit` where there are too many of them, or of configurations; `Memory`.
fn labels_of(
    alloc: Global,
    code: &Code,
    by: u16,
    line: u16,
    cost: u8,
) -> Result<Vec<Label>, CompileFault>
    ensures labels { IfOk result (λ v. v.items
        ≡ beginning (length code.now.configurations) cost
        ∷ map (moved_label by) code.now.labels) }
    ensures few { IfOk result (λ v. 1 + length code.now.labels ≤ 1024) }
    ensures near { IfOk result (λ v. AllByRecursion (IsNear by) code.now.labels) }
    ensures table { IfOk result (λ v. length code.now.configurations < 256) }
    ensures limits { IfErr result (IsLimit (IsExceeded by code.now)) }
{
    let index = code.configs().len();
    if index >= usize::from(MOST_CONFIGURATIONS) {
        let limit = CodeLimit::Configurations;
        return Err(CompileFault::Limit { line, limit });
    }
    let mut labels = beginning(alloc, index as u16, cost)?;
    match append_labels(&mut labels, by, line, code.labels()) {
        Ok(()) => Ok(labels),
        Err(fault) => Err(fault),
    }
}

/// The code of these instructions, of which so many lead to the plan: its table is that of the
/// plan, with the configuration on air behind it.
///
/// `Limit` where there are too many labels or configurations; `Memory`.
fn begun_by(
    alloc: Global,
    code: &Code,
    on_air: &Config,
    line: u16,
    by: u16,
    lines: Vec<Line>,
) -> Result<Code, CompileFault>
    requires leads { 1 ≤ by }
    requires some { by ≤ length lines.items }
    requires few { length lines.items ≤ 4096 }
    ensures begun { IfOk result (IsBegunBy by lines.items code.now on_air.now) }
    ensures limits { IfErr result (IsLimit (IsExceeded by code.now)) }
{
    let plan = code.plan();
    let cost = first_cost(alloc, lines.as_slice(), plan.budget)?;
    let labels = match labels_of(alloc, code, by, line, cost) {
        Ok(labels) => labels,
        Err(fault) => return Err(fault),
    };
    let table = table(alloc, code.configs(), on_air)?;
    match Code::new(plan, table, labels, lines) {
        Some(made) => Ok(made),
        None => unreachable!(),
    }
}

/// The code that takes over, which may not be accepted.
///
/// `Limit` where it has too many instructions, labels or configurations; `Memory`.
fn code_from(
    alloc: Global,
    code: &Code,
    on_air: &Config,
    opening: &Config,
    line: u16,
) -> Result<Code, CompileFault>
    requires { 2 ≤ code.now.plan.budget }
    ensures code { IfOk result (IsTakeoverCode line code.now on_air.now opening.now) }
    ensures limits { IfErr result (IsLimit (IsExceeded
        (length (leading code.now.plan line on_air.now opening.now)) code.now)) }
{
    let plan = code.plan();
    let mut lines = leading(alloc, plan, line, on_air, opening)?;
    let Ok(by) = u16::try_from(lines.len()) else {
        return Err(too_many(line));
    };
    match append_moved(&mut lines, by, code.lines()) {
        Ok(()) => begun_by(alloc, code, on_air, line, by, lines),
        Err(fault) => Err(fault),
    }
}

/// The code of a plan that takes over from the configuration on air: it leads to `opening`, with
/// which the plan begins, by one reconfiguration with the plan's notice, and from that swap on does
/// what the plan does. The instructions before it have this source line.
///
/// # Errors
///
/// `Refused` where the verifier does not accept it, with the line of the instruction at fault and
/// its cause, and for a budget of 1, in which no edit has room (`Cost`, with this line); `Limit`
/// where it would have more than 4,096 instructions, 1,024 labels or 256 configurations, or a jump
/// or a label past pc 65,535; `Memory`.
pub fn take_over(
    alloc: Global,
    code: &Code,
    on_air: &Config,
    opening: &Config,
    line: u16,
) -> Result<Verified, CompileFault>
    ensures takes { IfOk result (λ v. IsTakeover line code.now on_air.now opening.now v) }
    ensures refused { IfErr result
        (IsTakeoverRefused line code.now on_air.now opening.now) }
{
    if code.plan().budget < 2 {
        let cause = Cause::Cost;
        return Err(CompileFault::Refused { line, cause });
    }
    let made = match code_from(alloc, code, on_air, opening, line) {
        Ok(made) => made,
        Err(fault) => return Err(fault),
    };
    match verify::<Tables>(made) {
        Ok(verified) => Ok(verified),
        Err(refused) => {
            let at = refused.code.line_at(refused.pc);
            Err(CompileFault::Refused {
                line: at.unwrap_or(line),
                cause: refused.cause,
            })
        }
    }
}
