//! `dabplan diff`: prints a plan that changes one configuration into another.

ghost use Rattle.std.specs.Prelude.{IfOk, IfErr, IfSome, string_bytes};
ghost use Rattle.std.specs.Io.KnownBytes.{Appends};
ghost use Rattle.script_config.specs.Openings.{IsSoundOpening};
ghost use Rattle.script_config.specs.Refusals.{CanBePlanned};
ghost use Rattle.cli_scripts.specs.Planned.{IsPlanText, IsPlanFault};
ghost use Rattle.cli_scripts.specs.Success.{Diffs, HasPlan};

use crate::explained::Explanation;
use crate::openings::{opening_in, print_no_opening};
use console::escaped::Escaped;
use console::exit::{Failure, Status};
use console::files::Files;
use plan_verifier::Cause;
use script_compiler::{CompileFault, compile};
use script_config::{DiffFault, Opening, fault_between, fits_period, plan_between};
use script_front::print;
use std::alloc::Global;
use std::io::Write;

/// The arguments of `diff`.
#[derive(Clone, Copy)]
pub struct DiffRequest<'a> {
    /// The path of the script with the configuration to start from.
    pub from: &'a str,
    /// The path of the script with the configuration to reach.
    pub to: &'a str,
    /// Where the refusal of a script is explained.
    pub explanation: Explanation,
}

/// Why no plan is printed.
#[derive(Clone, Copy)]
pub enum PlanFault {
    /// No plan changes one opening into the other.
    Between(DiffFault),
    /// The plan is refused: the first configuration is not sound, or the pages of the second one do
    /// not fit its own period.
    Refused(CompileFault),
    /// Out of memory.
    Memory,
}

/// Runs `diff`: prints the plan, or why there is none: all of FROM's refusals come before those of
/// TO, and these before those of the change between them. No file is changed.
///
/// `Read` if a file can't be read, or is not UTF-8; `Output` if `out` fails; `Memory` if out of
/// memory.
pub fn show_diff<'a, F: Files, W: Write>(
    alloc: Global,
    request: &DiffRequest<'a>,
    files: &mut F,
    out: &mut W,
) -> Result<Status, Failure<'a>>
    ensures success { IfOk result (λ status. IfSome (F.known files.old request.now.from.now)
        (λ from. IfSome (F.known files.old request.now.to.now)
        (λ to. Diffs from to (Appends (W.contents out.old) (W.contents out.new)) status))) }
{
    let explanation = request.explanation.of_product();
    let from = match opening_in(alloc, files, request.from)? {
        Ok(opening) => opening,
        Err(none) => {
            return print_no_opening(alloc, request.from, &none, explanation, files, out);
        }
    };
    let to = match opening_in(alloc, files, request.to)? {
        Ok(opening) => opening,
        Err(none) => return print_no_opening(alloc, request.to, &none, explanation, files, out),
    };
    print_plan(alloc, request, &from, &to, out)
}

/// Prints the plan from one opening to the other, or why there is none.
fn print_plan<'a, W: Write>(
    alloc: Global,
    request: &DiffRequest<'a>,
    from: &Opening,
    to: &Opening,
    out: &mut W,
) -> Result<Status, Failure<'a>>
    requires first { IsSoundOpening from.now }
    requires second { IsSoundOpening to.now }
    ensures { IfOk result
        (HasPlan from.now to.now (Appends (W.contents out.old) (W.contents out.new))) }
{
    if !fits_period(to) {
        let path = Escaped::in_line(request.to);
        let line = to.begin_line;
        writeln!(out, "{path}: refused line {line}: {}", Cause::Round)?;
        return Ok(Status::Refused);
    }
    match plan_text(alloc, from, to) {
        Ok(text) => {
            out.write_all(text.as_str().as_bytes())?;
            Ok(Status::Done)
        }
        Err(PlanFault::Memory) => Err(Failure::Memory),
        Err(PlanFault::Between(fault)) => {
            writeln!(out, "{fault}")?;
            Ok(Status::Refused)
        }
        Err(PlanFault::Refused(_fault)) => unreachable!(),
    }
}

/// The text of the plan from one opening to another by one reconfiguration (EN 300 401 clauses 6.4
/// and 6.5). It is compiled, so that its code is known to be typed.
///
/// `Between` if there is no such plan. Of two sound openings, of which the second one fits its own
/// period, the plan is always accepted.
pub fn plan_text(alloc: Global, from: &Opening, to: &Opening) -> Result<String, PlanFault>
    requires { IsSoundOpening to.now }
    ensures plan { IfOk result (λ text. IsPlanText from.now to.now (string_bytes text)) }
    ensures leads { IfOk result (λ text. CanBePlanned from.now to.now) }
    ensures fault { IfErr result (IsPlanFault from.now to.now) }
{
    script_config::laws::transforming();
    from.config.subs();
    to.config.subs();
    if let Some(fault) = fault_between(from, to) {
        return Err(PlanFault::Between(fault));
    }
    let script = match plan_between(alloc, to.header, &from.config, &to.config) {
        Ok(script) => script,
        Err(_) => return Err(PlanFault::Memory),
    };
    match compile(alloc, &script) {
        Ok(_code) => {}
        Err(fault) => match fault {
            CompileFault::Memory => return Err(PlanFault::Memory),
            _ => return Err(PlanFault::Refused(fault)),
        },
    }
    match print(alloc, &script) {
        Ok(text) => Ok(text),
        Err(_) => Err(PlanFault::Memory),
    }
}
