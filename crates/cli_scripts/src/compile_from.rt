//! `dabplan compile --from`: compiles a script or a schedule into a code that begins with what is
//! on air.

ghost use Rattle.std.specs.Prelude.{◌≡◌, ◌≢◌, ℕ, List, Ok, codes, take, IfOk, IfSome};
ghost use Rattle.std.specs.Io.KnownBytes.{Appends};
ghost use Rattle.console.specs.World.{Becomes, HasWritten, Stays};
ghost use Rattle.mux_types.specs.Configuration.{nothing};
ghost use Rattle.script_config.specs.Items.{made_by};
ghost use Rattle.script_config.specs.Openings.{IsSoundOpening};
ghost use Rattle.script_front.specs.Denoting.{IsScriptOf};
ghost use Rattle.schedule_front.specs.Denoting.{IsScheduleOf};
ghost use Rattle.cli_scripts.specs.Begun.{Begins, FindsBegun, FindsFrom, IsBegun};

use crate::compile::{
    Compiled, ScriptRefusal, code_of, compiled_of, print_counts, source_of, write_through,
};
use crate::explained::{Explanation, show_script_refusal};
use crate::openings::{opening_in, print_no_opening};
use crate::script_file::{read_script_input, script_text};
use console::exit::{Failure, Status, write_file};
use console::files::Files;
use mux_config::{Config, Store};
use plan_code::Plan;
use plan_takeover::take_over;
use plan_verifier::Cause;
use schedule_compiler::{ScheduleFault, compile_from};
use schedule_front::{Schedule, Source};
use script_compiler::CompileFault;
use script_config::{ItemFault, Opening, made_by};
use script_front::Script;
use std::alloc::Global;
use std::io::Write;

/// The arguments of `compile` with `--from`.
#[derive(Clone, Copy)]
pub struct CompileFromRequest<'a> {
    /// The path of the script or the schedule; standard input if it is `-`.
    pub script: &'a str,
    /// The path of the code file to write.
    pub out: &'a str,
    /// The path of the script whose items are what is on air.
    pub on_air: &'a str,
    /// Where a refusal is explained.
    pub explanation: Explanation,
}

/// Runs `compile --from`: writes the code file of the script or the schedule, which begins with the
/// configuration that the items of NOW make, and prints the numbers of instructions, labels and
/// configurations; or prints why NOW or SCRIPT is refused, and explains it. The file is written
/// last, and as a whole.
///
/// The failures are those of `compile`.
pub fn show_compile_from<'a, F: Files, W: Write>(
    alloc: Global,
    request: &CompileFromRequest<'a>,
    files: &mut F,
    out: &mut W,
) -> Result<Status, Failure<'a>>
    ensures input { request.now.script.now ≡ codes "-" → IfOk result (λ status.
        IfSome (F.known_input files.old) (λ script.
        IfSome (F.known files.old request.now.on_air.now) (λ now. Begins script now
        (λ file. Becomes (HasWritten request.now.out.now file)
        (F.world files.old) (F.world files.new)) status))) }
    ensures file { request.now.script.now ≢ codes "-" → IfOk result (λ status.
        IfSome (F.known files.old request.now.script.now) (λ script.
        IfSome (F.known files.old request.now.on_air.now) (λ now. Begins script now
        (λ file. Becomes (HasWritten request.now.out.now file)
        (F.world files.old) (F.world files.new)) status))) }
{
    let explanation = request.explanation;
    let Some(compiled) = begun(alloc, request, explanation, files, out)? else {
        return Ok(Status::Refused);
    };
    write_file(files, request.out, compiled.file.as_slice())?;
    print_counts(&compiled, out)?;
    Ok(Status::Done)
}

/// Runs `compile --from` with standard output in place of the file: the code file goes to `out`,
/// and the lines to `lines`. No file is changed.
pub fn stream_compile_from<'a, F: Files, W: Write, L: Write>(
    alloc: Global,
    request: &CompileFromRequest<'a>,
    files: &mut F,
    out: &mut W,
    lines: &mut L,
) -> Result<Status, Failure<'a>>
    ensures input { request.now.script.now ≡ codes "-" → IfOk result (λ status.
        IfSome (F.known_input files.old) (λ script.
        IfSome (F.known files.old request.now.on_air.now) (λ now. Begins script now
        (Appends (W.contents out.old) (W.contents out.new)) status))) }
    ensures file { request.now.script.now ≢ codes "-" → IfOk result (λ status.
        IfSome (F.known files.old request.now.script.now) (λ script.
        IfSome (F.known files.old request.now.on_air.now) (λ now. Begins script now
        (Appends (W.contents out.old) (W.contents out.new)) status))) }
{
    let explanation = request.explanation.of_product();
    let Some(compiled) = begun(alloc, request, explanation, files, lines)? else {
        return Ok(Status::Refused);
    };
    match write_through(compiled.file.as_slice(), out) {
        Ok(()) => {}
        Err(_) => return Err(Failure::Create(request.out)),
    }
    print_counts(&compiled, lines)?;
    Ok(Status::Done)
}

/// The compiled script of the request; `None` after printing why there is none. No file is changed.
fn begun<'a, F: Files, W: Write>(
    alloc: Global,
    request: &CompileFromRequest<'a>,
    explanation: Explanation,
    files: &mut F,
    out: &mut W,
) -> Result<Option<Compiled>, Failure<'a>>
    ensures input { request.now.script.now ≡ codes "-" → IfOk result (λ found.
        IfSome (F.known_input files.old) (λ script.
        IfSome (F.known files.old request.now.on_air.now) (λ now. FindsFrom script now found))) }
    ensures file { request.now.script.now ≢ codes "-" → IfOk result (λ found.
        IfSome (F.known files.old request.now.script.now) (λ script.
        IfSome (F.known files.old request.now.on_air.now) (λ now. FindsFrom script now found))) }
    ensures world { Stays (F.world files.old) (F.world files.new) }
{
    let bytes = read_script_input(alloc, files, request.script)?;
    match opening_in(alloc, files, request.on_air)? {
        Ok(on_air) => begun_with(
            alloc,
            request,
            bytes.as_slice(),
            &on_air,
            explanation,
            files,
            out,
        ),
        Err(none) => {
            print_no_opening(alloc, request.on_air, &none, explanation, files, out)?;
            Ok(None)
        }
    }
}

/// The same for the first bytes of the script's file, which are all that was read of it, and for
/// what is on air.
fn begun_with<'a, F: Files, W: Write>(
    alloc: Global,
    request: &CompileFromRequest<'a>,
    bytes: &[u8],
    on_air: &Opening,
    explanation: Explanation,
    files: &mut F,
    out: &mut W,
) -> Result<Option<Compiled>, Failure<'a>>
    requires { IsSoundOpening on_air.now }
    ensures found { IfOk result (λ found. (file : List ℕ) → bytes.now ≡ take 1048581 file
        → FindsBegun file on_air.now.config found) }
    ensures world { Stays (F.world files.old) (F.world files.new) }
{
    let path = request.script;
    let text = script_text(bytes, path)?;
    let refusal = match compiled_from(alloc, text, on_air) {
        Ok(compiled) => return Ok(Some(compiled)),
        Err(refusal) => refusal,
    };
    match refusal {
        FromRefusal::Script(ScriptRefusal::Memory) => Err(Failure::Memory),
        FromRefusal::Script(refusal) => {
            show_script_refusal(alloc, path, text, refusal, explanation, files, out)?;
            Ok(None)
        }
        FromRefusal::OtherEnsemble => {
            writeln!(out, "refused: another ensemble")?;
            Ok(None)
        }
    }
}

/// Why a plan can't begin with what is on air.
#[derive(Clone, Copy, Debug)]
enum FromRefusal {
    /// The script is refused.
    Script(ScriptRefusal),
    /// The script is of another ensemble, or of another transmission mode.
    OtherEnsemble,
}

/// The code file of the script or the schedule of a text, which begins with what is on air.
fn compiled_from(alloc: Global, text: &str, on_air: &Opening) -> Result<Compiled, FromRefusal>
    ensures { IfOk result (IsBegun text.now on_air.now.config) }
{
    match source_of(alloc, text) {
        Ok(Source::Steps(script)) => {
            if is_other_ensemble(script.header(), on_air.header) {
                return Err(FromRefusal::OtherEnsemble);
            }
            match steps_from(alloc, text, &script, &on_air.config) {
                Ok(compiled) => Ok(compiled),
                Err(refusal) => Err(FromRefusal::Script(refusal)),
            }
        }
        Ok(Source::Schedule(schedule)) => {
            if is_other_ensemble(schedule.header(), on_air.header) {
                return Err(FromRefusal::OtherEnsemble);
            }
            match schedule_from(alloc, text, &schedule, &on_air.config) {
                Ok(compiled) => Ok(compiled),
                Err(refusal) => Err(FromRefusal::Script(refusal)),
            }
        }
        Err(refusal) => Err(FromRefusal::Script(refusal)),
    }
}

/// Whether a plan is of another ensemble than what is on air, or of another transmission mode.
fn is_other_ensemble(plan: Plan, on_air: Plan) -> bool {
    plan.eid != on_air.eid || plan.layout.mode() != on_air.layout.mode()
}

/// The configuration of the items of a script.
fn items_of(script: &Script) -> Result<Config, ScriptRefusal>
    ensures { IfOk result (λ c. made_by script.now.items nothing ≡ Ok c) }
{
    match made_by(script.items()) {
        Ok(config) => Ok(config),
        Err(ItemFault { line, fault }) => {
            let cause = Cause::Edit(fault);
            Err(ScriptRefusal::Plan(CompileFault::Refused { line, cause }))
        }
    }
}

/// The code file of a script of steps that begins with what is on air: that of the script where
/// this is the configuration of its items, and else one that leads there first.
#[tactic(auto, using(crate::proofs::Beginning::kept, crate::proofs::Beginning::led))]
fn steps_from(
    alloc: Global,
    text: &str,
    script: &Script,
    on_air: &Config,
) -> Result<Compiled, ScriptRefusal>
    requires { IsScriptOf text.now script.now }
    ensures { IfOk result (IsBegun text.now on_air.now) }
{
    let code = code_of(alloc, text, script)?;
    let items = items_of(script)?;
    if items.same(on_air) {
        return Ok(compiled_of(alloc, &code)?);
    }
    match take_over(alloc, &code, on_air, &items, script.begin_line()) {
        Ok(verified) => Ok(compiled_of(alloc, verified.code())?),
        Err(CompileFault::Memory) => Err(ScriptRefusal::Memory),
        Err(fault) => Err(ScriptRefusal::Plan(fault)),
    }
}

/// The code file of a schedule that begins with what is on air.
#[tactic(auto, using(crate::proofs::Beginning::scheduled))]
fn schedule_from(
    alloc: Global,
    text: &str,
    schedule: &Schedule,
    on_air: &Config,
) -> Result<Compiled, ScriptRefusal>
    requires { IsScheduleOf text.now schedule.now }
    ensures { IfOk result (IsBegun text.now on_air.now) }
{
    schedule.header();
    match compile_from(alloc, schedule, on_air) {
        Ok(verified) => Ok(compiled_of(alloc, verified.code())?),
        Err(ScheduleFault::Memory) => Err(ScriptRefusal::Memory),
        Err(fault) => Err(ScriptRefusal::Schedule(fault)),
    }
}
