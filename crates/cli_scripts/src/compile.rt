//! `dabplan compile`: compiles a script into a code file.

ghost use Rattle.std.specs.Prelude.{◌≡◌, ◌≢◌, ℕ, List, codes, take, IfOk, IfErr, IfSome, OnOk};
ghost use Rattle.std.specs.Io.KnownBytes.{Appends};
ghost use Rattle.console.specs.World.{Becomes, HasWritten, Stays};
ghost use Rattle.cli_scripts.specs.Compiled.{IsFileOf, IsMadeOf, IsScheduledBy, IsUncompiled};
ghost use Rattle.cli_scripts.specs.Compiled.{IsReasonOrMemory};
ghost use Rattle.script_front.specs.Denoting.{IsScriptOf};
ghost use Rattle.schedule_front.specs.Denoting.{IsScheduleOf};
ghost use Rattle.schedule_front.specs.Sources.{IsSourceOf};
ghost use Rattle.cli_scripts.specs.Compiled.{IsCompiled, FindsCompiled};
ghost use Rattle.cli_scripts.specs.Success.{Compiles};

use crate::explained::{Explanation, report_lines, show_script_refusal};
use crate::notes::Notes;
use crate::script_file::{read_script_input, script_text};
use console::exit::{Failure, Status, write_file};
use console::files::Files;
use console::output::write_out;
use plan_code::{Code, encode};
use plan_verifier::Verified;
use schedule_compiler::{ScheduleFault, compile_schedule};
use schedule_front::{Schedule, Source, parse_source};
use script_compiler::{CompileFault, compile};
use script_front::{Script, ScriptFault};
use std::alloc::{AllocError, Global};
use std::io::{self, Write};
use thiserror::Error;

/// The arguments of `compile`.
#[derive(Clone, Copy)]
pub struct CompileRequest<'a> {
    /// The path of the script; standard input if it is `-`.
    pub script: &'a str,
    /// The path of the code file to write.
    pub out: &'a str,
    /// Where a refusal is explained, and whether warnings about an accepted script are reported.
    pub explanation: Explanation,
}

/// A compiled script: its code file, and the numbers of instructions, labels and configurations.
#[derive(Drop)]
pub struct Compiled {
    /// The bytes of the code file.
    pub file: Vec<u8>,
    /// The number of instructions.
    pub instructions: usize,
    /// The number of labels.
    pub labels: usize,
    /// The number of configurations.
    pub configurations: usize,
}

/// An accepted script: its compilation, and the notes on it.
#[derive(Drop)]
pub(crate) struct Found {
    compiled: Compiled,
    notes: Notes,
}

/// Why a script is not compiled. Its text is the line that is printed.
#[derive(Clone, Copy, Debug, Error)]
pub enum ScriptRefusal {
    /// The text is no script: neither of steps nor a schedule.
    #[error("{0}")]
    Script(ScriptFault),
    /// The plan is refused.
    #[error("{0}")]
    Plan(CompileFault),
    /// The schedule is refused.
    #[error("{0}")]
    Schedule(ScheduleFault),
    /// Out of memory.
    #[error("no memory")]
    Memory,
}

impl From<AllocError> for ScriptRefusal {
    ghost use Rattle.std.specs.Prelude.{◌≡◌};
    ghost use Rattle.cli_scripts.specs.declared.compile.ScriptRefusal.TheVariants.{Memory};

    ghost from_gives = { λ _ refusal. refusal ≡ Memory };

    fn from(_error: AllocError) -> Self {
        ScriptRefusal::Memory
    }
}

/// Runs `compile`: writes the code file of the script, and prints the numbers of instructions,
/// labels and configurations; or prints why the script is refused, and explains it. The file is
/// written last, and as a whole, so that a failure leaves it as it was; no other file is changed.
/// At the end the warnings about an accepted script are reported on standard error, unless nothing
/// is to be explained: a line each, or `no memory` if out of memory for them, which changes nothing
/// else.
///
/// `Read` if the script can't be read, or is not UTF-8; `Create` if the file can't be written;
/// `Output` if `out` fails; `Memory` if out of memory.
pub fn show_compile<'a, F: Files, W: Write>(
    alloc: Global,
    request: &CompileRequest<'a>,
    files: &mut F,
    out: &mut W,
) -> Result<Status, Failure<'a>>
    ensures input { request.now.script.now ≡ codes "-" → IfOk result (λ status.
        IfSome (F.known_input files.old) (λ script. Compiles script
        (λ file. Becomes (HasWritten request.now.out.now file)
        (F.world files.old) (F.world files.new)) status)) }
    ensures file { request.now.script.now ≢ codes "-" → IfOk result (λ status.
        IfSome (F.known files.old request.now.script.now) (λ script. Compiles script
        (λ file. Becomes (HasWritten request.now.out.now file)
        (F.world files.old) (F.world files.new)) status)) }
{
    let Some(found) = compile_script(alloc, request, request.explanation, files, out)? else {
        return Ok(Status::Refused);
    };
    write_file(files, request.out, found.compiled.file.as_slice())?;
    print_counts(&found.compiled, out)?;
    report_lines(found.notes.as_slice(), files);
    Ok(Status::Done)
}

/// Runs `compile` with standard output in place of the file: the code file goes to `out`, and the
/// lines to `lines`, the warnings among them. No file is changed.
///
/// The failures are those of [`show_compile`]: `Create` if `out` fails, which may have taken some
/// bytes then, and `Output` if `lines` fails.
pub fn stream_compile<'a, F: Files, W: Write, L: Write>(
    alloc: Global,
    request: &CompileRequest<'a>,
    files: &mut F,
    out: &mut W,
    lines: &mut L,
) -> Result<Status, Failure<'a>>
    ensures input { request.now.script.now ≡ codes "-" → IfOk result (λ status.
        IfSome (F.known_input files.old) (λ script. Compiles script
        (Appends (W.contents out.old) (W.contents out.new)) status)) }
    ensures file { request.now.script.now ≢ codes "-" → IfOk result (λ status.
        IfSome (F.known files.old request.now.script.now) (λ script. Compiles script
        (Appends (W.contents out.old) (W.contents out.new)) status)) }
{
    let explanation = request.explanation.of_product();
    let Some(found) = compile_script(alloc, request, explanation, files, lines)? else {
        return Ok(Status::Refused);
    };
    match write_through(found.compiled.file.as_slice(), out) {
        Ok(()) => {}
        Err(_) => return Err(Failure::Create(request.out)),
    }
    print_counts(&found.compiled, lines)?;
    lines.write_all(found.notes.as_slice())?;
    Ok(Status::Done)
}

/// Writes all bytes, and flushes the writer.
#[tactic(auto, using(crate::proofs::Compiling::all_taken))]
pub(crate) fn write_through<W: Write>(bytes: &[u8], out: &mut W) -> io::Result<()>
    ensures { OnOk result (Appends (W.contents out.old) (W.contents out.new) bytes.now) }
{
    let (_taken, written) = write_out(bytes, out);
    match written {
        Ok(()) => out.flush(),
        Err(error) => Err(error),
    }
}

/// The compiled script of the request, with the notes on it; `None` after printing why it is
/// refused. No file is changed.
fn compile_script<'a, F: Files, W: Write>(
    alloc: Global,
    request: &CompileRequest<'a>,
    explanation: Explanation,
    files: &mut F,
    out: &mut W,
) -> Result<Option<Found>, Failure<'a>>
    ensures input { request.now.script.now ≡ codes "-" → IfOk result (λ found.
        IfSome (F.known_input files.old) (λ script. FindsCompiled script found)) }
    ensures script { request.now.script.now ≢ codes "-" → IfOk result (λ found.
        IfSome (F.known files.old request.now.script.now)
        (λ script. FindsCompiled script found)) }
    ensures files { Stays (F.world files.old) (F.world files.new) }
{
    let bytes = read_script_input(alloc, files, request.script)?;
    compile_bytes(alloc, request, bytes.as_slice(), explanation, files, out)
}

/// The same for the first bytes of the script's file, which are all that was read of it.
fn compile_bytes<'a, F: Files, W: Write>(
    alloc: Global,
    request: &CompileRequest<'a>,
    bytes: &[u8],
    explanation: Explanation,
    files: &mut F,
    out: &mut W,
) -> Result<Option<Found>, Failure<'a>>
    ensures found { IfOk result (λ found. (file : List ℕ) → bytes.now ≡ take 1048581 file
        → FindsCompiled file found) }
    ensures world { Stays (F.world files.old) (F.world files.new) }
{
    let text = script_text(bytes, request.script)?;
    let refusal = match compile_noted(alloc, request, text) {
        Ok(found) => return Ok(Some(found)),
        Err(refusal) => refusal,
    };
    match refusal {
        ScriptRefusal::Memory => Err(Failure::Memory),
        _ => {
            let path = request.script;
            show_script_refusal(alloc, path, text, refusal, explanation, files, out)?;
            Ok(None)
        }
    }
}

/// Compiles the text of the script of the request into a code file, with the notes on it.
///
/// The refusals are those of [`source_of`], [`code_of`] and [`verified_of`].
fn compile_noted(
    alloc: Global,
    request: &CompileRequest<'_>,
    text: &str,
) -> Result<Found, ScriptRefusal>
    ensures found { IfOk result (λ found. IsCompiled text.now found.compiled) }
    ensures refused { IfErr result (IsUncompiled text.now) }
    ensures reason { IfErr result IsReasonOrMemory }
{
    match source_of(alloc, text) {
        Ok(Source::Steps(script)) => compiled_steps(alloc, request, text, &script),
        Ok(Source::Schedule(schedule)) => compiled_schedule(alloc, text, &schedule),
        Err(refusal) => Err(refusal),
    }
}

/// Compiles the script of steps of a text into a code file, with the notes on it.
#[tactic(auto, using(crate::proofs::Compiling::of_steps))]
fn compiled_steps(
    alloc: Global,
    request: &CompileRequest<'_>,
    text: &str,
    script: &Script,
) -> Result<Found, ScriptRefusal>
    requires { IsScriptOf text.now script.now }
    ensures found { IfOk result (λ found. IsCompiled text.now found.compiled) }
    ensures refused { IfErr result (IsUncompiled text.now) }
    ensures reason { IfErr result IsReasonOrMemory }
{
    let code = match code_of(alloc, text, script) {
        Ok(code) => code,
        Err(refusal) => return Err(refusal),
    };
    let compiled = match compiled_of(alloc, &code) {
        Ok(compiled) => compiled,
        Err(_) => return Err(ScriptRefusal::Memory),
    };
    let notes = Notes::on(alloc, request.script, script, &code, request.explanation);
    Ok(Found { compiled, notes })
}

/// Compiles the schedule of a text into a code file, without notes.
#[tactic(auto, using(crate::proofs::Compiling::of_schedule))]
fn compiled_schedule(alloc: Global, text: &str, schedule: &Schedule) -> Result<Found, ScriptRefusal>
    requires { IsScheduleOf text.now schedule.now }
    ensures found { IfOk result (λ found. IsCompiled text.now found.compiled) }
    ensures refused { IfErr result (IsUncompiled text.now) }
    ensures reason { IfErr result IsReasonOrMemory }
{
    let verified = match verified_of(alloc, text, schedule) {
        Ok(verified) => verified,
        Err(refusal) => return Err(refusal),
    };
    match compiled_of(alloc, verified.code()) {
        Ok(compiled) => Ok(Found {
            compiled,
            notes: Notes::Lines(Vec::new(alloc)),
        }),
        Err(_) => Err(ScriptRefusal::Memory),
    }
}

/// The code file of a code, with its numbers. The error is out of memory.
pub(crate) fn compiled_of(alloc: Global, code: &Code) -> Result<Compiled, AllocError>
    ensures { IfOk result (IsFileOf code.now) }
{
    let file = encode(alloc, code)?;
    Ok(Compiled {
        file,
        instructions: code.lines().len(),
        labels: code.labels().len(),
        configurations: code.configs().len(),
    })
}

/// The script of steps or the schedule of a text; `Script` if it is neither, with its first fault,
/// `Memory` if there is not enough.
pub fn source_of(alloc: Global, text: &str) -> Result<Source, ScriptRefusal>
    ensures source { IfOk result (IsSourceOf text.now) }
    ensures refused { IfErr result (IsUncompiled text.now) }
    ensures reason { IfErr result IsReasonOrMemory }
{
    match parse_source(alloc, text) {
        Ok(source) => Ok(source),
        Err(ScriptFault::Memory) => Err(ScriptRefusal::Memory),
        Err(fault) => Err(ScriptRefusal::Script(fault)),
    }
}

/// The code of the script of steps of a text; `Plan` if the plan is refused, `Memory` if there is
/// not enough.
pub fn code_of(alloc: Global, text: &str, script: &Script) -> Result<Code, ScriptRefusal>
    requires { IsScriptOf text.now script.now }
    ensures made { IfOk result (IsMadeOf text.now script.now) }
    ensures refused { IfErr result (IsUncompiled text.now) }
    ensures reason { IfErr result IsReasonOrMemory }
{
    script.header();
    match compile(alloc, script) {
        Ok(code) => Ok(code),
        Err(CompileFault::Memory) => Err(ScriptRefusal::Memory),
        Err(fault) => Err(ScriptRefusal::Plan(fault)),
    }
}

/// The code of the schedule of a text; `Schedule` if it is refused, `Memory` if there is not
/// enough.
pub fn verified_of(
    alloc: Global,
    text: &str,
    schedule: &Schedule,
) -> Result<Verified, ScriptRefusal>
    requires { IsScheduleOf text.now schedule.now }
    ensures made { IfOk result (IsScheduledBy text.now schedule.now) }
    ensures refused { IfErr result (IsUncompiled text.now) }
    ensures reason { IfErr result IsReasonOrMemory }
{
    schedule.header();
    match compile_schedule(alloc, schedule) {
        Ok(verified) => {
            verified.code();
            Ok(verified)
        }
        Err(ScheduleFault::Memory) => Err(ScriptRefusal::Memory),
        Err(fault) => Err(ScriptRefusal::Schedule(fault)),
    }
}

/// Prints the numbers of instructions, labels and configurations.
pub(crate) fn print_counts<W: Write>(compiled: &Compiled, out: &mut W) -> io::Result<()> {
    let instructions = compiled.instructions;
    let labels = compiled.labels;
    let configurations = compiled.configurations;
    writeln!(
        out,
        "instructions {instructions} labels {labels} configurations {configurations}"
    )
}
