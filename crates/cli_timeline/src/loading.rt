//! Loading a plan from its code file or from its script.

ghost use Rattle.schedule_front.specs.Denoting.{IsScheduleOf};
ghost use Rattle.script_front.specs.Denoting.{IsScriptOf};

use cli_scripts::compile::{ScriptRefusal, code_of, source_of, verified_of};
use cli_scripts::explained::{Explanation, show_script_refusal};
use cli_scripts::script_file::{text_of, whole_characters};
use console::exit::{Failure, read_input};
use console::files::Files;
use mux_tables::Tables;
use plan_code::CodeFault;
use plan_session::{RunFault, typed_code};
use plan_verifier::{Verified, verify};
use schedule_front::{Schedule, Source};
use script_front::Script;
use std::alloc::Global;
use std::io::Write;

/// More bytes than any code file or script has.
const MOST_BYTES: usize = 1_048_581;

/// The plan in the file of this path, which is a code file or a script, or standard input for `-`;
/// `None` after printing why it is refused. A file that begins as code files do is one.
pub(crate) fn load_plan<'a, F: Files, W: Write>(
    alloc: Global,
    path: &'a str,
    explanation: Explanation,
    files: &mut F,
    out: &mut W,
) -> Result<Option<Verified>, Failure<'a>> {
    let bytes = read_input(alloc, files, path, MOST_BYTES)?;
    if bytes.as_slice().starts_with(b"DABP") {
        return load_code(alloc, bytes.as_slice(), out);
    }
    let text = text_of(whole_characters(bytes.as_slice()), path)?;
    match compiled(alloc, text) {
        Ok(verified) => Ok(Some(verified)),
        Err(ScriptRefusal::Memory) => Err(Failure::Memory),
        Err(refusal) => {
            show_script_refusal(alloc, path, text, refusal, explanation, files, out)?;
            Ok(None)
        }
    }
}

/// The plan of a code file; `None` after printing why it is refused.
fn load_code<'a, W: Write>(
    alloc: Global,
    bytes: &[u8],
    out: &mut W,
) -> Result<Option<Verified>, Failure<'a>> {
    match typed_code(alloc, bytes) {
        Ok(verified) => Ok(Some(verified)),
        Err(RunFault::Code(CodeFault::Memory)) => Err(Failure::Memory),
        Err(fault) => {
            writeln!(out, "{fault}")?;
            Ok(None)
        }
    }
}

/// The code of a script's text, or why it is refused.
fn compiled(alloc: Global, text: &str) -> Result<Verified, ScriptRefusal> {
    match source_of(alloc, text) {
        Ok(Source::Steps(script)) => compiled_steps(alloc, text, &script),
        Ok(Source::Schedule(schedule)) => compiled_schedule(alloc, text, &schedule),
        Err(refusal) => Err(refusal),
    }
}

/// The code of the script of steps of a text, or why it is refused. What is compiled is typed.
fn compiled_steps(alloc: Global, text: &str, script: &Script) -> Result<Verified, ScriptRefusal>
    requires { IsScriptOf text.now script.now }
{
    let code = match code_of(alloc, text, script) {
        Ok(code) => code,
        Err(refusal) => return Err(refusal),
    };
    match verify::<Tables>(code) {
        Ok(verified) => Ok(verified),
        Err(_refused) => Err(ScriptRefusal::Memory),
    }
}

/// The code of the schedule of a text, or why it is refused.
fn compiled_schedule(
    alloc: Global,
    text: &str,
    schedule: &Schedule,
) -> Result<Verified, ScriptRefusal>
    requires { IsScheduleOf text.now schedule.now }
{
    verified_of(alloc, text, schedule)
}
