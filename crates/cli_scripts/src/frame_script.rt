//! `dabplan frame --script`: prints one frame of the initial configuration of a script or a
//! schedule.

ghost use Rattle.std.specs.Prelude.{◌≡◌, ◌≢◌, ◌<◌, ℕ, List, codes, take, true, IfErr, IfOk, IfSome};
ghost use Rattle.std.specs.Io.KnownBytes.{Appends};
ghost use Rattle.mux_types.specs.declared.limits.TheConstants.{COUNTS};
ghost use Rattle.mux_types.specs.Configuration.{nothing};
ghost use Rattle.plan_code.specs.Program.{IsPlan};
ghost use Rattle.script_config.specs.Items.{made_by};
ghost use Rattle.cli_scripts.specs.ScriptFrame.{GivesFrame, IsFrameReason, frame_of_made};
ghost use Rattle.cli_scripts.specs.Success.{FramesScript, count_of};
ghost use Rattle.cli_scripts.specs.declared.frame_script.ScriptFrameFault.TheVariants.{Memory as Unavailable};

use crate::compile::ScriptRefusal;
use crate::explained::{Explanation, explain_script};
use crate::script_file::{read_script_input, script_text};
use cli_streams::frame::{FrameFault, page_of, print_frame};
use console::exit::{Failure, Status};
use console::files::Files;
use fib_codec::FibFrame;
use mux_config::{Ensemble, soundness};
use plan_code::Plan;
use plan_verifier::Cause;
use schedule_front::{Source, parse_source};
use script_compiler::CompileFault;
use script_config::{ItemFault, made_by};
use script_front::{Item, ScriptFault};
use std::alloc::Global;
use std::io::Write;
use thiserror::Error;

/// The last CIF count; the command line refuses a higher one.
const LAST_COUNT: u16 = 4999;

/// The arguments of `frame --script`.
#[derive(Clone, Copy)]
pub struct FrameScriptRequest<'a> {
    /// The path of the script, or `-` for standard input.
    pub script: &'a str,
    /// The CIF count, 0 to 4999.
    pub count: u16,
    /// The page number, from 0.
    pub page: u16,
    /// Whether the FIBs are written as bytes rather than as digits.
    pub raw: bool,
    /// Where the refusal of the script is explained.
    pub explanation: Explanation,
}

/// Why a script gives no frame, in the order in which [`frame_of_script`] tests. Its text is the
/// line that is printed.
#[derive(Clone, Copy, Debug, Error)]
pub enum ScriptFrameFault {
    /// The text is neither a script nor a schedule.
    #[error("{0}")]
    Script(ScriptFault),
    /// An item of the script has a fault.
    #[error("{0}")]
    Item(ItemFault),
    /// The initial configuration is not sound, or has no page of this number.
    #[error("{0}")]
    Frame(FrameFault),
    /// Out of memory.
    #[error("no memory")]
    Memory,
}

/// Runs `frame --script`: prints the FIBs of the frame, or why there is none.
///
/// `Read` if the script can't be read, or is not UTF-8, or `Memory` if out of memory: nothing is
/// printed then. `Output` if `out` fails: it has taken a part, from the first byte on.
pub fn show_script_frame<'a, F: Files, W: Write>(
    alloc: Global,
    request: &FrameScriptRequest<'a>,
    files: &mut F,
    out: &mut W,
) -> Result<Status, Failure<'a>>
    ensures input { IfOk result (λ status. request.now.script.now ≡ codes "-"
        → IfSome (F.known_input files.old) (λ script. FramesScript script request.now
        (Appends (W.contents out.old) (W.contents out.new)) status)) }
    ensures file { IfOk result (λ status. request.now.script.now ≢ codes "-"
        → IfSome (F.known files.old request.now.script.now) (λ script. FramesScript script
        request.now (Appends (W.contents out.old) (W.contents out.new)) status)) }
{
    let bytes = read_script_input(alloc, files, request.script)?;
    show_frame_of(alloc, request, bytes.as_slice(), files, out)
}

/// The same for the first bytes of the script's file, which are all that was read of it.
fn show_frame_of<'a, F: Files, W: Write>(
    alloc: Global,
    request: &FrameScriptRequest<'a>,
    bytes: &[u8],
    files: &mut F,
    out: &mut W,
) -> Result<Status, Failure<'a>>
    ensures { IfOk result (λ status. (file : List ℕ) → bytes.now ≡ take 1048581 file
        → FramesScript file request.now
        (Appends (W.contents out.old) (W.contents out.new)) status) }
{
    let text = script_text(bytes, request.script)?;
    match frame_of_script(alloc, text, count_of(request), request.page) {
        Ok(frame) => {
            print_frame(&frame, request.raw, out)?;
            Ok(Status::Done)
        }
        Err(ScriptFrameFault::Memory) => Err(Failure::Memory),
        Err(fault) => {
            writeln!(out, "{fault}")?;
            let explanation = request.explanation.of_product();
            let refusal = refusal_of(fault);
            explain_script(
                alloc,
                request.script,
                text,
                refusal,
                explanation,
                files,
                out,
            )?;
            Ok(Status::Refused)
        }
    }
}

/// The refusal by `compile` of a script that gives no frame for this reason; `Memory` where there
/// is none.
fn refusal_of(fault: ScriptFrameFault) -> ScriptRefusal {
    match fault {
        ScriptFrameFault::Script(fault) => ScriptRefusal::Script(fault),
        ScriptFrameFault::Item(item) => ScriptRefusal::Plan(CompileFault::Refused {
            line: item.line,
            cause: Cause::Edit(item.fault),
        }),
        ScriptFrameFault::Frame(_) | ScriptFrameFault::Memory => ScriptRefusal::Memory,
    }
}

/// The count of the request; one out of range, which the command line refuses, becomes the last.
fn count_of(request: &FrameScriptRequest<'_>) -> u16
    ensures value { result ≡ count_of request.now }
    ensures range { result < COUNTS }
{
    if request.count <= LAST_COUNT {
        request.count
    } else {
        LAST_COUNT
    }
}

/// The FIBs of page `index` of the initial configuration of a script or a schedule, in its mode,
/// with FIG 0/0 of its ensemble if the count is a multiple of the mode's step: 4, 1, 1 or 2
/// (EN 300 401 clauses 5.1 and 6.4). Its blocks and statements, or its overlays, are only parsed.
///
/// Returns the first fault in the order of [`ScriptFrameFault`].
pub fn frame_of_script(
    alloc: Global,
    text: &str,
    count: u16,
    index: u16,
) -> Result<FibFrame, ScriptFrameFault>
    requires { count < COUNTS }
    ensures gives { GivesFrame text.now count index result }
    ensures reason { IfErr result (λ fault. fault ≢ Unavailable → IsFrameReason fault) }
{
    match parse_source(alloc, text) {
        Ok(Source::Steps(script)) => frame_of_items(script.header(), script.items(), count, index),
        Ok(Source::Schedule(schedule)) => {
            frame_of_items(schedule.header(), schedule.items(), count, index)
        }
        Err(ScriptFault::Memory) => Err(ScriptFrameFault::Memory),
        Err(fault) => Err(ScriptFrameFault::Script(fault)),
    }
}

/// The FIBs of page `index` of the configuration that these items make, as `frame_of_script` says.
///
/// `Item` or `Frame`.
fn frame_of_items(
    header: Plan,
    items: &[Item],
    count: u16,
    index: u16,
) -> Result<FibFrame, ScriptFrameFault>
    requires plan { IsPlan header }
    requires count { count < COUNTS }
    ensures frame { frame_of_made header count index (made_by items.now nothing) ≡ result }
    ensures reason { IfErr result IsFrameReason }
{
    let config = match made_by(items) {
        Ok(config) => config,
        Err(fault) => return Err(ScriptFrameFault::Item(fault)),
    };
    if let Err(fault) = soundness(&config) {
        return Err(ScriptFrameFault::Frame(FrameFault::Unsound(fault)));
    }
    let ensemble = Ensemble::new(header.eid, 0, false, count, None).unwrap();
    match page_of(&config, header.layout, ensemble, index) {
        Ok(frame) => Ok(frame),
        Err(fault) => Err(ScriptFrameFault::Frame(fault)),
    }
}
