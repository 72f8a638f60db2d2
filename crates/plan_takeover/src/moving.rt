//! The code of a plan, so many instructions further on.

ghost use Rattle.std.specs.Prelude.{◌≡◌, ◌+◌, ◌≤◌, ◌<◌, ◌++◌, length, map, IfErr, IfNone};
ghost use Rattle.std.specs.Prelude.{IfSome, OnOk};
ghost use Rattle.std.specs.List.{AllByRecursion};
ghost use Rattle.plan_takeover.specs.Refusals.{AreTooMany, AreTooManyLabels, IsLimit, IsNear};
ghost use Rattle.plan_takeover.specs.Refusals.{JumpsTooFar};
ghost use Rattle.plan_takeover.specs.Takeover.{moved, moved_label, moved_line};
ghost use Rattle.script_compiler.specs.declared.fault.CodeLimit.TheVariants.{Instructions, Labels};
ghost use Rattle.script_compiler.specs.declared.fault.CompileFault.TheVariants.{Limit};

use plan_code::limits::{MOST_INSTRUCTIONS, MOST_LABELS};
use plan_code::{Instr, Label, Line};
use script_compiler::{CodeLimit, CompileFault};

/// The instruction with its target so many instructions further on; None where that is past 65,535.
fn moved(instr: Instr, by: u16) -> Option<Instr>
    ensures moved { IfSome result (λ i. i ≡ moved by instr) }
    ensures far { IfNone result (JumpsTooFar by instr) }
{
    Some(match instr {
        Instr::Test { contact, target } => Instr::Test {
            contact,
            target: target.checked_add(by)?,
        },
        Instr::TestTime { from, to, target } => Instr::TestTime {
            from,
            to,
            target: target.checked_add(by)?,
        },
        Instr::Jump(target) => Instr::Jump(target.checked_add(by)?),
        Instr::Loop { counter, target } => Instr::Loop {
            counter,
            target: target.checked_add(by)?,
        },
        Instr::Wait(_)
        | Instr::Until(_)
        | Instr::WaitContact { .. }
        | Instr::WaitAny { .. }
        | Instr::CommitIn(_)
        | Instr::CommitAt(_)
        | Instr::Join
        | Instr::Settle
        | Instr::End
        | Instr::Edit(_)
        | Instr::Set { .. } => instr,
    })
}

/// Appends the instructions of a code, each with its target so many instructions further on, behind
/// as many instructions.
///
/// # Errors
///
/// `Limit` where there are more than 4,096 then, or a target is past 65,535; `Memory`.
#[tactic(auto, using(crate::proofs::Sequences::one_changed))]
pub(crate) fn append_moved(
    lines: &mut Vec<Line>,
    by: u16,
    code: &[Line],
) -> Result<(), CompileFault>
    requires { by ≡ length lines.old.items }
    ensures appended { OnOk result (lines.new.items
        ≡ lines.old.items ++ map (moved_line by) code.now) }
    ensures within { OnOk result (1 ≤ length code.now → by + length code.now ≤ 4096) }
    ensures fault { IfErr result (IsLimit (λ limit. (limit ≡ Instructions)
        × AreTooMany by code.now)) }
{
    for line in code {
        let number = line.number;
        let Some(instr) = moved(line.instr, by) else {
            return Err(too_many(number));
        };
        if lines.len() >= usize::from(MOST_INSTRUCTIONS) {
            return Err(too_many(number));
        }
        if lines.push(Line { number, instr }).is_err() {
            return Err(CompileFault::Memory);
        }
    }
    Ok(())
}

/// That a code has too many instructions.
pub(crate) fn too_many(line: u16) -> CompileFault
    ensures { result ≡ Limit line Instructions }
{
    let limit = CodeLimit::Instructions;
    CompileFault::Limit { line, limit }
}

/// Appends labels, each so many instructions further on, behind the first one.
///
/// # Errors
///
/// `Limit`, with this line, where there are more than 1,024 then, or a pc is past 65,535; `Memory`.
#[tactic(auto, using(crate::proofs::Sequences::one_changed))]
pub(crate) fn append_labels(
    labels: &mut Vec<Label>,
    by: u16,
    line: u16,
    others: &[Label],
) -> Result<(), CompileFault>
    requires { length labels.old.items ≡ 1 }
    ensures appended { OnOk result (labels.new.items
        ≡ labels.old.items ++ map (moved_label by) others.now) }
    ensures within { OnOk result (1 + length others.now ≤ 1024) }
    ensures near { OnOk result (AllByRecursion (IsNear by) others.now) }
    ensures fault { IfErr result (IsLimit (λ limit. (limit ≡ Labels)
        × AreTooManyLabels by others.now)) }
{
    for label in others {
        let Some(pc) = label.pc.checked_add(by) else {
            return Err(too_many_labels(line));
        };
        if labels.len() >= usize::from(MOST_LABELS) {
            return Err(too_many_labels(line));
        }
        if labels.push(Label { pc, ..*label }).is_err() {
            return Err(CompileFault::Memory);
        }
    }
    Ok(())
}

/// That a code has too many labels.
fn too_many_labels(line: u16) -> CompileFault
    ensures { result ≡ Limit line Labels }
{
    let limit = CodeLimit::Labels;
    CompileFault::Limit { line, limit }
}
