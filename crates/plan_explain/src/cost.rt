//! Explains budgets that are too small, and costs that no budget allows.

ghost use Rattle.std.specs.Prelude.{IfOk, IfSome};
ghost use Rattle.script_compiler.specs.Compiled.{placed_instrs, lines_of_placed};
ghost use Rattle.script_compiler.specs.FrameCosts.{IsFrameCost};

use crate::note::Note;
use crate::source::Source;
use crate::trier::Trier;
use script_compiler::{CompileFault, FrameCost, LongestPath, frame_cost};
use script_front::Script;
use std::alloc::{AllocError, Global};
use std::io::{self, Write};

/// How many instructions of a script's code can run in one frame; none if the script is refused
/// before its costs.
fn cost_of(alloc: Global, script: &Script) -> Result<Option<FrameCost>, AllocError>
    ensures { IfOk result (λ cost. IfSome cost
        (IsFrameCost (lines_of_placed (placed_instrs script.now)))) }
{
    match frame_cost(alloc, script) {
        Ok(cost) => Ok(Some(cost)),
        Err(CompileFault::Memory) => Err(AllocError),
        Err(CompileFault::Refused { .. }) => Ok(None),
        Err(CompileFault::Limit { .. }) => Ok(None),
    }
}

/// Explains a path that is longer than the budget; the correction is the least budget that is
/// enough.
fn explain_path(
    trier: &mut Trier,
    path: LongestPath,
    budget: u8,
    note: &mut Note,
) -> io::Result<()> {
    let LongestPath {
        instructions,
        first,
        last,
    } = path;
    write!(
        &mut note.text,
        "the longest path runs {instructions} instructions in one frame, from line {first} to line \
         {last}; the budget is {budget}"
    )?;
    let new = format!(in trier.alloc; "budget {instructions}")?;
    let spot = trier.header_spot("budget", budget)?;
    trier.write_at(spot, new.as_str())?;
    write!(
        &mut trier.advice,
        "a budget of {instructions}, or a 'wait 1' between line {first} and line {last}"
    )
}

/// Explains a loop that begins in this line and can repeat without a wait; the correction is a wait
/// in it.
fn explain_repeated(trier: &mut Trier, first: u16, note: &mut Note) -> io::Result<()> {
    let Some(braces) = trier.braces_of(first, "repeat", "forever") else {
        write!(
            &mut note.text,
            "a loop that begins in line {first} can repeat without a wait, so that its \
             instructions in one frame have no bound"
        )?;
        return write!(
            &mut trier.advice,
            "a 'wait 1' on each path through the loops that begin in line {first}"
        );
    };
    let last = braces.last.line;
    if trier.source.word(braces.first.index) == "repeat" {
        write!(
            &mut note.text,
            "an iteration of the loop of lines {first} to {last} can run without a wait: that is \
             refused, however few iterations it has"
        )?;
    } else {
        write!(
            &mut note.text,
            "the loop of lines {first} to {last} can repeat without a wait, so that its \
             instructions in one frame have no bound"
        )?;
    }
    trier.put_at(Some(braces.last), "wait 1")?;
    let brace = Source::new(trier.alloc, "{")?;
    let open = trier.source.first_after(braces.first.index, &brace);
    let spot = open.and_then(|open| trier.source.spot(open.index.saturating_add(1), 1));
    trier.put_at(spot, "wait 1")?;
    write!(
        &mut trier.advice,
        "a 'wait 1' in lines {first} to {last}, on each path through the loop"
    )
}

/// Explains why a script costs more than its budget.
pub(crate) fn explain_cost(trier: &mut Trier, script: &Script, note: &mut Note) -> io::Result<()> {
    let budget = script.header().budget;
    match cost_of(trier.alloc, script)? {
        Some(FrameCost::Most(path)) => explain_path(trier, path, budget, note),
        Some(FrameCost::Repeats { line }) => explain_repeated(trier, line, note),
        Some(FrameCost::Beyond { line }) => {
            write!(
                &mut note.text,
                "from line {line} on more than 255 instructions can run in one frame, which no \
                 budget allows; the budget is {budget}"
            )?;
            write!(
                &mut trier.advice,
                "a 'wait 1' among the statements from line {line} on"
            )
        }
        None => write!(&mut note.text, "the plan is refused here"),
    }
}
