//! Parsing schedules, and texts that are a script or a schedule.

ghost use Rattle.std.specs.Prelude.{◌≡◌, ◌≢◌, Some, None, true, false, Ok, IfOk, IfErr};
ghost use Rattle.script_tokens.specs.declared.fault.ScriptFault.TheVariants.{Memory};
ghost use Rattle.schedule_front.specs.Denoting.{IsScheduleOf, IsNoSchedule};
ghost use Rattle.schedule_front.specs.Readers.{schedule_at};
ghost use Rattle.schedule_front.specs.Sources.{IsSourceOf, IsNoSource};
ghost use Rattle.script_front.specs.BlockReader.{script_at};

use crate::overlays::overlays;
use crate::schedule::Schedule;
use crate::source::Source;
use script_front::fault::ScriptFault;
use script_front::header::header;
use script_front::items::items;
use script_front::keyword::Keyword;
use script_front::names::Names;
use script_front::parser::{MOST_STATEMENTS, parse};
use script_front::token_reader::TokenReader;
use script_tokens::lexer::lex;
use std::alloc::Global;

/// Parses the tokens of a whole schedule.
#[tactic(auto, unfolding(crate::specs::Readers::schedule_at))]
fn schedule(alloc: Global, reader: &mut TokenReader) -> Result<Schedule, ScriptFault>
    ensures read { IfOk result (λ s. schedule_at reader.old ≡ Some s) }
    ensures none { IfErr result (λ e. e ≢ Memory → schedule_at reader.old ≡ None) }
{
    let last_line = reader.last_line();
    let header = header(reader)?;
    let mut left = MOST_STATEMENTS;
    let items = items(alloc, reader, &mut left)?;
    let line = reader.line();
    reader.expect(Keyword::Schedule)?;
    let mut names = Names::new(alloc);
    let overlays = overlays(alloc, reader, &mut names, &mut left)?;
    Ok(Schedule::new(header, items, line, names, overlays, last_line))
}

/// Parses the schedule of a text, with the lines of its items, its overlays, their edits,
/// `schedule` and its last token.
///
/// # Errors
///
/// The faults of `lex`; then the first in text order of: `Number` for an atom where a value is
/// required that is not such a value in range, `Expected` for any other wrong token or the end of
/// the text, and for one that is neither `contact` nor `time` where a test begins; `NameUsed` for a
/// second overlay of a name; `Limit` for a 65th overlay, for a 33rd test of an overlay, and for an
/// item, overlay or edit past 8,192 in all. `Memory` if memory runs out. Each but `Memory` has the
/// position of the token at fault, or just past the text.
///
/// Barring allocation failure, a text is refused only if it is not a schedule: if no tree with
/// every number in range, with names well formed and different, and within all limits has these
/// tokens on these lines.
pub fn parse_schedule(alloc: Global, text: &str) -> Result<Schedule, ScriptFault>
    ensures schedule { IfOk result (λ s. IsScheduleOf text.now s) }
    ensures none { IfErr result (λ e. e ≢ Memory → IsNoSchedule text.now) }
{
    let tokens = lex(alloc, text)?;
    let mut reader = TokenReader::new(text.as_bytes(), &tokens);
    let found = schedule(alloc, &mut reader)?;
    Ok(found)
}

/// Whether a header and items, without fault, are followed by `schedule`.
#[tactic(auto, using(crate::proofs::Sources::no_script, crate::proofs::Sources::no_schedule, crate::proofs::Sources::no_items, crate::proofs::Sources::no_header))]
fn is_schedule(alloc: Global, reader: &mut TokenReader) -> Result<bool, ScriptFault>
    ensures yes { IfOk result (λ is. is ≡ true → script_at reader.old ≡ None) }
    ensures no { IfOk result (λ is. is ≡ false → schedule_at reader.old ≡ None) }
    ensures memory { IfErr result (λ e. e ≡ Memory) }
{
    let Ok(_header) = header(reader) else {
        return Ok(false);
    };
    let mut left = MOST_STATEMENTS;
    match items(alloc, reader, &mut left) {
        Ok(_items) => Ok(reader.is_next(Keyword::Schedule)),
        Err(ScriptFault::Memory) => Err(ScriptFault::Memory),
        Err(_fault) => Ok(false),
    }
}

/// Parses a text of either form: as `parse_schedule` if its header and its items are followed by
/// `schedule`, else as `script_front::parse`.
///
/// # Errors
///
/// Those of the call by which the text is parsed. Barring allocation failure, a text is refused
/// only if it is neither a script nor a schedule.
pub fn parse_source(alloc: Global, text: &str) -> Result<Source, ScriptFault>
    ensures source { IfOk result (λ s. IsSourceOf text.now s) }
    ensures none { IfErr result (λ e. e ≢ Memory → IsNoSource text.now) }
{
    let tokens = lex(alloc, text)?;
    let mut reader = TokenReader::new(text.as_bytes(), &tokens);
    let is_schedule = is_schedule(alloc, &mut reader)?;
    if is_schedule {
        let found = parse_schedule(alloc, text)?;
        return Ok(Source::Schedule(found));
    }
    let found = parse(alloc, text)?;
    Ok(Source::Steps(found))
}
