//! Parsing the header of a script.

ghost use Rattle.std.specs.Prelude.{◌-◌};
ghost use Rattle.fib_codec.specs.Modes.{fib_count};
ghost use Rattle.plan_code.specs.Reading.{mode_of, reserving};
ghost use Rattle.script_tokens.specs.Reading.{Takes, keyed, built};
ghost use Rattle.script_tokens.specs.Taking.{number_at};
ghost use Rattle.script_front.specs.Readers.{mode_at, layout_at, header_at};

use fib_codec::{FrameLayout, Mode};
use plan_code::Plan;
use plan_code::limits::{LONGEST_NOTICE, LONGEST_PERIOD, SHORTEST_NOTICE};
use script_tokens::fault::ScriptFault;
use script_tokens::keyword::Keyword;
use script_tokens::token_reader::TokenReader;
use script_tokens::values::{decimal, eid};

/// This keyword, then a number from `low` to `high`.
fn declared(
    reader: &mut TokenReader,
    keyword: Keyword,
    low: u8,
    high: u8,
) -> Result<u8, ScriptFault>
    ensures { Takes (keyed keyword (number_at low high) reader.old.lexemes) result reader.old
        reader.new }
{
    reader.expect(keyword)?;
    let value = decimal(reader, u32::from(low), u32::from(high))?;
    Ok(value as u8)
}

/// `mode MODE`, or mode I if there is no `mode`.
#[tactic(auto, unfolding(crate::specs::Readers::mode_at))]
fn mode(reader: &mut TokenReader) -> Result<Mode, ScriptFault>
    ensures { Takes (mode_at reader.old.lexemes) result reader.old reader.new }
{
    if !reader.is_next(Keyword::Mode) {
        return Ok(Mode::I);
    }
    reader.advance();
    let mode = later_mode(reader)?;
    Ok(mode)
}

/// A mode from II to IV, written 2, 3 or 4.
fn later_mode(reader: &mut TokenReader) -> Result<Mode, ScriptFault>
    ensures { Takes (built mode_of (number_at 2 4) reader.old.lexemes) result
        reader.old reader.new }
{
    let number = decimal(reader, 2, 4)?;
    match number {
        2 => Ok(Mode::II),
        3 => Ok(Mode::III),
        _ => Ok(Mode::IV),
    }
}

/// `reserve R`, or no reserved FIB if there is no `reserve`.
#[tactic(auto, unfolding(crate::specs::Readers::layout_at))]
fn layout(reader: &mut TokenReader, mode: Mode) -> Result<FrameLayout, ScriptFault>
    ensures { Takes (layout_at mode reader.old.lexemes) result reader.old reader.new }
{
    if !reader.is_next(Keyword::Reserve) {
        return Ok(FrameLayout::Whole(mode));
    }
    reader.advance();
    let layout = reserving(reader, mode)?;
    Ok(layout)
}

/// The layout with the number of reserved FIBs that is next: 1, or 1 or 2 in mode III.
fn reserving(reader: &mut TokenReader, mode: Mode) -> Result<FrameLayout, ScriptFault>
    ensures { Takes (built (reserving mode) (number_at 1 (fib_count mode - 2)) reader.old.lexemes)
        result reader.old reader.new }
{
    let most = mode.fibs() as u32 - 2;
    let number = decimal(reader, 1, most)?;
    match FrameLayout::new(mode, number as u8) {
        Some(layout) => Ok(layout),
        None => Err(reader.no_number()),
    }
}

/// `ensemble EID [mode MODE] period P notice W budget B [reserve R]`
#[tactic(auto, unfolding(crate::specs::Readers::header_at))]
pub fn header(reader: &mut TokenReader) -> Result<Plan, ScriptFault>
    ensures { Takes (header_at reader.old.lexemes) result reader.old reader.new }
{
    reader.expect(Keyword::Ensemble)?;
    let eid = eid(reader)?;
    let mode = mode(reader)?;
    let period = declared(reader, Keyword::Period, 1, LONGEST_PERIOD)?;
    let notice = declared(reader, Keyword::Notice, SHORTEST_NOTICE, LONGEST_NOTICE)?;
    let budget = declared(reader, Keyword::Budget, 1, 255)?;
    let layout = layout(reader, mode)?;
    Ok(Plan {
        eid,
        layout,
        period,
        notice,
        budget,
    })
}
