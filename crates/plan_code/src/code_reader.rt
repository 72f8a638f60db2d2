//! Reading a code file.

ghost use Rattle.std.specs.Prelude.{◌≡◌, ◌≤◌, ◌<◌, [], length, IfOk, Ok, Err};
ghost use Rattle.plan_code.specs.Program.{Program, IsProgram};
ghost use Rattle.plan_code.specs.Spelling.{code_bytes};
ghost use Rattle.plan_code.specs.Reading.{Gives, GivesNext, magic_at, mode_of, reserving_at};
ghost use Rattle.plan_code.specs.Reading.{layout_at, plan_at, count_at, header_at, config_in};
ghost use Rattle.plan_code.specs.Reading.{line_in, items_at, labels_in, code_of};

use crate::code::Code;
use crate::fault::{CodeFault, fault_from};
use crate::instr::Line;
use crate::label::Label;
use crate::limits::{MOST_CONFIGURATIONS, MOST_INSTRUCTIONS, MOST_LABELS};
use crate::plan::Plan;
use crate::read_label::label;
use crate::read_line::line;
use fib_codec::{FrameLayout, Mode};
use mux_config::{Config, Reader, read_config};
use std::alloc::Global;

/// The magic number: the letters DABP.
pub(crate) const MAGIC: u32 = 0x4441_4250;

fn magic(reader: &mut Reader) -> Result<u32, CodeFault>
    ensures read { GivesNext (λ n. n) result reader.new (magic_at reader.old.rest) }
    ensures total { reader.new.total ≡ reader.old.total }
{
    let letters = reader.u32()?;
    if letters != MAGIC {
        return Err(CodeFault::Magic);
    }
    Ok(letters)
}

/// The mode with this number, 1 to 4.
fn mode_from(number: u8) -> Mode
    ensures { result ≡ mode_of number }
{
    match number {
        1 => Mode::I,
        2 => Mode::II,
        3 => Mode::III,
        _ => Mode::IV,
    }
}

/// Reads the mode and the reserve of version 3, which is at least 1.
#[tactic(auto, unfolding(crate::specs::Reading::reserving_at))]
fn reserving(reader: &mut Reader) -> Result<FrameLayout, CodeFault>
    ensures read { GivesNext (λ l. l) result reader.new
        (reserving_at reader.old.total reader.old.rest) }
    ensures total { reader.new.total ≡ reader.old.total }
{
    let mode = mode_from(reader.byte_within(1, 4)?);
    let most = mode.fibs() as u8 - 2;
    match reader.byte_within(1, most)? {
        2 => Ok(FrameLayout::ReserveTwo),
        _ => Ok(FrameLayout::ReserveOne(mode)),
    }
}

/// Reads the version, in version 2 the mode, and in version 3 the mode and the reserve. Version 1
/// implies mode I, and versions 1 and 2 no reserve.
#[tactic(auto, unfolding(crate::specs::Reading::layout_at))]
fn layout(reader: &mut Reader) -> Result<FrameLayout, CodeFault>
    ensures read { GivesNext (λ l. l) result reader.new
        (layout_at reader.old.total reader.old.rest) }
    ensures total { reader.new.total ≡ reader.old.total }
{
    match reader.byte()? {
        1 => Ok(FrameLayout::Whole(Mode::I)),
        2 => {
            let number = reader.byte_within(2, 4)?;
            Ok(FrameLayout::Whole(mode_from(number)))
        }
        3 => reserving(reader),
        _ => Err(CodeFault::Version),
    }
}

#[tactic(auto, unfolding(crate::specs::Reading::plan_at))]
fn plan(reader: &mut Reader) -> Result<Plan, CodeFault>
    ensures read { GivesNext (λ p. p) result reader.new (plan_at reader.old.total reader.old.rest) }
    ensures total { reader.new.total ≡ reader.old.total }
{
    let layout = layout(reader)?;
    let eid = reader.u16()?;
    let period = reader.byte_within(1, 60)?;
    let notice = reader.byte_within(12, 248)?;
    let budget = reader.byte_within(1, 255)?;
    Ok(Plan {
        eid,
        layout,
        period,
        notice,
        budget,
    })
}

/// Reads the number of entries of a table: at least one, at most `limit`.
fn count(reader: &mut Reader, limit: u16) -> Result<u16, CodeFault>
    ensures read { GivesNext (λ n. n) result reader.new
        (count_at reader.old.total limit reader.old.rest) }
    ensures total { reader.new.total ≡ reader.old.total }
    ensures some { IfOk result (λ n. 1 ≤ n) }
{
    let offset = reader.place();
    let number = reader.u16()?;
    if number == 0 {
        return Err(CodeFault::Field(offset));
    }
    if number > limit {
        return Err(CodeFault::Limit);
    }
    Ok(number)
}

/// The header of a file: the plan, and the numbers of configurations, labels and instructions that
/// follow.
#[derive(Clone, Copy)]
struct Opening {
    plan: Plan,
    configs: u16,
    labels: u16,
    lines: u16,
}

#[tactic(auto, unfolding(crate::specs::Reading::header_at))]
fn header(reader: &mut Reader) -> Result<Opening, CodeFault>
    ensures read { GivesNext (λ h. record {
      plan = h.plan;
      configurations = h.configs;
      labels = h.labels;
      lines = h.lines;
    })
        result reader.new (header_at reader.old.total reader.old.rest) }
    ensures total { reader.new.total ≡ reader.old.total }
    ensures configs { IfOk result (λ h. 1 ≤ h.configs) }
{
    magic(reader)?;
    let plan = plan(reader)?;
    let configs = count(reader, MOST_CONFIGURATIONS)?;
    let labels = count(reader, MOST_LABELS)?;
    let lines = count(reader, MOST_INSTRUCTIONS)?;
    Ok(Opening {
        plan,
        configs,
        labels,
        lines,
    })
}

/// A value that is read as one item of a table.
trait Item: Drop {
    ghost use Rattle.std.specs.Prelude.{ℕ, List};
    ghost use Rattle.plan_code.specs.Reading.{Parses};

    ghost item_at: { ℕ → List ℕ → Parses Self };

    fn read(reader: &mut Reader) -> Result<Self, CodeFault>
        ensures read { GivesNext (λ x. x) result reader.new
            (item_at reader.old.total reader.old.rest) }
        ensures total { reader.new.total ≡ reader.old.total };
}

impl Item for Config {
    ghost item_at = { config_in };

    fn read(reader: &mut Reader) -> Result<Self, CodeFault> {
        let start = reader.place();
        match read_config(reader.rest()) {
            Ok((config, length)) => {
                reader.skip(length);
                Ok(config)
            }
            Err(fault) => Err(fault_from(start, fault)),
        }
    }
}

impl Item for Line {
    ghost item_at = { line_in };

    fn read(reader: &mut Reader) -> Result<Self, CodeFault> {
        Ok(line(reader)?)
    }
}

/// Reads `count` items, each of at least one byte.
fn items<T: Item>(alloc: Global, reader: &mut Reader, count: u16) -> Result<Vec<T>, CodeFault>
    ensures read { GivesNext (λ v. v.items) result reader.new
        (items_at (T.item_at reader.old.total) [] count reader.old.rest) }
    ensures total { reader.new.total ≡ reader.old.total }
{
    let most = usize::from(count).min(reader.rest().len());
    let mut items = Vec::with_capacity(alloc, most)?;
    for _ in 0..count {
        let item = T::read(reader)?;
        items.push(item)?;
    }
    Ok(items)
}

/// Reads `count` labels, with this many configurations in the table.
fn labels(
    alloc: Global,
    reader: &mut Reader,
    configs: u16,
    count: u16,
) -> Result<Vec<Label>, CodeFault>
    requires { 1 ≤ configs }
    ensures read { GivesNext (λ v. v.items) result reader.new
        (labels_in reader.old.total configs count reader.old.rest) }
    ensures total { reader.new.total ≡ reader.old.total }
{
    let mut labels = Vec::new(alloc);
    let mut low = 0;
    for _ in 0..count {
        let label = label(reader, configs, low)?;
        low = u32::from(label.pc) + 1;
        labels.push(label)?;
    }
    Ok(labels)
}

#[tactic(auto, unfolding(crate::specs::Reading::code_of, crate::specs::Reading::program_at))]
fn whole(alloc: Global, bytes: &[u8]) -> Result<Code, CodeFault>
    ensures { Gives (λ c. c) result (code_of bytes.now) }
{
    let mut reader = Reader::new(bytes);
    let header = header(&mut reader)?;
    let configs = items(alloc, &mut reader, header.configs)?;
    let labels = labels(alloc, &mut reader, header.configs, header.labels)?;
    let lines = items(alloc, &mut reader, header.lines)?;
    if !reader.rest().is_empty() {
        return Err(CodeFault::Trailing);
    }
    Ok(Code::from_parts(header.plan, configs, labels, lines))
}

/// Decodes a code file.
///
/// The error is the first fault in file order, reported as soon as its field is read: `Truncated`
/// where bytes of a field are missing; `Magic` and `Version` where these are wrong; `Limit` where a
/// count of the header is above its limit; `Field` with the offset of the first byte of a field
/// that is out of range; `Trailing` where bytes follow the last instruction. `Memory` may occur at
/// any point.
pub fn decode(alloc: Global, bytes: &[u8]) -> Result<Code, CodeFault>
    // What is decoded is within the limits of codes, and encodes to these bytes.
    ensures formed { IfOk result (λ c. IsProgram c) }
    ensures found { IfOk result (λ c. bytes.now ≡ code_bytes c) }
    // The file of a code decodes to this code, unless memory runs out.
    ensures only { (p : Program) → IsProgram p → bytes.now ≡ code_bytes p
        → Gives (λ c. c) result (Ok p) }
    // Which fault is reported.
    ensures first_fault { Gives (λ c. c) result (code_of bytes.now) }
{
    whole(alloc, bytes)
}
