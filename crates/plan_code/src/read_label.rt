//! Reading a label.

ghost use Rattle.std.specs.Prelude.{◌≤◌};
ghost use Rattle.plan_code.specs.Formats.{Reading, u16_from};
ghost use Rattle.plan_code.specs.Parts.{swap, label};

use crate::flags::Counters;
use crate::label::{Label, Swap};
use mux_config::{Reader, RecordFault};

/// Reads what a label declares of a swap.
#[tactic(auto, unfolding(crate::specs::Parts::swap))]
fn swap(reader: &mut Reader) -> Result<Swap, RecordFault>
    ensures { Reading swap.read reader.old result reader.new }
{
    match reader.byte_within(0, 2)? {
        0 => {
            reader.u16_within(0, 0)?;
            reader.u16_within(0, 0)?;
            Ok(Swap::Idle)
        }
        1 => {
            let low = reader.u16_within(1, u16::MAX)?;
            let high = reader.u16_within(low, u16::MAX)?;
            Ok(Swap::Within(low, high))
        }
        _ => {
            reader.u16_within(0, 0)?;
            let high = reader.u16_within(1, u16::MAX)?;
            Ok(Swap::Perhaps(high))
        }
    }
}

/// Reads the pc of a label, at least `low`.
fn pc_from(reader: &mut Reader, low: u32) -> Result<u16, RecordFault>
    ensures { Reading (u16_from low 65535).read reader.old result reader.new }
{
    let offset = reader.place();
    let pc = reader.u16()?;
    if u32::from(pc) < low {
        return Err(RecordFault::Field(offset));
    }
    Ok(pc)
}

/// Reads a label with a pc of at least `low`, with this many configurations in the table.
#[tactic(auto, unfolding(crate::specs::Parts::label))]
pub(crate) fn label(reader: &mut Reader, configs: u16, low: u32) -> Result<Label, RecordFault>
    requires { 1 ≤ configs }
    ensures { Reading (label configs low).read reader.old result reader.new }
{
    let pc = pc_from(reader, low)?;
    let cur = reader.u16_within(0, configs - 1)?;
    let next = reader.u16_within(0, configs - 1)?;
    let pending = swap(reader)?;
    let counters = Counters(reader.byte()?);
    let cost = reader.byte_within(1, u8::MAX)?;
    Ok(Label {
        pc,
        cur,
        next,
        pending,
        counters,
        cost,
    })
}
