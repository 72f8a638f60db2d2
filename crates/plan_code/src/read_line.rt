//! Reading a line: its source line number and its instruction.

ghost use Rattle.plan_code.specs.Formats.{Reading};
ghost use Rattle.plan_code.specs.declared.opcode.Opcode.{Opcode};
ghost use Rattle.plan_code.specs.Parts.{opcode, instr_kind, instr, line};

use crate::instr::{Instr, Line};
use crate::opcode::{Opcode, UnknownOpcode};
use crate::operand::{
    carrier, contact, contacts, counter, day_frame, day_frame_or_none, delay, frames,
    frames_or_none, new_packet, new_sub, start, times,
};
use mux_config::{Edit, Reader, RecordFault};

fn wait_contact(reader: &mut Reader) -> Result<Instr, RecordFault>
    ensures { Reading (instr_kind Opcode.WaitContact).read reader.old result reader.new }
{
    let contact = contact(reader)?;
    let closed = reader.flag()?;
    Ok(Instr::WaitContact { contact, closed })
}

fn wait_any(reader: &mut Reader) -> Result<Instr, RecordFault>
    ensures { Reading (instr_kind Opcode.WaitAny).read reader.old result reader.new }
{
    let closed = contacts(reader)?;
    let opened = contacts(reader)?;
    let until = day_frame_or_none(reader)?;
    let frames = frames_or_none(reader)?;
    Ok(Instr::WaitAny {
        closed,
        opened,
        until,
        frames,
    })
}

fn test(reader: &mut Reader) -> Result<Instr, RecordFault>
    ensures { Reading (instr_kind Opcode.Test).read reader.old result reader.new }
{
    let contact = contact(reader)?;
    let target = reader.u16()?;
    Ok(Instr::Test { contact, target })
}

fn set(reader: &mut Reader) -> Result<Instr, RecordFault>
    ensures { Reading (instr_kind Opcode.Set).read reader.old result reader.new }
{
    let counter = counter(reader)?;
    let times = times(reader)?;
    Ok(Instr::Set { counter, times })
}

fn loop_back(reader: &mut Reader) -> Result<Instr, RecordFault>
    ensures { Reading (instr_kind Opcode.Loop).read reader.old result reader.new }
{
    let counter = counter(reader)?;
    let target = reader.u16()?;
    Ok(Instr::Loop { counter, target })
}

fn test_time(reader: &mut Reader) -> Result<Instr, RecordFault>
    ensures { Reading (instr_kind Opcode.TestTime).read reader.old result reader.new }
{
    let from = day_frame(reader)?;
    let to = day_frame(reader)?;
    let target = reader.u16()?;
    Ok(Instr::TestTime { from, to, target })
}

fn move_sub(reader: &mut Reader) -> Result<Instr, RecordFault>
    ensures { Reading (instr_kind Opcode.MoveSub).read reader.old result reader.new }
{
    let id = reader.sub_id()?;
    let start = start(reader)?;
    Ok(Instr::Edit(Edit::MoveSub { id, start }))
}

fn rate_sub(reader: &mut Reader) -> Result<Instr, RecordFault>
    ensures { Reading (instr_kind Opcode.RateSub).read reader.old result reader.new }
{
    let id = reader.sub_id()?;
    let kbits = reader.u16()?;
    Ok(Instr::Edit(Edit::RateSub { id, kbits }))
}

fn add_component(reader: &mut Reader) -> Result<Instr, RecordFault>
    ensures { Reading (instr_kind Opcode.AddComponent).read reader.old result reader.new }
{
    let sid = reader.sid()?;
    let component = reader.component()?;
    Ok(Instr::Edit(Edit::AddComponent { sid, component }))
}

fn drop_component(reader: &mut Reader) -> Result<Instr, RecordFault>
    ensures { Reading (instr_kind Opcode.DropComponent).read reader.old result reader.new }
{
    let sid = reader.sid()?;
    let carrier = carrier(reader)?;
    Ok(Instr::Edit(Edit::DropComponent { sid, carrier }))
}

/// Reads an opcode.
fn opcode(reader: &mut Reader) -> Result<Opcode, RecordFault>
    ensures { Reading opcode.read reader.old result reader.new }
{
    let offset = reader.place();
    match Opcode::try_from(reader.byte()?) {
        Ok(opcode) => Ok(opcode),
        Err(UnknownOpcode) => Err(RecordFault::Field(offset)),
    }
}

/// Reads the operands of an instruction with this opcode.
fn instr_of(reader: &mut Reader, opcode: Opcode) -> Result<Instr, RecordFault>
    ensures { Reading (instr_kind opcode).read reader.old result reader.new }
{
    match opcode {
        Opcode::Wait => Ok(Instr::Wait(frames(reader)?)),
        Opcode::Until => Ok(Instr::Until(day_frame(reader)?)),
        Opcode::WaitContact => wait_contact(reader),
        Opcode::CommitIn => Ok(Instr::CommitIn(delay(reader)?)),
        Opcode::CommitAt => Ok(Instr::CommitAt(reader.u16()?)),
        Opcode::Join => Ok(Instr::Join),
        Opcode::End => Ok(Instr::End),
        Opcode::Settle => Ok(Instr::Settle),
        Opcode::WaitAny => wait_any(reader),
        Opcode::AddSub => Ok(Instr::Edit(Edit::AddSub(new_sub(reader)?))),
        Opcode::DropSub => Ok(Instr::Edit(Edit::DropSub(reader.sub_id()?))),
        Opcode::MoveSub => move_sub(reader),
        Opcode::RateSub => rate_sub(reader),
        Opcode::AddService => Ok(Instr::Edit(Edit::AddService(reader.sid()?))),
        Opcode::DropService => Ok(Instr::Edit(Edit::DropService(reader.sid()?))),
        Opcode::AddComponent => add_component(reader),
        Opcode::DropComponent => drop_component(reader),
        Opcode::AddPacket => Ok(Instr::Edit(Edit::AddPacket(new_packet(reader)?))),
        Opcode::DropPacket => Ok(Instr::Edit(Edit::DropPacket(reader.sc_id()?))),
        Opcode::Test => test(reader),
        Opcode::Jump => Ok(Instr::Jump(reader.u16()?)),
        Opcode::Set => set(reader),
        Opcode::Loop => loop_back(reader),
        Opcode::TestTime => test_time(reader),
    }
}

/// Reads an instruction.
#[tactic(auto, unfolding(crate::specs::Parts::instr))]
fn instr(reader: &mut Reader) -> Result<Instr, RecordFault>
    ensures { Reading instr.read reader.old result reader.new }
{
    let opcode = opcode(reader)?;
    instr_of(reader, opcode)
}

/// Reads a line.
#[tactic(auto, unfolding(crate::specs::Parts::line))]
pub(crate) fn line(reader: &mut Reader) -> Result<Line, RecordFault>
    ensures { Reading line.read reader.old result reader.new }
{
    let number = reader.u16()?;
    let instr = instr(reader)?;
    Ok(Line { number, instr })
}
