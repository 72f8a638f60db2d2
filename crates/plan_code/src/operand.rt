//! Reading the operands of instructions.

ghost use Rattle.plan_code.specs.Formats.{Reading, u16_from};
ghost use Rattle.plan_code.specs.Parts.{contact, contacts, counter, start_address, times, delay};
ghost use Rattle.plan_code.specs.Parts.{day_frame};
ghost use Rattle.plan_code.specs.Parts.{day_frame_or_none, frames_or_none, new_sub, new_packet};
ghost use Rattle.plan_code.specs.Parts.{carrier};

use crate::flags::Contacts;
use crate::numbers::{ContactId, CounterId, DayFrame, Delay, Frames, Times};
use mux_config::{Carrier, NewSub, Packet, Reader, RecordFault, StartAddress, SubId};

/// Reads the number of a contact.
pub(crate) fn contact(reader: &mut Reader) -> Result<ContactId, RecordFault>
    ensures { Reading contact.read reader.old result reader.new }
{
    let fault = RecordFault::Field(reader.place());
    ContactId::new(reader.byte()?).ok_or(fault)
}

/// Reads a set of contacts.
pub(crate) fn contacts(reader: &mut Reader) -> Result<Contacts, RecordFault>
    ensures { Reading contacts.read reader.old result reader.new }
{
    Ok(Contacts(reader.u16()?))
}

/// Reads the number of a counter.
pub(crate) fn counter(reader: &mut Reader) -> Result<CounterId, RecordFault>
    ensures { Reading counter.read reader.old result reader.new }
{
    let fault = RecordFault::Field(reader.place());
    CounterId::new(reader.byte()?).ok_or(fault)
}

/// Reads a start address.
pub(crate) fn start(reader: &mut Reader) -> Result<StartAddress, RecordFault>
    ensures { Reading start_address.read reader.old result reader.new }
{
    let fault = RecordFault::Field(reader.place());
    StartAddress::new(reader.u16()?).ok_or(fault)
}

/// Reads a number of frames to wait.
pub(crate) fn frames(reader: &mut Reader) -> Result<Frames, RecordFault>
    ensures { Reading times.read reader.old result reader.new }
{
    let fault = RecordFault::Field(reader.place());
    Frames::new(reader.u16()?).ok_or(fault)
}

/// Reads how many times the body of a loop runs.
pub(crate) fn times(reader: &mut Reader) -> Result<Times, RecordFault>
    ensures { Reading times.read reader.old result reader.new }
{
    let fault = RecordFault::Field(reader.place());
    Times::new(reader.u16()?).ok_or(fault)
}

/// Reads the delay of a commit.
pub(crate) fn delay(reader: &mut Reader) -> Result<Delay, RecordFault>
    ensures { Reading delay.read reader.old result reader.new }
{
    let fault = RecordFault::Field(reader.place());
    Delay::new(reader.u16()?).ok_or(fault)
}

/// Reads a frame of the day.
pub(crate) fn day_frame(reader: &mut Reader) -> Result<DayFrame, RecordFault>
    ensures { Reading day_frame.read reader.old result reader.new }
{
    let fault = RecordFault::Field(reader.place());
    DayFrame::new(reader.u32()?).ok_or(fault)
}

/// The number that is written where there is no frame of the day.
pub(crate) const NO_DAY_FRAME: u32 = 0xFFFF_FFFF;

/// Reads a frame of the day that may be none.
pub(crate) fn day_frame_or_none(reader: &mut Reader) -> Result<Option<DayFrame>, RecordFault>
    ensures { Reading day_frame_or_none.read reader.old result reader.new }
{
    let offset = reader.place();
    let number = reader.u32()?;
    if number == NO_DAY_FRAME {
        return Ok(None);
    }
    match DayFrame::new(number) {
        Some(frame) => Ok(Some(frame)),
        None => Err(RecordFault::Field(offset)),
    }
}

/// Reads a number of frames to wait that may be none, written as 0.
pub(crate) fn frames_or_none(reader: &mut Reader) -> Result<Option<Frames>, RecordFault>
    ensures { Reading frames_or_none.read reader.old result reader.new }
{
    Ok(Frames::new(reader.u16()?))
}

#[tactic(auto, unfolding(crate::specs::Parts::new_sub))]
pub(crate) fn new_sub(reader: &mut Reader) -> Result<NewSub, RecordFault>
    ensures { Reading new_sub.read reader.old result reader.new }
{
    let id = reader.sub_id()?;
    let start = start(reader)?;
    let protection = reader.protection()?;
    let kbits = reader.u16()?;
    Ok(NewSub::from_parts(id, start, protection, kbits))
}

#[tactic(auto, unfolding(crate::specs::Parts::new_packet))]
pub(crate) fn new_packet(reader: &mut Reader) -> Result<Packet, RecordFault>
    ensures { Reading new_packet.read reader.old result reader.new }
{
    let scid = reader.sc_id()?;
    let dg = reader.flag()?;
    let ty = reader.sc_ty()?;
    let sub = reader.sub_id()?;
    let address = reader.u16()?;
    Ok(Packet {
        scid,
        dg,
        ty,
        sub,
        address,
    })
}

/// Reads a sub-channel as a carrier: its identifier in two bytes.
fn wide_sub_id(reader: &mut Reader) -> Result<SubId, RecordFault>
    ensures { Reading (u16_from 0 63).read reader.old result reader.new }
{
    let fault = RecordFault::Field(reader.place());
    let id = reader.u16_within(0, 63)?;
    SubId::new(id as u8).ok_or(fault)
}

#[tactic(auto, unfolding(crate::specs::Parts::carrier))]
pub(crate) fn carrier(reader: &mut Reader) -> Result<Carrier, RecordFault>
    ensures { Reading carrier.read reader.old result reader.new }
{
    match reader.byte_within(0, 1)? {
        0 => Ok(Carrier::Sub(wide_sub_id(reader)?)),
        _ => Ok(Carrier::Packet(reader.sc_id()?)),
    }
}
