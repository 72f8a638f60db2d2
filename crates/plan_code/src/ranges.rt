//! Range facts of operand types. These functions do nothing; their contracts state the ranges for a
//! caller's proof: a value's invariant is known where a pattern binds it.
ghost use Rattle.mux_config.specs.Configuration.{IsConfiguration, IsSid, IsComponent};
ghost use Rattle.std.specs.List.{AllByRecursion};
ghost use Rattle.std.specs.Prelude.{IfSome};
ghost use Rattle.plan_code.specs.Program.{IsNewSub, IsNewPacket, IsCarrier, IsEdit, IsDayFrame};
ghost use Rattle.plan_code.specs.Program.{IsFrames, AreAlternatives, IsInstr, IsLine};

use crate::flags::Contacts;
use crate::instr::{Instr, Line};
use crate::numbers::{DayFrame, Frames};
use mux_config::{Carrier, Component, Config, Edit, NewSub, Packet, Sid};

fn sid_in_range(sid: Sid)
    ensures { IsSid sid }
{
    match sid {
        Sid::Short(_) => {}
        Sid::Long(_) => {}
    }
}

fn component_in_range(component: Component)
    ensures { IsComponent component }
{
    match component {
        Component::Sound { ty: _ty, sub: _sub } | Component::Stream { ty: _ty, sub: _sub } => {}
        Component::Packet { scid: _scid } => {}
    }
}

fn carrier_in_range(carrier: Carrier)
    ensures { IsCarrier carrier }
{
    match carrier {
        Carrier::Sub(_id) => {}
        Carrier::Packet(_scid) => {}
    }
}

fn new_sub_in_range(new_sub: NewSub)
    ensures { IsNewSub new_sub }
{
    let sub = new_sub.get();
    sub.id.get();
    sub.protection.level();
}

fn new_packet_in_range(packet: Packet)
    ensures { IsNewPacket packet }
{
    packet.scid.get();
    packet.ty.get();
    packet.sub.get();
}

fn edit_in_range(edit: Edit)
    ensures { IsEdit edit }
{
    match edit {
        Edit::AddSub(sub) => new_sub_in_range(sub),
        Edit::DropSub(_id) => {}
        Edit::MoveSub {
            id: _id,
            start: _start,
        } => {}
        Edit::RateSub { id: _id, .. } => {}
        Edit::AddService(sid) => sid_in_range(sid),
        Edit::DropService(sid) => sid_in_range(sid),
        Edit::AddComponent { sid, component } => {
            sid_in_range(sid);
            component_in_range(component);
        }
        Edit::DropComponent { sid, carrier } => {
            sid_in_range(sid);
            carrier_in_range(carrier);
        }
        Edit::AddPacket(packet) => new_packet_in_range(packet),
        Edit::DropPacket(_scid) => {}
    }
}

fn day_frame_in_range(frame: Option<DayFrame>)
    ensures { IfSome frame IsDayFrame }
{
    if let Some(_frame) = frame {}
}

fn frames_in_range(frames: Option<Frames>)
    ensures { IfSome frames IsFrames }
{
    if let Some(_frames) = frames {}
}

fn alternatives_in_range(
    closed: Contacts,
    opened: Contacts,
    until: Option<DayFrame>,
    frames: Option<Frames>,
)
    ensures { AreAlternatives closed opened until frames }
{
    // Read for the proof: the sets are within their bits where these are read.
    let Contacts(_closed) = closed;
    let Contacts(_opened) = opened;
    day_frame_in_range(until);
    frames_in_range(frames);
}

fn instr_in_range(instr: Instr)
    ensures { IsInstr instr }
{
    match instr {
        Instr::Wait(_frames) => {}
        Instr::Until(_frame) => {}
        Instr::WaitContact {
            contact: _contact,
            ..
        } => {}
        Instr::WaitAny {
            closed,
            opened,
            until,
            frames,
        } => alternatives_in_range(closed, opened, until, frames),
        Instr::CommitIn(_delay) => {}
        Instr::CommitAt(_) => {}
        Instr::Join | Instr::Settle | Instr::End => {}
        Instr::Edit(edit) => edit_in_range(edit),
        Instr::Test {
            contact: _contact,
            ..
        } => {}
        Instr::Jump(_) => {}
        Instr::Set {
            counter: _counter,
            times: _times,
        } => {}
        Instr::Loop {
            counter: _counter,
            ..
        } => {}
        Instr::TestTime {
            from: _from,
            to: _to,
            ..
        } => {}
    }
}

/// The instruction of each line is within its limits.
pub(crate) fn lines_in_range(lines: &[Line])
    ensures { AllByRecursion IsLine lines.now }
{
    for line in lines {
        // Read for the proof: a value's invariant is known where the value is read.
        let _number = line.number;
        instr_in_range(line.instr);
    }
}

/// Each configuration is well-formed.
pub(crate) fn configs_in_range(configs: &[Config])
    ensures { AllByRecursion IsConfiguration configs.now }
{
    for config in configs {
        config.subs();
    }
}
