//! Writing a code file.

ghost use Rattle.std.specs.Prelude.{◌≡◌, ◌++◌, ◌∷◌, [], Ok, OnOk, IfOk};
ghost use Rattle.std.specs.List.{flat_map};
ghost use Rattle.mux_config.specs.FieldSpelling.{u16_bytes};
ghost use Rattle.mux_config.specs.Spelling.{config_bytes};
ghost use Rattle.plan_code.specs.Opcodes.{opcode_byte};
ghost use Rattle.plan_code.specs.Program.{IsProgram};
ghost use Rattle.plan_code.specs.declared.instr.Instr.TheVariants.{WaitAny, TestTime};
ghost use Rattle.plan_code.specs.Spelling.{mode_bytes, layout_bytes, mode_number, plan_bytes};
ghost use Rattle.plan_code.specs.Spelling.{line_bytes, code_bytes};
ghost use Rattle.plan_code.specs.Parts.{swap_bytes, label_bytes, carrier_bytes, new_sub};
ghost use Rattle.plan_code.specs.Parts.{new_packet, edit_bytes, day_frame_number, frames_number};
ghost use Rattle.plan_code.specs.Parts.{instr_bytes};
ghost use Rattle.plan_code.specs.Reading.{code_of};

use crate::code::Code;
use crate::code_reader::MAGIC;
use crate::flags::{Contacts, Counters};
use crate::instr::{Instr, Line};
use crate::label::{Label, Swap};
use crate::numbers::{DayFrame, Frames};
use crate::opcode::Opcode;
use crate::operand::NO_DAY_FRAME;
use crate::plan::Plan;
use fib_codec::{FrameLayout, Mode};
use mux_config::record_writer::put_config;
use mux_config::{
    Carrier, Config, Edit, NewSub, Packet, put_component, put_protection, put_sid, put_u16, put_u32,
};
use std::alloc::{AllocError, Global};

/// The number of a mode, 1 to 4.
fn mode_number(mode: Mode) -> u8
    ensures { result ≡ mode_number mode }
{
    match mode {
        Mode::I => 1,
        Mode::II => 2,
        Mode::III => 3,
        Mode::IV => 4,
    }
}

/// Writes the version of a file without reserve and, in version 2, the mode's number.
fn put_mode(out: &mut Vec<u8>, mode: Mode) -> Result<(), AllocError>
    ensures { OnOk result (out.new.items ≡ out.old.items ++ mode_bytes mode) }
{
    match mode {
        Mode::I => out.extend_from_slice(&[1]),
        Mode::II => out.extend_from_slice(&[2, 2]),
        Mode::III => out.extend_from_slice(&[2, 3]),
        Mode::IV => out.extend_from_slice(&[2, 4]),
    }
}

/// Writes the version of the file, and the mode and the reserve as far as the version has them.
fn put_layout(out: &mut Vec<u8>, layout: FrameLayout) -> Result<(), AllocError>
    ensures { OnOk result (out.new.items ≡ out.old.items ++ layout_bytes layout) }
{
    match layout {
        FrameLayout::Whole(mode) => put_mode(out, mode),
        FrameLayout::ReserveOne(mode) => out.extend_from_slice(&[3, mode_number(mode), 1]),
        FrameLayout::ReserveTwo => out.extend_from_slice(&[3, 3, 2]),
    }
}

fn put_plan(out: &mut Vec<u8>, plan: Plan) -> Result<(), AllocError>
    ensures { OnOk result (out.new.items ≡ out.old.items ++ plan_bytes plan) }
{
    put_layout(out, plan.layout)?;
    put_u16(out, plan.eid)?;
    out.extend_from_slice(&[plan.period, plan.notice, plan.budget])
}

fn put_swap(out: &mut Vec<u8>, swap: Swap) -> Result<(), AllocError>
    ensures { OnOk result (out.new.items ≡ out.old.items ++ swap_bytes swap) }
{
    match swap {
        Swap::Idle => {
            out.push(0)?;
            put_u16(out, 0)?;
            put_u16(out, 0)
        }
        Swap::Within(low, high) => {
            out.push(1)?;
            put_u16(out, low)?;
            put_u16(out, high)
        }
        Swap::Perhaps(high) => {
            out.push(2)?;
            put_u16(out, 0)?;
            put_u16(out, high)
        }
    }
}

#[tactic(auto, unfolding(crate::specs::Parts::new_sub))]
fn put_new_sub(out: &mut Vec<u8>, sub: NewSub) -> Result<(), AllocError>
    ensures { OnOk result (out.new.items ≡ out.old.items ++ new_sub.spell sub) }
{
    let sub = sub.get();
    out.push(sub.id.get())?;
    put_u16(out, sub.start)?;
    put_protection(out, sub.protection)?;
    put_u16(out, sub.kbits)
}

#[tactic(auto, unfolding(crate::specs::Parts::new_packet))]
fn put_new_packet(out: &mut Vec<u8>, packet: Packet) -> Result<(), AllocError>
    ensures { OnOk result (out.new.items ≡ out.old.items ++ new_packet.spell packet) }
{
    put_u16(out, packet.scid.get())?;
    out.extend_from_slice(&[u8::from(packet.dg), packet.ty.get(), packet.sub.get()])?;
    put_u16(out, packet.address)
}

fn put_carrier(out: &mut Vec<u8>, carrier: Carrier) -> Result<(), AllocError>
    ensures { OnOk result (out.new.items ≡ out.old.items ++ carrier_bytes carrier) }
{
    match carrier {
        Carrier::Sub(id) => {
            out.push(0)?;
            put_u16(out, u16::from(id.get()))
        }
        Carrier::Packet(scid) => {
            out.push(1)?;
            put_u16(out, scid.get())
        }
    }
}

fn put_opcode(out: &mut Vec<u8>, opcode: Opcode) -> Result<(), AllocError>
    ensures { OnOk result (out.new.items ≡ out.old.items ++ opcode_byte opcode ∷ []) }
{
    out.extend_from_slice(&[u8::from(opcode)])
}

/// Writes an opcode and an operand of one byte.
fn put_with_byte(out: &mut Vec<u8>, opcode: Opcode, byte: u8) -> Result<(), AllocError>
    ensures { OnOk result (out.new.items ≡ out.old.items ++ opcode_byte opcode ∷ byte ∷ []) }
{
    out.extend_from_slice(&[u8::from(opcode), byte])
}

/// Writes an opcode and an operand of two bytes.
fn put_with_u16(out: &mut Vec<u8>, opcode: Opcode, number: u16) -> Result<(), AllocError>
    ensures { OnOk result
        (out.new.items ≡ out.old.items ++ opcode_byte opcode ∷ u16_bytes number) }
{
    put_opcode(out, opcode)?;
    put_u16(out, number)
}

/// Writes an opcode and operands of one and of two bytes.
fn put_with_both(out: &mut Vec<u8>, opcode: Opcode, byte: u8, number: u16) -> Result<(), AllocError>
    ensures { OnOk result
        (out.new.items ≡ out.old.items ++ opcode_byte opcode ∷ byte ∷ u16_bytes number) }
{
    put_with_byte(out, opcode, byte)?;
    put_u16(out, number)
}

#[tactic(auto, unfolding(crate::specs::Parts::carrier))]
fn put_edit(out: &mut Vec<u8>, edit: Edit) -> Result<(), AllocError>
    ensures { OnOk result (out.new.items ≡ out.old.items ++ edit_bytes edit) }
{
    match edit {
        Edit::AddSub(sub) => {
            put_opcode(out, Opcode::AddSub)?;
            put_new_sub(out, sub)
        }
        Edit::DropSub(id) => put_with_byte(out, Opcode::DropSub, id.get()),
        Edit::MoveSub { id, start } => {
            put_with_both(out, Opcode::MoveSub, id.get(), start.get())
        }
        Edit::RateSub { id, kbits } => put_with_both(out, Opcode::RateSub, id.get(), kbits),
        Edit::AddService(sid) => {
            put_opcode(out, Opcode::AddService)?;
            put_sid(out, sid)
        }
        Edit::DropService(sid) => {
            put_opcode(out, Opcode::DropService)?;
            put_sid(out, sid)
        }
        Edit::AddComponent { sid, component } => {
            put_opcode(out, Opcode::AddComponent)?;
            put_sid(out, sid)?;
            put_component(out, &component)
        }
        Edit::DropComponent { sid, carrier } => {
            put_opcode(out, Opcode::DropComponent)?;
            put_sid(out, sid)?;
            put_carrier(out, carrier)
        }
        Edit::AddPacket(packet) => {
            put_opcode(out, Opcode::AddPacket)?;
            put_new_packet(out, packet)
        }
        Edit::DropPacket(scid) => put_with_u16(out, Opcode::DropPacket, scid.get()),
    }
}

/// The number of a frame of the day, or the one for none.
fn day_frame_number(frame: Option<DayFrame>) -> u32
    ensures { result ≡ day_frame_number frame }
{
    match frame {
        Some(frame) => frame.get(),
        None => NO_DAY_FRAME,
    }
}

/// The number of frames, or 0 for none.
fn frames_number(frames: Option<Frames>) -> u16
    ensures { result ≡ frames_number frames }
{
    match frames {
        Some(frames) => frames.get(),
        None => 0,
    }
}

fn put_wait_any(
    out: &mut Vec<u8>,
    closed: Contacts,
    opened: Contacts,
    until: Option<DayFrame>,
    frames: Option<Frames>,
) -> Result<(), AllocError>
    ensures { OnOk result (out.new.items
        ≡ out.old.items ++ instr_bytes (WaitAny closed opened until frames)) }
{
    put_with_u16(out, Opcode::WaitAny, closed.0)?;
    put_u16(out, opened.0)?;
    put_u32(out, day_frame_number(until))?;
    put_u16(out, frames_number(frames))
}

fn put_test_time(
    out: &mut Vec<u8>,
    from: DayFrame,
    to: DayFrame,
    target: u16,
) -> Result<(), AllocError>
    ensures { OnOk result (out.new.items
        ≡ out.old.items ++ instr_bytes (TestTime from to target)) }
{
    put_opcode(out, Opcode::TestTime)?;
    put_u32(out, from.get())?;
    put_u32(out, to.get())?;
    put_u16(out, target)
}

fn put_instr(out: &mut Vec<u8>, instr: Instr) -> Result<(), AllocError>
    ensures { OnOk result (out.new.items ≡ out.old.items ++ instr_bytes instr) }
{
    match instr {
        Instr::Wait(frames) => put_with_u16(out, Opcode::Wait, frames.get()),
        Instr::Until(frame) => {
            put_opcode(out, Opcode::Until)?;
            put_u32(out, frame.get())
        }
        Instr::WaitContact { contact, closed } => {
            put_with_byte(out, Opcode::WaitContact, contact.get())?;
            out.extend_from_slice(&[u8::from(closed)])
        }
        Instr::WaitAny {
            closed,
            opened,
            until,
            frames,
        } => put_wait_any(out, closed, opened, until, frames),
        Instr::CommitIn(delay) => put_with_u16(out, Opcode::CommitIn, delay.get()),
        Instr::CommitAt(count) => put_with_u16(out, Opcode::CommitAt, count),
        Instr::Join => put_opcode(out, Opcode::Join),
        Instr::End => put_opcode(out, Opcode::End),
        Instr::Settle => put_opcode(out, Opcode::Settle),
        Instr::Edit(edit) => put_edit(out, edit),
        Instr::Test { contact, target } => {
            put_with_both(out, Opcode::Test, contact.get(), target)
        }
        Instr::Jump(target) => put_with_u16(out, Opcode::Jump, target),
        Instr::Set { counter, times } => {
            put_with_both(out, Opcode::Set, counter.get(), times.get())
        }
        Instr::Loop { counter, target } => {
            put_with_both(out, Opcode::Loop, counter.get(), target)
        }
        Instr::TestTime { from, to, target } => put_test_time(out, from, to, target),
    }
}

fn put_configs(out: &mut Vec<u8>, configs: &[Config]) -> Result<(), AllocError>
    ensures { OnOk result (out.new.items ≡ out.old.items ++ flat_map config_bytes configs.now) }
{
    for config in configs {
        put_config(out, config)?;
    }
    Ok(())
}

fn put_labels(out: &mut Vec<u8>, labels: &[Label]) -> Result<(), AllocError>
    ensures { OnOk result (out.new.items ≡ out.old.items ++ flat_map label_bytes labels.now) }
{
    for label in labels {
        put_label(out, *label)?;
    }
    Ok(())
}

#[tactic(auto, unfolding(crate::specs::Parts::line, crate::specs::Parts::instr))]
fn put_lines(out: &mut Vec<u8>, lines: &[Line]) -> Result<(), AllocError>
    ensures { OnOk result (out.new.items ≡ out.old.items ++ flat_map line_bytes lines.now) }
{
    for line in lines {
        put_u16(out, line.number)?;
        put_instr(out, line.instr)?;
    }
    Ok(())
}

#[tactic(auto, unfolding(crate::specs::Parts::label, crate::specs::Parts::swap))]
fn put_label(out: &mut Vec<u8>, label: Label) -> Result<(), AllocError>
    ensures { OnOk result (out.new.items ≡ out.old.items ++ label_bytes label) }
{
    put_u16(out, label.pc)?;
    put_u16(out, label.cur)?;
    put_u16(out, label.next)?;
    put_swap(out, label.pending)?;
    let Counters(counters) = label.counters;
    out.extend_from_slice(&[counters, label.cost])
}

fn file(alloc: Global, code: &Code) -> Result<Vec<u8>, AllocError>
    ensures spelled { IfOk result (λ v. v.items ≡ code_bytes code.now) }
    ensures formed { IsProgram code.now }
{
    let plan = code.plan();
    let mut out = Vec::new(alloc);
    put_u32(&mut out, MAGIC)?;
    put_plan(&mut out, plan)?;
    put_u16(&mut out, code.configs().len() as u16)?;
    put_u16(&mut out, code.labels().len() as u16)?;
    put_u16(&mut out, code.lines().len() as u16)?;
    put_configs(&mut out, code.configs())?;
    put_labels(&mut out, code.labels())?;
    put_lines(&mut out, code.lines())?;
    Ok(out)
}

/// Encodes a code as a file. Decoding it gives the code again.
pub fn encode(alloc: Global, code: &Code) -> Result<Vec<u8>, AllocError>
    ensures spelled { IfOk result (λ v. v.items ≡ code_bytes code.now) }
    ensures again { IfOk result (λ v. code_of v.items ≡ Ok code.now) }
{
    file(alloc, code)
}
