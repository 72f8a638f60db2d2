//! Printing the header, items and statements without a block; items and statements without
//! indentation and line end.

ghost use Rattle.std.specs.Prelude.{◌≡◌, ◌++◌, [], OnOk, string_bytes};
ghost use Rattle.std.specs.Fmt.{decimal};
ghost use Rattle.mux_config.specs.declared.edit.Edit.TheVariants.{AddSub, AddPacket, AddComponent};
ghost use Rattle.mux_config.specs.declared.edit.Edit.TheVariants.{DropComponent};
ghost use Rattle.script_front.specs.declared.tree.Act.TheVariants.{Until, WaitAny, WaitContact};
ghost use Rattle.script_tokens.specs.Spelling.{hex_byte, hex_text, sid_text, profile_text};
ghost use Rattle.script_front.specs.Spelled.{carried_lexemes, carrier_lexemes, within_lexemes};
ghost use Rattle.script_front.specs.Spelled.{edit_lexemes, act_lexemes, mode_lexemes};
ghost use Rattle.script_front.specs.Spelled.{reserve_lexemes, limits_lexemes};
ghost use Rattle.script_front.specs.Printing.{spaced, each_after, limits_line, header_lines};
ghost use Rattle.script_front.specs.Printing.{line_text, text_of_lines};

use crate::alternatives::Alternatives;
use crate::moment::Moment;
use crate::tree::Act;
use crate::wait_lexemes::{put_alternatives, put_moment};
use fib_codec::{FrameLayout, Mode};
use mux_config::{Carrier, Component, Edit, NewSub, Packet, ScTy, Sid, SubId};
use mux_eep::{EepSet, Protection};
use plan_code::{ContactId, Plan};
use std::alloc::AllocError;
use std::fmt::Write;

/// Two digits 0-9 or A-F.
#[tactic(auto, using(crate::proofs::Printed::printed_byte))]
fn put_byte(out: &mut String, byte: u8) -> Result<(), AllocError>
    ensures { OnOk result (string_bytes out.new ≡ string_bytes out.old ++ hex_byte byte) }
{
    write!(out, "{byte:02X}")
}

/// Four digits 0-9 or A-F.
fn put_hex_u16(out: &mut String, word: u16) -> Result<(), AllocError>
    ensures { OnOk result (string_bytes out.new ≡ string_bytes out.old ++ hex_text word) }
{
    put_byte(out, (word / 256) as u8)?;
    put_byte(out, (word % 256) as u8)?;
    Ok(())
}

/// An SId: four digits for a short one, eight for a long one.
fn put_sid(out: &mut String, sid: Sid) -> Result<(), AllocError>
    ensures { OnOk result (string_bytes out.new ≡ string_bytes out.old ++ sid_text sid) }
{
    match sid {
        Sid::Short(number) => put_hex_u16(out, number),
        Sid::Long(number) => {
            put_hex_u16(out, (number / 65_536) as u16)?;
            put_hex_u16(out, (number % 65_536) as u16)?;
            Ok(())
        }
    }
}

/// A protection profile, for example `3-A`.
#[tactic(auto, using(crate::proofs::Printed::digit))]
fn put_profile(out: &mut String, protection: Protection) -> Result<(), AllocError>
    ensures { OnOk result (string_bytes out.new ≡ string_bytes out.old ++ profile_text protection) }
{
    let level = protection.level();
    match protection.set() {
        EepSet::A => write!(out, "{level}-A"),
        EepSet::B => write!(out, "{level}-B"),
    }
}

/// `sub ID at START eep PROFILE RATE`
#[tactic(auto, unfolding(script_tokens::specs::Keywords::letters))]
fn put_new_sub(out: &mut String, sub: NewSub) -> Result<(), AllocError>
    ensures { OnOk result (string_bytes out.new ≡ string_bytes out.old ++ spaced (edit_lexemes
        (AddSub sub))) }
{
    let sub = sub.get();
    let id = sub.id.get();
    let start = sub.start;
    let kbits = sub.kbits;
    write!(out, "sub {id} at {start} eep ")?;
    put_profile(out, sub.protection)?;
    write!(out, " {kbits}")
}

/// `packet SCID groups type TYPE sub ID address ADDR`, or with `raw` in place of `groups`
#[tactic(auto, unfolding(script_tokens::specs::Keywords::letters))]
fn put_packet(out: &mut String, packet: Packet) -> Result<(), AllocError>
    ensures { OnOk result (string_bytes out.new ≡ string_bytes out.old ++ spaced (edit_lexemes
        (AddPacket packet))) }
{
    let scid = packet.scid.get();
    let ty = packet.ty.get();
    let sub = packet.sub.get();
    let address = packet.address;
    if packet.dg {
        write!(
            out,
            "packet {scid} raw type {ty} sub {sub} address {address}"
        )
    } else {
        write!(
            out,
            "packet {scid} groups type {ty} sub {sub} address {address}"
        )
    }
}

/// `audio`, `data` or `carry` with its arguments, up to `in`.
#[tactic(auto, unfolding(script_tokens::specs::Keywords::letters))]
fn put_carried(out: &mut String, component: Component) -> Result<(), AllocError>
    ensures { OnOk result (string_bytes out.new ≡ string_bytes out.old ++ spaced (carried_lexemes
        component)) }
{
    match component {
        Component::Sound { ty, sub } => {
            let ty = ty.get();
            let sub = sub.get();
            write!(out, "audio {ty} sub {sub}")
        }
        Component::Stream { ty, sub } => {
            let ty = ty.get();
            let sub = sub.get();
            write!(out, "data {ty} sub {sub}")
        }
        Component::Packet { scid } => {
            let scid = scid.get();
            write!(out, "carry {scid}")
        }
    }
}

/// A space, then the carrier of a component: `sub ID` or `packet SCID`.
#[tactic(auto, unfolding(script_tokens::specs::Keywords::letters))]
fn put_carrier(out: &mut String, carrier: Carrier) -> Result<(), AllocError>
    ensures { OnOk result (string_bytes out.new ≡ string_bytes out.old ++ each_after
        (carrier_lexemes carrier)) }
{
    match carrier {
        Carrier::Sub(id) => {
            let id = id.get();
            write!(out, " sub {id}")
        }
        Carrier::Packet(scid) => {
            let scid = scid.get();
            write!(out, " packet {scid}")
        }
    }
}

/// A space, then the service of a component: `in SID`.
#[tactic(auto, unfolding(script_tokens::specs::Keywords::letters))]
fn put_in(out: &mut String, sid: Sid) -> Result<(), AllocError>
    ensures { OnOk result (string_bytes out.new ≡ string_bytes out.old ++ each_after (within_lexemes
        sid)) }
{
    out.push_str(" in ")?;
    put_sid(out, sid)?;
    Ok(())
}

/// A component added to a service.
#[tactic(auto, using(crate::proofs::Printed::component_put))]
fn put_component(out: &mut String, sid: Sid, component: Component) -> Result<(), AllocError>
    ensures { OnOk result (string_bytes out.new ≡ string_bytes out.old ++ spaced (edit_lexemes
        (AddComponent sid component))) }
{
    put_carried(out, component)?;
    put_in(out, sid)?;
    Ok(())
}

/// A component dropped from a service, by its carrier.
fn put_dropped(out: &mut String, sid: Sid, carrier: Carrier) -> Result<(), AllocError>
    ensures { OnOk result (string_bytes out.new ≡ string_bytes out.old ++ spaced (edit_lexemes
        (DropComponent sid carrier))) }
{
    out.push_str("drop component")?;
    put_carrier(out, carrier)?;
    put_in(out, sid)?;
    Ok(())
}

/// A service added or dropped: these keywords, then the SId.
fn put_after(out: &mut String, lexemes: &str, sid: Sid) -> Result<(), AllocError>
    ensures { OnOk result (string_bytes out.new ≡ string_bytes out.old ++ (lexemes.now ++ sid_text
        sid)) }
{
    out.push_str(lexemes)?;
    put_sid(out, sid)?;
    Ok(())
}

/// An edit.
#[tactic(auto, unfolding(script_tokens::specs::Keywords::letters))]
pub fn put_edit(out: &mut String, edit: Edit) -> Result<(), AllocError>
    ensures { OnOk result (string_bytes out.new ≡ string_bytes out.old ++ spaced (edit_lexemes
        edit)) }
{
    match edit {
        Edit::AddSub(sub) => put_new_sub(out, sub),
        Edit::AddService(sid) => put_after(out, "service ", sid),
        Edit::AddComponent { sid, component } => put_component(out, sid, component),
        Edit::AddPacket(packet) => put_packet(out, packet),
        Edit::DropSub(id) => {
            let id = id.get();
            write!(out, "drop sub {id}")
        }
        Edit::MoveSub { id, start } => {
            let id = id.get();
            let start = start.get();
            write!(out, "move sub {id} at {start}")
        }
        Edit::RateSub { id, kbits } => {
            let id = id.get();
            write!(out, "rate sub {id} {kbits}")
        }
        Edit::DropPacket(scid) => {
            let scid = scid.get();
            write!(out, "drop packet {scid}")
        }
        Edit::DropService(sid) => put_after(out, "drop service ", sid),
        Edit::DropComponent { sid, carrier } => put_dropped(out, sid, carrier),
    }
}

/// `until MOMENT`
#[tactic(auto, using(crate::proofs::PrintedWaits::until_put))]
fn put_until(out: &mut String, moment: Moment) -> Result<(), AllocError>
    ensures { OnOk result (string_bytes out.new ≡ string_bytes out.old ++ spaced (act_lexemes (Until
        moment))) }
{
    out.push_str("until")?;
    put_moment(out, moment)?;
    Ok(())
}

/// `wait ALT or ALT ..`
#[tactic(auto, using(crate::proofs::PrintedWaits::any_put))]
fn put_any(out: &mut String, alternatives: &Alternatives) -> Result<(), AllocError>
    ensures { OnOk result (string_bytes out.new ≡ string_bytes out.old ++ spaced (act_lexemes
        (WaitAny alternatives.now))) }
{
    out.push_str("wait")?;
    put_alternatives(out, alternatives)?;
    Ok(())
}

/// `wait contact C closed` or `open`
#[tactic(auto, unfolding(script_tokens::specs::Keywords::letters))]
fn put_waiting(out: &mut String, contact: ContactId, closed: bool) -> Result<(), AllocError>
    ensures { OnOk result (string_bytes out.new ≡ string_bytes out.old ++ spaced (act_lexemes
        (WaitContact contact closed))) }
{
    let contact = contact.get();
    if closed {
        write!(out, "wait contact {contact} closed")
    } else {
        write!(out, "wait contact {contact} open")
    }
}

/// A statement without a block.
#[tactic(auto, unfolding(script_tokens::specs::Keywords::letters))]
pub fn put_act(out: &mut String, act: Act) -> Result<(), AllocError>
    ensures { OnOk result (string_bytes out.new ≡ string_bytes out.old
        ++ spaced (act_lexemes act)) }
{
    match act {
        Act::Edit(edit) => put_edit(out, edit),
        Act::Wait(frames) => {
            let frames = frames.get();
            write!(out, "wait {frames}")
        }
        Act::WaitContact { contact, closed } => put_waiting(out, contact, closed),
        Act::Until(moment) => put_until(out, moment),
        Act::WaitAny(alternatives) => put_any(out, &alternatives),
        Act::CommitIn(delay) => {
            let delay = delay.get();
            write!(out, "commit in {delay}")
        }
        Act::CommitAt(count) => write!(out, "commit at {count}"),
        Act::Join => out.push_str("join"),
        Act::Settle => out.push_str("settle"),
    }
}

/// A space, then `mode MODE`; nothing for mode I.
#[tactic(auto, unfolding(script_tokens::specs::Keywords::letters), using(crate::proofs::Printed::digit))]
fn put_mode(out: &mut String, mode: Mode) -> Result<(), AllocError>
    ensures { OnOk result (string_bytes out.new ≡ string_bytes out.old ++ each_after (mode_lexemes
        mode)) }
{
    match mode {
        Mode::I => Ok(()),
        Mode::II => out.push_str(" mode 2"),
        Mode::III => out.push_str(" mode 3"),
        Mode::IV => out.push_str(" mode 4"),
    }
}

/// A space, then `reserve R`; nothing where no FIB is reserved.
#[tactic(auto, unfolding(script_tokens::specs::Keywords::letters), using(crate::proofs::Printed::digit))]
fn put_reserve(out: &mut String, layout: FrameLayout) -> Result<(), AllocError>
    ensures { OnOk result (string_bytes out.new ≡ string_bytes out.old ++ each_after
        (reserve_lexemes layout)) }
{
    match layout {
        FrameLayout::Whole(_) => Ok(()),
        FrameLayout::ReserveOne(_) => out.push_str(" reserve 1"),
        FrameLayout::ReserveTwo => out.push_str(" reserve 2"),
    }
}

/// `period P notice W budget B`
#[tactic(auto, unfolding(script_tokens::specs::Keywords::letters))]
fn put_limits(out: &mut String, header: Plan) -> Result<(), AllocError>
    ensures { OnOk result (string_bytes out.new ≡ string_bytes out.old ++ spaced (limits_lexemes
        header [])) }
{
    let period = header.period;
    let notice = header.notice;
    let budget = header.budget;
    write!(out, "period {period} notice {notice} budget {budget}")
}

/// `period P notice W budget B [reserve R]`, with the line end.
#[tactic(auto, using(crate::proofs::Printed::limits_put))]
fn put_limits_line(out: &mut String, header: Plan) -> Result<(), AllocError>
    ensures { OnOk result (string_bytes out.new ≡ string_bytes out.old ++ line_text (limits_line
        header)) }
{
    put_limits(out, header)?;
    put_reserve(out, header.layout)?;
    out.push_str("\n")?;
    Ok(())
}

/// The two lines of a header.
pub fn put_header(out: &mut String, header: Plan) -> Result<(), AllocError>
    ensures { OnOk result (string_bytes out.new ≡ string_bytes out.old ++ text_of_lines
        (header_lines header)) }
{
    out.push_str("ensemble ")?;
    put_hex_u16(out, header.eid)?;
    put_mode(out, header.layout.mode())?;
    out.push_str("\n")?;
    put_limits_line(out, header)?;
    Ok(())
}
