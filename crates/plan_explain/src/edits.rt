//! Corrections of refused edits and of configurations that are not sound, each tried; and advice,
//! where none of them helps.

use crate::fact::{Fact, is_missing};
use crate::room::{edited_sub, free_address, has_room, most_rate, near_rates, rate_step, room_for};
use crate::trier::Trier;
use crate::words::{Digits, Part, edit_words, part_words, sub_words};
use mux_config::{Carrier, Component, Config, Edit, EditFault, Packet, Sid, Store, Sub, SubId};
use mux_eep::{CAPACITY_UNITS, EepFault, size_of};
use std::alloc::AllocError;
use std::io::{self, Write};

/// Tries an edit before the refused statement.
fn put_edit(trier: &mut Trier, edit: Edit) -> Result<(), AllocError> {
    let words = edit_words(trier.alloc, edit)?;
    trier.put(words.as_str())
}

/// Tries to move a sub-channel to its start before the refused statement.
fn put_move(trier: &mut Trier, sub: &Sub) -> Result<(), AllocError> {
    let words = format!(in trier.alloc; "move sub {} at {}", sub.id.get(), sub.start)?;
    trier.put(words.as_str())
}

/// Tries the same edit so that the sub-channel is this one.
fn write_sub(trier: &mut Trier, edit: &Edit, sub: &Sub) -> Result<(), AllocError> {
    let (id, start, kbits) = (sub.id.get(), sub.start, sub.kbits);
    let words = match edit {
        Edit::MoveSub { .. } => format!(in trier.alloc; "move sub {id} at {start}")?,
        Edit::RateSub { .. } => format!(in trier.alloc; "rate sub {id} {kbits}")?,
        _ => sub_words(trier.alloc, sub)?,
    };
    trier.write(words.as_str())
}

/// Tries other words in the place of some before the refused statement.
fn write_before(trier: &mut Trier, old: &str, new: &str) -> Result<(), AllocError> {
    let spot = trier.last_spot(old)?;
    trier.write_at(spot, new)
}

/// Tries to leave out an edit before the refused statement.
fn leave_out_before(trier: &mut Trier, edit: Edit) -> Result<(), AllocError> {
    let words = edit_words(trier.alloc, edit)?;
    let spot = trier.last_spot(words.as_str())?;
    trier.write_at(spot, "")
}

/// The component of a service on a carrier, if it has one.
fn component_on(config: &Config, sid: Sid, carrier: Carrier) -> Option<Component> {
    let mut components = config.service(sid)?.components.as_slice().iter().copied();
    components.find(|component| component.carrier() == carrier)
}

/// Corrections of an added sub-channel whose number is used: without it, if it is there as it is
/// added; with the other dropped before; with the first free number.
fn try_used_sub(
    trier: &mut Trier,
    config: &Config,
    edit: &Edit,
    sub: &Sub,
) -> Result<(), AllocError> {
    if config.sub(sub.id) == Some(*sub) {
        trier.leave_out()?;
    }
    put_edit(trier, Edit::DropSub(sub.id))?;
    let mut ids = (0u8..64).filter_map(|number| SubId::new(number));
    match ids.find(|id| config.sub(*id).is_none()) {
        Some(id) => write_sub(trier, edit, &Sub { id, ..*sub }),
        None => Ok(()),
    }
}

/// The hint on an addition of what is there.
fn hint_on_used(trier: &mut Trier, config: &Config, edit: &Edit) -> io::Result<()> {
    let advice = match edit {
        Edit::AddSub(sub) => {
            try_used_sub(trier, config, edit, &sub.get())?;
            "'drop' it first, or take another number"
        }
        Edit::AddPacket(packet) => {
            put_edit(trier, Edit::DropPacket(packet.scid))?;
            "'drop' it first, or take another number"
        }
        Edit::AddService(_) => {
            trier.leave_out()?;
            "'drop service' first, or take another SId"
        }
        Edit::AddComponent { sid, component } => {
            if component_on(config, *sid, component.carrier()) == Some(*component) {
                trier.leave_out()?;
            }
            let (sid, carrier) = (*sid, component.carrier());
            put_edit(trier, Edit::DropComponent { sid, carrier })?;
            "'drop component' first, or name another sub-channel or packet component"
        }
        _ => "",
    };
    trier.advice.write_all(advice.as_bytes())
}

/// The hint on an edit of what is not there.
fn hint_on_absent(trier: &mut Trier, config: &Config, edit: &Edit) -> io::Result<()> {
    match edit {
        Edit::DropSub(_) | Edit::DropService(_) | Edit::DropPacket(_) => trier.leave_out()?,
        Edit::DropComponent { sid, .. } => {
            trier.leave_out()?;
            let advice = match config.service(*sid) {
                Some(service) if service.components.len() == 0 => "there is no component in it",
                Some(_) => "name one that it has",
                None => "",
            };
            trier.advice.write_all(advice.as_bytes())?;
        }
        Edit::MoveSub { .. } | Edit::RateSub { .. } => {
            if let [only] = config.subs() {
                let meant = match edit {
                    Edit::MoveSub { start, .. } => Sub {
                        start: start.get(),
                        ..*only
                    },
                    Edit::RateSub { kbits, .. } => Sub {
                        kbits: *kbits,
                        ..*only
                    },
                    _ => *only,
                };
                write_sub(trier, edit, &meant)?;
            }
        }
        Edit::AddComponent { sid, .. } => {
            let service = edit_words(trier.alloc, Edit::AddService(*sid))?;
            trier.move_behind(service.as_str())?;
            trier.put(service.as_str())?;
            write!(&mut trier.advice, "add it first, as '{service}' does")?;
        }
        _ => {}
    }
    Ok(())
}

/// The hint on an edit that would make a sub-channel end after the multiplex: a start at which it
/// fits.
fn hint_on_end(trier: &mut Trier, config: &Config, edit: &Edit, sub: &Sub) -> io::Result<()> {
    let units = size_of(sub.protection, sub.kbits).unwrap_or(0);
    let latest = CAPACITY_UNITS.saturating_sub(units);
    let start = if has_room(config, sub, u32::from(latest)) {
        latest
    } else {
        room_for(config, sub).unwrap_or(latest)
    };
    let moved = Sub { start, ..*sub };
    if let Edit::RateSub { .. } = edit {
        put_move(trier, &moved)?;
    } else {
        write_sub(trier, edit, &moved)?;
    }
    write!(
        &mut trier.advice,
        "it can begin at {latest} at most; where its start and its rate change, 'move' before a \
         rate that grows"
    )
}

/// The hint on an edit that gives a sub-channel a rate without a size: the nearest rates with one.
fn hint_on_rate(trier: &mut Trier, edit: &Edit, sub: &Sub) -> io::Result<()> {
    match size_of(sub.protection, sub.kbits) {
        Ok(_size) => Ok(()),
        Err(EepFault::ZeroRate) => {
            trier
                .advice
                .write_all(b"'drop sub' takes a sub-channel away")
        }
        Err(EepFault::NotMultiple) => {
            for kbits in near_rates(sub) {
                write_sub(trier, edit, &Sub { kbits, ..*sub })?;
            }
            let step = rate_step(sub.protection);
            let low = sub.kbits.saturating_sub(sub.kbits % step);
            let high = u32::from(low) + u32::from(step);
            if low == 0 {
                return write!(&mut trier.advice, "{high} is");
            }
            write!(&mut trier.advice, "{low} and {high} are")
        }
        Err(EepFault::PastMultiplex) => {
            let kbits = most_rate(sub.protection);
            write_sub(trier, edit, &Sub { kbits, ..*sub })?;
            write!(
                &mut trier.advice,
                "{kbits} kbit/s is the most at this profile"
            )
        }
    }
}

/// The hint on a refused edit: corrections, and advice for where none of them helps. The
/// corrections look at this configuration.
pub(crate) fn hint_on_edit(
    trier: &mut Trier,
    config: &Config,
    edit: &Edit,
    fault: EditFault,
) -> io::Result<()> {
    let advice = match (fault, edited_sub(config, edit)) {
        (EditFault::IdUsed, _) => return hint_on_used(trier, config, edit),
        (EditFault::IdAbsent, _) => return hint_on_absent(trier, config, edit),
        (EditFault::PastEnd, Some(sub)) => return hint_on_end(trier, config, edit, &sub),
        (EditFault::BadRate, Some(sub)) => return hint_on_rate(trier, edit, &sub),
        (EditFault::PastEnd | EditFault::BadRate, None) => "",
        (EditFault::TooManyComponents, _) => "put some of them into another service",
        (EditFault::TableFull, _) => "'drop' one first",
        (EditFault::BadAddress, _) => "packet addresses are 1 to 1023",
    };
    trier.advice.write_all(advice.as_bytes())
}

/// Corrections of a sub-channel that shares capacity units: a start at which it has room.
fn try_room(trier: &mut Trier, config: &Config, sub: &Sub) -> Result<(), AllocError> {
    let Some(start) = room_for(config, sub) else {
        return Ok(());
    };
    let moved = Sub { start, ..*sub };
    let old = sub_words(trier.alloc, sub)?;
    let new = sub_words(trier.alloc, &moved)?;
    write_before(trier, old.as_str(), new.as_str())?;
    put_move(trier, &moved)
}

/// The hint on a service with a component on a carrier that is not there.
fn hint_on_orphan(
    trier: &mut Trier,
    config: &Config,
    sid: &Sid,
    carrier: &Carrier,
) -> io::Result<()> {
    let mut has_others = false;
    if let Some(service) = config.service(*sid) {
        let mut components = service.components.as_slice().iter();
        has_others = components.any(|component| !is_missing(config, component.carrier()));
    }
    let drop = if has_others {
        Edit::DropComponent {
            sid: *sid,
            carrier: *carrier,
        }
    } else {
        Edit::DropService(*sid)
    };
    put_edit(trier, drop)?;
    if let Some(component) = component_on(config, *sid, *carrier) {
        let sid = *sid;
        leave_out_before(trier, Edit::AddComponent { sid, component })?;
    }
    let (on, of) = (Part::Carrier(*carrier), Digits(*sid));
    if has_others {
        return write!(
            &mut trier.advice,
            "'drop component {on} in {of}' as well, or add what it names"
        );
    }
    write!(
        &mut trier.advice,
        "'drop service {of}' as well, which has no other component; or 'drop component {on} in \
         {of}' and give it another one; or add what it names"
    )
}

/// The hint on a configuration that is not sound, by the fact that it has this.
pub(crate) fn hint_on_config(trier: &mut Trier, config: &Config, fact: &Fact) -> io::Result<()> {
    match fact {
        Fact::Shared(overlap) => {
            try_room(trier, config, &overlap.second)?;
            try_room(trier, config, &overlap.first)?;
            let (id, out) = (overlap.second.id.get(), &mut trier.advice);
            match room_for(config, &overlap.second) {
                Some(start) => write!(out, "sub {id} has room at {start}"),
                None => write!(
                    out,
                    "nothing has room for sub {id}: move others, or lower a rate"
                ),
            }
        }
        Fact::Orphan(sid, carrier) => hint_on_orphan(trier, config, sid, carrier),
        Fact::OrphanPacket(packet) => {
            put_edit(trier, Edit::DropPacket(packet.scid))?;
            leave_out_before(trier, Edit::AddPacket(*packet))?;
            let scid = packet.scid.get();
            write!(
                &mut trier.advice,
                "'drop packet {scid}' as well, or add the sub-channel"
            )
        }
        Fact::SameAddress(_, twin) => {
            let address = free_address(config, twin.sub);
            let other = Packet { address, ..*twin };
            let old = part_words(trier.alloc, Part::Packet(*twin))?;
            let words = edit_words(trier.alloc, Edit::AddPacket(other))?;
            write_before(trier, old.as_str(), words.as_str())?;
            trier
                .advice
                .write_all(b"give one of them another address, 1 to 1023")
        }
        Fact::Empty(sid) => {
            put_edit(trier, Edit::DropService(*sid))?;
            leave_out_before(trier, Edit::AddService(*sid))?;
            write!(
                &mut trier.advice,
                "'drop service {}', or add a component",
                Digits(*sid)
            )
        }
        _ => Ok(()),
    }
}
