//! Says why an edit or a configuration is refused, by the facts that hold there.

use crate::because::{Blame, ExecutedStatement, blamed_line};
use crate::fact::Fact;
use crate::room::{edited_sub, rate_step, step_units};
use crate::stop::{Stop, cause_of};
use crate::trier::Trier;
use crate::words::{Digits, Part, Profile, put_fact};
use mux_config::{Carrier, Config, Edit, EditFault, Store, Sub};
use mux_eep::{EepFault, size_of};
use plan_code::Instr;
use plan_verifier::Cause;
use std::io::{self, Write};

/// Writes a fact about a refusal that is not of two paths.
pub(crate) fn put_plain<W: Write>(fact: &Fact, stop: &Stop, out: &mut W) -> io::Result<()> {
    put_fact(fact, stop, ["", ""], out)
}

/// Writes that there are members of this kind, or that there is none.
fn put_kind<W: Write>(kind: &str, is_none: bool, out: &mut W) -> io::Result<()> {
    if is_none {
        return write!(out, "; there is no {kind}");
    }
    write!(out, "; the {kind}s there are")
}

/// Writes the sub-channels or the services of a configuration, if one of these is not there by a
/// fact.
fn put_others<W: Write>(config: &Config, fact: &Fact, out: &mut W) -> io::Result<()> {
    match fact {
        Fact::Lacks(Carrier::Sub(_)) => {
            put_kind("sub-channel", config.subs().is_empty(), out)?;
            for sub in config.subs() {
                write!(out, " {}", sub.id.get())?;
            }
        }
        Fact::LacksService(_) => {
            put_kind("service", config.services().is_empty(), out)?;
            for service in config.services() {
                write!(out, " {}", Digits(service.sid))?;
            }
        }
        _ => {}
    }
    Ok(())
}

/// Writes which line is to blame for a refusal by what it does, if one is found: what it did, if
/// that was tried.
fn put_blame<W: Write>(
    trier: &Trier,
    stop: &Stop,
    executed: ExecutedStatement,
    out: &mut W,
) -> io::Result<bool> {
    let Some(Blame { line, is_tried }) = blamed_line(trier, stop, &executed)? else {
        return Ok(false);
    };
    let (did, does) = match executed {
        ExecutedStatement::Adds(_) => ("added", "adds"),
        ExecutedStatement::Drops(_) => ("dropped", "drops"),
        ExecutedStatement::Changes(_) => ("changed", "changes"),
    };
    let verb = if is_tried { did } else { does };
    match executed {
        ExecutedStatement::Changes(id) => write!(out, "; line {line} {verb} sub {}", id.get())?,
        _ => write!(out, "; line {line} {verb} it")?,
    }
    Ok(true)
}

/// Writes a fact about the configuration of a refusal, and which line is to blame for it, or else
/// what is there.
fn put_member<W: Write>(fact: &Fact, stop: &Stop, trier: &Trier, out: &mut W) -> io::Result<()> {
    put_plain(fact, stop, out)?;
    let executed = match *fact {
        Fact::HasSub(sub) => ExecutedStatement::Adds(Carrier::Sub(sub.id)),
        Fact::HasPacket(packet) => ExecutedStatement::Adds(Carrier::Packet(packet.scid)),
        Fact::Lacks(carrier) | Fact::Orphan(_, carrier) => ExecutedStatement::drops(carrier),
        Fact::LacksService(sid) => ExecutedStatement::Drops(Edit::DropService(sid)),
        Fact::LacksComponent(sid, carrier) => {
            ExecutedStatement::Drops(Edit::DropComponent { sid, carrier })
        }
        Fact::OrphanPacket(packet) => ExecutedStatement::drops(Carrier::Sub(packet.sub)),
        Fact::Shared(overlap) => {
            put_blame(
                trier,
                stop,
                ExecutedStatement::Changes(overlap.first.id),
                out,
            )?;
            ExecutedStatement::Changes(overlap.second.id)
        }
        _ => return Ok(()),
    };
    if put_blame(trier, stop, executed, out)? {
        return Ok(());
    }
    put_others(&stop.here.next, fact, out)
}

/// Says why an edit of a sub-channel is refused: it would end after the multiplex, or have a rate
/// without a size.
fn put_size<W: Write>(sub: &Sub, out: &mut W) -> io::Result<()> {
    let (protection, kbits, start) = (sub.protection, sub.kbits, sub.start);
    let step = rate_step(protection);
    match size_of(protection, kbits) {
        Ok(units) => {
            let last = (u32::from(start) + u32::from(units)).saturating_sub(1);
            write!(
                out,
                "{} has {units} CU, so CU {start} to {last}; the last one is 863",
                Part::Sub(*sub)
            )
        }
        Err(EepFault::ZeroRate) => out.write_all(b"a rate of 0 kbit/s has no size"),
        Err(EepFault::NotMultiple) => write!(
            out,
            "a rate of {kbits} kbit/s is no multiple of {step}, as those of the profile are"
        ),
        Err(EepFault::PastMultiplex) => {
            let wanted = u32::from(kbits / step).saturating_mul(step_units(protection));
            write!(
                out,
                "{kbits} kbit/s at {} would take {wanted} CU; a multiplex has 864",
                Profile(protection)
            )
        }
    }
}

/// Says why an edit is refused where no fact explains it.
fn put_edit<W: Write>(
    config: &Config,
    edit: &Edit,
    fault: EditFault,
    out: &mut W,
) -> io::Result<()> {
    match (fault, edit) {
        (EditFault::TooManyComponents, Edit::AddComponent { sid, .. }) => {
            let Some(service) = config.service(*sid) else {
                return Ok(());
            };
            let (count, limit) = (service.components.len(), service.limit());
            write!(
                out,
                "{} has {count} components; one with such an SId has {limit} at most",
                Part::Service(*sid)
            )
        }
        (EditFault::TableFull, Edit::AddService(_)) => {
            out.write_all(b"there are 64 services, the most of a configuration")
        }
        (EditFault::TableFull, _) => {
            out.write_all(b"there are 64 packet components, the most of a configuration")
        }
        (EditFault::BadAddress, Edit::AddPacket(packet)) => {
            write!(out, "{} is no packet address", packet.address)
        }
        _ => match edited_sub(config, edit) {
            Some(sub) => put_size(&sub, out),
            None => Ok(()),
        },
    }
}

/// Says why an edit or a configuration is refused; `fact` is the first that explains it.
pub(crate) fn put_refused<W: Write>(
    trier: &Trier,
    stop: &Stop,
    fact: Option<&Fact>,
    out: &mut W,
) -> io::Result<()> {
    match (fact, cause_of(stop.refused), stop.instr()) {
        (Some(fact), _, _) => put_member(fact, stop, trier, out),
        (None, Cause::Edit(fault), Some(Instr::Edit(edit))) => {
            put_edit(&stop.here.next, &edit, fault, out)
        }
        _ => Ok(()),
    }
}
