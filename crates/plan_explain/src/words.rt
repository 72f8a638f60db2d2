//! Members of configurations in the script's notation, and facts about a refusal as sentences.

use crate::difference::{Compared, Difference, configuration_of};
use crate::fact::{Fact, Pages, end_of};
use crate::stop::Stop;
use mux_config::{Carrier, Component, Config, Edit, Packet, Sid, Store, Sub};
use mux_eep::{EepSet, Protection};
use plan_code::{Plan, Swap};
use script_front::Act;
use script_front::lexemes::put_act;
use std::alloc::{AllocError, Global};
use std::fmt::{self, Display, Formatter};
use std::io::{self, Write};

/// The words of an act.
pub(crate) fn act_words(alloc: Global, act: Act) -> Result<String, AllocError> {
    let mut words = String::new(alloc);
    put_act(&mut words, act)?;
    Ok(words)
}

/// The words of an edit.
pub(crate) fn edit_words(alloc: Global, edit: Edit) -> Result<String, AllocError> {
    act_words(alloc, Act::Edit(edit))
}

/// An SId: four digits of a short one, eight of a long one.
#[derive(Clone, Copy)]
pub(crate) struct Digits(pub(crate) Sid);

impl Display for Digits {
    fn fmt<W: fmt::Write>(&self, f: &mut Formatter<W>) -> fmt::Result {
        match self.0 {
            Sid::Short(number) => write!(f, "{number:04X}"),
            Sid::Long(number) => write!(f, "{number:08X}"),
        }
    }
}

/// A protection profile.
#[derive(Clone, Copy)]
pub(crate) struct Profile(pub(crate) Protection);

impl Display for Profile {
    fn fmt<W: fmt::Write>(&self, f: &mut Formatter<W>) -> fmt::Result {
        let level = self.0.level();
        match self.0.set() {
            EepSet::A => write!(f, "{level}-A"),
            EepSet::B => write!(f, "{level}-B"),
        }
    }
}

/// A member of a configuration or a part of one, or a swap.
#[derive(Clone, Copy)]
pub(crate) enum Part {
    /// A service by its SId.
    Service(Sid),
    /// The carrier of a component.
    Carrier(Carrier),
    /// A component.
    Component(Component),
    /// A sub-channel: its start, profile and rate.
    Sub(Sub),
    /// A sub-channel and its capacity units.
    Units(Sub),
    /// A packet component.
    Packet(Packet),
    /// Whether a swap is pending, and when it is due.
    Swap(Swap),
}

/// The words of a part.
pub(crate) fn part_words(alloc: Global, part: Part) -> Result<String, AllocError> {
    format!(in alloc; "{part}")
}

/// The words of a sub-channel.
pub(crate) fn sub_words(alloc: Global, sub: &Sub) -> Result<String, AllocError> {
    part_words(alloc, Part::Sub(*sub))
}

/// Writes a part.
pub(crate) fn put_part<W: Write>(part: Part, out: &mut W) -> io::Result<()> {
    write!(out, "{part}")
}

impl Display for Part {
    fn fmt<W: fmt::Write>(&self, f: &mut Formatter<W>) -> fmt::Result {
        match *self {
            Part::Service(sid) => write!(f, "service {}", Digits(sid)),
            Part::Carrier(Carrier::Sub(id)) => write!(f, "sub {}", id.get()),
            Part::Carrier(Carrier::Packet(scid)) => write!(f, "packet {}", scid.get()),
            Part::Component(component) => put_component(component, f),
            Part::Sub(sub) => put_sub(&sub, f),
            Part::Units(sub) => {
                put_sub(&sub, f)?;
                let last = end_of(&sub).saturating_sub(1);
                write!(f, " has CU {} to {last}", sub.start)
            }
            Part::Packet(packet) => put_packet(&packet, f),
            Part::Swap(swap) => put_swap(swap, f),
        }
    }
}

/// A service with its components in a configuration, if it is there.
#[derive(Clone, Copy)]
struct ServiceOf<'a>(&'a Config, Sid);

impl Display for ServiceOf<'_> {
    fn fmt<W: fmt::Write>(&self, f: &mut Formatter<W>) -> fmt::Result {
        let (config, sid) = (self.0, self.1);
        write!(f, "service {}", Digits(sid))?;
        let Some(service) = config.service(sid) else {
            return Ok(());
        };
        let mut before = " (";
        for component in service.components.as_slice() {
            f.write_str(before)?;
            put_component(*component, f)?;
            before = ", ";
        }
        f.write_str(if before == ", " {
            ")"
        } else {
            " (no component)"
        })
    }
}

/// Writes a component.
fn put_component<W: fmt::Write>(component: Component, f: &mut Formatter<W>) -> fmt::Result {
    match component {
        Component::Sound { ty, sub } => write!(f, "audio {} sub {}", ty.get(), sub.get()),
        Component::Stream { ty, sub } => write!(f, "data {} sub {}", ty.get(), sub.get()),
        Component::Packet { scid } => write!(f, "carry {}", scid.get()),
    }
}

/// Writes a sub-channel: its start, profile and rate.
fn put_sub<W: fmt::Write>(sub: &Sub, f: &mut Formatter<W>) -> fmt::Result {
    let (id, start, kbits, profile) = (sub.id.get(), sub.start, sub.kbits, Profile(sub.protection));
    write!(f, "sub {id} at {start} eep {profile} {kbits}")
}

/// Writes a packet component.
fn put_packet<W: fmt::Write>(packet: &Packet, f: &mut Formatter<W>) -> fmt::Result {
    let word = if packet.dg { "raw" } else { "groups" };
    let (scid, ty, sub) = (packet.scid.get(), packet.ty.get(), packet.sub.get());
    let address = packet.address;
    write!(
        f,
        "packet {scid} {word} type {ty} sub {sub} address {address}"
    )
}

/// Writes whether a swap is pending, and when it is due.
fn put_swap<W: fmt::Write>(swap: Swap, f: &mut Formatter<W>) -> fmt::Result {
    match swap {
        Swap::Idle => f.write_str("no swap is pending"),
        Swap::Within(low, high) => {
            write!(f, "a swap is pending that comes after {low}")?;
            if low != high {
                write!(f, " to {high}")?;
            }
            f.write_str(" frames")
        }
        Swap::Perhaps(high) => {
            write!(
                f,
                "a swap may be pending, that comes after {high} frames at most"
            )
        }
    }
}

/// Writes a member as it is on each of two paths.
fn put_both<W: Write>(
    stop: &Stop,
    which: Compared,
    member: &Difference,
    sides: [&str; 2],
    out: &mut W,
) -> io::Result<()> {
    let name = match which {
        Compared::Current => "the current configuration",
        Compared::AfterSwap => "the configuration after the swap",
        Compared::Next => "the next configuration",
    };
    let here = configuration_of(which, stop.other.pending, &stop.here);
    let there = configuration_of(which, stop.here.pending, &stop.other);
    let [on, on_other] = sides;
    write!(out, "in {name} ")?;
    put_member(here, member, out)?;
    write!(out, "{on}, ")?;
    put_member(there, member, out)?;
    out.write_all(on_other.as_bytes())
}

/// Writes a member as it is in a configuration, or that it is not there: `no` before it.
fn put_member<W: Write>(config: &Config, member: &Difference, out: &mut W) -> io::Result<()> {
    let missing = match member {
        Difference::Sub(id) => match config.sub(*id) {
            Some(sub) => return put_part(Part::Sub(sub), out),
            None => Part::Carrier(Carrier::Sub(*id)),
        },
        Difference::Packet(scid) => match config.packet(*scid) {
            Some(packet) => return put_part(Part::Packet(packet), out),
            None => Part::Carrier(Carrier::Packet(*scid)),
        },
        Difference::Service(sid) => match config.service(*sid) {
            Some(_) => return write!(out, "{}", ServiceOf(config, *sid)),
            None => Part::Service(*sid),
        },
    };
    write!(out, "no {missing}")
}

/// Writes how many pages the configurations take in a plan.
fn put_pages<W: Write>(plan: &Plan, pages: &Pages, out: &mut W) -> io::Result<()> {
    let (period, notice) = (plan.period, plan.notice);
    let Pages {
        current,
        next,
        both,
    } = *pages;
    write!(
        out,
        "the current configuration takes {current} pages, a frame each, the next {next}, and both \
         together, in the notice, {both}; the period is {period} frames and the notice {notice}"
    )
}

/// Writes a fact about a refusal as a sentence. What holds on each of two paths is followed by
/// these words.
pub(crate) fn put_fact<W: Write>(
    fact: &Fact,
    stop: &Stop,
    sides: [&str; 2],
    out: &mut W,
) -> io::Result<()> {
    let (there, gone) = (" is there already", ", which is not there");
    let (one, has, other, end) = match *fact {
        Fact::HasSub(sub) => (Part::Sub(sub), there, None, ""),
        Fact::HasPacket(packet) => (Part::Packet(packet), there, None, ""),
        Fact::Lacks(carrier) => (Part::Carrier(carrier), " is not there", None, ""),
        Fact::LacksService(sid) => (Part::Service(sid), " is not there", None, ""),
        Fact::Orphan(sid, carrier) => {
            let on = Some(Part::Carrier(carrier));
            (Part::Service(sid), " has a component on ", on, gone)
        }
        Fact::OrphanPacket(packet) => {
            let sub = Some(Part::Carrier(Carrier::Sub(packet.sub)));
            (Part::Packet(packet), " names ", sub, gone)
        }
        Fact::SameAddress(packet, other) => {
            let end = " have one address on one sub-channel";
            (
                Part::Packet(packet),
                " and ",
                Some(Part::Packet(other)),
                end,
            )
        }
        Fact::Empty(sid) => (Part::Service(sid), " has no component", None, ""),
        Fact::Swap(swap) => (Part::Swap(swap), "", None, ""),
        _ => return put_service_fact(fact, stop, sides, out),
    };
    write!(out, "{one}{has}")?;
    if let Some(other) = &other {
        write!(out, "{other}")?;
    }
    out.write_all(end.as_bytes())
}

/// Writes a fact about a service that is there, with its components; or one with numbers, or of
/// two paths.
fn put_service_fact<W: Write>(
    fact: &Fact,
    stop: &Stop,
    sides: [&str; 2],
    out: &mut W,
) -> io::Result<()> {
    let of = &stop.here.next;
    match *fact {
        Fact::HasService(sid) => write!(out, "{} is there already", ServiceOf(of, sid)),
        Fact::HasComponent(sid, carrier) => {
            let on = Part::Carrier(carrier);
            write!(
                out,
                "{} has a component on {on} already",
                ServiceOf(of, sid)
            )
        }
        Fact::LacksComponent(sid, carrier) => {
            let on = Part::Carrier(carrier);
            write!(out, "{} has no component on {on}", ServiceOf(of, sid))
        }
        _ => put_numbers(fact, stop, sides, out),
    }
}

/// Writes a fact with numbers, or of two paths.
fn put_numbers<W: Write>(
    fact: &Fact,
    stop: &Stop,
    sides: [&str; 2],
    out: &mut W,
) -> io::Result<()> {
    let (here, there) = (
        Part::Swap(stop.here.pending),
        Part::Swap(stop.other.pending),
    );
    let [on, on_other] = sides;
    match *fact {
        Fact::Shared(overlap) => {
            let (one, other) = (Part::Units(overlap.first), Part::Units(overlap.second));
            let (low, high) = (overlap.low, overlap.high);
            write!(out, "{one}, {other}: they share CU {low} to {high}")
        }
        Fact::Pages(pages) => put_pages(&stop.plan, &pages, out),
        Fact::Differ(which, member) => put_both(stop, which, &member, sides, out),
        Fact::OtherSwap => write!(out, "{here}{on}; {there}{on_other}"),
        _ => Ok(()),
    }
}
