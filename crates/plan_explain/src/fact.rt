//! Facts about a refusal: what the configurations and the swap are where a plan is refused. Each is
//! tested before it is printed.

ghost use Rattle.std.specs.Prelude.{◌≡◌, ◌↔◌, IsTrue, Some, None};
ghost use Rattle.mux_config.specs.Edits.{sub_at, packet_at, service_at};
ghost use Rattle.fib_carousel.specs.Pages.{page_set, rounds};
ghost use Rattle.plan_explain.specs.declared.fact.Fact.TheVariants.{Differ};
ghost use Rattle.plan_explain.specs.Facts.{Holds, IsMissing, HasComponent, LacksComponent, IsEmpty};
ghost use Rattle.plan_explain.specs.Facts.{IsApart, Shares, end_of, pages_of};

use crate::difference::{Compared, Difference, configuration_of, differs, has_other_swap};
use crate::stop::Stop;
use fib_carousel::pages;
use fib_codec::FrameLayout;
use mux_config::{Carrier, Config, Packet, Sid, Store, Sub};
use mux_eep::size_of;
use plan_code::Swap;
use plan_verifier::Flow;

/// Two sub-channels, and the first and the last capacity unit that both have.
#[derive(Clone, Copy)]
pub(crate) struct Overlap {
    pub(crate) first: Sub,
    pub(crate) second: Sub,
    pub(crate) low: u32,
    pub(crate) high: u32,
}

/// The numbers of pages of the current and the next configuration, each alone and both together.
#[derive(Clone, Copy, PartialEq, Eq)]
pub(crate) struct Pages {
    pub(crate) current: usize,
    pub(crate) next: usize,
    pub(crate) both: usize,
}

/// A fact about a refusal. A configuration is the next one there, if nothing else is said.
#[derive(Clone, Copy)]
pub(crate) enum Fact {
    /// This sub-channel is there.
    HasSub(Sub),
    /// This packet component is there.
    HasPacket(Packet),
    /// A service is there.
    HasService(Sid),
    /// A service is there, and has a component on a carrier.
    HasComponent(Sid, Carrier),
    /// A sub-channel or a packet component is not there.
    Lacks(Carrier),
    /// A service is not there.
    LacksService(Sid),
    /// A service is there, and has no component on a carrier.
    LacksComponent(Sid, Carrier),
    /// A service has a component on a carrier that is not there.
    Orphan(Sid, Carrier),
    /// This packet component is there, and its sub-channel is not.
    OrphanPacket(Packet),
    /// These packet components are there, and have one address on one sub-channel.
    SameAddress(Packet, Packet),
    /// A service is there, and has no component.
    Empty(Sid),
    /// These sub-channels are there, and share these capacity units.
    Shared(Overlap),
    /// The swap is in this state.
    Swap(Swap),
    /// The configurations take these numbers of pages.
    Pages(Pages),
    /// This differs between the two paths.
    Differ(Compared, Difference),
    /// The swaps of the two paths do not fit, whatever the configurations are.
    OtherSwap,
}

/// Whether a configuration has this sub-channel.
fn has_sub(config: &Config, sub: &Sub) -> bool
    ensures { IsTrue result ↔ (sub_at sub.now.id config.now ≡ Some sub.now) }
{
    config.sub(sub.id) == Some(*sub)
}

/// Whether a configuration has this packet component.
fn has_packet(config: &Config, packet: &Packet) -> bool
    ensures { IsTrue result ↔ (packet_at packet.now.scid config.now ≡ Some packet.now) }
{
    config.packet(packet.scid) == Some(*packet)
}

/// Whether a configuration has a service with a component on a carrier.
pub(crate) fn has_component(config: &Config, sid: Sid, carrier: Carrier) -> bool
    ensures { IsTrue result ↔ HasComponent carrier (service_at sid config.now) }
{
    match config.service(sid) {
        Some(service) => carrier.is_named_by(service.components.as_slice()),
        None => false,
    }
}

/// Whether a configuration has a service without a component on a carrier.
fn lacks_component(config: &Config, sid: Sid, carrier: Carrier) -> bool
    ensures { IsTrue result ↔ LacksComponent carrier (service_at sid config.now) }
{
    match config.service(sid) {
        Some(service) => !carrier.is_named_by(service.components.as_slice()),
        None => false,
    }
}

/// Whether a configuration has a service without components.
fn is_empty(config: &Config, sid: Sid) -> bool
    ensures { IsTrue result ↔ IsEmpty (service_at sid config.now) }
{
    match config.service(sid) {
        Some(service) => service.components.len() == 0,
        None => false,
    }
}

/// Whether a sub-channel or a packet component is missing.
pub(crate) fn is_missing(config: &Config, carrier: Carrier) -> bool
    ensures { IsTrue result ↔ IsMissing carrier config.now }
{
    match carrier {
        Carrier::Sub(id) => config.sub(id).is_none(),
        Carrier::Packet(scid) => config.packet(scid).is_none(),
    }
}

/// Whether two packet components are others with one address on one sub-channel.
fn has_same_address(packet: &Packet, other: &Packet) -> bool
    ensures { IsTrue result ↔ IsApart packet.now other.now }
{
    packet.scid != other.scid && packet.sub == other.sub && packet.address == other.address
}

/// The capacity unit after those of a sub-channel; 0 if it has no size.
pub(crate) fn end_of(sub: &Sub) -> u32
    ensures { result ≡ end_of sub.now }
{
    match size_of(sub.protection, sub.kbits) {
        Ok(size) => u32::from(sub.start) + u32::from(size),
        Err(_fault) => 0,
    }
}

/// Whether two sub-channels share just these capacity units.
fn shares(overlap: &Overlap) -> bool
    ensures { IsTrue result ↔ Shares overlap.now }
{
    let low = u32::from(overlap.first.start).max(u32::from(overlap.second.start));
    let end = end_of(&overlap.first).min(end_of(&overlap.second));
    overlap.low == low
        && u64::from(overlap.high) + 1 == u64::from(end)
        && overlap.low <= overlap.high
}

/// The capacity units that two sub-channels share, if they share any.
pub(crate) fn overlap_of(first: &Sub, second: &Sub) -> Option<Overlap> {
    let low = u32::from(first.start).max(u32::from(second.start));
    let end = end_of(first).min(end_of(second));
    if first.id == second.id || end <= low {
        return None;
    }
    Some(Overlap {
        first: *first,
        second: *second,
        low,
        high: end - 1,
    })
}

/// The number of pages of a configuration alone.
pub(crate) fn pages_alone(layout: FrameLayout, config: &Config) -> usize
    ensures { result ≡ rounds layout (page_set config.now None) }
{
    let alone: Option<&Config> = None;
    pages(layout, config, alone)
}

/// The numbers of pages of what is known, with a layout.
pub(crate) fn pages_of(layout: FrameLayout, flow: &Flow<Config>) -> Pages
    ensures { result ≡ pages_of layout flow.now }
{
    Pages {
        current: pages_alone(layout, &flow.current),
        next: pages_alone(layout, &flow.next),
        both: pages(layout, &flow.current, Some(&flow.next)),
    }
}

/// Whether a member differs between the configurations of two paths that are compared.
fn differ(stop: &Stop, which: Compared, difference: Difference) -> bool
    ensures { IsTrue result ↔ Holds (Differ which difference) stop.now }
{
    let here = configuration_of(which, stop.other.pending, &stop.here);
    let there = configuration_of(which, stop.here.pending, &stop.other);
    differs(here, there, difference)
}

/// Whether a fact holds of a refusal.
pub(crate) fn holds(fact: &Fact, stop: &Stop) -> bool
    ensures { IsTrue result ↔ Holds fact.now stop.now }
{
    let config = &stop.here.next;
    match fact {
        Fact::HasSub(sub) => has_sub(config, sub),
        Fact::HasPacket(packet) => has_packet(config, packet),
        Fact::HasService(sid) => config.service(*sid).is_some(),
        Fact::HasComponent(sid, carrier) => has_component(config, *sid, *carrier),
        Fact::Lacks(carrier) => is_missing(config, *carrier),
        Fact::LacksService(sid) => config.service(*sid).is_none(),
        Fact::LacksComponent(sid, carrier) => lacks_component(config, *sid, *carrier),
        Fact::Orphan(sid, carrier) => {
            has_component(config, *sid, *carrier) && is_missing(config, *carrier)
        }
        Fact::OrphanPacket(packet) => {
            has_packet(config, packet) && is_missing(config, Carrier::Sub(packet.sub))
        }
        Fact::SameAddress(packet, other) => {
            has_packet(config, packet)
                && has_packet(config, other)
                && has_same_address(packet, other)
        }
        Fact::Empty(sid) => is_empty(config, *sid),
        Fact::Shared(overlap) => {
            has_sub(config, &overlap.first) && has_sub(config, &overlap.second) && shares(overlap)
        }
        Fact::Swap(swap) => stop.here.pending == *swap,
        Fact::Pages(counts) => pages_of(stop.plan.layout, &stop.here) == *counts,
        Fact::Differ(which, difference) => differ(stop, *which, *difference),
        Fact::OtherSwap => has_other_swap(stop.here.pending, stop.other.pending),
    }
}
