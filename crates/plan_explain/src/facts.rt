//! The facts about a refusal: those that explain it, the first of them most.

ghost use Rattle.std.specs.Prelude.{IfOk, OnOk};
ghost use Rattle.std.specs.List.{AllByRecursion};
ghost use Rattle.plan_explain.specs.Facts.{Holds};

use crate::difference::{first_contrast, has_other_swap};
use crate::fact::{Fact, holds, is_missing, overlap_of, pages_of};
use crate::list::push;
use crate::stop::{Refused, Stop, cause_of};
use mux_config::{Carrier, Config, ConfigFault, Edit, EditFault, Store};
use plan_code::Instr;
use plan_verifier::Cause;
use std::alloc::{AllocError, Global};

/// Appends a fact that holds of a refusal.
fn push_true(facts: &mut Vec<Fact>, fact: &Fact, stop: &Stop) -> Result<(), AllocError>
    ensures { AllByRecursion (λ f. Holds f stop.now) facts.old.items
        → OnOk result (AllByRecursion (λ f. Holds f stop.now) facts.new.items) }
{
    if !holds(fact, stop) {
        return Ok(());
    }
    facts.extend_from_slice(&[*fact])
}

/// Why an edit has a fault, if a fact explains it: what is there of that which it adds, or is not
/// there of that which it names.
fn of_edit(config: &Config, edit: &Edit, fault: EditFault) -> Option<Fact> {
    match fault {
        EditFault::IdUsed => of_used(config, edit),
        EditFault::IdAbsent => of_absent(config, edit),
        _ => None,
    }
}

/// What is there of that which an edit adds.
fn of_used(config: &Config, edit: &Edit) -> Option<Fact> {
    match edit {
        Edit::AddSub(sub) => config.sub(sub.get().id).map(Fact::HasSub),
        Edit::AddPacket(packet) => config.packet(packet.scid).map(Fact::HasPacket),
        Edit::AddService(sid) => Some(Fact::HasService(*sid)),
        Edit::AddComponent { sid, component } => {
            Some(Fact::HasComponent(*sid, component.carrier()))
        }
        _ => None,
    }
}

/// What is not there of that which an edit names.
fn of_absent(config: &Config, edit: &Edit) -> Option<Fact> {
    match edit {
        Edit::DropSub(id) | Edit::MoveSub { id, .. } | Edit::RateSub { id, .. } => {
            Some(Fact::Lacks(Carrier::Sub(*id)))
        }
        Edit::DropPacket(scid) => Some(Fact::Lacks(Carrier::Packet(*scid))),
        Edit::DropComponent { sid, carrier } if config.service(*sid).is_some() => {
            Some(Fact::LacksComponent(*sid, *carrier))
        }
        Edit::DropService(sid) | Edit::AddComponent { sid, .. } | Edit::DropComponent { sid, .. } =>
            Some(Fact::LacksService(*sid)),
        _ => None,
    }
}

/// Appends each two sub-channels that share capacity units, those with the lowest numbers first.
fn push_overlaps(facts: &mut Vec<Fact>, config: &Config) -> Result<(), AllocError> {
    for first in config.subs() {
        for second in config.subs() {
            match overlap_of(first, second) {
                Some(overlap) if first.id.get() < second.id.get() => {
                    push(facts, Fact::Shared(overlap))?
                }
                _ => {}
            }
        }
    }
    Ok(())
}

/// Appends the services with a component on a missing carrier, and the packet components whose
/// sub-channel is missing.
fn push_orphans(facts: &mut Vec<Fact>, config: &Config) -> Result<(), AllocError> {
    for service in config.services() {
        let mut components = service.components.as_slice().iter();
        if let Some(orphan) = components.find(|one| is_missing(config, one.carrier())) {
            push(facts, Fact::Orphan(service.sid, orphan.carrier()))?;
        }
    }
    for packet in config.packets() {
        if is_missing(config, Carrier::Sub(packet.sub)) {
            push(facts, Fact::OrphanPacket(*packet))?;
        }
    }
    Ok(())
}

/// Appends the services without components.
fn push_empty(facts: &mut Vec<Fact>, config: &Config) -> Result<(), AllocError> {
    for service in config.services() {
        if service.components.len() == 0 {
            push(facts, Fact::Empty(service.sid))?;
        }
    }
    Ok(())
}

/// Appends each two packet components that have one address on one sub-channel.
fn push_twins(facts: &mut Vec<Fact>, config: &Config) -> Result<(), AllocError> {
    for packet in config.packets() {
        for other in config.packets() {
            if packet.scid.get() < other.scid.get() {
                push(facts, Fact::SameAddress(*packet, *other))?;
            }
        }
    }
    Ok(())
}

/// Appends what is not sound in a configuration, this kind of it first.
fn push_unsound(
    facts: &mut Vec<Fact>,
    config: &Config,
    first: Option<ConfigFault>,
) -> Result<(), AllocError> {
    match first {
        Some(ConfigFault::Orphan) => push_orphans(facts, config)?,
        Some(ConfigFault::EmptyService) => push_empty(facts, config)?,
        Some(ConfigFault::AddressUsed) => push_twins(facts, config)?,
        Some(ConfigFault::Overlap(_, _)) | None => {}
    }
    push_overlaps(facts, config)?;
    if first != Some(ConfigFault::EmptyService) {
        push_empty(facts, config)?;
    }
    if first != Some(ConfigFault::Orphan) {
        push_orphans(facts, config)?;
    }
    if first != Some(ConfigFault::AddressUsed) {
        push_twins(facts, config)?;
    }
    Ok(())
}

/// Appends what explains the cause of a refused instruction or opening.
fn push_cause(facts: &mut Vec<Fact>, stop: &Stop) -> Result<(), AllocError> {
    let config = &stop.here.next;
    match (cause_of(stop.refused), stop.instr()) {
        (Cause::Edit(fault), Some(Instr::Edit(edit))) => match of_edit(config, &edit, fault) {
            Some(fact) => push(facts, fact),
            None => Ok(()),
        },
        (Cause::Config(fault), _) => push_unsound(facts, config, Some(fault)),
        (Cause::Pending | Cause::JoinIdle | Cause::SwapUncertain, _) => {
            push(facts, Fact::Swap(stop.here.pending))
        }
        (Cause::Round, _) => push(facts, Fact::Pages(pages_of(stop.plan.layout, &stop.here))),
        _ => Ok(()),
    }
}

/// Appends what differs between two paths: the swaps, if they are compared and do not fit, or else
/// the first member.
fn push_contrast(
    facts: &mut Vec<Fact>,
    stop: &Stop,
    compares_swaps: bool,
) -> Result<(), AllocError> {
    if compares_swaps && has_other_swap(stop.here.pending, stop.other.pending) {
        return push(facts, Fact::OtherSwap);
    }
    match first_contrast(&stop.here, &stop.other) {
        Some((which, difference)) => push(facts, Fact::Differ(which, difference)),
        None => Ok(()),
    }
}

/// What may explain a refusal.
fn candidates(alloc: Global, stop: &Stop) -> Result<Vec<Fact>, AllocError> {
    let mut facts = Vec::new(alloc);
    match stop.refused {
        Refused::Instr(_, _) | Refused::Opening(_) => push_cause(&mut facts, stop)?,
        Refused::Loop => push_contrast(&mut facts, stop, true)?,
        Refused::Paths => push_contrast(&mut facts, stop, false)?,
        Refused::Unreached { .. } => {}
    }
    Ok(facts)
}

/// Those of some facts that hold of a refusal.
fn tested(alloc: Global, candidates: &[Fact], stop: &Stop) -> Result<Vec<Fact>, AllocError>
    ensures { IfOk result (λ v. AllByRecursion (λ f. Holds f stop.now) v.items) }
{
    let mut facts = Vec::new(alloc);
    for fact in candidates {
        push_true(&mut facts, fact, stop)?;
    }
    Ok(facts)
}

/// The facts that explain a refusal, the first of them most: each holds of it.
///
/// # Errors
///
/// Out of memory.
pub(crate) fn facts_of(alloc: Global, stop: &Stop) -> Result<Vec<Fact>, AllocError>
    ensures { IfOk result (λ v. AllByRecursion (λ f. Holds f stop.now) v.items) }
{
    let candidates = candidates(alloc, stop)?;
    tested(alloc, candidates.as_slice(), stop)
}

/// What is not sound in the configuration of a script's items, as facts about its opening.
pub(crate) fn unsound(alloc: Global, stop: &Stop) -> Result<Vec<Fact>, AllocError>
    ensures { IfOk result (λ v. AllByRecursion (λ f. Holds f stop.now) v.items) }
{
    let mut candidates = Vec::new(alloc);
    push_unsound(&mut candidates, &stop.here.next, None)?;
    tested(alloc, candidates.as_slice(), stop)
}
