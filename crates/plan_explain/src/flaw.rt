//! What a sound configuration may have without its author's intention.

ghost use Rattle.std.specs.Prelude.{◌≡◌, ◌==◌, ◌++◌, ◌∷◌, [], IfOk, OnOk};
ghost use Rattle.std.specs.List.{flat_map, list_any};
ghost use Rattle.plan_explain.specs.Flaws.{is_on, has_component_on, is_named, unnamed, audio};
ghost use Rattle.plan_explain.specs.Flaws.{audio_under, long_audio, flaws, is_same_flaw, is_among};
ghost use Rattle.plan_explain.specs.Flaws.{unless_among};

use crate::list::push;
use crate::primary::is_same_sid;
use mux_config::{Carrier, Component, Config, Packet, Service, Sid, Sub, SubId};
use std::alloc::{AllocError, Global};

/// Something that a configuration has, though it is sound.
#[derive(Clone, Copy, PartialEq, Eq)]
pub enum Flaw {
    /// A sub-channel that no component of a service and no packet component names.
    Unnamed(SubId),
    /// Audio on a sub-channel, in a service with a 32-bit SId, which is that of a data service (EN
    /// 300 401 clause 6.3.1).
    LongAudio(Sid, SubId),
}

/// Whether a component is on a sub-channel.
fn is_on(id: SubId, component: &Component) -> bool
    ensures { result ≡ is_on id component.now }
{
    component.carrier() == Carrier::Sub(id)
}

/// Whether a service has a component on a sub-channel.
fn has_component_on(id: SubId, service: &Service) -> bool
    ensures { result ≡ has_component_on id service.now }
{
    let components = service.components.as_slice();
    components.iter().any(|component| is_on(id, component))
}

/// Whether a component of a service names a sub-channel.
fn is_named_by_services(services: &[Service], id: SubId) -> bool
    ensures { result ≡ list_any (has_component_on id) services.now }
{
    services.iter().any(|service| has_component_on(id, service))
}

/// Whether a packet component names a sub-channel.
fn is_named_by_packets(packets: &[Packet], id: SubId) -> bool
    ensures { result ≡ list_any (λ p. p.sub == id) packets.now }
{
    packets.iter().any(|packet| packet.sub == id)
}

/// Whether a component of a service or a packet component names a sub-channel.
fn is_named(config: &Config, id: SubId) -> bool
    ensures { result ≡ is_named config.now id }
{
    is_named_by_services(config.services(), id) || is_named_by_packets(config.packets(), id)
}

/// Appends that a sub-channel is not named, if it is not.
fn push_unnamed(flaws: &mut Vec<Flaw>, config: &Config, sub: &Sub) -> Result<(), AllocError>
    ensures { OnOk result (flaws.new.items ≡ flaws.old.items ++ unnamed config.now sub.now) }
{
    if is_named(config, sub.id) {
        return Ok(());
    }
    push(flaws, Flaw::Unnamed(sub.id))
}

/// Appends that a component of a service with this SId is audio, if it is.
fn push_audio(flaws: &mut Vec<Flaw>, sid: Sid, component: &Component) -> Result<(), AllocError>
    ensures { OnOk result (flaws.new.items ≡ flaws.old.items ++ audio sid component.now) }
{
    match *component {
        Component::Sound { ty: _, sub } => push(flaws, Flaw::LongAudio(sid, sub)),
        Component::Stream { .. } => Ok(()),
        Component::Packet { .. } => Ok(()),
    }
}

/// Appends the audio components of a service with this SId.
fn push_audios(flaws: &mut Vec<Flaw>, sid: Sid, components: &[Component]) -> Result<(), AllocError>
    ensures { OnOk result (flaws.new.items ≡ flaws.old.items ++ flat_map (audio sid)
        components.now) }
{
    for component in components {
        push_audio(flaws, sid, component)?;
    }
    Ok(())
}

/// Appends the audio components of a service with a 32-bit SId.
fn push_long_audio(flaws: &mut Vec<Flaw>, service: &Service) -> Result<(), AllocError>
    ensures { OnOk result (flaws.new.items ≡ flaws.old.items ++ long_audio service.now) }
{
    match service.sid {
        Sid::Short(_) => Ok(()),
        Sid::Long(_) => push_audios(flaws, service.sid, service.components.as_slice()),
    }
}

/// The flaws of a configuration.
pub(crate) fn flaws_of(alloc: Global, config: &Config) -> Result<Vec<Flaw>, AllocError>
    ensures { IfOk result (λ v. v.items ≡ flaws config.now) }
{
    let mut flaws = Vec::new(alloc);
    push_all_unnamed(&mut flaws, config)?;
    push_all_audio(&mut flaws, config.services())?;
    Ok(flaws)
}

/// Appends the sub-channels of a configuration that are not named.
fn push_all_unnamed(flaws: &mut Vec<Flaw>, config: &Config) -> Result<(), AllocError>
    ensures { let c = config.now in OnOk result (flaws.new.items ≡ flaws.old.items
        ++ flat_map (unnamed c) c.subs) }
{
    for sub in config.subs() {
        push_unnamed(flaws, config, sub)?;
    }
    Ok(())
}

/// Appends the audio components of services with 32-bit SIds.
fn push_all_audio(flaws: &mut Vec<Flaw>, services: &[Service]) -> Result<(), AllocError>
    ensures { OnOk result (flaws.new.items ≡ flaws.old.items ++ flat_map long_audio services.now) }
{
    for service in services {
        push_long_audio(flaws, service)?;
    }
    Ok(())
}

/// Whether two flaws are the same.
fn is_same_flaw(one: &Flaw, other: &Flaw) -> bool
    ensures { result ≡ is_same_flaw one.now other.now }
{
    match *one {
        Flaw::Unnamed(a) => match *other {
            Flaw::Unnamed(b) => a == b,
            Flaw::LongAudio(_, _) => false,
        },
        Flaw::LongAudio(sid, a) => match *other {
            Flaw::Unnamed(_) => false,
            Flaw::LongAudio(tid, b) => { if is_same_sid(sid, tid) { a == b } else { false } }
        },
    }
}

/// Whether a flaw is among others.
pub(crate) fn is_among(others: &[Flaw], flaw: &Flaw) -> bool
    ensures { result ≡ is_among others.now flaw.now }
{
    others.iter().any(|other| is_same_flaw(other, flaw))
}
