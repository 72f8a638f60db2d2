//! What differs between two paths.

ghost use Rattle.std.specs.Prelude.{◌≡◌, ◌≢◌, ◌↔◌, IsTrue, Some};
ghost use Rattle.mux_config.specs.Edits.{service_at};
ghost use Rattle.plan_verifier.specs.Flows.{FitsFlow};
ghost use Rattle.plan_explain.specs.Differences.{compared, Differ, with_swap};

use mux_config::{Config, ScId, Service, Sid, Store, SubId};
use mux_types::sameness::is_same_service;
use plan_code::Swap;
use plan_verifier::Flow;
use plan_verifier::flow::is_idle;

/// Which configurations of two paths are compared.
#[derive(Clone, Copy)]
pub(crate) enum Compared {
    /// The current ones.
    Current,
    /// Those after the swap, which is pending on one path alone.
    AfterSwap,
    /// The next ones.
    Next,
}

/// A member that differs between two configurations: one of them does not have it, or has it
/// otherwise.
#[derive(Clone, Copy)]
pub(crate) enum Difference {
    /// A sub-channel.
    Sub(SubId),
    /// A service.
    Service(Sid),
    /// A packet component.
    Packet(ScId),
}

/// The configuration of a path that is compared with that of another path, which has this swap
/// state.
pub(crate) fn configuration_of<'a>(
    which: Compared,
    other: Swap,
    flow: &'a Flow<Config>,
) -> &'a Config
    ensures { result.now ≡ compared which other flow.now }
{
    match which {
        Compared::Current => &flow.current,
        Compared::Next => &flow.next,
        Compared::AfterSwap => {
            if is_idle(flow.pending) || !is_idle(other) {
                &flow.current
            } else {
                &flow.next
            }
        }
    }
}

/// Whether a configuration has this service under an SId, with the same components in the same
/// order.
fn has_service(config: &Config, sid: Sid, service: &Service) -> bool
    ensures { IsTrue result ↔ (service_at sid config.now ≡ Some service.now) }
{
    match config.service(sid) {
        Some(other) => is_same_service(other, service),
        None => false,
    }
}

/// Whether a service differs between two configurations.
fn service_differs(a: &Config, b: &Config, sid: Sid) -> bool
    ensures { IsTrue result ↔ (service_at sid a.now ≢ service_at sid b.now) }
{
    match a.service(sid) {
        Some(service) => !has_service(b, sid, service),
        None => b.service(sid).is_some(),
    }
}

/// Whether a member differs between two configurations.
pub(crate) fn differs(a: &Config, b: &Config, difference: Difference) -> bool
    ensures { IsTrue result ↔ Differ difference a.now b.now }
{
    match difference {
        Difference::Sub(id) => a.sub(id) != b.sub(id),
        Difference::Service(sid) => service_differs(a, b, sid),
        Difference::Packet(scid) => a.packet(scid) != b.packet(scid),
    }
}

/// Whether what is known of the swap does not match what is declared, whatever the configurations
/// are: it does not even if they are all empty.
pub(crate) fn has_other_swap(known: Swap, declared: Swap) -> bool
    ensures { IsTrue result ↔ (FitsFlow (with_swap known) (with_swap declared) → ⊥) }
{
    let empty = Config::new();
    let flow = Flow {
        current: Config::new(),
        next: Config::new(),
        pending: known,
    };
    !flow.fits(&empty, &empty, declared)
}

/// The first member that differs between two configurations: sub-channels before services, and
/// these before packet components.
pub(crate) fn first_differing(a: &Config, b: &Config) -> Option<Difference> {
    let is_other = |one: &Difference| differs(a, b, *one);
    let subs = a.subs().iter().chain(b.subs().iter());
    let subs = subs.map(|sub| Difference::Sub(sub.id));
    let services = a.services().iter().chain(b.services().iter());
    let services = services.map(|service| Difference::Service(service.sid));
    let packets = a.packets().iter().chain(b.packets().iter());
    let packets = packets.map(|packet| Difference::Packet(packet.scid));
    subs.chain(services).chain(packets).find(is_other)
}

/// What differs between two paths: between the configurations that are compared, or else between
/// the next ones.
pub(crate) fn first_contrast(
    here: &Flow<Config>,
    there: &Flow<Config>,
) -> Option<(Compared, Difference)> {
    let which = if is_idle(here.pending) == is_idle(there.pending) {
        Compared::Current
    } else {
        Compared::AfterSwap
    };
    let one = configuration_of(which, there.pending, here);
    let other = configuration_of(which, here.pending, there);
    match first_differing(one, other) {
        Some(difference) => Some((which, difference)),
        None => Some((Compared::Next, first_differing(&here.next, &there.next)?)),
    }
}
