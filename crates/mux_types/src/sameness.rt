//! Whether parts of two configurations are the same.

ghost use Rattle.std.specs.Prelude.{◌≡◌};
ghost use Rattle.mux_types.specs.Sameness.{is_same_list, is_same_sub, is_same_sid};
ghost use Rattle.mux_types.specs.Sameness.{is_same_component, is_same_service, is_same_packet};

use crate::numbers::Sid;
use crate::parts::{Component, Packet, Service, Sub};

/// Whether two sub-channels are the same.
pub fn is_same_sub(a: Sub, b: Sub) -> bool
    ensures { result ≡ is_same_sub a b }
{
    (a.id == b.id) & (a.start == b.start) & (a.protection == b.protection) & (a.kbits == b.kbits)
}

/// Whether two packet components are the same.
pub fn is_same_packet(p: Packet, q: Packet) -> bool
    ensures { result ≡ is_same_packet p q }
{
    (p.scid == q.scid)
        & (p.dg == q.dg)
        & (p.ty == q.ty)
        & (p.sub == q.sub)
        & (p.address == q.address)
}

/// Whether two services are the same, with the same components in the same order.
pub fn is_same_service(a: &Service, b: &Service) -> bool
    ensures { result ≡ is_same_service a.now b.now }
{
    is_same_sid(a.sid, b.sid)
        && has_same_components(a.components.as_slice(), b.components.as_slice())
}

fn is_same_sid(a: Sid, b: Sid) -> bool
    ensures { result ≡ is_same_sid a b }
{
    a == b
}

/// A part of a configuration that can be compared with another.
trait Same {
    ghost use Rattle.std.specs.Prelude.{◌≡◌, Bool};

    /// Whether two of them are the same.
    ghost same: { Self → Self → Bool };

    /// Whether it is the same as another.
    fn is_same(&self, other: &Self) -> bool
        ensures { result ≡ same self.now other.now };
}

impl Same for Component {
    ghost use Rattle.mux_types.specs.Sameness.{is_same_component};

    ghost same = { is_same_component };

    fn is_same(&self, other: &Component) -> bool {
        *self == *other
    }
}

impl Same for Sub {
    ghost use Rattle.mux_types.specs.Sameness.{is_same_sub};

    ghost same = { is_same_sub };

    fn is_same(&self, other: &Sub) -> bool {
        is_same_sub(*self, *other)
    }
}

impl Same for Service {
    ghost use Rattle.mux_types.specs.Sameness.{is_same_service};

    ghost same = { is_same_service };

    fn is_same(&self, other: &Service) -> bool {
        is_same_service(self, other)
    }
}

impl Same for Packet {
    ghost use Rattle.mux_types.specs.Sameness.{is_same_packet};

    ghost same = { is_same_packet };

    fn is_same(&self, other: &Packet) -> bool {
        is_same_packet(*self, *other)
    }
}

/// Whether two lists have the same parts in the same order.
fn has_same<T: Same>(xs: &[T], ys: &[T]) -> bool
    ensures { result ≡ is_same_list T.same xs.now ys.now }
{
    if xs.len() != ys.len() {
        return false;
    }
    for place in 0..xs.len() {
        if !xs[place].is_same(&ys[place]) {
            return false;
        }
    }
    true
}

fn has_same_components(ms: &[Component], ns: &[Component]) -> bool
    ensures { result ≡ is_same_list is_same_component ms.now ns.now }
{
    has_same(ms, ns)
}

/// Whether two lists have the same sub-channels.
pub fn has_same_subs(xs: &[Sub], ys: &[Sub]) -> bool
    ensures { result ≡ is_same_list is_same_sub xs.now ys.now }
{
    has_same(xs, ys)
}

/// Whether two lists have the same services.
pub fn has_same_services(xs: &[Service], ys: &[Service]) -> bool
    ensures { result ≡ is_same_list is_same_service xs.now ys.now }
{
    has_same(xs, ys)
}

/// Whether two lists have the same packet components.
pub fn has_same_packets(xs: &[Packet], ys: &[Packet]) -> bool
    ensures { result ≡ is_same_list is_same_packet xs.now ys.now }
{
    has_same(xs, ys)
}
