//! Implements `Store` for `Config`: its sets in order, and what an edit without a fault changes.

ghost use Rattle.std.specs.Prelude.{◌≡◌, ◌<◌, not, length, filter, IfSome, IfNone, option_copied};
ghost use Rattle.std.specs.List.{remove};
ghost use Rattle.mux_types.specs.Configuration.{IsConfiguration, IsPlaced, IsService, AreDifferent};
ghost use Rattle.mux_config.specs.Edits.{sub_at, service_at, without_carrier};
ghost use Rattle.mux_types.specs.Sameness.{names};

use crate::config::Config;
use crate::overlap::is_crowded;
use crate::store::Store;
use mux_types::keys::sid_key;
use mux_types::sameness::{has_same_packets, has_same_services, has_same_subs};
use mux_types::{Carrier, Component, Packet, ScId, Service, Sid, Sub, SubId};

/// The sub-channel with an identifier.
fn find_sub(config: &Config, id: SubId) -> Option<Sub>
    ensures value { result ≡ sub_at id config.now }
    ensures placed { IfSome result (λ s. IsPlaced s) }
    ensures configuration { IsConfiguration config.now }
{
    match config.subs.get(u64::from(id.get())) {
        Some(sub) => Some(*sub),
        None => None,
    }
}

/// The service with an identifier.
fn find_service(config: &Config, sid: Sid) -> Option<&Service>
    ensures value { option_copied result ≡ service_at sid config.now }
    ensures formed { IfSome result (λ s. IsService s.now) }
    ensures configuration { IsConfiguration config.now }
{
    match config.services.get(sid_key(sid)) {
        Some(service) => Some(service),
        None => None,
    }
}

/// A copy of a service without the component with this carrier.
fn without_carrier(service: &Service, carrier: &Carrier) -> Service
    requires { IsService service.now }
    ensures { result ≡ without_carrier carrier.now service.now }
{
    let mut rest = service.copied();
    if let Some(place) = place_of(service.components.as_slice(), carrier) {
        rest.components.remove(place);
    }
    rest
}

/// The index of the component with a carrier.
fn place_of(components: &[Component], carrier: &Carrier) -> Option<usize>
    requires { AreDifferent components.now }
    ensures in_bounds { IfSome result (λ place. place < length components.now) }
    ensures found { let others = filter (λ m. not (names carrier.now m)) components.now in
        IfSome result (λ place. remove components.now place ≡ others) }
    ensures none { let others = filter (λ m. not (names carrier.now m)) components.now in
        IfNone result (others ≡ components.now) }
{
    for place in 0..components.len() {
        if names(carrier, &components[place]) {
            return Some(place);
        }
    }
    None
}

/// Whether a component has this carrier.
fn names(carrier: &Carrier, component: &Component) -> bool
    ensures { result ≡ names carrier.now component.now }
{
    component.carrier() == *carrier
}

impl Store for Config {
    ghost content = { λ c. c };

    fn empty() -> Config {
        Config::new()
    }

    fn from_config(config: &Config) -> Config {
        let mut copy = Config::new();
        copy.copy_from(config);
        copy
    }

    fn to_config(&self) -> Config {
        Config::from_config(self)
    }

    fn copy_from(&mut self, other: &Config) {
        Config::copy_from(self, other);
    }

    fn copy_from_config(&mut self, config: &Config) {
        Config::copy_from(self, config);
    }

    fn same(&self, other: &Config) -> bool {
        if !has_same_subs(self.subs(), other.subs()) {
            return false;
        }
        if !has_same_services(self.services(), other.services()) {
            return false;
        }
        has_same_packets(self.packets(), other.packets())
    }

    fn sub_count(&self) -> usize {
        self.subs().len()
    }

    fn sub_at(&self, place: usize) -> Sub {
        self.subs()[place]
    }

    fn service_count(&self) -> usize {
        self.services().len()
    }

    fn service_at(&self, place: usize) -> &Service {
        &self.services()[place]
    }

    fn packet_count(&self) -> usize {
        self.packets().len()
    }

    fn packet_at(&self, place: usize) -> Packet {
        self.packets()[place]
    }

    fn sub(&self, id: SubId) -> Option<Sub> {
        find_sub(self, id)
    }

    fn service(&self, sid: Sid) -> Option<&Service> {
        find_service(self, sid)
    }

    fn packet(&self, scid: ScId) -> Option<Packet> {
        match self.packets.get(u64::from(scid.get())) {
            Some(packet) => Some(*packet),
            None => None,
        }
    }

    fn crowded(&self) -> bool {
        is_crowded(self.subs())
    }

    fn add_sub_known(&mut self, sub: Sub) {
        self.subs.insert(sub);
    }

    fn drop_sub_known(&mut self, id: SubId) {
        self.subs.remove(u64::from(id.get()));
    }

    fn move_sub_known(&mut self, id: SubId, start: u16) {
        if let Some(sub) = find_sub(self, id) {
            self.subs.replace(Sub { start, ..sub });
        }
    }

    fn rate_sub_known(&mut self, id: SubId, kbits: u16) {
        if let Some(sub) = find_sub(self, id) {
            self.subs.replace(Sub { kbits, ..sub });
        }
    }

    fn add_service_known(&mut self, sid: Sid) {
        self.services.insert(Service::new(sid));
    }

    fn drop_service_known(&mut self, sid: Sid) {
        self.services.remove(sid_key(sid));
    }

    fn add_component_known(&mut self, sid: Sid, component: Component) {
        if let Some(service) = find_service(self, sid) {
            let mut more = service.copied();
            more.components.push(component);
            self.services.replace(more);
        }
    }

    fn drop_component_known(&mut self, sid: Sid, carrier: Carrier) {
        if let Some(service) = find_service(self, sid) {
            let rest = without_carrier(service, &carrier);
            self.services.replace(rest);
        }
    }

    fn add_packet_known(&mut self, packet: Packet) {
        self.packets.insert(packet);
    }

    fn drop_packet_known(&mut self, scid: ScId) {
        self.packets.remove(u64::from(scid.get()));
    }
}
