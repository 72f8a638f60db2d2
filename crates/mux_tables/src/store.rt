//! Implements `Store` for `Tables`: its sets in order, and what an edit without a fault changes.

use crate::tables::Tables;
use mux_config::{Carrier, Component, Config, Packet, ScId, Service, Sid, Store, Sub, SubId};

impl Store for Tables {
    ghost content = { λ t. t };

    fn empty() -> Tables {
        Tables::new()
    }

    fn from_config(config: &Config) -> Tables {
        let mut tables = Tables::new();
        tables.copy_from_config(config);
        tables
    }

    fn to_config(&self) -> Config {
        let mut config = self.others.to_config();
        for index in 0..self.sub_count() {
            config.add_sub_known(self.sub_at(index));
        }
        config
    }

    fn copy_from(&mut self, other: &Tables) {
        self.subs.copy_from(&other.subs);
        self.units = other.units;
        self.others.copy_from(&other.others);
    }

    fn copy_from_config(&mut self, config: &Config) {
        self.copy_others_from(config);
        for index in 0..config.sub_count() {
            self.insert(config.sub_at(index));
        }
    }

    fn same(&self, other: &Tables) -> bool {
        if !self.subs.same(&other.subs) {
            return false;
        }
        self.others.same(&other.others)
    }

    fn sub_count(&self) -> usize {
        self.subs.len()
    }

    fn sub_at(&self, index: usize) -> Sub {
        self.subs.item(index)
    }

    fn service_count(&self) -> usize {
        self.others.service_count()
    }

    fn service_at(&self, index: usize) -> &Service {
        self.others.service_at(index)
    }

    fn packet_count(&self) -> usize {
        self.others.packet_count()
    }

    fn packet_at(&self, index: usize) -> Packet {
        self.others.packet_at(index)
    }

    fn sub(&self, id: SubId) -> Option<Sub> {
        self.get(id)
    }

    fn service(&self, sid: Sid) -> Option<&Service> {
        self.others.service(sid)
    }

    fn packet(&self, scid: ScId) -> Option<Packet> {
        self.others.packet(scid)
    }

    fn crowded(&self) -> bool {
        self.is_crowded()
    }

    fn add_sub_known(&mut self, sub: Sub) {
        self.insert(sub);
    }

    fn drop_sub_known(&mut self, id: SubId) {
        self.remove(id);
    }

    fn move_sub_known(&mut self, id: SubId, start: u16) {
        if let Some(sub) = self.get(id) {
            self.replace(sub, Sub { start, ..sub });
        }
    }

    fn rate_sub_known(&mut self, id: SubId, kbits: u16) {
        if let Some(sub) = self.get(id) {
            self.replace(sub, Sub { kbits, ..sub });
        }
    }

    fn add_service_known(&mut self, sid: Sid) {
        self.others.add_service_known(sid);
    }

    fn drop_service_known(&mut self, sid: Sid) {
        self.others.drop_service_known(sid);
    }

    fn add_component_known(&mut self, sid: Sid, component: Component) {
        self.others.add_component_known(sid, component);
    }

    fn drop_component_known(&mut self, sid: Sid, carrier: Carrier) {
        self.others.drop_component_known(sid, carrier);
    }

    fn add_packet_known(&mut self, packet: Packet) {
        self.others.add_packet_known(packet);
    }

    fn drop_packet_known(&mut self, scid: ScId) {
        self.others.drop_packet_known(scid);
    }
}
