//! Tests the order of the members of each set, and copies.

use super::edits::full;
use super::parts::{holds, packet, sc_id, sound, sub, sub_id};
use mux_config::{Config, Sid, Store};
use std::test::Fail;

/// The members of each set are in ascending order of SubChId, SId (16-bit ones first) and SCId, in
/// whatever order they were added, and are found by these.
pub fn members<S: Store>() -> Result<(), Fail> {
    let mut store = S::empty();
    for id in [9u8, 3, 63, 0] {
        store.add_sub(sub(id, 8 * u16::from(id), 4, 8))?;
        store.add_packet(packet(64 * u16::from(id), id, 1))?;
    }
    for sid in [Sid::Long(1), Sid::Short(0xFFFF), Sid::Short(1)] {
        store.add_service(sid)?;
    }
    store.add_component(Sid::Long(1), sound(63))?;
    let found = (
        store.sub_count(),
        store.service_count(),
        store.packet_count(),
    );
    holds(found == (4, 3, 4), "as many members as were added")?;
    for (index, id) in [0u8, 3, 9, 63].into_iter().enumerate() {
        if index < store.sub_count() && index < store.packet_count() {
            holds(
                store.sub_at(index).id == sub_id(id),
                "sub-channels in order of SubChId",
            )?;
            holds(
                store.packet_at(index).sub == sub_id(id),
                "packet components in order of SCId",
            )?;
        }
        holds(store.sub(sub_id(id)).is_some(), "a sub-channel found")?;
        holds(
            store.packet(sc_id(64 * u16::from(id))).is_some(),
            "a packet component found",
        )?;
    }
    holds(store.sub(sub_id(1)) == None, "no sub-channel 1")?;
    holds(store.packet(sc_id(1)) == None, "no packet component 1")?;
    Ok(())
}

/// Services are in ascending order of SId, with their components, and are found by it.
pub fn services<S: Store>() -> Result<(), Fail> {
    let mut store = S::empty();
    for sid in [Sid::Long(1), Sid::Short(0xFFFF), Sid::Short(1)] {
        store.add_service(sid)?;
    }
    store.add_component(Sid::Long(1), sound(63))?;
    let order = [Sid::Short(1), Sid::Short(0xFFFF), Sid::Long(1)];
    for (index, sid) in order.into_iter().enumerate() {
        if index < store.service_count() {
            holds(
                store.service_at(index).sid == sid,
                "services in order of SId",
            )?;
        }
    }
    let carried = store
        .service(Sid::Long(1))
        .map(|service| service.components.len());
    holds(carried == Some(1), "one component of the service")?;
    holds(
        store.service(Sid::Long(2)).is_none(),
        "no service of another SId",
    )?;
    Ok(())
}

/// A store that is copied, or converted to a `Config` and back, has the same content; an edit then
/// makes the two differ.
pub fn copies<S: Store>() -> Result<(), Fail> {
    let store: S = full()?;
    let config: Config = store.to_config();
    let mut other = S::from_config(&config);
    holds(other.same(&store), "the same through a Config")?;
    holds(other.to_config().same(&config), "the same Config again")?;
    other.drop_sub(sub_id(7))?;
    holds(!other.same(&store), "parted from the store")?;
    other.copy_from(&store);
    holds(other.same(&store), "the same as the store copied")?;
    other.copy_from(&S::empty());
    holds(other.same(&S::empty()), "empty again")?;
    holds(!other.same(&store), "parted from the store")?;
    other.copy_from_config(&config);
    holds(other.same(&store), "the same as the Config copied")?;
    Ok(())
}
