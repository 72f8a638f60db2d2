//! Tests the soundness of configurations, and what a reconfiguration changes.

use super::parts::{
    add_component, carried, drop_component, holds, move_sub, packet, rate_sub, sc_id, sound, sub,
    sub_id,
};
use mux_config::{Carrier, Change, ConfigFault, Edit, Sid, Store, Sub, change, soundness};
use std::test::Fail;

/// A store with only these sub-channels.
pub fn of_subs<S: Store>(subs: &[Sub]) -> Result<S, Fail> {
    let mut store = S::empty();
    for sub in subs {
        store.add_sub(*sub)?;
    }
    Ok(store)
}

fn overlap(a: u8, b: u8) -> ConfigFault {
    ConfigFault::Overlap(sub_id(a), sub_id(b))
}

/// Sub-channels that share capacity units, including just at their edges, and sub-channels that
/// only touch.
pub fn shared_capacity_units<S: Store>() -> Result<(), Fail> {
    let rows: [(&[Sub], Result<(), ConfigFault>); 7] = [
        (&[sub(1, 0, 3, 128), sub(2, 96, 3, 64)], Ok(())),
        (&[sub(1, 0, 3, 128), sub(2, 0, 3, 64)], Err(overlap(1, 2))),
        (&[sub(1, 31, 4, 8), sub(2, 34, 4, 8)], Err(overlap(1, 2))),
        (&[sub(1, 31, 4, 8), sub(2, 35, 4, 8)], Ok(())),
        (&[sub(1, 35, 4, 8), sub(2, 32, 4, 8)], Err(overlap(1, 2))),
        (&[sub(1, 0, 4, 1728), sub(2, 860, 4, 8)], Err(overlap(1, 2))),
        (
            &[
                sub(1, 8, 4, 8),
                sub(2, 0, 4, 8),
                sub(3, 2, 4, 16),
                sub(4, 9, 4, 8),
            ],
            Err(overlap(1, 3)),
        ),
    ];
    for (subs, answer) in rows {
        let store: S = of_subs(subs)?;
        holds(
            store.crowded() == answer.is_err(),
            "shared capacity units found",
        )?;
        holds(soundness(&store) == answer, "the overlap told")?;
    }
    Ok(())
}

/// The first fault is reported: overlaps, then orphans, then addresses that are used twice, then
/// empty services.
pub fn first_faults<S: Store>() -> Result<(), Fail> {
    let mut store: S = of_subs(&[sub(1, 0, 3, 128), sub(2, 95, 3, 64)])?;
    let one = Sid::Short(0xC221);
    let two = Sid::Short(0xC222);
    let rows = [
        (Edit::AddService(one), Err(overlap(1, 2))),
        (Edit::AddService(two), Err(overlap(1, 2))),
        (add_component(two, carried(7)), Err(overlap(1, 2))),
        (Edit::AddPacket(packet(1, 2, 9)), Err(overlap(1, 2))),
        (Edit::AddPacket(packet(2, 2, 9)), Err(overlap(1, 2))),
        (move_sub(2, 96), Err(ConfigFault::Orphan)),
        (Edit::AddPacket(packet(7, 3, 9)), Err(ConfigFault::Orphan)),
        (Edit::DropPacket(sc_id(7)), Err(ConfigFault::Orphan)),
        (
            Edit::AddPacket(packet(7, 1, 9)),
            Err(ConfigFault::AddressUsed),
        ),
        (Edit::DropPacket(sc_id(2)), Err(ConfigFault::EmptyService)),
        (add_component(one, sound(3)), Err(ConfigFault::Orphan)),
        (
            drop_component(one, Carrier::Sub(sub_id(3))),
            Err(ConfigFault::EmptyService),
        ),
        (add_component(one, sound(1)), Ok(())),
    ];
    for (edit, answer) in rows {
        edit.apply(&mut store)?;
        holds(
            soundness(&store) == answer,
            format_args!("soundness after {edit:?}"),
        )?;
    }
    Ok(())
}

/// A sub-channel that was dropped shares no capacity unit.
pub fn dropped_sub_channels<S: Store>() -> Result<(), Fail> {
    let mut store: S = of_subs(&[sub(1, 0, 4, 8), sub(2, 0, 4, 8), sub(3, 0, 4, 8)])?;
    store.drop_sub(sub_id(1))?;
    holds(
        soundness(&store) == Err(overlap(2, 3)),
        "the overlap of the two left",
    )?;
    store.drop_sub(sub_id(3))?;
    holds(soundness(&store) == Ok(()), "one sub-channel is sound")?;
    Ok(())
}

/// What a reconfiguration changes: sub-channels, services, both or nothing.
pub fn changes<S: Store>() -> Result<(), Fail> {
    let mut current: S = of_subs(&[sub(1, 0, 3, 128)])?;
    let sid = Sid::Short(0xC221);
    current.add_service(sid)?;
    current.add_component(sid, sound(1))?;
    let mut next = S::from_config(&current.to_config());
    holds(change(&current, &next).bits() == 0, "no change of a copy")?;
    let rows = [
        (rate_sub(1, 96), true, false, 1),
        (Edit::AddPacket(packet(1, 1, 9)), true, true, 3),
        (rate_sub(1, 128), false, true, 2),
        (Edit::DropPacket(sc_id(1)), false, false, 0),
        (drop_component(sid, Carrier::Sub(sub_id(1))), false, true, 2),
    ];
    for (edit, subs, services, bits) in rows {
        edit.apply(&mut next)?;
        let change = change(&current, &next);
        holds(
            change == Change { subs, services },
            format_args!("the change by {edit:?}"),
        )?;
        holds(change.bits() == bits, "the change as two bits")?;
    }
    Ok(())
}
