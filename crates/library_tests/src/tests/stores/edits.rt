//! Tests edits of full sets: the order of their faults, that a fault changes nothing, and the
//! `_known` twins.

use super::parts::{
    add_component, add_sub, carried, drop_component, holds, move_sub, packet, rate_sub, sc_id,
    sound, sub, sub_id,
};
use mux_config::{Carrier, Edit, EditFault, Sid, Store};
use std::test::Fail;

/// A store with sub-channels 0 to 63 at 4-A and 8 kbit/s, one after the other from capacity unit 0;
/// the services with the 16-bit SIds 0 to 62, the first with 12 components, and with the 32-bit SId
/// 1, with 11; and the packet components 0 to 63.
pub fn full<S: Store>() -> Result<S, Fail> {
    let mut store = S::empty();
    for k in 0u8..64 {
        store.add_sub(sub(k, 4 * u16::from(k), 4, 8))?;
        store.add_packet(packet(u16::from(k), 0, u16::from(k) + 1))?;
    }
    for k in 0u16..63 {
        store.add_service(Sid::Short(k))?;
    }
    store.add_service(Sid::Long(1))?;
    for k in 0u8..11 {
        store.add_component(Sid::Short(0), sound(k))?;
        store.add_component(Sid::Long(1), sound(k))?;
    }
    store.add_component(Sid::Short(0), carried(11))?;
    Ok(store)
}

/// Each edit is refused with its fault, and changes nothing.
fn refuses<S: Store>(store: &mut S, rows: &[(Edit, EditFault)]) -> Result<(), Fail> {
    let mut before = S::empty();
    before.copy_from(store);
    for (edit, fault) in rows {
        holds(
            edit.apply(store) == Err(*fault),
            format_args!("the fault of {edit:?}"),
        )?;
        holds(
            store.same(&before),
            format_args!("nothing changed by {edit:?}"),
        )?;
    }
    Ok(())
}

/// Edits of full sets are refused with the first of their faults, and change nothing.
pub fn faults_of_full_sets<S: Store>() -> Result<(), Fail> {
    let mut store: S = full()?;
    refuses(
        &mut store,
        &[
            (add_sub(sub(5, 1023, 4, 7)), EditFault::IdUsed),
            (add_sub(sub(5, 861, 4, 8)), EditFault::IdUsed),
            (Edit::AddService(Sid::Short(0)), EditFault::IdUsed),
            (Edit::AddService(Sid::Short(1000)), EditFault::TableFull),
            (Edit::DropService(Sid::Long(5)), EditFault::IdAbsent),
            (add_component(Sid::Long(0), sound(3)), EditFault::IdAbsent),
            (add_component(Sid::Short(0), sound(3)), EditFault::IdUsed),
            (add_component(Sid::Short(0), carried(11)), EditFault::IdUsed),
            (
                add_component(Sid::Short(0), sound(11)),
                EditFault::TooManyComponents,
            ),
            (add_component(Sid::Long(1), sound(3)), EditFault::IdUsed),
            (
                add_component(Sid::Long(1), sound(11)),
                EditFault::TooManyComponents,
            ),
            (
                drop_component(Sid::Long(0), Carrier::Sub(sub_id(3))),
                EditFault::IdAbsent,
            ),
            (
                drop_component(Sid::Short(0), Carrier::Packet(sc_id(3))),
                EditFault::IdAbsent,
            ),
            (Edit::AddPacket(packet(0, 0, 0)), EditFault::IdUsed),
            (Edit::AddPacket(packet(100, 5, 0)), EditFault::BadAddress),
            (Edit::AddPacket(packet(100, 5, 1024)), EditFault::BadAddress),
            (Edit::AddPacket(packet(100, 5, 1023)), EditFault::TableFull),
            (Edit::DropPacket(sc_id(100)), EditFault::IdAbsent),
        ],
    )
}

/// Edits of sub-channels are refused with the first of their faults; with room again the 64th is
/// added.
pub fn faults_of_sub_channels<S: Store>() -> Result<(), Fail> {
    let mut store: S = full()?;
    Edit::DropSub(sub_id(63)).apply(&mut store)?;
    move_sub(5, 860).apply(&mut store)?;
    refuses(
        &mut store,
        &[
            (add_sub(sub(63, 1023, 4, 7)), EditFault::BadRate),
            (add_sub(sub(63, 861, 4, 8)), EditFault::PastEnd),
            (add_sub(sub(63, 800, 3, 128)), EditFault::PastEnd),
            (Edit::DropSub(sub_id(63)), EditFault::IdAbsent),
            (move_sub(63, 1023), EditFault::IdAbsent),
            (move_sub(62, 861), EditFault::PastEnd),
            (rate_sub(63, 7), EditFault::IdAbsent),
            (rate_sub(5, 33), EditFault::BadRate),
            (rate_sub(5, 16), EditFault::PastEnd),
        ],
    )?;
    add_sub(sub(63, 768, 3, 128)).apply(&mut store)?;
    holds(store.sub_count() == 64, "64 sub-channels again")?;
    Ok(())
}

/// The edit has the same effect as its twin for a caller that knows that there is no fault.
fn edits_alike<S: Store>(full: &S, edit: Edit) -> Result<(), Fail> {
    let mut edited = S::empty();
    let mut known = S::empty();
    edited.copy_from(full);
    known.copy_from(full);
    holds(
        edit.apply(&mut edited).is_ok(),
        format_args!("no fault of {edit:?}"),
    )?;
    edit.apply_known(&mut known);
    holds(known.same(&edited), format_args!("the twin of {edit:?}"))?;
    holds(!known.same(full), format_args!("a change by {edit:?}"))
}

/// Each edit and its twin have the same effect.
pub fn twins<S: Store>() -> Result<(), Fail> {
    let mut store: S = full()?;
    let drops = [
        Edit::DropSub(sub_id(63)),
        Edit::DropService(Sid::Short(62)),
        drop_component(Sid::Short(0), Carrier::Packet(sc_id(11))),
        Edit::DropPacket(sc_id(63)),
    ];
    for drop in drops {
        drop.apply(&mut store)?;
    }
    let edits = [
        add_sub(sub(63, 860, 4, 8)),
        Edit::DropSub(sub_id(0)),
        move_sub(5, 860),
        rate_sub(5, 16),
        Edit::AddService(Sid::Long(0)),
        Edit::DropService(Sid::Short(0)),
        add_component(Sid::Short(0), carried(3)),
        drop_component(Sid::Long(1), Carrier::Sub(sub_id(3))),
        Edit::AddPacket(packet(100, 5, 1023)),
        Edit::DropPacket(sc_id(0)),
    ];
    for edit in edits {
        edits_alike(&store, edit)?;
    }
    Ok(())
}
