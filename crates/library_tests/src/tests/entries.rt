//! Each kind of entry with the lowest and highest values of its fields, in the layout of the
//! standard.

use super::fibs::begins;
use fib_codec::{
    Bits, BoundedVec, ComponentEntry, Ensemble, Entry, Fib, Head, PacketEntry, ScId, ScTy,
    ServiceEntry, ShortEntry, Sid, SubEntry, SubId, entry_len,
};
use std::test::Fail;

type Made = Result<Entry, &'static str>;

fn bits<const WIDTH: u32>(value: u16) -> Result<Bits<WIDTH>, &'static str> {
    Bits::new(value).ok_or("a field within its bits")
}

fn sub_id(id: u8) -> Result<SubId, &'static str> {
    SubId::new(id).ok_or("a SubChId")
}

fn ty(number: u8) -> Result<ScTy, &'static str> {
    ScTy::new(number).ok_or("a type")
}

fn sc_id(id: u16) -> Result<ScId, &'static str> {
    ScId::new(id).ok_or("an SCId")
}

/// Whether an entry has this length, and a FIB with one FIG of it for the next configuration begins
/// with these bytes.
fn goes_as(entry: Made, head: Head, len: usize, front: &[u8]) -> Result<bool, &'static str> {
    let entries = [entry?];
    let mut fib = Fib::new();
    if !fib.try_fig(head, &entries) {
        return Err("a FIG that fits");
    }
    Ok(entry_len(&entries[0]) == len && begins(&fib.finish(), front))
}

fn head(ext: u8, long: bool) -> Head {
    Head {
        next: true,
        oe: false,
        long,
        ext,
    }
}

fn ensemble(eid: u16, change: u8, al: bool, count: u16, occurrence: Option<u8>) -> Made {
    let ensemble = Ensemble::new(eid, change, al, count, occurrence).ok_or("ensemble information")?;
    Ok(Entry::Ensemble(ensemble))
}

#[test]
fn ensemble_information(rt: HostRuntime) -> Result<(), Fail> {
    let least = ensemble(0, 0, false, 0, None);
    assert!(rt; goes_as(least, head(0, false), 4, &[5, 0x80, 0, 0, 0, 0, 0xff, 0])?);
    let greatest = ensemble(0xffff, 3, true, 4999, Some(255));
    assert!(rt;
        goes_as(
            greatest,
            head(0, true),
            5,
            &[6, 0xa0, 0xff, 0xff, 0xf3, 0xf9, 0xff, 0xff, 0]
        )?
    );
    Ok(())
}

fn sub(id: u8, start: u16, option: u16, level: u16, size: u16) -> Made {
    let sub = SubEntry {
        id: sub_id(id)?,
        start: bits(start)?,
        option: bits(option)?,
        level: bits(level)?,
        size: bits(size)?,
    };
    Ok(Entry::Sub(sub))
}

fn short(id: u8, start: u16, switch: bool, table: u16) -> Made {
    Ok(Entry::Short(ShortEntry {
        id: sub_id(id)?,
        start: bits(start)?,
        switch,
        table: bits(table)?,
    }))
}

#[test]
fn sub_channels(rt: HostRuntime) -> Result<(), Fail> {
    let rows: [(Made, usize, &[u8]); 4] = [
        (sub(0, 0, 0, 0, 0), 4, &[5, 0x81, 0, 0, 0x80, 0, 0xff, 0]),
        (
            sub(63, 1023, 7, 3, 1023),
            4,
            &[5, 0x81, 0xff, 0xff, 0xff, 0xff, 0xff, 0],
        ),
        (short(0, 0, false, 0), 3, &[4, 0x81, 0, 0, 0, 0xff, 0]),
        (
            short(63, 1023, true, 63),
            3,
            &[4, 0x81, 0xff, 0xff, 0x7f, 0xff, 0],
        ),
    ];
    for (entry, len, front) in rows {
        assert!(rt; goes_as(entry, head(1, false), len, front)?);
    }
    Ok(())
}

fn service(sid: Sid, rfa: bool, ca_id: u16, components: BoundedVec<ComponentEntry, 15>) -> Made {
    Ok(Entry::Service(ServiceEntry {
        sid,
        rfa,
        ca_id: bits(ca_id)?,
        components,
    }))
}

#[test]
fn services_without_components(rt: HostRuntime) -> Result<(), Fail> {
    let rows: [(Sid, bool, u16, usize, &[u8]); 4] = [
        (Sid::Short(0), false, 0, 3, &[4, 0x82, 0, 0, 0, 0xff, 0]),
        (
            Sid::Short(0xffff),
            true,
            7,
            3,
            &[4, 0x82, 0xff, 0xff, 0xf0, 0xff, 0],
        ),
        (
            Sid::Long(0),
            false,
            0,
            5,
            &[6, 0xa2, 0, 0, 0, 0, 0, 0xff, 0],
        ),
        (
            Sid::Long(0xfedc_ba98),
            false,
            1,
            5,
            &[6, 0xa2, 0xfe, 0xdc, 0xba, 0x98, 0x10, 0xff, 0],
        ),
    ];
    for (sid, rfa, ca_id, len, front) in rows {
        let entry = service(sid, rfa, ca_id, BoundedVec::new());
        assert!(rt; goes_as(entry, head(2, len == 5), len, front)?);
    }
    Ok(())
}

/// This many components, cycling through the four kinds.
fn components(count: usize, kinds: &[ComponentEntry; 4]) -> BoundedVec<ComponentEntry, 15> {
    let mut components = BoundedVec::new();
    for _ in 0..4 {
        for kind in kinds {
            if components.len() < count && !components.is_full() {
                components.push(*kind);
            }
        }
    }
    components
}

/// The four kinds of components, all with the same flags.
fn kinds(
    number: u8,
    other: u16,
    scid: u16,
    flag: bool,
) -> Result<[ComponentEntry; 4], &'static str> {
    let (ty, sub) = (ty(number)?, sub_id(number)?);
    Ok([
        ComponentEntry::Sound {
            ty,
            sub,
            primary: flag,
            ca: flag,
        },
        ComponentEntry::Stream {
            ty,
            sub,
            primary: flag,
            ca: flag,
        },
        ComponentEntry::Other { bits: bits(other)? },
        ComponentEntry::Packet {
            scid: sc_id(scid)?,
            primary: flag,
            ca: flag,
        },
    ])
}

#[test]
fn components_of_each_kind(rt: HostRuntime) -> Result<(), Fail> {
    let least = service(
        Sid::Short(0),
        false,
        0,
        components(4, &kinds(0, 0, 0, false)?),
    );
    assert!(rt;
        goes_as(
            least,
            head(2, false),
            11,
            &[12, 0x82, 0, 0, 4, 0, 0, 0x40, 0, 0x80, 0, 0xc0, 0, 0xff]
        )?
    );
    let greatest = service(
        Sid::Short(0),
        false,
        0,
        components(4, &kinds(63, 0x3fff, 4095, true)?),
    );
    let bytes = [
        12, 0x82, 0, 0, 4, 0x3f, 0xff, 0x7f, 0xff, 0xbf, 0xff, 0xff, 0xff, 0xff,
    ];
    assert!(rt; goes_as(greatest, head(2, false), 11, &bytes)?);
    Ok(())
}

#[test]
fn services_with_fifteen_components(rt: HostRuntime) -> Result<(), Fail> {
    let entries = [service(
        Sid::Short(1),
        false,
        0,
        components(15, &kinds(1, 2, 3, true)?),
    )?];
    assert_eq!(rt; entry_len(&entries[0]), 33);
    let mut fib = Fib::new();
    assert!(rt; !fib.try_fig(head(2, false), &entries));
    assert_eq!(rt; fib.finish(), Fib::new().finish());
    let long = service(
        Sid::Long(1),
        false,
        0,
        components(15, &kinds(1, 2, 3, true)?),
    )?;
    assert_eq!(rt; entry_len(&long), 35);
    Ok(())
}

fn packet(scid: u16, rfa: u16, flag: bool, number: u8, address: u16, ca_org: Option<u16>) -> Made {
    Ok(Entry::Packet(PacketEntry {
        scid: sc_id(scid)?,
        rfa: bits(rfa)?,
        dg: flag,
        rfu: flag,
        ty: ty(number)?,
        sub: sub_id(number)?,
        address: bits(address)?,
        ca_org,
    }))
}

#[test]
fn packet_components(rt: HostRuntime) -> Result<(), Fail> {
    let least = packet(0, 0, false, 0, 0, None);
    assert!(rt; goes_as(least, head(3, false), 5, &[6, 0x83, 0, 0, 0, 0, 0, 0xff, 0])?);
    let greatest = packet(4095, 7, true, 63, 1023, Some(0xffff));
    assert!(rt;
        goes_as(
            greatest,
            head(3, false),
            7,
            &[8, 0x83, 0xff, 0xff, 0xff, 0xff, 0xff, 0xff, 0xff, 0xff, 0]
        )?
    );
    Ok(())
}
