//! Parts of configurations and edits for tests, made from their numbers. A number out of range
//! becomes 0.

ghost use Rattle.std.specs.Prelude.{◌≡◌, ◌↔◌, true, IsOk};

use mux_config::{
    Carrier, Component, Edit, NewSub, Packet, ScId, ScTy, Sid, StartAddress, Sub, SubId,
};
use mux_eep::{EepSet, Protection};
use std::fmt::Display;
use std::test::Fail;

/// Fails with the text if the condition is false.
pub fn holds<T: Display + Drop>(is: bool, text: T) -> Result<(), Fail>
    ensures is_ok { IsOk result ↔ is ≡ true }
{
    if is {
        Ok(())
    } else {
        Err(Fail::new(format_args!("does not hold: {text}")))
    }
}

/// A sub-channel of 3-A or 4-A.
pub fn sub(id: u8, start: u16, level: u8, kbits: u16) -> Sub {
    Sub {
        id: sub_id(id),
        start,
        protection: Protection::new(EepSet::A, level).unwrap_or_default(),
        kbits,
    }
}

/// A packet component of type 60.
pub fn packet(scid: u16, sub: u8, address: u16) -> Packet {
    Packet {
        scid: sc_id(scid),
        dg: false,
        ty: ScTy::new(60).unwrap_or_default(),
        sub: sub_id(sub),
        address,
    }
}

/// Audio of type 63 in a sub-channel.
pub fn sound(sub: u8) -> Component {
    Component::Sound {
        ty: ScTy::new(63).unwrap_or_default(),
        sub: sub_id(sub),
    }
}

/// Data in a packet component.
pub fn carried(scid: u16) -> Component {
    Component::Packet { scid: sc_id(scid) }
}

pub fn sub_id(id: u8) -> SubId {
    SubId::new(id).unwrap_or_default()
}

pub fn sc_id(id: u16) -> ScId {
    ScId::new(id).unwrap_or_default()
}

pub fn add_sub(sub: Sub) -> Edit {
    let id = sub.id;
    match NewSub::new(sub) {
        Some(new) => Edit::AddSub(new),
        None => Edit::DropSub(id),
    }
}

pub fn move_sub(id: u8, start: u16) -> Edit {
    match StartAddress::new(start) {
        Some(start) => Edit::MoveSub {
            id: sub_id(id),
            start,
        },
        None => Edit::DropSub(sub_id(id)),
    }
}

pub fn rate_sub(id: u8, kbits: u16) -> Edit {
    Edit::RateSub {
        id: sub_id(id),
        kbits,
    }
}

pub fn add_component(sid: Sid, component: Component) -> Edit {
    Edit::AddComponent { sid, component }
}

pub fn drop_component(sid: Sid, carrier: Carrier) -> Edit {
    Edit::DropComponent { sid, carrier }
}
