//! Reads the fields of a record from the front of its bytes.

ghost use Rattle.std.specs.Prelude.{◌≡◌, ◌+◌, ◌^◌, ◌<◌, ◌≤◌, length, drop};
ghost use Rattle.std.specs.Int.{w16, w32};
ghost use Rattle.mux_config.specs.FieldReading.{Unread, Takes, place, byte_at, number_at};
ghost use Rattle.mux_config.specs.FieldReading.{byte_within, u16_in_range, flag_at, protection_at};
ghost use Rattle.mux_config.specs.FieldReading.{sid_at, component_at};

use crate::record::RecordFault;
use mux_eep::{EepSet, Protection};
use mux_types::{Component, ScId, ScTy, Sid, SubId};
use std::marker::Model;

/// Reads fields from the front of bytes, one after the other. Each read returns the field or its
/// fault: `Short` if bytes are missing, `Field` with the offset of its first byte if it is out of
/// range. Offsets are counted from the first byte that the reader was given. After a fault the
/// reader is somewhere within the field.
#[derive(Drop)]
pub struct Reader<'a> {
    total: usize,
    rest: &'a [u8],
}

impl<'a> Model for Reader<'a> {
    ghost use Rattle.std.specs.Prelude.{length, ◌≤◌};
    ghost use Rattle.mux_config.specs.FieldReading.{Unread};

    ghost Value = { Unread };

    ghost view = { λ r. record { total = r.total; rest = r.rest.now } };

    ghost invariant = { λ r. length r.rest.now ≤ r.total };
}

impl<'a> Reader<'a> {
    /// A reader of all of these bytes.
    pub fn new(bytes: &'a [u8]) -> Reader<'a>
        ensures total { result.total ≡ length bytes.now }
        ensures rest { result.rest ≡ bytes.now }
    {
        Reader {
            total: bytes.len(),
            rest: bytes,
        }
    }

    /// The offset of the next byte, from 0.
    pub fn place(&self) -> usize
        ensures value { result ≡ place self.now.total self.now.rest }
        ensures within { result + length self.now.rest ≡ self.now.total }
        ensures fits { self.now.total < 2 ^ 64 }
    {
        self.total - self.rest.len()
    }

    /// The remaining bytes.
    pub fn rest(&self) -> &[u8]
        ensures value { result.now ≡ self.now.rest }
        ensures bound { length result.now ≤ self.now.total }
    {
        self.rest
    }

    /// Skips this many bytes, which must remain.
    pub fn skip(&mut self, count: usize)
        requires { count ≤ length self.old.rest }
        ensures rest { self.new.rest ≡ drop count self.old.rest }
        ensures total { self.new.total ≡ self.old.total }
    {
        self.rest = &self.rest[count..];
    }

    /// Reads a byte.
    pub fn byte(&mut self) -> Result<u8, RecordFault>
        ensures read { Takes (byte_at self.old.rest) result self.new }
        ensures total { self.new.total ≡ self.old.total }
    {
        match self.rest {
            [] => Err(RecordFault::Short),
            [byte, rest @ ..] => {
                self.rest = rest;
                Ok(*byte)
            }
        }
    }

    /// Reads a two-byte number.
    pub fn u16(&mut self) -> Result<u16, RecordFault>
        ensures read { Takes (number_at w16 self.old.rest) result self.new }
        ensures total { self.new.total ≡ self.old.total }
    {
        if self.rest.len() < 2 {
            return Err(RecordFault::Short);
        }
        let (front, rest) = self.rest.split_at(2);
        self.rest = rest;
        Ok(u16::from_be_bytes([front[0], front[1]]))
    }

    /// Reads a four-byte number.
    pub fn u32(&mut self) -> Result<u32, RecordFault>
        ensures read { Takes (number_at w32 self.old.rest) result self.new }
        ensures total { self.new.total ≡ self.old.total }
    {
        if self.rest.len() < 4 {
            return Err(RecordFault::Short);
        }
        let (front, rest) = self.rest.split_at(4);
        self.rest = rest;
        Ok(u32::from_be_bytes([front[0], front[1], front[2], front[3]]))
    }

    /// Reads a byte in the range `low` to `high`.
    pub fn byte_within(&mut self, low: u8, high: u8) -> Result<u8, RecordFault>
        ensures read { Takes (byte_within self.old.total low high self.old.rest) result self.new }
        ensures total { self.new.total ≡ self.old.total }
    {
        let place = self.place();
        let byte = self.byte()?;
        if byte < low {
            return Err(RecordFault::Field(place));
        }
        if byte > high {
            return Err(RecordFault::Field(place));
        }
        Ok(byte)
    }

    /// Reads a two-byte number in the range `low` to `high`.
    pub fn u16_within(&mut self, low: u16, high: u16) -> Result<u16, RecordFault>
        ensures read { Takes (u16_in_range self.old.total low high self.old.rest) result self.new }
        ensures total { self.new.total ≡ self.old.total }
    {
        let place = self.place();
        let word = self.u16()?;
        if word < low {
            return Err(RecordFault::Field(place));
        }
        if word > high {
            return Err(RecordFault::Field(place));
        }
        Ok(word)
    }

    /// Reads a flag, a byte 0 or 1.
    pub fn flag(&mut self) -> Result<bool, RecordFault>
        ensures read { Takes (flag_at self.old.total self.old.rest) result self.new }
        ensures total { self.new.total ≡ self.old.total }
    {
        Ok(self.byte_within(0, 1)? == 1)
    }

    /// Reads a SubChId, 0 to 63.
    pub fn sub_id(&mut self) -> Result<SubId, RecordFault>
        ensures read { Takes (byte_within self.old.total 0 63 self.old.rest) result self.new }
        ensures total { self.new.total ≡ self.old.total }
    {
        let place = self.place();
        let byte = self.byte()?;
        SubId::new(byte).ok_or(RecordFault::Field(place))
    }

    /// Reads the type of a component, 0 to 63.
    pub fn sc_ty(&mut self) -> Result<ScTy, RecordFault>
        ensures read { Takes (byte_within self.old.total 0 63 self.old.rest) result self.new }
        ensures total { self.new.total ≡ self.old.total }
    {
        let place = self.place();
        let byte = self.byte()?;
        ScTy::new(byte).ok_or(RecordFault::Field(place))
    }

    /// Reads an SCId, two bytes, 0 to 4095.
    pub fn sc_id(&mut self) -> Result<ScId, RecordFault>
        ensures read { Takes (u16_in_range self.old.total 0 4095 self.old.rest) result self.new }
        ensures total { self.new.total ≡ self.old.total }
    {
        let place = self.place();
        let word = self.u16()?;
        ScId::new(word).ok_or(RecordFault::Field(place))
    }

    /// Reads a protection profile: a byte 0 for set A or 1 for set B, and a byte for the level, 1
    /// to 4.
    #[tactic(auto, unfolding(crate::specs::FieldReading::protection_at))]
    pub fn protection(&mut self) -> Result<Protection, RecordFault>
        ensures read { Takes (protection_at self.old.total self.old.rest) result self.new }
        ensures total { self.new.total ≡ self.old.total }
    {
        let set = if self.byte_within(0, 1)? == 0 {
            EepSet::A
        } else {
            EepSet::B
        };
        let place = self.place();
        let level = self.byte()?;
        Protection::new(set, level).ok_or(RecordFault::Field(place))
    }

    /// Reads an SId: a byte 0 and two bytes, or a byte 1 and four bytes.
    #[tactic(auto, unfolding(crate::specs::FieldReading::sid_at))]
    pub fn sid(&mut self) -> Result<Sid, RecordFault>
        ensures read { Takes (sid_at self.old.total self.old.rest) result self.new }
        ensures total { self.new.total ≡ self.old.total }
    {
        if self.byte_within(0, 1)? == 0 {
            Ok(Sid::Short(self.u16()?))
        } else {
            Ok(Sid::Long(self.u32()?))
        }
    }

    /// Reads a component: its TMId in a byte, 0, 1 or 3, and then its type and SubChId, a byte
    /// each, or its SCId, two bytes.
    #[tactic(auto, unfolding(crate::specs::FieldReading::component_at, crate::specs::FieldReading::component_of))]
    pub fn component(&mut self) -> Result<Component, RecordFault>
        ensures read { Takes (component_at self.old.total self.old.rest) result self.new }
        ensures total { self.new.total ≡ self.old.total }
    {
        let place = self.place();
        match self.byte()? {
            0 => Ok(Component::Sound {
                ty: self.sc_ty()?,
                sub: self.sub_id()?,
            }),
            1 => Ok(Component::Stream {
                ty: self.sc_ty()?,
                sub: self.sub_id()?,
            }),
            3 => Ok(Component::Packet {
                scid: self.sc_id()?,
            }),
            _ => Err(RecordFault::Field(place)),
        }
    }
}
