//! Numbers that never leave their range: identifiers, types, and the bit fields of an entry.

ghost use Rattle.std.specs.Prelude.{◌≡◌, ◌<◌, ◌^◌, ◌↔◌, IsSome, IfSome};

use std::marker::Model;

/// The identifier of a sub-channel, SubChId, 0 to 63 (EN 300 401 clause 6.2.1).
#[derive(Clone, Copy, Debug, PartialEq, Eq, PartialOrd, Ord)]
pub struct SubId {
    id: u8,
}

impl Model for SubId {
    ghost use Rattle.std.specs.Prelude.{ℕ, ◌<◌};

    ghost Value = { ℕ };

    ghost view = { λ s. s.id };

    ghost invariant = { λ s. s.id < 64 };

    ghost inverse = { λ n. record { id = n } };
}

impl Default for SubId {
    ghost is_default = { λ n. n ≡ 0 };

    /// The number 0.
    fn default() -> Self {
        SubId { id: 0 }
    }
}

impl SubId {
    /// The identifier with this number; None if it is above 63.
    pub fn new(id: u8) -> Option<SubId>
        ensures in_range { IsSome result ↔ (id < 64) }
        ensures value { IfSome result (λ s. s ≡ id) }
    {
        if id < 64 { Some(SubId { id }) } else { None }
    }

    /// Its number, 0 to 63.
    pub fn get(self) -> u8
        ensures value { result ≡ self }
        ensures in_range { result < 64 }
    {
        self.id
    }
}

/// The identifier of a service component in packet mode, SCId, 0 to 4095 (EN 300 401 clause 6.3.1).
#[derive(Clone, Copy, Debug, PartialEq, Eq, PartialOrd, Ord)]
pub struct ScId {
    scid: u16,
}

impl Model for ScId {
    ghost use Rattle.std.specs.Prelude.{ℕ, ◌<◌};

    ghost Value = { ℕ };

    ghost view = { λ s. s.scid };

    ghost invariant = { λ s. s.scid < 4096 };

    ghost inverse = { λ n. record { scid = n } };
}

impl Default for ScId {
    ghost is_default = { λ n. n ≡ 0 };

    /// The number 0.
    fn default() -> Self {
        ScId { scid: 0 }
    }
}

impl ScId {
    /// The identifier with this number; None if it is above 4095.
    pub fn new(scid: u16) -> Option<ScId>
        ensures in_range { IsSome result ↔ (scid < 4096) }
        ensures value { IfSome result (λ s. s ≡ scid) }
    {
        if scid < 4096 {
            Some(ScId { scid })
        } else {
            None
        }
    }

    /// Its number, 0 to 4095.
    pub fn get(self) -> u16
        ensures value { result ≡ self }
        ensures in_range { result < 4096 }
    {
        self.scid
    }
}

/// The type of a service component, ASCTy or DSCTy, 0 to 63, carried as a plain number
/// (EN 300 401 clauses 6.3.1 and 6.3.2).
#[derive(Clone, Copy, Debug, PartialEq, Eq, PartialOrd, Ord)]
pub struct ScTy {
    ty: u8,
}

impl Model for ScTy {
    ghost use Rattle.std.specs.Prelude.{ℕ, ◌<◌};

    ghost Value = { ℕ };

    ghost view = { λ t. t.ty };

    ghost invariant = { λ t. t.ty < 64 };

    ghost inverse = { λ n. record { ty = n } };
}

impl Default for ScTy {
    ghost is_default = { λ n. n ≡ 0 };

    /// The number 0.
    fn default() -> Self {
        ScTy { ty: 0 }
    }
}

impl ScTy {
    /// The type with this number; None if it is above 63.
    pub fn new(ty: u8) -> Option<ScTy>
        ensures in_range { IsSome result ↔ (ty < 64) }
        ensures value { IfSome result (λ t. t ≡ ty) }
    {
        if ty < 64 { Some(ScTy { ty }) } else { None }
    }

    /// Its number, 0 to 63.
    pub fn get(self) -> u8
        ensures value { result ≡ self }
        ensures in_range { result < 64 }
    {
        self.ty
    }
}

/// The identifier of a service, SId: 16 bits for a programme service or 32 bits for a data service
/// (EN 300 401 clause 6.3.1). Short ones come before long ones.
#[derive(Clone, Copy, Debug, PartialEq, Eq, PartialOrd, Ord)]
pub enum Sid {
    /// 16 bits.
    Short(u16),
    /// 32 bits.
    Long(u32),
}

/// A bit field: a number of at most `WIDTH` bits.
#[derive(Clone, Copy, Debug, PartialEq, Eq, PartialOrd, Ord)]
pub struct Bits<const WIDTH: u32> {
    value: u16,
}

impl<const WIDTH: u32> Model for Bits<WIDTH> {
    ghost use Rattle.std.specs.Prelude.{ℕ, ◌<◌, ◌^◌};

    ghost Value = { ℕ };

    ghost view = { λ b. b.value };

    ghost invariant = { λ b. b.value < 2 ^ WIDTH };

    ghost inverse = { λ n. record { value = n } };
}

impl<const WIDTH: u32> Default for Bits<WIDTH> {
    ghost is_default = { λ b. b ≡ 0 };

    /// The number 0.
    fn default() -> Self {
        Bits { value: 0 }
    }
}

impl<const WIDTH: u32> Bits<WIDTH> {
    /// The field with this value; None if it needs more than `WIDTH` bits.
    pub fn new(value: u16) -> Option<Self>
        ensures in_range { IsSome result ↔ (value < 2 ^ WIDTH) }
        ensures value { IfSome result (λ b. b ≡ value) }
    {
        if WIDTH >= 16 {
            return Some(Bits { value });
        }
        if u32::from(value) < 1u32 << WIDTH {
            return Some(Bits { value });
        }
        None
    }

    /// Its value, below 2 to the power of `WIDTH`.
    pub fn get(self) -> u16
        ensures value { result ≡ self.entry }
        ensures in_range { result < 2 ^ WIDTH }
    {
        self.value
    }
}
