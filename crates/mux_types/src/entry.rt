//! The entries of FIG 0/0 to 0/3, with every field of the standard within its bits. An entry is a
//! value; the crate `fib_codec` encodes it as bytes.

ghost use Rattle.std.specs.Prelude.{◌≡◌, ◌<◌, ◌↔◌, IsSome, IfSome};

use crate::limits::COUNTS;
use crate::{Bits, BoundedVec, ScId, ScTy, Sid, SubId};
use std::marker::Model;

/// One entry of FIG 0/0 to 0/3.
#[derive(Drop)]
pub enum Entry {
    /// FIG 0/0, ensemble information.
    Ensemble(Ensemble),
    /// FIG 0/1, a sub-channel in the long form.
    Sub(SubEntry),
    /// FIG 0/1, a sub-channel in the short form.
    Short(ShortEntry),
    /// FIG 0/2, a service with its components.
    Service(ServiceEntry),
    /// FIG 0/3, a service component in packet mode.
    Packet(PacketEntry),
}

impl Default for Entry {
    /// A sub-channel in the short form with each field 0, which fills the unused slots of a list.
    fn default() -> Self {
        Entry::Short(ShortEntry {
            id: SubId::default(),
            start: Bits::default(),
            switch: false,
            table: Bits::default(),
        })
    }
}

/// Ensemble information, FIG 0/0 (EN 300 401 clause 6.4): the EId, the change flags 0 to 3 (1 for
/// the sub-channel organization, 2 for the service organization), the Al flag, the CIF count 0 to
/// 4999, and the occurrence change, which is present exactly if a flag is set.
#[derive(Clone, Copy, Debug, PartialEq, Eq)]
pub struct Ensemble {
    eid: u16,
    change: u8,
    al: bool,
    count: u16,
    occurrence: Option<u8>,
}

impl Model for Ensemble {
    ghost use Rattle.std.specs.Prelude.{◌<◌, IsSome, ◌↔◌};
    ghost use Rattle.mux_types.specs.Entries.{EnsembleInformation};
    ghost use Rattle.mux_types.specs.declared.limits.TheConstants.{COUNTS};

    ghost Value = { EnsembleInformation };

    ghost view = { λ e. record {
      eid = e.eid;
      change = e.change;
      al = e.al;
      count = e.count;
      occurrence = e.occurrence;
    } };

    ghost invariant = { λ e.
        (e.change < 4) × (e.count < COUNTS) × (IsSome e.occurrence ↔ (0 < e.change)) };

    ghost inverse = { λ e. record {
      eid = e.eid;
      change = e.change;
      al = e.al;
      count = e.count;
      occurrence = e.occurrence;
    } };
}

impl Ensemble {
    ghost use Rattle.mux_types.specs.Entries.{EnsembleInformation};

    /// The ensemble information with these fields; None if `change` is above 3, `count` is above
    /// 4999, or `occurrence` is present without a change flag or missing with one.
    pub fn new(
        eid: u16,
        change: u8,
        al: bool,
        count: u16,
        occurrence: Option<u8>,
    ) -> Option<Ensemble>
        ensures within { IsSome result
            ↔ ((change < 4) × (count < COUNTS) × (IsSome occurrence ↔ (0 < change))) }
        ensures value { IfSome result (λ e. e ≡ record {
          eid = eid;
          change = change;
          al = al;
          count = count;
          occurrence = occurrence;
        }) }
    {
        if change >= 4 {
            return None;
        }
        if count >= COUNTS {
            return None;
        }
        if occurrence.is_some() != (change > 0) {
            return None;
        }
        Some(Ensemble {
            eid,
            change,
            al,
            count,
            occurrence,
        })
    }

    /// The identifier of the ensemble, EId.
    pub fn eid(&self) -> u16
        ensures { result ≡ self.now.eid }
    {
        self.eid
    }

    /// The change flags, 0 to 3.
    pub fn change(&self) -> u8
        ensures value { result ≡ self.now.change }
        ensures in_range { result < 4 }
    {
        self.change
    }

    /// The Al flag.
    pub fn al(&self) -> bool
        ensures { result ≡ self.now.al }
    {
        self.al
    }

    /// The CIF count, 0 to 4999.
    pub fn count(&self) -> u16
        ensures value { result ≡ self.now.count }
        ensures in_range { result < COUNTS }
    {
        self.count
    }

    /// The occurrence change: the low part of the CIF count of the swap. Present exactly if a
    /// change flag is set.
    pub fn occurrence(&self) -> Option<u8>
        ensures value { result ≡ self.now.occurrence }
        ensures flagged { IsSome result ↔ (0 < self.now.change) }
    {
        self.occurrence
    }
}

/// The basic sub-channel organization in its long form, FIG 0/1 (EN 300 401 clause 6.2.1).
#[derive(Clone, Copy, Debug, PartialEq, Eq)]
pub struct SubEntry {
    /// SubChId.
    pub id: SubId,
    /// Start address: the first capacity unit.
    pub start: Bits<10>,
    /// Option: 0 for set A, 1 for set B.
    pub option: Bits<3>,
    /// Protection level as it is sent: 0 for level 1, to 3 for level 4.
    pub level: Bits<2>,
    /// Sub-channel size in capacity units.
    pub size: Bits<10>,
}

/// The basic sub-channel organization in its short form, FIG 0/1 (EN 300 401 clause 6.2.1).
#[derive(Clone, Copy, Debug, PartialEq, Eq)]
pub struct ShortEntry {
    /// SubChId.
    pub id: SubId,
    /// Start address: the first capacity unit.
    pub start: Bits<10>,
    /// Table switch.
    pub switch: bool,
    /// Table index.
    pub table: Bits<6>,
}

/// The description of one component of a service in FIG 0/2, by its TMId (EN 300 401 clause 6.3.1).
/// `primary` is the P/S flag, and `ca` the CA flag.
#[derive(Clone, Copy, Debug, PartialEq, Eq)]
pub enum ComponentEntry {
    /// TMId 00, audio in stream mode: ASCTy, SubChId.
    Sound {
        ty: ScTy,
        sub: SubId,
        primary: bool,
        ca: bool,
    },
    /// TMId 01, data in stream mode: DSCTy, SubChId.
    Stream {
        ty: ScTy,
        sub: SubId,
        primary: bool,
        ca: bool,
    },
    /// TMId 10, which this profile does not interpret: the 14 bits after it.
    Other {
        bits: Bits<14>,
    },
    /// TMId 11, data in packet mode: SCId.
    Packet {
        scid: ScId,
        primary: bool,
        ca: bool,
    },
}

impl Default for ComponentEntry {
    /// TMId 10 and bits 0, which fills the unused slots of a list.
    fn default() -> Self {
        ComponentEntry::Other {
            bits: Bits::default(),
        }
    }
}

/// The basic service and service component definition, FIG 0/2 (EN 300 401 clause 6.3.1). A short
/// SId is sent with P/D 0, a long one with P/D 1.
#[derive(Drop)]
pub struct ServiceEntry {
    /// SId.
    pub sid: Sid,
    /// The first bit after the SId, which is sent as 0.
    pub rfa: bool,
    /// CAId.
    pub ca_id: Bits<3>,
    /// The components in order.
    pub components: BoundedVec<ComponentEntry, 15>,
}

/// A service component in packet mode, FIG 0/3 (EN 300 401 clause 6.3.2).
#[derive(Clone, Copy, Debug, PartialEq, Eq)]
pub struct PacketEntry {
    /// SCId.
    pub scid: ScId,
    /// Rfa, the three bits after the SCId.
    pub rfa: Bits<3>,
    /// The DG flag as it is sent: false if data groups are used.
    pub dg: bool,
    /// Rfu, the bit after the DG flag.
    pub rfu: bool,
    /// DSCTy.
    pub ty: ScTy,
    /// SubChId.
    pub sub: SubId,
    /// Packet address.
    pub address: Bits<10>,
    /// CAOrg, which is present exactly if the CAOrg flag is set.
    pub ca_org: Option<u16>,
}
