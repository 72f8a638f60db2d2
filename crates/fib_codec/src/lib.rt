//! Fast Information Blocks as they are sent (EN 300 401 clauses 5.2.1 and 5.2.2): entries of FIG
//! 0/0 to 0/3 go into FIGs, and FIGs into a FIB of 32 bytes, which ends with its CRC.
//!
//! The files `fig0_0` to `fig0_3` have the layout of each FIG's entries: their length, how they are
//! encoded and decoded, and as the contract of `decode` the law that these agree. Readers call the
//! same functions.
//!
//! The definitions that contracts cite are in `specs/`: `Spelling` says how entries and FIGs are
//! encoded, `Grammar` which FIGs 32 bytes contain, `Crc` what the CRC is, without any table,
//! `Heard` which entries a receiver decodes from a FIB, and `Layouts` which FIBs of a frame are
//! reserved.
#![tactic(auto)]

pub mod bytes;
pub mod crc;
mod crc_tables;
mod data;
pub mod entry_writer;
pub mod extension;
pub mod fib;
pub mod fib_frame;
pub mod fig0_0;
pub mod fig0_1;
pub mod fig0_2;
pub mod fig0_3;
pub mod frame_layout;
pub mod head;
pub mod laws;
pub mod modes;

pub use crc::{crc16, crc16_by_bits, is_checked};
pub use entry_writer::entry_len;
pub use extension::Extension;
pub use fib::Fib;
pub use fib_frame::FibFrame;
pub use frame_layout::FrameLayout;
pub use head::Head;
pub use modes::Mode;
pub use mux_types::{
    Bits, BoundedVec, ComponentEntry, Ensemble, Entry, PacketEntry, ScId, ScTy, ServiceEntry,
    ShortEntry, Sid, SubEntry, SubId,
};
