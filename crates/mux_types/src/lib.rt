//! What a configuration of a multiplex is made of (EN 300 401 clauses 6.1 to 6.3): numbers within
//! their bits, the sub-channels, services and packet components, and the bounded lists and sorted
//! sets that hold them; and the entries of FIG 0/0 to 0/3 that describe one on air (clauses 6.2 to
//! 6.4).
//!
//! Begin with `Sub`, `Service` and `Packet`; `SortedTable` is a set of members that have keys. Its
//! contracts cite the functions on sets in `specs/Tables.antt`; a configuration itself is defined
//! in `specs/Configuration.antt`, and which entries describe it in `specs/Facts.antt`. `Entry` is
//! an entry with each field within its bits.
#![tactic(auto)]

pub mod bounded_vec;
pub mod entry;
pub mod keys;
pub mod laws;
pub mod limits;
pub mod numbers;
pub mod parts;
pub mod sameness;
pub mod sorted_table;

pub use bounded_vec::BoundedVec;
pub use entry::{ComponentEntry, Ensemble, Entry, PacketEntry, ServiceEntry, ShortEntry, SubEntry};
pub use limits::{COUNTS, MEMBERS};
pub use numbers::{Bits, ScId, ScTy, Sid, SubId};
pub use parts::{Carrier, Component, Packet, Service, Sub};
pub use sorted_table::{Keyed, SortedTable};
