//! Configurations of a multiplex, with their edits, soundness and records: the sub-channels,
//! services and packet components at one time (EN 300 401 clauses 6.1 to 6.3).
//!
//! Begin with `Config`, and with `Store`, the trait of a configuration in any representation. Edits
//! are defined in `specs/Edits.antt`, the record of a configuration in `specs/Reading.antt`; the
//! entries that describe one on air are defined in `specs/Facts.antt` of `mux_types`.
//!
//! The fields of records and files are read by `Reader`, whose methods return the field or its
//! fault, a `RecordFault`, and written by the functions of `byte_writer`: `specs/FieldReading.antt`
//! defines what is read, and `specs/FieldSpelling.antt` what is written.
#![tactic(auto)]

mod apply;
pub mod byte_reader;
pub mod byte_writer;
pub mod config;
pub mod edit;
mod edit_faults;
mod edits;
pub mod fault;
pub mod flags;
pub mod laws;
mod overlap;
pub mod reconfiguration;
pub mod record;
pub mod record_reader;
pub mod record_writer;
pub mod soundness_test;
pub mod store;

pub use byte_reader::Reader;
pub use byte_writer::{put_component, put_protection, put_sid, put_u16, put_u32};
pub use config::Config;
pub use edit::{Edit, NewSub, StartAddress};
pub use fault::{ConfigFault, EditFault};
pub use flags::Change;
pub use mux_types::{
    Bits, BoundedVec, Carrier, Component, ComponentEntry, Ensemble, Entry, Keyed, Packet,
    PacketEntry, ScId, ScTy, Service, ServiceEntry, ShortEntry, Sid, SortedTable, Sub, SubEntry,
    SubId, entry,
};
pub use reconfiguration::change;
pub use record::RecordFault;
pub use record_reader::read_config;
pub use record_writer::write_config;
pub use soundness_test::soundness;
pub use store::Store;
