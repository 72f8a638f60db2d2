//! Reads a configuration record.

ghost use Rattle.std.specs.Prelude.{◌≡◌, ℕ, ◌<◌, ◌≤◌, ◌^◌, ◌++◌, [], List, length, drop, Ok, Err};
ghost use Rattle.std.specs.Prelude.{IfOk, IfErr};
ghost use Rattle.mux_types.specs.Configuration.{Configuration, IsConfiguration, sid_key};
ghost use Rattle.mux_config.specs.Spelling.{config_bytes};
ghost use Rattle.mux_config.specs.FieldReading.{Reads, Takes};
ghost use Rattle.mux_config.specs.Reading.{read_sub, components_at, read_service, read_packet};
ghost use Rattle.mux_config.specs.Reading.{members_at, record_at, config_at};

use crate::config::Config;
use crate::{Reader, RecordFault};
use mux_eep::{CAPACITY_UNITS, size_of};
use mux_types::keys::sid_key;
use mux_types::{BoundedVec, Component, Keyed, MEMBERS, Packet, Service, SortedTable, Sub};

/// A member of a set, as it is in a record.
trait Member: Keyed {
    ghost use Rattle.std.specs.Prelude.{ℕ, List};
    ghost use Rattle.mux_config.specs.FieldReading.{Reads};

    ghost member_at: { ℕ → ℕ → List ℕ → Reads Self };

    /// Reads a member whose key is at least `low`. Fault: `Order` as soon as its identifier is read
    /// and is below `low`; else the first field at fault.
    fn read(reader: &mut Reader, low: u64) -> Result<Self, RecordFault>
        ensures read { Takes (member_at reader.old.total low reader.old.rest) result reader.new }
        ensures total { reader.new.total ≡ reader.old.total }
        ensures ordered { IfOk result (λ x. low ≤ Self.key x) }
        ensures bounded { IfOk result (λ x. Self.key x < 2 ^ 33) };
}

impl Member for Sub {
    ghost member_at = { read_sub };

    #[tactic(auto, unfolding(crate::specs::Reading::read_sub))]
    fn read(reader: &mut Reader, low: u64) -> Result<Self, RecordFault> {
        let id = reader.sub_id()?;
        if u64::from(id.get()) < low {
            return Err(RecordFault::Order);
        }
        let start_place = reader.place();
        let start = reader.u16()?;
        let protection = reader.protection()?;
        let rate_place = reader.place();
        let kbits = reader.u16()?;
        // The rate is tested before the start: where a sub-channel ends depends on its size.
        let Ok(size) = size_of(protection, kbits) else {
            return Err(RecordFault::Field(rate_place));
        };
        if u32::from(start) + u32::from(size) > u32::from(CAPACITY_UNITS) {
            return Err(RecordFault::Field(start_place));
        }
        Ok(Sub {
            id,
            start,
            protection,
            kbits,
        })
    }
}

/// Reads this many components of one service.
fn components(reader: &mut Reader, count: u8) -> Result<BoundedVec<Component, 12>, RecordFault>
    requires { count ≤ 12 }
    ensures read { Takes (components_at reader.old.total [] count reader.old.rest) result
        reader.new }
    ensures total { reader.new.total ≡ reader.old.total }
{
    let mut components = BoundedVec::new();
    for _ in 0..count {
        let place = reader.place();
        let component = reader.component()?;
        if component.carrier().is_named_by(components.as_slice()) {
            return Err(RecordFault::Field(place));
        }
        components.push(component);
    }
    Ok(components)
}

impl Member for Service {
    ghost member_at = { read_service };

    #[tactic(auto, unfolding(crate::specs::Reading::read_service))]
    fn read(reader: &mut Reader, low: u64) -> Result<Self, RecordFault> {
        let sid = reader.sid()?;
        if sid_key(sid) < low {
            return Err(RecordFault::Order);
        }
        let count = reader.byte_within(0, Service::new(sid).limit() as u8)?;
        let components = components(reader, count)?;
        Ok(Service { sid, components })
    }
}

impl Member for Packet {
    ghost member_at = { read_packet };

    #[tactic(auto, unfolding(crate::specs::Reading::read_packet))]
    fn read(reader: &mut Reader, low: u64) -> Result<Self, RecordFault> {
        let scid = reader.sc_id()?;
        if u64::from(scid.get()) < low {
            return Err(RecordFault::Order);
        }
        let dg = reader.flag()?;
        let ty = reader.sc_ty()?;
        let sub = reader.sub_id()?;
        let address = reader.u16_within(1, 1023)?;
        Ok(Packet {
            scid,
            dg,
            ty,
            sub,
            address,
        })
    }
}

/// Reads this many members of a set, each with an identifier above the previous one.
fn members<T: Member>(reader: &mut Reader, count: u8) -> Result<SortedTable<T, 64>, RecordFault>
    requires { count ≤ 64 }
    ensures read { let members = members_at T.key (T.member_at reader.old.total) 0 [] count in
        Takes (members reader.old.rest) result reader.new }
    ensures total { reader.new.total ≡ reader.old.total }
{
    let mut members = SortedTable::new();
    let mut low = 0;
    for _ in 0..count {
        let member = T::read(reader, low)?;
        low = member.key() + 1;
        members.append(member);
    }
    Ok(members)
}

/// Reads a record field by field.
#[tactic(auto, unfolding(crate::specs::Reading::record_at))]
fn record(bytes: &[u8]) -> Result<(Config, usize), RecordFault>
    ensures read { IfOk result (λ found.
        config_at bytes.now ≡ Ok (found.0, drop found.1 bytes.now)) }
    ensures whole { IfOk result (λ found. found.1 ≡ length (config_bytes found.0)) }
    ensures first_fault { IfErr result (λ fault. config_at bytes.now ≡ Err fault) }
{
    let mut reader = Reader::new(bytes);
    let sub_count = reader.byte_within(0, MEMBERS as u8)?;
    let service_count = reader.byte_within(0, MEMBERS as u8)?;
    let packet_count = reader.byte_within(0, MEMBERS as u8)?;
    let subs = members(&mut reader, sub_count)?;
    let services = members(&mut reader, service_count)?;
    let packets = members(&mut reader, packet_count)?;
    let config = Config {
        subs,
        services,
        packets,
    };
    Ok((config, reader.place()))
}

/// Reads the configuration record at the front of these bytes: the configuration, and the length of
/// its record. It does not allocate.
///
/// The fault is the first one in the order of the bytes: `Short` if bytes of a field are missing;
/// `Field` with the offset of the first byte of a field that is out of range; `Order` if an
/// identifier is not above the previous one, as soon as it is read and in range. A bit rate without
/// a size is at fault at its own bytes; after that a sub-channel that ends past the last capacity
/// unit is at fault at its start address. A component whose carrier the service already has is at
/// fault at its first byte.
pub fn read_config(bytes: &[u8]) -> Result<(Config, usize), RecordFault>
    ensures configuration { IfOk result (λ found. IsConfiguration found.0) }
    ensures spelled { IfOk result (λ found.
        bytes.now ≡ config_bytes found.0 ++ drop found.1 bytes.now) }
    ensures whole { IfOk result (λ found. found.1 ≡ length (config_bytes found.0)) }
    ensures only { (c : Configuration) (rest : List ℕ) → IsConfiguration c
        → bytes.now ≡ config_bytes c ++ rest → result ≡ Ok (c, length (config_bytes c)) }
    ensures read { IfOk result (λ found.
        config_at bytes.now ≡ Ok (found.0, drop found.1 bytes.now)) }
    ensures first_fault { IfErr result (λ fault. config_at bytes.now ≡ Err fault) }
    ensures within { (place : ℕ) → result ≡ Err (RecordFault.Field place)
        → place < length bytes.now }
{
    record(bytes)
}
