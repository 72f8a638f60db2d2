//! Reads the configuration that a picture shows, or the first entry that no configuration has.

ghost use Rattle.std.specs.Prelude.{◌≡◌, true, false, IfSome, IfNone, IfOk, IfErr};
ghost use Rattle.fib_codec.specs.Ranges.{IsWithin};
ghost use Rattle.fib_reader.specs.Listening.{all_entries};
ghost use Rattle.fib_reader.specs.Picture.{IsKept, Shows};
ghost use Rattle.fib_reader.specs.Raw.{raw_entry};
ghost use Rattle.script_config.specs.Unsaid.{IsSaid, IsFirstUnsaid, AreSaid};

use fib_reader::from_entry::{packet_from_entry, service_from_entry, sub_from_entry};
use fib_reader::{OwnedEntry, Picture};
use mux_config::{Config, Entry};

/// Whether some configuration has this entry: whether it describes a sub-channel, service or packet
/// component of this profile.
fn is_scriptable(entry: &Entry) -> bool
    requires { IsWithin entry.now }
    ensures said { result ≡ true → IsSaid (raw_entry entry.now) }
    ensures unsaid { result ≡ false → IsSaid (raw_entry entry.now) → ⊥ }
{
    fib_codec::laws::spelling();
    match entry {
        Entry::Ensemble(_) | Entry::Short(_) => false,
        Entry::Sub(entry) => match sub_from_entry(entry) {
            Some(_sub) => true,
            None => false,
        },
        Entry::Service(entry) => match service_from_entry(entry) {
            Some(_service) => true,
            None => false,
        },
        Entry::Packet(entry) => match packet_from_entry(entry) {
            Some(_packet) => true,
            None => false,
        },
    }
}

/// The first entry of a picture, in ascending order of extension and identifier, that no
/// configuration has.
fn first_unscriptable(picture: &Picture) -> Option<OwnedEntry>
    ensures first { IfSome result (IsFirstUnsaid (all_entries picture.now)) }
    ensures none { IfNone result (AreSaid (all_entries picture.now)) }
    ensures kept { IsKept picture.now }
{
    let mut entries = picture.entries();
    while let Some(entry) = entries.next() {
        if !is_scriptable(&entry.value()) {
            return Some(OwnedEntry::of(&entry));
        }
    }
    None
}

/// The configuration that a picture shows, which may be unsound; or the first entry in it, in
/// ascending order of extension and identifier, that no configuration has: a sub-channel in the
/// short form, with an option above 1 or with a size that no rate has; a service with a component
/// of another TMId; or an entry with a non-zero field that configurations always send as 0.
pub fn config_heard(picture: &Picture) -> Result<Config, OwnedEntry>
    ensures shown { IfOk result (Shows picture.now) }
    ensures unsaid { IfErr result (IsFirstUnsaid (all_entries picture.now)) }
{
    match first_unscriptable(picture) {
        Some(entry) => Err(entry),
        None => Ok(picture.config().unwrap()),
    }
}
