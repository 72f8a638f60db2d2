//! Whether what an entry names is in a configuration.

ghost use Rattle.std.specs.Prelude.{◌≡◌, false};
ghost use Rattle.std.specs.List.{list_any};
ghost use Rattle.fig_mentions.specs.Agreeing.{components_in, is_by, is_named, is_nothing, is_on};
ghost use Rattle.fig_mentions.specs.Agreeing.{is_present};

use crate::mention::Mention;
use fib_codec::bytes::byte_at;
use fib_reader::{Picture, PictureEntries, RawEntry};

/// Whether a configuration, as far as it was heard, has what is named.
pub(crate) fn is_there(mention: Mention, picture: &Picture) -> bool
    ensures { result ≡ is_present picture.now mention }
{
    if is_nothing(mention) {
        return true;
    }
    has_named(mention, picture.entries())
}

/// Whether nothing of a configuration is named.
pub fn is_nothing(mention: Mention) -> bool
    ensures { result ≡ is_nothing mention }
{
    match mention {
        Mention::Nothing => true,
        Mention::Sub(_) | Mention::Packet(_) => false,
        Mention::OnSub(_, _) | Mention::ByPacket(_, _) => false,
    }
}

/// Whether one of these entries is what is named.
fn has_named(mention: Mention, mut entries: PictureEntries<'_>) -> bool
    ensures { result ≡ list_any (is_named mention) entries.entry }
{
    while let Some(entry) = entries.next() {
        if is_named(mention, &entry) {
            return true;
        }
    }
    false
}

/// Whether an entry is what is named.
pub fn is_named(mention: Mention, entry: &RawEntry<'_>) -> bool
    ensures { result ≡ is_named mention entry.now }
{
    match mention {
        Mention::Nothing => false,
        Mention::Sub(sub) => entry.ext() == 1 && entry.identifier() == sub,
        Mention::Packet(scid) => entry.ext() == 3 && entry.identifier() == scid,
        Mention::OnSub(sid, sub) => {
            entry.ext() == 2 && (entry.identifier() == sid && has_on(sub, components_in(entry)))
        }
        Mention::ByPacket(sid, scid) => {
            entry.ext() == 2 && (entry.identifier() == sid && has_by(scid, components_in(entry)))
        }
    }
}

/// The components of a service, two bytes each.
fn components_in<'a>(entry: &RawEntry<'a>) -> &'a [[u8; 2]]
    ensures { result.now ≡ components_in entry.now }
{
    let bytes = entry.bytes();
    let front = if entry.long() { 5 } else { 3 };
    bytes[front.min(bytes.len())..].as_chunks::<2>().0
}

/// Whether one of these components is of TMId 0 or 1 and on this sub-channel.
fn has_on(sub: u64, components: &[[u8; 2]]) -> bool
    ensures { result ≡ list_any (is_on sub) components.now }
{
    let mut rest = components;
    while let Some((component, after)) = rest.split_first() {
        if is_on(sub, component) {
            return true;
        }
        rest = after;
    }
    false
}

/// Whether a component is of TMId 0 or 1 and on this sub-channel.
fn is_on(sub: u64, component: &[u8; 2]) -> bool
    ensures { result ≡ is_on sub component.now }
{
    byte_at(component, 0) < 128 && u64::from(byte_at(component, 1) / 4) == sub
}

/// Whether one of these components is of TMId 3 and has this SCId.
fn has_by(scid: u64, components: &[[u8; 2]]) -> bool
    ensures { result ≡ list_any (is_by scid) components.now }
{
    let mut rest = components;
    while let Some((component, after)) = rest.split_first() {
        if is_by(scid, component) {
            return true;
        }
        rest = after;
    }
    false
}

/// Whether a component is of TMId 3 and has this SCId.
fn is_by(scid: u64, component: &[u8; 2]) -> bool
    ensures { result ≡ is_by scid component.now }
{
    let first = byte_at(component, 0);
    let second = byte_at(component, 1);
    first / 64 == 3 && u64::from(first % 64) * 64 + u64::from(second / 4) == scid
}
