//! The entries of FIGs that name something.

ghost use Rattle.std.specs.Prelude.{◌≡◌, ◌<◌, ◌≤◌};
ghost use Rattle.fib_reader.specs.Raw.{u16_at_offset};
ghost use Rattle.fig_mentions.specs.Mentions.{access_mention, announcement_mention};
ghost use Rattle.fig_mentions.specs.Mentions.{announcement_size, channel_in, component_mention};
ghost use Rattle.fig_mentions.specs.Mentions.{component_size, entry_mention, first_entry_length};
ghost use Rattle.fig_mentions.specs.Mentions.{has_bit};
ghost use Rattle.fig_mentions.specs.Mentions.{is_naming, language_mention, language_size};
ghost use Rattle.fig_mentions.specs.Mentions.{scheme_mention, scid_in, service_mention};
ghost use Rattle.fig_mentions.specs.Mentions.{service_size, sid_in, sid_length};

use crate::mention::Mention;
use fib_codec::bytes::byte_at;

/// The highest bit of a byte.
const TOP: u8 = 128;

/// The bit below it.
const SECOND: u8 = 64;

/// The number of 16-bit SIds.
const SHORT_SIDS: u64 = 1 << 16;

/// Whether FIGs of this extension name something.
pub(crate) fn is_naming(ext: u8) -> bool
    ensures { result ≡ is_naming ext }
{
    ext == 4 || (ext == 5 || (ext == 8 || (ext == 14 || ext == 19)))
}

/// Whether the highest bit of a byte is set.
fn has_top(byte: u8) -> bool
    ensures { result ≡ has_bit byte 128 }
{
    byte / TOP % 2 == 1
}

/// Whether the bit below the highest one of a byte is set.
fn has_second(byte: u8) -> bool
    ensures { result ≡ has_bit byte 64 }
{
    byte / SECOND % 2 == 1
}

/// A channel of the FIC, or a sub-channel.
fn channel_in(byte: u8) -> Mention
    ensures { result ≡ channel_in byte }
{
    if has_second(byte) {
        Mention::Nothing
    } else {
        Mention::Sub(u64::from(byte % 64))
    }
}

/// The SCId in the twelve last bits of two bytes.
fn scid_in(high: u8, low: u8) -> u64
    ensures { result ≡ scid_in high low }
{
    u64::from(high % 16) * 256 + u64::from(low)
}

/// The size of the first entry in a FIG of this extension, with SIds of 32 bits if `long`.
pub fn entry_size(ext: u8, long: bool, bytes: &[u8]) -> usize
    ensures value { result ≡ first_entry_length ext long bytes.now }
    ensures some { 0 < result }
{
    match ext {
        4 => 3,
        5 => language_size(bytes),
        8 => service_size(long, bytes),
        14 => 1,
        _ => announcement_size(bytes),
    }
}

/// The size of an entry of FIG 0/5.
fn language_size(bytes: &[u8]) -> usize
    ensures value { result ≡ language_size bytes.now }
    ensures some { 0 < result }
{
    if has_top(byte_at(bytes, 0)) { 3 } else { 2 }
}

/// The size of an SId.
fn sid_size(long: bool) -> usize
    ensures { result ≡ sid_length long }
{
    if long { 4 } else { 2 }
}

/// The size of an entry of FIG 0/8.
fn service_size(long: bool, bytes: &[u8]) -> usize
    ensures value { result ≡ service_size long bytes.now }
    ensures some { 0 < result }
{
    let sid = sid_size(long);
    sid + component_size(byte_at(bytes, sid), byte_at(bytes, sid + 1))
}

/// The size of an entry of FIG 0/8 behind its SId, by its first two bytes there.
fn component_size(first: u8, second: u8) -> usize
    ensures value { result ≡ component_size first second }
    ensures bound { result ≤ 4 }
{
    let number = if has_top(second) { 3 } else { 2 };
    let rest = if has_top(first) { 1 } else { 0 };
    number + rest
}

/// The size of an entry of FIG 0/19.
fn announcement_size(bytes: &[u8]) -> usize
    ensures value { result ≡ announcement_size bytes.now }
    ensures some { 0 < result }
{
    if has_second(byte_at(bytes, 3)) { 5 } else { 4 }
}

/// What the first entry in a FIG of this extension names, with SIds of 32 bits if `long`.
pub fn entry_mention(ext: u8, long: bool, bytes: &[u8]) -> Mention
    ensures { result ≡ entry_mention ext long bytes.now }
{
    match ext {
        4 => channel_in(byte_at(bytes, 0)),
        5 => language_mention(bytes),
        8 => service_mention(long, bytes),
        14 => Mention::Sub(u64::from(byte_at(bytes, 0) / 4)),
        _ => Mention::Sub(u64::from(byte_at(bytes, 3) % 64)),
    }
}

/// What an entry of FIG 0/5 names.
fn language_mention(bytes: &[u8]) -> Mention
    ensures { result ≡ language_mention bytes.now }
{
    let first = byte_at(bytes, 0);
    if has_top(first) {
        Mention::Packet(scid_in(first, byte_at(bytes, 1)))
    } else {
        channel_in(first)
    }
}

/// What an entry of FIG 0/8 names.
fn service_mention(long: bool, bytes: &[u8]) -> Mention
    ensures { result ≡ service_mention long bytes.now }
{
    let sid = sid_size(long);
    component_mention(
        sid_in(long, bytes),
        byte_at(bytes, sid + 1),
        byte_at(bytes, sid + 2),
    )
}

/// What an entry of FIG 0/8 names, by its service and its second and third byte behind the SId.
fn component_mention(sid: u64, second: u8, third: u8) -> Mention
    ensures { result ≡ component_mention sid second third }
{
    if has_top(second) {
        return Mention::ByPacket(sid, scid_in(second, third));
    }
    if has_second(second) {
        return Mention::Nothing;
    }
    Mention::OnSub(sid, u64::from(second % 64))
}

/// The SId at the front of an entry of FIG 0/8, that of 32 bits plus 65,536.
fn sid_in(long: bool, bytes: &[u8]) -> u64
    ensures { result ≡ sid_in long bytes.now }
{
    if long {
        SHORT_SIDS + (u64::from(u16_at(bytes, 0)) * SHORT_SIDS + u64::from(u16_at(bytes, 2)))
    } else {
        u64::from(u16_at(bytes, 0))
    }
}

/// The big-endian number in the two bytes at an offset; a byte past the end is 0.
fn u16_at(bytes: &[u8], offset: usize) -> u16
    requires { offset < 8 }
    ensures { result ≡ u16_at_offset offset bytes.now }
{
    u16::from(byte_at(bytes, offset)) * 256 + u16::from(byte_at(bytes, offset + 1))
}
