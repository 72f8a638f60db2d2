//! Sub-channels as sent: their capacity units, and whether two overlap.

ghost use Rattle.std.specs.Prelude.{◌≡◌, ◌<◌, ◌%◌};
ghost use Rattle.fib_reader.specs.Raw.{u16_at_offset};
ghost use Rattle.stream_check.specs.Pictures.{raws};
ghost use Rattle.stream_check.specs.Rules.{is_long_form, first_unit, end_unit, share_unit, partner};
ghost use Rattle.stream_check.specs.Rules.{overlap, ends_past, past_end};

use crate::finding::Fault;
use crate::heard_entry::HeardEntry;
use fib_codec::bytes::byte_at;
use fib_reader::RawEntry;
use mux_config::Keyed;

/// The last ten bits of the two bytes at this offset.
fn ten_bits_at(bytes: &[u8], offset: usize) -> u16
    requires { offset < 8 }
    ensures value { result ≡ u16_at_offset offset bytes.now % 1024 }
    ensures in_range { result < 1024 }
{
    (u16::from(byte_at(bytes, offset)) * 256 + u16::from(byte_at(bytes, offset + 1))) % 1024
}

/// Whether the entry is in the long form, which has its size.
fn is_long_form(sub: &RawEntry<'_>) -> bool
    ensures { result ≡ is_long_form sub.now }
{
    byte_at(sub.bytes(), 2) / 128 == 1
}

/// The first capacity unit.
fn first_unit(sub: &RawEntry<'_>) -> u16
    ensures value { result ≡ first_unit sub.now }
    ensures in_range { result < 1024 }
{
    ten_bits_at(sub.bytes(), 0)
}

/// The capacity unit after the last one.
fn end_unit(sub: &RawEntry<'_>) -> u16
    ensures { result ≡ end_unit sub.now }
{
    first_unit(sub) + ten_bits_at(sub.bytes(), 2)
}

/// Whether both are in the long form and have a capacity unit in common.
fn share_unit(one: &RawEntry<'_>, other: &RawEntry<'_>) -> bool
    ensures { result ≡ share_unit one.now other.now }
{
    let first = first_unit(one);
    let end = end_unit(one);
    let other_first = first_unit(other);
    let other_end = end_unit(other);
    (is_long_form(one) && is_long_form(other))
        && (first < end && (other_first < other_end && (first < other_end && other_first < end)))
}

/// The identifier of the first one that shares a capacity unit with this one.
fn partner(one: &RawEntry<'_>, others: &[HeardEntry]) -> Option<u64>
    ensures { result ≡ partner one.now (raws others.now) }
{
    let mut rest = others;
    while let Some((other, after)) = rest.split_first() {
        if share_unit(one, &other.as_raw_entry()) {
            return Some(other.key());
        }
        rest = after;
    }
    None
}

/// The first two that share a capacity unit.
pub(crate) fn overlap(subs: &[HeardEntry]) -> Option<Fault>
    ensures { result ≡ overlap (raws subs.now) }
{
    let mut rest = subs;
    while let Some((sub, after)) = rest.split_first() {
        if let Some(other) = partner(&sub.as_raw_entry(), after) {
            return Some(Fault::Overlap(sub.key(), other));
        }
        rest = after;
    }
    None
}

/// Whether it is in the long form and ends past the last capacity unit.
fn ends_past(sub: &RawEntry<'_>) -> bool
    ensures { result ≡ ends_past sub.now }
{
    is_long_form(sub) && end_unit(sub) > 864
}

/// The first one that ends past the last capacity unit.
pub(crate) fn past_end(subs: &[HeardEntry]) -> Option<Fault>
    ensures { result ≡ past_end (raws subs.now) }
{
    let mut rest = subs;
    while let Some((sub, after)) = rest.split_first() {
        if ends_past(&sub.as_raw_entry()) {
            return Some(Fault::PastEnd(sub.key()));
        }
        rest = after;
    }
    None
}
