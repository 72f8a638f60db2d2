//! Whether a FIG agrees with a configuration.

ghost use Rattle.std.specs.Prelude.{◌≡◌, true};
ghost use Rattle.fig_mentions.specs.Agreeing.{are_there, entries_agree, fig_agrees};
ghost use Rattle.fig_mentions.specs.Agreeing.{is_judged, is_of_next};
ghost use Rattle.fig_mentions.specs.Mentions.{mentions_of};

use crate::grammar::{entry_mention, entry_size, is_naming};
use crate::presence::is_there;
use fib_codec::bytes::byte_at;
use fib_reader::Picture;

/// Whether a FIG, given by its bytes, agrees with the current configuration as far as it was heard:
/// FIG 0/4, 0/5, 0/8, 0/14 and 0/19 of this ensemble if it is whole entries, at least one, and what
/// each of them names is there; any other FIG agrees, and so do FIG 0/4 and 0/8 with C/N 1, which
/// speak of the next configuration (EN 300 401 clauses 5.2.2.1, 6.2.2, 6.3.3, 6.3.5, 6.5, 8.1.2 and
/// 8.1.6.2).
pub fn agrees(fig: &[u8], picture: &Picture) -> bool
    ensures { result ≡ fig_agrees picture.now fig.now }
{
    if !is_judged(fig) {
        return true;
    }
    entries_agree(byte_at(fig, 1), &fig[fig.len().min(2)..], picture)
}

/// Whether a FIG is of this ensemble, of an extension that names something, and speaks of the
/// current configuration.
pub fn is_judged(fig: &[u8]) -> bool
    ensures { result ≡ is_judged fig.now }
{
    let second = byte_at(fig, 1);
    byte_at(fig, 0) < 32
        && ((second >> 6) & 1 == 0 && (is_naming(second % 32) && !is_of_next(second)))
}

/// Whether a FIG with this second byte speaks of the next configuration: FIG 0/4 or 0/8 with C/N 1
/// (EN 300 401 clauses 5.2.2.1 and 6.5).
fn is_of_next(second: u8) -> bool
    ensures { result ≡ is_of_next second }
{
    second / 128 == 1 && (second % 32 == 4 || second % 32 == 8)
}

/// Whether entries in a FIG with this second byte agree: at least one, all of them whole.
fn entries_agree(second: u8, entries: &[u8], picture: &Picture) -> bool
    ensures { result ≡ entries_agree picture.now second entries.now }
{
    if entries.is_empty() {
        return false;
    }
    are_there(second % 32, (second >> 5) & 1 == 1, entries, picture)
}

/// Whether these are whole entries of a FIG with this extension and P/D flag, and what each names
/// is there.
fn are_there(ext: u8, long: bool, entries: &[u8], picture: &Picture) -> bool
    ensures { result ≡ are_there picture.now (mentions_of ext long entries.now) }
{
    let mut rest = entries;
    while !rest.is_empty() {
        let size = entry_size(ext, long, rest);
        if size > rest.len() {
            return false;
        }
        if !is_there(entry_mention(ext, long, rest), picture) {
            return false;
        }
        rest = &rest[size..];
    }
    true
}
