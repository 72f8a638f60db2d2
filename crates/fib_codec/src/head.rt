//! The head that the entries of one FIG share, the second byte of a FIG of type 0 (EN 300 401
//! clause 5.2.2.1).
//!
//! Its layout: C/N 1, OE 1, P/D 1, extension 5.

ghost use Rattle.std.specs.Prelude.{◌≡◌, ◌<◌, ◌%◌, true, false, IfSome, IfNone};
ghost use Rattle.fib_codec.specs.Extensions.{number_of};
ghost use Rattle.fib_codec.specs.Grammar.{is_next, is_open, is_long};
ghost use Rattle.fib_codec.specs.Spelling.{head_byte};

use crate::extension::Extension;

const NEXT_SHIFT: u32 = 7;

const OE_SHIFT: u32 = 6;

const LONG_SHIFT: u32 = 5;

const EXT_MASK: u8 = 0x1f;

/// The second byte of a FIG of type 0 (EN 300 401 clause 5.2.2.1), which applies to all entries in
/// it.
#[derive(Clone, Copy, Debug, PartialEq, Eq)]
pub struct Head {
    /// The C/N flag: true if the entries are of the next configuration.
    pub next: bool,
    /// The OE flag: true if they are of another ensemble.
    pub oe: bool,
    /// The P/D flag: true if services have 32-bit SIds.
    pub long: bool,
    /// The extension, 0 to 31.
    pub ext: u8,
}

/// The second byte of a FIG with this head.
pub(crate) fn encode(head: Head) -> u8
    requires { head.ext < 32 }
    ensures { result ≡ head_byte head }
{
    let long = (u8::from(head.long) << LONG_SHIFT) | head.ext;
    let oe = (u8::from(head.oe) << OE_SHIFT) | long;
    (u8::from(head.next) << NEXT_SHIFT) | oe
}

/// The C/N flag of this second byte.
pub fn next_of(second: u8) -> bool
    ensures { result ≡ is_next second }
{
    second >> NEXT_SHIFT == 1
}

/// The extension in this second byte if the FIG is parsed: with OE 0 and an extension from 0 to 3.
pub fn extension_of(second: u8) -> Option<Extension>
    ensures open { IfSome result (λ e. is_open second ≡ true) }
    ensures value { IfSome result (λ e. number_of e ≡ second % 32) }
    ensures other { IfNone result (is_open second ≡ false) }
{
    if (second >> OE_SHIFT) & 1 == 1 {
        return None;
    }
    Extension::from_number(second & EXT_MASK)
}

/// The P/D flag of this second byte.
pub fn is_long_of(second: u8) -> bool
    ensures { result ≡ is_long second }
{
    (second >> LONG_SHIFT) & 1 == 1
}
