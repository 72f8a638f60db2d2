//! The FIGs of a FIB, borrowed from its bytes.

ghost use Rattle.std.specs.Prelude.{◌≡◌, ◌≤◌, ◌%◌, [], ◌∷◌, length, drop, MatchOption, IfSome};
ghost use Rattle.std.specs.Prelude.{IfNone, OnSome};
ghost use Rattle.fib_codec.specs.Extensions.{number_of};
ghost use Rattle.fib_codec.specs.Grammar.{Open, Other, is_long};
ghost use Rattle.fib_reader.specs.Walk.{fig_of_bytes, entries_of, pieces_of};

use crate::entries::Entries;
use fib_codec::bytes::byte_at;
use fib_codec::head::{extension_of, is_long_of, next_of};
use fib_codec::{Extension, Head};
use std::marker::Model;

/// A FIG, which borrows its bytes. Contracts see it as the grammar does: one of extension 0 to 3
/// and of this ensemble as its second byte and its entries, and any other one as its bytes.
#[derive(Drop)]
pub struct Fig<'a> {
    bytes: &'a [u8],
}

impl<'a> Model for Fig<'a> {
    ghost use Rattle.fib_codec.specs.Grammar as grammar;
    ghost use Rattle.fib_reader.specs.Walk.{fig_of_bytes, IsWholeFig};

    ghost Value = { grammar.Fig };

    ghost view = { λ f. fig_of_bytes f.bytes.now };

    ghost invariant = { λ f. IsWholeFig f.bytes.now };
}

impl<'a> Fig<'a> {
    ghost use Rattle.std.specs.Prelude.{◌≡◌};
    ghost use Rattle.fib_codec.specs.Grammar.{fig_spelled};
    ghost use Rattle.fib_reader.specs.Raw.{head_in, entries_in};

    /// Its bytes, as they are in the FIB.
    pub fn bytes(&self) -> &'a [u8]
        ensures { result.now ≡ fig_spelled self.now }
    {
        self.bytes
    }

    /// Its head if it is of extension 0 to 3 and of this ensemble; None for any other one, which is
    /// not parsed.
    pub fn head(&self) -> Option<Head>
        ensures { result ≡ head_in self.now }
    {
        let (second, extension) = second_of(self.bytes)?;
        Some(Head {
            next: next_of(second),
            oe: false,
            long: is_long_of(second),
            ext: extension.number(),
        })
    }

    /// Its entries in order; none if it is not parsed.
    pub fn entries(&self) -> Entries<'a>
        ensures { result ≡ entries_in self.now }
    {
        match second_of(self.bytes) {
            Some((second, extension)) => {
                let (_, body) = self.bytes.split_at(2);
                Entries::under(extension, is_long_of(second), body)
            }
            None => Entries::none(),
        }
    }
}

/// The second byte and the extension of a FIG that is parsed; None for any other one.
fn second_of(bytes: &[u8]) -> Option<(u8, Extension)>
    ensures looked_into { IfSome result (λ x.
        fig_of_bytes bytes.now
        ≡ Open x.0 (entries_of (x.0 % 32) (is_long x.0) (drop 2 bytes.now))) }
    ensures extension { IfSome result (λ x. number_of x.1 ≡ x.0 % 32) }
    ensures long_enough { OnSome result (2 ≤ length bytes.now) }
    ensures other { IfNone result (fig_of_bytes bytes.now ≡ Other bytes.now) }
{
    if bytes.len() < 2 {
        return None;
    }
    let second = byte_at(bytes, 1);
    if byte_at(bytes, 0) >= 32 {
        return None;
    }
    let extension = extension_of(second)?;
    Some((second, extension))
}

/// The bytes of the first FIG, and the rest; None at the end and at an end marker.
fn split_fig(bytes: &[u8]) -> Option<(&[u8], &[u8])>
    ensures { MatchOption result (pieces_of bytes.now ≡ [])
        (λ x. pieces_of bytes.now ≡ x.0.now ∷ pieces_of x.1.now) }
{
    if bytes.is_empty() {
        return None;
    }
    let header = byte_at(bytes, 0);
    if header == 255 {
        return None;
    }
    let len = (1 + usize::from(header % 32)).min(bytes.len());
    Some(bytes.split_at(len))
}

/// The FIGs of a FIB in order.
#[derive(Drop)]
pub struct Figs<'a> {
    rest: &'a [u8],
}

impl<'a> Model for Figs<'a> {
    ghost use Rattle.std.specs.Prelude.{List};
    ghost use Rattle.fib_codec.specs.Grammar as grammar;
    ghost use Rattle.std.specs.List.{AllByRecursion};
    ghost use Rattle.fib_reader.specs.Walk.{pieces_of, figs_of_bytes, IsWholeFig};

    ghost Value = { List grammar.Fig };

    ghost view = { λ s. figs_of_bytes s.rest.now };

    ghost invariant = { λ s. AllByRecursion IsWholeFig (pieces_of s.rest.now) };
}

impl<'a> Iterator for Figs<'a> {
    ghost use Rattle.std.specs.Iterator.{YieldsFirstBy, item_count};

    type Item = Fig<'a>;

    ghost next_gives = { YieldsFirstBy (λ f. f) (λ s. s) };

    ghost remaining = { item_count (λ s. s) };

    fn next(&mut self) -> Option<Fig<'a>> {
        let (bytes, rest) = split_fig(self.rest)?;
        self.rest = rest;
        Some(Fig { bytes })
    }
}

impl<'a> Figs<'a> {
    ghost use Rattle.std.specs.Prelude.{◌≡◌};
    ghost use Rattle.std.specs.List.{AllByRecursion};
    ghost use Rattle.fib_reader.specs.Walk.{pieces_of, figs_of_bytes, IsWholeFig};

    /// The FIGs of data bytes without a fault.
    pub(crate) fn of(bytes: &'a [u8]) -> Self
        requires { AllByRecursion IsWholeFig (pieces_of bytes.now) }
        ensures { result ≡ figs_of_bytes bytes.now }
    {
        Figs { rest: bytes }
    }

    /// The same FIGs, for another pass.
    pub fn again(&self) -> Figs<'a>
        ensures { result ≡ self.now }
    {
        Figs { rest: self.rest }
    }
}
