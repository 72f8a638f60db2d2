//! The one layout of sub-channels that serves every configuration of a plan: what a multiplexer
//! carries all the time whose own layout stays, while the plan changes the FIC alone.

ghost use Rattle.std.specs.Prelude.{◌≡◌, ◌<◌, ◌++◌, ◌∷◌, [], IfOk, OnOk, Ok, Err, Option, Some};
ghost use Rattle.std.specs.Prelude.{None};
ghost use Rattle.std.specs.List.{AllByRecursion};
ghost use Rattle.mux_types.specs.Sameness.{is_same_sub};
ghost use Rattle.plan_map.specs.Layout.{IsLayout, subs_of, shares, clashes, first_with, place_of};
ghost use Rattle.plan_map.specs.Layout.{places_below, clash_with, in_order, first_clash};

use crate::cells::{end_of, units_of};
use crate::rows::Row;
use mux_config::Sub;
use mux_eep::EepSet;
use mux_types::sameness::is_same_sub;
use std::alloc::{AllocError, Global};
use std::io::{self, Write};

/// Two sub-channels of a plan's configurations that no multiplex carries both all the time: the
/// same SubChId with another start, rate or profile; or two that have a capacity unit in common.
#[derive(Clone, Copy, Debug, PartialEq, Eq)]
pub struct Clash {
    /// The one with the lower SubChId; if both are one sub-channel, as the plan has it first.
    pub first: Sub,
    /// The other one.
    pub second: Sub,
}

/// The sub-channels of a layout, by ascending SubChId, or why there is none.
#[derive(Drop)]
pub enum Layout {
    /// The sub-channels, each at its one place.
    One(Vec<Sub>),
    /// There is none, because of these two.
    Apart(Clash),
}

/// Whether two sub-channels have a capacity unit in common.
fn shares(a: &Sub, b: &Sub) -> bool
    ensures { result ≡ shares a.now b.now }
{
    u32::from(a.start) < end_of(b) && u32::from(b.start) < end_of(a)
}

/// Whether no multiplex carries both all the time.
fn clashes(a: &Sub, b: &Sub) -> bool
    ensures { result ≡ clashes a.now b.now }
{
    if a.id == b.id {
        !is_same_sub(*a, *b)
    } else {
        shares(a, b)
    }
}

/// The first sub-channel with an identifier.
fn first_with(id: u8, subs: &[Sub]) -> Option<Sub>
    ensures { result ≡ first_with id subs.now }
{
    for sub in subs {
        if sub.id.get() == id {
            return Some(*sub);
        }
    }
    None
}

/// Appends a sub-channel.
fn push(subs: &mut Vec<Sub>, sub: Sub) -> Result<(), AllocError>
    ensures { OnOk result (subs.new.items ≡ subs.old.items ++ sub ∷ []) }
{
    subs.push(sub)?;
    Ok(())
}

/// Appends the place of an identifier.
fn push_place(places: &mut Vec<Sub>, subs: &[Sub], id: u8) -> Result<(), AllocError>
    ensures { OnOk result (places.new.items ≡ places.old.items ++ place_of subs.now id) }
{
    match first_with(id, subs) {
        Some(sub) => push(places, sub),
        None => Ok(()),
    }
}

/// Each sub-channel as it is first, by ascending SubChId, with those below this one alone.
#[tactic(auto, unfolding(crate::specs::Layout::places_below))]
fn places_of(alloc: Global, subs: &[Sub], end: u8) -> Result<Vec<Sub>, AllocError>
    ensures { IfOk result (λ v. v.items ≡ places_below end subs.now) }
{
    let mut places = Vec::new(alloc);
    for id in 0..end {
        push_place(&mut places, subs, id)?;
    }
    Ok(places)
}

/// The first of these that clashes with a sub-channel.
fn clash_with(sub: &Sub, layout: &[Sub]) -> Option<Sub>
    ensures { result ≡ clash_with sub.now layout.now }
{
    for place in layout {
        if clashes(place, sub) {
            return Some(*place);
        }
    }
    None
}

/// Two that clash, the one with the lower SubChId first; of one sub-channel its place.
fn in_order(place: Sub, sub: Sub) -> Clash
    ensures { result ≡ in_order place sub }
{
    if sub.id.get() < place.id.get() {
        Clash {
            first: sub,
            second: place,
        }
    } else {
        Clash {
            first: place,
            second: sub,
        }
    }
}

/// The first of some sub-channels that clashes with one of a layout, and that one.
fn first_clash(layout: &[Sub], subs: &[Sub]) -> Option<Clash>
    ensures { result ≡ first_clash layout.now subs.now }
{
    for sub in subs {
        if let Some(place) = clash_with(sub, layout) {
            return Some(in_order(place, *sub));
        }
    }
    None
}

/// The sub-channels of each row, row by row.
fn subs_of(alloc: Global, rows: &[Row]) -> Result<Vec<Sub>, AllocError>
    ensures subs { IfOk result (λ v. v.items ≡ subs_of rows.now) }
    ensures named { IfOk result (λ v. AllByRecursion (λ s. s.id < 64) v.items) }
{
    let mut subs = Vec::new(alloc);
    for row in rows {
        subs.extend_from_slice(row.config.subs())?;
    }
    Ok(subs)
}

/// The layout of these sub-channels: each as it is first, if none of them clashes with one of
/// these.
#[tactic(auto, using(crate::proofs::Places::serves, crate::proofs::Places::is_clash))]
fn layout_from(alloc: Global, subs: &[Sub]) -> Result<Layout, AllocError>
    requires { AllByRecursion (λ s. s.id < 64) subs.now }
    ensures { IfOk result (λ l. IsLayout l subs.now) }
{
    let places = places_of(alloc, subs, 64)?;
    match first_clash(places.as_slice(), subs) {
        Some(clash) => Ok(Layout::Apart(clash)),
        None => Ok(Layout::One(places)),
    }
}

/// The one layout of sub-channels that serves the configurations of all rows, those that are on air
/// at any time: each sub-channel of each of them is in it, with the same start, rate and profile,
/// and none shares a capacity unit with another one. Or two of their sub-channels for which there
/// is none.
///
/// # Errors
///
/// Out of memory.
pub fn layout_of(alloc: Global, rows: &[Row]) -> Result<Layout, AllocError>
    ensures { IfOk result (λ l. IsLayout l (subs_of rows.now)) }
{
    let subs = subs_of(alloc, rows)?;
    layout_from(alloc, subs.as_slice())
}

/// The letter of a set of protection profiles.
pub(crate) fn set_text(set: EepSet) -> &'static str {
    match set {
        EepSet::A => "A",
        EepSet::B => "B",
    }
}

/// Prints the place, the size and the profile of a sub-channel.
fn print_place<W: Write>(sub: &Sub, out: &mut W) -> io::Result<()> {
    let start = sub.start;
    let size = units_of(sub);
    let level = sub.protection.level();
    let set = set_text(sub.protection.set());
    write!(out, "at {start} size {size} eep {level}-{set}")
}

/// Prints a sub-channel in the words of a listing: `sub 1 at 0 size 96 eep 3-A`.
pub(crate) fn print_sub<W: Write>(sub: &Sub, out: &mut W) -> io::Result<()> {
    let id = sub.id.get();
    write!(out, "sub {id} ")?;
    print_place(sub, out)
}

/// Prints a layout: a line for each sub-channel, in the words of a listing.
fn print_subs<W: Write>(subs: &[Sub], out: &mut W) -> io::Result<()> {
    for sub in subs {
        print_sub(sub, out)?;
        out.write_all(b"\n")?;
    }
    Ok(())
}

/// Prints another sub-channel than a first one; of the same one its place alone.
fn print_other<W: Write>(first: &Sub, other: &Sub, out: &mut W) -> io::Result<()> {
    if first.id == other.id {
        print_place(other, out)
    } else {
        print_sub(other, out)
    }
}

/// Prints why there is no layout: a sub-channel with its two places, or two sub-channels with
/// theirs.
fn print_clash<W: Write>(clash: &Clash, out: &mut W) -> io::Result<()> {
    out.write_all(b"no one layout: ")?;
    print_sub(&clash.first, out)?;
    out.write_all(b" and ")?;
    print_other(&clash.first, &clash.second, out)?;
    out.write_all(b"\n")
}

/// Prints a layout: a line for each sub-channel, by ascending SubChId, `sub 1 at 0 size 96 eep
/// 3-A`. Or the line `no one layout: sub 1 at 0 size 96 eep 3-A and at 0 size 72 eep 3-A`, with two
/// places of one sub-channel or with two sub-channels that share capacity units.
pub fn print_layout<W: Write>(layout: &Layout, out: &mut W) -> io::Result<()> {
    match layout {
        Layout::One(subs) => print_subs(subs.as_slice(), out),
        Layout::Apart(clash) => print_clash(clash, out),
    }
}
