//! Puts entries into the FIGs of a FIB, and writes the FIBs of a page.

ghost use Rattle.std.specs.Prelude.{◌≡◌, [], take, flat_map, ◌+◌, ◌-◌, ◌*◌, ◌%◌, ◌<◌, ◌≤◌, ◌++◌};
ghost use Rattle.std.specs.Prelude.{length, IsSome, IfSome, Option, None};
ghost use Rattle.fib_codec.specs.Layouts.{used_fibs, frame_fibs};
ghost use Rattle.fib_codec.specs.Spelling.{figs_bytes, fib_bytes};
ghost use Rattle.fib_codec.specs.Ranges.{IsEnsembleInformation};
ghost use Rattle.fib_carousel.specs.Packing.{figs_size, room};
ghost use Rattle.fib_carousel.specs.Pages.{fib_entries, first_fib, rounds};
ghost use Rattle.fib_carousel.specs.Bytes.{figs_of, ensemble_figs, used_figs, reserved_figs};
ghost use Rattle.fib_carousel.specs.Bytes.{page_bytes};
ghost use Rattle.fib_carousel.specs.Greedy.{packing};
ghost use Rattle.fib_carousel.specs.Filling.{Begins, Grows, TakesEntry};
ghost use Rattle.fib_carousel.specs.Walk.{IsAtFib, HasPassed, NextIsAfter};
ghost use Rattle.fib_carousel.specs.Carried.{AreSendable, IsPageable};

use crate::entry_list::EntryList;
use crate::pack_state::{EntryShape, FIRST_ROOM, MOST_USED, PackState, Position, same_head};
use fib_codec::{Fib, FibFrame, FrameLayout, Head, entry_len};
use mux_config::{Ensemble, Entry};

/// The size in bytes of the shortest entry: a service without components.
const SHORTEST: u8 = 3;

/// The last FIG of a FIB, to which entries with its head are appended.
#[derive(Clone, Copy)]
struct OpenFig {
    /// Its head.
    head: Head,
    /// The offset of its first byte, which has its length.
    place: usize,
}

/// Begins a FIG for an entry of this head and size.
fn begin_for(fib: &mut Fib, shape: EntryShape) -> OpenFig
    requires ext { shape.head.ext < 32 }
    requires room { length fib.old + 2 + shape.size ≤ 30 }
    ensures { Begins shape fib.old result fib.new }
{
    let place = fib.data().len();
    fib.begin_fig(shape.head, usize::from(shape.size));
    OpenFig {
        head: shape.head,
        place,
    }
}

/// The FIG for the next entry of this head and size: the last FIG, lengthened, if it has that head,
/// else a new one.
fn fig_for(fib: &mut Fib, last: Option<OpenFig>, shape: EntryShape) -> OpenFig
    requires ext { shape.head.ext < 32 }
    requires room { TakesEntry last shape fib.old }
    ensures { Grows last shape fib.old result fib.new }
{
    match last {
        Some(fig) => {
            if same_head(fig.head, shape.head) {
                fib.lengthen_fig(fig.place, shape.size);
                fig
            } else {
                begin_for(fib, shape)
            }
        }
        None => begin_for(fib, shape),
    }
}

/// The position of a FIB.
#[derive(Clone, Copy)]
struct FibPlace {
    /// Its number in the sequence of pages, from 0.
    number: usize,
    /// Its index in the frame of its page, from 0.
    index: usize,
    /// The bytes that the FIGs of its entries may take.
    room: u8,
}

/// Appends the FIGs of the entries of the FIB at `place`, which fit in what is left of it.
/// `position` moves from before that FIB to after it. The list has `len` entries.
fn put_figs<L: EntryList>(
    list: &L,
    len: u16,
    layout: FrameLayout,
    position: &mut Position,
    place: FibPlace,
    fib: &mut Fib,
)
    requires count { len ≡ length (L.entries list.now) }
    requires sendable { AreSendable (L.entries list.now) }
    requires known { place.room ≡ room layout place.number }
    requires stands { IsAtFib layout (L.entries list.now) place.number position.old }
    requires room { let here = fib_entries layout place.number (L.entries list.now) in
        length fib.old + figs_size None here ≤ 30 }
    ensures bytes { let here = fib_entries layout place.number (L.entries list.now) in
        fib.new ≡ fib.old ++ figs_bytes (figs_of here) }
    ensures next { IsAtFib layout (L.entries list.now) (place.number + 1) position.new }
    ensures passed { HasPassed layout (L.entries list.now) place.number position.new }
    ensures past { NextIsAfter layout (L.entries list.now) place.number position.new }
{
    let number = place.number;
    let known = place.room;
    let mut last = None;
    'entries: while position.index < len {
        let shape = list.shape(position.index);
        let state = match position.state.then_within(layout, shape, number, known) {
            Some(state) => state,
            None => return,
        };
        if state.fib == number {
            let fig = fig_for(fib, last, shape);
            let left = known - state.used;
            let count = list.put_run(position.index, shape.size + left, fib);
            let more = (count - 1) * shape.size;
            fib.lengthen_fig(fig.place, more);
            last = Some(fig);
            position.index += u16::from(count);
            position.state = PackState {
                used: state.used + more,
                ..state
            };
            if left - more < SHORTEST {
                return;
            }
        } else {
            position.index += 1;
            position.state = state;
        }
    }
}

/// Appends FIG 0/0, if given, to a FIB without FIGs.
fn put_ensemble(fib: &mut Fib, ensemble: Option<Ensemble>)
    requires { fib.old ≡ [] }
    ensures bytes { fib.new ≡ figs_bytes (ensemble_figs ensemble) }
    ensures within { IfSome ensemble IsEnsembleInformation }
    ensures bound { length fib.new ≤ 7 }
    ensures none { ensemble ≡ None → length fib.new ≡ 0 }
{
    if let Some(ensemble) = ensemble {
        let head = Head {
            next: false,
            oe: false,
            long: false,
            ext: 0,
        };
        let entry = Entry::Ensemble(ensemble);
        fib.begin_fig(head, entry_len(&entry));
        fib.put_entry(&entry);
    }
}

/// Overwrites the FIB at `place` of a frame, with FIG 0/0 first if given. `position` moves from
/// before that FIB to after it. The list has `len` entries.
fn write_fib<L: EntryList>(
    list: &L,
    len: u16,
    layout: FrameLayout,
    position: &mut Position,
    place: FibPlace,
    ensemble: Option<Ensemble>,
    frame: &mut FibFrame,
)
    requires count { len ≡ length (L.entries list.now) }
    requires sendable { AreSendable (L.entries list.now) }
    requires known { place.room ≡ room layout place.number }
    requires stands { IsAtFib layout (L.entries list.now) place.number position.old }
    requires first { IsSome ensemble → place.number % used_fibs layout ≡ 0 }
    requires there { 32 * place.index + 32 ≤ length frame.old }
    ensures bytes { let here = fib_entries layout place.number (L.entries list.now) in
        take (32 * place.index + 32) frame.new ≡ take (32 * place.index) frame.old
        ++ fib_bytes (ensemble_figs ensemble ++ figs_of here) }
    ensures size { length frame.new ≡ length frame.old }
    ensures within { IfSome ensemble IsEnsembleInformation }
    ensures next { IsAtFib layout (L.entries list.now) (place.number + 1) position.new }
    ensures passed { HasPassed layout (L.entries list.now) place.number position.new }
{
    let mut fib = Fib::new();
    put_ensemble(&mut fib, ensemble);
    put_figs(list, len, layout, position, place, &mut fib);
    position.close();
    frame.finish_fib(place.index, &fib);
}

/// Overwrites the FIBs of a frame that are not reserved with those of a page, FIG 0/0 first if
/// given. `position` moves from before the page's first FIB to after its last.
fn write_used<L: EntryList>(
    list: &L,
    layout: FrameLayout,
    position: &mut Position,
    page: usize,
    ensemble: Option<Ensemble>,
    frame: &mut FibFrame,
)
    requires page { page < rounds layout (L.entries list.now) }
    requires size { length frame.old ≡ 32 * frame_fibs layout }
    requires stands { IsAtFib layout (L.entries list.now) (first_fib layout page) position.old }
    ensures bytes { let ms = L.entries list.now in take (32 * used_fibs layout) frame.new
        ≡ flat_map fib_bytes (used_figs layout (packing layout ms) ensemble page ms) }
    ensures size { length frame.new ≡ length frame.old }
    ensures pageable { IsPageable ensemble (L.entries list.now) }
    ensures next { let next = first_fib layout page + used_fibs layout in
        IsAtFib layout (L.entries list.now) next position.new }
    ensures passed { let last = first_fib layout page + used_fibs layout - 1 in
        HasPassed layout (L.entries list.now) last position.new }
{
    let len = list.len();
    let first = layout.used() * page;
    let place = FibPlace {
        number: first,
        index: 0,
        room: FIRST_ROOM,
    };
    write_fib(list, len, layout, position, place, ensemble, frame);
    for slot in 1..layout.used() {
        let place = FibPlace {
            number: first + slot,
            index: slot,
            room: MOST_USED,
        };
        write_fib(list, len, layout, position, place, None, frame);
    }
}

/// Empties the reserved FIBs of a frame.
fn write_reserved(layout: FrameLayout, frame: &mut FibFrame)
    requires { length frame.old ≡ 32 * frame_fibs layout }
    ensures { frame.new
        ≡ take (32 * used_fibs layout) frame.old ++ flat_map fib_bytes (reserved_figs layout) }
{
    for slot in layout.used()..layout.fibs() {
        frame.finish_fib(slot, &Fib::new());
    }
}

/// Overwrites the FIBs of a frame with a page, FIG 0/0 first if given, and with the reserved FIBs,
/// which are empty. `position` moves from before the page's first FIB to after its last.
pub(crate) fn write_page<L: EntryList>(
    list: &L,
    layout: FrameLayout,
    position: &mut Position,
    page: usize,
    ensemble: Option<Ensemble>,
    frame: &mut FibFrame,
)
    requires page { page < rounds layout (L.entries list.now) }
    requires size { length frame.old ≡ 32 * frame_fibs layout }
    requires stands { IsAtFib layout (L.entries list.now) (first_fib layout page) position.old }
    ensures bytes { frame.new ≡ page_bytes layout ensemble page (L.entries list.now) }
    ensures pageable { IsPageable ensemble (L.entries list.now) }
    ensures next { let next = first_fib layout page + used_fibs layout in
        IsAtFib layout (L.entries list.now) next position.new }
    ensures passed { let last = first_fib layout page + used_fibs layout - 1 in
        HasPassed layout (L.entries list.now) last position.new }
{
    write_used(list, layout, position, page, ensemble, frame);
    write_reserved(layout, frame);
}
