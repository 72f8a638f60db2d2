//! Writing a stretch of quiet frames to a sink in one batch.

ghost use Rattle.std.specs.Prelude.{◌≡◌, ℕ, ◌+◌, ◌≤◌, ◌<◌, ◌%◌, ◌==◌, ◌++◌, List, length, true};
ghost use Rattle.std.specs.Prelude.{false, IfOk, IfErr, OnOk, OnErr};
ghost use Rattle.std.specs.List.{concat};
ghost use Rattle.std.specs.Io.KnownBytes.{Appends};
ghost use Rattle.fib_codec.specs.Layouts.{layout_mode};
ghost use Rattle.mux_types.specs.Facts.{Marked};
ghost use Rattle.fib_codec.specs.Modes.{count_step};
ghost use Rattle.fib_codec.specs.Ranges.{IsEnsembleInformation};
ghost use Rattle.fib_carousel.specs.Bytes.{page_bytes};
ghost use Rattle.fib_carousel.specs.Kept.{IsKept};
ghost use Rattle.plan_runs.specs.Announced.{notice_frames};
ghost use Rattle.plan_player.specs.Positions.{state_of};
ghost use Rattle.plan_player.specs.Quiet.{counted_on};
ghost use Rattle.plan_player.specs.Stretch.{header_of, ensemble_at, headed_at, IsStretch, IsCut};

use crate::batch::Batch;
use crate::fault::Accepted;
use crate::machine::{
    Header, Machine, count_after, count_later, is_on_step, make_header, page_after, pass_many,
};
use crate::phase_pages::{PhasePages, held};
use crate::sink::{Sink, put_all};
use fib_carousel::KeptPage;
use fib_codec::FibFrame;
use mux_config::Store;
use plan_code::{FrameLayout, Plan};

/// Appends a frame with this page, and with FIG 0/0 if the mode sends it at this count.
fn push(
    layout: FrameLayout,
    header: Header,
    count: u16,
    page: &KeptPage,
    headed: &mut FibFrame,
    batch: &mut Batch,
)
    requires within { (count % count_step (layout_mode layout) == 0) ≡ true
        → IsEnsembleInformation (ensemble_at header count) }
    requires room { length batch.old + 128 ≤ 16384 }
    ensures bytes { (ms : List Marked) (k : ℕ) → IsKept layout ms k page.now
        → batch.new
        ≡ batch.old ++ page_bytes layout (headed_at (layout_mode layout) header count) k ms }
    ensures size { length batch.new ≤ length batch.old + 128 }
{
    if is_on_step(layout.mode(), count) {
        page.with_ensemble(header.at(count), headed);
        batch.append(headed.bytes());
    } else {
        batch.append(page.without_ensemble().bytes());
    }
}

/// After this many frames, the pages with and without FIG 0/0 repeat: a multiple of the number of
/// pages and of the step of the counts.
fn whole_cycle(pages: u8, step: u16) -> u16
    requires pages { (1 ≤ pages) × (pages ≤ 60) }
    requires step { (1 ≤ step) × (step ≤ 4) }
    ensures cycle { result % pages ≡ 0 }
    ensures steps { result % step ≡ 0 }
    ensures some { 1 ≤ result }
{
    let pages = u16::from(pages);
    if pages % step == 0 {
        return pages;
    }
    if 2 * pages % step == 0 {
        return 2 * pages;
    }
    step * pages
}

/// Fills a batch with this many quiet frames, from the next one on, one by one.
fn begin<S: Store>(
    plan: &Plan,
    machine: &Machine<S>,
    pages: &PhasePages,
    header: Header,
    count: u16,
    batch: &mut Batch,
)
    requires few { count ≤ 128 }
    requires stretch { IsStretch plan.now count (state_of S.content machine.now) pages.now }
    requires header { header ≡ header_of plan.now (state_of S.content machine.now) }
    ensures { batch.new ≡
        concat (notice_frames plan.now count (state_of S.content machine.now)) }
{
    batch.clear();
    let rounds = usize::from(pages.made);
    let mut headed = FibFrame::new(plan.layout.mode());
    let mut page_index = machine.page_index;
    let mut number = machine.count;
    let mut done = 0u16;
    while done < count {
        let page = held(&pages.pages, page_index);
        push(plan.layout, header, number, page, &mut headed, batch);
        page_index = page_after(rounds, page_index);
        number = count_after(number);
        done += 1;
    }
}

/// Extends a batch that has whole cycles of quiet frames to this many: with copies of its frames
/// that have other counts.
fn repeat<S: Store>(
    plan: &Plan,
    machine: &Machine<S>,
    pages: &PhasePages,
    header: Header,
    cycle: u16,
    count: u16,
    batch: &mut Batch,
)
    requires few { count ≤ 128 }
    requires within { (1 ≤ cycle) × (cycle ≤ count) }
    requires pages { cycle % pages.now.made ≡ 0 }
    requires steps { cycle % count_step (layout_mode plan.now.layout) ≡ 0 }
    requires stretch { IsStretch plan.now count (state_of S.content machine.now) pages.now }
    requires header { header ≡ header_of plan.now (state_of S.content machine.now) }
    requires begun { batch.old ≡
        concat (notice_frames plan.now cycle (state_of S.content machine.now)) }
    ensures { batch.new ≡
        concat (notice_frames plan.now count (state_of S.content machine.now)) }
{
    // Read for the proof: a value's invariant is known where the value is read.
    let _made = pages.made;
    let mut done = cycle;
    while done < count {
        let more = done.min(count - done);
        batch.repeat(plan, header, count_later(machine.count, done), more);
        done += more;
    }
}

/// Fills a batch with this many quiet frames, from the next one on.
#[inline(never)]
fn fill<S: Store>(
    plan: &Plan,
    machine: &Machine<S>,
    pages: &PhasePages,
    count: u16,
    batch: &mut Batch,
)
    requires one { 1 ≤ count }
    requires few { count ≤ 128 }
    requires stretch { IsStretch plan.now count (state_of S.content machine.now) pages.now }
    ensures { batch.new ≡
        concat (notice_frames plan.now count (state_of S.content machine.now)) }
{
    let header = make_header(plan, machine, pages.change);
    let cycle = whole_cycle(pages.made, plan.layout.mode().step());
    if count <= cycle {
        begin(plan, machine, pages, header, count, batch);
        return;
    }
    begin(plan, machine, pages, header, cycle, batch);
    repeat(plan, machine, pages, header, cycle, count, batch);
}

/// Makes this many quiet frames, writes them to the sink together, and returns their number. `Err`:
/// it failed in one of them, which has been made, and later ones have not.
pub(crate) fn put_stretch<S: Store, K: Sink>(
    plan: &Plan,
    machine: &mut Machine<S>,
    pages: &PhasePages,
    batch: &mut Batch,
    count: u16,
    sink: &mut K,
) -> Result<u32, Accepted>
    requires working { K.has_failed sink.old ≡ false }
    requires one { 1 ≤ count }
    requires few { count ≤ 128 }
    requires stretch { IsStretch plan.now count (state_of S.content machine.old) pages.now }
    ensures all { IfOk result (λ n. n ≡ count) }
    ensures counted { (k : ℕ) × (k ≤ count) × (state_of S.content machine.new ≡
        counted_on plan.now k (state_of S.content machine.old)) }
    ensures state { OnOk result (state_of S.content machine.new ≡
        counted_on plan.now count (state_of S.content machine.old)) }
    ensures bytes { OnOk result (Appends (K.taken sink.old) (K.taken sink.new)
        (concat (notice_frames plan.now count (state_of S.content machine.old)))) }
    ensures works { OnOk result (K.has_failed sink.new ≡ false) }
    ensures cut { IfErr result (λ cut. IsCut plan.now count
        (state_of S.content machine.old) (state_of S.content machine.new)
        (K.taken sink.old) (K.taken sink.new) cut.frames cut.bytes) }
    ensures fails { OnErr result (K.has_failed sink.new ≡ true) }
{
    fill(plan, machine, pages, count, batch);
    match put_all(sink, batch.as_slice()) {
        Ok(()) => {
            pass_many(pages.made, count, machine);
            Ok(u32::from(count))
        }
        Err(taken) => {
            let size = 32 * plan.layout.fibs();
            let frames = (taken / size) as u16;
            pass_many(pages.made, frames + 1, machine);
            Err(Accepted {
                frames: u32::from(frames),
                bytes: taken % size,
            })
        }
    }
}
