//! Making one frame, from its swap to its counts.

ghost use Rattle.std.specs.Prelude.{◌≡◌, ℕ, ◌<◌, ◌≤◌, List, Some, true, false};
ghost use Rattle.mux_types.specs.Facts.{Marked};
ghost use Rattle.fib_codec.specs.declared.frame_layout.FrameLayout.{FrameLayout};
ghost use Rattle.fib_carousel.specs.Pages.{page_after};
ghost use Rattle.fib_carousel.specs.Bytes.{page_bytes};
ghost use Rattle.plan_runs.specs.Frames.{is_first_noticed, shown, shown_bytes, sent_entries};
ghost use Rattle.plan_runs.specs.Frames.{sent_rounds, with_next_counts, frame_bytes, frame_steps};
ghost use Rattle.plan_runs.specs.Frames.{after_frame};
ghost use Rattle.plan_runs.specs.TypedRuns.{CanBeSent};
ghost use Rattle.plan_player.specs.Positions.{state_of};
ghost use Rattle.plan_player.specs.Phase.{HasPage, Keeps, ShowsBytes, HasChange, IsFrameReady};

use crate::machine::{
    Machine, begin, begin_notice, ensemble, is_first_noticed, next_sent, page_after, pass, run,
};
use crate::phase_pages::{PhasePages, Sent, held, make_if_new};
use mux_config::{Ensemble, Store, change};
use plan_code::{Code, Plan};

/// Makes the page in turn, unless it has already been made in this phase.
fn make_page_to_send<S: Store>(plan: &Plan, machine: &Machine<S>, pages: &mut PhasePages)
    requires keeps { let s = state_of S.content machine.now in
        Keeps plan.now.layout (sent_entries plan.now s) s.page_index pages.old }
    requires within { let s = state_of S.content machine.now in
        s.page_index < sent_rounds plan.now s }
    requires few { sent_rounds plan.now (state_of S.content machine.now) ≤ 60 }
    ensures keeps { let s = state_of S.content machine.now in
        Keeps plan.now.layout (sent_entries plan.now s) s.page_index pages.new }
    ensures made { machine.now.page_index < pages.new.made }
    ensures change { pages.new.change ≡ pages.old.change }
{
    let next = next_sent(plan, machine);
    make_if_new(
        pages,
        plan.layout,
        machine.page_index,
        &machine.current,
        next,
    );
}

/// Makes a frame from this page, which has been made, with this FIG 0/0.
#[inline(never)]
fn show_headed(pages: &mut PhasePages, number: u8, ensemble: Ensemble)
    requires { (layout : FrameLayout) × (ms : List Marked)
        × HasPage layout ms number pages.old.pages }
    ensures bytes { (layout : FrameLayout) (ms : List Marked)
        → HasPage layout ms number pages.old.pages
        → ShowsBytes pages.new (page_bytes layout (Some ensemble) number ms) }
    ensures keeps { (layout : FrameLayout) (ms : List Marked) (page_index : ℕ) →
        Keeps layout ms page_index pages.old → Keeps layout ms page_index pages.new }
    ensures made { pages.new.made ≡ pages.old.made }
    ensures change { pages.new.change ≡ pages.old.change }
{
    held(&pages.pages, number).with_ensemble(ensemble, &mut pages.headed);
    pages.sent = Sent::Headed;
}

/// Makes a frame from this page, which has been made, with this FIG 0/0 if there is one.
fn show(pages: &mut PhasePages, number: u8, ensemble: Option<Ensemble>)
    requires { (layout : FrameLayout) × (ms : List Marked)
        × HasPage layout ms number pages.old.pages }
    ensures bytes { (layout : FrameLayout) (ms : List Marked)
        → HasPage layout ms number pages.old.pages
        → ShowsBytes pages.new (page_bytes layout ensemble number ms) }
    ensures keeps { (layout : FrameLayout) (ms : List Marked) (page_index : ℕ) →
        Keeps layout ms page_index pages.old → Keeps layout ms page_index pages.new }
    ensures made { pages.new.made ≡ pages.old.made }
    ensures change { pages.new.change ≡ pages.old.change }
{
    match ensemble {
        Some(ensemble) => show_headed(pages, number, ensemble),
        None => pages.sent = Sent::Kept(number),
    }
}

/// Makes a frame from the page in turn and advances the counts, which is all that a quiet frame
/// needs.
pub(crate) fn send<S: Store>(plan: &Plan, machine: &mut Machine<S>, pages: &mut PhasePages)
    requires sent { CanBeSent plan.now (state_of S.content machine.old) }
    requires few { sent_rounds plan.now (state_of S.content machine.old) ≤ 60 }
    requires keeps { let s = state_of S.content machine.old in
        Keeps plan.now.layout (sent_entries plan.now s) s.page_index pages.old }
    requires change { let s = state_of S.content machine.old in
        HasChange plan.now.notice s.left s.current s.next pages.old.change }
    ensures bytes { ShowsBytes pages.new (shown_bytes plan.now (state_of S.content machine.old)) }
    ensures state { state_of S.content machine.new ≡
        with_next_counts plan.now (state_of S.content machine.old) }
    ensures keeps { let s = state_of S.content machine.old in
        let page_index = page_after (sent_rounds plan.now s) s.page_index in
        Keeps plan.now.layout (sent_entries plan.now s) page_index pages.new }
    ensures change { pages.new.change ≡ pages.old.change }
{
    make_page_to_send(plan, machine, pages);
    let ensemble = ensemble(plan, machine, pages.change);
    let page_index = machine.page_index;
    show(pages, page_index, ensemble);
    pass(page_after(pages.count(), page_index), machine);
}

/// Discards the pages at the start of a phase.
fn renew(begins: bool, pages: &mut PhasePages)
    ensures began { begins ≡ true
        → (layout : FrameLayout) (ms : List Marked) → Keeps layout ms 0 pages.new }
    ensures stays { begins ≡ false → pages.new ≡ pages.old }
    ensures change { pages.new.change ≡ pages.old.change }
{
    if begins {
        pages.restart();
    }
}

/// Stores the change flags if a notice begins with this frame.
fn note_change<S: Store>(plan: &Plan, machine: &Machine<S>, pages: &mut PhasePages)
    requires { let s = state_of S.content machine.now in
        is_first_noticed plan.now.notice s.left ≡ false →
        HasChange plan.now.notice s.left s.current s.next pages.old.change }
    ensures change { let s = state_of S.content machine.now in
        HasChange plan.now.notice s.left s.current s.next pages.new.change }
    ensures keeps { (layout : FrameLayout) (ms : List Marked) (page_index : ℕ) →
        Keeps layout ms page_index pages.old → Keeps layout ms page_index pages.new }
{
    if is_first_noticed(plan.notice, machine.left) {
        pages.change = change(&machine.current, &machine.next).bits();
    }
}

/// Makes a due swap and executes the frame's instructions, up to the state that its bytes are made
/// from. Returns the number of instructions.
fn prepare<S: Store>(
    code: &Code,
    plan: &Plan,
    machine: &mut Machine<S>,
    pages: &mut PhasePages,
) -> u8
    requires plan { plan.now ≡ code.now.plan }
    requires ready { IsFrameReady code.now (state_of S.content machine.old) pages.old }
    ensures state { state_of S.content machine.new ≡
        shown code.now (state_of S.content machine.old) }
    ensures steps { result ≡ frame_steps code.now (state_of S.content machine.old) }
    ensures keeps { let u = shown code.now (state_of S.content machine.old) in
        Keeps code.now.plan.layout (sent_entries code.now.plan u) u.page_index pages.new }
    ensures change { pages.new.change ≡ pages.old.change }
{
    let swapped = begin(machine);
    let steps = run(code, machine);
    let first = begin_notice(plan, machine);
    renew(swapped || first, pages);
    steps
}

/// Makes one frame, which can then be read from the pages. Returns the number of instructions
/// executed.
pub(crate) fn make_frame<S: Store>(
    code: &Code,
    machine: &mut Machine<S>,
    pages: &mut PhasePages,
) -> u8
    requires ready { IsFrameReady code.now (state_of S.content machine.old) pages.old }
    ensures bytes { ShowsBytes pages.new (frame_bytes code.now (state_of S.content machine.old)) }
    ensures steps { result ≡ frame_steps code.now (state_of S.content machine.old) }
    ensures state { state_of S.content machine.new ≡
        after_frame code.now (state_of S.content machine.old) }
    ensures keeps { let u = shown code.now (state_of S.content machine.old) in
        let t = after_frame code.now (state_of S.content machine.old) in
        Keeps code.now.plan.layout (sent_entries code.now.plan u) t.page_index pages.new }
    ensures change { let u = shown code.now (state_of S.content machine.old) in
        HasChange code.now.plan.notice u.left u.current u.next pages.new.change }
{
    let plan = code.plan();
    let steps = prepare(code, &plan, machine, pages);
    note_change(&plan, machine, pages);
    send(&plan, machine, pages);
    steps
}
