//! What a frame sends in a notice, and its FIG 0/0.

ghost use Rattle.std.specs.Prelude.{◌≡◌, ◌+◌, ◌*◌, ◌/◌, ◌<◌, ◌≤◌, ◌%◌, ◌==◌, IfSome, true};
ghost use Rattle.std.specs.Option.{option_map, option_copied};
ghost use Rattle.mux_config.specs.Change.{change_of, bits_of};
ghost use Rattle.fib_codec.specs.Modes.{count_step};
ghost use Rattle.fib_codec.specs.Ranges.{IsEnsembleInformation};
ghost use Rattle.plan_runs.specs.Frames.{is_noticed, is_first_noticed, low_of_swap, announced_next};
ghost use Rattle.plan_runs.specs.Frames.{ensemble_sent};
ghost use Rattle.plan_player.specs.Positions.{state_of, with_notice_begun};
ghost use Rattle.plan_player.specs.Stretch.{header_of, ensemble_at};

use super::Machine;
use mux_config::{Ensemble, Store};
use plan_code::limits::COUNTS;
use plan_code::{Mode, Plan};

/// Whether a frame is in the notice: from this many frames before the swap to the last one before
/// it.
pub(crate) fn is_noticed(notice: u8, left: Option<u16>) -> bool
    ensures { result ≡ is_noticed notice left }
{
    match left {
        None => false,
        Some(left) => 1 <= left && left <= u16::from(notice),
    }
}

/// Whether a frame is the first of the notice.
pub(crate) fn is_first_noticed(notice: u8, left: Option<u16>) -> bool
    ensures { result ≡ is_first_noticed notice left }
{
    match left {
        None => false,
        Some(left) => left == u16::from(notice),
    }
}

/// Begins a notice: page 0 is in turn in its first frame. Returns whether the frame is the first of
/// a notice. To be called after the frame's instructions.
pub(crate) fn begin_notice<S: Store>(plan: &Plan, machine: &mut Machine<S>) -> bool
    ensures state { state_of S.content machine.new ≡
        with_notice_begun plan.now (state_of S.content machine.old) }
    ensures first { result ≡ is_first_noticed plan.now.notice machine.old.left }
{
    let first = is_first_noticed(plan.notice, machine.left);
    if first {
        machine.page_index = 0;
    }
    first
}

/// The next configuration if the frame sends it with the current one, that is, in a notice.
pub(crate) fn next_sent<'a, S: Store>(plan: &Plan, machine: &'a Machine<S>) -> Option<&'a S>
    ensures { option_map S.content (option_copied result) ≡
        announced_next plan.now (state_of S.content machine.now) }
{
    if is_noticed(plan.notice, machine.left) {
        Some(&machine.next)
    } else {
        None
    }
}

/// The low part of the CIF count, modulo 250, of a swap that falls this many frames later.
fn low_of_swap(count: u16, left: Option<u16>) -> u8
    ensures { result ≡ low_of_swap count left }
{
    match left {
        None => 0,
        Some(left) => ((u32::from(count) + u32::from(left)) % u32::from(COUNTS) % 250) as u8,
    }
}

/// Whether FIG 0/0 is sent in a frame with this CIF count: it is a multiple of the mode's step.
pub(crate) fn is_on_step(mode: Mode, count: u16) -> bool
    ensures { result ≡ (count % count_step mode == 0) }
{
    match mode {
        Mode::I => count % 4 == 0,
        Mode::II => true,
        Mode::III => true,
        Mode::IV => count % 2 == 0,
    }
}

/// The content of FIG 0/0 except for the CIF count (EN 300 401 clause 6.4): the same throughout a
/// notice, and throughout the frames outside of a notice.
#[derive(Clone, Copy, PartialEq, Eq)]
pub(crate) struct Header {
    eid: u16,
    change: u8,
    swap: Option<u8>,
}

impl Header {
    /// The FIG 0/0 of a frame with this CIF count. Its fields must fit in their bits.
    pub(crate) fn at(self, count: u16) -> Ensemble
        requires { IsEnsembleInformation (ensemble_at self count) }
        ensures { result ≡ ensemble_at self count }
    {
        Ensemble::new(self.eid, self.change, false, count, self.swap).unwrap()
    }

    /// The third byte of that FIG 0/0: the change flags and the high part of the count, 0 to 4999.
    pub(crate) fn high(self, count: u16) -> u8
        requires change { self.change < 4 }
        requires count { count < COUNTS }
        ensures { result ≡ self.change * 64 + count / 250 }
    {
        // Read for the proof: a value's invariant is known where the value is read.
        let _eid = self.eid;
        let _swap = self.swap;
        self.change * 64 + (count / 250) as u8
    }
}

/// The content of FIG 0/0 except for the count: in a notice the change flags and the low part of
/// the swap's count, otherwise neither. In a notice `change` has to be the flags of the pending
/// change.
pub(crate) fn make_header<S: Store>(plan: &Plan, machine: &Machine<S>, change: u8) -> Header
    requires { is_noticed plan.now.notice machine.now.left ≡ true →
        change ≡ bits_of (change_of (S.content machine.now.current)
        (S.content machine.now.next)) }
    ensures { result ≡ header_of plan.now (state_of S.content machine.now) }
{
    if is_noticed(plan.notice, machine.left) {
        return Header {
            eid: machine.eid,
            change,
            swap: Some(low_of_swap(machine.count, machine.left)),
        };
    }
    Header {
        eid: machine.eid,
        change: 0,
        swap: None,
    }
}

/// The FIG 0/0 of the frame (EN 300 401 clause 6.4): in a notice with the change flags and the low
/// part of the swap's count, otherwise with neither. In a notice `change` has to be the flags of
/// the pending change. None where the CIF count is not a multiple of the mode's step. Its fields
/// must fit in their bits.
pub(crate) fn ensemble<S: Store>(plan: &Plan, machine: &Machine<S>, change: u8) -> Option<Ensemble>
    requires within { IfSome (ensemble_sent plan.now (state_of S.content machine.now))
        IsEnsembleInformation }
    requires change { is_noticed plan.now.notice machine.now.left ≡ true →
        change ≡ bits_of (change_of (S.content machine.now.current)
        (S.content machine.now.next)) }
    ensures { result ≡ ensemble_sent plan.now (state_of S.content machine.now) }
{
    if !is_on_step(plan.layout.mode(), machine.count) {
        return None;
    }
    if is_noticed(plan.notice, machine.left) {
        let low = low_of_swap(machine.count, machine.left);
        return Ensemble::new(machine.eid, change, false, machine.count, Some(low));
    }
    Ensemble::new(machine.eid, 0, false, machine.count, None)
}
