//! Finds the longest path that can run in one frame of a code whose loops all suspend.

ghost use Rattle.std.specs.Prelude.{◌≡◌, ◌+◌, ◌<◌, ◌≤◌, ℕ, length, slice_get, slice_index, Some};
ghost use Rattle.script_compiler.specs.Compiled.{instrs_of};
ghost use Rattle.script_compiler.specs.FrameCosts.{IsLineAt, IsLongestPath, RunsTo};
ghost use Rattle.script_compiler.specs.Longest.{need_at, longest};
ghost use Rattle.script_compiler.specs.Need.{StepsTo};

use crate::needs::{at, at_next};
use plan_code::{Instr, Line};
use plan_verifier::properties::target_of;

/// A path that can run in one frame, of the most instructions.
#[derive(Clone, Copy, Debug, PartialEq, Eq)]
pub struct LongestPath {
    /// Its number of instructions, 1 to 255: the least budget with which the code is not refused
    /// for its costs.
    pub instructions: u16,
    /// The line of its first instruction.
    pub first: u16,
    /// The line of its last instruction.
    pub last: u16,
}

/// The first pc with the greatest need, of so many.
fn greatest(needs: &[u16], count: usize) -> usize
    requires { 0 < count }
    ensures within { result < count }
    ensures most { (k : ℕ) → k < count → slice_index needs.now k ≤ slice_index needs.now result }
{
    let mut greatest = 0;
    for pc in 0..count {
        if at(needs, pc) > at(needs, greatest) {
            greatest = pc;
        }
    }
    greatest
}

/// The pc after an instruction on a longest path from it, given the needs of the pcs that can
/// follow.
fn following(instr: &Instr, pc: usize, needs: &[u16]) -> usize
    requires bound { (to : ℕ) → slice_index needs.now to ≤ 256 }
    requires place { pc < 4096 }
    requires more { 1 < need_at (Some instr.now) pc (λ to. slice_index needs.now to) }
    ensures goes { StepsTo instr.now pc result }
    ensures rest { 1 + slice_index needs.now result
        ≡ need_at (Some instr.now) pc (λ to. slice_index needs.now to) }
{
    let next = at_next(needs, instr, pc);
    match target_of(*instr) {
        Some(target) => {
            let target = usize::from(target);
            if at(needs, target) < next {
                pc + 1
            } else {
                target
            }
        }
        None => pc + 1,
    }
}

/// The pc of the last instruction on a longest path from one pc.
fn end_of(lines: &[Line], needs: &[u16], first: usize) -> usize
    requires few { length lines.now ≤ 4096 }
    requires within { first < length lines.now }
    requires bound { (to : ℕ) → slice_index needs.now to ≤ 256 }
    requires needs { (pc : ℕ) → slice_index needs.now pc
        ≡ need_at (slice_get (instrs_of lines.now) pc) pc (λ to. slice_index needs.now to) }
    ensures runs { RunsTo (instrs_of lines.now) first (slice_index needs.now first) result }
    ensures within { result < length lines.now }
{
    let mut pc = first;
    for _step in 1..at(needs, first) {
        pc = following(&lines[pc].instr, pc, needs);
    }
    pc
}

/// The line of the instruction at a pc.
fn line_of(lines: &[Line], pc: usize) -> u16
    requires { pc < length lines.now }
    ensures { IsLineAt lines.now pc result }
{
    lines[pc].number
}

/// A longest path of a code, given its needs.
pub(crate) fn longest_in(lines: &[Line], needs: &[u16]) -> LongestPath
    requires few { length lines.now ≤ 4096 }
    requires some { 0 < length lines.now }
    requires within { (pc : ℕ) → slice_index needs.now pc ≤ 255 }
    requires needs { (pc : ℕ) → slice_index needs.now pc ≡ longest (instrs_of lines.now) 256 pc }
    ensures { IsLongestPath lines.now result }
{
    let first = greatest(needs, lines.len());
    let last = end_of(lines, needs, first);
    LongestPath {
        instructions: at(needs, first),
        first: line_of(lines, first),
        last: line_of(lines, last),
    }
}
