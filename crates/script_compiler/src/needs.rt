//! The needs of a code: the most instructions that can run from each pc in one frame.

ghost use Rattle.std.specs.Prelude.{◌≡◌, ◌+◌, ◌≤◌, ◌<◌, ℕ, length, slice_get, slice_index};
ghost use Rattle.std.specs.Prelude.{if◌then◌else◌, true, Some, None, IfOk, IfSome, max};
ghost use Rattle.script_compiler.specs.Compiled.{instrs_of};
ghost use Rattle.script_compiler.specs.Longest.{need_at, need_to, longest};
ghost use Rattle.plan_verifier.specs.Rules.{continues, target_of};

use plan_code::{Instr, Line};
use plan_verifier::properties::{continues, suspends, target_of};
use std::alloc::{AllocError, Global};

/// The number at an index; 0 past the end.
pub(crate) fn at(numbers: &[u16], place: usize) -> u16
    ensures { result ≡ slice_index numbers.now place }
{
    match numbers.get(place) {
        Some(number) => *number,
        None => 0,
    }
}

/// The greater of two numbers.
fn greater(a: u16, b: u16) -> u16
    ensures { result ≡ max a b }
{
    if a < b { b } else { a }
}

/// The number at the pc after an instruction; 0 if it does not continue there.
pub(crate) fn at_next(numbers: &[u16], instr: &Instr, pc: usize) -> u16
    requires bound { (to : ℕ) → slice_index numbers.now to ≤ 256 }
    requires place { pc < 4096 }
    ensures value { result ≡ if continues instr.now then slice_index numbers.now (pc + 1) else 0 }
    ensures bound { result ≤ 256 }
{
    if !continues(*instr) {
        return 0;
    }
    at(numbers, pc + 1)
}

/// The number at the pc to which an instruction can jump; 0 if it does not jump.
fn at_target(numbers: &[u16], instr: &Instr) -> u16
    requires bound { (to : ℕ) → slice_index numbers.now to ≤ 256 }
    ensures value { result ≡ need_to (λ to. slice_index numbers.now to) (target_of instr.now) }
    ensures bound { result ≤ 256 }
{
    match target_of(*instr) {
        Some(target) => at(numbers, usize::from(target)),
        None => 0,
    }
}

/// The length of the longest path from one pc, given those that are one instruction shorter.
fn need_of(instr: &Instr, pc: usize, further: &[u16]) -> u16
    requires bound { (to : ℕ) → slice_index further.now to ≤ 256 }
    requires place { pc < 4096 }
    ensures { result ≡ need_at (Some instr.now) pc (λ to. slice_index further.now to) }
{
    if suspends(*instr) {
        return 1;
    }
    1 + greater(at_next(further, instr, pc), at_target(further, instr))
}

/// The lengths of the longest paths, with one instruction more than those given.
fn round(alloc: Global, lines: &[Line], further: &[u16]) -> Result<Vec<u16>, AllocError>
    requires bound { (to : ℕ) → slice_index further.now to ≤ 256 }
    requires room { length lines.now ≤ 4096 }
    ensures { IfOk result (λ v. (pc : ℕ) → slice_index v.items pc
        ≡ need_at (slice_get (instrs_of lines.now) pc) pc (λ to. slice_index further.now to)) }
{
    let mut next = Vec::new(alloc);
    for (pc, line) in lines.iter().enumerate() {
        next.push(need_of(&line.instr, pc, further))?;
    }
    Ok(next)
}

/// Whether two lists have the same numbers.
fn are_same(numbers: &[u16], others: &[u16]) -> bool
    ensures { result ≡ true → numbers.now ≡ others.now }
{
    numbers == others
}

/// The lengths of the longest paths of at most `budget + 1` instructions. If none is over the
/// budget, they are the needs. Once an iteration changes nothing, later ones do not either.
pub fn needs(alloc: Global, lines: &[Line], budget: u8) -> Result<Vec<u16>, AllocError>
    requires room { length lines.now ≤ 4096 }
    ensures { IfOk result (λ v. (pc : ℕ) → slice_index v.items pc
        ≡ longest (instrs_of lines.now) (budget + 1) pc) }
{
    let mut further = Vec::new(alloc);
    for _iteration in 0..u16::from(budget) + 1 {
        let next = round(alloc, lines, &further)?;
        if are_same(&next, &further) {
            return Ok(next);
        }
        further = next;
    }
    Ok(further)
}

/// The first pc whose need is over the budget, if there is one.
pub fn first_over(needs: &[u16], budget: u8) -> Option<usize>
    ensures none { result ≡ None → (pc : ℕ) → slice_index needs.now pc ≤ budget }
    ensures some { IfSome result (λ pc. budget < slice_index needs.now pc) }
    ensures first { IfSome result (λ pc. (k : ℕ) → k < pc → slice_index needs.now k ≤ budget) }
{
    for (pc, need) in needs.iter().enumerate() {
        if *need > u16::from(budget) {
            return Some(pc);
        }
    }
    None
}
