//! The number of spans that cover each capacity unit.

ghost use Rattle.std.specs.Prelude.{◌≡◌, ℕ, slice_index, true, false, ◌+◌, ◌-◌, ◌<◌, ◌≤◌, length};
ghost use Rattle.mux_eep.specs.declared.limits.TheConstants.{CAPACITY_UNITS};
ghost use Rattle.mux_tables.specs.Units.{share, lane_in, counts_of_block, units_at, Counts};
ghost use Rattle.mux_tables.specs.Units.{CountsIn, CountsOut, SomeShared, NoneShared};

use crate::span::Span;
use std::simd::prelude::*;

const LANES: [u8; 32] = [
    0, 1, 2, 3, 4, 5, 6, 7, 8, 9, 10, 11, 12, 13, 14, 15, 16, 17, 18, 19, 20, 21, 22, 23, 24, 25,
    26, 27, 28, 29, 30, 31,
];

/// 32 consecutive capacity units, with a lane for each: the number of spans that cover it.
#[derive(Clone, Copy)]
pub(crate) struct Block {
    pub(crate) units: u8x32,
}

/// The blocks without any span.
pub(crate) fn empty_map() -> [Block; 27]
    ensures { (uses : ℕ → ℕ) → ((u : ℕ) → uses u ≡ 0) → Counts result uses }
{
    [Block {
        units: u8x32::splat(0),
    }; 27]
}

/// The lane of a unit in the block whose first unit is `base`; 0 for a unit before the block, and
/// 32 for one past it.
fn lane_in(base: u16, unit: u16) -> u8
    ensures { result ≡ lane_in base unit }
{
    if unit < base {
        return 0;
    }
    if unit - base < 32 {
        (unit - base) as u8
    } else {
        32
    }
}

/// The units of a block that a span covers: 1 in the lane of each, and 0 elsewhere.
fn mask(block: u16, span: Span) -> u8x32
    requires within { span.start + span.size ≤ CAPACITY_UNITS }
    requires block { block < 27 }
    ensures { result ≡ counts_of_block (share span) block }
{
    let base = block * 32;
    let from = lane_in(base, span.start);
    let to = lane_in(base, span.start + span.size);
    let lanes = u8x32::from_array(LANES);
    let zero = u8x32::splat(0);
    let from_start = lanes
        .simd_lt(u8x32::splat(from))
        .select(zero, u8x32::splat(1));
    lanes.simd_lt(u8x32::splat(to)).select(from_start, zero)
}

/// Adds a span.
pub(crate) fn count_in(blocks: &mut [Block; 27], span: Span)
    requires { span.start + span.size ≤ CAPACITY_UNITS }
    ensures { CountsIn blocks.old blocks.new span }
{
    for block in span.start / 32..(span.start + span.size).div_ceil(32) {
        let index = usize::from(block);
        blocks[index] = Block {
            units: blocks[index].units + mask(block, span),
        };
    }
}

/// Removes a span that was added.
pub(crate) fn count_out(blocks: &mut [Block; 27], span: Span)
    requires { span.start + span.size ≤ CAPACITY_UNITS }
    ensures { CountsOut blocks.old blocks.new span }
{
    for block in span.start / 32..(span.start + span.size).div_ceil(32) {
        let index = usize::from(block);
        blocks[index] = Block {
            units: blocks[index].units - mask(block, span),
        };
    }
}

/// Whether a lane of a block is above 1.
fn has_above_one(block: &u8x32) -> bool
    requires { length block.now ≡ 32 }
    ensures told { result ≡ true → (j : ℕ) × (j < 32) × (1 < slice_index block.now j) }
    ensures none { result ≡ false → (j : ℕ) → j < 32 → slice_index block.now j ≤ 1 }
{
    let above = block.simd_gt(u8x32::splat(1)).to_bitmask();
    if above == 0 {
        return false;
    }
    true
}

/// Whether two of the spans that were added share a unit.
pub(crate) fn has_shared_unit(blocks: &[Block; 27]) -> bool
    requires { (b : ℕ) → b < 27 → length (units_at blocks.now b) ≡ 32 }
    ensures told { (uses : ℕ → ℕ) → Counts blocks.now uses → result ≡ true → SomeShared uses }
    ensures none { (uses : ℕ → ℕ) → Counts blocks.now uses → result ≡ false → NoneShared uses }
{
    for block in blocks {
        if has_above_one(&block.units) {
            return true;
        }
    }
    false
}
