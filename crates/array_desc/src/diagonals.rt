//! Axes that fall together: transposition.

ghost use Rattle.std.specs.Prelude.{◌≡◌, ◌≤◌, length, map};
ghost use Rattle.std.specs.Int.{int_wrap};
ghost use mir.Syntax.{w128};
ghost use Rattle.apl_base.specs.Selection.{axes_rank, least, lengths_at, upward};
ghost use Rattle.array_desc.specs.Steps.{lesser, stride_at};

use crate::steps::wrapped_sum;
use apl_base::Cell;
use smallvec::SmallVec;
use std::alloc::Global;

/// One more than the greatest number of an axis, or 0 where there is none.
pub fn rank_of(axes: &[usize]) -> usize
    requires { axes_rank axes.now ≤ 8 }
    ensures value { result ≡ axes_rank axes.now }
    ensures few { result ≤ 8 }
{
    let mut rank: usize = 0;
    for axis in axes {
        rank = rank.max(*axis + 1);
    }
    rank
}

/// For each axis of the result the sum of the strides of the axes that become it, as 128 bits keep it.
pub fn diagonal_strides(
    alloc: Global,
    axes: &[usize],
    strides: &[Cell],
    rank: usize,
) -> SmallVec<Cell, 8>
    requires count { length axes.now ≡ length strides.now }
    requires few { rank ≤ 8 }
    ensures { result.items
        ≡ map (λ r. int_wrap w128 (stride_at r axes.now strides.now)) (upward 0 rank) }
{
    let mut sums = SmallVec::new(alloc);
    for axis in 0..rank {
        sums.push_reserved(stride_sum(axes, strides, axis));
    }
    sums
}

// The sum of the strides of the axes that become one axis, as 128 bits keep it.
fn stride_sum(axes: &[usize], strides: &[Cell], becomes: usize) -> Cell
    requires { length axes.now ≡ length strides.now }
    ensures { result ≡ int_wrap w128 (stride_at becomes axes.now strides.now) }
{
    let mut sum: Cell = 0;
    for (j, axis) in axes.iter().enumerate() {
        if *axis == becomes {
            sum = wrapped_sum(sum, strides[j]);
        }
    }
    sum
}

/// For each axis of the result the least length of the axes that become it.
pub fn diagonal_lengths(
    alloc: Global,
    axes: &[usize],
    lengths: &[u64],
    rank: usize,
) -> SmallVec<u64, 8>
    requires count { length axes.now ≡ length lengths.now }
    requires few { rank ≤ 8 }
    ensures { result.items ≡ map (λ r. least (lengths_at r axes.now lengths.now)) (upward 0 rank) }
{
    let mut shortest = SmallVec::new(alloc);
    for axis in 0..rank {
        shortest.push_reserved(least_length(axes, lengths, axis));
    }
    shortest
}

// The least length of the axes that become one axis, or 0 where none does.
fn least_length(axes: &[usize], lengths: &[u64], becomes: usize) -> u64
    requires { length axes.now ≡ length lengths.now }
    ensures { result ≡ least (lengths_at becomes axes.now lengths.now) }
{
    let mut shortest: Option<u64> = None;
    for (j, axis) in axes.iter().enumerate() {
        if *axis == becomes {
            shortest = Some(shorter(shortest, lengths[j]));
        }
    }
    shortest.unwrap_or(0)
}

// The lesser of the least length so far and another one.
fn shorter(shortest: Option<u64>, length: u64) -> u64
    ensures { result ≡ lesser shortest length }
{
    match shortest {
        Some(least) => least.min(length),
        None => length,
    }
}
