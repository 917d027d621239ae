//! The lists that the calls build, axis by axis.
ghost use Rattle.std.specs.Prelude.{◌≡◌, ◌^◌, ◌<◌, ◌≤◌, ◌↔◌, IsTrue, unsigned_abs, pos, ◌+ℤ◌, ◌-ℤ◌, ◌*ℤ◌, length, map, if◌then◌else◌};
ghost use Rattle.std.specs.Int.{int_wrap};
ghost use mir.Syntax.{w128};
ghost use Rattle.apl_base.specs.Array.{size_of};
ghost use Rattle.apl_base.specs.Selection.{CountsFit};
ghost use Rattle.array_desc.specs.Desc.{dot};
ghost use Rattle.array_desc.specs.Steps.{paired, stride_kept, row_strides, whole_strides, window_start, window_length, end_index};

use apl_base::Cell;
use smallvec::SmallVec;
use std::alloc::Global;

/// The sum, as 128 bits keep it.
pub fn wrapped_sum(a: Cell, b: Cell) -> Cell
    ensures { result ≡ int_wrap w128 (a +ℤ b) }
{
    a.wrapping_add(b)
}

/// The difference, as 128 bits keep it.
pub fn wrapped_difference(a: Cell, b: Cell) -> Cell
    ensures { result ≡ int_wrap w128 (a -ℤ b) }
{
    a.wrapping_sub(b)
}

/// The product, as 128 bits keep it.
pub fn wrapped_product(a: Cell, b: Cell) -> Cell
    ensures { result ≡ int_wrap w128 (a *ℤ b) }
{
    a.wrapping_mul(b)
}

/// The base plus the sum of stride times index, as 128 bits keep it.
pub fn dot_from(base: Cell, strides: &[Cell], index: &[u64]) -> Cell
    requires { length strides.now ≡ length index.now }
    ensures { result ≡ int_wrap w128 (base +ℤ dot strides.now index.now) }
{
    let mut sum = base;
    for (axis, stride) in strides.iter().enumerate() {
        sum = wrapped_sum(sum, wrapped_product(*stride, Cell::from(index[axis])));
    }
    sum
}

/// The base, or 0 where the shape is empty.
pub fn kept_base(empty: bool, base: Cell) -> Cell
    ensures { result ≡ (if empty then pos 0 else base) }
{
    if empty { 0 } else { base }
}

/// The strides, with 0 for each axis along which no index moves.
pub fn kept_strides(
    alloc: Global,
    empty: bool,
    strides: &[Cell],
    lengths: &[u64],
) -> SmallVec<Cell, 8>
    requires axes { length strides.now ≡ length lengths.now }
    requires few { length lengths.now ≤ 8 }
    ensures items { result.items ≡ paired (stride_kept empty) strides.now lengths.now }
    ensures capacity { result.capacity ≡ 8 }
{
    let mut kept = SmallVec::new(alloc);
    for (axis, stride) in strides.iter().enumerate() {
        kept.push_reserved(stride_on(empty, *stride, lengths[axis]));
    }
    kept
}

// The stride kept for an axis of n elements.
fn stride_on(empty: bool, stride: Cell, n: u64) -> Cell
    ensures { result ≡ stride_kept empty stride n }
{
    if empty || n <= 1 { 0 } else { stride }
}

/// The strides of row-major order, as 128 bits keep them.
pub fn row_strides_of(alloc: Global, lengths: &[u64]) -> SmallVec<Cell, 8>
    requires { length lengths.now ≤ 8 }
    ensures items { result.items ≡ map (int_wrap w128) (row_strides lengths.now) }
    ensures capacity { result.capacity ≡ 8 }
{
    let mut strides = SmallVec::new(alloc);
    for axis in 0..lengths.len() {
        strides.push_reserved(size_behind(&lengths[axis + 1..]));
    }
    strides
}

// The product of the lengths, as 128 bits keep it.
fn size_behind(lengths: &[u64]) -> Cell
    ensures { result ≡ int_wrap w128 (pos (size_of lengths.now)) }
{
    let mut size: Cell = 1;
    for n in lengths {
        size = wrapped_product(size, Cell::from(*n));
    }
    size
}

/// Whether the strides are those that a descriptor of all of these lengths keeps in row-major order.
pub fn are_whole_strides(strides: &[Cell], lengths: &[u64]) -> bool
    requires axes { length strides.now ≡ length lengths.now }
    requires some { 0 < size_of lengths.now }
    requires few { size_of lengths.now ≤ 2 ^ 40 }
    ensures { IsTrue result ↔ (strides.now ≡ whole_strides lengths.now) }
{
    let mut behind: u64 = 1;
    for axis in (0..lengths.len()).rev() {
        if strides[axis] != stride_on(false, Cell::from(behind), lengths[axis]) {
            return false;
        }
        behind *= lengths[axis];
    }
    true
}

/// Where on each axis the part begins that a take or a drop of these counts leaves.
pub fn window_starts(
    alloc: Global,
    taking: bool,
    lengths: &[u64],
    counts: &[i64],
) -> SmallVec<u64, 8>
    requires fit { CountsFit lengths.now counts.now }
    requires few { length lengths.now ≤ 8 }
    ensures { result.items ≡ paired (window_start taking) lengths.now counts.now }
{
    let mut starts = SmallVec::new(alloc);
    for (axis, n) in lengths.iter().enumerate() {
        starts.push_reserved(start_of(taking, *n, counts[axis]));
    }
    starts
}

// Where the part begins that is left of an axis of n elements.
fn start_of(taking: bool, n: u64, count: i64) -> u64
    requires { unsigned_abs count ≤ n }
    ensures { result ≡ window_start taking n count }
{
    if taking && count < 0 {
        return n - count.unsigned_abs();
    }
    if taking || count < 0 {
        0
    } else {
        count.unsigned_abs()
    }
}

/// How long each axis is after a take or a drop of these counts.
pub fn window_lengths(
    alloc: Global,
    taking: bool,
    lengths: &[u64],
    counts: &[i64],
) -> SmallVec<u64, 8>
    requires fit { CountsFit lengths.now counts.now }
    requires few { length lengths.now ≤ 8 }
    ensures { result.items ≡ paired (window_length taking) lengths.now counts.now }
{
    let mut left = SmallVec::new(alloc);
    for (axis, n) in lengths.iter().enumerate() {
        left.push_reserved(length_of(taking, *n, counts[axis]));
    }
    left
}

// How long an axis of n elements is afterwards.
fn length_of(taking: bool, n: u64, count: i64) -> u64
    requires { unsigned_abs count ≤ n }
    ensures { result ≡ window_length taking n count }
{
    if taking {
        count.unsigned_abs()
    } else {
        n - count.unsigned_abs()
    }
}

/// On each axis the end to which the numbers rise, or the one to which they fall.
pub fn end_of_axes(
    alloc: Global,
    upper: bool,
    strides: &[Cell],
    lengths: &[u64],
) -> SmallVec<u64, 8>
    requires axes { length strides.now ≡ length lengths.now }
    requires few { length lengths.now ≤ 8 }
    ensures { result.items ≡ paired (end_index upper) strides.now lengths.now }
{
    let mut index = SmallVec::new(alloc);
    for (axis, stride) in strides.iter().enumerate() {
        index.push_reserved(end_of(upper, *stride, lengths[axis]));
    }
    index
}

// The end of an axis of n elements to which the numbers rise, or the one to which they fall.
fn end_of(upper: bool, stride: Cell, n: u64) -> u64
    ensures { result ≡ end_index upper stride n }
{
    let at_last = if upper { stride > 0 } else { stride < 0 };
    if at_last { n.saturating_sub(1) } else { 0 }
}
