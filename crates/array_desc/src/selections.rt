//! The selections.
ghost use Rattle.std.specs.Prelude.{◌≡◌, ℕ, ◌+◌, ◌<◌, ◌≤◌, ◌++◌, List, length, slice_index};
ghost use Rattle.apl_base.specs.Array.{IsShape, size_of};
ghost use Rattle.apl_base.specs.Selection.{AreAxes, axes_rank, transpose_shape, transpose_index, CountsFit, take_shape, take_index, drop_shape, drop_index, reverse_index, at_shape, at_index, run_shape, run_index, only_index, outer_left_index, outer_right_index};
ghost use Rattle.array_desc.specs.Desc.{IsDesc, Selects, RunFits};
ghost use Rattle.array_desc.specs.Steps.{Makes, paired, window_start, window_length};

use crate::desc::Desc;
use crate::diagonals::{diagonal_lengths, diagonal_strides, rank_of};
use crate::lists::{held_inline, joined, resting, with_axis, without_axis};
use crate::parts::Parts;
use crate::steps::{dot_from, window_lengths, window_starts, wrapped_product, wrapped_sum};
use apl_base::{Cell, Shape};

impl Desc {
    /// Takes from each axis as many elements as its count says: the first ones, or the last ones where the
    /// count is negative.
    pub fn take(&mut self, counts: &[i64])
        requires { CountsFit self.old.shape counts.now }
        ensures selects { Selects self.old self.new
            (take_shape counts.now) (take_index self.old.shape counts.now) }
        ensures lawful { IsDesc self.new }
    {
        *self = self.window(counts, true).settled();
    }

    /// Leaves out of each axis as many elements as its count says: the first ones, or the last ones where the
    /// count is negative.
    pub fn skip(&mut self, counts: &[i64])
        requires { CountsFit self.old.shape counts.now }
        ensures selects { Selects self.old self.new
            (drop_shape self.old.shape counts.now) (drop_index self.old.shape counts.now) }
        ensures lawful { IsDesc self.new }
    {
        *self = self.window(counts, false).settled();
    }

    /// Turns an axis round.
    pub fn reverse(&mut self, axis: usize)
        requires { axis < length self.old.shape }
        ensures selects { Selects self.old self.new
            self.old.shape (reverse_index self.old.shape axis) }
        ensures lawful { IsDesc self.new }
    {
        let n = self.shape.len(axis);
        *self = self.run_on(axis, n.saturating_sub(1), -1, n).settled();
    }

    /// Makes axis `j` axis `axes[j]`. Axes that fall together become their diagonal, which has the least of
    /// their lengths.
    pub fn transpose(&mut self, axes: &[usize])
        requires count { length axes.now ≡ length self.old.shape }
        requires axes { AreAxes (axes_rank axes.now) axes.now }
        ensures selects { Selects self.old self.new
            (transpose_shape axes.now self.old.shape) (transpose_index axes.now) }
        ensures lawful { IsDesc self.new }
    {
        *self = self.transposed(axes).settled();
    }

    /// Keeps one place of an axis; the axis is gone.
    pub fn at(&mut self, axis: usize, i: u64)
        requires axis { axis < length self.old.shape }
        requires place { i < slice_index self.old.shape axis }
        ensures selects { Selects self.old self.new
            (at_shape axis self.old.shape) (at_index axis i) }
        ensures lawful { IsDesc self.new }
    {
        *self = self.one_place(axis, i).settled();
    }

    /// Keeps `n` places of an axis, from `from` on and `step` apart. It may make the axis longer.
    pub fn progression(&mut self, axis: usize, from: u64, step: i64, n: u64)
        requires axis { axis < length self.old.shape }
        requires places { RunFits (slice_index self.old.shape axis) from step n }
        requires lengths { IsShape (run_shape axis n self.old.shape) }
        ensures selects { Selects self.old self.new
            (run_shape axis n self.old.shape) (run_index axis from step) }
        ensures lawful { IsDesc self.new }
    {
        *self = self.run_on(axis, from, Cell::from(step), n).settled();
    }

    /// Gives the one number at every index of a shape.
    pub fn extend(&mut self, to: &Shape)
        requires { size_of self.old.shape ≡ 1 }
        ensures selects { Selects self.old self.new to.now (λ i. only_index self.old.shape) }
        ensures lawful { IsDesc self.new }
    {
        *self = self.everywhere(to).settled();
    }

    /// Appends the lengths of the right argument of an outer product: the number is that of the first part of
    /// the index.
    pub fn outer_left(&mut self, right: &Shape)
        requires { IsShape (self.old.shape ++ right.now) }
        ensures selects { Selects self.old self.new
            (self.old.shape ++ right.now) (outer_left_index self.old.shape) }
        ensures lawful { IsDesc self.new }
    {
        *self = self.before_axes(right).settled();
    }

    /// Prepends the lengths of the left argument of an outer product: the number is that of the last part of
    /// the index.
    pub fn outer_right(&mut self, left: &Shape)
        requires { IsShape (left.now ++ self.old.shape) }
        ensures selects { Selects self.old self.new
            (left.now ++ self.old.shape) (outer_right_index left.now) }
        ensures lawful { IsDesc self.new }
    {
        *self = self.after_axes(left).settled();
    }

    // The part of each axis that a take or a drop of these counts leaves.
    fn window(&self, counts: &[i64], taking: bool) -> Parts
        requires { CountsFit self.now.shape counts.now }
        ensures { Makes result.base result.strides.items result.lengths.items self.now
            (paired (window_length taking) self.now.shape counts.now)
            (paired ◌+◌ (paired (window_start taking) self.now.shape counts.now)) }
    {
        let alloc = *self.strides.allocator();
        let starts = window_starts(alloc, taking, self.shape.lengths(), counts);
        Parts {
            base: dot_from(self.base, self.strides.as_slice(), starts.as_slice()),
            strides: held_inline(alloc, self.strides.as_slice()),
            lengths: window_lengths(alloc, taking, self.shape.lengths(), counts),
        }
    }

    // A run of places of one axis.
    fn run_on(&self, axis: usize, from: u64, step: Cell, n: u64) -> Parts
        requires axis { axis < length self.now.shape }
        requires places { RunFits (slice_index self.now.shape axis) from step n }
        requires lengths { IsShape (run_shape axis n self.now.shape) }
        ensures { Makes result.base result.strides.items result.lengths.items self.now
            (run_shape axis n self.now.shape) (run_index axis from step) }
    {
        let alloc = *self.strides.allocator();
        let strides = self.strides.as_slice();
        let stride = strides[axis];
        Parts {
            base: wrapped_sum(self.base, wrapped_product(stride, Cell::from(from))),
            strides: with_axis(alloc, strides, axis, wrapped_product(stride, step)),
            lengths: with_axis(alloc, self.shape.lengths(), axis, n),
        }
    }

    // One place of an axis, which is gone.
    fn one_place(&self, axis: usize, i: u64) -> Parts
        requires axis { axis < length self.now.shape }
        requires place { i < slice_index self.now.shape axis }
        ensures { Makes result.base result.strides.items result.lengths.items self.now
            (at_shape axis self.now.shape) (at_index axis i) }
    {
        let alloc = *self.strides.allocator();
        let strides = self.strides.as_slice();
        Parts {
            base: wrapped_sum(self.base, wrapped_product(strides[axis], Cell::from(i))),
            strides: without_axis(alloc, strides, axis),
            lengths: without_axis(alloc, self.shape.lengths(), axis),
        }
    }

    // The one number, at every index of a shape.
    fn everywhere(&self, to: &Shape) -> Parts
        requires { size_of self.now.shape ≡ 1 }
        ensures { Makes result.base result.strides.items result.lengths.items self.now
            to.now (λ i. only_index self.now.shape) }
    {
        let alloc = *self.strides.allocator();
        Parts {
            base: self.base,
            strides: resting(alloc, to.rank()),
            lengths: held_inline(alloc, to.lengths()),
        }
    }

    // More axes behind, along which the number stays.
    fn before_axes(&self, right: &Shape) -> Parts
        requires { IsShape (self.now.shape ++ right.now) }
        ensures { Makes result.base result.strides.items result.lengths.items self.now
            (self.now.shape ++ right.now) (outer_left_index self.now.shape) }
    {
        let alloc = *self.strides.allocator();
        let still = resting(alloc, right.rank());
        Parts {
            base: self.base,
            strides: joined(alloc, self.strides.as_slice(), still.as_slice()),
            lengths: joined(alloc, self.shape.lengths(), right.lengths()),
        }
    }

    // More axes in front, along which the number stays.
    fn after_axes(&self, left: &Shape) -> Parts
        requires { IsShape (left.now ++ self.now.shape) }
        ensures { Makes result.base result.strides.items result.lengths.items self.now
            (left.now ++ self.now.shape) (outer_right_index left.now) }
    {
        let alloc = *self.strides.allocator();
        let still = resting(alloc, left.rank());
        Parts {
            base: self.base,
            strides: joined(alloc, still.as_slice(), self.strides.as_slice()),
            lengths: joined(alloc, left.lengths(), self.shape.lengths()),
        }
    }

    // The axes under their new numbers, with the diagonals of those that fall together.
    fn transposed(&self, axes: &[usize]) -> Parts
        requires count { length axes.now ≡ length self.now.shape }
        requires axes { AreAxes (axes_rank axes.now) axes.now }
        ensures { Makes result.base result.strides.items result.lengths.items self.now
            (transpose_shape axes.now self.now.shape) (transpose_index axes.now) }
    {
        let alloc = *self.strides.allocator();
        let rank = rank_of(axes);
        Parts {
            base: self.base,
            strides: diagonal_strides(alloc, axes, self.strides.as_slice(), rank),
            lengths: diagonal_lengths(alloc, axes, self.shape.lengths(), rank),
        }
    }
}
