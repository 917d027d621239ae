//! Walks over the numbers of a descriptor in row-major order, a row at a time.
ghost use Rattle.std.specs.Prelude.{◌≡◌, ℕ, ◌+◌, ◌^◌, ◌<◌, ◌≤◌, min, pos, ◌+ℤ◌, ◌*ℤ◌, length, take};
ghost use Rattle.apl_base.specs.Array.{IsIndex, size_of, index_at};
ghost use Rattle.array_desc.specs.Desc.{IsDesc};
ghost use Rattle.array_desc.specs.Rows.{number_on, left_in_row, Carries};

use crate::desc::Desc;
use crate::runs::{Run, last_run};
use crate::steps::{dot_from, wrapped_difference, wrapped_product, wrapped_sum};
use apl_base::{Cell, Shape};
use smallvec::SmallVec;
use std::marker::Model;

/// `count` numbers that lie `step` apart, the first of them `from`.
#[derive(Clone, Copy)]
pub struct Row {
    pub from: Cell,
    pub step: Cell,
    pub count: u64,
}

/// A walk over the numbers of a descriptor in row-major order. Where it stands it knows the number, so the next
/// row costs no product for each axis. It takes no memory.
#[derive(Drop)]
pub struct RowWalk<'a> {
    desc: &'a Desc,
    place: u64,
    run: Run,
    // the index of the run at which the walk stands, along the axes before it
    index: SmallVec<u64, 8>,
    // the first number of that run, and how many of its numbers are behind
    start: Cell,
    done: u64,
}

impl<'a> Model for RowWalk<'a> {
    ghost use Rattle.std.specs.Prelude.{◌<◌};
    ghost use Rattle.apl_base.specs.Array.{size_of};
    ghost use Rattle.array_desc.specs.Desc.{IsDesc};
    ghost use Rattle.array_desc.specs.Rows.{WalkView, Walks};

    ghost Value = { WalkView };

    ghost view = { λ w. record { desc = w.desc.now; place = w.place } };

    ghost invariant = { λ w. IsDesc w.desc.now × (w.place < size_of w.desc.now.shape
        → Walks w.desc.now w.run.outer w.run.length w.run.step
        w.index.items w.done w.place w.start) };
}

impl<'a> RowWalk<'a> {
    /// A walk that stands at the place `first` of the row-major order, counted from 0.
    pub fn new(desc: &'a Desc, first: u64) -> RowWalk<'a>
        ensures desc { result.desc ≡ desc.now }
        ensures place { result.place ≡ first }
    {
        if first >= desc.size() {
            return RowWalk {
                desc,
                place: first,
                run: Run {
                    outer: 0,
                    length: 1,
                    step: 0,
                },
                index: SmallVec::new(*desc.strides.allocator()),
                start: 0,
                done: 0,
            };
        }
        let run = last_run(desc);
        let index = outer_index(&desc.shape, run.outer, first);
        let start = dot_from(
            desc.base,
            &desc.strides.as_slice()[..run.outer],
            index.as_slice(),
        );
        RowWalk {
            desc,
            place: first,
            run,
            index,
            start,
            done: first % run.length,
        }
    }

    /// The numbers at the next places, at most `most` of them and at least to the end of the row, unless `most`
    /// comes first. The walk then stands behind them.
    pub fn next_row(&mut self, most: u64) -> Row
        requires some { 0 < most }
        requires left { self.old.place < size_of self.old.desc.shape }
        ensures count { 0 < result.count }
        ensures few { result.count ≤ most }
        ensures reach { min most (left_in_row self.old.desc.shape self.old.place) ≤ result.count }
        ensures numbers { (j : ℕ) → j < result.count
            → result.from +ℤ (result.step *ℤ pos j) ≡ number_on self.old.desc (self.old.place + j) }
        ensures within { self.old.place + result.count ≤ size_of self.old.desc.shape }
        ensures moved { self.new ≡ record self.old { place = self.old.place + result.count } }
        ensures lawful { IsDesc self.old.desc }
    {
        let count = most.min(self.run.length - self.done);
        let row = Row {
            from: wrapped_sum(
                self.start,
                wrapped_product(self.run.step, Cell::from(self.done)),
            ),
            step: self.run.step,
            count,
        };
        self.place += count;
        self.done += count;
        if self.done == self.run.length {
            self.done = 0;
            let desc = self.desc;
            let outer = self.run.outer;
            self.start = carried(
                &desc.strides.as_slice()[..outer],
                &desc.shape.lengths()[..outer],
                self.index.as_mut_slice(),
                self.start,
            );
        }
        row
    }
}

// The index of a place along the first axes.
fn outer_index(shape: &Shape, outer: usize, place: u64) -> SmallVec<u64, 8>
    requires { place < size_of shape.now }
    ensures { result.items ≡ take outer (index_at shape.now place) }
{
    if outer == 0 {
        return SmallVec::new(shape.allocator());
    }
    let mut index = shape.index_of(place);
    index.truncate(outer);
    index
}

// Moves an index to the one that follows it, and the number at it.
fn carried(strides: &[Cell], lengths: &[u64], index: &mut [u64], start: Cell) -> Cell
    requires axes { length strides.now ≡ length lengths.now }
    requires index { IsIndex lengths.now index.old }
    ensures { Carries strides.now lengths.now index.old index.new start result }
{
    let mut number = start;
    for axis in (0..lengths.len()).rev() {
        let i = index[axis];
        if i + 1 < lengths[axis] {
            index[axis] = i + 1;
            return wrapped_sum(number, strides[axis]);
        }
        number = wrapped_difference(number, wrapped_product(strides[axis], Cell::from(i)));
        index[axis] = 0;
    }
    number
}
