//! Shapes: the lengths of an array.

ghost use Rattle.std.specs.Prelude.{◌≡◌, ◌+◌, ◌^◌, ◌<◌, ◌≤◌, ◌↔◌, min, length, slice_index, EachIndex, IsTrue, IsOk, IfOk};
ghost use Rattle.apl_base.specs.Array.{IsShape, IsIndex, size_of, place_at, index_at};

use crate::faults::TooLarge;
use smallvec::SmallVec;
use std::alloc::Global;
use std::marker::Model;

/// The most axes that an array may have.
const MOST_AXES: usize = 8;

/// The most elements that an array or one of its axes may have.
const MOST_ELEMENTS: u64 = 1 << 40;

/// The lengths of an array's axes: at most 8, none of them nor their product above 2^40.
#[derive(Drop)]
pub struct Shape {
    lengths: SmallVec<u64, 8>,
}

impl Model for Shape {
    ghost use Rattle.std.specs.Prelude.{◌≡◌, ℕ, List};
    ghost use Rattle.apl_base.specs.Array.{IsShape};

    ghost Value = { List ℕ };

    ghost view = { λ s. s.lengths.items };

    ghost invariant = { λ s. IsShape s.lengths.items × (s.lengths.capacity ≡ 8) };
}

impl Shape {
    /// The shape of these lengths. `TooLarge` comes exactly where there are more than 8 of them, or one of
    /// them or their product is above 2^40. It takes no memory.
    pub fn of(alloc: Global, lengths: &[u64]) -> Result<Shape, TooLarge>
        ensures ok { IfOk result (λ s. s ≡ lengths.now) }
        ensures exact { IsOk result ↔ IsShape lengths.now }
    {
        if lengths.len() > MOST_AXES || !axes_fit(lengths) || size_within(lengths) > MOST_ELEMENTS {
            return Err(TooLarge);
        }
        Ok(Shape {
            lengths: held_inline(alloc, lengths),
        })
    }

    /// The allocator that the shape was made with.
    pub fn allocator(&self) -> Global {
        *self.lengths.allocator()
    }

    /// The same lengths again. It takes no memory.
    pub fn copy(&self) -> Shape
        ensures { result ≡ self.now }
    {
        Shape {
            lengths: held_inline(*self.lengths.allocator(), self.lengths.as_slice()),
        }
    }

    /// The lengths, axis by axis.
    pub fn lengths(&self) -> &[u64]
        ensures value { result.now ≡ self.now }
        ensures lawful { IsShape self.now }
    {
        self.lengths.as_slice()
    }

    /// The number of axes.
    pub fn rank(&self) -> usize
        ensures value { result ≡ length self.now }
        ensures lawful { IsShape self.now }
    {
        self.lengths.len()
    }

    /// The length of an axis, counted from 0.
    pub fn len(&self, axis: usize) -> u64
        requires { axis < length self.now }
        ensures value { result ≡ slice_index self.now axis }
        ensures bound { result ≤ 2 ^ 40 }
    {
        self.lengths.as_slice()[axis]
    }

    /// The number of elements: the product of the lengths.
    pub fn size(&self) -> u64
        ensures value { result ≡ size_of self.now }
        ensures bound { result ≤ 2 ^ 40 }
    {
        size_within(self.lengths.as_slice())
    }

    /// The place of an index in row-major order, both counted from 0.
    pub fn place_of(&self, index: &[u64]) -> u64
        requires { IsIndex self.now index.now }
        ensures place { result ≡ place_at self.now index.now }
        ensures below { result < size_of self.now }
    {
        row_major_place(self.lengths.as_slice(), index)
    }

    /// The index at a place of the row-major order. It takes no memory.
    pub fn index_of(&self, place: u64) -> SmallVec<u64, 8>
        requires { place < size_of self.now }
        ensures index { result.items ≡ index_at self.now place }
        ensures lawful { IsIndex self.now result.items }
        ensures inverse { place_at self.now result.items ≡ place }
        ensures inline { result.capacity ≡ 8 }
    {
        let mut index = SmallVec::new(*self.lengths.allocator());
        let mut rest = place;
        let mut size = self.size();
        for n in self.lengths.as_slice() {
            size /= *n;
            index.push_reserved(rest / size);
            rest %= size;
        }
        index
    }
}

// The lengths as a list that takes no memory.
fn held_inline(alloc: Global, lengths: &[u64]) -> SmallVec<u64, 8>
    requires { length lengths.now ≤ 8 }
    ensures items { result.items ≡ lengths.now }
    ensures capacity { result.capacity ≡ 8 }
{
    let mut held = SmallVec::new(alloc);
    for n in lengths {
        held.push_reserved(*n);
    }
    held
}

// Whether each length is within the limit.
fn axes_fit(lengths: &[u64]) -> bool
    ensures { IsTrue result ↔ EachIndex lengths.now (λ k. slice_index lengths.now k ≤ 2 ^ 40) }
{
    lengths.iter().all(|n| *n <= MOST_ELEMENTS)
}

// The product of the lengths, or one more than the limit where it is above the limit.
fn size_within(lengths: &[u64]) -> u64
    ensures { result ≡ min (size_of lengths.now) (2 ^ 40 + 1) }
{
    let mut size: u64 = 1;
    for n in lengths {
        size = size.saturating_mul(*n).min(MOST_ELEMENTS + 1);
    }
    size
}

// The place of an index of these lengths, in row-major order: axis by axis from the last, each with the
// product of the lengths behind it.
fn row_major_place(lengths: &[u64], index: &[u64]) -> u64
    requires shape { IsShape lengths.now }
    requires index { IsIndex lengths.now index.now }
    ensures place { result ≡ place_at lengths.now index.now }
    ensures below { result < size_of lengths.now }
{
    let mut place = 0;
    for (n, i) in lengths.iter().zip(index) {
        place = place * *n + *i;
    }
    place
}
