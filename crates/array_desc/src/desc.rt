//! Descriptors, made whole, as a line or of one number, and what is read of them.
ghost use Rattle.std.specs.Prelude.{◌≡◌, ℕ, ◌+◌, ◌^◌, ◌<◌, ◌≤◌, ◌↔◌, IsTrue, pos, ◌+ℤ◌, ◌*ℤ◌, List, [], ◌∷◌, ◌++◌, length, slice_index};
ghost use Rattle.apl_base.specs.Array.{IsShape, IsIndex, size_of, place_at};
ghost use Rattle.apl_base.specs.Number.{IsNumber};
ghost use Rattle.array_desc.specs.Desc.{IsDesc, IsWhole, IsRangeOf, number as number_of};
ghost use Rattle.array_desc.specs.Steps.{paired, end_index};

use crate::lists::held_inline;
use crate::parts::Parts;
use crate::steps::{are_whole_strides, dot_from, end_of_axes, row_strides_of};
use apl_base::{Cell, Interval, Shape};
use smallvec::SmallVec;
use std::alloc::Global;
use std::marker::Model;

/// A number for each index of a shape: the base plus, for each axis, the stride times the index.
///
/// The numbers lie in -M..M. An axis of length 0 or 1 has stride 0; where the size is 0, the base is 0 and so
/// are all strides.
#[derive(Drop)]
pub struct Desc {
    pub base: Cell,
    pub strides: SmallVec<Cell, 8>,
    pub shape: Shape,
}

impl Model for Desc {
    ghost use Rattle.std.specs.Prelude.{◌≡◌};
    ghost use Rattle.array_desc.specs.Desc.{DescView, IsDesc};

    ghost Value = { DescView };

    ghost view = { λ d. record { base = d.base; strides = d.strides.items; shape = d.shape } };

    ghost invariant = { λ d.
        IsDesc (record { base = d.base; strides = d.strides.items; shape = d.shape })
        × (d.strides.capacity ≡ 8) };
}

impl Desc {
    /// The places of a shape's elements in row-major order, counted from 0. It takes no memory.
    pub fn whole(shape: &Shape) -> Desc
        ensures shape { result.shape ≡ shape.now }
        ensures places { (i : List ℕ) → IsIndex shape.now i
            → number_of result i ≡ pos (place_at shape.now i) }
        ensures lawful { IsDesc result }
    {
        Parts {
            base: 0,
            strides: row_strides_of(shape.allocator(), shape.lengths()),
            lengths: held_inline(shape.allocator(), shape.lengths()),
        }
        .settled()
    }

    /// The vector of the `n` numbers from `from` on that lie `step` apart. It takes no memory.
    pub fn line(alloc: Global, from: Cell, step: Cell, n: u64) -> Desc
        requires length { n ≤ 2 ^ 40 }
        requires numbers { (j : ℕ) → j < n → IsNumber (from +ℤ (step *ℤ pos j)) }
        ensures shape { result.shape ≡ n ∷ [] }
        ensures numbers { (j : ℕ) → j < n → number_of result (j ∷ []) ≡ from +ℤ (step *ℤ pos j) }
        ensures lawful { IsDesc result }
    {
        Parts {
            base: from,
            strides: held_inline(alloc, &[step]),
            lengths: held_inline(alloc, &[n]),
        }
        .settled()
    }

    /// The scalar of one number. It takes no memory.
    pub fn one(alloc: Global, number: Cell) -> Desc
        requires { IsNumber number }
        ensures shape { result.shape ≡ [] }
        ensures number { number_of result [] ≡ number }
        ensures lawful { IsDesc result }
    {
        Parts {
            base: number,
            strides: SmallVec::new(alloc),
            lengths: SmallVec::new(alloc),
        }
        .settled()
    }

    /// The same descriptor again. It takes no memory.
    pub fn copy(&self) -> Desc
        ensures same { result ≡ self.now }
        ensures lawful { IsDesc self.now }
    {
        let alloc = *self.strides.allocator();
        Desc {
            base: self.base,
            strides: held_inline(alloc, self.strides.as_slice()),
            shape: self.shape.copy(),
        }
    }

    /// The number of elements.
    pub fn size(&self) -> u64
        ensures value { result ≡ size_of self.now.shape }
        ensures lawful { IsDesc self.now }
    {
        self.shape.size()
    }

    /// The number at an index.
    pub fn number_at(&self, index: &[u64]) -> Cell
        requires { IsIndex self.now.shape index.now }
        ensures value { result ≡ number_of self.now index.now }
        ensures range { IsNumber result }
        ensures lawful { IsDesc self.now }
    {
        dot_from(self.base, self.strides.as_slice(), index)
    }

    /// The least and the greatest of the numbers: `Empty` exactly where there is none.
    pub fn least_and_greatest(&self) -> Interval
        ensures range { IsRangeOf self.now result }
        ensures lawful { IsDesc self.now }
    {
        if self.size() == 0 {
            return Interval::Empty;
        }
        if self.strides.is_empty() {
            let only = self.number_at(&[]);
            return Interval::Span { lo: only, hi: only };
        }
        Interval::Span {
            lo: self.number_at(self.end(false).as_slice()),
            hi: self.number_at(self.end(true).as_slice()),
        }
    }

    /// Whether the number at each index is the place of the index in row-major order, counted from 0.
    pub fn is_whole(&self) -> bool
        ensures whole { IsTrue result ↔ IsWhole self.now.shape self.now }
        ensures lawful { IsDesc self.now }
    {
        self.size() == 0
            || self.base == 0 && are_whole_strides(self.strides.as_slice(), self.shape.lengths())
    }

    // The index of the greatest number, or of the least one.
    fn end(&self, upper: bool) -> SmallVec<u64, 8>
        ensures { result.items ≡ paired (end_index upper) self.now.strides self.now.shape }
    {
        let alloc = *self.strides.allocator();
        end_of_axes(alloc, upper, self.strides.as_slice(), self.shape.lengths())
    }
}
