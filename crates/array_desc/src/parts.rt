//! The parts of a descriptor while it is made.

ghost use Rattle.std.specs.Prelude.{◌≡◌, ℕ, ◌≤◌, ◌+ℤ◌, List, length};
ghost use Rattle.apl_base.specs.Array.{IsShape, IsIndex};
ghost use Rattle.array_desc.specs.Desc.{IsDesc, dot, number as number_of};
ghost use Rattle.array_desc.specs.Steps.{IsSound};

use crate::desc::Desc;
use crate::steps::{kept_base, kept_strides};
use apl_base::{Cell, Shape};
use smallvec::SmallVec;
use std::alloc::Global;

/// The base, strides and lengths of a descriptor, before 0 is put where no index leads.
#[derive(Drop)]
pub struct Parts {
    pub base: Cell,
    pub strides: SmallVec<Cell, 8>,
    pub lengths: SmallVec<u64, 8>,
}

impl Parts {
    /// The descriptor of these parts: the same numbers, with 0 where no index leads.
    pub fn settled(&self) -> Desc
        requires { IsSound self.now.base self.now.strides.items self.now.lengths.items }
        ensures shape { result.shape ≡ self.now.lengths.items }
        ensures numbers { (i : List ℕ) → IsIndex self.now.lengths.items i
            → number_of result i ≡ self.now.base +ℤ dot self.now.strides.items i }
        ensures lawful { IsDesc result }
    {
        let alloc = *self.strides.allocator();
        let shape = shape_of(alloc, self.lengths.as_slice());
        let empty = shape.size() == 0;
        Desc {
            base: kept_base(empty, self.base),
            strides: kept_strides(
                alloc,
                empty,
                self.strides.as_slice(),
                self.lengths.as_slice(),
            ),
            shape,
        }
    }
}

// The shape of lengths that make one.
fn shape_of(alloc: Global, lengths: &[u64]) -> Shape
    requires { IsShape lengths.now }
    ensures { result ≡ lengths.now }
{
    match Shape::of(alloc, lengths) {
        Ok(shape) => shape,
        Err(_) => unreachable!(),
    }
}
