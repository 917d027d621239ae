//! Lengths that are put together.
ghost use Rattle.std.specs.Prelude.{◌≡◌, ◌↔◌, ◌≤◌, ◌++◌, length, IsOk, IfOk};
ghost use Rattle.apl_base.specs.Array.{IsShape};

use apl_base::{Shape, TooLarge};
use smallvec::SmallVec;
use std::alloc::Global;

/// The shape of the first lengths and then the second: there is one exactly where these make one. It takes no memory.
pub fn joined_shape(alloc: Global, first: &[u64], second: &[u64]) -> Result<Shape, TooLarge>
    requires first { length first.now ≤ 8 }
    requires second { length second.now ≤ 8 }
    ensures joined { IfOk result (λ shape. shape ≡ first.now ++ second.now) }
    ensures exact { IsOk result ↔ IsShape (first.now ++ second.now) }
{
    let lengths = joined(alloc, first, second);
    Shape::of(alloc, lengths.as_slice())
}

// The first lengths and then the second.
fn joined(alloc: Global, first: &[u64], second: &[u64]) -> SmallVec<u64, 16>
    requires first { length first.now ≤ 8 }
    requires second { length second.now ≤ 8 }
    ensures { result.items ≡ first.now ++ second.now }
{
    let mut lengths = SmallVec::new(alloc);
    for n in first {
        lengths.push_reserved(*n);
    }
    for n in second {
        lengths.push_reserved(*n);
    }
    lengths
}
