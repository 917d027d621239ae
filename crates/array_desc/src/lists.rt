//! Lists of lengths and strides, kept inline.

ghost use Rattle.std.specs.Prelude.{◌≡◌, ◌+◌, ◌<◌, ◌≤◌, ◌++◌, pos, length, slice_set, remove, replicate};

use apl_base::Cell;
use smallvec::SmallVec;
use std::alloc::Global;

/// The elements as a list that takes no memory.
pub fn held_inline<T: Copy + Default + Drop>(alloc: Global, list: &[T]) -> SmallVec<T, 8>
    requires { length list.now ≤ 8 }
    ensures items { result.items ≡ list.now }
    ensures capacity { result.capacity ≡ 8 }
{
    let mut held = SmallVec::new(alloc);
    for item in list {
        held.push_reserved(*item);
    }
    held
}

/// The list with another element for an axis.
pub fn with_axis<T: Copy + Default + Drop>(
    alloc: Global,
    list: &[T],
    axis: usize,
    value: T,
) -> SmallVec<T, 8>
    requires axis { axis < length list.now }
    requires few { length list.now ≤ 8 }
    ensures { result.items ≡ slice_set list.now axis value }
{
    let mut changed = held_inline(alloc, list);
    changed.as_mut_slice()[axis] = value;
    changed
}

/// The list without the element for an axis.
pub fn without_axis<T: Copy + Default + Drop>(
    alloc: Global,
    list: &[T],
    axis: usize,
) -> SmallVec<T, 8>
    requires axis { axis < length list.now }
    requires few { length list.now ≤ 8 }
    ensures { result.items ≡ remove list.now axis }
{
    let mut shortened = held_inline(alloc, list);
    let _removed = shortened.remove(axis);
    shortened
}

/// The first list and then the second.
pub fn joined<T: Copy + Default + Drop>(alloc: Global, first: &[T], second: &[T]) -> SmallVec<T, 8>
    requires { length first.now + length second.now ≤ 8 }
    ensures { result.items ≡ first.now ++ second.now }
{
    let mut list = held_inline(alloc, first);
    match list.extend_from_slice(second) {
        Ok(()) => list,
        Err(_) => unreachable!(),
    }
}

/// The strides of axes along which the number stays.
pub fn resting(alloc: Global, rank: usize) -> SmallVec<Cell, 8>
    requires { rank ≤ 8 }
    ensures { result.items ≡ replicate rank (pos 0) }
{
    let none: [Cell; 8] = [0; 8];
    held_inline(alloc, &none[..rank])
}
