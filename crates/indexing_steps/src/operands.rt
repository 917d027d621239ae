//! The positions of a subscript among the entries.

ghost use Rattle.std.specs.Prelude.{◌≡◌, ◌-◌, ◌<◌, ◌≤◌, length, Some, slice_get, IfOk};
ghost use Rattle.drag_along.specs.Nodes.{functions_in};
ghost use Rattle.drag_along.specs.Segments.{SegmentView};
ghost use Rattle.indexing_steps.specs.Operands.{positions_in, AreComputed, ArePositions, IsLeafEntry};

use apl_base::NoMemory;
use drag_along::Leaf;
use std::alloc::Global;
use value_stack::Stack;

/// How many positions a mask says are there.
pub fn count_there(mask: &[bool]) -> usize
    ensures { result ≡ positions_in mask.now }
{
    mask.iter().filter(|there| **there).count()
}

/// The leaves of the positions that a mask says are there, the first one first: they are the entries below number `end`,
/// the newest first, and have no function pending.
pub fn positions_below(
    alloc: Global,
    mask: &[bool],
    end: usize,
    stack: &Stack,
) -> Result<Vec<Option<Leaf>>, NoMemory>
    requires end { end ≤ length stack.now }
    requires operands { positions_in mask.now ≤ end }
    requires computed { AreComputed stack.now (end - positions_in mask.now) end }
    ensures positions { IfOk result (λ positions.
        ArePositions mask.now stack.now end positions.items) }
{
    let mut at = end;
    let mut positions = Vec::with_capacity(alloc, mask.len())?;
    for there in mask {
        if *there {
            at -= 1;
            positions.push(Some(leaf_at(at, stack)))?;
        } else {
            positions.push(None)?;
        }
    }
    Ok(positions)
}

/// The leaf that an entry is which has no function pending. It takes no memory, and holds nothing.
pub fn leaf_at(at: usize, stack: &Stack) -> Leaf
    requires within { at < length stack.now }
    requires computed { (s : SegmentView) → slice_get stack.now at ≡ Some s
        → functions_in s.nodes ≡ 0 }
    ensures leaf { (s : SegmentView) → slice_get stack.now at ≡ Some s
        → IsLeafEntry s result }
{
    let Some(leaf) = stack.entry(at).only_leaf() else {
        unreachable!()
    };
    leaf.copy()
}
