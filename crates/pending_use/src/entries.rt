//! Entries that go and come on a stack, while all others stay.

ghost use Rattle.std.specs.Prelude.{◌≡◌, ◌-◌, ◌↔◌, [], ◌∷◌, ◌++◌, IsTrue, length, take, Some, slice_get, ◌<◌, IfOk, OnOk, OnErr};
ghost use Rattle.std.specs.List.{AllByRecursion};
ghost use Rattle.apl_base.specs.Interval.{IsInterval};
ghost use Rattle.array_store.specs.Follows.{Follows, Holds};
ghost use Rattle.drag_along.specs.Nodes.{leaf_shape};
ghost use Rattle.drag_along.specs.Segments.{SegmentView, IsSegment, leaf_segment, side_of};
ghost use Rattle.drag_along.specs.Meaning.{Means, leaf_array, combined2, entry};
ghost use Rattle.drag_along.specs.Lawful.{IsLawfulLeaf, IsLawful};
ghost use Rattle.value_stack.specs.Stacks.{named_on, entries, IsSoAt, IsLawfulStack};
ghost use Rattle.beating.specs.Folds.{Folds2};
ghost use Rattle.pending_use.specs.Uses.{HasFewBeside, Becomes, IsOneLeaf};

use apl_base::{Dya, Interval, NoMemory, Place};
use array_store::Store;
use beating::fold2;
use drag_along::{Leaf, Segment, leaf_interval};
use std::alloc::Global;
use value_range::{Side, range2};
use value_stack::Stack;

/// Takes the newest entry off, where there is one, and lets its leaves go. All other entries stay.
pub fn drop_newest(stack: &mut Stack, store: &mut Store)
    requires { Holds store.old (named_on stack.old) }
    ensures dropped { stack.new ≡ take (length stack.old - 1) stack.old }
    ensures stands { Becomes store.old store.new stack.old stack.new
        (entries store.old stack.new) }
    ensures follows { Follows store.old store.new (named_on stack.old) (named_on stack.new) }
    ensures holds { Holds store.new (named_on stack.new) }
{
    let Some(newest) = stack.pop() else {
        return;
    };
    newest.release(store);
}

/// Holds a leaf once more, and pushes the expression that is the leaf. After want of memory all is as it was.
pub fn push_again(
    alloc: Global,
    leaf: &Leaf,
    stack: &mut Stack,
    store: &mut Store,
) -> Result<(), NoMemory>
    requires lawful { IsLawfulLeaf store.old leaf.now }
    requires few { HasFewBeside store.old stack.old }
    ensures pushed { OnOk result (Becomes store.old store.new stack.old stack.new
        (entries store.old stack.old
        ++ Means (leaf_array store.old (leaf_shape leaf.now) leaf.now) ∷ [])) }
    ensures kept { OnErr result (stack.new ≡ stack.old) }
    ensures stays { OnErr result (Becomes store.old store.new stack.old stack.new
        (entries store.old stack.old)) }
{
    // It tells the proof that there are fewer than 2^64 entries.
    let _count = stack.len();
    let held = leaf.held(store);
    let range = leaf_interval(&held, store);
    let Ok(()) = push_leaf(alloc, held, range, stack) else {
        leaf.copy().release(store);
        return Err(NoMemory);
    };
    Ok(())
}

/// Where the entry at a position is one leaf, holds that leaf once more and pushes it again: whether the entry is one.
/// The new entry means what that one means. Otherwise, and after want of memory, all is as it was.
pub fn push_entry_again(
    alloc: Global,
    at: usize,
    stack: &mut Stack,
    store: &mut Store,
) -> Result<bool, NoMemory>
    requires within { at < length stack.old }
    requires lawful { IsLawfulStack store.old stack.old }
    requires few { HasFewBeside store.old stack.old }
    ensures exact { IfOk result (λ pushed. IsTrue pushed ↔ IsSoAt IsOneLeaf stack.old at) }
    ensures pushed { IfOk result (λ pushed. IsTrue pushed → (segment : SegmentView)
        → slice_get stack.old at ≡ Some segment → Becomes store.old store.new stack.old stack.new
        (entries store.old stack.old ++ entry store.old segment ∷ [])) }
    ensures kept { IfOk result (λ pushed. ¬ (IsTrue pushed) → stack.new ≡ stack.old) }
    ensures unchanged { IfOk result (λ pushed. ¬ (IsTrue pushed) → store.new ≡ store.old) }
    ensures failed { OnErr result (stack.new ≡ stack.old) }
    ensures stays { OnErr result (Becomes store.old store.new stack.old stack.new
        (entries store.old stack.old)) }
{
    let Some(leaf) = stack.entry(at).only_leaf() else {
        return Ok(false);
    };
    let leaf = leaf.copy();
    push_again(alloc, &leaf, stack, store)?;
    Ok(true)
}

/// `A f B` as an entry that is one leaf, where the function folds: whether it does. No element is computed. A and B
/// are lawful over the store, and have one shape. After want of memory the stack is as it was.
pub fn fold_and_push(
    alloc: Global,
    f: Dya,
    left: &Segment,
    right: &Segment,
    stack: &mut Stack,
    store: &Store,
) -> Result<bool, NoMemory>
    requires shapes { left.now.shape ≡ right.now.shape }
    requires left { IsLawful store.now left.now }
    requires right { IsLawful store.now right.now }
    ensures exact { IfOk result (λ folded. IsTrue folded ↔ Folds2 f left.now right.now) }
    ensures pushed { IfOk result (λ folded. IsTrue folded → (place : Place)
        → Becomes store.now store.now stack.old stack.new
        (entries store.now stack.old
        ++ combined2 f place (entry store.now left.now) (entry store.now right.now) ∷ [])) }
    ensures kept { IfOk result (λ folded. ¬ (IsTrue folded) → stack.new ≡ stack.old) }
    ensures failed { OnErr result (stack.new ≡ stack.old) }
{
    let range = range2(f, side_of(left), side_of(right)).range;
    let Some(leaf) = fold2(f, left, right) else {
        return Ok(false);
    };
    push_leaf(alloc, leaf, range, stack)?;
    Ok(true)
}

// Pushes the expression that is one leaf, whose elements lie in the range.
fn push_leaf(alloc: Global, leaf: Leaf, range: Interval, stack: &mut Stack) -> Result<(), NoMemory>
    requires { IsInterval range }
    ensures pushed { OnOk result (stack.new ≡ stack.old ++ leaf_segment leaf range ∷ []) }
    ensures segment { OnOk result (IsSegment (leaf_segment leaf range)) }
    ensures kept { OnErr result (stack.new ≡ stack.old) }
{
    let segment = Segment::of_leaf(alloc, leaf, range)?;
    stack.push(segment)
}

// What the interval rules are told of a segment.
fn side_of(s: &Segment) -> Side
    ensures side { result ≡ side_of s.now }
    ensures interval { IsInterval result.interval }
    ensures segment { IsSegment s.now }
{
    Side {
        kind: s.kind,
        interval: s.range,
    }
}
