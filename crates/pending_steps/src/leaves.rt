//! Leaves in hand that come as entries, and entries that go into hand as leaves.

ghost use Rattle.std.specs.Prelude.{◌≡◌, ◌-◌, ◌<◌, None, Some, false, length, slice_get, IfOk, IfErr, OnOk, OnErr, [], ◌∷◌, ◌++◌};
ghost use Rattle.array_store.specs.Stores.{IsStore};
ghost use Rattle.array_store.specs.Follows.{Holds, none};
ghost use Rattle.drag_along.specs.Segments.{SegmentView, named_by};
ghost use Rattle.drag_along.specs.Meaning.{entry};
ghost use Rattle.drag_along.specs.Holding.{MayBeHeld};
ghost use Rattle.drag_along.specs.Lawful.{IsLawful, IsLawfulLeaf};
ghost use Rattle.drag_along.specs.Views.{only_leaf};
ghost use Rattle.value_stack.specs.Stacks.{named_on, entries, IsLawfulStack};
ghost use Rattle.pending_steps.specs.Steps.{Moves};
ghost use Rattle.pending_steps.specs.Leaves.{PutsLeaf, PutsHeld, TakesLeaf, ComesAsLeaf, IsStopped};

use crate::halts::Halt;
use apl_base::NoMemory;
use array_store::Store;
use drag_along::{Leaf, Segment, leaf_interval};
use e_machine::force;
use std::alloc::Global;
use value_stack::Stack;

/// A leaf in hand comes as the newest entry. After want of memory the stack is as it was, and the leaf is gone.
pub fn push_leaf(
    alloc: Global,
    leaf: Leaf,
    stack: &mut Stack,
    store: &Store,
) -> Result<(), NoMemory>
    requires leaf { IsLawfulLeaf store.now leaf }
    requires lawful { IsLawfulStack store.now stack.old }
    ensures puts { OnOk result (PutsLeaf store.now stack.old stack.new leaf) }
    ensures kept { OnErr result (stack.new ≡ stack.old) }
{
    let range = leaf_interval(&leaf, store);
    let segment = Segment::of_leaf(alloc, leaf, range)?;
    stack.push(segment)
}

/// A leaf comes as the newest entry, and is held once more. After want of memory the stack is as it was.
pub fn push_held(
    alloc: Global,
    leaf: &Leaf,
    stack: &mut Stack,
    store: &mut Store,
) -> Result<(), NoMemory>
    requires leaf { IsLawfulLeaf store.old leaf.now }
    requires holders { MayBeHeld store.old u128.MAX leaf.now }
    requires lawful { IsLawfulStack store.old stack.old }
    requires held { Holds store.old (named_on stack.old) }
    ensures puts { OnOk result
        (PutsHeld store.old store.new stack.old stack.new leaf.now) }
    ensures kept { OnErr result (stack.new ≡ stack.old) }
    ensures limit { store.new.limit ≡ store.old.limit }
{
    let held = leaf.held(store);
    push_leaf(alloc, held, stack, store)
}

/// The newest entry is let go, with its leaves. The others mean what they meant.
pub fn drop_newest(stack: &mut Stack, store: &mut Store)
    requires operand { 0 < length stack.old }
    requires lawful { IsLawfulStack store.old stack.old }
    requires held { Holds store.old (named_on stack.old) }
    ensures dropped { (s : SegmentView) → slice_get stack.old (length stack.old - 1) ≡ Some s
        → entries store.old stack.old ≡ entries store.new stack.new ++ entry store.old s ∷ [] }
    ensures rest { (s : SegmentView) → slice_get stack.old (length stack.old - 1) ≡ Some s
        → stack.old ≡ stack.new ++ s ∷ [] }
    ensures moves { Moves store.old store.new stack.old stack.new none none }
    ensures counts { store.new.counts ≡ store.old.counts }
{
    let Some(newest) = stack.pop() else {
        unreachable!()
    };
    newest.release(store);
}

/// The newest entry, which can't fail, goes into hand as a leaf: the leaf that it is, or a whole view of a new owner
/// of its elements, where there is room.
pub fn take_leaf(stack: &mut Stack, store: &mut Store) -> Result<Leaf, Halt>
    requires operand { 0 < length stack.old }
    requires safe { (s : SegmentView) → slice_get stack.old (length stack.old - 1) ≡ Some s
        → s.may_fail ≡ false }
    requires lawful { IsLawfulStack store.old stack.old }
    requires held { Holds store.old (named_on stack.old) }
    ensures takes { IfOk result (TakesLeaf store.old store.new stack.old stack.new) }
    ensures rest { (s : SegmentView) → slice_get stack.old (length stack.old - 1) ≡ Some s
        → stack.old ≡ stack.new ++ s ∷ [] }
    ensures stopped { IfErr result (IsStopped store.old.limit) }
    ensures limit { store.new.limit ≡ store.old.limit }
{
    let Some(newest) = stack.pop() else {
        unreachable!()
    };
    as_leaf(newest, store)
}

// An expression that can't fail, as a leaf.
fn as_leaf(s: Segment, store: &mut Store) -> Result<Leaf, Halt>
    requires safe { s.may_fail ≡ false }
    requires lawful { IsLawful store.old s }
    requires held { Holds store.old (named_by s) }
    ensures comes { IfOk result (ComesAsLeaf store.old store.new s) }
    ensures stopped { IfErr result (IsStopped store.old.limit) }
    ensures limit { store.new.limit ≡ store.old.limit }
{
    match s.only_leaf() {
        Some(leaf) => Ok(leaf.copy()),
        None => computed(s, store),
    }
}

// The elements of an expression that can't fail in a new owner; the expression is let go.
fn computed(s: Segment, store: &mut Store) -> Result<Leaf, Halt>
    requires safe { s.may_fail ≡ false }
    requires many { only_leaf s.nodes ≡ None }
    requires lawful { IsLawful store.old s }
    requires held { Holds store.old (named_by s) }
    ensures comes { IfOk result (ComesAsLeaf store.old store.new s) }
    ensures stopped { IfErr result (IsStopped store.old.limit) }
    ensures limit { store.new.limit ≡ store.old.limit }
{
    match force(&s, store) {
        Ok(leaf) => {
            s.release(store);
            Ok(leaf)
        }
        Err(fault) => Err(Halt::from(fault)),
    }
}
