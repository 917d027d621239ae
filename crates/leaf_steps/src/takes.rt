//! Operands that go into hand as leaves, once no entry may fail.

ghost use Rattle.std.specs.Prelude.{◌≡◌, ◌+◌, ◌<◌, ◌≤◌, None, false, length, IfOk, IfErr};
ghost use Rattle.array_store.specs.Follows.{Follows, Holds, none};
ghost use Rattle.drag_along.specs.Segments.{named_by};
ghost use Rattle.drag_along.specs.Lawful.{IsLawful};
ghost use Rattle.drag_along.specs.Views.{only_leaf};
ghost use Rattle.value_stack.specs.Stacks.{named_on, entries, MayFail, IsLeastOrNone, IsLawfulStack};
ghost use Rattle.pending_steps.specs.Leaves.{TakesLeaf, ComesAsLeaf, IsStopped};
ghost use Rattle.pending_steps.specs.Steps.{Moves, IsNotComputed};
ghost use Rattle.leaf_steps.specs.Taking.{TakesOne, TakesTwo, AtError, named_by_arguments};

use array_store::Store;
use drag_along::{Leaf, Segment};
use e_machine::force;
use pending_steps::{Halt, settle_entries};
use std::alloc::Global;
use value_stack::Stack;

/// The two arguments of a function, in hand.
#[derive(Drop)]
pub struct Arguments {
    pub left: Leaf,
    pub right: Leaf,
}

impl Arguments {
    /// Lets both go.
    pub fn release(self, store: &mut Store)
        requires { Holds store.old (named_by_arguments self) }
        ensures { Follows store.old store.new (named_by_arguments self) none }
    {
        self.left.release(store);
        self.right.release(store);
    }
}

/// The newest entry goes into hand as a leaf, once every entry that may fail is computed.
pub fn take_one(alloc: Global, stack: &mut Stack, store: &mut Store) -> Result<Leaf, Halt>
    requires operand { 1 ≤ length stack.old }
    requires lawful { IsLawfulStack store.old stack.old }
    requires held { Holds store.old (named_on stack.old) }
    ensures takes { IfOk result (TakesOne store.old store.new stack.old stack.new) }
    ensures halted { IfErr result
        (IsNotComputed store.old.limit (entries store.old stack.old)) }
    ensures moves { IfErr result (λ why.
        AtError why (Moves store.old store.new stack.old stack.new none none)) }
    ensures limit { store.new.limit ≡ store.old.limit }
{
    settle_entries(alloc, stack, store)?;
    take_safe(stack, store)
}

/// The two newest entries go into hand as leaves, the left argument the newest, once every entry that may fail is
/// computed.
pub fn take_two(alloc: Global, stack: &mut Stack, store: &mut Store) -> Result<Arguments, Halt>
    requires operands { 2 ≤ length stack.old }
    requires lawful { IsLawfulStack store.old stack.old }
    requires held { Holds store.old (named_on stack.old) }
    ensures takes { IfOk result (TakesTwo store.old store.new stack.old stack.new) }
    ensures halted { IfErr result
        (IsNotComputed store.old.limit (entries store.old stack.old)) }
    ensures moves { IfErr result (λ why.
        AtError why (Moves store.old store.new stack.old stack.new none none)) }
    ensures limit { store.new.limit ≡ store.old.limit }
{
    settle_entries(alloc, stack, store)?;
    let left = take_safe(stack, store)?;
    let right = take_safe(stack, store)?;
    Ok(Arguments { left, right })
}

/// The newest entry goes into hand as a leaf, where no entry may fail: the leaf that it is, or a whole view of a new
/// owner of its elements, where there is room. No other entry may fail either.
pub fn take_safe(stack: &mut Stack, store: &mut Store) -> Result<Leaf, Halt>
    requires operand { 0 < length stack.old }
    requires safe { IsLeastOrNone MayFail stack.old 0 None }
    requires lawful { IsLawfulStack store.old stack.old }
    requires held { Holds store.old (named_on stack.old) }
    ensures takes { IfOk result (TakesLeaf store.old store.new stack.old stack.new) }
    ensures safe { IsLeastOrNone MayFail stack.new 0 None }
    ensures length { length stack.old ≡ length stack.new + 1 }
    ensures stopped { IfErr result (IsStopped store.old.limit) }
    ensures limit { store.new.limit ≡ store.old.limit }
{
    let Some(newest) = stack.pop() else {
        unreachable!()
    };
    as_leaf(newest, store)
}

// An expression that can't fail, as a leaf.
fn as_leaf(s: Segment, store: &mut Store) -> Result<Leaf, Halt>
    requires safe { s.may_fail ≡ false }
    requires lawful { IsLawful store.old s }
    requires held { Holds store.old (named_by s) }
    ensures comes { IfOk result (ComesAsLeaf store.old store.new s) }
    ensures stopped { IfErr result (IsStopped store.old.limit) }
    ensures limit { store.new.limit ≡ store.old.limit }
{
    match s.only_leaf() {
        Some(leaf) => Ok(leaf.copy()),
        None => computed(s, store),
    }
}

// The elements of an expression that can't fail in a new owner; the expression is let go.
fn computed(s: Segment, store: &mut Store) -> Result<Leaf, Halt>
    requires safe { s.may_fail ≡ false }
    requires many { only_leaf s.nodes ≡ None }
    requires lawful { IsLawful store.old s }
    requires held { Holds store.old (named_by s) }
    ensures comes { IfOk result (ComesAsLeaf store.old store.new s) }
    ensures stopped { IfErr result (IsStopped store.old.limit) }
    ensures limit { store.new.limit ≡ store.old.limit }
{
    match force(&s, store) {
        Ok(leaf) => {
            s.release(store);
            Ok(leaf)
        }
        Err(fault) => Err(Halt::from(fault)),
    }
}
