//! Scalar functions of the newest entries.

ghost use Rattle.std.specs.Prelude.{◌≡◌, ℕ, ◌+◌, ◌-◌, ◌<◌, ◌≤◌, length, Some, slice_get, OnOk, IfErr};
ghost use Rattle.array_store.specs.Stores.{IsStore};
ghost use Rattle.array_store.specs.Follows.{Holds, none};
ghost use Rattle.drag_along.specs.Nodes.{functions_in};
ghost use Rattle.drag_along.specs.Segments.{SegmentView};
ghost use Rattle.value_stack.specs.Stacks.{named_on, entries, IsLawfulStack};
ghost use Rattle.apl_model.specs.declared.functions.MonFn.TheVariants.{Scalar as ScalarOne};
ghost use Rattle.apl_compile.specs.declared.codes.Op.TheVariants.{Mon};
ghost use Rattle.pending_steps.specs.Steps.{Moves, Steps, IsNotComputed, IsHalted, Reaches};

use crate::halts::Halt;
use crate::joins::join_one;
use crate::rooms::compute_entry;
use apl_base::{Mon as OneFunction, NoMemory, Place};
use array_store::Store;
use std::alloc::Global;
use value_stack::Stack;

/// The most functions that an expression has pending.
const MOST_FUNCTIONS: usize = 64;

/// A scalar function of the newest entry, deferred. An entry that has 64 functions is computed before, and before it
/// every entry that may fail.
pub fn scalar_one(
    alloc: Global,
    f: OneFunction,
    place: Place,
    stack: &mut Stack,
    store: &mut Store,
) -> Result<(), Halt>
    requires operand { 0 < length stack.old }
    requires lawful { IsLawfulStack store.old stack.old }
    requires held { Holds store.old (named_on stack.old) }
    ensures step { OnOk result (Steps (record { place = place; op = Mon (ScalarOne f) }) 1 1
        (entries store.old stack.old) (entries store.new stack.new)) }
    ensures moves { Reaches result (Moves store.old store.new stack.old stack.new none none) }
    ensures halted { IfErr result (IsHalted (record { place = place; op = Mon (ScalarOne f) }) 1
        store.old.limit (entries store.old stack.old)) }
    ensures limit { store.new.limit ≡ store.old.limit }
{
    make_room(alloc, stack, store)?;
    join_newest(alloc, f, place, stack, store)?;
    Ok(())
}

// The newest entry has fewer than 64 functions afterwards.
fn make_room(alloc: Global, stack: &mut Stack, store: &mut Store) -> Result<(), Halt>
    requires operand { 0 < length stack.old }
    requires lawful { IsLawfulStack store.old stack.old }
    requires held { Holds store.old (named_on stack.old) }
    ensures few { OnOk result ((segment : SegmentView)
        → slice_get stack.new (length stack.new - 1) ≡ Some segment
        → functions_in segment.nodes < 64) }
    ensures halted { IfErr result
        (IsNotComputed store.old.limit (entries store.old stack.old)) }
    ensures means { entries store.new stack.new ≡ entries store.old stack.old }
    ensures moves { Moves store.old store.new stack.old stack.new none none }
    ensures length { length stack.new ≡ length stack.old }
{
    let newest = stack.len() - 1;
    if stack.entry(newest).functions() >= MOST_FUNCTIONS {
        compute_entry(alloc, newest, stack, store)?;
    }
    Ok(())
}

// The newest entry gives way to a join of it.
fn join_newest(
    alloc: Global,
    f: OneFunction,
    place: Place,
    stack: &mut Stack,
    store: &Store,
) -> Result<(), NoMemory>
    requires operand { 0 < length stack.old }
    requires lawful { IsLawfulStack store.now stack.old }
    requires few { (segment : SegmentView)
        → slice_get stack.old (length stack.old - 1) ≡ Some segment
        → functions_in segment.nodes < 64 }
    ensures step { OnOk result (Steps (record { place = place; op = Mon (ScalarOne f) }) 1 1
        (entries store.now stack.old) (entries store.now stack.new)) }
    ensures lawful { OnOk result (IsLawfulStack store.now stack.new) }
    ensures leaves { OnOk result ((key : ℕ) → named_on stack.new key ≡ named_on stack.old key) }
{
    let Some(right) = stack.pop() else {
        unreachable!()
    };
    // It tells the proof that it is a segment.
    let _functions = right.functions();
    let joined = join_one(alloc, right, f, place)?;
    stack.push(joined)
}
