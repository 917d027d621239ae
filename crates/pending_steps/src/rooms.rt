//! Entries that are computed.

ghost use Rattle.std.specs.Prelude.{◌≡◌, ℕ, ◌<◌, length, None, Some, slice_get, OnOk, IfErr};
ghost use Rattle.array_store.specs.Stores.{IsStore};
ghost use Rattle.array_store.specs.Follows.{Holds, none};
ghost use Rattle.drag_along.specs.Nodes.{functions_in};
ghost use Rattle.drag_along.specs.Segments.{SegmentView};
ghost use Rattle.value_stack.specs.Stacks.{named_on, entries, MayFail, IsLeastOrNone, IsLawfulStack};
ghost use Rattle.alias_force.specs.Moving.{may_fail, AreMoved};
ghost use Rattle.pending_steps.specs.Shapes.{shapes_of, AreArrays, AreFewer};
ghost use Rattle.pending_steps.specs.Steps.{Moves, IsNotComputed};

use crate::halts::Halt;
use alias_force::{move_entry, settle};
use array_store::Store;
use std::alloc::Global;
use value_stack::Stack;

/// Computes every entry that may fail, the oldest first. Each entry means what it meant.
#[tactic(auto, using(crate::proofs::ArrayLemmas::least_arrays, crate::proofs::ArrayLemmas::same_shapes, crate::proofs::FewerLemmas::moved_fewer))]
pub fn settle_entries(alloc: Global, stack: &mut Stack, store: &mut Store) -> Result<(), Halt>
    requires lawful { IsLawfulStack store.old stack.old }
    requires held { Holds store.old (named_on stack.old) }
    ensures settled { OnOk result (AreMoved may_fail store.new stack.old stack.new) }
    ensures safe { OnOk result (IsLeastOrNone MayFail stack.new 0 None) }
    ensures arrays { OnOk result (AreArrays store.new stack.new) }
    ensures halted { IfErr result
        (IsNotComputed store.old.limit (entries store.old stack.old)) }
    ensures means { entries store.new stack.new ≡ entries store.old stack.old }
    ensures moves { Moves store.old store.new stack.old stack.new none none }
    ensures shapes { OnOk result (shapes_of stack.new ≡ shapes_of stack.old) }
    ensures fewer { OnOk result (AreFewer stack.old stack.new) }
    ensures length { length stack.new ≡ length stack.old }
    ensures store { IsStore store.new }
{
    // They tell the proof that each entry is a segment, before and after.
    let _before = stack.len();
    settle(alloc, stack, store)?;
    let _after = stack.len();
    Ok(())
}

/// Computes an entry that has functions, and before it every entry that may fail. Each entry means what it meant.
#[tactic(auto, using(crate::proofs::FewerLemmas::same_fewer, crate::proofs::FewerLemmas::fewer_then))]
pub fn compute_entry(
    alloc: Global,
    at: usize,
    stack: &mut Stack,
    store: &mut Store,
) -> Result<(), Halt>
    requires within { at < length stack.old }
    requires lawful { IsLawfulStack store.old stack.old }
    requires held { Holds store.old (named_on stack.old) }
    ensures computed { OnOk result ((segment : SegmentView)
        → slice_get stack.new at ≡ Some segment → functions_in segment.nodes ≡ 0) }
    ensures halted { IfErr result
        (IsNotComputed store.old.limit (entries store.old stack.old)) }
    ensures means { entries store.new stack.new ≡ entries store.old stack.old }
    ensures moves { Moves store.old store.new stack.old stack.new none none }
    ensures shapes { OnOk result (shapes_of stack.new ≡ shapes_of stack.old) }
    ensures fewer { OnOk result (AreFewer stack.old stack.new) }
    ensures length { length stack.new ≡ length stack.old }
{
    if stack.entry(at).functions() == 0 {
        return Ok(());
    }
    settle_entries(alloc, stack, store)?;
    if stack.entry(at).functions() == 0 {
        return Ok(());
    }
    own_entry(alloc, at, stack, store)
}

// Gives an entry that has functions, but can't fail, an owner of its own.
#[tactic(auto, using(crate::proofs::ArrayLemmas::kept_shapes, crate::proofs::ArrayLemmas::put_there, crate::proofs::FewerLemmas::set_fewer, crate::proofs::ArrayLemmas::own_has_none))]
fn own_entry(alloc: Global, at: usize, stack: &mut Stack, store: &mut Store) -> Result<(), Halt>
    requires within { at < length stack.old }
    requires lawful { IsLawfulStack store.old stack.old }
    requires held { Holds store.old (named_on stack.old) }
    requires safe { IsLeastOrNone MayFail stack.old 0 None }
    requires pending { (segment : SegmentView) → slice_get stack.old at ≡ Some segment
        → 0 < functions_in segment.nodes }
    ensures computed { OnOk result ((segment : SegmentView)
        → slice_get stack.new at ≡ Some segment → functions_in segment.nodes ≡ 0) }
    ensures halted { IfErr result
        (IsNotComputed store.old.limit (entries store.old stack.old)) }
    ensures means { entries store.new stack.new ≡ entries store.old stack.old }
    ensures moves { Moves store.old store.new stack.old stack.new none none }
    ensures shapes { OnOk result (shapes_of stack.new ≡ shapes_of stack.old) }
    ensures fewer { OnOk result (AreFewer stack.old stack.new) }
    ensures length { length stack.new ≡ length stack.old }
{
    // They tell the proof that each entry is a segment, before and after.
    let _before = stack.len();
    match move_entry(alloc, at, stack, store) {
        Ok(()) => {
            let _after = stack.len();
            Ok(())
        }
        Err(fault) => Err(Halt::from(fault)),
    }
}
