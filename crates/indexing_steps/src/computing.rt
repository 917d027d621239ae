//! Entries that are computed, so that each is a leaf.

ghost use Rattle.std.specs.Prelude.{◌≡◌, ◌≤◌, length, OnOk, IfErr};
ghost use Rattle.array_store.specs.Follows.{Holds, none};
ghost use Rattle.value_stack.specs.Stacks.{named_on, entries, IsLawfulStack};
ghost use Rattle.pending_steps.specs.Steps.{Moves, IsNotComputed};
ghost use Rattle.indexing_steps.specs.Operands.{AreComputed};

use array_store::Store;
use pending_steps::{Halt, compute_entry};
use std::alloc::Global;
use value_stack::Stack;

/// Computes each entry from one number up to another that has functions, and before the first every entry that may
/// fail. Each entry means what it meant.
pub fn compute_between(
    alloc: Global,
    first: usize,
    end: usize,
    stack: &mut Stack,
    store: &mut Store,
) -> Result<(), Halt>
    requires within { end ≤ length stack.old }
    requires lawful { IsLawfulStack store.old stack.old }
    requires held { Holds store.old (named_on stack.old) }
    ensures computed { OnOk result (AreComputed stack.new first end) }
    ensures halted { IfErr result
        (IsNotComputed store.old.limit (entries store.old stack.old)) }
    ensures means { entries store.new stack.new ≡ entries store.old stack.old }
    ensures moves { Moves store.old store.new stack.old stack.new none none }
    ensures length { length stack.new ≡ length stack.old }
{
    for at in first..end {
        compute_entry(alloc, at, stack, store)?;
    }
    Ok(())
}
