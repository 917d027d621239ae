//! Entries that are ready for an indexed assignment, and a name that is free to be written.

ghost use Rattle.std.specs.Prelude.{◌≡◌, ◌+◌, ◌-◌, ◌≤◌, length, None, OnOk, IfErr};
ghost use Rattle.array_store.specs.Follows.{Holds, none};
ghost use Rattle.value_stack.specs.Stacks.{named_on, entries, MayFail, IsLeastOrNone, IsLawfulStack};
ghost use Rattle.pending_steps.specs.Steps.{Moves, IsNotComputed};
ghost use Rattle.indexing_steps.specs.Operands.{positions_in, AreComputed};

use alias_force::Holder;
use apl_base::Name;
use array_store::Store;
use drag_along::Leaf;
use indexing_steps::{compute_between, count_there};
use name_table::Names;
use pending_steps::{Halt, settle_entries};
use std::alloc::Global;
use value_stack::Stack;

/// The positions and the value are leaves afterwards, and no entry may fail. Each entry means what it meant.
pub fn make_ready(
    alloc: Global,
    mask: &[bool],
    stack: &mut Stack,
    store: &mut Store,
) -> Result<(), Halt>
    requires operands { 1 + positions_in mask.now ≤ length stack.old }
    requires lawful { IsLawfulStack store.old stack.old }
    requires held { Holds store.old (named_on stack.old) }
    ensures computed { OnOk result (AreComputed stack.new
        (length stack.new - 1 - positions_in mask.now) (length stack.new)) }
    ensures safe { OnOk result (IsLeastOrNone MayFail stack.new 0 None) }
    ensures halted { IfErr result
        (IsNotComputed store.old.limit (entries store.old stack.old)) }
    ensures means { entries store.new stack.new ≡ entries store.old stack.old }
    ensures moves { Moves store.old store.new stack.old stack.new none none }
    ensures length { length stack.new ≡ length stack.old }
{
    let end = stack.len();
    compute_between(alloc, end - 1 - count_there(mask), end, stack, store)?;
    settle_entries(alloc, stack, store)
}

/// The names of a machine, through which one of them is made free to be written.
#[derive(Drop)]
pub struct Variables {
    pub names: Names,
}

impl Holder for Variables {
    ghost names = { λ v. v.names };

    // The look-up of the names.
    fn leaf_of(&self, name: &Name) -> Option<&Leaf> {
        self.names.leaf_of(name)
    }

    // The setting of the names.
    fn give(&mut self, name: &Name, leaf: Leaf) -> Leaf {
        self.names.give(name, leaf)
    }
}
