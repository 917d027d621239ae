//! The newest entry, computed in its place.

ghost use Rattle.std.specs.Prelude.{◌≡◌, ◌<◌, length, IfErr, OnOk};
ghost use Rattle.array_store.specs.Stores.{IsStore};
ghost use Rattle.pending_steps.specs.Steps.{IsNotComputed};
ghost use Rattle.machine_state.specs.Steps.{pending, IsLawfulBeside, IsSameRun, Keeps};
ghost use Rattle.calling_steps.specs.Ready.{AreArrays, IsComputed, IsNewest};

use drag_along::Leaf;
use machine_state::Machine;
use pending_steps::{Halt, compute_entry, settle_entries};
use value_stack::Stack;

// Computes every entry that may fail, and the newest one where it has functions. Each entry means what it meant.
pub(crate) fn compute_newest(machine: &mut Machine) -> Result<(), Halt>
    requires operand { 0 < length machine.old.stack }
    requires lawful { IsLawfulBeside machine.old }
    ensures arrays { OnOk result (AreArrays machine.new) }
    ensures computed { OnOk result (IsComputed machine.new.stack) }
    ensures means { pending machine.new ≡ pending machine.old }
    ensures keeps { Keeps machine.old machine.new }
    ensures count { length machine.new.stack ≡ length machine.old.stack }
    ensures halted { IfErr result (IsNotComputed machine.old.store.limit (pending machine.old)) }
    ensures run { IsSameRun machine.old machine.new }
{
    let alloc = *machine.costs.allocator();
    settle_entries(alloc, &mut machine.stack, &mut machine.store)?;
    let newest = machine.stack.len() - 1;
    compute_entry(alloc, newest, &mut machine.stack, &mut machine.store)
}

// The leaf that the newest entry is.
pub(crate) fn newest_leaf(stack: &Stack) -> &Leaf
    requires operand { 0 < length stack.now }
    requires computed { IsComputed stack.now }
    ensures { IsNewest stack.now result.now }
{
    match stack.entry(stack.len() - 1).only_leaf() {
        Some(leaf) => leaf,
        None => unreachable!(),
    }
}
