//! One look at each entry of a stack.

ghost use Rattle.std.specs.Prelude.{◌≡◌, [], OnOk, IfErr, map};
ghost use Rattle.std.specs.List.{filter};
ghost use Rattle.array_store.specs.Stores.{IsStore};
ghost use Rattle.array_store.specs.Follows.{Follows, Holds};
ghost use Rattle.e_machine.specs.Forced.{elements_of};
ghost use Rattle.value_stack.specs.Stacks.{named_on, entries, IsLawfulStack};
ghost use Rattle.alias_force.specs.Moving.{AreMoved, ComputesAll, OwnersCame, StopsAt};
ghost use Rattle.alias_force.specs.Steps.{moves};

use crate::moving::{Which, is_moved, move_entry};
use array_store::Store;
use e_machine::ForceFault;
use std::alloc::Global;
use value_stack::Stack;

/// Gives some of the entries, the oldest first, an owner of their own. Each entry means what it meant. Where one is
/// refused, it and the younger ones are as they were.
pub fn move_where(
    alloc: Global,
    which: &Which,
    stack: &mut Stack,
    store: &mut Store,
) -> Result<(), ForceFault>
    requires lawful { IsLawfulStack store.old stack.old }
    requires held { Holds store.old (named_on stack.old) }
    ensures moved { OnOk result (AreMoved (moves which.now) store.new stack.old stack.new) }
    ensures computes { OnOk result
        (ComputesAll store.old store.new (filter (moves which.now) stack.old) 0) }
    ensures came { OnOk result
        (OwnersCame store.old store.new (map elements_of (filter (moves which.now) stack.old))) }
    ensures idle { OnOk result
        (filter (moves which.now) stack.old ≡ [] → store.new ≡ store.old) }
    ensures refused { IfErr result
        (StopsAt (moves which.now) store.old store.new stack.old stack.new) }
    ensures means { entries store.new stack.new ≡ entries store.old stack.old }
    ensures lawful { IsLawfulStack store.new stack.new }
    ensures follows { Follows store.old store.new (named_on stack.old) (named_on stack.new) }
    ensures store { IsStore store.new }
{
    // It tells the proof that the store is one.
    let _counts = store.counts();
    for at in 0..stack.len() {
        if is_moved(which, stack.entry(at)) {
            move_entry(alloc, at, stack, store)?;
        }
    }
    Ok(())
}
