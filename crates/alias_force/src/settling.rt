//! Entries that may fail are computed, the oldest first.

ghost use Rattle.std.specs.Prelude.{◌≡◌, [], None, OnOk, IfErr, map};
ghost use Rattle.std.specs.List.{filter};
ghost use Rattle.array_store.specs.Stores.{IsStore};
ghost use Rattle.array_store.specs.Follows.{Follows, Holds};
ghost use Rattle.e_machine.specs.Forced.{elements_of};
ghost use Rattle.value_stack.specs.Stacks.{named_on, entries, MayFail, IsLeastOrNone, IsLawfulStack};
ghost use Rattle.alias_force.specs.Moving.{may_fail, AreMoved, ComputesAll, OwnersCame, StopsAt, IsOldestFault};

use crate::moving::Which;
use crate::passes::move_where;
use array_store::Store;
use e_machine::ForceFault;
use std::alloc::Global;
use value_stack::Stack;

/// Forces every entry that may fail, the oldest first, into an owner of its own. Each entry means what it meant. Where
/// one is refused, it and the younger ones are as they were. So a fault is that of the oldest entry that faults.
pub fn settle(alloc: Global, stack: &mut Stack, store: &mut Store) -> Result<(), ForceFault>
    requires lawful { IsLawfulStack store.old stack.old }
    requires held { Holds store.old (named_on stack.old) }
    ensures settled { OnOk result (AreMoved may_fail store.new stack.old stack.new) }
    ensures safe { OnOk result (IsLeastOrNone MayFail stack.new 0 None) }
    ensures computes { OnOk result
        (ComputesAll store.old store.new (filter may_fail stack.old) 0) }
    ensures came { OnOk result
        (OwnersCame store.old store.new (map elements_of (filter may_fail stack.old))) }
    ensures idle { OnOk result (filter may_fail stack.old ≡ [] → store.new ≡ store.old) }
    ensures refused { IfErr result
        (StopsAt may_fail store.old store.new stack.old stack.new) }
    ensures oldest { IfErr result (IsOldestFault (entries store.old stack.old)) }
    ensures means { entries store.new stack.new ≡ entries store.old stack.old }
    ensures lawful { IsLawfulStack store.new stack.new }
    ensures follows { Follows store.old store.new (named_on stack.old) (named_on stack.new) }
    ensures store { IsStore store.new }
{
    move_where(alloc, &Which::Failing, stack, store)
}
