//! Leaves that were made, as entries.

ghost use Rattle.std.specs.Prelude.{◌≡◌, IfOk};
ghost use Rattle.drag_along.specs.Lawful.{IsLawfulLeaf};
ghost use Rattle.value_stack.specs.Stacks.{IsLawfulStack};
ghost use Rattle.leaf_steps.specs.Making.{IsPut, halt_at};

use apl_base::Place;
use array_store::Store;
use drag_along::Leaf;
use made_leaf::MadeFault;
use pending_steps::{Halt, push_leaf};
use std::alloc::Global;
use value_stack::Stack;

/// The leaf that a function made comes as the newest entry; or it halts as the function's fault at its place, and the
/// entries are as they were.
pub fn put_made(
    alloc: Global,
    made: Result<Leaf, MadeFault>,
    place: Place,
    stack: &mut Stack,
    store: &Store,
) -> Result<(), Halt>
    requires leaf { IfOk made (IsLawfulLeaf store.now) }
    requires lawful { IsLawfulStack store.now stack.old }
    ensures { IsPut store.now stack.old stack.new place made result }
{
    match made {
        Ok(leaf) => Ok(push_leaf(alloc, leaf, stack, store)?),
        Err(fault) => Err(halted_at(fault, place)),
    }
}

// Why the machine halts, where a function that answers this fault stands at this place.
fn halted_at(fault: MadeFault, place: Place) -> Halt
    ensures { result ≡ halt_at place fault }
{
    match fault {
        MadeFault::Error { kind } => Halt::Error { kind, place },
        MadeFault::WsFull { live, asked } => Halt::WsFull { live, asked },
        MadeFault::NoMemory => Halt::NoMemory,
    }
}
