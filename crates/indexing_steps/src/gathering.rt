//! Subscripts that are made.

ghost use Rattle.std.specs.Prelude.{◌≡◌, ◌+◌, ◌-◌, ◌≤◌, length, IfErr, OnOk};
ghost use Rattle.apl_compile.specs.declared.codes.Op.TheVariants as op;
ghost use Rattle.array_store.specs.Follows.{Holds, both, none};
ghost use Rattle.drag_along.specs.Lawful.{IsLawfulLeaf};
ghost use Rattle.drag_along.specs.Nodes.{named_by_leaf};
ghost use Rattle.value_stack.specs.Stacks.{named_on, entries, IsLawfulStack};
ghost use Rattle.apl_model_laws.specs.Lawful.{IsOrigin};
ghost use Rattle.pending_steps.specs.Shapes.{AreArrays};
ghost use Rattle.pending_steps.specs.Steps.{Moves, Reaches};
ghost use Rattle.leaf_steps.specs.Making.{halt_at};
ghost use Rattle.leaf_steps.specs.Origins.{StepsFrom, IsHaltedFrom};
ghost use Rattle.indexing_steps.specs.Falls.{PutsOver};
ghost use Rattle.indexing_steps.specs.Operands.{positions_in, AreComputed};

use crate::computing::compute_between;
use crate::dropping::drop_below;
use crate::operands::{count_there, leaf_at, positions_below};
use apl_base::{Cell, NoMemory, Place};
use array_store::Store;
use drag_along::Leaf;
use made_leaf::MadeFault;
use made_picks::gather;
use pending_steps::{Halt, push_leaf, settle_entries};
use std::alloc::Global;
use value_stack::Stack;

/// A subscript that is made at once. Its operands are computed before, and before these every entry that may fail.
pub fn gather_subscript(
    alloc: Global,
    mask: &[bool],
    place: Place,
    origin: Cell,
    stack: &mut Stack,
    store: &mut Store,
) -> Result<(), Halt>
    requires origin { IsOrigin origin }
    requires operands { 1 + positions_in mask.now ≤ length stack.old }
    requires lawful { IsLawfulStack store.old stack.old }
    requires held { Holds store.old (named_on stack.old) }
    ensures step { OnOk result (StepsFrom origin
        (record { place = place; op = op.Index mask.now }) (1 + positions_in mask.now) 1
        (entries store.old stack.old) (entries store.new stack.new)) }
    ensures moves { Reaches result (Moves store.old store.new stack.old stack.new none none) }
    ensures halted { IfErr result (IsHaltedFrom origin
        (record { place = place; op = op.Index mask.now }) (1 + positions_in mask.now)
        store.old.limit (entries store.old stack.old)) }
    ensures limit { store.new.limit ≡ store.old.limit }
{
    let end = stack.len();
    compute_between(alloc, end - 1 - count_there(mask), end, stack, store)?;
    settle_entries(alloc, stack, store)?;
    gather_leaves(alloc, mask, place, origin, stack, store)
}

// A subscript that is made at once, where all entries mean arrays and its operands are leaves.
fn gather_leaves(
    alloc: Global,
    mask: &[bool],
    place: Place,
    origin: Cell,
    stack: &mut Stack,
    store: &mut Store,
) -> Result<(), Halt>
    requires origin { IsOrigin origin }
    requires operands { 1 + positions_in mask.now ≤ length stack.old }
    requires computed { AreComputed stack.old
        (length stack.old - 1 - positions_in mask.now) (length stack.old) }
    requires arrays { AreArrays store.old stack.old }
    requires lawful { IsLawfulStack store.old stack.old }
    requires held { Holds store.old (named_on stack.old) }
    ensures step { OnOk result (StepsFrom origin
        (record { place = place; op = op.Index mask.now }) (1 + positions_in mask.now) 1
        (entries store.old stack.old) (entries store.new stack.new)) }
    ensures moves { Reaches result (Moves store.old store.new stack.old stack.new none none) }
    ensures halted { IfErr result (IsHaltedFrom origin
        (record { place = place; op = op.Index mask.now }) (1 + positions_in mask.now)
        store.old.limit (entries store.old stack.old)) }
    ensures limit { store.new.limit ≡ store.old.limit }
{
    let newest = stack.len() - 1;
    let positions = positions_below(alloc, mask, newest, stack)?;
    let array = leaf_at(newest, stack);
    match gather(&array, &positions, origin, store) {
        Ok(leaf) => {
            put_gathered(alloc, mask, leaf, stack, store)?;
            Ok(())
        }
        Err(fault) => Err(fault_halt(place, fault)),
    }
}

// Why a step halts whose function answered a fault, and stands at this place.
fn fault_halt(place: Place, fault: MadeFault) -> Halt
    ensures { result ≡ halt_at place fault }
{
    match fault {
        MadeFault::Error { kind } => Halt::Error { kind, place },
        MadeFault::WsFull { live, asked } => Halt::WsFull { live, asked },
        MadeFault::NoMemory => Halt::NoMemory,
    }
}

// The leaf that was made comes as the newest entry, and the array and the positions are let go.
fn put_gathered(
    alloc: Global,
    mask: &[bool],
    leaf: Leaf,
    stack: &mut Stack,
    store: &mut Store,
) -> Result<(), NoMemory>
    requires leaf { IsLawfulLeaf store.old leaf }
    requires operands { 1 + positions_in mask.now ≤ length stack.old }
    requires lawful { IsLawfulStack store.old stack.old }
    requires held { Holds store.old (both (named_on stack.old) (named_by_leaf leaf)) }
    ensures puts { OnOk result (PutsOver store.old store.new stack.old stack.new leaf
        (1 + positions_in mask.now)) }
    ensures limit { store.new.limit ≡ store.old.limit }
{
    let count = 1 + count_there(mask);
    push_leaf(alloc, leaf, stack, store)?;
    drop_below(count, stack, store)
}
