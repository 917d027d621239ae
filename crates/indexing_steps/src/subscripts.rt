//! The subscript as an instruction.

ghost use Rattle.std.specs.Prelude.{◌≡◌, ◌+◌, ◌-◌, ◌≤◌, ◌<◌, false, length, Some, slice_get, IfOk, IfErr, OnOk};
ghost use Rattle.apl_compile.specs.declared.codes.Op.TheVariants as op;
ghost use Rattle.array_store.specs.Counting.{OnlyCounted};
ghost use Rattle.array_store.specs.Follows.{Holds, none};
ghost use Rattle.drag_along.specs.Segments.{SegmentView};
ghost use Rattle.value_stack.specs.Stacks.{named_on, entries, IsLawfulStack};
ghost use Rattle.apl_model_laws.specs.Lawful.{IsOrigin};
ghost use Rattle.pending_steps.specs.Steps.{Moves, IsNotComputed, Reaches};
ghost use Rattle.leaf_steps.specs.Origins.{StepsFrom, IsHaltedFrom};
ghost use Rattle.indexing_steps.specs.Choices.{IsChosen, IsRefusal};
ghost use Rattle.indexing_steps.specs.Operands.{positions_in, AreComputed};

use crate::choices::{Choice, choose};
use crate::computing::compute_between;
use crate::gathering::gather_subscript;
use crate::operands::{count_there, positions_below};
use crate::selecting::select_subscript;
use apl_base::{Cell, ErrorKind, NoMemory, Place};
use array_store::Store;
use pending_steps::{Halt, settle_entries};
use std::alloc::Global;
use value_stack::Stack;

/// A subscript: the newest entry is the array, and below it stand the positions that the mask says are there, the first
/// one the newest. Where each position is left out, a scalar or numbers in progression, the descriptors of what is pending
/// are changed, through as many joined functions as there are; any other subscript is made. An array that may fail is
/// computed before, and positions that are no leaves are; before these every entry that may fail. RANK ERROR, DOMAIN
/// ERROR, INDEX ERROR and LIMIT ERROR come in this order, after the fault of any entry.
pub fn subscript(
    alloc: Global,
    mask: &[bool],
    place: Place,
    origin: Cell,
    stack: &mut Stack,
    store: &mut Store,
) -> Result<(), Halt>
    requires origin { IsOrigin origin }
    requires operands { 1 + positions_in mask.now ≤ length stack.old }
    requires lawful { IsLawfulStack store.old stack.old }
    requires held { Holds store.old (named_on stack.old) }
    ensures step { OnOk result (StepsFrom origin
        (record { place = place; op = op.Index mask.now }) (1 + positions_in mask.now) 1
        (entries store.old stack.old) (entries store.new stack.new)) }
    ensures moves { Reaches result (Moves store.old store.new stack.old stack.new none none) }
    ensures halted { IfErr result (IsHaltedFrom origin
        (record { place = place; op = op.Index mask.now }) (1 + positions_in mask.now)
        store.old.limit (entries store.old stack.old)) }
    ensures limit { store.new.limit ≡ store.old.limit }
{
    make_ready(alloc, mask, stack, store)?;
    answer(alloc, mask, place, origin, stack, store)
}

// A subscript of an array that can't fail, whose positions are leaves.
fn answer(
    alloc: Global,
    mask: &[bool],
    place: Place,
    origin: Cell,
    stack: &mut Stack,
    store: &mut Store,
) -> Result<(), Halt>
    requires origin { IsOrigin origin }
    requires operands { 1 + positions_in mask.now ≤ length stack.old }
    requires computed { AreComputed stack.old
        (length stack.old - 1 - positions_in mask.now) (length stack.old - 1) }
    requires safe { (s : SegmentView) → slice_get stack.old (length stack.old - 1) ≡ Some s
        → s.may_fail ≡ false }
    requires lawful { IsLawfulStack store.old stack.old }
    requires held { Holds store.old (named_on stack.old) }
    ensures step { OnOk result (StepsFrom origin
        (record { place = place; op = op.Index mask.now }) (1 + positions_in mask.now) 1
        (entries store.old stack.old) (entries store.new stack.new)) }
    ensures moves { Reaches result (Moves store.old store.new stack.old stack.new none none) }
    ensures halted { IfErr result (IsHaltedFrom origin
        (record { place = place; op = op.Index mask.now }) (1 + positions_in mask.now)
        store.old.limit (entries store.old stack.old)) }
    ensures limit { store.new.limit ≡ store.old.limit }
{
    match choose_newest(alloc, mask, origin, stack, store)? {
        Choice::Select { by } => {
            select_subscript(mask, &by, place, origin, stack, store)?;
            Ok(())
        }
        Choice::Gather => gather_subscript(alloc, mask, place, origin, stack, store),
        Choice::Refuse { kind } => Err(refuse(alloc, mask, kind, place, origin, stack, store)),
    }
}

// Computes the positions that are no leaves, and the array where it may fail; before these every entry that may fail.
// Then the positions are leaves and the array can't fail. Each entry means what it meant.
fn make_ready(
    alloc: Global,
    mask: &[bool],
    stack: &mut Stack,
    store: &mut Store,
) -> Result<(), Halt>
    requires operands { 1 + positions_in mask.now ≤ length stack.old }
    requires lawful { IsLawfulStack store.old stack.old }
    requires held { Holds store.old (named_on stack.old) }
    ensures computed { OnOk result (AreComputed stack.new
        (length stack.new - 1 - positions_in mask.now) (length stack.new - 1)) }
    ensures safe { OnOk result ((s : SegmentView)
        → slice_get stack.new (length stack.new - 1) ≡ Some s → s.may_fail ≡ false) }
    ensures halted { IfErr result
        (IsNotComputed store.old.limit (entries store.old stack.old)) }
    ensures means { entries store.new stack.new ≡ entries store.old stack.old }
    ensures moves { Moves store.old store.new stack.old stack.new none none }
    ensures length { length stack.new ≡ length stack.old }
{
    let newest = stack.len() - 1;
    compute_between(alloc, newest - count_there(mask), newest, stack, store)?;
    if stack.entry(newest).may_fail {
        settle_entries(alloc, stack, store)?;
    }
    Ok(())
}

// How the subscript of the newest entries is answered, whose positions are leaves and whose array can't fail.
fn choose_newest(
    alloc: Global,
    mask: &[bool],
    origin: Cell,
    stack: &Stack,
    store: &mut Store,
) -> Result<Choice, NoMemory>
    requires origin { IsOrigin origin }
    requires operands { 1 + positions_in mask.now ≤ length stack.now }
    requires computed { AreComputed stack.now
        (length stack.now - 1 - positions_in mask.now) (length stack.now - 1) }
    requires safe { (s : SegmentView) → slice_get stack.now (length stack.now - 1) ≡ Some s
        → s.may_fail ≡ false }
    requires lawful { IsLawfulStack store.old stack.now }
    ensures chosen { IfOk result
        (IsChosen origin mask.now stack.now (entries store.old stack.now)) }
    ensures counted { OnlyCounted store.old store.new }
{
    let newest = stack.len() - 1;
    let positions = positions_below(alloc, mask, newest, stack)?;
    Ok(choose(alloc, &stack.entry(newest).shape, &positions, origin, store))
}

// The error of a subscript, after the fault of any entry.
fn refuse(
    alloc: Global,
    mask: &[bool],
    kind: ErrorKind,
    place: Place,
    origin: Cell,
    stack: &mut Stack,
    store: &mut Store,
) -> Halt
    requires refused { IsRefusal origin mask.now (entries store.old stack.old) kind }
    requires lawful { IsLawfulStack store.old stack.old }
    requires held { Holds store.old (named_on stack.old) }
    ensures halted { IsHaltedFrom origin
        (record { place = place; op = op.Index mask.now }) (1 + positions_in mask.now)
        store.old.limit (entries store.old stack.old) result }
    ensures moves { Moves store.old store.new stack.old stack.new none none }
{
    match settle_entries(alloc, stack, store) {
        Ok(()) => Halt::Error { kind, place },
        Err(halt) => halt,
    }
}
