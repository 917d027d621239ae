//! Selections by functions of two arguments.

ghost use Rattle.std.specs.Prelude.{◌≡◌, ◌≤◌, ◌<◌, ◌-◌, false, length, Some, None, slice_get, OnOk, IfOk, IfErr};
ghost use Rattle.array_store.specs.Follows.{Holds, none};
ghost use Rattle.drag_along.specs.Nodes.{functions_in};
ghost use Rattle.drag_along.specs.Segments.{SegmentView};
ghost use Rattle.value_stack.specs.Stacks.{named_on, entries, IsLawfulStack};
ghost use Rattle.apl_model_laws.specs.Lawful.{IsOrigin};
ghost use Rattle.apl_compile.specs.declared.codes.Op.TheVariants.{Dya};
ghost use Rattle.pending_steps.specs.Shapes.{shapes_of, second_shape};
ghost use Rattle.pending_steps.specs.Steps.{Moves, IsNotComputed};
ghost use Rattle.leaf_steps.specs.Origins.{IsHaltedFrom};
ghost use Rattle.selection_choices.specs.Choices.{SelectsTwo};
ghost use Rattle.selecting_steps.specs.Chosen.{ChoosesByNewest, ErrsByNewest, SelectsOrTakesMore, ReachesSelected};

use crate::entries::choose_second;
use apl_base::{Cell, ErrorKind, Place};
use apl_model::DyaFn;
use array_store::Store;
use pending_steps::{Halt, compute_entry, settle_entries};
use selection_choices::{Choice, choose_two};
use std::alloc::Global;
use value_stack::Stack;

/// `A⍉B`, `A↑B` or `A↓B` of the two newest entries, the left argument the newest, where it is a selection: it goes
/// through all functions of the right one, and no element of that is computed, but where it may fail: then every entry
/// that may fail is computed before, the oldest first, as it is where the left one has functions. The error of the
/// function comes after the fault of any entry. It answers false where counts are taken that don't fit: then all entries
/// mean what they meant.
pub fn select_fitting(
    alloc: Global,
    f: DyaFn,
    place: Place,
    origin: Cell,
    stack: &mut Stack,
    store: &mut Store,
) -> Result<bool, Halt>
    requires selects { SelectsTwo f }
    requires origin { IsOrigin origin }
    requires operands { 2 ≤ length stack.old }
    requires lawful { IsLawfulStack store.old stack.old }
    requires held { Holds store.old (named_on stack.old) }
    ensures step { IfOk result (λ selected.
        SelectsOrTakesMore origin f place (second_shape stack.old) selected
        (entries store.old stack.old) (entries store.new stack.new)) }
    ensures moves { ReachesSelected result
        (Moves store.old store.new stack.old stack.new none none) }
    ensures length { IfOk result (λ selected. selected ≡ false
        → length stack.new ≡ length stack.old) }
    ensures halted { IfErr result (IsHaltedFrom origin (record { place = place; op = Dya f }) 2
        store.old.limit (entries store.old stack.old)) }
    ensures limit { store.new.limit ≡ store.old.limit }
{
    make_ready(alloc, stack, store)?;
    let choice = match choice_of_second(f, origin, stack, store) {
        Ok(choice) => choice,
        Err(kind) => return Err(refuse(alloc, f, kind, place, origin, stack, store)),
    };
    let Some(choice) = choice else {
        return Ok(false);
    };
    choose_second(&choice, stack, store)?;
    Ok(true)
}

// The newest entry has no functions, so that it is a leaf, and the one below it can't fail.
fn make_ready(alloc: Global, stack: &mut Stack, store: &mut Store) -> Result<(), Halt>
    requires operands { 2 ≤ length stack.old }
    requires lawful { IsLawfulStack store.old stack.old }
    requires held { Holds store.old (named_on stack.old) }
    ensures leaf { OnOk result ((s : SegmentView)
        → slice_get stack.new (length stack.new - 1) ≡ Some s → functions_in s.nodes ≡ 0) }
    ensures safe { OnOk result ((s : SegmentView)
        → slice_get stack.new (length stack.new - 2) ≡ Some s → s.may_fail ≡ false) }
    ensures halted { IfErr result
        (IsNotComputed store.old.limit (entries store.old stack.old)) }
    ensures means { entries store.new stack.new ≡ entries store.old stack.old }
    ensures moves { Moves store.old store.new stack.old stack.new none none }
    ensures shapes { OnOk result (shapes_of stack.new ≡ shapes_of stack.old) }
    ensures length { length stack.new ≡ length stack.old }
{
    let newest = stack.len() - 1;
    compute_entry(alloc, newest, stack, store)?;
    if stack.entry(newest - 1).may_fail {
        settle_entries(alloc, stack, store)?;
    }
    Ok(())
}

// What the function makes of the entry below the newest one, which is a leaf. Its numbers are read.
fn choice_of_second(
    f: DyaFn,
    origin: Cell,
    stack: &Stack,
    store: &mut Store,
) -> Result<Option<Choice>, ErrorKind>
    requires selects { SelectsTwo f }
    requires origin { IsOrigin origin }
    requires operands { 2 ≤ length stack.now }
    requires lawful { IsLawfulStack store.old stack.now }
    requires held { Holds store.old (named_on stack.now) }
    requires leaf { (s : SegmentView)
        → slice_get stack.now (length stack.now - 1) ≡ Some s → functions_in s.nodes ≡ 0 }
    ensures chooses { IfOk result (ChoosesByNewest origin f (second_shape stack.now)
        (entries store.old stack.now)) }
    ensures refused { IfErr result (ErrsByNewest origin f (second_shape stack.now)
        (entries store.old stack.now)) }
    ensures means { entries store.new stack.now ≡ entries store.old stack.now }
    ensures moves { Moves store.old store.new stack.now stack.now none none }
{
    let newest = stack.len() - 1;
    let Some(left) = stack.entry(newest).only_leaf() else {
        unreachable!()
    };
    choose_two(f, origin, left, &stack.entry(newest - 1).shape, store)
}

// The error of the function, after the fault of any entry.
fn refuse(
    alloc: Global,
    f: DyaFn,
    kind: ErrorKind,
    place: Place,
    origin: Cell,
    stack: &mut Stack,
    store: &mut Store,
) -> Halt
    requires operands { 2 ≤ length stack.old }
    requires lawful { IsLawfulStack store.old stack.old }
    requires held { Holds store.old (named_on stack.old) }
    requires errs { ErrsByNewest origin f (second_shape stack.old)
        (entries store.old stack.old) kind }
    ensures halted { IsHaltedFrom origin (record { place = place; op = Dya f }) 2
        store.old.limit (entries store.old stack.old) result }
    ensures moves { Moves store.old store.new stack.old stack.new none none }
{
    match settle_entries(alloc, stack, store) {
        Ok(()) => Halt::Error { kind, place },
        Err(halt) => halt,
    }
}
