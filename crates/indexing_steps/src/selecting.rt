//! Subscripts that are selections of what is pending.

ghost use Rattle.std.specs.Prelude.{◌≡◌, ◌-◌, ◌+◌, ◌≤◌, ◌<◌, false, length, Some, slice_get, OnOk};
ghost use Rattle.apl_compile.specs.declared.codes.Op.TheVariants as op;
ghost use Rattle.array_store.specs.Follows.{Holds, none};
ghost use Rattle.drag_along.specs.Segments.{SegmentView};
ghost use Rattle.value_stack.specs.Stacks.{named_on, entries, IsLawfulStack};
ghost use Rattle.beating.specs.Selecting.{Fits};
ghost use Rattle.pending_steps.specs.Steps.{Moves};
ghost use Rattle.leaf_steps.specs.Origins.{StepsFrom};
ghost use Rattle.indexing_steps.specs.Choices.{IsSelection};
ghost use Rattle.indexing_steps.specs.Falls.{SelectsNewest};
ghost use Rattle.indexing_steps.specs.Operands.{positions_in};

use crate::dropping::drop_below;
use crate::operands::count_there;
use apl_base::{Cell, NoMemory, Place};
use array_store::Store;
use beating::{Selection, select};
use value_stack::Stack;

/// The newest entry, which can't fail, and the positions below it give way to a selection of it, which the subscript is.
pub fn select_subscript(
    mask: &[bool],
    by: &Selection,
    place: Place,
    origin: Cell,
    stack: &mut Stack,
    store: &mut Store,
) -> Result<(), NoMemory>
    requires operands { positions_in mask.now < length stack.old }
    requires safe { (s : SegmentView) → slice_get stack.old (length stack.old - 1) ≡ Some s
        → s.may_fail ≡ false }
    requires selection { IsSelection origin mask.now stack.old
        (entries store.old stack.old) by.now }
    requires lawful { IsLawfulStack store.old stack.old }
    requires held { Holds store.old (named_on stack.old) }
    ensures step { OnOk result (StepsFrom origin
        (record { place = place; op = op.Index mask.now }) (1 + positions_in mask.now) 1
        (entries store.old stack.old) (entries store.new stack.new)) }
    ensures moves { OnOk result (Moves store.old store.new stack.old stack.new none none) }
    ensures limit { store.new.limit ≡ store.old.limit }
{
    select_newest(by, stack, store)?;
    drop_below(count_there(mask), stack, store)
}

// The newest entry, which can't fail, gives way to a selection of it.
fn select_newest(by: &Selection, stack: &mut Stack, store: &Store) -> Result<(), NoMemory>
    requires operand { 0 < length stack.old }
    requires safe { (s : SegmentView) → slice_get stack.old (length stack.old - 1) ≡ Some s
        → s.may_fail ≡ false }
    requires fits { (s : SegmentView) → slice_get stack.old (length stack.old - 1) ≡ Some s
        → Fits by.now s.shape }
    requires lawful { IsLawfulStack store.now stack.old }
    ensures selects { OnOk result (SelectsNewest store.now stack.old stack.new by.now) }
    ensures length { OnOk result (length stack.new ≡ length stack.old) }
{
    let Some(mut newest) = stack.pop() else {
        unreachable!()
    };
    // It tells the proof that it is a segment.
    let _functions = newest.functions();
    select(&mut newest, by);
    stack.push(newest)
}
