//! Entries that give way to what is made of them.

ghost use Rattle.std.specs.Prelude.{◌≡◌, ℕ, ◌-◌, ◌<◌, ◌≤◌, false, length, Some, slice_get, OnOk, IfErr};
ghost use Rattle.array_store.specs.Stores.{IsStore};
ghost use Rattle.array_store.specs.Follows.{Holds, none};
ghost use Rattle.drag_along.specs.Segments.{SegmentView};
ghost use Rattle.value_stack.specs.Stacks.{named_on, entries, IsLawfulStack};
ghost use Rattle.pending_steps.specs.Shapes.{shapes_of, newest_shape, second_shape};
ghost use Rattle.pending_steps.specs.Steps.{Moves, IsNotComputed};
ghost use Rattle.selection_choices.specs.Choices.{ChoiceFits};
ghost use Rattle.selecting_steps.specs.Chosen.{ChoosesNewest, ChoosesSecond, LetsGo};

use apl_base::NoMemory;
use array_store::Store;
use pending_steps::{Halt, settle_entries};
use selection_choices::Choice;
use std::alloc::Global;
use value_stack::Stack;

/// The newest entry can't fail afterwards: where it may, every entry that may fail is computed, the oldest first.
pub fn make_safe(alloc: Global, stack: &mut Stack, store: &mut Store) -> Result<(), Halt>
    requires operand { 0 < length stack.old }
    requires lawful { IsLawfulStack store.old stack.old }
    requires held { Holds store.old (named_on stack.old) }
    ensures safe { OnOk result ((s : SegmentView)
        → slice_get stack.new (length stack.new - 1) ≡ Some s → s.may_fail ≡ false) }
    ensures halted { IfErr result
        (IsNotComputed store.old.limit (entries store.old stack.old)) }
    ensures means { entries store.new stack.new ≡ entries store.old stack.old }
    ensures moves { Moves store.old store.new stack.old stack.new none none }
    ensures shapes { OnOk result (shapes_of stack.new ≡ shapes_of stack.old) }
    ensures length { length stack.new ≡ length stack.old }
{
    let newest = stack.len() - 1;
    if stack.entry(newest).may_fail {
        settle_entries(alloc, stack, store)?;
    }
    Ok(())
}

/// The newest entry, which can't fail, gives way to what a choice makes of it.
pub fn choose_newest(choice: &Choice, stack: &mut Stack, store: &Store) -> Result<(), NoMemory>
    requires operand { 0 < length stack.old }
    requires lawful { IsLawfulStack store.now stack.old }
    requires safe { (s : SegmentView)
        → slice_get stack.old (length stack.old - 1) ≡ Some s → s.may_fail ≡ false }
    requires fits { ChoiceFits choice.now (newest_shape stack.old) }
    ensures chosen { OnOk result (ChoosesNewest choice.now (newest_shape stack.old)
        (entries store.now stack.old) (entries store.now stack.new)) }
    ensures lawful { OnOk result (IsLawfulStack store.now stack.new) }
    ensures leaves { OnOk result ((key : ℕ) → named_on stack.new key ≡ named_on stack.old key) }
{
    let Some(mut newest) = stack.pop() else {
        unreachable!()
    };
    // It tells the proof that it is a segment.
    let _functions = newest.functions();
    choice.make(&mut newest);
    stack.push(newest)
}

/// The newest entry goes, and the one below it, which can't fail, gives way to what a choice makes of it.
pub fn choose_second(choice: &Choice, stack: &mut Stack, store: &mut Store) -> Result<(), NoMemory>
    requires operands { 2 ≤ length stack.old }
    requires lawful { IsLawfulStack store.old stack.old }
    requires held { Holds store.old (named_on stack.old) }
    requires safe { (s : SegmentView)
        → slice_get stack.old (length stack.old - 2) ≡ Some s → s.may_fail ≡ false }
    requires fits { ChoiceFits choice.now (second_shape stack.old) }
    ensures chosen { OnOk result (ChoosesSecond choice.now (second_shape stack.old)
        (entries store.old stack.old) (entries store.new stack.new)) }
    ensures moves { OnOk result (Moves store.old store.new stack.old stack.new none none) }
    ensures limit { store.new.limit ≡ store.old.limit }
{
    let_newest_go(stack, store);
    choose_newest(choice, stack, store)
}

// The newest entry is let go. The others stay, and mean what they meant.
fn let_newest_go(stack: &mut Stack, store: &mut Store)
    requires operand { 0 < length stack.old }
    requires lawful { IsLawfulStack store.old stack.old }
    requires held { Holds store.old (named_on stack.old) }
    ensures goes { LetsGo store.old store.new stack.old stack.new }
    ensures moves { Moves store.old store.new stack.old stack.new none none }
{
    let Some(newest) = stack.pop() else {
        unreachable!()
    };
    newest.release(store);
}
