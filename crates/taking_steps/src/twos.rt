//! Functions of two arguments that select from the right one.

ghost use Rattle.std.specs.Prelude.{◌≡◌, ◌≤◌, length, OnOk, IfErr};
ghost use Rattle.array_store.specs.Follows.{Holds, none};
ghost use Rattle.value_stack.specs.Stacks.{named_on, entries, IsLawfulStack};
ghost use Rattle.apl_model.specs.declared.functions.DyaFn.TheVariants.{Take};
ghost use Rattle.apl_model_laws.specs.Lawful.{IsOrigin};
ghost use Rattle.apl_compile.specs.declared.codes.Op.TheVariants.{Dya};
ghost use Rattle.pending_steps.specs.Steps.{Moves, Reaches};
ghost use Rattle.leaf_steps.specs.Origins.{StepsFrom, IsHaltedFrom};
ghost use Rattle.selection_choices.specs.Choices.{SelectsTwo};

use apl_base::{Cell, Place};
use apl_model::DyaFn;
use array_store::Store;
use leaf_steps::{put_made, take_two};
use made_picks::overtake;
use pending_steps::Halt;
use selecting_steps::select_fitting;
use std::alloc::Global;
use value_stack::Stack;

/// `A⍉B`, `A↑B` or `A↓B` of the two newest entries, the left argument the newest: a selection through all functions of
/// the right one where it fits; counts that don't fit are taken at once, of both arguments as leaves.
pub fn select_two(
    alloc: Global,
    f: DyaFn,
    place: Place,
    origin: Cell,
    stack: &mut Stack,
    store: &mut Store,
) -> Result<(), Halt>
    requires selects { SelectsTwo f }
    requires origin { IsOrigin origin }
    requires operands { 2 ≤ length stack.old }
    requires lawful { IsLawfulStack store.old stack.old }
    requires held { Holds store.old (named_on stack.old) }
    ensures step { OnOk result (StepsFrom origin (record { place = place; op = Dya f }) 2 1
        (entries store.old stack.old) (entries store.new stack.new)) }
    ensures moves { Reaches result (Moves store.old store.new stack.old stack.new none none) }
    ensures halted { IfErr result (IsHaltedFrom origin (record { place = place; op = Dya f }) 2
        store.old.limit (entries store.old stack.old)) }
    ensures limit { store.new.limit ≡ store.old.limit }
{
    if select_fitting(alloc, f, place, origin, stack, store)? {
        return Ok(());
    }
    overtake_newest(alloc, place, origin, stack, store)
}

// A take that is made at once, of both arguments as leaves.
fn overtake_newest(
    alloc: Global,
    place: Place,
    origin: Cell,
    stack: &mut Stack,
    store: &mut Store,
) -> Result<(), Halt>
    requires origin { IsOrigin origin }
    requires operands { 2 ≤ length stack.old }
    requires lawful { IsLawfulStack store.old stack.old }
    requires held { Holds store.old (named_on stack.old) }
    ensures step { OnOk result (StepsFrom origin (record { place = place; op = Dya Take }) 2 1
        (entries store.old stack.old) (entries store.new stack.new)) }
    ensures moves { Reaches result (Moves store.old store.new stack.old stack.new none none) }
    ensures halted { IfErr result (IsHaltedFrom origin (record { place = place; op = Dya Take }) 2
        store.old.limit (entries store.old stack.old)) }
    ensures limit { store.new.limit ≡ store.old.limit }
{
    let arguments = take_two(alloc, stack, store)?;
    let made = overtake(&arguments.left, &arguments.right, store);
    arguments.release(store);
    put_made(alloc, made, place, stack, store)
}
