//! Selections by functions of one argument.

ghost use Rattle.std.specs.Prelude.{◌≡◌, ◌≤◌, ◌<◌, length, OnOk, IfOk, IfErr};
ghost use Rattle.array_store.specs.Follows.{Holds, none};
ghost use Rattle.value_stack.specs.Stacks.{named_on, entries, IsLawfulStack};
ghost use Rattle.apl_model.specs.Evaluation.{monadic_value};
ghost use Rattle.apl_model_laws.specs.Lawful.{IsOrigin};
ghost use Rattle.apl_compile.specs.declared.codes.Op.TheVariants.{Mon};
ghost use Rattle.pending_steps.specs.Shapes.{newest_shape};
ghost use Rattle.pending_steps.specs.Steps.{Moves, Reaches};
ghost use Rattle.leaf_steps.specs.Origins.{StepsFrom, IsHaltedFrom};
ghost use Rattle.selection_choices.specs.Choices.{SelectsOne, Chooses, Errs};

use crate::entries::{choose_newest, make_safe};
use apl_base::{Cell, ErrorKind, Place};
use apl_model::MonFn;
use array_store::Store;
use pending_steps::{Halt, settle_entries};
use selection_choices::{Choice, choose_one};
use std::alloc::Global;
use value_stack::Stack;

/// `⌽`, `⊖` or `⍉` of the newest entry: a selection from it, through all its functions. No element is computed, but
/// where it may fail: then every entry that may fail is computed before, the oldest first. RANK ERROR, where there is no
/// such axis, comes after the fault of any entry.
pub fn select_one(
    alloc: Global,
    f: MonFn,
    place: Place,
    origin: Cell,
    stack: &mut Stack,
    store: &mut Store,
) -> Result<(), Halt>
    requires selects { SelectsOne f }
    requires origin { IsOrigin origin }
    requires operand { 1 ≤ length stack.old }
    requires lawful { IsLawfulStack store.old stack.old }
    requires held { Holds store.old (named_on stack.old) }
    ensures step { OnOk result (StepsFrom origin (record { place = place; op = Mon f }) 1 1
        (entries store.old stack.old) (entries store.new stack.new)) }
    ensures moves { Reaches result (Moves store.old store.new stack.old stack.new none none) }
    ensures halted { IfErr result (IsHaltedFrom origin (record { place = place; op = Mon f }) 1
        store.old.limit (entries store.old stack.old)) }
    ensures limit { store.new.limit ≡ store.old.limit }
{
    let choice = match choice_of_newest(f, origin, stack) {
        Ok(choice) => choice,
        Err(kind) => return Err(refuse(alloc, f, kind, place, origin, stack, store)),
    };
    make_safe(alloc, stack, store)?;
    choose_newest(&choice, stack, store)?;
    Ok(())
}

// What the function makes of the newest entry.
fn choice_of_newest(f: MonFn, origin: Cell, stack: &Stack) -> Result<Choice, ErrorKind>
    requires selects { SelectsOne f }
    requires origin { IsOrigin origin }
    requires operand { 1 ≤ length stack.now }
    ensures chooses { IfOk result
        (Chooses (monadic_value origin f) (newest_shape stack.now)) }
    ensures refused { IfErr result
        (Errs (monadic_value origin f) (newest_shape stack.now)) }
{
    let newest = stack.len() - 1;
    choose_one(f, origin, &stack.entry(newest).shape)
}

// The error of the function, after the fault of any entry.
fn refuse(
    alloc: Global,
    f: MonFn,
    kind: ErrorKind,
    place: Place,
    origin: Cell,
    stack: &mut Stack,
    store: &mut Store,
) -> Halt
    requires operand { 1 ≤ length stack.old }
    requires lawful { IsLawfulStack store.old stack.old }
    requires held { Holds store.old (named_on stack.old) }
    requires errs { Errs (monadic_value origin f) (newest_shape stack.old) kind }
    ensures halted { IsHaltedFrom origin (record { place = place; op = Mon f }) 1
        store.old.limit (entries store.old stack.old) result }
    ensures moves { Moves store.old store.new stack.old stack.new none none }
{
    match settle_entries(alloc, stack, store) {
        Ok(()) => Halt::Error { kind, place },
        Err(halt) => halt,
    }
}
