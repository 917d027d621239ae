//! Functions of one argument that are made at once.

ghost use Rattle.std.specs.Prelude.{◌≡◌, ◌≤◌, length, IfErr, OnOk};
ghost use Rattle.array_store.specs.Follows.{Holds, none};
ghost use Rattle.drag_along.specs.Lawful.{IsLawfulLeaf};
ghost use Rattle.value_stack.specs.Stacks.{named_on, entries, IsLawfulStack};
ghost use Rattle.leaf_names.specs.Variables.{array_of};
ghost use Rattle.apl_model.specs.Evaluation.{monadic_value};
ghost use Rattle.apl_model_laws.specs.Lawful.{IsOrigin};
ghost use Rattle.apl_compile.specs.declared.codes.Op.TheVariants.{Mon};
ghost use Rattle.pending_steps.specs.Steps.{Moves, Reaches};
ghost use Rattle.leaf_steps.specs.Making.{IsMade, IsMadeOfOne};
ghost use Rattle.leaf_steps.specs.Origins.{StepsFrom, IsHaltedFrom};

use crate::puts::put_made;
use crate::takes::take_one;
use apl_base::{Cell, Place};
use apl_model::MonFn;
use array_store::Store;
use drag_along::Leaf;
use made_fns::{iota, ravel, shape_of};
use made_leaf::MadeFault;
use pending_steps::Halt;
use std::alloc::Global;
use value_fns::grade;
use value_stack::Stack;

/// A function of the newest entry that is made at once: `⍴B`, `,B`, `⍳B`, `⍋B` or `⍒B`. Every entry that may fail is
/// computed before, and then the argument; the function's error comes after these.
pub fn made_one(
    alloc: Global,
    f: MonFn,
    place: Place,
    origin: Cell,
    stack: &mut Stack,
    store: &mut Store,
) -> Result<(), Halt>
    requires function { IsMadeOfOne f }
    requires origin { IsOrigin origin }
    requires operands { 1 ≤ length stack.old }
    requires lawful { IsLawfulStack store.old stack.old }
    requires held { Holds store.old (named_on stack.old) }
    ensures step { OnOk result (StepsFrom origin (record { place = place; op = Mon f }) 1 1
        (entries store.old stack.old) (entries store.new stack.new)) }
    ensures moves { Reaches result (Moves store.old store.new stack.old stack.new none none) }
    ensures halted { IfErr result (IsHaltedFrom origin (record { place = place; op = Mon f }) 1
        store.old.limit (entries store.old stack.old)) }
    ensures limit { store.new.limit ≡ store.old.limit }
{
    let b = take_one(alloc, stack, store)?;
    let made = value_of_one(f, &b, origin, store);
    b.release(store);
    put_made(alloc, made, place, stack, store)
}

// The value of a function of one argument that is made at once.
fn value_of_one(f: MonFn, b: &Leaf, origin: Cell, store: &mut Store) -> Result<Leaf, MadeFault>
    requires function { IsMadeOfOne f }
    requires origin { IsOrigin origin }
    requires lawful { IsLawfulLeaf store.old b.now }
    ensures { IsMade store.old store.new
        (monadic_value origin f (array_of store.old b.now)) result }
{
    match f {
        MonFn::Iota => Ok(iota(b, origin, store)?),
        MonFn::Shape => shape_of(b, store),
        MonFn::Ravel => ravel(b, store),
        MonFn::GradeUp => grade(b, false, origin, store),
        MonFn::GradeDown => grade(b, true, origin, store),
        MonFn::Scalar { .. } | MonFn::Reverse { .. } | MonFn::Transpose => unreachable!(),
    }
}
