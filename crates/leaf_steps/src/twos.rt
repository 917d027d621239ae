//! Functions of two arguments that are made at once.

ghost use Rattle.std.specs.Prelude.{◌≡◌, ◌≤◌, length, IfErr, OnOk};
ghost use Rattle.array_store.specs.Follows.{Holds, none};
ghost use Rattle.drag_along.specs.Lawful.{IsLawfulLeaf};
ghost use Rattle.value_stack.specs.Stacks.{named_on, entries, IsLawfulStack};
ghost use Rattle.leaf_names.specs.Variables.{array_of};
ghost use Rattle.apl_model.specs.Evaluation.{dyadic_value};
ghost use Rattle.apl_model_laws.specs.Lawful.{IsOrigin};
ghost use Rattle.apl_compile.specs.declared.codes.Op.TheVariants.{Dya};
ghost use Rattle.pending_steps.specs.Steps.{Moves, Reaches};
ghost use Rattle.leaf_steps.specs.Making.{IsMade, IsMadeOfTwo};
ghost use Rattle.leaf_steps.specs.Origins.{StepsFrom, IsHaltedFrom};

use crate::axes::counted_from_one;
use crate::puts::put_made;
use crate::takes::take_two;
use apl_base::{Cell, Place};
use apl_model::{Axis, DyaFn};
use array_store::Store;
use drag_along::Leaf;
use made_fns::{catenate, compress, expand, reshape, rotate};
use made_leaf::MadeFault;
use pending_steps::Halt;
use std::alloc::Global;
use value_fns::{decode, encode, index_of, member};
use value_stack::Stack;

/// A function of the two newest entries that is made at once, the left argument the newest: `A⍴B`, `A,B`, `A⌽B`, `A/B`,
/// `A\B`, `A⍳B`, `A∈B`, `A⊤B` or `A⊥B`. Every entry that may fail is computed before, and then both arguments, the left
/// one first; the function's error comes after these.
pub fn made_two(
    alloc: Global,
    f: DyaFn,
    place: Place,
    origin: Cell,
    stack: &mut Stack,
    store: &mut Store,
) -> Result<(), Halt>
    requires function { IsMadeOfTwo f }
    requires origin { IsOrigin origin }
    requires operands { 2 ≤ length stack.old }
    requires lawful { IsLawfulStack store.old stack.old }
    requires held { Holds store.old (named_on stack.old) }
    ensures step { OnOk result (StepsFrom origin (record { place = place; op = Dya f }) 2 1
        (entries store.old stack.old) (entries store.new stack.new)) }
    ensures moves { Reaches result (Moves store.old store.new stack.old stack.new none none) }
    ensures halted { IfErr result (IsHaltedFrom origin (record { place = place; op = Dya f }) 2
        store.old.limit (entries store.old stack.old)) }
    ensures limit { store.new.limit ≡ store.old.limit }
{
    let arguments = take_two(alloc, stack, store)?;
    let made = value_of_two(f, &arguments.left, &arguments.right, origin, store);
    arguments.release(store);
    put_made(alloc, made, place, stack, store)
}

// The value of a function of two arguments that is made at once.
fn value_of_two(
    f: DyaFn,
    a: &Leaf,
    b: &Leaf,
    origin: Cell,
    store: &mut Store,
) -> Result<Leaf, MadeFault>
    requires function { IsMadeOfTwo f }
    requires origin { IsOrigin origin }
    requires left { IsLawfulLeaf store.old a.now }
    requires right { IsLawfulLeaf store.old b.now }
    ensures { IsMade store.old store.new
        (dyadic_value origin f (array_of store.old a.now) (array_of store.old b.now)) result }
{
    // It tells the proof how many axes there can be.
    let _rank = b.desc().shape.rank();
    match f {
        DyaFn::Reshape => reshape(a, b, store),
        DyaFn::Catenate => catenate(a, b, store),
        DyaFn::Rotate { axis } => rotate(a, b, counted_from_one(axis, origin), store),
        DyaFn::Compress { axis } => compress(a, b, counted_from_one(axis, origin), store),
        DyaFn::Expand { axis } => expand(a, b, counted_from_one(axis, origin), store),
        DyaFn::IndexOf => index_of(a, b, origin, store),
        DyaFn::Member => member(a, b, store),
        DyaFn::Encode => encode(a, b, store),
        DyaFn::Decode => decode(a, b, store),
        DyaFn::Scalar { .. } | DyaFn::Transpose | DyaFn::Take | DyaFn::Skip => unreachable!(),
    }
}
