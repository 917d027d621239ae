//! Reductions, inner and outer products.

ghost use Rattle.std.specs.Prelude.{◌≡◌, ℤ, ◌≤◌, length, IfErr, OnOk};
ghost use Rattle.array_store.specs.Follows.{Holds, none};
ghost use Rattle.drag_along.specs.Lawful.{IsLawfulLeaf};
ghost use Rattle.value_stack.specs.Stacks.{named_on, entries, IsLawfulStack};
ghost use Rattle.leaf_names.specs.Variables.{array_of};
ghost use Rattle.apl_model.specs.Product as language;
ghost use Rattle.apl_model_laws.specs.Lawful.{IsOrigin};
ghost use Rattle.apl_compile.specs.declared.codes.Op.TheVariants.{Red, Inner, Outer};
ghost use Rattle.pending_steps.specs.Steps.{Moves, Reaches};
ghost use Rattle.leaf_steps.specs.Making.{IsMade};
ghost use Rattle.leaf_steps.specs.Origins.{StepsFrom, IsHaltedFrom};

use crate::axes::counted_from_one;
use crate::puts::put_made;
use crate::takes::{take_one, take_two};
use apl_base::{Cell, Dya, ErrorKind, Place};
use apl_model::Axis;
use array_store::Store;
use drag_along::Leaf;
use made_leaf::MadeFault;
use pending_steps::Halt;
use product_fns::{OuterFault, inner, outer, reduce};
use std::alloc::Global;
use value_stack::Stack;

/// `f/B` of the newest entry along an axis. Every entry that may fail is computed before, and then the argument; the
/// reduction's error comes after these.
pub fn reduction(
    alloc: Global,
    f: Dya,
    axis: Axis,
    place: Place,
    origin: Cell,
    stack: &mut Stack,
    store: &mut Store,
) -> Result<(), Halt>
    requires origin { IsOrigin origin }
    requires operands { 1 ≤ length stack.old }
    requires lawful { IsLawfulStack store.old stack.old }
    requires held { Holds store.old (named_on stack.old) }
    ensures step { OnOk result (StepsFrom origin (record { place = place; op = Red f axis }) 1 1
        (entries store.old stack.old) (entries store.new stack.new)) }
    ensures moves { Reaches result (Moves store.old store.new stack.old stack.new none none) }
    ensures halted { IfErr result (IsHaltedFrom origin (record { place = place; op = Red f axis }) 1
        store.old.limit (entries store.old stack.old)) }
    ensures limit { store.new.limit ≡ store.old.limit }
{
    let b = take_one(alloc, stack, store)?;
    let made = reduced(f, axis, &b, origin, store);
    b.release(store);
    put_made(alloc, made, place, stack, store)
}

// The value of a reduction.
fn reduced(f: Dya, axis: Axis, b: &Leaf, origin: Cell, store: &mut Store) -> Result<Leaf, MadeFault>
    requires origin { IsOrigin origin }
    requires lawful { IsLawfulLeaf store.old b.now }
    ensures { IsMade store.old store.new
        (language.reduce origin f axis (array_of store.old b.now)) result }
{
    // It tells the proof how many axes there can be.
    let _rank = b.desc().shape.rank();
    reduce(f, counted_from_one(axis, origin), b, store)
}

/// `A f.g B` of the two newest entries, the left argument the newest. Every entry that may fail is computed before, and
/// then both arguments, the left one first; the product's error comes after these.
pub fn inner_product(
    alloc: Global,
    f: Dya,
    g: Dya,
    place: Place,
    stack: &mut Stack,
    store: &mut Store,
) -> Result<(), Halt>
    requires operands { 2 ≤ length stack.old }
    requires lawful { IsLawfulStack store.old stack.old }
    requires held { Holds store.old (named_on stack.old) }
    ensures step { (origin : ℤ) → OnOk result
        (StepsFrom origin (record { place = place; op = Inner f g }) 2 1
        (entries store.old stack.old) (entries store.new stack.new)) }
    ensures moves { Reaches result (Moves store.old store.new stack.old stack.new none none) }
    ensures halted { (origin : ℤ) → IfErr result
        (IsHaltedFrom origin (record { place = place; op = Inner f g }) 2
        store.old.limit (entries store.old stack.old)) }
    ensures limit { store.new.limit ≡ store.old.limit }
{
    let arguments = take_two(alloc, stack, store)?;
    let made = multiplied(f, g, &arguments.left, &arguments.right, store);
    arguments.release(store);
    put_made(alloc, made, place, stack, store)
}

// The value of an inner product.
fn multiplied(f: Dya, g: Dya, a: &Leaf, b: &Leaf, store: &mut Store) -> Result<Leaf, MadeFault>
    requires left { IsLawfulLeaf store.old a.now }
    requires right { IsLawfulLeaf store.old b.now }
    ensures { IsMade store.old store.new
        (language.inner f g (array_of store.old a.now) (array_of store.old b.now)) result }
{
    inner(f, g, a, b, store)
}

/// `A∘.f B` of the two newest entries, the left argument the newest, deferred: no element is computed. Every entry that
/// may fail is computed before, and then both arguments, the left one first; LIMIT ERROR comes after these.
pub fn outer_product(
    alloc: Global,
    f: Dya,
    place: Place,
    stack: &mut Stack,
    store: &mut Store,
) -> Result<(), Halt>
    requires operands { 2 ≤ length stack.old }
    requires lawful { IsLawfulStack store.old stack.old }
    requires held { Holds store.old (named_on stack.old) }
    ensures step { (origin : ℤ) → OnOk result
        (StepsFrom origin (record { place = place; op = Outer f }) 2 1
        (entries store.old stack.old) (entries store.new stack.new)) }
    ensures moves { Reaches result (Moves store.old store.new stack.old stack.new none none) }
    ensures halted { (origin : ℤ) → IfErr result
        (IsHaltedFrom origin (record { place = place; op = Outer f }) 2
        store.old.limit (entries store.old stack.old)) }
    ensures limit { store.new.limit ≡ store.old.limit }
{
    let arguments = take_two(alloc, stack, store)?;
    match outer(f, arguments.left, arguments.right, place, store) {
        Ok(segment) => Ok(stack.push(segment)?),
        Err(OuterFault::Limit) => Err(Halt::Error {
            kind: ErrorKind::Limit,
            place,
        }),
        Err(OuterFault::NoMemory) => Err(Halt::NoMemory),
    }
}
