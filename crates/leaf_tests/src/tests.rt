//! The steps.

ghost use Rattle.leaf_steps.specs.Making.{IsMadeOfOne, IsMadeOfTwo};

use crate::operands::{counting, everywhere, newest_cells, push_unstored};
use apl_base::{Cell, Dya, Place, Shape};
use apl_model::{Axis, DyaFn, MonFn};
use array_store::Store;
use leaf_steps::{inner_product, made_one, made_two, outer_product, reduction};
use std::alloc::Global;
use std::test::Fail;
use value_stack::Stack;

const AT: Place = Place { line: 1, column: 1 };

// A function of the numbers from 0 up, so many.
fn of_one(alloc: Global, f: MonFn, count: u64, wanted: &[Cell]) -> Result<bool, Fail>
    requires { IsMadeOfOne f }
{
    let mut store = Store::new(alloc, 100);
    let mut stack = Stack::new(alloc);
    push_unstored(
        alloc,
        counting(&Shape::of(alloc, &[count])?),
        &mut stack,
        &store,
    )?;
    made_one(alloc, f, AT, 1, &mut stack, &mut store)?;
    Ok(newest_cells(alloc, &mut stack, &mut store)?.as_slice() == wanted)
}

// A function of one number so many times, and of the numbers from 0 up.
fn of_two(
    alloc: Global,
    f: DyaFn,
    left: (i8, u64),
    count: u64,
    wanted: &[Cell],
) -> Result<bool, Fail>
    requires { IsMadeOfTwo f }
{
    let mut store = Store::new(alloc, 100);
    let mut stack = Stack::new(alloc);
    let (number, many) = left;
    let repeated = everywhere(alloc, Cell::from(number), &Shape::of(alloc, &[many])?);
    push_unstored(
        alloc,
        counting(&Shape::of(alloc, &[count])?),
        &mut stack,
        &store,
    )?;
    push_unstored(alloc, repeated, &mut stack, &store)?;
    made_two(alloc, f, AT, 1, &mut stack, &mut store)?;
    Ok(newest_cells(alloc, &mut stack, &mut store)?.as_slice() == wanted)
}

#[test]
fn functions_of_one_argument(rt: HostRuntime) -> Result<(), Fail> {
    let alloc = rt.alloc();
    let iota = of_one(alloc, MonFn::Iota, 1, &[])?;
    let shape = of_one(alloc, MonFn::Shape, 3, &[3])?;
    let ravel = of_one(alloc, MonFn::Ravel, 3, &[0, 1, 2])?;
    assert!(rt; iota && shape && ravel);
    Ok(())
}

#[test]
fn gradings(rt: HostRuntime) -> Result<(), Fail> {
    let alloc = rt.alloc();
    let rising = of_one(alloc, MonFn::GradeUp, 3, &[1, 2, 3])?;
    let falling = of_one(alloc, MonFn::GradeDown, 3, &[3, 2, 1])?;
    assert!(rt; rising && falling);
    Ok(())
}

#[test]
fn elements_moved(rt: HostRuntime) -> Result<(), Fail> {
    let alloc = rt.alloc();
    let axis = Axis::Last;
    let reshaped = of_two(alloc, DyaFn::Reshape, (2, 2), 3, &[0, 1, 2, 0])?;
    let joined = of_two(alloc, DyaFn::Catenate, (7, 1), 2, &[7, 0, 1])?;
    let rotated = of_two(alloc, DyaFn::Rotate { axis }, (2, 1), 3, &[2, 0, 1])?;
    assert!(rt; reshaped && joined && rotated);
    Ok(())
}

#[test]
fn elements_chosen(rt: HostRuntime) -> Result<(), Fail> {
    let alloc = rt.alloc();
    let axis = Axis::Numbered { k: 1 };
    let compressed = of_two(alloc, DyaFn::Compress { axis }, (1, 3), 3, &[0, 1, 2])?;
    let expanded = of_two(alloc, DyaFn::Expand { axis }, (1, 3), 3, &[0, 1, 2])?;
    assert!(rt; compressed && expanded);
    Ok(())
}

#[test]
fn values(rt: HostRuntime) -> Result<(), Fail> {
    let alloc = rt.alloc();
    let indexed = of_two(alloc, DyaFn::IndexOf, (0, 2), 2, &[1, 3])?;
    let member = of_two(alloc, DyaFn::Member, (1, 2), 2, &[1, 1])?;
    assert!(rt; indexed && member);
    Ok(())
}

#[test]
fn digits(rt: HostRuntime) -> Result<(), Fail> {
    let alloc = rt.alloc();
    let encoded = of_two(alloc, DyaFn::Encode, (2, 2), 3, &[0, 0, 1, 0, 1, 0])?;
    let decoded = of_two(alloc, DyaFn::Decode, (2, 3), 3, &[4])?;
    assert!(rt; encoded && decoded);
    Ok(())
}

// `f/` of the numbers from 0 up.
fn reduced(alloc: Global, f: Dya, count: u64) -> Result<Vec<Cell>, Fail> {
    let mut store = Store::new(alloc, 100);
    let mut stack = Stack::new(alloc);
    push_unstored(
        alloc,
        counting(&Shape::of(alloc, &[count])?),
        &mut stack,
        &store,
    )?;
    reduction(alloc, f, Axis::Last, AT, 1, &mut stack, &mut store)?;
    Ok(newest_cells(alloc, &mut stack, &mut store)?)
}

// `f.g` of the numbers from 0 up and themselves.
fn inner(alloc: Global, f: Dya, g: Dya, count: u64) -> Result<Vec<Cell>, Fail> {
    let mut store = Store::new(alloc, 100);
    let mut stack = Stack::new(alloc);
    let shape = Shape::of(alloc, &[count])?;
    push_unstored(alloc, counting(&shape), &mut stack, &store)?;
    push_unstored(alloc, counting(&shape), &mut stack, &store)?;
    inner_product(alloc, f, g, AT, &mut stack, &mut store)?;
    Ok(newest_cells(alloc, &mut stack, &mut store)?)
}

// `∘.f` of the numbers from 0 up and themselves.
fn outer(alloc: Global, f: Dya, count: u64) -> Result<Vec<Cell>, Fail> {
    let mut store = Store::new(alloc, 100);
    let mut stack = Stack::new(alloc);
    let shape = Shape::of(alloc, &[count])?;
    push_unstored(alloc, counting(&shape), &mut stack, &store)?;
    push_unstored(alloc, counting(&shape), &mut stack, &store)?;
    outer_product(alloc, f, AT, &mut stack, &mut store)?;
    Ok(newest_cells(alloc, &mut stack, &mut store)?)
}

#[test]
fn products(rt: HostRuntime) -> Result<(), Fail> {
    let alloc = rt.alloc();
    let difference = reduced(alloc, Dya::Sub, 3)?;
    assert!(rt; difference.as_slice() == [1].as_slice());
    let product = inner(alloc, Dya::Add, Dya::Mul, 3)?;
    assert!(rt; product.as_slice() == [5].as_slice());
    let table = outer(alloc, Dya::Sub, 2)?;
    assert!(rt; table.as_slice() == [0, -1, 1, 0].as_slice());
    Ok(())
}
