//! Each call once with ample memory, over a stored array and one of numbers that are not stored.

ghost use Rattle.std.specs.Prelude.{◌≡◌, [], length, All, IfOk};
ghost use Rattle.apl_base.specs.Number.{IsNumber};
ghost use Rattle.array_store.specs.Stores.{StoreView};
ghost use Rattle.drag_along.specs.Lawful.{IsLawfulLeaf};

use crate::{decode, encode, grade, index_of, member};
use apl_base::{Cell, ErrorKind, Kind, Shape, TooLarge};
use array_desc::Desc;
use array_store::Store;
use drag_along::{Leaf, whole_view};
use made_leaf::{MadeFault, read_cells};
use std::alloc::{AllocError, Global};
use std::test::Fail;

fn filled(mut cells: Vec<Cell>, values: &[i8]) -> Result<Vec<Cell>, AllocError>
    requires { cells.items ≡ [] }
    ensures lawful { IfOk result (λ v. All IsNumber v.items) }
    ensures count { IfOk result (λ v. length v.items ≡ length values.now) }
{
    for value in values {
        cells.push(Cell::from(*value))?;
    }
    Ok(cells)
}

// A vector of these numbers in an owner of its own.
fn stored(store: &mut Store, shape: &Shape, values: &[i8]) -> Result<Leaf, Fail>
    ensures lawful { IfOk result (IsLawfulLeaf store.new) }
{
    if values.len() as u64 != shape.size() {
        return Err(Fail::from(TooLarge));
    }
    let cells = filled(store.begin(shape.size())?, values)?;
    let owner = store.make(cells, Kind::Num)?;
    Ok(whole_view(owner, shape, Kind::Num))
}

// The numbers from 0 up, in row-major order.
fn counting(shape: &Shape) -> Leaf
    ensures lawful { (store : StoreView) → IsLawfulLeaf store result }
{
    Leaf::Gen {
        desc: Desc::whole(shape),
        kind: Kind::Num,
    }
}

// One number everywhere.
fn everywhere(alloc: Global, number: Cell, shape: &Shape) -> Leaf
    requires { IsNumber number }
    ensures lawful { (store : StoreView) → IsLawfulLeaf store result }
{
    let mut desc = Desc::one(alloc, number);
    desc.extend(shape);
    Leaf::Gen {
        desc,
        kind: Kind::Num,
    }
}

// Whether `A⍳B` with the numbers from 0 up as A gives these places.
fn places_are(alloc: Global, count: u64, wanted: &[i8], places: &[Cell]) -> Result<bool, Fail> {
    let mut store = Store::new(alloc, 100);
    let b = stored(
        &mut store,
        &Shape::of(alloc, &[wanted.len() as u64])?,
        wanted,
    )?;
    let a = counting(&Shape::of(alloc, &[count])?);
    let made = index_of(&a, &b, 1, &mut store)?;
    Ok(read_cells(&made, &mut store)?.as_slice() == places)
}

// Whether `A∈B` with the numbers from 0 up as B gives these tests.
fn tests_are(alloc: Global, count: u64, values: &[i8], tests: &[Cell]) -> Result<bool, Fail> {
    let mut store = Store::new(alloc, 100);
    let a = stored(
        &mut store,
        &Shape::of(alloc, &[values.len() as u64])?,
        values,
    )?;
    let b = counting(&Shape::of(alloc, &[count])?);
    let made = member(&a, &b, &mut store)?;
    Ok(read_cells(&made, &mut store)?.as_slice() == tests)
}

// Whether `⍋B` or `⍒B` gives these places, counted from 0.
fn order_is(alloc: Global, values: &[i8], down: bool, places: &[Cell]) -> Result<bool, Fail> {
    let mut store = Store::new(alloc, 100);
    let b = stored(
        &mut store,
        &Shape::of(alloc, &[values.len() as u64])?,
        values,
    )?;
    let made = grade(&b, down, 0, &mut store)?;
    Ok(read_cells(&made, &mut store)?.as_slice() == places)
}

// Whether `10⊥B` gives this number.
fn number_is(alloc: Global, digits: &[i8], number: &[Cell]) -> Result<bool, Fail> {
    let mut store = Store::new(alloc, 100);
    let b = stored(
        &mut store,
        &Shape::of(alloc, &[digits.len() as u64])?,
        digits,
    )?;
    let a = everywhere(alloc, 10, &Shape::of(alloc, &[])?);
    let made = decode(&a, &b, &mut store)?;
    Ok(read_cells(&made, &mut store)?.as_slice() == number)
}

// Whether `10 10 10⊤B` gives these digits.
fn digits_are(alloc: Global, values: &[i8], digits: &[Cell]) -> Result<bool, Fail> {
    let mut store = Store::new(alloc, 100);
    let b = stored(
        &mut store,
        &Shape::of(alloc, &[values.len() as u64])?,
        values,
    )?;
    let a = everywhere(alloc, 10, &Shape::of(alloc, &[3])?);
    let made = encode(&a, &b, &mut store)?;
    Ok(read_cells(&made, &mut store)?.as_slice() == digits)
}

#[test]
fn answers(rt: HostRuntime) -> Result<(), Fail> {
    let alloc = rt.alloc();
    let few = places_are(alloc, 4, &[2, 9, 0], &[3, 5, 1])?;
    let many = places_are(
        alloc,
        9,
        &[8, 0, 8, 1, -1, 5, 9, 3, 4],
        &[9, 1, 9, 2, 10, 6, 10, 4, 5],
    )?;
    let among = tests_are(alloc, 3, &[2, 3, 0, -1], &[1, 0, 1, 0])?;
    let rising = order_is(alloc, &[3, 1, 2, 1], false, &[1, 3, 2, 0])?;
    let falling = order_is(alloc, &[3, 1, 2, 1], true, &[0, 2, 1, 3])?;
    let number = number_is(alloc, &[1, -2, 3], &[83])?;
    let digits = digits_are(alloc, &[123, -1], &[1, 9, 2, 9, 3, 9])?;
    assert!(rt; few && many);
    assert!(rt; among && rising && falling);
    assert!(rt; number && digits);
    Ok(())
}
