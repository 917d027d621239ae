//! One worked call of each function, with ample memory and no room to spare.
ghost use Rattle.std.specs.Prelude.{◌≡◌, IfOk};
ghost use Rattle.array_store.specs.Stores.{StoreView};
ghost use Rattle.drag_along.specs.Lawful.{IsLawfulLeaf};
ghost use Rattle.drag_along.specs.Nodes.{leaf_shape};

use crate::{catenate, compress, expand, iota, ravel, reshape, rotate, shape_of};
use apl_base::{Cell, ErrorKind, Kind, Shape};
use apl_model::Axis;
use array_desc::Desc;
use array_store::Store;
use drag_along::Leaf;
use made_leaf::{MadeFault, read_block};
use std::alloc::Global;
use std::test::Fail;

// The numbers from 0 up, in row-major order.
fn counting(alloc: Global, lengths: &[u64]) -> Result<Leaf, Fail>
    ensures lawful { IfOk result (λ leaf. (store : StoreView) → IsLawfulLeaf store leaf) }
{
    let shape = Shape::of(alloc, lengths)?;
    Ok(Leaf::Gen {
        desc: Desc::whole(&shape),
        kind: Kind::Num,
    })
}

// Whether a leaf has these lengths, and its owner these cells.
fn is_made(leaf: &Leaf, lengths: &[u64], cells: &[Cell], store: &mut Store) -> bool
    requires { IsLawfulLeaf store.old leaf.now }
{
    let mut read = [0; 6];
    let count = leaf.desc().size() as usize;
    if count > 6 || count != cells.len() {
        return false;
    }
    read_block(leaf, 0, store, &mut read[..count]);
    leaf.desc().shape.lengths() == lengths && &read[..count] == cells
}

// The vector 2 2.
fn twos(alloc: Global) -> Leaf
    ensures lawful { (store : StoreView) → IsLawfulLeaf store result }
{
    Leaf::Gen {
        desc: Desc::line(alloc, 2, 0, 2),
        kind: Kind::Num,
    }
}

fn turns_lines(alloc: Global) -> Result<bool, Fail> {
    let mut store = Store::new(alloc, 6);
    let by = counting(alloc, &[2])?;
    let table = counting(alloc, &[2, 3])?;
    let made = rotate(&by, &table, Axis::Last, &mut store)?;
    Ok(is_made(&made, &[2, 3], &[0, 1, 2, 4, 5, 3], &mut store))
}

fn keeps_a_column(alloc: Global) -> Result<bool, Fail> {
    let mut store = Store::new(alloc, 3);
    let bits = counting(alloc, &[2])?;
    let table = counting(alloc, &[3, 2])?;
    let made = compress(&bits, &table, Axis::Last, &mut store)?;
    Ok(is_made(&made, &[3, 1], &[1, 3, 5], &mut store))
}

fn spaces_a_row(alloc: Global) -> Result<bool, Fail> {
    let mut store = Store::new(alloc, 6);
    let bits = counting(alloc, &[2])?;
    let row = counting(alloc, &[1, 3])?;
    let made = expand(&bits, &row, Axis::First, &mut store)?;
    Ok(is_made(&made, &[2, 3], &[0, 0, 0, 0, 1, 2], &mut store))
}

fn repeats_elements(alloc: Global) -> Result<bool, Fail> {
    let mut store = Store::new(alloc, 4);
    let by = twos(alloc);
    let vector = counting(alloc, &[3])?;
    let made = reshape(&by, &vector, &mut store)?;
    Ok(is_made(&made, &[2, 2], &[0, 1, 2, 0], &mut store))
}

fn joins_vectors(alloc: Global) -> Result<bool, Fail> {
    let mut store = Store::new(alloc, 5);
    let first = counting(alloc, &[2])?;
    let second = counting(alloc, &[3])?;
    let made = catenate(&first, &second, &mut store)?;
    Ok(is_made(&made, &[5], &[0, 1, 0, 1, 2], &mut store))
}

fn lists_elements(alloc: Global) -> Result<bool, Fail> {
    let mut store = Store::new(alloc, 6);
    let table = counting(alloc, &[2, 3])?;
    let made = ravel(&table, &mut store)?;
    Ok(is_made(&made, &[6], &[0, 1, 2, 3, 4, 5], &mut store))
}

fn lists_lengths(alloc: Global) -> Result<bool, Fail> {
    let mut store = Store::new(alloc, 2);
    let table = counting(alloc, &[2, 3])?;
    let made = shape_of(&table, &mut store)?;
    Ok(is_made(&made, &[2], &[2, 3], &mut store))
}

// The numbers 2 1 0, read backwards from a vector.
fn falling(alloc: Global) -> Result<Leaf, Fail>
    ensures lawful { IfOk result (λ leaf. (store : StoreView) → IsLawfulLeaf store leaf) }
{
    let shape = Shape::of(alloc, &[3])?;
    let mut desc = Desc::whole(&shape);
    desc.reverse(0);
    Ok(Leaf::Gen {
        desc,
        kind: Kind::Num,
    })
}

fn lists_a_selection(alloc: Global) -> Result<bool, Fail> {
    let mut store = Store::new(alloc, 3);
    let vector = falling(alloc)?;
    let made = ravel(&vector, &mut store)?;
    Ok(is_made(&made, &[3], &[2, 1, 0], &mut store))
}

// The vector with ¯1 alone.
fn minus_one(alloc: Global) -> Leaf
    ensures lawful { (store : StoreView) → IsLawfulLeaf store result }
{
    Leaf::Gen {
        desc: Desc::line(alloc, -1, 0, 1),
        kind: Kind::Num,
    }
}

// The vector of nine ones.
fn nine_ones(alloc: Global) -> Leaf
    ensures lawful { (store : StoreView) → IsLawfulLeaf store result }
{
    Leaf::Gen {
        desc: Desc::line(alloc, 1, 0, 9),
        kind: Kind::Num,
    }
}

// Whether an answer is this error.
fn is_error(answer: Result<Leaf, MadeFault>, kind: ErrorKind) -> bool {
    answer.err() == Some(MadeFault::Error { kind })
}

fn refuses_shapes(alloc: Global) -> Result<bool, Fail> {
    let mut store = Store::new(alloc, 0);
    let none = counting(alloc, &[0])?;
    let negative = minus_one(alloc);
    let many = nine_ones(alloc);
    let domain = reshape(&negative, &none, &mut store);
    let length = reshape(&many, &none, &mut store);
    Ok(is_error(domain, ErrorKind::Domain) && is_error(length, ErrorKind::Length))
}

fn refuses_too_many_axes(alloc: Global) -> Result<bool, Fail> {
    let mut store = Store::new(alloc, 0);
    let vector = counting(alloc, &[2])?;
    let many = nine_ones(alloc);
    Ok(is_error(reshape(&many, &vector, &mut store), ErrorKind::Limit))
}

fn refuses_turns(alloc: Global) -> Result<bool, Fail> {
    let mut store = Store::new(alloc, 0);
    let by = counting(alloc, &[2])?;
    let table = counting(alloc, &[2, 3])?;
    let axis = rotate(&by, &table, Axis::Numbered { k: 3 }, &mut store);
    let length = rotate(&by, &table, Axis::First, &mut store);
    Ok(is_error(axis, ErrorKind::Rank) && is_error(length, ErrorKind::Length))
}

fn refuses_to_keep(alloc: Global) -> Result<bool, Fail> {
    let mut store = Store::new(alloc, 0);
    let numbers = counting(alloc, &[3])?;
    let table = counting(alloc, &[2, 2])?;
    let length = compress(&numbers, &table, Axis::Last, &mut store);
    let domain = compress(&numbers, &numbers, Axis::Last, &mut store);
    Ok(is_error(length, ErrorKind::Length) && is_error(domain, ErrorKind::Domain))
}

fn refuses_to_space(alloc: Global) -> Result<bool, Fail> {
    let mut store = Store::new(alloc, 0);
    let bits = counting(alloc, &[2])?;
    let numbers = counting(alloc, &[3])?;
    let length = expand(&bits, &numbers, Axis::Last, &mut store);
    let domain = expand(&numbers, &bits, Axis::Last, &mut store);
    Ok(is_error(length, ErrorKind::Length) && is_error(domain, ErrorKind::Domain))
}

fn refuses_a_table(alloc: Global) -> Result<bool, Fail> {
    let mut store = Store::new(alloc, 0);
    let vector = counting(alloc, &[2])?;
    let table = counting(alloc, &[2, 3])?;
    Ok(is_error(catenate(&vector, &table, &mut store), ErrorKind::Rank))
}

fn refuses_numbers(alloc: Global) -> bool {
    let mut store = Store::new(alloc, 0);
    let two = iota(&twos(alloc), 1, &mut store).err();
    let negative = iota(&minus_one(alloc), 1, &mut store).err();
    two == Some(ErrorKind::Length) && negative == Some(ErrorKind::Domain)
}

fn refuses_for_room(alloc: Global) -> Result<bool, Fail> {
    let mut store = Store::new(alloc, 5);
    let table = counting(alloc, &[2, 3])?;
    let refused = ravel(&table, &mut store).err();
    Ok(refused == Some(MadeFault::WsFull { live: 0, asked: 6 }))
}

#[test]
fn worked_calls(rt: HostRuntime) -> Result<(), Fail> {
    assert!(rt; turns_lines(rt.alloc())?);
    assert!(rt; keeps_a_column(rt.alloc())?);
    assert!(rt; spaces_a_row(rt.alloc())?);
    assert!(rt; repeats_elements(rt.alloc())?);
    assert!(rt; joins_vectors(rt.alloc())?);
    assert!(rt; lists_elements(rt.alloc())?);
    assert!(rt; lists_lengths(rt.alloc())?);
    assert!(rt; lists_a_selection(rt.alloc())?);
    Ok(())
}

#[test]
fn refused_calls(rt: HostRuntime) -> Result<(), Fail> {
    assert!(rt; refuses_for_room(rt.alloc())?);
    assert!(rt; refuses_shapes(rt.alloc())?);
    assert!(rt; refuses_too_many_axes(rt.alloc())?);
    assert!(rt; refuses_turns(rt.alloc())?);
    assert!(rt; refuses_to_keep(rt.alloc())?);
    assert!(rt; refuses_to_space(rt.alloc())?);
    assert!(rt; refuses_a_table(rt.alloc())?);
    assert!(rt; refuses_numbers(rt.alloc()));
    Ok(())
}
