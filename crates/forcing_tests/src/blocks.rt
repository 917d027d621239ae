//! What is forced of more than one block of places: the elements at the edges of blocks, and the faults in different
//! ones.

ghost use Rattle.std.specs.Prelude.{◌≡◌, ◌<◌, length, IfOk};
ghost use Rattle.array_store.specs.Stores.{StoreView};
ghost use Rattle.drag_along.specs.Nodes.{functions_in, leaf_shape};
ghost use Rattle.drag_along.specs.Lawful.{IsLawful, IsLawfulLeaf};

use crate::arrays::{counting, listed, stored};
use crate::segments::{chain, column, pending};
use apl_base::{Cell, Dya, Mon, NoMemory, Shape};
use array_store::Store;
use drag_along::{Leaf, Segment, join1, join2};
use e_machine::{ForceFault, force, own};
use std::alloc::Global;
use std::test::Fail;

// A leaf turned round on an axis.
fn turned_on(leaf: Leaf, axis: usize) -> Leaf
    requires { axis < length (leaf_shape leaf) }
    ensures shape { leaf_shape result ≡ leaf_shape leaf }
    ensures lawful { (store : StoreView) → IsLawfulLeaf store leaf → IsLawfulLeaf store result }
{
    match leaf {
        Leaf::Stored {
            owner,
            mut desc,
            kind,
        } => {
            desc.reverse(axis);
            Leaf::Stored { owner, desc, kind }
        }
        Leaf::Gen { mut desc, kind } => {
            desc.reverse(axis);
            Leaf::Gen { desc, kind }
        }
    }
}

// The numbers from 0 up, stored, turned round on both axes.
fn turned(alloc: Global, store: &mut Store, rows: u64, columns: u64) -> Result<Leaf, Fail>
    ensures { IfOk result (IsLawfulLeaf store.new) }
{
    let shape = Shape::of(alloc, &[rows, columns])?;
    let leaf = own(&counting(&shape), store)?;
    Ok(turned_on(turned_on(leaf, 0), 1))
}

// Whether each number is its place less the place counted from the end.
fn are_differences(cells: &[Cell]) -> bool {
    let mut wanted = 1 - cells.len() as Cell;
    for cell in cells {
        if *cell != wanted {
            return false;
        }
        wanted = wanted.saturating_add(2);
    }
    true
}

// Whether the numbers from 0 up, less themselves turned round, have the right elements, each computed once.
fn gives_differences(alloc: Global, rows: u64, columns: u64) -> Result<bool, Fail> {
    let mut store = Store::new(alloc, 8192);
    let leaf = turned(alloc, &mut store, rows, columns)?;
    let s = chain(alloc, &leaf, 1, &store)?;
    let made = force(&s, &mut store)?;
    let applied = store.counts().applied;
    let cells = listed(alloc, &made, &mut store)?;
    Ok(
        cells.len() as u64 == applied
            && applied == rows.saturating_mul(columns)
            && are_differences(&cells),
    )
}

// Vectors of a block, of one place less and one more; rows of one, of two and of more than a block.
fn edges_give_differences(alloc: Global) -> Result<bool, Fail> {
    Ok(
        gives_differences(alloc, 1, 1023)?
            && gives_differences(alloc, 1, 1024)?
            && gives_differences(alloc, 1, 1025)?
            && gives_differences(alloc, 1025, 1)?
            && gives_differences(alloc, 513, 2)?
            && gives_differences(alloc, 2, 1025)?,
    )
}

// Vectors whose lengths lie at the edges of a block give their elements.
#[test]
fn elements_at_the_edges_of_blocks(rt: HostRuntime) -> Result<(), Fail> {
    assert!(rt; edges_give_differences(rt.alloc())?);
    Ok(())
}

// 3000 ones, but a 2 at one place and a ¯1 at another, where these are below 3000.
fn ones_but(alloc: Global, store: &mut Store, two: usize, minus: usize) -> Result<Leaf, Fail>
    ensures { IfOk result (IsLawfulLeaf store.new) }
{
    let mut values = Vec::new(alloc);
    for place in 0..3000 {
        values.push(if place == two {
            2
        } else if place == minus {
            -1
        } else {
            1
        })?;
    }
    stored(store, &Shape::of(alloc, &[3000])?, &values)
}

// `(÷V)+!V`
fn parts_and_factorials(alloc: Global, vector: &Leaf, store: &Store) -> Result<Segment, NoMemory>
    requires { IsLawfulLeaf store.now vector.now }
    ensures functions { IfOk result (λ s. functions_in s.nodes ≡ 3) }
    ensures lawful { IfOk result (IsLawful store.now) }
{
    let left = join1(pending(alloc, vector.copy(), store)?, Mon::Recip, column(2))?;
    let right = join1(pending(alloc, vector.copy(), store)?, Mon::Fact, column(6))?;
    join2(right, left, Dya::Add, column(5))
}

// Whether `(÷V)+!V` faults at this column, or at none, and as many functions are applied: after a fault none but those
// before it, in the blocks that follow. `÷` is undefined at 2 and `!` at ¯1.
fn faults_at(
    alloc: Global,
    two: usize,
    minus: usize,
    at: Option<u32>,
    applied: u64,
) -> Result<bool, Fail> {
    let mut store = Store::new(alloc, 8192);
    let vector = ones_but(alloc, &mut store, two, minus)?;
    let s = parts_and_factorials(alloc, &vector, &store)?;
    let found = force(&s, &mut store).err();
    let wanted = at.map(|at| ForceFault::Fault { place: column(at) });
    Ok(found == wanted && store.counts().applied == applied)
}

// Three blocks, of 1024, 1024 and 952 places.
fn blocks_fault(alloc: Global) -> Result<bool, Fail> {
    let none = 3000;
    Ok(
        faults_at(alloc, none, none, None, 9000)?
            && faults_at(alloc, 0, none, Some(2), 2 * 1024 + 1024 + 952)?
            && faults_at(alloc, 1500, none, Some(2), 3 * 1024 + 2 * 1024 + 952)?
            && faults_at(alloc, 2999, none, Some(2), 3 * 1024 + 3 * 1024 + 2 * 952)?
            && faults_at(alloc, 0, 2999, Some(6), 2 * 1024 + 1024 + 952)?
            && faults_at(alloc, 2999, 0, Some(6), 1024)?
            && faults_at(alloc, 1023, 1024, Some(6), 2 * 1024 + 1024)?,
    )
}

// A fault is that of the least node, in whichever block it fails.
#[test]
fn the_least_node_that_fails_in_any_block(rt: HostRuntime) -> Result<(), Fail> {
    assert!(rt; blocks_fault(rt.alloc())?);
    Ok(())
}
