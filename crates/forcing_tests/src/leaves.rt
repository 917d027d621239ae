//! What is asked of leaves: to be held, copied and read, and what is refused for want of room.

ghost use Rattle.std.specs.Prelude.{◌≡◌, [], ◌∷◌, IfOk};
ghost use Rattle.drag_along.specs.Nodes.{leaf_shape};
ghost use Rattle.drag_along.specs.Lawful.{IsLawfulLeaf};
ghost use Rattle.drag_along.specs.Holding.{MayBeHeld};

use crate::arrays::{listed, stored};
use crate::segments::{chain, pending};
use apl_base::Shape;
use array_store::{BeginFault, Store};
use drag_along::Leaf;
use e_machine::{ForceFault, force, force_beside, own, own_beside, read_at};
use std::alloc::Global;
use std::test::Fail;

// Whether a store with room for seven cells refuses to copy four besides four, and nothing is done.
fn refuses_a_copy(alloc: Global) -> Result<bool, Fail> {
    let mut store = Store::new(alloc, 7);
    let shape = Shape::of(alloc, &[2, 2])?;
    let leaf = stored(&mut store, &shape, &[1, 2, 3, 4])?;
    let counts = store.counts();
    let refused = own(&leaf, &mut store).err();
    Ok(refused == Some(BeginFault::WsFull { live: 4, asked: 4 }) && store.counts() == counts)
}

// Whether it refuses to force as many.
fn refuses_a_chain(alloc: Global) -> Result<bool, Fail> {
    let mut store = Store::new(alloc, 7);
    let shape = Shape::of(alloc, &[2, 2])?;
    let leaf = stored(&mut store, &shape, &[1, 2, 3, 4])?;
    let s = chain(alloc, &leaf, 1, &store)?;
    let counts = store.counts();
    let refused = force(&s, &mut store).err();
    Ok(refused == Some(ForceFault::WsFull { live: 4, asked: 4 }) && store.counts() == counts)
}

// The vector 9 ¯2 5, which is stored from its end.
fn turned(store: &mut Store, shape: &Shape) -> Result<Leaf, Fail>
    requires { shape.now ≡ 3 ∷ [] }
    ensures shape { IfOk result (λ leaf. leaf_shape leaf ≡ 3 ∷ []) }
    ensures lawful { IfOk result (IsLawfulLeaf store.new) }
    ensures holders { IfOk result (MayBeHeld store.new u128.MAX) }
{
    let mut vector = stored(store, shape, &[5, -2, 9])?;
    if let Leaf::Stored { desc, .. } = &mut vector {
        desc.reverse(0);
    }
    Ok(vector)
}

// Whether an element is read from where the descriptor leads, with one fetch.
fn reads_an_element(alloc: Global) -> Result<bool, Fail> {
    let mut store = Store::new(alloc, 3);
    let shape = Shape::of(alloc, &[3])?;
    let leaf = turned(&mut store, &shape)?;
    let read = read_at(&leaf, &[0], &mut store);
    Ok(read.cell == 9 && store.counts().fetched == 1)
}

// Whether all elements are read by their places, with one fetch for each.
fn reads_places(alloc: Global) -> Result<bool, Fail> {
    let mut store = Store::new(alloc, 3);
    let shape = Shape::of(alloc, &[3])?;
    let leaf = turned(&mut store, &shape)?;
    let cells = listed(alloc, &leaf, &mut store)?;
    Ok(cells.as_slice() == [9, -2, 5].as_slice() && store.counts().fetched == 3)
}

// Whether a leaf is held once more where it is forced, and copied with its own elements.
fn holds_and_copies(alloc: Global) -> Result<bool, Fail> {
    let mut store = Store::new(alloc, 6);
    let shape = Shape::of(alloc, &[3])?;
    let leaf = turned(&mut store, &shape)?;
    let s = pending(alloc, leaf, &store)?;
    let held = force_beside(&s, &s, &mut store)?;
    let holders = match &held {
        Leaf::Stored { owner, .. } => store.holders(*owner),
        Leaf::Gen { .. } => 0,
    };
    let copy = own_beside(&held, &s, &mut store)?;
    let live = store.live();
    let cells = listed(alloc, &copy, &mut store)?;
    Ok(holders == 2 && live == 6 && cells.as_slice() == [9, -2, 5].as_slice())
}

// Copies, elements and places read, and what is refused for want of room.
#[test]
fn leaves_asked(rt: HostRuntime) -> Result<(), Fail> {
    let alloc = rt.alloc();
    assert!(rt; refuses_a_copy(alloc)?);
    assert!(rt; refuses_a_chain(alloc)?);
    assert!(rt; reads_an_element(alloc)?);
    assert!(rt; reads_places(alloc)?);
    assert!(rt; holds_and_copies(alloc)?);
    Ok(())
}
