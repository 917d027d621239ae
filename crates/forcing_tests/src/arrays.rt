//! The arrays that the tests are made of, and the reading of all their elements.

ghost use Rattle.std.specs.Prelude.{◌≡◌, [], length, All, IfOk};
ghost use Rattle.apl_base.specs.Number.{IsNumber};
ghost use Rattle.array_store.specs.Stores.{StoreView};
ghost use Rattle.drag_along.specs.Nodes.{leaf_shape};
ghost use Rattle.drag_along.specs.Lawful.{IsLawfulLeaf};
ghost use Rattle.drag_along.specs.Holding.{MayBeHeld};

use apl_base::{Cell, Kind, Shape, TooLarge};
use array_desc::Desc;
use array_store::Store;
use drag_along::{Leaf, whole_view};
use e_machine::read_places;
use std::alloc::{AllocError, Global};
use std::test::Fail;

// The cells of these values.
fn filled(mut cells: Vec<Cell>, values: &[i8]) -> Result<Vec<Cell>, AllocError>
    requires { cells.items ≡ [] }
    ensures lawful { IfOk result (λ v. All IsNumber v.items) }
    ensures count { IfOk result (λ v. length v.items ≡ length values.now) }
{
    for value in values {
        cells.push(Cell::from(*value))?;
    }
    Ok(cells)
}

// An array of these numbers in an owner of its own.
pub fn stored(store: &mut Store, shape: &Shape, values: &[i8]) -> Result<Leaf, Fail>
    ensures shape { IfOk result (λ leaf. leaf_shape leaf ≡ shape.now) }
    ensures lawful { IfOk result (IsLawfulLeaf store.new) }
    ensures holders { IfOk result (MayBeHeld store.new u128.MAX) }
{
    if values.len() as u64 != shape.size() {
        return Err(Fail::from(TooLarge));
    }
    let cells = filled(store.begin(shape.size())?, values)?;
    let owner = store.make(cells, Kind::Num)?;
    Ok(whole_view(owner, shape, Kind::Num))
}

// The numbers from 0 up, in row-major order.
pub fn counting(shape: &Shape) -> Leaf
    ensures shape { leaf_shape result ≡ shape.now }
    ensures lawful { (store : StoreView) → IsLawfulLeaf store result }
{
    Leaf::Gen {
        desc: Desc::whole(shape),
        kind: Kind::Num,
    }
}

// One number everywhere.
pub fn everywhere(alloc: Global, number: Cell, shape: &Shape) -> Leaf
    requires { IsNumber number }
    ensures shape { leaf_shape result ≡ shape.now }
    ensures lawful { (store : StoreView) → IsLawfulLeaf store result }
{
    let mut desc = Desc::one(alloc, number);
    desc.extend(shape);
    Leaf::Gen {
        desc,
        kind: Kind::Num,
    }
}

// All elements of a leaf.
pub fn listed(alloc: Global, leaf: &Leaf, store: &mut Store) -> Result<Vec<Cell>, AllocError>
    requires { IsLawfulLeaf store.old leaf.now }
{
    let size = leaf.desc().size();
    let mut cells = Vec::with_capacity(alloc, size as usize)?;
    read_places(leaf, 0, size, store, &mut cells);
    Ok(cells)
}
