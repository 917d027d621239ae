//! `A⍳B` and `A∈B`.

ghost use Rattle.std.specs.Prelude.{◌≡◌, ◌+◌, pos, map, int_lt};
ghost use Rattle.apl_base.specs.Array.{size_of};
ghost use Rattle.apl_base.specs.Scalar.{truth};
ghost use Rattle.array_store.specs.Stores.{IsStore};
ghost use Rattle.drag_along.specs.Nodes.{leaf_shape};
ghost use Rattle.drag_along.specs.Lawful.{IsLawfulLeaf};
ghost use Rattle.apl_model_laws.specs.Lawful.{IsOrigin};
ghost use Rattle.leaf_names.specs.Variables.{array_of};
ghost use Rattle.made_leaf.specs.Made.{Fetched, IsMadeBy};
ghost use Rattle.apl_model.specs.Made as language;

use crate::searches::find_elements;
use apl_base::{Cell, ErrorKind, Kind};
use array_store::Store;
use drag_along::Leaf;
use made_leaf::{MadeFault, make_leaf, room_for};

/// `A⍳B`: for each element of B, the origin and the number of elements of A before its first place in A. It has the
/// shape of B. RANK ERROR comes where A is no vector. Each element of A and of B is fetched once at most.
pub fn index_of(a: &Leaf, b: &Leaf, origin: Cell, store: &mut Store) -> Result<Leaf, MadeFault>
    requires left { IsLawfulLeaf store.old a.now }
    requires right { IsLawfulLeaf store.old b.now }
    requires origin { IsOrigin origin }
    ensures made { IsMadeBy
        (Fetched store.old (size_of (leaf_shape b.now) + size_of (leaf_shape a.now)))
        store.old store.new
        (language.index_of origin (array_of store.old a.now) (array_of store.old b.now)) result }
    ensures store { IsStore store.new }
{
    // It tells the proof that the store is one.
    let _counts = store.counts();
    if a.desc().shape.rank() != 1 {
        return Err(MadeFault::Error {
            kind: ErrorKind::Rank,
        });
    }
    let mut cells = room_for(b.desc().size(), store)?;
    find_elements(b, a, origin as u64, store, &mut cells)?;
    Ok(make_leaf(cells, &b.desc().shape, Kind::Num, store)?)
}

/// `A∈B`: for each element of A 1 where it is in B, else 0. It has the shape of A, and no error. Each element of A and
/// of B is fetched once at most.
pub fn member(a: &Leaf, b: &Leaf, store: &mut Store) -> Result<Leaf, MadeFault>
    requires left { IsLawfulLeaf store.old a.now }
    requires right { IsLawfulLeaf store.old b.now }
    ensures made { IsMadeBy
        (Fetched store.old (size_of (leaf_shape a.now) + size_of (leaf_shape b.now)))
        store.old store.new
        (language.member (array_of store.old a.now) (array_of store.old b.now)) result }
    ensures store { IsStore store.new }
{
    // It tells the proof that the store is one.
    let _counts = store.counts();
    let mut cells = room_for(a.desc().size(), store)?;
    find_elements(a, b, 0, store, &mut cells)?;
    test_below(b.desc().size(), cells.as_mut_slice());
    Ok(make_leaf(cells, &a.desc().shape, Kind::Num, store)?)
}

// Puts 1 in the place of each cell that is less than the bound, and 0 in the place of each other one.
fn test_below(bound: u64, cells: &mut [Cell])
    ensures { cells.new ≡ map (λ z. truth (int_lt z (pos bound))) cells.old }
{
    for cell in cells.iter_mut() {
        *cell = Cell::from(*cell < Cell::from(bound));
    }
}
