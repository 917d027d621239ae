//! Vectors of the elements of two arrays.
ghost use Rattle.std.specs.Prelude.{◌≡◌, ◌+◌, ◌++◌, ◌^◌, ◌≤◌, ◌∷◌, [], Ok, Err, IfOk, IfErr};
ghost use Rattle.apl_base.specs.Array.{Array};
ghost use Rattle.array_desc.specs.Desc.{IsDesc};
ghost use Rattle.array_store.specs.Stores.{StoreView, IsStore};
ghost use Rattle.drag_along.specs.Nodes.{leaf_desc};
ghost use Rattle.drag_along.specs.Lawful.{IsLawfulLeaf};
ghost use Rattle.apl_model.specs.Made.{catenate as catenated, joined_kind};
ghost use Rattle.apl_model.specs.Whole.{Answer};
ghost use Rattle.leaf_names.specs.Variables.{array_of};
ghost use Rattle.made_leaf.specs.Made.{IsMadeBy, Fetched};
ghost use Rattle.made_fns.specs.Answers.{elements_in, joined_array};

use crate::leaves::{elements, rank};
use apl_base::{ErrorKind, Kind};
use array_store::Store;
use drag_along::Leaf;
use made_leaf::{MadeFault, make_leaf, read_all, room_for, vector_shape};

/// `A,B`: the elements of A, then those of B, with the kind of the one that is not empty, or of A.
pub fn catenate(a: &Leaf, b: &Leaf, store: &mut Store) -> Result<Leaf, MadeFault>
    requires a { IsLawfulLeaf store.old a.now }
    requires b { IsLawfulLeaf store.old b.now }
    ensures made { IsMadeBy
        (Fetched store.old (elements_in a.now + elements_in b.now)) store.old store.new
        (catenated (array_of store.old a.now) (array_of store.old b.now)) result }
    ensures store { IsStore store.new }
{
    // It tells the proof that the store is one.
    let _counts = store.counts();
    let size = joined_size(a, b)?;
    let mut cells = room_for(size, store)?;
    read_all(a, store, &mut cells);
    read_all(b, store, &mut cells);
    let shape = vector_shape(a.desc().shape.allocator(), size);
    Ok(make_leaf(cells, &shape, kind_of_both(a, b), store)?)
}

// How many elements the two have together, or the error.
fn joined_size(a: &Leaf, b: &Leaf) -> Result<u64, ErrorKind>
    ensures few { IfOk result (λ n. n ≤ 2 ^ 40) }
    ensures lawful { IsDesc (leaf_desc a.now) × IsDesc (leaf_desc b.now) }
    ensures size { IfOk result (λ n. n ≡ elements_in a.now + elements_in b.now) }
    ensures array { IfOk result (λ n. (store : StoreView)
        → catenated (array_of store a.now) (array_of store b.now)
        ≡ Ok (joined_array store a.now b.now)) }
    ensures refused { IfErr result (λ kind. (store : StoreView)
        → catenated (array_of store a.now) (array_of store b.now) ≡ Err kind) }
{
    let first = elements(a);
    let second = elements(b);
    if rank(a) > 1 || rank(b) > 1 {
        return Err(ErrorKind::Rank);
    }
    if first > 0 && second > 0 && a.kind() != b.kind() {
        return Err(ErrorKind::Domain);
    }
    if first + second > 1 << 40 {
        return Err(ErrorKind::Limit);
    }
    Ok(first + second)
}

// The kind of the elements of both.
fn kind_of_both(a: &Leaf, b: &Leaf) -> Kind
    ensures { (store : StoreView)
        → result ≡ joined_kind (array_of store a.now) (array_of store b.now) }
{
    if elements(a) == 0 && elements(b) > 0 {
        b.kind()
    } else {
        a.kind()
    }
}
