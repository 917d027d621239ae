//! Vectors of an array's lengths, of its elements, and of numbers that rise.
ghost use Rattle.std.specs.Prelude.{◌≡◌, ℕ, ◌<◌, ◌^◌, pos, ◌+ℤ◌, ◌≤ℤ◌, unsigned_abs, [], ◌∷◌};
ghost use Rattle.array_desc.specs.Desc.{IsDesc, number as number_of};
ghost use Rattle.array_store.specs.Stores.{IsStore};
ghost use Rattle.array_store.specs.Counting.{OnlyFetched};
ghost use Rattle.drag_along.specs.Lawful.{IsLawfulLeaf};
ghost use Rattle.apl_model.specs.Made.{ravel as raveled, shape_of as lengths_of, interval};
ghost use Rattle.apl_model_laws.specs.Lawful.{IsOrigin};
ghost use Rattle.leaf_names.specs.Variables.{array_of};
ghost use Rattle.made_leaf.specs.Made.{IsMadeBy, Fetched};
ghost use Rattle.made_fns.specs.Answers.{elements_in, IsNumbersBy};

use crate::leaves::{elements, is_text, rank};
use apl_base::{Cell, ErrorKind, Kind};
use array_desc::Desc;
use array_store::Store;
use drag_along::Leaf;
use made_leaf::{MadeFault, first_cell, make_leaf, read_all, room_for, vector_shape};
use std::alloc::Global;

/// `⍴B`: the vector of the lengths. No cell is fetched.
pub fn shape_of(b: &Leaf, store: &mut Store) -> Result<Leaf, MadeFault>
    requires b { IsLawfulLeaf store.old b.now }
    ensures made { IsMadeBy (Fetched store.old 0) store.old store.new
        (lengths_of (array_of store.old b.now)) result }
    ensures store { IsStore store.new }
{
    // It tells the proof that the store is one.
    let _counts = store.counts();
    let count = rank(b) as u64;
    let lengths = b.desc().shape.lengths();
    let mut cells = room_for(count, store)?;
    for n in lengths {
        let Ok(()) = cells.push(Cell::from(*n)) else {
            unreachable!()
        };
    }
    let shape = vector_shape(b.desc().shape.allocator(), count);
    Ok(make_leaf(cells, &shape, Kind::Num, store)?)
}

/// `,B`: the vector of the elements, in row-major order.
pub fn ravel(b: &Leaf, store: &mut Store) -> Result<Leaf, MadeFault>
    requires b { IsLawfulLeaf store.old b.now }
    ensures made { IsMadeBy (Fetched store.old (elements_in b.now)) store.old store.new
        (raveled (array_of store.old b.now)) result }
    ensures store { IsStore store.new }
{
    // It tells the proof that the store is one.
    let _counts = store.counts();
    let size = elements(b);
    let mut cells = room_for(size, store)?;
    read_all(b, store, &mut cells);
    let shape = vector_shape(b.desc().shape.allocator(), size);
    Ok(make_leaf(cells, &shape, b.kind(), store)?)
}

/// `⍳B`: the vector of the numbers from the origin up, B of them, as the numbers of a descriptor. It fetches one cell at
/// most, and takes no memory.
pub fn iota(b: &Leaf, origin: Cell, store: &mut Store) -> Result<Leaf, ErrorKind>
    requires b { IsLawfulLeaf store.old b.now }
    requires origin { IsOrigin origin }
    ensures interval { IsNumbersBy (interval origin (array_of store.old b.now)) result }
    ensures counted { OnlyFetched store.old store.new 1 }
    ensures store { IsStore store.new }
{
    // It tells the proof that the store is one.
    let _counts = store.counts();
    if rank(b) > 1 {
        return Err(ErrorKind::Rank);
    }
    if elements(b) != 1 {
        return Err(ErrorKind::Length);
    }
    if is_text(b) {
        return Err(ErrorKind::Domain);
    }
    let n = first_cell(b, store);
    if n < 0 {
        return Err(ErrorKind::Domain);
    }
    if n > 1 << 40 {
        return Err(ErrorKind::Limit);
    }
    Ok(Leaf::Gen {
        desc: numbers_up(b.desc().shape.allocator(), origin, n),
        kind: Kind::Num,
    })
}

// The descriptor of the n numbers from the origin up.
fn numbers_up(alloc: Global, origin: Cell, n: Cell) -> Desc
    requires origin { IsOrigin origin }
    requires low { pos 0 ≤ℤ n }
    requires high { n ≤ℤ pos (2 ^ 40) }
    ensures shape { result.shape ≡ unsigned_abs n ∷ [] }
    ensures numbers { (j : ℕ) → j < unsigned_abs n
        → number_of result (j ∷ []) ≡ origin +ℤ pos j }
    ensures lawful { IsDesc result }
{
    Desc::line(alloc, origin, 1, n as u64)
}
