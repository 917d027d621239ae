//! The first place of an element among others.

ghost use Rattle.std.specs.Prelude.{◌≡◌, ◌+◌, ◌≤◌, [], true, false, pos, int_lt, map, length, replicate, OnOk, vec_len, vec_capacity};
ghost use Rattle.std.specs.List.Sorted.{IsPartitionPoint};
ghost use Rattle.apl_base.specs.Array.{size_of};
ghost use Rattle.array_store.specs.Stores.{IsStore};
ghost use Rattle.array_store.specs.Counting.{OnlyFetched};
ghost use Rattle.drag_along.specs.Nodes.{leaf_shape};
ghost use Rattle.drag_along.specs.Lawful.{IsLawfulLeaf};
ghost use Rattle.leaf_names.specs.Variables.{array_of};
ghost use Rattle.apl_model.specs.Made.{counted_from};
ghost use Rattle.value_fns.specs.Placed.{IsIndex, Placed, first_place};
ghost use Rattle.value_fns.specs.Searches.{first_places};

use crate::kinds::is_one_kind;
use crate::merges::find_by_merge;
use crate::orders::index_cells;
use apl_base::{Cell, NoMemory};
use array_store::Store;
use drag_along::Leaf;
use made_leaf::{read_all, read_cells};
use std::alloc::Global;

// So few cells are searched one by one.
const FEW: usize = 8;

// Among so many cells, and for this share of them, the wanted ones are put in order too, so that memory is read in order.
const MANY: usize = 4096;

const SHARE: usize = 16;

/// Puts, for each element of a leaf, its first place among the elements of another, counted from the origin, or the
/// origin and how many these are where it is not among them, into an empty vector that has room for them. Each element
/// is fetched once at most.
pub(crate) fn find_elements(
    wanted: &Leaf,
    among: &Leaf,
    origin: u64,
    store: &mut Store,
    into: &mut Vec<Cell>,
) -> Result<(), NoMemory>
    requires wanted { IsLawfulLeaf store.old wanted.now }
    requires among { IsLawfulLeaf store.old among.now }
    requires origin { origin ≤ 1 }
    requires empty { into.old.items ≡ [] }
    requires room { size_of (leaf_shape wanted.now) ≤ vec_capacity into.old }
    ensures places { OnOk result (into.new.items
        ≡ map (counted_from (pos origin))
        (first_places (array_of store.old among.now) (array_of store.old wanted.now))) }
    ensures counted { OnlyFetched store.old store.new
        (size_of (leaf_shape wanted.now) + size_of (leaf_shape among.now)) }
    ensures store { IsStore store.new }
{
    // It tells the proof that the store is one.
    let _counts = store.counts();
    if !is_one_kind(wanted.kind(), among.kind()) {
        fill(wanted.desc().size(), origin + among.desc().size(), into);
        return Ok(());
    }
    let cells = read_cells(among, store)?;
    read_all(wanted, store, into);
    let alloc = among.desc().shape.allocator();
    find_cells(alloc, cells.as_slice(), origin, into.as_mut_slice())?;
    Ok(())
}

// Puts so many cells, all of this number, into an empty vector with room for them.
fn fill(count: u64, number: u64, into: &mut Vec<Cell>)
    requires empty { into.old.items ≡ [] }
    requires room { count ≤ vec_capacity into.old }
    ensures { into.new.items ≡ replicate count (pos number) }
{
    let Ok(()) = into.resize(count as usize, Cell::from(number)) else {
        unreachable!()
    };
}

// Puts in the place of each wanted cell its first place among the cells, counted from the origin, or the origin and how
// many these are where it is not among them. Many are found by an index of the cells, and many among very many by an
// index of both.
fn find_cells(
    alloc: Global,
    cells: &[Cell],
    origin: u64,
    wanted: &mut [Cell],
) -> Result<(), NoMemory>
    requires { origin ≤ 1 }
    ensures { OnOk result (wanted.new
        ≡ map (λ z. counted_from (pos origin) (first_place cells.now z)) wanted.old) }
{
    if cells.len() <= FEW || wanted.len() <= FEW {
        find_by_steps(cells, origin, wanted);
        return Ok(());
    }
    let index = index_cells(alloc, cells)?;
    if cells.len() < MANY || wanted.len() < cells.len() / SHARE {
        find_by_index(cells, index.as_slice(), origin, wanted);
        return Ok(());
    }
    let order = index_cells(alloc, wanted)?;
    find_by_merge(cells, index.as_slice(), order.as_slice(), origin, wanted);
    Ok(())
}

// The same one by one.
fn find_by_steps(cells: &[Cell], origin: u64, wanted: &mut [Cell])
    requires { origin ≤ 1 }
    ensures { wanted.new
        ≡ map (λ z. counted_from (pos origin) (first_place cells.now z)) wanted.old }
{
    for slot in wanted.iter_mut() {
        *slot = Cell::from(origin) + place_among(cells, *slot) as Cell;
    }
}

// The same by an index of the cells.
fn find_by_index(cells: &[Cell], index: &[(Cell, u64)], origin: u64, wanted: &mut [Cell])
    requires index { IsIndex cells.now index.now }
    requires origin { origin ≤ 1 }
    ensures { wanted.new
        ≡ map (λ z. counted_from (pos origin) (first_place cells.now z)) wanted.old }
{
    for slot in wanted.iter_mut() {
        *slot = Cell::from(origin) + Cell::from(place_by_index(cells, index, *slot));
    }
}

// How many of the cells stand before the first that is `wanted`: all, where none is. They are gone through one by one.
fn place_among(cells: &[Cell], wanted: Cell) -> usize
    ensures { result ≡ first_place cells.now wanted }
{
    for (place, cell) in cells.iter().enumerate() {
        if wanted == *cell {
            return place;
        }
    }
    cells.len()
}

// The same by an index of the cells.
fn place_by_index(cells: &[Cell], index: &[(Cell, u64)], wanted: Cell) -> u64
    requires { IsIndex cells.now index.now }
    ensures { result ≡ first_place cells.now wanted }
{
    let from = index.partition_point(|pair| pair.0 < wanted);
    place_from(cells, index, from, wanted)
}

/// How many of the cells stand before the first that is `wanted`: all, where none is. An index of the cells parts at
/// `from` into those less than it and the others.
pub(crate) fn place_from(cells: &[Cell], index: &[(Cell, u64)], from: usize, wanted: Cell) -> u64
    requires index { IsIndex cells.now index.now }
    requires parts { IsPartitionPoint (λ (y : Placed). int_lt y.0 wanted ≡ true)
        (λ (y : Placed). int_lt y.0 wanted ≡ false) index.now from }
    ensures { result ≡ first_place cells.now wanted }
{
    match index.get(from) {
        Some(pair) if pair.0 == wanted => pair.1,
        _ => cells.len() as u64,
    }
}
