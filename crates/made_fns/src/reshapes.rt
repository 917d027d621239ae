//! Repetition of an array's elements in another shape.
ghost use Rattle.std.specs.Prelude.{◌≡◌, ℕ, ◌+◌, ◌*◌, ◌%◌, ◌^◌, ◌==◌, ◌&&◌, ◌<◌, ◌≤◌, min, pos, Ok, Err, ℤ, unsigned_abs, map, length, [], slice_index_or, IfOk, IfErr, take, ◌++◌, vec_len, vec_capacity};
ghost use Rattle.std.specs.List.{list_all};
ghost use Rattle.apl_base.specs.Array.{IsShape, size_of};
ghost use Rattle.apl_base.specs.Selection.{upward};
ghost use Rattle.apl_base.specs.declared.faults.ErrorKind.TheVariants as error;
ghost use Rattle.array_desc.specs.Desc.{IsDesc};
ghost use Rattle.array_store.specs.Stores.{IsStore};
ghost use Rattle.array_store.specs.Counting.{OnlyFetched};
ghost use Rattle.drag_along.specs.Nodes.{leaf_desc};
ghost use Rattle.drag_along.specs.Lawful.{IsLawfulLeaf};
ghost use Rattle.apl_model.specs.Made.{reshape as reshaped};
ghost use Rattle.leaf_names.specs.Variables.{array_of};
ghost use Rattle.made_leaf.specs.Made.{IsMadeBy, Fetched};
ghost use Rattle.made_fns.specs.Answers.{elements_in, is_between, lengths_named, reshaped_array};

use crate::leaves::{elements, is_text, rank};
use crate::scans::all_between;
use apl_base::{Cell, ErrorKind, M, Shape};
use array_store::Store;
use drag_along::Leaf;
use e_machine::read_places;
use made_leaf::{MadeFault, make_leaf, read_block, room_for};
use std::alloc::Global;

/// One more than the most elements that an axis may have.
const TOO_MANY: u128 = (1 << 40) + 1;

/// `A⍴B`: the elements of B in the shape A, in row-major order and repeated as needed.
pub fn reshape(a: &Leaf, b: &Leaf, store: &mut Store) -> Result<Leaf, MadeFault>
    requires a { IsLawfulLeaf store.old a.now }
    requires b { IsLawfulLeaf store.old b.now }
    ensures made { IsMadeBy
        (Fetched store.old (3 * elements_in a.now + elements_in b.now)) store.old store.new
        (reshaped (array_of store.old a.now) (array_of store.old b.now)) result }
    ensures store { IsStore store.new }
{
    // It tells the proof that the store is one.
    let _counts = store.counts();
    let shape = new_shape(a, b, store)?;
    let size = shape.size();
    let mut cells = room_for(size, store)?;
    repeat(b, size, store, &mut cells);
    Ok(make_leaf(cells, &shape, b.kind(), store)?)
}

// The shape of the result, or the error.
fn new_shape(a: &Leaf, b: &Leaf, store: &mut Store) -> Result<Shape, ErrorKind>
    requires a { IsLawfulLeaf store.old a.now }
    ensures shape { IfOk result (λ shape. (shape ≡ lengths_named (array_of store.old a.now))
        × IsDesc (leaf_desc b.now)) }
    ensures some { IfOk result (λ shape. 0 < size_of shape → 0 < elements_in b.now) }
    ensures array { IfOk result (λ shape.
        reshaped (array_of store.old a.now) (array_of store.old b.now)
        ≡ Ok (reshaped_array (array_of store.old a.now) (array_of store.old b.now))) }
    ensures refused { IfErr result (λ kind.
        reshaped (array_of store.old a.now) (array_of store.old b.now)
        ≡ Err kind) }
    ensures counted { OnlyFetched store.old store.new (3 * elements_in a.now) }
    ensures store { IsStore store.new }
{
    // It tells the proof that the store is one.
    let _counts = store.counts();
    if rank(a) > 1 {
        return Err(ErrorKind::Rank);
    }
    if is_text(a) {
        return Err(ErrorKind::Domain);
    }
    if lacks_elements(a, b, store) {
        return Err(ErrorKind::Length);
    }
    if !all_between(a, 0, M, store) {
        return Err(ErrorKind::Domain);
    }
    Ok(named_shape(a, store)?)
}

// Whether B has no element, and each number of A is above 0.
fn lacks_elements(a: &Leaf, b: &Leaf, store: &mut Store) -> bool
    requires a { IsLawfulLeaf store.old a.now }
    ensures value { result ≡ (elements_in b.now == 0)
        && list_all (is_between (pos 1) M) (array_of store.old a.now).cells }
    ensures lawful { IsDesc (leaf_desc b.now) }
    ensures counted { OnlyFetched store.old store.new (elements_in a.now) }
    ensures store { IsStore store.new }
{
    // It tells the proof that the store is one.
    let _counts = store.counts();
    elements(b) == 0 && all_between(a, 1, M, store)
}

/// The shape whose lengths are the magnitudes of a leaf's numbers, or LIMIT ERROR exactly where they make none.
pub fn named_shape(a: &Leaf, store: &mut Store) -> Result<Shape, ErrorKind>
    requires a { IsLawfulLeaf store.old a.now }
    ensures shape { IfOk result (λ shape. (shape ≡ lengths_named (array_of store.old a.now))
        × IsShape shape) }
    ensures refused { IfErr result (λ kind. (kind ≡ error.Limit)
        × ¬ (IsShape (lengths_named (array_of store.old a.now)))) }
    ensures counted { OnlyFetched store.old store.new (elements_in a.now) }
    ensures store { IsStore store.new }
{
    // It tells the proof that the store is one.
    let _counts = store.counts();
    let count = elements(a);
    if count > 8 {
        return Err(ErrorKind::Limit);
    }
    let mut block = [0; 8];
    let cells = &mut block[..count as usize];
    read_block(a, 0, store, cells);
    shape_of_cells(a.desc().shape.allocator(), cells)
}

// The shape whose lengths are the magnitudes of these cells.
fn shape_of_cells(alloc: Global, cells: &[Cell]) -> Result<Shape, ErrorKind>
    requires { length cells.now ≤ 8 }
    ensures shape { IfOk result (λ shape. (shape ≡ map unsigned_abs cells.now) × IsShape shape) }
    ensures refused { IfErr result (λ kind. (kind ≡ error.Limit)
        × ¬ (IsShape (map unsigned_abs cells.now))) }
{
    let mut lengths = [0; 8];
    for (axis, cell) in cells.iter().enumerate() {
        lengths[axis] = capped(*cell);
    }
    match Shape::of(alloc, &lengths[..cells.len()]) {
        Ok(shape) => Ok(shape),
        Err(_) => Err(ErrorKind::Limit),
    }
}

// The magnitude, or one more than an axis may have where it is above that.
fn capped(cell: Cell) -> u64
    ensures { result ≡ min (unsigned_abs cell) (2 ^ 40 + 1) }
{
    cell.unsigned_abs().min(TOO_MANY) as u64
}

// Puts so many elements into an empty vector with room for them: those of B, again and again.
fn repeat(b: &Leaf, size: u64, store: &mut Store, cells: &mut Vec<Cell>)
    requires b { IsLawfulLeaf store.old b.now }
    requires few { size ≤ 2 ^ 40 }
    requires some { 0 < size → 0 < elements_in b.now }
    requires empty { cells.old.items ≡ [] }
    requires room { size ≤ vec_capacity cells.old }
    ensures cells { cells.new.items ≡ map (λ p. slice_index_or (array_of store.old b.now).cells
        (p % elements_in b.now) (pos 0)) (upward 0 size) }
    ensures counted { OnlyFetched store.old store.new (elements_in b.now) }
    ensures store { IsStore store.new }
{
    // It tells the proof that the store is one.
    let _counts = store.counts();
    let first = size.min(elements(b));
    read_places(b, 0, first, store, cells);
    let mut done = first;
    while done < size {
        let more = done.min(size - done);
        append_first(cells, more as usize);
        done += more;
    }
}

// Appends the first cells again, which has room.
fn append_first(cells: &mut Vec<Cell>, count: usize)
    requires some { count ≤ vec_len cells.old }
    requires room { vec_len cells.old + count ≤ vec_capacity cells.old }
    ensures cells { cells.new.items ≡ cells.old.items ++ take count cells.old.items }
    ensures capacity { vec_capacity cells.old ≤ vec_capacity cells.new }
{
    let Ok(()) = cells.extend_from_within(..count) else {
        unreachable!()
    };
}
