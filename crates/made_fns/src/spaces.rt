//! Expansion: an axis on which the next elements stand where bits are 1.
ghost use Rattle.std.specs.Prelude.{◌≡◌, ◌⊎◌, ◌+◌, ◌*◌, ◌==◌, ◌&&◌, ◌^◌, ◌<◌, ◌≤◌, not, nat_le, pos, slice_index, slice_set, if◌then◌else◌, Some, None, Ok, Err, [], map, length, IfOk, IfErr, OnOk, vec_capacity};
ghost use Rattle.std.specs.Ordering.{int_eq};
ghost use Rattle.apl_base.specs.Array.{size_of, IsShape};
ghost use Rattle.apl_base.specs.Selection.{upward};
ghost use Rattle.array_desc.specs.Desc.{IsDesc};
ghost use Rattle.array_store.specs.Stores.{StoreView, IsStore};
ghost use Rattle.array_store.specs.Counting.{OnlyFetched};
ghost use Rattle.drag_along.specs.Nodes.{leaf_desc, leaf_shape};
ghost use Rattle.drag_along.specs.Lawful.{IsLawfulLeaf};
ghost use Rattle.apl_model.specs.declared.functions.Axis.{Axis};
ghost use Rattle.apl_model.specs.Made.{expand as expanded_along, extended_to, ones};
ghost use Rattle.apl_model.specs.Whole.{fill};
ghost use Rattle.leaf_names.specs.Variables.{array_of};
ghost use Rattle.made_leaf.specs.Made.{IsMadeBy, Fetched};
ghost use Rattle.made_fns.specs.Answers.{elements_in, spaced_array, spaced_answer, CanSpace};
ghost use Rattle.made_fns.specs.Lines.{spaced_source};

use crate::axes::axis_of;
use crate::extends::{are_bits, extended_cells, extended_shape, is_one, with_length};
use crate::leaves::{elements, is_extendable, lengths, rank};
use crate::scans::ones_of;
use crate::spreads::spread;
use apl_base::{Cell, ErrorKind, Kind, NoMemory, Shape};
use apl_model::Axis;
use array_store::Store;
use drag_along::Leaf;
use made_leaf::{MadeFault, make_leaf, read_cells, room_for};
use std::alloc::Global;

/// `A\B`: along the axis the next element of B where A is 1, else 0 or a blank. A B of one element and one axis at most
/// extends to A's ones.
pub fn expand(a: &Leaf, b: &Leaf, axis: Axis, store: &mut Store) -> Result<Leaf, MadeFault>
    requires a { IsLawfulLeaf store.old a.now }
    requires b { IsLawfulLeaf store.old b.now }
    ensures made { IsMadeBy
        (Fetched store.old (3 * elements_in a.now + elements_in b.now)) store.old store.new
        (expanded_along (pos 1) axis (array_of store.old a.now) (array_of store.old b.now)) result }
    ensures store { IsStore store.new }
{
    // It tells the proof that the store is one.
    let _counts = store.counts();
    let along = bits_axis(a, b, axis, store)?;
    let count = ones_of(a, store);
    let shape = spaced_shape(a, b, along, count)?;
    let size = shape.size();
    let mut cells = room_for(size, store)?;
    fill_spaced(a, b, along, count, &shape, store, &mut cells)?;
    Ok(make_leaf(cells, &shape, b.kind(), store)?)
}

// The axis that becomes longer, where A is a vector or scalar of bits, or the error.
fn bits_axis(a: &Leaf, b: &Leaf, axis: Axis, store: &mut Store) -> Result<usize, ErrorKind>
    requires a { IsLawfulLeaf store.old a.now }
    ensures within { IfOk result (λ k. (k < length (leaf_shape b.now))
        ⊎ ((length (leaf_shape b.now) ≡ 0) × (k ≡ 0))) }
    ensures lawful { IsDesc (leaf_desc a.now) × IsDesc (leaf_desc b.now) }
    ensures array { IfOk result (λ k.
        expanded_along (pos 1) axis (array_of store.old a.now) (array_of store.old b.now)
        ≡ spaced_answer k (array_of store.old a.now) (array_of store.old b.now)) }
    ensures refused { IfErr result (λ kind.
        expanded_along (pos 1) axis (array_of store.old a.now) (array_of store.old b.now)
        ≡ Err kind) }
    ensures counted { OnlyFetched store.old store.new (elements_in a.now) }
    ensures store { IsStore store.new }
{
    // It tells the proof that the store is one.
    let _counts = store.counts();
    let rank_of_b = rank(b);
    if rank(a) > 1 {
        return Err(ErrorKind::Rank);
    }
    let along = axis_of(axis, rank_of_b)?;
    if !are_bits(a, store) {
        return Err(ErrorKind::Domain);
    }
    Ok(along)
}

// The shape of the result where A has so many ones, or the error.
fn spaced_shape(a: &Leaf, b: &Leaf, along: usize, count: u64) -> Result<Shape, ErrorKind>
    requires within { (along < length (leaf_shape b.now))
        ⊎ ((length (leaf_shape b.now) ≡ 0) × (along ≡ 0)) }
    requires few { count ≤ 2 ^ 40 }
    ensures shape { IfOk result (λ shape. (s : StoreView)
        → shape
        ≡ slice_set (extended_to count (array_of s b.now)).shape along (elements_in a.now)) }
    ensures can { OnOk result ((s : StoreView) → CanSpace along count (array_of s b.now)) }
    ensures array { OnOk result ((s : StoreView) → count ≡ ones (array_of s a.now).cells
        → spaced_answer along (array_of s a.now) (array_of s b.now)
        ≡ Ok (spaced_array along (array_of s a.now) (array_of s b.now))) }
    ensures refused { IfErr result (λ kind. (s : StoreView) → count ≡ ones (array_of s a.now).cells
        → spaced_answer along (array_of s a.now) (array_of s b.now) ≡ Err kind) }
{
    if !meets(b, along, count) {
        return Err(ErrorKind::Length);
    }
    let whole = extended_shape(b, count);
    with_length(&whole, along, elements(a))
}

// Whether B has so many elements along the axis, or extends.
fn meets(b: &Leaf, along: usize, count: u64) -> bool
    requires { (along < length (leaf_shape b.now))
        ⊎ ((length (leaf_shape b.now) ≡ 0) × (along ≡ 0)) }
    ensures { result ≡ not (not ((elements_in b.now == 1) && nat_le (length (leaf_shape b.now)) 1)
        && not (count == slice_index (leaf_shape b.now) along)) }
{
    if is_extendable(b) {
        return true;
    }
    count == lengths(b)[along]
}

// Puts the elements of the result into an empty vector with room for them.
fn fill_spaced(
    a: &Leaf,
    b: &Leaf,
    along: usize,
    count: u64,
    shape: &Shape,
    store: &mut Store,
    cells: &mut Vec<Cell>,
) -> Result<(), NoMemory>
    requires a { IsLawfulLeaf store.old a.now }
    requires b { IsLawfulLeaf store.old b.now }
    requires count { count ≡ ones (array_of store.old a.now).cells }
    requires few { count ≤ 2 ^ 40 }
    requires can { CanSpace along count (array_of store.old b.now) }
    requires shape { shape.now
        ≡ (spaced_array along (array_of store.old a.now) (array_of store.old b.now)).shape }
    requires empty { cells.old.items ≡ [] }
    requires room { size_of shape.now ≤ vec_capacity cells.old }
    ensures cells { OnOk result
        (cells.new.items
        ≡ (spaced_array along (array_of store.old a.now) (array_of store.old b.now)).cells) }
    ensures counted { OnlyFetched store.old store.new (elements_in a.now + elements_in b.now) }
    ensures store { IsStore store.new }
{
    // It tells the proof that the store is one.
    let _counts = store.counts();
    if shape.size() == 0 {
        return Ok(());
    }
    let bits = read_cells(a, store)?;
    let sources = sources_of(shape.allocator(), bits.as_slice())?;
    let whole = extended_shape(b, count);
    let items = extended_cells(b, count, store)?;
    spread(
        sources.as_slice(),
        whole.len(along) as usize,
        shape.lengths(),
        along,
        items.as_slice(),
        blank_of(b.kind()),
        cells,
    );
    Ok(())
}

// The sources of the numbers on an axis that is spread by these bits.
fn sources_of(alloc: Global, bits: &[Cell]) -> Result<Vec<Option<usize>>, NoMemory>
    ensures { IfOk result (λ sources. sources.items
        ≡ map (spaced_source bits.now) (upward 0 (length bits.now))) }
{
    let mut sources = Vec::new(alloc);
    let mut found = 0;
    for bit in bits {
        sources.push(source_at(bit, found))?;
        found = found_after(bit, found);
    }
    Ok(sources)
}

// The source at a bit that has so many ones before it.
fn source_at(bit: &Cell, found: usize) -> Option<usize>
    ensures { result ≡ (if int_eq bit.now (pos 1) then Some found else None) }
{
    if is_one(bit) { Some(found) } else { None }
}

// How many ones there are up to a bit that has so many before it.
fn found_after(bit: &Cell, found: usize) -> usize
    requires { found < 2 ^ 62 }
    ensures { result ≡ found + (if int_eq bit.now (pos 1) then 1 else 0) }
{
    if is_one(bit) { found + 1 } else { found }
}

/// What stands where there is no element: 0, or a blank.
pub fn blank_of(kind: Kind) -> Cell
    ensures { result ≡ fill kind }
{
    match kind {
        Kind::Num => 0,
        Kind::Char => 32,
    }
}
