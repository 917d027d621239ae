//! Compression: the elements along an axis where bits are 1.
ghost use Rattle.std.specs.Prelude.{◌≡◌, ◌⊎◌, ◌+◌, ◌*◌, ◌==◌, ◌&&◌, ◌<◌, ◌≤◌, not, nat_le, pos, ◌≢◌, IsTrue, slice_index, Some, Ok, Err, [], map, length, IfOk, IfErr, OnOk, vec_capacity};
ghost use Rattle.apl_base.specs.Array.{size_of, IsShape};
ghost use Rattle.array_desc.specs.Desc.{IsDesc};
ghost use Rattle.array_store.specs.Stores.{StoreView, IsStore};
ghost use Rattle.array_store.specs.Counting.{OnlyFetched};
ghost use Rattle.drag_along.specs.Nodes.{leaf_desc, leaf_shape};
ghost use Rattle.drag_along.specs.Lawful.{IsLawfulLeaf};
ghost use Rattle.apl_model.specs.declared.functions.Axis.{Axis};
ghost use Rattle.apl_model.specs.Made.{compress as compressed_along, ones_from};
ghost use Rattle.leaf_names.specs.Variables.{array_of};
ghost use Rattle.made_leaf.specs.Made.{IsMadeBy, Fetched};
ghost use Rattle.made_fns.specs.Answers.{elements_in, kept_array, CanKeep, GoesAlong};

use crate::axes::axis_of;
use crate::extends::{
    are_bits, bits_along, extended_cells, extended_shape, is_one, ones_along, with_length,
};
use crate::leaves::{elements, is_extendable, lengths, rank};
use crate::marks::keep_marked;
use crate::spreads::spread;
use apl_base::{Cell, ErrorKind, NoMemory, Shape};
use apl_model::Axis;
use array_store::Store;
use drag_along::Leaf;
use made_leaf::{MadeFault, make_leaf, room_for};
use std::alloc::Global;

/// `A/B`: the elements of B along the axis where A is 1. A single A goes for the whole axis, and a B of one element and
/// one axis at most extends to A's length.
pub fn compress(a: &Leaf, b: &Leaf, axis: Axis, store: &mut Store) -> Result<Leaf, MadeFault>
    requires a { IsLawfulLeaf store.old a.now }
    requires b { IsLawfulLeaf store.old b.now }
    ensures made { IsMadeBy
        (Fetched store.old (3 * elements_in a.now + elements_in b.now)) store.old store.new
        (compressed_along (pos 1) axis
        (array_of store.old a.now) (array_of store.old b.now)) result }
    ensures store { IsStore store.new }
{
    // It tells the proof that the store is one.
    let _counts = store.counts();
    let along = kept_axis(a, b, axis, store)?;
    let shape = kept_shape(a, b, along, store);
    let size = shape.size();
    let mut cells = room_for(size, store)?;
    fill_kept(a, b, along, &shape, store, &mut cells)?;
    Ok(make_leaf(cells, &shape, b.kind(), store)?)
}

// The axis that becomes shorter, or the error.
fn kept_axis(a: &Leaf, b: &Leaf, axis: Axis, store: &mut Store) -> Result<usize, ErrorKind>
    requires a { IsLawfulLeaf store.old a.now }
    ensures can { IfOk result (λ k. (s : StoreView)
        → CanKeep k (array_of s a.now) (array_of s b.now)) }
    ensures lawful { IsDesc (leaf_desc a.now) × IsDesc (leaf_desc b.now) }
    ensures array { IfOk result (λ k.
        compressed_along (pos 1) axis (array_of store.old a.now) (array_of store.old b.now)
        ≡ Ok (kept_array k (array_of store.old a.now) (array_of store.old b.now))) }
    ensures refused { IfErr result (λ kind.
        compressed_along (pos 1) axis (array_of store.old a.now) (array_of store.old b.now)
        ≡ Err kind) }
    ensures counted { OnlyFetched store.old store.new (elements_in a.now) }
    ensures store { IsStore store.new }
{
    // It tells the proof that the store is one.
    let _counts = store.counts();
    let rank_of_b = rank(b);
    if rank(a) > 1 {
        return Err(ErrorKind::Rank);
    }
    let along = axis_of(axis, rank_of_b)?;
    if !fits(a, b, along) {
        return Err(ErrorKind::Length);
    }
    if !are_bits(a, store) {
        return Err(ErrorKind::Domain);
    }
    Ok(along)
}

// Whether A has one number, or one for each number on B's axis, or B extends.
fn fits(a: &Leaf, b: &Leaf, along: usize) -> bool
    requires { (along < length (leaf_shape b.now))
        ⊎ ((length (leaf_shape b.now) ≡ 0) × (along ≡ 0)) }
    ensures { result ≡ not (not (elements_in a.now == 1)
        && not ((elements_in b.now == 1) && nat_le (length (leaf_shape b.now)) 1)
        && not (elements_in a.now == slice_index (leaf_shape b.now) along)) }
{
    let count = elements(a);
    if count == 1 {
        return true;
    }
    if is_extendable(b) {
        return true;
    }
    count == lengths(b)[along]
}

// The shape of the result.
fn kept_shape(a: &Leaf, b: &Leaf, along: usize, store: &mut Store) -> Shape
    requires a { IsLawfulLeaf store.old a.now }
    requires can { CanKeep along (array_of store.old a.now) (array_of store.old b.now) }
    requires lawful { IsShape (kept_array along (array_of store.old a.now)
        (array_of store.old b.now)).shape }
    ensures shape { result
        ≡ (kept_array along (array_of store.old a.now) (array_of store.old b.now)).shape }
    ensures counted { OnlyFetched store.old store.new (elements_in a.now) }
    ensures store { IsStore store.new }
{
    // It tells the proof that the store is one.
    let _counts = store.counts();
    let whole = extended_shape(b, elements(a));
    let count = ones_along(a, whole.len(along), store);
    match with_length(&whole, along, count) {
        Ok(shape) => shape,
        Err(_) => unreachable!(),
    }
}

// Puts the elements of the result into an empty vector with room for them.
fn fill_kept(
    a: &Leaf,
    b: &Leaf,
    along: usize,
    shape: &Shape,
    store: &mut Store,
    cells: &mut Vec<Cell>,
) -> Result<(), NoMemory>
    requires a { IsLawfulLeaf store.old a.now }
    requires b { IsLawfulLeaf store.old b.now }
    requires can { CanKeep along (array_of store.old a.now) (array_of store.old b.now) }
    requires shape { shape.now
        ≡ (kept_array along (array_of store.old a.now) (array_of store.old b.now)).shape }
    requires empty { cells.old.items ≡ [] }
    requires room { size_of shape.now ≤ vec_capacity cells.old }
    ensures cells { OnOk result
        (cells.new.items
        ≡ (kept_array along (array_of store.old a.now) (array_of store.old b.now)).cells) }
    ensures counted { OnlyFetched store.old store.new (elements_in a.now + elements_in b.now) }
    ensures store { IsStore store.new }
{
    // It tells the proof that the store is one.
    let _counts = store.counts();
    if shape.size() == 0 {
        return Ok(());
    }
    if are_beside(a, b) {
        keep_marked(a, b, store, cells);
        return Ok(());
    }
    let whole = extended_shape(b, elements(a));
    let axis = whole.len(along);
    let bits = bits_along(a, axis, store)?;
    let sources = places_of_ones(shape.allocator(), bits.as_slice())?;
    let items = extended_cells(b, elements(a), store)?;
    spread(
        sources.as_slice(),
        axis as usize,
        shape.lengths(),
        along,
        items.as_slice(),
        0,
        cells,
    );
    Ok(())
}

// Whether B is a vector and A has an element beside each of its elements, and not only one.
fn are_beside(a: &Leaf, b: &Leaf) -> bool
    ensures { IsTrue result → (length (leaf_shape b.now) ≡ 1)
        × (elements_in a.now ≡ elements_in b.now) × (elements_in a.now ≢ 1) }
{
    rank(b) == 1 && elements(a) == elements(b) && elements(a) != 1
}

// The places of the ones, counted from 0.
fn places_of_ones(alloc: Global, bits: &[Cell]) -> Result<Vec<Option<usize>>, NoMemory>
    ensures { IfOk result (λ places. places.items ≡ map Some (ones_from 0 bits.now)) }
{
    let mut places = Vec::new(alloc);
    for (place, bit) in bits.iter().enumerate() {
        if is_one(bit) {
            places.push(Some(place))?;
        }
    }
    Ok(places)
}
