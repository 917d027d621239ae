//! Arguments of one element that extend to an axis, and shapes with another length of an axis.
ghost use Rattle.std.specs.Prelude.{◌≡◌, ◌⊎◌, ℕ, ◌^◌, ◌<◌, ◌≤◌, pos, length, slice_set, replicate, IfOk, IfErr};
ghost use Rattle.std.specs.Ordering.{int_eq};
ghost use Rattle.apl_base.specs.Array.{IsShape};
ghost use Rattle.apl_base.specs.declared.faults.ErrorKind.TheVariants as error;
ghost use Rattle.array_store.specs.Stores.{StoreView, IsStore};
ghost use Rattle.array_store.specs.Counting.{OnlyFetched};
ghost use Rattle.drag_along.specs.Nodes.{leaf_shape};
ghost use Rattle.drag_along.specs.Lawful.{IsLawfulLeaf};
ghost use Rattle.apl_model.specs.Made.{are_bits as are_bits_of, bits_along as bits_of_axis, extended_to, ones};
ghost use Rattle.apl_model.specs.Whole.{first};
ghost use Rattle.leaf_names.specs.Variables.{array_of};
ghost use Rattle.made_fns.specs.Answers.{elements_in};

use crate::leaves::{elements, is_extendable, is_text, shape};
use crate::scans::{all_between, ones_of};
use apl_base::{Cell, ErrorKind, NoMemory, Shape};
use array_store::Store;
use drag_along::Leaf;
use made_leaf::{first_cell, read_cells, vector_shape};
use smallvec::SmallVec;
use std::alloc::Global;

/// Whether a leaf's elements are all 0 or 1. Each is fetched once at most.
pub fn are_bits(leaf: &Leaf, store: &mut Store) -> bool
    requires { IsLawfulLeaf store.old leaf.now }
    ensures value { result ≡ are_bits_of (array_of store.old leaf.now) }
    ensures counted { OnlyFetched store.old store.new (elements_in leaf.now) }
    ensures store { IsStore store.new }
{
    // It tells the proof that the store is one.
    let _counts = store.counts();
    !is_text(leaf) && all_between(leaf, 0, 1, store)
}

/// Whether a bit is 1.
pub fn is_one(bit: &Cell) -> bool
    ensures { result ≡ int_eq bit.now (pos 1) }
{
    *bit == 1
}

/// The shape of a leaf once it extends to n elements, where it does.
pub fn extended_shape(leaf: &Leaf, n: u64) -> Shape
    requires { n ≤ 2 ^ 40 }
    ensures shape { (store : StoreView) → result ≡ (extended_to n (array_of store leaf.now)).shape }
    ensures axis { (k : ℕ)
        → (k < length (leaf_shape leaf.now)) ⊎ ((length (leaf_shape leaf.now) ≡ 0) × (k ≡ 0))
        → k < length result }
    ensures lawful { IsShape result }
{
    if is_extendable(leaf) {
        vector_shape(leaf.desc().shape.allocator(), n)
    } else {
        shape(leaf).copy()
    }
}

/// The cells of a leaf once it extends to n elements, where it does.
pub fn extended_cells(leaf: &Leaf, n: u64, store: &mut Store) -> Result<Vec<Cell>, NoMemory>
    requires { IsLawfulLeaf store.old leaf.now }
    ensures cells { IfOk result (λ cells. cells.items
        ≡ (extended_to n (array_of store.old leaf.now)).cells) }
    ensures counted { OnlyFetched store.old store.new (elements_in leaf.now) }
    ensures store { IsStore store.new }
{
    // It tells the proof that the store is one.
    let _counts = store.counts();
    if is_extendable(leaf) {
        repeated_cell(leaf, n, store)
    } else {
        read_cells(leaf, store)
    }
}

/// The cells of a leaf, or where it has one element that one n times.
pub fn bits_along(leaf: &Leaf, n: u64, store: &mut Store) -> Result<Vec<Cell>, NoMemory>
    requires { IsLawfulLeaf store.old leaf.now }
    ensures cells { IfOk result (λ cells. cells.items
        ≡ bits_of_axis n (array_of store.old leaf.now)) }
    ensures counted { OnlyFetched store.old store.new (elements_in leaf.now) }
    ensures store { IsStore store.new }
{
    // It tells the proof that the store is one.
    let _counts = store.counts();
    if elements(leaf) == 1 {
        repeated_cell(leaf, n, store)
    } else {
        read_cells(leaf, store)
    }
}

/// How many of these are 1. It takes no memory.
pub fn ones_along(leaf: &Leaf, n: u64, store: &mut Store) -> u64
    requires { IsLawfulLeaf store.old leaf.now }
    ensures value { result ≡ ones (bits_of_axis n (array_of store.old leaf.now)) }
    ensures counted { OnlyFetched store.old store.new (elements_in leaf.now) }
    ensures store { IsStore store.new }
{
    // It tells the proof that the store is one.
    let _counts = store.counts();
    if elements(leaf) != 1 {
        return ones_of(leaf, store);
    }
    if first_cell(leaf, store) == 1 { n } else { 0 }
}

// The first cell of a leaf, n times.
fn repeated_cell(leaf: &Leaf, n: u64, store: &mut Store) -> Result<Vec<Cell>, NoMemory>
    requires { IsLawfulLeaf store.old leaf.now }
    ensures cells { IfOk result (λ cells. cells.items
        ≡ replicate n (first (array_of store.old leaf.now))) }
    ensures counted { OnlyFetched store.old store.new 1 }
    ensures store { IsStore store.new }
{
    // It tells the proof that the store is one.
    let _counts = store.counts();
    let cell = first_cell(leaf, store);
    Ok(vec![in leaf.desc().shape.allocator(); cell; n as usize]?)
}

/// A shape with another length of an axis, or LIMIT ERROR exactly where that is none.
pub fn with_length(shape: &Shape, axis: usize, n: u64) -> Result<Shape, ErrorKind>
    requires { axis < length shape.now }
    ensures shape { IfOk result (λ other. (other ≡ slice_set shape.now axis n) × IsShape other) }
    ensures refused { IfErr result (λ kind. (kind ≡ error.Limit)
        × ¬ (IsShape (slice_set shape.now axis n))) }
{
    let mut lengths = held_inline(shape.allocator(), shape.lengths());
    lengths.as_mut_slice()[axis] = n;
    match Shape::of(shape.allocator(), lengths.as_slice()) {
        Ok(other) => Ok(other),
        Err(_) => Err(ErrorKind::Limit),
    }
}

// The lengths as a list that takes no memory.
fn held_inline(alloc: Global, lengths: &[u64]) -> SmallVec<u64, 8>
    requires { length lengths.now ≤ 8 }
    ensures items { result.items ≡ lengths.now }
    ensures capacity { result.capacity ≡ 8 }
{
    match SmallVec::from_slice(alloc, lengths) {
        Ok(held) => held,
        Err(_) => unreachable!(),
    }
}
