//! Reductions of whole leaves into cells that are there already.
ghost use Rattle.std.specs.Prelude.{◌≡◌, suc, ◌-◌, ◌*◌, ◌/◌, ◌^◌, ◌<◌, ◌≤◌, length, drop, remove, slice_index, None, IsTrue, IfOk, MatchBool};
ghost use Rattle.apl_base.specs.Array.{size_of};
ghost use Rattle.apl_base.specs.Scalar.{identity_of};
ghost use Rattle.array_store.specs.Stores.{IsStore};
ghost use Rattle.array_store.specs.Counting.{OnlyComputed, Computed};
ghost use Rattle.drag_along.specs.Nodes.{leaf_shape};
ghost use Rattle.drag_along.specs.Lawful.{IsLawfulLeaf};
ghost use Rattle.leaf_names.specs.Variables.{array_of};
ghost use Rattle.product_fns.specs.Folding.{rows_of, rows_along, HasUndefined, AreAllResults, IsIdentity};

use crate::rows::reduce_group;
use apl_base::{Cell, Dya, NoMemory, Shape};
use array_store::Store;
use drag_along::Leaf;
use scalar_table::identity;

/// How many cells a line is read by at a time.
const BLOCK: u64 = 1024;

/// Reduces a leaf along an axis into as many cells as the result has elements: whether each is defined. It takes memory
/// for a block of a line, or for a row.
pub(crate) fn fill_results(
    f: Dya,
    axis: usize,
    leaf: &Leaf,
    shape: &Shape,
    store: &mut Store,
    results: &mut [Cell],
) -> Result<bool, NoMemory>
    requires lawful { IsLawfulLeaf store.old leaf.now }
    requires shape { shape.now ≡ leaf_shape leaf.now }
    requires axis { axis < length shape.now }
    requires many { length results.old ≡ size_of (remove shape.now axis) }
    requires few { length results.old ≤ 2 ^ 40 }
    ensures value { IfOk result (λ all. MatchBool all
        (AreAllResults (rows_along f axis (array_of store.old leaf.now)) results.new)
        (HasUndefined (rows_along f axis (array_of store.old leaf.now)) (length results.old))) }
    ensures counted { OnlyComputed store.old store.new
        (length results.old * (slice_index shape.now axis - 1)) (size_of shape.now) }
    ensures all { IfOk result (λ all. IsTrue all → Computed store.old store.new
        (length results.old * (slice_index shape.now axis - 1)) (size_of shape.now)) }
    ensures store { IsStore store.new }
{
    // It tells the proof that the counts are numbers of a machine.
    let _counts = store.counts();
    let n = shape.len(axis);
    if results.is_empty() {
        return Ok(true);
    }
    if n == 0 {
        return Ok(fill_identity(f, results));
    }
    let q = size_behind(shape, axis);
    let mut buffer = vec![in shape.allocator(); 0; buffer_length(n, q)]?;
    Ok(reduce_groups(
        f,
        leaf,
        n,
        q as usize,
        store,
        buffer.as_mut_slice(),
        results,
    ))
}

// How long a buffer is: a block of a line of n elements, or one row of q.
fn buffer_length(n: u64, q: u64) -> usize
    requires line { 0 < n }
    requires row { 0 < q }
    ensures some { 0 < result }
    ensures row { 1 < q → result ≡ q }
{
    if q == 1 {
        n.min(BLOCK) as usize
    } else {
        q as usize
    }
}

// Gives each result the identity of the function: whether there is one.
fn fill_identity(f: Dya, results: &mut [Cell]) -> bool
    requires { 0 < length results.old }
    ensures { MatchBool result (IsIdentity f results.new) (identity_of f ≡ None) }
{
    let Some(value) = identity(f) else {
        return false;
    };
    for slot in results.iter_mut() {
        *slot = value;
    }
    true
}

// The number of elements behind an axis, where each axis but that one has some.
pub(crate) fn size_behind(shape: &Shape, axis: usize) -> u64
    requires axis { axis < length shape.now }
    requires some { 0 < size_of (remove shape.now axis) }
    requires few { size_of (remove shape.now axis) ≤ 2 ^ 40 }
    ensures value { result ≡ size_of (drop (suc axis) shape.now) }
    ensures bound { result ≤ 2 ^ 40 }
{
    match Shape::of(shape.allocator(), &shape.lengths()[axis + 1..]) {
        Ok(behind) => behind.size(),
        Err(_) => unreachable!(),
    }
}

// Reduces groups of n rows of q cells, one after the other.
fn reduce_groups(
    f: Dya,
    leaf: &Leaf,
    n: u64,
    q: usize,
    store: &mut Store,
    buffer: &mut [Cell],
    results: &mut [Cell],
) -> bool
    requires lawful { IsLawfulLeaf store.old leaf.now }
    requires some { 0 < n }
    requires row { 0 < q }
    requires buffer { 0 < length buffer.old }
    requires long { 1 < q → length buffer.old ≡ q }
    requires whole { length results.old / q * q ≡ length results.old }
    requires places { n * length results.old ≤ size_of (leaf_shape leaf.now) }
    ensures value { MatchBool result
        (AreAllResults (rows_of store.old f leaf.now n q) results.new)
        (HasUndefined (rows_of store.old f leaf.now n q) (length results.old)) }
    ensures counted { OnlyComputed store.old store.new
        (length results.old * (n - 1)) (length results.old * n) }
    ensures all { IsTrue result → Computed store.old store.new
        (length results.old * (n - 1)) (length results.old * n) }
    ensures store { IsStore store.new }
{
    // They tell the proof that the counts and the places are numbers of a machine.
    let _counts = store.counts();
    let _size = leaf.desc().size();
    for i in 0..results.len() / q {
        let at = i * q;
        let first = at as u64 * n;
        if !reduce_group(f, leaf, first, n, store, buffer, &mut results[at..at + q]) {
            return false;
        }
    }
    true
}
