//! Reductions of rows: groups of n rows of q cells, each of which gives one row of results.
ghost use Rattle.std.specs.Prelude.{◌≡◌, ◌+◌, ◌-◌, ◌*◌, ◌<◌, ◌≤◌, length, IsTrue, IsSome, MatchBool, MatchOption, All};
ghost use Rattle.apl_base.specs.Array.{size_of};
ghost use Rattle.apl_base.specs.Number.{IsCell};
ghost use Rattle.array_store.specs.Stores.{IsStore};
ghost use Rattle.array_store.specs.Counting.{OnlyComputed, Computed};
ghost use Rattle.drag_along.specs.Nodes.{leaf_kind, leaf_shape};
ghost use Rattle.drag_along.specs.Lawful.{IsLawfulLeaf};
ghost use Rattle.product_fns.specs.Folding.{rows_of, IsReduced, IsUndefined, IsLine, HasNoLine};

use crate::folds::fold;
use apl_base::{Cell, Dya, Elem, Kind};
use array_store::Store;
use drag_along::Leaf;
use made_leaf::read_block;
use scalar_table::apply2_column;

/// Reduces a group of n rows, the first element of which stands at the place `first` of the leaf's row-major order, to
/// a row of results: whether each is defined. A row of one cell goes through its column in blocks as long as the buffer;
/// longer rows go through the buffer, which is as long as one, one after the other.
pub(crate) fn reduce_group(
    f: Dya,
    leaf: &Leaf,
    first: u64,
    n: u64,
    store: &mut Store,
    buffer: &mut [Cell],
    results: &mut [Cell],
) -> bool
    requires lawful { IsLawfulLeaf store.old leaf.now }
    requires some { 0 < n }
    requires row { 0 < length results.old }
    requires buffer { 0 < length buffer.old }
    requires long { 1 < length results.old → length buffer.old ≡ length results.old }
    requires places { first + n * length results.old ≤ size_of (leaf_shape leaf.now) }
    ensures value { MatchBool result
        (IsReduced (rows_of store.old f leaf.now n (length results.old)) first results.new)
        (IsUndefined (rows_of store.old f leaf.now n (length results.old)) first) }
    ensures counted { OnlyComputed store.old store.new
        ((n - 1) * length results.old) (n * length results.old) }
    ensures all { IsTrue result → Computed store.old store.new
        ((n - 1) * length results.old) (n * length results.old) }
    ensures store { IsStore store.new }
{
    if results.len() == 1 {
        match reduce_line(f, leaf, first, n, store, buffer) {
            Some(value) => {
                results[0] = value.cell;
                true
            }
            None => false,
        }
    } else {
        reduce_rows(f, leaf, first, n, store, buffer, results)
    }
}

// Reduces n elements that stand one behind the other: from the end, in blocks as long as the buffer.
fn reduce_line(
    f: Dya,
    leaf: &Leaf,
    first: u64,
    n: u64,
    store: &mut Store,
    buffer: &mut [Cell],
) -> Option<Elem>
    requires lawful { IsLawfulLeaf store.old leaf.now }
    requires some { 0 < n }
    requires buffer { 0 < length buffer.old }
    requires places { first + n ≤ size_of (leaf_shape leaf.now) }
    ensures value { MatchOption result (HasNoLine (rows_of store.old f leaf.now n 1) first)
        (IsLine (rows_of store.old f leaf.now n 1) first) }
    ensures counted { OnlyComputed store.old store.new (n - 1) n }
    ensures all { IsSome result → Computed store.old store.new (n - 1) n }
    ensures store { IsStore store.new }
{
    // They tell the proof that the counts and the places are numbers of a machine.
    let _counts = store.counts();
    let _size = leaf.desc().size();
    read_block(leaf, first + n - 1, store, &mut buffer[..1]);
    let mut value = Elem {
        kind: leaf.kind(),
        cell: buffer[0],
    };
    let mut left = n - 1;
    while left > 0 {
        let count = left.min(buffer.len() as u64);
        left -= count;
        let block = &mut buffer[..count as usize];
        read_block(leaf, first + left, store, block);
        store.count_applied_many(count);
        let Some(next) = fold(f, leaf.kind(), block, value) else {
            return None;
        };
        value = next;
    }
    Some(value)
}

// Reduces n rows as long as the buffer and the results, the last one first.
fn reduce_rows(
    f: Dya,
    leaf: &Leaf,
    first: u64,
    n: u64,
    store: &mut Store,
    row: &mut [Cell],
    results: &mut [Cell],
) -> bool
    requires lawful { IsLawfulLeaf store.old leaf.now }
    requires some { 0 < n }
    requires long { length row.old ≡ length results.old }
    requires places { first + n * length results.old ≤ size_of (leaf_shape leaf.now) }
    ensures value { MatchBool result
        (IsReduced (rows_of store.old f leaf.now n (length results.old)) first results.new)
        (IsUndefined (rows_of store.old f leaf.now n (length results.old)) first) }
    ensures counted { OnlyComputed store.old store.new
        ((n - 1) * length results.old) (n * length results.old) }
    ensures all { IsTrue result → Computed store.old store.new
        ((n - 1) * length results.old) (n * length results.old) }
    ensures store { IsStore store.new }
{
    // They tell the proof that the counts and the places are numbers of a machine.
    let _counts = store.counts();
    let _size = leaf.desc().size();
    let q = results.len() as u64;
    let mut left = n - 1;
    read_block(leaf, first + left * q, store, results);
    let mut kind = leaf.kind();
    while left > 0 {
        left -= 1;
        read_block(leaf, first + left * q, store, row);
        store.count_applied_many(q);
        if let Some(_) = apply2_column(f, leaf.kind(), row, kind, results) {
            return false;
        }
        kind = Kind::Num;
    }
    true
}
