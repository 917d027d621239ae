//! Inner products.
ghost use Rattle.std.specs.Prelude.{◌≡◌, ℕ, ◌+◌, ◌-◌, ◌*◌, ◌/◌, ◌%◌, ◌^◌, ◌<◌, ◌≤◌, ◌↔◌, true, false, [], length, IsOk, IsTrue, IfOk, OnOk, IfSome, IfNone, MatchBool, vec_capacity};
ghost use Rattle.apl_base.specs.Array.{IsShape, size_of};
ghost use Rattle.array_store.specs.Stores.{IsStore, HasRoom, counted};
ghost use Rattle.array_store.specs.Counting.{OnlyFetched, OnlyComputed, Computed};
ghost use Rattle.drag_along.specs.Nodes.{leaf_shape};
ghost use Rattle.drag_along.specs.Lawful.{IsLawfulLeaf};
ghost use Rattle.leaf_names.specs.Variables.{array_of};
ghost use Rattle.apl_model.specs.Whole.{is_extendable};
ghost use Rattle.apl_model.specs.Product.{left_axes, right_axes, left_at, right_at, left_length, right_length, inner_length};
ghost use Rattle.scalar_table.specs.Columns.{cell_in};
ghost use Rattle.product_fns.specs.Inner.{IsInnerProduct, IsLengthFault, HasLength, AreInnerResults, HasUndefinedInner, AreLines, IsRepeated, inner_shape, inner_applications, shaped};

use crate::groups::size_behind;
use crate::lines::{Lined, fill_products};
use crate::shapes::joined_shape;
use apl_base::{Cell, Dya, ErrorKind, Kind, NoMemory, Shape, TooLarge};
use array_store::Store;
use drag_along::Leaf;
use made_leaf::{MadeFault, make_leaf, read_block, read_cells, room_for};
use std::alloc::Global;

/// `A f.g B`: for each line of the last axis of A and each of the first axis of B, `f/` of g of both. A scalar or a
/// vector of one element extends. The answer is the language's. LENGTH and LIMIT ERROR come before room is asked for,
/// DOMAIN ERROR after: `WsFull` comes exactly where the shape of the result is lawful and there is no room for its
/// elements.
pub fn inner(f: Dya, g: Dya, a: &Leaf, b: &Leaf, store: &mut Store) -> Result<Leaf, MadeFault>
    requires left { IsLawfulLeaf store.old a.now }
    requires right { IsLawfulLeaf store.old b.now }
    ensures answer { IsInnerProduct store.old store.new f g a.now b.now result }
    ensures applied { OnOk result (store.new.counts.applied ≡ counted store.old.counts.applied
        (inner_applications (array_of store.old a.now) (array_of store.old b.now))) }
    ensures store { IsStore store.new }
{
    // It tells the proof that the store is one.
    let _counts = store.counts();
    let left = &a.desc().shape;
    let right = &b.desc().shape;
    let Some(n) = length_of_lines(left, right) else {
        return Err(MadeFault::Error {
            kind: ErrorKind::Length,
        });
    };
    let Ok(shape) = shape_of_lines(left, right) else {
        return Err(MadeFault::Error {
            kind: ErrorKind::Limit,
        });
    };
    inner_within(f, g, a, b, n, &shape, store)
}

// The same where the lengths of the result make a shape.
fn inner_within(
    f: Dya,
    g: Dya,
    a: &Leaf,
    b: &Leaf,
    n: u64,
    shape: &Shape,
    store: &mut Store,
) -> Result<Leaf, MadeFault>
    requires left { IsLawfulLeaf store.old a.now }
    requires right { IsLawfulLeaf store.old b.now }
    requires goes { HasLength n (array_of store.old a.now) (array_of store.old b.now) }
    requires few { n ≤ 2 ^ 40 }
    requires shape { shape.now
        ≡ inner_shape (array_of store.old a.now) (array_of store.old b.now) }
    requires fits { IsShape shape.now }
    ensures answer { IsInnerProduct store.old store.new f g a.now b.now result }
    ensures applied { OnOk result (store.new.counts.applied ≡ counted store.old.counts.applied
        (inner_applications (array_of store.old a.now) (array_of store.old b.now))) }
    ensures store { IsStore store.new }
{
    match room_for(shape.size(), store) {
        Ok(cells) => inner_into(f, g, a, b, n, shape, cells, store),
        Err(refused) => Err(refused),
    }
}

// An inner product into an empty vector that has room for it.
fn inner_into(
    f: Dya,
    g: Dya,
    a: &Leaf,
    b: &Leaf,
    n: u64,
    shape: &Shape,
    cells: Vec<Cell>,
    store: &mut Store,
) -> Result<Leaf, MadeFault>
    requires left { IsLawfulLeaf store.old a.now }
    requires right { IsLawfulLeaf store.old b.now }
    requires goes { HasLength n (array_of store.old a.now) (array_of store.old b.now) }
    requires few { n ≤ 2 ^ 40 }
    requires shape { shape.now
        ≡ inner_shape (array_of store.old a.now) (array_of store.old b.now) }
    requires fits { IsShape shape.now }
    requires empty { cells.items ≡ [] }
    requires capacity { size_of shape.now ≤ vec_capacity cells }
    requires room { HasRoom store.old (size_of shape.now) }
    ensures answer { IsInnerProduct store.old store.new f g a.now b.now result }
    ensures applied { OnOk result (store.new.counts.applied ≡ counted store.old.counts.applied
        (inner_applications (array_of store.old a.now) (array_of store.old b.now))) }
    ensures store { IsStore store.new }
{
    let mut results = cells;
    let Ok(()) = results.resize(shape.size() as usize, 0) else {
        unreachable!()
    };
    match fill_inner(f, g, a, b, n, store, results.as_mut_slice()) {
        Ok(true) => match make_leaf(results, shape, Kind::Num, store) {
            Ok(leaf) => Ok(leaf),
            Err(_) => Err(MadeFault::NoMemory),
        },
        Ok(false) => Err(MadeFault::Error {
            kind: ErrorKind::Domain,
        }),
        Err(_) => Err(MadeFault::NoMemory),
    }
}

// Fills in the results: whether each is defined. It takes memory for the elements of both arguments and for a line.
fn fill_inner(
    f: Dya,
    g: Dya,
    a: &Leaf,
    b: &Leaf,
    n: u64,
    store: &mut Store,
    results: &mut [Cell],
) -> Result<bool, NoMemory>
    requires left { IsLawfulLeaf store.old a.now }
    requires right { IsLawfulLeaf store.old b.now }
    requires goes { HasLength n (array_of store.old a.now) (array_of store.old b.now) }
    requires few { n ≤ 2 ^ 40 }
    requires many { length results.old
        ≡ size_of (inner_shape (array_of store.old a.now) (array_of store.old b.now)) }
    requires few_results { length results.old ≤ 2 ^ 40 }
    ensures value { IfOk result (λ all. MatchBool all
        (AreInnerResults f g (array_of store.old a.now) (array_of store.old b.now) results.new)
        (HasUndefinedInner f g (array_of store.old a.now) (array_of store.old b.now)
        (length results.old))) }
    ensures counted { OnlyComputed store.old store.new (length results.old * (n + (n - 1)))
        (size_of (leaf_shape a.now) + size_of (leaf_shape b.now)) }
    ensures all { IfOk result (λ all. IsTrue all → Computed store.old store.new
        (length results.old * (n + (n - 1)))
        (size_of (leaf_shape a.now) + size_of (leaf_shape b.now))) }
    ensures store { IsStore store.new }
{
    // It tells the proof that the counts are numbers of a machine.
    let _counts = store.counts();
    if results.is_empty() {
        return Ok(true);
    }
    let q = columns(&b.desc().shape);
    let left = left_lines(a, n, store)?;
    let right = right_lines(b, n, q, store)?;
    let mut buffer = vec![in b.desc().shape.allocator(); 0; n as usize]?;
    let line = buffer.as_mut_slice();
    Ok(fill_products(f, g, &left, &right, q as usize, store, line, results))
}

// How many lines the right argument has, where there are some.
fn columns(b: &Shape) -> u64
    requires some { 0 < size_of (right_axes (shaped b.now)) }
    requires few { size_of (right_axes (shaped b.now)) ≤ 2 ^ 40 }
    ensures value { result ≡ size_of (right_axes (shaped b.now)) }
    ensures few { result ≤ 2 ^ 40 }
{
    if extends(b) { 1 } else { size_behind(b, 0) }
}

// Whether an array of this shape extends: a scalar or a vector of one element.
fn extends(shape: &Shape) -> bool
    ensures { result ≡ is_extendable (shaped shape.now) }
{
    shape.size() == 1 && shape.rank() <= 1
}

// How long the axis is that goes; none where both have one and these differ.
fn length_of_lines(a: &Shape, b: &Shape) -> Option<u64>
    ensures goes { IfSome result (λ n. HasLength n (shaped a.now) (shaped b.now)) }
    ensures missing { IfNone result (IsLengthFault (shaped a.now) (shaped b.now)) }
    ensures few { IfSome result (λ n. n ≤ 2 ^ 40) }
{
    let left = extends(a);
    let right = extends(b);
    if left && right {
        Some(1)
    } else if left {
        Some(b.len(0))
    } else {
        let n = a.len(a.rank() - 1);
        if right || b.len(0) == n {
            Some(n)
        } else {
            None
        }
    }
}

// The shape of the result: there is one exactly where its lengths make one.
fn shape_of_lines(a: &Shape, b: &Shape) -> Result<Shape, TooLarge>
    ensures joined { IfOk result (λ shape. shape ≡ inner_shape (shaped a.now) (shaped b.now)) }
    ensures exact { IsOk result ↔ IsShape (inner_shape (shaped a.now) (shaped b.now)) }
{
    let kept = if extends(a) { 0 } else { a.rank() - 1 };
    let gone = if extends(b) { b.rank() } else { 1 };
    joined_shape(a.allocator(), &a.lengths()[..kept], &b.lengths()[gone..])
}

// The lines of the left argument, one for each index of the axes that stay: its cells stand that way already.
fn left_lines(a: &Leaf, n: u64, store: &mut Store) -> Result<Lined, NoMemory>
    requires lawful { IsLawfulLeaf store.old a.now }
    requires length { is_extendable (array_of store.old a.now) ≡ false
        → n ≡ left_length (array_of store.old a.now) }
    requires few { n ≤ 2 ^ 40 }
    ensures lines { IfOk result (λ lines. AreLines (left_at (array_of store.old a.now))
        (left_axes (array_of store.old a.now)) n lines.kind lines.cells.items) }
    ensures few { IfOk result (λ lines. length lines.cells.items ≤ 2 ^ 40) }
    ensures counted { OnlyFetched store.old store.new (size_of (leaf_shape a.now)) }
    ensures store { IsStore store.new }
{
    // It tells the proof that the counts are numbers of a machine.
    let _counts = store.counts();
    let _size = a.desc().size();
    if extends(&a.desc().shape) {
        return repeated(a, n, store);
    }
    let kind = a.kind();
    match read_cells(a, store) {
        Ok(cells) => Ok(Lined { kind, cells }),
        Err(NoMemory) => Err(NoMemory),
    }
}

// The lines of the right argument, one for each of the `q` indices of the axes that stay.
fn right_lines(b: &Leaf, n: u64, q: u64, store: &mut Store) -> Result<Lined, NoMemory>
    requires lawful { IsLawfulLeaf store.old b.now }
    requires length { is_extendable (array_of store.old b.now) ≡ false
        → n ≡ right_length (array_of store.old b.now) }
    requires few { n ≤ 2 ^ 40 }
    requires columns { q ≡ size_of (right_axes (array_of store.old b.now)) }
    ensures lines { IfOk result (λ lines. AreLines (right_at (array_of store.old b.now))
        (right_axes (array_of store.old b.now)) n lines.kind lines.cells.items) }
    ensures counted { OnlyFetched store.old store.new (size_of (leaf_shape b.now)) }
    ensures store { IsStore store.new }
{
    // It tells the proof that the counts are numbers of a machine.
    let _counts = store.counts();
    let _size = b.desc().size();
    if extends(&b.desc().shape) {
        return repeated(b, n, store);
    }
    let kind = b.kind();
    let alloc = b.desc().shape.allocator();
    let Ok(cells) = read_cells(b, store) else {
        return Err(NoMemory);
    };
    let Ok(mut lines) = zeros(alloc, cells.len()) else {
        return Err(NoMemory);
    };
    transpose(
        cells.as_slice(),
        n as usize,
        q as usize,
        lines.as_mut_slice(),
    );
    Ok(Lined { kind, cells: lines })
}

// As many zeros.
fn zeros(alloc: Global, many: usize) -> Result<Vec<Cell>, NoMemory>
    ensures { IfOk result (λ cells. length cells.items ≡ many) }
{
    let cells = vec![in alloc; 0; many]?;
    Ok(cells)
}

// The columns of n rows of q cells, one behind the other.
fn transpose(cells: &[Cell], n: usize, q: usize, lines: &mut [Cell])
    requires many { length cells.now ≡ n * q }
    requires same { length lines.old ≡ length cells.now }
    ensures each { (p : ℕ) → p < length cells.now
        → cell_in lines.new p ≡ cell_in cells.now (p % n * q + p / n) }
{
    for p in 0..lines.len() {
        lines[p] = cells[p % n * q + p / n];
    }
}

// The one element of a leaf, n times.
fn repeated(leaf: &Leaf, n: u64, store: &mut Store) -> Result<Lined, NoMemory>
    requires lawful { IsLawfulLeaf store.old leaf.now }
    requires extends { is_extendable (array_of store.old leaf.now) ≡ true }
    requires few { n ≤ 2 ^ 40 }
    ensures each { IfOk result (λ lines. IsRepeated (array_of store.old leaf.now) n
        lines.kind lines.cells.items) }
    ensures counted { OnlyFetched store.old store.new (size_of (leaf_shape leaf.now)) }
    ensures store { IsStore store.new }
{
    // It tells the proof that the counts are numbers of a machine.
    let _counts = store.counts();
    let kind = leaf.kind();
    let alloc = leaf.desc().shape.allocator();
    let mut cell = [0];
    read_block(leaf, 0, store, &mut cell);
    let Ok(cells) = vec![in alloc; cell[0]; n as usize] else {
        return Err(NoMemory);
    };
    Ok(Lined { kind, cells })
}
