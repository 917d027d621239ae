//! Selections against tables of descriptors.

ghost use Rattle.std.specs.Prelude.{◌≡◌, ◌<◌, ◌≤◌, false, length, map, ◌++◌, IfOk};
ghost use Rattle.drag_along.specs.Nodes.{functions_in};
ghost use Rattle.apl_base.specs.Array.{IsShape, size_of};
ghost use Rattle.apl_base.specs.Selection.{CountsFit, AreAxes, axes_rank, subscript_shape};
ghost use Rattle.beating.specs.Selecting.{Fits, ItemsFit, position_of};

use apl_base::{Cell, Dya, Interval, Kind, M, Mon, Place, Shape};
use array_desc::Desc;
use array_store::{OwnerId, Store};
use beating::{Item, Selection, select};
use drag_along::{Leaf, Node, Segment, join1, join2};
use smallvec::SmallVec;
use std::alloc::Global;
use std::test::Fail;

// A row of the table has the lengths of whole arrays, a selection, and the base, strides and lengths that must come.
// These were found by listing every index of the result and the place that it reads.

const ALL: Item = Item::All;

// One place of an axis.
fn at(i: u64) -> Item
    ensures { result ≡ Item.At i }
{
    Item::At { i }
}

// A run of places of an axis.
fn run(from: u64, step: i64, n: u64) -> Item
    ensures { result ≡ Item.Run from step n }
{
    Item::Run { from, step, n }
}

// The elements as a list that takes no memory.
fn held<T: Copy + Default + Drop>(alloc: Global, list: &[T]) -> SmallVec<T, 8>
    requires { length list.now ≤ 8 }
    ensures { result.items ≡ list.now }
{
    match SmallVec::from_slice(alloc, list) {
        Ok(held) => held,
        Err(_) => unreachable!(),
    }
}

// The shape of these lengths.
fn shape(alloc: Global, lengths: &[u64]) -> Shape
    requires { IsShape lengths.now }
    ensures { result ≡ lengths.now }
{
    match Shape::of(alloc, lengths) {
        Ok(shape) => shape,
        Err(_) => unreachable!(),
    }
}

// An owner without cells.
fn owner(alloc: Global) -> Result<OwnerId, Fail> {
    let mut store = Store::new(alloc, 0);
    Ok(store.make(store.begin(0)?, Kind::Num)?)
}

// The whole of an owner, or the places themselves.
fn whole(alloc: Global, of: &Shape, is_stored: bool) -> Result<Segment, Fail>
    ensures shape { IfOk result (λ s. s.shape ≡ of.now) }
    ensures functions { IfOk result (λ s. functions_in s.nodes ≡ 0) }
{
    let desc = Desc::whole(of);
    let leaf = if is_stored {
        Leaf::Stored {
            owner: owner(alloc)?,
            desc,
            kind: Kind::Num,
        }
    } else {
        Leaf::Gen {
            desc,
            kind: Kind::Num,
        }
    };
    Ok(Segment::of_leaf(alloc, leaf, Interval::Span { lo: -M, hi: M })?)
}

// `A ⌈ - B`, pending.
fn pending(alloc: Global, of: &Shape) -> Result<Segment, Fail>
    ensures { IfOk result (λ s. s.shape ≡ of.now) }
{
    let place = Place { line: 1, column: 2 };
    let right = join1(whole(alloc, of, false)?, Mon::Minus, place)?;
    Ok(join2(right, whole(alloc, of, true)?, Dya::Max, place)?)
}

// Whether a descriptor has just this base, these strides and these lengths.
fn is(made: &Desc, base: Cell, strides: &[Cell], lengths: &[u64]) -> bool {
    made.base == base && made.strides.as_slice() == strides && made.shape.lengths() == lengths
}

// Whether all leaves have this descriptor.
fn shows(s: &Segment, base: Cell, strides: &[Cell], lengths: &[u64]) -> bool {
    for node in &s.nodes {
        if let Node::Operand { leaf } = node
            && !is(leaf.desc(), base, strides, lengths)
        {
            return false;
        }
    }
    s.shape.lengths() == lengths && !s.may_fail
}

// Whether a selection gives every leaf this descriptor.
fn selects(
    alloc: Global,
    of: &[u64],
    by: &Selection,
    base: Cell,
    strides: &[Cell],
    lengths: &[u64],
) -> Result<bool, Fail>
    requires shape { IsShape of.now }
    requires fits { Fits by.now of.now }
{
    let of = shape(alloc, of);
    let mut leaf = whole(alloc, &of, true)?;
    let mut functions = pending(alloc, &of)?;
    if leaf.may_fail || functions.may_fail {
        return Ok(false);
    }
    select(&mut leaf, by);
    select(&mut functions, by);
    Ok(shows(&leaf, base, strides, lengths) && shows(&functions, base, strides, lengths))
}

// Whether a take gives this descriptor.
fn takes(
    alloc: Global,
    of: &[u64],
    counts: &[i64],
    base: Cell,
    strides: &[Cell],
    lengths: &[u64],
) -> Result<bool, Fail>
    requires shape { IsShape of.now }
    requires few { length counts.now ≤ 8 }
    requires counts { CountsFit of.now counts.now }
{
    let by = Selection::Take {
        counts: held(alloc, counts),
    };
    selects(alloc, of, &by, base, strides, lengths)
}

// The rows of the table of takes.
#[test]
fn take_rows(rt: HostRuntime) -> Result<(), Fail> {
    let alloc = rt.alloc();
    assert!(rt; takes(alloc, &[2, 0], &[-2, 0], 0, &[0, 0], &[2, 0])?);
    assert!(rt;
        takes(
            alloc,
            &[2, 1, 3, 2],
            &[-1, 1, 2, -1],
            7,
            &[0, 0, 2, 0],
            &[1, 1, 2, 1]
        )?
    );
    Ok(())
}

// Whether a drop gives this descriptor.
fn skips(
    alloc: Global,
    of: &[u64],
    counts: &[i64],
    base: Cell,
    strides: &[Cell],
    lengths: &[u64],
) -> Result<bool, Fail>
    requires shape { IsShape of.now }
    requires few { length counts.now ≤ 8 }
    requires counts { CountsFit of.now counts.now }
{
    let by = Selection::Skip {
        counts: held(alloc, counts),
    };
    selects(alloc, of, &by, base, strides, lengths)
}

// The rows of the table of drops.
#[test]
fn skip_rows(rt: HostRuntime) -> Result<(), Fail> {
    let alloc = rt.alloc();
    assert!(rt; skips(alloc, &[3], &[-1], 0, &[1], &[2])?);
    assert!(rt;
        skips(
            alloc,
            &[2, 1, 3, 2],
            &[-1, 0, 2, 1],
            5,
            &[0, 0, 0, 0],
            &[1, 1, 1, 1]
        )?
    );
    Ok(())
}

// Whether a reversal gives this descriptor.
fn reverses(
    alloc: Global,
    of: &[u64],
    axis: usize,
    base: Cell,
    strides: &[Cell],
    lengths: &[u64],
) -> Result<bool, Fail>
    requires shape { IsShape of.now }
    requires axis { axis < length of.now }
{
    let by = Selection::Reverse { axis };
    selects(alloc, of, &by, base, strides, lengths)
}

// The rows of the table of reversals.
#[test]
fn reversal_rows(rt: HostRuntime) -> Result<(), Fail> {
    let alloc = rt.alloc();
    assert!(rt; reverses(alloc, &[0], 0, 0, &[0], &[0])?);
    assert!(rt; reverses(alloc, &[2, 1, 3, 2], 2, 4, &[6, 0, -2, 1], &[2, 1, 3, 2])?);
    Ok(())
}

// Whether a transposition gives this descriptor.
fn transposes(
    alloc: Global,
    of: &[u64],
    axes: &[usize],
    base: Cell,
    strides: &[Cell],
    lengths: &[u64],
) -> Result<bool, Fail>
    requires shape { IsShape of.now }
    requires few { length axes.now ≤ 8 }
    requires count { length axes.now ≡ length of.now }
    requires axes { AreAxes (axes_rank axes.now) axes.now }
{
    let by = Selection::Transpose {
        axes: held(alloc, axes),
    };
    selects(alloc, of, &by, base, strides, lengths)
}

// The rows of the table of transpositions.
#[test]
fn transposition_rows(rt: HostRuntime) -> Result<(), Fail> {
    let alloc = rt.alloc();
    assert!(rt; transposes(alloc, &[2, 3], &[1, 0], 0, &[1, 3], &[3, 2])?);
    assert!(rt; transposes(alloc, &[2, 3, 4], &[0, 1, 0], 0, &[13, 4], &[2, 3])?);
    Ok(())
}

// Whether a subscript gives this descriptor.
fn indexes(
    alloc: Global,
    of: &[u64],
    items: &[Item],
    base: Cell,
    strides: &[Cell],
    lengths: &[u64],
) -> Result<bool, Fail>
    requires shape { IsShape of.now }
    requires few { length items.now ≤ 8 }
    requires items { ItemsFit items.now of.now }
    requires lengths { IsShape (subscript_shape (map position_of items.now) of.now) }
{
    let by = Selection::Index {
        items: held(alloc, items),
    };
    selects(alloc, of, &by, base, strides, lengths)
}

// The rows of the table of subscripts.
#[test]
fn subscript_rows(rt: HostRuntime) -> Result<(), Fail> {
    let alloc = rt.alloc();
    assert!(rt; indexes(alloc, &[3], &[run(2, -1, 3)], 2, &[-1], &[3])?);
    assert!(rt; indexes(alloc, &[0, 3], &[ALL, at(2)], 0, &[0], &[0])?);
    assert!(rt;
        indexes(
            alloc,
            &[2, 3],
            &[run(1, 0, 5), run(2, -2, 2)],
            5,
            &[0, -2],
            &[5, 2]
        )?
    );
    Ok(())
}

// Subscripts with every kind of item on every axis.
#[test]
fn rows_of_every_item(rt: HostRuntime) -> Result<(), Fail> {
    let alloc = rt.alloc();
    assert!(rt;
        indexes(
            alloc,
            &[2, 3, 4, 5],
            &[at(1), run(2, -1, 3), ALL, run(4, -2, 2)],
            104,
            &[-20, 5, -2],
            &[3, 4, 2]
        )?
    );
    assert!(rt;
        indexes(
            alloc,
            &[2, 3, 2, 1],
            &[run(1, -1, 2), at(2), run(0, 0, 3), ALL],
            10,
            &[-6, 0, 0],
            &[2, 3, 1]
        )?
    );
    Ok(())
}

// An array as large as any, of which an axis doubles while another shrinks.
#[test]
fn a_row_of_many(rt: HostRuntime) -> Result<(), Fail> {
    let alloc = rt.alloc();
    assert!(rt;
        indexes(
            alloc,
            &[1 << 20, 1 << 20],
            &[run(5, 0, 1 << 21), run(3, 1, 1)],
            5_242_883,
            &[0, 0],
            &[1 << 21, 1]
        )?
    );
    Ok(())
}

// Whether an extension gives this descriptor.
fn extends(
    alloc: Global,
    of: &[u64],
    to: &[u64],
    base: Cell,
    strides: &[Cell],
    lengths: &[u64],
) -> Result<bool, Fail>
    requires shape { IsShape of.now }
    requires size { size_of of.now ≡ 1 }
    requires to { IsShape to.now }
{
    let by = Selection::Extend {
        to: shape(alloc, to),
    };
    selects(alloc, of, &by, base, strides, lengths)
}

// The rows of the table of extensions.
#[test]
fn extension_rows(rt: HostRuntime) -> Result<(), Fail> {
    let alloc = rt.alloc();
    assert!(rt; extends(alloc, &[], &[2, 3], 0, &[0, 0], &[2, 3])?);
    assert!(rt;
        extends(
            alloc,
            &[1, 1],
            &[2, 1, 3, 2],
            0,
            &[0, 0, 0, 0],
            &[2, 1, 3, 2]
        )?
    );
    Ok(())
}

// Whether the left argument of an outer product gets this descriptor.
fn joins_left(
    alloc: Global,
    of: &[u64],
    right: &[u64],
    base: Cell,
    strides: &[Cell],
    lengths: &[u64],
) -> Result<bool, Fail>
    requires shape { IsShape of.now }
    requires right { IsShape right.now }
    requires joined { IsShape (of.now ++ right.now) }
{
    let by = Selection::OuterLeft {
        right: shape(alloc, right),
    };
    selects(alloc, of, &by, base, strides, lengths)
}

// Whether the right argument of an outer product gets this descriptor.
fn joins_right(
    alloc: Global,
    of: &[u64],
    left: &[u64],
    base: Cell,
    strides: &[Cell],
    lengths: &[u64],
) -> Result<bool, Fail>
    requires shape { IsShape of.now }
    requires left { IsShape left.now }
    requires joined { IsShape (left.now ++ of.now) }
{
    let by = Selection::OuterRight {
        left: shape(alloc, left),
    };
    selects(alloc, of, &by, base, strides, lengths)
}

// The rows of the table of outer products.
#[test]
fn outer_rows(rt: HostRuntime) -> Result<(), Fail> {
    let alloc = rt.alloc();
    assert!(rt; joins_left(alloc, &[2], &[0], 0, &[0, 0], &[2, 0])?);
    assert!(rt; joins_left(alloc, &[2, 1], &[3, 2], 0, &[1, 0, 0, 0], &[2, 1, 3, 2])?);
    assert!(rt; joins_right(alloc, &[2], &[0], 0, &[0, 0], &[0, 2])?);
    assert!(rt; joins_right(alloc, &[1, 2], &[3, 2], 0, &[0, 0, 0, 1], &[3, 2, 1, 2])?);
    Ok(())
}
