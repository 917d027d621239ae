//! Each call of descriptors against a listing made elsewhere.

ghost use Rattle.std.specs.Prelude.{◌≡◌, ◌<◌, ◌++◌, length, slice_index};
ghost use Rattle.apl_base.specs.Array.{IsShape, size_of};
ghost use Rattle.apl_base.specs.Selection.{CountsFit, AreAxes, axes_rank, run_shape};
ghost use Rattle.array_desc.specs.Desc.{RunFits};

use crate::numbers_from;
use apl_base::{Cell, Interval, Shape};
use array_desc::Desc;
use std::alloc::{AllocError, Global};
use std::test::Fail;

// A row of the table has the lengths of a whole array, what the call is given, and the base, strides and lengths
// that must come. These were found by listing every index of the result and the place that it reads.
fn is(made: &Desc, base: Cell, strides: &[Cell], lengths: &[u64]) -> bool {
    made.base == base && made.strides.as_slice() == strides && made.shape.lengths() == lengths
}

// The shape of these lengths.
fn shape(alloc: Global, lengths: &[u64]) -> Shape
    requires { IsShape lengths.now }
    ensures { result ≡ lengths.now }
{
    match Shape::of(alloc, lengths) {
        Ok(shape) => shape,
        Err(_) => unreachable!(),
    }
}

// The whole of an array of these lengths.
fn whole(alloc: Global, lengths: &[u64]) -> Desc
    requires { IsShape lengths.now }
    ensures { result.shape ≡ lengths.now }
{
    Desc::whole(&shape(alloc, lengths))
}

fn takes(
    alloc: Global,
    of: &[u64],
    counts: &[i64],
    base: Cell,
    strides: &[Cell],
    lengths: &[u64],
) -> bool
    requires shape { IsShape of.now }
    requires counts { CountsFit of.now counts.now }
{
    let mut made = whole(alloc, of);
    made.take(counts);
    is(&made, base, strides, lengths)
}

#[test]
fn take_rows(rt: HostRuntime) {
    let alloc = rt.alloc();
    assert!(rt; takes(alloc, &[3], &[-2], 1, &[1], &[2]));
    assert!(rt; takes(alloc, &[2, 3], &[1, -2], 1, &[0, 1], &[1, 2]));
    assert!(rt; takes(alloc, &[2, 0], &[-2, 0], 0, &[0, 0], &[2, 0]));
}

fn skips(
    alloc: Global,
    of: &[u64],
    counts: &[i64],
    base: Cell,
    strides: &[Cell],
    lengths: &[u64],
) -> bool
    requires shape { IsShape of.now }
    requires counts { CountsFit of.now counts.now }
{
    let mut made = whole(alloc, of);
    made.skip(counts);
    is(&made, base, strides, lengths)
}

#[test]
fn skip_rows(rt: HostRuntime) {
    let alloc = rt.alloc();
    assert!(rt; skips(alloc, &[3], &[2], 2, &[0], &[1]));
    assert!(rt; skips(alloc, &[2, 3], &[1, -1], 3, &[0, 1], &[1, 2]));
}

fn reverses(
    alloc: Global,
    of: &[u64],
    axis: usize,
    base: Cell,
    strides: &[Cell],
    lengths: &[u64],
) -> bool
    requires shape { IsShape of.now }
    requires axis { axis < length of.now }
{
    let mut made = whole(alloc, of);
    made.reverse(axis);
    is(&made, base, strides, lengths)
}

#[test]
fn reversal_rows(rt: HostRuntime) {
    let alloc = rt.alloc();
    assert!(rt; reverses(alloc, &[2, 3], 1, 2, &[3, -1], &[2, 3]));
    assert!(rt; reverses(alloc, &[2, 0, 3], 2, 0, &[0, 0, 0], &[2, 0, 3]));
}

fn transposes(
    alloc: Global,
    of: &[u64],
    axes: &[usize],
    base: Cell,
    strides: &[Cell],
    lengths: &[u64],
) -> bool
    requires shape { IsShape of.now }
    requires count { length axes.now ≡ length of.now }
    requires axes { AreAxes (axes_rank axes.now) axes.now }
{
    let mut made = whole(alloc, of);
    made.transpose(axes);
    is(&made, base, strides, lengths)
}

#[test]
fn transposition_rows(rt: HostRuntime) {
    let alloc = rt.alloc();
    assert!(rt; transposes(alloc, &[2, 3], &[1, 0], 0, &[1, 3], &[3, 2]));
    assert!(rt; transposes(alloc, &[2, 3, 4], &[0, 1, 0], 0, &[13, 4], &[2, 3]));
}

fn is_at(
    alloc: Global,
    of: &[u64],
    axis: usize,
    i: u64,
    base: Cell,
    strides: &[Cell],
    lengths: &[u64],
) -> bool
    requires shape { IsShape of.now }
    requires axis { axis < length of.now }
    requires place { i < slice_index of.now axis }
{
    let mut made = whole(alloc, of);
    made.at(axis, i);
    is(&made, base, strides, lengths)
}

#[test]
fn place_rows(rt: HostRuntime) {
    let alloc = rt.alloc();
    assert!(rt; is_at(alloc, &[2, 3], 0, 1, 3, &[1], &[3]));
    assert!(rt; is_at(alloc, &[2, 0], 0, 1, 0, &[0], &[0]));
}

fn runs(
    alloc: Global,
    of: &[u64],
    axis: usize,
    from: u64,
    step: i64,
    n: u64,
    base: Cell,
    strides: &[Cell],
    lengths: &[u64],
) -> bool
    requires shape { IsShape of.now }
    requires axis { axis < length of.now }
    requires places { RunFits (slice_index of.now axis) from step n }
    requires lengths { IsShape (run_shape axis n of.now) }
{
    let mut made = whole(alloc, of);
    made.progression(axis, from, step, n);
    is(&made, base, strides, lengths)
}

#[test]
fn progression_rows(rt: HostRuntime) {
    let alloc = rt.alloc();
    assert!(rt; runs(alloc, &[3], 0, 9, 5, 0, 0, &[0], &[0]));
    assert!(rt; runs(alloc, &[2, 3], 1, 2, -2, 2, 2, &[3, -2], &[2, 2]));
}

fn extends(
    alloc: Global,
    of: &[u64],
    to: &[u64],
    base: Cell,
    strides: &[Cell],
    lengths: &[u64],
) -> bool
    requires shape { IsShape of.now }
    requires size { size_of of.now ≡ 1 }
    requires to { IsShape to.now }
{
    let mut made = whole(alloc, of);
    made.extend(&shape(alloc, to));
    is(&made, base, strides, lengths)
}

#[test]
fn extension_rows(rt: HostRuntime) {
    let alloc = rt.alloc();
    assert!(rt; extends(alloc, &[], &[2, 3], 0, &[0, 0], &[2, 3]));
    assert!(rt; extends(alloc, &[1, 1], &[0, 2], 0, &[0, 0], &[0, 2]));
}

fn joins_left(
    alloc: Global,
    of: &[u64],
    right: &[u64],
    base: Cell,
    strides: &[Cell],
    lengths: &[u64],
) -> bool
    requires shape { IsShape of.now }
    requires right { IsShape right.now }
    requires joined { IsShape (of.now ++ right.now) }
{
    let mut made = whole(alloc, of);
    made.outer_left(&shape(alloc, right));
    is(&made, base, strides, lengths)
}

#[test]
fn outer_left_rows(rt: HostRuntime) {
    let alloc = rt.alloc();
    assert!(rt; joins_left(alloc, &[3], &[2], 0, &[1, 0], &[3, 2]));
    assert!(rt; joins_left(alloc, &[2], &[0], 0, &[0, 0], &[2, 0]));
}

fn joins_right(
    alloc: Global,
    of: &[u64],
    left: &[u64],
    base: Cell,
    strides: &[Cell],
    lengths: &[u64],
) -> bool
    requires shape { IsShape of.now }
    requires left { IsShape left.now }
    requires joined { IsShape (left.now ++ of.now) }
{
    let mut made = whole(alloc, of);
    made.outer_right(&shape(alloc, left));
    is(&made, base, strides, lengths)
}

#[test]
fn outer_right_rows(rt: HostRuntime) {
    let alloc = rt.alloc();
    assert!(rt; joins_right(alloc, &[3], &[2], 0, &[0, 1], &[2, 3]));
    assert!(rt; joins_right(alloc, &[1, 2], &[3], 0, &[0, 0, 1], &[3, 1, 2]));
}

fn is_whole(alloc: Global, of: &[u64], strides: &[Cell]) -> bool
    requires { IsShape of.now }
{
    let made = whole(alloc, of);
    is(&made, 0, strides, of) && made.copy().is_whole()
}

#[test]
fn whole_rows(rt: HostRuntime) {
    let alloc = rt.alloc();
    assert!(rt; is_whole(alloc, &[], &[]));
    assert!(rt; is_whole(alloc, &[2, 0, 3], &[0, 0, 0]));
    assert!(rt; is_whole(alloc, &[2, 1, 3], &[3, 0, 1]));
}

fn whole_range(alloc: Global, of: &[u64]) -> Interval
    requires { IsShape of.now }
{
    whole(alloc, of).least_and_greatest()
}

#[test]
fn line_rows(rt: HostRuntime) {
    let alloc = rt.alloc();
    let down = Desc::line(alloc, 7, -2, 4);
    assert!(rt; is(&down, 7, &[-2], &[4]));
    assert_eq!(rt; down.least_and_greatest(), Interval::Span { lo: 1, hi: 7 });
    assert!(rt; is(&Desc::line(alloc, 7, -2, 1), 7, &[0], &[1]));
    assert!(rt; is(&Desc::line(alloc, 7, -2, 0), 0, &[0], &[0]));
    assert!(rt; is(&Desc::one(alloc, -9), -9, &[], &[]));
}

#[test]
fn range_rows(rt: HostRuntime) {
    let alloc = rt.alloc();
    assert_eq!(rt;
        whole_range(alloc, &[2, 3]),
        Interval::Span { lo: 0, hi: 5 }
    );
    assert_eq!(rt; whole_range(alloc, &[2, 0]), Interval::Empty);
    assert_eq!(rt; whole_range(alloc, &[]), Interval::Span { lo: 0, hi: 0 });
}

// Whether the numbers from a place on, with an axis turned round, are these.
fn walks(
    alloc: Global,
    of: &[u64],
    axis: usize,
    first: u64,
    most: u64,
    numbers: &[Cell],
) -> Result<bool, AllocError>
    requires shape { IsShape of.now }
    requires axis { axis < length of.now }
    requires some { 0 < most }
{
    let mut made = whole(alloc, of);
    made.reverse(axis);
    let walked = numbers_from(alloc, &made, first, most)?;
    Ok(walked.as_slice() == numbers)
}

#[test]
fn walk_rows(rt: HostRuntime) -> Result<(), Fail> {
    let alloc = rt.alloc();
    assert!(rt; walks(alloc, &[3], 0, 0, 2, &[2, 1, 0])?);
    assert!(rt; walks(alloc, &[2, 3], 0, 1, 2, &[4, 5, 0, 1, 2])?);
    assert!(rt; walks(alloc, &[2, 2, 2], 1, 0, 9, &[2, 3, 0, 1, 6, 7, 4, 5])?);
    Ok(())
}
