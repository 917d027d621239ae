ghost use Rattle.std.specs.Prelude.{◌≡◌, ◌≤◌};

use crate::{alike, reduced, scalar};
use apl_base::{Cell, Dya, ErrorKind, Kind, M, Shape};
use apl_model::Axis;
use array_store::Store;
use made_leaf::MadeFault;
use std::alloc::Global;
use std::test::Fail;

// A function, and what it makes of none, one, two and three of 2, 5 and 8, where it is defined.
#[derive(Clone, Copy)]
struct Row(Dya, [Option<Cell>; 4]);

// The lengths before and behind the axis that goes, and what tells it.
#[derive(Clone, Copy)]
struct Layout(&'static [u64], &'static [u64], Axis);

// What a function makes of so many elements of a kind.
fn wanted(row: &Row, kind: Kind, n: usize) -> Option<Cell>
    requires { n ≤ 3 }
{
    match (kind, n, row.0) {
        (Kind::Num, _, _) | (Kind::Char, 0, _) => row.1[n],
        (Kind::Char, 1, _) => Some(66),
        (Kind::Char, _, Dya::Eq) => Some(0),
        (Kind::Char, _, Dya::Ne) => Some(1),
        (Kind::Char, _, _) => None,
    }
}

// Whether the reduction of such lines is as wanted: its lengths and each of its elements, or a DOMAIN ERROR where it has
// some.
fn is_as_wanted(
    alloc: Global,
    row: &Row,
    kind: Kind,
    n: usize,
    layout: &Layout,
) -> Result<bool, Fail>
    requires { n ≤ 3 }
{
    let before = Shape::of(alloc, layout.0)?;
    let behind = Shape::of(alloc, layout.1)?;
    let many = u128::from(before.size()) * u128::from(behind.size());
    let Some(leaf) = alike(alloc, kind, n as u64, &before, &behind)? else {
        return Ok(false);
    };
    let mut store = Store::new(alloc, 100);
    let element = wanted(row, kind, n);
    match reduced(row.0, layout.2, &leaf, &mut store) {
        Ok(made) => Ok(
            are_around(layout, made.shape.lengths())
                && made.cells.len() as u128 == many
                && are_all(made.cells.as_slice(), element),
        ),
        Err(
            MadeFault::Error {
                kind: ErrorKind::Domain,
            },
        ) => Ok(many > 0 && element.is_none()),
        Err(_) => Ok(false),
    }
}

// Whether the lengths are those before the axis that goes, and then those behind.
fn are_around(layout: &Layout, lengths: &[u64]) -> bool {
    layout.0.iter().chain(layout.1.iter()).eq(lengths.iter())
}

// Whether each of the cells is this one.
fn are_all(cells: &[Cell], element: Option<Cell>) -> bool {
    cells.iter().all(|cell| Some(*cell) == element)
}

// The reductions of the first of 2, 5 and 8.
const ROWS: [Row; 18] = [
    Row(Dya::Add, [Some(0), Some(2), Some(7), Some(15)]),
    Row(Dya::Sub, [Some(0), Some(2), Some(-3), Some(5)]),
    Row(Dya::Mul, [Some(1), Some(2), Some(10), Some(80)]),
    Row(Dya::Div, [Some(1), Some(2), None, None]),
    Row(Dya::Pow, [Some(1), Some(2), Some(32), None]),
    Row(Dya::Max, [Some(-M), Some(2), Some(5), Some(8)]),
    Row(Dya::Min, [Some(M), Some(2), Some(2), Some(2)]),
    Row(Dya::Residue, [Some(0), Some(2), Some(1), Some(1)]),
    Row(Dya::And, [Some(1), Some(2), None, None]),
    Row(Dya::Or, [Some(0), Some(2), None, None]),
    Row(Dya::Nand, [None, Some(2), None, None]),
    Row(Dya::Nor, [None, Some(2), None, None]),
    Row(Dya::Lt, [Some(0), Some(2), Some(1), Some(0)]),
    Row(Dya::Le, [Some(1), Some(2), Some(1), Some(0)]),
    Row(Dya::Eq, [Some(1), Some(2), Some(0), Some(0)]),
    Row(Dya::Ge, [Some(1), Some(2), Some(0), Some(1)]),
    Row(Dya::Gt, [Some(0), Some(2), Some(0), Some(1)]),
    Row(Dya::Ne, [Some(0), Some(2), Some(1), Some(1)]),
];

#[test]
fn reductions_at_each_rank(rt: HostRuntime) -> Result<(), Fail> {
    let layouts = [
        Layout(&[], &[], Axis::Last),
        Layout(&[], &[], Axis::First),
        Layout(&[2], &[], Axis::Last),
        Layout(&[], &[3], Axis::First),
        Layout(&[0], &[], Axis::Last),
        Layout(&[2], &[3], Axis::Numbered { k: 2 }),
        Layout(&[2, 1], &[], Axis::Last),
        Layout(&[], &[0, 2], Axis::First),
        Layout(&[2, 1], &[3], Axis::Numbered { k: 3 }),
        Layout(&[3, 1, 2], &[], Axis::Last),
        Layout(&[], &[1, 3, 2], Axis::First),
    ];
    for row in ROWS.iter() {
        for layout in layouts.iter() {
            for kind in [Kind::Num, Kind::Char] {
                for n in 0..4 {
                    let as_wanted = is_as_wanted(rt.alloc(), row, kind, n, layout)?;
                    assert!(rt; as_wanted, "{:?} {kind:?} {n} {:?}", row.0, layout.1);
                }
            }
        }
    }
    Ok(())
}

// Whether a scalar of a kind stays as it is.
fn scalar_stays(alloc: Global, row: &Row, kind: Kind) -> Result<bool, MadeFault> {
    let mut store = Store::new(alloc, 1);
    let leaf = scalar(alloc, kind);
    let made = reduced(row.0, Axis::Last, &leaf, &mut store)?;
    let element = wanted(row, kind, 1);
    Ok(made.shape.rank() == 0 && are_all(made.cells.as_slice(), element))
}

#[test]
fn scalars_stay(rt: HostRuntime) -> Result<(), Fail> {
    for row in ROWS.iter() {
        let stay = scalar_stays(rt.alloc(), row, Kind::Num)?;
        let stay_too = scalar_stays(rt.alloc(), row, Kind::Char)?;
        assert!(rt; stay && stay_too, "{:?}", row.0);
    }
    Ok(())
}
