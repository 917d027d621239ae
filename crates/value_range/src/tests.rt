//! Calls at the ends of where each function is safe.

ghost use Rattle.apl_base.specs.Interval.{IsInterval};

use super::*;
use apl_base::{Cell, Dya, Interval, Kind, M, Mon};
use std::process::Abort;

/// Functions of one number in `lo..hi`: the range, or `None` where that is not safe.
const MONADIC: [(Mon, (Cell, Cell), Option<(Cell, Cell)>); 20] = [
    (Mon::Plus, (-M, M), Some((-M, M))),
    (Mon::Minus, (-3, 5), Some((-5, 3))),
    (Mon::Sign, (-4, 0), Some((-1, 0))),
    (Mon::Sign, (-M, M), Some((-1, 1))),
    (Mon::Recip, (1, 1), Some((1, 1))),
    (Mon::Recip, (-1, -1), Some((-1, -1))),
    (Mon::Recip, (-1, 1), None),
    (Mon::Recip, (0, 1), None),
    (Mon::Ceil, (-7, 2), Some((-7, 2))),
    (Mon::Floor, (-7, 2), Some((-7, 2))),
    (Mon::Abs, (-3, 2), Some((0, 3))),
    (Mon::Abs, (-5, -2), Some((2, 5))),
    (Mon::Abs, (2, 5), Some((2, 5))),
    (Mon::Not, (0, 0), Some((1, 1))),
    (Mon::Not, (0, 1), Some((0, 1))),
    (Mon::Not, (0, 2), None),
    (Mon::Fact, (0, 19), Some((1, 121_645_100_408_832_000))),
    (
        Mon::Fact,
        (1, 32),
        Some((1, 263_130_836_933_693_530_167_218_012_160_000_000)),
    ),
    (Mon::Fact, (0, 33), None),
    (Mon::Fact, (-1, 3), None),
];

/// Functions of two numbers, each in `lo..hi`.
const DYADIC: [(Dya, (Cell, Cell), (Cell, Cell), Option<(Cell, Cell)>); 40] = [
    (Dya::Add, (M - 1, M), (0, 1), None),
    (Dya::Add, (M - 1, M), (0, 0), Some((M - 1, M))),
    (Dya::Add, (-M, 0), (-1, 0), None),
    (Dya::Sub, (3, 5), (-1, 4), Some((-1, 6))),
    (Dya::Sub, (-M, 0), (0, 1), None),
    (Dya::Mul, (-3, 2), (-5, 4), Some((-12, 15))),
    (Dya::Mul, (M, M), (-1, 1), Some((-M, M))),
    (Dya::Mul, (M, M), (0, 2), None),
    (Dya::Mul, (-M, M), (-M, M), None),
    (Dya::Div, (-6, 4), (-1, -1), Some((-4, 6))),
    (Dya::Div, (-6, 4), (1, 1), Some((-6, 4))),
    (Dya::Div, (-6, 4), (-1, 1), None),
    (Dya::Div, (0, 0), (0, 0), None),
    (Dya::Pow, (0, 2), (0, 3), Some((0, 8))),
    (Dya::Pow, (2, 10), (3, 36), Some((8, M))),
    (Dya::Pow, (2, 10), (3, 37), None),
    (Dya::Pow, (0, 1), (5, M), Some((0, 1))),
    (Dya::Pow, (1, 1), (5, M), Some((1, 1))),
    (Dya::Pow, (2, 2), (0, M), None),
    (Dya::Pow, (M, M), (0, 1), Some((1, M))),
    (Dya::Pow, (2, 2), (0, 119), Some((1, 1 << 119))),
    (Dya::Pow, (2, 2), (0, 120), None),
    (Dya::Pow, (-1, 1), (2, 2), None),
    (Dya::Pow, (1, 1), (-1, 2), None),
    (Dya::Max, (-3, 5), (0, 4), Some((0, 5))),
    (Dya::Min, (-3, 5), (0, 4), Some((-3, 4))),
    (Dya::Residue, (-3, -1), (-9, 9), Some((0, 2))),
    (Dya::Residue, (5, 7), (-M, M), Some((0, 6))),
    (Dya::Residue, (0, 7), (1, 1), None),
    (Dya::Residue, (-1, 1), (1, 1), None),
    (Dya::And, (0, 1), (1, 1), Some((0, 1))),
    (Dya::Or, (-1, 1), (1, 1), None),
    (Dya::Nand, (0, 0), (0, 2), None),
    (Dya::Nor, (0, 0), (0, 0), Some((0, 1))),
    (Dya::Lt, (-M, M), (-M, M), Some((0, 1))),
    (Dya::Le, (1, 1), (2, 2), Some((0, 1))),
    (Dya::Eq, (1, 1), (2, 2), Some((0, 1))),
    (Dya::Ge, (1, 1), (2, 2), Some((0, 1))),
    (Dya::Gt, (1, 1), (2, 2), Some((0, 1))),
    (Dya::Ne, (1, 1), (2, 2), Some((0, 1))),
];

fn side(rt: &impl Abort, kind: Kind, lo: Cell, hi: Cell) -> Side
    ensures { IsInterval result.interval }
{
    assert!(rt; -M <= lo && lo <= hi && hi <= M);
    Side {
        kind,
        interval: Interval::Span { lo, hi },
    }
}

fn answer(range: Option<(Cell, Cell)>) -> Ranged {
    let (lo, hi) = range.unwrap_or((-M, M));
    Ranged {
        range: Interval::Span { lo, hi },
        safe: range.is_some(),
    }
}

#[test]
fn ranges_of_numbers(rt: HostRuntime) {
    for &(f, (a, b), want) in &MONADIC {
        let right = side(&rt, Kind::Num, a, b);
        assert_eq!(rt; range1(f, right), answer(want), "{f:?} {a}..{b}");
    }
    for &(f, (a, b), (c, d), want) in &DYADIC {
        let left = side(&rt, Kind::Num, a, b);
        let right = side(&rt, Kind::Num, c, d);
        assert_eq!(rt;
            range2(f, left, right),
            answer(want),
            "{a}..{b} {f:?} {c}..{d}"
        );
    }
}

#[test]
fn ranges_of_characters_and_of_nothing(rt: HostRuntime) {
    let letters = side(&rt, Kind::Char, 97, 122);
    let numbers = side(&rt, Kind::Num, 0, 1);
    let nothing = Side {
        kind: Kind::Char,
        interval: Interval::Empty,
    };
    let empty = Ranged {
        range: Interval::Empty,
        safe: true,
    };
    let rows = [
        (Dya::Add, letters, numbers, answer(None)),
        (Dya::Lt, numbers, letters, answer(None)),
        (Dya::Eq, letters, numbers, answer(Some((0, 1)))),
        (Dya::Ne, letters, letters, answer(Some((0, 1)))),
        (Dya::Add, nothing, numbers, empty),
        (Dya::Add, letters, nothing, empty),
        (Dya::Eq, nothing, nothing, empty),
    ];
    for &(f, left, right, want) in &rows {
        assert_eq!(rt; range2(f, left, right), want, "{f:?}");
    }
    assert_eq!(rt; range1(Mon::Plus, letters), answer(None));
    assert_eq!(rt; range1(Mon::Not, nothing), empty);
}
