//! Each function at the ends of where it is defined.

ghost use Rattle.std.specs.Prelude.{◌≡◌, ◌↔◌, IsTrue};
ghost use Rattle.apl_base.specs.declared.cells.Kind.TheVariants.{Num};
ghost use Rattle.apl_base.specs.Number.{IsNumber};

use super::*;
use apl_base::Kind;

/// Functions of one number, at the ends of where each is defined.
const MONADIC: [(Mon, Cell, Option<Cell>); 31] = [
    (Mon::Plus, M, Some(M)),
    (Mon::Plus, -M, Some(-M)),
    (Mon::Minus, M, Some(-M)),
    (Mon::Minus, -M, Some(M)),
    (Mon::Minus, 0, Some(0)),
    (Mon::Sign, -M, Some(-1)),
    (Mon::Sign, 0, Some(0)),
    (Mon::Sign, M, Some(1)),
    (Mon::Recip, 1, Some(1)),
    (Mon::Recip, -1, Some(-1)),
    (Mon::Recip, 0, None),
    (Mon::Recip, 2, None),
    (Mon::Recip, -M, None),
    (Mon::Ceil, M, Some(M)),
    (Mon::Ceil, -M, Some(-M)),
    (Mon::Floor, M, Some(M)),
    (Mon::Floor, -M, Some(-M)),
    (Mon::Abs, -M, Some(M)),
    (Mon::Abs, 0, Some(0)),
    (Mon::Abs, M, Some(M)),
    (Mon::Not, 0, Some(1)),
    (Mon::Not, 1, Some(0)),
    (Mon::Not, 2, None),
    (Mon::Not, -1, None),
    (Mon::Fact, -1, None),
    (Mon::Fact, 0, Some(1)),
    (Mon::Fact, 1, Some(1)),
    (Mon::Fact, 20, Some(2_432_902_008_176_640_000)),
    (
        Mon::Fact,
        32,
        Some(263_130_836_933_693_530_167_218_012_160_000_000),
    ),
    (Mon::Fact, 33, None),
    (Mon::Fact, M, None),
];

/// Functions of two numbers, at the ends of where each is defined.
const DYADIC: [(Dya, Cell, Cell, Option<Cell>); 122] = [
    (Dya::Add, M, 0, Some(M)),
    (Dya::Add, M, 1, None),
    (Dya::Add, -M, -1, None),
    (Dya::Add, M, -M, Some(0)),
    (Dya::Add, M, M, None),
    (Dya::Sub, 0, M, Some(-M)),
    (Dya::Sub, -M, 1, None),
    (Dya::Sub, M, -1, None),
    (Dya::Sub, M, -M, None),
    (Dya::Sub, M, M, Some(0)),
    (
        Dya::Mul,
        1_000_000_000_000_000_000,
        1_000_000_000_000_000_000,
        Some(M),
    ),
    (
        Dya::Mul,
        1_000_000_000_000_000_000,
        -1_000_000_000_000_000_000,
        Some(-M),
    ),
    (
        Dya::Mul,
        1_000_000_000_000_000_000,
        1_000_000_000_000_000_001,
        None,
    ),
    (
        Dya::Mul,
        18_446_744_073_709_551_616,
        18_446_744_073_709_551_616,
        None,
    ),
    (Dya::Mul, M, M, None),
    (Dya::Mul, M, -1, Some(-M)),
    (Dya::Mul, -M, 2, None),
    (Dya::Mul, 0, M, Some(0)),
    (Dya::Div, 0, 0, Some(1)),
    (Dya::Div, 1, 0, None),
    (Dya::Div, -M, 0, None),
    (Dya::Div, 0, -5, Some(0)),
    (Dya::Div, 7, 2, None),
    (Dya::Div, -7, 2, None),
    (Dya::Div, -6, 3, Some(-2)),
    (Dya::Div, 6, -3, Some(-2)),
    (Dya::Div, -6, -3, Some(2)),
    (Dya::Div, M, -1, Some(-M)),
    (Dya::Div, -M, M, Some(-1)),
    (Dya::Div, 1, M, None),
    (Dya::Pow, 0, 0, Some(1)),
    (Dya::Pow, 0, 5, Some(0)),
    (Dya::Pow, 0, -1, None),
    (Dya::Pow, 0, M, Some(0)),
    (Dya::Pow, 1, M, Some(1)),
    (Dya::Pow, 1, -M, Some(1)),
    (Dya::Pow, -1, M, Some(1)),
    (Dya::Pow, -1, M - 1, Some(-1)),
    (Dya::Pow, -1, -M, Some(1)),
    (Dya::Pow, -1, 1 - M, Some(-1)),
    (Dya::Pow, 2, -1, None),
    (
        Dya::Pow,
        2,
        119,
        Some(664_613_997_892_457_936_451_903_530_140_172_288),
    ),
    (Dya::Pow, 2, 120, None),
    (Dya::Pow, 2, 128, None),
    (
        Dya::Pow,
        -2,
        119,
        Some(-664_613_997_892_457_936_451_903_530_140_172_288),
    ),
    (Dya::Pow, -2, 2, Some(4)),
    (
        Dya::Pow,
        3,
        75,
        Some(608_266_787_713_357_709_119_683_992_618_861_307),
    ),
    (Dya::Pow, 3, 76, None),
    (Dya::Pow, 10, 36, Some(M)),
    (Dya::Pow, -10, 36, Some(M)),
    (Dya::Pow, 10, 37, None),
    (Dya::Pow, M, 0, Some(1)),
    (Dya::Pow, M, 1, Some(M)),
    (Dya::Pow, -M, 1, Some(-M)),
    (Dya::Pow, M, 2, None),
    (Dya::Pow, -M, -1, None),
    (Dya::Pow, 2, M, None),
    (Dya::Pow, 2, -M, None),
    (Dya::Pow, 18_446_744_073_709_551_616, 2, None),
    (Dya::Max, M, -M, Some(M)),
    (Dya::Max, -3, -2, Some(-2)),
    (Dya::Max, 4, 4, Some(4)),
    (Dya::Min, M, -M, Some(-M)),
    (Dya::Min, -3, -2, Some(-3)),
    (Dya::Min, 4, 4, Some(4)),
    (Dya::Residue, 3, 7, Some(1)),
    (Dya::Residue, 3, -7, Some(2)),
    (Dya::Residue, -3, 7, Some(1)),
    (Dya::Residue, -3, -7, Some(2)),
    (Dya::Residue, 3, -6, Some(0)),
    (Dya::Residue, 0, 0, Some(0)),
    (Dya::Residue, 0, 5, Some(5)),
    (Dya::Residue, 0, -1, None),
    (Dya::Residue, M, -1, Some(M - 1)),
    (Dya::Residue, -M, -1, Some(M - 1)),
    (Dya::Residue, M, M, Some(0)),
    (Dya::Residue, M, -M, Some(0)),
    (Dya::Residue, 1, M, Some(0)),
    (Dya::Residue, -1, -M, Some(0)),
    (Dya::Residue, M, 1 - M, Some(1)),
    (Dya::And, 0, 0, Some(0)),
    (Dya::And, 0, 1, Some(0)),
    (Dya::And, 1, 0, Some(0)),
    (Dya::And, 1, 1, Some(1)),
    (Dya::And, 2, 0, None),
    (Dya::And, 1, -1, None),
    (Dya::Or, 0, 0, Some(0)),
    (Dya::Or, 0, 1, Some(1)),
    (Dya::Or, 1, 0, Some(1)),
    (Dya::Or, 1, 1, Some(1)),
    (Dya::Or, 2, 0, None),
    (Dya::Or, 1, -1, None),
    (Dya::Nand, 0, 0, Some(1)),
    (Dya::Nand, 0, 1, Some(1)),
    (Dya::Nand, 1, 0, Some(1)),
    (Dya::Nand, 1, 1, Some(0)),
    (Dya::Nand, 2, 0, None),
    (Dya::Nand, 1, -1, None),
    (Dya::Nor, 0, 0, Some(1)),
    (Dya::Nor, 0, 1, Some(0)),
    (Dya::Nor, 1, 0, Some(0)),
    (Dya::Nor, 1, 1, Some(0)),
    (Dya::Nor, 2, 0, None),
    (Dya::Nor, 1, -1, None),
    (Dya::Lt, -M, M, Some(1)),
    (Dya::Lt, M, -M, Some(0)),
    (Dya::Lt, -1, -1, Some(0)),
    (Dya::Le, -M, M, Some(1)),
    (Dya::Le, M, -M, Some(0)),
    (Dya::Le, -1, -1, Some(1)),
    (Dya::Eq, -M, M, Some(0)),
    (Dya::Eq, M, -M, Some(0)),
    (Dya::Eq, -1, -1, Some(1)),
    (Dya::Ge, -M, M, Some(0)),
    (Dya::Ge, M, -M, Some(1)),
    (Dya::Ge, -1, -1, Some(1)),
    (Dya::Gt, -M, M, Some(0)),
    (Dya::Gt, M, -M, Some(1)),
    (Dya::Gt, -1, -1, Some(0)),
    (Dya::Ne, -M, M, Some(1)),
    (Dya::Ne, M, -M, Some(1)),
    (Dya::Ne, -1, -1, Some(0)),
];

fn number(cell: Cell) -> Elem
    ensures { (result.kind ≡ Num) × (result.cell ≡ cell) }
{
    Elem {
        kind: Kind::Num,
        cell,
    }
}

fn is_number(cell: Cell) -> bool
    ensures { IsTrue result ↔ IsNumber cell }
{
    -M <= cell && cell <= M
}

#[test]
fn numbers_at_the_ends(rt: HostRuntime) {
    for &(f, b, want) in &MONADIC {
        assert!(rt; is_number(b));
        assert_eq!(rt; apply1(f, number(b)), want.map(number), "{f:?} {b}");
    }
    for &(f, a, b, want) in &DYADIC {
        assert!(rt; is_number(a));
        assert!(rt; is_number(b));
        assert_eq!(rt;
            apply2(f, number(a), number(b)),
            want.map(number),
            "{a} {f:?} {b}"
        );
    }
}

#[test]
fn characters(rt: HostRuntime) {
    let a = Elem {
        kind: Kind::Char,
        cell: 97,
    };
    let b = Elem {
        kind: Kind::Char,
        cell: 98,
    };
    let n = number(97);
    let yes = Some(number(1));
    let no = Some(number(0));
    let rows = [
        (Dya::Eq, a, a, yes),
        (Dya::Eq, a, b, no),
        (Dya::Eq, a, n, no),
        (Dya::Eq, n, a, no),
        (Dya::Ne, a, a, no),
        (Dya::Ne, a, n, yes),
        (Dya::Lt, a, b, None),
        (Dya::Add, a, n, None),
        (Dya::Max, n, a, None),
    ];
    for (f, x, y, want) in rows {
        assert_eq!(rt; apply2(f, x, y), want, "{x:?} {f:?} {y:?}");
    }
    for f in [Mon::Plus, Mon::Sign, Mon::Not, Mon::Fact] {
        assert_eq!(rt; apply1(f, a), None, "{f:?}");
    }
}

#[test]
fn identities(rt: HostRuntime) {
    for f in [
        Dya::Add,
        Dya::Sub,
        Dya::Residue,
        Dya::Or,
        Dya::Lt,
        Dya::Gt,
        Dya::Ne,
    ] {
        assert_eq!(rt; identity(f), Some(0), "{f:?}");
    }
    for f in [
        Dya::Mul,
        Dya::Div,
        Dya::Pow,
        Dya::And,
        Dya::Le,
        Dya::Eq,
        Dya::Ge,
    ] {
        assert_eq!(rt; identity(f), Some(1), "{f:?}");
    }
    assert_eq!(rt; identity(Dya::Max), Some(-M));
    assert_eq!(rt; identity(Dya::Min), Some(M));
    assert_eq!(rt; identity(Dya::Nand), None);
    assert_eq!(rt; identity(Dya::Nor), None);
}
