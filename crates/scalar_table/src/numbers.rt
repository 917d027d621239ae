//! The numbers of the language: sums, products, powers, quotients.

ghost use Rattle.std.specs.Prelude.{◌≡◌, ◌↔◌, ◌<◌, ◌≤◌, ◌^◌, IsTrue, pos, unsigned_abs, ◌+ℤ◌, ◌-ℤ◌, ◌*ℤ◌};
ghost use Rattle.apl_base.specs.Number.{IsNumber};
ghost use Rattle.apl_base.specs.Scalar.{in_range, residue, power, quotient, factorial_of, truth, truth_value, number, of_number};
ghost use Rattle.std.specs.Option.{option_map};

use apl_base::{Cell, Elem, Kind, M, Mon};

/// The cell, where it is a number of the language.
pub(crate) fn number_of(z: Cell) -> Option<Cell>
    ensures { result ≡ in_range z }
{
    if -M <= z && z <= M { Some(z) } else { None }
}

/// The sum, where it is a number.
pub(crate) fn sum_of(a: Cell, b: Cell) -> Option<Cell>
    requires left { IsNumber a }
    requires right { IsNumber b }
    ensures { result ≡ in_range (a +ℤ b) }
{
    number_of(a + b)
}

/// The difference, where it is a number.
pub(crate) fn difference_of(a: Cell, b: Cell) -> Option<Cell>
    requires left { IsNumber a }
    requires right { IsNumber b }
    ensures { result ≡ in_range (a -ℤ b) }
{
    number_of(a - b)
}

/// The product, where it is a number.
pub(crate) fn product_of(a: Cell, b: Cell) -> Option<Cell>
    ensures { result ≡ in_range (a *ℤ b) }
{
    if is_small(a) && is_small(b) {
        Some(a * b)
    } else {
        number_of(a.checked_mul(b)?)
    }
}

/// Two numbers no further from 0 than this have a product that is a number, so it needs no test.
const SMALL: Cell = 1_000_000_000_000_000_000;

/// Whether it is no further from 0 than `SMALL`.
fn is_small(z: Cell) -> bool
    ensures { IsTrue result ↔ (unsigned_abs z ≤ 10 ^ 18) }
{
    -SMALL <= z && z <= SMALL
}

/// The exact quotient, where there is one; 0 over 0 is 1.
pub(crate) fn quotient_of(a: Cell, b: Cell) -> Option<Cell>
    requires left { IsNumber a }
    requires right { IsNumber b }
    ensures { result ≡ quotient a b }
{
    if b == 0 {
        if a == 0 { Some(1) } else { None }
    } else if a % b == 0 {
        Some(a / b)
    } else {
        None
    }
}

/// What is left of `b` by `a`: not negative and below the magnitude of `a`, whatever the signs. By 0 it is
/// `b`, where `b` is not negative.
pub(crate) fn residue_of(a: Cell, b: Cell) -> Option<Cell>
    requires left { IsNumber a }
    requires right { IsNumber b }
    ensures { result ≡ residue a b }
{
    if a != 0 {
        Some(b.rem_euclid(a))
    } else if 0 <= b {
        Some(b)
    } else {
        None
    }
}

/// `base` to the power `exponent`, where that is a number. It takes few steps whatever the exponent: from 120
/// on, the power of a base of magnitude 2 or more is past every number.
pub(crate) fn power_of(base: Cell, exponent: Cell) -> Option<Cell>
    ensures { result ≡ power base exponent }
{
    if base.unsigned_abs() < 2 {
        unit_power_of(base, exponent)
    } else if exponent < 0 {
        None
    } else if exponent < 120 {
        number_of(base.checked_pow(exponent as u32)?)
    } else {
        None
    }
}

/// The power of 0, 1 or -1, for which no more than the sign and the parity of the exponent count.
fn unit_power_of(base: Cell, exponent: Cell) -> Option<Cell>
    requires { unsigned_abs base < 2 }
    ensures { result ≡ power base exponent }
{
    if base == 0 {
        power_of_zero(exponent)
    } else if base == 1 {
        Some(1)
    } else if exponent.unsigned_abs() % 2 == 0 {
        Some(1)
    } else {
        Some(-1)
    }
}

/// The power of 0: 1 at the exponent 0, none at a negative one.
fn power_of_zero(exponent: Cell) -> Option<Cell>
    ensures { result ≡ power (pos 0) exponent }
{
    if exponent < 0 {
        None
    } else if exponent == 0 {
        Some(1)
    } else {
        Some(0)
    }
}

/// The factorials of 0 to 32, which are those within the language's numbers.
const FACTORIALS: [Cell; 33] = [
    1,
    1,
    2,
    6,
    24,
    120,
    720,
    5_040,
    40_320,
    362_880,
    3_628_800,
    39_916_800,
    479_001_600,
    6_227_020_800,
    87_178_291_200,
    1_307_674_368_000,
    20_922_789_888_000,
    355_687_428_096_000,
    6_402_373_705_728_000,
    121_645_100_408_832_000,
    2_432_902_008_176_640_000,
    51_090_942_171_709_440_000,
    1_124_000_727_777_607_680_000,
    25_852_016_738_884_976_640_000,
    620_448_401_733_239_439_360_000,
    15_511_210_043_330_985_984_000_000,
    403_291_461_126_605_635_584_000_000,
    10_888_869_450_418_352_160_768_000_000,
    304_888_344_611_713_860_501_504_000_000,
    8_841_761_993_739_701_954_543_616_000_000,
    265_252_859_812_191_058_636_308_480_000_000,
    8_222_838_654_177_922_817_725_562_880_000_000,
    263_130_836_933_693_530_167_218_012_160_000_000,
];

/// The factorial of 0 to 32.
pub(crate) fn factorial_of(z: Cell) -> Option<Cell>
    ensures { result ≡ factorial_of z }
{
    if 0 <= z && z <= 32 {
        Some(FACTORIALS[z as usize])
    } else {
        None
    }
}

/// 1 for true, 0 for false.
pub(crate) fn truth_of(b: bool) -> Cell
    ensures { result ≡ truth b }
{
    if b { 1 } else { 0 }
}

/// Whether the cell is true or false, where it is 1 or 0.
pub(crate) fn truth_value_of(z: Cell) -> Option<bool>
    ensures { result ≡ truth_value z }
{
    match z {
        0 => Some(false),
        1 => Some(true),
        _ => None,
    }
}

/// The number itself of 1 and -1.
pub(crate) fn reciprocal_of(b: Cell) -> Option<Cell>
    ensures { result ≡ of_number Mon.Recip b }
{
    if b == 1 || b == -1 { Some(b) } else { None }
}

/// 1 of 0, and 0 of 1.
pub(crate) fn negation_of(b: Cell) -> Option<Cell>
    ensures { result ≡ of_number Mon.Not b }
{
    match b {
        0 => Some(1),
        1 => Some(0),
        _ => None,
    }
}

/// The number as an element.
pub(crate) fn number(z: Option<Cell>) -> Option<Elem>
    ensures { result ≡ option_map number z }
{
    z.map(|cell| Elem {
        kind: Kind::Num,
        cell,
    })
}
