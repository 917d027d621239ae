//! Arithmetic on numbers whose result may be none.

ghost use Rattle.std.specs.Prelude.{◌≡◌, pos, ◌*ℤ◌, ◌≤ℤ◌, unsigned_abs};
ghost use Rattle.apl_base.specs.Number.{IsNumber, is_number};
ghost use Rattle.apl_base.specs.Scalar.{in_range, factorial};
ghost use Rattle.value_range.specs.Interval.{to_the, is_only, has_zero, are_truths, most_of, low_of, least_of, greatest_of, low_power, high_power};

use apl_base::{Cell, M};

/// Whether a cell is a number of the language.
pub fn is_number(z: Cell) -> bool
    ensures { result ≡ is_number z }
{
    -M <= z && z <= M
}

/// The product, where it is a number. It may exceed a cell, so it is checked before it is compared.
pub fn product(a: Cell, b: Cell) -> Option<Cell>
    ensures { result ≡ in_range (a *ℤ b) }
{
    let product = a.checked_mul(b)?;
    if is_number(product) {
        Some(product)
    } else {
        None
    }
}

/// The greatest exponent at which a base of 2 or more may have a power that is a number: 2^119 is
/// one, 2^120 none.
const LAST_EXPONENT: Cell = 119;

/// The power, where it is a number. 0 to the power 0 is 1. There are no more multiplications than
/// `LAST_EXPONENT`.
pub fn power(base: Cell, exponent: Cell) -> Option<Cell>
    requires base_least { pos 0 ≤ℤ base }
    requires exponent_least { pos 0 ≤ℤ exponent }
    ensures { result ≡ in_range (to_the base exponent) }
{
    if exponent == 0 {
        Some(1)
    } else if base <= 1 {
        Some(base)
    } else if exponent > LAST_EXPONENT {
        None
    } else {
        let power = base.checked_pow(exponent as u32)?;
        if is_number(power) { Some(power) } else { None }
    }
}

/// The least power of numbers from `a` up to exponents from `c` up, where it is a number.
pub fn low_power(a: Cell, c: Cell) -> Option<Cell>
    requires base_least { pos 0 ≤ℤ a }
    requires exponent_least { pos 0 ≤ℤ c }
    ensures { result ≡ in_range (low_power a c) }
{
    if a >= 1 { power(a, c) } else { Some(0) }
}

/// The greatest power of numbers up to `b` to exponents up to `d`, where it is a number.
pub fn high_power(b: Cell, d: Cell) -> Option<Cell>
    requires base_least { pos 0 ≤ℤ b }
    requires exponent_least { pos 0 ≤ℤ d }
    ensures { result ≡ in_range (high_power b d) }
{
    Some(power(b, d)?.max(1))
}

/// The factorial of a number up to 32.
pub fn factorial(n: Cell) -> Cell
    requires least { pos 0 ≤ℤ n }
    requires most { n ≤ℤ pos 32 }
    ensures { result ≡ pos (factorial (unsigned_abs n)) }
{
    let mut product: Cell = 1;
    for k in 0..n as u32 {
        product *= Cell::from(k + 1);
    }
    product
}

/// Whether both ends are `n`.
pub fn is_only(n: Cell, a: Cell, b: Cell) -> bool
    ensures { result ≡ is_only n a b }
{
    a == n && b == n
}

/// Whether 0 lies in `a..b`.
pub fn has_zero(a: Cell, b: Cell) -> bool
    ensures { result ≡ has_zero a b }
{
    a <= 0 && 0 <= b
}

/// Whether both ends are 0 or 1.
pub fn are_truths(a: Cell, b: Cell) -> bool
    ensures { result ≡ are_truths a b }
{
    0 <= a && b <= 1
}

/// The greatest magnitude in `a..b`.
pub fn most_of(a: Cell, b: Cell) -> Cell
    requires a { IsNumber a }
    requires b { IsNumber b }
    ensures { result ≡ most_of a b }
{
    a.abs().max(b.abs())
}

/// The least magnitude in `a..b`: 0 where 0 lies there.
pub fn low_of(a: Cell, b: Cell) -> Cell
    requires a { IsNumber a }
    requires b { IsNumber b }
    ensures { result ≡ low_of a b }
{
    if has_zero(a, b) {
        0
    } else {
        a.abs().min(b.abs())
    }
}

/// The least of four.
pub fn least_of(p: Cell, q: Cell, r: Cell, s: Cell) -> Cell
    ensures { result ≡ least_of p q r s }
{
    p.min(q).min(r.min(s))
}

/// The greatest of four.
pub fn greatest_of(p: Cell, q: Cell, r: Cell, s: Cell) -> Cell
    ensures { result ≡ greatest_of p q r s }
{
    p.max(q).max(r.max(s))
}
