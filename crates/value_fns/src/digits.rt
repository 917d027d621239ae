//! Digits of numbers in bases.

ghost use Rattle.std.specs.Prelude.{◌≡◌, ◌*◌, ◌^◌, ◌<ℤ◌, ◌≤ℤ◌, pos, map, length, All, IsTrue};
ghost use Rattle.apl_base.specs.Number.{IsNumber};
ghost use Rattle.apl_model.specs.Made.{carried};
ghost use Rattle.value_fns.specs.Digits.{digit_of, digit_table};

use apl_base::Cell;

/// Puts the digits of numbers in bases into a slice of the size of their table: a row for each base. What is left of the
/// numbers stands in their place.
pub(crate) fn fill_table(bases: &[Cell], values: &mut [Cell], into: &mut [Cell])
    requires bases { All IsNumber bases.now }
    requires values { All IsNumber values.old }
    requires size { length into.old ≡ length bases.now * length values.old }
    ensures { into.new ≡ digit_table bases.now values.old }
{
    let count = values.len();
    let mut end = into.len();
    let mut place = bases.len();
    while place > 0 {
        place -= 1;
        let start = end - count;
        fill_row(bases[place], values, &mut into[start..end]);
        end = start;
    }
}

// Puts the digits of numbers in a base into a row, and in the place of each number what is left of it.
fn fill_row(base: Cell, values: &mut [Cell], row: &mut [Cell])
    requires base { IsNumber base }
    requires values { All IsNumber values.old }
    requires size { length row.old ≡ length values.old }
    ensures row { row.new ≡ map (digit_of base) values.old }
    ensures left { values.new ≡ map (carried base) values.old }
    ensures numbers { All IsNumber values.new }
{
    for i in 0..values.len() {
        let value = values[i];
        row[i] = digit(base, value);
        values[i] = carry(base, value);
    }
}

// The digit of a number in a base: 0 where there is none.
fn digit(base: Cell, value: Cell) -> Cell
    requires base { IsNumber base }
    requires value { IsNumber value }
    ensures { result ≡ digit_of base value }
{
    if are_small(base, value) {
        (value as u64 % base as u64) as Cell
    } else if base != 0 {
        value.rem_euclid(base)
    } else if 0 <= value {
        value
    } else {
        0
    }
}

// What is left of a number for the base before this one.
fn carry(base: Cell, value: Cell) -> Cell
    requires base { IsNumber base }
    requires value { IsNumber value }
    ensures left { result ≡ carried base value }
    ensures number { IsNumber result }
{
    if are_small(base, value) {
        (value as u64 / base as u64) as Cell
    } else if base == 0 {
        0
    } else {
        value.div_euclid(base.abs())
    }
}

/// Numbers below this one are divided as numbers of 64 bits, which is quicker.
const SMALL: Cell = 1 << 64;

// Whether a base is positive and small, and a number is small and not negative.
fn are_small(base: Cell, value: Cell) -> bool
    ensures { IsTrue result → ((pos 0 <ℤ base) × (base <ℤ pos (2 ^ 64)))
        × ((pos 0 ≤ℤ value) × (value <ℤ pos (2 ^ 64))) }
{
    0 < base && base < SMALL && 0 <= value && value < SMALL
}
