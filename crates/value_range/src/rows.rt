//! The rows of the table: a type for each scalar function.

ghost use Rattle.std.specs.Prelude.{◌≡◌, ℤ, Bool, Option};
ghost use Rattle.apl_base.specs.declared.cells.Elem.{Elem};
ghost use Rattle.value_range.specs.declared.sides.Side.{Side};
ghost use Rattle.value_range.specs.declared.sides.Ranged.{Ranged};
ghost use Rattle.apl_base.specs.Interval.{IsSpan, IsInterval};
ghost use Rattle.value_range.specs.Interval.{at_sides};
ghost use Rattle.value_range.specs.Sound.{IsSound2, IsIntervalRule, IsSoundRule, IsSharpAt, IsMonotoneRule};

pub mod one;
pub mod two;

use crate::answers::{not_safe, nothing};
use crate::sides::{Ranged, Side};
use apl_base::{Cell, Interval, Kind};

/// The ends of an interval that has a number.
#[derive(Clone, Copy)]
pub struct Ends {
    pub lo: Cell,
    pub hi: Cell,
}

/// The interval rule of one scalar function. A function of one argument has it on the right, and
/// its rule reads nothing of the left but that it isn't empty and of which kind it is.
pub trait RangeRow {
    /// The function's value at two elements, where it has one.
    ghost value: { Elem → Elem → Option Elem };

    /// What the row says where the left number lies in a..b and the right in c..d.
    ghost rule: { ℤ → ℤ → ℤ → ℤ → Ranged };

    /// Whether the function is safe at characters too.
    ghost CHARACTERS: { Bool };

    const CHARACTERS: bool;

    /// The row at numbers.
    fn at(left: Ends, right: Ends) -> Ranged
        requires left { IsSpan left.lo left.hi }
        requires right { IsSpan right.lo right.hi }
        ensures { result ≡ rule left.lo left.hi right.lo right.hi };

    /// The range is an interval of numbers.
    ghost interval: { IsIntervalRule (at_sides CHARACTERS rule) };

    /// Where the answer is safe, the function is defined at all elements of the sides, with values
    /// in the range.
    ghost sound: { IsSoundRule (at_sides CHARACTERS rule) value };

    /// Sides that have less give a range within, and keep what is safe.
    ghost sharper: { IsMonotoneRule (at_sides CHARACTERS rule) };
}

/// A row at two sides: an empty side comes before all else, then the kinds, then the row.
pub fn at_sides<R: RangeRow>(left: Side, right: Side) -> Ranged
    requires left { IsInterval left.interval }
    requires right { IsInterval right.interval }
    ensures { result ≡ at_sides R.CHARACTERS R.rule left right }
{
    match left.interval {
        Interval::Empty => nothing(),
        Interval::Span { lo: a, hi: b } => match right.interval {
            Interval::Empty => nothing(),
            Interval::Span { lo: c, hi: d } => {
                if R::CHARACTERS || (left.kind == Kind::Num && right.kind == Kind::Num) {
                    R::at(Ends { lo: a, hi: b }, Ends { lo: c, hi: d })
                } else {
                    not_safe()
                }
            }
        },
    }
}

/// The same, with what the laws say of it.
pub fn range_of<R: RangeRow>(left: Side, right: Side) -> Ranged
    requires left { IsInterval left.interval }
    requires right { IsInterval right.interval }
    ensures exact { result ≡ at_sides R.CHARACTERS R.rule left right }
    ensures interval { IsInterval result.range }
    ensures sound { IsSound2 R.value left right result }
    ensures sharper { IsSharpAt (at_sides R.CHARACTERS R.rule) left right result }
{
    at_sides::<R>(left, right)
}
