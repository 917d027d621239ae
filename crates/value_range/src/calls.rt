//! The calls.

ghost use Rattle.std.specs.Prelude.{◌≡◌, false};
ghost use Rattle.apl_base.specs.declared.rows.Dya.{Dya};
ghost use Rattle.apl_base.specs.declared.rows.Mon.{Mon};
ghost use Rattle.apl_base.specs.Scalar.{scalar1, scalar2};
ghost use Rattle.value_range.specs.declared.sides.Side.{Side};
ghost use Rattle.apl_base.specs.Interval.{IsInterval};
ghost use Rattle.value_range.specs.Interval.{row1, at_sides, ranged1, ranged2};
ghost use Rattle.value_range.specs.Sound.{IsSound1, IsSound2, IsPart, IsSharper, IsSharpAt};

use crate::rows::one::{
    AbsRow, CeilRow, FactRow, FloorRow, MinusRow, NotRow, PlusRow, RecipRow, SignRow,
};
use crate::rows::range_of;
use crate::rows::two::{
    AddRow, AndRow, DivRow, EqRow, GeRow, GtRow, LeRow, LtRow, MaxRow, MinRow, MulRow, NandRow,
    NeRow, NorRow, OrRow, PowRow, ResidueRow, SubRow,
};
use crate::sides::{Ranged, Side};
use apl_base::{Dya, Mon};

/// What is known of `f B`, where B is of the side: what its values lie in, and whether it is
/// defined at all.
pub fn range1(f: Mon, a: Side) -> Ranged
    requires { IsInterval a.interval }
    ensures exact { result ≡ ranged1 f a }
    ensures interval { IsInterval result.range }
    ensures sound { IsSound1 (scalar1 f) a result }
    ensures sharper { (wide : Side) → IsInterval wide.interval → IsPart a wide
        → IsSharper result (ranged1 f wide) }
{
    dispatch1(f, a)
}

/// What is known of `A f B`, where A and B are of the sides: what its values lie in, and whether it
/// is defined at all.
pub fn range2(f: Dya, a: Side, b: Side) -> Ranged
    requires left { IsInterval a.interval }
    requires right { IsInterval b.interval }
    ensures exact { result ≡ ranged2 f a b }
    ensures interval { IsInterval result.range }
    ensures sound { IsSound2 (scalar2 f) a b result }
    ensures sharper { IsSharpAt (ranged2 f) a b result }
{
    dispatch2(f, a, b)
}

// The row of a function of one argument, which is given as both of its sides.
fn dispatch1(f: Mon, a: Side) -> Ranged
    requires { IsInterval a.interval }
    ensures exact { result ≡ at_sides false (λ _ _. row1 f) a a }
    ensures interval { IsInterval result.range }
    ensures sound { IsSound2 (λ _ y. scalar1 f y) a a result }
    ensures sharper { IsSharpAt (at_sides false (λ _ _. row1 f)) a a result }
{
    macro_rules! row_of {
        ($($name:ident $row:ident)*) => {
            match f {
                $(Mon::$name => range_of::<$row>(a, a),)*
            }
        };
    }
    row_of!(
        Plus PlusRow Minus MinusRow Sign SignRow Recip RecipRow Ceil CeilRow Floor FloorRow
        Abs AbsRow Not NotRow Fact FactRow
    )
}

// The row of a function of two arguments.
fn dispatch2(f: Dya, a: Side, b: Side) -> Ranged
    requires left { IsInterval a.interval }
    requires right { IsInterval b.interval }
    ensures exact { result ≡ ranged2 f a b }
    ensures interval { IsInterval result.range }
    ensures sound { IsSound2 (scalar2 f) a b result }
    ensures sharper { IsSharpAt (ranged2 f) a b result }
{
    macro_rules! row_of {
        ($($name:ident $row:ident)*) => {
            match f {
                $(Dya::$name => range_of::<$row>(a, b),)*
            }
        };
    }
    row_of!(
        Add AddRow Sub SubRow Mul MulRow Div DivRow Pow PowRow Max MaxRow Min MinRow
        Residue ResidueRow And AndRow Or OrRow Nand NandRow Nor NorRow
        Lt LtRow Le LeRow Eq EqRow Ge GeRow Gt GtRow Ne NeRow
    )
}
