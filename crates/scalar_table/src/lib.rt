//! The scalar functions of the language at elements: each of the 27 as a type, and calls that pick one.
#![tactic(auto)]

ghost use Rattle.std.specs.Prelude.{◌≡◌, ◌↔◌, ◌⊎◌, IfSome, IsNone, All, length};
ghost use Rattle.scalar_table.specs.Columns.{element_in, IsColumn};
ghost use Rattle.apl_base.specs.Number.{IsNumber, IsCell};
ghost use Rattle.apl_base.specs.Scalar.{scalar1, scalar2, identity_of};
ghost use Rattle.apl_base.specs.declared.cells.Kind.TheVariants.{Num};

mod columns;
mod dyadic;
mod examples;
mod monadic;
mod numbers;
mod rows;

use apl_base::{Cell, Dya, Elem, Kind, M, Mon};
pub use dyadic::{
    Add, And, Div, Eq, Ge, Gt, Le, Lt, Max, Min, Mul, Nand, Ne, Nor, Or, Pow, Residue, Sub,
};
pub use examples::row_examples;
pub use monadic::{Abs, Ceil, Fact, Floor, Minus, Not, Plus, Recip, Sign};
pub use rows::ScalarRow;

/// The value at the arguments of the type that is named as the variant.
macro_rules! by_row {
    ($of:ident, $f:ident, $arguments:expr; $($row:ident)*) => {
        match $f {
            $($of::$row => rows::value_of::<$row>($arguments),)*
        }
    };
}

/// The value of `f B`, or `None` where there is none.
pub fn apply1(f: Mon, b: Elem) -> Option<Elem>
    requires { IsCell b.kind b.cell }
    ensures exact { result ≡ scalar1 f b }
    ensures number { IfSome result (λ r. r.kind ≡ Num) }
    ensures within { IfSome result (λ r. IsNumber r.cell) }
    ensures lawful { IfSome result (λ r. IsCell r.kind r.cell) }
{
    by_row!(Mon, f, b; Plus Minus Sign Recip Ceil Floor Abs Not Fact)
}

/// The value of `A f B`, or `None` where there is none.
pub fn apply2(f: Dya, a: Elem, b: Elem) -> Option<Elem>
    requires left { IsCell a.kind a.cell }
    requires right { IsCell b.kind b.cell }
    ensures exact { result ≡ scalar2 f a b }
    ensures number { IfSome result (λ r. r.kind ≡ Num) }
    ensures within { IfSome result (λ r. IsNumber r.cell) }
    ensures lawful { IfSome result (λ r. IsCell r.kind r.cell) }
{
    by_row!(Dya, f, (a, b); Add Sub Mul Div Pow Max Min Residue And Or Nand Nor Lt Le Eq Ge Gt Ne)
}

/// The values over columns of the type that is named as the variant.
macro_rules! column_by_row {
    ($of:ident, $f:ident, $column_of:ident, $arguments:tt; $($row:ident)*) => {
        match $f {
            $($of::$row => columns::$column_of::<$row> $arguments,)*
        }
    };
}

/// The values of `f B` at each element of a column of this kind, in its place: `None` where there is one at each place,
/// else the first place that has none, and then the cells are no more than as many. The function is chosen once.
pub fn apply1_column(f: Mon, kind: Kind, column: &mut [Cell]) -> Option<usize>
    requires { All (IsCell kind) column.old }
    ensures values { IsColumn (λ k. scalar1 f (element_in kind column.old k)) column.new result }
    ensures numbers { result ≡ None → All IsNumber column.new }
{
    column_by_row!(Mon, f, column_of_one, (kind, column);
        Plus Minus Sign Recip Ceil Floor Abs Not Fact)
}

/// The values of `A f B` at each pair of elements of two columns of as many places, in the place of the right one:
/// `None` where there is one at each place, else the first place that has none, and then the cells of the right column
/// are no more than as many. The function is chosen once.
pub fn apply2_column(
    f: Dya,
    left_kind: Kind,
    left: &[Cell],
    right_kind: Kind,
    right: &mut [Cell],
) -> Option<usize>
    requires same { length left.now ≡ length right.old }
    requires left { All (IsCell left_kind) left.now }
    requires right { All (IsCell right_kind) right.old }
    ensures values { IsColumn
        (λ k. scalar2 f (element_in left_kind left.now k) (element_in right_kind right.old k))
        right.new result }
    ensures numbers { result ≡ None → All IsNumber right.new }
{
    column_by_row!(Dya, f, column_of_two, (left_kind, left, right_kind, right);
        Add Sub Mul Div Pow Max Min Residue And Or Nand Nor Lt Le Eq Ge Gt Ne)
}

/// What a reduction by `f` over nothing gives: the cell of a number, or `None` for `⍲` and `⍱`.
pub fn identity(f: Dya) -> Option<Cell>
    ensures exact { result ≡ identity_of f }
    ensures missing { IsNone result ↔ ((f ≡ Dya.Nand) ⊎ (f ≡ Dya.Nor)) }
    ensures within { IfSome result IsNumber }
{
    match f {
        Dya::Add | Dya::Sub | Dya::Residue | Dya::Or | Dya::Lt | Dya::Gt | Dya::Ne => Some(0),
        Dya::Mul | Dya::Div | Dya::Pow | Dya::And | Dya::Le | Dya::Eq | Dya::Ge => Some(1),
        Dya::Max => Some(-M),
        Dya::Min => Some(M),
        Dya::Nand | Dya::Nor => None,
    }
}

#[cfg(test)]
mod tests;
