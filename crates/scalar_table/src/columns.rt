//! Scalar functions over columns of cells.

ghost use Rattle.std.specs.Prelude.{◌≡◌, [], ◌∷◌, length, All};
ghost use Rattle.apl_base.specs.declared.cells.Elem.{Elem};
ghost use Rattle.apl_base.specs.Number.{IsCell, IsNumber};
ghost use Rattle.scalar_table.specs.Row.{scalar};
ghost use Rattle.scalar_table.specs.Columns.{element_in, IsColumn};

use crate::rows::{ScalarRow, value_of};
use apl_base::{Cell, Elem, Kind};

/// The values of a function of one argument over a column, in its place. It answers the first place that has no value.
pub(crate) fn column_of_one<R: ScalarRow<Arguments = Elem>>(
    kind: Kind,
    column: &mut [Cell],
) -> Option<usize>
    requires arguments { (b : Elem) → R.elements b ≡ b ∷ [] }
    requires lawful { All (IsCell kind) column.old }
    ensures values { IsColumn
        (λ k. scalar R.function (element_in kind column.old k ∷ []))
        column.new result }
    ensures numbers { result ≡ None → All IsNumber column.new }
{
    for k in 0..column.len() {
        let cell = column[k];
        let Some(value) = value_of::<R>(Elem { kind, cell }) else {
            return Some(k);
        };
        column[k] = value.cell;
    }
    None
}

/// The values of a function of two arguments over two columns, in the place of the right one. It answers the first
/// place that has no value.
pub(crate) fn column_of_two<R: ScalarRow<Arguments = (Elem, Elem)>>(
    left_kind: Kind,
    left: &[Cell],
    right_kind: Kind,
    right: &mut [Cell],
) -> Option<usize>
    requires arguments { (x : Elem × Elem) → R.elements x ≡ x.0 ∷ x.1 ∷ [] }
    requires same { length left.now ≡ length right.old }
    requires left_lawful { All (IsCell left_kind) left.now }
    requires right_lawful { All (IsCell right_kind) right.old }
    ensures values { IsColumn
        (λ k. scalar R.function (element_in left_kind left.now k ∷ element_in right_kind right.old k ∷ []))
        right.new result }
    ensures numbers { result ≡ None → All IsNumber right.new }
{
    for k in 0..right.len() {
        let a = Elem {
            kind: left_kind,
            cell: left[k],
        };
        let b = Elem {
            kind: right_kind,
            cell: right[k],
        };
        let Some(value) = value_of::<R>((a, b)) else {
            return Some(k);
        };
        right[k] = value.cell;
    }
    None
}
