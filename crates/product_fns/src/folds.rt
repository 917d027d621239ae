//! Elements that are combined from the end.
ghost use Rattle.std.specs.Prelude.{◌≡◌, ◌<◌, [], ◌∷◌, length, map, All, IfSome};
ghost use Rattle.apl_base.specs.declared.cells.Elem.{Elem};
ghost use Rattle.apl_base.specs.declared.cells.Kind.TheVariants.{Num};
ghost use Rattle.apl_base.specs.Number.{IsCell};
ghost use Rattle.apl_base.specs.Elements.{element};
ghost use Rattle.apl_base.specs.Scalar.{scalar2};
ghost use Rattle.scalar_table.specs.Row.{scalar, IsNumberElement};
ghost use Rattle.product_fns.specs.Folding.{folded};

use apl_base::{Cell, Dya, Elem, Kind};
use scalar_table::{
    Add, And, Div, Eq, Ge, Gt, Le, Lt, Max, Min, Mul, Nand, Ne, Nor, Or, Pow, Residue, ScalarRow,
    Sub,
};

/// The fold by the type that is named as the function.
macro_rules! fold_by_row {
    ($f:ident, $arguments:tt; $($row:ident)*) => {
        match $f {
            $(Dya::$row => fold_row::<$row> $arguments,)*
        }
    };
}

/// `b1 f (b2 f (.. (bn f right)))` over cells of a kind, from their end; `None` where an application has no value.
pub(crate) fn fold(f: Dya, kind: Kind, cells: &[Cell], right: Elem) -> Option<Elem>
    requires cells { All (IsCell kind) cells.now }
    requires right { IsCell right.kind right.cell }
    ensures exact { result ≡ folded (scalar2 f) (map (element kind) cells.now) right }
    ensures number { IfSome result (λ r. 0 < length cells.now → r.kind ≡ Num) }
    ensures lawful { IfSome result (λ r. IsCell r.kind r.cell) }
{
    fold_by_row!(f, (kind, cells, right);
        Add Sub Mul Div Pow Max Min Residue And Or Nand Nor Lt Le Eq Ge Gt Ne)
}

// The same by one function, as a loop of its own.
fn fold_row<R: ScalarRow<Arguments = (Elem, Elem)>>(
    kind: Kind,
    cells: &[Cell],
    right: Elem,
) -> Option<Elem>
    requires arguments { (x : Elem × Elem) → R.elements x ≡ x.0 ∷ x.1 ∷ [] }
    requires cells { All (IsCell kind) cells.now }
    requires right { IsCell right.kind right.cell }
    ensures exact { result ≡ folded (λ a b. scalar R.function (a ∷ b ∷ []))
        (map (element kind) cells.now) right }
    ensures number { IfSome result (λ r. 0 < length cells.now → r.kind ≡ Num) }
    ensures lawful { IfSome result (λ r. IsCell r.kind r.cell) }
{
    let mut value = right;
    let mut k = cells.len();
    while k > 0 {
        k -= 1;
        let cell = cells[k];
        let Some(next) = value_of::<R>(Elem { kind, cell }, value) else {
            return None;
        };
        value = next;
    }
    Some(value)
}

/// The value at two elements, by no more than the function's laws.
pub(crate) fn value_of<R: ScalarRow<Arguments = (Elem, Elem)>>(a: Elem, b: Elem) -> Option<Elem>
    requires arguments { (x : Elem × Elem) → R.elements x ≡ x.0 ∷ x.1 ∷ [] }
    requires left { IsCell a.kind a.cell }
    requires right { IsCell b.kind b.cell }
    ensures exact { result ≡ scalar R.function (a ∷ b ∷ []) }
    ensures lawful { IfSome result IsNumberElement }
{
    R::value_at((a, b))
}
