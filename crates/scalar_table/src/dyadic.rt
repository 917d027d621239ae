//! The scalar functions of two arguments.

ghost use Rattle.std.specs.Prelude.{[], ◌∷◌, refl};
ghost use Rattle.apl_base.specs.declared.rows.Dya.TheVariants as dya;
ghost use Rattle.apl_base.specs.Scalar.{scalar2};
ghost use Rattle.scalar_table.specs.Row.{Two};
ghost use Rattle.scalar_table.specs.LawfulElements.{scalar2-lawful};

use crate::numbers::{
    difference_of, number, power_of, product_of, quotient_of, residue_of, sum_of, truth_of,
    truth_value_of,
};
use crate::rows::ScalarRow;
use apl_base::{Elem, Kind};

/// The element of the cell that the value is, at two numbers; none where one argument is a character.
macro_rules! at_numbers {
    ($a:ident, $b:ident, $value:expr) => {
        match $a.kind {
            Kind::Num => match $b.kind {
                Kind::Num => number($value),
                Kind::Char => None,
            },
            Kind::Char => None,
        }
    };
}

/// 1 or 0 by the test of two truth values, at 0 and 1; none at other numbers.
macro_rules! at_truths {
    ($a:ident, $b:ident, |$p:ident, $q:ident| $test:expr) => {
        at_numbers!($a, $b, {
            let $p = truth_value_of($a.cell)?;
            let $q = truth_value_of($b.cell)?;
            Some(truth_of($test))
        })
    };
}

/// `A+B`: the sum.
#[derive(Clone, Copy)]
pub struct Add;

impl ScalarRow for Add {
    type Arguments = (Elem, Elem);

    ghost function = { Two dya.Add };

    ghost elements = { λ x. x.0 ∷ x.1 ∷ [] };

    ghost value = { λ x. scalar2 dya.Add x.0 x.1 };

    ghost exact = { λ x. refl };

    ghost lawful = { λ x h. scalar2-lawful dya.Add x.0 x.1 h.0 h.1.0 };

    /// The value at these two elements, or none where there is none.
    fn value_at((a, b): (Elem, Elem)) -> Option<Elem> {
        at_numbers!(a, b, sum_of(a.cell, b.cell))
    }
}

/// `A-B`: the difference.
#[derive(Clone, Copy)]
pub struct Sub;

impl ScalarRow for Sub {
    type Arguments = (Elem, Elem);

    ghost function = { Two dya.Sub };

    ghost elements = { λ x. x.0 ∷ x.1 ∷ [] };

    ghost value = { λ x. scalar2 dya.Sub x.0 x.1 };

    ghost exact = { λ x. refl };

    ghost lawful = { λ x h. scalar2-lawful dya.Sub x.0 x.1 h.0 h.1.0 };

    /// The value at these two elements, or none where there is none.
    fn value_at((a, b): (Elem, Elem)) -> Option<Elem> {
        at_numbers!(a, b, difference_of(a.cell, b.cell))
    }
}

/// `A×B`: the product.
#[derive(Clone, Copy)]
pub struct Mul;

impl ScalarRow for Mul {
    type Arguments = (Elem, Elem);

    ghost function = { Two dya.Mul };

    ghost elements = { λ x. x.0 ∷ x.1 ∷ [] };

    ghost value = { λ x. scalar2 dya.Mul x.0 x.1 };

    ghost exact = { λ x. refl };

    ghost lawful = { λ x h. scalar2-lawful dya.Mul x.0 x.1 h.0 h.1.0 };

    /// The value at these two elements, or none where there is none.
    fn value_at((a, b): (Elem, Elem)) -> Option<Elem> {
        at_numbers!(a, b, product_of(a.cell, b.cell))
    }
}

/// `A÷B`: the exact quotient; `0÷0` is 1.
#[derive(Clone, Copy)]
pub struct Div;

impl ScalarRow for Div {
    type Arguments = (Elem, Elem);

    ghost function = { Two dya.Div };

    ghost elements = { λ x. x.0 ∷ x.1 ∷ [] };

    ghost value = { λ x. scalar2 dya.Div x.0 x.1 };

    ghost exact = { λ x. refl };

    ghost lawful = { λ x h. scalar2-lawful dya.Div x.0 x.1 h.0 h.1.0 };

    /// The value at these two elements, or none where there is none.
    fn value_at((a, b): (Elem, Elem)) -> Option<Elem> {
        at_numbers!(a, b, quotient_of(a.cell, b.cell))
    }
}

/// `A*B`: A to the power B; `0*0` is 1.
#[derive(Clone, Copy)]
pub struct Pow;

impl ScalarRow for Pow {
    type Arguments = (Elem, Elem);

    ghost function = { Two dya.Pow };

    ghost elements = { λ x. x.0 ∷ x.1 ∷ [] };

    ghost value = { λ x. scalar2 dya.Pow x.0 x.1 };

    ghost exact = { λ x. refl };

    ghost lawful = { λ x h. scalar2-lawful dya.Pow x.0 x.1 h.0 h.1.0 };

    /// The value at these two elements, or none where there is none.
    fn value_at((a, b): (Elem, Elem)) -> Option<Elem> {
        at_numbers!(a, b, power_of(a.cell, b.cell))
    }
}

/// `A⌈B`: the greater.
#[derive(Clone, Copy)]
pub struct Max;

impl ScalarRow for Max {
    type Arguments = (Elem, Elem);

    ghost function = { Two dya.Max };

    ghost elements = { λ x. x.0 ∷ x.1 ∷ [] };

    ghost value = { λ x. scalar2 dya.Max x.0 x.1 };

    ghost exact = { λ x. refl };

    ghost lawful = { λ x h. scalar2-lawful dya.Max x.0 x.1 h.0 h.1.0 };

    /// The value at these two elements, or none where there is none.
    fn value_at((a, b): (Elem, Elem)) -> Option<Elem> {
        at_numbers!(a, b, Some(a.cell.max(b.cell)))
    }
}

/// `A⌊B`: the lesser.
#[derive(Clone, Copy)]
pub struct Min;

impl ScalarRow for Min {
    type Arguments = (Elem, Elem);

    ghost function = { Two dya.Min };

    ghost elements = { λ x. x.0 ∷ x.1 ∷ [] };

    ghost value = { λ x. scalar2 dya.Min x.0 x.1 };

    ghost exact = { λ x. refl };

    ghost lawful = { λ x h. scalar2-lawful dya.Min x.0 x.1 h.0 h.1.0 };

    /// The value at these two elements, or none where there is none.
    fn value_at((a, b): (Elem, Elem)) -> Option<Elem> {
        at_numbers!(a, b, Some(a.cell.min(b.cell)))
    }
}

/// `A|B`: what is left of B by A.
#[derive(Clone, Copy)]
pub struct Residue;

impl ScalarRow for Residue {
    type Arguments = (Elem, Elem);

    ghost function = { Two dya.Residue };

    ghost elements = { λ x. x.0 ∷ x.1 ∷ [] };

    ghost value = { λ x. scalar2 dya.Residue x.0 x.1 };

    ghost exact = { λ x. refl };

    ghost lawful = { λ x h. scalar2-lawful dya.Residue x.0 x.1 h.0 h.1.0 };

    /// The value at these two elements, or none where there is none.
    fn value_at((a, b): (Elem, Elem)) -> Option<Elem> {
        at_numbers!(a, b, residue_of(a.cell, b.cell))
    }
}

/// `A∧B`: 1 where both are 1.
#[derive(Clone, Copy)]
pub struct And;

impl ScalarRow for And {
    type Arguments = (Elem, Elem);

    ghost function = { Two dya.And };

    ghost elements = { λ x. x.0 ∷ x.1 ∷ [] };

    ghost value = { λ x. scalar2 dya.And x.0 x.1 };

    ghost exact = { λ x. refl };

    ghost lawful = { λ x h. scalar2-lawful dya.And x.0 x.1 h.0 h.1.0 };

    /// The value at these two elements, or none where there is none.
    fn value_at((a, b): (Elem, Elem)) -> Option<Elem> {
        at_truths!(a, b, |p, q| p && q)
    }
}

/// `A∨B`: 1 where one is 1.
#[derive(Clone, Copy)]
pub struct Or;

impl ScalarRow for Or {
    type Arguments = (Elem, Elem);

    ghost function = { Two dya.Or };

    ghost elements = { λ x. x.0 ∷ x.1 ∷ [] };

    ghost value = { λ x. scalar2 dya.Or x.0 x.1 };

    ghost exact = { λ x. refl };

    ghost lawful = { λ x h. scalar2-lawful dya.Or x.0 x.1 h.0 h.1.0 };

    /// The value at these two elements, or none where there is none.
    fn value_at((a, b): (Elem, Elem)) -> Option<Elem> {
        at_truths!(a, b, |p, q| p || q)
    }
}

/// `A⍲B`: 0 where both are 1.
#[derive(Clone, Copy)]
pub struct Nand;

impl ScalarRow for Nand {
    type Arguments = (Elem, Elem);

    ghost function = { Two dya.Nand };

    ghost elements = { λ x. x.0 ∷ x.1 ∷ [] };

    ghost value = { λ x. scalar2 dya.Nand x.0 x.1 };

    ghost exact = { λ x. refl };

    ghost lawful = { λ x h. scalar2-lawful dya.Nand x.0 x.1 h.0 h.1.0 };

    /// The value at these two elements, or none where there is none.
    fn value_at((a, b): (Elem, Elem)) -> Option<Elem> {
        at_truths!(a, b, |p, q| !(p && q))
    }
}

/// `A⍱B`: 1 where none is 1.
#[derive(Clone, Copy)]
pub struct Nor;

impl ScalarRow for Nor {
    type Arguments = (Elem, Elem);

    ghost function = { Two dya.Nor };

    ghost elements = { λ x. x.0 ∷ x.1 ∷ [] };

    ghost value = { λ x. scalar2 dya.Nor x.0 x.1 };

    ghost exact = { λ x. refl };

    ghost lawful = { λ x h. scalar2-lawful dya.Nor x.0 x.1 h.0 h.1.0 };

    /// The value at these two elements, or none where there is none.
    fn value_at((a, b): (Elem, Elem)) -> Option<Elem> {
        at_truths!(a, b, |p, q| !(p || q))
    }
}

/// `A<B`.
#[derive(Clone, Copy)]
pub struct Lt;

impl ScalarRow for Lt {
    type Arguments = (Elem, Elem);

    ghost function = { Two dya.Lt };

    ghost elements = { λ x. x.0 ∷ x.1 ∷ [] };

    ghost value = { λ x. scalar2 dya.Lt x.0 x.1 };

    ghost exact = { λ x. refl };

    ghost lawful = { λ x h. scalar2-lawful dya.Lt x.0 x.1 h.0 h.1.0 };

    /// The value at these two elements, or none where there is none.
    fn value_at((a, b): (Elem, Elem)) -> Option<Elem> {
        at_numbers!(a, b, Some(truth_of(a.cell < b.cell)))
    }
}

/// `A≤B`.
#[derive(Clone, Copy)]
pub struct Le;

impl ScalarRow for Le {
    type Arguments = (Elem, Elem);

    ghost function = { Two dya.Le };

    ghost elements = { λ x. x.0 ∷ x.1 ∷ [] };

    ghost value = { λ x. scalar2 dya.Le x.0 x.1 };

    ghost exact = { λ x. refl };

    ghost lawful = { λ x h. scalar2-lawful dya.Le x.0 x.1 h.0 h.1.0 };

    /// The value at these two elements, or none where there is none.
    fn value_at((a, b): (Elem, Elem)) -> Option<Elem> {
        at_numbers!(a, b, Some(truth_of(a.cell <= b.cell)))
    }
}

/// `A=B`, also of characters; a number never equals a character.
#[derive(Clone, Copy)]
pub struct Eq;

impl ScalarRow for Eq {
    type Arguments = (Elem, Elem);

    ghost function = { Two dya.Eq };

    ghost elements = { λ x. x.0 ∷ x.1 ∷ [] };

    ghost value = { λ x. scalar2 dya.Eq x.0 x.1 };

    ghost exact = { λ x. refl };

    ghost lawful = { λ x h. scalar2-lawful dya.Eq x.0 x.1 h.0 h.1.0 };

    /// The value at these two elements, or none where there is none.
    fn value_at((a, b): (Elem, Elem)) -> Option<Elem> {
        number(Some(truth_of(a == b)))
    }
}

/// `A≥B`.
#[derive(Clone, Copy)]
pub struct Ge;

impl ScalarRow for Ge {
    type Arguments = (Elem, Elem);

    ghost function = { Two dya.Ge };

    ghost elements = { λ x. x.0 ∷ x.1 ∷ [] };

    ghost value = { λ x. scalar2 dya.Ge x.0 x.1 };

    ghost exact = { λ x. refl };

    ghost lawful = { λ x h. scalar2-lawful dya.Ge x.0 x.1 h.0 h.1.0 };

    /// The value at these two elements, or none where there is none.
    fn value_at((a, b): (Elem, Elem)) -> Option<Elem> {
        at_numbers!(a, b, Some(truth_of(a.cell >= b.cell)))
    }
}

/// `A>B`.
#[derive(Clone, Copy)]
pub struct Gt;

impl ScalarRow for Gt {
    type Arguments = (Elem, Elem);

    ghost function = { Two dya.Gt };

    ghost elements = { λ x. x.0 ∷ x.1 ∷ [] };

    ghost value = { λ x. scalar2 dya.Gt x.0 x.1 };

    ghost exact = { λ x. refl };

    ghost lawful = { λ x h. scalar2-lawful dya.Gt x.0 x.1 h.0 h.1.0 };

    /// The value at these two elements, or none where there is none.
    fn value_at((a, b): (Elem, Elem)) -> Option<Elem> {
        at_numbers!(a, b, Some(truth_of(a.cell > b.cell)))
    }
}

/// `A≠B`, also of characters; a number always differs from a character.
#[derive(Clone, Copy)]
pub struct Ne;

impl ScalarRow for Ne {
    type Arguments = (Elem, Elem);

    ghost function = { Two dya.Ne };

    ghost elements = { λ x. x.0 ∷ x.1 ∷ [] };

    ghost value = { λ x. scalar2 dya.Ne x.0 x.1 };

    ghost exact = { λ x. refl };

    ghost lawful = { λ x h. scalar2-lawful dya.Ne x.0 x.1 h.0 h.1.0 };

    /// The value at these two elements, or none where there is none.
    fn value_at((a, b): (Elem, Elem)) -> Option<Elem> {
        number(Some(truth_of(a != b)))
    }
}
