//! The scalar functions of one argument.

ghost use Rattle.std.specs.Prelude.{[], ◌∷◌, refl};
ghost use Rattle.apl_base.specs.declared.rows.Mon.TheVariants as mon;
ghost use Rattle.apl_base.specs.Scalar.{scalar1};
ghost use Rattle.scalar_table.specs.Row.{One};
ghost use Rattle.scalar_table.specs.LawfulElements.{scalar1-lawful};

use crate::numbers::{factorial_of, negation_of, number, reciprocal_of};
use crate::rows::ScalarRow;
use apl_base::{Elem, Kind};

/// The element of the cell that the value is, at a number; none at a character.
macro_rules! at_number {
    ($b:ident, $value:expr) => {
        match $b.kind {
            Kind::Num => number($value),
            Kind::Char => None,
        }
    };
}

/// `+B`: the number itself.
#[derive(Clone, Copy)]
pub struct Plus;

impl ScalarRow for Plus {
    type Arguments = Elem;

    ghost function = { One mon.Plus };

    ghost elements = { λ b. b ∷ [] };

    ghost value = { scalar1 mon.Plus };

    ghost exact = { λ b. refl };

    ghost lawful = { λ b h. scalar1-lawful mon.Plus b h.0 };

    /// The value at this element, or none where there is none.
    fn value_at(b: Elem) -> Option<Elem> {
        at_number!(b, Some(b.cell))
    }
}

/// `-B`: the number with the other sign.
#[derive(Clone, Copy)]
pub struct Minus;

impl ScalarRow for Minus {
    type Arguments = Elem;

    ghost function = { One mon.Minus };

    ghost elements = { λ b. b ∷ [] };

    ghost value = { scalar1 mon.Minus };

    ghost exact = { λ b. refl };

    ghost lawful = { λ b h. scalar1-lawful mon.Minus b h.0 };

    /// The value at this element, or none where there is none.
    fn value_at(b: Elem) -> Option<Elem> {
        at_number!(b, Some(-b.cell))
    }
}

/// `×B`: -1, 0 or 1, by the sign.
#[derive(Clone, Copy)]
pub struct Sign;

impl ScalarRow for Sign {
    type Arguments = Elem;

    ghost function = { One mon.Sign };

    ghost elements = { λ b. b ∷ [] };

    ghost value = { scalar1 mon.Sign };

    ghost exact = { λ b. refl };

    ghost lawful = { λ b h. scalar1-lawful mon.Sign b h.0 };

    /// The value at this element, or none where there is none.
    fn value_at(b: Elem) -> Option<Elem> {
        at_number!(b, Some(b.cell.signum()))
    }
}

/// `÷B`: of 1 and -1 the number itself; no other has a whole reciprocal.
#[derive(Clone, Copy)]
pub struct Recip;

impl ScalarRow for Recip {
    type Arguments = Elem;

    ghost function = { One mon.Recip };

    ghost elements = { λ b. b ∷ [] };

    ghost value = { scalar1 mon.Recip };

    ghost exact = { λ b. refl };

    ghost lawful = { λ b h. scalar1-lawful mon.Recip b h.0 };

    /// The value at this element, or none where there is none.
    fn value_at(b: Elem) -> Option<Elem> {
        at_number!(b, reciprocal_of(b.cell))
    }
}

/// `⌈B`: the number itself.
#[derive(Clone, Copy)]
pub struct Ceil;

impl ScalarRow for Ceil {
    type Arguments = Elem;

    ghost function = { One mon.Ceil };

    ghost elements = { λ b. b ∷ [] };

    ghost value = { scalar1 mon.Ceil };

    ghost exact = { λ b. refl };

    ghost lawful = { λ b h. scalar1-lawful mon.Ceil b h.0 };

    /// The value at this element, or none where there is none.
    fn value_at(b: Elem) -> Option<Elem> {
        at_number!(b, Some(b.cell))
    }
}

/// `⌊B`: the number itself.
#[derive(Clone, Copy)]
pub struct Floor;

impl ScalarRow for Floor {
    type Arguments = Elem;

    ghost function = { One mon.Floor };

    ghost elements = { λ b. b ∷ [] };

    ghost value = { scalar1 mon.Floor };

    ghost exact = { λ b. refl };

    ghost lawful = { λ b h. scalar1-lawful mon.Floor b h.0 };

    /// The value at this element, or none where there is none.
    fn value_at(b: Elem) -> Option<Elem> {
        at_number!(b, Some(b.cell))
    }
}

/// `|B`: the magnitude.
#[derive(Clone, Copy)]
pub struct Abs;

impl ScalarRow for Abs {
    type Arguments = Elem;

    ghost function = { One mon.Abs };

    ghost elements = { λ b. b ∷ [] };

    ghost value = { scalar1 mon.Abs };

    ghost exact = { λ b. refl };

    ghost lawful = { λ b h. scalar1-lawful mon.Abs b h.0 };

    /// The value at this element, or none where there is none.
    fn value_at(b: Elem) -> Option<Elem> {
        at_number!(b, Some(b.cell.abs()))
    }
}

/// `~B`: 1 of 0, and 0 of 1.
#[derive(Clone, Copy)]
pub struct Not;

impl ScalarRow for Not {
    type Arguments = Elem;

    ghost function = { One mon.Not };

    ghost elements = { λ b. b ∷ [] };

    ghost value = { scalar1 mon.Not };

    ghost exact = { λ b. refl };

    ghost lawful = { λ b h. scalar1-lawful mon.Not b h.0 };

    /// The value at this element, or none where there is none.
    fn value_at(b: Elem) -> Option<Elem> {
        at_number!(b, negation_of(b.cell))
    }
}

/// `!B`: the factorial of 0 to 32.
#[derive(Clone, Copy)]
pub struct Fact;

impl ScalarRow for Fact {
    type Arguments = Elem;

    ghost function = { One mon.Fact };

    ghost elements = { λ b. b ∷ [] };

    ghost value = { scalar1 mon.Fact };

    ghost exact = { λ b. refl };

    ghost lawful = { λ b h. scalar1-lawful mon.Fact b h.0 };

    /// The value at this element, or none where there is none.
    fn value_at(b: Elem) -> Option<Elem> {
        at_number!(b, factorial_of(b.cell))
    }
}
