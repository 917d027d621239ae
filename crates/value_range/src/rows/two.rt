//! The rows of the functions of two arguments.

ghost use Rattle.std.specs.Prelude.{false, true};
ghost use Rattle.apl_base.specs.declared.rows.Dya.TheVariants as dya;
ghost use Rattle.apl_base.specs.Scalar.{scalar2};
ghost use Rattle.value_range.specs.Interval.{row2};
ghost use Rattle.value_range.specs.Laws.Functions.{ranged2-interval, ranged2-sound, ranged2-sharper};

use crate::answers::{always, not_safe, safe_where, safe_within};
use crate::numbers::{
    are_truths, greatest_of, has_zero, high_power, is_only, least_of, low_power, most_of, product,
};
use crate::rows::{Ends, RangeRow};
use crate::sides::Ranged;

/// `A+B`
pub struct AddRow;

impl RangeRow for AddRow {
    ghost value = { scalar2 dya.Add };

    ghost rule = { row2 dya.Add };

    ghost CHARACTERS = { false };

    ghost interval = { ranged2-interval dya.Add };

    ghost sound = { ranged2-sound dya.Add };

    ghost sharper = { ranged2-sharper dya.Add };

    const CHARACTERS: bool = false;

    /// The rule at what both arguments lie between.
    fn at(left: Ends, right: Ends) -> Ranged {
        safe_within(left.lo + right.lo, left.hi + right.hi)
    }
}

/// `A-B`
pub struct SubRow;

impl RangeRow for SubRow {
    ghost value = { scalar2 dya.Sub };

    ghost rule = { row2 dya.Sub };

    ghost CHARACTERS = { false };

    ghost interval = { ranged2-interval dya.Sub };

    ghost sound = { ranged2-sound dya.Sub };

    ghost sharper = { ranged2-sharper dya.Sub };

    const CHARACTERS: bool = false;

    /// The rule at what both arguments lie between.
    fn at(left: Ends, right: Ends) -> Ranged {
        safe_within(left.lo - right.hi, left.hi - right.lo)
    }
}

/// `A×B`
pub struct MulRow;

impl RangeRow for MulRow {
    ghost value = { scalar2 dya.Mul };

    ghost rule = { row2 dya.Mul };

    ghost CHARACTERS = { false };

    ghost interval = { ranged2-interval dya.Mul };

    ghost sound = { ranged2-sound dya.Mul };

    ghost sharper = { ranged2-sharper dya.Mul };

    const CHARACTERS: bool = false;

    /// The rule at what both arguments lie between.
    fn at(left: Ends, right: Ends) -> Ranged {
        let Some(p) = product(left.lo, right.lo) else {
            return not_safe();
        };
        let Some(q) = product(left.lo, right.hi) else {
            return not_safe();
        };
        let Some(r) = product(left.hi, right.lo) else {
            return not_safe();
        };
        let Some(s) = product(left.hi, right.hi) else {
            return not_safe();
        };
        always(least_of(p, q, r, s), greatest_of(p, q, r, s))
    }
}

/// `A÷B`
pub struct DivRow;

impl RangeRow for DivRow {
    ghost value = { scalar2 dya.Div };

    ghost rule = { row2 dya.Div };

    ghost CHARACTERS = { false };

    ghost interval = { ranged2-interval dya.Div };

    ghost sound = { ranged2-sound dya.Div };

    ghost sharper = { ranged2-sharper dya.Div };

    const CHARACTERS: bool = false;

    /// The rule at what both arguments lie between.
    fn at(left: Ends, right: Ends) -> Ranged {
        if is_only(1, right.lo, right.hi) {
            always(left.lo, left.hi)
        } else {
            safe_where(is_only(-1, right.lo, right.hi), -left.hi, -left.lo)
        }
    }
}

/// `A*B`
pub struct PowRow;

impl RangeRow for PowRow {
    ghost value = { scalar2 dya.Pow };

    ghost rule = { row2 dya.Pow };

    ghost CHARACTERS = { false };

    ghost interval = { ranged2-interval dya.Pow };

    ghost sound = { ranged2-sound dya.Pow };

    ghost sharper = { ranged2-sharper dya.Pow };

    const CHARACTERS: bool = false;

    /// The rule at what both arguments lie between.
    fn at(left: Ends, right: Ends) -> Ranged {
        if left.lo < 0 || right.lo < 0 {
            return not_safe();
        }
        let Some(high) = high_power(left.hi, right.hi) else {
            return not_safe();
        };
        let Some(low) = low_power(left.lo, right.lo) else {
            return not_safe();
        };
        always(low, high)
    }
}

/// `A⌈B`
pub struct MaxRow;

impl RangeRow for MaxRow {
    ghost value = { scalar2 dya.Max };

    ghost rule = { row2 dya.Max };

    ghost CHARACTERS = { false };

    ghost interval = { ranged2-interval dya.Max };

    ghost sound = { ranged2-sound dya.Max };

    ghost sharper = { ranged2-sharper dya.Max };

    const CHARACTERS: bool = false;

    /// The rule at what both arguments lie between.
    fn at(left: Ends, right: Ends) -> Ranged {
        always(left.lo.max(right.lo), left.hi.max(right.hi))
    }
}

/// `A⌊B`
pub struct MinRow;

impl RangeRow for MinRow {
    ghost value = { scalar2 dya.Min };

    ghost rule = { row2 dya.Min };

    ghost CHARACTERS = { false };

    ghost interval = { ranged2-interval dya.Min };

    ghost sound = { ranged2-sound dya.Min };

    ghost sharper = { ranged2-sharper dya.Min };

    const CHARACTERS: bool = false;

    /// The rule at what both arguments lie between.
    fn at(left: Ends, right: Ends) -> Ranged {
        always(left.lo.min(right.lo), left.hi.min(right.hi))
    }
}

/// `A|B`
pub struct ResidueRow;

impl RangeRow for ResidueRow {
    ghost value = { scalar2 dya.Residue };

    ghost rule = { row2 dya.Residue };

    ghost CHARACTERS = { false };

    ghost interval = { ranged2-interval dya.Residue };

    ghost sound = { ranged2-sound dya.Residue };

    ghost sharper = { ranged2-sharper dya.Residue };

    const CHARACTERS: bool = false;

    /// The rule at what both arguments lie between.
    fn at(left: Ends, _right: Ends) -> Ranged {
        safe_where(
            !has_zero(left.lo, left.hi),
            0,
            most_of(left.lo, left.hi) - 1,
        )
    }
}

/// `A∧B`
pub struct AndRow;

impl RangeRow for AndRow {
    ghost value = { scalar2 dya.And };

    ghost rule = { row2 dya.And };

    ghost CHARACTERS = { false };

    ghost interval = { ranged2-interval dya.And };

    ghost sound = { ranged2-sound dya.And };

    ghost sharper = { ranged2-sharper dya.And };

    const CHARACTERS: bool = false;

    /// The rule at what both arguments lie between.
    fn at(left: Ends, right: Ends) -> Ranged {
        let test = are_truths(left.lo, left.hi) && are_truths(right.lo, right.hi);
        safe_where(test, 0, 1)
    }
}

/// `A∨B`
pub struct OrRow;

impl RangeRow for OrRow {
    ghost value = { scalar2 dya.Or };

    ghost rule = { row2 dya.Or };

    ghost CHARACTERS = { false };

    ghost interval = { ranged2-interval dya.Or };

    ghost sound = { ranged2-sound dya.Or };

    ghost sharper = { ranged2-sharper dya.Or };

    const CHARACTERS: bool = false;

    /// The rule at what both arguments lie between.
    fn at(left: Ends, right: Ends) -> Ranged {
        let test = are_truths(left.lo, left.hi) && are_truths(right.lo, right.hi);
        safe_where(test, 0, 1)
    }
}

/// `A⍲B`
pub struct NandRow;

impl RangeRow for NandRow {
    ghost value = { scalar2 dya.Nand };

    ghost rule = { row2 dya.Nand };

    ghost CHARACTERS = { false };

    ghost interval = { ranged2-interval dya.Nand };

    ghost sound = { ranged2-sound dya.Nand };

    ghost sharper = { ranged2-sharper dya.Nand };

    const CHARACTERS: bool = false;

    /// The rule at what both arguments lie between.
    fn at(left: Ends, right: Ends) -> Ranged {
        let test = are_truths(left.lo, left.hi) && are_truths(right.lo, right.hi);
        safe_where(test, 0, 1)
    }
}

/// `A⍱B`
pub struct NorRow;

impl RangeRow for NorRow {
    ghost value = { scalar2 dya.Nor };

    ghost rule = { row2 dya.Nor };

    ghost CHARACTERS = { false };

    ghost interval = { ranged2-interval dya.Nor };

    ghost sound = { ranged2-sound dya.Nor };

    ghost sharper = { ranged2-sharper dya.Nor };

    const CHARACTERS: bool = false;

    /// The rule at what both arguments lie between.
    fn at(left: Ends, right: Ends) -> Ranged {
        let test = are_truths(left.lo, left.hi) && are_truths(right.lo, right.hi);
        safe_where(test, 0, 1)
    }
}

/// `A<B`
pub struct LtRow;

impl RangeRow for LtRow {
    ghost value = { scalar2 dya.Lt };

    ghost rule = { row2 dya.Lt };

    ghost CHARACTERS = { false };

    ghost interval = { ranged2-interval dya.Lt };

    ghost sound = { ranged2-sound dya.Lt };

    ghost sharper = { ranged2-sharper dya.Lt };

    const CHARACTERS: bool = false;

    /// The rule at what both arguments lie between.
    fn at(_left: Ends, _right: Ends) -> Ranged {
        always(0, 1)
    }
}

/// `A≤B`
pub struct LeRow;

impl RangeRow for LeRow {
    ghost value = { scalar2 dya.Le };

    ghost rule = { row2 dya.Le };

    ghost CHARACTERS = { false };

    ghost interval = { ranged2-interval dya.Le };

    ghost sound = { ranged2-sound dya.Le };

    ghost sharper = { ranged2-sharper dya.Le };

    const CHARACTERS: bool = false;

    /// The rule at what both arguments lie between.
    fn at(_left: Ends, _right: Ends) -> Ranged {
        always(0, 1)
    }
}

/// `A=B`
pub struct EqRow;

impl RangeRow for EqRow {
    ghost value = { scalar2 dya.Eq };

    ghost rule = { row2 dya.Eq };

    ghost CHARACTERS = { true };

    ghost interval = { ranged2-interval dya.Eq };

    ghost sound = { ranged2-sound dya.Eq };

    ghost sharper = { ranged2-sharper dya.Eq };

    const CHARACTERS: bool = true;

    /// The rule at what both arguments lie between.
    fn at(_left: Ends, _right: Ends) -> Ranged {
        always(0, 1)
    }
}

/// `A≥B`
pub struct GeRow;

impl RangeRow for GeRow {
    ghost value = { scalar2 dya.Ge };

    ghost rule = { row2 dya.Ge };

    ghost CHARACTERS = { false };

    ghost interval = { ranged2-interval dya.Ge };

    ghost sound = { ranged2-sound dya.Ge };

    ghost sharper = { ranged2-sharper dya.Ge };

    const CHARACTERS: bool = false;

    /// The rule at what both arguments lie between.
    fn at(_left: Ends, _right: Ends) -> Ranged {
        always(0, 1)
    }
}

/// `A>B`
pub struct GtRow;

impl RangeRow for GtRow {
    ghost value = { scalar2 dya.Gt };

    ghost rule = { row2 dya.Gt };

    ghost CHARACTERS = { false };

    ghost interval = { ranged2-interval dya.Gt };

    ghost sound = { ranged2-sound dya.Gt };

    ghost sharper = { ranged2-sharper dya.Gt };

    const CHARACTERS: bool = false;

    /// The rule at what both arguments lie between.
    fn at(_left: Ends, _right: Ends) -> Ranged {
        always(0, 1)
    }
}

/// `A≠B`
pub struct NeRow;

impl RangeRow for NeRow {
    ghost value = { scalar2 dya.Ne };

    ghost rule = { row2 dya.Ne };

    ghost CHARACTERS = { true };

    ghost interval = { ranged2-interval dya.Ne };

    ghost sound = { ranged2-sound dya.Ne };

    ghost sharper = { ranged2-sharper dya.Ne };

    const CHARACTERS: bool = true;

    /// The rule at what both arguments lie between.
    fn at(_left: Ends, _right: Ends) -> Ranged {
        always(0, 1)
    }
}
