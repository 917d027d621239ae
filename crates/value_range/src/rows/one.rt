//! The rows of the functions of one argument.

ghost use Rattle.std.specs.Prelude.{false, true};
ghost use Rattle.apl_base.specs.declared.rows.Mon.TheVariants as mon;
ghost use Rattle.apl_base.specs.Scalar.{scalar1};
ghost use Rattle.value_range.specs.Interval.{row1};
ghost use Rattle.value_range.specs.Laws.Functions.{two1-interval, two1-sound, two1-sharper};

use crate::answers::{always, not_safe, safe_where};
use crate::numbers::{are_truths, factorial, is_only, low_of, most_of};
use crate::rows::{Ends, RangeRow};
use crate::sides::Ranged;

/// `+B`
pub struct PlusRow;

impl RangeRow for PlusRow {
    ghost value = { λ _ y. scalar1 mon.Plus y };

    ghost rule = { λ _ _. row1 mon.Plus };

    ghost CHARACTERS = { false };

    ghost interval = { two1-interval mon.Plus };

    ghost sound = { two1-sound mon.Plus };

    ghost sharper = { two1-sharper mon.Plus };

    const CHARACTERS: bool = false;

    /// The rule at what the argument lies between.
    fn at(_left: Ends, right: Ends) -> Ranged {
        always(right.lo, right.hi)
    }
}

/// `-B`
pub struct MinusRow;

impl RangeRow for MinusRow {
    ghost value = { λ _ y. scalar1 mon.Minus y };

    ghost rule = { λ _ _. row1 mon.Minus };

    ghost CHARACTERS = { false };

    ghost interval = { two1-interval mon.Minus };

    ghost sound = { two1-sound mon.Minus };

    ghost sharper = { two1-sharper mon.Minus };

    const CHARACTERS: bool = false;

    /// The rule at what the argument lies between.
    fn at(_left: Ends, right: Ends) -> Ranged {
        always(-right.hi, -right.lo)
    }
}

/// `×B`
pub struct SignRow;

impl RangeRow for SignRow {
    ghost value = { λ _ y. scalar1 mon.Sign y };

    ghost rule = { λ _ _. row1 mon.Sign };

    ghost CHARACTERS = { false };

    ghost interval = { two1-interval mon.Sign };

    ghost sound = { two1-sound mon.Sign };

    ghost sharper = { two1-sharper mon.Sign };

    const CHARACTERS: bool = false;

    /// The rule at what the argument lies between.
    fn at(_left: Ends, right: Ends) -> Ranged {
        always(right.lo.signum(), right.hi.signum())
    }
}

/// `÷B`
pub struct RecipRow;

impl RangeRow for RecipRow {
    ghost value = { λ _ y. scalar1 mon.Recip y };

    ghost rule = { λ _ _. row1 mon.Recip };

    ghost CHARACTERS = { false };

    ghost interval = { two1-interval mon.Recip };

    ghost sound = { two1-sound mon.Recip };

    ghost sharper = { two1-sharper mon.Recip };

    const CHARACTERS: bool = false;

    /// The rule at what the argument lies between.
    fn at(_left: Ends, right: Ends) -> Ranged {
        let test = is_only(1, right.lo, right.hi) || is_only(-1, right.lo, right.hi);
        safe_where(test, right.lo, right.hi)
    }
}

/// `⌈B`
pub struct CeilRow;

impl RangeRow for CeilRow {
    ghost value = { λ _ y. scalar1 mon.Ceil y };

    ghost rule = { λ _ _. row1 mon.Ceil };

    ghost CHARACTERS = { false };

    ghost interval = { two1-interval mon.Ceil };

    ghost sound = { two1-sound mon.Ceil };

    ghost sharper = { two1-sharper mon.Ceil };

    const CHARACTERS: bool = false;

    /// The rule at what the argument lies between.
    fn at(_left: Ends, right: Ends) -> Ranged {
        always(right.lo, right.hi)
    }
}

/// `⌊B`
pub struct FloorRow;

impl RangeRow for FloorRow {
    ghost value = { λ _ y. scalar1 mon.Floor y };

    ghost rule = { λ _ _. row1 mon.Floor };

    ghost CHARACTERS = { false };

    ghost interval = { two1-interval mon.Floor };

    ghost sound = { two1-sound mon.Floor };

    ghost sharper = { two1-sharper mon.Floor };

    const CHARACTERS: bool = false;

    /// The rule at what the argument lies between.
    fn at(_left: Ends, right: Ends) -> Ranged {
        always(right.lo, right.hi)
    }
}

/// `|B`
pub struct AbsRow;

impl RangeRow for AbsRow {
    ghost value = { λ _ y. scalar1 mon.Abs y };

    ghost rule = { λ _ _. row1 mon.Abs };

    ghost CHARACTERS = { false };

    ghost interval = { two1-interval mon.Abs };

    ghost sound = { two1-sound mon.Abs };

    ghost sharper = { two1-sharper mon.Abs };

    const CHARACTERS: bool = false;

    /// The rule at what the argument lies between.
    fn at(_left: Ends, right: Ends) -> Ranged {
        always(low_of(right.lo, right.hi), most_of(right.lo, right.hi))
    }
}

/// `~B`
pub struct NotRow;

impl RangeRow for NotRow {
    ghost value = { λ _ y. scalar1 mon.Not y };

    ghost rule = { λ _ _. row1 mon.Not };

    ghost CHARACTERS = { false };

    ghost interval = { two1-interval mon.Not };

    ghost sound = { two1-sound mon.Not };

    ghost sharper = { two1-sharper mon.Not };

    const CHARACTERS: bool = false;

    /// The rule at what the argument lies between.
    fn at(_left: Ends, right: Ends) -> Ranged {
        safe_where(are_truths(right.lo, right.hi), 1 - right.hi, 1 - right.lo)
    }
}

/// `!B`
pub struct FactRow;

impl RangeRow for FactRow {
    ghost value = { λ _ y. scalar1 mon.Fact y };

    ghost rule = { λ _ _. row1 mon.Fact };

    ghost CHARACTERS = { false };

    ghost interval = { two1-interval mon.Fact };

    ghost sound = { two1-sound mon.Fact };

    ghost sharper = { two1-sharper mon.Fact };

    const CHARACTERS: bool = false;

    /// The rule at what the argument lies between.
    fn at(_left: Ends, right: Ends) -> Ranged {
        if 0 <= right.lo && right.hi <= 32 {
            always(factorial(right.lo), factorial(right.hi))
        } else {
            not_safe()
        }
    }
}
