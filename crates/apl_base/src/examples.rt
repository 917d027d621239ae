//! Worked examples of the scalar functions and of intervals.

ghost use Rattle.std.specs.Prelude.{◌≡◌, ◌-◌, ◌^◌, pos, negsuc, neg_ℤ, [], ◌∷◌};
ghost use Rattle.apl_base.specs.Scalar.{of_number, of_numbers, scalar1, scalar2, identity_of, number};
ghost use Rattle.apl_base.specs.Interval.{InInterval, IsWithin, hull, exact_interval};
ghost use Rattle.apl_base.specs.Examples.{character};

use crate::cells::{Interval, M};
use crate::rows::{Dya, Mon};

/// Worked examples of the functions of one number, each at the ends of where it is defined.
pub fn monadic_examples()
    ensures plus { (of_number Mon.Plus M ≡ Some M)
        × (of_number Mon.Plus (neg_ℤ M) ≡ Some (neg_ℤ M)) }
    ensures minus { (of_number Mon.Minus (neg_ℤ M) ≡ Some M)
        × (of_number Mon.Minus (pos 0) ≡ Some (pos 0)) }
    ensures sign { (of_number Mon.Sign (neg_ℤ M) ≡ Some (negsuc 0))
        × (of_number Mon.Sign (pos 0) ≡ Some (pos 0))
        × (of_number Mon.Sign (pos 7) ≡ Some (pos 1)) }
    ensures reciprocal { (of_number Mon.Recip (pos 1) ≡ Some (pos 1))
        × (of_number Mon.Recip (negsuc 0) ≡ Some (negsuc 0))
        × (of_number Mon.Recip (pos 0) ≡ None) × (of_number Mon.Recip (pos 2) ≡ None) }
    ensures ceiling { (of_number Mon.Ceil M ≡ Some M)
        × (of_number Mon.Ceil (negsuc 4) ≡ Some (negsuc 4)) }
    ensures floor { (of_number Mon.Floor M ≡ Some M)
        × (of_number Mon.Floor (negsuc 4) ≡ Some (negsuc 4)) }
    ensures magnitude { (of_number Mon.Abs (neg_ℤ M) ≡ Some M)
        × (of_number Mon.Abs (pos 3) ≡ Some (pos 3)) }
    ensures not { (of_number Mon.Not (pos 0) ≡ Some (pos 1))
        × (of_number Mon.Not (pos 1) ≡ Some (pos 0))
        × (of_number Mon.Not (pos 2) ≡ None) × (of_number Mon.Not (negsuc 0) ≡ None) }
    ensures factorial { (of_number Mon.Fact (pos 0) ≡ Some (pos 1))
        × (of_number Mon.Fact (pos 4) ≡ Some (pos 24))
        × (of_number Mon.Fact (pos 32) ≡ Some (pos 263130836933693530167218012160000000))
        × (of_number Mon.Fact (pos 33) ≡ None) × (of_number Mon.Fact (negsuc 0) ≡ None) }
{}

/// Worked examples of the functions that compute with two numbers, each at the ends of where it is defined.
pub fn arithmetic_examples()
    ensures sum { (of_numbers Dya.Add M (pos 0) ≡ Some M) × (of_numbers Dya.Add M (pos 1) ≡ None)
        × (of_numbers Dya.Add (neg_ℤ M) (negsuc 0) ≡ None)
        × (of_numbers Dya.Add M (neg_ℤ M) ≡ Some (pos 0)) }
    ensures difference { (of_numbers Dya.Sub (pos 0) M ≡ Some (neg_ℤ M))
        × (of_numbers Dya.Sub (neg_ℤ M) (pos 1) ≡ None)
        × (of_numbers Dya.Sub M (negsuc 0) ≡ None) }
    ensures product { (of_numbers Dya.Mul (pos (10 ^ 18)) (pos (10 ^ 18)) ≡ Some M)
        × (of_numbers Dya.Mul (pos (10 ^ 18)) (neg_ℤ (pos (10 ^ 18))) ≡ Some (neg_ℤ M))
        × (of_numbers Dya.Mul M (negsuc 1) ≡ None) × (of_numbers Dya.Mul M M ≡ None) }
    ensures quotient { (of_numbers Dya.Div (pos 0) (pos 0) ≡ Some (pos 1))
        × (of_numbers Dya.Div (pos 1) (pos 0) ≡ None)
        × (of_numbers Dya.Div (pos 0) (negsuc 4) ≡ Some (pos 0))
        × (of_numbers Dya.Div (pos 7) (pos 2) ≡ None)
        × (of_numbers Dya.Div (negsuc 5) (pos 3) ≡ Some (negsuc 1))
        × (of_numbers Dya.Div (pos 6) (negsuc 2) ≡ Some (negsuc 1))
        × (of_numbers Dya.Div M (negsuc 0) ≡ Some (neg_ℤ M)) }
    ensures power { (of_numbers Dya.Pow (pos 0) (pos 0) ≡ Some (pos 1))
        × (of_numbers Dya.Pow (pos 0) (negsuc 0) ≡ None)
        × (of_numbers Dya.Pow (pos 10) (pos 36) ≡ Some M)
        × (of_numbers Dya.Pow (pos 10) (pos 37) ≡ None)
        × (of_numbers Dya.Pow (negsuc 1) (pos 3) ≡ Some (negsuc 7))
        × (of_numbers Dya.Pow (pos 2) (negsuc 0) ≡ None)
        × (of_numbers Dya.Pow (negsuc 0) (pos 6) ≡ Some (pos 1))
        × (of_numbers Dya.Pow (negsuc 0) (pos 7) ≡ Some (negsuc 0))
        × (of_numbers Dya.Pow (negsuc 0) (negsuc 2) ≡ Some (negsuc 0))
        × (of_numbers Dya.Pow (pos 1) (negsuc 4) ≡ Some (pos 1)) }
    ensures greater { (of_numbers Dya.Max M (neg_ℤ M) ≡ Some M)
        × (of_numbers Dya.Max (negsuc 2) (negsuc 1) ≡ Some (negsuc 1)) }
    ensures lesser { (of_numbers Dya.Min M (neg_ℤ M) ≡ Some (neg_ℤ M))
        × (of_numbers Dya.Min (negsuc 2) (negsuc 1) ≡ Some (negsuc 2)) }
    ensures residue { (of_numbers Dya.Residue (pos 3) (pos 7) ≡ Some (pos 1))
        × (of_numbers Dya.Residue (pos 3) (negsuc 6) ≡ Some (pos 2))
        × (of_numbers Dya.Residue (negsuc 2) (pos 7) ≡ Some (pos 1))
        × (of_numbers Dya.Residue (negsuc 2) (negsuc 6) ≡ Some (pos 2))
        × (of_numbers Dya.Residue (pos 0) (pos 5) ≡ Some (pos 5))
        × (of_numbers Dya.Residue (pos 0) (negsuc 0) ≡ None)
        × (of_numbers Dya.Residue M (negsuc 0) ≡ Some (pos (10 ^ 36 - 1))) }
{}

/// Worked examples of the functions that answer 0 or 1.
pub fn truth_examples()
    ensures and { (of_numbers Dya.And (pos 1) (pos 1) ≡ Some (pos 1))
        × (of_numbers Dya.And (pos 1) (pos 0) ≡ Some (pos 0))
        × (of_numbers Dya.And (pos 0) (pos 2) ≡ None)
        × (of_numbers Dya.And (negsuc 0) (pos 0) ≡ None) }
    ensures or { (of_numbers Dya.Or (pos 0) (pos 0) ≡ Some (pos 0))
        × (of_numbers Dya.Or (pos 0) (pos 1) ≡ Some (pos 1))
        × (of_numbers Dya.Or (pos 1) (pos 2) ≡ None) }
    ensures nand { (of_numbers Dya.Nand (pos 1) (pos 1) ≡ Some (pos 0))
        × (of_numbers Dya.Nand (pos 0) (pos 1) ≡ Some (pos 1))
        × (of_numbers Dya.Nand (pos 3) (pos 0) ≡ None) }
    ensures nor { (of_numbers Dya.Nor (pos 0) (pos 0) ≡ Some (pos 1))
        × (of_numbers Dya.Nor (pos 1) (pos 0) ≡ Some (pos 0))
        × (of_numbers Dya.Nor (pos 1) (negsuc 0) ≡ None) }
    ensures less { (of_numbers Dya.Lt (negsuc 0) (pos 0) ≡ Some (pos 1))
        × (of_numbers Dya.Lt (pos 4) (pos 4) ≡ Some (pos 0)) }
    ensures at_most { (of_numbers Dya.Le (pos 4) (pos 4) ≡ Some (pos 1))
        × (of_numbers Dya.Le M (neg_ℤ M) ≡ Some (pos 0)) }
    ensures equal { (of_numbers Dya.Eq M M ≡ Some (pos 1))
        × (of_numbers Dya.Eq M (neg_ℤ M) ≡ Some (pos 0)) }
    ensures at_least { (of_numbers Dya.Ge (pos 4) (pos 4) ≡ Some (pos 1))
        × (of_numbers Dya.Ge (neg_ℤ M) M ≡ Some (pos 0)) }
    ensures more { (of_numbers Dya.Gt (pos 0) (negsuc 0) ≡ Some (pos 1))
        × (of_numbers Dya.Gt (pos 4) (pos 4) ≡ Some (pos 0)) }
    ensures unequal { (of_numbers Dya.Ne M M ≡ Some (pos 0))
        × (of_numbers Dya.Ne (pos 0) (negsuc 0) ≡ Some (pos 1)) }
{}

/// Worked examples of scalar functions at characters: only `=` and `≠` are defined there.
pub fn character_examples()
    ensures equal { (scalar2 Dya.Eq (character (pos 97)) (character (pos 97))
        ≡ Some (number (pos 1)))
        × (scalar2 Dya.Eq (character (pos 97)) (character (pos 98)) ≡ Some (number (pos 0)))
        × (scalar2 Dya.Eq (character (pos 97)) (number (pos 97)) ≡ Some (number (pos 0)))
        × (scalar2 Dya.Eq (number (pos 97)) (number (pos 97)) ≡ Some (number (pos 1))) }
    ensures unequal { (scalar2 Dya.Ne (number (pos 97)) (character (pos 97))
        ≡ Some (number (pos 1)))
        × (scalar2 Dya.Ne (character (pos 97)) (character (pos 97)) ≡ Some (number (pos 0))) }
    ensures undefined { (scalar2 Dya.Lt (character (pos 97)) (character (pos 98)) ≡ None)
        × (scalar2 Dya.Add (number (pos 1)) (character (pos 97)) ≡ None)
        × (scalar1 Mon.Plus (character (pos 97)) ≡ None) }
    ensures numbers { (scalar2 Dya.Add (number (pos 1)) (number (pos 2)) ≡ Some (number (pos 3)))
        × (scalar1 Mon.Minus (number (pos 5)) ≡ Some (number (negsuc 4))) }
{}

/// What a reduction over nothing gives, for each function.
pub fn identity_examples()
    ensures zero { (identity_of Dya.Add ≡ Some (pos 0)) × (identity_of Dya.Sub ≡ Some (pos 0))
        × (identity_of Dya.Residue ≡ Some (pos 0))
        × (identity_of Dya.Or ≡ Some (pos 0)) × (identity_of Dya.Lt ≡ Some (pos 0))
        × (identity_of Dya.Gt ≡ Some (pos 0))
        × (identity_of Dya.Ne ≡ Some (pos 0)) }
    ensures one { (identity_of Dya.Mul ≡ Some (pos 1)) × (identity_of Dya.Div ≡ Some (pos 1))
        × (identity_of Dya.Pow ≡ Some (pos 1))
        × (identity_of Dya.And ≡ Some (pos 1)) × (identity_of Dya.Le ≡ Some (pos 1))
        × (identity_of Dya.Eq ≡ Some (pos 1))
        × (identity_of Dya.Ge ≡ Some (pos 1)) }
    ensures ends { (identity_of Dya.Max ≡ Some (neg_ℤ M)) × (identity_of Dya.Min ≡ Some M) }
    ensures none { (identity_of Dya.Nand ≡ None) × (identity_of Dya.Nor ≡ None) }
{}

/// Worked examples of intervals of cells: what lies in one, the hull with a cell, and the exact one of a list.
pub fn interval_examples()
    ensures inside { InInterval (Interval.Span (negsuc 1) (pos 3)) (negsuc 1)
        × InInterval (Interval.Span (negsuc 1) (pos 3)) (pos 3)
        × ¬ (InInterval (Interval.Span (negsuc 1) (pos 3)) (pos 4))
        × ¬ (InInterval Interval.Empty (pos 0)) }
    ensures within { IsWithin Interval.Empty (Interval.Span (pos 1) (pos 1))
        × IsWithin (Interval.Span (pos 0) (pos 2)) (Interval.Span (negsuc 0) (pos 2))
        × ¬ (IsWithin (Interval.Span (pos 0) (pos 3)) (Interval.Span (negsuc 0) (pos 2))) }
    ensures hull { (hull Interval.Empty (pos 5) ≡ Interval.Span (pos 5) (pos 5))
        × (hull (Interval.Span (pos 1) (pos 3)) (negsuc 0) ≡ Interval.Span (negsuc 0) (pos 3))
        × (hull (Interval.Span (pos 1) (pos 3)) (pos 2) ≡ Interval.Span (pos 1) (pos 3)) }
    ensures exact { (exact_interval [] ≡ Interval.Empty)
        × (exact_interval (pos 4 ∷ negsuc 6 ∷ pos 2 ∷ []) ≡ Interval.Span (negsuc 6) (pos 4)) }
{}
