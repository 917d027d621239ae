//! Worked calls of the functions under one name.

ghost use Rattle.std.specs.Prelude.{◌≡◌, pos, negsuc, [], ◌∷◌};
ghost use Rattle.apl_base.specs.Scalar.{number};
ghost use Rattle.scalar_table.specs.Row.{scalar, One, Two};

use apl_base::{Dya, Mon};

/// Worked examples of the functions of one and of two arguments under one name.
pub fn row_examples()
    ensures one { scalar (One Mon.Minus) (number (pos 5) ∷ []) ≡ Some (number (negsuc 4)) }
    ensures two { scalar (Two Dya.Sub) (number (pos 5) ∷ number (pos 7) ∷ [])
        ≡ Some (number (negsuc 1)) }
    ensures undefined { scalar (Two Dya.Div) (number (pos 5) ∷ number (pos 0) ∷ []) ≡ None }
    ensures too_few { scalar (Two Dya.Sub) (number (pos 5) ∷ []) ≡ None }
    ensures too_many { scalar (One Mon.Minus) (number (pos 5) ∷ number (pos 7) ∷ []) ≡ None }
{}
