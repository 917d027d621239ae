//! Worked progressions.

ghost use Rattle.std.specs.Prelude.{pos, negsuc, [], ◌∷◌};
ghost use Rattle.beating.specs.declared.runs.Run.{Run};
ghost use Rattle.beating.specs.Runs.{IsRunOf};

/// Worked progressions: rising, falling, of one number, of none; numbers that are none; and a step where one number
/// has none.
pub fn run_examples()
    ensures rising { IsRunOf (pos 3 ∷ pos 5 ∷ pos 7 ∷ [])
        (record { from = pos 3; step = pos 2; n = 3 }) }
    ensures falling { IsRunOf (pos 1 ∷ negsuc 3 ∷ [])
        (record { from = pos 1; step = negsuc 4; n = 2 }) }
    ensures one { IsRunOf (pos 7 ∷ []) (record { from = pos 7; step = pos 0; n = 1 }) }
    ensures empty { IsRunOf [] (record { from = pos 0; step = pos 0; n = 0 }) }
    ensures broken { (r : Run) → ¬ (IsRunOf (pos 1 ∷ pos 2 ∷ pos 4 ∷ []) r) }
    ensures no_step { ¬ (IsRunOf (pos 7 ∷ []) (record { from = pos 7; step = pos 1; n = 1 })) }
{}
