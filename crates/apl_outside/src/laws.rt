//! Laws of the definitions that the contracts cite, each proved as the contract of a function that does nothing.
ghost use Rattle.std.specs.Prelude.{◌≡◌, ℕ, ◌-◌, ◌^◌, ◌≤◌, List, [], ◌∷◌, ◌++◌, length, take, drop, Option, Some, None};
ghost use Rattle.apl_outside.specs.Bytes.{Loses, Gains, GainsPart};
ghost use Rattle.apl_outside.specs.Faults.{Rose, one_more};

/// What the definitions say of small values.
pub fn worked_examples()
    ensures lost { Loses (Some (1 ∷ 2 ∷ 3 ∷ [])) (Some (3 ∷ [])) (1 ∷ 2 ∷ []) }
    ensures lost_none { Loses (Some (1 ∷ [])) (Some (1 ∷ [])) [] }
    ensures not_from_the_end { ¬ Loses (Some (1 ∷ 2 ∷ 3 ∷ [])) (Some (1 ∷ [])) (2 ∷ 3 ∷ []) }
    ensures untold { Loses None None (1 ∷ []) }
    ensures stays_told { ¬ Loses (Some (1 ∷ [])) None (1 ∷ []) }
    ensures stays_untold { ¬ Loses None (Some []) [] }

    ensures gained { Gains (Some (1 ∷ [])) (Some (1 ∷ 2 ∷ 3 ∷ [])) (2 ∷ 3 ∷ []) }
    ensures not_at_the_front { ¬ Gains (Some (1 ∷ [])) (Some (2 ∷ 1 ∷ [])) (2 ∷ []) }
    ensures tells_on { ¬ Gains (Some (1 ∷ [])) None [] }

    ensures rose { Rose 3 4 }
    ensures stood { ¬ Rose 3 3 }
    ensures last { Rose (2 ^ 64 - 1) (2 ^ 64 - 1) }
    ensures counted { one_more 3 ≡ 4 }
    ensures stays { one_more (2 ^ 64 - 1) ≡ 2 ^ 64 - 1 }
{}

/// What one call after another takes, adds and counts.
pub fn calls_in_turn()
    ensures rose { (before old new after : ℕ) → before ≤ old → Rose old new → new ≤ after
        → Rose before after }
    ensures counted { (old : ℕ) → Rose old (one_more old) }

    ensures lost { (first second third : Option (List ℕ)) (xs ys : List ℕ) →
        Loses first second xs → Loses second third ys → Loses first third (xs ++ ys) }
    ensures gained { (first second third : Option (List ℕ)) (xs ys : List ℕ) →
        Gains first second xs → Gains second third ys → Gains first third (xs ++ ys) }
    ensures part_after_all { (first second third : Option (List ℕ)) (xs ys : List ℕ) →
        Gains first second xs → GainsPart second third ys → GainsPart first third (xs ++ ys) }
    ensures part_of_more { (old new : Option (List ℕ)) (xs ys : List ℕ) →
        GainsPart old new xs → GainsPart old new (xs ++ ys) }
{}

/// What is told afterwards follows from what was told before and the bytes that went.
pub fn told_bytes()
    ensures lost { (held bytes : List ℕ) (new : Option (List ℕ)) → Loses (Some held) new bytes →
        (bytes ≡ take (length bytes) held) × (new ≡ Some (drop (length bytes) held)) }
    ensures gained { (held bytes : List ℕ) (new : Option (List ℕ)) → Gains (Some held) new bytes
        → new ≡ Some (held ++ bytes) }
{}
