//! Worked meanings of pending expressions.

ghost use Rattle.std.specs.Prelude.{◌≡◌, pos, [], ◌∷◌};
ghost use Rattle.apl_base.specs.declared.cells.Kind.TheVariants.{Num};
ghost use Rattle.drag_along.specs.Examples.{two_vectors, halves_and_parts, column};
ghost use Rattle.drag_along.specs.Meaning.{Means, Faults, entry};

/// Worked values of `(A÷2)+1÷B`: an array; the fault of `1÷B`, which stands first in postfix order, though `A÷2`
/// fails at an earlier element; and that of `A÷2` where it alone fails.
pub fn meaning_examples()
    ensures array { entry (two_vectors (pos 8 ∷ pos 6 ∷ []) (pos 1 ∷ pos 1 ∷ []))
        halves_and_parts ≡ Means
        (record { kind = Num; shape = 2 ∷ []; cells = pos 5 ∷ pos 4 ∷ [] }) }
    ensures both { entry (two_vectors (pos 7 ∷ pos 6 ∷ []) (pos 1 ∷ pos 0 ∷ []))
        halves_and_parts ≡ Faults (column 8) }
    ensures left { entry (two_vectors (pos 8 ∷ pos 5 ∷ []) (pos 1 ∷ pos 1 ∷ []))
        halves_and_parts ≡ Faults (column 3) }
{}
