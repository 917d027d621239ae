//! Laws of the definitions: each is the contract of a call that does nothing.

ghost use Rattle.std.specs.Prelude.{◌≡◌, ℕ, List, [], ◌∷◌, Some, None, codes};
ghost use Rattle.apl_base.specs.declared.faults.Cause.TheVariants as cause;
ghost use Rattle.apl_model.specs.Lines.{texts_of};
ghost use Rattle.apl_model.specs.Refusal.{IsReadingRefusal, refusal, IsFirstIfAny};
ghost use Rattle.apl_read.specs.Refusals.{reading_refusal};

/// Worked examples of lines, and of the first refusal of bytes and characters.
pub fn worked_lines()
    ensures lines { texts_of (codes "10\n\n7+1\n") ≡ codes "10" ∷ [] ∷ codes "7+1" ∷ [] }
    ensures accepted { reading_refusal (codes "2+3") ≡ None }
    ensures character { reading_refusal (codes "2-1\n2@3") ≡ Some (refusal cause.Character 2 2) }
    ensures ill_formed { reading_refusal (50 ∷ 43 ∷ 255 ∷ []) ≡ Some (refusal cause.Utf8 1 3) }
{}

/// The refusal that is computed is the first of all refusals of the bytes and the lines' characters.
pub fn first_reading_refusal()
    ensures { (bytes : List ℕ) → IsFirstIfAny (IsReadingRefusal bytes) (reading_refusal bytes) }
{}
