//! Worked numbers of descriptors, and that they determine them.

ghost use Rattle.std.specs.Prelude.{◌≡◌, ℕ, pos, negsuc, List, [], ◌∷◌};
ghost use Rattle.apl_base.specs.Array.{IsIndex};
ghost use Rattle.array_desc.specs.Desc.{number as number_of};

use crate::desc::Desc;

/// Worked numbers: of a table, of a vector backwards, of a diagonal, of a scalar.
pub fn worked_numbers()
    ensures table { number_of
        (record { base = pos 5; strides = pos 10 ∷ pos 1 ∷ []; shape = 2 ∷ 3 ∷ [] }) (1 ∷ 2 ∷ [])
        ≡ pos 17 }
    ensures backwards { number_of
        (record { base = pos 2; strides = negsuc 0 ∷ []; shape = 3 ∷ [] }) (2 ∷ [])
        ≡ pos 0 }
    ensures diagonal { number_of
        (record { base = pos 0; strides = pos 4 ∷ []; shape = 2 ∷ [] }) (1 ∷ [])
        ≡ pos 4 }
    ensures scalar { number_of (record { base = negsuc 6; strides = []; shape = [] }) []
        ≡ negsuc 6 }
{}

/// Two descriptors of one shape that have the same number at each index are the same descriptor: so the
/// calls, which say the number at each index, say the whole result.
pub fn determined(one: &Desc, other: &Desc)
    requires shape { one.now.shape ≡ other.now.shape }
    requires numbers { (i : List ℕ) → IsIndex one.now.shape i
        → number_of one.now i ≡ number_of other.now i }
    ensures { one.now ≡ other.now }
{
    let _one = one.base;
    let _other = other.base;
}
