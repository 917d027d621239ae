//! Which index an odometer gives, and that its walk ends.

ghost use Rattle.std.specs.Prelude.{◌≡◌, ◌+◌, ◌-◌, ◌<◌, ◌≤◌, ℕ, Bool, List, [], ◌∷◌, length, drop, slice_index_or};
ghost use Rattle.apl_base.specs.Array.{IsIndex, size_of};
ghost use Rattle.iter_stack.specs.Indices.{indices_back, from_the_end, walk, item};

/// Laws of the two walks: the item number p is the index at the place p, counted from the end of the last axis
/// where the walk is backwards; there are as many items as elements.
pub fn item_laws()
    ensures item { (back : Bool) (ns : List ℕ) (p : ℕ) (d : List ℕ)
        → p < size_of ns → slice_index_or (walk back ns) p d ≡ item back ns p }
    ensures count { (back : Bool) (ns : List ℕ) → length (walk back ns) ≡ size_of ns }
    ensures lawful { (ns is : List ℕ) → IsIndex ns is → IsIndex ns (from_the_end ns is) }
{}

/// Laws for a loop over a walk: what is left after k items is the walk without its first k items; the next item
/// is the item number k, an index of the shape; and where none is left, k is the size.
pub fn walk_laws()
    ensures next { (back : Bool) (ns : List ℕ) (k : ℕ) (i : List ℕ) (left : List (List ℕ))
        → drop k (walk back ns) ≡ i ∷ left
        → (k < size_of ns) × (i ≡ item back ns k) × IsIndex ns i
        × (left ≡ drop (k + 1) (walk back ns)) }
    ensures end { (back : Bool) (ns : List ℕ) (k : ℕ) → drop k (walk back ns) ≡ []
        → size_of ns ≤ k }
    ensures left { (back : Bool) (ns : List ℕ) (k : ℕ)
        → length (drop k (walk back ns)) ≡ size_of ns - k }
{}

/// Worked examples of the walk backwards.
pub fn walk_examples()
    ensures scalar_back { indices_back [] ≡ [] ∷ [] }
    ensures vector_back { indices_back (3 ∷ []) ≡ (2 ∷ []) ∷ (1 ∷ []) ∷ (0 ∷ []) ∷ [] }
    ensures matrix_back { indices_back (2 ∷ 2 ∷ [])
        ≡ (0 ∷ 1 ∷ []) ∷ (0 ∷ 0 ∷ []) ∷ (1 ∷ 1 ∷ []) ∷ (1 ∷ 0 ∷ []) ∷ [] }
    ensures none_back { indices_back (0 ∷ 2 ∷ []) ≡ [] }
{}
