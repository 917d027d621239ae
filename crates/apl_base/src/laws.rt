//! Laws of indices, places and whole arrays.

ghost use Rattle.std.specs.Prelude.{◌≡◌, ◌≢◌, ◌<◌, ◌≤◌, ◌*◌, ◌^◌, ◌++◌, ℕ, ℤ, List, [], ◌∷◌, length, map, pos, slice_index_or, Option, Some, None};
ghost use Rattle.std.specs.List.{flat_map};
ghost use Rattle.apl_base.specs.Array.{Array, IsShape, IsIndex, size_of, place_at, index_at, cell_at};
ghost use Rattle.apl_base.specs.Elements.{all_defined, indices, tabulated, gathered};
ghost use Rattle.apl_base.specs.Selection.{upward};

use crate::cells::Kind;

/// Laws of the row-major order: the places below the size and the indices of a shape are each other's.
pub fn row_major_laws()
    ensures index { (ns : List ℕ) (p : ℕ) → p < size_of ns → IsIndex ns (index_at ns p) }
    ensures place { (ns is : List ℕ) → IsIndex ns is → place_at ns is < size_of ns }
    ensures back_to_the_place { (ns : List ℕ) (p : ℕ) → p < size_of ns
        → place_at ns (index_at ns p) ≡ p }
    ensures back_to_the_index { (ns is : List ℕ) → IsIndex ns is
        → index_at ns (place_at ns is) ≡ is }
    ensures a_number_for_each_axis { (ns is : List ℕ) → IsIndex ns is → length is ≡ length ns }
    ensures joined_size { (ms ns : List ℕ) → size_of (ms ++ ns) ≡ size_of ms * size_of ns }
{}

/// Laws of the indices of a shape in row-major order: as many as elements, the one at each place that of the
/// place, and for each number of the first axis all indices of the axes behind it.
pub fn index_laws()
    ensures count { (ns : List ℕ) → length (indices ns) ≡ size_of ns }
    ensures place { (ns : List ℕ) (p : ℕ) (d : List ℕ) → p < size_of ns
        → slice_index_or (indices ns) p d ≡ index_at ns p }
    ensures scalar { indices [] ≡ [] ∷ [] }
    ensures rows { (n : ℕ) (ns : List ℕ)
        → indices (n ∷ ns) ≡ flat_map (λ i. map (λ is. i ∷ is) (indices ns)) (upward 0 n) }
{}

/// Worked examples of the indices of a shape.
pub fn index_examples()
    ensures vector { indices (3 ∷ []) ≡ (0 ∷ []) ∷ (1 ∷ []) ∷ (2 ∷ []) ∷ [] }
    ensures matrix { indices (2 ∷ 2 ∷ [])
        ≡ (0 ∷ 0 ∷ []) ∷ (0 ∷ 1 ∷ []) ∷ (1 ∷ 0 ∷ []) ∷ (1 ∷ 1 ∷ []) ∷ [] }
    ensures none { (indices (2 ∷ 0 ∷ []) ≡ []) × (indices (0 ∷ 2 ∷ []) ≡ []) }
{}

/// Laws of arrays that are made index by index: the cells are those at the indices in order, the cell at an index
/// is the one given there, and an array is that of its own cells.
pub fn tabulation_laws()
    ensures cells { (kind : Kind) (ns : List ℕ) (cell : List ℕ → ℤ)
        → (tabulated kind ns cell).cells ≡ map cell (indices ns) }
    ensures cell { (kind : Kind) (ns is : List ℕ) (cell : List ℕ → ℤ)
        → IsIndex ns is → cell_at (tabulated kind ns cell) is ≡ cell is }
    ensures own_cells { (a : Array) → length a.cells ≡ size_of a.shape
        → tabulated a.kind a.shape (cell_at a) ≡ a }
    ensures read { (ns is : List ℕ) (read : List ℕ → List ℕ) (a : Array)
        → IsIndex ns is → cell_at (gathered ns read a) is ≡ cell_at a (read is) }
{}

/// Laws of values that are all defined: one for each, that at its place; else one of them is undefined.
pub fn defined_laws()
    ensures some { (os : List (Option ℤ)) (xs : List ℤ) (k : ℕ) → all_defined os ≡ Some xs
        → k < length os
        → slice_index_or os k None ≡ Some (slice_index_or xs k (pos 0)) }
    ensures count { (os : List (Option ℤ)) (xs : List ℤ) → all_defined os ≡ Some xs
        → length xs ≡ length os }
    ensures none { (os : List (Option ℤ)) → all_defined os ≡ None
        → (k : ℕ) × (k < length os) × (slice_index_or os k None ≡ None) }
{}

/// Worked examples of shapes, of the row-major order and of an array's cells.
pub fn shape_examples()
    ensures size { (size_of (2 ∷ 3 ∷ 4 ∷ []) ≡ 24) × (size_of [] ≡ 1) × (size_of (5 ∷ 0 ∷ []) ≡ 0) }
    ensures place { (place_at (2 ∷ 3 ∷ 4 ∷ []) (1 ∷ 2 ∷ 3 ∷ []) ≡ 23)
        × (place_at (2 ∷ 3 ∷ []) (1 ∷ 0 ∷ []) ≡ 3)
        × (place_at [] [] ≡ 0) }
    ensures index { (index_at (2 ∷ 3 ∷ 4 ∷ []) 23 ≡ 1 ∷ 2 ∷ 3 ∷ [])
        × (index_at (2 ∷ 3 ∷ []) 3 ≡ 1 ∷ 0 ∷ [])
        × (index_at [] 0 ≡ []) }
    ensures cell { cell_at (record {
      kind = Kind.Num;
      shape = 2 ∷ 2 ∷ [];
      cells = pos 5 ∷ pos 6 ∷ pos 7 ∷ pos 8 ∷ [];
    }) (1 ∷ 0 ∷ [])
        ≡ pos 7 }
{}
