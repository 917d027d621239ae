//! Worked examples of the selections.

ghost use Rattle.std.specs.Prelude.{◌≡◌, pos, negsuc, [], ◌∷◌, ◌++◌};
ghost use Rattle.apl_base.specs.Selection.{take_shape, take_index, drop_shape, drop_index, reverse_index, transpose_shape, transpose_index, whole, one, run, subscript_shape, subscript_index, at_shape, at_index, run_shape, run_index, only_index, outer_left_index, outer_right_index};
ghost use Rattle.apl_base.specs.Examples.{places_read};

/// Worked examples of take: the places of the argument, counted from 0 in row-major order, that the result reads.
pub fn take_examples()
    ensures shape { take_shape (pos 2 ∷ negsuc 1 ∷ []) ≡ 2 ∷ 2 ∷ [] }
    ensures first { places_read (5 ∷ []) (2 ∷ []) (take_index (5 ∷ []) (pos 2 ∷ [])) ≡ 0 ∷ 1 ∷ [] }
    ensures last { places_read (5 ∷ []) (2 ∷ []) (take_index (5 ∷ []) (negsuc 1 ∷ []))
        ≡ 3 ∷ 4 ∷ [] }
    ensures none { places_read (5 ∷ []) (0 ∷ []) (take_index (5 ∷ []) (pos 0 ∷ [])) ≡ [] }
    ensures corner { places_read (3 ∷ 4 ∷ []) (2 ∷ 2 ∷ [])
        (take_index (3 ∷ 4 ∷ []) (pos 2 ∷ negsuc 1 ∷ []))
        ≡ 2 ∷ 3 ∷ 6 ∷ 7 ∷ [] }
{}

/// Worked examples of drop.
pub fn drop_examples()
    ensures shape { drop_shape (3 ∷ 4 ∷ 2 ∷ []) (pos 1 ∷ negsuc 2 ∷ pos 9 ∷ []) ≡ 2 ∷ 1 ∷ 0 ∷ [] }
    ensures first { places_read (5 ∷ []) (3 ∷ []) (drop_index (5 ∷ []) (pos 2 ∷ []))
        ≡ 2 ∷ 3 ∷ 4 ∷ [] }
    ensures last { places_read (5 ∷ []) (3 ∷ []) (drop_index (5 ∷ []) (negsuc 1 ∷ []))
        ≡ 0 ∷ 1 ∷ 2 ∷ [] }
    ensures corner { places_read (3 ∷ 4 ∷ []) (2 ∷ 1 ∷ [])
        (drop_index (3 ∷ 4 ∷ []) (pos 1 ∷ negsuc 2 ∷ [])) ≡ 4 ∷ 8 ∷ [] }
{}

/// Worked examples of the reversal of one axis.
pub fn reverse_examples()
    ensures vector { places_read (4 ∷ []) (4 ∷ []) (reverse_index (4 ∷ []) 0) ≡ 3 ∷ 2 ∷ 1 ∷ 0 ∷ [] }
    ensures first_axis { places_read (2 ∷ 3 ∷ []) (2 ∷ 3 ∷ []) (reverse_index (2 ∷ 3 ∷ []) 0)
        ≡ 3 ∷ 4 ∷ 5 ∷ 0 ∷ 1 ∷ 2 ∷ [] }
    ensures last_axis { places_read (2 ∷ 3 ∷ []) (2 ∷ 3 ∷ []) (reverse_index (2 ∷ 3 ∷ []) 1)
        ≡ 2 ∷ 1 ∷ 0 ∷ 5 ∷ 4 ∷ 3 ∷ [] }
{}

/// Worked examples of transposition: axes in another order, and diagonals, which have the least length.
pub fn transpose_examples()
    ensures shape { transpose_shape (1 ∷ 0 ∷ []) (2 ∷ 3 ∷ []) ≡ 3 ∷ 2 ∷ [] }
    ensures matrix { places_read (2 ∷ 3 ∷ []) (3 ∷ 2 ∷ []) (transpose_index (1 ∷ 0 ∷ []))
        ≡ 0 ∷ 3 ∷ 1 ∷ 4 ∷ 2 ∷ 5 ∷ [] }
    ensures turned_shape { transpose_shape (1 ∷ 2 ∷ 0 ∷ []) (2 ∷ 3 ∷ 4 ∷ []) ≡ 4 ∷ 2 ∷ 3 ∷ [] }
    ensures turned { transpose_index (1 ∷ 2 ∷ 0 ∷ []) (3 ∷ 1 ∷ 2 ∷ []) ≡ 1 ∷ 2 ∷ 3 ∷ [] }
    ensures diagonal_shape { transpose_shape (0 ∷ 0 ∷ []) (2 ∷ 3 ∷ []) ≡ 2 ∷ [] }
    ensures diagonal { places_read (2 ∷ 3 ∷ []) (2 ∷ []) (transpose_index (0 ∷ 0 ∷ []))
        ≡ 0 ∷ 4 ∷ [] }
    ensures part_diagonal_shape { transpose_shape (0 ∷ 1 ∷ 0 ∷ []) (3 ∷ 4 ∷ 2 ∷ []) ≡ 2 ∷ 4 ∷ [] }
    ensures scalar { transpose_shape [] [] ≡ [] }
{}

/// Worked examples of a subscript with one position for each axis: the whole axis, one place of it, or a run.
pub fn subscript_examples()
    ensures shape { subscript_shape (whole ∷ one 1 ∷ run 0 (pos 2) 2 ∷ []) (2 ∷ 3 ∷ 4 ∷ [])
        ≡ 2 ∷ 2 ∷ [] }
    ensures mixed { places_read (2 ∷ 3 ∷ 4 ∷ []) (2 ∷ 2 ∷ [])
        (subscript_index (whole ∷ one 1 ∷ run 0 (pos 2) 2 ∷ []))
        ≡ 4 ∷ 6 ∷ 16 ∷ 18 ∷ [] }
    ensures row { places_read (2 ∷ 3 ∷ []) (3 ∷ []) (subscript_index (one 1 ∷ whole ∷ []))
        ≡ 3 ∷ 4 ∷ 5 ∷ [] }
    ensures column { places_read (2 ∷ 3 ∷ []) (2 ∷ []) (subscript_index (whole ∷ one 2 ∷ []))
        ≡ 2 ∷ 5 ∷ [] }
    ensures element { places_read (2 ∷ 3 ∷ []) [] (subscript_index (one 1 ∷ one 0 ∷ [])) ≡ 3 ∷ [] }
    ensures falling_run { places_read (5 ∷ []) (3 ∷ []) (subscript_index (run 4 (negsuc 1) 3 ∷ []))
        ≡ 4 ∷ 2 ∷ 0 ∷ [] }
{}

/// Worked examples of one place of one axis, which is then gone.
pub fn at_examples()
    ensures shape { at_shape 1 (2 ∷ 3 ∷ 4 ∷ []) ≡ 2 ∷ 4 ∷ [] }
    ensures row { places_read (2 ∷ 3 ∷ []) (3 ∷ []) (at_index 0 1) ≡ 3 ∷ 4 ∷ 5 ∷ [] }
    ensures column { places_read (2 ∷ 3 ∷ []) (2 ∷ []) (at_index 1 2) ≡ 2 ∷ 5 ∷ [] }
{}

/// Worked examples of a run of one axis.
pub fn run_examples()
    ensures shape { run_shape 1 2 (2 ∷ 5 ∷ []) ≡ 2 ∷ 2 ∷ [] }
    ensures rising { places_read (2 ∷ 5 ∷ []) (2 ∷ 2 ∷ []) (run_index 1 1 (pos 3))
        ≡ 1 ∷ 4 ∷ 6 ∷ 9 ∷ [] }
    ensures falling { places_read (4 ∷ []) (4 ∷ []) (run_index 0 3 (negsuc 0))
        ≡ 3 ∷ 2 ∷ 1 ∷ 0 ∷ [] }
    ensures standing { places_read (4 ∷ []) (3 ∷ []) (run_index 0 2 (pos 0)) ≡ 2 ∷ 2 ∷ 2 ∷ [] }
{}

/// Worked examples of the extension of an argument with one element.
pub fn extend_examples()
    ensures scalar { places_read [] (2 ∷ 2 ∷ []) (λ is. only_index []) ≡ 0 ∷ 0 ∷ 0 ∷ 0 ∷ [] }
    ensures one_element { only_index (1 ∷ 1 ∷ []) ≡ 0 ∷ 0 ∷ [] }
{}

/// Worked examples of the two parts of an index of an outer product's shape.
pub fn outer_examples()
    ensures left { places_read (2 ∷ []) ((2 ∷ []) ++ (3 ∷ [])) (outer_left_index (2 ∷ []))
        ≡ 0 ∷ 0 ∷ 0 ∷ 1 ∷ 1 ∷ 1 ∷ [] }
    ensures right { places_read (3 ∷ []) ((2 ∷ []) ++ (3 ∷ [])) (outer_right_index (2 ∷ []))
        ≡ 0 ∷ 1 ∷ 2 ∷ 0 ∷ 1 ∷ 2 ∷ [] }
    ensures left_of_matrix { outer_left_index (2 ∷ 3 ∷ []) (1 ∷ 2 ∷ 0 ∷ []) ≡ 1 ∷ 2 ∷ [] }
    ensures right_of_matrix { outer_right_index (2 ∷ 3 ∷ []) (1 ∷ 2 ∷ 0 ∷ []) ≡ 0 ∷ [] }
{}
