//! The origin of indices. The function does nothing: its contract is the examples.
ghost use Rattle.std.specs.Prelude.{◌≡◌, ◌∷◌, pos, []};
ghost use Rattle.apl_model.specs.Immediate.{well, reported};
ghost use Rattle.apl_model_examples.specs.Origins as script;
ghost use Rattle.apl_model_examples.specs.Words.{AreTheirTexts, Runs, RunsThrough, is_set, number_vector, origin_after};

/// The origin of indices: worked examples.
pub fn examples_of_origins()
    // the trees are those of the lines
    ensures trees { AreTheirTexts
        (script.places_count_from_the_origin
        ∷ script.the_length_is_no_position_from_0
        ∷ script.axes_and_writes_count_from_the_origin
        ∷ script.lines_count_from_1
        ∷ []) }
    ensures places_count_from_the_origin { Runs script.places_count_from_the_origin
        "0 1 2\nAC\n1 2 0\n2 3\n2 4\n1 2 3\n" well [] }
    ensures the_length_is_no_position_from_0 { Runs script.the_length_is_no_position_from_0
        "INDEX ERROR\n      1 2 3[3]\n           ^\n" reported [] }
    // after the last command the origin is 1
    ensures the_origin_is_set_back { origin_after script.places_count_from_the_origin ≡ pos 1 }
    // an error leaves the origin as it is
    ensures the_origin_stays_0 { origin_after script.the_length_is_no_position_from_0 ≡ pos 0 }
    ensures axes_and_writes_count_from_the_origin { RunsThrough
        script.axes_and_writes_count_from_the_origin
        ("0 3" ∷ "1 4" ∷ "2 5" ∷ "9 1 2" ∷ "2 3" ∷ "0 1" ∷ "2 3" ∷ "0 1" ∷ "2 3" ∷ "0 0" ∷ "0 1"
        ∷ "0 2 1" ∷ [])
        well (is_set "A" (number_vector (9 ∷ 1 ∷ 2 ∷ [])) ∷ [])
        ((2, 1) ∷ (3, 2) ∷ (4, 3) ∷ (5, 4) ∷ (6, 5) ∷ (7, 6) ∷ (8, 7) ∷ (9, 8) ∷ (10, 9) ∷ []) }
    ensures lines_count_from_1 { RunsThrough script.lines_count_from_1
        ("B" ∷ "B" ∷ [])
        well []
        ((3, 2) ∷ (5, 3) ∷ (6, 4) ∷ (7, 5) ∷ (1, 1) ∷ (3, 7) ∷ (5, 8) ∷ (6, 9) ∷ (7, 10) ∷ (11, 6)
        ∷ []) }
{}
