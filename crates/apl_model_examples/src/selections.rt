//! Selections. The function does nothing: its contract is the examples.
ghost use Rattle.std.specs.Prelude.{◌∷◌, []};
ghost use Rattle.apl_model.specs.Immediate.{well, reported};
ghost use Rattle.apl_model_examples.specs.Selections as script;
ghost use Rattle.apl_model_examples.specs.Words.{AreTheirTexts, Runs, RunsThrough, is_set, number_table, number_vector, one_by_one};

/// Selections: worked examples.
pub fn examples_of_selections()
    // the trees are those of the lines
    ensures trees { AreTheirTexts
        (script.axes_that_fall_together_give_the_diagonal
        ∷ script.a_selection_keeps_an_error
        ∷ script.a_transpose_keeps_its_value
        ∷ script.a_reversal_keeps_its_value
        ∷ script.each_axis_is_turned
        ∷ script.each_axis_has_a_new_place
        ∷ []) }
    ensures axes_that_fall_together_give_the_diagonal { Runs
        script.axes_that_fall_together_give_the_diagonal "1 5\n" well [] }
    ensures a_selection_keeps_an_error { Runs script.a_selection_keeps_an_error
        "DOMAIN ERROR\n      2↑6÷1 2 0\n         ^\n" reported [] }
    ensures a_transpose_keeps_its_value { Runs script.a_transpose_keeps_its_value
        "1 3\n2 4\n1 9\n3 4\n"
        well (is_set "A" (number_table 2 2 (1 ∷ 9 ∷ 3 ∷ 4 ∷ []))
        ∷ is_set "B" (number_table 2 2 (1 ∷ 3 ∷ 2 ∷ 4 ∷ [])) ∷ []) }
    ensures a_reversal_keeps_its_value { Runs script.a_reversal_keeps_its_value
        "3 2 1\n9 2 3\n"
        well (is_set "A" (number_vector (9 ∷ 2 ∷ 3 ∷ []))
        ∷ is_set "B" (number_vector (3 ∷ 2 ∷ 1 ∷ [])) ∷ []) }
    ensures each_axis_is_turned { RunsThrough script.each_axis_is_turned
        ("3 2 1" ∷ "6 5 4" ∷ "4 5 6" ∷ "1 2 3" ∷ "4 5 6" ∷ "1 2 3" ∷ "3 1 2" ∷ "4 5 6" ∷ "1 2 3"
        ∷ "2 3 1" ∷ "6 4 5" ∷ "1 5 3" ∷ "4 2 6" ∷ "5" ∷ "2 3 1" ∷ [])
        well [] (one_by_one 9) }
    ensures each_axis_has_a_new_place { RunsThrough script.each_axis_has_a_new_place
        ("4 3 2" ∷ "4 2 3" ∷ "1 4" ∷ "2 5" ∷ "3 6" ∷ "5" ∷ "1 2" ∷ "3 4" ∷ "0 0" ∷ "1 2" ∷ "4 5"
        ∷ [])
        well [] (one_by_one 7) }
{}
