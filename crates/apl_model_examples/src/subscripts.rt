//! Subscripts and replacements. The function does nothing: its contract is the examples.
ghost use Rattle.std.specs.Prelude.{◌∷◌, []};
ghost use Rattle.apl_model.specs.Immediate.{well, reported};
ghost use Rattle.apl_model_examples.specs.Subscripts as script;
ghost use Rattle.apl_model_examples.specs.Words.{AreTheirTexts, Runs, RunsThrough, is_set, number_scalar, number_table, number_vector, one_by_one};

/// Subscripts and replacements: worked examples.
pub fn examples_of_subscripts()
    // the trees are those of the lines
    ensures trees { AreTheirTexts
        (script.a_row_a_column_and_a_corner
        ∷ script.positions_in_any_order
        ∷ script.a_position_beyond_the_length
        ∷ script.a_write_leaves_earlier_values_alone
        ∷ script.a_write_of_the_array_itself
        ∷ script.the_last_write_to_a_place_stays
        ∷ script.one_element_is_a_value_of_its_own
        ∷ script.a_write_to_an_unset_name
        ∷ script.positions_of_more_axes
        ∷ []) }
    ensures a_row_a_column_and_a_corner { Runs script.a_row_a_column_and_a_corner
        "4 5 6\n2 1\n5 4\n3\n6\n"
        well (is_set "A" (number_table 2 3 (1 ∷ 2 ∷ 3 ∷ 4 ∷ 5 ∷ 6 ∷ [])) ∷ []) }
    ensures positions_in_any_order { Runs script.positions_in_any_order "1 4 2\n" well [] }
    ensures a_position_beyond_the_length { Runs script.a_position_beyond_the_length
        "INDEX ERROR\n      (⍳3)[4]\n          ^\n" reported [] }
    ensures a_write_leaves_earlier_values_alone { Runs script.a_write_leaves_earlier_values_alone
        "11 13 15\n" well (is_set "A" (number_vector (9 ∷ 2 ∷ 3 ∷ [])) ∷ []) }
    ensures a_write_of_the_array_itself { Runs script.a_write_of_the_array_itself
        "3 2 1\n" well (is_set "A" (number_vector (3 ∷ 2 ∷ 1 ∷ [])) ∷ []) }
    ensures the_last_write_to_a_place_stays { Runs script.the_last_write_to_a_place_stays
        "1 8 3\n" well (is_set "A" (number_vector (1 ∷ 8 ∷ 3 ∷ [])) ∷ []) }
    ensures one_element_is_a_value_of_its_own { Runs script.one_element_is_a_value_of_its_own
        "6\n"
        well (is_set "A" (number_vector (5 ∷ 9 ∷ 7 ∷ [])) ∷ is_set "B" (number_scalar 6) ∷ []) }
    ensures a_write_to_an_unset_name { Runs script.a_write_to_an_unset_name
        "VALUE ERROR\n      Q[1]←2\n       ^\n" reported [] }
    ensures positions_of_more_axes { RunsThrough script.positions_of_more_axes
        ("1 2" ∷ "3 4" ∷ "6 4" ∷ "3 1" ∷ "2 4" ∷ "6 8" ∷ "5 9" ∷ [])
        well (is_set "A" (number_table 2 2 (6 ∷ 8 ∷ 5 ∷ 9 ∷ [])) ∷ []) (one_by_one 9) }
{}
