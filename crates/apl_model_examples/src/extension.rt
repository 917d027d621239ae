//! What one element extends to. The function does nothing: its contract is the examples.
ghost use Rattle.std.specs.Prelude.{◌∷◌, []};
ghost use Rattle.apl_model.specs.Immediate.{well, reported};
ghost use Rattle.apl_model_examples.specs.Extension as script;
ghost use Rattle.apl_model_examples.specs.Words.{AreTheirTexts, RunsThrough, is_set, number_table, one_by_one};

/// What one element extends to: worked examples.
pub fn examples_of_extension()
    // the trees are those of the lines
    ensures trees { AreTheirTexts
        (script.a_table_of_one_element_does_not_extend
        ∷ script.one_element_extends
        ∷ script.a_scalar_is_taken_with_lengths_of_1
        ∷ script.one_element_goes_to_all_places
        ∷ []) }
    ensures a_table_of_one_element_does_not_extend { RunsThrough
        script.a_table_of_one_element_does_not_extend
        ("LENGTH ERROR" ∷ "      1 0 1/1 1⍴5" ∷ "           ^"
        ∷ "LENGTH ERROR" ∷ "      1 0 1\\1 1⍴5" ∷ "           ^"
        ∷ "LENGTH ERROR" ∷ "      1 2 3+.×1 1⍴5" ∷ "            ^"
        ∷ "LENGTH ERROR" ∷ "      (1 1⍴5)+.×1 2 3" ∷ "              ^"
        ∷ "1 1" ∷ "1 1" ∷ [])
        reported [] (one_by_one 6) }
    ensures one_element_extends { RunsThrough script.one_element_extends
        ("5 5" ∷ "5 0 5" ∷ "7 8" ∷ "30" ∷ "30" ∷ "" ∷ "1 1" ∷ "1" ∷ "6 7 8" ∷ "" ∷ "0" ∷ "" ∷ ""
        ∷ [])
        well [] (one_by_one 13) }
    ensures a_scalar_is_taken_with_lengths_of_1 { RunsThrough
        script.a_scalar_is_taken_with_lengths_of_1
        ("5 0 0" ∷ "0 5" ∷ "0 0" ∷ "1 0" ∷ "5" ∷ [])
        well [] (one_by_one 4) }
    ensures one_element_goes_to_all_places { RunsThrough script.one_element_goes_to_all_places
        ("9 2" ∷ "8 8" ∷ [])
        well (is_set "A" (number_table 2 2 (9 ∷ 2 ∷ 8 ∷ 8 ∷ [])) ∷ []) (one_by_one 4) }
{}
