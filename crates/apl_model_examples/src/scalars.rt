//! Scalar functions. The function does nothing: its contract is the examples.
ghost use Rattle.std.specs.Prelude.{◌∷◌, []};
ghost use Rattle.apl_model.specs.Immediate.{well, reported};
ghost use Rattle.apl_model_examples.specs.Scalars as script;
ghost use Rattle.apl_model_examples.specs.Words.{AreTheirTexts, Runs, RunsThrough, is_set, number_vector, one_by_one};

/// Scalar functions: worked examples.
pub fn examples_of_scalars()
    // the trees are those of the lines
    ensures trees { AreTheirTexts
        (script.zero_by_zero_is_one
        ∷ script.a_text_is_compared_character_by_character
        ∷ script.a_character_has_no_sum
        ∷ script.the_greatest_factorial
        ∷ script.no_greater_factorial
        ∷ script.the_greatest_number_is_a_product
        ∷ script.no_sum_beyond_the_greatest_number
        ∷ script.a_great_element_is_doubled
        ∷ script.an_element_that_is_not_taken_fails_all
        ∷ script.unequal_lengths
        ∷ script.unequal_lengths_of_a_name
        ∷ script.unequal_ranks
        ∷ script.a_residue_is_never_negative
        ∷ []) }
    ensures zero_by_zero_is_one { Runs script.zero_by_zero_is_one "1\n1\n" well [] }
    ensures a_text_is_compared_character_by_character { Runs
        script.a_text_is_compared_character_by_character "1 0\n" well [] }
    ensures a_character_has_no_sum { Runs script.a_character_has_no_sum
        "DOMAIN ERROR\n      'A'+1\n         ^\n" reported [] }
    ensures the_greatest_factorial { Runs script.the_greatest_factorial
        "263130836933693530167218012160000000\n" well [] }
    ensures no_greater_factorial { Runs script.no_greater_factorial
        "DOMAIN ERROR\n      !33\n      ^\n" reported [] }
    ensures the_greatest_number_is_a_product { Runs script.the_greatest_number_is_a_product
        "1000000000000000000000000000000000000\n" well [] }
    ensures no_sum_beyond_the_greatest_number { Runs script.no_sum_beyond_the_greatest_number
        "DOMAIN ERROR\n      1+1000000000000000000×1000000000000000000\n       ^\n" reported [] }
    ensures a_great_element_is_doubled { Runs script.a_great_element_is_doubled
        "2\n" well (is_set "A" (number_vector (1 ∷ 1000000000000000000 ∷ [])) ∷ []) }
    ensures an_element_that_is_not_taken_fails_all { Runs
        script.an_element_that_is_not_taken_fails_all
        "DOMAIN ERROR\n      1↑A+A\n         ^\n"
        reported
        (is_set "A" (number_vector (1 ∷ 1000000000000000000000000000000000000 ∷ [])) ∷ []) }
    ensures unequal_lengths { Runs script.unequal_lengths
        "LENGTH ERROR\n      1 2+1 2 3\n         ^\n" reported [] }
    ensures unequal_lengths_of_a_name { Runs script.unequal_lengths_of_a_name
        "LENGTH ERROR\n      1 2 3+A\n           ^\n1 2\n"
        reported (is_set "A" (number_vector (1 ∷ 2 ∷ [])) ∷ []) }
    ensures unequal_ranks { Runs script.unequal_ranks
        "RANK ERROR\n      (2 2⍴1)+1 2\n             ^\n" reported [] }
    ensures a_residue_is_never_negative { RunsThrough script.a_residue_is_never_negative
        ("2 1" ∷ "2 1" ∷ "5" ∷ [])
        well [] (one_by_one 3) }
{}
