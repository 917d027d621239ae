//! Sums and names. The function does nothing: its contract is the examples.
ghost use Rattle.std.specs.Prelude.{◌∷◌, []};
ghost use Rattle.apl_model.specs.Immediate.{well};
ghost use Rattle.apl_model_examples.specs.Sums as script;
ghost use Rattle.apl_model_examples.specs.Words.{AreTheirTexts, Runs, is_set, number_scalar, number_vector};

/// Sums and names: worked examples.
pub fn examples_of_sums()
    // the trees are those of the lines
    ensures trees { AreTheirTexts
        (script.two_numbers_are_added
        ∷ script.an_empty_script_prints_nothing
        ∷ script.equal_lengths_go_pairwise
        ∷ script.the_right_argument_comes_first
        ∷ script.an_assignment_leaves_earlier_values_alone
        ∷ script.an_assignment_prints_in_parentheses_alone
        ∷ script.an_output_prints_its_value_once
        ∷ []) }
    ensures two_numbers_are_added { Runs script.two_numbers_are_added "5\n" well [] }
    ensures an_empty_script_prints_nothing { Runs script.an_empty_script_prints_nothing "" well [] }
    ensures equal_lengths_go_pairwise { Runs script.equal_lengths_go_pairwise
        "11 12 13\n2 4 6\n" well (is_set "A" (number_vector (1 ∷ 2 ∷ 3 ∷ [])) ∷ []) }
    ensures the_right_argument_comes_first { Runs script.the_right_argument_comes_first
        "8 10 12\n" well (is_set "A" (number_vector (4 ∷ 5 ∷ 6 ∷ [])) ∷ []) }
    ensures an_assignment_leaves_earlier_values_alone { Runs
        script.an_assignment_leaves_earlier_values_alone
        "6 8\n5 6\n" well (is_set "A" (number_vector (5 ∷ 6 ∷ [])) ∷ []) }
    ensures an_assignment_prints_in_parentheses_alone { Runs
        script.an_assignment_prints_in_parentheses_alone
        "2 3\n1\n" well (is_set "A" (number_scalar 1) ∷ []) }
    ensures an_output_prints_its_value_once { Runs script.an_output_prints_its_value_once
        "3\n" well (is_set "A" (number_vector (1 ∷ 2 ∷ 3 ∷ [])) ∷ []) }
{}
