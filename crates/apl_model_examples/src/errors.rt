//! Errors and their places. The function does nothing: its contract is the examples.
ghost use Rattle.std.specs.Prelude.{◌∷◌, []};
ghost use Rattle.apl_model.specs.Immediate.{reported};
ghost use Rattle.apl_model_examples.specs.Errors as script;
ghost use Rattle.apl_model_examples.specs.Words.{AreTheirTexts, Runs, is_set, number_vector};

/// Errors and their places: worked examples.
pub fn examples_of_errors()
    // the trees are those of the lines
    ensures trees { AreTheirTexts
        (script.the_place_is_the_function_that_fails
        ∷ script.an_error_comes_before_an_output_to_its_left
        ∷ script.an_error_comes_though_no_element_is_left
        ∷ script.an_error_comes_before_an_unset_name_to_its_left
        ∷ script.the_script_goes_on_after_an_error
        ∷ script.the_right_one_of_two_unset_names
        ∷ script.the_right_one_of_two_errors
        ∷ script.the_right_one_of_two_kinds_of_errors
        ∷ script.the_right_one_of_two_failing_quotients
        ∷ script.an_axis_far_beyond_the_rank
        ∷ []) }
    ensures the_place_is_the_function_that_fails { Runs script.the_place_is_the_function_that_fails
        "DOMAIN ERROR\n      (7 6÷2 2)+1 1÷1 0\n                   ^\n" reported [] }
    ensures an_error_comes_before_an_output_to_its_left { Runs
        script.an_error_comes_before_an_output_to_its_left
        "DOMAIN ERROR\n      (⎕←1)+5÷0\n             ^\n" reported [] }
    ensures an_error_comes_though_no_element_is_left { Runs
        script.an_error_comes_though_no_element_is_left
        "DOMAIN ERROR\n      (1÷0)+⍳0\n        ^\n" reported [] }
    ensures an_error_comes_before_an_unset_name_to_its_left { Runs
        script.an_error_comes_before_an_unset_name_to_its_left
        "DOMAIN ERROR\n      X+1÷0\n         ^\n" reported [] }
    ensures the_script_goes_on_after_an_error { Runs script.the_script_goes_on_after_an_error
        "VALUE ERROR\n      A+1\n      ^\n7\n" reported [] }
    ensures the_right_one_of_two_unset_names { Runs script.the_right_one_of_two_unset_names
        "VALUE ERROR\n      X+Y\n        ^\n" reported [] }
    ensures the_right_one_of_two_errors { Runs script.the_right_one_of_two_errors
        "DOMAIN ERROR\n      (1÷0)+2÷0\n             ^\n" reported [] }
    ensures the_right_one_of_two_kinds_of_errors { Runs script.the_right_one_of_two_kinds_of_errors
        "DOMAIN ERROR\n      (⍳2 2)+1÷0\n              ^\n" reported [] }
    ensures the_right_one_of_two_failing_quotients { Runs
        script.the_right_one_of_two_failing_quotients
        "DOMAIN ERROR\n      (A÷2)+1÷B\n             ^\n"
        reported (is_set "A" (number_vector (7 ∷ 6 ∷ []))
        ∷ is_set "B" (number_vector (1 ∷ 0 ∷ [])) ∷ []) }
    ensures an_axis_far_beyond_the_rank { Runs script.an_axis_far_beyond_the_rank
        "DOMAIN ERROR\n      1000000000000000000000000000000000000 2⍉1 1⍴5\n                                             ^\n"
        reported [] }
{}
