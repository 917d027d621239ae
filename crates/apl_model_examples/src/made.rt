//! Functions of whole arrays. The function does nothing: its contract is the examples.
ghost use Rattle.std.specs.Prelude.{◌∷◌, []};
ghost use Rattle.apl_model.specs.Immediate.{well, reported};
ghost use Rattle.apl_model_examples.specs.Made as script;
ghost use Rattle.apl_model_examples.specs.Words.{AreTheirTexts, Runs, RunsThrough, one_by_one};

/// Functions of whole arrays: worked examples.
pub fn examples_of_made()
    // the trees are those of the lines
    ensures trees { AreTheirTexts
        (script.taking_pads_and_dropping_stops
        ∷ script.digits_and_their_value
        ∷ script.eight_functions_of_vectors
        ∷ script.a_negative_length
        ∷ script.nothing_has_no_two_elements
        ∷ script.a_second_spelling_of_membership
        ∷ script.more_than_the_greatest_length
        ∷ script.equal_elements_keep_their_order
        ∷ script.places_and_members
        ∷ script.bits_along_an_axis
        ∷ script.the_number_of_digits_in_one_base
        ∷ script.a_base_of_0_takes_all_that_is_left
        ∷ []) }
    ensures taking_pads_and_dropping_stops { Runs script.taking_pads_and_dropping_stops
        "0 0 1 2 3\n\n" well [] }
    ensures digits_and_their_value { Runs script.digits_and_their_value "1 2 3\n3723\n" well [] }
    ensures eight_functions_of_vectors { Runs script.eight_functions_of_vectors
        "5 0 7\n3 4\n2 3 1\n1 3 2\n0 1\n2 3 1\n1 2 3\n1 2 3 4\n" well [] }
    ensures a_negative_length { Runs script.a_negative_length
        "DOMAIN ERROR\n      ¯1⍴2\n        ^\n" reported [] }
    ensures nothing_has_no_two_elements { Runs script.nothing_has_no_two_elements
        "LENGTH ERROR\n      2⍴⍳0\n       ^\n" reported [] }
    ensures a_second_spelling_of_membership { Runs script.a_second_spelling_of_membership
        "0 1\n" well [] }
    ensures more_than_the_greatest_length { Runs script.more_than_the_greatest_length
        "LIMIT ERROR\n      ⍳1099511627777\n      ^\n" reported [] }
    ensures equal_elements_keep_their_order { RunsThrough script.equal_elements_keep_their_order
        ("2 4 1 3" ∷ "1 3 2 4" ∷ [])
        well [] (one_by_one 2) }
    ensures places_and_members { RunsThrough script.places_and_members
        ("2 1 4" ∷ "2 2" ∷ "3" ∷ "1 0" ∷ "0 1" ∷ "0" ∷ "1 2 1 2 1" ∷ "5" ∷ "7" ∷ "1 2" ∷ [])
        well [] (one_by_one 9) }
    ensures bits_along_an_axis { RunsThrough script.bits_along_an_axis
        ("1" ∷ "3" ∷ "1 2" ∷ "3 4" ∷ "1 2" ∷ "0 0" ∷ "3 4" ∷ "1 0 2" ∷ "3 0 4" ∷ [])
        well [] (one_by_one 5) }
    ensures the_number_of_digits_in_one_base { RunsThrough script.the_number_of_digits_in_one_base
        ("5" ∷ "20" ∷ "0" ∷ [])
        well [] (one_by_one 3) }
    ensures a_base_of_0_takes_all_that_is_left { RunsThrough
        script.a_base_of_0_takes_all_that_is_left
        ("0 3 2" ∷ "1 0" ∷ "2 0" ∷ "3 7" ∷ "5 7" ∷ "9 9" ∷ "2 1" ∷ [])
        well [] (one_by_one 5) }
{}
