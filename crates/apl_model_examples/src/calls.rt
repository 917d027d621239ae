//! Calls and turns. The function does nothing: its contract is the examples.
ghost use Rattle.std.specs.Prelude.{◌∷◌, ◌++◌, []};
ghost use Rattle.apl_model.specs.Immediate.{well, reported, out_of_turns};
ghost use Rattle.apl_model_examples.specs.Calls as script;
ghost use Rattle.apl_model_examples.specs.Words.{AreTheirTexts, Runs, RunsThrough, RunsWithin, innermost_first, is_set, number_vector};

/// Calls and turns: worked examples.
pub fn examples_of_calls()
    // the trees are those of the lines
    ensures trees { AreTheirTexts
        (script.a_call_writes_a_global
        ∷ script.the_average_of_three_numbers
        ∷ script.a_name_is_that_of_the_innermost_call
        ∷ script.a_loop_adds_up
        ∷ script.a_loop_without_end
        ∷ script.no_turn_at_all
        ∷ script.commands_and_definitions_take_no_turn
        ∷ script.a_branch_to_a_character
        ∷ script.a_call_too_deep
        ∷ script.a_call_without_a_result
        ∷ []) }
    ensures a_call_writes_a_global { Runs script.a_call_writes_a_global
        "10 20\n9 2\n" well (is_set "A" (number_vector (9 ∷ 2 ∷ [])) ∷ []) }
    ensures the_average_of_three_numbers { Runs script.the_average_of_three_numbers "4\n" well [] }
    ensures a_name_is_that_of_the_innermost_call { Runs script.a_name_is_that_of_the_innermost_call
        "5\n" well [] }
    ensures a_loop_adds_up { RunsThrough script.a_loop_adds_up ("10" ∷ []) well []
        ((2, 2) ∷ (3, 3) ∷ (4, 4) ∷ (5, 5) ∷ (6, 6) ∷ (4, 7) ∷ (5, 8) ∷ (6, 9) ∷ (4, 10) ∷ (5, 11)
        ∷ (6, 12) ∷ (4, 13) ∷ (5, 14) ∷ (6, 15) ∷ (8, 1) ∷ []) }
    ensures fifteen_turns_are_enough { RunsWithin 15 script.a_loop_adds_up "10\n" well [] }
    ensures fourteen_turns_are_too_few { RunsWithin 14 script.a_loop_adds_up "" out_of_turns [] }
    ensures a_loop_without_end { RunsWithin 10 script.a_loop_without_end "" out_of_turns [] }
    ensures no_turn_at_all { RunsWithin 0 script.no_turn_at_all "" out_of_turns [] }
    ensures commands_and_definitions_take_no_turn { RunsWithin 0
        script.commands_and_definitions_take_no_turn "F\n" well [] }
    ensures a_branch_to_a_character { Runs script.a_branch_to_a_character
        "DOMAIN ERROR\n      →'A'\n      ^\n" reported [] }
    ensures a_call_too_deep { RunsThrough script.a_call_too_deep
        ("DEPTH ERROR" ∷ "F[1] F" ∷ "     ^" ∷ [])
        reported [] (innermost_first 2 2 256 ++ (4, 1) ∷ []) }
    ensures a_call_without_a_result { Runs script.a_call_without_a_result
        "VALUE ERROR\n      1+F 2\n        ^\n" reported [] }
{}
