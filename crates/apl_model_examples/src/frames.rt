//! The frames of calls, and branches. The function does nothing: its contract is the examples.
ghost use Rattle.std.specs.Prelude.{◌∷◌, []};
ghost use Rattle.apl_model.specs.Immediate.{well, reported};
ghost use Rattle.apl_model_examples.specs.Frames as script;
ghost use Rattle.apl_model_examples.specs.Words.{AreTheirTexts, RunsThrough, is_set, number_scalar};

/// The frames of calls, and branches: worked examples.
pub fn examples_of_frames()
    // the trees are those of the lines
    ensures trees { AreTheirTexts
        (script.a_name_is_set_in_the_innermost_frame_that_declares_it
        ∷ script.an_unset_local_has_no_value
        ∷ script.a_branch_names_the_next_line
        ∷ script.a_value_that_is_needed
        ∷ []) }
    ensures a_name_is_set_in_the_innermost_frame_that_declares_it { RunsThrough
        script.a_name_is_set_in_the_innermost_frame_that_declares_it
        ("20 2" ∷ "20" ∷ [])
        well (is_set "Y" (number_scalar 20) ∷ [])
        ((2, 2) ∷ (7, 4) ∷ (8, 5) ∷ (3, 3) ∷ (4, 6) ∷ (10, 1) ∷ (11, 7) ∷ []) }
    ensures an_unset_local_has_no_value { RunsThrough script.an_unset_local_has_no_value
        ("VALUE ERROR" ∷ "H[1] Z←A" ∷ "       ^"
        ∷ "5" ∷ "6" ∷ [])
        reported (is_set "A" (number_scalar 6) ∷ [])
        ((1, 1) ∷ (3, 3) ∷ (5, 2) ∷ (6, 4) ∷ (7, 5) ∷ (8, 6) ∷ []) }
    ensures a_branch_names_the_next_line { RunsThrough script.a_branch_names_the_next_line
        ("0" ∷ "15" ∷ "13" ∷ "0" ∷ "0" ∷ [])
        well []
        ((2, 2) ∷ (3, 3) ∷ (9, 1) ∷ (2, 5) ∷ (3, 6) ∷ (4, 7) ∷ (5, 8) ∷ (4, 9) ∷ (5, 10) ∷ (6, 11)
        ∷ (7, 12) ∷ (10, 4) ∷ (2, 14) ∷ (3, 15) ∷ (6, 16) ∷ (7, 17) ∷ (11, 13) ∷ (2, 19) ∷ (3, 20)
        ∷ (12, 18) ∷ (2, 22) ∷ (3, 23) ∷ (13, 21) ∷ []) }
    ensures a_value_that_is_needed { RunsThrough script.a_value_that_is_needed
        ("VALUE ERROR" ∷ "      (F 1)" ∷ "       ^"
        ∷ "VALUE ERROR" ∷ "      A←F 1" ∷ "        ^"
        ∷ "VALUE ERROR" ∷ "      →F 1" ∷ "       ^"
        ∷ "7" ∷ [])
        reported []
        ((3, 1) ∷ (4, 2) ∷ (5, 3) ∷ (6, 4) ∷ (7, 5) ∷ (8, 6) ∷ (9, 7) ∷ []) }
{}
