//! The order of evaluation, and of the statements that end. The function does nothing: its contract is the examples.
ghost use Rattle.std.specs.Prelude.{◌∷◌, []};
ghost use Rattle.apl_model.specs.Immediate.{well, reported, out_of_turns};
ghost use Rattle.apl_model_examples.specs.Order as script;
ghost use Rattle.apl_model_examples.specs.Words.{AreTheirTexts, RunsThrough, RunsThroughWithin, is_set, number_table, one_by_one};

/// The order of evaluation, and of the statements that end: worked examples.
pub fn examples_of_order()
    // the trees are those of the lines
    ensures trees { AreTheirTexts
        (script.positions_are_evaluated_from_the_last
        ∷ script.a_failed_statement_ends_too
        ∷ []) }
    ensures positions_are_evaluated_from_the_last { RunsThrough
        script.positions_are_evaluated_from_the_last
        ("2" ∷ "1" ∷ "2" ∷ "9" ∷ "3" ∷ "2" ∷ "2" ∷ "4 5" ∷ "5" ∷ "2" ∷ "1" ∷ "3" ∷ "4" ∷ "3" ∷ "7"
        ∷ "6" ∷ "5" ∷ "30" ∷ "1 2 3" ∷ "4 5 9" ∷ [])
        well (is_set "A" (number_table 2 3 (1 ∷ 2 ∷ 3 ∷ 4 ∷ 5 ∷ 9 ∷ [])) ∷ []) (one_by_one 8) }
    ensures a_failed_statement_ends_too { RunsThrough script.a_failed_statement_ends_too
        ("2" ∷ "4" ∷ "4" ∷ "0" ∷ "3"
        ∷ "DOMAIN ERROR" ∷ "F[2] Z←X÷Y" ∷ "        ^"
        ∷ "8" ∷ [])
        reported []
        ((2, 2) ∷ (3, 3) ∷ (5, 1) ∷ (2, 5) ∷ (3, 6) ∷ (6, 4) ∷ (7, 7) ∷ []) }
    ensures a_statement_that_is_cut_off_has_not_ended { RunsThroughWithin 5
        script.a_failed_statement_ends_too
        ("2" ∷ "4" ∷ "4" ∷ "0" ∷ "3" ∷ [])
        out_of_turns []
        ((2, 2) ∷ (3, 3) ∷ (5, 1) ∷ (2, 5) ∷ []) }
    ensures turns_are_spent_after_a_report_too { RunsThroughWithin 6
        script.a_failed_statement_ends_too
        ("2" ∷ "4" ∷ "4" ∷ "0" ∷ "3"
        ∷ "DOMAIN ERROR" ∷ "F[2] Z←X÷Y" ∷ "        ^"
        ∷ [])
        out_of_turns []
        ((2, 2) ∷ (3, 3) ∷ (5, 1) ∷ (2, 5) ∷ (3, 6) ∷ (6, 4) ∷ []) }
{}
