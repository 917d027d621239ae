//! Which of two errors comes. The function does nothing: its contract is the examples.
ghost use Rattle.std.specs.Prelude.{◌∷◌, []};
ghost use Rattle.apl_model.specs.Immediate.{reported};
ghost use Rattle.apl_model_examples.specs.Precedence as script;
ghost use Rattle.apl_model_examples.specs.Words.{AreTheirTexts, RunsThrough, is_set, number_vector, one_by_one};

/// Which of two errors comes: worked examples.
pub fn examples_of_precedence()
    // the trees are those of the lines
    ensures trees { AreTheirTexts
        (script.a_length_error_comes_before_a_domain_error
        ∷ script.no_rank_error_is_left_out
        ∷ script.a_domain_error_comes_before_an_index_error
        ∷ script.where_a_limit_error_comes_before_a_domain_error
        ∷ script.what_an_interval_and_a_shape_refuse
        ∷ script.what_a_selection_and_a_grade_refuse
        ∷ script.what_bits_and_digits_refuse
        ∷ []) }
    ensures a_length_error_comes_before_a_domain_error { RunsThrough
        script.a_length_error_comes_before_a_domain_error
        ("LENGTH ERROR" ∷ "      1 2/1 2 3" ∷ "         ^"
        ∷ "DOMAIN ERROR" ∷ "      1 2\\1 2 3" ∷ "         ^"
        ∷ "LENGTH ERROR" ∷ "      1 1\\1 2 3" ∷ "         ^"
        ∷ "LENGTH ERROR" ∷ "      'AB'+1 2 3" ∷ "          ^"
        ∷ "RANK ERROR" ∷ "      'AB'+2 2⍴1" ∷ "          ^"
        ∷ "LENGTH ERROR" ∷ "      'AB'↑1 2" ∷ "          ^"
        ∷ "LENGTH ERROR" ∷ "      'AB'⊥1 2 3" ∷ "          ^"
        ∷ "RANK ERROR" ∷ "      'A',2 2⍴1" ∷ "         ^"
        ∷ "DOMAIN ERROR" ∷ "      ¯1⍴⍳0" ∷ "        ^"
        ∷ [])
        reported [] (one_by_one 9) }
    ensures no_rank_error_is_left_out { RunsThrough script.no_rank_error_is_left_out
        ("RANK ERROR" ∷ "      5⍳5" ∷ "       ^"
        ∷ "RANK ERROR" ∷ "      ⍋'A'" ∷ "      ^"
        ∷ "RANK ERROR" ∷ "      1/[1]5" ∷ "       ^"
        ∷ "RANK ERROR" ∷ "      1\\[1]5" ∷ "       ^"
        ∷ "RANK ERROR" ∷ "      ⌽[1]5" ∷ "      ^"
        ∷ "RANK ERROR" ∷ "      (2 2⍴'A')⊤5" ∷ "               ^"
        ∷ "RANK ERROR" ∷ "      ⌽[3]2 2⍴1" ∷ "      ^"
        ∷ [])
        reported [] (one_by_one 7) }
    ensures a_domain_error_comes_before_an_index_error { RunsThrough
        script.a_domain_error_comes_before_an_index_error
        ("DOMAIN ERROR" ∷ "      A[4]←'X'" ∷ "       ^"
        ∷ "LENGTH ERROR" ∷ "      A[4 5]←1 2 3" ∷ "       ^"
        ∷ "LENGTH ERROR" ∷ "      A[1 2]←'XYZ'" ∷ "       ^"
        ∷ "RANK ERROR" ∷ "      A[4;1]←'X'" ∷ "       ^"
        ∷ "RANK ERROR" ∷ "      A[1 2 3]←1 3⍴9" ∷ "       ^"
        ∷ "DOMAIN ERROR" ∷ "      A['B']←9" ∷ "       ^"
        ∷ "INDEX ERROR" ∷ "      A[0]←9" ∷ "       ^"
        ∷ "RANK ERROR" ∷ "      A['B';1]" ∷ "       ^"
        ∷ [])
        reported (is_set "A" (number_vector (1 ∷ 2 ∷ 3 ∷ [])) ∷ []) (one_by_one 9) }
    ensures where_a_limit_error_comes_before_a_domain_error { RunsThrough
        script.where_a_limit_error_comes_before_a_domain_error
        ("LIMIT ERROR" ∷ "      (1048577⍴'A')⊤1048577⍴1" ∷ "                   ^"
        ∷ "LIMIT ERROR" ∷ "      ⍲/1048577 1048577 0⍴1" ∷ "       ^"
        ∷ "LIMIT ERROR" ∷ "      (2 2 2 2⍴'A')∘.+2 2 2 2 2⍴1" ∷ "                   ^"
        ∷ "LIMIT ERROR" ∷ "      (2 2 2 2 2⍴'A')+.+(6⍴2)⍴1" ∷ "                      ^"
        ∷ "INDEX ERROR" ∷ "      (1 2⍴5)[(5⍴1)⍴2;(4⍴1)⍴1]" ∷ "             ^"
        ∷ "LIMIT ERROR" ∷ "      (1 2⍴5)[(5⍴1)⍴1;(4⍴1)⍴1]" ∷ "             ^"
        ∷ "LIMIT ERROR" ∷ "      (1099511627776⍴1),1" ∷ "                       ^"
        ∷ "LIMIT ERROR" ∷ "      1099511627777↑5" ∷ "                   ^"
        ∷ "LIMIT ERROR" ∷ "      1 1 0\\[1]2 549755813888⍴1" ∷ "           ^"
        ∷ [])
        reported [] (one_by_one 9) }
    ensures what_an_interval_and_a_shape_refuse { RunsThrough
        script.what_an_interval_and_a_shape_refuse
        ("RANK ERROR" ∷ "      ⍳1 1⍴3" ∷ "      ^"
        ∷ "LENGTH ERROR" ∷ "      ⍳'AB'" ∷ "      ^"
        ∷ "DOMAIN ERROR" ∷ "      ⍳'A'" ∷ "      ^"
        ∷ "DOMAIN ERROR" ∷ "      ⍳¯1" ∷ "      ^"
        ∷ "RANK ERROR" ∷ "      (2 2⍴1)⍴5" ∷ "             ^"
        ∷ "DOMAIN ERROR" ∷ "      'A'⍴5" ∷ "         ^"
        ∷ "LIMIT ERROR" ∷ "      (9⍴1)⍴5" ∷ "           ^"
        ∷ "1 1 1 1 1 1 1 1" ∷ "1099511627776"
        ∷ "DOMAIN ERROR" ∷ "      'A',1" ∷ "         ^"
        ∷ [])
        reported [] (one_by_one 10) }
    ensures what_a_selection_and_a_grade_refuse { RunsThrough
        script.what_a_selection_and_a_grade_refuse
        ("RANK ERROR" ∷ "      1 2⌽1 2 3" ∷ "         ^"
        ∷ "LENGTH ERROR" ∷ "      1 2 3⌽2 3⍴1" ∷ "           ^"
        ∷ "DOMAIN ERROR" ∷ "      'A'⌽1 2" ∷ "         ^"
        ∷ "LENGTH ERROR" ∷ "      1⍉2 2⍴1" ∷ "       ^"
        ∷ "DOMAIN ERROR" ∷ "      1 3⍉2 2⍴1" ∷ "         ^"
        ∷ "DOMAIN ERROR" ∷ "      0 1⍉2 2⍴1" ∷ "         ^"
        ∷ "DOMAIN ERROR" ∷ "      'A'↑1 2" ∷ "         ^"
        ∷ "DOMAIN ERROR" ∷ "      'A'↓1 2" ∷ "         ^"
        ∷ "DOMAIN ERROR" ∷ "      ⍋'BA'" ∷ "      ^"
        ∷ [])
        reported [] (one_by_one 9) }
    ensures what_bits_and_digits_refuse { RunsThrough script.what_bits_and_digits_refuse
        ("DOMAIN ERROR" ∷ "      2/1 2 3" ∷ "       ^"
        ∷ "RANK ERROR" ∷ "      (1 1⍴1)/1 2" ∷ "             ^"
        ∷ "RANK ERROR" ∷ "      (1 1⍴1)\\1 2" ∷ "             ^"
        ∷ "DOMAIN ERROR" ∷ "      10⊤'A'" ∷ "        ^"
        ∷ "DOMAIN ERROR" ∷ "      0 10⊤¯1" ∷ "          ^"
        ∷ "RANK ERROR" ∷ "      10⊥2 2⍴1" ∷ "        ^"
        ∷ "DOMAIN ERROR" ∷ "      2⊥'A'" ∷ "       ^"
        ∷ "DOMAIN ERROR" ∷ "      'A'⊥1 2" ∷ "         ^"
        ∷ [])
        reported [] (one_by_one 8) }
{}
