//! Commands. The function does nothing: its contract is the examples.
ghost use Rattle.std.specs.Prelude.{◌∷◌, []};
ghost use Rattle.apl_model.specs.Immediate.{well, reported};
ghost use Rattle.apl_model_examples.specs.Commands as script;
ghost use Rattle.apl_model_examples.specs.Words.{AreTheirTexts, Runs, RunsThrough, is_set, is_unset, number_scalar, one_by_one};

/// Commands: worked examples.
pub fn examples_of_commands()
    // the trees are those of the lines
    ensures trees { AreTheirTexts
        (script.names_are_listed_and_erased
        ∷ script.functions_are_listed_in_order_of_bytes
        ∷ script.an_unset_name_is_passed_over
        ∷ script.names_differ_at_their_first_differing_byte
        ∷ []) }
    ensures names_are_listed_and_erased { Runs script.names_are_listed_and_erased
        "A B\nA\n\n" well (is_unset "B" ∷ is_set "A" (number_scalar 2) ∷ []) }
    ensures functions_are_listed_in_order_of_bytes { Runs
        script.functions_are_listed_in_order_of_bytes "E F ⍙G\n" well [] }
    ensures an_unset_name_is_passed_over { Runs script.an_unset_name_is_passed_over
        "\nVALUE ERROR\n      A\n      ^\n" reported (is_unset "A" ∷ []) }
    ensures names_differ_at_their_first_differing_byte { RunsThrough
        script.names_differ_at_their_first_differing_byte
        ("A AB BA Z9 Z_ a ∆ ⍙" ∷ "FG GF" ∷ [])
        well
        (is_set "BA" (number_scalar 1) ∷ is_set "AB" (number_scalar 1)
        ∷ is_set "A" (number_scalar 1) ∷ is_set "Z_" (number_scalar 2)
        ∷ is_set "Z9" (number_scalar 2) ∷ is_set "a" (number_scalar 2)
        ∷ is_set "∆" (number_scalar 2) ∷ is_set "⍙" (number_scalar 2) ∷ [])
        (one_by_one 2) }
{}
