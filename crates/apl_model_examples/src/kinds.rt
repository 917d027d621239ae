//! Whether a result has numbers or characters. The function does nothing: its contract is the examples.
ghost use Rattle.std.specs.Prelude.{◌∷◌, []};
ghost use Rattle.apl_model.specs.Immediate.{well};
ghost use Rattle.apl_model_examples.specs.Kinds as script;
ghost use Rattle.apl_model_examples.specs.Words.{AreTheirTexts, RunsThrough, one_by_one};

/// Whether a result has numbers or characters: worked examples.
pub fn examples_of_kinds()
    // the trees are those of the lines
    ensures trees { AreTheirTexts
        (script.what_is_reduced_keeps_its_kind_along_length_1
        ∷ script.nothing_gives_a_catenation_no_kind
        ∷ []) }
    ensures what_is_reduced_keeps_its_kind_along_length_1 { RunsThrough
        script.what_is_reduced_keeps_its_kind_along_length_1
        ("AB" ∷ "A" ∷ "0 0" ∷ "  " ∷ "0 0" ∷ [])
        well [] (one_by_one 5) }
    ensures nothing_gives_a_catenation_no_kind { RunsThrough
        script.nothing_gives_a_catenation_no_kind
        ("1" ∷ "1" ∷ "  " ∷ "0 0" ∷ "0 0" ∷ "0" ∷ [])
        well [] (one_by_one 6) }
{}
