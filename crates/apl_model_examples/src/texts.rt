//! Texts and printed arrays. The function does nothing: its contract is the examples.
ghost use Rattle.std.specs.Prelude.{◌∷◌, []};
ghost use Rattle.apl_model.specs.Immediate.{well};
ghost use Rattle.apl_model_examples.specs.Texts as script;
ghost use Rattle.apl_model_examples.specs.Words.{AreTheirTexts, Runs};

/// Texts and printed arrays: worked examples.
pub fn examples_of_texts()
    // the trees are those of the lines
    ensures trees { AreTheirTexts
        (script.a_doubled_quote_is_one_quote
        ∷ script.columns_are_right_justified
        ∷ script.an_empty_vector_prints_an_empty_line
        ∷ []) }
    ensures a_doubled_quote_is_one_quote { Runs script.a_doubled_quote_is_one_quote
        "IT'S\n\n2\n AB\n" well [] }
    ensures columns_are_right_justified { Runs script.columns_are_right_justified
        "10  ¯3\n 4 500\n" well [] }
    ensures an_empty_vector_prints_an_empty_line { Runs script.an_empty_vector_prints_an_empty_line
        "\n" well [] }
{}
