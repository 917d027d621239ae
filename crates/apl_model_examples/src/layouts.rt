//! Printed arrays of more than two axes, and of no elements. The function does nothing: its contract is the examples.
ghost use Rattle.std.specs.Prelude.{◌∷◌, []};
ghost use Rattle.apl_model.specs.Immediate.{well};
ghost use Rattle.apl_model_examples.specs.Layouts as script;
ghost use Rattle.apl_model_examples.specs.Words.{AreTheirTexts, RunsThrough, one_by_one};

/// Printed arrays of more than two axes, and of no elements: worked examples.
pub fn examples_of_layouts()
    // the trees are those of the lines
    ensures trees { AreTheirTexts
        (script.an_empty_line_stands_between_two_planes
        ∷ []) }
    ensures an_empty_line_stands_between_two_planes { RunsThrough
        script.an_empty_line_stands_between_two_planes
        ("1   2" ∷ "3   4" ∷ "" ∷ "5   6" ∷ "7 100" ∷ "AB" ∷ "" ∷ "CD" ∷ "" ∷ "EF" ∷ "" ∷ "GH" ∷ ""
        ∷ "¯12" ∷ [])
        well [] (one_by_one 7) }
{}
