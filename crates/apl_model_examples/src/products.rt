//! Reductions and products. The function does nothing: its contract is the examples.
ghost use Rattle.std.specs.Prelude.{◌∷◌, []};
ghost use Rattle.apl_model.specs.Immediate.{well, reported};
ghost use Rattle.apl_model_examples.specs.Products as script;
ghost use Rattle.apl_model_examples.specs.Words.{AreTheirTexts, Runs, RunsThrough, is_set, number_table, one_by_one};

/// Reductions and products: worked examples.
pub fn examples_of_products()
    // the trees are those of the lines
    ensures trees { AreTheirTexts
        (script.a_reduction_goes_from_the_right
        ∷ script.an_empty_axis_gives_the_identity
        ∷ script.a_missing_identity
        ∷ script.a_missing_identity_of_no_elements
        ∷ script.a_reduction_along_the_first_axis
        ∷ script.no_third_axis
        ∷ script.a_product_of_two_tables
        ∷ script.a_table_of_products
        ∷ script.sales_by_quarter
        ∷ script.axes_of_products
        ∷ []) }
    ensures a_reduction_goes_from_the_right { Runs script.a_reduction_goes_from_the_right
        "¯1000000000000000000000000000000000000\n¯2\n" well [] }
    ensures an_empty_axis_gives_the_identity { Runs script.an_empty_axis_gives_the_identity
        "0 0\n" well [] }
    ensures a_missing_identity { Runs script.a_missing_identity
        "DOMAIN ERROR\n      ⍲/⍳0\n       ^\n" reported [] }
    ensures a_missing_identity_of_no_elements { Runs script.a_missing_identity_of_no_elements
        "\n" well [] }
    ensures a_reduction_along_the_first_axis { Runs script.a_reduction_along_the_first_axis
        "7 16\n" well [] }
    ensures no_third_axis { Runs script.no_third_axis
        "RANK ERROR\n      +/[3]2 2⍴1\n       ^\n" reported [] }
    ensures a_product_of_two_tables { Runs script.a_product_of_two_tables "19 22\n43 50\n" well [] }
    ensures a_table_of_products { Runs script.a_table_of_products "1 2 3\n2 4 6\nAB\nCD\n" well [] }
    ensures sales_by_quarter { Runs script.sales_by_quarter
        "10 26 42\n15 18 21 24\n5 6 7 8\n 4  3  2 1\n 8  7  6 5\n12 11 10 9\n1  2  3  4\n9 10 11 12\n"
        well
        (is_set "S" (number_table 3 4 (1 ∷ 2 ∷ 3 ∷ 4 ∷ 5 ∷ 6 ∷ 7 ∷ 8 ∷ 9 ∷ 10 ∷ 11 ∷ 12 ∷ [])) ∷ []) }
    ensures axes_of_products { RunsThrough script.axes_of_products
        (" 4  6" ∷ "12 14" ∷ "¯3 ¯5" ∷ "0 ¯1 ¯2" ∷ "1  0 ¯1" ∷ "1 2" ∷ "2 4" ∷ "" ∷ "3 6" ∷ "4 8"
        ∷ "2 3 2" ∷ "1" ∷ [])
        well [] (one_by_one 6) }
{}
