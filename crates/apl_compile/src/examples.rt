//! Codes: worked examples. The functions do nothing: their contracts are the examples.

ghost use Rattle.std.specs.Prelude.{◌≡◌, true, false, pos, ◌∷◌, [], Some, None, codes};
ghost use Rattle.apl_base.specs.declared.rows.Dya.TheVariants as dya;
ghost use Rattle.apl_model.specs.Tree.{nothing};
ghost use Rattle.apl_model.specs.declared.functions.Axis.TheVariants as axis;
ghost use Rattle.apl_model.specs.declared.functions.DyaFn.TheVariants as two;
ghost use Rattle.apl_model.specs.declared.functions.MonFn.TheVariants as one;
ghost use Rattle.apl_model.specs.declared.outlines.OutlineItem.TheVariants as outline;
ghost use Rattle.apl_model_examples.specs.Calls as calls;
ghost use Rattle.apl_model_examples.specs.Errors as errors;
ghost use Rattle.apl_model_examples.specs.Products as products;
ghost use Rattle.apl_model_examples.specs.Subscripts as subscripts;
ghost use Rattle.apl_model_examples.specs.Words.{AreTheirTexts, header, label, unlabelled};
ghost use Rattle.apl_compile.specs.Code.{code_of, ending};
ghost use Rattle.apl_compile.specs.Examples as script;
ghost use Rattle.apl_compile.specs.Examples.{HasCodes, HasItems, applies, body_outline, ends, gives, on_line, prints, puts, puts_all, reads};
ghost use Rattle.apl_compile.specs.declared.codes.Op.TheVariants as op;

/// The codes of small scripts, with each instruction.
pub fn examples_of_code()
    // the trees are those of the lines
    ensures trees { AreTheirTexts
        (script.a_sum_with_a_product
        ∷ script.functions_of_arrays
        ∷ script.positions_of_arrays
        ∷ script.statements_without_a_print
        ∷ script.calls_of_two_functions
        ∷ []) }
    ensures the_right_argument_is_first { HasCodes script.a_sum_with_a_product
        (on_line 1 ((5, puts 3) ∷ (3, puts 2) ∷ (4, applies dya.Mul)
        ∷ (1, reads "A") ∷ (2, applies dya.Add) ∷ prints)
        ∷ []) }
    ensures a_parenthesis_has_none { HasCodes script.functions_of_arrays
        (on_line 1 ((3, reads "A") ∷ (2, op.Mon one.Shape) ∷ prints)
        ∷ on_line 2 ((3, reads "A") ∷ (2, op.Red dya.Add axis.Last) ∷ prints)
        ∷ on_line 3 ((5, reads "B") ∷ (1, reads "A") ∷ (2, op.Outer dya.Mul) ∷ prints)
        ∷ on_line 4 ((5, reads "B") ∷ (1, reads "A") ∷ (3, op.Inner dya.Add dya.Mul) ∷ prints)
        ∷ []) }
    ensures the_last_position_is_first { HasCodes script.positions_of_arrays
        (on_line 1 ((6, reads "C") ∷ (3, reads "B") ∷ (1, reads "A")
        ∷ (2, op.Index (true ∷ false ∷ true ∷ [])) ∷ prints)
        ∷ on_line 2 ((7, reads "C") ∷ (3, reads "B")
        ∷ (2, op.Iasg (codes "A") (true ∷ false ∷ [])) ∷ ends)
        ∷ []) }
    ensures a_statement_prints_once_at_most { HasCodes script.statements_without_a_print
        (on_line 1 ((3, puts 1) ∷ (1, gives "A") ∷ ends)
        ∷ on_line 2 ((3, puts 1) ∷ (1, op.Show) ∷ ends)
        ∷ on_line 3 ((2, reads "A") ∷ (1, op.Goto) ∷ ends)
        ∷ []) }
    ensures a_call_in_parentheses_needs_a_result { HasCodes script.calls_of_two_functions
        (on_line 2 ends
        ∷ on_line 5 ends
        ∷ on_line 7 ((5, reads "B") ∷ (1, reads "A") ∷ (3, op.Call (codes "F") 2 true) ∷ prints)
        ∷ on_line 8 ((4, reads "B") ∷ (2, op.Call (codes "G") 1 false) ∷ prints)
        ∷ []) }
    ensures the_empty_statement { code_of nothing ≡ ending 0 }
{}

/// The codes of scripts without definitions.
pub fn examples_of_statements()
    ensures an_output_in_parentheses { HasCodes
        errors.an_error_comes_before_an_output_to_its_left
        (on_line 1 ((9, puts 0) ∷ (7, puts 5) ∷ (8, applies dya.Div)
        ∷ (4, puts 1) ∷ (2, op.Show) ∷ (6, applies dya.Add) ∷ prints)
        ∷ []) }
    ensures a_position { HasCodes subscripts.a_position_beyond_the_length
        (on_line 1 ((6, puts 4) ∷ (3, puts 3) ∷ (2, op.Mon one.Iota)
        ∷ (5, op.Index (true ∷ [])) ∷ prints)
        ∷ []) }
    ensures a_product_of_two_tables { HasCodes products.a_product_of_two_tables
        (on_line 1 ((21, puts_all (5 ∷ 6 ∷ 7 ∷ 8 ∷ [])) ∷ (17, puts_all (2 ∷ 2 ∷ []))
        ∷ (20, op.Dya two.Reshape)
        ∷ (6, puts_all (1 ∷ 2 ∷ 3 ∷ 4 ∷ [])) ∷ (2, puts_all (2 ∷ 2 ∷ []))
        ∷ (5, op.Dya two.Reshape)
        ∷ (15, op.Inner dya.Add dya.Mul) ∷ prints)
        ∷ []) }
    ensures sales_by_quarter { HasCodes products.sales_by_quarter
        (on_line 2 ((8, puts 12) ∷ (7, op.Mon one.Iota) ∷ (3, puts_all (3 ∷ 4 ∷ []))
        ∷ (6, op.Dya two.Reshape) ∷ (1, gives "S") ∷ ends)
        ∷ on_line 3 ((3, reads "S") ∷ (2, op.Red dya.Add axis.Last) ∷ prints)
        ∷ on_line 4 ((6, reads "S") ∷ (2, op.Red dya.Add (axis.Numbered (pos 1))) ∷ prints)
        ∷ on_line 5 ((3, puts 2) ∷ (1, reads "S") ∷ (2, op.Index (true ∷ false ∷ [])) ∷ prints)
        ∷ on_line 6 ((2, reads "S") ∷ (1, op.Mon (one.Reverse axis.Last)) ∷ prints)
        ∷ on_line 7 ((10, reads "S") ∷ (1, puts_all (1 ∷ 0 ∷ 1 ∷ []))
        ∷ (6, op.Dya (two.Compress (axis.Numbered (pos 1)))) ∷ prints)
        ∷ []) }
    ensures an_indexed_assignment { HasCodes subscripts.a_write_to_an_unset_name
        (on_line 1 ((6, puts 2) ∷ (3, puts 1) ∷ (2, op.Iasg (codes "Q") (true ∷ [])) ∷ ends) ∷ []) }
{}

/// The codes of scripts with definitions: each line of a body has its own.
pub fn examples_of_programs()
    ensures a_call_writes_a_global { HasCodes calls.a_call_writes_a_global
        (on_line 2 ((6, puts 9) ∷ (3, puts 1) ∷ (2, op.Iasg (codes "A") (true ∷ [])) ∷ ends)
        ∷ on_line 3 ((3, puts 0) ∷ (1, gives "Z") ∷ ends)
        ∷ on_line 5 ((3, puts_all (1 ∷ 2 ∷ [])) ∷ (1, gives "A") ∷ ends)
        ∷ on_line 6 ((9, puts 10) ∷ (7, reads "A") ∷ (8, applies dya.Mul)
        ∷ (4, puts 0) ∷ (2, op.Call (codes "F") 1 false) ∷ (6, applies dya.Add) ∷ prints)
        ∷ on_line 7 ((1, reads "A") ∷ prints)
        ∷ []) }
    ensures a_loop_without_end { HasCodes calls.a_loop_without_end
        (on_line 2 ((4, reads "L") ∷ (3, op.Goto) ∷ ends)
        ∷ on_line 4 ((1, op.Call (codes "F") 0 true) ∷ prints)
        ∷ []) }
    ensures a_loop_adds_up { HasCodes calls.a_loop_adds_up
        (on_line 2 ((3, puts 0) ∷ (1, gives "Z") ∷ ends)
        ∷ on_line 3 ((3, puts 1) ∷ (1, gives "I") ∷ ends)
        ∷ on_line 4 ((7, reads "I") ∷ (5, reads "Z") ∷ (6, applies dya.Add) ∷ (3, gives "Z") ∷ ends)
        ∷ on_line 5 ((5, puts 1) ∷ (3, reads "I") ∷ (4, applies dya.Add) ∷ (1, gives "I") ∷ ends)
        ∷ on_line 6 ((6, reads "N") ∷ (4, reads "I") ∷ (5, applies dya.Le)
        ∷ (2, reads "L") ∷ (3, applies dya.Mul) ∷ (1, op.Goto) ∷ ends)
        ∷ on_line 8 ((5, puts 4) ∷ (1, op.Call (codes "SUM") 1 true) ∷ prints)
        ∷ []) }
    ensures the_items_of_a_loop { HasItems calls.a_loop_adds_up
        (outline.Definition 1 7
        (header (Some (codes "Z")) None "SUM" (Some (codes "N")) ("I" ∷ []))
        (body_outline 2 unlabelled
        ∷ body_outline 3 unlabelled
        ∷ body_outline 4 (label "L")
        ∷ body_outline 5 unlabelled
        ∷ body_outline 6 unlabelled
        ∷ [])
        ∷ outline.Statement 8
        ∷ []) }
{}
