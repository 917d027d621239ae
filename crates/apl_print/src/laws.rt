//! Worked texts. The functions do nothing: their contracts are the examples.

ghost use Rattle.std.specs.Prelude.{◌≡◌, [], ◌∷◌, ◌++◌, pos, neg_ℤ, codes};
ghost use Rattle.apl_base.specs.declared.cells.TheConstants.{M};
ghost use Rattle.apl_base.specs.declared.cells.Kind.TheVariants as kind;
ghost use Rattle.apl_base.specs.declared.faults.Cause.TheVariants as cause;
ghost use Rattle.apl_base.specs.declared.faults.ErrorKind.TheVariants as error;
ghost use Rattle.drag_along.specs.declared.leaves.Leaf.TheVariants as leaf;
ghost use Rattle.apl_model.specs.Immediate.{report};
ghost use Rattle.apl_print.specs.Lines.{cost_line, desc_line, refusal_line};
ghost use Rattle.apl_print.specs.Worked.{characters_text, numbers_text, place, script};

/// What arrays print.
pub fn worked_arrays()
    ensures scalar { numbers_text [] (pos 7 ∷ []) ≡ codes "7\n" }
    ensures negative { numbers_text [] (neg_ℤ (pos 12) ∷ []) ≡ codes "¯12\n" }
    ensures greatest { numbers_text [] (M ∷ [])
        ≡ codes "1000000000000000000000000000000000000\n" }
    ensures least { numbers_text [] (neg_ℤ M ∷ [])
        ≡ codes "¯1000000000000000000000000000000000000\n" }
    ensures character { characters_text [] "∆" ≡ codes "∆\n" }

    ensures vector { numbers_text (3 ∷ []) (pos 1 ∷ neg_ℤ (pos 20) ∷ pos 0 ∷ [])
        ≡ codes "1 ¯20 0\n" }
    ensures characters { characters_text (4 ∷ []) "IT'S" ≡ codes "IT'S\n" }
    ensures no_numbers { numbers_text (0 ∷ []) [] ≡ codes "\n" }
    ensures no_characters { characters_text (0 ∷ []) "" ≡ codes "\n" }

    // Each column is as wide as its widest number, and numbers stand at its right end.
    ensures table { numbers_text (2 ∷ 3 ∷ [])
        (pos 1 ∷ neg_ℤ (pos 2) ∷ pos 300 ∷ pos 40 ∷ pos 5 ∷ pos 6 ∷ [])
        ≡ codes " 1 ¯2 300\n40  5   6\n" }
    ensures letters { characters_text (2 ∷ 3 ∷ []) "ABC DE" ≡ codes "ABC\n DE\n" }
    ensures one_column { numbers_text (2 ∷ 1 ∷ []) (pos 5 ∷ pos 10 ∷ []) ≡ codes " 5\n10\n" }

    // The widths are those of the whole array, and an empty line stands between two planes.
    ensures two_planes { numbers_text (2 ∷ 2 ∷ 2 ∷ [])
        (pos 1 ∷ pos 2 ∷ pos 3 ∷ pos 4 ∷ pos 5 ∷ pos 6 ∷ pos 7 ∷ pos 100 ∷ [])
        ≡ codes "1   2\n3   4\n\n5   6\n7 100\n" }
    ensures planes_of_planes { characters_text (2 ∷ 2 ∷ 1 ∷ 2 ∷ []) "ABCDEFGH"
        ≡ codes "AB\n\nCD\n\nEF\n\nGH\n" }

    ensures no_rows { numbers_text (0 ∷ 3 ∷ []) [] ≡ [] }
    ensures no_columns { numbers_text (3 ∷ 0 ∷ []) [] ≡ [] }
    ensures no_planes { characters_text (0 ∷ 2 ∷ 2 ∷ []) "" ≡ [] }
    ensures planes_of_no_rows { characters_text (2 ∷ 0 ∷ 2 ∷ []) "" ≡ [] }
    ensures planes_of_no_columns { characters_text (2 ∷ 2 ∷ 0 ∷ []) "" ≡ [] }
{}

/// What errors report.
pub fn worked_reports()
    ensures outside { report script error.Domain (place 5 4)
        ≡ codes "DOMAIN ERROR\n      2+1÷0 ⍝ no\n         ^\n" }
    ensures in_a_body { report script error.Domain (place 3 2)
        ≡ codes "DOMAIN ERROR\n∆F[2] 1÷0\n       ^\n" }
    ensures first_line { report script error.Limit (place 2 1)
        ≡ codes "LIMIT ERROR\n∆F[1] A←1\n      ^\n" }
    ensures as_written { report script error.Value (place 6 1)
        ≡ codes "VALUE ERROR\n      A⍝\rB\n      ^\n" }
{}

/// The lines of refusals and of the trace.
pub fn worked_lines()
    ensures refusal { refusal_line (record { line = 3; column = 14; cause = cause.DoubleName })
        ≡ codes "REFUSED 3 14 DOUBLE NAME\n" }
    ensures too_long { refusal_line (record { line = 0; column = 0; cause = cause.TooLong })
        ≡ codes "REFUSED 0 0 TOO LONG\n" }
    ensures cost { cost_line (record { line = 1; begun = 20; ops = 300 })
        ≡ codes "COST 1 20 300\n" }
    ensures progression { desc_line (codes "B")
        (leaf.Gen (record { base = pos 3; strides = neg_ℤ (pos 1) ∷ []; shape = 3 ∷ [] }) kind.Num)
        ≡ codes "DESC B G 3 ¯1 3\n" }
    ensures stored { desc_line (codes "∆A")
        (leaf.Stored 7
        (record { base = pos 0; strides = pos 3 ∷ pos 1 ∷ []; shape = 2 ∷ 3 ∷ [] }) kind.Num)
        ≡ codes "DESC ∆A S 7 0 3,1 2,3\n" }
    ensures no_axis { desc_line (codes "A")
        (leaf.Gen (record { base = pos 5; strides = []; shape = [] }) kind.Num)
        ≡ codes "DESC A G 5 - -\n" }
{}
