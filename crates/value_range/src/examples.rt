//! Worked examples of the rules, each at the ends of where a row is safe.

ghost use Rattle.std.specs.Prelude.{◌≡◌, ◌^◌, ◌-◌, pos, negsuc, neg_ℤ};
ghost use Rattle.apl_base.specs.declared.cells.Kind.TheVariants as kind;
ghost use Rattle.apl_base.specs.declared.cells.TheConstants.{M};
ghost use Rattle.apl_base.specs.declared.rows.Dya.TheVariants as dya;
ghost use Rattle.apl_base.specs.declared.rows.Mon.TheVariants as mon;
ghost use Rattle.value_range.specs.Examples.{numbers, characters, empty};
ghost use Rattle.value_range.specs.Interval.{ranged1, ranged2, nothing, always, not_safe};

/// Functions of one argument.
pub fn monadic_examples()
    ensures plus { (ranged1 mon.Plus (numbers (neg_ℤ M) M) ≡ always (neg_ℤ M) M)
        × (ranged1 mon.Ceil (numbers (negsuc 2) (pos 5)) ≡ always (negsuc 2) (pos 5))
        × (ranged1 mon.Floor (numbers (negsuc 2) (pos 5)) ≡ always (negsuc 2) (pos 5)) }
    ensures minus { ranged1 mon.Minus (numbers (negsuc 2) M) ≡ always (neg_ℤ M) (pos 3) }
    ensures sign { (ranged1 mon.Sign (numbers (negsuc 3) (pos 0)) ≡ always (negsuc 0) (pos 0))
        × (ranged1 mon.Sign (numbers (pos 2) M) ≡ always (pos 1) (pos 1)) }
    ensures reciprocal { (ranged1 mon.Recip (numbers (pos 1) (pos 1)) ≡ always (pos 1) (pos 1))
        × (ranged1 mon.Recip (numbers (negsuc 0) (negsuc 0)) ≡ always (negsuc 0) (negsuc 0))
        × (ranged1 mon.Recip (numbers (negsuc 0) (pos 1)) ≡ not_safe) }
    ensures magnitude { (ranged1 mon.Abs (numbers (negsuc 2) (pos 2)) ≡ always (pos 0) (pos 3))
        × (ranged1 mon.Abs (numbers (negsuc 4) (negsuc 1)) ≡ always (pos 2) (pos 5))
        × (ranged1 mon.Abs (numbers (pos 2) (pos 5)) ≡ always (pos 2) (pos 5)) }
    ensures not { (ranged1 mon.Not (numbers (pos 0) (pos 0)) ≡ always (pos 1) (pos 1))
        × (ranged1 mon.Not (numbers (pos 0) (pos 1)) ≡ always (pos 0) (pos 1))
        × (ranged1 mon.Not (numbers (pos 0) (pos 2)) ≡ not_safe)
        × (ranged1 mon.Not (numbers (negsuc 0) (pos 1)) ≡ not_safe) }
    ensures factorial { (ranged1 mon.Fact (numbers (pos 0) (pos 19))
        ≡ always (pos 1) (pos 121645100408832000))
        × (ranged1 mon.Fact (numbers (pos 32) (pos 32))
        ≡ always (pos 263130836933693530167218012160000000) (pos 263130836933693530167218012160000000))
        × (ranged1 mon.Fact (numbers (pos 0) (pos 33)) ≡ not_safe)
        × (ranged1 mon.Fact (numbers (negsuc 0) (pos 3)) ≡ not_safe) }
    ensures characters { (ranged1 mon.Plus (characters (pos 97) (pos 98)) ≡ not_safe)
        × (ranged1 mon.Plus (empty kind.Char) ≡ nothing) }
{}

/// Functions that compute with two arguments.
pub fn arithmetic_examples()
    ensures sum { (ranged2 dya.Add (numbers (pos (10 ^ 36 - 1)) M) (numbers (pos 0) (pos 1))
        ≡ not_safe)
        × (ranged2 dya.Add (numbers (neg_ℤ M) (pos 0)) (numbers (pos 0) M) ≡ always (neg_ℤ M) M) }
    ensures difference { (ranged2 dya.Sub (numbers (pos 3) (pos 5)) (numbers (negsuc 0) (pos 4))
        ≡ always (negsuc 0) (pos 6))
        × (ranged2 dya.Sub (numbers (neg_ℤ M) (pos 0)) (numbers (pos 0) (pos 1)) ≡ not_safe) }
    ensures product { (ranged2 dya.Mul (numbers (negsuc 2) (pos 2)) (numbers (negsuc 4) (pos 4))
        ≡ always (negsuc 11) (pos 15))
        × (ranged2 dya.Mul (numbers M M) (numbers (negsuc 0) (pos 1)) ≡ always (neg_ℤ M) M)
        × (ranged2 dya.Mul (numbers M M) (numbers (pos 0) (pos 2)) ≡ not_safe)
        × (ranged2 dya.Mul (numbers M M) (numbers M M) ≡ not_safe) }
    ensures quotient { (ranged2 dya.Div (numbers (negsuc 5) (pos 4)) (numbers (negsuc 0) (negsuc 0))
        ≡ always (negsuc 3) (pos 6))
        × (ranged2 dya.Div (numbers (negsuc 5) (pos 4)) (numbers (pos 1) (pos 1))
        ≡ always (negsuc 5) (pos 4))
        × (ranged2 dya.Div (numbers (negsuc 5) (pos 4)) (numbers (negsuc 0) (pos 1)) ≡ not_safe)
        × (ranged2 dya.Div (numbers (pos 0) (pos 4)) (numbers (pos 2) (pos 2)) ≡ not_safe) }
    ensures power { (ranged2 dya.Pow (numbers (pos 0) (pos 2)) (numbers (pos 0) (pos 3))
        ≡ always (pos 0) (pos 8))
        × (ranged2 dya.Pow (numbers (pos 2) (pos 10)) (numbers (pos 3) (pos 36)) ≡ always (pos 8) M)
        × (ranged2 dya.Pow (numbers (pos 2) (pos 10)) (numbers (pos 3) (pos 37)) ≡ not_safe)
        × (ranged2 dya.Pow (numbers (pos 0) (pos 0)) (numbers (pos 2) (pos 3))
        ≡ always (pos 0) (pos 1))
        × (ranged2 dya.Pow (numbers (negsuc 0) (pos 1)) (numbers (pos 2) (pos 2)) ≡ not_safe)
        × (ranged2 dya.Pow (numbers (pos 1) (pos 1)) (numbers (negsuc 0) (pos 2)) ≡ not_safe) }
    ensures greater { ranged2 dya.Max (numbers (negsuc 2) (pos 5)) (numbers (pos 0) (pos 4))
        ≡ always (pos 0) (pos 5) }
    ensures lesser { ranged2 dya.Min (numbers (negsuc 2) (pos 5)) (numbers (pos 0) (pos 4))
        ≡ always (negsuc 2) (pos 4) }
    ensures residue { (ranged2 dya.Residue
        (numbers (negsuc 2) (negsuc 0)) (numbers (negsuc 8) (pos 9))
        ≡ always (pos 0) (pos 2))
        × (ranged2 dya.Residue (numbers (pos 5) (pos 7)) (numbers (neg_ℤ M) M)
        ≡ always (pos 0) (pos 6))
        × (ranged2 dya.Residue (numbers (pos 0) (pos 7)) (numbers (pos 1) (pos 1)) ≡ not_safe) }
{}

/// Functions that answer 0 or 1, and arguments without elements.
pub fn truth_examples()
    ensures and { (ranged2 dya.And (numbers (pos 0) (pos 1)) (numbers (pos 1) (pos 1))
        ≡ always (pos 0) (pos 1))
        × (ranged2 dya.And (numbers (pos 0) (pos 1)) (numbers (pos 0) (pos 2)) ≡ not_safe) }
    ensures or { ranged2 dya.Or (numbers (negsuc 0) (pos 1)) (numbers (pos 0) (pos 0)) ≡ not_safe }
    ensures nand { ranged2 dya.Nand (numbers (pos 1) (pos 1)) (numbers (pos 1) (pos 1))
        ≡ always (pos 0) (pos 1) }
    ensures nor { ranged2 dya.Nor (numbers (pos 2) (pos 3)) (numbers (pos 0) (pos 1)) ≡ not_safe }
    ensures less { (ranged2 dya.Lt (numbers (neg_ℤ M) M) (numbers (neg_ℤ M) M)
        ≡ always (pos 0) (pos 1))
        × (ranged2 dya.Le (characters (pos 97) (pos 98)) (characters (pos 97) (pos 98)) ≡ not_safe)
        × (ranged2 dya.Ge (numbers (pos 1) (pos 2)) (characters (pos 97) (pos 98)) ≡ not_safe)
        × (ranged2 dya.Gt (numbers (pos 1) (pos 2)) (numbers (pos 3) (pos 3))
        ≡ always (pos 0) (pos 1)) }
    ensures equal { (ranged2 dya.Eq (characters (pos 97) (pos 98)) (numbers (pos 97) (pos 97))
        ≡ always (pos 0) (pos 1))
        × (ranged2 dya.Ne (characters (pos 97) (pos 98)) (characters (pos 97) (pos 98))
        ≡ always (pos 0) (pos 1)) }
    ensures empty { (ranged2 dya.Add (empty kind.Char) (numbers (pos 0) (pos 1)) ≡ nothing)
        × (ranged2 dya.Add (characters (pos 97) (pos 98)) (empty kind.Num) ≡ nothing)
        × (ranged2 dya.Eq (empty kind.Num) (empty kind.Char) ≡ nothing) }
{}
